//! When a flat module means what the written trees mean that it is built of.
//!
//! No code: each function states a law that definitions and proofs above cite. Knows nothing of how
//! flat modules are built.
#![tactic(auto)]

ghost use Rattle.std.specs.Prelude.{◌≡◌, ℕ, ◌<◌, true, false, List, [], ◌∷◌, ◌++◌};
ghost use Rattle.std.specs.Prelude.{Option, Some, None};
ghost use Rattle.std.specs.Prelude.{length, map, slice_get};
ghost use Rattle.tla_symbols.specs.declared.lexeme.Lexeme.{Lexeme};
ghost use Rattle.tla_symbols.specs.declared.lexeme.Span.{Span};
ghost use Rattle.tla_tree.specs.declared.form.Form.TheVariants as Form;
ghost use Rattle.tla_tree.specs.Forms.{helps};
ghost use Rattle.tla_tree.specs.Syntax as tree;
ghost use Rattle.tla_tree.specs.Syntax.{Tree, Trees};
ghost use Rattle.tla_model.specs.Tables.{Named};
ghost use Rattle.tla_model.specs.Entities.{Meaning, Operator, Text, defines};
ghost use Rattle.tla_model.specs.Contexts.{Context};
ghost use Rattle.module_model.specs.Exports.{Exports, Known};
ghost use Rattle.kind_text.specs.ExpandedKind.{Expanded, Operands};
ghost use Rattle.kind_text.specs.FlatModule.{Definition, Extends, FlatModule, Form as NodeForm};
ghost use Rattle.kind_text.specs.FlatModule.{Instance, IsOrdered, Node, Replacement};
ghost use Rattle.kind_text.specs.Substitution.{Item, texts};
ghost use Rattle.kind_text.specs.Expansion as expansion;
ghost use Rattle.tree_kinds.specs.Standing.{Environment, Outside, Steps, Value, applied_to};
ghost use Rattle.tree_kinds.specs.Standing.{item_of, same_standing, with_entries};
ghost use Rattle.tree_kinds.specs.Expanding.{Around, at_names, before_scope, behind_definition};
ghost use Rattle.tree_kinds.specs.Expanding.{bringing, defined_value, expand, in_scope, module_of};
ghost use Rattle.tree_kinds.specs.Expanding.{places_at, with_parameters};
ghost use Rattle.flat_trees.specs.Stands.{AreStanding, Defined, Fits, IsStanding, Matches};
ghost use Rattle.flat_trees.specs.Stands.{Stand, Through};
ghost use Rattle.flat_trees.specs.Names.{IsBuilt, IsPath, order_by};
ghost use Rattle.flat_trees.specs.Layouts.{Agrees, Gives, IsBody, IsBuiltAt, IsMeant, Layout};
ghost use Rattle.flat_trees.specs.Layouts.{IsDeclaredAs, StandsBefore, around_in, layout_declaring};
ghost use Rattle.flat_trees.specs.Layouts.{Stands, around_repeating, function_text, layout_before};
ghost use Rattle.flat_trees.specs.Layouts.{layout_behind, layout_in, layout_repeating, layout_with};
ghost use Rattle.flat_trees.specs.Layouts.{order_of, parameters_of, with_brought};
ghost use Rattle.flat_trees.specs.Instances.{AllStay, ArePutIn, IsMadeInstance, IsModule};
ghost use Rattle.flat_trees.specs.Instances.{IsModuleBehind, IsStaying, PutsInBehind, StaysIn};
ghost use Rattle.flat_trees.specs.Instances.{instance_in, with_symbols};
ghost use Rattle.flat_trees.specs.Growing.{IsLayoutWithin, IsWithin};

/// A node that is built of a written tree, over a frame where names stand for what they do round
/// the tree, is what the tree expands to: the same expression, or the same operator on its
/// operands. And a node that is built of a path of names is what stands there.
pub fn built_nodes_are_expanded()
    ensures trees { (flat : FlatModule) (i : ℕ) (node : Node) (s : List Item) (text : Text)
        (known : Known) (named : List ℕ → Outside) (stands : Meaning → Stand) (around : Around)
        (x : Tree) → IsOrdered flat → slice_get flat.nodes i ≡ Some node
        → AreStanding flat s stands around.standing
        → IsBuilt text known named stands around x node.form
        (expansion.items (expansion.text flat) node.parts s)
        → Matches (order_by (places_at text known named around.context x))
        (expansion.text flat i s) (expand text known named around x) }
    ensures names { (flat : FlatModule) (i : ℕ) (node : Node) (s : List Item)
        (stands : Meaning → Stand) (around : Around) (places : Option ℕ) (path : Steps)
        → IsOrdered flat → slice_get flat.nodes i ≡ Some node
        → AreStanding flat s stands around.standing
        → IsPath stands around.context places path node.form
        (expansion.items (expansion.text flat) node.parts s)
        → Matches (order_by places) (expansion.text flat i s)
        (item_of places (λ more. at_names around (applied_to path more))) }
{}

/// A node that is built of a tree, for each frame that agrees with what stands round the tree,
/// means the tree: it expands to what the tree expands to, by its order, and whatever more the
/// frame has.
pub fn built_nodes_are_meant()
    ensures { (flat : FlatModule) (i : ℕ) (node : Node) (text : Text) (known : Known)
        (named : List ℕ → Outside) (layout : Layout) (x : Tree) → IsOrdered flat
        → slice_get flat.nodes i ≡ Some node → IsBuiltAt flat text known named layout node x
        → IsMeant flat text known named layout i x }
{}

/// A node means a body where it means the expression, and behind a definition, where it means the
/// rest with the name of the definition standing for what that gives.
pub fn bodies_are_meant()
    ensures expressions { (flat : FlatModule) (text : Text) (known : Known)
        (named : List ℕ → Outside) (layout : Layout) (i : ℕ) (form : Form.the_data) (at : Span)
        (parts rest : Trees) → helps form ≡ false
        → places_at text known named layout.context (tree.Node form at parts) ≡ None
        → IsMeant flat text known named layout i (tree.Node form at parts)
        → IsBody flat text known named layout i (tree.Cons (tree.Node form at parts) rest) }
    ensures definitions { (flat : FlatModule) (text : Text) (known : Known)
        (named : List ℕ → Outside) (layout : Layout) (i : ℕ) (form : Form.the_data) (at : Span)
        (parts rest : Trees) (stand : Stand) → helps form ≡ true
        → Stands flat layout stand
        (λ around. defined_value text known named around (tree.Node form at parts))
        → IsBody flat text known named (layout_behind text layout (tree.Node form at parts) stand)
        i rest
        → IsBody flat text known named layout i (tree.Cons (tree.Node form at parts) rest) }
{}

/// The name of a definition stands for what the definition gives: of an operator, where the root
/// means the body with the parameters at the next places; of a function, where the root gives the
/// form; and of a module definition, where the instance puts in what replaces the symbols of the
/// module, behind those of the modules round it, which stay, and its names stand so over these.
pub fn definitions_stand()
    ensures operators { (flat : FlatModule) (text : Text) (known : Known)
        (named : List ℕ → Outside) (layout : Layout) (form : Form.the_data) (l : Lexeme) (at : Span)
        (parts : Trees) (d : ℕ) (x : Definition) → defines form ≡ Operator l
        → slice_get flat.definitions d ≡ Some x → x.outer ≡ layout.places
        → IsBody flat text known named (layout_with text layout form parts) x.root parts
        → Stands flat layout (Defined d (map order_of (parameters_of text form parts)))
        (λ around. defined_value text known named around (tree.Node form at parts)) }
    ensures functions { (flat : FlatModule) (text : Text) (known : Known)
        (named : List ℕ → Outside) (layout : Layout) (l : Lexeme) (at : Span) (parts : Trees)
        (d : ℕ) (x : Definition) → slice_get flat.definitions d ≡ Some x
        → x.outer ≡ layout.places
        → Gives flat layout x.root
        (λ around. function_text text known named around (Form.FunctionDefinition l) parts)
        → Stands flat layout (Defined d []) (λ around.
        defined_value text known named around (tree.Node (Form.FunctionDefinition l) at parts)) }
    ensures instances { (flat : FlatModule) (text : Text) (known : Known)
        (named : List ℕ → Outside) (layout : Layout) (own : Lexeme) (at : Span) (parts : Trees)
        (j : ℕ) (x : Instance) (l : Lexeme) (rights : Trees) (staying made : List Replacement)
        (base : Meaning → Stand) (inner : Named → Stand)
        → IsMadeInstance flat layout j x
        (length (parameters_of text (Form.ModuleDefinition own) parts)) true
        → PutsInBehind x staying made → instance_in parts ≡ Some (l, rights)
        → IsModuleBehind flat base (length staying) inner (module_of text known named l)
        → ((meaning : Meaning) → StaysIn flat staying (base meaning)
        ((layout_with text layout (Form.ModuleDefinition own) parts).stands meaning))
        → ArePutIn flat text known named (layout_with text layout (Form.ModuleDefinition own) parts)
        made l rights
        → Stands flat layout
        (Through j (map order_of (parameters_of text (Form.ModuleDefinition own) parts)) inner)
        (λ around.
        defined_value text known named around (tree.Node (Form.ModuleDefinition own) at parts)) }
{}

/// A frame that agrees with what stands round a tree agrees in the scope of a form and before it;
/// with items for its parameters behind it; behind a definition whose name stands for what it
/// gives; with an item for one symbol more, at the next place; and where `@` repeats other nodes.
/// What names stand for over a frame they stand for over a longer one, and symbols over a shorter
/// one that has their places. With what an INSTANCE without a name brings, names stand for what
/// stands behind it, and with what an extended module brings, for what stands in that.
pub fn agreement_is_kept()
    ensures scopes { (flat : FlatModule) (text : Text) (known : Known) (named : List ℕ → Outside)
        (layout : Layout) (frame : List Item) (around : Around) (form : Form.the_data)
        (parts : Trees) → Agrees flat layout frame around
        → Agrees flat (layout_in text layout form parts) frame
        (in_scope text known named around form parts) }
    ensures before { (flat : FlatModule) (text : Text) (known : Known) (named : List ℕ → Outside)
        (layout : Layout) (frame : List Item) (around : Around) (form : Form.the_data)
        (parts : Trees) → Agrees flat layout frame around
        → Agrees flat (layout_before text layout form parts) frame
        (before_scope text known named around form parts) }
    ensures parameters { (flat : FlatModule) (text : Text) (known : Known)
        (named : List ℕ → Outside) (layout : Layout) (frame : List Item) (around : Around)
        (form : Form.the_data) (parts : Trees) (made arguments : List Item)
        → Agrees flat layout frame around
        → Fits (map order_of (parameters_of text form parts)) made arguments
        → Agrees flat (layout_with text layout form parts) (frame ++ made)
        (with_parameters text known named around form parts arguments) }
    ensures definitions { (flat : FlatModule) (text : Text) (known : Known)
        (named : List ℕ → Outside) (layout : Layout) (frame : List Item) (around : Around)
        (x : Tree) (stand : Stand) (value : Value) → Agrees flat layout frame around
        → IsStanding flat frame [] stand value
        → Agrees flat (layout_behind text layout x stand) frame
        (behind_definition text known named around x value) }
    ensures olds { (flat : FlatModule) (layout : Layout) (frame : List Item) (around : Around)
        (olds : List ℕ) (old : Operands) → Agrees flat layout frame around
        → ((more : List Item)
        → texts (expansion.items (expansion.text flat) olds (frame ++ more)) ≡ old)
        → Agrees flat (layout_repeating layout olds) frame (around_repeating around old) }
    ensures longer { (flat : FlatModule) (frame more : List Item) (stands : Meaning → Stand)
        (standing : Environment) → AreStanding flat frame stands standing
        → AreStanding flat (frame ++ more) stands standing }
    ensures brought { (flat : FlatModule) (text : Text) (known : Known) (named : List ℕ → Outside)
        (layout : Layout) (frame : List Item) (around : Around) (j : ℕ) (x : Instance) (l : Lexeme)
        (at : Span) (rights : Trees) (staying made : List Replacement) (base : Meaning → Stand)
        (inner : Named → Stand) (entries : Exports) → IsMadeInstance flat layout j x 0 false
        → PutsInBehind x staying made
        → IsModuleBehind flat base (length staying) inner (module_of text known named l)
        → ((meaning : Meaning) → StaysIn flat staying (base meaning) (layout.stands meaning))
        → ArePutIn flat text known named layout made l rights → Agrees flat layout frame around
        → AreStanding flat frame (with_brought layout.stands entries j inner)
        (bringing text known named around entries (tree.Node (Form.Instance l) at rights)) }
    ensures extended { (flat : FlatModule) (layout : Layout) (frame : List Item)
        (standing parameters : Environment) (j : ℕ) (x : Instance) (outside : Outside)
        (stands here : Meaning → Stand) (places : ℕ) (inner : Named → Stand) (entries : Exports)
        → IsMadeInstance flat layout j x 0 false → length x.replacements ≡ places
        → IsModule flat stands places inner outside
        → ((meaning : Meaning) → StaysIn flat x.replacements (stands meaning) (here meaning))
        → length frame ≡ layout.places → AreStanding flat frame here parameters
        → AreStanding flat frame layout.stands standing
        → AreStanding flat frame (with_brought layout.stands entries j inner)
        (with_entries standing entries (outside.standing parameters)) }
    ensures declared { (flat : FlatModule) (layout : Layout) (frame : List Item) (around : Around)
        (context : Context) (next : Meaning → Stand) (x : Item) → Agrees flat layout frame around
        → ((meaning : Meaning)
        → IsDeclaredAs layout x (around.standing meaning) (layout.stands meaning) (next meaning))
        → Agrees flat (layout_declaring layout context next) (frame ++ (x ∷ []))
        (around_in around context) }
    ensures shorter { (flat : FlatModule) (frame more : List Item) (stands : Meaning → Stand)
        (standing : Environment)
        → ((meaning : Meaning) → StandsBefore (length frame) (stands meaning))
        → AreStanding flat (frame ++ more) stands standing
        → AreStanding flat frame stands standing }
{}

/// The symbols of a module stay in an instance of it whose replacements are parameters for them: a
/// node that is a parameter is the item at its place; symbols that are so put in, in their order,
/// stand for what they do here; and those that mean the same stand for the same.
pub fn symbols_stay()
    ensures nodes { (flat : FlatModule) (r : Replacement) (node : Node) (place : ℕ)
        → IsOrdered flat → slice_get flat.nodes r.root ≡ Some node
        → node.form ≡ NodeForm.Parameter place → IsStaying flat r place }
    ensures symbols { (flat : FlatModule) (made : List Replacement) (base here : Meaning → Stand)
        (symbols : List Meaning) (number : ℕ)
        → ((meaning : Meaning) → StaysIn flat made (base meaning) (here meaning))
        → AllStay flat made here symbols number → (meaning : Meaning)
        → StaysIn flat made (with_symbols base symbols number meaning) (here meaning) }
    ensures same { (base : Meaning → Stand) (symbols : List Meaning) (place : ℕ) (a b : Meaning)
        → same_standing a b ≡ true → base a ≡ base b
        → with_symbols base symbols place a ≡ with_symbols base symbols place b }
{}

/// What a flat module has means the same in one that has more, where what stands round a node is
/// there already: nodes mean the same trees and give the same expressions, names stand for the
/// same, and the names of modules stand so over their symbols.
pub fn meaning_is_kept()
    ensures trees { (flat more : FlatModule) (text : Text) (known : Known)
        (named : List ℕ → Outside) (layout : Layout) (i : ℕ) (x : Tree) → Extends flat more
        → IsOrdered flat → IsLayoutWithin flat layout → i < length flat.nodes
        → IsMeant flat text known named layout i x → IsMeant more text known named layout i x }
    ensures expressions { (flat more : FlatModule) (layout : Layout) (i : ℕ)
        (gives : Around → Expanded) → Extends flat more → IsOrdered flat
        → IsLayoutWithin flat layout → i < length flat.nodes
        → Gives flat layout i gives → Gives more layout i gives }
    ensures names { (flat more : FlatModule) (layout : Layout) (stand : Stand)
        (value : Around → Value) → Extends flat more → IsOrdered flat
        → IsLayoutWithin flat layout → IsWithin flat stand
        → Stands flat layout stand value → Stands more layout stand value }
    ensures modules { (flat more : FlatModule) (stands : Meaning → Stand) (places : ℕ)
        (inner : Named → Stand) (outside : Outside) → Extends flat more → IsOrdered flat
        → ((meaning : Meaning) → IsWithin flat (stands meaning))
        → ((name : Named) → IsWithin flat (inner name))
        → IsModule flat stands places inner outside → IsModule more stands places inner outside }
    ensures within { (flat more : FlatModule) (layout : Layout) → Extends flat more
        → IsLayoutWithin flat layout → IsLayoutWithin more layout }
{}
