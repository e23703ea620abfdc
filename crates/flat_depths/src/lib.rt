//! How deep the nodes of a flat module are that are built of written trees.
//!
//! No code: each function states a law that definitions and proofs above cite. Knows nothing of how
//! flat modules are built.
#![tactic(auto)]

ghost use Rattle.std.specs.Prelude.{◌≡◌, ℕ, ◌<◌, Bool, true, false, List, [], ◌∷◌, ◌++◌, Option};
ghost use Rattle.std.specs.Prelude.{Some, length, map, max, slice_get};
ghost use Rattle.std.specs.List.{AllByRecursion};
ghost use Rattle.tla_symbols.specs.declared.lexeme.Lexeme.{Lexeme};
ghost use Rattle.tla_symbols.specs.declared.lexeme.Span.{Span};
ghost use Rattle.tla_tree.specs.declared.form.Form.TheVariants as Form;
ghost use Rattle.tla_tree.specs.Forms.{helps};
ghost use Rattle.tla_tree.specs.Syntax as tree;
ghost use Rattle.tla_tree.specs.Syntax.{Tree, Trees};
ghost use Rattle.unit_grammar.specs.Units.{ModuleUnits, UnitTree};
ghost use Rattle.tla_model.specs.Tables.{Named};
ghost use Rattle.tla_model.specs.Entities.{Meaning, Operator, Text, defines};
ghost use Rattle.tla_model.specs.Contexts.{Context};
ghost use Rattle.tla_model.specs.Scopes.{has_set};
ghost use Rattle.module_scope.specs.Environments.{first as first_scope};
ghost use Rattle.module_model.specs.Exports.{Exports, Known, ModuleView, exports_of};
ghost use Rattle.module_model.specs.Modules.{text_of};
ghost use Rattle.module_model.specs.Resolution.{words_of};
ghost use Rattle.kind_text.specs.FlatModule.{Definition, Extends, FlatModule, Form as NodeForm};
ghost use Rattle.kind_text.specs.FlatModule.{Instance, IsOrdered, Node, Replacement};
ghost use Rattle.kind_text.specs.Substitution.{Item};
ghost use Rattle.level_text.specs.Depth.{depth, greatest, parameters_on};
ghost use Rattle.level_text.specs.Depth as flat_depth;
ghost use Rattle.tree_kinds.specs.Standing.{Outside, Reached, Step, Steps};
ghost use Rattle.tree_kinds.specs.Expanding.{Around, module_of};
ghost use Rattle.tree_kinds.specs.TreeDepths as written;
ghost use Rattle.tree_kinds.specs.TreeDepths.{Beneath, Depths, before_scope, behind_depth, deeper};
ghost use Rattle.tree_kinds.specs.TreeDepths.{defined_depth, in_scope, no_depths, parts_depth};
ghost use Rattle.tree_kinds.specs.TreeDepths.{reached_at, replaced_depth, use_depth};
ghost use Rattle.tree_kinds.specs.TreeDepths.{with_entry_depths};
ghost use Rattle.module_kinds.specs.ModuleKinds as module_kinds;
ghost use Rattle.module_kinds.specs.ModuleKinds.{KindState, after, beneath, first, outside_by};
ghost use Rattle.flat_trees.specs.Stands.{Defined, Stand, Through};
ghost use Rattle.flat_trees.specs.Names.{IsBuilt, IsPath};
ghost use Rattle.flat_trees.specs.Layouts.{Layout, layout_before, layout_behind, layout_declaring};
ghost use Rattle.flat_trees.specs.Layouts.{layout_in, layout_repeating, layout_with, parameters_of};
ghost use Rattle.flat_trees.specs.Layouts.{with_brought};
ghost use Rattle.flat_trees.specs.Instances.{instance_in};
ghost use Rattle.flat_trees.specs.Growing.{IsLayoutWithin, IsWithin};
ghost use Rattle.flat_kinds.specs.Readings.{Extension, KeepsState, exported_stand};
ghost use Rattle.flat_kinds.specs.Modules.{Coming, Current, IsCurrentWithin, first_current};
ghost use Rattle.flat_kinds.specs.Modules.{here_behind, module_stands, round_behind};
ghost use Rattle.flat_depths.specs.Depths.{AgreesInDepth, HasDepths, HaveDepths, IsAsDeep};
ghost use Rattle.flat_depths.specs.Depths.{IsDeclaredPlain, IsDeepModule, IsPlain, beneath_in};
ghost use Rattle.flat_depths.specs.Parts.{AreEachAsDeep, AreOnPath, AreReplacedAsDeep};
ghost use Rattle.flat_depths.specs.Parts.{AreRightSides, Counts, HasParts, path_of};
ghost use Rattle.flat_depths.specs.Modules.{AreDeepExtensions, IsDeepAlong, IsDeepRead, KeepDepths};

/// A node that is built of a written tree, where names are as deep as what they mean round the tree
/// and where its parts are as deep as those of the tree, is as deep as the tree. And a node that is
/// built of a path of names is as deep as a use of what stands there.
pub fn built_nodes_are_as_deep()
    ensures trees { (flat : FlatModule) (i : ℕ) (node : Node) (made : List Item) (text : Text)
        (known : Known) (named : List ℕ → Outside) (stands : Meaning → Stand) (around : Around)
        (beneath : Beneath) (x : Tree) → IsOrdered flat → slice_get flat.nodes i ≡ Some node
        → around.context ≡ beneath.context → HaveDepths flat stands beneath.depths
        → IsBuilt text known named stands around x node.form made
        → HasParts flat text known named beneath x node.form node.parts
        → IsAsDeep flat text known named beneath i x }
    ensures names { (flat : FlatModule) (i : ℕ) (node : Node) (made : List Item)
        (stands : Meaning → Stand) (beneath : Beneath) (places : Option ℕ) (path : Steps) (n : ℕ)
        → IsOrdered flat → slice_get flat.nodes i ≡ Some node
        → HaveDepths flat stands beneath.depths
        → IsPath stands beneath.context places path node.form made
        → Counts flat node.form node.parts n
        → depth flat i ≡ max (use_depth (reached_at beneath (map (λ (step : Step). step.name) path))
        n) (greatest (depth flat) node.parts) }
{}

/// Nodes are together as deep as the parts of a form where the first ones are as deep as the first
/// part, and the others as the rest: an expression, another part, or one with a set outside of the
/// scope. The nodes of the arguments on a path are those that a node of a name has to have.
pub fn parts_are_joined()
    ensures nodes { (f : ℕ → ℕ) (is js : List ℕ)
        → greatest f (is ++ js) ≡ max (greatest f is) (greatest f js) }
    ensures expressions { (flat : FlatModule) (text : Text) (known : Known)
        (named : List ℕ → Outside) (outside around : Beneath) (form : Form.the_data) (at : Span)
        (parts rest : Trees) (i : ℕ) (is : List ℕ) → helps form ≡ false
        → IsAsDeep flat text known named around i (tree.Node form at parts)
        → greatest (depth flat) is ≡ parts_depth text known named outside around rest
        → greatest (depth flat) (i ∷ is)
        ≡ parts_depth text known named outside around (tree.Cons (tree.Node form at parts) rest) }
    ensures others { (flat : FlatModule) (text : Text) (known : Known) (named : List ℕ → Outside)
        (outside around : Beneath) (form : Form.the_data) (at : Span) (parts rest : Trees)
        (is js : List ℕ) → has_set form ≡ false
        → greatest (depth flat) is
        ≡ written.depth text known named around (tree.Node form at parts)
        → greatest (depth flat) js ≡ parts_depth text known named outside around rest
        → greatest (depth flat) (is ++ js)
        ≡ parts_depth text known named outside around (tree.Cons (tree.Node form at parts) rest) }
    ensures sets { (flat : FlatModule) (text : Text) (known : Known) (named : List ℕ → Outside)
        (outside around : Beneath) (form : Form.the_data) (at : Span) (parts rest : Trees)
        (is js : List ℕ) → has_set form ≡ true
        → greatest (depth flat) is ≡ parts_depth text known named outside outside parts
        → greatest (depth flat) js ≡ parts_depth text known named outside around rest
        → greatest (depth flat) (is ++ js)
        ≡ parts_depth text known named outside around (tree.Cons (tree.Node form at parts) rest) }
    ensures arguments { (flat : FlatModule) (text : Text) (known : Known)
        (named : List ℕ → Outside) (around : Beneath) (at : Span) (segments : Trees)
        (form : NodeForm) (before own : List ℕ)
        → AreOnPath flat text known named around segments before own
        → length before ≡ parameters_on flat (depth flat) (path_of form)
        → HasParts flat text known named around (tree.Node Form.Identifier at segments) form
        (before ++ own) }
{}

/// The name of a definition is as deep as what is written: of an operator or of a function, where
/// the root is as deep as what stands in the definition; and of a module definition, where the
/// replacements of the instance are as deep as those of the INSTANCE, behind symbols that stay, and
/// where the names of the module are as deep as outside of it. Replacements are so together where
/// each is as deep as what replaces its symbol. Symbols that stay have no depth.
pub fn definitions_are_as_deep()
    ensures operators { (flat : FlatModule) (text : Text) (known : Known)
        (named : List ℕ → Outside) (around : Beneath) (form : Form.the_data) (l : Lexeme)
        (at : Span) (parts : Trees) (d : ℕ) (x : Definition) (orders : List ℕ)
        → defines form ≡ Operator l → slice_get flat.definitions d ≡ Some x
        → IsAsDeep flat text known named around x.root (tree.Node form at parts)
        → HasDepths flat 0 (Defined d orders)
        (defined_depth text known named around (tree.Node form at parts)) }
    ensures functions { (flat : FlatModule) (text : Text) (known : Known)
        (named : List ℕ → Outside) (around : Beneath) (l : Lexeme) (at : Span) (parts : Trees)
        (d : ℕ) (x : Definition) (orders : List ℕ) → slice_get flat.definitions d ≡ Some x
        → IsAsDeep flat text known named around x.root
        (tree.Node (Form.FunctionDefinition l) at parts)
        → HasDepths flat 0 (Defined d orders)
        (defined_depth text known named around (tree.Node (Form.FunctionDefinition l) at parts)) }
    ensures instances { (flat : FlatModule) (text : Text) (known : Known)
        (named : List ℕ → Outside) (around : Beneath) (own : Lexeme) (at : Span) (parts : Trees)
        (j : ℕ) (x : Instance) (orders : List ℕ) (staying made : List Replacement) (l : Lexeme)
        (rights : Trees) (inner : Named → Stand) → slice_get flat.instances j ≡ Some x
        → x.replacements ≡ staying ++ made
        → AllByRecursion (λ r. depth flat r.root ≡ 0) staying
        → instance_in parts ≡ Some (l, rights)
        → AreReplacedAsDeep flat text known named
        (in_scope text known named around (Form.ModuleDefinition own) parts) made l rights
        → IsDeepModule flat inner (module_of text known named l)
        → HasDepths flat 0 (Through j orders inner)
        (defined_depth text known named around (tree.Node (Form.ModuleDefinition own) at parts)) }
    ensures replacements { (flat : FlatModule) (text : Text) (known : Known)
        (named : List ℕ → Outside) (around : Beneath) (made : List Replacement) (l : Lexeme)
        (rights : Trees) → AreRightSides text
        (map (λ parameter. parameter.0) (module_of text known named l).view.parameters) [] rights
        → AreEachAsDeep flat text known named around rights
        (module_of text known named l).view.parameters made
        → AreReplacedAsDeep flat text known named around made l rights }
    ensures staying { (flat : FlatModule) (r : Replacement) (node : Node) (place : ℕ)
        → IsOrdered flat → slice_get flat.nodes r.root ≡ Some node
        → node.form ≡ NodeForm.Parameter place → node.parts ≡ [] → depth flat r.root ≡ 0 }
{}

/// Names are as deep as what they mean in the scope of a form and before it; with parameters, which
/// have no depth; behind a definition whose name is as deep as what is written; with one symbol
/// more; and where `@` repeats other nodes. So they are with what an INSTANCE without a name
/// brings, where its replacements are as deep as those of the instance, and with what an extended
/// module brings, where no replacement has a depth.
pub fn depths_agree()
    ensures scopes { (flat : FlatModule) (text : Text) (known : Known) (named : List ℕ → Outside)
        (layout : Layout) (around : Beneath) (form : Form.the_data) (parts : Trees)
        → AgreesInDepth flat layout around
        → AgreesInDepth flat (layout_in text layout form parts)
        (in_scope text known named around form parts) }
    ensures before { (flat : FlatModule) (text : Text) (known : Known) (named : List ℕ → Outside)
        (layout : Layout) (around : Beneath) (form : Form.the_data) (parts : Trees)
        → AgreesInDepth flat layout around
        → AgreesInDepth flat (layout_before text layout form parts)
        (before_scope text known named around form parts) }
    ensures parameters { (flat : FlatModule) (text : Text) (known : Known)
        (named : List ℕ → Outside) (layout : Layout) (around : Beneath) (form : Form.the_data)
        (parts : Trees) → AgreesInDepth flat layout around
        → AllByRecursion (IsPlain around.depths) (parameters_of text form parts)
        → AgreesInDepth flat (layout_with text layout form parts)
        (in_scope text known named around form parts) }
    ensures definitions { (flat : FlatModule) (text : Text) (known : Known)
        (named : List ℕ → Outside) (layout : Layout) (around : Beneath) (x : Tree) (stand : Stand)
        (reached : List Named → Reached) → AgreesInDepth flat layout around
        → HasDepths flat 0 stand reached
        → AgreesInDepth flat (layout_behind text layout x stand)
        (behind_depth text known named around x reached) }
    ensures declared { (flat : FlatModule) (layout : Layout) (around : Beneath) (context : Context)
        (next : Meaning → Stand) → AgreesInDepth flat layout around
        → ((meaning : Meaning) → IsDeclaredPlain layout (around.depths meaning)
        (layout.stands meaning) (next meaning))
        → AgreesInDepth flat (layout_declaring layout context next) (beneath_in around context) }
    ensures olds { (flat : FlatModule) (layout : Layout) (around : Beneath) (olds : List ℕ)
        → AgreesInDepth flat layout around
        → AgreesInDepth flat (layout_repeating layout olds) around }
    ensures brought { (flat : FlatModule) (text : Text) (known : Known) (named : List ℕ → Outside)
        (layout : Layout) (around : Beneath) (j : ℕ) (x : Instance)
        (staying made : List Replacement) (l : Lexeme) (at : Span) (rights : Trees)
        (inner : Named → Stand) (entries : Exports) → AgreesInDepth flat layout around
        → slice_get flat.instances j ≡ Some x → x.replacements ≡ staying ++ made
        → AllByRecursion (λ r. depth flat r.root ≡ 0) staying
        → AreReplacedAsDeep flat text known named around made l rights
        → IsDeepModule flat inner (module_of text known named l)
        → HaveDepths flat (with_brought layout.stands entries j inner)
        (with_entry_depths around.depths entries (λ path.
        deeper (replaced_depth text known named around (tree.Node (Form.Instance l) at rights))
        ((module_of text known named l).depths path))) }
    ensures extended { (flat : FlatModule) (stands : Meaning → Stand) (depths : Depths) (j : ℕ)
        (outside : Outside) (inner : Named → Stand) (entries : Exports)
        → HaveDepths flat stands depths
        → flat_depth.replaced_depth (depth flat) (slice_get flat.instances j) ≡ 0
        → IsDeepModule flat inner outside
        → HaveDepths flat (with_brought stands entries j inner)
        (with_entry_depths depths entries outside.depths) }
{}

/// Depths in a flat module are those in one that has more, where what names stand for is there
/// already: a name has the same depths, names agree with the same depths round a tree, and the
/// names of a module are as deep as before. Of nodes `depth_is_kept` of `level_text` says it.
pub fn depths_are_kept()
    ensures names { (flat more : FlatModule) (replaced : ℕ) (stand : Stand)
        (depths : List Named → Reached) → Extends flat more → IsOrdered flat → IsWithin flat stand
        → HasDepths flat replaced stand depths → HasDepths more replaced stand depths }
    ensures layouts { (flat more : FlatModule) (layout : Layout) (around : Beneath)
        → Extends flat more → IsOrdered flat → IsLayoutWithin flat layout
        → AgreesInDepth flat layout around → AgreesInDepth more layout around }
    ensures modules { (flat more : FlatModule) (inner : Named → Stand) (outside : Outside)
        → Extends flat more → IsOrdered flat → ((name : Named) → IsWithin flat (inner name))
        → IsDeepModule flat inner outside → IsDeepModule more inner outside }
    ensures trees { (flat more : FlatModule) (text : Text) (known : Known)
        (named : List ℕ → Outside) (around : Beneath) (i : ℕ) (x : Tree) → Extends flat more
        → IsOrdered flat → i < length flat.nodes → IsAsDeep flat text known named around i x
        → IsAsDeep more text known named around i x }
{}

/// Names have the depths of a state in the modules that are read: behind what a module extends,
/// behind each unit, by what comes of it, and in a flat module that has more. What a state exports
/// has its depths outside of the module. And what is known in a state that is kept agrees with the
/// depths that stand round the expressions of a unit.
pub fn states_are_as_deep()
    ensures begins { (flat : FlatModule) (files : List ℕ → Outside) (source : List ℕ)
        (units : ModuleUnits) (symbols : Meaning → Stand) (places : ℕ)
        (extensions : List Extension) → HaveDepths flat symbols no_depths
        → AreDeepExtensions (text_of source units) files (words_of units) flat
        (first_scope (text_of source units).file) units.extends extensions
        → KeepDepths flat (first files source units)
        (first_current files source units symbols places extensions ∷ []) }
    ensures units { (flat : FlatModule) (text : Text) (files : List ℕ → Outside) (words : List ℕ)
        (state : KindState) (here : Current) (round : List Current) (unit : UnitTree)
        (coming : Coming) → KeepDepths flat state (here ∷ round)
        → IsDeepRead text files words flat state here round unit coming
        → KeepDepths flat (after text files words state unit)
        (here_behind text files words state here round unit coming
        ∷ round_behind text files words here round coming) }
    ensures exports { (flat : FlatModule) (stands : Meaning → Stand) (state : KindState)
        (view : ModuleView) (constant : Bool) → HaveDepths flat stands state.depths
        → IsDeepModule flat (exported_stand stands (exports_of state.read.place.here.exports))
        (outside_by view constant state) }
    ensures agrees { (flat : FlatModule) (text : Text) (files : List ℕ → Outside) (words : List ℕ)
        (symbols : Meaning → Stand) (layout : Layout) (state : KindState)
        → KeepsState flat symbols layout state → HaveDepths flat layout.stands state.depths
        → AgreesInDepth flat layout (beneath text files words state) }
    ensures grows { (flat more : FlatModule) (state : KindState) (modules : List Current)
        → Extends flat more → IsOrdered flat
        → AllByRecursion (IsCurrentWithin flat) modules
        → KeepDepths flat state modules → KeepDepths more state modules }
{}

/// The names of a module are as deep as outside of it where what comes of its units, and of the
/// modules that are nested in it, is as deep as what is written in them.
pub fn modules_are_as_deep()
    ensures { (flat : FlatModule) (files : List ℕ → Outside) (source : List ℕ)
        (units : ModuleUnits) (symbols : Meaning → Stand) (places : ℕ)
        (extensions : List Extension) (comings : List Coming) (behind : Current)
        → IsDeepAlong files source units flat symbols places extensions comings behind
        → IsDeepModule flat (module_stands files source units behind.layout)
        (module_kinds.outside files source units) }
{}
