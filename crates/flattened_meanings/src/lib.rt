//! What nodes of a flat module mean that are a written tree, node by node.
//!
//! No code: each function states a law that proofs above cite. Knows nothing of how nodes are
//! built.
#![tactic(auto)]

ghost use Rattle.std.specs.Prelude.{◌≡◌, ℕ, Bool, true, List, [], ◌++◌, Option, map};
ghost use Rattle.std.specs.Prelude.{Some};
ghost use Rattle.std.specs.List.{AllByRecursion};
ghost use Rattle.tla_symbols.specs.declared.lexeme.Lexeme.{Lexeme};
ghost use Rattle.tla_symbols.specs.declared.lexeme.Span.{Span};
ghost use Rattle.tla_tree.specs.declared.form.Form.TheVariants as Form;
ghost use Rattle.tla_tree.specs.Syntax as tree;
ghost use Rattle.tla_tree.specs.Syntax.{Tree, Trees};
ghost use Rattle.tla_model.specs.Tables.{Named};
ghost use Rattle.tla_model.specs.Entities.{Meaning, Text, meant, within};
ghost use Rattle.tla_model.specs.Scopes.{definition};
ghost use Rattle.module_model.specs.Exports.{Known, behind_meaning};
ghost use Rattle.kind_text.specs.FlatModule.{FlatModule, IsOrdered};
ghost use Rattle.tree_kinds.specs.Standing.{Outside};
ghost use Rattle.flat_trees.specs.Stands.{Stand};
ghost use Rattle.flat_trees.specs.Layouts.{IsMeant, Layout, layout_behind};
ghost use Rattle.flattened_trees.specs.Leads.{FlatFace, Lead, Setting, behind};
ghost use Rattle.flattened_trees.specs.Questions.{Question};
ghost use Rattle.flattened_trees.specs.Flattened.{AreRights, IsDefined, IsFlattened, IsInstance};
ghost use Rattle.flattened_trees.specs.Flattened.{Right};
ghost use Rattle.flattened_trees.specs.Readable.{IsReadable, IsReadableDefinition};
ghost use Rattle.flattened_trees.specs.Readable.{IsReadableThrough};
ghost use Rattle.flattened_trees.specs.Agreeing.{AreNew, IsSeen, IsSettingOf, IsUnsaid};
ghost use Rattle.flattened_trees.specs.Agreeing.{KeepsOrders, TakesAs, is_seen, lead_by};
ghost use Rattle.flattened_meanings.specs.Definitions.{IsOfModule, StandsFor};
ghost use Rattle.flattened_meanings.specs.Faces.{AreFacesOf};
ghost use Rattle.flattened_meanings.specs.Rounds.{IsKnownRound};

/// A node that is a written tree, node by node, means the tree, where names lead to where they
/// stand.
pub fn flattened_trees_are_meant()
    ensures { (flat : FlatModule) (text : Text) (known : Known) (named : List ℕ → Outside)
        (means : ℕ → Option Meaning) (implied : ℕ → List Meaning) (faces : List ℕ → FlatFace)
        (nameable : List ℕ → Bool) (layout : Layout) (setting : Setting) (seen : List Meaning)
        (x : Tree) (i : ℕ) (asked : List Question) → IsOrdered flat
        → IsKnownRound flat text known named faces nameable layout setting seen x
        → IsReadable text known named means implied faces layout.context x
        → IsFlattened text means implied faces flat setting x i asked
        → IsMeant flat text known named layout i x }
{}

/// The name of a definition that leads somewhere stands for what the definition gives, and takes
/// what its name takes: of an operator, of a function, and of a module definition.
pub fn flattened_definitions_stand()
    ensures { (flat : FlatModule) (text : Text) (known : Known) (named : List ℕ → Outside)
        (means : ℕ → Option Meaning) (implied : ℕ → List Meaning) (faces : List ℕ → FlatFace)
        (nameable : List ℕ → Bool) (layout : Layout) (setting : Setting) (seen : List Meaning)
        (x : Tree) (lead : List Named → Lead) (roots : List ℕ) (asked : List Question)
        → IsOrdered flat → IsKnownRound flat text known named faces nameable layout setting seen x
        → IsReadableDefinition text known named means implied faces layout.context x
        → IsDefined text means implied faces flat setting x lead roots asked
        → StandsFor flat text known named layout x lead }
{}

/// An instance whose replacements are the written ones, or the symbols that stand in for others,
/// is one of the module that it names, with a name or without.
pub fn flattened_instances_are_put_in()
    ensures { (flat : FlatModule) (text : Text) (known : Known) (named : List ℕ → Outside)
        (means : ℕ → Option Meaning) (implied : ℕ → List Meaning) (faces : List ℕ → FlatFace)
        (nameable : List ℕ → Bool) (layout : Layout) (setting : Setting) (seen : List Meaning)
        (l : Lexeme) (at : Span) (rights : Trees) (outer count : ℕ) (guards : Bool)
        (written : List Right) (roots : List ℕ) (j : ℕ) (asked more : List Question)
        → IsOrdered flat
        → IsKnownRound flat text known named faces nameable layout setting seen
        (tree.Node (Form.Instance l) at rights)
        → IsReadableThrough text known named means implied faces layout.context
        (tree.Cons (tree.Node (Form.Instance l) at rights) tree.Nil)
        → AreRights text means implied faces flat setting l rights written roots asked
        → IsInstance text means implied faces flat setting outer count guards l written j more
        → IsOfModule flat text known named faces layout outer count guards l rights j }
{}

/// What is known round trees is kept behind a definition whose name leads where it stands, and
/// takes what it takes: where names lead, what they take, which were seen, of which nothing is
/// said, and what modules are to their instances.
pub fn surroundings_are_kept()
    ensures settings { (text : Text) (layout : Layout) (setting : Setting) (x : Tree)
        (stand : Stand) (lead : List Named → Lead) → IsSettingOf layout setting
        → ((names : List Named) → lead names ≡ lead_by stand names)
        → IsSettingOf (layout_behind text layout x stand) (behind text setting x lead) }
    ensures orders { (text : Text) (known : Known) (layout : Layout) (seen : List Meaning)
        (x : Tree) (stand : Stand) → KeepsOrders known layout → IsSeen seen layout
        → AreNew seen (map (meant text) (definition x))
        → AllByRecursion (λ meaning. TakesAs stand (behind_meaning known (Some meaning)) meaning)
        (map (meant text) (definition x)) → KeepsOrders known (layout_behind text layout x stand) }
    ensures names { (text : Text) (layout : Layout) (seen : List Meaning) (x : Tree)
        (stand : Stand) → IsSeen seen layout
        → IsSeen (map (meant text) (definition x) ++ seen) (layout_behind text layout x stand) }
    ensures unsaid { (text : Text) (layout : Layout) (x y : Tree) (stand : Stand)
        → IsUnsaid text layout y
        → AreNew (map (meant text) (definition x)) (map (meant text) (within y))
        → IsUnsaid text (layout_behind text layout x stand) y }
    ensures modules { (flat : FlatModule) (text : Text) (named : List ℕ → Outside)
        (faces : List ℕ → FlatFace) (nameable : List ℕ → Bool) (layout : Layout) (x : Tree)
        (stand : Stand) (new less : Meaning → Bool)
        → AreFacesOf flat nameable new layout.stands faces named
        → ((meaning : Meaning) → is_seen (map (meant text) (definition x)) meaning ≡ true
        → new meaning ≡ true)
        → ((meaning : Meaning) → less meaning ≡ true → new meaning ≡ true)
        → AreFacesOf flat nameable less (layout_behind text layout x stand).stands faces named }
{}
