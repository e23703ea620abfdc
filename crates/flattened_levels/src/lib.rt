//! What the kinds of nodes answer to the questions of a tree is what is found of levels in it.
//!
//! No code: each function states a law that proofs above cite. Knows nothing of how nodes are
//! built, and of how kinds are found.
#![tactic(auto)]

ghost use Rattle.std.specs.Prelude.{◌≡◌, ℕ, Bool, List, ◌++◌, Option};
ghost use Rattle.tla_symbols.specs.declared.lexeme.Lexeme.{Lexeme};
ghost use Rattle.tla_symbols.specs.declared.lexeme.Span.{Span};
ghost use Rattle.tla_tree.specs.declared.form.Form.TheVariants as Form;
ghost use Rattle.tla_tree.specs.Syntax as tree;
ghost use Rattle.tla_tree.specs.Syntax.{Tree, Trees};
ghost use Rattle.tla_model.specs.Tables.{Named};
ghost use Rattle.tla_model.specs.Entities.{Meaning, Text};
ghost use Rattle.module_model.specs.Exports.{Known};
ghost use Rattle.kind_text.specs.FlatModule.{FlatModule, IsOrdered};
ghost use Rattle.tree_kinds.specs.Standing.{Outside};
ghost use Rattle.tree_kinds.specs.Expanding.{Around};
ghost use Rattle.tree_kinds.specs.TreeLevels.{kind_at, levels};
ghost use Rattle.flat_trees.specs.Layouts.{Layout};
ghost use Rattle.flattened_trees.specs.Leads.{FlatFace, Lead, Setting};
ghost use Rattle.flattened_trees.specs.Questions.{Question};
ghost use Rattle.flattened_trees.specs.Flattened.{AreRights, IsDefined, IsFlattened, IsInstance};
ghost use Rattle.flattened_trees.specs.Flattened.{Right};
ghost use Rattle.flattened_trees.specs.Readable.{IsReadable, IsReadableDefinition};
ghost use Rattle.flattened_trees.specs.Readable.{IsReadableThrough};
ghost use Rattle.flattened_trees.specs.Answers.{kind_in, level_answers};
ghost use Rattle.flattened_meanings.specs.Rounds.{IsKnownRound};
ghost use Rattle.flattened_levels.specs.Asked.{IsAskedRound};
ghost use Rattle.flattened_levels.specs.Shapes.{AreShapedRights, IsShaped, IsShapedDefinition};

/// The node of a tree has the kind of the tree, over a frame by itself; of a bare operator, that
/// on constants.
pub fn flattened_kinds_are_found()
    ensures { (flat : FlatModule) (text : Text) (known : Known) (named : List ℕ → Outside)
        (means : ℕ → Option Meaning) (implied : ℕ → List Meaning) (faces : List ℕ → FlatFace)
        (nameable : List ℕ → Bool) (layout : Layout) (setting : Setting) (seen : List Meaning)
        (around : Around) (x : Tree) (i : ℕ) (asked : List Question) → IsOrdered flat
        → IsKnownRound flat text known named faces nameable layout setting seen x
        → IsAskedRound flat layout setting around
        → IsReadable text known named means implied faces layout.context x
        → IsFlattened text means implied faces flat setting x i asked
        → kind_in flat setting.frame i ≡ kind_at text known named around x }
{}

/// What the kinds of the nodes of a tree answer to what is asked of these is what is found of
/// levels in the tree, in the same order.
pub fn flattened_levels_are_found()
    ensures { (flat : FlatModule) (text : Text) (known : Known) (named : List ℕ → Outside)
        (means : ℕ → Option Meaning) (implied : ℕ → List Meaning) (faces : List ℕ → FlatFace)
        (nameable : List ℕ → Bool) (layout : Layout) (setting : Setting) (seen : List Meaning)
        (around : Around) (x : Tree) (i : ℕ) (asked : List Question) → IsOrdered flat
        → IsKnownRound flat text known named faces nameable layout setting seen x
        → IsAskedRound flat layout setting around
        → IsReadable text known named means implied faces layout.context x → IsShaped x
        → IsFlattened text means implied faces flat setting x i asked
        → level_answers flat asked ≡ levels text known named around x }
{}

/// The same of a definition whose name leads somewhere: of an operator, of a function, and of a
/// module definition.
pub fn levels_of_definitions_are_found()
    ensures { (flat : FlatModule) (text : Text) (known : Known) (named : List ℕ → Outside)
        (means : ℕ → Option Meaning) (implied : ℕ → List Meaning) (faces : List ℕ → FlatFace)
        (nameable : List ℕ → Bool) (layout : Layout) (setting : Setting) (seen : List Meaning)
        (around : Around) (x : Tree) (lead : List Named → Lead) (roots : List ℕ)
        (asked : List Question) → IsOrdered flat
        → IsKnownRound flat text known named faces nameable layout setting seen x
        → IsAskedRound flat layout setting around
        → IsReadableDefinition text known named means implied faces layout.context x
        → IsShapedDefinition x
        → IsDefined text means implied faces flat setting x lead roots asked
        → level_answers flat asked ≡ levels text known named around x }
{}

/// The same of an INSTANCE, with a name or without: of its right sides, and then of what replaces
/// the symbols of its module.
pub fn levels_of_instances_are_found()
    ensures { (flat : FlatModule) (text : Text) (known : Known) (named : List ℕ → Outside)
        (means : ℕ → Option Meaning) (implied : ℕ → List Meaning) (faces : List ℕ → FlatFace)
        (nameable : List ℕ → Bool) (layout : Layout) (setting : Setting) (seen : List Meaning)
        (around : Around) (l : Lexeme) (at : Span) (rights : Trees) (outer count : ℕ)
        (guards : Bool) (written : List Right) (roots : List ℕ) (j : ℕ)
        (asked more : List Question) → IsOrdered flat
        → IsKnownRound flat text known named faces nameable layout setting seen
        (tree.Node (Form.Instance l) at rights)
        → IsAskedRound flat layout setting around
        → IsReadableThrough text known named means implied faces layout.context
        (tree.Cons (tree.Node (Form.Instance l) at rights) tree.Nil)
        → AreShapedRights rights
        → AreRights text means implied faces flat setting l rights written roots asked
        → IsInstance text means implied faces flat setting outer count guards l written j more
        → level_answers flat (asked ++ more)
        ≡ levels text known named around (tree.Node (Form.Instance l) at rights) }
{}
