//! What an expression is where its names mean something: its expansion, its kind, and its depth.
//!
//! No code: each function states a law that definitions and proofs above cite. Knows nothing of where
//! what stands for names comes from.
#![tactic(auto)]

ghost use Rattle.std.specs.Prelude.{◌≡◌, ℕ, List, None, Some, if◌then◌else◌, map, slice_get};
ghost use Rattle.tla_symbols.specs.declared.lexeme.Lexeme.{Lexeme};
ghost use Rattle.tla_tree.specs.Syntax.{Tree};
ghost use Rattle.tla_model.specs.Entities.{Text};
ghost use Rattle.module_model.specs.Exports.{Known};
ghost use Rattle.kind_text.specs.ExpandedKind.{kind};
ghost use Rattle.kind_text.specs.FlatModule.{FlatModule, IsOrdered, Node};
ghost use Rattle.kind_text.specs.Substitution.{Item};
ghost use Rattle.kind_text.specs.Expansion.{are_met};
ghost use Rattle.kind_text.specs.Expansion as expansion;
ghost use Rattle.tree_kinds.specs.Standing.{Outside, Steps};
ghost use Rattle.tree_kinds.specs.Expanding.{Around, Replaced, behind_instance, expand, guard_of, module_of, put_into};
ghost use Rattle.tree_kinds.specs.Making.{IsMade};

/// What stands behind an instance has the kind that it has with the replacements put in, where each of
/// these is of a level that it may have, and else none.
pub fn instance_is_put_in()
    ensures { (text : Text) (known : Known) (named : List ℕ → Outside) (around : Around)
        (l : Lexeme)
        (rs : List Replaced) (path : Steps)
        → kind (behind_instance text known named around l rs path)
        ≡ if are_met (map (guard_of (module_of text known named l).is_constant) rs)
        then kind (put_into text known named around l rs path) else None }
{}

/// A node of a flat module that has the form of a written tree, over parts that are what the tree is
/// made of, expands to what the tree expands to.
pub fn forms_are_expanded()
    ensures { (flat : FlatModule) (i : ℕ) (node : Node) (s : List Item) (text : Text)
        (known : Known)
        (named : List ℕ → Outside) (around : Around) (x : Tree) → IsOrdered flat
        → slice_get flat.nodes i ≡ Some node
        → IsMade text known named around x node.form
        (expansion.items (expansion.text flat) node.parts s)
        → expansion.text flat i s ≡ expand text known named around x }
{}
