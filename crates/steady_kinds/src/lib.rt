//! That what trees and modules give depends on what stands for names that are no definitions.
//!
//! No code: each function states a law. Knows nothing of flat modules.
#![tactic(auto)]

ghost use Rattle.std.specs.Prelude.{◌≡◌, ℕ, List};
ghost use Rattle.tla_tree.specs.Syntax.{Tree};
ghost use Rattle.tla_model.specs.Contexts.{Context};
ghost use Rattle.tla_model.specs.Entities.{Text, within};
ghost use Rattle.module_model.specs.Exports.{Known};
ghost use Rattle.kind_text.specs.ExpandedKind.{Operands};
ghost use Rattle.tree_kinds.specs.Expanding.{defined_value, expand};
ghost use Rattle.tree_kinds.specs.Standing.{Environment, Outside};
ghost use Rattle.flat_kinds.specs.Declarations.{AreNamesDeclared, Declarations};
ghost use Rattle.steady_kinds.specs.Steady.{AreAlike, BindsAll, IsOpen, IsSteady};

/// Where the modules that a tree names are steady, what the tree gives depends on what stands for
/// the names that can be used round it, and for those that are bound or no definitions. So does
/// what a definition gives on its arguments. Trees whose names are declared bind such names alone.
pub fn trees_are_steady()
    ensures expressions { (declares : Declarations) (text : Text) (known : Known)
        (named : List ℕ → Outside) (context : Context) (a b : Environment) (old : Operands)
        (x : Tree) → ((title : List ℕ) → IsSteady (IsOpen declares) (named title))
        → AreAlike (IsOpen declares) context a b
        → BindsAll (IsOpen declares) text x
        → expand text known named (record { context = context; standing = a; old = old }) x
        ≡ expand text known named (record { context = context; standing = b; old = old }) x }
    ensures definitions { (declares : Declarations) (text : Text) (known : Known)
        (named : List ℕ → Outside) (context : Context) (a b : Environment) (old : Operands)
        (x : Tree) → ((title : List ℕ) → IsSteady (IsOpen declares) (named title))
        → AreAlike (IsOpen declares) context a b
        → BindsAll (IsOpen declares) text x
        → defined_value text known named
        (record { context = context; standing = a; old = old }) x
        ≡ defined_value text known named
        (record { context = context; standing = b; old = old }) x }
    ensures names { (declares : Declarations) (text : Text) (x : Tree)
        → AreNamesDeclared declares text (within x) → BindsAll (IsOpen declares) text x }
{}
