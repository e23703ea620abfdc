//! That modules stay what they are in a flat module while it grows.
//!
//! No code: the function states a law that proofs above cite. Knows nothing of what nodes mean, and
//! of where files come from.
#![tactic(auto)]

ghost use Rattle.std.specs.Prelude.{ℕ, List, Option};
ghost use Rattle.unit_grammar.specs.Units.{ModuleUnits};
ghost use Rattle.tla_model.specs.Entities.{Meaning};
ghost use Rattle.kind_text.specs.FlatModule.{Extends, FlatModule};
ghost use Rattle.tree_kinds.specs.Standing.{Outside};
ghost use Rattle.flattened_trees.specs.Leads.{FlatFace};
ghost use Rattle.flattened_trees.specs.Questions.{Question};
ghost use Rattle.flattened_units.specs.Units.{IsModuleMade, Reader};

use tree_flattener::trees_stay;

/// The units of a module are in each flat module that has more what they are in one: up to the same
/// reader behind them, with the same questions.
pub fn made_modules_stay()
    ensures { (flat more : FlatModule) (means : ℕ → Option Meaning) (implied : ℕ → List Meaning)
        (files : List ℕ → FlatFace) (outsides : List ℕ → Outside) (source : List ℕ)
        (units : ModuleUnits) (symbols : List Meaning) (last : Reader) (asked : List Question)
        → Extends flat more
        → IsModuleMade flat means implied files outsides source units symbols last asked
        → IsModuleMade more means implied files outsides source units symbols last asked }
{
    trees_stay();
}
