//! What the names of a module stand for, unit by unit; what the module is to those that name it; and its
//! faults of depth and of levels.
//!
//! No code: the function states a law that proofs above cite. Small modules with what is found in them
//! stand in its `proofs/`.
#![tactic(auto)]

ghost use Rattle.std.specs.Prelude.{◌≡◌, ℕ, List, []};
ghost use Rattle.unit_grammar.specs.Units.{ModuleUnits};
ghost use Rattle.tree_kinds.specs.Standing.{Outside};
ghost use Rattle.module_kinds.specs.ModuleKinds.{kind_faults, level_faults, level_findings, too_deep};

/// Where nothing is too deep, the faults are those of levels.
pub fn depth_comes_first()
    ensures { (files : List ℕ → Outside) (source : List ℕ) (units : ModuleUnits)
        → too_deep files source units ≡ []
        → kind_faults files source units ≡ level_faults (level_findings files source units) }
{}
