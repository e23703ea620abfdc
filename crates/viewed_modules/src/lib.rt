//! That a module becomes the same nodes over modules that show the same names.
//!
//! No code: the function states a law that proofs above cite. Knows nothing of what nodes mean, and
//! of where files come from.
#![tactic(auto)]

ghost use Rattle.std.specs.Prelude.{◌≡◌, ℕ, List, Option};
ghost use Rattle.unit_grammar.specs.Units.{ModuleUnits};
ghost use Rattle.tla_model.specs.Entities.{Meaning};
ghost use Rattle.kind_text.specs.FlatModule.{FlatModule};
ghost use Rattle.tree_kinds.specs.Standing.{Outside};
ghost use Rattle.flattened_trees.specs.Leads.{FlatFace};
ghost use Rattle.flattened_trees.specs.Questions.{Question};
ghost use Rattle.flattened_units.specs.Units.{IsModuleMade, Reader};

/// Nodes that are the units of a module over some modules are so over others that have the same
/// views: what stands for names there, and how deep it is, is no part of it.
pub fn made_modules_need_views()
    ensures { (flat : FlatModule) (means : ℕ → Option Meaning) (implied : ℕ → List Meaning)
        (files : List ℕ → FlatFace) (outsides others : List ℕ → Outside) (source : List ℕ)
        (units : ModuleUnits) (symbols : List Meaning) (last : Reader) (asked : List Question)
        → ((name : List ℕ) → (outsides name).view ≡ (others name).view)
        → IsModuleMade flat means implied files outsides source units symbols last asked
        → IsModuleMade flat means implied files others source units symbols last asked }
{}
