//! Own symbols of nested modules, by the units that are ahead of a place.
//!
//! No code: the function states a law that proofs above cite. Knows nothing of how nodes are made.
#![tactic(auto)]

ghost use Rattle.std.specs.Prelude.{◌≡◌, ℕ, [], List, Option};
ghost use Rattle.unit_grammar.specs.Units.{UnitTree};
ghost use Rattle.tla_model.specs.Entities.{Meaning, Text};
ghost use Rattle.kind_text.specs.FlatModule.{FlatModule};
ghost use Rattle.tree_kinds.specs.Standing.{Outside};
ghost use Rattle.module_kinds.specs.ModuleKinds.{KindState, views};
ghost use Rattle.flattened_trees.specs.Leads.{FlatFace};
ghost use Rattle.flattened_trees.specs.Questions.{Question};
ghost use Rattle.flattened_units.specs.Units.{AreUnitsMade, Reader};
ghost use Rattle.own_symbols.specs.Ahead.{AreAllOwned, own_ahead};

/// Where each module ends that is round a place, or begins behind it, the symbols that stand there
/// behind those round it are those that it has at its end.
pub fn owns_are_ahead()
    ensures { (flat : FlatModule) (text : Text) (means : ℕ → Option Meaning)
        (implied : ℕ → List Meaning) (files : List ℕ → FlatFace) (outsides : List ℕ → Outside)
        (words : List ℕ) (units : List UnitTree) (state : KindState) (reader last : Reader)
        (asked : List Question)
        → AreUnitsMade flat text means implied files outsides words state reader units last asked
        → last.round ≡ []
        → AreAllOwned (own_ahead text (views text outsides words) words state.read units).round
        reader.setting reader.round }
{}
