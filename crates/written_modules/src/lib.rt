//! What modules are to others by resolved trees, told by their texts alone.
//!
//! No code: each function states a law that definitions and proofs above cite. Knows nothing of how
//! flat modules are built.
#![tactic(auto)]

ghost use Rattle.std.specs.Prelude.{◌≡◌, ℕ, [], List, Option};
ghost use Rattle.std.specs.List.{AllByRecursion};
ghost use Rattle.unit_grammar.specs.Units.{ModuleUnits};
ghost use Rattle.tla_model.specs.Entities.{Meaning};
ghost use Rattle.kind_text.specs.FlatModule.{FlatModule, IsOrdered};
ghost use Rattle.tree_kinds.specs.Standing.{Outside};
ghost use Rattle.flattened_trees.specs.Answers as flat_answers;
ghost use Rattle.flattened_trees.specs.Leads.{FlatFace};
ghost use Rattle.flattened_trees.specs.Questions.{Question};
ghost use Rattle.flattened_units.specs.Units.{IsModuleMade, Reader};
ghost use Rattle.written_trees.specs.Leading.{face_in};
ghost use Rattle.written_questions.specs.Answers.{deep_answers, level_answers};
ghost use Rattle.written_questions.specs.Questions.{questions_in};
ghost use Rattle.written_modules.specs.Asking.{module_asks};
ghost use Rattle.written_modules.specs.Faces.{reader_in};
ghost use Rattle.written_modules.specs.Modules.{UnitHolds, module_reader};

/// Whatever nodes the units of a module become, names lead behind them where they do by its text,
/// and what is asked of levels and depths is what its text tells.
pub fn modules_are_as_written()
    ensures { (flat : FlatModule) (means : ℕ → Option Meaning) (implied : ℕ → List Meaning)
        (files : List ℕ → FlatFace) (outsides : List ℕ → Outside) (source : List ℕ)
        (units : ModuleUnits) (symbols : List Meaning) (last : Reader) (asked : List Question)
        → IsOrdered flat → AllByRecursion UnitHolds units.units
        → IsModuleMade flat means implied files outsides source units symbols last asked
        → last.round ≡ [] → (reader_in flat last ≡ module_reader means implied
        (λ name. face_in flat (files name)) outsides source units symbols)
        × (questions_in flat asked ≡ module_asks means implied (λ name. face_in flat (files name))
        outsides source units symbols) }
{}

/// So what is found of levels and of depths in a module is told by its text, and by what its imports
/// are.
pub fn findings_are_as_written()
    ensures { (flat : FlatModule) (means : ℕ → Option Meaning) (implied : ℕ → List Meaning)
        (files : List ℕ → FlatFace) (outsides : List ℕ → Outside) (source : List ℕ)
        (units : ModuleUnits) (symbols : List Meaning) (last : Reader) (asked : List Question)
        → IsOrdered flat → AllByRecursion UnitHolds units.units
        → IsModuleMade flat means implied files outsides source units symbols last asked
        → last.round ≡ [] → (flat_answers.level_answers flat asked ≡ level_answers
        (module_asks means implied (λ name. face_in flat (files name)) outsides source units
        symbols)) × (flat_answers.deep_answers flat asked ≡ deep_answers (module_asks means
        implied (λ name. face_in flat (files name)) outsides source units symbols)) }
{}
