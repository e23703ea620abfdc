//! What is asked of levels and depths, by resolved trees: as far as the text tells it.
//!
//! No code: each function states a law that definitions and proofs above cite. Knows nothing of how
//! flat modules are built.
#![tactic(auto)]

ghost use Rattle.std.specs.Prelude.{◌≡◌, ℕ, List, Option};
ghost use Rattle.tla_tree.specs.Syntax.{Tree};
ghost use Rattle.tla_model.specs.Entities.{Meaning, Text};
ghost use Rattle.tla_model.specs.Tables.{Named};
ghost use Rattle.kind_text.specs.FlatModule.{FlatModule, IsOrdered};
ghost use Rattle.flattened_trees.specs.Flattened.{IsDefined, IsFlattened};
ghost use Rattle.flattened_trees.specs.Leads.{FlatFace, Lead, Setting};
ghost use Rattle.flattened_trees.specs.Questions.{Question};
ghost use Rattle.written_trees.specs.Leading.{face_in, setting_in};
ghost use Rattle.written_trees.specs.Written.{HoldsInstances};
ghost use Rattle.flattened_trees.specs.Answers as flat;
ghost use Rattle.written_questions.specs.Answers.{deep_answers, level_answers};
ghost use Rattle.written_questions.specs.Asking.{asks_of, definition_asks};
ghost use Rattle.written_questions.specs.Questions.{questions_in};

/// Whatever is asked of a node that an expression becomes is asked of what is written.
pub fn nodes_ask_as_written()
    ensures { (flat : FlatModule) (text : Text) (means : ℕ → Option Meaning)
        (implied : ℕ → List Meaning) (faces : List ℕ → FlatFace) (setting : Setting) (x : Tree)
        (i : ℕ) (asked : List Question) → IsOrdered flat → HoldsInstances x
        → IsFlattened text means implied faces flat setting x i asked
        → questions_in flat asked
        ≡ asks_of text means implied (λ name. face_in flat (faces name)) (setting_in flat setting)
        x }
{}

/// The same of a definition.
pub fn definitions_ask_as_written()
    ensures { (flat : FlatModule) (text : Text) (means : ℕ → Option Meaning)
        (implied : ℕ → List Meaning) (faces : List ℕ → FlatFace) (setting : Setting) (x : Tree)
        (lead : List Named → Lead) (roots : List ℕ) (asked : List Question) → IsOrdered flat
        → HoldsInstances x → IsDefined text means implied faces flat setting x lead roots asked
        → questions_in flat asked
        ≡ definition_asks text means implied (λ name. face_in flat (faces name))
        (setting_in flat setting) x }
{}

/// What is found of levels is told by the trees that are asked of.
pub fn levels_are_answered_by_trees()
    ensures { (modules : FlatModule) (asked : List Question) → IsOrdered modules
        → flat.level_answers modules asked ≡ level_answers (questions_in modules asked) }
{}

/// So is what is found of depths.
pub fn depths_are_answered_by_trees()
    ensures { (modules : FlatModule) (asked : List Question)
        → flat.deep_answers modules asked ≡ deep_answers (questions_in modules asked) }
{}
