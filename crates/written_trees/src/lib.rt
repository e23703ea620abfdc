//! The resolved trees of what is written, by where names lead.
//!
//! No code: each function states a law that definitions and proofs above cite. Knows nothing of how
//! flat modules are built.
#![tactic(auto)]

ghost use Rattle.std.specs.Prelude.{◌≡◌, ℕ, List, Option};
ghost use Rattle.tla_tree.specs.Syntax.{Tree};
ghost use Rattle.tla_model.specs.Entities.{Meaning, Text};
ghost use Rattle.tla_model.specs.Tables.{Named};
ghost use Rattle.kind_text.specs.FlatModule.{FlatModule, IsOrdered};
ghost use Rattle.flattened_trees.specs.Flattened.{IsDefined, IsFlattened};
ghost use Rattle.flattened_trees.specs.Leads.{FlatFace, Lead, Setting, behind};
ghost use Rattle.flattened_trees.specs.Questions.{Question};
ghost use Rattle.resolved_trees.specs.Resolved.{resolved};
ghost use Rattle.written_trees.specs.Leading as written;
ghost use Rattle.written_trees.specs.Leading.{face_in, setting_in};
ghost use Rattle.written_trees.specs.Written.{HoldsInstances, defined_lead, tree_of};

/// Whatever node an expression becomes, its tree is that of what is written.
pub fn nodes_have_written_trees()
    ensures { (flat : FlatModule) (text : Text) (means : ℕ → Option Meaning)
        (implied : ℕ → List Meaning) (faces : List ℕ → FlatFace) (setting : Setting) (x : Tree)
        (i : ℕ) (asked : List Question) → IsOrdered flat → HoldsInstances x
        → IsFlattened text means implied faces flat setting x i asked
        → resolved flat i
        ≡ tree_of text means implied (λ name. face_in flat (faces name)) (setting_in flat setting)
        x }
{}

/// Behind a definition names lead where they do by what is written.
pub fn definitions_lead_as_written()
    ensures { (flat : FlatModule) (text : Text) (means : ℕ → Option Meaning)
        (implied : ℕ → List Meaning) (faces : List ℕ → FlatFace) (setting : Setting) (x : Tree)
        (lead : List Named → Lead) (roots : List ℕ) (asked : List Question) → IsOrdered flat
        → HoldsInstances x → IsDefined text means implied faces flat setting x lead roots asked
        → setting_in flat (behind text setting x lead)
        ≡ written.behind text (setting_in flat setting) x
        (defined_lead text means implied (λ name. face_in flat (faces name))
        (setting_in flat setting) x) }
{}
