//! What a module is to those that name it, as a value that is told by the texts alone; and which
//! modules a change of texts can touch.
//!
//! No code: each function states a law. Knows nothing of how nodes are made, and of what is kept.
#![tactic(auto)]

ghost use Rattle.std.specs.Prelude.{◌≡◌, ℕ, Bool, Contains, List, false};
ghost use Rattle.std.specs.FinMap.{get};
ghost use Rattle.unit_grammar.specs.Units.{ModuleUnits};
ghost use Rattle.tla_model.specs.Entities.{Meaning};
ghost use Rattle.kind_text.specs.FlatModule.{FlatModule};
ghost use Rattle.tree_kinds.specs.Standing.{Outside};
ghost use Rattle.flat_kinds.specs.Declarations.{Declarations};
ghost use Rattle.flattened_trees.specs.Leads.{FlatFace};
ghost use Rattle.flattened_trees.specs.Questions.{Question};
ghost use Rattle.written_trees.specs.Leading.{face_in};
ghost use Rattle.known_modules.specs.Known.{IsMadeOver, Knowledge, Reader, face_of};
ghost use Rattle.fact_values.specs.Names.{Texts};
ghost use Rattle.fact_values.specs.States.{fact};
ghost use Rattle.front_laws.specs.Fronts.{IsFront, Tree};
ghost use Rattle.family_facts.specs.Facts.{texts_of};
ghost use Rattle.family_facts.specs.Family.{AreMembersDistinct, Member, Needs};
ghost use Rattle.leveled_facts.specs.Families as leveled;
ghost use Rattle.leveled_facts.specs.Families.{IsStatus};
ghost use Rattle.leveled_facts.specs.Modules.{Status, Unknown, outsides};
ghost use Rattle.written_trees.specs.Leading.{Face};
ghost use Rattle.module_interfaces.specs.Interfaces.{Fact, FindsImports, TellsImports, face_by_state};
ghost use Rattle.module_interfaces.specs.Interfaces.{face_by_status, imports_in};
ghost use Rattle.module_interfaces.specs.Interfaces.{is_dirty, leveled_state, state_of, written_face};

use leveled_facts::leveled_is;

/// The face that a flat module has for a module which comes in it leads where its text says, over
/// where the faces lead of those that it names.
pub fn faces_are_written()
    ensures { (declares : Declarations) (flat : FlatModule) (knowledge : Knowledge)
        (files : List ℕ → FlatFace) (outsides : List ℕ → Outside) (name source : List ℕ)
        (units : ModuleUnits) (symbols : List Meaning) (last : Reader) (asked : List Question)
        → IsMadeOver declares flat knowledge files outsides name source units symbols last asked
        → face_in flat (face_of outsides source units last)
        ≡ written_face (λ name. face_in flat (files name)) outsides source units }
{}

/// What is found of a module beside where its names lead is what is found of it.
pub fn facts_are_leveled()
    ensures { (texts : Texts) (name : List ℕ)
        → leveled_state (state_of texts name) ≡ leveled.state_of texts name }
{}

/// What is found of a module of a family in which no two have one name, by what the modules are that
/// it needs: with where its names lead, over where those lead that it needs and that are accepted.
pub fn faces_are_found()
    ensures { (family : List Member) (member : Member) (found : ModuleUnits)
        (given : List ℕ → Status) (files : List ℕ → Face)
        → AreMembersDistinct family → Contains family member
        → IsFront member.name member.bytes (Tree found)
        → ((need : List ℕ) → Needs family member.name need
        → IsStatus family member.name need (given need))
        → ((need : List ℕ) → (Needs family member.name need → ⊥) → given need ≡ Unknown)
        → ((need : List ℕ) → files need
        ≡ face_by_status (given need) (face_by_state (state_of (texts_of family) need)))
        → state_of (texts_of family) member.name ≡ fact (record {
          leveled = leveled.leveled (texts_of family) member.name;
          face = written_face files (outsides given) member.bytes found;
        }) }
{
    front_laws::one_front();
    leveled_is();
}

/// A module that is not dirty has the text that it had, and the modules that it needs are to it what
/// they were; and one of which that holds is not dirty, where all facts are found to be the same that
/// are.
pub fn dirty_modules_have_changed()
    ensures clean { (same : Fact → Fact → Bool) → TellsImports same → (old new : Texts)
        (name : List ℕ) → is_dirty same old new name ≡ false
        → (get old name ≡ get new name) × (imports_in old name ≡ imports_in new name) }
    ensures kept { (same : Fact → Fact → Bool) → FindsImports same → (old new : Texts)
        (name : List ℕ) → get old name ≡ get new name → imports_in old name ≡ imports_in new name
        → is_dirty same old new name ≡ false }
{}
