//! What is found of the modules of a family, levels and depths among it, as a function of their
//! texts.
//!
//! No code: the definitions say what a check of a family answers, and the functions state laws on
//! them. Knows nothing of how any of it is found.
#![tactic(auto)]

ghost use Rattle.std.specs.Prelude.{◌≡◌, ◌≢◌, ℕ, Bool, List, [], Contains, true};
ghost use Rattle.unit_grammar.specs.Units.{ModuleUnits};
ghost use Rattle.front_laws.specs.Fronts.{Fault, IsFront, Tree};
ghost use Rattle.tla_model.specs.declared.Diagnostic.{Diagnostic};
ghost use Rattle.module_model.specs.Resolution.{findings, outside_in};
ghost use Rattle.module_facts.specs.Checks as checks;
ghost use Rattle.module_facts.specs.Ordered as ordered;
ghost use Rattle.fact_values.specs.Names.{Texts};
ghost use Rattle.family_facts.specs.Facts.{texts_of};
ghost use Rattle.family_facts.specs.Family.{AreMembersDistinct, Member, Needs};
ghost use Rattle.module_kinds.specs.ModuleKinds.{kind_faults, outside};
ghost use Rattle.flat_kinds.specs.Declarations.{HasPlaces};
ghost use Rattle.leveled_facts.specs.Families.{AgreeOn, IsStatus, declares, leveled};
ghost use Rattle.leveled_facts.specs.Modules.{Status, Unknown, front_refused, leveled_by};
ghost use Rattle.leveled_facts.specs.Modules.{all_faults, imports, outsides};

use module_facts::{in_order, none_in_order};

/// What is found of a module of a family in which no two have one name is what is found of it by
/// what the modules are that it needs; of one with a front fault it is that fault.
pub fn leveled_is()
    ensures checked { (family : List Member) (member : Member) (found : ModuleUnits)
        (given : List ℕ → Status) → AreMembersDistinct family → Contains family member
        → IsFront member.name member.bytes (Tree found)
        → ((need : List ℕ) → Needs family member.name need
        → IsStatus family member.name need (given need))
        → ((need : List ℕ) → (Needs family member.name need → ⊥) → given need ≡ Unknown)
        → leveled (texts_of family) member.name ≡ leveled_by given member.bytes found }
    ensures front { (family : List Member) (member : Member) (fault : Diagnostic)
        → AreMembersDistinct family → Contains family member
        → IsFront member.name member.bytes (Fault fault)
        → leveled (texts_of family) member.name ≡ front_refused fault }
{
    front_laws::one_front();
}

/// Each declaring name of a module of such a family is what `declares` says of its place.
pub fn declarations_have_places()
    ensures { (family : List Member) (member : Member) (found : ModuleUnits)
        → AreMembersDistinct family → Contains family member
        → IsFront member.name member.bytes (Tree found)
        → HasPlaces (declares (texts_of family)) member.bytes found }
{
    front_laws::one_front();
}

/// A module in which nothing is at fault has no faults of imports, none of names and arities, and
/// none of depth and levels; and where its imports, names or arities are at fault, that is all.
pub fn faults_refuse()
    ensures imports { (given : List ℕ → Status) (source : List ℕ) (units : ModuleUnits)
        → ordered.in_order (all_faults given source units) ≡ []
        → checks.import_faults (imports given) source units ≡ [] }
    ensures names { (given : List ℕ → Status) (source : List ℕ) (units : ModuleUnits)
        → ordered.in_order (all_faults given source units) ≡ []
        → checks.name_faults (findings (checks.files_given (imports given)) source units) units
        ≡ [] }
    ensures kinds { (given : List ℕ → Status) (source : List ℕ) (units : ModuleUnits)
        → ordered.in_order (all_faults given source units) ≡ []
        → kind_faults (outsides given) source units ≡ [] }
    ensures first { (given : List ℕ → Status) (source : List ℕ) (units : ModuleUnits)
        → checks.all_faults (imports given) source units ≢ []
        → all_faults given source units ≡ checks.all_faults (imports given) source units }
{
    in_order();
    none_in_order();
}

/// What the modules are to the names of one that names them is the view of what they are to all of
/// it; and what that one is to the names of others is the view of what it is to all of them.
pub fn views_are_given()
    ensures each { (given : List ℕ → Status) (name : List ℕ)
        → checks.files_given (imports given) name ≡ (outsides given name).view }
    ensures all { (given : List ℕ → Status)
        → checks.files_given (imports given) ≡ (λ (name : List ℕ). (outsides given name).view) }
    ensures itself { (given : List ℕ → Status) (source : List ℕ) (units : ModuleUnits)
        → (outside (outsides given) source units).view
        ≡ outside_in (checks.files_given (imports given)) source units }
{}

/// The same is found of a module by texts that agree on it and on all that it needs.
pub fn parts_agree()
    ensures { (texts others : Texts) (among : List ℕ → Bool) → AgreeOn texts others among
        → (name : List ℕ) → among name ≡ true → leveled texts name ≡ leveled others name }
{}
