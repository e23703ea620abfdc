//! How many modules are still to be checked, by what is kept of checks; and what changes of texts and
//! checks do to that.
//!
//! No code: each function states a law. Knows nothing of how what was found is kept.
#![tactic(auto)]

ghost use Rattle.std.specs.Prelude.{◌≡◌, ◌+◌, ℕ, Bool, IsSome, List, length};
ghost use Rattle.std.specs.FinMap.{get, keys};
ghost use Rattle.fact_values.specs.Names.{Texts};
ghost use Rattle.module_interfaces.specs.Interfaces.{Fact, TellsImports, dirty};
ghost use Rattle.owed_checks.specs.Owed.{IsCurrent, Kept, Owes, StayCurrent};

use module_interfaces::dirty_modules_have_changed;

/// Whatever is kept, no more is owed than all modules.
pub fn all_are_owed()
    ensures { (kept : Kept) (texts : Texts) → Owes kept texts (length (keys texts)) }
{}

/// Behind a change of texts no more is owed than before, and the modules that are dirty.
pub fn changes_owe_dirty_modules()
    ensures { (same : Fact → Fact → Bool) → TellsImports same → (kept : Kept) (old new : Texts)
        (owed : ℕ) → Owes kept old owed → Owes kept new (owed + dirty same old new) }
{
    dirty_modules_have_changed();
}

/// Where what is current stays so, no more is owed; and one module less, where one is current behind
/// a check that was not.
pub fn checks_pay()
    ensures stays { (before after : Kept) (texts : Texts) (owed : ℕ) → Owes before texts owed
        → StayCurrent before after texts → Owes after texts owed }
    ensures less { (before after : Kept) (texts : Texts) (owed : ℕ) (name : List ℕ)
        → Owes before texts owed → StayCurrent before after texts → IsSome (get texts name)
        → (IsCurrent before texts name → ⊥) → IsCurrent after texts name
        → (left : ℕ) × (owed ≡ left + 1) × Owes after texts left }
{}
