// Texts that are put, and removed.
ghost use Rattle.std.specs.Prelude.{◌≡◌, ℕ, ◌+◌, ◌<◌, ◌≤◌, true, Option, Some, None, IfOk, OnOk, OnErr, IsTrue, length, vec_len, map, remove, slice_get, slice_set};
ghost use Rattle.std.specs.FinMap as map;
ghost use Rattle.fact_store.specs.Slots.{texts_of, AreSound, CarriesOver};
ghost use Rattle.fact_store.specs.Slots as slots_of;
ghost use Rattle.fact_store.specs.Right.{HoldsPlan};
ghost use Rattle.fact_store.specs.declared.slot.Slot.{Slot as SlotOf};

use crate::derive::Derive;
use crate::plan::Plan;
use crate::shelf::Shelf;
use crate::slot::Slot;
use std::alloc::Global;
use tool_list::{Chars, List, Memory};

// Whether two lists of names are the same.
fn same_names(a: &Option<List<Chars>>, b: &Option<List<Chars>>) -> bool
    ensures { IsTrue result → a.now ≡ b.now }
{
    match (a, b) {
        (Some(a), Some(b)) => a.as_slice() == b.as_slice(),
        (None, None) => true,
        _ => false,
    }
}

// Gives the slot at an index the text of another, with its parts. The plan stays where the needs do.
fn replace<O: Drop, F: Drop>(
    slots: &mut Shelf<O, F>,
    plan: &mut Option<Plan>,
    index: usize,
    slot: Slot<O, F>,
)
    requires index { index < length slots.old }
    requires plan { HoldsPlan slots.old plan.old }
    ensures slots { (before : SlotOf O F) → slice_get slots.old index ≡ Some before
        → slots.new
        ≡ slice_set slots.old index
        (record {
          name = before.name;
          bytes = slot.bytes;
          own = slot.own;
          needs = slot.needs;
          kept =
              slots_of.kept_after before.kept before.bytes slot.bytes;
        }) }
    ensures plan { HoldsPlan slots.new plan.new }
{
    let (bytes, own, needs) = slot.into_text();
    if !same_names(&slots.at(index).needs, &needs) {
        *plan = None;
    }
    slots.set_text(index, bytes, own, needs);
}

// The slot of a text, with the parts that this text has.
fn slot_of<D: Derive>(
    alloc: Global,
    name: &str,
    bytes: &[u8],
    d: &mut D,
) -> Result<Slot<D::Own, D::Fact>, Memory>
    ensures { IfOk result (λ slot. slot
        ≡ slots_of.new_slot D.own_of D.needs_of name.now bytes.now) }
{
    let text = List::from_vec(Vec::from_slice(alloc, bytes)?);
    let called = Chars::from_str(alloc, name)?;
    let own = d.own(alloc, name, bytes)?;
    let needs = d.needs(alloc, &own)?;
    Ok(Slot {
        name: called,
        bytes: text,
        own,
        needs,
        kept: None,
    })
}

/// Gives a name a text, with the parts that this text has.
pub fn put<D: Derive>(
    alloc: Global,
    slots: &mut Shelf<D::Own, D::Fact>,
    plan: &mut Option<Plan>,
    name: &str,
    bytes: &[u8],
    d: &mut D,
) -> Result<(), Memory>
    requires sound { AreSound D.own_of D.needs_of D.fact_of slots.old }
    requires plan { HoldsPlan slots.old plan.old }
    ensures sound { AreSound D.own_of D.needs_of D.fact_of slots.new }
    ensures plan { HoldsPlan slots.new plan.new }
    ensures texts { OnOk result (texts_of slots.new
        ≡ map.insert (texts_of slots.old) name.now bytes.now) }
    ensures carries { OnOk result (CarriesOver slots.old slots.new) }
    ensures err { OnErr result (slots.new ≡ slots.old) }
{
    let slot = slot_of(alloc, name, bytes, d)?;
    let Some(index) = slots.index_of(name) else {
        slots.push(alloc, slot)?;
        *plan = None;
        return Ok(());
    };
    replace(slots, plan, index, slot);
    Ok(())
}

/// Takes the text of a name away, with all that was made from it.
pub fn take_out<D: Derive>(slots: &mut Shelf<D::Own, D::Fact>, plan: &mut Option<Plan>, name: &str)
    requires sound { AreSound D.own_of D.needs_of D.fact_of slots.old }
    requires plan { HoldsPlan slots.old plan.old }
    ensures sound { AreSound D.own_of D.needs_of D.fact_of slots.new }
    ensures plan { HoldsPlan slots.new plan.new }
    ensures texts { texts_of slots.new ≡ map.remove (texts_of slots.old) name.now }
    ensures carries { CarriesOver slots.old slots.new }
{
    let Some(index) = slots.index_of(name) else {
        return;
    };
    slots.remove(index);
    *plan = None;
}
