// Texts of several names that are put in one go.
ghost use Rattle.std.specs.Prelude.{◌≡◌, ◌+◌, ◌<◌, OnOk, OnErr, length, if◌then◌else◌};
ghost use Rattle.fact_store.specs.Holding.{with_text, with_texts, AreBetween};
ghost use Rattle.fact_store.specs.Holding as holding;
ghost use Rattle.fact_store.specs.Slots.{texts_of, AreSound, CarriesOver};
ghost use Rattle.fact_store.specs.Right.{HoldsPlan};

use crate::derive::Derive;
use crate::given::NewText;
use crate::plan::Plan;
use crate::shelf::Shelf;
use crate::slot::same_bytes;
use crate::texts::{put, take_out};
use std::alloc::Global;
use tool_list::Memory;

// Whether one of these is of this name.
fn has_text(texts: &[NewText], name: &str) -> bool
    ensures { result ≡ holding.has_text texts.now name.now }
{
    texts.iter().any(|text| same_bytes(name.as_bytes(), text.name.as_str().as_bytes()))
}

// Gives a name its text, or takes it away.
fn put_one<D: Derive>(
    alloc: Global,
    slots: &mut Shelf<D::Own, D::Fact>,
    plan: &mut Option<Plan>,
    text: &NewText,
    d: &mut D,
) -> Result<(), Memory>
    requires sound { AreSound D.own_of D.needs_of D.fact_of slots.old }
    requires plan { HoldsPlan slots.old plan.old }
    ensures sound { AreSound D.own_of D.needs_of D.fact_of slots.new }
    ensures plan { HoldsPlan slots.new plan.new }
    ensures texts { OnOk result (texts_of slots.new
        ≡ with_text (texts_of slots.old) text.now.name text.now.bytes) }
    ensures carries { OnOk result (CarriesOver slots.old slots.new) }
    ensures err { OnErr result (slots.new ≡ slots.old) }
{
    let name = text.name.as_str();
    match &text.bytes {
        Some(bytes) => put(alloc, slots, plan, name, bytes.as_slice(), d),
        None => {
            take_out::<D>(slots, plan, name);
            Ok(())
        }
    }
}

// Puts a text where none of the later ones is of its name.
fn put_last<D: Derive>(
    alloc: Global,
    slots: &mut Shelf<D::Own, D::Fact>,
    plan: &mut Option<Plan>,
    text: &NewText,
    later: &[NewText],
    d: &mut D,
) -> Result<(), Memory>
    requires sound { AreSound D.own_of D.needs_of D.fact_of slots.old }
    requires plan { HoldsPlan slots.old plan.old }
    ensures sound { AreSound D.own_of D.needs_of D.fact_of slots.new }
    ensures plan { HoldsPlan slots.new plan.new }
    ensures texts { OnOk result (texts_of slots.new
        ≡ (if holding.has_text later.now text.now.name then texts_of slots.old
        else with_text (texts_of slots.old) text.now.name text.now.bytes)) }
    ensures carries { OnOk result (CarriesOver slots.old slots.new) }
    ensures err { OnErr result (slots.new ≡ slots.old) }
{
    if has_text(later, text.name.as_str()) {
        return Ok(());
    }
    put_one(alloc, slots, plan, text, d)
}

/// Gives each of these names the last of its texts.
pub fn put_all<D: Derive>(
    alloc: Global,
    slots: &mut Shelf<D::Own, D::Fact>,
    plan: &mut Option<Plan>,
    texts: &[NewText],
    d: &mut D,
) -> Result<(), Memory>
    requires sound { AreSound D.own_of D.needs_of D.fact_of slots.old }
    requires plan { HoldsPlan slots.old plan.old }
    ensures sound { AreSound D.own_of D.needs_of D.fact_of slots.new }
    ensures plan { HoldsPlan slots.new plan.new }
    ensures carries { CarriesOver slots.old slots.new }
    ensures texts { OnOk result (texts_of slots.new ≡ with_texts (texts_of slots.old) texts.now) }
    ensures between { AreBetween (texts_of slots.old) (with_texts (texts_of slots.old) texts.now)
        (texts_of slots.new) }
{
    for index in 0..texts.len() {
        put_last(alloc, slots, plan, &texts[index], &texts[index + 1..], d)?;
    }
    Ok(())
}
