// How a fact is brought up to the present texts.
ghost use Rattle.std.specs.Prelude.{◌≡◌, ℕ, ◌+◌, ◌<◌, ◌≤◌, ◌||◌, true, Option, Some, None, IfOk, OnOk, OnErr, length, vec_len, map, if◌then◌else◌, option_map, unwrap_or, []};
ghost use Rattle.std.specs.Arc.{arc_value};
ghost use Rattle.std.specs.List.{slice_get};
ghost use Rattle.fact_values.specs.Names.{has};
ghost use Rattle.fact_values.specs.States.{same_state, same_given};
ghost use Rattle.fact_store.specs.Given.{input_state, states};
ghost use Rattle.fact_values.specs.Values.{gives, value, given_in, ComesFromTexts};
ghost use Rattle.fact_store.specs.Slots.{texts_of, IsSound, owed};
ghost use Rattle.fact_store.specs.Right.{IsPlan, IsDone, IsReady, IsRight, Keeps, Brings};
ghost use Rattle.fact_store.specs.Right as rules;
ghost use Rattle.fact_store.specs.declared.slot.Slot.{Slot as SlotOf};

use crate::derive::Derive;
use crate::given::{Given, Input};
use crate::plan::{Plan, needed};
use crate::shelf::Shelf;
use crate::slot::{Kept, Slot, same_bytes};
use std::alloc::Global;
use std::sync::Arc;
use step_count::Steps;
use tool_list::{Chars, List, Memory};

// What a needed name gives to the text at an index.
fn input_of<D: Derive>(
    slots: &Shelf<D::Own, D::Fact>,
    plan: &Plan,
    current: &[bool],
    index: usize,
    need: &str,
) -> Result<Input<D::Fact>, Memory>
    requires right { IsRight D.own_of D.needs_of D.fact_of D.same slots.now current.now }
    requires plan { IsPlan slots.now plan.now }
    requires ready { IsReady slots.now plan.now.groups.items current.now index }
    requires index { index < length slots.now }
    requires need { (slot : SlotOf D.Own D.Fact) → slice_get slots.now index ≡ Some slot
        → has (unwrap_or slot.needs []) need.now ≡ true }
    ensures { IfOk result (λ input. (slot : SlotOf D.Own D.Fact)
        → slice_get slots.now index ≡ Some slot
        → input_state input
        ≡ gives D.own_of D.needs_of D.fact_of (texts_of slots.now)
        (value D.own_of D.needs_of D.fact_of (texts_of slots.now)) slot.name need.now) }
{
    let Some(other) = slots.index_of(need) else {
        return Ok(Input::NoText);
    };
    if plan.groups[other] == plan.groups[index] {
        return Ok(Input::Cyclic);
    }
    let slot = slots.at(other);
    if slot.needs.is_none() {
        return Ok(Input::Broken);
    }
    let Some(kept) = &slot.kept else {
        unreachable!();
    };
    Ok(Input::Fact(Arc::try_clone(&kept.fact)?))
}

// Whether two needs gave alike.
fn same_input<D: Derive>(d: &D, a: &Input<D::Fact>, b: &Input<D::Fact>) -> bool
    ensures { result ≡ same_state D.same (input_state a.now) (input_state b.now) }
{
    match (a, b) {
        (Input::NoText, Input::NoText) => true,
        (Input::Cyclic, Input::Cyclic) => true,
        (Input::Broken, Input::Broken) => true,
        (Input::Fact(a), Input::Fact(b)) => d.same_face(a, b),
        _ => false,
    }
}

// Whether the same names gave alike.
fn same_pairs<D: Derive>(
    d: &D,
    a: &[(Chars, Input<D::Fact>)],
    b: &[(Chars, Input<D::Fact>)],
) -> bool
    ensures { result ≡ same_given D.same (states a.now) (states b.now) }
{
    if a.len() != b.len() {
        return false;
    }
    for index in 0..a.len() {
        let (name, input) = &a[index];
        let (other_name, other) = &b[index];
        if !same_bytes(name.as_str().as_bytes(), other_name.as_str().as_bytes())
            || !same_input(d, input, other)
        {
            return false;
        }
    }
    true
}

// Whether a fact was made from the present text, where what its needs give now is like what they
// gave then.
fn is_fresh<D: Derive>(d: &D, kept: &Option<Kept<D::Fact>>, given: &Given<D::Fact>) -> bool
    ensures { result ≡ rules.is_fresh D.same kept.now (states given.now) }
{
    match kept {
        Some(kept) => {
            kept.from.is_none() && same_pairs(d, kept.given.as_slice(), given.as_slice())
        }
        None => false,
    }
}

// What the needs of the text at an index give to it, in order.
fn given_of<D: Derive>(
    alloc: Global,
    slots: &Shelf<D::Own, D::Fact>,
    plan: &Plan,
    current: &[bool],
    index: usize,
) -> Result<Given<D::Fact>, Memory>
    requires right { IsRight D.own_of D.needs_of D.fact_of D.same slots.now current.now }
    requires plan { IsPlan slots.now plan.now }
    requires ready { IsReady slots.now plan.now.groups.items current.now index }
    requires index { index < length slots.now }
    ensures { IfOk result (λ given. (slot : SlotOf D.Own D.Fact)
        → slice_get slots.now index ≡ Some slot
        → states given ≡ given_in D.own_of D.needs_of D.fact_of (texts_of slots.now) slot.name) }
{
    let mut given = List::new(alloc);
    for name in needed(slots.at(index)) {
        let input = input_of::<D>(slots, plan, current, index, name.as_str())?;
        let name = Chars::from_str(alloc, name.as_str())?;
        given.push((name, input))?;
    }
    Ok(given)
}

// The fact of a slot, derived from its text and from what its needs give.
fn derive<D: Derive, L>(
    alloc: Global,
    d: &mut D,
    slot: &Slot<D::Own, D::Fact>,
    given: Given<D::Fact>,
    steps: &mut Steps<L>,
) -> Result<Kept<D::Fact>, Memory>
    requires { ComesFromTexts D.own_of D.needs_of D.fact_of D.same slot.now.name slot.now.own
        (states given) }
    ensures from { IfOk result (λ kept. kept.from ≡ None) }
    ensures given { IfOk result (λ kept. kept.given ≡ given) }
    ensures fact { IfOk result (λ kept. arc_value kept.fact
        ≡ D.fact_of slot.now.name slot.now.own (states given)) }
    ensures rises { steps.old ≤ steps.new }
    ensures once { steps.new ≤ steps.old + 1 }
{
    let fact = d.fact(alloc, slot.name.as_str(), &slot.own, &given, steps)?;
    Ok(Kept {
        from: None,
        given,
        fact: Arc::new(alloc, fact)?,
    })
}

// Keeps the fact of the slot at an index where it is fresh, and else derives it.
fn keep<D: Derive, L>(
    alloc: Global,
    d: &mut D,
    slots: &mut Shelf<D::Own, D::Fact>,
    index: usize,
    given: Given<D::Fact>,
    steps: &mut Steps<L>,
) -> Result<(), Memory>
    requires index { index < length slots.old }
    requires sound { (slot : SlotOf D.Own D.Fact) → slice_get slots.old index ≡ Some slot
        → IsSound D.own_of D.needs_of D.fact_of slot }
    requires comes { (slot : SlotOf D.Own D.Fact) → slice_get slots.old index ≡ Some slot
        → ComesFromTexts D.own_of D.needs_of D.fact_of D.same slot.name slot.own (states given) }
    ensures kept { OnOk result ((slot : SlotOf D.Own D.Fact) → slice_get slots.old index ≡ Some slot
        → Keeps D.own_of D.needs_of D.fact_of D.same slots.old slots.new index slot
        (states given)) }
    ensures err { OnErr result (slots.new ≡ slots.old) }
    ensures rises { steps.old ≤ steps.new }
    ensures counted { OnOk result ((slot : SlotOf D.Own D.Fact)
        → slice_get slots.old index ≡ Some slot
        → steps.new ≤ steps.old + (if rules.is_fresh D.same slot.kept (states given) then 0
        else 1)) }
{
    if is_fresh(d, &slots.at(index).kept, &given) {
        slots.set_inputs(index, given);
        return Ok(());
    }
    let kept = derive(alloc, d, slots.at(index), given, steps)?;
    slots.keep(index, kept);
    Ok(())
}

/// Brings the fact at an index up to the present texts, where those of its needs are.
pub fn bring<D: Derive, L>(
    alloc: Global,
    slots: &mut Shelf<D::Own, D::Fact>,
    plan: &Plan,
    current: &mut Vec<bool>,
    index: usize,
    d: &mut D,
    steps: &mut Steps<L>,
) -> Result<(), Memory>
    requires right { IsRight D.own_of D.needs_of D.fact_of D.same slots.old current.old.items }
    requires plan { IsPlan slots.old plan.now }
    requires ready { IsReady slots.old plan.now.groups.items current.old.items index }
    requires index { index < length slots.old }
    requires marks { vec_len current.old ≡ length slots.old }
    ensures brings { Brings D.own_of D.needs_of D.fact_of D.same slots.old slots.new
        current.old.items current.new.items steps.old steps.new }
    ensures done { OnOk result ((slot : SlotOf D.Own D.Fact) → slice_get slots.new index ≡ Some slot
        → IsDone current.new.items index slot) }
    ensures counted { OnOk result (steps.new + owed D.own_of D.needs_of D.fact_of D.same slots.new
        ≤ steps.old + owed D.own_of D.needs_of D.fact_of D.same slots.old) }
{
    if current[index] || slots.at(index).needs.is_none() {
        return Ok(());
    }
    let given = given_of::<D>(alloc, slots, plan, current, index)?;
    keep(alloc, d, slots, index, given, steps)?;
    current[index] = true;
    Ok(())
}
