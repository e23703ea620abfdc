ghost use Rattle.std.specs.Prelude.{◌≡◌, ℕ, ◌+◌, ◌<◌, ◌≤◌, true, Option, Some, None, IfOk, OnOk, OnErr, IsSome, length, vec_len, slice_get, option_copied};
ghost use Rattle.std.specs.FinMap as map;
ghost use Rattle.fact_values.specs.Values.{value, dirty};
ghost use Rattle.fact_store.specs.Given.{answer_state};
ghost use Rattle.fact_store.specs.Slots.{texts_of, owed, AreDistinct};
ghost use Rattle.fact_store.specs.Plans.{is_marked};
ghost use Rattle.fact_store.specs.Right.{outlines, IsDone, HoldsPlan, IsRight, IsStore};
ghost use Rattle.fact_store.specs.Holding.{with_text, with_texts, AreBetween};
ghost use Rattle.fact_store.specs.declared.slot.Slot.{Slot as SlotOf};

use crate::batch::put_all;
use crate::derive::Derive;
use crate::given::{Answer, NewText};
use crate::order::bring_all;
use crate::plan::{Plan, plan_of};
use crate::shelf::Shelf;
use crate::texts::{put, take_out};
use std::alloc::Global;
use std::marker::Model;
use std::sync::Arc;
use step_count::Steps;
use tool_list::Memory;

/// Texts by their names, and the facts that were derived from them. Contracts see the texts, and
/// for how many names no fact that is held was made from the present texts.
#[derive(Drop)]
pub struct FactStore<D: Derive> {
    slots: Shelf<D::Own, D::Fact>,
    plan: Option<Plan>,
    current: Vec<bool>,
}

impl<D: Derive> Model for FactStore<D> {
    ghost use Rattle.fact_store.specs.Slots.{texts_of, owed};
    ghost use Rattle.fact_store.specs.Right.{IsStore};
    ghost use Rattle.fact_store.specs.Holding.{Holding, holding_code};

    ghost Value = { Holding };

    ghost coded = { holding_code };

    ghost view = { λ s. record {
      texts = texts_of s.slots;
      owed = owed D.own_of D.needs_of D.fact_of D.same s.slots;
    } };

    ghost invariant = { λ s. IsStore D.own_of D.needs_of D.fact_of D.same s.slots s.plan
        s.current.items };
}

// A mark for each slot, where what was marked stays so.
fn cover(marks: &mut Vec<bool>, len: usize) -> Result<(), Memory>
    requires { vec_len marks.old ≤ len }
    ensures marks { (i : ℕ) → is_marked marks.new.items i ≡ is_marked marks.old.items i }
    ensures most { vec_len marks.new ≤ len }
    ensures ok { OnOk result (vec_len marks.new ≡ len) }
{
    for _ in marks.len()..len {
        marks.push(false)?;
    }
    Ok(())
}

// A plan of these slots, where there is none yet.
fn make_plan<O: Drop, F: Drop>(
    alloc: Global,
    slots: &Shelf<O, F>,
    plan: &mut Option<Plan>,
) -> Result<(), Memory>
    requires distinct { AreDistinct slots.now }
    requires plan { HoldsPlan slots.now plan.old }
    ensures plan { HoldsPlan slots.now plan.new }
    ensures made { OnOk result (IsSome plan.new) }
{
    if plan.is_some() {
        return Ok(());
    }
    let made = plan_of(alloc, slots)?;
    *plan = Some(made);
    Ok(())
}

// Brings the fact at an index up to the present texts.
fn bring_up<D: Derive, L>(
    alloc: Global,
    slots: &mut Shelf<D::Own, D::Fact>,
    plan: &mut Option<Plan>,
    current: &mut Vec<bool>,
    index: usize,
    d: &mut D,
    steps: &mut Steps<L>,
) -> Result<(), Memory>
    requires store { IsStore D.own_of D.needs_of D.fact_of D.same slots.old plan.old
        current.old.items }
    requires index { index < length slots.old }
    ensures outlines { outlines slots.new ≡ outlines slots.old }
    ensures store { IsStore D.own_of D.needs_of D.fact_of D.same slots.new plan.new
        current.new.items }
    ensures done { OnOk result ((slot : SlotOf D.Own D.Fact) → slice_get slots.new index ≡ Some slot
        → IsDone current.new.items index slot) }
    ensures rises { steps.old ≤ steps.new }
    ensures counted { OnOk result (steps.new + owed D.own_of D.needs_of D.fact_of D.same slots.new
        ≤ steps.old + owed D.own_of D.needs_of D.fact_of D.same slots.old) }
{
    cover(current, slots.len())?;
    make_plan(alloc, slots, plan)?;
    let Some(made) = &*plan else {
        unreachable!();
    };
    bring_all(alloc, slots, made, current, index, d, steps)
}

// The fact at an index, where it stands.
fn fact_at<D: Derive>(
    slots: &Shelf<D::Own, D::Fact>,
    current: &[bool],
    index: usize,
) -> Result<Answer<D::Fact>, Memory>
    requires right { IsRight D.own_of D.needs_of D.fact_of D.same slots.now current.now }
    requires index { index < length slots.now }
    requires done { (slot : SlotOf D.Own D.Fact) → slice_get slots.now index ≡ Some slot
        → IsDone current.now index slot }
    ensures { IfOk result (λ answer. (slot : SlotOf D.Own D.Fact)
        → slice_get slots.now index ≡ Some slot
        → answer_state answer
        ≡ value D.own_of D.needs_of D.fact_of (texts_of slots.now) slot.name) }
{
    let slot = slots.at(index);
    if slot.needs.is_none() {
        return Ok(Answer::Broken);
    }
    let Some(kept) = &slot.kept else {
        unreachable!();
    };
    Ok(Answer::Fact(Arc::try_clone(&kept.fact)?))
}

impl<D: Derive> FactStore<D> {
    /// No texts. It takes no memory.
    pub fn new(alloc: Global) -> FactStore<D>
        ensures { result ≡ record { texts = map.empty; owed = 0 } }
    {
        FactStore {
            slots: Shelf::new(alloc),
            plan: None,
            current: Vec::new(alloc),
        }
    }

    /// Gives a name a text, or with `None` takes its text away. Facts that were made from other
    /// texts are kept to be compared with. After `Memory` the store is as before.
    pub fn put_text(
        &mut self,
        alloc: Global,
        name: &str,
        bytes: Option<&[u8]>,
        d: &mut D,
    ) -> Result<(), Memory>
        ensures texts { OnOk result (self.new.texts
            ≡ with_text self.old.texts name.now (option_copied bytes.entry)) }
        ensures owed { OnOk result (self.new.owed
            ≤ self.old.owed + dirty D.own_of D.needs_of D.fact_of D.same self.old.texts
            self.new.texts) }
        ensures err { OnErr result (self.new ≡ self.old) }
        ensures few { OnOk result (self.new.owed ≤ map.len self.new.texts) }
    {
        match bytes {
            Some(bytes) => put(alloc, &mut self.slots, &mut self.plan, name, bytes, d)?,
            None => take_out::<D>(&mut self.slots, &mut self.plan, name),
        }
        self.current.clear();
        Ok(())
    }

    /// Gives names their texts, or takes them away, as if one after another; but each name gets the
    /// last of its texts alone, so that what is owed rises by no more than what is dirty between the
    /// texts before the call and those after it. After `Memory` each name has the text that it had,
    /// or its last one.
    pub fn put_texts(&mut self, alloc: Global, texts: &[NewText], d: &mut D) -> Result<(), Memory>
        ensures texts { OnOk result (self.new.texts ≡ with_texts self.old.texts texts.now) }
        ensures owed { self.new.owed
            ≤ self.old.owed + dirty D.own_of D.needs_of D.fact_of D.same self.old.texts
            self.new.texts }
        ensures between { AreBetween self.old.texts (with_texts self.old.texts texts.now)
            self.new.texts }
        ensures few { self.new.owed ≤ map.len self.new.texts }
    {
        self.current.clear();
        put_all(alloc, &mut self.slots, &mut self.plan, texts, d)
    }

    /// The value of a name, from the texts alone. A fact that is held is answered where it was made
    /// from the present bytes and from what its needs give now, up to faces; else it is derived,
    /// which counts one step at most. After `Memory` the texts are as before.
    pub fn demand<L>(
        &mut self,
        alloc: Global,
        name: &str,
        d: &mut D,
        steps: &mut Steps<L>,
    ) -> Result<Answer<D::Fact>, Memory>
        ensures answer { IfOk result (λ answer. answer_state answer
            ≡ value D.own_of D.needs_of D.fact_of self.old.texts name.now) }
        ensures texts { self.new.texts ≡ self.old.texts }
        ensures rises { steps.old ≤ steps.new }
        ensures counted { OnOk result (steps.new + self.new.owed ≤ steps.old + self.old.owed) }
        ensures few { OnOk result (self.new.owed ≤ map.len self.new.texts) }
    {
        let Some(index) = self.slots.index_of(name) else {
            return Ok(Answer::NoText);
        };
        bring_up(
            alloc,
            &mut self.slots,
            &mut self.plan,
            &mut self.current,
            index,
            d,
            steps,
        )?;
        fact_at::<D>(&self.slots, &self.current, index)
    }
}
