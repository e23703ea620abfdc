// In which order facts are brought up to the present texts.
ghost use Rattle.std.specs.Prelude.{◌≡◌, ℕ, ◌+◌, ◌<◌, ◌≤◌, Some, OnOk, length, vec_len, slice_get};
ghost use Rattle.fact_store.specs.Slots.{owed};
ghost use Rattle.fact_store.specs.Right.{IsPlan, IsDone, IsRight, Brings};
ghost use Rattle.fact_store.specs.declared.slot.Slot.{Slot as SlotOf};

use crate::derive::Derive;
use crate::fresh::bring;
use crate::plan::Plan;
use crate::shelf::Shelf;
use index_graph::reached;
use std::alloc::Global;
use step_count::Steps;
use tool_list::Memory;

/// Brings the fact at an index, and each that it stands on, up to the present texts, in the order
/// of the plan: so each comes behind those that it stands on.
pub fn bring_all<D: Derive, L>(
    alloc: Global,
    slots: &mut Shelf<D::Own, D::Fact>,
    plan: &Plan,
    current: &mut Vec<bool>,
    index: usize,
    d: &mut D,
    steps: &mut Steps<L>,
) -> Result<(), Memory>
    requires right { IsRight D.own_of D.needs_of D.fact_of D.same slots.old current.old.items }
    requires plan { IsPlan slots.old plan.now }
    requires index { index < length slots.old }
    requires marks { vec_len current.old ≡ length slots.old }
    ensures brings { Brings D.own_of D.needs_of D.fact_of D.same slots.old slots.new
        current.old.items current.new.items steps.old steps.new }
    ensures done { OnOk result ((slot : SlotOf D.Own D.Fact) → slice_get slots.new index ≡ Some slot
        → IsDone current.new.items index slot) }
    ensures counted { OnOk result (steps.new + owed D.own_of D.needs_of D.fact_of D.same slots.new
        ≤ steps.old + owed D.own_of D.needs_of D.fact_of D.same slots.old) }
{
    let seen = reached(alloc, &plan.grounds, index)?;
    for i in 0..plan.order.len() {
        let next = plan.order[i];
        if seen[next] {
            bring(alloc, slots, plan, current, next, d, steps)?;
        }
    }
    Ok(())
}
