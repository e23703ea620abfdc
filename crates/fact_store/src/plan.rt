// What is found of the present texts.
ghost use Rattle.std.specs.Prelude.{◌≡◌, ◌<◌, All, IfOk, OnOk, length, unwrap_or, []};
ghost use Rattle.index_graph.specs.Indices.{HasIndices};
ghost use Rattle.fact_store.specs.Slots.{AreDistinct};
ghost use Rattle.fact_store.specs.Plans.{row_with, IsRow, AreEdges, AreGrounds, IsGround};
ghost use Rattle.fact_store.specs.Right.{IsPlan};

use crate::shelf::Shelf;
use crate::slot::Slot;
use index_graph::arrange;
use std::alloc::Global;
use tool_list::{Chars, List, Memory};

/// What is found of the present texts, by the indices of their slots.
pub struct Plan {
    /// The indices that each index needs, each once.
    pub edges: Vec<List<usize>>,
    /// The number of the group of each index: those that reach each other are one.
    pub groups: Vec<usize>,
    /// The indices, each behind those that it needs and that do not lead back to it.
    pub order: Vec<usize>,
    /// The indices that each index needs and that do not lead back to it.
    pub grounds: Vec<List<usize>>,
}

// By hand, so that a proof meets one call wherever a value ends.
impl Drop for Plan {
    fn drop(self) {
        let Plan {
            edges: _,
            groups: _,
            order: _,
            grounds: _,
        } = self;
    }
}

// Puts an index behind the others of a row, where it is not among them.
fn add_once(row: &mut List<usize>, index: usize) -> Result<(), Memory>
    ensures { OnOk result (row.new ≡ row_with row.old index) }
{
    if row.as_slice().contains(&index) {
        return Ok(());
    }
    row.push(index)
}

// The indices of the slots that these names name, each once.
fn row_of<O: Drop, F: Drop>(
    alloc: Global,
    slots: &Shelf<O, F>,
    names: &[Chars],
) -> Result<List<usize>, Memory>
    requires { AreDistinct slots.now }
    ensures { IfOk result (λ row. IsRow slots.now names.now row) }
{
    let mut row = List::new(alloc);
    for name in names {
        if let Some(index) = slots.index_of(name.as_str()) {
            add_once(&mut row, index)?;
        }
    }
    Ok(row)
}

/// The names that a slot needs.
pub fn needed<O: Drop, F: Drop>(slot: &Slot<O, F>) -> &[Chars]
    ensures { result.now ≡ unwrap_or slot.now.needs [] }
{
    match &slot.needs {
        Some(names) => names.as_slice(),
        None => &[],
    }
}

// For each slot the indices of those that it needs.
fn edges_of<O: Drop, F: Drop>(
    alloc: Global,
    slots: &Shelf<O, F>,
) -> Result<Vec<List<usize>>, Memory>
    requires { AreDistinct slots.now }
    ensures { IfOk result (λ edges. AreEdges slots.now edges.items) }
{
    let mut edges = Vec::new(alloc);
    for index in 0..slots.len() {
        edges.push(row_of(alloc, slots, needed(slots.at(index)))?)?;
    }
    Ok(edges)
}

// Of the indices in a row, those of another group.
fn ground_of(
    alloc: Global,
    groups: &[usize],
    group: usize,
    row: &[usize],
) -> Result<List<usize>, Memory>
    requires { All (λ index. index < length groups.now) row.now }
    ensures { IfOk result (λ others. IsGround groups.now group row.now others) }
{
    let mut ground = List::new(alloc);
    for &index in row {
        if groups[index] != group {
            ground.push(index)?;
        }
    }
    Ok(ground)
}

// For each index those that it needs and that do not lead back: they are of another group.
fn grounds_of(
    alloc: Global,
    edges: &[List<usize>],
    groups: &[usize],
) -> Result<Vec<List<usize>>, Memory>
    requires indices { HasIndices edges.now }
    requires long { length groups.now ≡ length edges.now }
    ensures { IfOk result (λ grounds. AreGrounds edges.now groups.now grounds.items) }
{
    let mut grounds = Vec::new(alloc);
    for index in 0..edges.len() {
        let ground = ground_of(alloc, groups, groups[index], edges[index].as_slice())?;
        grounds.push(ground)?;
    }
    Ok(grounds)
}

/// What is found of these texts.
pub fn plan_of<O: Drop, F: Drop>(alloc: Global, slots: &Shelf<O, F>) -> Result<Plan, Memory>
    requires { AreDistinct slots.now }
    ensures { IfOk result (λ plan. IsPlan slots.now plan) }
{
    let edges = edges_of(alloc, slots)?;
    let found = arrange(alloc, &edges)?;
    let (order, groups) = found.into_groups();
    let grounds = grounds_of(alloc, &edges, &groups)?;
    Ok(Plan {
        edges,
        groups,
        order,
        grounds,
    })
}
