// Kinds of stretches of nodes, each over a frame.
ghost use Rattle.std.specs.Prelude.{◌≡◌, ◌<◌, ◌≤◌, ◌&&◌, IfOk, List, OnOk, Some, is_some, length, not, slice_get, true};
ghost use Rattle.kind_text.specs.FlatModule.{IsOrdered};
ghost use Rattle.kind_text.specs.FlatModule as text;
ghost use Rattle.std.specs.List.{AllByRecursion};
ghost use Rattle.kind_table.specs.Flattened.{first_node, flat_of};
ghost use Rattle.level_facts.specs.Facts.{IsFacts};
ghost use Rattle.tla_model.specs.Entities as entities;
ghost use Rattle.flattened_trees.specs.Answers as answering;
ghost use Rattle.found_levels.specs.declared.stretches.Stretch.{Stretch as StretchOf};
ghost use Rattle.found_levels.specs.Stretches.{AreKept, Begins, Covers, IsStretch};

use kind_table::FlatModule;
use level_answers::{is_refused, kind_of, kinds_over_frame};
use level_facts::KindFacts;
use std::alloc::Global;
use tla_model::Meaning;
use tla_symbols::Kind;
use tool_list::{List, Memory};

/// The kinds of the nodes from one on.
#[derive(Drop)]
pub(crate) struct Stretch {
    pub(crate) start: usize,
    pub(crate) kinds: Vec<Option<Kind>>,
}

/// For each frame a stretch in which no node stands yet.
pub(crate) fn no_stretches(alloc: Global, frames: usize) -> Result<Vec<Stretch>, Memory>
    ensures { IfOk result (λ kept. (flat : text.FlatModule) (all : List (List entities.Meaning))
        → length all ≡ frames → AreKept flat all kept.items) }
{
    let mut kept = Vec::with_capacity(alloc, frames)?;
    for _frame in 0..frames {
        kept.push(Stretch {
            start: 0,
            kinds: Vec::new(alloc),
        })?;
    }
    Ok(kept)
}

// The node with which begins what these nodes are made of, or an earlier one.
fn least_first(facts: &KindFacts, first: usize, nodes: &[usize]) -> usize
    ensures least { result ≤ first }
    ensures each { (flat : text.FlatModule) → IsFacts flat facts.now
        → AllByRecursion (λ i. i < length flat.nodes) nodes.now
        → AllByRecursion (λ i. result ≤ first_node flat i) nodes.now }
{
    let mut least = first;
    for node in nodes {
        least = least.min(facts.first_node(*node));
    }
    least
}

// The node with which begins what a node and its parts are made of.
fn beginning(facts: &KindFacts, flat: &FlatModule, node: usize) -> usize
    requires ordered { IsOrdered (flat_of flat.now) }
    requires facts { IsFacts (flat_of flat.now) facts.now }
    requires there { node < length flat.now.nodes.items }
    ensures begins { Begins (flat_of flat.now) result node }
    ensures before { result ≤ node }
{
    let first = facts.first_node(node).min(node);
    least_first(facts, first, &flat.nodes[node].parts)
}

// Whether a node stands in a stretch, with what it is made of.
fn covers(facts: &KindFacts, flat: &FlatModule, stretch: &Stretch, node: usize) -> bool
    requires ordered { IsOrdered (flat_of flat.now) }
    requires facts { IsFacts (flat_of flat.now) facts.now }
    requires there { node < length flat.now.nodes.items }
    ensures { result ≡ true → Covers (flat_of flat.now) stretch.now node }
{
    let first = beginning(facts, flat, node);
    stretch.start <= first && node - stretch.start < stretch.kinds.len()
}

// The kinds of a node and of what it is made of.
fn stretch_over(
    alloc: Global,
    facts: &mut KindFacts,
    flat: &FlatModule,
    frame: &[Meaning],
    node: usize,
) -> Result<Stretch, Memory>
    requires ordered { IsOrdered (flat_of flat.now) }
    requires facts { IsFacts (flat_of flat.now) facts.old }
    requires there { node < length flat.now.nodes.items }
    ensures facts { IsFacts (flat_of flat.now) facts.new }
    ensures kinds { IfOk result (λ s. IsStretch (flat_of flat.now) frame.now s) }
    ensures covers { IfOk result (λ s. Covers (flat_of flat.now) s node) }
{
    let start = beginning(facts, flat, node);
    let kinds = kinds_over_frame(alloc, facts, flat, frame, start, node + 1)?;
    Ok(Stretch { start, kinds })
}

// Finds the kinds of a node over a frame, and of what it is made of, unless they were found.
fn prepare(
    alloc: Global,
    facts: &mut KindFacts,
    flat: &FlatModule,
    frames: &[List<Meaning>],
    kept: &mut Vec<Stretch>,
    frame: usize,
    node: usize,
) -> Result<(), Memory>
    requires ordered { IsOrdered (flat_of flat.now) }
    requires facts { IsFacts (flat_of flat.now) facts.old }
    requires kept { AreKept (flat_of flat.now) frames.now kept.old.items }
    requires frame { frame < length frames.now }
    requires there { node < length flat.now.nodes.items }
    ensures facts { IsFacts (flat_of flat.now) facts.new }
    ensures kept { AreKept (flat_of flat.now) frames.now kept.new.items }
    ensures ready { OnOk result ((s : StretchOf) → slice_get kept.new.items frame ≡ Some s
        → Covers (flat_of flat.now) s node) }
{
    if covers(facts, flat, &kept[frame], node) {
        return Ok(());
    }
    let stretch = stretch_over(alloc, facts, flat, frames[frame].as_slice(), node)?;
    kept[frame] = stretch;
    Ok(())
}

/// The kind of a node over the frame of a number, and none where one of these is not there.
pub(crate) fn kind_in(
    alloc: Global,
    facts: &mut KindFacts,
    flat: &FlatModule,
    frames: &[List<Meaning>],
    kept: &mut Vec<Stretch>,
    frame: usize,
    node: usize,
) -> Result<Option<Kind>, Memory>
    requires ordered { IsOrdered (flat_of flat.now) }
    requires facts { IsFacts (flat_of flat.now) facts.old }
    requires kept { AreKept (flat_of flat.now) frames.now kept.old.items }
    ensures facts { IsFacts (flat_of flat.now) facts.new }
    ensures kept { AreKept (flat_of flat.now) frames.now kept.new.items }
    ensures kind { IfOk result (λ k. (round : List entities.Meaning)
        → slice_get frames.now frame ≡ Some round
        → k ≡ answering.kind_in (flat_of flat.now) round node) }
{
    if frame >= frames.len() {
        return Ok(None);
    }
    if node >= flat.nodes.len() {
        return Ok(None);
    }
    prepare(alloc, facts, flat, frames, kept, frame, node)?;
    let stretch = &kept[frame];
    Ok(kind_of(&stretch.kinds, stretch.start, node))
}

/// Whether a node has no kind over the frame of a number, though all that it is made of has one.
pub(crate) fn is_refused_in(
    alloc: Global,
    facts: &mut KindFacts,
    flat: &FlatModule,
    frames: &[List<Meaning>],
    kept: &mut Vec<Stretch>,
    frame: usize,
    node: usize,
) -> Result<bool, Memory>
    requires ordered { IsOrdered (flat_of flat.now) }
    requires facts { IsFacts (flat_of flat.now) facts.old }
    requires kept { AreKept (flat_of flat.now) frames.now kept.old.items }
    ensures facts { IsFacts (flat_of flat.now) facts.new }
    ensures kept { AreKept (flat_of flat.now) frames.now kept.new.items }
    ensures refused { IfOk result (λ r. (round : List entities.Meaning)
        → slice_get frames.now frame ≡ Some round
        → r ≡ (not (is_some (answering.kind_in (flat_of flat.now) round node))
        && answering.parts_have_kinds (flat_of flat.now) round
        (slice_get (flat_of flat.now).nodes node))) }
{
    if frame >= frames.len() {
        return Ok(false);
    }
    if node >= flat.nodes.len() {
        return Ok(false);
    }
    prepare(alloc, facts, flat, frames, kept, frame, node)?;
    let stretch = &kept[frame];
    Ok(is_refused(flat, &stretch.kinds, stretch.start, node))
}
