// The kinds of all nodes of a stretch, over one frame.
ghost use Rattle.std.specs.Prelude.{◌≡◌, ◌<◌, ◌≤◌, IfOk, OnOk, length, map, slice_get};
ghost use Rattle.kind_text.specs.ExpandedKind.{kind};
ghost use Rattle.kind_text.specs.FlatModule.{IsOrdered, places_of};
ghost use Rattle.kind_text.specs.Substitution.{judged};
ghost use Rattle.kind_table.specs.Flattened.{flat_of};
ghost use Rattle.kind_table.specs.Table.{Grows, meaning};
ghost use Rattle.level_facts.specs.Facts.{AreKinds, IsFacts, argument_item};

use crate::facts::{Argument, KindFacts, numbers_of};
use crate::judging::{judged_kind, step};
use crate::steps::places;
use kind_table::FlatModule;
use std::alloc::{AllocError, Global};
use tla_symbols::Kind;

impl KindFacts {
    /// The kinds of the nodes from one on, before another one, with these put in for what stands
    /// round them. Each node is judged once, the lowest first. Nothing is said of nodes that are
    /// made of nodes before the first one.
    pub fn kinds_over(
        &mut self,
        alloc: Global,
        flat: &FlatModule,
        arguments: &[Argument],
        start: usize,
        end: usize,
    ) -> Result<Vec<Option<Kind>>, AllocError>
        requires ordered { IsOrdered (flat_of flat.now) }
        requires facts { IsFacts (flat_of flat.now) self.old }
        requires start { start ≤ end }
        requires end { end ≤ length (flat_of flat.now).nodes }
        ensures facts { IsFacts (flat_of flat.now) self.new }
        ensures kinds { IfOk result (λ kinds. AreKinds (flat_of flat.now)
            (map (argument_item (flat_of flat.now)) arguments.now) start end kinds.items) }
    {
        let frame = numbers_of(alloc, flat, self, arguments)?;
        let mut found = Vec::with_capacity(alloc, end - start)?;
        let mut kinds = Vec::with_capacity(alloc, end - start)?;
        for node in start..end {
            let n = step(alloc, flat, self, node, start, &found, &frame)?;
            found.push(n)?;
            let kind = node_kind(alloc, flat, self, node, n)?;
            kinds.push(kind)?;
        }
        Ok(kinds)
    }
}

// The kind that is judged of a node, by the number of what it stands for.
fn node_kind(
    alloc: Global,
    flat: &FlatModule,
    facts: &mut KindFacts,
    node: usize,
    n: usize,
) -> Result<Option<Kind>, AllocError>
    requires ordered { IsOrdered (flat_of flat.now) }
    requires facts { IsFacts (flat_of flat.now) facts.old }
    ensures facts { IsFacts (flat_of flat.now) facts.new }
    ensures grows { OnOk result (Grows facts.old.arguments.keys facts.new.arguments.keys) }
    ensures kind { IfOk result (λ k. n < length facts.old.arguments.keys
        → k ≡ kind (judged (places_of (slice_get (flat_of flat.now).nodes node))
        (meaning (flat_of flat.now) facts.new.arguments.keys n))) }
{
    if n >= facts.arguments.len() {
        return Ok(None);
    }
    let places = places(flat, node);
    let kind = judged_kind(alloc, flat, facts, places, n)?;
    Ok(kind)
}
