// What of a node needs no other body.
ghost use Rattle.std.specs.List.{list_all};
ghost use Rattle.std.specs.Prelude.{◌≡◌, ◌<◌, ◌≤◌, ◌++◌, IfOk, MatchOption, OnOk, true, length, map, slice_get, take};
ghost use Rattle.kind_text.specs.FlatModule.{places_of};
ghost use Rattle.kind_table.specs.Flattened.{flat_of, path_at};
ghost use Rattle.kind_table.specs.Table.{AddsValues, AllWithin};
ghost use Rattle.level_facts.specs.Facts.{HasNoBody, IsBody, IsFacts};
ghost use Rattle.level_facts.specs.Judged.{IsClosure, IsOperand, around_of, puts_nothing_in};

use crate::facts::{KindFacts, number};
use kind_table::{Arg, Definition, FlatModule, Instance, add_values, behind, copied, first, front};
use std::alloc::{AllocError, Global};
use tla_symbols::{Kind, Rule};

/// How far a path has led: what stands round what is defined there, the arguments that are left,
/// and whether all guards are met.
pub(crate) struct Reached {
    pub(crate) frame: Vec<usize>,
    pub(crate) rest: Vec<usize>,
    pub(crate) met: bool,
}

// By hand, so that a proof meets one call wherever a value ends.
impl Drop for Reached {
    fn drop(self) {
        let Reached {
            frame: _,
            rest: _,
            met: _,
        } = self;
    }
}

impl Reached {
    /// What stands round a body: so much of what stands round its name, and then the arguments that
    /// are left.
    pub(crate) fn round(self, outer: usize) -> Result<Vec<usize>, AllocError>
        ensures { IfOk result (λ v. v.items ≡ take outer self.frame.items ++ self.rest.items) }
    {
        let Reached {
            mut frame,
            rest,
            met: _,
        } = self;
        frame.truncate(outer);
        frame.extend_from_slice(&rest)?;
        Ok(frame)
    }
}

/// Where a path begins: nothing is put in yet for its instances.
pub(crate) fn start(
    alloc: Global,
    frame: &[usize],
    numbers: &[usize],
) -> Result<Reached, AllocError>
    ensures frame { IfOk result (λ r. r.frame.items ≡ frame.now) }
    ensures rest { IfOk result (λ r. r.rest.items ≡ numbers.now) }
    ensures met { IfOk result (λ r. r.met ≡ true) }
{
    Ok(Reached {
        frame: copied(alloc, frame)?,
        rest: copied(alloc, numbers)?,
        met: true,
    })
}

/// What stands round what an instance is made of: what stands round its name, and its arguments.
pub(crate) fn around(
    alloc: Global,
    instance: &Instance,
    reached: &Reached,
) -> Result<Vec<usize>, AllocError>
    ensures { IfOk result (λ v. v.items ≡ around_of instance.now reached.now) }
{
    let arguments = front(&reached.rest, instance.parameters);
    let round = behind(alloc, &reached.frame, instance.outer, arguments)?;
    Ok(round)
}

/// Whether a path leads through instances in which nothing is put in.
pub(crate) fn is_free(flat: &FlatModule, path: usize) -> bool
    ensures { result ≡ list_all
        (λ j. puts_nothing_in (slice_get (flat_of flat.now).instances j))
        (path_at flat.now.paths.items path) }
{
    flat.path(path)
        .iter()
        .all(|instance| has_nothing_in(flat, *instance))
}

// Whether nothing is put in for an instance: it has no parameters, and its module no symbols.
fn has_nothing_in(flat: &FlatModule, instance: usize) -> bool
    ensures { result ≡ puts_nothing_in (slice_get (flat_of flat.now).instances instance) }
{
    match flat.instances.get(instance) {
        None => false,
        Some(here) => here.parameters == 0 && here.replacements.is_empty(),
    }
}

/// The number of what stands at a place of a frame. Past its end a constant stands.
pub(crate) fn operand(
    flat: &FlatModule,
    facts: &mut KindFacts,
    frame: &[usize],
    place: usize,
) -> Result<usize, AllocError>
    requires facts { IsFacts (flat_of flat.now) facts.old }
    requires frame { AllWithin facts.old.arguments.keys frame.now }
    ensures facts { IsFacts (flat_of flat.now) facts.new }
    ensures found { IfOk result (λ n. IsOperand (flat_of flat.now) facts.old.arguments.keys
        facts.new.arguments.keys frame.now place n) }
{
    match frame.get(place) {
        Some(n) => Ok(*n),
        None => {
            let n = number(flat, facts, Arg::Value(Some(Kind::Const)))?;
            Ok(n)
        }
    }
}

/// The number of a definition as an operator, with what stands round it at a use.
pub(crate) fn closure(
    alloc: Global,
    flat: &FlatModule,
    facts: &mut KindFacts,
    definition: usize,
    frame: &[usize],
) -> Result<usize, AllocError>
    requires facts { IsFacts (flat_of flat.now) facts.old }
    requires frame { AllWithin facts.old.arguments.keys frame.now }
    ensures facts { IsFacts (flat_of flat.now) facts.new }
    ensures found { IfOk result (λ n. IsClosure (flat_of flat.now) facts.old.arguments.keys
        facts.new.arguments.keys definition frame.now n) }
{
    match body_of(flat, definition) {
        None => {
            let n = number(flat, facts, Arg::Value(None))?;
            Ok(n)
        }
        Some(body) => {
            let outer = first(alloc, frame, body.outer)?;
            let n = number(flat, facts, Arg::Operator(definition, outer))?;
            Ok(n)
        }
    }
}

/// The definition of a number, if its body is there.
pub(crate) fn body_of(flat: &FlatModule, definition: usize) -> Option<Definition>
    ensures { MatchOption result (HasNoBody (flat_of flat.now) definition)
        (IsBody (flat_of flat.now) definition) }
{
    match flat.definitions.get(definition) {
        None => None,
        Some(body) => there(flat, *body),
    }
}

// A definition, if its body is there.
fn there(flat: &FlatModule, body: Definition) -> Option<Definition>
    ensures { MatchOption result (length (flat_of flat.now).nodes ≤ body.root)
        (λ x. (x ≡ body) × (body.root < length (flat_of flat.now).nodes)) }
{
    if body.root < flat.nodes.len() {
        return Some(body);
    }
    None
}

/// The number of places of the bare operator that a node is.
pub(crate) fn places(flat: &FlatModule, node: usize) -> Option<usize>
    ensures { result ≡ places_of (slice_get (flat_of flat.now).nodes node) }
{
    match flat.nodes.get(node) {
        None => None,
        Some(node) => node.places,
    }
}

/// Puts expressions of these kinds behind what stands in a frame.
pub(crate) fn add_operands(
    flat: &FlatModule,
    facts: &mut KindFacts,
    frame: &mut Vec<usize>,
    kinds: &[Option<Kind>],
) -> Result<(), AllocError>
    requires facts { IsFacts (flat_of flat.now) facts.old }
    requires frame { AllWithin facts.old.arguments.keys frame.old.items }
    ensures facts { IsFacts (flat_of flat.now) facts.new }
    ensures added { OnOk result (AddsValues facts.old.arguments.keys facts.new.arguments.keys
        frame.old.items frame.new.items kinds.now) }
{
    add_values(&mut facts.arguments, frame, kinds)?;
    Ok(())
}
