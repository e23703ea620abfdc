// What was found of kinds, and how callers ask for more.
ghost use Rattle.std.specs.Prelude.{◌≡◌, ◌<◌, ◌∷◌, [], IfOk, OnErr, OnOk, length, map, true};
ghost use Rattle.kind_text.specs.ExpandedKind.{kind};
ghost use Rattle.kind_text.specs.Expansion.{text_of};
ghost use Rattle.kind_text.specs.FlatModule.{Extends, IsOrdered};
ghost use Rattle.kind_text.specs.FlatModule as text;
ghost use Rattle.kind_table.specs.Flattened.{first_node, flat_of};
ghost use Rattle.kind_table.specs.Table.{Grows, IsArg, IsStored};
ghost use Rattle.level_facts.specs.Facts.{AddsArguments, AddsFrames, HasNumber, IsFacts, IsKept};
ghost use Rattle.level_facts.specs.Facts.{NamesBody, argument_item};

use crate::judging::kind_on;
use crate::steps::body_of;
use indexmap::{IndexMap, IndexSet};
use kind_table::{Arg, FlatModule, copied, extend_first_nodes, first_nodes, number_at};
use std::alloc::{AllocError, Global};
use tla_symbols::{Kind, Rule};

/// What a caller puts in for a parameter.
#[derive(Clone, Copy, Debug, PartialEq, Eq)]
pub enum Argument {
    /// An expression of a kind, or without one.
    Value(Option<Kind>),
    /// A symbol or a parameter that stays: a constant, and an operator by this rule.
    Stays(Rule),
    /// An operator that is built in or declared.
    BuiltIn(Rule),
    /// A definition that stands in no other one, as an operator.
    Operator(usize),
}

/// A definition with the number of a frame: what stands round it, and then its arguments.
#[derive(Clone, Copy, PartialEq, Eq, Hash)]
pub struct Key {
    pub definition: usize,
    pub frame: usize,
}

/// The arguments of a flat module by their numbers, and the kinds that were found.
pub struct KindFacts {
    pub(crate) firsts: Vec<usize>,
    pub(crate) arguments: IndexSet<Arg>,
    // Each frame once, however many definitions stand in it.
    pub(crate) frames: IndexSet<Vec<usize>>,
    // The number of the frame that was asked for last: mostly it is asked for again.
    pub(crate) recent: usize,
    pub(crate) kept: IndexMap<Key, Option<Kind>>,
}

// By hand, so that a proof meets one call wherever a value ends.
impl Drop for KindFacts {
    fn drop(self) {
        let KindFacts {
            firsts: _,
            arguments: _,
            frames: _,
            recent: _,
            kept: _,
        } = self;
    }
}

impl KindFacts {
    /// Nothing is found yet of a flat module.
    pub fn new(alloc: Global, flat: &FlatModule) -> Result<KindFacts, AllocError>
        ensures { IfOk result (λ facts. IsFacts (flat_of flat.now) facts) }
    {
        Ok(KindFacts {
            firsts: first_nodes(alloc, flat)?,
            arguments: IndexSet::new(alloc),
            frames: IndexSet::new(alloc),
            recent: 0,
            kept: IndexMap::new(alloc),
        })
    }

    /// The tables have grown: what was found stays right. After an error it is right for the
    /// tables of before.
    pub fn extend(&mut self, flat: &FlatModule) -> Result<(), AllocError>
        ensures extended { OnOk result ((before : text.FlatModule)
            → Extends before (flat_of flat.now) → IsOrdered before → IsFacts before self.old
            → IsFacts (flat_of flat.now) self.new) }
        ensures kept { OnErr result ((before : text.FlatModule) → IsFacts before self.old
            → IsFacts before self.new) }
    {
        extend_first_nodes(&mut self.firsts, flat)?;
        Ok(())
    }

    /// The first of the nodes that a node's kind is made of, whatever stands round it.
    pub fn first_node(&self, node: usize) -> usize
        ensures { (flat : text.FlatModule) → IsFacts flat self.now → node < length flat.nodes
            → result ≡ first_node flat node }
    {
        number_at(&self.firsts, node)
    }

    /// The kind of a definition's expansion with these put in, for what stands round it and for
    /// its parameters: none exactly where the expansion has none. Nothing is expanded. What was
    /// found is kept, also where memory runs out.
    pub fn kind_of(
        &mut self,
        alloc: Global,
        flat: &FlatModule,
        definition: usize,
        arguments: &[Argument],
    ) -> Result<Option<Kind>, AllocError>
        requires ordered { IsOrdered (flat_of flat.now) }
        requires facts { IsFacts (flat_of flat.now) self.old }
        ensures facts { IsFacts (flat_of flat.now) self.new }
        ensures kind { IfOk result (λ k. k ≡ kind (text_of (flat_of flat.now) definition
            (map (argument_item (flat_of flat.now)) arguments.now))) }
    {
        let frame = numbers_of(alloc, flat, self, arguments)?;
        let kind = kind_on(alloc, flat, self, definition, &frame)?;
        Ok(kind)
    }
}

/// The numbers of these arguments.
pub(crate) fn numbers_of(
    alloc: Global,
    flat: &FlatModule,
    facts: &mut KindFacts,
    arguments: &[Argument],
) -> Result<Vec<usize>, AllocError>
    requires facts { IsFacts (flat_of flat.now) facts.old }
    ensures facts { IsFacts (flat_of flat.now) facts.new }
    ensures added { IfOk result (λ v. AddsArguments (flat_of flat.now) facts.old.arguments.keys
        facts.new.arguments.keys v.items arguments.now) }
{
    let mut numbers = Vec::with_capacity(alloc, arguments.len())?;
    for argument in arguments {
        let n = number_of(alloc, flat, facts, *argument)?;
        numbers.push(n)?;
    }
    Ok(numbers)
}

// The number of an argument.
fn number_of(
    alloc: Global,
    flat: &FlatModule,
    facts: &mut KindFacts,
    argument: Argument,
) -> Result<usize, AllocError>
    requires facts { IsFacts (flat_of flat.now) facts.old }
    ensures facts { IsFacts (flat_of flat.now) facts.new }
    ensures added { IfOk result (λ n. AddsArguments (flat_of flat.now) facts.old.arguments.keys
        facts.new.arguments.keys (n ∷ []) (argument ∷ [])) }
{
    match argument {
        Argument::Value(kind) => {
            let n = number(flat, facts, Arg::Value(kind))?;
            Ok(n)
        }
        Argument::Stays(rule) => {
            let n = number(flat, facts, Arg::Stays(rule))?;
            Ok(n)
        }
        Argument::BuiltIn(rule) => {
            let n = number(flat, facts, Arg::BuiltIn(rule))?;
            Ok(n)
        }
        Argument::Operator(definition) => match body_of(flat, definition) {
            None => {
                let n = number(flat, facts, Arg::Value(None))?;
                Ok(n)
            }
            Some(_) => {
                let n = number(flat, facts, Arg::Operator(definition, Vec::new(alloc)))?;
                Ok(n)
            }
        },
    }
}

/// The number of an argument, which is new or stands there already.
pub(crate) fn number(
    flat: &FlatModule,
    facts: &mut KindFacts,
    arg: Arg,
) -> Result<usize, AllocError>
    requires facts { IsFacts (flat_of flat.now) facts.old }
    requires arg { IsArg (length facts.old.arguments.keys) arg }
    requires body { NamesBody (flat_of flat.now) arg }
    ensures facts { IsFacts (flat_of flat.now) facts.new }
    ensures stored { IfOk result (λ n. IsStored facts.new.arguments.keys n arg) }
    ensures grows { OnOk result (Grows facts.old.arguments.keys facts.new.arguments.keys) }
{
    let n = kind_table::number(&mut facts.arguments, arg)?;
    Ok(n)
}

/// Keeps a kind that was found.
pub(crate) fn keep(
    flat: &FlatModule,
    facts: &mut KindFacts,
    key: Key,
    kind: Option<Kind>,
) -> Result<(), AllocError>
    requires facts { IsFacts (flat_of flat.now) facts.old }
    requires kept { IsKept (flat_of flat.now) facts.old.arguments.keys facts.old.frames.keys key
        kind }
    ensures facts { IsFacts (flat_of flat.now) facts.new }
    ensures arguments { facts.new.arguments.keys ≡ facts.old.arguments.keys }
{
    facts.kept.insert(key, kind)?;
    Ok(())
}

/// The number of a frame, which is new or stands there already. This one is tried first.
pub(crate) fn frame_number(
    alloc: Global,
    frames: &mut IndexSet<Vec<usize>>,
    recent: usize,
    frame: &[usize],
) -> Result<usize, AllocError>
    ensures adds { AddsFrames frames.old.keys frames.new.keys }
    ensures number { IfOk result (λ n. HasNumber frames.new.keys n frame.now) }
{
    if has_number(frames, recent, frame) {
        return Ok(recent);
    }
    if let Some(n) = frames.get_index_of(frame) {
        return Ok(n);
    }
    let frame = copied(alloc, frame)?;
    let (n, _) = frames.insert_full(frame)?;
    Ok(n)
}

// Whether a frame has this number.
fn has_number(frames: &IndexSet<Vec<usize>>, number: usize, frame: &[usize]) -> bool
    ensures { result ≡ true → HasNumber frames.now.keys number frame.now }
{
    match frames.get_index(number) {
        Some(known) => frame == known.as_slice(),
        None => false,
    }
}
