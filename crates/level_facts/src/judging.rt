// The kinds of bodies, node by node: only a use of a definition goes deeper.
ghost use Rattle.std.specs.Prelude.{◌≡◌, ◌+◌, ◌<◌, ◌≤◌, [], IfOk, OnOk, length, slice_get, map};
ghost use Rattle.kind_text.specs.ExpandedKind.{kind};
ghost use Rattle.kind_text.specs.Substitution.{judged, leaves};
ghost use Rattle.kind_text.specs.FlatModule.{IsOrdered, UsesDefinition, UsesInstance, places_of};
ghost use Rattle.kind_text.specs.Expansion.{text_of};
ghost use Rattle.kind_table.specs.Flattened.{flat_of, path_at};
ghost use Rattle.kind_table.specs.Table.{AllWithin, Grows, meaning, meanings};
ghost use Rattle.kind_table.specs.Weights.{load};
ghost use Rattle.level_facts.specs.Facts.{IsFacts};
ghost use Rattle.level_facts.specs.Judged.{Evaluates, EvaluatesAll, Found, IsReached, LeadsThrough, MeetsGuards, ReachesPath, Steps, UsesPath, is_within, lower_cost_of, use_kind_of};

use crate::facts::{Key, KindFacts, frame_number, keep, number};
use crate::steps::{
    Reached, add_operands, around, body_of, closure, is_free, operand, places, start,
};
use kind_table::{
    Arg, FlatModule, Form, Instance, Replacement, after, behind, constants, copied, front,
    is_at_most, number_at, operation_kind, pick, picked, quantifier_kind, ruled_kind, value,
    values,
};
use std::alloc::{AllocError, Global};
use tla_symbols::{Kind, Rule};

/// The kind of a definition's body on a frame: what stands round it, and then its arguments.
#[cycle(judge)]
pub(crate) fn kind_on(
    alloc: Global,
    flat: &FlatModule,
    facts: &mut KindFacts,
    definition: usize,
    frame: &[usize],
) -> Result<Option<Kind>, AllocError>
    requires ordered { IsOrdered (flat_of flat.now) }
    requires facts { IsFacts (flat_of flat.now) facts.old }
    requires frame { AllWithin facts.old.arguments.keys frame.now }
    ensures facts { IsFacts (flat_of flat.now) facts.new }
    ensures grows { OnOk result (Grows facts.old.arguments.keys facts.new.arguments.keys) }
    ensures kind { IfOk result (λ k. k ≡ kind (text_of (flat_of flat.now) definition
        (meanings (flat_of flat.now) facts.new.arguments.keys frame.now))) }
{
    let known = frame_number(alloc, &mut facts.frames, facts.recent, frame)?;
    facts.recent = known;
    let key = Key {
        definition,
        frame: known,
    };
    if let Some(kind) = facts.kept.get(&key) {
        return Ok(*kind);
    }
    match body_of(flat, definition) {
        None => Ok(None),
        Some(body) => {
            let n = judge(alloc, flat, facts, body.root, frame)?;
            let kind = value(&facts.arguments, n);
            let number = frame_number(alloc, &mut facts.frames, known, frame)?;
            let key = Key {
                definition,
                frame: number,
            };
            keep(flat, facts, key, kind)?;
            Ok(kind)
        }
    }
}

/// The kind of an operator on operands of these kinds.
#[cycle(judge)]
fn called(
    alloc: Global,
    flat: &FlatModule,
    facts: &mut KindFacts,
    operator: usize,
    operands: &[Option<Kind>],
) -> Result<Option<Kind>, AllocError>
    requires ordered { IsOrdered (flat_of flat.now) }
    requires facts { IsFacts (flat_of flat.now) facts.old }
    requires operator { operator < length facts.old.arguments.keys }
    ensures facts { IsFacts (flat_of flat.now) facts.new }
    ensures grows { OnOk result (Grows facts.old.arguments.keys facts.new.arguments.keys) }
    ensures kind { IfOk result (λ k. k ≡ kind ((meaning (flat_of flat.now) facts.new.arguments.keys
        operator).call (leaves operands.now))) }
{
    match facts.arguments.get_index(operator) {
        None => Ok(None),
        Some(Arg::Value(_)) => Ok(None),
        Some(Arg::Stays(rule)) => Ok(ruled_kind(*rule, operands)),
        Some(Arg::BuiltIn(rule)) => Ok(ruled_kind(*rule, operands)),
        Some(Arg::Operator(d, outer)) => {
            let definition = *d;
            let mut frame = copied(alloc, outer)?;
            add_operands(flat, facts, &mut frame, operands)?;
            let kind = kind_on(alloc, flat, facts, definition, &frame)?;
            Ok(kind)
        }
    }
}

/// The kind that is judged of an argument: of an operator, what it gives on constants.
#[cycle(judge)]
pub(crate) fn judged_kind(
    alloc: Global,
    flat: &FlatModule,
    facts: &mut KindFacts,
    places: Option<usize>,
    n: usize,
) -> Result<Option<Kind>, AllocError>
    requires ordered { IsOrdered (flat_of flat.now) }
    requires facts { IsFacts (flat_of flat.now) facts.old }
    requires n { n < length facts.old.arguments.keys }
    ensures facts { IsFacts (flat_of flat.now) facts.new }
    ensures grows { OnOk result (Grows facts.old.arguments.keys facts.new.arguments.keys) }
    ensures kind { IfOk result (λ k. k ≡ kind (judged places (meaning (flat_of flat.now)
        facts.new.arguments.keys n))) }
{
    match places {
        None => Ok(value(&facts.arguments, n)),
        Some(count) => {
            let operands = constants(alloc, count)?;
            let kind = called(alloc, flat, facts, n, &operands)?;
            Ok(kind)
        }
    }
}

/// Whether a replacement that has this number is within its bound.
#[cycle(judge)]
fn is_met(
    alloc: Global,
    flat: &FlatModule,
    facts: &mut KindFacts,
    replacement: Replacement,
    n: usize,
) -> Result<bool, AllocError>
    requires ordered { IsOrdered (flat_of flat.now) }
    requires facts { IsFacts (flat_of flat.now) facts.old }
    requires n { n < length facts.old.arguments.keys }
    ensures facts { IsFacts (flat_of flat.now) facts.new }
    ensures grows { OnOk result (Grows facts.old.arguments.keys facts.new.arguments.keys) }
    ensures met { IfOk result (λ met. met ≡ is_within replacement.most
        (kind (judged (places_of (slice_get (flat_of flat.now).nodes replacement.root))
        (meaning (flat_of flat.now) facts.new.arguments.keys n)))) }
{
    match replacement.most {
        None => Ok(true),
        Some(most) => {
            let places = places(flat, replacement.root);
            let kind = judged_kind(alloc, flat, facts, places, n)?;
            Ok(is_at_most(most, kind))
        }
    }
}

/// Whether the replacements of an instance that have these numbers are within their bounds.
#[cycle(judge)]
fn are_met(
    alloc: Global,
    flat: &FlatModule,
    facts: &mut KindFacts,
    instance: &Instance,
    numbers: &[usize],
) -> Result<bool, AllocError>
    requires ordered { IsOrdered (flat_of flat.now) }
    requires facts { IsFacts (flat_of flat.now) facts.old }
    requires long { length numbers.now ≡ length instance.now.replacements.items }
    requires numbers { AllWithin facts.old.arguments.keys numbers.now }
    ensures facts { IsFacts (flat_of flat.now) facts.new }
    ensures met { IfOk result (λ met. MeetsGuards (flat_of flat.now) facts.old.arguments.keys
        facts.new.arguments.keys instance.now numbers.now met) }
{
    if !instance.guards {
        return Ok(true);
    }
    for i in 0..instance.replacements.len() {
        let replacement = instance.replacements[i];
        let met = is_met(alloc, flat, facts, replacement, number_at(numbers, i))?;
        if !met {
            return Ok(false);
        }
    }
    Ok(true)
}

/// The numbers of what replacements stand for, in order.
#[cycle(judge)]
fn judge_all(
    alloc: Global,
    flat: &FlatModule,
    facts: &mut KindFacts,
    replacements: &[Replacement],
    frame: &[usize],
) -> Result<Vec<usize>, AllocError>
    requires ordered { IsOrdered (flat_of flat.now) }
    requires facts { IsFacts (flat_of flat.now) facts.old }
    requires frame { AllWithin facts.old.arguments.keys frame.now }
    ensures facts { IsFacts (flat_of flat.now) facts.new }
    ensures found { IfOk result (λ numbers. EvaluatesAll (flat_of flat.now)
        facts.old.arguments.keys facts.new.arguments.keys (map (λ r. r.root) replacements.now)
        frame.now numbers.items) }
{
    let mut numbers = Vec::with_capacity(alloc, replacements.len())?;
    for replacement in replacements {
        let n = judge(alloc, flat, facts, replacement.root, frame)?;
        numbers.push(n)?;
    }
    Ok(numbers)
}

/// One instance further on a path, with its arguments.
#[cycle(judge)]
fn lead_through(
    alloc: Global,
    flat: &FlatModule,
    facts: &mut KindFacts,
    node: usize,
    instance: usize,
    reached: &Reached,
) -> Result<Reached, AllocError>
    requires ordered { IsOrdered (flat_of flat.now) }
    requires facts { IsFacts (flat_of flat.now) facts.old }
    requires instance { UsesInstance (flat_of flat.now) node instance }
    requires reached { IsReached facts.old.arguments.keys reached.now }
    ensures facts { IsFacts (flat_of flat.now) facts.new }
    ensures leads { IfOk result (λ next. LeadsThrough (flat_of flat.now) facts.old.arguments.keys
        facts.new.arguments.keys node instance reached.now next) }
{
    let here = &flat.instances[instance];
    let round = around(alloc, here, reached)?;
    let frame = judge_all(alloc, flat, facts, &here.replacements, &round)?;
    let met = are_met(alloc, flat, facts, here, &frame)?;
    let rest = after(alloc, &reached.rest, here.parameters)?;
    Ok(Reached {
        frame,
        rest,
        met: reached.met && met,
    })
}

/// Behind a path, with the numbers of the arguments at a use.
#[cycle(judge)]
fn reach(
    alloc: Global,
    flat: &FlatModule,
    facts: &mut KindFacts,
    node: usize,
    path: usize,
    numbers: &[usize],
    frame: &[usize],
) -> Result<Reached, AllocError>
    requires ordered { IsOrdered (flat_of flat.now) }
    requires facts { IsFacts (flat_of flat.now) facts.old }
    requires path { UsesPath (flat_of flat.now) node (path_at flat.now.paths.items path) }
    requires frame { AllWithin facts.old.arguments.keys frame.now }
    requires numbers { AllWithin facts.old.arguments.keys numbers.now }
    ensures facts { IsFacts (flat_of flat.now) facts.new }
    ensures reaches { IfOk result (λ reached. ReachesPath (flat_of flat.now)
        facts.old.arguments.keys facts.new.arguments.keys node (path_at flat.now.paths.items path)
        frame.now numbers.now reached) }
{
    let mut reached = start(alloc, frame, numbers)?;
    for instance in flat.path(path) {
        reached = lead_through(alloc, flat, facts, node, *instance, &reached)?;
    }
    Ok(reached)
}

/// The kind of a definition behind no path, with the numbers of the arguments at a use.
#[cycle(judge)]
fn direct_kind(
    alloc: Global,
    flat: &FlatModule,
    facts: &mut KindFacts,
    node: usize,
    definition: usize,
    numbers: &[usize],
    frame: &[usize],
) -> Result<Option<Kind>, AllocError>
    requires ordered { IsOrdered (flat_of flat.now) }
    requires facts { IsFacts (flat_of flat.now) facts.old }
    requires definition { UsesDefinition (flat_of flat.now) node definition }
    requires frame { AllWithin facts.old.arguments.keys frame.now }
    requires numbers { AllWithin facts.old.arguments.keys numbers.now }
    requires light { load (flat_of flat.now) facts.old.arguments.keys numbers.now
        ≤ load (flat_of flat.now) facts.old.arguments.keys frame.now
        + lower_cost_of (flat_of flat.now) node }
    ensures facts { IsFacts (flat_of flat.now) facts.new }
    ensures grows { OnOk result (Grows facts.old.arguments.keys facts.new.arguments.keys) }
    ensures kind { IfOk result (λ k. k ≡ use_kind_of (flat_of flat.now) [] definition
        (meanings (flat_of flat.now) facts.old.arguments.keys frame.now)
        (meanings (flat_of flat.now) facts.old.arguments.keys numbers.now)) }
{
    let body = flat.definitions[definition];
    if numbers.is_empty() {
        let kind = kind_on(alloc, flat, facts, definition, front(frame, body.outer))?;
        return Ok(kind);
    }
    let round = behind(alloc, frame, body.outer, numbers)?;
    let kind = kind_on(alloc, flat, facts, definition, &round)?;
    Ok(kind)
}

/// The kind of a definition behind a path, with the numbers of the arguments at a use.
#[cycle(judge)]
fn use_kind(
    alloc: Global,
    flat: &FlatModule,
    facts: &mut KindFacts,
    node: usize,
    path: usize,
    definition: usize,
    numbers: &[usize],
    frame: &[usize],
) -> Result<Option<Kind>, AllocError>
    requires ordered { IsOrdered (flat_of flat.now) }
    requires facts { IsFacts (flat_of flat.now) facts.old }
    requires path { UsesPath (flat_of flat.now) node (path_at flat.now.paths.items path) }
    requires definition { UsesDefinition (flat_of flat.now) node definition }
    requires frame { AllWithin facts.old.arguments.keys frame.now }
    requires numbers { AllWithin facts.old.arguments.keys numbers.now }
    requires light { load (flat_of flat.now) facts.old.arguments.keys numbers.now
        ≤ load (flat_of flat.now) facts.old.arguments.keys frame.now
        + lower_cost_of (flat_of flat.now) node }
    ensures facts { IsFacts (flat_of flat.now) facts.new }
    ensures grows { OnOk result (Grows facts.old.arguments.keys facts.new.arguments.keys) }
    ensures kind { IfOk result (λ k. k ≡ use_kind_of (flat_of flat.now)
        (path_at flat.now.paths.items path) definition
        (meanings (flat_of flat.now) facts.old.arguments.keys frame.now)
        (meanings (flat_of flat.now) facts.old.arguments.keys numbers.now)) }
{
    if flat.path(path).is_empty() {
        let kind = direct_kind(alloc, flat, facts, node, definition, numbers, frame)?;
        return Ok(kind);
    }
    if is_free(flat, path) {
        let kind = kind_on(alloc, flat, facts, definition, numbers)?;
        return Ok(kind);
    }
    let reached = reach(alloc, flat, facts, node, path, numbers, frame)?;
    if !reached.met {
        return Ok(None);
    }
    let body = flat.definitions[definition];
    let round = reached.round(body.outer)?;
    let kind = kind_on(alloc, flat, facts, definition, &round)?;
    Ok(kind)
}

/// The number of what a node stands for, where those before it from start on were found. One that
/// begins before start is of another body, and has no number.
#[cycle(judge)]
pub(crate) fn step(
    alloc: Global,
    flat: &FlatModule,
    facts: &mut KindFacts,
    node: usize,
    start: usize,
    found: &[usize],
    frame: &[usize],
) -> Result<usize, AllocError>
    requires ordered { IsOrdered (flat_of flat.now) }
    requires facts { IsFacts (flat_of flat.now) facts.old }
    requires node { node < length flat.now.nodes.items }
    requires frame { AllWithin facts.old.arguments.keys frame.now }
    requires found { Found (flat_of flat.now) facts.old.arguments.keys start node frame.now
        found.now }
    ensures facts { IsFacts (flat_of flat.now) facts.new }
    ensures steps { IfOk result (λ n. Steps (flat_of flat.now) facts.old.arguments.keys
        facts.new.arguments.keys start node frame.now n) }
{
    if number_at(&facts.firsts, node) < start {
        return Ok(0);
    }
    let here = &flat.nodes[node];
    match here.form {
        Form::Leaf(kind) => {
            let n = number(flat, facts, Arg::Value(Some(kind)))?;
            Ok(n)
        }
        Form::Parameter(place) => {
            let n = operand(flat, facts, frame, place)?;
            Ok(n)
        }
        Form::Call(place) => {
            let operator = operand(flat, facts, frame, place)?;
            let numbers = pick(alloc, &here.parts, start, found)?;
            let kinds = values(alloc, &facts.arguments, &numbers)?;
            let kind = called(alloc, flat, facts, operator, &kinds)?;
            let n = number(flat, facts, Arg::Value(kind))?;
            Ok(n)
        }
        Form::Operation(rule) => {
            let kind = operation_kind(&facts.arguments, rule, &here.parts, start, found);
            let n = number(flat, facts, Arg::Value(kind))?;
            Ok(n)
        }
        Form::Bounded => {
            let kind = quantifier_kind(&facts.arguments, &here.parts, start, found);
            let n = number(flat, facts, Arg::Value(kind))?;
            Ok(n)
        }
        Form::Old => {
            let kind = operation_kind(&facts.arguments, Rule::Boolean, &here.parts, start, found);
            let n = number(flat, facts, Arg::Value(kind))?;
            Ok(n)
        }
        Form::Let => match here.parts.first() {
            Some(inner) => Ok(picked(*inner, start, found)),
            None => {
                let n = number(flat, facts, Arg::Value(None))?;
                Ok(n)
            }
        },
        Form::Use(path, definition) => {
            let numbers = pick(alloc, &here.parts, start, found)?;
            let kind = use_kind(alloc, flat, facts, node, path, definition, &numbers, frame)?;
            let n = number(flat, facts, Arg::Value(kind))?;
            Ok(n)
        }
        Form::Name(path, definition) => {
            let numbers = pick(alloc, &here.parts, start, found)?;
            let reached = reach(alloc, flat, facts, node, path, &numbers, frame)?;
            if !reached.met {
                let n = number(flat, facts, Arg::Value(None))?;
                return Ok(n);
            }
            let n = closure(alloc, flat, facts, definition, &reached.frame)?;
            Ok(n)
        }
        Form::Symbol(rule) => {
            let n = number(flat, facts, Arg::BuiltIn(rule))?;
            Ok(n)
        }
        Form::Lambda(definition) => {
            let n = closure(alloc, flat, facts, definition, frame)?;
            Ok(n)
        }
    }
}

/// The number of what a node stands for on a frame. The nodes that it is made of are gone through
/// in order, the lowest first.
#[cycle(judge)]
pub(crate) fn judge(
    alloc: Global,
    flat: &FlatModule,
    facts: &mut KindFacts,
    node: usize,
    frame: &[usize],
) -> Result<usize, AllocError>
    requires ordered { IsOrdered (flat_of flat.now) }
    requires facts { IsFacts (flat_of flat.now) facts.old }
    requires frame { AllWithin facts.old.arguments.keys frame.now }
    ensures facts { IsFacts (flat_of flat.now) facts.new }
    ensures found { IfOk result (λ n. Evaluates (flat_of flat.now) facts.old.arguments.keys
        facts.new.arguments.keys node frame.now n) }
{
    if node >= flat.nodes.len() {
        let n = number(flat, facts, Arg::Value(None))?;
        return Ok(n);
    }
    let start = number_at(&facts.firsts, node);
    let mut found = Vec::with_capacity(alloc, node.saturating_sub(start))?;
    for i in start..node {
        let n = step(alloc, flat, facts, i, start, &found, frame)?;
        found.push(n)?;
    }
    let n = step(alloc, flat, facts, node, start, &found, frame)?;
    Ok(n)
}
