// Kinds by the table of levels, where an operand may have none.
ghost use Rattle.std.specs.Prelude.{◌≡◌, map};
ghost use Rattle.level_rules.specs.Kinds as table;
ghost use Rattle.kind_text.specs.ExpandedKind as expanded;
ghost use Rattle.kind_table.specs.Operands as operands;
ghost use Rattle.kind_table.specs.Table as spec;

use crate::argument::{Arg, value};
use crate::numbers::picked;
use indexmap::IndexSet;
use level_rules::{apply, level};
use tla_symbols::{Kind, Rule};

/// The kind that a rule gives, and none where an operand has none or is refused.
pub fn ruled_kind(rule: Rule, kinds: &[Option<Kind>]) -> Option<Kind>
    ensures { result ≡ expanded.ruled rule kinds.now }
{
    let mut greatest = Kind::Const;
    for (place, kind) in kinds.iter().enumerate() {
        match with_operand(rule, place, greatest, *kind) {
            Some(next) => greatest = next,
            None => return None,
        }
    }
    applied_kind(rule, &[greatest])
}

/// The kind that a rule gives on what was found of these nodes, where the first number is of the
/// node start.
pub fn operation_kind(
    arguments: &IndexSet<Arg>,
    rule: Rule,
    nodes: &[usize],
    start: usize,
    found: &[usize],
) -> Option<Kind>
    ensures { result ≡ expanded.ruled rule (map (spec.value_at arguments.now.keys)
        (map (spec.picked start found.now) nodes.now)) }
{
    let mut greatest = Kind::Const;
    for (place, node) in nodes.iter().enumerate() {
        let kind = found_kind(arguments, *node, start, found);
        match with_operand(rule, place, greatest, kind) {
            Some(next) => greatest = next,
            None => return None,
        }
    }
    applied_kind(rule, &[greatest])
}

/// The kind of a quantifier over sets, by what was found of its body and of the sets.
pub fn quantifier_kind(
    arguments: &IndexSet<Arg>,
    nodes: &[usize],
    start: usize,
    found: &[usize],
) -> Option<Kind>
    ensures { result ≡ spec.bounded_kind (map (spec.value_at arguments.now.keys)
        (map (spec.picked start found.now) nodes.now)) }
{
    match nodes.split_first() {
        None => None,
        Some((inner, sets)) => {
            let plain = operation_kind(arguments, Rule::Plain, sets, start, found);
            let kind = found_kind(arguments, *inner, start, found);
            ruled_kind(Rule::Boolean, &[kind, plain])
        }
    }
}

// The kind that was found of a node.
fn found_kind(arguments: &IndexSet<Arg>, node: usize, start: usize, found: &[usize]) -> Option<Kind>
    ensures { result ≡ spec.value_at arguments.now.keys (spec.picked start found.now node) }
{
    value(arguments, picked(node, start, found))
}

// The greatest kind up to an operand at this place, and none where that has none or is refused.
fn with_operand(rule: Rule, place: usize, greatest: Kind, kind: Option<Kind>) -> Option<Kind>
    ensures { result ≡ operands.with_operand rule place greatest kind }
{
    match kind {
        None => None,
        Some(kind) => {
            if !takes(rule, place, kind) {
                return None;
            }
            Some(greater(greatest, kind))
        }
    }
}

// The one of two kinds that is of the greater level.
fn greater(greatest: Kind, kind: Kind) -> Kind
    ensures { result ≡ operands.greater greatest kind }
{
    if level(kind) <= level(greatest) {
        return greatest;
    }
    kind
}

// Whether a rule takes an operand of this kind at this place: all but the first are taken alike.
fn takes(rule: Rule, place: usize, kind: Kind) -> bool
    ensures { result ≡ table.takes rule place kind }
{
    if place == 0 {
        return applied_kind(rule, &[kind]).is_some();
    }
    applied_kind(rule, &[Kind::Const, kind]).is_some()
}

// The kind that a rule gives, and none where an operand is refused.
fn applied_kind(rule: Rule, kinds: &[Kind]) -> Option<Kind>
    ensures { result ≡ table.applied rule kinds.now }
{
    match apply(rule, kinds) {
        Ok(kind) => Some(kind),
        Err(_) => None,
    }
}

/// Whether there is a kind of at most this level.
pub fn is_at_most(most: u8, kind: Option<Kind>) -> bool
    ensures { result ≡ expanded.is_at_most most kind }
{
    match kind {
        None => false,
        Some(kind) => level(kind) <= most,
    }
}
