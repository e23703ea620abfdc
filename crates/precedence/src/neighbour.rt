// What stands beside an operand, and which of two neighbours takes it.
ghost use Rattle.std.specs.Prelude.{◌≡◌, ◌↔◌, IsTrue};
ghost use Rattle.tla_tree.specs.Edges as edges;
ghost use Rattle.precedence.specs.Choices as choices;
ghost use Rattle.precedence.specs.Ranges as ranges;

use crate::{Choice, meets};
use tla_symbols::{Fix, Op, Range, range_of};

/// An operator symbol at its place.
#[derive(Clone, Copy, Debug, PartialEq, Eq)]
pub struct Operator {
    pub op: Op,
    pub fix: Fix,
}

/// What stands beside an operand: an operator, an open form as `\A x : e`, an application `e[e]`
/// or a field `e.h`.
#[derive(Clone, Copy, Debug, PartialEq, Eq)]
pub enum Neighbour {
    Operator(Operator),
    Open,
    Applied,
    Selected,
}

/// The precedence range (*Specifying Systems*, table 6): 0-0 for an open form, and for a symbol
/// that can't be applied at its place.
pub fn range_on(neighbour: Neighbour) -> Range
    ensures { result ≡ ranges.range_on neighbour }
{
    let none = Range {
        lo: 0,
        hi: 0,
        left: false,
    };
    match neighbour {
        Neighbour::Operator(operator) => range_of(operator.op, operator.fix).unwrap_or(none),
        Neighbour::Open => none,
        Neighbour::Applied => Range {
            lo: 16,
            hi: 16,
            left: false,
        },
        Neighbour::Selected => Range {
            lo: 17,
            hi: 17,
            left: true,
        },
    }
}

/// What becomes of the operator that waits, at the one that comes.
pub fn choose(waiting: Operator, coming: Operator) -> Choice
    ensures { result
        ≡ choices.choose (edges.Operator waiting.op waiting.fix)
        (edges.Operator coming.op coming.fix) }
{
    choose_neighbour(Neighbour::Operator(waiting), Neighbour::Operator(coming))
}

/// What becomes of the neighbour that waits, at the one that comes.
pub fn choose_neighbour(waiting: Neighbour, coming: Neighbour) -> Choice
    ensures { result ≡ choices.choose (ranges.edge_of waiting) (ranges.edge_of coming) }
{
    if joins(coming, waiting) {
        Choice::Ends
    } else if may_hold(waiting, coming) {
        Choice::Waits
    } else {
        Choice::Clashes
    }
}

/// Whether the inner one may stand bare as an operand of the outer one: its range lies above.
pub fn may_hold(outer: Neighbour, inner: Neighbour) -> bool
    ensures { result ≡ choices.meets (ranges.edge_of outer) (ranges.edge_of inner) }
{
    meets(range_on(outer), range_on(inner))
}

// Whether it may as the left operand: there it may also be the same operator, if that associates to
// the left.
fn joins(outer: Neighbour, inner: Neighbour) -> bool
    ensures { result ≡ choices.joins (ranges.edge_of outer) (ranges.edge_of inner) }
{
    may_hold(outer, inner) || is_same(inner, outer) && range_on(outer).left
}

fn is_same(one: Neighbour, other: Neighbour) -> bool
    ensures { result ≡ choices.same_edge (ranges.edge_of one) (ranges.edge_of other) }
{
    match one {
        Neighbour::Operator(operator) => match other {
            Neighbour::Operator(further) => is_same_operator(operator, further),
            _ => false,
        },
        Neighbour::Open => matches!(&other, Neighbour::Open),
        Neighbour::Applied => matches!(&other, Neighbour::Applied),
        Neighbour::Selected => matches!(&other, Neighbour::Selected),
    }
}

fn is_same_operator(one: Operator, other: Operator) -> bool
    ensures { IsTrue result ↔ (one ≡ other) }
{
    one.op == other.op && one.fix == other.fix
}
