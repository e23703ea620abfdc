//! Which of two neighbouring operators takes the operand between them.
//!
//! Answers from the precedence ranges alone, for a pair and for a stack of operators that wait. The
//! edges that it tells apart are those of `tla_tree`'s trees. Knows nothing of lexemes, and of how a
//! tree is found.
#![tactic(auto)]

mod neighbour;
mod op_stack;

ghost use Rattle.std.specs.Prelude.{◌<◌, ◌↔◌, IsTrue};
ghost use Rattle.tla_tree.specs.Edges.{Edge, Meets, Joins};

pub use neighbour::{Neighbour, Operator, choose, choose_neighbour, may_hold, range_on};
pub use op_stack::{Clash, OpError, OpStack, one_closing};
use tla_symbols::Range;

/// What becomes of an operator that waits for its last operand, at one that comes after that
/// operand (*Specifying Systems*, section 15.2.1).
#[derive(Clone, Copy, Debug, PartialEq, Eq)]
pub enum Choice {
    /// It ends, and the operand is its own.
    Ends,
    /// It waits, and the operand belongs to the one that comes after it.
    Waits,
    /// Neither order is good.
    Clashes,
}

/// Whether an operator with the inner range may stand bare beside one with the outer range, as its
/// operand: the inner range lies above the outer one.
pub fn meets(outer: Range, inner: Range) -> bool
    ensures { IsTrue result ↔ (outer.hi < inner.lo) }
{
    inner.lo > outer.hi
}

/// Of two neighbours at most one order is good: where the later one may stand in the operand of
/// the earlier one, the earlier one may not stand in the operand of the later one.
pub fn one_order()
    ensures { (earlier later : Edge) → Meets earlier later → Joins later earlier → ⊥ }
{}
