// Where in a module the reading stands.
ghost use Rattle.std.specs.Prelude.{List, []};
ghost use Rattle.tla_tree.specs.Arena.{Node};
ghost use Rattle.unit_machine.specs.Machine as machine;
ghost use Rattle.unit_parse.specs.ReaderMeaning.{IsState};
ghost use Rattle.unit_parse.specs.NodeCounts.{IsFew};

use crate::reader::ExprReader;
use std::alloc::Global;
use unit_frames::{Frame, Unfinished};
use unit_steps::Point;

/// What is read now.
#[derive(Drop)]
pub(crate) enum State {
    /// No expression.
    At(Point),
    Expression(Unfinished, ExprReader),
    /// The bounds in the head of a function, for which the frame waits.
    Bounds(Unfinished, Frame, ExprReader),
}

impl State {
    /// Nothing was read.
    pub(crate) fn opening(alloc: Global) -> State
        ensures stands { (nodes : List Node) → IsState nodes result machine.opening }
        ensures few { IsFew [] result 0 }
    {
        State::At(Point::opening(alloc))
    }
}
