// Where in a module the reading stands, and where a lexeme leads.
ghost use Rattle.std.specs.Prelude.{◌≡◌, List};
ghost use Rattle.tla_tree.specs.Arena.{Node};
ghost use Rattle.unit_machine.specs.Machine as machine;
ghost use Rattle.unit_steps.specs.PointMeaning.{IsPoint};
ghost use Rattle.unit_steps.specs.Waiting.{waiting_at};

use std::alloc::Global;
use tla_symbols::Lexeme;
use tool_list::List;
use unit_frames::{Frame, Reached, Unfinished};
use unit_machine::Due;

/// What is read now, while that is no expression.
#[derive(Drop)]
pub enum Point {
    /// A lexeme of the module's own form is due, after these names of a list.
    Stands(Reached, Due, List<Lexeme>),
    /// Declarations of constants are read: a comma, or the next unit.
    Declared(Reached, List<u32>),
    /// A lexeme of the innermost frame is due.
    Part(Unfinished, Frame),
}

/// What a lexeme leads to.
#[derive(Drop)]
pub enum Next {
    /// No expression is read.
    At(Point),
    /// An expression is due.
    Awaits(Unfinished),
    /// An expression is due, and the lexeme is its first.
    Begins(Unfinished, Lexeme),
    /// The bounds in the head of a function are due, for which the frame waits.
    Bounds(Unfinished, Frame),
}

impl Point {
    /// Nothing was read.
    pub fn opening(alloc: Global) -> Point
        ensures stands { (nodes : List Node) → IsPoint nodes result machine.opening }
        ensures few { waiting_at result ≡ 0 }
    {
        Point::Stands(Reached::new(alloc), Due::Opening, List::new(alloc))
    }
}
