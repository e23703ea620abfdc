// One step of the machine where no expression is read.
ghost use Rattle.std.specs.Prelude.{◌+◌, ◌≤◌, IfOk, length};
ghost use Rattle.unit_machine.specs.Machine as machine;
ghost use Rattle.unit_steps.specs.PointMeaning.{IsPoint, Moves, IsReadyPoint};
ghost use Rattle.unit_steps.specs.Waiting.{waiting, waiting_at};

use crate::due::{after_declared, move_due};
use crate::parts::part_step;
use crate::point::{Next, Point};
use tla_symbols::Lexeme;
use tla_tree::Tree;
use tool_list::Memory;
use unit_tables::due_move;

impl Point {
    /// Reads a lexeme after those that were read. `None` where no module begins so. `Memory` comes
    /// only where there is no room, where the tree has 2^32 - 1 nodes, where an operator that is
    /// declared has as many places, or where 2^64 modules would be open.
    pub fn step(self, tree: &mut Tree, lexeme: Lexeme) -> Result<Option<Next>, Memory>
        requires { IsReadyPoint tree.old self }
        ensures moves { IfOk result (λ moved. (st : machine.State) → IsPoint tree.old self st
            → Moves tree.old tree.new moved (machine.step st lexeme)) }
        ensures few { IfOk result (λ moved. length tree.new + waiting moved
            ≤ length tree.old + (waiting_at self + 1)) }
    {
        match self {
            Point::Stands(reached, due, names) => move_due(
                reached,
                due_move(due, lexeme),
                names,
                lexeme,
            ),
            Point::Declared(reached, declarations) => after_declared(reached, declarations, lexeme),
            Point::Part(unfinished, frame) => part_step(unfinished, frame, tree, lexeme),
        }
    }
}
