// One step of the machine: what a lexeme does where a module is read.
ghost use Rattle.std.specs.Prelude.{◌+◌, ℕ, IfOk};
ghost use Rattle.unit_machine.specs.Machine as machine;
ghost use Rattle.unit_parse.specs.ReaderMeaning.{IsState, Moves, IsReadyState};
ghost use Rattle.unit_parse.specs.NodeCounts.{IsFew, IsFewMoved};

use crate::enter::enter;
use crate::parts::{bounds_step, expression_step};
use crate::state::State;
use tla_symbols::Lexeme;
use tla_tree::Tree;
use tool_list::Memory;

impl State {
    /// Reads a lexeme after those that were read. `None` where no module begins so.
    pub(crate) fn step(self, tree: &mut Tree, lexeme: Lexeme) -> Result<Option<State>, Memory>
        requires { IsReadyState tree.old self }
        ensures moves { IfOk result (λ moved. (st : machine.State) → IsState tree.old self st
            → Moves tree.old tree.new moved (machine.step st lexeme)) }
        ensures few { IfOk result (λ moved. (count : ℕ) → IsFew tree.old self count
            → IsFewMoved tree.new moved (count + 1)) }
    {
        match self {
            State::At(point) => enter(point.step(tree, lexeme), tree),
            State::Expression(unfinished, reader) => expression_step(
                unfinished, reader, tree, lexeme,
            ),
            State::Bounds(unfinished, frame, reader) => bounds_step(
                unfinished, frame, reader, tree, lexeme,
            ),
        }
    }
}
