// Messages, and what is written for them.
ghost use Rattle.std.specs.Prelude.{◌≡◌, ◌+◌, ◌^◌, ◌<◌, ◌++◌, ℕ, List, [], Option, false, IfNone, length};
ghost use Rattle.lsp_answers.specs.States.{State};
ghost use Rattle.lsp_serve.specs.Ends.{IsOfBytes, HasFolderCause, HasOutputCause};
ghost use Rattle.lsp_serve.specs.InTime.{AppendsMore};
ghost use Rattle.lsp_serve.specs.Serving.{step, StepTells};
ghost use Rattle.lsp_serve.specs.Walk.{IsWritten, IsMet, IsTaken, HasAnswered};

use crate::ends::{End, end_of_fault, end_of_turn};
use lsp_answers::Answers;
use lsp_session::{Session, Turn};
use rpc_frame::{FrameNext, Framer};
use std::alloc::Global;
use step_count::Steps;
use tool_io::{IoFault, Sink};
use tool_list::List;
use tool_output::write_all;

// Writes what answers a message, after which the session goes on in this way.
fn write_answer<K: Sink>(output: &mut K, bytes: &[u8], turn: Turn) -> Option<End>
    ensures written { IsWritten turn bytes.now (K.taken output.old) (K.taken output.new) result }
    ensures output_fault { HasOutputCause (K.fault_count output.old) (K.fault_count output.new)
        result }
{
    match write_all(output, bytes) {
        Ok(()) => end_of_turn(turn),
        Err(IoFault::Failed) => Some(End::OutputFault),
        Err(IoFault::Memory) => Some(End::NoMemory),
    }
}

// Answers a message, and writes all that answers it. `None` where the session goes on.
fn answer<A: Answers, K: Sink, L>(
    alloc: Global,
    session: &mut Session<A>,
    content: &[u8],
    output: &mut K,
    steps: &mut Steps<L>,
) -> Option<End>
    requires { session.old.spent ≡ false }
    ensures meets { StepTells session.old.phase (A.state session.old.answers) content.now
        → IsMet (step A.meaning session.old.phase (A.state session.old.answers) content.now)
        session.new.phase (A.state session.new.answers)
        (K.taken output.old) (K.taken output.new) result }
    ensures adds { AppendsMore (K.taken output.old) (K.taken output.new) [] }
    ensures goes_on { IfNone result (session.new.spent ≡ false) }
    ensures ends { IsOfBytes result }
    ensures folder_fault { HasFolderCause (A.fault_count session.old.answers)
        (A.fault_count session.new.answers) result }
    ensures output_fault { HasOutputCause (K.fault_count output.old) (K.fault_count output.new)
        result }
{
    let mut out = List::new(alloc);
    match session.message(alloc, content, &mut out, steps) {
        Ok(turn) => write_answer(output, out.as_slice(), turn),
        Err(fault) => Some(end_of_fault(fault)),
    }
}

// Answers all messages that are whole in what waits. `None` where the session goes on.
fn answer_waiting<A: Answers, K: Sink, L>(
    alloc: Global,
    session: &mut Session<A>,
    framer: &mut Framer,
    output: &mut K,
    steps: &mut Steps<L>,
) -> Option<End>
    requires { session.old.spent ≡ false }
    ensures takes { (s : State) (read : List ℕ) (first : Option (List ℕ))
        → HasAnswered A.meaning s read framer.old session.old.phase (A.state session.old.answers)
        first (K.taken output.old)
        → IsTaken A.meaning s read framer.new session.new.phase (A.state session.new.answers)
        first (K.taken output.new) result }
    ensures adds { AppendsMore (K.taken output.old) (K.taken output.new) [] }
    ensures goes_on { IfNone result (session.new.spent ≡ false) }
    ensures ends { IsOfBytes result }
    ensures folder_fault { HasFolderCause (A.fault_count session.old.answers)
        (A.fault_count session.new.answers) result }
    ensures output_fault { HasOutputCause (K.fault_count output.old) (K.fault_count output.new)
        result }
{
    'frames: loop {
        match framer.next() {
            FrameNext::Message => {
                if let Some(end) = answer(alloc, session, framer.content(), output, steps) {
                    return Some(end);
                }
            }
            FrameNext::NotYet => return None,
            FrameNext::BadHeader { .. } => return Some(End::BadHeader),
            FrameNext::TooLong { .. } => return Some(End::Limit),
        }
    }
}

/// Takes in the next piece of the input, and answers all messages that are whole then. `None` where
/// the session goes on.
pub fn take_piece<A: Answers, K: Sink, L>(
    alloc: Global,
    session: &mut Session<A>,
    framer: &mut Framer,
    piece: &[u8],
    output: &mut K,
    steps: &mut Steps<L>,
) -> Option<End>
    requires awake { session.old.spent ≡ false }
    requires waiting { length framer.old.waiting + length piece.now < 2 ^ 26 }
    requires fed { framer.old.taken + length framer.old.waiting + length piece.now < 2 ^ 63 }
    ensures takes { (s : State) (read : List ℕ) (first : Option (List ℕ))
        → HasAnswered A.meaning s read framer.old session.old.phase (A.state session.old.answers)
        first (K.taken output.old)
        → IsTaken A.meaning s (read ++ piece.now) framer.new session.new.phase
        (A.state session.new.answers) first (K.taken output.new) result }
    ensures adds { AppendsMore (K.taken output.old) (K.taken output.new) [] }
    ensures goes_on { IfNone result (session.new.spent ≡ false) }
    ensures ends { IsOfBytes result }
    ensures folder_fault { HasFolderCause (A.fault_count session.old.answers)
        (A.fault_count session.new.answers) result }
    ensures output_fault { HasOutputCause (K.fault_count output.old) (K.fault_count output.new)
        result }
{
    match framer.feed(piece) {
        Ok(()) => answer_waiting(alloc, session, framer, output, steps),
        Err(_) => Some(End::NoMemory),
    }
}
