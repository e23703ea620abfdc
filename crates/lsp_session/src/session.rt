//! The session: one message after another.

ghost use Rattle.std.specs.Prelude.{◌≡◌, ◌↔◌, false, Err, IfOk, IsTrue};
ghost use Rattle.lsp_wire.specs.Messages.{IsMessage};
ghost use Rattle.lsp_wire.specs.declared.types.Incoming.{Incoming};
ghost use Rattle.lsp_session.specs.SessionOutput.{handled, is_spent_by};
ghost use Rattle.lsp_session.specs.SessionOutput.{Tells, IsDone, GoesOn, HasSessionCause, Adds};

use crate::notices::notification;
use crate::phase::{Phase, SessionFault, Turn, ends, turn_after};
use crate::requests::{refuse, request};
use lsp_answers::Answers;
use lsp_wire::{Incoming, read_message};
use std::alloc::Global;
use step_count::Steps;
use tool_list::List;

/// A session over whoever answers.
#[derive(Drop)]
pub struct Session<A> {
    answers: A,
    phase: Phase,
    spent: bool,
}

// Where a session stands after a message, and how it goes on.
#[derive(Clone, Copy)]
struct Handled {
    phase: Phase,
    turn: Turn,
}

// Refuses, answers or takes in a message.
fn handle<A: Answers, L>(
    answers: &mut A,
    alloc: Global,
    phase: Phase,
    message: &Incoming,
    out: &mut List<u8>,
    steps: &mut Steps<L>,
) -> Result<Handled, SessionFault>
    ensures goes { Tells phase (A.state answers.old) message.now
        → IsDone (handled A.meaning phase (A.state answers.old) message.now)
        out.old out.new (A.state answers.new) result }
    ensures after { IfOk result
        (λ h. (h.phase ≡ (handled A.meaning phase (A.state answers.old) message.now).phase)
        × (h.turn ≡ (handled A.meaning phase (A.state answers.old) message.now).turn)) }
    ensures cause { HasSessionCause (A.fault_count answers.old) (A.fault_count answers.new) result }
    ensures adds { Adds out.old out.new result }
{
    match message {
        Incoming::Request { id, call } => {
            match request(answers, alloc, phase, id, call, out, steps) {
                Ok(phase) => Ok(Handled {
                    phase,
                    turn: Turn::On,
                }),
                Err(fault) => Err(fault),
            }
        }
        Incoming::Notice(notice) => {
            match notification(answers, alloc, phase, notice, out, steps) {
                Ok(()) => Ok(Handled {
                    phase,
                    turn: turn_after(phase, notice),
                }),
                Err(fault) => Err(fault),
            }
        }
        Incoming::Dropped => Ok(Handled {
            phase,
            turn: Turn::On,
        }),
        Incoming::Invalid { code, id } => match refuse(alloc, id, *code, out) {
            Ok(()) => Ok(Handled {
                phase,
                turn: Turn::On,
            }),
            Err(fault) => Err(fault),
        },
    }
}

// Reads a content, and handles its message.
fn read_and_handle<A: Answers, L>(
    answers: &mut A,
    alloc: Global,
    phase: Phase,
    content: &[u8],
    out: &mut List<u8>,
    steps: &mut Steps<L>,
) -> Result<Handled, SessionFault>
    ensures goes { (message : Incoming) → IsMessage content.now message
        → Tells phase (A.state answers.old) message
        → IsDone (handled A.meaning phase (A.state answers.old) message)
        out.old out.new (A.state answers.new) result }
    ensures after { (message : Incoming) → IsMessage content.now message → IfOk result
        (λ h. (h.phase ≡ (handled A.meaning phase (A.state answers.old) message).phase)
        × (h.turn ≡ (handled A.meaning phase (A.state answers.old) message).turn)) }
    ensures cause { HasSessionCause (A.fault_count answers.old) (A.fault_count answers.new) result }
    ensures adds { Adds out.old out.new result }
{
    match read_message(alloc, content) {
        Ok(message) => handle(answers, alloc, phase, &message, out, steps),
        Err(_) => Err(SessionFault::Memory),
    }
}

impl<A: Answers> Session<A> {
    /// A session to which no message came. It takes no memory.
    pub fn new(answers: A) -> Session<A>
        ensures { result
            ≡ record { answers = answers; phase = Phase.Uninitialized; spent = false } }
    {
        Session {
            answers,
            phase: Phase::Uninitialized,
            spent: false,
        }
    }

    /// Handles the message that is a frame's content, and appends the frames that answer it: the
    /// answer first, then notices. After want of memory a beginning of them stands behind the old
    /// bytes, and after any other fault nothing.
    pub fn message<L>(
        &mut self,
        alloc: Global,
        content: &[u8],
        out: &mut List<u8>,
        steps: &mut Steps<L>,
    ) -> Result<Turn, SessionFault>
        // A spent session does nothing, and says so.
        ensures spent { (result ≡ Err SessionFault.Spent) ↔ IsTrue self.old.spent }
        ensures stays { IsTrue self.old.spent → (self.new ≡ self.old) × (out.new ≡ out.old) }

        // Any other does what the message asks, and goes on as it says.
        ensures goes { self.old.spent ≡ false → (message : Incoming) → IsMessage content.now message
            → Tells self.old.phase (A.state self.old.answers) message
            → IsDone (handled A.meaning self.old.phase (A.state self.old.answers) message)
            out.old out.new (A.state self.new.answers) result }
        ensures turn { self.old.spent ≡ false → (message : Incoming) → IsMessage content.now message
            → GoesOn (handled A.meaning self.old.phase (A.state self.old.answers) message)
            self.new.phase result }

        // Its end and each fault spend it.
        ensures spends { self.new.spent ≡ is_spent_by result }
        ensures cause { self.old.spent ≡ false → HasSessionCause (A.fault_count self.old.answers)
            (A.fault_count self.new.answers) result }
        ensures adds { Adds out.old out.new result }
    {
        if self.spent {
            return Err(SessionFault::Spent);
        }
        match read_and_handle(&mut self.answers, alloc, self.phase, content, out, steps) {
            Ok(handled) => {
                self.phase = handled.phase;
                self.spent = ends(handled.turn);
                Ok(handled.turn)
            }
            Err(fault) => {
                self.spent = true;
                Err(fault)
            }
        }
    }

    /// Whether `shutdown` was answered.
    pub fn shut(&self) -> bool
        ensures { IsTrue result ↔ (self.now.phase ≡ Phase.Stopped) }
    {
        match self.phase {
            Phase::Stopped => true,
            _ => false,
        }
    }

    /// Gives the answers back as they stand, also after a fault.
    pub fn into_answers(self) -> A
        ensures { result ≡ self.answers }
    {
        let Session {
            answers,
            phase: _,
            spent: _,
        } = self;
        answers
    }
}
