//! Where a session stands, how it goes on, and why it may not.

ghost use Rattle.std.specs.Prelude.{◌≡◌};
ghost use Rattle.lsp_session.specs.SessionOutput.{is_end, exit_status, fault_of, turn_after};

use lsp_answers::AnswerFault;
use lsp_wire::Notice;
use thiserror::Error;
use tool_list::Memory;

/// How a session goes on after a message.
#[derive(Clone, Copy, Debug, PartialEq, Eq)]
pub enum Turn {
    On,
    /// `exit` was read: 0 after an answered `shutdown`, else 1.
    Ended { status: u8 },
}

/// Why a message was not answered. The session is then spent.
#[derive(Clone, Copy, Debug, PartialEq, Eq, Error)]
pub enum SessionFault {
    /// The folder failed.
    #[error("the folder failed")]
    Folder,
    /// The message meets a limit on modules or texts: the number that is too large.
    #[error("more modules or bytes of texts than may be held: {said}")]
    Limit { said: u64 },
    /// There was no room.
    #[error("out of memory")]
    Memory,
    /// The session had ended, or had failed.
    #[error("the session had ended before")]
    Spent,
}

impl From<Memory> for SessionFault {
    ghost use Rattle.std.specs.Prelude.{◌≡◌};
    ghost use Rattle.lsp_session.specs.declared.phase.SessionFault.TheVariants.{Memory};

    ghost from_gives = { λ _ fault. fault ≡ Memory };

    fn from(_: Memory) -> Self {
        SessionFault::Memory
    }
}

/// What was answered so far: nothing, `initialize`, or `shutdown`.
#[derive(Clone, Copy, Debug, PartialEq, Eq)]
pub enum Phase {
    Uninitialized,
    Running,
    Stopped,
}

/// A fault of whoever answers, as the session's.
pub fn fault_of(fault: AnswerFault) -> SessionFault
    ensures { result ≡ fault_of fault }
{
    match fault {
        AnswerFault::Folder => SessionFault::Folder,
        AnswerFault::Limit { said } => SessionFault::Limit { said },
        AnswerFault::Memory => SessionFault::Memory,
    }
}

// The status of an exit.
fn exit_status(phase: Phase) -> u8
    ensures { result ≡ exit_status phase }
{
    match phase {
        Phase::Stopped => 0,
        _ => 1,
    }
}

/// How a session goes on after a notification.
pub fn turn_after(phase: Phase, notice: &Notice) -> Turn
    ensures { result ≡ turn_after phase notice.now }
{
    match notice {
        Notice::Exit => Turn::Ended {
            status: exit_status(phase),
        },
        _ => Turn::On,
    }
}

/// Whether a session ends with this turn.
pub fn ends(turn: Turn) -> bool
    ensures { result ≡ is_end turn }
{
    match turn {
        Turn::On => false,
        Turn::Ended { .. } => true,
    }
}
