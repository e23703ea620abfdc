// Why a session ends.
ghost use Rattle.std.specs.Prelude.{◌≡◌, ◌≢◌, IsTrue, ◌↔◌};
ghost use Rattle.lsp_serve.specs.Ends.{status_of, end_of_fault, end_of_turn};

use lsp_session::{SessionFault, Turn};

/// Why a session ends.
#[derive(Clone, Copy, Debug, PartialEq, Eq)]
pub enum End {
    /// `exit` was read, or the input ended: 0 after an answered `shutdown`, but for an end inside a
    /// frame, and else 1.
    Done { status: u8 },
    /// The folder failed.
    FolderFault,
    /// The input failed.
    InputFault,
    /// The output failed.
    OutputFault,
    /// There was no room.
    NoMemory,
    /// A message met a limit, a header says too much, or too many bytes came.
    Limit,
    /// Bytes came that begin no header.
    BadHeader,
}

impl End {
    /// The status with which the program ends.
    pub fn status(self) -> u8
        ensures { result ≡ status_of self }
    {
        match self {
            End::Done { status } => status,
            End::FolderFault => 3,
            End::InputFault => 4,
            End::OutputFault => 5,
            End::NoMemory => 6,
            End::Limit => 7,
            End::BadHeader => 8,
        }
    }
}

/// The end that a fault of a session is which was not spent.
pub fn end_of_fault(fault: SessionFault) -> End
    requires { fault ≢ SessionFault.Spent }
    ensures { result ≡ end_of_fault fault }
{
    match fault {
        SessionFault::Folder => End::FolderFault,
        SessionFault::Limit { .. } => End::Limit,
        SessionFault::Memory => End::NoMemory,
        SessionFault::Spent => unreachable!(),
    }
}

/// The end that comes after a message, if one does.
pub fn end_of_turn(turn: Turn) -> Option<End>
    ensures { result ≡ end_of_turn turn }
{
    match turn {
        Turn::On => None,
        Turn::Ended { status } => Some(End::Done { status }),
    }
}
