//! Whether a content is a message.

ghost use Rattle.std.specs.Prelude.{◌≡◌, ◌≤◌, [], ◌∷◌, IfOk};
ghost use Rattle.lsp_wire.specs.Messages.{IsMessage};
ghost use Rattle.lsp_wire.specs.declared.types.Incoming.{Incoming};
ghost use Rattle.frame_bench.specs.Counting.{HasRefused, is_refused};

use crate::task::Task;
use lsp_wire::{Incoming, read_message};
use std::alloc::Global;
use tool_list::Memory;

/// One where the content is read and is no message, else none.
pub fn refused_in(alloc: Global, task: Task, content: &[u8]) -> Result<u64, Memory>
    ensures counted { IfOk result (HasRefused task (content.now ∷ [])) }
    ensures one { IfOk result (λ count. count ≤ 1) }
{
    match task {
        Task::Frames(_) => Ok(0),
        Task::Messages => match is_refused(alloc, content) {
            Ok(true) => Ok(1),
            Ok(false) => Ok(0),
            Err(fault) => Err(fault),
        },
    }
}

// Whether a content is no message.
fn is_refused(alloc: Global, content: &[u8]) -> Result<bool, Memory>
    ensures { IfOk result (λ refused. (message : Incoming) × IsMessage content.now message
        × (refused ≡ is_refused message)) }
{
    let message = read_message(alloc, content)?;
    Ok(is_no_message(&message))
}

fn is_no_message(message: &Incoming) -> bool
    ensures { result ≡ is_refused message.now }
{
    match message {
        Incoming::Invalid { .. } => true,
        _ => false,
    }
}
