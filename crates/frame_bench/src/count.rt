//! What is found in a stream of frames.

ghost use Rattle.std.specs.Prelude.{◌≡◌, ℕ, ◌+◌, ◌^◌, ◌<◌, ◌≤◌, List, ◌++◌, IfOk, length, drop};
ghost use Rattle.rpc_frame.specs.Frames.{HasNoFrame};
ghost use Rattle.frame_bench.specs.Counting.{HasFound, HasSeen};

use crate::counts::Counts;
use crate::task::Task;
use rpc_frame::{FrameNext, Framer};
use std::alloc::Global;
use tool_list::Memory;

/// Counts the contents of the stream's frames. The framer is fed pieces of the task's size.
pub fn count(alloc: Global, task: Task, stream: &[u8]) -> Result<Counts, Memory>
    requires { length stream.now < 2 ^ 26 }
    ensures { IfOk result (HasFound task stream.now) }
{
    let mut framer = Framer::new(alloc);
    let mut counts = Counts::none();
    let mut fed = 0;
    'pieces: while fed < stream.len() {
        let piece = next_piece(behind(stream, fed), task.piece_size());
        counts = count_further(alloc, task, &mut framer, counts, piece)?;
        fed += piece.len();
    }
    Ok(counts)
}

// Feeds one piece more, and counts the contents that are whole then.
fn count_further(
    alloc: Global,
    task: Task,
    framer: &mut Framer,
    counts: Counts,
    piece: &[u8],
) -> Result<Counts, Memory>
    requires { (front : List ℕ) × HasSeen task front framer.old counts
        × (length front + length piece.now < 2 ^ 26) }
    ensures { (front : List ℕ) → HasSeen task front framer.old counts
        → IfOk result (λ after. HasSeen task (front ++ piece.now) framer.new after
        × HasNoFrame framer.new.waiting) }
{
    framer.feed(piece)?;
    let counts = count_waiting(alloc, task, framer, counts)?;
    Ok(counts)
}

// Takes and counts the whole frames that wait.
fn count_waiting(
    alloc: Global,
    task: Task,
    framer: &mut Framer,
    counts: Counts,
) -> Result<Counts, Memory>
    requires { (front : List ℕ) × HasSeen task front framer.old counts
        × (length front < 2 ^ 26) }
    ensures { (front : List ℕ) → HasSeen task front framer.old counts
        → IfOk result (λ after. HasSeen task front framer.new after
        × HasNoFrame framer.new.waiting) }
{
    let mut counts = counts;
    'frames: loop {
        match framer.next() {
            FrameNext::Message => counts = counts.with(alloc, task, framer.content())?,
            _ => return Ok(counts),
        }
    }
}

// The bytes behind so many.
fn behind(bytes: &[u8], count: usize) -> &[u8]
    requires { count ≤ length bytes.now }
    ensures { result.now ≡ drop count bytes.now }
{
    &bytes[count..]
}

// The next piece of these bytes, of at most that size.
fn next_piece(bytes: &[u8], size: usize) -> &[u8]
    requires { 1 ≤ size }
    ensures front { (more : List ℕ) × (bytes.now ≡ result.now ++ more) }
    ensures some { 1 ≤ length bytes.now → 1 ≤ length result.now }
{
    if bytes.len() <= size {
        bytes
    } else {
        &bytes[..size]
    }
}
