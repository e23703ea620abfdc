//! The framer: it is fed a stream in pieces and gives the contents of its frames.

ghost use Rattle.std.specs.Prelude.{◌≡◌, ◌+◌, ◌^◌, ◌<◌, ◌≤◌, ◌↔◌, [], ◌++◌, length, drop, vec_len};
ghost use Rattle.std.specs.Prelude.{IsTrue, OnOk, OnErr};
ghost use Rattle.rpc_frame.specs.Frames.{EndsInside};
ghost use Rattle.rpc_frame.specs.Framing.{HasRoom, IsNext};
ghost use Rattle.rpc_frame.specs.HeaderMachine.{HasRead};

use crate::header::{Found, Progress};
use std::alloc::Global;
use std::marker::Model;
use tool_list::Memory;

/// What the bytes that wait in a framer are.
#[derive(Clone, Copy, Debug, PartialEq, Eq)]
pub enum FrameNext {
    /// A whole frame waited, and was taken: its content is [`Framer::content`].
    Message,
    /// Nothing waits, or a frame that is not whole.
    NotYet,
    /// What waits begins no header. The place, in bytes from 0 at the stream's start, is that of
    /// the first byte which no header has there.
    BadHeader { at: u64 },
    /// A whole header says so many bytes of content, more than a frame may have.
    TooLong { said: u64 },
}

/// Takes a stream apart into frames, in whatever pieces it comes. Each byte of a header is read
/// once, none of a content, and each byte is moved less often than twice.
#[derive(Drop)]
pub struct Framer {
    // The last frame from its content on, and what waits.
    bytes: Vec<u8>,
    // Where the last frame's content begins.
    content: usize,
    // Where that content ends and what waits begins.
    start: usize,
    // How many bytes of the stream were taken as frames.
    taken: u64,
    progress: Progress,
}

impl Model for Framer {
    ghost use Rattle.rpc_frame.specs.Framing.{Held};

    ghost Value = { Held };

    ghost use Rattle.rpc_frame.specs.Fields.{held_by, IsSound};

    ghost view = { held_by };

    ghost invariant = { IsSound };
}

impl Framer {
    /// A framer to which nothing was fed. It takes no memory.
    pub fn new(alloc: Global) -> Framer
        ensures { result ≡ record { taken = 0; content = []; waiting = [] } }
    {
        Framer {
            bytes: Vec::new(alloc),
            content: 0,
            start: 0,
            taken: 0,
            progress: Progress::new(),
        }
    }

    /// Adds the stream's next piece to what waits. After `Memory` nothing has changed.
    pub fn feed(&mut self, piece: &[u8]) -> Result<(), Memory>
        requires waiting { length self.old.waiting + length piece.now < 2 ^ 26 }
        requires fed { self.old.taken + length self.old.waiting + length piece.now < 2 ^ 63 }
        ensures ok { OnOk result
            (self.new ≡ record self.old { waiting = self.old.waiting ++ piece.now }) }
        ensures err { OnErr result (self.new ≡ self.old) }
    {
        self.let_go();
        self.bytes.extend_from_slice(piece)?;
        Ok(())
    }

    /// Whether a piece may be fed: fewer than 2^26 bytes wait then, and fewer than 2^63 have come in all.
    pub fn has_room_for(&self, piece: &[u8]) -> bool
        ensures { IsTrue result ↔ HasRoom self.now (length piece.now) }
    {
        let waiting = behind(&self.bytes, self.start)
            .len()
            .saturating_add(piece.len());
        waiting < 1 << 26 && self.taken.saturating_add(waiting as u64) < 1 << 63
    }

    // Lets go of the bytes before the last content, once they are more than the others. So the
    // bytes moved are never more than those let go.
    fn let_go(&mut self)
        ensures { self.new ≡ self.old }
    {
        if self.content <= self.bytes.len() - self.content {
            return;
        }
        drop_front(&mut self.bytes, self.content);
        self.start -= self.content;
        self.content = 0;
    }

    /// Says what the bytes that wait begin with, and takes a whole frame. After `BadHeader` and
    /// `TooLong` each later call answers the same, whatever is fed.
    pub fn next(&mut self) -> FrameNext
        ensures { IsNext self.old result self.new }
    {
        let waiting = behind(&self.bytes, self.start);
        let progress = self.progress.read_on(waiting);
        let found = progress.found(waiting);
        self.progress = progress;
        match found {
            Found::Frame { header, content } => {
                self.content = self.start + header;
                self.start = self.content + content;
                self.taken += (header + content) as u64;
                self.progress = Progress::new();
                FrameNext::Message
            }
            Found::Unfinished => FrameNext::NotYet,
            Found::Bad { place } => FrameNext::BadHeader {
                at: self.taken + place as u64,
            },
            Found::Long { said } => FrameNext::TooLong { said },
        }
    }

    /// The content of the last message, empty before one.
    pub fn content(&self) -> &[u8]
        ensures { result.now ≡ self.now.content }
    {
        &self.bytes[self.content..self.start]
    }

    /// Whether the bytes that wait end within a frame, behind the whole frames among them. Not so
    /// where they begin no header there, or one that says too much.
    pub fn inside(&self) -> bool
        ensures { IsTrue result ↔ EndsInside self.now.waiting }
    {
        ends_inside(behind(&self.bytes, self.start), self.progress)
    }
}

// Removes so many items at the front.
fn drop_front(bytes: &mut Vec<u8>, count: usize)
    requires { count ≤ vec_len bytes.old }
    ensures { bytes.new.items ≡ drop count bytes.old.items }
{
    let kept = bytes.len() - count;
    bytes.copy_within(count.., 0);
    bytes.truncate(kept);
}

// The bytes behind so many.
fn behind(bytes: &[u8], count: usize) -> &[u8]
    requires { count ≤ length bytes.now }
    ensures { result.now ≡ drop count bytes.now }
{
    &bytes[count..]
}

// Whether these bytes, of whose first header so much was read, end within a frame.
fn ends_inside(bytes: &[u8], progress: Progress) -> bool
    requires { HasRead bytes.now progress }
    ensures { IsTrue result ↔ EndsInside bytes.now }
{
    let mut rest = bytes;
    let mut progress = progress;
    'frames: loop {
        progress = progress.read_on(rest);
        match progress.found(rest) {
            Found::Frame { header, content } => {
                rest = behind(behind(rest, header), content);
                progress = Progress::new();
            }
            Found::Unfinished => return !rest.is_empty(),
            Found::Bad { .. } => return false,
            Found::Long { .. } => return false,
        }
    }
}
