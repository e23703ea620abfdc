// An output in memory.
ghost use Rattle.std.specs.Prelude.{◌≡◌, ◌<◌, ◌≤◌, ◌↔◌, [], IfOk, IsErr, IsTrue, OnErr, Err, Some, length, min, vec_len, vec_capacity};
ghost use Rattle.std.specs.Io.KnownBytes.{WriteAppends};
ghost use Rattle.tool_io.specs.Causes.{HasOneCause};
ghost use Rattle.tool_io.specs.Failing.{CountsCall};

use crate::failures::Failures;
use crate::{IoFault, Sink};
use std::alloc::Global;
use tool_list::{List, Memory};

/// An output in memory, which tells what it has taken. It takes at most so many bytes in a call,
/// and fails at the calls whose numbers it is given, counted from 1, and where its room is full.
#[derive(Drop)]
pub struct MemorySink {
    bytes: Vec<u8>,
    room: usize,
    most: u32,
    failures: Failures,
    ghost takes_some: { 0 < most },
    ghost within: { vec_len bytes ≤ room },
    ghost reserved: { room ≤ vec_capacity bytes },
}

impl MemorySink {
    ghost use Rattle.tool_io.specs.MemorySink.{sink_bytes, sink_room, sink_most};

    /// An empty output, with its room in bytes reserved.
    pub fn new(alloc: Global, room: u32, most: u32, fails: List<u32>) -> Result<Self, Memory>
        requires { 0 < most }
        ensures bytes { IfOk result (λ sink. sink_bytes sink ≡ []) }
        ensures room { IfOk result (λ sink. sink_room sink ≡ room) }
        ensures most { IfOk result (λ sink. sink_most sink ≡ most) }
        ensures failures { IfOk result (λ sink. sink.failures
            ≡ record { fails = fails; calls = 0; faults = 0 }) }
        ensures count { IfOk result (λ sink. ⟦<MemorySink as Sink>⟧.fault_count sink ≡ 0) }
    {
        let room = room as usize;
        let bytes = Vec::with_capacity(alloc, room)?;
        Ok(MemorySink {
            bytes,
            room,
            most,
            failures: Failures::new(fails),
        })
    }

    /// What it has taken.
    pub fn bytes(&self) -> &[u8]
        ensures { result.now ≡ sink_bytes self.now }
    {
        self.bytes.as_slice()
    }
}

impl Sink for MemorySink {
    ghost use Rattle.tool_io.specs.MemorySink.{refuses, sink_room, sink_most};

    ghost taken = { λ s. Some s.bytes.items };

    ghost fault_count = { λ s. s.failures.faults };

    /// As the trait says; and it never lacks memory.
    fn write(&mut self, piece: &[u8]) -> Result<usize, IoFault>
        ensures bound { IfOk result (λ n. n ≤ length piece.now) }
        ensures portion { IfOk result (λ n. n ≤ sink_most self.old) }
        ensures some { IfOk result (λ n. 0 < length piece.now → 0 < n) }
        ensures bytes { WriteAppends (Some self.old.bytes.items) (Some self.new.bytes.items) result
            piece.now }
        ensures cause { HasOneCause self.old.failures.faults self.new.failures.faults result }
        ensures fault { OnErr result (result ≡ Err IoFault.Failed) }
        ensures refused { IsErr result ↔ IsTrue (refuses self.old piece.now) }
        ensures counts { CountsCall self.old.failures self.new.failures }
        ensures room { sink_room self.new ≡ sink_room self.old }
        ensures most { sink_most self.new ≡ sink_most self.old }
    {
        let left = self.room - self.bytes.len();
        if self.failures.is_due() || (left == 0 && !piece.is_empty()) {
            self.failures.raise();
            return Err(IoFault::Failed);
        }
        let count = piece.len().min(left).min(self.most as usize);
        self.bytes.extend_from_slice(&piece[..count]).unwrap();
        Ok(count)
    }

    fn faults(&self) -> u64 {
        self.failures.count()
    }
}
