// An input in memory.
ghost use Rattle.std.specs.Prelude.{◌≡◌, ◌<◌, ◌≤◌, ◌↔◌, IfOk, IsErr, IsTrue, Some, length, drop, min, take};
ghost use Rattle.std.specs.Io.{ReadsAtMost};
ghost use Rattle.std.specs.Io.KnownBytes.{ReadConsumes};
ghost use Rattle.tool_io.specs.Causes.{HasOneCause};
ghost use Rattle.tool_io.specs.Failing.{CountsCall};
ghost use Rattle.tool_io.specs.Cuts.{most_by};
ghost use Rattle.tool_io.specs.Source.{given};

use crate::failures::Failures;
use crate::{Failed, Source};
use tool_list::List;

/// An input in memory, which tells what is left of it. It fails at the reads whose numbers it is
/// given, counted from 1. Each other read gives as much as there is room for, but at most as many
/// bytes as the cut of its number, where it has one; a cut of 0 counts as 1.
#[derive(Drop)]
pub struct MemorySource {
    bytes: List<u8>,
    at: usize,
    gave: usize,
    cuts: List<u32>,
    failures: Failures,
    ghost within: { at ≤ length bytes },
}

impl MemorySource {
    ghost use Rattle.tool_io.specs.MemorySource.{source_rest, source_most};

    /// An input of these bytes, with the cuts of its first reads, which fails at the reads whose
    /// numbers `fails` lists.
    pub fn new(bytes: List<u8>, cuts: List<u32>, fails: List<u32>) -> Self
        ensures rest { source_rest result ≡ bytes }
        ensures cuts { result.cuts ≡ cuts }
        ensures failures { result.failures ≡ record { fails = fails; calls = 0; faults = 0 } }
        ensures last { ⟦<MemorySource as Source>⟧.last result ≡ 0 }
        ensures count { ⟦<MemorySource as Source>⟧.fault_count result ≡ 0 }
    {
        MemorySource {
            bytes,
            at: 0,
            gave: 0,
            cuts,
            failures: Failures::new(fails),
        }
    }

    // The most bytes of the next read.
    fn most(&self) -> usize
        ensures value { result ≡ source_most self.now }
        ensures some { 0 < result }
    {
        most_by(
            self.cuts
                .as_slice()
                .get(self.failures.done() as usize)
                .copied(),
        )
    }
}

// The most bytes of a read that has this cut.
fn most_by(cut: Option<u32>) -> usize
    ensures value { result ≡ most_by cut }
    ensures some { 0 < result }
{
    match cut {
        Some(cut) => cut.max(1) as usize,
        None => usize::MAX,
    }
}

// Moves the first bytes to the front of a buffer, as many as there is room for but at most so many,
// and answers how many.
fn give(rest: &[u8], most: usize, buf: &mut [u8]) -> usize
    ensures count { result ≡ min (min (length rest.now) (length buf.new)) most }
    ensures front { take result buf.new ≡ take result rest.now }
{
    let count = rest.len().min(buf.len()).min(most);
    buf[..count].copy_from_slice(&rest[..count]);
    count
}

impl Source for MemorySource {
    ghost use Rattle.tool_io.specs.MemorySource.{fails_read, source_rest, source_most};

    ghost left = { λ s. Some (drop s.at s.bytes) };

    ghost last = { λ s. s.gave };

    ghost fault_count = { λ s. s.failures.faults };

    /// As the trait says; and it fails exactly where it is told to.
    fn read(&mut self, buf: &mut [u8]) -> Result<usize, Failed>
        ensures bound { ReadsAtMost result buf.new }
        ensures count { IfOk result (λ count. count
            ≡ min (min (length (source_rest self.old)) (length buf.new)) (source_most self.old)) }
        ensures bytes { ReadConsumes (Some (source_rest self.old)) (Some (source_rest self.new))
            result buf.new }
        ensures gave { self.new.gave ≡ given result }
        ensures cause { HasOneCause self.old.failures.faults self.new.failures.faults result }
        ensures refused { IsErr result ↔ IsTrue (fails_read self.old) }
        ensures counts { CountsCall self.old.failures self.new.failures }
        ensures cuts { self.new.cuts ≡ self.old.cuts }
    {
        let most = self.most();
        if self.failures.is_due() {
            self.failures.raise();
            self.gave = 0;
            return Err(Failed);
        }
        let count = give(&self.bytes.as_slice()[self.at..], most, buf);
        self.at += count;
        self.gave = count;
        Ok(count)
    }

    fn faults(&self) -> u64 {
        self.failures.count()
    }
}
