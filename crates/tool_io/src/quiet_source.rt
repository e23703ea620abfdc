// An input in memory that never fails.
ghost use Rattle.std.specs.Prelude.{◌≡◌, ◌≤◌, Some, length, drop};

use crate::{Failed, Source};
use tool_list::List;

/// An input in memory, which tells what is left of it and never fails.
#[derive(Drop)]
pub struct QuietSource {
    bytes: List<u8>,
    at: usize,
    gave: usize,
    ghost within: { at ≤ length bytes },
}

impl QuietSource {
    ghost use Rattle.tool_io.specs.QuietSource.{quiet_rest};

    /// An input of these bytes.
    pub fn new(bytes: List<u8>) -> Self
        ensures rest { quiet_rest result ≡ bytes }
        ensures last { ⟦<QuietSource as Source>⟧.last result ≡ 0 }
    {
        QuietSource {
            bytes,
            at: 0,
            gave: 0,
        }
    }
}

impl Source for QuietSource {
    ghost left = { λ s. Some (drop s.at s.bytes) };

    ghost last = { λ s. s.gave };

    ghost fault_count = { λ _. 0 };

    fn read(&mut self, buf: &mut [u8]) -> Result<usize, Failed> {
        let rest = &self.bytes.as_slice()[self.at..];
        let count = rest.len().min(buf.len());
        buf[..count].copy_from_slice(&rest[..count]);
        self.at += count;
        self.gave = count;
        Ok(count)
    }

    fn faults(&self) -> u64 {
        0
    }
}
