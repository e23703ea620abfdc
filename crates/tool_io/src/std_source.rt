// Any reader of std as an input.
ghost use Rattle.std.specs.Prelude.{◌≡◌, None};
ghost use Rattle.std.specs.Io.{ReadsAtMost};
ghost use Rattle.std.specs.Io.KnownBytes.{ReadConsumes};
ghost use Rattle.tool_io.specs.Causes.{HasOneCause};

use crate::{Failed, Source};
use std::io::Read;

/// Any reader of std as an input. It tells nothing. Each error raises the count.
#[derive(Drop)]
pub struct StdSource<R> {
    inner: R,
    faults: u64,
}

impl<R: Read> StdSource<R> {
    /// The same reader. The count is 0.
    pub fn new(inner: R) -> Self
        ensures { ⟦<StdSource<R> as Source>⟧.fault_count result ≡ 0 }
    {
        StdSource { inner, faults: 0 }
    }
}

impl<R: Read> Source for StdSource<R> {
    ghost left = { λ _. None };

    ghost last = { λ _. 0 };

    ghost fault_count = { λ s. s.faults };

    /// As the trait says; and the bytes come from what the reader has left, so that zero for a `buf`
    /// that is not empty means that it has nothing left.
    fn read(&mut self, buf: &mut [u8]) -> Result<usize, Failed>
        ensures bound { ReadsAtMost result buf.new }
        ensures bytes { ReadConsumes None None result buf.new }
        ensures cause { HasOneCause self.old.faults self.new.faults result }
        ensures reader { ReadConsumes (R.remaining self.old.inner)
            (R.remaining self.new.inner) result buf.new }
    {
        match self.inner.read(buf) {
            Ok(count) => Ok(count),
            Err(_) => {
                self.faults = self.faults.saturating_add(1);
                Err(Failed)
            }
        }
    }

    fn faults(&self) -> u64 {
        self.faults
    }
}
