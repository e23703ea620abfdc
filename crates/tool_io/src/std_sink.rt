// Any writer of std as an output.
ghost use Rattle.std.specs.Prelude.{◌≡◌, ◌<◌, ◌≤◌, length, take, IfOk, IfSome, OnErr, Err, None};
ghost use Rattle.std.specs.Io.KnownBytes.{Appends, WriteAppends};
ghost use Rattle.tool_io.specs.Causes.{HasOneCause};

use crate::{IoFault, Sink};
use std::io::Write;

/// Any writer of std as an output. It tells nothing. Each error raises the count, a refused flush and a
/// write of no byte of several among them.
#[derive(Drop)]
pub struct StdSink<W> {
    inner: W,
    faults: u64,
}

impl<W: Write> StdSink<W> {
    /// The same writer. The count is 0.
    pub fn new(inner: W) -> Self
        ensures { ⟦<StdSink<W> as Sink>⟧.fault_count result ≡ 0 }
    {
        StdSink { inner, faults: 0 }
    }
}

impl<W: Write> StdSink<W> {
    // Writes and flushes.
    fn put(&mut self, piece: &[u8]) -> Option<usize>
        ensures kept { self.new.faults ≡ self.old.faults }
        ensures bound { IfSome result (λ n. n ≤ length piece.now) }
        ensures written { IfSome result
            (λ n. Appends (W.contents self.old.inner) (W.contents self.new.inner)
            (take n piece.now)) }
    {
        let count = self.inner.write(piece).ok()?;
        self.inner.flush().ok()?;
        Some(count)
    }
}

impl<W: Write> Sink for StdSink<W> {
    ghost taken = { λ _. None };

    ghost fault_count = { λ s. s.faults };

    /// As the trait says; each refusal is a failure, and what is taken stands in the writer behind what
    /// stood there.
    fn write(&mut self, piece: &[u8]) -> Result<usize, IoFault>
        ensures bound { IfOk result (λ n. n ≤ length piece.now) }
        ensures some { IfOk result (λ n. 0 < length piece.now → 0 < n) }
        ensures bytes { WriteAppends None None result piece.now }
        ensures cause { HasOneCause self.old.faults self.new.faults result }
        ensures fault { OnErr result (result ≡ Err IoFault.Failed) }
        ensures writer { IfOk result
            (λ n. Appends (W.contents self.old.inner) (W.contents self.new.inner)
            (take n piece.now)) }
    {
        match self.put(piece) {
            Some(count) if count > 0 || piece.is_empty() => Ok(count),
            _ => {
                self.faults = self.faults.saturating_add(1);
                Err(IoFault::Failed)
            }
        }
    }

    fn faults(&self) -> u64 {
        self.faults
    }
}
