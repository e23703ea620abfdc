// What the program asks of its output.
ghost use Rattle.std.specs.Prelude.{◌≡◌, ◌<◌, ◌≤◌, ℕ, List, Option, IfOk, length};
ghost use Rattle.std.specs.Io.KnownBytes.{WriteAppends};
ghost use Rattle.tool_io.specs.Causes.{HasCause};

use crate::IoFault;

/// An output of bytes.
pub trait Sink {
    /// The bytes that it has taken, where it tells.
    ghost taken: { Self → Option (List ℕ) };

    /// How often it has failed.
    ghost fault_count: { Self → ℕ };

    /// Takes some of the bytes from the front, and answers how many: at least one where there is
    /// one. A refused write takes nothing. `Failed` raises the count by one, or leaves it at its
    /// last value; any other answer leaves the count.
    fn write(&mut self, piece: &[u8]) -> Result<usize, IoFault>
        ensures bound { IfOk result (λ n. n ≤ length piece.now) }
        ensures some { IfOk result (λ n. 0 < length piece.now → 0 < n) }
        ensures bytes { WriteAppends (taken self.old) (taken self.new) result piece.now }
        ensures cause { HasCause (fault_count self.old) (fault_count self.new) result };

    /// How often it has failed. The count never falls.
    fn faults(&self) -> u64
        ensures { result ≡ fault_count self.now };
}
