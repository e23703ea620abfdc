// What the program asks of its input.
ghost use Rattle.std.specs.Prelude.{◌≡◌, ℕ, List, Option, IfSome};
ghost use Rattle.std.specs.Io.{ReadsAtMost};
ghost use Rattle.std.specs.Io.KnownBytes.{ReadConsumes};
ghost use Rattle.tool_io.specs.Causes.{HasOneCause};
ghost use Rattle.tool_io.specs.Source.{given};

use crate::Failed;

/// An input of bytes.
pub trait Source {
    /// The bytes that are left, where it tells.
    ghost left: { Self → Option (List ℕ) };

    /// How many bytes its last read gave, where it tells.
    ghost last: { Self → ℕ };

    /// How often it has failed.
    ghost fault_count: { Self → ℕ };

    /// Moves some of the bytes that are left to the front of `buf`, and answers how many. Zero for
    /// a `buf` that is not empty means that nothing is left. A refused read moves nothing, and
    /// gave none. `Failed` raises the count by one, or leaves it at its last value; an Ok leaves the
    /// count.
    fn read(&mut self, buf: &mut [u8]) -> Result<usize, Failed>
        ensures bound { ReadsAtMost result buf.new }
        ensures bytes { ReadConsumes (left self.old) (left self.new) result buf.new }
        ensures gave { IfSome (left self.new) (λ _. last self.new ≡ given result) }
        ensures cause { HasOneCause (fault_count self.old) (fault_count self.new) result };

    /// How often it has failed. The count never falls.
    fn faults(&self) -> u64
        ensures { result ≡ fault_count self.now };
}
