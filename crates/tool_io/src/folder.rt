// What the program asks of a folder.
ghost use Rattle.std.specs.Prelude.{◌≡◌, ℕ, Option, IfOk, IfSome};
ghost use Rattle.std.specs.Option.{option_map};
ghost use Rattle.std.specs.Ordering.{nat_cmp};
ghost use Rattle.std.specs.Cmp.Lexicographic.{slice_cmp};
ghost use Rattle.std.specs.List.Sorted.{IsStrictlySortedBy};
ghost use Rattle.tool_io.specs.Causes.{HasCause};
ghost use Rattle.tool_io.specs.Folder.{Told, after_call, names_at, read_at};

use crate::IoFault;
use std::alloc::Global;
use tool_list::{Chars, List};

/// Folders of files. One that tells what it holds uses up one entry of its list of changes at each
/// call of `names` or `read`, whatever the answer, and answers what it holds then.
pub trait Folder {
    /// What it holds and what each coming call changes, where it tells.
    ghost told: { Self → Option Told };

    /// How often it has failed.
    ghost fault_count: { Self → ℕ };

    /// The names of the files under a path, in byte order, each once. A path that is not there is
    /// an empty folder or a failure. `Failed` raises the count by one, or leaves it at its last
    /// value; any other answer leaves the count.
    fn names(&mut self, alloc: Global, folder: &str) -> Result<List<Chars>, IoFault>
        ensures goes { told self.new ≡ option_map after_call (told self.old) }
        ensures order { IfOk result (λ names. IsStrictlySortedBy (slice_cmp nat_cmp) names) }
        ensures names { IfOk result (λ names. IfSome (told self.new) (λ t. names
            ≡ names_at t folder.now)) }
        ensures cause { HasCause (fault_count self.old) (fault_count self.new) result };

    /// The first bytes of a file, at most `most`. None where it is not there. `Failed` comes as in
    /// `names`.
    fn read(
        &mut self,
        alloc: Global,
        folder: &str,
        file: &str,
        most: u64,
    ) -> Result<Option<List<u8>>, IoFault>
        ensures goes { told self.new ≡ option_map after_call (told self.old) }
        ensures bytes { IfOk result (λ bytes. IfSome (told self.new) (λ t. bytes
            ≡ read_at t folder.now file.now most)) }
        ensures cause { HasCause (fault_count self.old) (fault_count self.new) result };

    /// How often it has failed. The count never falls.
    fn faults(&self) -> u64
        ensures { result ≡ fault_count self.now };
}
