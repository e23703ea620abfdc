// A folder in memory.
ghost use Rattle.std.specs.Prelude.{◌≡◌, ◌↔◌, [], IfOk, IsTrue, Some, take};
ghost use Rattle.std.specs.Option.{option_copied};
ghost use Rattle.std.specs.Ordering.{nat_cmp};
ghost use Rattle.std.specs.Cmp.Lexicographic.{slice_cmp};
ghost use Rattle.std.specs.List.Sorted.{IsStrictlySortedBy};
ghost use Rattle.tool_io.specs.Causes.{HasCause};
ghost use Rattle.tool_io.specs.Failing.{CountsCall, HasFailed};
ghost use Rattle.tool_io.specs.Folder.{after_call, bytes_of, files_at, names_at, read_at, with_names};
ghost use Rattle.tool_io.specs.MemoryFolder.{fails_listing, fails_next, held};

use crate::failures::Failures;
use crate::{FileBytes, FileMap, Folder, FolderFiles, IoFault};
use std::alloc::Global;
use std::collections::BTreeSet;
use tool_list::{Chars, List, Memory};

/// A folder in memory, which tells what it holds. It fails at the calls whose numbers it is given,
/// where `names` and `read` are counted together from 1, and at `names` of a path that is not
/// there.
#[derive(Drop)]
pub struct MemoryFolder {
    files: FileMap,
    failures: Failures,
}

impl MemoryFolder {
    /// A folder with these files, which fails at the calls whose numbers `fails` lists.
    pub fn new(files: FileMap, fails: List<u32>) -> Self
        ensures files { held result ≡ record { files = files; changes = [] } }
        ensures failures { result.failures ≡ record { fails = fails; calls = 0; faults = 0 } }
        ensures count { ⟦<MemoryFolder as Folder>⟧.fault_count result ≡ 0 }
    {
        MemoryFolder {
            files,
            failures: Failures::new(fails),
        }
    }
}

fn files_under<'a>(folders: &'a [FolderFiles], path: &str) -> Option<&'a List<FileBytes>>
    ensures { option_copied result ≡ files_at folders.now path.now }
{
    for folder in folders {
        if folder.path.as_str() == path {
            return Some(&folder.files);
        }
    }
    None
}

fn file_named<'a>(files: &'a [FileBytes], name: &str) -> Option<&'a List<u8>>
    ensures { option_copied result ≡ bytes_of files.now name.now }
{
    for file in files {
        if file.name.as_str() == name {
            return Some(&file.bytes);
        }
    }
    None
}

// The names of the files, in byte order.
fn names_in_order(alloc: Global, files: &[FileBytes]) -> Result<List<Chars>, Memory>
    ensures names { IfOk result (λ names. names ≡ with_names [] files.now) }
    ensures order { IfOk result (λ names. IsStrictlySortedBy (slice_cmp nat_cmp) names) }
{
    let mut names = BTreeSet::new(alloc);
    for file in files {
        names.insert(Chars::from_str(alloc, file.name.as_str())?)?;
    }
    Ok(List::from_vec(names.into_iter().collect(alloc)?))
}

fn first_bytes(alloc: Global, bytes: &[u8], most: u64) -> Result<List<u8>, Memory>
    ensures { IfOk result (λ front. front ≡ take most bytes.now) }
{
    let count = bytes.len().min(most as usize);
    Ok(List::from_vec(Vec::from_slice(alloc, &bytes[..count])?))
}

impl Folder for MemoryFolder {
    ghost told = { λ f. Some (held f) };

    ghost fault_count = { λ f. f.failures.faults };

    /// As the trait says; and it fails exactly where it is told to and where the path is not there.
    fn names(&mut self, alloc: Global, folder: &str) -> Result<List<Chars>, IoFault>
        ensures goes { held self.new ≡ after_call (held self.old) }
        ensures order { IfOk result (λ names. IsStrictlySortedBy (slice_cmp nat_cmp) names) }
        ensures names { IfOk result (λ names. names ≡ names_at (held self.new) folder.now) }
        ensures cause { HasCause self.old.failures.faults self.new.failures.faults result }
        ensures failed { HasFailed result ↔ IsTrue (fails_listing self.old folder.now) }
        ensures counts { CountsCall self.old.failures self.new.failures }
    {
        if self.failures.is_due() {
            self.failures.raise();
            return Err(IoFault::Failed);
        }
        let Some(files) = files_under(self.files.as_slice(), folder) else {
            self.failures.raise();
            return Err(IoFault::Failed);
        };
        match names_in_order(alloc, files.as_slice()) {
            Ok(names) => Ok(names),
            Err(Memory) => Err(IoFault::Memory),
        }
    }

    /// As the trait says; and it fails exactly where it is told to.
    fn read(
        &mut self,
        alloc: Global,
        folder: &str,
        file: &str,
        most: u64,
    ) -> Result<Option<List<u8>>, IoFault>
        ensures goes { held self.new ≡ after_call (held self.old) }
        ensures bytes { IfOk result (λ bytes. bytes
            ≡ read_at (held self.new) folder.now file.now most) }
        ensures cause { HasCause self.old.failures.faults self.new.failures.faults result }
        ensures failed { HasFailed result ↔ IsTrue (fails_next self.old) }
        ensures counts { CountsCall self.old.failures self.new.failures }
    {
        if self.failures.is_due() {
            self.failures.raise();
            return Err(IoFault::Failed);
        }
        let Some(files) = files_under(self.files.as_slice(), folder) else {
            return Ok(None);
        };
        let Some(bytes) = file_named(files.as_slice(), file) else {
            return Ok(None);
        };
        match first_bytes(alloc, bytes.as_slice(), most) {
            Ok(bytes) => Ok(Some(bytes)),
            Err(Memory) => Err(IoFault::Memory),
        }
    }

    fn faults(&self) -> u64 {
        self.failures.count()
    }
}
