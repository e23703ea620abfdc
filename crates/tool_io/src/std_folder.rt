// The folders of the system.
ghost use Rattle.std.specs.Prelude.{◌≡◌, None, IfOk};
ghost use Rattle.std.specs.Ordering.{nat_cmp};
ghost use Rattle.std.specs.Cmp.Lexicographic.{slice_cmp};
ghost use Rattle.std.specs.List.Sorted.{IsStrictlySortedBy};

use crate::{Folder, IoFault};
use std::alloc::Global;
use std::collections::BTreeSet;
use std::fs::File;
use std::io::{self, ErrorKind, Read};
use std::rt::Files;
use tool_list::{Chars, List};

/// The folders of the system. They tell nothing. Each error of the system but want of memory raises the
/// count.
#[derive(Drop)]
pub struct StdFolder<R> {
    rt: R,
    faults: u64,
}

impl<R: Files + AllocGlobal + Clone + Drop> StdFolder<R> {
    /// The folders that the runtime reaches. The count is 0.
    pub fn new(rt: R) -> Self
        ensures { ⟦<StdFolder<R> as Folder>⟧.fault_count result ≡ 0 }
    {
        StdFolder { rt, faults: 0 }
    }
}

fn no_room() -> io::Error {
    io::Error::from(ErrorKind::OutOfMemory)
}

// The files of a folder, by name.
fn names_under<R: Files + AllocGlobal + Clone + Drop>(
    rt: &R,
    alloc: Global,
    folder: &str,
) -> io::Result<List<Chars>>
    ensures { IfOk result (λ names. IsStrictlySortedBy (slice_cmp nat_cmp) names) }
{
    let mut names = BTreeSet::new(alloc);
    for entry in std::fs::read_dir(rt, folder)? {
        let entry = entry?;
        // A link to a file is a file, and one to a folder is none.
        if !std::fs::metadata(rt, entry.path())?.is_dir() {
            let Ok(name) = Chars::from_str(alloc, entry.file_name()) else {
                return Err(no_room());
            };
            if names.insert(name).is_err() {
                return Err(no_room());
            }
        }
    }
    Ok(List::from_vec(names.into_iter().collect(alloc)?))
}

// The first bytes of a file, if it is there.
fn bytes_under<R: Files + AllocGlobal>(
    rt: &R,
    alloc: Global,
    folder: &str,
    file: &str,
    most: u64,
) -> io::Result<Option<List<u8>>> {
    let path = format!(in alloc; "{folder}/{file}")?;
    match File::open(rt, path.as_str()) {
        Ok(file) => {
            let mut bytes = Vec::new(alloc);
            file.take(most).read_to_end(&mut bytes)?;
            Ok(Some(List::from_vec(bytes)))
        }
        Err(error) => {
            if error.kind() == ErrorKind::NotFound {
                Ok(None)
            } else {
                Err(error)
            }
        }
    }
}

fn is_want_of_memory(error: &io::Error) -> bool {
    error.kind() == ErrorKind::OutOfMemory
}

impl<R: Files + AllocGlobal + Clone + Drop> Folder for StdFolder<R> {
    ghost told = { λ _. None };

    ghost fault_count = { λ f. f.faults };

    fn names(&mut self, alloc: Global, folder: &str) -> Result<List<Chars>, IoFault> {
        match names_under(&self.rt, alloc, folder) {
            Ok(names) => Ok(names),
            Err(error) => {
                if is_want_of_memory(&error) {
                    return Err(IoFault::Memory);
                }
                self.faults = self.faults.saturating_add(1);
                Err(IoFault::Failed)
            }
        }
    }

    fn read(
        &mut self,
        alloc: Global,
        folder: &str,
        file: &str,
        most: u64,
    ) -> Result<Option<List<u8>>, IoFault> {
        match bytes_under(&self.rt, alloc, folder, file, most) {
            Ok(bytes) => Ok(bytes),
            Err(error) => {
                if is_want_of_memory(&error) {
                    return Err(IoFault::Memory);
                }
                self.faults = self.faults.saturating_add(1);
                Err(IoFault::Failed)
            }
        }
    }

    fn faults(&self) -> u64 {
        self.faults
    }
}
