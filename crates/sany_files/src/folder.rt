// The module files of a folder, within the limits.
ghost use Rattle.std.specs.Prelude.{◌≡◌, ◌≤◌, IfOk, IfSome, OnErr};
ghost use Rattle.std.specs.Option.{option_map};
ghost use Rattle.tool_io.specs.Causes.{HasCause};
ghost use Rattle.family_facts.specs.Verdicts.{AreDistinct};
ghost use Rattle.sany_files.specs.Calls as calls;
ghost use Rattle.sany_files.specs.Calls.{IsLeftAfter};
ghost use Rattle.sany_files.specs.Files as files_in;
ghost use Rattle.sany_files.specs.Reading as reading;

use crate::files::read_files;
use family_facts::File;
use file_names::modules_of;
use std::alloc::Global;
use tool_io::{Folder, IoFault};
use tool_list::List;

/// The most modules of a folder.
const MOST_MODULES: usize = 1024;

/// The module files of a folder, by one listing and one read of each module. None where there are too
/// many modules or bytes.
pub fn files_of_folder<F: Folder>(
    alloc: Global,
    folder: &mut F,
    path: &str,
) -> Result<Option<List<File>>, IoFault>
    ensures files { IfOk result (λ found. IfSome (F.told folder.old) (λ t. found
        ≡ reading.files_within t path.now)) }
    ensures distinct { IfOk result (λ found. IfSome found AreDistinct) }
    ensures small { IfOk result (λ found. IfSome found (λ files. files_in.byte_count files
        ≤ files_in.MOST_BYTES)) }
    ensures told { IfOk result (λ found. F.told folder.new
        ≡ option_map (reading.after_folder path.now) (F.told folder.old)) }
    ensures part { OnErr result
        (IfSome (F.told folder.old) (λ t. IsLeftAfter 1 (calls.calls_of_folder t path.now) t
        (F.told folder.new))) }
    ensures cause { HasCause (F.fault_count folder.old) (F.fault_count folder.new) result }
{
    let listed = folder.names(alloc, path)?;
    let Ok(names) = modules_of(alloc, listed.as_slice()) else {
        return Err(IoFault::Memory);
    };
    if names.len() > MOST_MODULES {
        return Ok(None);
    }
    read_files(alloc, folder, path, names.as_slice())
}
