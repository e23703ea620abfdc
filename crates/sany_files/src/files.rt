// The module files of a folder.
ghost use Rattle.std.specs.Prelude.{◌≡◌, ◌++◌, ◌+◌, ◌≤◌, [], IfOk, IfSome, OnErr, OnOk, length};
ghost use Rattle.std.specs.Option.{option_copied, option_map};
ghost use Rattle.tool_io.specs.Causes.{HasCause};
ghost use Rattle.tool_io.specs.Folder.{after_call, read_at};
ghost use Rattle.family_facts.specs.Verdicts.{AreDistinct};
ghost use Rattle.sany_files.specs.Calls.{IsLeftAfter};
ghost use Rattle.sany_files.specs.Calls as calls;
ghost use Rattle.file_names.specs.Files as file_names_in;
ghost use Rattle.sany_files.specs.Files as files_in;
ghost use Rattle.name_graph.specs.Family.{AreOnce};
ghost use Rattle.sany_files.specs.Reading as reading;

use family_facts::File;
use file_names::{MOST_FILE_BYTES, file_of};
use std::alloc::Global;
use tool_io::{Folder, IoFault};
use tool_list::{Chars, List, Memory};

// The most bytes of all files of a folder.
const MOST_BYTES: u64 = 1 << 25;

// Reads the file of a module. None where it is gone.
fn read_module<F: Folder>(
    alloc: Global,
    folder: &mut F,
    path: &str,
    name: &str,
) -> Result<Option<List<u8>>, IoFault>
    ensures goes { OnOk result (F.told folder.new ≡ option_map after_call (F.told folder.old)) }
    ensures part { OnErr result
        (IfSome (F.told folder.old) (λ t. IsLeftAfter 0 1 t (F.told folder.new))) }
    ensures bytes { IfOk result (λ bytes. IfSome (F.told folder.new) (λ t. bytes
        ≡ read_at t path.now (file_names_in.file_of name.now) file_names_in.MOST_FILE_BYTES)) }
    ensures cause { HasCause (F.fault_count folder.old) (F.fault_count folder.new) result }
{
    let Ok(file) = file_of(alloc, name) else {
        return Err(IoFault::Memory);
    };
    folder.read(alloc, path, file.as_str(), MOST_FILE_BYTES)
}

fn read_len(bytes: &Option<List<u8>>) -> u64
    ensures { result ≡ calls.read_len bytes.now }
{
    match bytes {
        Some(bytes) => bytes.len() as u64,
        None => 0,
    }
}

// Appends a file that was read. One that is gone is no module.
fn add_file(
    alloc: Global,
    files: &mut List<File>,
    name: &str,
    bytes: Option<List<u8>>,
) -> Result<(), IoFault>
    ensures files { OnOk result (files.new ≡ files.old ++ files_in.with_read name.now bytes []) }
    ensures memory { reading.OnlyMemory result }
{
    let Some(bytes) = bytes else {
        return Ok(());
    };
    let Ok(name) = Chars::from_str(alloc, name) else {
        return Err(IoFault::Memory);
    };
    match files.push(File { name, bytes }) {
        Ok(()) => Ok(()),
        Err(Memory) => Err(IoFault::Memory),
    }
}

/// Reads the file of each module once, in order. None as soon as they have too many bytes.
pub fn read_files<F: Folder>(
    alloc: Global,
    folder: &mut F,
    path: &str,
    names: &[Chars],
) -> Result<Option<List<File>>, IoFault>
    requires { AreOnce names.now }
    ensures files { IfOk result (λ found. IfSome (F.told folder.old) (λ t. found
        ≡ reading.within (files_in.reads t path.now names.now))) }
    ensures distinct { IfOk result (λ found. IfSome found AreDistinct) }
    ensures small { IfOk result (λ found. IfSome found (λ files. files_in.byte_count files
        ≤ files_in.MOST_BYTES)) }
    ensures told { IfOk result (λ found. F.told folder.new
        ≡ option_map (reading.after_reads path.now names.now) (F.told folder.old)) }
    ensures part { OnErr result
        (IfSome (F.told folder.old) (λ t. IsLeftAfter 0 (calls.reads_made 0 t path.now names.now) t
        (F.told folder.new))) }
    ensures cause { HasCause (F.fault_count folder.old) (F.fault_count folder.new) result }
{
    let mut files = List::new(alloc);
    let mut total = 0u64;
    for name in names {
        let bytes = read_module(alloc, folder, path, name.as_str())?;
        total = total.saturating_add(read_len(&bytes));
        if total > MOST_BYTES {
            return Ok(None);
        }
        add_file(alloc, &mut files, name.as_str(), bytes)?;
    }
    Ok(Some(files))
}
