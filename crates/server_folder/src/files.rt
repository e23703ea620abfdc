// Files of modules, read where a root is taken and where a document is closed.
ghost use Rattle.std.specs.Prelude.{◌≡◌, ◌<◌, ◌^◌, false, IfErr, IfOk, IfSome, IsSome, IsTrue, OnOk, Some, is_some, length};
ghost use Rattle.std.specs.Option.{option_copied};
ghost use Rattle.lsp_answers.specs.States.{HasAnswerCause, IsAfter, judged, judged_reads};
ghost use Rattle.server_documents.specs.Documents.{after_close, after_files, after_root, opened_as, path_of, root_modules, with_file};
ghost use Rattle.server_folder.specs.Folders.{HasFolderCause, IsLimit, Leaves, after_file, called_at, listed_in, read_in, with_told};

use file_names::{MOST_FILE_BYTES, file_of, modules_of};
use lsp_answers::AnswerFault;
use lsp_wire::FileEvent;
use server_documents::Documents;
use server_documents::laws::closes_by_parts;
use server_uris::{client_root, module_of};
use std::alloc::Global;
use tool_io::{Folder, IoFault};
use tool_list::{Chars, List};

// Whether a text may have these bytes. A folder answers no more than `MOST_FILE_BYTES`.
fn is_short(bytes: &Option<List<u8>>) -> bool
    ensures { IsTrue result → IfSome bytes.now (λ bytes. length bytes < 2 ^ 31) }
{
    match bytes {
        Some(bytes) => bytes.len() < 1 << 31,
        None => true,
    }
}

// The bytes of a module's file, by one read where the root names a folder.
fn file_bytes<F: Folder>(
    alloc: Global,
    documents: &Documents,
    folder: &mut F,
    name: &str,
) -> Result<Option<List<u8>>, AnswerFault>
    ensures told { OnOk result (F.told folder.new
        ≡ called_at (path_of documents.now) (F.told folder.old)) }
    ensures bytes { IsSome (F.told folder.old) → IfOk result (λ bytes. bytes
        ≡ read_in (path_of documents.now) (F.told folder.new) name.now) }
    ensures cause { HasFolderCause (F.fault_count folder.old) (F.fault_count folder.new) result }
{
    let Some(path) = documents.path() else {
        return Ok(None);
    };
    let file = file_of(alloc, name)?;
    match folder.read(alloc, path, file.as_str(), MOST_FILE_BYTES) {
        Ok(bytes) => Ok(bytes),
        Err(IoFault::Failed) => Err(AnswerFault::Folder),
        Err(IoFault::Memory) => Err(AnswerFault::Memory),
    }
}

/// A module's text is that of its file again, by one read where the root names a folder; else it has
/// none. `Folder` comes where the folder failed.
pub fn read_file<F: Folder>(
    alloc: Global,
    documents: &mut Documents,
    folder: &mut F,
    name: &Chars,
) -> Result<(), AnswerFault>
    requires { is_some (opened_as documents.old name.now) ≡ false }
    ensures goes { Leaves (λ s. with_file s name.now) (F.told folder.old) documents.old result
        (F.told folder.new) documents.new }
    ensures cause { HasFolderCause (F.fault_count folder.old) (F.fault_count folder.new) result }
{
    let bytes = file_bytes(alloc, documents, folder, name.as_str())?;
    if !is_short(&bytes) {
        return Err(AnswerFault::Memory);
    }
    documents.set_file(name, bytes)?;
    Ok(())
}

/// Closes a document, whose file then counts again. One that is not open is ignored.
pub fn close<F: Folder>(
    alloc: Global,
    documents: &mut Documents,
    folder: &mut F,
    uri: &str,
) -> Result<(), AnswerFault>
    ensures goes { Leaves (λ s. after_close s uri.now) (F.told folder.old) documents.old result
        (F.told folder.new) documents.new }
    ensures cause { HasFolderCause (F.fault_count folder.old) (F.fault_count folder.new) result }
{
    closes_by_parts();
    let Some(closed) = documents.close(alloc, uri)? else {
        return Ok(());
    };
    read_file(alloc, documents, folder, &closed)
}

// Takes note of one file.
fn take_file<F: Folder>(
    alloc: Global,
    documents: &mut Documents,
    folder: &mut F,
    event: &FileEvent,
) -> Result<(), AnswerFault>
    ensures goes { Leaves (λ s. after_file s event.now) (F.told folder.old) documents.old result
        (F.told folder.new) documents.new }
    ensures cause { HasFolderCause (F.fault_count folder.old) (F.fault_count folder.new) result }
{
    let Some(name) = module_of(alloc, documents.root(), event.uri.as_str())? else {
        return Ok(());
    };
    if documents.is_open(&name) {
        return Ok(());
    }
    if event.gone {
        documents.set_file(&name, None)?;
        return Ok(());
    }
    read_file(alloc, documents, folder, &name)
}

/// Takes note of files that were made, changed or deleted, one behind the other. The file of an open
/// document does not count, and that of no member.
pub fn take_files<F: Folder>(
    alloc: Global,
    documents: &mut Documents,
    folder: &mut F,
    events: &[FileEvent],
) -> Result<(), AnswerFault>
    ensures goes { Leaves (λ s. after_files s events.now) (F.told folder.old) documents.old result
        (F.told folder.new) documents.new }
    ensures cause { HasFolderCause (F.fault_count folder.old) (F.fault_count folder.new) result }
{
    for event in events {
        take_file(alloc, documents, folder, event)?;
    }
    Ok(())
}

/// Whether the texts are within the limits when a call is done.
pub fn judge(documents: &Documents) -> Result<(), AnswerFault>
    ensures limit { IsAfter (judged documents.now) result documents.now }
    ensures quiet { IfErr result IsLimit }
{
    match documents.limit() {
        Some(said) => Err(AnswerFault::Limit { said }),
        None => Ok(()),
    }
}

// A module of the root gets the text of its file, unless its document is open.
fn read_listed<F: Folder>(
    alloc: Global,
    documents: &mut Documents,
    folder: &mut F,
    name: &Chars,
) -> Result<(), AnswerFault>
    ensures goes { Leaves (λ s. with_file s name.now) (F.told folder.old) documents.old result
        (F.told folder.new) documents.new }
    ensures cause { HasFolderCause (F.fault_count folder.old) (F.fault_count folder.new) result }
{
    if documents.is_open(name) {
        return Ok(());
    }
    read_file(alloc, documents, folder, name)
}

// Reads the files of modules, one behind the other. A limit is judged before each read, and when all
// are read; the first that is met ends the reading.
fn read_all<F: Folder>(
    alloc: Global,
    documents: &mut Documents,
    folder: &mut F,
    names: &[Chars],
) -> Result<(), AnswerFault>
    ensures goes { IsSome (F.told folder.old) → IsAfter (judged_reads with_file
        (with_told documents.old (F.told folder.old)) names.now) result
        (with_told documents.new (F.told folder.new)) }
    ensures cause { HasAnswerCause (F.fault_count folder.old) (F.fault_count folder.new) result }
{
    for name in names {
        judge(documents)?;
        read_listed(alloc, documents, folder, name)?;
    }
    judge(documents)
}

// The modules of a folder, by one listing, where there is a path.
fn listed<F: Folder>(
    alloc: Global,
    folder: &mut F,
    path: Option<&str>,
) -> Result<List<Chars>, AnswerFault>
    ensures told { OnOk result (F.told folder.new
        ≡ called_at (option_copied path.entry) (F.told folder.old)) }
    ensures names { IsSome (F.told folder.old) → IfOk result (λ names. names
        ≡ listed_in (option_copied path.entry) (F.told folder.new)) }
    ensures cause { HasFolderCause (F.fault_count folder.old) (F.fault_count folder.new) result }
{
    let Some(path) = path else {
        return Ok(List::new(alloc));
    };
    match folder.names(alloc, path) {
        Ok(names) => Ok(modules_of(alloc, names.as_slice())?),
        Err(IoFault::Failed) => Err(AnswerFault::Folder),
        Err(IoFault::Memory) => Err(AnswerFault::Memory),
    }
}

/// Takes the client's root, if the URI is a URL, and reads the files of its folder's modules in byte
/// order of their names. A limit is judged before each read, and when all are read; the first that is
/// met ends the call. An open document keeps its text.
pub fn take_root<F: Folder>(
    alloc: Global,
    documents: &mut Documents,
    folder: &mut F,
    uri: &str,
) -> Result<(), AnswerFault>
    ensures goes { IsSome (F.told folder.old) → IsAfter (judged_reads with_file
        (after_root (with_told documents.old (F.told folder.old)) (Some uri.now))
        (root_modules (with_told documents.old (F.told folder.old)) (Some uri.now))) result
        (with_told documents.new (F.told folder.new)) }
    ensures cause { HasAnswerCause (F.fault_count folder.old) (F.fault_count folder.new) result }
{
    let Some(root) = client_root(alloc, uri)? else {
        return judge(documents);
    };
    let names = listed(alloc, folder, root.path())?;
    documents.set_root(root);
    read_all(alloc, documents, folder, names.as_slice())
}
