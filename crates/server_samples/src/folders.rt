// Files of a folder that come, count again and go.
use crate::given::{URI, chars_of, check_text, open_text};
use lsp_wire::FileEvent;
use server_documents::Documents;
use server_folder::{close, judge, take_files};
use server_uris::client_root;
use std::alloc::Global;
use std::process::Abort;
use tool_io::{FileBytes, FolderFiles, MemoryFolder};
use tool_list::List;

// A folder with one file.
fn folder_of(rt: &impl Abort, alloc: Global, path: &str, name: &str, text: &str) -> MemoryFolder {
    let bytes = List::from_vec(Vec::from_slice(alloc, text.as_bytes()).expect(rt, "room"));
    let name = chars_of(rt, alloc, name);
    let mut files = List::new(alloc);
    files.push(FileBytes { name, bytes }).expect(rt, "room");
    let path = chars_of(rt, alloc, path);
    let mut folders = List::new(alloc);
    folders.push(FolderFiles { path, files }).expect(rt, "room");
    MemoryFolder::new(folders, List::new(alloc))
}

fn event_of(rt: &impl Abort, alloc: Global, gone: bool) -> List<FileEvent> {
    let mut events = List::new(alloc);
    let uri = chars_of(rt, alloc, URI);
    events.push(FileEvent { uri, gone }).expect(rt, "room");
    events
}

fn take_root(rt: &impl Abort, alloc: Global, documents: &mut Documents) {
    let root = client_root(alloc, "file:///w/").expect(rt, "room");
    documents.set_root(root.expect(rt, "a root"));
}

fn take_event(
    rt: &impl Abort,
    alloc: Global,
    documents: &mut Documents,
    folder: &mut MemoryFolder,
    gone: bool,
) {
    let events = event_of(rt, alloc, gone);
    assert_eq!(rt;
        take_files(alloc, documents, folder, events.as_slice()),
        Ok(())
    );
}

#[test]
fn reads_files_again(rt: HostRuntime) {
    let alloc = rt.alloc();
    let name = chars_of(&rt, alloc, "A");
    let mut folder = folder_of(&rt, alloc, "/w", "A.tla", "file");
    let mut documents = Documents::new(alloc);
    take_root(&rt, alloc, &mut documents);
    open_text(&rt, alloc, &mut documents, "open");
    assert_eq!(&rt; close(alloc, &mut documents, &mut folder, URI), Ok(()));
    check_text(&rt, &documents, &name, "file");
    assert_eq!(&rt; judge(&documents), Ok(()));
    take_event(&rt, alloc, &mut documents, &mut folder, true);
    assert_eq!(&rt; documents.text(&name), None);
    take_event(&rt, alloc, &mut documents, &mut folder, false);
    check_text(&rt, &documents, &name, "file");
}
