// A document from its open to its close.
use crate::given::{URI, chars_of, check_text, open_text};
use lsp_wire::Change;
use server_documents::Documents;
use std::alloc::Global;
use std::process::Abort;
use tool_list::{Chars, List};

fn change_to(rt: &impl Abort, alloc: Global, text: &str) -> List<Change> {
    let mut changes = List::new(alloc);
    let text = chars_of(rt, alloc, text);
    changes.push(Change { area: None, text }).expect(rt, "room");
    changes
}

fn change_text(rt: &impl Abort, alloc: Global, documents: &mut Documents, text: &str) {
    let changes = change_to(rt, alloc, text);
    assert_eq!(rt;
        documents.change(alloc, "FILE:///w/A.tla", &changes),
        Ok(())
    );
}

fn close_text(rt: &impl Abort, alloc: Global, documents: &mut Documents) {
    let closed = documents.close(alloc, URI).expect(rt, "room");
    assert_eq!(rt; closed.as_ref().map(|name| name.as_str()), Some("A"));
}

fn lose_text(rt: &impl Abort, documents: &mut Documents, name: &Chars) {
    assert!(rt; !documents.is_open(name));
    documents.set_file(name, None).expect(rt, "room");
    assert_eq!(rt; documents.text(name), None);
}

#[test]
fn keeps_a_document(rt: HostRuntime) {
    let alloc = rt.alloc();
    let name = chars_of(&rt, alloc, "A");
    let mut documents = Documents::new(alloc);
    open_text(&rt, alloc, &mut documents, "old");
    check_text(&rt, &documents, &name, "old");
    change_text(&rt, alloc, &mut documents, "new");
    check_text(&rt, &documents, &name, "new");
    assert_eq!(&rt; documents.limit(), None);
    close_text(&rt, alloc, &mut documents);
    lose_text(&rt, &mut documents, &name);
}
