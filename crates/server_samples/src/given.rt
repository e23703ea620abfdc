// What tests on documents share.
use server_documents::Documents;
use std::alloc::Global;
use std::process::Abort;
use tool_list::Chars;

pub const URI: &str = "file:///w/A.tla";

pub fn chars_of(rt: &impl Abort, alloc: Global, text: &str) -> Chars {
    Chars::from_str(alloc, text).expect(rt, text)
}

pub fn check_text(rt: &impl Abort, documents: &Documents, name: &Chars, expected: &str) {
    assert_eq!(rt;
        documents.text(name),
        Some(expected.as_bytes()),
        "{expected}"
    );
}

pub fn open_text(rt: &impl Abort, alloc: Global, documents: &mut Documents, text: &str) {
    let text = chars_of(rt, alloc, text);
    assert!(rt; text.as_str().len() < 1000);
    documents.open(alloc, URI, &text).expect(rt, "room");
}
