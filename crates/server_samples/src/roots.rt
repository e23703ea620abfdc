// Roots of each kind, and the modules behind them.
use server_uris::{client_root, document_root, module_of, uri_of};

// A client's URI, with its root's text and path where it is one.
static ROOTS: [(&str, Option<(&str, Option<&str>)>); 5] = [
    ("file:///w/", Some(("file:///w", Some("/w")))),
    ("FILE:///a%20b/", Some(("file:///a%20b", Some("/a b")))),
    ("untitled:x", Some(("untitled:x", None))),
    ("file:///w/?q", Some(("file:///w/?q", Some("/w")))),
    ("no URL", None),
];

#[test]
fn finds_roots(rt: HostRuntime) {
    for (uri, expected) in &ROOTS {
        let root = client_root(rt.alloc(), *uri).expect(&rt, *uri);
        let found = root.as_ref().map(|root| (root.text(), root.path()));
        assert_eq!(&rt; found, *expected, "{uri}");
    }
}

// The URI of the document that makes the root, another document's, and the module that this is.
static MEMBERS: [(&str, &str, Option<&str>); 4] = [
    ("file:///w/A.tla", "FILE:///w/B.tla", Some("B")),
    ("file:///w/A.tla", "file:///w/%42.tla", None),
    ("file:///w/A.tla", "file:///v/B.tla", None),
    ("untitled:A.tla", "file:///w/B.tla", None),
];

#[test]
fn finds_members(rt: HostRuntime) {
    for (first, uri, expected) in &MEMBERS {
        let root = document_root(rt.alloc(), *first).expect(&rt, *first);
        let name = module_of(rt.alloc(), root.as_ref(), *uri).expect(&rt, *uri);
        assert_eq!(&rt; name.as_ref().map(|name| name.as_str()), *expected, "{uri}");
    }
}

#[test]
fn spells_uris(rt: HostRuntime) {
    let uri = uri_of(rt.alloc(), "file:///w", "A").expect(&rt, "room");
    assert_eq!(&rt; uri.as_str(), "file:///w/A.tla");
}
