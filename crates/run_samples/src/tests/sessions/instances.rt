// What a change does by an instance that a module brings on to others.
use crate::tests::sessions::{CLEAN_D, EXIT, INITIALIZED, ROOT, SHUT, SHUTDOWN, Session};

/// The files of a folder, and a session over it.
pub type Placed = (&'static [(&'static str, &'static str)], Session);

/// An instance that comes to a module by one that it extends, and is LOCAL in another one.
pub const LOCAL: [(&str, &str); 6] = [
    ("P", "G == 1"),
    ("Q", "H == 1"),
    ("M", "I == INSTANCE P"),
    ("B", "LOCAL INSTANCE M\nF == 1"),
    ("C", "EXTENDS B"),
    ("D", "EXTENDS C, M\nU == I!G"),
];

pub const OPEN_D: &str =
    r#"{"method":"textDocument/didOpen","params":{"textDocument":{"uri":"file:///w/D.tla","text":"---- MODULE D ----\nEXTENDS C, M\nU == I!G\n====\n"}}}"#;

pub const OPEN_M: &str =
    r#"{"method":"textDocument/didOpen","params":{"textDocument":{"uri":"file:///w/M.tla","text":"---- MODULE M ----\nI == INSTANCE P\n====\n"}}}"#;

/// `M` has an instance of `Q` in place of one of `P`.
pub const OTHER_IN_M: &str =
    r#"{"method":"textDocument/didChange","params":{"textDocument":{"uri":"file:///w/M.tla"},"contentChanges":[{"range":{"start":{"line":1,"character":14},"end":{"line":1,"character":15}},"text":"Q"}]}}"#;

const CLEAN_M: &str =
    r#"{"jsonrpc":"2.0","method":"textDocument/publishDiagnostics","params":{"diagnostics":[],"uri":"file:///w/M.tla"}}"#;

const UNKNOWN_IN_D: &str =
    r#"{"jsonrpc":"2.0","method":"textDocument/publishDiagnostics","params":{"diagnostics":[{"code":"E401","message":"unknown symbol","range":{"end":{"character":8,"line":2},"start":{"character":7,"line":2}},"severity":1,"source":"sany"}],"uri":"file:///w/D.tla"}}"#;

/// An instance of a module that a nested module extends too, of which nothing is brought on.
pub const NESTED: [(&str, &str); 5] = [
    ("Q", "F == 1"),
    ("P", "---- MODULE Inner ----\nEXTENDS Q\n====\nG == 1"),
    ("N", "EXTENDS P"),
    ("M", "EXTENDS N\nI == INSTANCE Q"),
    ("O", "EXTENDS M\nU == I!H"),
];

pub const OPEN_O: &str =
    r#"{"method":"textDocument/didOpen","params":{"textDocument":{"uri":"file:///w/O.tla","text":"---- MODULE O ----\nEXTENDS M\nU == I!H\n====\n"}}}"#;

pub const OPEN_Q: &str =
    r#"{"method":"textDocument/didOpen","params":{"textDocument":{"uri":"file:///w/Q.tla","text":"---- MODULE Q ----\nF == 1\n====\n"}}}"#;

/// `Q` defines one name more.
pub const MORE_IN_Q: &str =
    r#"{"method":"textDocument/didChange","params":{"textDocument":{"uri":"file:///w/Q.tla"},"contentChanges":[{"range":{"start":{"line":2,"character":0},"end":{"line":2,"character":0}},"text":"H == 1\n"}]}}"#;

const UNKNOWN_IN_O: &str =
    r#"{"jsonrpc":"2.0","method":"textDocument/publishDiagnostics","params":{"diagnostics":[{"code":"E401","message":"unknown symbol","range":{"end":{"character":8,"line":2},"start":{"character":7,"line":2}},"severity":1,"source":"sany"}],"uri":"file:///w/O.tla"}}"#;

const CLEAN_O: &str =
    r#"{"jsonrpc":"2.0","method":"textDocument/publishDiagnostics","params":{"diagnostics":[],"uri":"file:///w/O.tla"}}"#;

const CLEAN_Q: &str =
    r#"{"jsonrpc":"2.0","method":"textDocument/publishDiagnostics","params":{"diagnostics":[],"uri":"file:///w/Q.tla"}}"#;

/// An instance that a module brings on, and another one that its nested module alone extends.
pub const BROUGHT: [(&str, &str); 6] = [
    ("P", "G == 1"),
    ("Q", "H == 1"),
    ("Y", "J == INSTANCE P"),
    ("X", "EXTENDS Y\nK == INSTANCE Q"),
    ("M", "---- MODULE Inner ----\nEXTENDS X\n====\nINSTANCE Y"),
    ("Z", "EXTENDS M\nU == J!G"),
];

pub const OPEN_Z: &str =
    r#"{"method":"textDocument/didOpen","params":{"textDocument":{"uri":"file:///w/Z.tla","text":"---- MODULE Z ----\nEXTENDS M\nU == J!G\n====\n"}}}"#;

pub const OPEN_OTHER_Q: &str =
    r#"{"method":"textDocument/didOpen","params":{"textDocument":{"uri":"file:///w/Q.tla","text":"---- MODULE Q ----\nH == 1\n====\n"}}}"#;

/// `Q` defines one name more.
pub const MORE_IN_OTHER_Q: &str =
    r#"{"method":"textDocument/didChange","params":{"textDocument":{"uri":"file:///w/Q.tla"},"contentChanges":[{"range":{"start":{"line":2,"character":0},"end":{"line":2,"character":0}},"text":"F == 1\n"}]}}"#;

/// An instance of a nested module, which another module has by the one round it.
pub const INNER: [(&str, &str); 2] = [
    (
        "M",
        "---- MODULE Inner ----\nF == 1\n====\nI == INSTANCE Inner",
    ),
    ("Z", "EXTENDS M\nU == I!F"),
];

pub const OPEN_OVER_INNER: &str =
    r#"{"method":"textDocument/didOpen","params":{"textDocument":{"uri":"file:///w/Z.tla","text":"---- MODULE Z ----\nEXTENDS M\nU == I!F\n====\n"}}}"#;

pub const OPEN_ROUND_INNER: &str =
    r#"{"method":"textDocument/didOpen","params":{"textDocument":{"uri":"file:///w/M.tla","text":"---- MODULE M ----\n---- MODULE Inner ----\nF == 1\n====\nI == INSTANCE Inner\n====\n"}}}"#;

/// The nested module has a comment, and then `F` there has another level.
pub const COMMENT_IN_INNER: &str =
    r#"{"method":"textDocument/didChange","params":{"textDocument":{"uri":"file:///w/M.tla"},"contentChanges":[{"range":{"start":{"line":2,"character":6},"end":{"line":2,"character":6}},"text":" \\* one"}]}}"#;

pub const SET_IN_INNER: &str =
    r#"{"method":"textDocument/didChange","params":{"textDocument":{"uri":"file:///w/M.tla"},"contentChanges":[{"range":{"start":{"line":2,"character":5},"end":{"line":2,"character":6}},"text":"{1}"}]}}"#;

/// Sessions, each over a folder of its own.
pub static INSTANCES: [Placed; 2] = [
    // The instance becomes that of a module without the name.
    (
        &LOCAL,
        (
            &[ROOT, OPEN_D, OPEN_M, OTHER_IN_M, SHUTDOWN, EXIT],
            &[INITIALIZED, CLEAN_D, CLEAN_M, UNKNOWN_IN_D, CLEAN_M, SHUT],
            0,
        ),
    ),
    // The module of the instance gains the name.
    (
        &NESTED,
        (
            &[ROOT, OPEN_O, OPEN_Q, MORE_IN_Q, SHUTDOWN, EXIT],
            &[INITIALIZED, UNKNOWN_IN_O, CLEAN_Q, CLEAN_O, CLEAN_Q, SHUT],
            0,
        ),
    ),
];
