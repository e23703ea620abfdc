// Roots of every kind.
use crate::tests::sessions::{
    CLEAN_C, EXIT, INITIALIZED, NO_MODULE_IN_C, NO_ROOT, OPEN_C, SHUT, SHUTDOWN, Session,
};

/// Sessions over the folder.
pub static ROOTS: [Session; 8] = [
    // The first document's folder.
    (
        &[
            NO_ROOT,
            r#"{"method":"textDocument/didOpen","params":{"textDocument":{"uri":"file:///v/D.tla","text":"---- MODULE D ----\nF == 1\n====\n"}}}"#,
            r#"{"method":"textDocument/didOpen","params":{"textDocument":{"uri":"file:///v/E.tla","text":"---- MODULE E ----\nEXTENDS D\nG == F\n====\n"}}}"#,
            r#"{"id":2,"method":"textDocument/definition","params":{"textDocument":{"uri":"file:///v/E.tla"},"position":{"line":2,"character":5}}}"#,
            SHUTDOWN,
            EXIT,
        ],
        &[
            INITIALIZED,
            r#"{"jsonrpc":"2.0","method":"textDocument/publishDiagnostics","params":{"diagnostics":[],"uri":"file:///v/D.tla"}}"#,
            r#"{"jsonrpc":"2.0","method":"textDocument/publishDiagnostics","params":{"diagnostics":[],"uri":"file:///v/E.tla"}}"#,
            r#"{"id":2,"jsonrpc":"2.0","result":{"range":{"end":{"character":1,"line":1},"start":{"character":0,"line":1}},"uri":"file:///v/D.tla"}}"#,
            SHUT,
        ],
        0,
    ),
    // A document without a folder makes no root.
    (
        &[
            NO_ROOT,
            r#"{"method":"textDocument/didOpen","params":{"textDocument":{"uri":"untitled:A","text":"---- MODULE A ----\n====\n"}}}"#,
            r#"{"method":"textDocument/didOpen","params":{"textDocument":{"uri":"file:///v/D.tla","text":"---- MODULE D ----\nF == 1\n====\n"}}}"#,
            SHUTDOWN,
            EXIT,
        ],
        &[
            INITIALIZED,
            r#"{"jsonrpc":"2.0","method":"textDocument/publishDiagnostics","params":{"diagnostics":[],"uri":"file:///v/D.tla"}}"#,
            SHUT,
        ],
        0,
    ),
    // A document that is no member makes a root.
    (
        &[
            NO_ROOT,
            r#"{"method":"textDocument/didOpen","params":{"textDocument":{"uri":"file:///v/D.txt","text":""}}}"#,
            r#"{"method":"textDocument/didOpen","params":{"textDocument":{"uri":"file:///u/D.tla","text":"---- MODULE D ----\n====\n"}}}"#,
            r#"{"method":"textDocument/didOpen","params":{"textDocument":{"uri":"file:///v/D.tla","text":"---- MODULE D ----\n====\n"}}}"#,
            SHUTDOWN,
            EXIT,
        ],
        &[
            INITIALIZED,
            r#"{"jsonrpc":"2.0","method":"textDocument/publishDiagnostics","params":{"diagnostics":[],"uri":"file:///v/D.tla"}}"#,
            SHUT,
        ],
        0,
    ),
    // The first of the workspace's folders.
    (
        &[
            r#"{"id":1,"method":"initialize","params":{"rootUri":"file:///v","workspaceFolders":[{"uri":"file:///w","name":"w"},{"uri":"file:///v","name":"v"}]}}"#,
            OPEN_C,
            SHUTDOWN,
            EXIT,
        ],
        &[INITIALIZED, CLEAN_C, SHUT],
        0,
    ),
    // No folders of the workspace.
    (
        &[
            r#"{"id":1,"method":"initialize","params":{"rootUri":"file:///w","workspaceFolders":[]}}"#,
            OPEN_C,
            SHUTDOWN,
            EXIT,
        ],
        &[INITIALIZED, CLEAN_C, SHUT],
        0,
    ),
    // A root that is spelled by a letter's number.
    (
        &[
            r#"{"id":1,"method":"initialize","params":{"rootUri":"file:///%77"}}"#,
            r#"{"method":"textDocument/didOpen","params":{"textDocument":{"uri":"file:///%77/C.tla","text":"---- MODULE C ----\nEXTENDS B\nG == F\n====\n"}}}"#,
            r#"{"id":2,"method":"textDocument/definition","params":{"textDocument":{"uri":"file:///%77/C.tla"},"position":{"line":2,"character":5}}}"#,
            SHUTDOWN,
            EXIT,
        ],
        &[
            INITIALIZED,
            r#"{"jsonrpc":"2.0","method":"textDocument/publishDiagnostics","params":{"diagnostics":[],"uri":"file:///%77/C.tla"}}"#,
            r#"{"id":2,"jsonrpc":"2.0","result":{"range":{"end":{"character":1,"line":2},"start":{"character":0,"line":2}},"uri":"file:///%77/B.tla"}}"#,
            SHUT,
        ],
        0,
    ),
    // A root of another scheme is not read.
    (
        &[
            r#"{"id":1,"method":"initialize","params":{"rootUri":"http://h/w"}}"#,
            r#"{"method":"textDocument/didOpen","params":{"textDocument":{"uri":"http://h/w/C.tla","text":"---- MODULE C ----\nEXTENDS B\nG == F\n====\n"}}}"#,
            SHUTDOWN,
            EXIT,
        ],
        &[
            INITIALIZED,
            r#"{"jsonrpc":"2.0","method":"textDocument/publishDiagnostics","params":{"diagnostics":[{"code":"E301","message":"unknown module","range":{"end":{"character":9,"line":1},"start":{"character":8,"line":1}},"severity":1,"source":"sany"}],"uri":"http://h/w/C.tla"}}"#,
            SHUT,
        ],
        0,
    ),
    // A root that is no URL.
    (
        &[
            r#"{"id":1,"method":"initialize","params":{"rootUri":"w"}}"#,
            OPEN_C,
            SHUTDOWN,
            EXIT,
        ],
        &[INITIALIZED, NO_MODULE_IN_C, SHUT],
        0,
    ),
];
