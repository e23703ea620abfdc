// How clients spell the URIs of documents.
use crate::tests::sessions::{CLEAN_C, EXIT, INITIALIZED, OPEN_C, ROOT, SHUT, SHUTDOWN, Session};

/// Sessions over the folder.
pub static SPELLINGS: [Session; 7] = [
    // No member has a letter that is written by its number.
    (
        &[
            ROOT,
            r#"{"method":"textDocument/didOpen","params":{"textDocument":{"uri":"file:///w/%43.tla","text":"---- MODULE C ----\nEXTENDS B\nG == F\n====\n"}}}"#,
            r#"{"method":"textDocument/didChange","params":{"textDocument":{"uri":"file:///w/C.tla"},"contentChanges":[{"range":{"start":{"line":2,"character":5},"end":{"line":2,"character":6}},"text":"H"}]}}"#,
            SHUTDOWN,
            EXIT,
        ],
        &[INITIALIZED, SHUT],
        0,
    ),
    // A scheme in capitals.
    (
        &[
            ROOT,
            r#"{"method":"textDocument/didOpen","params":{"textDocument":{"uri":"FILE:///w/C.tla","text":"---- MODULE C ----\nEXTENDS B\nG == F\n====\n"}}}"#,
            r#"{"method":"textDocument/didChange","params":{"textDocument":{"uri":"file:///w/C.tla"},"contentChanges":[{"range":{"start":{"line":2,"character":5},"end":{"line":2,"character":6}},"text":"H"}]}}"#,
            SHUTDOWN,
            EXIT,
        ],
        &[
            INITIALIZED,
            r#"{"jsonrpc":"2.0","method":"textDocument/publishDiagnostics","params":{"diagnostics":[],"uri":"FILE:///w/C.tla"}}"#,
            r#"{"jsonrpc":"2.0","method":"textDocument/publishDiagnostics","params":{"diagnostics":[{"code":"E401","message":"unknown symbol","range":{"end":{"character":6,"line":2},"start":{"character":5,"line":2}},"severity":1,"source":"sany"}],"uri":"FILE:///w/C.tla"}}"#,
            SHUT,
        ],
        0,
    ),
    // A path with a step back.
    (
        &[
            ROOT,
            r#"{"method":"textDocument/didOpen","params":{"textDocument":{"uri":"file:///w/x/../C.tla","text":"---- MODULE C ----\nEXTENDS B\nG == F\n====\n"}}}"#,
            SHUTDOWN,
            EXIT,
        ],
        &[
            INITIALIZED,
            r#"{"jsonrpc":"2.0","method":"textDocument/publishDiagnostics","params":{"diagnostics":[],"uri":"file:///w/x/../C.tla"}}"#,
            SHUT,
        ],
        0,
    ),
    // The host of this machine.
    (
        &[
            ROOT,
            r#"{"method":"textDocument/didOpen","params":{"textDocument":{"uri":"file://localhost/w/C.tla","text":"---- MODULE C ----\nEXTENDS B\nG == F\n====\n"}}}"#,
            SHUTDOWN,
            EXIT,
        ],
        &[
            INITIALIZED,
            r#"{"jsonrpc":"2.0","method":"textDocument/publishDiagnostics","params":{"diagnostics":[],"uri":"file://localhost/w/C.tla"}}"#,
            SHUT,
        ],
        0,
    ),
    // The last spelling counts.
    (
        &[
            ROOT,
            OPEN_C,
            r#"{"method":"textDocument/didOpen","params":{"textDocument":{"uri":"FILE:///w/C.tla","text":"---- MODULE C ----\nEXTENDS B\nG == H\n====\n"}}}"#,
            SHUTDOWN,
            EXIT,
        ],
        &[
            INITIALIZED,
            CLEAN_C,
            r#"{"jsonrpc":"2.0","method":"textDocument/publishDiagnostics","params":{"diagnostics":[{"code":"E401","message":"unknown symbol","range":{"end":{"character":6,"line":2},"start":{"character":5,"line":2}},"severity":1,"source":"sany"}],"uri":"FILE:///w/C.tla"}}"#,
            SHUT,
        ],
        0,
    ),
    // No members: another ending, another folder, a word.
    (
        &[
            ROOT,
            r#"{"method":"textDocument/didOpen","params":{"textDocument":{"uri":"file:///w/C.txt","text":"---- MODULE C ----\nEXTENDS B\nG == F\n====\n"}}}"#,
            r#"{"method":"textDocument/didOpen","params":{"textDocument":{"uri":"file:///v/C.tla","text":"---- MODULE C ----\nEXTENDS B\nG == F\n====\n"}}}"#,
            r#"{"method":"textDocument/didOpen","params":{"textDocument":{"uri":"file:///w/MODULE.tla","text":"---- MODULE C ----\nEXTENDS B\nG == F\n====\n"}}}"#,
            r#"{"method":"textDocument/didOpen","params":{"textDocument":{"uri":"file:///w/x/C.tla","text":"---- MODULE C ----\nEXTENDS B\nG == F\n====\n"}}}"#,
            SHUTDOWN,
            EXIT,
        ],
        &[INITIALIZED, SHUT],
        0,
    ),
    // An identifier with digits first.
    (
        &[
            ROOT,
            r#"{"method":"textDocument/didOpen","params":{"textDocument":{"uri":"file:///w/1a.tla","text":"---- MODULE 1a ----\nF == 1\n====\n"}}}"#,
            SHUTDOWN,
            EXIT,
        ],
        &[
            INITIALIZED,
            r#"{"jsonrpc":"2.0","method":"textDocument/publishDiagnostics","params":{"diagnostics":[],"uri":"file:///w/1a.tla"}}"#,
            SHUT,
        ],
        0,
    ),
];
