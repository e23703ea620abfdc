// Files that come, go and change, and documents beside them.
use crate::tests::sessions::{
    ASK_F, AT_F, CLEAN_B, CLEAN_C, CLEAN_D, EXIT, INITIALIZED, NO_MODULE_IN_C, OPEN_B, OPEN_C,
    ROOT, SHUT, SHUTDOWN, Session, UNKNOWN_IN_C,
};

/// Sessions over the folder.
pub static FILES: [Session; 6] = [
    // The file of an open document does not count.
    (
        &[
            ROOT,
            r#"{"method":"textDocument/didOpen","params":{"textDocument":{"uri":"file:///w/B.tla","text":"---- MODULE B ----\n====\n"}}}"#,
            OPEN_C,
            r#"{"method":"workspace/didChangeWatchedFiles","params":{"changes":[{"uri":"file:///w/B.tla","type":2}]}}"#,
            r#"{"method":"textDocument/didClose","params":{"textDocument":{"uri":"file:///w/B.tla"}}}"#,
            SHUTDOWN,
            EXIT,
        ],
        &[INITIALIZED, CLEAN_B, UNKNOWN_IN_C, CLEAN_B, CLEAN_C, SHUT],
        0,
    ),
    // A file that is gone and there again.
    (
        &[
            ROOT,
            OPEN_C,
            r#"{"method":"workspace/didChangeWatchedFiles","params":{"changes":[{"uri":"file:///w/B.tla","type":3},{"uri":"file:///w/B.tla","type":1}]}}"#,
            SHUTDOWN,
            EXIT,
        ],
        &[INITIALIZED, CLEAN_C, SHUT],
        0,
    ),
    // A file that goes, and comes with the next message.
    (
        &[
            ROOT,
            OPEN_C,
            r#"{"method":"workspace/didChangeWatchedFiles","params":{"changes":[{"uri":"file:///w/B.tla","type":3}]}}"#,
            r#"{"method":"workspace/didChangeWatchedFiles","params":{"changes":[{"uri":"file:///w/B.tla","type":1}]}}"#,
            SHUTDOWN,
            EXIT,
        ],
        &[INITIALIZED, CLEAN_C, NO_MODULE_IN_C, CLEAN_C, SHUT],
        0,
    ),
    // A file that is not there.
    (
        &[
            ROOT,
            OPEN_C,
            r#"{"method":"workspace/didChangeWatchedFiles","params":{"changes":[{"uri":"file:///w/D.tla","type":1},{"uri":"x","type":1}]}}"#,
            r#"{"id":2,"method":"textDocument/documentSymbol","params":{"textDocument":{"uri":"file:///w/D.tla"}}}"#,
            SHUTDOWN,
            EXIT,
        ],
        &[
            INITIALIZED,
            CLEAN_C,
            r#"{"id":2,"jsonrpc":"2.0","result":[]}"#,
            SHUT,
        ],
        0,
    ),
    // A deleted file whose document is open stays.
    (
        &[
            ROOT,
            OPEN_B,
            OPEN_C,
            r#"{"method":"workspace/didChangeWatchedFiles","params":{"changes":[{"uri":"file:///w/B.tla","type":3}]}}"#,
            ASK_F,
            SHUTDOWN,
            EXIT,
        ],
        &[INITIALIZED, CLEAN_B, CLEAN_C, AT_F, SHUT],
        0,
    ),
    // A closed document of no file.
    (
        &[
            ROOT,
            r#"{"method":"textDocument/didOpen","params":{"textDocument":{"uri":"file:///w/D.tla","text":"---- MODULE D ----\n====\n"}}}"#,
            r#"{"method":"textDocument/didOpen","params":{"textDocument":{"uri":"file:///w/E.tla","text":"---- MODULE E ----\nEXTENDS D\n====\n"}}}"#,
            r#"{"method":"textDocument/didClose","params":{"textDocument":{"uri":"file:///w/D.tla"}}}"#,
            SHUTDOWN,
            EXIT,
        ],
        &[
            INITIALIZED,
            CLEAN_D,
            r#"{"jsonrpc":"2.0","method":"textDocument/publishDiagnostics","params":{"diagnostics":[],"uri":"file:///w/E.tla"}}"#,
            CLEAN_D,
            r#"{"jsonrpc":"2.0","method":"textDocument/publishDiagnostics","params":{"diagnostics":[{"code":"E301","message":"unknown module","range":{"end":{"character":9,"line":1},"start":{"character":8,"line":1}},"severity":1,"source":"sany"}],"uri":"file:///w/E.tla"}}"#,
            SHUT,
        ],
        0,
    ),
];
