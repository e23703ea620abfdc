// Messages in each phase, and those that are passed over.
use crate::tests::sessions::{EXIT, INITIALIZED, ROOT, SHUT, SHUTDOWN, Session};

/// Sessions over the folder.
pub static PHASES: [Session; 8] = [
    // The input ends behind a shutdown.
    (&[ROOT, SHUTDOWN], &[INITIALIZED, SHUT], 0),
    // No message.
    (&[], &[], 1),
    // An exit first.
    (&[EXIT], &[], 1),
    // Messages that are passed over.
    (
        &[
            ROOT,
            r#"{"method":"initialized","params":{}}"#,
            r#"{"method":"$/cancelRequest","params":{"id":1}}"#,
            r#"{"id":5,"result":null}"#,
            r#"{"method":"textDocument/didSave","params":{}}"#,
            SHUTDOWN,
            EXIT,
        ],
        &[INITIALIZED, SHUT],
        0,
    ),
    // Changes and closes of what is not open.
    (
        &[
            ROOT,
            r#"{"method":"textDocument/didChange","params":{"textDocument":{"uri":"file:///w/C.tla"},"contentChanges":[{"range":{"start":{"line":2,"character":5},"end":{"line":2,"character":6}},"text":"H"}]}}"#,
            r#"{"method":"textDocument/didClose","params":{"textDocument":{"uri":"file:///w/C.tla"}}}"#,
            r#"{"method":"textDocument/didClose","params":{"textDocument":{"uri":"x"}}}"#,
            SHUTDOWN,
            EXIT,
        ],
        &[INITIALIZED, SHUT],
        0,
    ),
    // An id that is a text.
    (
        &[ROOT, r#"{"id":"a","method":"x"}"#, SHUTDOWN, EXIT],
        &[
            INITIALIZED,
            r#"{"error":{"code":-32601,"message":"method not found"},"id":"a","jsonrpc":"2.0"}"#,
            SHUT,
        ],
        0,
    ),
    // A list of messages.
    (
        &[ROOT, r#"[]"#, SHUTDOWN, EXIT],
        &[
            INITIALIZED,
            r#"{"error":{"code":-32600,"message":"invalid request"},"id":null,"jsonrpc":"2.0"}"#,
            SHUT,
        ],
        0,
    ),
    // References without a context.
    (
        &[
            ROOT,
            r#"{"id":2,"method":"textDocument/references","params":{"textDocument":{"uri":"file:///w/C.tla"},"position":{"line":2,"character":5}}}"#,
            SHUTDOWN,
            EXIT,
        ],
        &[
            INITIALIZED,
            r#"{"error":{"code":-32602,"message":"invalid params"},"id":2,"jsonrpc":"2.0"}"#,
            SHUT,
        ],
        0,
    ),
];
