//! Sessions, message by message.

use lsp_session::{SessionFault, Turn};

/// A message; how the session goes on; and the length and the content of the frame that is written, or
/// no content where none is.
pub type Row = (
    &'static str,
    Result<Turn, SessionFault>,
    usize,
    &'static str,
);

/// A session from its first message to its end.
pub static ORDER: [Row; 25] = [
    (
        "[]",
        Ok(Turn::On),
        79,
        r#"{"error":{"code":-32600,"message":"invalid request"},"id":null,"jsonrpc":"2.0"}"#,
    ),
    (
        r#"{"id":1,"method":"x"}"#,
        Ok(Turn::On),
        83,
        r#"{"error":{"code":-32002,"message":"server not initialized"},"id":1,"jsonrpc":"2.0"}"#,
    ),
    (
        r#"{"id":1,"method":"shutdown"}"#,
        Ok(Turn::On),
        83,
        r#"{"error":{"code":-32002,"message":"server not initialized"},"id":1,"jsonrpc":"2.0"}"#,
    ),
    (
        r#"{"method":"textDocument/didOpen","params":{"textDocument":{"uri":"u","text":"t"}}}"#,
        Ok(Turn::On),
        0,
        "",
    ),
    (
        r#"{"jsonrpc":"2.0","id":1,"method":"initialize","params":{"rootUri":null}}"#,
        Ok(Turn::On),
        217,
        r#"{"id":1,"jsonrpc":"2.0","result":{"capabilities":{"definitionProvider":true,"documentSymbolProvider":true,"referencesProvider":true,"textDocumentSync":{"change":2,"openClose":true}},"serverInfo":{"name":"sany_tool"}}}"#,
    ),
    (
        r#"{"id":"b","method":"initialize"}"#,
        Ok(Turn::On),
        78,
        r#"{"error":{"code":-32600,"message":"invalid request"},"id":"b","jsonrpc":"2.0"}"#,
    ),
    (
        r#"{"id":2,"method":"exit"}"#,
        Ok(Turn::On),
        77,
        r#"{"error":{"code":-32601,"message":"method not found"},"id":2,"jsonrpc":"2.0"}"#,
    ),
    (
        r#"{"id":2,"method":"textDocument/definition","params":{"textDocument":{"uri":"u"}}}"#,
        Ok(Turn::On),
        75,
        r#"{"error":{"code":-32602,"message":"invalid params"},"id":2,"jsonrpc":"2.0"}"#,
    ),
    (
        r#"{"id":2,"method":"textDocument/documentSymbol","params":{"textDocument":{"uri":"u"}}}"#,
        Ok(Turn::On),
        38,
        r#"{"id":2,"jsonrpc":"2.0","result":null}"#,
    ),
    (
        r#"{"method":"textDocument/didOpen","params":{"textDocument":{"uri":"u","text":"t"}}}"#,
        Ok(Turn::On),
        98,
        r#"{"jsonrpc":"2.0","method":"textDocument/publishDiagnostics","params":{"diagnostics":[],"uri":"u"}}"#,
    ),
    (r#"{"id":7,"result":null}"#, Ok(Turn::On), 0, ""),
    (
        r#"{"method":"$/cancelRequest","params":{"id":2}}"#,
        Ok(Turn::On),
        0,
        "",
    ),
    (
        r#"{"method":"textDocument/didOpen","params":{}}"#,
        Ok(Turn::On),
        0,
        "",
    ),
    (r#"{"method":"initialize"}"#, Ok(Turn::On), 0, ""),
    (r#"{"method":"x"}"#, Ok(Turn::On), 0, ""),
    (
        r#"{"id":1.5,"method":"shutdown"}"#,
        Ok(Turn::On),
        79,
        r#"{"error":{"code":-32600,"message":"invalid request"},"id":null,"jsonrpc":"2.0"}"#,
    ),
    (
        r#"{"id":5,"method":7}"#,
        Ok(Turn::On),
        76,
        r#"{"error":{"code":-32600,"message":"invalid request"},"id":5,"jsonrpc":"2.0"}"#,
    ),
    (
        "{",
        Ok(Turn::On),
        75,
        r#"{"error":{"code":-32700,"message":"parse error"},"id":null,"jsonrpc":"2.0"}"#,
    ),
    (
        r#"{"id":2,"method":"shutdown"}"#,
        Ok(Turn::On),
        38,
        r#"{"id":2,"jsonrpc":"2.0","result":null}"#,
    ),
    (
        r#"{"id":3,"method":"x"}"#,
        Ok(Turn::On),
        76,
        r#"{"error":{"code":-32600,"message":"invalid request"},"id":3,"jsonrpc":"2.0"}"#,
    ),
    (
        r#"{"id":3,"method":"textDocument/definition"}"#,
        Ok(Turn::On),
        76,
        r#"{"error":{"code":-32600,"message":"invalid request"},"id":3,"jsonrpc":"2.0"}"#,
    ),
    (
        "{",
        Ok(Turn::On),
        75,
        r#"{"error":{"code":-32700,"message":"parse error"},"id":null,"jsonrpc":"2.0"}"#,
    ),
    (
        r#"{"method":"textDocument/didOpen","params":{"textDocument":{"uri":"u","text":"t"}}}"#,
        Ok(Turn::On),
        0,
        "",
    ),
    (r#"{"method":"exit"}"#, Ok(Turn::Ended { status: 0 }), 0, ""),
    (r#"{"method":"exit"}"#, Err(SessionFault::Spent), 0, ""),
];

/// A folder that fails.
pub static FOLDER: [Row; 2] = [
    (
        r#"{"id":1,"method":"initialize","params":{"rootUri":"u"}}"#,
        Err(SessionFault::Folder),
        0,
        "",
    ),
    (
        r#"{"id":1,"method":"initialize"}"#,
        Err(SessionFault::Spent),
        0,
        "",
    ),
];

/// Changes that meet a limit.
pub static LIMIT: [Row; 3] = [
    (
        r#"{"id":1,"method":"initialize"}"#,
        Ok(Turn::On),
        217,
        r#"{"id":1,"jsonrpc":"2.0","result":{"capabilities":{"definitionProvider":true,"documentSymbolProvider":true,"referencesProvider":true,"textDocumentSync":{"change":2,"openClose":true}},"serverInfo":{"name":"sany_tool"}}}"#,
    ),
    (
        r#"{"method":"textDocument/didChange","params":{"textDocument":{"uri":"u"},"contentChanges":[{"text":"a"},{"text":"b"}]}}"#,
        Err(SessionFault::Limit { said: 33_554_433 }),
        0,
        "",
    ),
    (
        r#"{"id":1,"method":"initialize"}"#,
        Err(SessionFault::Spent),
        0,
        "",
    ),
];

/// An exit without `shutdown`.
pub static EXIT: [Row; 2] = [
    (
        r#"{"id":1,"method":"initialize"}"#,
        Ok(Turn::On),
        217,
        r#"{"id":1,"jsonrpc":"2.0","result":{"capabilities":{"definitionProvider":true,"documentSymbolProvider":true,"referencesProvider":true,"textDocumentSync":{"change":2,"openClose":true}},"serverInfo":{"name":"sany_tool"}}}"#,
    ),
    (r#"{"method":"exit"}"#, Ok(Turn::Ended { status: 1 }), 0, ""),
];

/// An exit that is no notification, and one before `initialize`.
pub static EARLY_EXIT: [Row; 3] = [
    (
        r#"{"id":null,"method":"exit"}"#,
        Ok(Turn::On),
        79,
        r#"{"error":{"code":-32600,"message":"invalid request"},"id":null,"jsonrpc":"2.0"}"#,
    ),
    (r#"{"method":"exit"}"#, Ok(Turn::Ended { status: 1 }), 0, ""),
    (r#"{"method":"exit"}"#, Err(SessionFault::Spent), 0, ""),
];

/// Documents that are opened and closed.
pub static DOCUMENTS: [Row; 5] = [
    (
        r#"{"id":1,"method":"initialize"}"#,
        Ok(Turn::On),
        217,
        r#"{"id":1,"jsonrpc":"2.0","result":{"capabilities":{"definitionProvider":true,"documentSymbolProvider":true,"referencesProvider":true,"textDocumentSync":{"change":2,"openClose":true}},"serverInfo":{"name":"sany_tool"}}}"#,
    ),
    (
        r#"{"method":"textDocument/didOpen","params":{"textDocument":{"uri":"u","text":"t"}}}"#,
        Ok(Turn::On),
        98,
        r#"{"jsonrpc":"2.0","method":"textDocument/publishDiagnostics","params":{"diagnostics":[],"uri":"u"}}"#,
    ),
    (
        r#"{"method":"textDocument/didOpen","params":{"textDocument":{"uri":"v","text":"w"}}}"#,
        Ok(Turn::On),
        98,
        r#"{"jsonrpc":"2.0","method":"textDocument/publishDiagnostics","params":{"diagnostics":[],"uri":"v"}}"#,
    ),
    (
        r#"{"method":"textDocument/didClose","params":{"textDocument":{"uri":"v"}}}"#,
        Ok(Turn::On),
        0,
        "",
    ),
    (
        r#"{"method":"textDocument/didOpen","params":{"textDocument":{"uri":"x"}}}"#,
        Ok(Turn::On),
        0,
        "",
    ),
];
