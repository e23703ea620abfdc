// Sessions of a client, message by message.
pub mod changes;
pub mod counts;
pub mod edits;
pub mod files;
pub mod instances;
pub mod large;
pub mod names;
pub mod outlines;
pub mod phases;
pub mod roots;
pub mod spellings;

/// The contents of the input's frames; those of the output's; and the status.
pub type Session = (&'static [&'static str], &'static [&'static str], u8);

pub const NO_ROOT: &str =
    r#"{"jsonrpc":"2.0","id":1,"method":"initialize","params":{"rootUri":null}}"#;

pub const ROOT: &str =
    r#"{"jsonrpc":"2.0","id":1,"method":"initialize","params":{"rootUri":"file:///w/"}}"#;

pub const INITIALIZED: &str =
    r#"{"id":1,"jsonrpc":"2.0","result":{"capabilities":{"definitionProvider":true,"documentSymbolProvider":true,"referencesProvider":true,"textDocumentSync":{"change":2,"openClose":true}},"serverInfo":{"name":"sany_tool"}}}"#;

const OPEN_A: &str =
    r#"{"method":"textDocument/didOpen","params":{"textDocument":{"uri":"file:///w/A.tla","text":"---- MODULE A ----\nVARIABLE x\nU == <<\"😀\", x>>\n====\n"}}}"#;

const PRIME_X: &str =
    r#"{"method":"textDocument/didChange","params":{"textDocument":{"uri":"file:///w/A.tla"},"contentChanges":[{"range":{"start":{"line":2,"character":13},"end":{"line":2,"character":14}},"text":"x'"}]}}"#;

pub const CLEAN_A: &str =
    r#"{"jsonrpc":"2.0","method":"textDocument/publishDiagnostics","params":{"diagnostics":[],"uri":"file:///w/A.tla"}}"#;

pub const OPEN_B: &str =
    r#"{"method":"textDocument/didOpen","params":{"textDocument":{"uri":"file:///w/B.tla","text":"---- MODULE B ----\nCONSTANT N\nF == N\n====\n"}}}"#;

pub const OPEN_C: &str =
    r#"{"method":"textDocument/didOpen","params":{"textDocument":{"uri":"file:///w/C.tla","text":"---- MODULE C ----\nEXTENDS B\nG == F\n====\n"}}}"#;

pub const CLEAN_B: &str =
    r#"{"jsonrpc":"2.0","method":"textDocument/publishDiagnostics","params":{"diagnostics":[],"uri":"file:///w/B.tla"}}"#;

pub const CLEAN_C: &str =
    r#"{"jsonrpc":"2.0","method":"textDocument/publishDiagnostics","params":{"diagnostics":[],"uri":"file:///w/C.tla"}}"#;

pub const CLEAN_D: &str =
    r#"{"jsonrpc":"2.0","method":"textDocument/publishDiagnostics","params":{"diagnostics":[],"uri":"file:///w/D.tla"}}"#;

pub const UNKNOWN_IN_C: &str =
    r#"{"jsonrpc":"2.0","method":"textDocument/publishDiagnostics","params":{"diagnostics":[{"code":"E401","message":"unknown symbol","range":{"end":{"character":6,"line":2},"start":{"character":5,"line":2}},"severity":1,"source":"sany"}],"uri":"file:///w/C.tla"}}"#;

pub const NO_MODULE_IN_C: &str =
    r#"{"jsonrpc":"2.0","method":"textDocument/publishDiagnostics","params":{"diagnostics":[{"code":"E301","message":"unknown module","range":{"end":{"character":9,"line":1},"start":{"character":8,"line":1}},"severity":1,"source":"sany"}],"uri":"file:///w/C.tla"}}"#;

pub const ASK_F: &str =
    r#"{"id":2,"method":"textDocument/definition","params":{"textDocument":{"uri":"file:///w/C.tla"},"position":{"line":2,"character":5}}}"#;

pub const AT_F: &str =
    r#"{"id":2,"jsonrpc":"2.0","result":{"range":{"end":{"character":1,"line":2},"start":{"character":0,"line":2}},"uri":"file:///w/B.tla"}}"#;

pub const SHUTDOWN: &str = r#"{"id":9,"method":"shutdown"}"#;

pub const SHUT: &str = r#"{"id":9,"jsonrpc":"2.0","result":null}"#;

pub const EXIT: &str = r#"{"method":"exit"}"#;

/// The files of the folder `/w`.
pub const FILES: [(&str, &str); 2] = [("B", "CONSTANT N\nF == N"), ("C", "EXTENDS B\nG == F")];

/// Sessions over the folder.
pub static SESSIONS: [Session; 7] = [
    // Units of UTF-16 before the place, and the end without a shutdown.
    (
        &[
            NO_ROOT,
            OPEN_A,
            PRIME_X,
            r#"{"id":2,"method":"textDocument/definition","params":{"textDocument":{"uri":"file:///w/A.tla"},"position":{"line":2,"character":13}}}"#,
        ],
        &[
            INITIALIZED,
            CLEAN_A,
            CLEAN_A,
            r#"{"id":2,"jsonrpc":"2.0","result":{"range":{"end":{"character":10,"line":1},"start":{"character":9,"line":1}},"uri":"file:///w/A.tla"}}"#,
        ],
        1,
    ),
    (
        &[
            NO_ROOT,
            OPEN_A,
            PRIME_X,
            r#"{"id":3,"method":"textDocument/references","params":{"textDocument":{"uri":"FILE:///w/A.tla"},"position":{"line":1,"character":9},"context":{"includeDeclaration":true}}}"#,
            r#"{"id":4,"method":"textDocument/documentSymbol","params":{"textDocument":{"uri":"file:///w/A.tla"}}}"#,
            SHUTDOWN,
            EXIT,
        ],
        &[
            INITIALIZED,
            CLEAN_A,
            CLEAN_A,
            r#"{"id":3,"jsonrpc":"2.0","result":[{"range":{"end":{"character":10,"line":1},"start":{"character":9,"line":1}},"uri":"file:///w/A.tla"},{"range":{"end":{"character":14,"line":2},"start":{"character":13,"line":2}},"uri":"file:///w/A.tla"}]}"#,
            r#"{"id":4,"jsonrpc":"2.0","result":[{"kind":13,"name":"x","range":{"end":{"character":10,"line":1},"start":{"character":9,"line":1}},"selectionRange":{"end":{"character":10,"line":1},"start":{"character":9,"line":1}}},{"kind":12,"name":"U","range":{"end":{"character":17,"line":2},"start":{"character":0,"line":2}},"selectionRange":{"end":{"character":1,"line":2},"start":{"character":0,"line":2}}}]}"#,
            SHUT,
        ],
        0,
    ),
    // A fault, and a range whose start is behind its end.
    (
        &[
            NO_ROOT,
            r#"{"method":"textDocument/didOpen","params":{"textDocument":{"uri":"file:///w/A.tla","text":"---- MODULE A ----\nU == x\n====\n"}}}"#,
            r#"{"method":"textDocument/didChange","params":{"textDocument":{"uri":"file:///w/A.tla"},"contentChanges":[{"range":{"start":{"line":1,"character":6},"end":{"line":1,"character":5}},"text":"1"}]}}"#,
            SHUTDOWN,
            EXIT,
        ],
        &[
            INITIALIZED,
            r#"{"jsonrpc":"2.0","method":"textDocument/publishDiagnostics","params":{"diagnostics":[{"code":"E401","message":"unknown symbol","range":{"end":{"character":6,"line":1},"start":{"character":5,"line":1}},"severity":1,"source":"sany"}],"uri":"file:///w/A.tla"}}"#,
            SHUT,
        ],
        0,
    ),
    // An edit of one module brings up a fault of another; a close takes the file's text again.
    (
        &[
            ROOT,
            OPEN_C,
            r#"{"method":"textDocument/didOpen","params":{"textDocument":{"uri":"file:///w/B.tla","text":"---- MODULE B ----\n====\n"}}}"#,
            r#"{"method":"textDocument/didClose","params":{"textDocument":{"uri":"file:///w/B.tla"}}}"#,
            ASK_F,
            SHUTDOWN,
            EXIT,
        ],
        &[
            INITIALIZED,
            CLEAN_C,
            CLEAN_B,
            UNKNOWN_IN_C,
            CLEAN_B,
            CLEAN_C,
            AT_F,
            SHUT,
        ],
        0,
    ),
    // A file is deleted and told; no member is told of; a name of a built-in module stands nowhere.
    (
        &[
            ROOT,
            r#"{"method":"textDocument/didOpen","params":{"textDocument":{"uri":"file:///w/C.tla","text":"---- MODULE C ----\nEXTENDS B, Naturals\nG == F + 1\n====\n"}}}"#,
            r#"{"method":"workspace/didChangeWatchedFiles","params":{"changes":[{"uri":"file:///w/x.txt","type":3},{"uri":"file:///w/B.tla","type":3}]}}"#,
            r#"{"method":"workspace/didChangeWatchedFiles","params":{"changes":[{"uri":"file:///w/B.tla","type":1}]}}"#,
            r#"{"id":2,"method":"textDocument/definition","params":{"textDocument":{"uri":"file:///w/C.tla"},"position":{"line":2,"character":7}}}"#,
            SHUTDOWN,
            EXIT,
        ],
        &[
            INITIALIZED,
            CLEAN_C,
            NO_MODULE_IN_C,
            CLEAN_C,
            r#"{"id":2,"jsonrpc":"2.0","result":null}"#,
            SHUT,
        ],
        0,
    ),
    // Names of a nested module, and a symbol that is LOCAL.
    (
        &[
            NO_ROOT,
            r#"{"method":"textDocument/didOpen","params":{"textDocument":{"uri":"file:///w/A.tla","text":"---- MODULE A ----\n---- MODULE B ----\nVARIABLE x\n====\nLOCAL a + b == a\n====\n"}}}"#,
            r#"{"id":2,"method":"textDocument/documentSymbol","params":{"textDocument":{"uri":"file:///w/A.tla"}}}"#,
            EXIT,
        ],
        &[
            INITIALIZED,
            CLEAN_A,
            r#"{"id":2,"jsonrpc":"2.0","result":[{"children":[{"kind":13,"name":"x","range":{"end":{"character":10,"line":2},"start":{"character":9,"line":2}},"selectionRange":{"end":{"character":10,"line":2},"start":{"character":9,"line":2}}}],"kind":2,"name":"B","range":{"end":{"character":4,"line":3},"start":{"character":0,"line":1}},"selectionRange":{"end":{"character":13,"line":1},"start":{"character":12,"line":1}}},{"kind":25,"name":"+","range":{"end":{"character":16,"line":4},"start":{"character":0,"line":4}},"selectionRange":{"end":{"character":9,"line":4},"start":{"character":8,"line":4}}}]}"#,
        ],
        1,
    ),
    // Before and after its time nothing is answered but with an error.
    (
        &[
            r#"{"id":1,"method":"shutdown"}"#,
            NO_ROOT,
            r#"{"id":2,"method":"x"}"#,
            r#"{"id":3,"method":"textDocument/definition","params":{"textDocument":{"uri":"u"}}}"#,
            NO_ROOT,
            "{",
            SHUTDOWN,
            r#"{"id":4,"method":"textDocument/documentSymbol","params":{"textDocument":{"uri":"u"}}}"#,
            EXIT,
        ],
        &[
            r#"{"error":{"code":-32002,"message":"server not initialized"},"id":1,"jsonrpc":"2.0"}"#,
            INITIALIZED,
            r#"{"error":{"code":-32601,"message":"method not found"},"id":2,"jsonrpc":"2.0"}"#,
            r#"{"error":{"code":-32602,"message":"invalid params"},"id":3,"jsonrpc":"2.0"}"#,
            r#"{"error":{"code":-32600,"message":"invalid request"},"id":1,"jsonrpc":"2.0"}"#,
            r#"{"error":{"code":-32700,"message":"parse error"},"id":null,"jsonrpc":"2.0"}"#,
            SHUT,
            r#"{"error":{"code":-32600,"message":"invalid request"},"id":4,"jsonrpc":"2.0"}"#,
        ],
        0,
    ),
];
