// What an edit of one module does to another.
use crate::tests::sessions::{
    ASK_F, CLEAN_A, CLEAN_B, CLEAN_C, CLEAN_D, EXIT, INITIALIZED, NO_ROOT, OPEN_B, OPEN_C, ROOT,
    SHUT, SHUTDOWN, Session,
};

/// Sessions over the folder.
pub static EDITS: [Session; 8] = [
    // Needs that lead back, and no more.
    (
        &[
            ROOT,
            OPEN_C,
            r#"{"method":"textDocument/didOpen","params":{"textDocument":{"uri":"file:///w/B.tla","text":"---- MODULE B ----\nEXTENDS C\nF == 1\n====\n"}}}"#,
            r#"{"method":"textDocument/didChange","params":{"textDocument":{"uri":"file:///w/B.tla"},"contentChanges":[{"text":"---- MODULE B ----\nCONSTANT N\nF == N\n====\n"}]}}"#,
            SHUTDOWN,
            EXIT,
        ],
        &[
            INITIALIZED,
            CLEAN_C,
            r#"{"jsonrpc":"2.0","method":"textDocument/publishDiagnostics","params":{"diagnostics":[{"code":"E302","message":"cyclic import","range":{"end":{"character":9,"line":1},"start":{"character":8,"line":1}},"severity":1,"source":"sany"}],"uri":"file:///w/B.tla"}}"#,
            r#"{"jsonrpc":"2.0","method":"textDocument/publishDiagnostics","params":{"diagnostics":[{"code":"E302","message":"cyclic import","range":{"end":{"character":9,"line":1},"start":{"character":8,"line":1}},"severity":1,"source":"sany"}],"uri":"file:///w/C.tla"}}"#,
            CLEAN_B,
            CLEAN_C,
            SHUT,
        ],
        0,
    ),
    // A fault of the front refuses those that extend the module.
    (
        &[
            ROOT,
            OPEN_C,
            r#"{"method":"textDocument/didOpen","params":{"textDocument":{"uri":"file:///w/B.tla","text":"---- MODULE B ----\nF == \n====\n"}}}"#,
            r#"{"method":"textDocument/didClose","params":{"textDocument":{"uri":"file:///w/B.tla"}}}"#,
            SHUTDOWN,
            EXIT,
        ],
        &[
            INITIALIZED,
            CLEAN_C,
            r#"{"jsonrpc":"2.0","method":"textDocument/publishDiagnostics","params":{"diagnostics":[{"code":"E202","message":"syntax","range":{"end":{"character":4,"line":2},"start":{"character":0,"line":2}},"severity":1,"source":"sany"}],"uri":"file:///w/B.tla"}}"#,
            r#"{"jsonrpc":"2.0","method":"textDocument/publishDiagnostics","params":{"diagnostics":[{"code":"E303","message":"imported module refused","range":{"end":{"character":9,"line":1},"start":{"character":8,"line":1}},"severity":1,"source":"sany"}],"uri":"file:///w/C.tla"}}"#,
            CLEAN_B,
            CLEAN_C,
            SHUT,
        ],
        0,
    ),
    // A declaration that moves.
    (
        &[
            ROOT,
            OPEN_C,
            OPEN_B,
            r#"{"method":"textDocument/didChange","params":{"textDocument":{"uri":"file:///w/B.tla"},"contentChanges":[{"range":{"start":{"line":1,"character":0},"end":{"line":1,"character":0}},"text":"\\* more\n"}]}}"#,
            ASK_F,
            SHUTDOWN,
            EXIT,
        ],
        &[
            INITIALIZED,
            CLEAN_C,
            CLEAN_B,
            CLEAN_B,
            r#"{"id":2,"jsonrpc":"2.0","result":{"range":{"end":{"character":1,"line":3},"start":{"character":0,"line":3}},"uri":"file:///w/B.tla"}}"#,
            SHUT,
        ],
        0,
    ),
    // A chain of three.
    (
        &[
            ROOT,
            r#"{"method":"textDocument/didOpen","params":{"textDocument":{"uri":"file:///w/D.tla","text":"---- MODULE D ----\nEXTENDS C\nH == G\n====\n"}}}"#,
            r#"{"method":"textDocument/didOpen","params":{"textDocument":{"uri":"file:///w/B.tla","text":"---- MODULE B ----\n====\n"}}}"#,
            r#"{"method":"textDocument/didChange","params":{"textDocument":{"uri":"file:///w/B.tla"},"contentChanges":[{"text":"---- MODULE B ----\nCONSTANT N\nF == N\n====\n"}]}}"#,
            r#"{"id":2,"method":"textDocument/references","params":{"textDocument":{"uri":"file:///w/D.tla"},"position":{"line":2,"character":5},"context":{"includeDeclaration":false}}}"#,
            SHUTDOWN,
            EXIT,
        ],
        &[
            INITIALIZED,
            CLEAN_D,
            CLEAN_B,
            r#"{"jsonrpc":"2.0","method":"textDocument/publishDiagnostics","params":{"diagnostics":[{"code":"E303","message":"imported module refused","range":{"end":{"character":9,"line":1},"start":{"character":8,"line":1}},"severity":1,"source":"sany"}],"uri":"file:///w/D.tla"}}"#,
            CLEAN_B,
            CLEAN_D,
            r#"{"id":2,"jsonrpc":"2.0","result":[{"range":{"end":{"character":6,"line":2},"start":{"character":5,"line":2}},"uri":"file:///w/D.tla"}]}"#,
            SHUT,
        ],
        0,
    ),
    // A name that becomes another's.
    (
        &[
            ROOT,
            OPEN_C,
            r#"{"method":"textDocument/didOpen","params":{"textDocument":{"uri":"file:///w/B.tla","text":"---- MODULE B ----\nF == 1\n====\n"}}}"#,
            ASK_F,
            r#"{"method":"textDocument/didChange","params":{"textDocument":{"uri":"file:///w/B.tla"},"contentChanges":[{"text":"---- MODULE B ----\nG == 1\nF == 1\n====\n"}]}}"#,
            SHUTDOWN,
            EXIT,
        ],
        &[
            INITIALIZED,
            CLEAN_C,
            CLEAN_B,
            r#"{"id":2,"jsonrpc":"2.0","result":{"range":{"end":{"character":1,"line":1},"start":{"character":0,"line":1}},"uri":"file:///w/B.tla"}}"#,
            CLEAN_B,
            r#"{"jsonrpc":"2.0","method":"textDocument/publishDiagnostics","params":{"diagnostics":[{"code":"E402","message":"symbol already there","range":{"end":{"character":1,"line":2},"start":{"character":0,"line":2}},"severity":1,"source":"sany"}],"uri":"file:///w/C.tla"}}"#,
            SHUT,
        ],
        0,
    ),
    // A module that comes to hide a built-in one.
    (
        &[
            ROOT,
            r#"{"method":"textDocument/didOpen","params":{"textDocument":{"uri":"file:///w/A.tla","text":"---- MODULE A ----\nEXTENDS Naturals\nF == 1 + 1\n====\n"}}}"#,
            r#"{"method":"textDocument/didOpen","params":{"textDocument":{"uri":"file:///w/Naturals.tla","text":"---- MODULE Naturals ----\n====\n"}}}"#,
            r#"{"method":"textDocument/didClose","params":{"textDocument":{"uri":"file:///w/Naturals.tla"}}}"#,
            SHUTDOWN,
            EXIT,
        ],
        &[
            INITIALIZED,
            CLEAN_A,
            r#"{"jsonrpc":"2.0","method":"textDocument/publishDiagnostics","params":{"diagnostics":[{"code":"E401","message":"unknown symbol","range":{"end":{"character":8,"line":2},"start":{"character":7,"line":2}},"severity":1,"source":"sany"}],"uri":"file:///w/A.tla"}}"#,
            r#"{"jsonrpc":"2.0","method":"textDocument/publishDiagnostics","params":{"diagnostics":[],"uri":"file:///w/Naturals.tla"}}"#,
            CLEAN_A,
            r#"{"jsonrpc":"2.0","method":"textDocument/publishDiagnostics","params":{"diagnostics":[],"uri":"file:///w/Naturals.tla"}}"#,
            SHUT,
        ],
        0,
    ),
    // What is assumed is constant, once the variable is gone.
    (
        &[
            NO_ROOT,
            r#"{"method":"textDocument/didOpen","params":{"textDocument":{"uri":"file:///w/A.tla","text":"---- MODULE A ----\nVARIABLE x\nASSUME x = 1\n====\n"}}}"#,
            r#"{"method":"textDocument/didChange","params":{"textDocument":{"uri":"file:///w/A.tla"},"contentChanges":[{"range":{"start":{"line":2,"character":7},"end":{"line":2,"character":8}},"text":"1"}]}}"#,
            SHUTDOWN,
            EXIT,
        ],
        &[
            INITIALIZED,
            r#"{"jsonrpc":"2.0","method":"textDocument/publishDiagnostics","params":{"diagnostics":[{"code":"E602","message":"assumption not constant","range":{"end":{"character":12,"line":2},"start":{"character":7,"line":2}},"severity":1,"source":"sany"}],"uri":"file:///w/A.tla"}}"#,
            CLEAN_A,
            SHUT,
        ],
        0,
    ),
    // A definition that becomes an action brings up a fault of levels in a module that primes it.
    (
        &[
            ROOT,
            r#"{"method":"textDocument/didOpen","params":{"textDocument":{"uri":"file:///w/C.tla","text":"---- MODULE C ----\nEXTENDS B\nG == F'\n====\n"}}}"#,
            r#"{"method":"textDocument/didOpen","params":{"textDocument":{"uri":"file:///w/B.tla","text":"---- MODULE B ----\nVARIABLE x\nF == x'\n====\n"}}}"#,
            r#"{"method":"textDocument/didChange","params":{"textDocument":{"uri":"file:///w/B.tla"},"contentChanges":[{"range":{"start":{"line":2,"character":6},"end":{"line":2,"character":7}},"text":""}]}}"#,
            SHUTDOWN,
            EXIT,
        ],
        &[
            INITIALIZED,
            CLEAN_C,
            CLEAN_B,
            r#"{"jsonrpc":"2.0","method":"textDocument/publishDiagnostics","params":{"diagnostics":[{"code":"E601","message":"level","range":{"end":{"character":7,"line":2},"start":{"character":5,"line":2}},"severity":1,"source":"sany"}],"uri":"file:///w/C.tla"}}"#,
            CLEAN_B,
            CLEAN_C,
            SHUT,
        ],
        0,
    ),
];
