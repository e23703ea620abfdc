// Outlines.
use crate::tests::sessions::{CLEAN_A, EXIT, INITIALIZED, NO_ROOT, ROOT, SHUT, SHUTDOWN, Session};

/// Sessions over the folder.
pub static OUTLINES: [Session; 7] = [
    // An outline of a file.
    (
        &[
            ROOT,
            r#"{"id":2,"method":"textDocument/documentSymbol","params":{"textDocument":{"uri":"file:///w/B.tla"}}}"#,
            SHUTDOWN,
            EXIT,
        ],
        &[
            INITIALIZED,
            r#"{"id":2,"jsonrpc":"2.0","result":[{"kind":14,"name":"N","range":{"end":{"character":10,"line":1},"start":{"character":9,"line":1}},"selectionRange":{"end":{"character":10,"line":1},"start":{"character":9,"line":1}}},{"kind":12,"name":"F","range":{"end":{"character":6,"line":2},"start":{"character":0,"line":2}},"selectionRange":{"end":{"character":1,"line":2},"start":{"character":0,"line":2}}}]}"#,
            SHUT,
        ],
        0,
    ),
    // A constant that is a symbol, functions, instances.
    (
        &[
            NO_ROOT,
            r#"{"method":"textDocument/didOpen","params":{"textDocument":{"uri":"file:///w/A.tla","text":"---- MODULE A ----\nCONSTANTS c, _ ++ _\nf[x \\in c] == x\nI(a) == INSTANCE B WITH N <- a\n====\n"}}}"#,
            r#"{"id":2,"method":"textDocument/documentSymbol","params":{"textDocument":{"uri":"file:///w/A.tla"}}}"#,
            SHUTDOWN,
            EXIT,
        ],
        &[
            INITIALIZED,
            r#"{"jsonrpc":"2.0","method":"textDocument/publishDiagnostics","params":{"diagnostics":[{"code":"E301","message":"unknown module","range":{"end":{"character":18,"line":3},"start":{"character":17,"line":3}},"severity":1,"source":"sany"}],"uri":"file:///w/A.tla"}}"#,
            r#"{"id":2,"jsonrpc":"2.0","result":[{"kind":14,"name":"c","range":{"end":{"character":11,"line":1},"start":{"character":10,"line":1}},"selectionRange":{"end":{"character":11,"line":1},"start":{"character":10,"line":1}}},{"kind":14,"name":"++","range":{"end":{"character":19,"line":1},"start":{"character":13,"line":1}},"selectionRange":{"end":{"character":17,"line":1},"start":{"character":15,"line":1}}},{"kind":12,"name":"f","range":{"end":{"character":15,"line":2},"start":{"character":0,"line":2}},"selectionRange":{"end":{"character":1,"line":2},"start":{"character":0,"line":2}}},{"kind":2,"name":"I","range":{"end":{"character":30,"line":3},"start":{"character":0,"line":3}},"selectionRange":{"end":{"character":1,"line":3},"start":{"character":0,"line":3}}}]}"#,
            SHUT,
        ],
        0,
    ),
    // Names within definitions, assumptions and instances without a name are left out.
    (
        &[
            ROOT,
            r#"{"method":"textDocument/didOpen","params":{"textDocument":{"uri":"file:///w/A.tla","text":"---- MODULE A ----\nEXTENDS B\nASSUME N = N\nLOCAL G(a) == LET b == a IN b\nINSTANCE B WITH N <- 1\n====\n"}}}"#,
            r#"{"id":2,"method":"textDocument/documentSymbol","params":{"textDocument":{"uri":"file:///w/A.tla"}}}"#,
            SHUTDOWN,
            EXIT,
        ],
        &[
            INITIALIZED,
            r#"{"jsonrpc":"2.0","method":"textDocument/publishDiagnostics","params":{"diagnostics":[{"code":"E404","message":"clash by INSTANCE","range":{"end":{"character":10,"line":4},"start":{"character":9,"line":4}},"severity":1,"source":"sany"}],"uri":"file:///w/A.tla"}}"#,
            r#"{"id":2,"jsonrpc":"2.0","result":[{"kind":12,"name":"G","range":{"end":{"character":29,"line":3},"start":{"character":0,"line":3}},"selectionRange":{"end":{"character":7,"line":3},"start":{"character":6,"line":3}}}]}"#,
            SHUT,
        ],
        0,
    ),
    // An outline beside a fault of an import.
    (
        &[
            ROOT,
            r#"{"method":"textDocument/didOpen","params":{"textDocument":{"uri":"file:///w/A.tla","text":"---- MODULE A ----\nEXTENDS Z\nF == 1\n====\n"}}}"#,
            r#"{"id":2,"method":"textDocument/documentSymbol","params":{"textDocument":{"uri":"file:///w/A.tla"}}}"#,
            SHUTDOWN,
            EXIT,
        ],
        &[
            INITIALIZED,
            r#"{"jsonrpc":"2.0","method":"textDocument/publishDiagnostics","params":{"diagnostics":[{"code":"E301","message":"unknown module","range":{"end":{"character":9,"line":1},"start":{"character":8,"line":1}},"severity":1,"source":"sany"}],"uri":"file:///w/A.tla"}}"#,
            r#"{"id":2,"jsonrpc":"2.0","result":[{"kind":12,"name":"F","range":{"end":{"character":6,"line":2},"start":{"character":0,"line":2}},"selectionRange":{"end":{"character":1,"line":2},"start":{"character":0,"line":2}}}]}"#,
            SHUT,
        ],
        0,
    ),
    // None beside a fault of the front.
    (
        &[
            ROOT,
            r#"{"method":"textDocument/didOpen","params":{"textDocument":{"uri":"file:///w/A.tla","text":"---- MODULE A ----\nF == \n====\n"}}}"#,
            r#"{"id":2,"method":"textDocument/documentSymbol","params":{"textDocument":{"uri":"file:///w/A.tla"}}}"#,
            SHUTDOWN,
            EXIT,
        ],
        &[
            INITIALIZED,
            r#"{"jsonrpc":"2.0","method":"textDocument/publishDiagnostics","params":{"diagnostics":[{"code":"E202","message":"syntax","range":{"end":{"character":4,"line":2},"start":{"character":0,"line":2}},"severity":1,"source":"sany"}],"uri":"file:///w/A.tla"}}"#,
            r#"{"id":2,"jsonrpc":"2.0","result":[]}"#,
            SHUT,
        ],
        0,
    ),
    // None of what is no member.
    (
        &[
            ROOT,
            r#"{"id":2,"method":"textDocument/documentSymbol","params":{"textDocument":{"uri":"file:///v/B.tla"}}}"#,
            r#"{"id":3,"method":"textDocument/documentSymbol","params":{"textDocument":{"uri":"x"}}}"#,
            SHUTDOWN,
            EXIT,
        ],
        &[
            INITIALIZED,
            r#"{"id":2,"jsonrpc":"2.0","result":[]}"#,
            r#"{"id":3,"jsonrpc":"2.0","result":[]}"#,
            SHUT,
        ],
        0,
    ),
    // An empty nested module.
    (
        &[
            NO_ROOT,
            r#"{"method":"textDocument/didOpen","params":{"textDocument":{"uri":"file:///w/A.tla","text":"---- MODULE A ----\n---- MODULE I ----\n====\n====\n"}}}"#,
            r#"{"id":2,"method":"textDocument/documentSymbol","params":{"textDocument":{"uri":"file:///w/A.tla"}}}"#,
            SHUTDOWN,
            EXIT,
        ],
        &[
            INITIALIZED,
            CLEAN_A,
            r#"{"id":2,"jsonrpc":"2.0","result":[{"children":[],"kind":2,"name":"I","range":{"end":{"character":4,"line":2},"start":{"character":0,"line":1}},"selectionRange":{"end":{"character":13,"line":1},"start":{"character":12,"line":1}}}]}"#,
            SHUT,
        ],
        0,
    ),
];
