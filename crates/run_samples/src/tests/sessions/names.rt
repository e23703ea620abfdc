// Definitions and references.
use crate::tests::sessions::{
    ASK_F, AT_F, CLEAN_A, CLEAN_B, CLEAN_C, EXIT, INITIALIZED, NO_ROOT, OPEN_B, OPEN_C, ROOT, SHUT,
    SHUTDOWN, Session,
};

/// Sessions over the folder.
pub static NAMES: [Session; 11] = [
    // A declaring name has no definition.
    (
        &[
            ROOT,
            OPEN_B,
            r#"{"id":2,"method":"textDocument/definition","params":{"textDocument":{"uri":"file:///w/B.tla"},"position":{"line":2,"character":0}}}"#,
            SHUTDOWN,
            EXIT,
        ],
        &[
            INITIALIZED,
            CLEAN_B,
            r#"{"id":2,"jsonrpc":"2.0","result":null}"#,
            SHUT,
        ],
        0,
    ),
    // A word has none.
    (
        &[
            ROOT,
            OPEN_C,
            r#"{"id":2,"method":"textDocument/definition","params":{"textDocument":{"uri":"file:///w/C.tla"},"position":{"line":1,"character":2}}}"#,
            SHUTDOWN,
            EXIT,
        ],
        &[
            INITIALIZED,
            CLEAN_C,
            r#"{"id":2,"jsonrpc":"2.0","result":null}"#,
            SHUT,
        ],
        0,
    ),
    // Nor has the place behind a use.
    (
        &[
            ROOT,
            OPEN_C,
            r#"{"id":2,"method":"textDocument/definition","params":{"textDocument":{"uri":"file:///w/C.tla"},"position":{"line":2,"character":6}}}"#,
            SHUTDOWN,
            EXIT,
        ],
        &[
            INITIALIZED,
            CLEAN_C,
            r#"{"id":2,"jsonrpc":"2.0","result":null}"#,
            SHUT,
        ],
        0,
    ),
    // Nor a use beside a fault of an import.
    (
        &[
            ROOT,
            r#"{"method":"textDocument/didOpen","params":{"textDocument":{"uri":"file:///w/A.tla","text":"---- MODULE A ----\nEXTENDS Z\nF == 1\nG == F\n====\n"}}}"#,
            r#"{"id":2,"method":"textDocument/definition","params":{"textDocument":{"uri":"file:///w/A.tla"},"position":{"line":3,"character":5}}}"#,
            SHUTDOWN,
            EXIT,
        ],
        &[
            INITIALIZED,
            r#"{"jsonrpc":"2.0","method":"textDocument/publishDiagnostics","params":{"diagnostics":[{"code":"E301","message":"unknown module","range":{"end":{"character":9,"line":1},"start":{"character":8,"line":1}},"severity":1,"source":"sany"}],"uri":"file:///w/A.tla"}}"#,
            r#"{"id":2,"jsonrpc":"2.0","result":null}"#,
            SHUT,
        ],
        0,
    ),
    // A use beside another's fault has one.
    (
        &[
            ROOT,
            r#"{"method":"textDocument/didOpen","params":{"textDocument":{"uri":"file:///w/A.tla","text":"---- MODULE A ----\nF == x\nG == F\n====\n"}}}"#,
            r#"{"id":2,"method":"textDocument/definition","params":{"textDocument":{"uri":"file:///w/A.tla"},"position":{"line":2,"character":5}}}"#,
            SHUTDOWN,
            EXIT,
        ],
        &[
            INITIALIZED,
            r#"{"jsonrpc":"2.0","method":"textDocument/publishDiagnostics","params":{"diagnostics":[{"code":"E401","message":"unknown symbol","range":{"end":{"character":6,"line":1},"start":{"character":5,"line":1}},"severity":1,"source":"sany"}],"uri":"file:///w/A.tla"}}"#,
            r#"{"id":2,"jsonrpc":"2.0","result":{"range":{"end":{"character":1,"line":1},"start":{"character":0,"line":1}},"uri":"file:///w/A.tla"}}"#,
            SHUT,
        ],
        0,
    ),
    // A module that is not open has no text of its own in the answer.
    (
        &[ROOT, ASK_F, SHUTDOWN, EXIT],
        &[INITIALIZED, AT_F, SHUT],
        0,
    ),
    // References from a use, the declaration first.
    (
        &[
            ROOT,
            r#"{"id":2,"method":"textDocument/references","params":{"textDocument":{"uri":"file:///w/C.tla"},"position":{"line":2,"character":5},"context":{"includeDeclaration":true}}}"#,
            SHUTDOWN,
            EXIT,
        ],
        &[
            INITIALIZED,
            r#"{"id":2,"jsonrpc":"2.0","result":[{"range":{"end":{"character":1,"line":2},"start":{"character":0,"line":2}},"uri":"file:///w/B.tla"},{"range":{"end":{"character":6,"line":2},"start":{"character":5,"line":2}},"uri":"file:///w/C.tla"}]}"#,
            SHUT,
        ],
        0,
    ),
    // References from the declaration, without it.
    (
        &[
            ROOT,
            r#"{"id":2,"method":"textDocument/references","params":{"textDocument":{"uri":"file:///w/B.tla"},"position":{"line":2,"character":0},"context":{"includeDeclaration":false}}}"#,
            r#"{"id":3,"method":"textDocument/references","params":{"textDocument":{"uri":"file:///w/B.tla"},"position":{"line":1,"character":9},"context":{"includeDeclaration":false}}}"#,
            SHUTDOWN,
            EXIT,
        ],
        &[
            INITIALIZED,
            r#"{"id":2,"jsonrpc":"2.0","result":[{"range":{"end":{"character":6,"line":2},"start":{"character":5,"line":2}},"uri":"file:///w/C.tla"}]}"#,
            r#"{"id":3,"jsonrpc":"2.0","result":[{"range":{"end":{"character":6,"line":2},"start":{"character":5,"line":2}},"uri":"file:///w/B.tla"}]}"#,
            SHUT,
        ],
        0,
    ),
    // References of nothing.
    (
        &[
            ROOT,
            r#"{"id":2,"method":"textDocument/references","params":{"textDocument":{"uri":"file:///w/C.tla"},"position":{"line":0,"character":0},"context":{"includeDeclaration":true}}}"#,
            r#"{"id":3,"method":"textDocument/references","params":{"textDocument":{"uri":"x"},"position":{"line":2,"character":5},"context":{"includeDeclaration":true}}}"#,
            SHUTDOWN,
            EXIT,
        ],
        &[
            INITIALIZED,
            r#"{"id":2,"jsonrpc":"2.0","result":null}"#,
            r#"{"id":3,"jsonrpc":"2.0","result":null}"#,
            SHUT,
        ],
        0,
    ),
    // Names in a LET, and a parameter.
    (
        &[
            NO_ROOT,
            r#"{"method":"textDocument/didOpen","params":{"textDocument":{"uri":"file:///w/A.tla","text":"---- MODULE A ----\nF(a) == LET b == a IN b\n====\n"}}}"#,
            r#"{"id":2,"method":"textDocument/definition","params":{"textDocument":{"uri":"file:///w/A.tla"},"position":{"line":1,"character":22}}}"#,
            r#"{"id":3,"method":"textDocument/definition","params":{"textDocument":{"uri":"file:///w/A.tla"},"position":{"line":1,"character":17}}}"#,
            r#"{"id":4,"method":"textDocument/references","params":{"textDocument":{"uri":"file:///w/A.tla"},"position":{"line":1,"character":2},"context":{"includeDeclaration":true}}}"#,
            SHUTDOWN,
            EXIT,
        ],
        &[
            INITIALIZED,
            CLEAN_A,
            r#"{"id":2,"jsonrpc":"2.0","result":{"range":{"end":{"character":13,"line":1},"start":{"character":12,"line":1}},"uri":"file:///w/A.tla"}}"#,
            r#"{"id":3,"jsonrpc":"2.0","result":{"range":{"end":{"character":3,"line":1},"start":{"character":2,"line":1}},"uri":"file:///w/A.tla"}}"#,
            r#"{"id":4,"jsonrpc":"2.0","result":[{"range":{"end":{"character":3,"line":1},"start":{"character":2,"line":1}},"uri":"file:///w/A.tla"},{"range":{"end":{"character":18,"line":1},"start":{"character":17,"line":1}},"uri":"file:///w/A.tla"}]}"#,
            SHUT,
        ],
        0,
    ),
    // A left side of an instance is the parameter.
    (
        &[
            ROOT,
            r#"{"method":"textDocument/didOpen","params":{"textDocument":{"uri":"file:///w/A.tla","text":"---- MODULE A ----\nI == INSTANCE B WITH N <- 1\nG == I!F\n====\n"}}}"#,
            r#"{"id":2,"method":"textDocument/definition","params":{"textDocument":{"uri":"file:///w/A.tla"},"position":{"line":1,"character":21}}}"#,
            r#"{"id":3,"method":"textDocument/definition","params":{"textDocument":{"uri":"file:///w/A.tla"},"position":{"line":2,"character":7}}}"#,
            SHUTDOWN,
            EXIT,
        ],
        &[
            INITIALIZED,
            CLEAN_A,
            r#"{"id":2,"jsonrpc":"2.0","result":{"range":{"end":{"character":10,"line":1},"start":{"character":9,"line":1}},"uri":"file:///w/B.tla"}}"#,
            r#"{"id":3,"jsonrpc":"2.0","result":{"range":{"end":{"character":1,"line":2},"start":{"character":0,"line":2}},"uri":"file:///w/B.tla"}}"#,
            SHUT,
        ],
        0,
    ),
];
