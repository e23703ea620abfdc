// Places of changes, and what they are changes of.
use crate::tests::sessions::{
    ASK_F, AT_F, CLEAN_A, CLEAN_C, EXIT, INITIALIZED, NO_ROOT, OPEN_C, ROOT, SHUT, SHUTDOWN,
    Session, UNKNOWN_IN_C,
};

/// Sessions over the folder.
pub static CHANGES: [Session; 12] = [
    // Backward by the line.
    (
        &[
            ROOT,
            OPEN_C,
            r#"{"method":"textDocument/didChange","params":{"textDocument":{"uri":"file:///w/C.tla"},"contentChanges":[{"range":{"start":{"line":2,"character":0},"end":{"line":1,"character":9}},"text":"x"}]}}"#,
            SHUTDOWN,
            EXIT,
        ],
        &[INITIALIZED, CLEAN_C, SHUT],
        0,
    ),
    // None of several changes where one is backward.
    (
        &[
            ROOT,
            OPEN_C,
            r#"{"method":"textDocument/didChange","params":{"textDocument":{"uri":"file:///w/C.tla"},"contentChanges":[{"range":{"start":{"line":2,"character":5},"end":{"line":2,"character":6}},"text":"H"},{"range":{"start":{"line":2,"character":6},"end":{"line":2,"character":5}},"text":"x"}]}}"#,
            ASK_F,
            SHUTDOWN,
            EXIT,
        ],
        &[INITIALIZED, CLEAN_C, AT_F, SHUT],
        0,
    ),
    // Units beyond a line mean its end.
    (
        &[
            ROOT,
            OPEN_C,
            r#"{"method":"textDocument/didChange","params":{"textDocument":{"uri":"file:///w/C.tla"},"contentChanges":[{"range":{"start":{"line":2,"character":5},"end":{"line":2,"character":99}},"text":"H"}]}}"#,
            SHUTDOWN,
            EXIT,
        ],
        &[INITIALIZED, CLEAN_C, UNKNOWN_IN_C, SHUT],
        0,
    ),
    // Lines beyond the last mean the text's end.
    (
        &[
            ROOT,
            OPEN_C,
            r#"{"method":"textDocument/didChange","params":{"textDocument":{"uri":"file:///w/C.tla"},"contentChanges":[{"range":{"start":{"line":9,"character":0},"end":{"line":99,"character":0}},"text":"G == F"}]}}"#,
            SHUTDOWN,
            EXIT,
        ],
        &[INITIALIZED, CLEAN_C, CLEAN_C, SHUT],
        0,
    ),
    // A place within a pair means its start.
    (
        &[
            NO_ROOT,
            r#"{"method":"textDocument/didOpen","params":{"textDocument":{"uri":"file:///w/A.tla","text":"---- MODULE A ----\nVARIABLE x\nU == <<\"😀\", x>>\n====\n"}}}"#,
            r#"{"method":"textDocument/didChange","params":{"textDocument":{"uri":"file:///w/A.tla"},"contentChanges":[{"range":{"start":{"line":2,"character":9},"end":{"line":2,"character":10}},"text":"y"}]}}"#,
            r#"{"id":2,"method":"textDocument/definition","params":{"textDocument":{"uri":"file:///w/A.tla"},"position":{"line":2,"character":12}}}"#,
            SHUTDOWN,
            EXIT,
        ],
        &[
            INITIALIZED,
            CLEAN_A,
            CLEAN_A,
            r#"{"id":2,"jsonrpc":"2.0","result":{"range":{"end":{"character":10,"line":1},"start":{"character":9,"line":1}},"uri":"file:///w/A.tla"}}"#,
            SHUT,
        ],
        0,
    ),
    // Lines that end in both marks.
    (
        &[
            NO_ROOT,
            r#"{"method":"textDocument/didOpen","params":{"textDocument":{"uri":"file:///w/A.tla","text":"---- MODULE A ----\r\nVARIABLE x\r\nU == x\r\n====\r\n"}}}"#,
            r#"{"method":"textDocument/didChange","params":{"textDocument":{"uri":"file:///w/A.tla"},"contentChanges":[{"range":{"start":{"line":1,"character":99},"end":{"line":1,"character":99}},"text":", y"}]}}"#,
            r#"{"id":2,"method":"textDocument/documentSymbol","params":{"textDocument":{"uri":"file:///w/A.tla"}}}"#,
            SHUTDOWN,
            EXIT,
        ],
        &[
            INITIALIZED,
            CLEAN_A,
            CLEAN_A,
            r#"{"id":2,"jsonrpc":"2.0","result":[{"kind":13,"name":"x","range":{"end":{"character":10,"line":1},"start":{"character":9,"line":1}},"selectionRange":{"end":{"character":10,"line":1},"start":{"character":9,"line":1}}},{"kind":13,"name":"y","range":{"end":{"character":13,"line":1},"start":{"character":12,"line":1}},"selectionRange":{"end":{"character":13,"line":1},"start":{"character":12,"line":1}}},{"kind":12,"name":"U","range":{"end":{"character":6,"line":2},"start":{"character":0,"line":2}},"selectionRange":{"end":{"character":1,"line":2},"start":{"character":0,"line":2}}}]}"#,
            SHUT,
        ],
        0,
    ),
    // Lines that end in a carriage return.
    (
        &[
            NO_ROOT,
            r#"{"method":"textDocument/didOpen","params":{"textDocument":{"uri":"file:///w/A.tla","text":"---- MODULE A ----\rVARIABLE x\rU == x\r====\r"}}}"#,
            r#"{"id":2,"method":"textDocument/definition","params":{"textDocument":{"uri":"file:///w/A.tla"},"position":{"line":2,"character":5}}}"#,
            SHUTDOWN,
            EXIT,
        ],
        &[
            INITIALIZED,
            CLEAN_A,
            r#"{"id":2,"jsonrpc":"2.0","result":{"range":{"end":{"character":10,"line":1},"start":{"character":9,"line":1}},"uri":"file:///w/A.tla"}}"#,
            SHUT,
        ],
        0,
    ),
    // A carriage return meets a line feed.
    (
        &[
            NO_ROOT,
            r#"{"method":"textDocument/didOpen","params":{"textDocument":{"uri":"file:///w/A.tla","text":"---- MODULE A ----\rVARIABLE x\rU == x\r====\r"}}}"#,
            r#"{"method":"textDocument/didChange","params":{"textDocument":{"uri":"file:///w/A.tla"},"contentChanges":[{"range":{"start":{"line":1,"character":0},"end":{"line":1,"character":0}},"text":"\n"}]}}"#,
            r#"{"id":2,"method":"textDocument/definition","params":{"textDocument":{"uri":"file:///w/A.tla"},"position":{"line":2,"character":5}}}"#,
            r#"{"method":"textDocument/didChange","params":{"textDocument":{"uri":"file:///w/A.tla"},"contentChanges":[{"range":{"start":{"line":1,"character":0},"end":{"line":1,"character":0}},"text":"\n"}]}}"#,
            r#"{"id":3,"method":"textDocument/definition","params":{"textDocument":{"uri":"file:///w/A.tla"},"position":{"line":3,"character":5}}}"#,
            SHUTDOWN,
            EXIT,
        ],
        &[
            INITIALIZED,
            CLEAN_A,
            CLEAN_A,
            r#"{"id":2,"jsonrpc":"2.0","result":{"range":{"end":{"character":10,"line":1},"start":{"character":9,"line":1}},"uri":"file:///w/A.tla"}}"#,
            CLEAN_A,
            r#"{"id":3,"jsonrpc":"2.0","result":{"range":{"end":{"character":10,"line":2},"start":{"character":9,"line":2}},"uri":"file:///w/A.tla"}}"#,
            SHUT,
        ],
        0,
    ),
    // A change is of the text behind the one before.
    (
        &[
            ROOT,
            OPEN_C,
            r#"{"method":"textDocument/didChange","params":{"textDocument":{"uri":"file:///w/C.tla"},"contentChanges":[{"range":{"start":{"line":2,"character":0},"end":{"line":2,"character":0}},"text":"Long"},{"range":{"start":{"line":2,"character":9},"end":{"line":2,"character":10}},"text":"H"}]}}"#,
            SHUTDOWN,
            EXIT,
        ],
        &[
            INITIALIZED,
            CLEAN_C,
            r#"{"jsonrpc":"2.0","method":"textDocument/publishDiagnostics","params":{"diagnostics":[{"code":"E401","message":"unknown symbol","range":{"end":{"character":10,"line":2},"start":{"character":9,"line":2}},"severity":1,"source":"sany"}],"uri":"file:///w/C.tla"}}"#,
            SHUT,
        ],
        0,
    ),
    // A whole text in place of the old one.
    (
        &[
            ROOT,
            OPEN_C,
            r#"{"method":"textDocument/didChange","params":{"textDocument":{"uri":"file:///w/C.tla"},"contentChanges":[{"text":"---- MODULE C ----\nEXTENDS B\nG == H\n====\n"}]}}"#,
            SHUTDOWN,
            EXIT,
        ],
        &[INITIALIZED, CLEAN_C, UNKNOWN_IN_C, SHUT],
        0,
    ),
    // A line more moves the others.
    (
        &[
            ROOT,
            OPEN_C,
            r#"{"method":"textDocument/didChange","params":{"textDocument":{"uri":"file:///w/C.tla"},"contentChanges":[{"range":{"start":{"line":1,"character":0},"end":{"line":1,"character":0}},"text":"\\* a line\n"}]}}"#,
            r#"{"id":2,"method":"textDocument/definition","params":{"textDocument":{"uri":"file:///w/C.tla"},"position":{"line":3,"character":5}}}"#,
            SHUTDOWN,
            EXIT,
        ],
        &[INITIALIZED, CLEAN_C, CLEAN_C, AT_F, SHUT],
        0,
    ),
    // No changes.
    (
        &[
            ROOT,
            OPEN_C,
            r#"{"method":"textDocument/didChange","params":{"textDocument":{"uri":"file:///w/C.tla"},"contentChanges":[]}}"#,
            SHUTDOWN,
            EXIT,
        ],
        &[INITIALIZED, CLEAN_C, CLEAN_C, SHUT],
        0,
    ),
];
