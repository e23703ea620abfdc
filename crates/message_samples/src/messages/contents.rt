//! Contents as clients send them.

/// Contents, each with the words of the message that it is.
pub static READ: [(&str, &str); 74] = [
    (
        r#"{"jsonrpc":"2.0","id":1,"method":"initialize","params":{"rootUri":null}}"#,
        "1 initialize",
    ),
    (
        r#"{"id":1,"method":"initialize","params":{"rootUri":"file:///r"}}"#,
        "1 initialize file:///r",
    ),
    (
        r#"{"id":1,"method":"initialize","params":{"workspaceFolders":[{"uri":"file:///w"}],"rootUri":"file:///r"}}"#,
        "1 initialize file:///w",
    ),
    (
        r#"{"id":1,"method":"initialize","params":{"workspaceFolders":[],"rootUri":"file:///r"}}"#,
        "1 initialize file:///r",
    ),
    (
        r#"{"id":1,"method":"initialize","params":{"workspaceFolders":[{"name":"w"}],"rootUri":"file:///r"}}"#,
        "1 initialize file:///r",
    ),
    (
        r#"{"id":1,"method":"initialize","params":{"rootUri":7}}"#,
        "1 initialize",
    ),
    (r#"{"id":1,"method":"initialize"}"#, "1 initialize"),
    (r#"{"id":"a","method":"shutdown"}"#, "'a' shutdown"),
    (r#"{"id":-3,"method":"shutdown"}"#, "-3 shutdown"),
    (
        r#"{"id":18446744073709551615,"method":"shutdown"}"#,
        "18446744073709551615 shutdown",
    ),
    (
        r#"{"id":18446744073709551616,"method":"shutdown"}"#,
        "-32600 null",
    ),
    (
        r#"{"id":-9223372036854775808,"method":"shutdown"}"#,
        "-9223372036854775808 shutdown",
    ),
    (
        r#"{"id":-9223372036854775809,"method":"shutdown"}"#,
        "-32600 null",
    ),
    (r#"{"id":"","method":"shutdown"}"#, "'' shutdown"),
    (
        r#"{"id":"\u0061\ud83d\ude00","method":"shutdown"}"#,
        "'a😀' shutdown",
    ),
    (r#"{"id":1.5,"method":"shutdown"}"#, "-32600 null"),
    (r#"{"id":1e2,"method":"shutdown"}"#, "-32600 null"),
    (r#"{"id":-0,"method":"shutdown"}"#, "-32600 null"),
    (r#"{"id":1e999,"method":"shutdown"}"#, "-32700 null"),
    (r#"{"id":true,"method":"shutdown"}"#, "-32600 null"),
    (r#"{"id":1.5,"method":7}"#, "-32600 null"),
    (r#"{"id":null,"method":"exit"}"#, "-32600 null"),
    (r#"{"id":[],"method":"exit"}"#, "-32600 null"),
    (r#"{"method":"exit"}"#, "exit"),
    (r#"{"id":4,"method":"exit"}"#, "4 unknown"),
    (r#"{"method":"shutdown"}"#, "other"),
    (r#"{"method":"initialize"}"#, "other"),
    (r#"{"method":"$/cancelRequest","params":{"id":1}}"#, "other"),
    (r#"{"id":1,"method":"x"}"#, "1 unknown"),
    (r#"{"id":1,"method":7}"#, "-32600 1"),
    (r#"{"id":1,"method":null}"#, "-32600 1"),
    (r#"{"method":null}"#, "-32600 null"),
    (r#"{"id":1,"result":null}"#, "dropped"),
    (r#"{"id":null,"error":{}}"#, "dropped"),
    (r#"{"id":1.5,"result":1}"#, "dropped"),
    (r#"{"error":{}}"#, "dropped"),
    (r#"{"id":1,"method":"$/cancelRequest"}"#, "1 unknown"),
    (
        r#"{"id":1,"method":"textDocument/didOpen","params":{"textDocument":{"uri":"u","text":"t"}}}"#,
        "1 unknown",
    ),
    (r#"{"id":1}"#, "-32600 1"),
    (r#"{}"#, "-32600 null"),
    ("[]", "-32600 null"),
    ("7", "-32600 null"),
    ("{", "-32700 null"),
    ("", "-32700 null"),
    (r#"{"id":1,"method":"shutdown"} x"#, "-32700 null"),
    (r#"{"id":"\ud800","method":"shutdown"}"#, "-32700 null"),
    (r#"{"id":"\udc00","method":"shutdown"}"#, "-32700 null"),
    (
        r#"{"id":"\ud800\u0061","method":"shutdown"}"#,
        "-32700 null",
    ),
    ("\u{feff}{}", "-32700 null"),
    (r#"{"method":"exit","method":"x"}"#, "other"),
    (r#"{"id":1,"id":2,"method":"shutdown"}"#, "2 shutdown"),
    (
        r#"{"id":1,"method":"textDocument/definition","params":{"textDocument":{"uri":"u"},"position":{"line":2,"character":13}}}"#,
        "1 definition u 2:13",
    ),
    (
        r#"{"id":1,"method":"textDocument/definition","params":{"textDocument":{"uri":"u"}}}"#,
        "1 bad",
    ),
    (
        r#"{"id":1,"method":"textDocument/definition","params":{"textDocument":{"uri":"u"},"position":{"line":-1,"character":0}}}"#,
        "1 bad",
    ),
    (
        r#"{"id":1,"method":"textDocument/definition","params":{"textDocument":{"uri":"u"},"position":{"line":1.0,"character":0}}}"#,
        "1 bad",
    ),
    (
        r#"{"id":1,"method":"textDocument/definition","params":{"textDocument":{"uri":"u"},"position":{"line":2147483648,"character":0}}}"#,
        "1 bad",
    ),
    (
        r#"{"id":1,"method":"textDocument/definition","params":{"textDocument":{"uri":"u"},"position":{"line":2147483647,"character":2147483647}}}"#,
        "1 definition u 2147483647:2147483647",
    ),
    (
        r#"{"id":1,"method":"textDocument/definition","params":{"textDocument":{"uri":"u"},"position":{"line":"1","character":0}}}"#,
        "1 bad",
    ),
    (
        r#"{"id":1,"method":"textDocument/definition","params":[]}"#,
        "1 bad",
    ),
    (
        r#"{"id":1,"method":"textDocument/references","params":{"textDocument":{"uri":"u"},"position":{"line":0,"character":0}}}"#,
        "1 bad",
    ),
    (
        r#"{"id":1,"method":"textDocument/references","params":{"textDocument":{"uri":"u"},"position":{"line":0,"character":0},"context":{"includeDeclaration":1}}}"#,
        "1 bad",
    ),
    (
        r#"{"id":1,"method":"textDocument/references","params":{"textDocument":{"uri":"u"},"position":{"line":0,"character":0},"context":{"includeDeclaration":true}}}"#,
        "1 references u 0:0 true",
    ),
    (
        r#"{"id":1,"method":"textDocument/documentSymbol","params":{"textDocument":{"uri":"u"}}}"#,
        "1 symbols u",
    ),
    (
        r#"{"method":"textDocument/documentSymbol","params":{"textDocument":{"uri":"u"}}}"#,
        "other",
    ),
    (
        r#"{"method":"textDocument/didOpen","params":{"textDocument":{"uri":"u","text":"t"}}}"#,
        "open u t",
    ),
    (
        r#"{"method":"textDocument/didOpen","params":{"textDocument":{"uri":"u"}}}"#,
        "other",
    ),
    (
        r#"{"method":"textDocument/didChange","params":{"textDocument":{"uri":"u"},"contentChanges":[{"text":"a"},{"range":null,"text":"b"}]}}"#,
        "change u all a all b",
    ),
    (
        r#"{"method":"textDocument/didChange","params":{"textDocument":{"uri":"u"},"contentChanges":[{"range":1,"text":"b"}]}}"#,
        "other",
    ),
    (
        r#"{"method":"textDocument/didChange","params":{"textDocument":{"uri":"u"},"contentChanges":[]}}"#,
        "change u",
    ),
    (
        r#"{"method":"textDocument/didChange","params":{"textDocument":{"uri":"u"},"contentChanges":[{"range":{"start":{"line":2,"character":13},"end":{"line":2,"character":14}},"text":"x'"}]}}"#,
        "change u 2:13 2:14 x'",
    ),
    (
        r#"{"method":"textDocument/didChange","params":{"textDocument":{"uri":"u"},"contentChanges":[{"text":"a"},{"range":{"start":{"line":0,"character":0},"end":{"line":0,"character":2147483648}},"text":"b"}]}}"#,
        "other",
    ),
    (
        r#"{"method":"textDocument/didClose","params":{"textDocument":{"uri":"u"}}}"#,
        "close u",
    ),
    (
        r#"{"method":"workspace/didChangeWatchedFiles","params":{"changes":[{"uri":"u","type":1},{"uri":"v","type":3}]}}"#,
        "files u false v true",
    ),
    (
        r#"{"method":"workspace/didChangeWatchedFiles","params":{"changes":[{"uri":"u","type":4}]}}"#,
        "other",
    ),
];
