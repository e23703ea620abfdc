// How many modules are checked for a session: the eight built-in ones once, and else those that
// change, and those to which one that they name is not what it was.
use crate::tests::sessions::instances::{
    BROUGHT, COMMENT_IN_INNER, INNER, LOCAL, MORE_IN_OTHER_Q, MORE_IN_Q, NESTED, OPEN_D, OPEN_M,
    OPEN_O, OPEN_OTHER_Q, OPEN_OVER_INNER, OPEN_Q, OPEN_ROUND_INNER, OPEN_Z, OTHER_IN_M,
    SET_IN_INNER,
};
use crate::tests::sessions::{ASK_F, FILES, OPEN_B, OPEN_C, ROOT};

const CHANGE_B: &str =
    r#"{"method":"textDocument/didChange","params":{"textDocument":{"uri":"file:///w/B.tla"},"contentChanges":[{"range":{"start":{"line":2,"character":5},"end":{"line":2,"character":6}},"text":"1"}]}}"#;

const CHANGE_C: &str =
    r#"{"method":"textDocument/didChange","params":{"textDocument":{"uri":"file:///w/C.tla"},"contentChanges":[{"range":{"start":{"line":2,"character":5},"end":{"line":2,"character":6}},"text":"N"}]}}"#;

const SAME_C: &str =
    r#"{"method":"textDocument/didChange","params":{"textDocument":{"uri":"file:///w/C.tla"},"contentChanges":[{"range":{"start":{"line":2,"character":5},"end":{"line":2,"character":6}},"text":"F"}]}}"#;

const ASK_ALL: &str =
    r#"{"id":2,"method":"textDocument/references","params":{"textDocument":{"uri":"file:///w/B.tla"},"position":{"line":2,"character":0},"context":{"includeDeclaration":true}}}"#;

// Spelled in another way: to others the module is what it was.
const COMMENT_B: &str =
    r#"{"method":"textDocument/didChange","params":{"textDocument":{"uri":"file:///w/B.tla"},"contentChanges":[{"range":{"start":{"line":2,"character":0},"end":{"line":2,"character":0}},"text":"(* N *)\n"}]}}"#;

const LOCAL_B: &str =
    r#"{"method":"textDocument/didChange","params":{"textDocument":{"uri":"file:///w/B.tla"},"contentChanges":[{"range":{"start":{"line":3,"character":0},"end":{"line":3,"character":0}},"text":"LOCAL Z == 1\n"}]}}"#;

// Another number, which is none of a level.
const NUMBER_B: &str =
    r#"{"method":"textDocument/didChange","params":{"textDocument":{"uri":"file:///w/B.tla"},"contentChanges":[{"range":{"start":{"line":2,"character":5},"end":{"line":2,"character":6}},"text":"2"}]}}"#;

// A change that another one in the same message takes back.
const TWICE_B: &str =
    r#"{"method":"textDocument/didChange","params":{"textDocument":{"uri":"file:///w/B.tla"},"contentChanges":[{"range":{"start":{"line":2,"character":5},"end":{"line":2,"character":6}},"text":"{N}"},{"range":{"start":{"line":2,"character":5},"end":{"line":2,"character":8}},"text":"N"}]}}"#;

// One name more, which others may see.
const NAME_B: &str =
    r#"{"method":"textDocument/didChange","params":{"textDocument":{"uri":"file:///w/B.tla"},"contentChanges":[{"range":{"start":{"line":3,"character":0},"end":{"line":3,"character":0}},"text":"K == 1\n"}]}}"#;

const OPEN_LAST: &str =
    r#"{"method":"textDocument/didOpen","params":{"textDocument":{"uri":"file:///w/C.tla","text":"---- MODULE C ----\nEXTENDS B\nH == G\n====\n"}}}"#;

const OPEN_FIRST: &str =
    r#"{"method":"textDocument/didOpen","params":{"textDocument":{"uri":"file:///w/A.tla","text":"---- MODULE A ----\nCONSTANT N\nF == N\n====\n"}}}"#;

const COMMENT_A: &str =
    r#"{"method":"textDocument/didChange","params":{"textDocument":{"uri":"file:///w/A.tla"},"contentChanges":[{"range":{"start":{"line":1,"character":0},"end":{"line":1,"character":0}},"text":"\\* N\n"}]}}"#;

const SET_A: &str =
    r#"{"method":"textDocument/didChange","params":{"textDocument":{"uri":"file:///w/A.tla"},"contentChanges":[{"range":{"start":{"line":3,"character":5},"end":{"line":3,"character":6}},"text":"{N}"}]}}"#;

const OPEN_E: &str =
    r#"{"method":"textDocument/didOpen","params":{"textDocument":{"uri":"file:///w/E.tla","text":"---- MODULE E ----\nH == 1\n====\n"}}}"#;

const CHANGE_E: &str =
    r#"{"method":"textDocument/didChange","params":{"textDocument":{"uri":"file:///w/E.tla"},"contentChanges":[{"range":{"start":{"line":1,"character":5},"end":{"line":1,"character":6}},"text":"2"}]}}"#;

/// The files of a folder, the contents of the input's frames, and how many modules are checked.
pub type Counted = (
    &'static [(&'static str, &'static str)],
    &'static [&'static str],
    u64,
);

// Three modules, each over the one before.
const CHAIN: [(&str, &str); 3] = [
    ("A", "CONSTANT N\nF == N"),
    ("B", "EXTENDS A\nG == F"),
    ("C", "EXTENDS B\nH == G"),
];

// One that extends a module which is not there, and one beside it.
const LACKING: [(&str, &str); 2] = [("C", "EXTENDS B\nG == F"), ("E", "H == 1")];

/// Sessions over folders.
pub static COUNTED: [Counted; 22] = [
    (&FILES, &[ROOT, OPEN_C], 10),
    // A document with the text of its file, and a change that changes nothing.
    (&FILES, &[ROOT, OPEN_C, OPEN_B, SAME_C], 10),
    // Of one that nobody needs, and of one that another needs.
    (&FILES, &[ROOT, OPEN_C, OPEN_B, CHANGE_C], 11),
    (&FILES, &[ROOT, OPEN_C, OPEN_B, CHANGE_B], 12),
    (
        &FILES,
        &[ROOT, OPEN_C, OPEN_B, CHANGE_B, CHANGE_C, CHANGE_C],
        13,
    ),
    // Questions ask no further checks where all is found.
    (&FILES, &[ROOT, OPEN_C, OPEN_B, ASK_F, ASK_ALL], 10),
    (&FILES, &[ROOT, OPEN_B, CHANGE_B, ASK_ALL], 11),
    // What others do not see of a module, or what it is to them still.
    (&FILES, &[ROOT, OPEN_C, OPEN_B, COMMENT_B], 11),
    (&FILES, &[ROOT, OPEN_C, OPEN_B, LOCAL_B], 11),
    (&FILES, &[ROOT, OPEN_C, OPEN_B, CHANGE_B, NUMBER_B], 13),
    (&FILES, &[ROOT, OPEN_C, OPEN_B, TWICE_B], 10),
    (&FILES, &[ROOT, OPEN_C, OPEN_B, NAME_B], 12),
    (&CHAIN, &[ROOT, OPEN_LAST], 11),
    (&CHAIN, &[ROOT, OPEN_LAST, OPEN_FIRST], 11),
    (&CHAIN, &[ROOT, OPEN_LAST, OPEN_FIRST, COMMENT_A], 12),
    (&CHAIN, &[ROOT, OPEN_LAST, OPEN_FIRST, COMMENT_A, SET_A], 15),
    // A module whose import is at fault, while that is what it was.
    (&LACKING, &[ROOT, OPEN_C, OPEN_E, CHANGE_E, CHANGE_E], 11),
    // Not C, to which B is what it was: there the instance is LOCAL.
    (&LOCAL, &[ROOT, OPEN_D, OPEN_M, OTHER_IN_M], 17),
    // Not N, to which P is what it was: of a nested module nothing is brought.
    (&NESTED, &[ROOT, OPEN_O, OPEN_Q, MORE_IN_Q], 17),
    // Not Z, to which M is what it was: what it exports does not reach the instance of Q.
    (&BROUGHT, &[ROOT, OPEN_Z, OPEN_OTHER_Q, MORE_IN_OTHER_Q], 17),
    // Not Z, while an instance of a nested module leads where it led.
    (
        &INNER,
        &[ROOT, OPEN_OVER_INNER, OPEN_ROUND_INNER, COMMENT_IN_INNER],
        11,
    ),
    (
        &INNER,
        &[ROOT, OPEN_OVER_INNER, OPEN_ROUND_INNER, SET_IN_INNER],
        12,
    ),
];
