// A small module that is changed often, over large ones.
use crate::tests::sessions::{INITIALIZED, ROOT};
use crate::tests::{add_frame, frames_of, module_of, serve};
use std::alloc::Global;
use std::test::Fail;
use tool_io::FileBytes;
use tool_list::{List, Memory};

// How many uses of a name each large module has.
const USES: usize = 200_000;

// How often the small module is changed.
const CHANGES: usize = 2_000;

const OPEN_S: &str =
    r#"{"method":"textDocument/didOpen","params":{"textDocument":{"uri":"file:///w/S.tla","text":"---- MODULE S ----\nEXTENDS B0, B1, B2, B3\nU == F0\n====\n"}}}"#;

const CLEAN_S: &str =
    r#"{"jsonrpc":"2.0","method":"textDocument/publishDiagnostics","params":{"diagnostics":[],"uri":"file:///w/S.tla"}}"#;

// The pieces of a change of the body of `U`, round the old end and the new body.
const CHANGE: &str =
    r#"{"method":"textDocument/didChange","params":{"textDocument":{"uri":"file:///w/S.tla"},"contentChanges":[{"range":{"start":{"line":2,"character":5},"end":{"line":2,"character":"#;

const BODY: &str = r#"}},"text":""#;

const END: &str = r#""}]}}"#;

// A large module, which brings one small definition alone.
fn large_module(alloc: Global, number: usize) -> Result<FileBytes, Memory> {
    let mut lines = format!(in alloc; "LOCAL V{number} == 1\nLOCAL W{number} == <<V{number}")?;
    let another = format!(in alloc; ", V{number}")?;
    for _ in 1..USES {
        lines.push_str(another.as_str())?;
    }
    let last = format!(in alloc; ">>\nF{number} == 1")?;
    lines.push_str(last.as_str())?;
    let name = format!(in alloc; "B{number}")?;
    module_of(alloc, name.as_str(), lines.as_str())
}

// The large modules, and the small one that extends them.
fn folder(alloc: Global) -> Result<List<FileBytes>, Memory> {
    let mut files = List::new(alloc);
    for number in 0..4usize {
        files.push(large_module(alloc, number)?)?;
    }
    files.push(module_of(alloc, "S", "EXTENDS B0, B1, B2, B3\nU == F0")?)?;
    Ok(files)
}

// The small module is opened, and the body of its definition becomes each number in turn.
fn input(alloc: Global) -> Result<Vec<u8>, Memory> {
    let mut bytes = frames_of(alloc, &[ROOT, OPEN_S])?;
    let mut old = String::from_str(alloc, "F0")?;
    for number in 1..=CHANGES {
        let end = 5 + old.len();
        let new = format!(in alloc; "{number}")?;
        let change = format!(in alloc; "{CHANGE}{end}{BODY}{new}{END}")?;
        add_frame(alloc, &mut bytes, change.as_str())?;
        old = new;
    }
    Ok(bytes)
}

// The eight built-in modules and the five files are checked once, then the small module alone.
#[test]
fn checks_a_small_module_over_large_ones(rt: HostRuntime) -> Result<(), Fail> {
    let alloc = rt.alloc();
    let ran = serve(alloc, folder(alloc)?, input(alloc)?, 1 << 20)?;
    assert_eq!(rt; ran.ticks, 13 + CHANGES as u64);
    let first = frames_of(alloc, &[INITIALIZED])?;
    let notice = frames_of(alloc, &[CLEAN_S])?;
    assert_ne!(rt; notice.len(), 0);
    let written = ran.output.bytes();
    let notices = written.strip_prefix(first.as_slice()).ok_or("no answer")?;
    assert_eq!(rt; notices.len() / notice.len(), 1 + CHANGES);
    for one in notices.chunks(notice.len()) {
        assert_eq!(rt; one, notice.as_slice());
    }
    assert_eq!(rt; ran.status, 1);
    Ok(())
}
