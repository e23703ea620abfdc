//! Whole sessions over inputs and outputs in memory.

use crate::sessions::silent::Silent;
use lsp_serve::serve;
use std::alloc::Global;
use std::process::Abort;
use std::test::Fail;
use step_count::Steps;
use tool_io::{MemorySink, MemorySource, Source};
use tool_list::List;

// The contents of an input's frames, each with the content of the frame that is written for it, or
// with none; what stands behind the frames; and the status.
type Row = (&'static [(&'static str, &'static str)], &'static str, u8);

const INITIALIZE: (&str, &str) = (
    r#"{"id":1,"method":"initialize"}"#,
    r#"{"id":1,"jsonrpc":"2.0","result":{"capabilities":{"definitionProvider":true,"documentSymbolProvider":true,"referencesProvider":true,"textDocumentSync":{"change":2,"openClose":true}},"serverInfo":{"name":"sany_tool"}}}"#,
);

const EARLY: (&str, &str) = (
    r#"{"id":1,"method":"shutdown"}"#,
    r#"{"error":{"code":-32002,"message":"server not initialized"},"id":1,"jsonrpc":"2.0"}"#,
);

const OPEN: (&str, &str) = (
    r#"{"method":"textDocument/didOpen","params":{"textDocument":{"uri":"u","text":"t"}}}"#,
    r#"{"jsonrpc":"2.0","method":"textDocument/publishDiagnostics","params":{"diagnostics":[],"uri":"u"}}"#,
);

const SHUTDOWN: (&str, &str) = (
    r#"{"id":2,"method":"shutdown"}"#,
    r#"{"id":2,"jsonrpc":"2.0","result":null}"#,
);

const EXIT: (&str, &str) = (r#"{"method":"exit"}"#, "");

// A root, at which the stand-in says that its folder failed.
const ROOT: (&str, &str) = (
    r#"{"id":1,"method":"initialize","params":{"rootUri":"u"}}"#,
    "",
);

// Changes, at which it says that a limit is met.
const CHANGE: (&str, &str) = (
    r#"{"method":"textDocument/didChange","params":{"textDocument":{"uri":"u"},"contentChanges":[{"text":"a"}]}}"#,
    "",
);

static WHOLE: Row = (&[INITIALIZE, OPEN, SHUTDOWN, EXIT], "", 0);

static ROWS: [Row; 17] = [
    (&[INITIALIZE, SHUTDOWN, EXIT], "", 0),
    // Nothing is looked at behind an exit.
    (&[INITIALIZE, SHUTDOWN, EXIT], "x", 0),
    // The input ends between two frames.
    (&[INITIALIZE, SHUTDOWN], "", 0),
    (&[INITIALIZE], "", 1),
    (&[], "", 1),
    // It ends inside a frame.
    (&[INITIALIZE, SHUTDOWN], "Content-Length: 5\r\n\r\nabc", 1),
    (&[INITIALIZE, SHUTDOWN], "Content-Le", 1),
    (&[INITIALIZE, EXIT], "", 1),
    (&[EXIT], "", 1),
    // The folder fails.
    (&[EARLY, ROOT], "", 3),
    (&[ROOT], "x", 3),
    // A message meets a limit, and a header says too much.
    (&[INITIALIZE, CHANGE], "Content-Length: 2\r\n\r\n{}", 7),
    (
        &[INITIALIZE, SHUTDOWN],
        "Content-Length: 16777217\r\n\r\n",
        7,
    ),
    // No header begins with these bytes.
    (&[INITIALIZE], "x", 8),
    (&[INITIALIZE, SHUTDOWN], "Content-Length: x", 8),
    (&[INITIALIZE, OPEN], "\r\n", 8),
    (&[], "Content-Length: 2\n", 8),
];

// How an input is cut and how an output takes what is written, and the numbers of the calls at which
// they fail, or 0.
#[derive(Clone, Copy)]
struct Devices {
    byte_by_byte: bool,
    read_fails: u32,
    write_fails: u32,
}

const SMOOTH: Devices = Devices {
    byte_by_byte: false,
    read_fails: 0,
    write_fails: 0,
};

// What a session answered, wrote and left of its input.
#[derive(Drop)]
struct Ran {
    status: u8,
    output: MemorySink,
    left: usize,
}

fn push_frame(alloc: Global, content: &str, bytes: &mut Vec<u8>) -> Result<(), Fail> {
    if content.is_empty() {
        return Ok(());
    }
    let length = content.len();
    let frame = format!(in alloc; "Content-Length: {length}\r\n\r\n{content}")?;
    bytes.extend_from_slice(frame.as_bytes())?;
    Ok(())
}

fn stream_of(alloc: Global, row: &Row) -> Result<Vec<u8>, Fail> {
    let (messages, tail, _) = row;
    let mut stream = Vec::new(alloc);
    for (content, _) in *messages {
        push_frame(alloc, *content, &mut stream)?;
    }
    stream.extend_from_slice(tail.as_bytes())?;
    Ok(stream)
}

// What is written for the messages that are whole in so many bytes.
fn answers_within(alloc: Global, row: &Row, count: usize) -> Result<Vec<u8>, Fail> {
    let (messages, _, _) = row;
    let mut stream = Vec::new(alloc);
    let mut answers = Vec::new(alloc);
    for (content, answer) in *messages {
        push_frame(alloc, *content, &mut stream)?;
        if stream.len() <= count {
            push_frame(alloc, *answer, &mut answers)?;
        }
    }
    Ok(answers)
}

// So many ones.
fn ones(alloc: Global, count: usize) -> Result<List<u32>, Fail> {
    let mut numbers = List::new(alloc);
    for _ in 0..count {
        numbers.push(1)?;
    }
    Ok(numbers)
}

// The number of the call behind so many.
fn call_behind(count: usize) -> u32 {
    match u32::try_from(count) {
        Ok(count) => count.saturating_add(1),
        Err(_) => u32::MAX,
    }
}

fn only(alloc: Global, number: u32) -> Result<List<u32>, Fail> {
    let mut numbers = List::new(alloc);
    numbers.push(number)?;
    Ok(numbers)
}

// How many bytes an input of at most so many still gives.
fn left_in(input: &mut MemorySource, most: usize) -> usize {
    let mut buffer = [0; 16];
    let mut left: usize = 0;
    for _ in 0..most {
        if let Ok(count) = input.read(&mut buffer) {
            left = left.saturating_add(count);
        }
    }
    left
}

fn run(alloc: Global, stream: &[u8], devices: Devices) -> Result<Ran, Fail> {
    let bytes = List::from_vec(Vec::from_slice(alloc, stream)?);
    let cuts = ones(
        alloc,
        if devices.byte_by_byte {
            stream.len()
        } else {
            0
        },
    )?;
    let most = if devices.byte_by_byte { 1 } else { 100 };
    let mut input = MemorySource::new(bytes, cuts, only(alloc, devices.read_fails)?);
    let mut output = MemorySink::new(alloc, 1000, most, only(alloc, devices.write_fails)?)?;
    let answers = Silent::new(alloc);
    let (status, _) = serve(alloc, answers, &mut input, &mut output, &mut Steps::new(()));
    let left = left_in(&mut input, stream.len());
    Ok(Ran {
        status,
        output,
        left,
    })
}

fn expect(rt: &impl Abort, ran: &Ran, status: u8, written: &[u8]) {
    assert_eq!(rt; ran.output.bytes(), written);
    assert_eq!(rt; ran.status, status);
}

#[test]
fn ends_with_each_status(rt: HostRuntime) -> Result<(), Fail> {
    let alloc = rt.alloc();
    for row in &ROWS {
        let (_, _, status) = row;
        let stream = stream_of(alloc, row)?;
        let answers = answers_within(alloc, row, stream.len())?;
        for byte_by_byte in [false, true] {
            let devices = Devices {
                byte_by_byte,
                ..SMOOTH
            };
            let ran = run(alloc, &stream, devices)?;
            expect(&rt, &ran, *status, &answers);
        }
    }
    Ok(())
}

// At each read in turn: all is written for the messages that were whole by then.
#[test]
fn answers_before_it_reads_on(rt: HostRuntime) -> Result<(), Fail> {
    let alloc = rt.alloc();
    let stream = stream_of(alloc, &WHOLE)?;
    for read in 0..stream.len() {
        let devices = Devices {
            byte_by_byte: true,
            read_fails: call_behind(read),
            write_fails: 0,
        };
        let ran = run(alloc, &stream, devices)?;
        expect(&rt, &ran, 4, &answers_within(alloc, &WHOLE, read)?);
    }
    Ok(())
}

// At every eighth write: what was written before stands there, and no message behind it was read.
#[test]
fn ends_where_the_output_fails(rt: HostRuntime) -> Result<(), Fail> {
    let alloc = rt.alloc();
    let stream = stream_of(alloc, &WHOLE)?;
    let answers = answers_within(alloc, &WHOLE, stream.len())?;
    for turn in 0..answers.len() / 8 {
        let written = turn * 8;
        let devices = Devices {
            byte_by_byte: true,
            read_fails: 0,
            write_fails: call_behind(written),
        };
        let ran = run(alloc, &stream, devices)?;
        expect(&rt, &ran, 5, &answers[..written]);
        let read = stream.len().saturating_sub(ran.left);
        let answered = answers_within(alloc, &WHOLE, read)?;
        let before = answers_within(alloc, &WHOLE, read.saturating_sub(1))?;
        assert!(rt;
            before.len() <= written && written < answered.len(),
            "{written}"
        );
    }
    Ok(())
}
