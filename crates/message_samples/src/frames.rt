//! Streams as editors and others send them.

use rpc_frame::{FrameNext, Framer};
use std::alloc::Global;
use std::process::Abort;
use std::test::Fail;

// A stream; the contents of its whole frames, with a bar behind each; the answer behind them; and
// whether the stream ends inside a frame.
type Row = (&'static str, &'static str, FrameNext, bool);

// Frames, and what is not one yet.
static FRAMES: [Row; 8] = [
    (
        "Content-Length: 2\r\n\r\n{}CONTENT-type:any thing\r\ncontent-length:   003\r\n\r\nabcContent-Length: 0\r\nContent-Type:\r\n\r\nContent-Length: 5\r\n\r\nxy",
        "{}|abc||",
        FrameNext::NotYet,
        true,
    ),
    (
        "Content-Length: 72\r\n\r\n{\"jsonrpc\":\"2.0\",\"id\":1,\"method\":\"initialize\",\"params\":{\"rootUri\":null}}Content-Length: 44\r\n\r\n{\"jsonrpc\":\"2.0\",\"id\":2,\"method\":\"shutdown\"}Content-Length: 33\r\n\r\n{\"jsonrpc\":\"2.0\",\"method\":\"exit\"}",
        r#"{"jsonrpc":"2.0","id":1,"method":"initialize","params":{"rootUri":null}}|{"jsonrpc":"2.0","id":2,"method":"shutdown"}|{"jsonrpc":"2.0","method":"exit"}|"#,
        FrameNext::NotYet,
        false,
    ),
    (
        "Content-Length: 16777216\r\n\r\n",
        "",
        FrameNext::NotYet,
        true,
    ),
    (
        "Content-Length: 16777217\r\n\r\n",
        "",
        FrameNext::TooLong { said: 16_777_217 },
        false,
    ),
    (
        "Content-Length: 999999999999999\r\n\r\n",
        "",
        FrameNext::TooLong {
            said: 999_999_999_999_999,
        },
        false,
    ),
    (
        "Content-Length: 16777217\r\n\r",
        "",
        FrameNext::NotYet,
        true,
    ),
    ("Content-Length: 5\r\n\r\nabc", "", FrameNext::NotYet, true),
    ("", "", FrameNext::NotYet, false),
];

// Streams that hold what no header has.
static REFUSED: [Row; 20] = [
    ("x", "", FrameNext::BadHeader { at: 0 }, false),
    ("\r", "", FrameNext::BadHeader { at: 0 }, false),
    (
        "Content-Length: x",
        "",
        FrameNext::BadHeader { at: 16 },
        false,
    ),
    (
        "Content-Length: 2\n",
        "",
        FrameNext::BadHeader { at: 17 },
        false,
    ),
    (
        "Content-Length: 2\r\r",
        "",
        FrameNext::BadHeader { at: 18 },
        false,
    ),
    (
        "Content-Length: \r\n",
        "",
        FrameNext::BadHeader { at: 16 },
        false,
    ),
    (
        "Content-Length : 2",
        "",
        FrameNext::BadHeader { at: 14 },
        false,
    ),
    (
        "Content-Length:\t2",
        "",
        FrameNext::BadHeader { at: 15 },
        false,
    ),
    (
        "Content-Length: 2 \r\n",
        "",
        FrameNext::BadHeader { at: 17 },
        false,
    ),
    (
        "Content-Length: -2",
        "",
        FrameNext::BadHeader { at: 16 },
        false,
    ),
    (
        "Content-Length: 1234567890123456",
        "",
        FrameNext::BadHeader { at: 31 },
        false,
    ),
    (
        "Content-Length: 2\r\nContent-Length: 2",
        "",
        FrameNext::BadHeader { at: 27 },
        false,
    ),
    (
        "Content-Length: 5\r\nContent-Length: 5\r\n\r\n",
        "",
        FrameNext::BadHeader { at: 27 },
        false,
    ),
    ("\r\n\r\n", "", FrameNext::BadHeader { at: 0 }, false),
    (
        "Content-Type: a\r\nContent-Type: b",
        "",
        FrameNext::BadHeader { at: 25 },
        false,
    ),
    (
        "Content-Type: a\r\n\r\n",
        "",
        FrameNext::BadHeader { at: 17 },
        false,
    ),
    (
        "Content-Type: a\nb",
        "",
        FrameNext::BadHeader { at: 15 },
        false,
    ),
    (
        "Content-Lenght: 2",
        "",
        FrameNext::BadHeader { at: 12 },
        false,
    ),
    (
        "Content-Length: 2\r\nContent-Type: a\r\nC",
        "",
        FrameNext::BadHeader { at: 36 },
        false,
    ),
    (
        "Content-Length: 2\r\n\r\n{}Content-Length: x",
        "{}|",
        FrameNext::BadHeader { at: 39 },
        false,
    ),
];

// Lines of a name and a byte that is repeated so often.
static LINES: [(&str, u8, usize, FrameNext, bool); 4] = [
    ("Content-Type:", b'a', 1011, FrameNext::NotYet, true),
    (
        "Content-Type:",
        b'a',
        1012,
        FrameNext::BadHeader { at: 1024 },
        false,
    ),
    ("Content-Length:", b' ', 1008, FrameNext::NotYet, true),
    (
        "Content-Length:",
        b' ',
        1009,
        FrameNext::BadHeader { at: 1023 },
        false,
    ),
];

// Takes the whole frames, and answers their contents with a bar behind each.
fn taken(alloc: Global, framer: &mut Framer, most: usize) -> Result<Vec<u8>, Fail> {
    let mut contents = Vec::new(alloc);
    for _ in 0..most {
        if framer.next() != FrameNext::Message {
            break;
        }
        contents.extend_from_slice(framer.content())?;
        contents.push(b'|')?;
    }
    Ok(contents)
}

fn fed(rt: &impl Abort, alloc: Global, stream: &[u8]) -> Result<Framer, Fail> {
    let mut framer = Framer::new(alloc);
    assert!(rt; stream.len() < 3000);
    framer.feed(stream)?;
    Ok(framer)
}

fn reads(
    rt: &impl Abort,
    alloc: Global,
    stream: &[u8],
    contents: &str,
    last: FrameNext,
    inside: bool,
) -> Result<(), Fail> {
    let mut framer = fed(rt, alloc, stream)?;
    assert_eq!(rt; framer.inside(), inside, "{stream:?}");
    let taken = taken(alloc, &mut framer, stream.len())?;
    assert_eq!(rt; taken.as_slice(), contents.as_bytes());
    assert_eq!(rt; framer.next(), last, "{stream:?}");
    assert_eq!(rt; framer.inside(), inside, "{stream:?}");
    Ok(())
}

#[test]
fn reads_streams(rt: HostRuntime) -> Result<(), Fail> {
    let tables: [&'static [Row]; 2] = [&FRAMES, &REFUSED];
    for table in tables {
        for (stream, contents, last, inside) in table {
            let stream = stream.as_bytes();
            reads(&rt, rt.alloc(), stream, *contents, *last, *inside)?;
        }
    }
    Ok(())
}

#[test]
fn bounds_lines(rt: HostRuntime) -> Result<(), Fail> {
    let alloc = rt.alloc();
    for (name, byte, count, last, inside) in &LINES {
        let mut line = Vec::from_slice(alloc, name.as_bytes())?;
        for _ in 0..*count {
            line.push(*byte)?;
        }
        reads(&rt, alloc, &line, "", *last, *inside)?;
    }
    Ok(())
}
