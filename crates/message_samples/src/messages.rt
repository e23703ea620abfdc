//! Messages as clients send them, and the bytes of what is written.

mod contents;
mod words;

use lsp_wire::{
    Area, Id, Location, Note, Position, Reply, Symbol, read_message, write_error, write_notes,
    write_reply,
};
use std::alloc::{AllocError, Global};
use std::process::Abort;
use std::test::Fail;
use tool_list::{Chars, List, Memory};

// What is written.
#[derive(Clone, Copy)]
enum Sent {
    Initialized,
    Null,
    NotInitialized,
    NoMessage,
    NoNotes,
    OneNote,
    Places,
    Symbols,
}

// What is written, each with the length of its content and the content.
static WRITTEN: [(Sent, usize, &str); 8] = [
    (
        Sent::Initialized,
        217,
        r#"{"id":1,"jsonrpc":"2.0","result":{"capabilities":{"definitionProvider":true,"documentSymbolProvider":true,"referencesProvider":true,"textDocumentSync":{"change":2,"openClose":true}},"serverInfo":{"name":"sany_tool"}}}"#,
    ),
    (Sent::Null, 38, r#"{"id":2,"jsonrpc":"2.0","result":null}"#),
    (
        Sent::NotInitialized,
        83,
        r#"{"error":{"code":-32002,"message":"server not initialized"},"id":1,"jsonrpc":"2.0"}"#,
    ),
    (
        Sent::NoMessage,
        75,
        r#"{"error":{"code":-32700,"message":"parse error"},"id":null,"jsonrpc":"2.0"}"#,
    ),
    (
        Sent::NoNotes,
        112,
        r#"{"jsonrpc":"2.0","method":"textDocument/publishDiagnostics","params":{"diagnostics":[],"uri":"file:///w/A.tla"}}"#,
    ),
    (
        Sent::OneNote,
        257,
        r#"{"jsonrpc":"2.0","method":"textDocument/publishDiagnostics","params":{"diagnostics":[{"code":"E401","message":"unknown symbol","range":{"end":{"character":6,"line":1},"start":{"character":5,"line":1}},"severity":1,"source":"sany"}],"uri":"file:///w/A.tla"}}"#,
    ),
    (
        Sent::Places,
        139,
        r#"{"id":"a\"","jsonrpc":"2.0","result":[{"range":{"end":{"character":6,"line":1},"start":{"character":5,"line":1}},"uri":"file:///w/A.tla"}]}"#,
    ),
    (
        Sent::Symbols,
        407,
        r#"{"id":3,"jsonrpc":"2.0","result":[{"children":[{"kind":13,"name":"x","range":{"end":{"character":6,"line":1},"start":{"character":5,"line":1}},"selectionRange":{"end":{"character":6,"line":1},"start":{"character":5,"line":1}}}],"kind":2,"name":"M","range":{"end":{"character":6,"line":1},"start":{"character":5,"line":1}},"selectionRange":{"end":{"character":6,"line":1},"start":{"character":5,"line":1}}}]}"#,
    ),
];

fn reads(rt: &impl Abort, alloc: Global, content: &[u8], want: &str) -> Result<(), Fail> {
    let message = read_message(alloc, content)?;
    let mut said = words::Words::new(alloc);
    said.message(alloc, &message)?;
    assert_eq!(rt; said.as_str(), want, "{want}");
    Ok(())
}

// So many lists in one another.
fn nested(alloc: Global, depth: usize) -> Result<Vec<u8>, AllocError> {
    let mut content = Vec::new(alloc);
    for _ in 0..depth {
        content.push(b'[')?;
    }
    for _ in 0..depth {
        content.push(b']')?;
    }
    Ok(content)
}

#[test]
fn reads_messages(rt: HostRuntime) -> Result<(), Fail> {
    let alloc = rt.alloc();
    for (content, want) in &contents::READ {
        reads(&rt, alloc, content.as_bytes(), *want)?;
    }
    reads(
        &rt,
        alloc,
        b"{\"id\":\"\xff\",\"method\":\"shutdown\"}",
        "-32700 null",
    )?;
    for (depth, want) in [(127, "-32600 null"), (128, "-32700 null")] {
        reads(&rt, alloc, &nested(alloc, depth)?, want)?;
    }
    Ok(())
}

static AREA: Area = Area {
    start: Position { line: 1, unit: 5 },
    end: Position { line: 1, unit: 6 },
};

fn uri(alloc: Global) -> Result<Chars, Memory> {
    Chars::from_str(alloc, "file:///w/A.tla")
}

fn places(alloc: Global) -> Result<Reply, Memory> {
    let uri = uri(alloc)?;
    let mut places = List::new(alloc);
    places.push(Location { uri, area: AREA })?;
    Ok(Reply::Places(places))
}

fn symbol(
    alloc: Global,
    name: &str,
    kind: u8,
    children: Option<List<Symbol>>,
) -> Result<List<Symbol>, Memory> {
    let name = Chars::from_str(alloc, name)?;
    let mut symbols = List::new(alloc);
    symbols.push(Symbol {
        name,
        kind,
        area: AREA,
        name_area: AREA,
        children,
    })?;
    Ok(symbols)
}

fn symbols(alloc: Global) -> Result<Reply, Memory> {
    let children = symbol(alloc, "x", 13, None)?;
    let symbols = symbol(alloc, "M", 2, Some(children))?;
    Ok(Reply::Symbols(symbols))
}

fn one_note(alloc: Global) -> Result<List<Note>, Memory> {
    let mut notes = List::new(alloc);
    notes.push(Note {
        code: 401,
        area: AREA,
    })?;
    Ok(notes)
}

fn write(alloc: Global, sent: Sent, out: &mut List<u8>) -> Result<(), Memory> {
    match sent {
        Sent::Initialized => write_reply(alloc, &Id::Int(1), &Reply::Initialized, out),
        Sent::Null => write_reply(alloc, &Id::Int(2), &Reply::Null, out),
        Sent::NotInitialized => write_error(alloc, &Id::Int(1), -32002, out),
        Sent::NoMessage => write_error(alloc, &Id::Null, -32700, out),
        Sent::NoNotes => write_notes(alloc, &uri(alloc)?, &List::new(alloc), out),
        Sent::OneNote => write_notes(alloc, &uri(alloc)?, &one_note(alloc)?, out),
        Sent::Places => {
            let id = Id::Text(Chars::from_str(alloc, r#"a""#)?);
            write_reply(alloc, &id, &places(alloc)?, out)
        }
        Sent::Symbols => write_reply(alloc, &Id::Int(3), &symbols(alloc)?, out),
    }
}

#[test]
fn writes_frames(rt: HostRuntime) -> Result<(), Fail> {
    let alloc = rt.alloc();
    let mut out = List::new(alloc);
    let mut want = String::new(alloc);
    for (sent, length, content) in &WRITTEN {
        write(alloc, *sent, &mut out)?;
        let frame = format!(in alloc; "Content-Length: {length}\r\n\r\n{content}")?;
        want.push_str(frame.as_str())?;
    }
    assert_eq!(rt; out.as_slice(), want.as_bytes());
    Ok(())
}
