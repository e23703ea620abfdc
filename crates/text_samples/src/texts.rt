// Worked places: tabs, the three line ends, and characters of one to four bytes.
use std::alloc::Global;
use std::process::Abort;
use tla_text::{Text, TextError};

fn read(rt: &impl Abort, alloc: Global, source: &str) -> Text {
    assert!(rt; source.len() < 1000);
    Text::read(alloc, source.as_bytes()).expect(rt, source)
}

// All that is known of an offset that stands at a character.
fn places(rt: &impl Abort, text: &Text, offset: u32) -> [u32; 5] {
    let Ok(spelled) = std::str::from_utf8(text.bytes()) else {
        panic!(rt; "a text is UTF-8");
    };
    assert!(rt; spelled.is_char_boundary(offset as usize));
    assert!(rt; offset <= 1 << 27);
    let (line, column) = text.line_col(offset);
    let (utf16_line, unit) = text.utf16_of(offset);
    [line, column, text.align_col(offset), utf16_line, unit]
}

const SOURCE: &str = "a\tb\r\nx😀é\ry\n";

// Offsets in the source, each with all that is known of it.
static PLACES: [(u32, [u32; 5]); 11] = [
    (0, [0, 0, 0, 0, 0]),
    (1, [0, 1, 1, 0, 1]),
    (2, [0, 2, 8, 0, 2]),
    (3, [0, 3, 9, 0, 3]),
    (4, [0, 4, 10, 0, 4]),
    (5, [1, 0, 0, 1, 0]),
    (6, [1, 1, 1, 1, 1]),
    (10, [1, 2, 2, 1, 3]),
    (12, [1, 3, 3, 1, 4]),
    (13, [2, 0, 0, 2, 0]),
    (15, [3, 0, 0, 3, 0]),
];

// Lines and units in the source, each with its offset.
static UNITS: [(u32, u32, u32); 13] = [
    (0, 3, 3),
    (0, 4, 3),
    (0, 900, 3),
    (1, 0, 5),
    (1, 1, 6),
    (1, 2, 6),
    (1, 3, 10),
    (1, 4, 12),
    (1, 5, 12),
    (2, 1, 14),
    (3, 0, 15),
    (3, 1, 15),
    (4, 0, 15),
];

fn has_places(rt: &impl Abort, text: &Text) {
    for (offset, known) in &PLACES {
        assert!(rt; places(rt, text, *offset) == *known, "at {offset}");
    }
}

fn has_units(rt: &impl Abort, text: &Text) {
    for (line, unit, offset) in &UNITS {
        assert!(rt; text.offset_utf16(*line, *unit) == *offset, "{line}:{unit}");
    }
}

#[test]
fn finds_places(rt: HostRuntime) {
    let text = read(&rt, rt.alloc(), SOURCE);
    has_places(&rt, &text);
    has_units(&rt, &text);
}

// Puts a piece in the place of what stands from one character to another.
fn spliced(rt: &impl Abort, alloc: Global, text: &Text, start: u32, end: u32, piece: &str) -> Text {
    let Ok(spelled) = std::str::from_utf8(text.bytes()) else {
        panic!(rt; "a text is UTF-8");
    };
    assert!(rt; spelled.is_char_boundary(start as usize));
    assert!(rt; spelled.is_char_boundary(end as usize));
    assert!(rt; start <= end && text.bytes().len() < 1000 && piece.len() < 1000);
    text.spliced(alloc, start, end, piece).expect(rt, piece)
}

fn is_spliced(rt: &impl Abort, text: &Text) {
    assert!(rt; text.bytes() == b"one\r\n\rtwo".as_slice());
    assert!(rt; text.offset_utf16(2, 1) == 7);
}

#[test]
fn splices(rt: HostRuntime) {
    let text = read(&rt, rt.alloc(), "one\ntwo");
    is_spliced(&rt, &spliced(&rt, rt.alloc(), &text, 3, 4, "\r\n\r"));
}

#[test]
fn refuses_what_is_no_text(rt: HostRuntime) {
    let refused = Text::read(rt.alloc(), b"ab\xe2\x82").err();
    assert!(rt; refused == Some(TextError::NotUtf8 { at: 2 }));
}
