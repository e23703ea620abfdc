// Notes in units of UTF-16.
use lsp_wire::{Area, Note, Position};
use server_notes::notes_on;
use tla_model::Diagnostic;
use tla_symbols::Span;
use tla_text::Text;

#[test]
fn counts_units(rt: HostRuntime) {
    let text = Text::read(rt.alloc(), "a\n😀b".as_bytes()).expect(&rt, "a text");
    // The letter behind the pair.
    let span = Span {
        start: text.offset_utf16(1, 2),
        end: text.offset_utf16(1, 3),
    };
    let faults = [Diagnostic { code: 402, span }];
    let notes = notes_on(rt.alloc(), &text, &faults).expect(&rt, "room");
    let start = Position { line: 1, unit: 2 };
    let end = Position { line: 1, unit: 3 };
    let area = Area { start, end };
    assert_eq!(&rt; notes.as_slice(), [Note { code: 402, area }].as_slice());
}
