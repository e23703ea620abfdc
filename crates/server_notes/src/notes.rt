// The notes on faults.
ghost use Rattle.std.specs.Prelude.{◌≡◌, IfOk};
ghost use Rattle.std.specs.List.{All};
ghost use Rattle.server_notes.specs.Areas as areas;
ghost use Rattle.text_cursor.specs.Cursors.{IsCursor, cursor_at};
ghost use Rattle.text_cursor.specs.declared.cursor.Columns.TheVariants.{Utf16};
ghost use Rattle.tla_lexeme.specs.Spans.{IsPlaced};

use lsp_wire::{Area, Note, Position};
use std::alloc::Global;
use text_cursor::{Columns, Cursor};
use tla_model::Diagnostic;
use tla_symbols::Span;
use tla_text::{Place, Text};
use tool_list::{List, Memory};

fn position_of(place: Place) -> Position
    ensures { result ≡ areas.as_position place }
{
    Position {
        line: place.line,
        unit: place.column,
    }
}

/// The area of a span of a text, by the cursor at its start: spans in the order of the text cost one
/// walk.
pub fn area_from(text: &Text, start: Cursor, span: Span) -> Area
    requires placed { IsPlaced text.now span }
    requires cursor { IsCursor Utf16 text.now start }
    requires start { start ≡ cursor_at Utf16 text.now span.start }
    ensures { result ≡ areas.area_at text.now span }
{
    let end = start.moved(text, Columns::Utf16, span.end);
    Area {
        start: position_of(start.place),
        end: position_of(end.place),
    }
}

/// The area of a span of a text, in lines from 0 and UTF-16 units.
pub fn area_of(text: &Text, span: Span) -> Area
    requires { IsPlaced text.now span }
    ensures { result ≡ areas.area_at text.now span }
{
    let start = Cursor::start(text, Columns::Utf16).moved(text, Columns::Utf16, span.start);
    area_from(text, start, span)
}

/// The notes on faults of a text, in their order. Each place is counted from the one before, so that
/// faults in the order of the text cost one walk.
pub fn notes_on(alloc: Global, text: &Text, faults: &[Diagnostic]) -> Result<List<Note>, Memory>
    requires { All (λ fault. IsPlaced text.now fault.span) faults.now }
    ensures { IfOk result (λ notes. notes ≡ areas.notes_on text.now faults.now) }
{
    let mut notes = List::new(alloc);
    let mut cursor = Cursor::start(text, Columns::Utf16);
    for fault in faults {
        cursor = cursor.moved(text, Columns::Utf16, fault.span.start);
        notes.push(Note {
            code: fault.code,
            area: area_from(text, cursor, fault.span),
        })?;
    }
    Ok(notes)
}
