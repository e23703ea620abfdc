// An offset of a text with its place.
ghost use Rattle.std.specs.Prelude.{◌≡◌};
ghost use Rattle.std.specs.Str.{IsCharBoundary};
ghost use Rattle.text_cursor.specs.Cursors.{IsCursor, cursor_at, measure_of};
ghost use Rattle.tla_text.specs.Places.{place_at};

use tla_text::{Measure, Place, Text};

/// How the columns of a place are counted: as by `Measure`, but for alignment, whose places are known of
/// low offsets alone.
#[derive(Clone, Copy, Debug, PartialEq, Eq)]
pub enum Columns {
    /// Each character is one.
    Characters,
    /// Each character is one or two units of UTF-16, as LSP counts.
    Utf16,
}

/// Where a walk through a text has come to: an offset in bytes, with its place.
#[derive(Clone, Copy)]
pub struct Cursor {
    pub offset: u32,
    pub place: Place,
}

// The last offset to which places go forward: no text of a module is longer.
const FORWARD: u32 = 1 << 27;

impl Columns {
    fn measure(self) -> Measure
        ensures { result ≡ measure_of self }
    {
        match self {
            Columns::Characters => Measure::Characters,
            Columns::Utf16 => Measure::Utf16,
        }
    }

    // The place of an offset, from the start of its line.
    fn place_of(self, text: &Text, offset: u32) -> Place
        requires { IsCharBoundary text.now offset }
        ensures { result ≡ place_at (measure_of self) text.now offset }
    {
        let (line, column) = match self {
            Columns::Characters => text.line_col(offset),
            Columns::Utf16 => text.utf16_of(offset),
        };
        Place { line, column }
    }
}

impl Cursor {
    /// The cursor at the start of a text.
    pub fn start(text: &Text, columns: Columns) -> Cursor
        ensures { IsCursor columns text.now result }
    {
        // The proof needs that a text is UTF-8.
        let _bytes = text.bytes();
        Cursor {
            offset: 0,
            place: columns.place_of(text, 0),
        }
    }

    /// The cursor at an offset, by this one, which is mostly before it: what stands between the two is
    /// read, or the line of the offset alone where that is a further one.
    pub fn moved(self, text: &Text, columns: Columns, offset: u32) -> Cursor
        requires from { IsCursor columns text.now self }
        requires offset { IsCharBoundary text.now offset }
        ensures at { result ≡ cursor_at columns text.now offset }
        ensures cursor { IsCursor columns text.now result }
    {
        let place = if self.offset <= offset && offset <= FORWARD {
            text.place_near(columns.measure(), self.offset, self.place, offset)
        } else {
            columns.place_of(text, offset)
        };
        Cursor { offset, place }
    }
}
