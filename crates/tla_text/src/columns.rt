//! Columns and offsets within one line.
ghost use Rattle.std.specs.Prelude.{◌≡◌, ◌+◌, ◌*◌, ◌++◌, ◌≤◌, ◌<◌, ◌^◌, [], length, MatchOption, encode_utf8};
ghost use Rattle.std.specs.Str.{chars, IsUtf8};
ghost use Rattle.tla_text.specs.Places.{next_column, bytes_of_units, stops_before, utf16_len, ends_line, begins_with_line_feed, place_after};
ghost use Rattle.tla_text.specs.Places as places;
ghost use Rattle.tla_text.specs.LineStarts as lines;

use crate::lines::begins_with_line_feed as begins_with;
use crate::{Measure, Place};

const TAB: u32 = 8;

impl Measure {
    // The column after a character in a column.
    fn after(self, column: u32, c: char) -> u32
        requires { next_column self column c < 2 ^ 32 }
        ensures { result ≡ next_column self column c }
    {
        match self {
            Measure::Characters => column + 1,
            Measure::Alignment => {
                if c == '\t' {
                    TAB * (column / TAB + 1)
                } else {
                    column + 1
                }
            }
            Measure::Utf16 => column + utf16_len(c),
        }
    }
}

fn utf16_len(c: char) -> u32
    ensures { result ≡ utf16_len c }
{
    c.len_utf16() as u32
}

// The first character of a text, and what follows it.
fn first_char(text: &str) -> Option<(char, &str)>
    ensures { MatchOption result (text.now ≡ []) (λ p. (text.now ≡ encode_utf8 p.0 ++ p.1.now)
        × IsUtf8 p.1.now) }
{
    let mut chars = text.chars();
    let first = chars.next()?;
    Some((first, chars.as_str()))
}

/// The column after a piece that begins a line and ends none.
pub(crate) fn column_after(measure: Measure, piece: &str) -> u32
    requires { lines.column_after measure 0 (chars piece.now) < 2 ^ 32 }
    ensures { result ≡ lines.column_after measure 0 (chars piece.now) }
{
    let mut rest = piece;
    let mut column = 0;
    while let Some((c, more)) = first_char(rest) {
        column = measure.after(column, c);
        rest = more;
    }
    column
}

// Whether a character ends a line, before the rest of a piece and what follows the piece.
fn ends_line(c: char, more: &str, after: &str) -> bool
    ensures { result ≡ ends_line c (chars more.now ++ chars after.now) }
{
    c == '\n' || (c == '\r' && !line_feed_comes(more, after))
}

fn line_feed_comes(more: &str, after: &str) -> bool
    ensures { result ≡ begins_with_line_feed (chars more.now ++ chars after.now) }
{
    if more.is_empty() {
        return begins_with(after.as_bytes());
    }
    begins_with(more.as_bytes())
}

// The place behind a character.
fn behind(measure: Measure, place: Place, c: char, ends: bool) -> Place
    requires line { place.line + 1 < 2 ^ 32 }
    requires column { place.column + 8 < 2 ^ 32 }
    ensures { result ≡ places.behind measure place c ends }
{
    if ends {
        return Place {
            line: place.line + 1,
            column: 0,
        };
    }
    Place {
        line: place.line,
        column: measure.after(place.column, c),
    }
}

/// The place behind a piece of text, by the place before it and what follows the piece.
pub(crate) fn place_behind(measure: Measure, place: Place, piece: &str, after: &str) -> Place
    requires line { place.line + length piece.now < 2 ^ 32 }
    requires column { place.column + 8 * length piece.now < 2 ^ 32 }
    ensures { result ≡ place_after measure place (chars piece.now) (chars after.now) }
{
    let mut rest = piece;
    let mut place = place;
    while let Some((c, more)) = first_char(rest) {
        place = behind(measure, place, c, ends_line(c, more, after));
        rest = more;
    }
    place
}

// Whether so many units, counted from the start of a line, end before a character.
fn stops_before(units: u32, c: char) -> bool
    ensures { result ≡ stops_before units c }
{
    c == '\n' || c == '\r' || units < utf16_len(c)
}

/// How many bytes stand before a number of units of UTF-16 in the line that a text begins with.
pub(crate) fn bytes_of_units(units: u32, text: &str) -> usize
    ensures value { result ≡ bytes_of_units units (chars text.now) }
    ensures within { result ≤ length text.now }
{
    let mut rest = text;
    let mut left = units;
    let mut bytes = 0;
    while let Some((c, more)) = first_char(rest) {
        if stops_before(left, c) {
            return bytes;
        }
        left -= utf16_len(c);
        bytes += c.len_utf8();
        rest = more;
    }
    bytes
}
