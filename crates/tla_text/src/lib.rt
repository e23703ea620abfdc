//! The text of a module, and where things stand in it.
//!
//! A text is valid UTF-8. Lines end at a line feed, at a carriage return, and at both in a row.
//! Offsets are in bytes, lines and columns count from 0. The text keeps where its lines start, so
//! that a place is found without reading the lines before it.
//!
//! Knows nothing of the language that the text is written in, nor of files.
#![tactic(auto)]

mod columns;
mod lines;

ghost use Rattle.std.specs.Prelude.{◌≡◌, ◌<◌, ◌≤◌, ◌^◌, ◌∷◌, drop, length, slice_index, take, IfOk, MatchResult};
ghost use Rattle.std.specs.Str.{IsCharBoundary, IsUtf8, chars};
ghost use Rattle.tla_text.specs.Places.{place_at, offset_of_unit, spliced, IsTextError};
ghost use Rattle.tla_text.specs.LineStarts as lines;
ghost use Rattle.tla_text.specs.LineStarts.{starts_after, IsLineOf};
ghost use Rattle.tla_text.specs.declared.Measure.{Measure};
ghost use Rattle.tla_text.specs.declared.Measure.TheVariants.{Alignment, Characters, Utf16};

use columns::{bytes_of_units, column_after, place_behind};
use lines::{line_starts, push_moved, push_starts};
use std::alloc::{AllocError, Global};
use std::marker::Model;
use tool_list::Memory;

/// How a column counts the characters before it.
#[derive(Clone, Copy, Debug, PartialEq, Eq)]
pub enum Measure {
    /// Each character is one column.
    Characters,
    /// Each character is one column, but a tab reaches to the next multiple of 8: the column in
    /// which bullets are aligned (*Specifying Systems*, section 15.2.2).
    Alignment,
    /// Each character is one or two units of UTF-16, as LSP counts.
    Utf16,
}

/// A line, and a column in it, both from 0.
#[derive(Clone, Copy, Debug, PartialEq, Eq)]
pub struct Place {
    pub line: u32,
    pub column: u32,
}

/// Why bytes were not read as a text.
#[derive(Clone, Copy, Debug, PartialEq, Eq)]
pub enum TextError {
    /// The bytes are not UTF-8. The longest prefix that is has this length.
    NotUtf8 { at: u64 },
    /// There was no room.
    Memory,
}

impl From<AllocError> for TextError {
    ghost use Rattle.tla_text.specs.declared.TextError.{TextError};
    ghost use Rattle.std.specs.Prelude.{◌≡◌};

    ghost from_gives = { λ _ e. e ≡ TextError.Memory };

    fn from(_: AllocError) -> Self {
        TextError::Memory
    }
}

/// The text of a module: valid UTF-8 of fewer than 2^31 bytes, which contracts see as its bytes.
pub struct Text {
    text: String,
    starts: Vec<u32>,
}

// By hand, so that a proof meets one call wherever a value ends.
impl Drop for Text {
    fn drop(self) {
        let Text { text: _, starts: _ } = self;
    }
}

impl Model for Text {
    ghost use Rattle.std.specs.Prelude.{List, string_bytes, ℕ, length, ◌≡◌, ◌<◌, ◌^◌};
    ghost use Rattle.tla_text.specs.LineStarts.{starts_after};

    ghost Value = { List ℕ };

    ghost view = { λ t. string_bytes t.text };

    ghost invariant = { λ t. (length (string_bytes t.text) < 2 ^ 31)
        × (t.starts.items ≡ starts_after 0 (string_bytes t.text)) };
}

impl Text {
    /// The text that these bytes are. `NotUtf8` comes exactly where they are not UTF-8.
    pub fn read(alloc: Global, bytes: &[u8]) -> Result<Text, TextError>
        requires { length bytes.now < 2 ^ 31 }
        ensures { MatchResult result (λ text. (text ≡ bytes.now)
            × IsUtf8 bytes.now) (IsTextError bytes.now) }
    {
        match std::str::from_utf8(bytes) {
            Ok(text) => Ok(Text::from_str(alloc, text)?),
            Err(error) => Err(TextError::NotUtf8 {
                at: error.valid_up_to() as u64,
            }),
        }
    }

    /// The text that bytes of UTF-8 are.
    pub fn from_utf8(alloc: Global, bytes: &[u8]) -> Result<Text, Memory>
        requires short { length bytes.now < 2 ^ 31 }
        requires utf8 { IsUtf8 bytes.now }
        ensures { IfOk result (λ text. text ≡ bytes.now) }
    {
        match Text::read(alloc, bytes) {
            Ok(text) => Ok(text),
            Err(TextError::Memory) => Err(Memory),
            Err(TextError::NotUtf8 { at: _ }) => unreachable!(),
        }
    }

    fn from_str(alloc: Global, text: &str) -> Result<Text, AllocError>
        requires { length text.now < 2 ^ 31 }
        ensures { IfOk result (λ made. made ≡ text.now) }
    {
        let text = String::from_str(alloc, text)?;
        let starts = line_starts(alloc, text.as_bytes())?;
        Ok(Text { text, starts })
    }

    /// The bytes of the text.
    pub fn bytes(&self) -> &[u8]
        ensures value { result.now ≡ self.now }
        ensures utf8 { IsUtf8 self.now }
    {
        self.text.as_bytes()
    }

    /// The offset of the text's end: how many bytes it has.
    pub fn end(&self) -> u32
        ensures { result ≡ length self.now }
    {
        self.text.len() as u32
    }

    /// The line of an offset, and the number of characters before it in the line, both from 0. A tab
    /// is one character. The offset is at most the length and stands at a character.
    pub fn line_col(&self, offset: u32) -> (u32, u32)
        requires { IsCharBoundary self.now offset }
        ensures line { result.0 ≡ (place_at Characters self.now offset).line }
        ensures column { result.1 ≡ (place_at Characters self.now offset).column }
    {
        let line = self.line_of(offset);
        (
            line as u32,
            column_after(Measure::Characters, self.line_before(line, offset)),
        )
    }

    /// The alignment column of an offset, from 0: a tab reaches to the next multiple of 8 (*Specifying
    /// Systems*, section 15.2.2). The offset is at most the length and stands at a character.
    pub fn align_col(&self, offset: u32) -> u32
        requires at_char { IsCharBoundary self.now offset }
        requires low { offset ≤ 2 ^ 27 }
        ensures { result ≡ (place_at Alignment self.now offset).column }
    {
        self.align_place(offset).column
    }

    /// The line and the alignment column of an offset, as `line_col` and `align_col` give them.
    pub fn align_place(&self, offset: u32) -> Place
        requires at_char { IsCharBoundary self.now offset }
        requires low { offset ≤ 2 ^ 27 }
        ensures { result ≡ place_at Alignment self.now offset }
    {
        let line = self.line_of(offset);
        let column = column_after(Measure::Alignment, self.line_before(line, offset));
        Place { line, column }
    }

    /// The line and the alignment column of an offset, by those of an offset before it. Only what stands
    /// between the two is read, so many places in a row cost no more than one walk over the text.
    pub fn align_further(&self, from: u32, place: Place, to: u32) -> Place
        requires from_at_char { IsCharBoundary self.now from }
        requires to_at_char { IsCharBoundary self.now to }
        requires in_order { from ≤ to }
        requires low { to ≤ 2 ^ 27 }
        requires known { place ≡ place_at Alignment self.now from }
        ensures { result ≡ place_at Alignment self.now to }
    {
        self.further(Measure::Alignment, from, place, to)
    }

    /// The line and the column of an offset, by those of an offset before it. What stands between the
    /// two is read, or the line up to the offset where that is a further one: many places in a row
    /// cost no more than one walk over the text, and a text of many lines is not read whole.
    pub fn place_near(&self, measure: Measure, from: u32, place: Place, to: u32) -> Place
        requires from_at_char { IsCharBoundary self.now from }
        requires to_at_char { IsCharBoundary self.now to }
        requires in_order { from ≤ to }
        requires low { to ≤ 2 ^ 27 }
        requires known { place ≡ place_at measure self.now from }
        ensures { result ≡ place_at measure self.now to }
    {
        let line = self.line_of(to);
        if line == place.line {
            return self.further(measure, from, place, to);
        }
        let column = column_after(measure, self.line_before(line, to));
        Place { line, column }
    }

    // The place of an offset, by that of an offset before it. What stands between them is read.
    fn further(&self, measure: Measure, from: u32, place: Place, to: u32) -> Place
        requires from_at_char { IsCharBoundary self.now from }
        requires to_at_char { IsCharBoundary self.now to }
        requires in_order { from ≤ to }
        requires low { to ≤ 2 ^ 27 }
        requires known { place ≡ place_at measure self.now from }
        ensures { result ≡ place_at measure self.now to }
    {
        let text = self.text.as_str();
        let between = &text[from as usize..to as usize];
        place_behind(measure, place, between, &text[to as usize..])
    }

    /// The line of an offset and the number of UTF-16 units before it in the line, both from 0, as LSP
    /// counts them (LSP 3.17, Position). The offset is at most the length and stands at a character.
    pub fn utf16_of(&self, offset: u32) -> (u32, u32)
        requires { IsCharBoundary self.now offset }
        ensures line { result.0 ≡ (place_at Utf16 self.now offset).line }
        ensures unit { result.1 ≡ (place_at Utf16 self.now offset).column }
    {
        let line = self.line_of(offset);
        (
            line as u32,
            column_after(Measure::Utf16, self.line_before(line, offset)),
        )
    }

    /// The offset of a line and a number of UTF-16 units in it. A unit past the line's end means the
    /// line's end, before the characters that end it. A line past the last means the text's end. A
    /// place inside a surrogate pair means the pair's start. The offset is at most the length and
    /// stands at a character.
    pub fn offset_utf16(&self, line: u32, unit: u32) -> u32
        ensures value { result ≡ offset_of_unit self.now line unit }
        ensures at_char { IsCharBoundary self.now result }
    {
        if line as usize > self.starts.as_slice().len() {
            return self.bytes().len() as u32;
        }
        let start = self.start_of(line);
        let rest = &self.text.as_str()[start as usize..];
        start + bytes_of_units(unit, rest) as u32
    }

    /// A text with a piece in place of the bytes from `start` to `end`, which stand at characters. It has
    /// fewer than 2^31 bytes. Lines are looked for in the piece alone: those before it and behind it are
    /// known.
    pub fn spliced(&self, alloc: Global, start: u32, end: u32, piece: &str) -> Result<Text, Memory>
        requires start_at_char { IsCharBoundary self.now start }
        requires end_at_char { IsCharBoundary self.now end }
        requires in_order { start ≤ end }
        requires room { length (spliced self.now start end piece.now) < 2 ^ 31 }
        ensures { IfOk result (λ made. made ≡ spliced self.now start end piece.now) }
    {
        let old = self.text.as_str();
        let mut text = String::from_str(alloc, &old[..start as usize])?;
        text.push_str(piece)?;
        text.push_str(&old[end as usize..])?;
        let behind = start + piece.len() as u32;
        let starts = self.moved_starts(alloc, text.as_bytes(), start, end, behind)?;
        Ok(Text { text, starts })
    }

    // Where the lines start of a text that is this one up to an offset, and behind another one what
    // follows `end` here.
    fn moved_starts(
        &self,
        alloc: Global,
        text: &[u8],
        start: u32,
        end: u32,
        behind: u32,
    ) -> Result<Vec<u32>, AllocError>
        requires short { length text.now < 2 ^ 31 }
        requires before { take start text.now ≡ take start self.now }
        requires after { drop behind text.now ≡ drop end self.now }
        requires in_order { start ≤ behind }
        requires start_within { start ≤ length self.now }
        requires end_within { end ≤ length self.now }
        requires within { behind ≤ length text.now }
        ensures { IfOk result (λ starts. starts.items ≡ starts_after 0 text.now) }
    {
        // Whether the last byte before the piece ends a line may hang on the piece.
        let first = start.saturating_sub(1);
        let old = self.starts.as_slice();
        let mut starts = Vec::new(alloc);
        starts.extend_from_slice(&old[..self.line_of(first) as usize])?;
        push_starts(&mut starts, text, first as usize, behind as usize)?;
        push_moved(&mut starts, &old[self.line_of(end) as usize..], end, behind)?;
        Ok(starts)
    }

    // How many lines start behind the text's start and up to an offset.
    fn line_of(&self, offset: u32) -> u32
        ensures bound { result ≤ length (starts_after 0 self.now) }
        ensures point { IsLineOf result offset (starts_after 0 self.now) }
    {
        let line = self
            .starts
            .as_slice()
            .partition_point(|start| *start <= offset);
        line as u32
    }

    // Where a line starts that the text has.
    fn start_of(&self, line: u32) -> u32
        requires { line ≤ length (starts_after 0 self.now) }
        ensures { result ≡ slice_index (0 ∷ starts_after 0 self.now) line }
    {
        if line == 0 {
            0
        } else {
            self.starts[line as usize - 1]
        }
    }

    // What stands before an offset in its line.
    fn line_before(&self, line: u32, offset: u32) -> &str
        requires at_char { IsCharBoundary self.now offset }
        requires of_line { IsLineOf line offset (starts_after 0 self.now) }
        ensures within { length result.now ≤ offset }
        ensures place { (measure : Measure)
            → place_at measure self.now offset
            ≡ record { line = line; column = lines.column_after measure 0 (chars result.now) } }
    {
        let start = self.start_of(line);
        &self.text.as_str()[start as usize..offset as usize]
    }
}
