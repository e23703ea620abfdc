//! One change of a text.
ghost use Rattle.std.specs.Prelude.{◌≡◌, ◌<◌, ◌≤◌, ◌^◌, ◌∷◌, [], false, length, IfErr, IfOk, MatchOption, OnOk};
ghost use Rattle.std.specs.Str.{IsCharBoundary};
ghost use Rattle.std.specs.declared.option.Option.TheVariants.{None};
ghost use Rattle.doc_edit.specs.Edits.{is_after, is_backward, first_backward, start_of, end_of};
ghost use Rattle.doc_edit.specs.Edits.{after_change, first_excess, IsRefused};

use crate::EditError;
use lsp_wire::{Area, Change, Position};
use std::alloc::Global;
use tla_text::Text;
use tool_list::Memory;

// The most bytes that a text may have after a change.
const MOST_BYTES: usize = 1 << 25;

// Whether a position is after another, by its numbers.
fn is_after(a: Position, b: Position) -> bool
    ensures { result ≡ is_after a b }
{
    a.line > b.line || (a.line == b.line && a.unit > b.unit)
}

// Whether an area starts after its end.
fn is_backward(area: Option<Area>) -> bool
    ensures { result ≡ is_backward area }
{
    match area {
        Some(area) => is_after(area.start, area.end),
        None => false,
    }
}

/// The first change, and those behind it.
pub fn first_of(changes: &[Change]) -> Option<(&Change, &[Change])>
    ensures { MatchOption result (changes.now ≡ []) (λ p. changes.now ≡ p.0.now ∷ p.1.now) }
{
    changes.split_first()
}

/// The index, from 0, of the first change whose area starts after its end.
pub fn first_backward(changes: &[Change]) -> Option<u64>
    ensures { result ≡ first_backward changes.now }
{
    let mut index = 0;
    let mut rest = changes;
    'changes: while let Some((change, more)) = first_of(rest) {
        if is_backward(change.area) {
            return Some(index);
        }
        index += 1;
        rest = more;
    }
    None
}

// The offsets at which what is replaced starts and ends.
fn replaced(text: &Text, area: Option<Area>) -> (u32, u32)
    requires { is_backward area ≡ false }
    ensures start { result.0 ≡ start_of text.now area }
    ensures end { result.1 ≡ end_of text.now area }
    ensures start_at_char { IsCharBoundary text.now result.0 }
    ensures end_at_char { IsCharBoundary text.now result.1 }
    ensures in_order { result.0 ≤ result.1 }
{
    // The proof needs that a text is UTF-8.
    let _bytes = text.bytes();
    match area {
        Some(area) => (
            text.offset_utf16(area.start.line, area.start.unit),
            text.offset_utf16(area.end.line, area.end.unit),
        ),
        None => (0, text.end()),
    }
}

/// A text after one change, whose area is not backward. `TooLarge` comes exactly where it would
/// have more than 2^25 bytes.
pub fn edited(alloc: Global, text: &Text, change: &Change) -> Result<Text, EditError>
    requires { is_backward change.now.area ≡ false }
    ensures ok { IfOk result (λ made. made ≡ after_change text.now change.now) }
    ensures short { OnOk result (first_excess text.now (change.now ∷ []) ≡ None) }
    ensures cause { IfErr result (IsRefused None (first_excess text.now (change.now ∷ []))) }
{
    let (start, end) = replaced(text, change.area);
    let piece = change.text.as_str();
    let bytes = text.bytes().len() - (end - start) as usize + piece.len();
    if bytes > MOST_BYTES {
        return Err(EditError::TooLarge {
            bytes: bytes as u64,
        });
    }
    Ok(text.spliced(alloc, start, end, piece)?)
}
