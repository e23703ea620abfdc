//! Where the lines of a text start.
ghost use Rattle.std.specs.Prelude.{◌≡◌, ℕ, ◌+◌, ◌-◌, ◌≤◌, ◌<◌, ◌^◌, [], ◌∷◌, ◌++◌, drop, length, map, IfOk, IfSome, MatchOption, OnOk};
ghost use Rattle.std.specs.List.{All};
ghost use Rattle.tla_text.specs.LineStarts.{starts_after};
ghost use Rattle.tla_text.specs.Places as places;

use memchr::memchr2;
use std::alloc::{AllocError, Global};

// Whether a byte ends a line, before these others: of a carriage return and a line feed the second does.
fn ends_line(byte: u8, after: &[u8]) -> bool
    ensures { result ≡ places.ends_line byte after.now }
{
    byte == b'\n' || (byte == b'\r' && !begins_with_line_feed(after))
}

/// Whether the first byte is a line feed.
pub(crate) fn begins_with_line_feed(text: &[u8]) -> bool
    ensures { result ≡ places.begins_with_line_feed text.now }
{
    match text {
        [first, ..] => *first == b'\n',
        [] => false,
    }
}

// The first byte that may end a line: how many bytes stand before it, the byte, and what follows.
fn next_line_byte(text: &[u8]) -> Option<(usize, u8, &[u8])>
    ensures starts { (at : ℕ)
        → MatchOption result (starts_after at text.now ≡ []) (λ p. starts_after at text.now
        ≡ starts_after (at + p.0) (p.1 ∷ p.2.now)) }
    ensures length { IfSome result (λ p. length text.now ≡ p.0 + (1 + length p.2.now)) }
    ensures behind { IfSome result (λ p. p.2.now ≡ drop (p.0 + 1) text.now) }
{
    let Some(before) = memchr2(b'\n', b'\r', text) else {
        return None;
    };
    Some((before, text[before], &text[before + 1..]))
}

/// Puts the line starts that lie behind an offset of a text and up to another one behind others. What
/// stands behind that one is read up to the next line end.
pub(crate) fn push_starts(
    starts: &mut Vec<u32>,
    text: &[u8],
    from: usize,
    to: usize,
) -> Result<(), AllocError>
    requires in_order { from ≤ to }
    requires within { to ≤ length text.now }
    requires short { length text.now < 2 ^ 31 }
    ensures { OnOk result (starts.new.items ++ starts_after to (drop to text.now)
        ≡ starts.old.items ++ starts_after from (drop from text.now)) }
{
    let mut at = from;
    let mut rest = &text[from..];
    'ends: while let Some((before, byte, after)) = next_line_byte(rest) {
        let next = at + before + 1;
        if next > to {
            return Ok(());
        }
        if ends_line(byte, after) {
            starts.push(next as u32)?;
        }
        at = next;
        rest = after;
    }
    Ok(())
}

/// The offsets behind the line ends of a text.
pub(crate) fn line_starts(alloc: Global, text: &[u8]) -> Result<Vec<u32>, AllocError>
    requires { length text.now < 2 ^ 31 }
    ensures { IfOk result (λ starts. starts.items ≡ starts_after 0 text.now) }
{
    let mut starts = Vec::new(alloc);
    push_starts(&mut starts, text, 0, text.len())?;
    Ok(starts)
}

/// Puts offsets behind others, each as far from one offset as it was from another one before it.
pub(crate) fn push_moved(
    starts: &mut Vec<u32>,
    offsets: &[u32],
    from: u32,
    to: u32,
) -> Result<(), AllocError>
    requires behind { All (λ offset. from ≤ offset) offsets.now }
    requires small { All (λ offset. offset - from + to < 2 ^ 32) offsets.now }
    ensures { OnOk result (starts.new.items
        ≡ starts.old.items ++ map (λ offset. offset - from + to) offsets.now) }
{
    for offset in offsets {
        starts.push(*offset - from + to)?;
    }
    Ok(())
}
