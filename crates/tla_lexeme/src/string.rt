//! Strings.
ghost use Rattle.std.specs.Prelude.{◌≡◌, ◌<◌, drop, false, length, slice_index};
ghost use Rattle.tla_lexeme.specs.Lexing as lexing;
ghost use Rattle.tla_lexeme.specs.Lengths as lengths;

use crate::begin::Member;
use crate::class::Class;
use crate::slices::first_of;
use tla_symbols::LexKind;
use tool_list::skip;

// What a byte in a string does.
enum Step {
    Closes,
    Goes,
    Escapes,
    Breaks,
}

fn step_at(escaped: bool, byte: u8) -> Step
    ensures { result ≡ lengths.string_step escaped byte }
{
    if escaped {
        if Class::Escaped.has(byte) {
            Step::Goes
        } else {
            Step::Breaks
        }
    } else if byte == b'"' {
        Step::Closes
    } else if byte == b'\\' {
        Step::Escapes
    } else if Class::InLine.has(byte) {
        Step::Goes
    } else {
        Step::Breaks
    }
}

// How many bytes the string has that begins a text, if it ends.
fn string_len(text: &[u8]) -> Option<usize>
    requires { 0 < length text.now }
    ensures { result ≡ lengths.string_end 1 false (drop 1 text.now) }
{
    let mut rest = skip(text, 1);
    let mut at = 1;
    let mut escaped = false;
    while let Some((byte, more)) = first_of(rest) {
        at += 1;
        match step_at(escaped, byte) {
            Step::Closes => return Some(at),
            Step::Goes => escaped = false,
            Step::Escapes => escaped = true,
            Step::Breaks => return None,
        }
        rest = more;
    }
    None
}

/// The longest lexeme at a quote.
pub fn string_lexeme(text: &[u8]) -> Option<Member>
    requires filled { 0 < length text.now }
    requires quote { slice_index text.now 0 ≡ 34 }
    ensures { result ≡ lexing.lexeme_at text.now }
{
    let Some(len) = string_len(text) else {
        return None;
    };
    Some(Member {
        len,
        kind: LexKind::Str,
    })
}
