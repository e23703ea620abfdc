//! Numbers.
ghost use Rattle.std.specs.Prelude.{◌≡◌, ◌<◌, ◌≤◌, length};
ghost use Rattle.tla_lexeme.specs.LexemeSets.{base_of};
ghost use Rattle.tla_lexeme.specs.Lengths as lengths;

use crate::class::{Class, run_len};
use crate::slices::first_of;
use tool_list::skip;

/// How many bytes a point and the digits after it have at a text's beginning: 0 where they are not there.
pub fn fraction_len(text: &[u8]) -> usize
    ensures value { result ≡ lengths.fraction_len text.now }
    ensures within { result ≤ length text.now }
{
    let Some((first, more)) = first_of(text) else {
        return 0;
    };
    let digits = run_len(Class::Digit, more);
    if first == b'.' && digits > 0 {
        1 + digits
    } else {
        0
    }
}

// The digits of the base that a letter after a backslash names.
fn base_of(letter: u8) -> Option<Class>
    ensures { result ≡ base_of letter }
{
    match letter {
        b'b' | b'B' => Some(Class::Binary),
        b'o' | b'O' => Some(Class::Octal),
        b'h' | b'H' => Some(Class::Hexadecimal),
        _ => None,
    }
}

fn digits_len(text: &[u8]) -> usize
    ensures value { result ≡ lengths.after_backslash_len text.now }
    ensures within { result ≤ length text.now }
{
    let Some((letter, digits)) = first_of(text) else {
        return 0;
    };
    let Some(base) = base_of(letter) else {
        return 0;
    };
    let count = run_len(base, digits);
    if count > 0 { 1 + count } else { 0 }
}

/// How many bytes a number with a base has after the backslash at a text's beginning: 0 where there is none.
pub fn based_len(text: &[u8]) -> usize
    requires { 0 < length text.now }
    ensures value { result ≡ lengths.based_len text.now }
    ensures within { result ≤ length text.now }
{
    let more = digits_len(skip(text, 1));
    if more > 0 { 1 + more } else { 0 }
}
