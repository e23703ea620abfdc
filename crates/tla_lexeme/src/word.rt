//! Names, reserved words and numbers that begin with a digit.
ghost use Rattle.std.specs.Prelude.{◌≡◌, ◌<◌, ◌≤◌, Some, length, slice_index, true};
ghost use Rattle.tla_lexeme.specs.LexemeSets as sets;
ghost use Rattle.tla_lexeme.specs.Lexing as lexing;
ghost use Rattle.tla_lexeme.specs.Lengths as lengths;
ghost use Rattle.tla_lexeme.specs.declared.class.Class.TheVariants.{WordChar, Digit};

use crate::begin::Member;
use crate::class::{Class, run_len};
use crate::number::fraction_len;
use crate::slices::begins;
use crate::table::table_kind;
use tla_symbols::{LexKind, Mark};
use tool_list::{prefix, skip};

/// How many letters, digits and `_` a text begins with, where none is a letter, and else 0. Where this
/// is known it is not counted again, so that a long run of digits and `_` is read once.
pub fn bare_len(text: &[u8], known: usize) -> usize
    requires { 0 < known → known ≡ lengths.bare_len text.now }
    ensures { result ≡ lengths.bare_len text.now }
{
    if known > 0 {
        return known;
    }
    for (i, byte) in text.iter().enumerate() {
        if Class::Letter.has(*byte) {
            return 0;
        }
        if !Class::WordChar.has(*byte) {
            return i;
        }
    }
    text.len()
}

fn is_fair(text: &[u8]) -> bool
    ensures { result ≡ lengths.begins_fair text.now }
{
    begins(text, b"WF_") || begins(text, b"SF_")
}

fn named_len(text: &[u8]) -> usize
    ensures value { result ≡ lengths.named_len text.now }
    ensures within { result ≤ length text.now }
{
    if is_fair(text) {
        return 3;
    }
    run_len(Class::WordChar, text)
}

// The longest lexeme at a run of word characters with a letter.
fn named(text: &[u8]) -> Member
    requires word { sets.is_in WordChar (slice_index text.now 0) ≡ true }
    requires letter { lengths.bare_len text.now ≡ 0 }
    ensures { Some result ≡ lexing.lexeme_at text.now }
{
    let run = prefix(text, named_len(text));
    Member {
        len: run.len(),
        kind: table_kind(run).unwrap_or(LexKind::Name),
    }
}

// The longest lexeme at a digit, in a run of word characters with no letter.
fn number(text: &[u8]) -> Member
    requires digit { sets.is_in Digit (slice_index text.now 0) ≡ true }
    requires bare { 0 < lengths.bare_len text.now }
    ensures { Some result ≡ lexing.lexeme_at text.now }
{
    let digits = run_len(Class::Digit, text);
    Member {
        len: digits + fraction_len(skip(text, digits)),
        kind: LexKind::Number,
    }
}

/// The longest lexeme at a letter, a digit or `_`.
pub fn word_lexeme(text: &[u8], bare: usize) -> Member
    requires word { sets.is_in WordChar (slice_index text.now 0) ≡ true }
    requires bare { bare ≡ lengths.bare_len text.now }
    ensures { Some result ≡ lexing.lexeme_at text.now }
{
    if bare == 0 {
        return named(text);
    }
    if Class::Digit.has(text[0]) {
        return number(text);
    }
    Member {
        len: 1,
        kind: LexKind::Mark(Mark::Underscore),
    }
}
