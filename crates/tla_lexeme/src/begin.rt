//! What begins at a place.
ghost use Rattle.std.specs.Prelude.{◌≡◌, ◌+◌};
ghost use Rattle.std.specs.Str.{continuation_len};
ghost use Rattle.tla_lexeme.specs.Lexing as lexing;
ghost use Rattle.tla_lexeme.specs.Lengths.{bare_len};

use crate::class::{Class, run_len};
use crate::comment::comment_len;
use crate::sign::sign_lexeme;
use crate::slices::{begins, first_of};
use crate::string::string_lexeme;
use crate::word::word_lexeme;
use tla_symbols::LexKind;

/// A member of the lexeme sets: its length in bytes, and its kind.
#[derive(Clone, Copy, Debug, PartialEq, Eq)]
pub struct Member {
    pub len: usize,
    pub kind: LexKind,
}

/// What begins at a place, with its length in bytes.
#[derive(Clone, Copy, Debug, PartialEq, Eq)]
pub enum Begin {
    /// A blank or a comment.
    Gap(usize),
    /// The longest lexeme that begins there.
    Longest(Member),
    /// Nothing that a module may have: this many bytes are at fault.
    Nothing(usize),
    TextEnd,
}

// How many bytes the character has that a byte begins.
fn char_len(byte: u8) -> usize
    ensures { result ≡ 1 + continuation_len byte }
{
    if byte < 0x80 {
        1
    } else if byte < 0xe0 {
        2
    } else if byte < 0xf0 {
        3
    } else {
        4
    }
}

fn comment(text: &[u8]) -> Begin
    ensures { result ≡ lexing.gap_or_fault (lexing.comment_len text.now) }
{
    match comment_len(text) {
        Some(len) => Begin::Gap(len),
        None => Begin::Nothing(2),
    }
}

/// The longest lexeme that begins a text. So many bytes at its prefix are known to be digits and `_`
/// with no letter among the word characters after them.
fn lexeme_at(text: &[u8], bare: usize) -> Option<Member>
    requires { bare ≡ bare_len text.now }
    ensures { result ≡ lexing.lexeme_at text.now }
{
    let (first, _) = first_of(text)?;
    if Class::WordChar.has(first) {
        return Some(word_lexeme(text, bare));
    }
    if first == b'"' {
        return string_lexeme(text);
    }
    sign_lexeme(text)
}

fn lexeme(first: u8, text: &[u8], bare: usize) -> Begin
    requires { bare ≡ bare_len text.now }
    ensures { result
        ≡ lexing.longest_or_fault (lexing.lexeme_at text.now) (1 + continuation_len first) }
{
    match lexeme_at(text, bare) {
        Some(member) => Begin::Longest(member),
        None => Begin::Nothing(char_len(first)),
    }
}

/// What begins a text.
pub fn what_begins(text: &[u8], bare: usize) -> Begin
    requires { bare ≡ bare_len text.now }
    ensures { result ≡ lexing.what_begins text.now }
{
    let Some((first, _)) = first_of(text) else {
        return Begin::TextEnd;
    };
    if Class::Blank.has(first) {
        return Begin::Gap(1);
    }
    if begins(text, b"\\*") {
        return Begin::Gap(run_len(Class::InLine, text));
    }
    if begins(text, b"(*") {
        return comment(text);
    }
    lexeme(first, text, bare)
}
