//! Symbols, marks, runs of signs, and numbers that begin with a sign.
ghost use Rattle.std.specs.Prelude.{◌≡◌, ◌≢◌, ◌<◌, ◌≤◌, false, length, slice_index};
ghost use Rattle.std.specs.List.{prefix_len};
ghost use Rattle.tla_lexeme.specs.LexemeSets as sets;
ghost use Rattle.tla_lexeme.specs.Lexing as lexing;
ghost use Rattle.tla_lexeme.specs.Lengths as lengths;
ghost use Rattle.tla_lexeme.specs.declared.class.Class.TheVariants.{WordChar};

use crate::begin::Member;
use crate::class::{Class, run_len};
use crate::number::{based_len, fraction_len};
use crate::table::longest_spelled;
use tla_symbols::LexKind;
use tool_list::{prefix, skip};

// How many signs a text begins with, where they are four or more, and else 0.
fn long_run_len(class: Class, text: &[u8]) -> usize
    ensures value { result ≡ lengths.long_run_len class text.now }
    ensures within { result ≤ length text.now }
{
    let len = run_len(class, text);
    if len >= 4 { len } else { 0 }
}

// The longest number or run of signs at a sign. Its length is 0 where there is none.
fn open_sign(text: &[u8]) -> Member
    requires { 0 < length text.now }
    ensures value { result ≡ lengths.open_sign text.now }
    ensures within { result.len ≤ length text.now }
{
    match text[0] {
        b'.' => Member {
            len: fraction_len(text),
            kind: LexKind::Number,
        },
        b'\\' => Member {
            len: based_len(text),
            kind: LexKind::Number,
        },
        b'-' => Member {
            len: long_run_len(Class::Dash, text),
            kind: LexKind::Dashes,
        },
        b'=' => Member {
            len: long_run_len(Class::EqualSign, text),
            kind: LexKind::Equals,
        },
        _ => Member {
            len: 0,
            kind: LexKind::Name,
        },
    }
}

// Whether a byte stands in symbols and marks as their first byte alone.
fn stands_first(byte: u8) -> bool
    ensures { result ≡ lengths.stands_first byte }
{
    matches!(byte, b'(' | b'[' | b'{' | b'}' | b',' | b'\'')
}

// Whether a byte may stand in a symbol or a mark that begins with another.
fn goes_on(first: u8, byte: u8) -> bool
    ensures { result ≡ lengths.goes_on first byte }
{
    if first == b'\\' {
        return byte == b'/' || Class::Letter.has(byte);
    }
    byte == b'_'
        || byte == b'X'
        || (!Class::WordChar.has(byte) && !Class::Blank.has(byte) && !stands_first(byte))
}

fn goes_on_len(first: u8, more: &[u8]) -> usize
    ensures value { result ≡ prefix_len (lengths.goes_on first) more.now }
    ensures within { result ≤ length more.now }
{
    for (i, byte) in more.iter().enumerate() {
        if !goes_on(first, *byte) {
            return i;
        }
    }
    more.len()
}

// How many bytes a symbol or a mark has at most behind the one that begins it.
fn most_further(first: u8) -> usize
    ensures { result ≡ lengths.most_further first }
{
    match first {
        b'\\' => 10,
        b'(' | b'-' => 3,
        b'<' | b'>' | b':' | b'.' | b'|' => 2,
        b')' | b'{' | b'}' | b',' | b'\'' => 0,
        _ => 1,
    }
}

/// How many bytes a symbol or a mark at a text's beginning has at most.
fn most_len(text: &[u8]) -> usize
    requires { 0 < length text.now }
    ensures value { result ≡ lengths.most_len text.now }
    ensures within { result ≤ length text.now }
{
    let more = skip(text, 1);
    let few = prefix(more, more.len().min(most_further(text[0])));
    1 + goes_on_len(text[0], few)
}

/// The longest lexeme at a sign, if one begins there.
pub fn sign_lexeme(text: &[u8]) -> Option<Member>
    requires filled { 0 < length text.now }
    requires sign { sets.is_in WordChar (slice_index text.now 0) ≡ false }
    requires no_quote { slice_index text.now 0 ≢ 34 }
    ensures { result ≡ lexing.lexeme_at text.now }
{
    let open = open_sign(text);
    if open.len > 0 {
        return Some(open);
    }
    longest_spelled(text, most_len(text))
}
