//! The header of a module.
ghost use Rattle.std.specs.Prelude.{◌≡◌, ◌<◌, length, slice_index, IfSome};
ghost use Rattle.tla_lexeme.specs.ModulePart as module_part;
ghost use Rattle.tla_lexeme.specs.declared.class.Class.TheVariants.{WordChar};
ghost use Rattle.tla_lexeme.specs.LexemeSets.{is_in};

use crate::class::{Class, run_len};
use crate::slices::begins;
use memchr::memmem;
use tool_list::skip;

fn begins_with_module(text: &[u8]) -> bool
    ensures { result ≡ module_part.begins_with_module text.now }
{
    begins(text, b"MODULE") && !goes_on(text)
}

// Whether a letter, a digit or `_` follows the word.
fn goes_on(text: &[u8]) -> bool
    ensures { result ≡ is_in WordChar (slice_index text.now 6) }
{
    match text.get(6) {
        Some(byte) => Class::WordChar.has(*byte),
        None => false,
    }
}

fn begins_with_header(text: &[u8]) -> bool
    ensures { result ≡ module_part.begins_with_header text.now }
{
    let dashes = run_len(Class::Dash, text);
    let behind = skip(text, dashes);
    let spaces = run_len(Class::Space, behind);
    dashes >= 4 && begins_with_module(skip(behind, spaces))
}

/// Where the first header begins.
pub fn header_of(text: &[u8]) -> Option<usize>
    ensures value { result ≡ module_part.header_of text.now }
    ensures within { IfSome result (λ at. at < length text.now) }
{
    let mut rest = text;
    let mut at = 0;
    while let Some(before) = memmem::find(rest, b"----") {
        let candidate = skip(rest, before);
        at += before;
        if begins_with_header(candidate) {
            return Some(at);
        }
        let dashes = run_len(Class::Dash, candidate);
        at += dashes;
        rest = skip(candidate, dashes);
    }
    None
}
