//! Reserved words, symbols and marks.
ghost use Rattle.std.specs.Prelude.{◌≡◌, ◌≤◌, length};
ghost use Rattle.tla_lexeme.specs.LexemeSets as sets;
ghost use Rattle.tla_lexeme.specs.Lexing as lexing;

use crate::begin::Member;
use tla_spelling::{mark_of, op_of, word_of};
use tla_symbols::LexKind;
use tool_list::prefix;

/// The kind of a reserved word, a symbol or a mark.
pub fn table_kind(spelling: &[u8]) -> Option<LexKind>
    ensures { result ≡ sets.table_kind spelling.now }
{
    if let Some(word) = word_of(spelling) {
        return Some(LexKind::Word(word));
    }
    if let Some(op) = op_of(spelling) {
        return Some(LexKind::Sym(op));
    }
    let mark = mark_of(spelling)?;
    Some(LexKind::Mark(mark))
}

/// The longest of them, of at most so many bytes, that begins a text.
pub fn longest_spelled(text: &[u8], most: usize) -> Option<Member>
    requires { most ≤ length text.now }
    ensures { result ≡ lexing.longest_of sets.table_kind most text.now }
{
    let mut len = most;
    while len > 0 {
        if let Some(kind) = table_kind(prefix(text, len)) {
            return Some(Member { len, kind });
        }
        len -= 1;
    }
    None
}
