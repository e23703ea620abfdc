// How lexemes are spelled.
ghost use Rattle.std.specs.Prelude.{◌≡◌, ◌↔◌, IsTrue};
ghost use Rattle.tla_model.specs.Lexemes.{spelled};

use tla_symbols::Lexeme;
use tool_list::{prefix, skip};

// The bytes of a lexeme, in the text that it stands in.
fn spelling(text: &[u8], lexeme: Lexeme) -> &[u8]
    ensures { result.now ≡ spelled text.now lexeme }
{
    let start = lexeme.span.start as usize;
    let len = (lexeme.span.end as usize).saturating_sub(start);
    let rest = skip(text, start.min(text.len()));
    prefix(rest, len.min(rest.len()))
}

/// Whether a lexeme of this text is spelled so.
pub fn is_spelled(text: &str, lexeme: Lexeme, name: &str) -> bool
    ensures { IsTrue result ↔ (spelled text.now lexeme ≡ name.now) }
{
    spelling(text.as_bytes(), lexeme) == name.as_bytes()
}
