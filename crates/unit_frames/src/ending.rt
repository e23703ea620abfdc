// Whether a list ends as the lexemes of a text do.
ghost use Rattle.std.specs.Prelude.{◌↔◌, IsTrue};
ghost use Rattle.unit_grammar.specs.FirstBad.{IsLast, EndsOnce};

use tla_symbols::{LexKind, Lexeme};

// Whether a lexeme is the last of a text's: the run of `=` that closes the module, the text's end, or
// a place at which no lexeme begins.
fn is_last(lexeme: Lexeme) -> bool
    ensures { IsTrue result ↔ IsLast lexeme }
{
    matches!(&lexeme.kind, LexKind::Close | LexKind::End | LexKind::Bad)
}

/// Whether a list ends as the lexemes of a text do: the closing run, the text's end or a place at
/// which no lexeme begins stands last, and none of these before.
pub fn ends_once(lexemes: &[Lexeme]) -> bool
    ensures { IsTrue result ↔ EndsOnce lexemes.now }
{
    let mut index = 0;
    while index < lexemes.len() {
        if is_last(lexemes[index]) {
            return index + 1 == lexemes.len();
        }
        index += 1;
    }
    false
}
