// How lexemes are spelled.
ghost use Rattle.std.specs.Prelude.{◌≡◌};
ghost use Rattle.tla_model.specs.Lexemes.{LiesIn, spelled};

use tla_symbols::Lexeme;

/// The bytes of a lexeme in its text.
pub fn spelled<'a>(source: &'a str, lexeme: &Lexeme) -> &'a str
    requires { LiesIn source.now lexeme.now }
    ensures { result.now ≡ spelled source.now lexeme.now }
{
    &source[lexeme.span.start as usize..lexeme.span.end as usize]
}
