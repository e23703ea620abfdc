//! The lexemes behind the first `==`.

ghost use Rattle.std.specs.Prelude.{◌≡◌, ◌≤◌, length, IfSome};
ghost use Rattle.step_bench.specs.Bodies.{defines, body_at};

use tla_symbols::{LexKind, Lexeme, Mark};

/// Where the lexemes begin that stand behind the first `==`, if there is one.
pub fn body_at(lexemes: &[Lexeme]) -> Option<usize>
    ensures at { result ≡ body_at 0 lexemes.now }
    ensures within { IfSome result (λ at. at ≤ length lexemes.now) }
{
    let mut index = 0;
    while index < lexemes.len() {
        if defines(lexemes[index].kind) {
            return Some(index + 1);
        }
        index += 1;
    }
    None
}

fn defines(kind: LexKind) -> bool
    ensures { result ≡ defines kind }
{
    match kind {
        LexKind::Mark(mark) => matches!(&mark, Mark::Define),
        _ => false,
    }
}
