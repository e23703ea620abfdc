//! Comments that nest.
ghost use Rattle.std.specs.Prelude.{◌≡◌};
ghost use Rattle.tla_lexeme.specs.Lexing as lexing;

use crate::slices::{begins, first_of};
use tool_list::skip;

/// How many bytes the comment has that begins a text, if it ends.
pub fn comment_len(text: &[u8]) -> Option<usize>
    ensures { result ≡ lexing.comment_len text.now }
{
    let mut rest = text;
    let mut at = 0;
    let mut depth = 0usize;
    while let Some((_, more)) = first_of(rest) {
        if begins(rest, b"(*") {
            depth += 1;
            at += 2;
            rest = skip(more, 1);
        } else if begins(rest, b"*)") {
            at += 2;
            if depth <= 1 {
                return Some(at);
            }
            depth -= 1;
            rest = skip(more, 1);
        } else {
            at += 1;
            rest = more;
        }
    }
    None
}
