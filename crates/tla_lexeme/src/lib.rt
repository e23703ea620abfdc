//! The lexemes of a module.
//!
//! Answers the lexemes of a text from the header of its module to the run of `=` that closes it
//! (*Specifying Systems*, sections 15.2.3 and 15.3). Blanks and comments are passed over, and each
//! lexeme is the longest that begins at its place.
//!
//! Knows nothing of the grammar, and gives the value of no number.
#![tactic(auto)]

mod begin;
mod class;
mod comment;
mod header;
mod identifier;
mod number;
mod part;
mod sign;
mod slices;
mod string;
mod table;
mod word;

ghost use Rattle.std.specs.Prelude.{◌≡◌, ℕ, ◌≤◌, ◌^◌, List, Some, length, IfOk, MatchResult};
ghost use Rattle.std.specs.List.{All};
ghost use Rattle.tla_lexeme.specs.Longest.{ReadsLongest};
ghost use Rattle.tla_lexeme.specs.Spans.{IsPlaced};
ghost use Rattle.tla_lexeme.specs.ModulePart.{module_part, IsLexError};

use header::header_of;
pub use identifier::is_identifier;
use part::part_from;
use std::alloc::Global;
use tla_symbols::Lexeme;
use tla_text::Text;
use tool_list::{List, Memory};

/// Why a text has no lexemes.
#[derive(Clone, Copy, Debug, PartialEq, Eq)]
pub enum LexError {
    /// No header begins a module: four dashes or more, then the word `MODULE`.
    NoHeader,
    /// There was no room.
    Memory,
}

impl From<Memory> for LexError {
    ghost use Rattle.tla_lexeme.specs.declared.LexError.{LexError};
    ghost use Rattle.std.specs.Prelude.{◌≡◌};

    ghost from_gives = { λ _ e. e ≡ LexError.Memory };

    fn from(_: Memory) -> Self {
        LexError::Memory
    }
}

/// The lexemes of the module part, in order. The last is `Close` at the run of `=` that closes the
/// module, `End` where the text ends before, with an empty span, or `Bad` at a place at which no lexeme
/// begins. `NoHeader` comes exactly where the text has no header.
pub fn lex(alloc: Global, text: &Text) -> Result<List<Lexeme>, LexError>
    requires { length text.now ≤ 2 ^ 27 }
    ensures part { MatchResult result (λ lexemes. module_part text.now ≡ Some lexemes)
        (IsLexError text.now) }
    ensures placed { IfOk result (λ lexemes. All (λ l. IsPlaced text.now l.span) lexemes) }
{
    let Some(at) = header_of(text.bytes()) else {
        return Err(LexError::NoHeader);
    };
    let lexemes = part_from(alloc, text, at)?;
    Ok(lexemes)
}

/// The law that the definition of a text's lexemes stands under: blanks and comments are passed over,
/// each lexeme but the last is a member of the lexeme sets at its place, and no longer prefix of what
/// stands there is one; the last is the text's end or what is at fault. It does nothing.
pub fn reads_longest()
    ensures { (text : List ℕ) (at : ℕ) → ReadsLongest text at }
{}
