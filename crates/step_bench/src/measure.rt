//! What is found in a text.

ghost use Rattle.std.specs.Prelude.{◌<◌, ◌^◌, ℕ, List as ListOf, length, IfOk, MatchResult};
ghost use Rattle.step_bench.specs.Measures.{HasFound, HasFoundIn, IsFault, IsLexed};

use crate::body::body_at;
use crate::stepping::{Stop, step_over};
use std::alloc::Global;
use tla_lexeme::{LexError, lex};
use tla_symbols::Lexeme;
use tla_text::{Text, TextError};
use tla_tree::Tree;
use tool_list::{List, Memory};

/// What was found behind the first `==` of a module.
#[derive(Clone, Copy)]
pub struct Found {
    pub stop: Stop,
    /// How many nodes were made.
    pub nodes: usize,
}

/// Why nothing was stepped over.
#[derive(Clone, Copy)]
pub enum Fault {
    /// The bytes are not UTF-8.
    NotUtf8,
    /// No header begins a module.
    NoHeader,
    /// The module has no `==`.
    NoDefinition,
    /// There was no room.
    Memory,
}

impl From<Memory> for Fault {
    ghost use Rattle.step_bench.specs.declared.measure.Fault.{Fault};
    ghost use Rattle.std.specs.Prelude.{◌≡◌};

    ghost from_gives = { λ _ e. e ≡ Fault.Memory };

    fn from(_: Memory) -> Self {
        Fault::Memory
    }
}

/// Steps a machine for expressions over the lexemes behind the first `==` of the text's module.
pub fn measure(alloc: Global, input: &[u8]) -> Result<Found, Fault>
    requires { length input.now < 2 ^ 26 }
    ensures { MatchResult result (HasFound input.now) (IsFault input.now) }
{
    let lexemes = lexemes_of(alloc, input)?;
    found_in(alloc, lexemes.as_slice())
}

// Steps a machine over the lexemes behind the first `==` of a module.
fn found_in(alloc: Global, lexemes: &[Lexeme]) -> Result<Found, Fault>
    ensures { (text : ListOf ℕ) → IsLexed text lexemes.now
        → MatchResult result (HasFound text) (IsFault text) }
{
    let Some(at) = body_at(lexemes) else {
        return Err(Fault::NoDefinition);
    };
    let found = found_behind(alloc, &lexemes[at..])?;
    Ok(found)
}

// Steps a machine over the lexemes behind an `==`.
fn found_behind(alloc: Global, lexemes: &[Lexeme]) -> Result<Found, Memory>
    ensures { IfOk result (HasFoundIn lexemes.now) }
{
    let mut tree = Tree::new(alloc);
    let stop = step_over(alloc, lexemes, &mut tree)?;
    Ok(Found {
        stop,
        nodes: tree.len(),
    })
}

// The lexemes of the text's module.
fn lexemes_of(alloc: Global, input: &[u8]) -> Result<List<Lexeme>, Fault>
    requires { length input.now < 2 ^ 26 }
    ensures { MatchResult result (IsLexed input.now) (IsFault input.now) }
{
    match Text::read(alloc, input) {
        Ok(text) => match lex(alloc, &text) {
            Ok(lexemes) => Ok(lexemes),
            Err(LexError::NoHeader) => Err(Fault::NoHeader),
            Err(LexError::Memory) => Err(Fault::Memory),
        },
        Err(TextError::NotUtf8 { .. }) => Err(Fault::NotUtf8),
        Err(TextError::Memory) => Err(Fault::Memory),
    }
}
