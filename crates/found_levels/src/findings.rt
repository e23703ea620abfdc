// What is found of levels.
use tla_model::Level;
use tla_symbols::{Lexeme, Span};

/// What is found of levels at one place of a text.
#[derive(Clone, Copy)]
pub enum LevelFinding {
    /// What is written here has no kind, though all that it is made of has one.
    Refused { at: Span },
    /// An assumption is not constant.
    NotConstant { at: Span },
    /// A replacement has a higher level than it may have.
    TooHigh { at: Span },
    /// The level of a use.
    Leveled { name: Lexeme, level: Level },
}
