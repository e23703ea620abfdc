//! What is kept of a module while it is read: its units so far, the unit that is read, and the frames of its parts.
//!
//! Answers how frames take parts and lexemes, how high units are, and whether a list ends as the lexemes of a
//! text do. Knows nothing of what a lexeme does.
#![tactic(auto)]

mod ending;
mod frame;
mod height;
mod reached;
mod unfinished;

pub use ending::ends_once;
pub use frame::{Frame, then};
pub use height::highest;
pub use reached::Reached;
pub use unfinished::{Begun, Unfinished};
