//! All that the program does, over any folder, input and output.
//!
//! Knows nothing of std's files and streams, and leaves to `family_levels` what a module's text
//! means, and to `lsp_serve` how a client is answered.
#![tactic(auto)]

mod check;
mod generate;
mod program;
mod serving;

pub use program::run;
