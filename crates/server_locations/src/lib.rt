//! Where names of a root's modules are declared and used, as a client is told.
//!
//! Answers what a use means and where a declaration stands, by what is found of the module of each, and
//! the reply to `textDocument/references`, by what is found of all: uses and declaring names. Knows
//! nothing of how these are found, and of frames.
#![tactic(auto)]

mod found;
mod locations;
mod names;
mod replies;

pub use found::{FoundModule, module_named};
pub use locations::{declaration_in, declaration_of, places_of};
pub use names::{declared_at, named_at, used_at};
pub use replies::{references, used_in_place};
