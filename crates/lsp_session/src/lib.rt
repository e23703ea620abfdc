//! A session of the server: messages in, frames out, over any [`Answers`].
//!
//! Knows the order of messages: what is answered before `initialize`, after `shutdown`, and at
//! `exit`. Knows nothing of texts or modules, and of no input or output.
#![tactic(auto)]

pub mod laws;
mod notices;
mod phase;
mod requests;
mod session;

pub use phase::{SessionFault, Turn};
pub use session::Session;
