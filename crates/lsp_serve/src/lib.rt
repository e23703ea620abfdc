//! A session of the server over an input and an output: each message is answered before the input is
//! read further.
//!
//! Knows how the input is read, when a session ends and with which status. Knows nothing of what a
//! message means, of texts or modules, and of std's streams.
#![tactic(auto)]

mod ends;
pub mod laws;
mod messages;
mod pieces;

pub use pieces::serve;
