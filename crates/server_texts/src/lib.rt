//! What the calls of the server mean, as functions of texts and of what a folder tells: the root, the
//! texts of its modules and the open documents after each call, the notes of a document, the replies.
//!
//! No code: the definitions say it, and the functions state their laws. Knows nothing of frames, of
//! the order of messages, and of how any of it is found.
#![tactic(auto)]

pub mod laws;
