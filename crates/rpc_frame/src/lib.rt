//! Frames of a byte stream, as in the base protocol of LSP 3.17: header lines that end in CR LF, an
//! empty line, and as many bytes of content as the header says.
//!
//! A [`Framer`] is fed the stream in pieces of any size and gives the contents of its frames one by
//! one. Knows nothing of what a content means, and of no input or output.
#![tactic(auto)]

mod framer;
mod header;
pub mod laws;

pub use framer::{FrameNext, Framer};
