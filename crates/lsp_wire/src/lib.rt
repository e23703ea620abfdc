//! Messages between an editor and the server, as LSP 3.17 has them over JSON-RPC 2.0: a frame's
//! content as a request, a notification or a refusal, and frames for replies, errors and notices.
//!
//! JSON is read by `serde_json`, and written as it writes it. Knows no module, no document and no
//! order of messages.
#![tactic(auto)]

mod errors;
mod frame;
pub mod laws;
mod method;
mod notes;
mod params;
mod pieces;
mod read;
mod reply;
mod symbols;
mod types;
mod write;

pub use errors::{
    INVALID_PARAMS, INVALID_REQUEST, METHOD_NOT_FOUND, PARSE_ERROR, SERVER_NOT_INITIALIZED,
};
pub use read::read_message;
pub use types::{
    Area, Call, Change, FileEvent, Id, Incoming, Location, Note, Notice, Position, Reply, Symbol,
    Uri,
};
pub use write::{write_error, write_notes, write_reply};
