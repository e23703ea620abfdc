//! The roots that URIs name, and the modules that documents are by their URIs.
//!
//! Knows nothing of texts, and calls no folder.
#![tactic(auto)]

pub mod laws;
mod member;
mod root;

pub use member::{module_of, uri_of};
pub use root::{Root, client_root, document_root};
