//! Texts by their names, and facts that are derived from them and kept while the texts change.
//!
//! A text has an own part, which names what it needs; its fact is made from the own part and from
//! what the needs give. An answer is always the value from the present texts alone. A fact that is
//! held is used again only where its bytes are those of now and its needs give what they gave, up to
//! the faces of facts; so an edit costs a derivation for its own text, and for those alone that see
//! its face change.
//!
//! Knows nothing of what texts and facts are: that is a [`Derive`]. No call goes deeper with the
//! number of texts, or with how they need one another.
#![tactic(auto)]

mod batch;
mod derive;
mod fresh;
mod given;
mod order;
mod plan;
mod shelf;
mod slot;
mod store;
mod texts;

pub use derive::Derive;
pub use given::{Answer, Given, Input, NewText};
pub use store::FactStore;
