//! Of indices with those that they need: where needs lead from one, an order in which each stands
//! behind what it needs, which of them reach themselves, and the groups of those that reach each
//! other.
//!
//! Knows no names. No call goes deeper with the length of a chain of needs, and each takes time in
//! proportion to the indices and their needs.
#![tactic(auto)]

mod components;
mod search;

pub use components::{Ordered, arrange};
pub use search::reached;
