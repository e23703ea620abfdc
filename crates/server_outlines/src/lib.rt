//! The names that a module declares and defines, as a server shows them.
//!
//! Answers a symbol for each name of a tree, with the names in a nested module inside it. Knows
//! nothing of how trees are found, of what names mean, and of documents.
#![tactic(auto)]

mod outline;
mod units;
mod walk;

pub use outline::symbols_of;
