//! Which modules a module needs, and which of its module names are those of nested modules round them.
//!
//! Knows nothing of how a text is read, and of where a needed module is found. No call goes deeper with
//! a tree, and each takes time in proportion to the tree.
#![tactic(auto)]

mod laws;
mod named;
mod trees;
mod unit_names;

pub use laws::{
    enclosing_are_lexemes, imports_are_lexemes, lexemes_lie_names, names_lie, needs_in_order,
    passes_nested,
};
pub use named::{NamedModules, named_modules};
