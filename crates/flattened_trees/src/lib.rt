//! When nodes of a flat module are a written tree, node by node.
//!
//! The definitions say which node each form becomes, by where its names lead, and what is asked of it.
//! Knows nothing of how nodes are built, and of what they mean.
#![tactic(auto)]

use tla_symbols::Kind;

/// Where a name leads, behind the instances on its way.
#[derive(Clone, Copy, Debug, PartialEq, Eq)]
pub enum End {
    /// Nothing is known of it.
    Nowhere,
    /// A bound name or what is built in, by its kind.
    Leaf(Kind),
    /// The symbol or parameter at a place, by its order: 0 for an expression, or the number of its
    /// places.
    Place { place: usize, order: u32 },
    /// A definition, by number.
    Definition(usize),
}
