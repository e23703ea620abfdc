//! Of names with what they need: whether needs lead from one to another, and an order in which each
//! stands behind what it needs.
//!
//! Knows nothing of what names are of, of texts and of trees. No call goes deeper with the length of a
//! chain of needs, and each takes time in proportion to the names and needs that were put.
#![tactic(auto)]

use tool_list::{Chars, Memory};

mod graph;
mod rows;

pub use graph::Graph;

/// Why there is no order.
#[derive(Drop)]
pub enum GraphError {
    /// There was no room.
    Memory,
    /// Some name reaches itself. This is the first such in byte order.
    Cyclic { name: Chars },
}

impl From<Memory> for GraphError {
    ghost use Rattle.std.specs.Prelude.{◌≡◌};
    ghost use Rattle.name_graph.specs.declared.GraphError.{GraphError};

    ghost from_gives = { λ _ e. e ≡ GraphError.Memory };

    fn from(_: Memory) -> Self {
        GraphError::Memory
    }
}
