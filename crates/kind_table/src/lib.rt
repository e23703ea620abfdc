//! Definitions with their names resolved, as tables, and tables of what is put in for parameters.
//!
//! Numbers the arguments, so that equal ones have one number. Knows nothing of names and texts, and
//! judges no node.
#![tactic(auto)]

mod argument;
mod flat;
mod kinds;
mod numbers;

pub use argument::{Arg, add_values, number, value, values};
pub use flat::{
    Definition, FlatModule, Form, Instance, Node, Replacement, extend_first_nodes, first_nodes,
};
pub use kinds::{is_at_most, operation_kind, quantifier_kind, ruled_kind};
pub use numbers::{after, behind, constants, copied, first, front, number_at, pick, picked};
