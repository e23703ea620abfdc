//! What is due of a walk over a tree, as a stack.
//!
//! Puts what is due of a node on top, by how its form names things. Knows nothing of what is found.
#![tactic(auto)]

mod due;
mod held;
mod tasks;

pub use due::{
    push_behind, push_between, push_definitions, push_function, push_image, push_path, push_scope,
};
pub use held::Held;
pub use tasks::{Naming, Task, append_each, naming_of, push_each, push_task, push_tasks};
