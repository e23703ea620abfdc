//! Where instances and paths stand in a text: the instances that its units name, the module names behind
//! INSTANCE, and where paths through instances begin.
//!
//! Knows nothing of what names mean. No call goes deeper with a tree, and each takes time in proportion to
//! the tree.
#![tactic(auto)]

mod forms;
mod named;
mod scan;
mod starts;
mod walk;

pub use named::{NamedInstance, named_instances};
pub use scan::may_name_instance;
pub use starts::{instance_words, path_starts};
