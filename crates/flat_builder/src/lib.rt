//! A flat module that is built part by part.
//!
//! Each node is made of earlier ones alone, and what is added changes nothing of what is there.
//! Knows nothing of names and trees.
#![tactic(auto)]

ghost use Rattle.kind_text.specs.FlatModule.{Definition, Extends, FlatModule, Instance, Node};
ghost use Rattle.flat_builder.specs.Building.{with_definition, with_instance, with_node};

mod builder;

pub use builder::FlatBuilder;

/// With a node, a definition or an instance more, all that was there is there.
pub fn more_is_there()
    ensures nodes { (flat : FlatModule) (node : Node) → Extends flat (with_node flat node) }
    ensures definitions { (flat : FlatModule) (definition : Definition)
        → Extends flat (with_definition flat definition) }
    ensures instances { (flat : FlatModule) (x : Instance) → Extends flat (with_instance flat x) }
{}
