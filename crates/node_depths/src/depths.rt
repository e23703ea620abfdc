// The depths of all nodes, as far as they are told apart.
ghost use Rattle.std.specs.Prelude.{◌≡◌, IfOk, OnErr, OnOk, length, slice_get, take};
ghost use Rattle.kind_text.specs.FlatModule.{Extends, IsOrdered};
ghost use Rattle.kind_text.specs.FlatModule as text;
ghost use Rattle.kind_table.specs.Flattened.{flat_of};
ghost use Rattle.level_text.specs.Depth.{depth, depth_of, instance_depth as depth_of_instance, is_too_deep};
ghost use Rattle.node_depths.specs.Capped.{GivesDepths, IsDepths};
ghost use Rattle.node_depths.specs.Capped as spec;

use crate::forms::{definition_depth, form_depth, instance_depth};
use crate::nodes::depth_at;
use kind_table::FlatModule;
use std::alloc::{AllocError, Global};

/// Deeper than this no definition may be.
const MOST: usize = 1000;

/// The depths of the nodes of a flat module. Those that are too deep are all alike.
#[derive(Drop)]
pub struct Depths {
    pub(crate) nodes: Vec<u16>,
}

impl Depths {
    /// The depths of all nodes.
    pub fn new(alloc: Global, flat: &FlatModule) -> Result<Depths, AllocError>
        ensures { IfOk result (λ depths. IsDepths (flat_of flat.now) depths.nodes.items) }
    {
        let mut nodes = Vec::new(alloc);
        add_depths(&mut nodes, flat)?;
        Ok(Depths { nodes })
    }

    /// The tables have grown: the depths of all nodes now. After an error they are those of before.
    pub fn extend(&mut self, flat: &FlatModule) -> Result<(), AllocError>
        ensures extended { OnOk result ((before : text.FlatModule)
            → Extends before (flat_of flat.now) → IsOrdered before
            → IsDepths before self.old.nodes.items
            → IsDepths (flat_of flat.now) self.new.nodes.items) }
        ensures kept { OnErr result (self.new.nodes.items ≡ self.old.nodes.items) }
    {
        let known = self.nodes.len();
        match add_depths(&mut self.nodes, flat) {
            Ok(()) => Ok(()),
            Err(error) => {
                self.nodes.truncate(known);
                Err(error)
            }
        }
    }

    /// Whether a definition is deeper than it may be.
    pub fn is_deep_definition(&self, flat: &FlatModule, definition: usize) -> bool
        requires { IsDepths (flat_of flat.now) self.now.nodes.items }
        ensures { result ≡ is_too_deep (depth_of (depth (flat_of flat.now))
            (slice_get (flat_of flat.now).definitions definition)) }
    {
        definition_depth(flat, &self.nodes, definition) > MOST
    }

    /// The same of a module definition, by its instance.
    pub fn is_deep_instance(&self, flat: &FlatModule, instance: usize) -> bool
        requires { IsDepths (flat_of flat.now) self.now.nodes.items }
        ensures { result ≡ is_too_deep (depth_of_instance (depth (flat_of flat.now))
            (slice_get (flat_of flat.now).instances instance)) }
    {
        instance_depth(flat, &self.nodes, instance) > MOST
    }

    /// The same of a node.
    pub fn is_deep_node(&self, node: usize) -> bool
        ensures { (flat : text.FlatModule) → IsDepths flat self.now.nodes.items
            → result ≡ is_too_deep (depth flat node) }
    {
        depth_at(&self.nodes, node) > MOST
    }
}

// Appends the depths of further nodes. After an error some may be missing.
fn add_depths(depths: &mut Vec<u16>, flat: &FlatModule) -> Result<(), AllocError>
    ensures depths { OnOk result (GivesDepths (flat_of flat.now) depths.old.items
        depths.new.items) }
    ensures kept { take (length depths.old.items) depths.new.items ≡ depths.old.items }
{
    for number in depths.len()..flat.nodes.len() {
        let depth = form_depth(flat, depths, &flat.nodes[number]);
        depths.push(capped(depth))?;
    }
    Ok(())
}

// A depth, as far as it is told apart from others.
fn capped(depth: usize) -> u16
    ensures { result ≡ spec.capped depth }
{
    depth.min(MOST + 1) as u16
}
