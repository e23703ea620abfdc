// Numbers of nodes, by what they are made of.
ghost use Rattle.std.specs.Prelude.{◌≡◌, ◌<◌, ◌≤◌, IfOk, OnOk, length, take};
ghost use Rattle.std.specs.List.{AllByRecursion};
ghost use Rattle.kind_text.specs.FlatModule.{Extends, FlatModule as Flat, IsOrdered};
ghost use Rattle.kind_table.specs.Flattened.{flat_of};
ghost use Rattle.resolved_trees.specs.Resolved.{resolved};
ghost use Rattle.tree_numbers.specs.Numbered.{AreApart, AreInstances, AreTold, IsByNumbers, IsFirst, IsKey, IsNumber, IsNumbered, IsSameNode, KeepsFirsts, KeepsKeys, NumberNodes, TellTrees};

use crate::instances::Instances;
use crate::keys::{Key, body_of, head_of, numbers_of, path_of};
use indexmap::IndexMap;
use kind_table::FlatModule;
use std::alloc::{AllocError, Global};

/// Numbers of the nodes of a flat module that grows: two nodes have one number if they have the
/// same resolved tree, and else two.
pub struct TreeNumbers {
    // For each node the first one that is made of the same.
    nodes: Vec<usize>,
    keys: IndexMap<Key, usize>,
    instances: Instances,
}

// By hand, so that a proof meets one call wherever a value ends.
impl Drop for TreeNumbers {
    fn drop(self) {
        let TreeNumbers {
            nodes: _,
            keys: _,
            instances: _,
        } = self;
    }
}

impl TreeNumbers {
    /// No node has a number. It takes no memory.
    pub fn new(alloc: Global) -> TreeNumbers
        ensures { (flat : Flat) → IsNumbered flat result }
    {
        TreeNumbers {
            nodes: Vec::new(alloc),
            keys: IndexMap::new(alloc),
            instances: Instances::new(alloc),
        }
    }

    /// Numbers the nodes that were added since. After an error the nodes that had numbers have them
    /// still.
    pub fn extend(&mut self, alloc: Global, flat: &FlatModule) -> Result<(), AllocError>
        requires ordered { IsOrdered (flat_of flat.now) }
        requires numbered { IsNumbered (flat_of flat.now) self.old }
        ensures numbered { IsNumbered (flat_of flat.now) self.new }
        ensures all { OnOk result (length flat.now.nodes.items ≤ length self.new.nodes.items) }
        ensures kept { take (length self.old.nodes.items) self.new.nodes.items
            ≡ self.old.nodes.items }
    {
        for node in self.nodes.len()..flat.nodes.len() {
            let key = key_of(alloc, flat, &self.nodes, &mut self.instances, node)?;
            let first = first_with(flat, &mut self.keys, key, node)?;
            self.nodes.push(first)?;
        }
        Ok(())
    }

    /// The numbers, node by node.
    pub fn as_slice(&self) -> &[usize]
        ensures told { (flat : Flat) → IsNumbered flat self.now → AreTold flat result.now }
        ensures trees { (flat : Flat) → IsNumbered flat self.now → TellTrees flat result.now }
        ensures numbers { result.now ≡ self.now.nodes.items }
    {
        &self.nodes
    }
}

/// What was numbered stays so where a flat module has more.
pub fn numbers_stay()
    ensures { (flat more : Flat) (numbers : TreeNumbers) → Extends flat more → IsOrdered flat
        → IsNumbered flat numbers → IsNumbered more numbers }
{}

// What a node is made of, by numbers.
fn key_of(
    alloc: Global,
    flat: &FlatModule,
    numbers: &[usize],
    instances: &mut Instances,
    node: usize,
) -> Result<Key, AllocError>
    requires ordered { IsOrdered (flat_of flat.now) }
    requires numbers { NumberNodes (flat_of flat.now) numbers.now }
    requires apart { AreApart (resolved (flat_of flat.now)) (IsNumber numbers.now) }
    requires instances { AreInstances (flat_of flat.now) numbers.now instances.old }
    requires node { node < length flat.now.nodes.items }
    requires before { node ≤ length numbers.now }
    ensures instances { AreInstances (flat_of flat.now) numbers.now instances.new }
    ensures kept { KeepsFirsts instances.old.known.entries instances.new.known.entries }
    ensures key { IfOk result (λ key. IsKey (flat_of flat.now) key node) }
    ensures by_numbers { IfOk result (λ key. IsByNumbers numbers.now instances.new.known.entries
        key) }
{
    let here = &flat.nodes[node];
    let path = instances.path(alloc, flat, numbers, path_of(flat, here.form))?;
    let parts = numbers_of(alloc, numbers, &here.parts)?;
    Ok(Key {
        head: head_of(flat, here.form),
        path,
        body: body_of(flat, numbers, here.form),
        places: here.places,
        parts,
    })
}

// The first node that is made of the same, where this one is made so.
fn first_with(
    flat: &FlatModule,
    keys: &mut IndexMap<Key, usize>,
    key: Key,
    node: usize,
) -> Result<usize, AllocError>
    requires keys { AllByRecursion (λ e. IsKey (flat_of flat.now) e.0 e.1) keys.old.entries }
    requires key { IsKey (flat_of flat.now) key node }
    ensures keys { KeepsKeys (flat_of flat.now) key keys.old.entries keys.new.entries }
    ensures kept { KeepsFirsts keys.old.entries keys.new.entries }
    ensures same { IfOk result (λ first. IsSameNode (flat_of flat.now) node first) }
    ensures first { IfOk result (λ first. IsFirst keys.new.entries first) }
{
    if let Some(first) = keys.get(&key) {
        return Ok(*first);
    }
    keys.insert(key, node)?;
    Ok(node)
}
