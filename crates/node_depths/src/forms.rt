// The depth of a form over the depths of its parts.
ghost use Rattle.std.specs.Prelude.{◌≡◌, ◌<◌, max, min, slice_get};
ghost use Rattle.kind_table.specs.Flattened.{flat_of, form_of, number_in, path_at};
ghost use Rattle.level_text.specs.Depth as text;

use crate::nodes::{depth_at, greatest, greatest_operator, greatest_root};
use kind_table::{FlatModule, Form, Node};

/// The depth of a definition: 1 more than that of its body.
pub(crate) fn definition_depth(flat: &FlatModule, depths: &[u16], definition: usize) -> usize
    ensures value { result ≡ text.depth_of (number_in depths.now)
        (slice_get (flat_of flat.now).definitions definition) }
    ensures small { result < 65537 }
{
    match flat.definitions.get(definition) {
        Some(body) => depth_at(depths, body.root) + 1,
        None => 0,
    }
}

/// The depth of a module definition: 1 more than that of its replacements.
pub(crate) fn instance_depth(flat: &FlatModule, depths: &[u16], instance: usize) -> usize
    ensures value { result ≡ text.instance_depth (number_in depths.now)
        (slice_get (flat_of flat.now).instances instance) }
    ensures small { result < 65537 }
{
    match flat.instances.get(instance) {
        Some(instance) => greatest_root(depths, &instance.replacements) + 1,
        None => 0,
    }
}

// The depth of what stands in a definition.
fn inner_depth(flat: &FlatModule, depths: &[u16], definition: usize) -> usize
    ensures value { result ≡ text.inner_depth (number_in depths.now)
        (slice_get (flat_of flat.now).definitions definition) }
    ensures small { result < 65536 }
{
    match flat.definitions.get(definition) {
        Some(body) => depth_at(depths, body.root),
        None => 0,
    }
}

// The greatest depth of the replacements of an instance.
fn replaced_depth(flat: &FlatModule, depths: &[u16], instance: usize) -> usize
    ensures value { result ≡ text.replaced_depth (number_in depths.now)
        (slice_get (flat_of flat.now).instances instance) }
    ensures small { result < 65536 }
{
    match flat.instances.get(instance) {
        Some(instance) => greatest_root(depths, &instance.replacements),
        None => 0,
    }
}

// The greatest depth of the replacements on a path.
fn replaced_on(flat: &FlatModule, depths: &[u16], path: &[usize]) -> usize
    ensures value { result ≡ text.replaced_on (flat_of flat.now) (number_in depths.now) path.now }
    ensures small { result < 65536 }
{
    let mut most = 0;
    for instance in path {
        most = most.max(replaced_depth(flat, depths, *instance));
    }
    most
}

// How many arguments an instance takes.
fn parameters_of(flat: &FlatModule, instance: usize) -> usize
    ensures { result ≡ text.parameters_of (slice_get (flat_of flat.now).instances instance) }
{
    match flat.instances.get(instance) {
        Some(instance) => instance.parameters,
        None => 0,
    }
}

// How many of so many arguments the instances of a path take.
fn arguments_on(flat: &FlatModule, path: &[usize], count: usize) -> usize
    ensures { result ≡ min (text.parameters_on (flat_of flat.now) (λ i. 0) path.now) count }
{
    let mut taken = 0;
    for instance in path {
        taken += parameters_of(flat, *instance).min(count - taken);
    }
    taken
}

// What a use adds to the depth of its definition.
fn added_depth(flat: &FlatModule, depths: &[u16], path: &[usize], parts: &[usize]) -> usize
    ensures value { result ≡ text.added_depth (flat_of flat.now) (number_in depths.now) path.now
        parts.now }
    ensures small { result < 65536 }
{
    let (arguments, operands) = parts.split_at(arguments_on(flat, path, parts.len()));
    let within = greatest(depths, arguments).max(greatest_operator(flat, depths, operands));
    replaced_on(flat, depths, path).max(within)
}

// The depth of a use of a definition behind a path, and of its parts.
fn use_depth(
    flat: &FlatModule,
    depths: &[u16],
    path: usize,
    definition: usize,
    parts: &[usize],
) -> usize
    ensures value { result ≡ max (text.greatest (number_in depths.now) parts.now)
        (text.use_depth (flat_of flat.now) (number_in depths.now)
        (path_at flat.now.paths.items path) definition parts.now) }
    ensures small { result < 131073 }
{
    let own = definition_depth(flat, depths, definition);
    let added = added_depth(flat, depths, flat.path(path), parts);
    greatest(depths, parts).max(own + added)
}

/// The depth of a node, by those of the nodes before it.
pub(crate) fn form_depth(flat: &FlatModule, depths: &[u16], node: &Node) -> usize
    ensures { result ≡ text.form_depth (flat_of flat.now) (number_in depths.now)
        (form_of flat.now.paths.items node.now.form) node.now.parts.items }
{
    match node.form {
        Form::Use(path, definition) => use_depth(flat, depths, path, definition, &node.parts),
        Form::Name(path, definition) => use_depth(flat, depths, path, definition, &node.parts),
        Form::Lambda(definition) => inner_depth(flat, depths, definition),
        Form::Old => 0,
        _ => greatest(depths, &node.parts),
    }
}
