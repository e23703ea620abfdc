// The greatest depths among nodes.
ghost use Rattle.std.specs.Prelude.{◌≡◌, ◌<◌, is_some, map, slice_get};
ghost use Rattle.kind_text.specs.FlatModule.{places_of};
ghost use Rattle.kind_table.specs.Flattened.{flat_of, number_in};
ghost use Rattle.level_text.specs.Depth as text;

use kind_table::{FlatModule, Replacement};

/// The depth of a node, and 0 past the end.
pub(crate) fn depth_at(depths: &[u16], node: usize) -> usize
    ensures value { result ≡ number_in depths.now node }
    ensures small { result < 65536 }
{
    match depths.get(node) {
        Some(depth) => usize::from(*depth),
        None => 0,
    }
}

/// The greatest depth of nodes.
pub(crate) fn greatest(depths: &[u16], nodes: &[usize]) -> usize
    ensures value { result ≡ text.greatest (number_in depths.now) nodes.now }
    ensures small { result < 65536 }
{
    let mut most = 0;
    for node in nodes {
        most = most.max(depth_at(depths, *node));
    }
    most
}

/// The greatest depth of what stands for symbols.
pub(crate) fn greatest_root(depths: &[u16], replacements: &[Replacement]) -> usize
    ensures value { result ≡ text.greatest (number_in depths.now)
        (map (λ r. r.root) replacements.now) }
    ensures small { result < 65536 }
{
    let mut most = 0;
    for replacement in replacements {
        most = most.max(depth_at(depths, replacement.root));
    }
    most
}

/// The depth of a node that is a bare operator, and 0 for any other.
pub(crate) fn operator_depth(flat: &FlatModule, depths: &[u16], node: usize) -> usize
    ensures value { result ≡ text.operator_depth (flat_of flat.now) (number_in depths.now) node }
    ensures small { result < 65536 }
{
    if is_operator(flat, node) {
        return depth_at(depths, node);
    }
    0
}

// Whether a node is a bare operator.
fn is_operator(flat: &FlatModule, node: usize) -> bool
    ensures { result ≡ is_some (places_of (slice_get (flat_of flat.now).nodes node)) }
{
    match flat.nodes.get(node) {
        Some(node) => node.places.is_some(),
        None => false,
    }
}

/// The greatest depth of the bare operators among nodes.
pub(crate) fn greatest_operator(flat: &FlatModule, depths: &[u16], nodes: &[usize]) -> usize
    ensures value { result ≡ text.greatest
        (text.operator_depth (flat_of flat.now) (number_in depths.now)) nodes.now }
    ensures small { result < 65536 }
{
    let mut most = 0;
    for node in nodes {
        most = most.max(operator_depth(flat, depths, *node));
    }
    most
}
