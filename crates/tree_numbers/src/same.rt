// What has the same resolved trees, as far as numbers of nodes tell.
ghost use Rattle.std.specs.Prelude.{◌≡◌, IsTrue, Some, map, slice_get};
ghost use Rattle.kind_text.specs.FlatModule as definitions;
ghost use Rattle.kind_table.specs.Flattened.{definition_of, flat_of, instance_of, replacement_of};
ghost use Rattle.tree_numbers.specs.Same.{AreSameReplacements, FindsSameDefinition, FindsSameInstance, FindsSameNode, FindsSameReplacements, IsSameDefinition, IsSameInstance, IsSameNode};

use kind_table::{Definition, FlatModule, Instance, Replacement};

// Whether two nodes have one number.
fn is_same_node(numbers: &[usize], one: usize, other: usize) -> bool
    ensures same { IsTrue result → (flat : definitions.FlatModule)
        → IsSameNode flat numbers.now one other }
    ensures found { (flat : definitions.FlatModule)
        → FindsSameNode flat numbers.now one other result }
{
    match (numbers.get(one), numbers.get(other)) {
        (Some(one), Some(other)) => one == other,
        _ => false,
    }
}

// Whether two definitions have the same bodies.
fn is_same_body(numbers: &[usize], one: Definition, other: Definition) -> bool
    ensures same { IsTrue result → (flat : definitions.FlatModule)
        → IsSameDefinition flat numbers.now (Some (definition_of one))
        (Some (definition_of other)) }
    ensures found { (flat : definitions.FlatModule) → FindsSameDefinition flat numbers.now
        (Some (definition_of one)) (Some (definition_of other)) result }
{
    one.outer == other.outer && is_same_node(numbers, one.root, other.root)
}

/// Whether two definitions have the same resolved trees, as far as numbers of nodes tell. One that
/// is not there is the same as itself alone.
pub fn is_same_definition(flat: &FlatModule, numbers: &[usize], one: usize, other: usize) -> bool
    ensures same { IsTrue result → IsSameDefinition (flat_of flat.now) numbers.now
        (slice_get (flat_of flat.now).definitions one) (slice_get (flat_of flat.now).definitions
        other) }
    ensures found { FindsSameDefinition (flat_of flat.now) numbers.now
        (slice_get (flat_of flat.now).definitions one) (slice_get (flat_of flat.now).definitions
        other) result }
{
    if one == other {
        return true;
    }
    match (flat.definitions.get(one), flat.definitions.get(other)) {
        (Some(one), Some(other)) => is_same_body(numbers, *one, *other),
        _ => false,
    }
}

// Whether the same stands for two symbols.
fn is_same_replacement(numbers: &[usize], one: Replacement, other: Replacement) -> bool
    ensures most { IsTrue result → one.most ≡ other.most }
    ensures root { IsTrue result → (flat : definitions.FlatModule)
        → IsSameNode flat numbers.now one.root other.root }
    ensures found { one.most ≡ other.most → (flat : definitions.FlatModule)
        → FindsSameNode flat numbers.now one.root other.root result }
{
    one.most == other.most && is_same_node(numbers, one.root, other.root)
}

// Whether the same stands for symbols, one after another.
fn are_same_replacements(numbers: &[usize], one: &[Replacement], other: &[Replacement]) -> bool
    ensures same { IsTrue result → (flat : definitions.FlatModule)
        → AreSameReplacements flat numbers.now (map replacement_of one.now)
        (map replacement_of other.now) }
    ensures found { (flat : definitions.FlatModule) → FindsSameReplacements flat numbers.now
        (map replacement_of one.now) (map replacement_of other.now) result }
{
    if one.len() != other.len() {
        return false;
    }
    let mut index = one.len();
    while index > 0 {
        index -= 1;
        if !is_same_replacement(numbers, one[index], other[index]) {
            return false;
        }
    }
    true
}

// Whether two instances are made of the same.
fn is_same_content(numbers: &[usize], one: &Instance, other: &Instance) -> bool
    ensures same { IsTrue result → (flat : definitions.FlatModule)
        → IsSameInstance flat numbers.now (Some (instance_of one.now))
        (Some (instance_of other.now)) }
    ensures found { (flat : definitions.FlatModule) → FindsSameInstance flat numbers.now
        (Some (instance_of one.now)) (Some (instance_of other.now)) result }
{
    one.outer == other.outer
        && one.parameters == other.parameters
        && one.guards == other.guards
        && are_same_replacements(numbers, &one.replacements, &other.replacements)
}

/// Whether two instances have the same resolved trees, as far as numbers of nodes tell. One that
/// is not there is the same as itself alone.
pub fn is_same_instance(flat: &FlatModule, numbers: &[usize], one: usize, other: usize) -> bool
    ensures same { IsTrue result → IsSameInstance (flat_of flat.now) numbers.now
        (slice_get (flat_of flat.now).instances one) (slice_get (flat_of flat.now).instances
        other) }
    ensures found { FindsSameInstance (flat_of flat.now) numbers.now
        (slice_get (flat_of flat.now).instances one) (slice_get (flat_of flat.now).instances
        other) result }
{
    if one == other {
        return true;
    }
    match (flat.instances.get(one), flat.instances.get(other)) {
        (Some(one), Some(other)) => is_same_content(numbers, one, other),
        _ => false,
    }
}
