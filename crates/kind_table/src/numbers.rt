// Lists of numbers of arguments.
ghost use Rattle.std.specs.Prelude.{◌≡◌, ◌++◌, IfOk, Some, drop, map, replicate, slice_index_or, take};
ghost use Rattle.kind_table.specs.Table.{picked as number_picked};

use std::alloc::{AllocError, Global};
use tla_symbols::Kind;

/// The number at a place, and 0 past the end.
pub fn number_at(numbers: &[usize], place: usize) -> usize
    ensures { result ≡ slice_index_or numbers.now place 0 }
{
    match numbers.get(place) {
        Some(number) => *number,
        None => 0,
    }
}

/// A list of its own of the same numbers.
pub fn copied(alloc: Global, numbers: &[usize]) -> Result<Vec<usize>, AllocError>
    ensures { IfOk result (λ v. v.items ≡ numbers.now) }
{
    numbers.iter().copied().collect(alloc)
}

/// The first numbers of a list, so many.
pub fn first(alloc: Global, numbers: &[usize], count: usize) -> Result<Vec<usize>, AllocError>
    ensures { IfOk result (λ v. v.items ≡ take count numbers.now) }
{
    numbers.iter().take(count).copied().collect(alloc)
}

/// The first numbers of a list, so many, where they stand.
pub fn front(numbers: &[usize], count: usize) -> &[usize]
    ensures { result.now ≡ take count numbers.now }
{
    match numbers.get(..count) {
        Some(front) => front,
        None => numbers,
    }
}

/// The numbers of a list behind its first ones.
pub fn after(alloc: Global, numbers: &[usize], count: usize) -> Result<Vec<usize>, AllocError>
    ensures { IfOk result (λ v. v.items ≡ drop count numbers.now) }
{
    numbers.iter().skip(count).copied().collect(alloc)
}

/// The first numbers of a list, so many, and then those of another list.
pub fn behind(
    alloc: Global,
    numbers: &[usize],
    count: usize,
    more: &[usize],
) -> Result<Vec<usize>, AllocError>
    ensures { IfOk result (λ v. v.items ≡ take count numbers.now ++ more.now) }
{
    let front = front(numbers, count);
    let mut both = Vec::with_capacity(alloc, front.len().saturating_add(more.len()))?;
    both.extend_from_slice(front)?;
    both.extend_from_slice(more)?;
    Ok(both)
}

/// The number that was found of a node, where the first one is of the node start.
pub fn picked(node: usize, start: usize, found: &[usize]) -> usize
    ensures { result ≡ number_picked start found.now node }
{
    number_at(found, node.saturating_sub(start))
}

/// The numbers that were found of these nodes, where the first one is of the node start.
pub fn pick(
    alloc: Global,
    nodes: &[usize],
    start: usize,
    found: &[usize],
) -> Result<Vec<usize>, AllocError>
    ensures { IfOk result (λ v. v.items ≡ map (number_picked start found.now) nodes.now) }
{
    let mut numbers = Vec::with_capacity(alloc, nodes.len())?;
    for node in nodes {
        numbers.push(picked(*node, start, found))?;
    }
    Ok(numbers)
}

/// So many constant kinds.
pub fn constants(alloc: Global, count: usize) -> Result<Vec<Option<Kind>>, AllocError>
    ensures { IfOk result (λ v. v.items ≡ replicate count (Some Kind.Const)) }
{
    let mut kinds = Vec::with_capacity(alloc, count)?;
    for _i in 0..count {
        kinds.push(Some(Kind::Const))?;
    }
    Ok(kinds)
}
