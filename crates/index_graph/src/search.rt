// Where steps lead from an index.
ghost use Rattle.std.specs.Prelude.{◌≡◌, ◌<◌, ℕ, List, ◌++◌, true, Some, IfOk, OnOk, length, slice_get, slice_set, vec_len};
ghost use Rattle.index_graph.specs.Indices.{HasIndices, AreReached};

use std::alloc::Global;
use tool_list::{List, Memory};

// Nothing seen.
fn unseen(alloc: Global, len: usize) -> Result<Vec<bool>, Memory>
    ensures long { IfOk result (λ seen. vec_len seen ≡ len) }
    ensures none { IfOk result (λ seen. (i : ℕ) → slice_get seen.items i ≡ Some true → ⊥) }
{
    let mut seen = Vec::with_capacity(alloc, len)?;
    for _ in 0..len {
        seen.push(false)?;
    }
    Ok(seen)
}

// Marks an index as seen, and puts what it needs behind the indices that are due.
fn see(
    edges: &[List<usize>],
    seen: &mut Vec<bool>,
    todo: &mut Vec<usize>,
    index: usize,
) -> Result<(), Memory>
    requires index { index < length edges.now }
    requires long { vec_len seen.old ≡ length edges.now }
    ensures seen { seen.new.items ≡ slice_set seen.old.items index true }
    ensures todo { OnOk result ((row : List ℕ) → slice_get edges.now index ≡ Some row
        → todo.new.items ≡ todo.old.items ++ row) }
{
    seen[index] = true;
    todo.extend_from_slice(edges[index].as_slice())?;
    Ok(())
}

/// The indices to which steps lead from one, itself among them.
pub fn reached(alloc: Global, edges: &[List<usize>], start: usize) -> Result<Vec<bool>, Memory>
    requires start { start < length edges.now }
    requires indices { HasIndices edges.now }
    ensures { IfOk result (λ seen. AreReached edges.now start seen.items) }
{
    let mut seen = unseen(alloc, edges.len())?;
    let mut todo = Vec::new(alloc);
    todo.push(start)?;
    while let Some(index) = todo.pop() {
        if !seen[index] {
            see(edges, &mut seen, &mut todo, index)?;
        }
    }
    Ok(seen)
}
