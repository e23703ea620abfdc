// Rows of names with what they need, and the indices where they stand.
ghost use Rattle.std.specs.Prelude.{◌≡◌, ◌<◌, ◌↔◌, All, IsTrue, IfOk, OnOk, MatchOption, length, map};
ghost use Rattle.std.specs.List.{list_any};
ghost use Rattle.std.specs.Str.{bytes_eq};
ghost use Rattle.name_graph.specs.Rows as rows_of;

use indexmap::IndexMap;
use std::alloc::Global;
use tool_list::{Chars, List, Memory};

/// Each name that was put, with the names that it needs.
pub type Rows = IndexMap<String, List<Chars>>;

// The indices where these names stand, of those that were put.
fn indices_of(alloc: Global, rows: &Rows, names: &[Chars]) -> Result<List<usize>, Memory>
    ensures { IfOk result (λ indices. indices ≡ rows_of.indices_of rows.now.entries names.now) }
{
    let mut indices = List::new(alloc);
    for name in names {
        if let Some(index) = rows.get_index_of(name.as_str()) {
            indices.push(index)?;
        }
    }
    Ok(indices)
}

/// For each row the indices of the names that it needs.
pub fn edges_of(alloc: Global, rows: &Rows) -> Result<Vec<List<usize>>, Memory>
    ensures edges { IfOk result (λ edges. edges.items ≡ rows_of.edges_of rows.now.entries) }
    ensures distinct { OnOk result (rows_of.AreDistinct rows.now.entries) }
{
    let mut edges = Vec::new(alloc);
    for index in 0..rows.len() {
        edges.push(indices_of(alloc, rows, rows[index].as_slice())?)?;
    }
    Ok(edges)
}

// Whether the name is among these.
fn is_among(names: &[Chars], name: &str) -> bool
    ensures { result ≡ list_any (bytes_eq name.now) names.now }
{
    names.iter().any(|other| name == other.as_str())
}

/// Whether some row that is seen needs the name.
pub fn some_needs(rows: &Rows, seen: &[bool], name: &str) -> bool
    requires { length seen.now ≡ length rows.now.entries }
    ensures { IsTrue result ↔ rows_of.SomeNeeds rows.now.entries seen.now name.now }
{
    for index in 0..seen.len() {
        if seen[index] && is_among(rows[index].as_slice(), name) {
            return true;
        }
    }
    false
}

/// The name at an index.
pub fn name_at(rows: &Rows, index: usize) -> &str
    requires { index < length rows.now.entries }
    ensures { result.now ≡ rows_of.name_at rows.now.entries index }
{
    let Some((name, _)) = rows.get_index(index) else {
        unreachable!();
    };
    name.as_str()
}

/// Of these indices the one whose name is the first in byte order.
pub fn first_of(rows: &Rows, indices: &[usize]) -> Option<usize>
    requires { All (λ index. index < length rows.now.entries) indices.now }
    ensures { MatchOption result (length indices.now
        ≡ 0) (rows_of.IsFirst rows.now.entries indices.now) }
{
    let mut first = *indices.first()?;
    for &index in indices {
        if name_at(rows, index) < name_at(rows, first) {
            first = index;
        }
    }
    Some(first)
}

/// The names at these indices.
pub fn names_of(alloc: Global, rows: &Rows, indices: &[usize]) -> Result<List<Chars>, Memory>
    requires { All (λ index. index < length rows.now.entries) indices.now }
    ensures { IfOk result (λ names. names ≡ map (rows_of.name_at rows.now.entries) indices.now) }
{
    let mut names = List::new(alloc);
    for &index in indices {
        names.push(Chars::from_str(alloc, name_at(rows, index))?)?;
    }
    Ok(names)
}
