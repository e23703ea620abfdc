// Pairs of modules whose names are known to lead alike.
ghost use Rattle.std.specs.Prelude.{◌≡◌, IsTrue, OnOk};
ghost use Rattle.module_leads.specs.Alike.{AddsPair, AreAmong};

use indexmap::IndexSet;
use tool_list::Memory;

// Whether both are the same face, or none.
fn is_same_face(one: Option<usize>, other: Option<usize>) -> bool
    ensures { IsTrue result → one ≡ other }
{
    match (one, other) {
        (None, None) => true,
        (Some(one), Some(other)) => one == other,
        _ => false,
    }
}

// Whether both are known.
fn is_pair(known: &IndexSet<(usize, usize)>, one: Option<usize>, other: Option<usize>) -> bool
    ensures { IsTrue result → AreAmong known.now.keys one other }
{
    match (one, other) {
        (Some(one), Some(other)) => known.contains(&(one, other)),
        _ => false,
    }
}

/// Whether the names of two modules lead alike as far as is known: as those of one module do.
pub(crate) fn are_known(
    known: &IndexSet<(usize, usize)>,
    one: Option<usize>,
    other: Option<usize>,
) -> bool
    ensures { IsTrue result → AreAmong known.now.keys one other }
{
    is_same_face(one, other) || is_pair(known, one, other)
}

/// Keeps that the names of two modules lead alike.
pub(crate) fn keep(
    known: &mut IndexSet<(usize, usize)>,
    one: Option<usize>,
    other: Option<usize>,
) -> Result<(), Memory>
    ensures { OnOk result (AddsPair known.old.keys known.new.keys one other) }
{
    if let (Some(one), Some(other)) = (one, other) {
        known.insert((one, other))?;
    }
    Ok(())
}
