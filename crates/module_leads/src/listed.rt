// Modules of a table by their numbers, and their names.
ghost use Rattle.std.specs.Prelude.{◌≡◌, length, option_map, slice_get};
ghost use Rattle.std.specs.Option.{option_copied};
ghost use Rattle.name_context.specs.AsTables.{meant_by};
ghost use Rattle.module_leads.specs.Alike.{IsKnownAs, module_at, names_at};
ghost use Rattle.module_leads.specs.Layers.{IsFaceWithin};

use crate::faces::{ModuleFace, Sort};
use name_context::Named;

// The module with a number, if it is there.
fn module_at(faces: &[ModuleFace], face: Option<usize>) -> Option<&ModuleFace>
    ensures { option_copied result ≡ module_at faces.now face }
{
    faces.get(face?)
}

/// How many names of a sort a module has. One that is not there has none.
pub(crate) fn name_count(faces: &[ModuleFace], face: Option<usize>, sort: Sort) -> usize
    ensures { result ≡ length (names_at sort (module_at faces.now face)) }
{
    match module_at(faces, face) {
        Some(face) => face.name_count(sort),
        None => 0,
    }
}

/// The name of a sort at an index of a module.
pub(crate) fn name_at(
    faces: &[ModuleFace],
    face: Option<usize>,
    sort: Sort,
    index: usize,
) -> Option<Named<'_>>
    ensures { option_map meant_by result
        ≡ slice_get (names_at sort (module_at faces.now face)) index }
{
    let face = module_at(faces, face)?;
    face.name_at(sort, index)
}

/// The number of a face, if it lies below another one.
pub(crate) fn face_below(limit: usize, face: Option<usize>) -> Option<usize>
    ensures within { IsFaceWithin limit result }
    ensures known { IsKnownAs limit face result }
{
    let number = face?;
    if number < limit { Some(number) } else { None }
}
