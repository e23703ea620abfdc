// Faces all of whose instances their exports reach.
ghost use Rattle.std.specs.Prelude.{ℕ, Contains, IfOk, IsTrue, List as ListOf};
ghost use Rattle.module_model.specs.Given.{AreFaces, IsFaceOver};
ghost use Rattle.exact_faces.specs.Found.{AreFound, told};
ghost use Rattle.exact_faces.specs.Importing.{AreExactImports, AreNames, IsImportReached};
ghost use Rattle.exact_faces.specs.Kept.{AreReachedAll};

use crate::found::Found;
use crate::parts::are_own_found;
use crate::reached::names_found;
use module_model::{Face, Import, Imported};
use std::alloc::Global;
use tool_list::{Chars, Memory};

// Whether all instances are found that an import exports, if it is accepted.
fn is_reached(
    alloc: Global,
    found: &Found<'_>,
    imports: &Imported,
    name: &str,
) -> Result<bool, Memory>
    ensures { IfOk result (λ is. IsTrue is
        → IsImportReached (told found.now) imports.now name.now) }
{
    match imports.get(name) {
        Some(Import::Module(face)) => {
            let are = names_found(alloc, found, &face.exports)?;
            Ok(are)
        }
        None | Some(Import::Unknown | Import::Cyclic | Import::Refused) => Ok(true),
    }
}

// Whether all instances are found that the imports of these names export.
fn are_reached(
    alloc: Global,
    found: &Found<'_>,
    imports: &Imported,
    names: &[Chars],
) -> Result<bool, Memory>
    ensures { IfOk result (λ are. IsTrue are → (name : ListOf ℕ) → Contains names.now name
        → IsImportReached (told found.now) imports.now name) }
{
    for index in 0..names.len() {
        if !is_reached(alloc, found, imports, names[index].as_str())? {
            return Ok(false);
        }
    }
    Ok(true)
}

/// Whether the exports of a face over imports of these names reach all of its instances, where that
/// is seen by those that are found by its own text. So it is where each instance of the text is
/// found, and each that an import exports: for the faces of imports are exact.
pub fn are_reached_all(
    alloc: Global,
    imports: &Imported,
    names: &[Chars],
    found: &Found<'_>,
    face: &Face,
) -> Result<bool, Memory>
    requires over { IsFaceOver imports.now face.now.«module» face.now }
    requires faces { AreFaces imports.now face.now.«module» }
    requires exact { AreExactImports imports.now }
    requires names { AreNames names.now imports.now }
    requires found { AreFound face.now (told found.now) }
    ensures { IfOk result (λ are. IsTrue are → AreReachedAll face.now found.now) }
{
    if !are_own_found(found, face.module.as_str(), &face.parts) {
        return Ok(false);
    }
    let are = are_reached(alloc, found, imports, names)?;
    Ok(are)
}
