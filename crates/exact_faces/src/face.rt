// Faces that hold exactly what their exports reach.
ghost use Rattle.std.specs.Prelude.{◌≡◌, IfOk};
ghost use Rattle.std.specs.Arc.{arc_value};
ghost use Rattle.module_model.specs.Exports.{face_outside};
ghost use Rattle.module_model.specs.Given.{AreFaces, IsFaceOver, IsWhole};
ghost use Rattle.module_model.specs.declared.face.Face.{Face as FaceOf};
ghost use Rattle.face_views.specs.Same.{IsSameFace};
ghost use Rattle.exact_faces.specs.Exact.{IsExact, IsExactOf};
ghost use Rattle.exact_faces.specs.Found.{AreFound, told};
ghost use Rattle.exact_faces.specs.Importing.{AreExactImports, AreNames};
ghost use Rattle.exact_faces.specs.Kept.{AreReachedAll};

use crate::already::are_reached_all;
use crate::found::Found;
use crate::parts::{are_own_plain, exact_parts, own_kept};
use crate::reached::{reached, reached_by_text};
use module_model::{Face, Imported, Parts};
use std::alloc::Global;
use std::sync::Arc;
use tool_list::{Chars, Memory};

// The face of the same module with the same exports, with these instances.
fn with_parts(alloc: Global, face: &Face, parts: Parts) -> Result<Face, Memory>
    ensures named { IfOk result (λ made. made.«module» ≡ face.entry.now.«module») }
    ensures exports { IfOk result (λ made. arc_value made.exports
        ≡ arc_value face.entry.now.exports) }
    ensures parts { IfOk result (λ made. made.parts ≡ parts) }
{
    let module = face.module.copied()?;
    let exports = face.exports.clone()?;
    Ok(Face {
        module,
        exports,
        parts,
    })
}

// A face of what the exports of one reach.
fn cut(alloc: Global, face: &Face) -> Result<Face, Memory>
    requires whole { IsWhole face.now }
    ensures { IfOk result (IsExactOf face.now) }
{
    let found = reached(alloc, face)?;
    let parts = exact_parts(alloc, &found, &face.parts)?;
    let made = with_parts(alloc, face, parts)?;
    Ok(made)
}

// The same, where the exports reach all instances: only the tables of those that the module's own
// text declares are cut.
fn own_cut(alloc: Global, found: &Found<'_>, face: &Face) -> Result<Face, Memory>
    requires whole { IsWhole face.now }
    requires found { AreFound face.now (told found.now) }
    requires all { AreReachedAll face.now found.now }
    ensures { IfOk result (IsExactOf face.now) }
{
    let parts = own_kept(alloc, found, face.module.as_str(), &face.parts)?;
    let made = with_parts(alloc, face, parts)?;
    Ok(made)
}

/// Of a face over imports of these names, whose faces are exact, one of the same module with the
/// same exports, which holds of each instance that these reach what stands behind it, and nothing
/// else. It is shared where it is exact already. Where all of its instances are reached the parts of
/// other texts are shared.
pub fn exact(
    alloc: Global,
    imports: &Imported,
    names: &[Chars],
    face: &Arc<Face>,
) -> Result<Arc<Face>, Memory>
    requires over { IsFaceOver imports.now (arc_value face.now).«module» (arc_value face.now) }
    requires faces { AreFaces imports.now (arc_value face.now).«module» }
    requires exact { AreExactImports imports.now }
    requires names { AreNames names.now imports.now }
    ensures { IfOk result (λ made. IsExactOf (arc_value face.now) (arc_value made)) }
{
    let found = reached_by_text(alloc, face)?;
    if !are_reached_all(alloc, imports, names, &found, face)? {
        let made = Arc::new(alloc, cut(alloc, face)?)?;
        return Ok(made);
    }
    if are_own_plain(&found, face.module.as_str(), &face.parts) {
        let shared = face.clone()?;
        return Ok(shared);
    }
    let made = Arc::new(alloc, own_cut(alloc, &found, face)?)?;
    Ok(made)
}

/// Faces that hold exactly what their exports reach are the same where the modules are to those
/// that name them.
pub fn exact_faces_are_told()
    ensures { (one other : FaceOf) → IsExact one → IsExact other → IsWhole one → IsWhole other
        → one.«module» ≡ other.«module» → face_outside one ≡ face_outside other
        → IsSameFace one other }
{}
