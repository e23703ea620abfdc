// What a module is to those that name it.
ghost use Rattle.std.specs.Prelude.{◌≡◌, [], IfOk};
ghost use Rattle.std.specs.Arc.{arc_value};
ghost use Rattle.module_model.specs.Exports.{exports_of};
ghost use Rattle.module_faces.specs.Faces.{IsOwnOrRefused, IsRefusedFace};

use module_model::{Face, Parts};
use std::alloc::Global;
use std::sync::Arc;
use tla_model::NameTable;
use tool_list::{Chars, Memory};

// A table without names, to be shared.
fn no_exports(alloc: Global) -> Result<Arc<NameTable>, Memory>
    ensures { IfOk result (λ shared. exports_of (arc_value shared) ≡ []) }
{
    let shared = Arc::new(alloc, NameTable::new(alloc))?;
    Ok(shared)
}

// The face of the module of a name that is not accepted.
fn refused_face(alloc: Global, name: &str) -> Result<Face, Memory>
    ensures { IfOk result (IsRefusedFace name.now) }
{
    let exports = no_exports(alloc)?;
    Ok(Face {
        module: Chars::from_str(alloc, name)?,
        exports,
        parts: Parts::new(alloc),
    })
}

/// The face of the module of a name, to be shared: its own where it is accepted, and else one that
/// exports nothing and reaches no instance. `Memory` comes where there was no room.
pub fn shared_face(alloc: Global, name: &str, face: Option<Face>) -> Result<Arc<Face>, Memory>
    ensures { IfOk result (λ shared. IsOwnOrRefused name.now face (arc_value shared)) }
{
    let face = match face {
        Some(face) => face,
        None => refused_face(alloc, name)?,
    };
    let shared = Arc::new(alloc, face)?;
    Ok(shared)
}
