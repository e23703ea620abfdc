// Whether faces are the same.
ghost use Rattle.std.specs.Prelude.{◌≡◌};
ghost use Rattle.module_model.specs.Exports.{face_outside};
ghost use Rattle.module_model.specs.declared.face.Face.{Face as FaceOf};
ghost use Rattle.face_views.specs.Exact.{Tells};
ghost use Rattle.face_views.specs.Same.{IsSameFace};

use crate::instances::are_same_instances;
use crate::table::are_same_names;
use module_model::Face;

// Whether both are one text. Names are short, so that to compare their bytes one by one is the
// least work.
fn is_same_text(one: &str, other: &str) -> bool
    ensures { Tells result (one.now ≡ other.now) }
{
    one.as_bytes() == other.as_bytes()
}

/// Whether faces are the same: of one module, with the same exports in the same order, and with the
/// same instances that these reach.
pub fn are_same(one: &Face, other: &Face) -> bool
    ensures { Tells result (IsSameFace one.now other.now) }
{
    if !is_same_text(one.module.as_str(), other.module.as_str()) {
        return false;
    }
    are_same_names(&one.exports, &other.exports) && are_same_instances(&one.parts, &other.parts)
}

/// Modules with the same faces are the same to those that name them.
pub fn same_faces_look_alike()
    ensures { (one other : FaceOf) → IsSameFace one other → face_outside one ≡ face_outside other }
{}
