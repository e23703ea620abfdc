// Meanings that are the same, and what is hashed of them.
ghost use Rattle.std.specs.Prelude.{◌≡◌, fold};
ghost use Rattle.std.specs.Cmp.{partial_equiv_from_equiv};
ghost use Rattle.std.specs.Str.{bytes_eq};
ghost use Rattle.tla_model.specs.Entities as entities;
ghost use Rattle.tla_model.specs.Equal.{meaning-equivalence, meaning-fed};
ghost use Rattle.tla_model.specs.Keys.{callee_input, meaning_input, same_unit, units_input};

use crate::ids::{Callee, DeclId, UnitId};
use crate::names::Meaning;
use std::hash::{Hash, Hasher};

// Whether both are one text. Names are short, so that to compare their bytes one by one is the least work.
fn same_text(left: &str, right: &str) -> bool
    ensures { result ≡ bytes_eq left.now right.now }
{
    left.as_bytes() == right.as_bytes()
}

/// Whether both are the same declaring name of the same module's text.
pub fn same_decl(left: &DeclId, right: &DeclId) -> bool
    ensures { result ≡ entities.same_decl left.now right.now }
{
    left.place == right.place && same_text(left.module.as_str(), right.module.as_str())
}

fn same_unit(left: &UnitId, right: &UnitId) -> bool
    ensures { result ≡ same_unit left.now right.now }
{
    left.place == right.place && left.module.as_str() == right.module.as_str()
}

/// Whether both are the same INSTANCEs, in the same order.
pub fn same_units(left: &[UnitId], right: &[UnitId]) -> bool
    ensures { result ≡ entities.same_units left.now right.now }
{
    if left.len() != right.len() {
        return false;
    }
    for index in 0..left.len() {
        if !same_unit(&left[index], &right[index]) {
            return false;
        }
    }
    true
}

// Feeds units to a hasher, one after another.
fn hash_units<H: Hasher>(units: &[UnitId], state: &mut H)
    ensures { state.new ≡ fold H.write state.old (units_input units.now) }
{
    for unit in units {
        unit.module.as_str().hash(state);
        unit.place.hash(state);
    }
}

// Feeds a callee to a hasher.
fn hash_callee<H: Hasher>(callee: &Callee, state: &mut H)
    ensures { state.new ≡ fold H.write state.old (callee_input callee.now) }
{
    callee.decl.module.as_str().hash(state);
    callee.decl.place.hash(state);
    hash_units(callee.via.as_slice(), state);
}

/// Meanings are equal where the declaration is, and the units through which it came; as what entity is not
/// looked at.
impl PartialEq for Meaning {
    ghost eq = { entities.same_meaning };

    ghost laws = { partial_equiv_from_equiv meaning-equivalence };

    fn eq(&self, other: &Meaning) -> bool {
        match (self, other) {
            (Meaning::BuiltIn, Meaning::BuiltIn) => true,
            (Meaning::Declared { callee, .. }, Meaning::Declared { callee: called, .. }) => {
                same_decl(&callee.decl, &called.decl)
                    && same_units(callee.via.as_slice(), called.via.as_slice())
            }
            _ => false,
        }
    }
}

impl Eq for Meaning {
    ghost laws = { meaning-equivalence };
}

impl Hash for Meaning {
    ghost hash_input = { meaning_input };

    ghost respects_eq = { meaning-fed };

    fn hash<H: Hasher>(&self, state: &mut H) {
        if let Meaning::Declared { callee, .. } = self {
            hash_callee(callee, state);
        }
    }
}
