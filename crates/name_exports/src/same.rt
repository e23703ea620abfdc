// Whether names mean the same.
ghost use Rattle.std.specs.Prelude.{◌≡◌, IsTrue, option_map};
ghost use Rattle.std.specs.Option.{option_copied};
ghost use Rattle.module_model.specs.Modules as in_modules;
ghost use Rattle.tla_model.specs.Stretches.{shown};

use tla_model::{Callee, Entity, Meaning, same_decl, same_units};

// Whether callees are equal.
fn equal_callees(left: &Callee, right: &Callee) -> bool
    ensures { IsTrue result → left.now ≡ right.now }
{
    if left.instance != right.instance {
        return false;
    }
    same_decl(&left.decl, &right.decl) && same_units(left.via.as_slice(), right.via.as_slice())
}

// Whether entities are equal.
fn equal_entities(left: &Entity, right: &Entity) -> bool
    ensures { IsTrue result → left.now ≡ right.now }
{
    match (left, right) {
        (Entity::Constant { arity }, Entity::Constant { arity: other }) => arity == other,
        (Entity::Variable, Entity::Variable) => true,
        (Entity::Definition { orders }, Entity::Definition { orders: other }) => {
            orders.as_slice() == other.as_slice()
        }
        (Entity::Instance { orders }, Entity::Instance { orders: other }) => {
            orders.as_slice() == other.as_slice()
        }
        _ => false,
    }
}

// Whether meanings are equal: also what a use shows of them.
fn equal_meanings(left: &Meaning, right: &Meaning) -> bool
    ensures { IsTrue result → left.now ≡ right.now }
{
    match (left, right) {
        (Meaning::BuiltIn, Meaning::BuiltIn) => true,
        (
            Meaning::Declared { entity, callee },
            Meaning::Declared {
                entity: other,
                callee: called,
            },
        ) => equal_callees(callee, called) && equal_entities(entity, other),
        _ => false,
    }
}

/// Whether words are equal, and what they mean. Words are short, so that to compare their bytes one by one is
/// the least work.
pub fn equal_entries(left: (&str, &Meaning), right: (&str, &Meaning)) -> bool
    ensures { IsTrue result → shown left.entry ≡ shown right.entry }
{
    left.0.as_bytes() == right.0.as_bytes() && equal_meanings(left.1, right.1)
}

/// Whether a name is there with another meaning.
pub fn differs(found: Option<Option<&Meaning>>, meaning: &Meaning) -> bool
    ensures { result ≡ in_modules.differs (option_map option_copied found.entry) meaning.now }
{
    match found {
        None => false,
        Some(None) => true,
        Some(Some(other)) => other != meaning,
    }
}
