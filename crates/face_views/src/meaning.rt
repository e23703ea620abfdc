// Whether names mean the same, in all that is told of it.
ghost use Rattle.std.specs.Prelude.{◌≡◌};
ghost use Rattle.face_views.specs.Exact.{Tells};

use tla_model::{Callee, Entity, Meaning, same_decl, same_units};

// Whether callees are the same.
fn is_same_callee(one: &Callee, other: &Callee) -> bool
    ensures { Tells result (one.now ≡ other.now) }
{
    if one.instance != other.instance {
        return false;
    }
    same_decl(&one.decl, &other.decl) && same_units(one.via.as_slice(), other.via.as_slice())
}

// Whether entities are the same.
fn is_same_entity(one: &Entity, other: &Entity) -> bool
    ensures { Tells result (one.now ≡ other.now) }
{
    match (one, other) {
        (Entity::Constant { arity }, Entity::Constant { arity: places }) => arity == places,
        (Entity::Variable, Entity::Variable) => true,
        (Entity::Definition { orders }, Entity::Definition { orders: places }) => {
            orders.as_slice() == places.as_slice()
        }
        (Entity::Instance { orders }, Entity::Instance { orders: places }) => {
            orders.as_slice() == places.as_slice()
        }
        (Entity::Parameter { arity }, Entity::Parameter { arity: places }) => arity == places,
        (Entity::Bound { state }, Entity::Bound { state: binds }) => state == binds,
        (Entity::Module, Entity::Module) => true,
        _ => false,
    }
}

/// Whether meanings are the same: what is declared, where and as what entity, and the units through
/// which it came.
pub fn is_same_meaning(one: &Meaning, other: &Meaning) -> bool
    ensures { Tells result (one.now ≡ other.now) }
{
    match (one, other) {
        (Meaning::BuiltIn, Meaning::BuiltIn) => true,
        (
            Meaning::Declared { entity, callee },
            Meaning::Declared {
                entity: kind,
                callee: called,
            },
        ) => is_same_callee(callee, called) && is_same_entity(entity, kind),
        _ => false,
    }
}
