// How many arguments names take.
ghost use Rattle.std.specs.Prelude.{◌≡◌, Some, IfOk};
ghost use Rattle.std.specs.Option.{option_copied};
ghost use Rattle.tree_kinds.specs.Standing as standing;
ghost use Rattle.flat_trees.specs.Layouts as layouts;
ghost use Rattle.flat_trees.specs.Names as flat_names;

use tla_model::{Entity, Meaning};
use tool_list::Memory;

// How many arguments an entity takes.
fn places(entity: &Entity) -> usize
    ensures { result ≡ standing.places entity.now }
{
    match entity {
        Entity::Constant { arity } => *arity as usize,
        Entity::Definition { orders } => orders.as_slice().len(),
        Entity::Instance { orders } => orders.as_slice().len(),
        Entity::Parameter { arity } => *arity as usize,
        _ => 0,
    }
}

// The same of a meaning that is there.
fn meaning_places(meaning: &Meaning) -> Option<usize>
    ensures { result ≡ standing.operator_places (Some meaning.now) }
{
    match meaning {
        Meaning::BuiltIn => None,
        Meaning::Declared { entity, .. } => {
            let places = places(entity);
            if places == 0 { None } else { Some(places) }
        }
    }
}

/// The places of a name of this meaning, which may not be there, where it is an operator.
pub fn operator_places(meaning: Option<&Meaning>) -> Option<usize>
    ensures { result ≡ standing.operator_places (option_copied meaning.entry) }
{
    match meaning {
        Some(meaning) => meaning_places(meaning),
        None => None,
    }
}

/// The order of what a name means. `Memory` comes where it is no number of 32 bits.
pub fn order_of(meaning: &Meaning) -> Result<u32, Memory>
    ensures { IfOk result (λ order. order ≡ layouts.order_of meaning.now) }
{
    match meaning {
        Meaning::BuiltIn => Ok(0),
        Meaning::Declared { entity, .. } => {
            let places = places(entity);
            if places > 0xFFFF_FFFF {
                return Err(Memory);
            }
            Ok(places as u32)
        }
    }
}

/// The places of an item of this order.
pub fn places_by(order: u32) -> Option<usize>
    ensures { result ≡ flat_names.places_by order }
{
    if order == 0 {
        None
    } else {
        Some(order as usize)
    }
}
