// What names take.
ghost use Rattle.std.specs.Prelude.{◌≡◌, None, Some, if◌then◌else◌, nat_eq, slice_get};
ghost use Rattle.std.specs.List.{list_all};
ghost use Rattle.arity_rules.specs.Arities as arities;

use tla_model::Entity;

/// How many arguments a name takes.
pub fn arity(entity: &Entity) -> usize
    ensures { result ≡ arities.arity entity.now }
{
    match entity {
        Entity::Constant { arity } | Entity::Parameter { arity } => *arity as usize,
        Entity::Definition { orders } | Entity::Instance { orders } => orders.as_slice().len(),
        _ => 0,
    }
}

/// Whether a name is an instance.
pub fn is_instance(entity: &Entity) -> bool
    ensures { result ≡ arities.is_instance entity.now }
{
    matches!(entity, Entity::Instance { .. })
}

// Whether all of these parameters are expressions.
fn all_expressions(orders: &[u32]) -> bool
    ensures { result ≡ list_all (λ order. nat_eq order 0) orders.now }
{
    orders.iter().all(|order| *order == 0)
}

/// Whether the parameters of a name are all expressions.
pub fn takes_expressions(entity: &Entity) -> bool
    ensures { result ≡ arities.takes_expressions entity.now }
{
    match entity {
        Entity::Definition { orders } => all_expressions(orders.as_slice()),
        _ => true,
    }
}

// The order at an index, if there are so many.
fn order_among(orders: &[u32], index: usize) -> Option<usize>
    ensures { result ≡ slice_get orders.now index }
{
    let order = orders.get(index)?;
    Some(*order as usize)
}

/// Of what order the argument with an index is: 0 for an expression, or the arity of an operator. A
/// surplus argument has none.
pub fn order_at(entity: &Entity, index: usize) -> Option<usize>
    ensures { result ≡ arities.order_at entity.now index }
{
    match entity {
        Entity::Definition { orders } | Entity::Instance { orders } => {
            order_among(orders.as_slice(), index)
        }
        _ => order_of_expression(index < arity(entity)),
    }
}

// The order of an expression, unless the argument is a surplus one.
fn order_of_expression(is_taken: bool) -> Option<usize>
    ensures { result ≡ if is_taken then Some 0 else None }
{
    if is_taken { Some(0) } else { None }
}
