// What names stand for.
ghost use Rattle.std.specs.Prelude.{◌≡◌, IfOk};

use crate::ids::DeclId;
use tla_symbols::Span;
use tool_list::{Chars, Memory, SharedList};

/// What a name stands for. Orders are those of the parameters of a definition or of an instance: 0 for
/// an expression, and the number of its places for an operator.
pub enum Entity {
    /// A declared constant, by its number of places.
    Constant { arity: u32 },
    /// A declared variable.
    Variable,
    /// The definition of an operator or of a function; a function's has no orders.
    Definition { orders: SharedList<u32> },
    /// An instance that a module definition names.
    Instance { orders: SharedList<u32> },
    /// A parameter of a definition, by its number of places.
    Parameter { arity: u32 },
    /// A bound name. `state` is true of the names that `\AA` and `\EE` bind.
    Bound { state: bool },
    /// A nested module. It is in no context, and stands among declarations alone.
    Module,
}

// By hand, so that a proof meets one call wherever a value ends.
impl Drop for Entity {
    fn drop(self) {
        match self {
            Entity::Constant { arity: _ }
            | Entity::Variable
            | Entity::Definition { orders: _ }
            | Entity::Instance { orders: _ }
            | Entity::Parameter { arity: _ }
            | Entity::Bound { state: _ }
            | Entity::Module => {}
        }
    }
}

impl Entity {
    /// The same entity, which shares its orders. `Memory` comes where so many can't be counted.
    pub fn copied(&self) -> Result<Entity, Memory>
        ensures { IfOk result (λ copy. copy ≡ self.now) }
    {
        match self {
            Entity::Constant { arity } => Ok(Entity::Constant { arity: *arity }),
            Entity::Variable => Ok(Entity::Variable),
            Entity::Definition { orders } => Ok(Entity::Definition {
                orders: orders.copied()?,
            }),
            Entity::Instance { orders } => Ok(Entity::Instance {
                orders: orders.copied()?,
            }),
            Entity::Parameter { arity } => Ok(Entity::Parameter { arity: *arity }),
            Entity::Bound { state } => Ok(Entity::Bound { state: *state }),
            Entity::Module => Ok(Entity::Module),
        }
    }
}

/// The level of what a name means, as a user reads it.
#[derive(Clone, Copy, Debug, PartialEq, Eq)]
pub enum Level {
    Constant,
    State,
    Action,
    Temporal,
    /// A name before `!` has no level of its own.
    Instance,
}

/// A name that a text declares, and what it stands for.
pub struct Decl {
    pub id: DeclId,
    /// Where the name stands, in bytes.
    pub name: Span,
    pub entity: Entity,
}

// By hand, so that a proof meets one call wherever a value ends.
impl Drop for Decl {
    fn drop(self) {
        let Decl {
            id: _,
            name: _,
            entity: _,
        } = self;
    }
}

/// A use of a name or of a symbol, with the declaration that it resolves to.
pub struct Use {
    /// Where the name stands, in bytes.
    pub name: Span,
    /// The module whose text declares it.
    pub module: Chars,
    /// How many declaring names stand before the declaration in that text.
    pub place: u32,
    /// The level of the use where its module is accepted, and else `Constant`.
    pub level: Level,
}

// By hand, so that a proof meets one call wherever a value ends.
impl Drop for Use {
    fn drop(self) {
        let Use {
            name: _,
            module: _,
            place: _,
            level: _,
        } = self;
    }
}
