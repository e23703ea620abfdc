// What is found at the names of a text.
ghost use Rattle.std.specs.Prelude.{◌≡◌, IfOk};
ghost use Rattle.tla_model.specs.EntityKinds as kinds;

use crate::entity::Entity;
use crate::ids::Callee;
use tla_symbols::Lexeme;
use tool_list::Memory;

/// What a name means.
pub enum Meaning {
    /// TRUE, FALSE, BOOLEAN or STRING.
    BuiltIn,
    /// A declaration, as the entity that it is.
    Declared { entity: Entity, callee: Callee },
}

// By hand, so that a proof meets one call wherever a value ends.
impl Drop for Meaning {
    fn drop(self) {
        match self {
            Meaning::BuiltIn
            | Meaning::Declared {
                entity: _,
                callee: _,
            } => {}
        }
    }
}

impl Meaning {
    /// The same meaning. It shares what it names.
    pub fn copied(&self) -> Result<Meaning, Memory>
        ensures { IfOk result (λ copy. copy ≡ self.now) }
    {
        match self {
            Meaning::BuiltIn => Ok(Meaning::BuiltIn),
            Meaning::Declared { entity, callee } => Ok(Meaning::Declared {
                entity: entity.copied()?,
                callee: callee.copied()?,
            }),
        }
    }

    /// The declaration, if it is one: what it is as an entity, and what it calls.
    pub fn into_declared(self) -> Option<(Entity, Callee)>
        ensures { self ≡ kinds.declared_as result }
    {
        match self {
            Meaning::BuiltIn => None,
            Meaning::Declared { entity, callee } => Some((entity, callee)),
        }
    }

    /// Whether INSTANCE replaces it: a constant or a variable.
    pub fn is_parameter(&self) -> bool
        ensures { result ≡ kinds.is_meant kinds.stands_for_parameter self.now }
    {
        match self {
            Meaning::Declared {
                entity: Entity::Constant { .. } | Entity::Variable,
                ..
            } => true,
            _ => false,
        }
    }

    /// Whether it is an instance.
    pub fn is_instance(&self) -> bool
        ensures { result ≡ kinds.is_meant kinds.is_instance self.now }
    {
        match self {
            Meaning::Declared {
                entity: Entity::Instance { .. },
                ..
            } => true,
            _ => false,
        }
    }

    /// Whether it can be named behind an instance: a definition or an instance.
    pub fn stands_behind(&self) -> bool
        ensures { result ≡ kinds.is_meant kinds.stands_behind self.now }
    {
        match self {
            Meaning::Declared {
                entity: Entity::Definition { .. } | Entity::Instance { .. },
                ..
            } => true,
            _ => false,
        }
    }
}

/// A declaring name with what it stands for.
#[derive(Drop)]
pub struct Binder {
    pub name: Lexeme,
    pub entity: Entity,
}

/// As what a name is declared or bound that is a part of a form.
#[derive(Clone, Copy, Debug, PartialEq, Eq)]
pub enum Binding {
    Constant,
    Parameter,
    /// `state` is true of the names that `\AA` and `\EE` bind.
    Bound { state: bool },
}

/// What is found at a name.
#[derive(Drop)]
pub enum Finding {
    /// A use, and what it means.
    Means {
        at: Lexeme,
        meaning: Meaning,
    },
    /// A use without a meaning.
    Unknown {
        at: Lexeme,
    },
    /// A declaring name that is there already.
    Taken {
        at: Lexeme,
    },
    /// A module that is extended, and brings a name which is there with another meaning.
    Clashes {
        at: Lexeme,
    },
    /// The same of a module of an INSTANCE without a name.
    InstanceClashes {
        at: Lexeme,
    },
    /// The left side of a replacement that is no parameter of the module.
    NotReplaceable {
        at: Lexeme,
    },
    /// The left side of a replacement whose parameter is replaced before it.
    ReplacedTwice {
        at: Lexeme,
    },
    /// The module of an INSTANCE, which has a parameter that nothing replaces.
    Unreplaced {
        at: Lexeme,
    },
    /// The module of an INSTANCE, which has a parameter that is replaced by what its name means.
    Implied {
        at: Lexeme,
        parameter: Meaning,
        meaning: Meaning,
    },
}
