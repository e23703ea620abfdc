// Where names lead, one step at a time.
ghost use Rattle.std.specs.Prelude.{◌≡◌, IfOk};
ghost use Rattle.module_leads.specs.declared.ways.Way.TheVariants as way;
ghost use Rattle.name_context.specs.AsTables.{meant_by};
ghost use Rattle.module_leads.specs.Ways.{bound_kind, found_way, name_as, unsaid_entity, unsaid_way};

use flattened_trees::End;
use name_context::Named;
use std::alloc::Global;
use tla_model::{Entity, Meaning};
use tla_symbols::Kind;
use tool_list::{Chars, Memory};
use tree_names::Name;

/// Where a name leads, by one step. A face that is not there is that of no module.
pub enum Way {
    /// To this, where no name follows.
    To(End),
    /// To what follows, behind an instance of a module with this face.
    Behind {
        instance: usize,
        face: Option<usize>,
    },
    /// To what has this name in a module with this face, through an instance of it.
    Through {
        instance: usize,
        face: Option<usize>,
        name: Name,
    },
}

// By hand, so that a proof meets one call wherever a value ends.
impl Drop for Way {
    fn drop(self) {
        match self {
            Way::To(_)
            | Way::Behind {
                instance: _,
                face: _,
            }
            | Way::Through {
                instance: _,
                face: _,
                name: _,
            } => {}
        }
    }
}

/// The same name. It shares its spelling.
pub(crate) fn copied_name(name: &Name) -> Result<Name, Memory>
    ensures { IfOk result (λ copy. copy ≡ name.now) }
{
    match name {
        Name::Word(word) => Ok(Name::Word(word.copied()?)),
        Name::Symbol(op) => Ok(Name::Symbol(*op)),
    }
}

impl Way {
    /// The same way. It shares the spelling of a name.
    pub(crate) fn copied(&self) -> Result<Way, Memory>
        ensures { IfOk result (λ copy. copy ≡ self.now) }
    {
        match self {
            Way::To(end) => Ok(Way::To(*end)),
            Way::Behind { instance, face } => Ok(Way::Behind {
                instance: *instance,
                face: *face,
            }),
            Way::Through {
                instance,
                face,
                name,
            } => Ok(Way::Through {
                instance: *instance,
                face: *face,
                name: copied_name(name)?,
            }),
        }
    }
}

// The kind of a bound name.
fn bound_kind(state: bool) -> Kind
    ensures { result ≡ bound_kind state }
{
    if state { Kind::State } else { Kind::Const }
}

// Where an entity leads of which nothing was said.
fn unsaid_entity(entity: &Entity) -> End
    ensures { way.To result ≡ unsaid_entity entity.now }
{
    match entity {
        Entity::Bound { state } => End::Leaf(bound_kind(*state)),
        _ => End::Nowhere,
    }
}

/// Where a meaning leads of which nothing was said: bound names and what is built in are leaves.
pub(crate) fn unsaid_end(meaning: &Meaning) -> End
    ensures { way.To result ≡ unsaid_way meaning.now }
{
    match meaning {
        Meaning::BuiltIn => End::Leaf(Kind::Const),
        Meaning::Declared { entity, .. } => unsaid_entity(entity),
    }
}

/// The way of a meaning as it is found: one that was put, an end, or a name of a module that is extended.
#[derive(Clone, Copy)]
pub enum FoundWay<'a> {
    Put(&'a Way),
    To(End),
    Through {
        instance: usize,
        face: Option<usize>,
        name: Named<'a>,
    },
}

// The same name, with a spelling of its own.
fn owned_name(alloc: Global, name: Named<'_>) -> Result<Name, Memory>
    ensures { IfOk result (λ owned. owned ≡ name_as (meant_by name.entry)) }
{
    match name {
        Named::Word(word) => Ok(Name::Word(Chars::from_str(alloc, word)?)),
        Named::Symbol(op) => Ok(Name::Symbol(op)),
    }
}

impl<'a> FoundWay<'a> {
    /// The same way, to be kept.
    pub(crate) fn owned(self, alloc: Global) -> Result<Way, Memory>
        ensures { IfOk result (λ way. way ≡ found_way self.entry) }
    {
        match self {
            FoundWay::Put(way) => way.copied(),
            FoundWay::To(end) => Ok(Way::To(end)),
            FoundWay::Through {
                instance,
                face,
                name,
            } => Ok(Way::Through {
                instance,
                face,
                name: owned_name(alloc, name)?,
            }),
        }
    }
}
