// Kinds of entries.
ghost use Rattle.std.specs.Prelude.{◌≡◌};
ghost use Rattle.std.specs.Option.{option_copied};
ghost use Rattle.tla_model.specs.EntityKinds.{is_instance as names_instance, is_meant, stands_behind, stands_for_parameter};
ghost use Rattle.instance_leads.specs.Found.{if_kept, of_kind};

use tla_model::{Entity, Meaning};

/// Which entries are looked at.
#[derive(Clone, Copy)]
pub enum Kind {
    /// Constants and variables, which INSTANCE replaces.
    Parameter,
    /// Definitions and instances, which can be named behind an instance.
    Instantiable,
}

/// Whether INSTANCE replaces it: a constant or a variable.
pub fn is_parameter(meaning: &Meaning) -> bool
    ensures { result ≡ is_meant stands_for_parameter meaning.now }
{
    match meaning {
        Meaning::Declared {
            entity: Entity::Constant { .. } | Entity::Variable,
            ..
        } => true,
        _ => false,
    }
}

/// Whether it is an instance.
pub fn is_instance(meaning: &Meaning) -> bool
    ensures { result ≡ is_meant names_instance meaning.now }
{
    match meaning {
        Meaning::Declared {
            entity: Entity::Instance { .. },
            ..
        } => true,
        _ => false,
    }
}

// Whether it can be named behind an instance: a definition or an instance.
fn is_instantiable(meaning: &Meaning) -> bool
    ensures { result ≡ is_meant stands_behind meaning.now }
{
    match meaning {
        Meaning::Declared {
            entity: Entity::Definition { .. } | Entity::Instance { .. },
            ..
        } => true,
        _ => false,
    }
}

impl Kind {
    /// Whether a meaning is of the kind.
    pub fn has(self, meaning: &Meaning) -> bool
        ensures { result ≡ is_meant (of_kind self) meaning.now }
    {
        match self {
            Kind::Parameter => is_parameter(meaning),
            Kind::Instantiable => is_instantiable(meaning),
        }
    }

    /// What was found, if it is of the kind.
    pub fn keep<'b>(self, found: Option<&'b Meaning>) -> Option<&'b Meaning>
        ensures { option_copied result ≡ if_kept (of_kind self) (option_copied found.entry) }
    {
        match found {
            Some(meaning) => {
                if self.has(meaning) {
                    Some(meaning)
                } else {
                    None
                }
            }
            None => None,
        }
    }
}
