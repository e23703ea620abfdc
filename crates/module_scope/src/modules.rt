// Module names at a place.
ghost use Rattle.std.specs.Prelude.{◌≡◌, [], OnOk, length, option_copied, take};
ghost use Rattle.std.specs.Str.{bytes_eq};
ghost use Rattle.tla_model.specs.Tables.{added};
ghost use Rattle.module_scope.specs.Environments.{is_taken, meaning};

use indexmap::IndexMap;
use std::alloc::Global;
use std::marker::Model;
use tool_list::Memory;

/// What module names mean at a place: each of these names a module round the place, or a nested module
/// that can be named, with what is known of it; another name means a file.
pub struct Modules<'a, T> {
    names: IndexMap<&'a str, Option<T>>,
}

// By hand, so that a proof meets one call wherever a value ends.
impl<'a, T: Drop> Drop for Modules<'a, T> {
    fn drop(self) {
        let Modules { names: _ } = self;
    }
}

impl<'a, T> Model for Modules<'a, T> {
    ghost use Rattle.module_scope.specs.Environments.{Environment};
    ghost use Rattle.module_scope.specs.Entries.{environment_of};

    ghost Value = { Environment T };

    ghost view = { λ m. environment_of m.names.entries };
}

impl<'a, T> Modules<'a, T> {
    /// No names. It takes no memory.
    pub fn new(alloc: Global) -> Modules<'a, T>
        ensures { result ≡ [] }
    {
        Modules {
            names: IndexMap::new(alloc),
        }
    }

    /// How many names there are.
    pub fn len(&self) -> usize
        ensures { result ≡ length self.now }
    {
        self.names.len()
    }

    /// What a name means, where it means no file.
    pub fn meaning(&self, name: &str) -> Option<&Option<T>>
        ensures { option_copied result ≡ meaning self.now name.now }
    {
        self.names.get(name)
    }

    /// Whether a name means no file.
    pub fn is_taken(&self, name: &str) -> bool
        ensures { result ≡ is_taken self.now name.now }
    {
        self.names.contains_key(name)
    }
}

impl<'a, T: Drop> Modules<'a, T> {
    /// Adds a name, unless it is there.
    pub fn add(&mut self, name: &'a str, known: Option<T>) -> Result<(), Memory>
        ensures { OnOk result (self.new ≡ added bytes_eq self.old name.now known) }
    {
        if self.names.contains_key(name) {
            return Ok(());
        }
        self.names.insert(name, known)?;
        Ok(())
    }

    /// Keeps so many names, the first ones.
    pub fn truncate(&mut self, len: usize)
        ensures { self.new ≡ take len self.old }
    {
        self.names.truncate(len);
    }
}
