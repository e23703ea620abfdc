// The nested modules round a place, and what module names mean there.
ghost use Rattle.std.specs.Prelude.{◌≡◌, IfOk, OnOk};
ghost use Rattle.module_scope.specs.Environments.{Scope, begun, ended, first, is_round, is_taken};
ghost use Rattle.module_scope.specs.Kept.{IsAt};

use crate::modules::Modules;
use indexmap::IndexSet;
use std::alloc::Global;
use tool_list::Memory;

/// A nested module round a place.
#[derive(Drop)]
pub struct Nested<'a> {
    name: &'a str,
    // How many module names, and how many of the names of modules round the place, stay behind it.
    modules: usize,
    round: usize,
}

/// A place among nested modules: what module names mean there, and the nested modules round it.
pub struct Nesting<'a, T> {
    modules: Modules<'a, T>,
    // The names of the nested modules round the place, the outermost first.
    names: IndexSet<&'a str>,
    // The nested modules round the place, the innermost one last.
    round: Vec<Nested<'a>>,
}

// By hand, so that a proof meets one call wherever a value ends.
impl<'a, T: Drop> Drop for Nesting<'a, T> {
    fn drop(self) {
        let Nesting {
            modules: _,
            names: _,
            round: _,
        } = self;
    }
}

impl<'a, T: Drop> Nesting<'a, T> {
    /// In the module of a text, which has this name.
    pub fn new(alloc: Global, name: &'a str) -> Result<Nesting<'a, T>, Memory>
        ensures { IfOk result (λ nesting. IsAt nesting (first name.now)) }
    {
        let mut modules = Modules::new(alloc);
        modules.add(name, None)?;
        Ok(Nesting {
            modules,
            names: IndexSet::new(alloc),
            round: Vec::new(alloc),
        })
    }

    /// Goes into a nested module of this name.
    pub fn enter(&mut self, name: &'a str) -> Result<(), Memory>
        ensures { OnOk result ((scope : Scope T) → IsAt self.old scope
            → IsAt self.new (begun scope name.now)) }
    {
        let nested = Nested {
            name,
            modules: self.modules.len(),
            round: self.names.len(),
        };
        self.round.push(nested)?;
        self.modules.add(name, None)?;
        self.names.insert(name)?;
        Ok(())
    }

    /// Goes out of the innermost nested module, of which this is known.
    pub fn leave(&mut self, known: T) -> Result<(), Memory>
        ensures { OnOk result ((scope : Scope T) → IsAt self.old scope
            → IsAt self.new (ended known scope.here scope.round)) }
    {
        let Some(nested) = self.round.pop() else {
            return Ok(());
        };
        self.modules.truncate(nested.modules);
        self.names.truncate(nested.round);
        self.modules.add(nested.name, Some(known))?;
        Ok(())
    }

    /// Whether a name means a nested module or one round the place.
    pub fn is_taken(&self, name: &str) -> bool
        ensures { (scope : Scope T) → IsAt self.now scope → result ≡ is_taken scope.here name.now }
    {
        self.modules.is_taken(name)
    }

    /// Whether a nested module round the place has a name.
    pub fn is_round(&self, name: &str) -> bool
        ensures { (scope : Scope T) → IsAt self.now scope → result ≡ is_round scope.round name.now }
    {
        self.names.contains(name)
    }
}
