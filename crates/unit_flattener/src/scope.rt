// Names of modules, with the numbers of their faces.
ghost use Rattle.std.specs.Prelude.{ℕ, IfOk, OnOk};
ghost use Rattle.module_scope.specs.Environments.{Scope, begun, ended, first};
ghost use Rattle.unit_flattener.specs.Scopes.{IsKept};

use module_scope::Modules;
use std::alloc::Global;
use tool_list::Memory;

/// A nested module round a place: its name, and how many module names stay behind it.
#[derive(Drop)]
pub struct Before<'a> {
    pub name: &'a str,
    pub modules: usize,
}

/// The modules that can be named at a place, by the numbers of their faces, and the nested modules
/// round it, the innermost one last.
pub struct ModuleNumbers<'a> {
    pub here: Modules<'a, usize>,
    pub round: Vec<Before<'a>>,
}

// By hand, so that a proof meets one call wherever a value ends.
impl<'a> Drop for ModuleNumbers<'a> {
    fn drop(self) {
        let ModuleNumbers { here: _, round: _ } = self;
    }
}

impl<'a> ModuleNumbers<'a> {
    /// In the module of a text, which has this name.
    pub fn new(alloc: Global, name: &'a str) -> Result<ModuleNumbers<'a>, Memory>
        ensures { IfOk result (λ numbers. IsKept numbers (first name.now)) }
    {
        let mut here = Modules::new(alloc);
        here.add(name, None)?;
        Ok(ModuleNumbers {
            here,
            round: Vec::new(alloc),
        })
    }

    /// Goes into a nested module of this name.
    pub fn enter(&mut self, name: &'a str) -> Result<(), Memory>
        ensures { OnOk result ((scope : Scope ℕ) → IsKept self.old scope
            → IsKept self.new (begun scope name.now)) }
    {
        let before = Before {
            name,
            modules: self.here.len(),
        };
        self.round.push(before)?;
        self.here.add(name, None)?;
        Ok(())
    }

    /// Goes out of the innermost nested module, whose face has this number.
    pub fn leave(&mut self, face: usize) -> Result<(), Memory>
        ensures { OnOk result ((scope : Scope ℕ) → IsKept self.old scope
            → IsKept self.new (ended face scope.here scope.round)) }
    {
        let Some(before) = self.round.pop() else {
            return Ok(());
        };
        self.here.truncate(before.modules);
        self.here.add(before.name, Some(face))?;
        Ok(())
    }
}
