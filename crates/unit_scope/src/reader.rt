// Nested modules. The one that is read has all names of those round it, which stand before its own.
ghost use Rattle.std.specs.Prelude.{◌≡◌, IfOk, OnOk};
ghost use Rattle.instance_scope.specs.Scoped.{IsSound, known_of};
ghost use Rattle.module_model.specs.Exports.{none_known};
ghost use Rattle.unit_scope.specs.EnclosingReadings.{IsAt, IsSomewhere};
ghost use Rattle.unit_scope.specs.Readings.{over_of};
ghost use Rattle.unit_scope.specs.Steps.{HasParameters, Leads, ended, entered, unread_state};
ghost use Rattle.tla_model.specs.Entities.{Text};

use crate::reading::{Inner, Reading};
use instance_scope::Scope;
use name_context::Mark;
use name_exports::Exported;
use std::alloc::Global;
use tool_list::Memory;
use tree_names::ModuleText;

/// A module round the one that is read.
#[derive(Drop)]
pub struct Outer<'a> {
    pub name: &'a str,
    pub exports: Exported<'a>,
    /// How many names and module names stand there.
    pub mark: Mark,
    pub modules: usize,
}

/// The module that is read, those round it, and what is known of modules and instances.
pub struct ModuleReader<'a> {
    pub here: Reading<'a>,
    // The innermost one is the last.
    pub round: Vec<Outer<'a>>,
    pub scope: Scope<'a>,
}

// By hand, so that a proof meets one call wherever a value ends.
impl<'a> Drop for ModuleReader<'a> {
    fn drop(self) {
        let ModuleReader {
            here: _,
            round: _,
            scope: _,
        } = self;
    }
}

impl<'a> ModuleReader<'a> {
    /// The module of a text, which is in no other one, before what it extends.
    pub fn new(
        alloc: Global,
        text: &ModuleText<'a>,
        scope: Scope<'a>,
    ) -> Result<ModuleReader<'a>, Memory>
        requires sound { IsSound scope }
        requires title { scope.title.now ≡ text.now.file }
        requires known { known_of scope ≡ none_known }
        ensures { IfOk result
            (λ reader. IsAt text.now (over_of scope.entry) reader (unread_state text.now)) }
    {
        Ok(ModuleReader {
            here: Reading::new(alloc, text)?,
            round: Vec::new(alloc),
            scope,
        })
    }

    /// Goes into a nested module.
    pub fn begin(&mut self, alloc: Global, name: &'a str) -> Result<(), Memory>
        ensures { OnOk result ((text : Text) → Leads text (entered name.now) self.old self.new) }
    {
        let outer = self.here.enter(alloc, name)?;
        self.round.push(outer)?;
        Ok(())
    }

    /// Goes out of a nested module, which can then be named unless its name is taken. It is the last one
    /// that has ended then, and has its parameters.
    pub fn end(&mut self, alloc: Global, text: &ModuleText<'a>) -> Result<(), Memory>
        requires { IsSomewhere text.now self.old }
        ensures state { OnOk result (Leads text.now ended self.old self.new) }
        ensures parameters { OnOk result (HasParameters text.now self.old self.new) }
    {
        let Some(outer) = self.round.pop() else {
            return Ok(());
        };
        let Inner { name, exports } = self.here.leave(outer);
        let number = self.scope.end(alloc, exports, &self.here.names.context)?;
        self.here.modules.add(name, Some(number))?;
        Ok(())
    }
}
