// A place among the units of a module.
ghost use Rattle.std.specs.Prelude.{◌≡◌, [], ◌∷◌, drop, length, nat_eq, IfOk, None, OnOk};
ghost use Rattle.std.specs.List.{AllByRecursion};
ghost use Rattle.tla_model.specs.Lexemes.{LiesIn, unit_lexemes};
ghost use Rattle.unit_grammar.specs.UnitNodes.{unit_at};
ghost use Rattle.module_constancy.specs.Places.{Passes, constant_in, leaving, titles_of};

use crate::files::Files;
use module_scope::Modules;
use std::alloc::Global;
use tla_tree::{Tree, Unit};
use tool_list::Memory;
use tree_names::ModuleText;

/// A place among the units of a module: the modules that the outermost one can name, each with
/// whether it is constant, and the nested modules round the place.
pub(crate) struct Place<'a> {
    pub modules: Modules<'a, bool>,
    // Their names, the innermost one last.
    pub round: Vec<&'a str>,
}

// By hand, so that a proof meets one call wherever a value ends.
impl<'a> Drop for Place<'a> {
    fn drop(self) {
        let Place {
            modules: _,
            round: _,
        } = self;
    }
}

impl<'a> Place<'a> {
    /// Before the units of the module of a text, which has this name.
    pub(crate) fn new(alloc: Global, name: &'a str) -> Result<Place<'a>, Memory>
        ensures modules { IfOk result (λ place. place.modules ≡ (name.now, None) ∷ []) }
        ensures round { IfOk result (λ place. place.round.items ≡ []) }
    {
        let mut modules = Modules::new(alloc);
        modules.add(name, None)?;
        Ok(Place {
            modules,
            round: Vec::new(alloc),
        })
    }

    /// Whether no nested module is round the place.
    pub(crate) fn is_outermost(&self) -> bool
        ensures { result ≡ nat_eq (length self.now.round.items) 0 }
    {
        self.round.is_empty()
    }

    /// Whether the module of a name is constant, to the outermost module.
    pub(crate) fn is_constant<F: Files>(&self, files: &F, name: &str) -> bool
        ensures { result ≡ constant_in (F.constant files.now) self.now.modules name.now }
    {
        match self.modules.meaning(name) {
            None => files.is_constant(name),
            Some(None) => true,
            Some(Some(constant)) => *constant,
        }
    }

    // Goes into a nested module.
    fn begin(&mut self, name: &'a str) -> Result<(), Memory>
        ensures modules { OnOk result (self.new.modules ≡ self.old.modules) }
        ensures round { OnOk result (titles_of self.new.round.items
            ≡ name.now ∷ titles_of self.old.round.items) }
    {
        self.round.push(name)?;
        Ok(())
    }

    // Goes out of the innermost nested module. The outermost one can name it then, where no other one
    // is round it; it counts as not constant.
    fn end(&mut self) -> Result<(), Memory>
        ensures modules { OnOk result (self.new.modules
            ≡ leaving (titles_of self.old.round.items) self.old.modules) }
        ensures round { OnOk result (titles_of self.new.round.items
            ≡ drop 1 (titles_of self.old.round.items)) }
    {
        let Some(name) = self.round.pop() else {
            return Ok(());
        };
        if self.round.is_empty() {
            self.modules.add(name, Some(false))?;
        }
        Ok(())
    }

    /// Goes on behind a unit.
    pub(crate) fn pass(
        &mut self,
        text: &ModuleText<'a>,
        tree: &Tree,
        unit: &Unit,
    ) -> Result<(), Memory>
        requires { AllByRecursion (LiesIn text.now.source)
            (unit_lexemes (unit_at tree.now unit.now)) }
        ensures { OnOk result (Passes text.now (unit_at tree.now unit.now) self.old self.new) }
    {
        match unit {
            Unit::ModuleBegin { name, .. } => {
                self.begin(text.spelled(*name))?;
                Ok(())
            }
            Unit::ModuleEnd(_) => {
                self.end()?;
                Ok(())
            }
            _ => Ok(()),
        }
    }
}
