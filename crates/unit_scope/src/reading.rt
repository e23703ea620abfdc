// A module that is read.
ghost use Rattle.std.specs.Prelude.{◌≡◌, ◌<◌, ℕ, List as ListOf, [], ◌++◌, ◌∷◌, IfOk, OnOk, if◌then◌else◌, length};
ghost use Rattle.std.specs.List.{AllByRecursion};
ghost use Rattle.instance_leads.specs.Leading.{AreNumbered};
ghost use Rattle.instance_scope.specs.Scoped.{IsSame, IsSound, around_in, known_of, module_in};
ghost use Rattle.instance_leads.specs.declared.ended.Ended.{Ended};
ghost use Rattle.module_model.specs.Exports.{and_known};
ghost use Rattle.module_model.specs.Modules as in_modules;
ghost use Rattle.module_model.specs.NamedModules.{known_from_all};
ghost use Rattle.unit_scope.specs.EnclosingReadings.{AreEnded, IsEntered, IsLeft};
ghost use Rattle.unit_scope.specs.Modules.{reading_in, reading_of};
ghost use Rattle.unit_scope.specs.Readings as readings;
ghost use Rattle.unit_scope.specs.Readings.{files_in};
ghost use Rattle.module_model.specs.TreeFindings as in_trees;
ghost use Rattle.name_context.specs.AsTables.{context_of};
ghost use Rattle.tla_model.specs.Lexemes.{LiesIn, lexemes};
ghost use Rattle.tla_model.specs.declared.names.Finding.TheVariants.{Taken};
ghost use Rattle.tla_tree.specs.Arena.{tree_at};

use crate::declaring::put_built_in;
use crate::reader::Outer;
use instance_leads::Numbers;
use instance_scope::Scope;
use module_scope::Modules;
use name_context::Context;
use name_exports::{Exported, Names};
use std::alloc::Global;
use std::mem;
use tla_model::Finding;
use tla_symbols::Lexeme;
use tla_tree::Tree;
use tool_list::{List, Memory};
use tree_names::ModuleText;

/// A module that is read.
pub struct Reading<'a> {
    pub name: &'a str,
    pub names: Names<'a>,
    pub modules: Numbers<'a>,
}

// By hand, so that a proof meets one call wherever a value ends.
impl<'a> Drop for Reading<'a> {
    fn drop(self) {
        let Reading {
            name: _,
            names: _,
            modules: _,
        } = self;
    }
}

/// A nested module that was read: its name, and what it exports.
#[derive(Drop)]
pub struct Inner<'a> {
    pub name: &'a str,
    pub exports: Exported<'a>,
}

impl<'a> Reading<'a> {
    /// The module of a text before what it extends: the built-in words are there, and its own name
    /// among those of modules.
    pub fn new(alloc: Global, text: &ModuleText<'a>) -> Result<Reading<'a>, Memory>
        ensures reading { IfOk result (λ reading. (nested : ListOf Ended)
            → reading_in nested reading ≡ in_modules.unread text.now) }
        ensures numbered { IfOk result
            (λ reading. (count : ℕ) → AreEnded count reading.modules) }
    {
        let mut context = Context::new(alloc);
        put_built_in(&mut context)?;
        let mut modules = Modules::new(alloc);
        modules.add(text.file(), None)?;
        Ok(Reading {
            name: text.file(),
            names: Names {
                context,
                exports: Exported::new(alloc),
            },
            modules,
        })
    }

    // Extends a module, and finds fault with one that clashes.
    fn extend(
        &mut self,
        alloc: Global,
        scope: &Scope<'a>,
        text: &ModuleText<'a>,
        name: Lexeme,
        findings: &mut List<Finding>,
    ) -> Result<(), Memory>
        requires { LiesIn text.now.source name }
        ensures modules { OnOk result (self.new.modules ≡ self.old.modules) }
        ensures reading { OnOk result (reading_of scope.now self.new
            ≡ in_modules.extended (reading_of scope.now self.old)
            (in_modules.brings text.now (files_in scope.now)
            (reading_of scope.now self.old) name)) }
        ensures findings { OnOk result (findings.new
            ≡ findings.old ++ readings.clash_at text.now (files_in scope.now)
            (reading_of scope.now self.old) name) }
    {
        let clash = scope.bring_extended(
            alloc,
            &self.modules,
            &mut self.names,
            text.spelled(name),
        )?;
        if clash {
            findings.push(Finding::Clashes { at: name })?;
        }
        Ok(())
    }

    /// Extends modules one after another, and finds fault with those that clash.
    pub fn extend_all(
        &mut self,
        alloc: Global,
        scope: &Scope<'a>,
        text: &ModuleText<'a>,
        names: &[Lexeme],
        findings: &mut List<Finding>,
    ) -> Result<(), Memory>
        requires { AllByRecursion (LiesIn text.now.source) names.now }
        ensures modules { OnOk result (self.new.modules ≡ self.old.modules) }
        ensures reading { OnOk result (reading_of scope.now self.new
            ≡ in_modules.extends_all text.now (files_in scope.now)
            (reading_of scope.now self.old) names.now) }
        ensures findings { OnOk result (findings.new
            ≡ findings.old ++ in_modules.all_clashing text.now (files_in scope.now)
            (reading_of scope.now self.old) names.now) }
    {
        for name in names {
            self.extend(alloc, scope, text, *name, findings)?;
        }
        Ok(())
    }

    /// Finds the names in the tree below a node.
    pub fn walk(
        &mut self,
        alloc: Global,
        scope: &Scope<'a>,
        text: &ModuleText<'a>,
        tree: &Tree,
        node: u32,
        findings: &mut List<Finding>,
    ) -> Result<(), Memory>
        requires there { node < length tree.now }
        requires lie { AllByRecursion (LiesIn text.now.source) (lexemes (tree_at tree.now node)) }
        ensures modules { OnOk result (self.new.modules ≡ self.old.modules) }
        ensures reading { OnOk result
            (reading_of scope.now self.new ≡ reading_of scope.now self.old) }
        ensures findings { OnOk result (findings.new ≡ findings.old
            ++ in_trees.walk text.now (around_in scope.now self.old.modules)
            (context_of self.old.names.context) (tree_at tree.now node)) }
    {
        scope.walk(
            alloc,
            text,
            &self.modules,
            tree,
            node,
            &mut self.names.context,
            findings,
        )?;
        Ok(())
    }

    /// Puts the names that an INSTANCE without a name brings, whose module's name this is, and finds
    /// fault where one of them clashes.
    pub fn join(
        &mut self,
        alloc: Global,
        scope: &Scope<'a>,
        text: &ModuleText<'a>,
        local: bool,
        module: Lexeme,
        findings: &mut List<Finding>,
    ) -> Result<(), Memory>
        requires { LiesIn text.now.source «module» }
        ensures modules { OnOk result (self.new.modules ≡ self.old.modules) }
        ensures reading { OnOk result (reading_of scope.now self.new
            ≡ in_modules.joined local (reading_of scope.now self.old)
            (readings.instance_at text.now scope.now self.old.modules «module»)) }
        ensures findings { OnOk result (findings.new ≡ findings.old
            ++ readings.instance_clash (reading_of scope.now self.old)
            (readings.instance_at text.now scope.now self.old.modules «module») «module») }
    {
        let clash = scope.bring_instance(
            alloc,
            text,
            &self.modules,
            &mut self.names,
            local,
            module,
        )?;
        if clash {
            findings.push(Finding::InstanceClashes { at: module })?;
        }
        Ok(())
    }

    // Whether a module name is taken.
    fn is_named(&self, text: &ModuleText<'a>, name: Lexeme) -> bool
        requires { LiesIn text.now.source name }
        ensures { (nested : ListOf Ended)
            → result ≡ in_modules.is_named text.now (reading_in nested self.now) name }
    {
        self.modules.is_taken(text.spelled(name))
    }

    /// Finds fault with the name of a nested module where it is taken.
    pub fn refuse_module(
        &self,
        text: &ModuleText<'a>,
        name: Lexeme,
        findings: &mut List<Finding>,
    ) -> Result<(), Memory>
        requires { LiesIn text.now.source name }
        ensures { OnOk result ((nested : ListOf Ended) → findings.new
            ≡ findings.old ++ (if in_modules.is_named text.now (reading_in nested self.now) name
            then Taken name ∷ [] else [])) }
    {
        if self.is_named(text, name) {
            findings.push(Finding::Taken { at: name })?;
        }
        Ok(())
    }

    /// Goes into a nested module.
    pub fn enter(&mut self, alloc: Global, name: &'a str) -> Result<Outer<'a>, Memory>
        ensures { IfOk result (λ outer. IsEntered name.now self.old self.new outer) }
    {
        let mark = self.names.context.mark()?;
        let modules = self.modules.len();
        self.modules.add(name, None)?;
        let exports = mem::replace(&mut self.names.exports, Exported::new(alloc));
        let outer = Outer {
            name: self.name,
            exports,
            mark,
            modules,
        };
        self.name = name;
        Ok(outer)
    }

    /// Goes out of a nested module, to the one round it, and answers the nested one.
    pub fn leave(&mut self, outer: Outer<'a>) -> Inner<'a>
        ensures left { IsLeft outer.entry self.old self.new }
        ensures name { result.name.now ≡ self.old.name.now }
        ensures exports { result.exports ≡ self.old.names.exports }
    {
        let Outer {
            name,
            exports,
            mark,
            modules,
        } = outer;
        let exports = mem::replace(&mut self.names.exports, exports);
        let name = mem::replace(&mut self.name, name);
        self.names.context.cut(mark);
        self.modules.truncate(modules);
        Inner { name, exports }
    }
}

/// Notes where the instances lead that these modules export, which are extended.
pub fn note_all<'a>(
    alloc: Global,
    scope: &mut Scope<'a>,
    text: &ModuleText<'a>,
    modules: &Numbers<'a>,
    names: &[Lexeme],
) -> Result<(), Memory>
    requires lie { AllByRecursion (LiesIn text.now.source) names.now }
    requires sound { IsSound scope.old }
    requires numbered { AreNumbered (length scope.old.nested.items) modules.now }
    ensures sound { OnOk result (IsSound scope.new) }
    ensures same { OnOk result (IsSame scope.old scope.new) }
    ensures known { OnOk result (known_of scope.new
        ≡ and_known (known_of scope.old)
        (known_from_all text.now (module_in scope.old modules.now) names.now)) }
{
    for name in names {
        scope.note_exported(alloc, modules, text.spelled(*name))?;
    }
    Ok(())
}
