// The module names of a text: those of modules that are needed, and those of nested modules round them.
ghost use Rattle.std.specs.Prelude.{◌≡◌, ⊤, IfOk, OnOk};
ghost use Rattle.std.specs.List.{AllByRecursion};
ghost use Rattle.tla_model.specs.Lexemes.{LiesIn};
ghost use Rattle.unit_grammar.specs.UnitNodes.{HasNodes, module_of};
ghost use Rattle.module_scope.specs.Environments.{Scope};
ghost use Rattle.module_scope.specs.Imports as names_of;
ghost use Rattle.module_scope.specs.Kept.{IsAt};
ghost use Rattle.module_graph.specs.Imports.{AreNamesPlaced};
ghost use Rattle.module_graph.specs.Named.{AddsEnclosing, AddsNeeded, AreNamed, Passes};
ghost use Rattle.module_graph.specs.UnitNames.{begun_name};

use crate::unit_names::module_names;
use module_scope::Nesting;
use std::alloc::Global;
use tla_model::spelled;
use tla_symbols::Lexeme;
use tla_tree::{ModuleTree, Unit};
use tool_list::{List, Memory, copied};

/// Module names of a text, after EXTENDS and INSTANCE, in its order, each as often as it stands there.
pub struct NamedModules {
    /// Those of modules that are needed: of files, and of the module itself.
    pub needed: List<Lexeme>,
    /// Those of nested modules round them.
    pub enclosing: List<Lexeme>,
}

// By hand, so that a proof meets one call wherever a value ends.
impl Drop for NamedModules {
    fn drop(self) {
        let NamedModules {
            needed: _,
            enclosing: _,
        } = self;
    }
}

// Goes over the begin or the end of a nested module, where a unit is one.
fn pass<'a>(modules: &mut Nesting<'a, ()>, source: &'a str, unit: &Unit) -> Result<(), Memory>
    requires { AllByRecursion (LiesIn source.now) (begun_name unit.now) }
    ensures { OnOk result (Passes source.now unit.now modules.old modules.new) }
{
    match unit {
        Unit::ModuleBegin { name, .. } => {
            modules.enter(spelled(source, name))?;
            Ok(())
        }
        Unit::ModuleEnd(_) => {
            modules.leave(())?;
            Ok(())
        }
        _ => Ok(()),
    }
}

// Whether a module name is that of a module that is needed.
fn needs(at: &Nesting<'_, ()>, title: &str, name: &str) -> bool
    ensures { (scope : Scope ⊤) → IsAt at.now scope
        → result ≡ names_of.needs title.now scope name.now }
{
    !at.is_taken(name) || (name == title && !at.is_round(name))
}

// Appends those of the names that are needed at a place of the module of this title.
fn push_needed(
    found: &mut List<Lexeme>,
    at: &Nesting<'_, ()>,
    source: &str,
    title: &str,
    names: &[Lexeme],
) -> Result<(), Memory>
    requires { AllByRecursion (LiesIn source.now) names.now }
    ensures { OnOk result (AddsNeeded source.now title.now at.now names.now found.old found.new) }
{
    for name in names {
        if needs(at, title, spelled(source, name)) {
            found.push(*name)?;
        }
    }
    Ok(())
}

// Appends those of the names that nested modules round the place have.
fn push_enclosing(
    found: &mut List<Lexeme>,
    at: &Nesting<'_, ()>,
    source: &str,
    names: &[Lexeme],
) -> Result<(), Memory>
    requires { AllByRecursion (LiesIn source.now) names.now }
    ensures { OnOk result (AddsEnclosing source.now at.now names.now found.old found.new) }
{
    for name in names {
        if at.is_round(spelled(source, name)) {
            found.push(*name)?;
        }
    }
    Ok(())
}

/// The module names of a text that are needed, since they mean files or the module itself, and those of
/// nested modules round them. `Memory` comes where there was no room.
pub fn named_modules(alloc: Global, tree: &ModuleTree) -> Result<NamedModules, Memory>
    requires nodes { HasNodes tree.now }
    requires placed { AreNamesPlaced tree.now.source (module_of tree.now) }
    ensures { IfOk result (λ named. AreNamed tree.now.source (module_of tree.now) named) }
{
    let source = tree.source.as_str();
    let outermost = spelled(source, &tree.name);
    let mut needed = copied(alloc, tree.extends.as_slice())?;
    let mut enclosing = List::new(alloc);
    let mut modules = Nesting::new(alloc, outermost)?;
    for unit in tree.units.as_slice() {
        pass(&mut modules, source, unit)?;
        let names = module_names(alloc, &tree.tree, unit)?;
        push_needed(&mut needed, &modules, source, outermost, names.as_slice())?;
        push_enclosing(&mut enclosing, &modules, source, names.as_slice())?;
    }
    Ok(NamedModules { needed, enclosing })
}
