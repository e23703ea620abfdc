// Names that a module declares.
ghost use Rattle.std.specs.Prelude.{◌≡◌, ◌<◌, length, map, false, ◌++◌, IfOk, OnOk};
ghost use Rattle.std.specs.List.{AllByRecursion};
ghost use Rattle.tla_tree.specs.Arena.{AreThere, tree_at};
ghost use Rattle.tla_tree.specs.Syntax.{trees};
ghost use Rattle.tla_model.specs.Entities.{variables};
ghost use Rattle.module_model.specs.Modules.{constants};
ghost use Rattle.tla_model.specs.Contexts.{built_in};
ghost use Rattle.tla_model.specs.Contexts as contexts;
ghost use Rattle.tla_model.specs.Lexemes.{LiesIn, lexemes};
ghost use Rattle.tla_model.specs.Scopes as scopes;
ghost use Rattle.tla_model.specs.Tables as tables;
ghost use Rattle.module_model.specs.Modules as in_modules;
ghost use Rattle.name_context.specs.AsTables.{context_of};
ghost use Rattle.declared_names.specs.Listed.{listed};
ghost use Rattle.tree_names.specs.BindersInText.{BindersLie};
ghost use Rattle.unit_scope.specs.Readings.{GoOn};

use declared_names::{defined, push_all_placed};
use name_context::{Context, Named};
use name_exports::Names;
use std::alloc::Global;
use tla_model::{Binder, Binding, Entity, Finding, Meaning};
use tla_symbols::Lexeme;
use tla_tree::Tree;
use tool_list::{List, Memory};
use tree_names::{ModuleText, refuse};

/// Puts the built-in words.
pub fn put_built_in(context: &mut Context<'_>) -> Result<(), Memory>
    requires { context_of context.old ≡ tables.empty }
    ensures { OnOk result (context_of context.new ≡ built_in) }
{
    context.put(Named::Word("TRUE"), Some(Meaning::BuiltIn))?;
    context.put(Named::Word("FALSE"), Some(Meaning::BuiltIn))?;
    context.put(Named::Word("BOOLEAN"), Some(Meaning::BuiltIn))?;
    context.put(Named::Word("STRING"), Some(Meaning::BuiltIn))?;
    Ok(())
}

// The name that the tree below a node defines.
fn definition(alloc: Global, tree: &Tree, node: u32) -> Result<Option<Binder>, Memory>
    requires { node < length tree.now }
    ensures { IfOk result (λ found. listed found ≡ scopes.definition (tree_at tree.now node)) }
{
    let found = defined(alloc, tree, node, tree.children(node))?;
    Ok(found)
}

// Declares a name, unless it is there.
fn declare<'a>(
    alloc: Global,
    names: &mut Names<'a>,
    text: &ModuleText<'a>,
    local: bool,
    binder: Binder,
) -> Result<(), Memory>
    requires { LiesIn text.now.source binder.name }
    ensures names { OnOk result
        (GoOn (λ r. in_modules.declare text.now local r binder) names.old names.new) }
    ensures context { OnOk result (context_of names.new.context
        ≡ contexts.bind text.now (context_of names.old.context) binder) }
{
    let name = text.name_of(binder.name);
    if names.context.get(name).is_some() {
        return Ok(());
    }
    let meaning = text.meaning(binder)?;
    names.put(alloc, local, name, meaning)?;
    Ok(())
}

/// The names of declared variables.
pub fn declared_variables(alloc: Global, names: &[Lexeme]) -> Result<List<Binder>, Memory>
    ensures { IfOk result (λ binders. binders ≡ variables names.now) }
{
    let mut binders = List::new(alloc);
    for name in names {
        binders.push(Binder {
            name: *name,
            entity: Entity::Variable,
        })?;
    }
    Ok(binders)
}

/// The names of declared constants.
pub fn declared_constants(alloc: Global, tree: &Tree, nodes: &[u32]) -> Result<List<Binder>, Memory>
    requires { AreThere tree.now nodes.now }
    ensures { IfOk result
        (λ binders. binders ≡ constants (trees (map (tree_at tree.now) nodes.now))) }
{
    let mut binders = List::new(alloc);
    push_all_placed(&mut binders, Binding::Constant, tree, nodes)?;
    Ok(binders)
}

/// Declares names that may be exported, one after another, and finds fault with those that are
/// taken.
pub fn declare_all<'a>(
    alloc: Global,
    names: &mut Names<'a>,
    text: &ModuleText<'a>,
    binders: List<Binder>,
    findings: &mut List<Finding>,
) -> Result<(), Memory>
    requires { BindersLie text.now.source binders }
    ensures names { OnOk result
        (GoOn (λ r. in_modules.declare_all text.now false r binders) names.old names.new) }
    ensures findings { OnOk result (findings.new
        ≡ findings.old ++ scopes.all_refused text.now (context_of names.old.context) binders) }
{
    for binder in binders.into_vec() {
        refuse(text, &names.context, binder.name, findings)?;
        declare(alloc, names, text, false, binder)?;
    }
    Ok(())
}

/// Declares the name that a node defines.
pub fn define<'a>(
    alloc: Global,
    names: &mut Names<'a>,
    text: &ModuleText<'a>,
    local: bool,
    tree: &Tree,
    node: u32,
) -> Result<(), Memory>
    requires node { node < length tree.now }
    requires lie { AllByRecursion (LiesIn text.now.source) (lexemes (tree_at tree.now node)) }
    ensures { OnOk result
        (GoOn (λ r. in_modules.declare_all text.now local r
        (scopes.definition (tree_at tree.now node))) names.old names.new) }
{
    if let Some(binder) = definition(alloc, tree, node)? {
        declare(alloc, names, text, local, binder)?;
    }
    Ok(())
}
