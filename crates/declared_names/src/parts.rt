// The names among the parts of a node.
ghost use Rattle.std.specs.Prelude.{◌≡◌, ◌++◌, ◌∷◌, [], ◌<◌, IfOk, OnOk, length, map};
ghost use Rattle.tla_tree.specs.Arena.{AreThere, node_at, tree_at};
ghost use Rattle.tla_tree.specs.Syntax.{trees};
ghost use Rattle.tla_model.specs.Entities as entities;
ghost use Rattle.tla_model.specs.Scopes as scopes;
ghost use Rattle.declared_names.specs.Listed.{listed};
ghost use Rattle.declared_names.specs.Nodes.{binders_at, defined_at};

use crate::forms::{binding_of, entity_of, is_group, placed};
use std::alloc::Global;
use tla_model::{Binder, Binding, Entity};
use tla_symbols::Lexeme;
use tla_tree::{Form, Tree};
use tool_list::{List, Memory, SharedList};

/// Appends the name at a form, as what it is bound.
pub fn push_placed(names: &mut List<Binder>, binding: Binding, form: Form) -> Result<(), Memory>
    ensures { OnOk result (names.new
        ≡ names.old ++ entities.bound_as binding (entities.placed form)) }
{
    if let Some((name, places)) = placed(form) {
        names.push(Binder {
            name,
            entity: entity_of(binding, places),
        })?;
    }
    Ok(())
}

/// Appends the names of nodes, as what they are bound. What stands below these nodes is not looked at.
pub fn push_all_placed(
    names: &mut List<Binder>,
    binding: Binding,
    tree: &Tree,
    nodes: &[u32],
) -> Result<(), Memory>
    requires { AreThere tree.now nodes.now }
    ensures { OnOk result (names.new
        ≡ names.old
        ++ entities.bound_as binding
        (entities.all_placed (trees (map (tree_at tree.now) nodes.now)))) }
{
    for node in nodes {
        push_placed(names, binding, tree.form(*node))?;
    }
    Ok(())
}

// Appends the names of a group.
fn push_group(
    names: &mut List<Binder>,
    binding: Binding,
    tree: &Tree,
    node: u32,
) -> Result<(), Memory>
    requires { node < length tree.now }
    ensures { OnOk result (names.new
        ≡ names.old
        ++ entities.bound_as binding (scopes.all_grouped (trees (tree_at tree.now node ∷ [])))) }
{
    if is_group(tree.form(node)) {
        push_all_placed(names, binding, tree, tree.children(node))?;
    }
    Ok(())
}

// Appends the names of the groups among some nodes.
fn push_groups(
    names: &mut List<Binder>,
    binding: Binding,
    tree: &Tree,
    nodes: &[u32],
) -> Result<(), Memory>
    requires { AreThere tree.now nodes.now }
    ensures { OnOk result (names.new
        ≡ names.old
        ++ entities.bound_as binding
        (scopes.all_grouped (trees (map (tree_at tree.now) nodes.now)))) }
{
    for node in nodes {
        push_group(names, binding, tree, *node)?;
    }
    Ok(())
}

/// The names that a node with these children binds for them, one by one or in groups.
pub fn binders(
    alloc: Global,
    tree: &Tree,
    node: u32,
    children: &[u32],
) -> Result<List<Binder>, Memory>
    requires node { node < length tree.now }
    requires children { children.now ≡ (node_at tree.now node).children }
    requires there { AreThere tree.now children.now }
    ensures { IfOk result (λ names. names ≡ binders_at tree.now node) }
{
    let mut names = List::new(alloc);
    let form = tree.form(node);
    if is_group(form) {
        return Ok(names);
    }
    let binding = binding_of(form);
    push_all_placed(&mut names, binding, tree, children)?;
    push_groups(&mut names, binding, tree, children)?;
    Ok(names)
}

// Appends the number of places of the name at a form.
fn push_order(orders: &mut List<u32>, form: Form) -> Result<(), Memory>
    ensures { OnOk result (orders.new ≡ orders.old ++ map (λ name. name.1) (entities.placed form)) }
{
    if let Some((_, places)) = placed(form) {
        orders.push(places)?;
    }
    Ok(())
}

// The numbers of places of the names of nodes.
fn orders(alloc: Global, tree: &Tree, nodes: &[u32]) -> Result<SharedList<u32>, Memory>
    requires { AreThere tree.now nodes.now }
    ensures { IfOk result (λ orders. orders
        ≡ entities.orders (trees (map (tree_at tree.now) nodes.now))) }
{
    let mut orders = List::new(alloc);
    for node in nodes {
        push_order(&mut orders, tree.form(*node))?;
    }
    orders.into_shared()
}

/// The name that a node with these children defines.
pub fn defined(
    alloc: Global,
    tree: &Tree,
    node: u32,
    children: &[u32],
) -> Result<Option<Binder>, Memory>
    requires node { node < length tree.now }
    requires children { children.now ≡ (node_at tree.now node).children }
    requires there { AreThere tree.now children.now }
    ensures { IfOk result (λ found. listed found ≡ defined_at tree.now node) }
{
    let (name, entity) = match tree.form(node) {
        Form::OperatorDefinition(name)
        | Form::PrefixDefinition(name)
        | Form::InfixDefinition(name)
        | Form::PostfixDefinition(name) => {
            let orders = orders(alloc, tree, children)?;
            (name, Entity::Definition { orders })
        }
        Form::FunctionDefinition(name) => {
            let orders = SharedList::new();
            (name, Entity::Definition { orders })
        }
        Form::ModuleDefinition(name) => {
            let orders = orders(alloc, tree, children)?;
            (name, Entity::Instance { orders })
        }
        _ => return Ok(None),
    };
    Ok(Some(Binder { name, entity }))
}
