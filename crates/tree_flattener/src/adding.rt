// Nodes that are added.
ghost use Rattle.std.specs.Prelude.{◌≡◌, ◌∷◌, ◌<◌, [], None, IfOk, length};
ghost use Rattle.declared_names.specs.Listed.{listed};
ghost use Rattle.std.specs.List.{AllByRecursion};
ghost use Rattle.flat_builder.specs.Building.{HasNoPath};
ghost use Rattle.kind_table.specs.Flattened.{form_of};
ghost use Rattle.kind_text.specs.FlatModule as flat;
ghost use Rattle.kind_text.specs.FlatModule.{UsesEarlier};
ghost use Rattle.flattened_trees.specs.declared.End.TheVariants as end;
ghost use Rattle.flattened_trees.specs.NodeForms as node_forms;
ghost use Rattle.tree_flattener.specs.Found.{lead_in};
ghost use Rattle.tree_flattener.specs.Steps.{Adds};
ghost use Rattle.flattened_trees.specs.Within.{IsLeadWithin};

use crate::names::Lead;
use crate::state::Flattening;
use flattened_trees::End;
use kind_table::Form;
use std::alloc::Global;
use tla_symbols::{Kind, Rule};
use tool_list::Memory;
use tree_rules::places_by;

// Adds a node of a form that names no path, an expression.
pub(crate) fn add_plain(
    state: &mut Flattening,
    form: Form,
    parts: Vec<usize>,
) -> Result<usize, Memory>
    requires path { HasNoPath form }
    requires uses { UsesEarlier state.old.flat (length state.old.flat.nodes) (form_of [] form) }
    requires parts { AllByRecursion (λ i. i < length state.old.flat.nodes) parts.items }
    ensures { IfOk result (λ i. Adds state.old state.new
        (node_forms.plain_node (form_of [] form) parts.items) i) }
{
    let i = state.flat.add(form, None, parts)?;
    Ok(i)
}

// Adds a constant.
pub(crate) fn add_constant(alloc: Global, state: &mut Flattening) -> Result<usize, Memory>
    ensures { IfOk result (λ i. Adds state.old state.new node_forms.constant_node i) }
{
    add_plain(state, Form::Leaf(Kind::Const), Vec::new(alloc))
}

// Adds a bare symbol that is built in.
pub(crate) fn add_symbol(
    alloc: Global,
    state: &mut Flattening,
    rule: Rule,
    places: Option<usize>,
) -> Result<usize, Memory>
    ensures { IfOk result (λ i. Adds state.old state.new (record {
      form = flat.Form.Symbol rule;
      places = places;
      parts = [];
    }) i) }
{
    let i = state.flat.add(Form::Symbol(rule), places, Vec::new(alloc))?;
    Ok(i)
}

// Adds an operation with a rule, which may not be there.
pub(crate) fn add_ruled(
    alloc: Global,
    state: &mut Flattening,
    rule: Option<Rule>,
    parts: Vec<usize>,
) -> Result<usize, Memory>
    requires parts { AllByRecursion (λ i. i < length state.old.flat.nodes) parts.items }
    ensures { IfOk result (λ i. Adds state.old state.new
        (node_forms.ruled_node rule parts.items) i) }
{
    match rule {
        Some(rule) => add_plain(state, Form::Operation(rule), parts),
        None => add_constant(alloc, state),
    }
}

// Adds an item at a place, or a call of it.
fn add_place(
    alloc: Global,
    state: &mut Flattening,
    place: usize,
    order: u32,
    arguments: Vec<usize>,
) -> Result<usize, Memory>
    requires parts { AllByRecursion (λ i. i < length state.old.flat.nodes) arguments.items }
    ensures { IfOk result (λ i. Adds state.old state.new
        (node_forms.place_node place order arguments.items) i) }
{
    if arguments.is_empty() {
        let i = state
            .flat
            .add(Form::Parameter(place), places_by(order), Vec::new(alloc))?;
        return Ok(i);
    }
    add_plain(state, Form::Call(place), arguments)
}

// Adds a use of a definition behind a path, or the same as a bare operator.
fn add_use(
    state: &mut Flattening,
    places: Option<usize>,
    path: Vec<usize>,
    definition: usize,
    arguments: Vec<usize>,
) -> Result<usize, Memory>
    requires path { IsLeadWithin state.old.flat (record {
      path = path.items;
      end = end.Definition
          definition;
    }) }
    requires parts { AllByRecursion (λ i. i < length state.old.flat.nodes) arguments.items }
    ensures { IfOk result (λ i. Adds state.old state.new
        (node_forms.use_node places path.items definition arguments.items) i) }
{
    match places {
        None => {
            let i = state.flat.add_use(path, definition, arguments)?;
            Ok(i)
        }
        Some(count) => {
            let i = state.flat.add_name(path, definition, count, arguments)?;
            Ok(i)
        }
    }
}

// Adds a name that leads there, on all arguments; a bare operator, where it has places.
pub(crate) fn add_name(
    alloc: Global,
    state: &mut Flattening,
    places: Option<usize>,
    lead: Lead,
    arguments: Vec<usize>,
) -> Result<usize, Memory>
    requires lead { IsLeadWithin state.old.flat (lead_in lead) }
    requires parts { AllByRecursion (λ i. i < length state.old.flat.nodes) arguments.items }
    ensures { IfOk result (λ i. Adds state.old state.new
        (node_forms.name_node places (lead_in lead) arguments.items) i) }
{
    let Lead { path, end } = lead;
    match end {
        End::Nowhere => add_constant(alloc, state),
        End::Leaf(kind) => add_plain(state, Form::Leaf(kind), Vec::new(alloc)),
        End::Place { place, order } => add_place(alloc, state, place, order, arguments),
        End::Definition(definition) => add_use(state, places, path, definition, arguments),
    }
}

/// Adds an operation with a rule.
pub(crate) fn add_operation(
    state: &mut Flattening,
    rule: Rule,
    parts: Vec<usize>,
) -> Result<usize, Memory>
    requires parts { AllByRecursion (λ i. i < length state.old.flat.nodes) parts.items }
    ensures { IfOk result (λ i. Adds state.old state.new
        (node_forms.plain_node (flat.Form.Operation rule) parts.items) i) }
{
    add_plain(state, Form::Operation(rule), parts)
}

// A number, and then others.
pub(crate) fn with_first(
    alloc: Global,
    first: usize,
    others: &[usize],
) -> Result<Vec<usize>, Memory>
    ensures { IfOk result (λ all. all.items ≡ first ∷ others.now) }
{
    let mut all = Vec::new(alloc);
    all.push(first)?;
    all.extend_from_slice(others)?;
    Ok(all)
}

/// Adds the node of a LET: its body, and what stands in its definitions.
pub(crate) fn add_let(
    alloc: Global,
    state: &mut Flattening,
    body: Option<usize>,
    roots: Vec<usize>,
) -> Result<usize, Memory>
    requires body { AllByRecursion (λ i. i < length state.old.flat.nodes) (listed body) }
    requires roots { AllByRecursion (λ i. i < length state.old.flat.nodes) roots.items }
    ensures { IfOk result (λ i. Adds state.old state.new
        (node_forms.let_node body roots.items) i) }
{
    match body {
        None => {
            let i = add_constant(alloc, state)?;
            Ok(i)
        }
        Some(body) => {
            let parts = with_first(alloc, body, roots.as_slice())?;
            let i = add_plain(state, Form::Let, parts)?;
            Ok(i)
        }
    }
}
