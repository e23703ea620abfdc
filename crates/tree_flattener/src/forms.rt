// Nodes of forms.
ghost use Rattle.std.specs.Prelude.{◌≡◌, ℕ, ◌<◌, [], IfOk, List, length, map};
ghost use Rattle.std.specs.List.{AllByRecursion};
ghost use Rattle.tla_tree.specs.Arena.{AreThere, tree_at};
ghost use Rattle.tla_tree.specs.Syntax.{trees};
ghost use Rattle.declared_names.specs.Nodes.{form_at, parts_at};
ghost use Rattle.kind_text.specs.FlatModule as flat;
ghost use Rattle.level_text.specs.FormRules as form_rules;
ghost use Rattle.tree_kinds.specs.Expanding as expanding;
ghost use Rattle.flattened_trees.specs.NodeForms as node_forms;
ghost use Rattle.tree_flattener.specs.Making.{head_of, swapped};
ghost use Rattle.tree_flattener.specs.Steps.{Adds};
ghost use Rattle.tree_flattener.specs.Worlds.{IsKnown, IsNode, means_of, setting_of, world_of};

use crate::adding::{add_constant, add_name, add_plain, add_ruled, add_symbol};
use crate::leading::lead_of;
use crate::names::Names;
use crate::paths::{is_bare, last_segment, path_names, rest, segment_of};
use crate::shapes::{Making, making_of};
use crate::state::Flattening;
use crate::written::Written;
use kind_table::Form as NodeForm;
use std::alloc::Global;
use tla_symbols::{LexKind, Lexeme, Rule};
use tla_tree::{Form, Tree};
use tool_list::Memory;
use tree_rules::{bare_rule, built_in_places, form_rule, is_free, operator_places, symbol_rule};

// The places of a path that is a bare operator.
fn path_places(written: &Written<'_>, segments: &[u32]) -> Option<usize>
    requires { AreThere written.now.tree.now segments.now }
    ensures { result ≡ node_forms.path_places written.now.text.now.source
        (means_of written.now) (trees (map (tree_at written.now.tree.now) segments.now)) }
{
    if !is_bare(written.tree, segments) {
        return None;
    }
    match last_segment(written.tree, segments) {
        Some(last) => operator_places(written.meaning(last.span.start)),
        None => None,
    }
}

// The name of the first segment of a path.
fn head_of(tree: &Tree, segments: &[u32]) -> Option<Lexeme>
    requires { AreThere tree.now segments.now }
    ensures { result ≡ head_of (trees (map (tree_at tree.now) segments.now)) }
{
    match segments {
        [] => None,
        [first, ..] => segment_of(tree.form(*first)),
    }
}

// The places of a bare symbol.
fn bare_places(written: &Written<'_>, symbol: Lexeme) -> Option<usize>
    ensures { result ≡ node_forms.bare_places written.now.text.now.source
        (means_of written.now) symbol symbol.kind }
{
    match symbol.kind {
        LexKind::Sym(op) => {
            if is_free(op) {
                operator_places(written.meaning(symbol.span.start))
            } else {
                Some(built_in_places(op))
            }
        }
        _ => None,
    }
}

// Adds the node of a path of names, on all arguments.
fn add_path<N: Names>(
    alloc: Global,
    names: &N,
    written: &Written<'_>,
    state: &mut Flattening,
    node: u32,
    is: Vec<usize>,
) -> Result<usize, Memory>
    requires node { IsNode (world_of (N.leads names.now) (N.faces names.now) written.now) node }
    requires known { IsKnown (world_of (N.leads names.now) (N.faces names.now) written.now)
        state.old }
    requires parts { AllByRecursion (λ i. i < length state.old.flat.nodes) is.items }
    ensures { IfOk result (λ i. (frame : ℕ) (olds : List ℕ) → Adds state.old state.new
        (node_forms.path_node written.now.text.now.source (means_of written.now) (setting_of
        (world_of (N.leads names.now) (N.faces names.now) written.now) state.old frame olds)
        (parts_at written.now.tree.now node) is.items) i) }
{
    let segments = written.tree.children(node);
    match head_of(written.tree, segments) {
        None => {
            let i = add_constant(alloc, state)?;
            Ok(i)
        }
        Some(name) => {
            let places = path_places(written, segments);
            let path = path_names(alloc, written.text, written.tree, rest(segments))?;
            let meaning = written.meaning(name.span.start);
            let lead = lead_of(alloc, names, written, &state.locals, meaning, &path)?;
            let i = add_name(alloc, state, places, lead, is)?;
            Ok(i)
        }
    }
}

// Adds the node of a bare symbol.
fn add_bare<N: Names>(
    alloc: Global,
    names: &N,
    written: &Written<'_>,
    state: &mut Flattening,
    symbol: Lexeme,
) -> Result<usize, Memory>
    requires { IsKnown (world_of (N.leads names.now) (N.faces names.now) written.now) state.old }
    ensures { IfOk result (λ i. (frame : ℕ) (olds : List ℕ) → Adds state.old state.new
        (node_forms.bare_node written.now.text.now.source (means_of written.now) (setting_of
        (world_of (N.leads names.now) (N.faces names.now) written.now) state.old frame olds)
        symbol (expanding.bare_rule symbol.kind)) i) }
{
    let places = bare_places(written, symbol);
    if let Some(rule) = bare_rule(symbol.kind) {
        return add_symbol(alloc, state, rule, places);
    }
    let meaning = written.meaning(symbol.span.start);
    let lead = lead_of(alloc, names, written, &state.locals, meaning, &[])?;
    add_name(alloc, state, places, lead, Vec::new(alloc))
}

// Adds the node of a symbol on operands: an operation, where it is built in.
fn add_operator<N: Names>(
    alloc: Global,
    names: &N,
    written: &Written<'_>,
    state: &mut Flattening,
    symbol: Lexeme,
    rule: Option<Rule>,
    is: Vec<usize>,
) -> Result<usize, Memory>
    requires known { IsKnown (world_of (N.leads names.now) (N.faces names.now) written.now)
        state.old }
    requires parts { AllByRecursion (λ i. i < length state.old.flat.nodes) is.items }
    ensures { IfOk result (λ i. (frame : ℕ) (olds : List ℕ) → Adds state.old state.new
        (node_forms.operator_node written.now.text.now.source (means_of written.now) (setting_of
        (world_of (N.leads names.now) (N.faces names.now) written.now) state.old frame olds)
        symbol rule is.items) i) }
{
    if let Some(rule) = rule {
        return add_plain(state, NodeForm::Operation(rule), is);
    }
    let meaning = written.meaning(symbol.span.start);
    let lead = lead_of(alloc, names, written, &state.locals, meaning, &[])?;
    add_name(alloc, state, None, lead, is)
}

// The second of two, and then the first.
fn swapped(alloc: Global, is: Vec<usize>) -> Result<Vec<usize>, Memory>
    ensures { IfOk result (λ ordered. ordered.items ≡ swapped is.items) }
{
    if is.len() != 2 {
        return Ok(is);
    }
    let mut ordered = Vec::new(alloc);
    ordered.push(is[1])?;
    ordered.push(is[0])?;
    Ok(ordered)
}

// The operands in the order of the rule of their form.
fn rule_order(alloc: Global, form: Form, is: Vec<usize>) -> Result<Vec<usize>, Memory>
    ensures { IfOk result (λ ordered. ordered.items ≡ node_forms.rule_order form is.items) }
{
    match form {
        Form::Fairness(_) => swapped(alloc, is),
        _ => Ok(is),
    }
}

// The last of these, and then the others.
fn last_first(alloc: Global, is: Vec<usize>) -> Result<Vec<usize>, Memory>
    ensures { IfOk result (λ ordered. ordered.items ≡ node_forms.last_first [] is.items) }
{
    let mut before = is;
    let Some(last) = before.pop() else {
        return Ok(before);
    };
    let mut ordered = Vec::new(alloc);
    ordered.push(last)?;
    ordered.extend_from_slice(before.as_slice())?;
    Ok(ordered)
}

// Adds the node of parentheses, round these.
fn add_inside(alloc: Global, state: &mut Flattening, is: Vec<usize>) -> Result<usize, Memory>
    requires parts { AllByRecursion (λ i. i < length state.old.flat.nodes) is.items }
    ensures { IfOk result (λ i. Adds state.old state.new (node_forms.inside_node is.items) i) }
{
    if is.is_empty() {
        return add_constant(alloc, state);
    }
    add_plain(state, NodeForm::Let, is)
}

// Adds the node of `@`.
fn add_old(alloc: Global, state: &mut Flattening, olds: &[usize]) -> Result<usize, Memory>
    requires olds { AllByRecursion (λ i. i < length state.old.flat.nodes) olds.now }
    ensures { IfOk result (λ i. Adds state.old state.new
        (node_forms.plain_node flat.Form.Old olds.now) i) }
{
    let mut parts = Vec::new(alloc);
    parts.extend_from_slice(olds)?;
    add_plain(state, NodeForm::Old, parts)
}

// Adds the node of `\A` or `\E` over sets.
fn add_bounded(alloc: Global, state: &mut Flattening, is: Vec<usize>) -> Result<usize, Memory>
    requires parts { AllByRecursion (λ i. i < length state.old.flat.nodes) is.items }
    ensures { IfOk result (λ i. Adds state.old state.new
        (node_forms.plain_node flat.Form.Bounded (node_forms.last_first [] is.items)) i) }
{
    let ordered = last_first(alloc, is)?;
    add_plain(state, NodeForm::Bounded, ordered)
}

// Adds the node of a form with a rule.
fn add_form_ruled(
    alloc: Global,
    state: &mut Flattening,
    form: Form,
    is: Vec<usize>,
) -> Result<usize, Memory>
    requires parts { AllByRecursion (λ i. i < length state.old.flat.nodes) is.items }
    ensures { IfOk result (λ i. Adds state.old state.new
        (node_forms.ruled_node (form_rules.form_rule form) (node_forms.rule_order form is.items)) i) }
{
    let ordered = rule_order(alloc, form, is)?;
    add_ruled(alloc, state, form_rule(form), ordered)
}

/// Adds the node of a form, by the nodes of the expressions that it is made of.
pub(crate) fn add_form<N: Names>(
    alloc: Global,
    names: &N,
    written: &Written<'_>,
    state: &mut Flattening,
    olds: &[usize],
    node: u32,
    is: Vec<usize>,
) -> Result<usize, Memory>
    requires node { IsNode (world_of (N.leads names.now) (N.faces names.now) written.now) node }
    requires known { IsKnown (world_of (N.leads names.now) (N.faces names.now) written.now)
        state.old }
    requires olds { AllByRecursion (λ i. i < length state.old.flat.nodes) olds.now }
    requires parts { AllByRecursion (λ i. i < length state.old.flat.nodes) is.items }
    ensures { IfOk result (λ i. (frame : ℕ) → Adds state.old state.new (node_forms.form_node
        written.now.text.now.source (means_of written.now) (setting_of (world_of (N.leads
        names.now) (N.faces names.now) written.now) state.old frame olds.now) (form_at
        written.now.tree.now node) (parts_at written.now.tree.now node) is.items) i) }
{
    let form = written.tree.form(node);
    match making_of(form) {
        Making::Path => {
            let i = add_path(alloc, names, written, state, node, is)?;
            Ok(i)
        }
        Making::Constant => {
            let i = add_constant(alloc, state)?;
            Ok(i)
        }
        Making::Old => {
            let i = add_old(alloc, state, olds)?;
            Ok(i)
        }
        Making::Bare(symbol) => {
            let i = add_bare(alloc, names, written, state, symbol)?;
            Ok(i)
        }
        Making::Operator(fix, symbol) => {
            let rule = symbol_rule(fix, symbol.kind);
            let i = add_operator(alloc, names, written, state, symbol, rule, is)?;
            Ok(i)
        }
        Making::Inside => {
            let i = add_inside(alloc, state, is)?;
            Ok(i)
        }
        Making::Bounded => {
            let i = add_bounded(alloc, state, is)?;
            Ok(i)
        }
        Making::Ruled => {
            let i = add_form_ruled(alloc, state, form, is)?;
            Ok(i)
        }
    }
}
