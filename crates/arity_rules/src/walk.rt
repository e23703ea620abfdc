// The faults of trees.
ghost use Rattle.std.specs.Prelude.{◌≡◌, ◌++◌, ◌<◌, [], None, Some, IfOk, OnOk, false, if◌then◌else◌, length, map, option_copied};
ghost use Rattle.tla_tree.specs.Arena.{AreThere, tree_at};
ghost use Rattle.tla_tree.specs.Syntax.{trees};
ghost use Rattle.tla_model.specs.Scopes as scopes;
ghost use Rattle.arity_rules.specs.declared.place.Due.TheVariants.{Qualifier};
ghost use Rattle.arity_rules.specs.declared.place.Role.TheVariants.{Other};
ghost use Rattle.arity_rules.specs.Arities as arities;
ghost use Rattle.arity_rules.specs.Noted.{told};
ghost use Rattle.arity_rules.specs.Tasks as walking;

use crate::entity::{arity, order_at};
use crate::faults::{push_if, push_other, push_use};
use crate::meanings::Meanings;
use crate::place::{Due, Role, due_by, is_part_inside, is_path, role_of};
use std::alloc::Global;
use tla_model::{Diagnostic, Entity};
use tla_symbols::{Fix, LexKind, Lexeme, Op, Span, definable, range_of};
use tla_tree::{Form, Tree};
use tool_list::{List, Memory};

/// A node that is to be looked at, with what is due there, and whether it stands in a right side of
/// EXCEPT.
#[derive(Clone, Copy)]
pub struct Task {
    node: u32,
    due: Due,
    inside: bool,
}

// Whether modules may define a symbol.
fn is_free(op: Op) -> bool
    ensures { result ≡ scopes.is_free op }
{
    definable(op, Fix::Prefix) || definable(op, Fix::Infix) || definable(op, Fix::Postfix)
}

// How many operands a symbol has that is built in.
fn places_of(op: Op) -> u32
    ensures { result ≡ arities.places_of op }
{
    if range_of(op, Fix::Infix).is_some() {
        2
    } else {
        1
    }
}

// Appends the faults of a bare symbol.
fn push_symbol(
    faults: &mut List<Diagnostic>,
    meanings: &Meanings,
    due: Due,
    symbol: Lexeme,
) -> Result<(), Memory>
    ensures { OnOk result (faults.new ≡ faults.old ++ arities.use_faults due symbol.span 0
        (arities.symbol_meaning (told meanings.now) symbol.span.start symbol.kind)) }
{
    let LexKind::Sym(op) = symbol.kind else {
        return push_use(faults, due, symbol.span, 0, None);
    };
    if is_free(op) {
        return push_use(faults, due, symbol.span, 0, meanings.get(symbol.span.start));
    }
    let arity = places_of(op);
    push_use(
        faults,
        due,
        symbol.span,
        0,
        Some(&Entity::Constant { arity }),
    )
}

// Appends the faults at a form itself, with so many parts.
fn push_own(
    faults: &mut List<Diagnostic>,
    meanings: &Meanings,
    due: Due,
    inside: bool,
    role: Role,
    parts: usize,
) -> Result<(), Memory>
    ensures { OnOk result (faults.new
        ≡ faults.old ++ arities.own_faults (told meanings.now) due inside role parts) }
{
    match role {
        Role::Path => Ok(()),
        Role::Segment(name) => {
            let meaning = meanings.get(name.span.start);
            push_use(faults, due, name.span, parts, meaning)
        }
        Role::Symbol(symbol) => push_symbol(faults, meanings, due, symbol),
        Role::At(at) => {
            push_other(faults, due)?;
            push_if(faults, !inside, 503, at.span)
        }
        Role::Replacement(_) | Role::Update | Role::Other => push_other(faults, due),
    }
}

// Whether a segment means something.
fn is_known(meanings: &Meanings, form: Form) -> bool
    ensures { result ≡ arities.is_known (told meanings.now) form }
{
    match form {
        Form::Segment(name) => meanings.get(name.span.start).is_some(),
        _ => false,
    }
}

// Of what order an argument is, by what is applied.
fn argument_order(meaning: Option<&Entity>, index: usize) -> Option<usize>
    ensures { result ≡ arities.argument_order (option_copied meaning.entry) index }
{
    let Some(entity) = meaning else {
        return None;
    };
    order_at(entity, index)
}

// Of what order a right side is, by the parameter that it replaces.
fn replacing_order(meaning: Option<&Entity>) -> Option<usize>
    ensures { result ≡ arities.replacing_order (option_copied meaning.entry) }
{
    let Some(parameter) = meaning else {
        return None;
    };
    Some(arity(parameter))
}

// What is due of the part with an index, which has this place.
fn part_due(meanings: &Meanings, role: Role, index: usize, whole: Span) -> Due
    ensures { result ≡ arities.part_due (told meanings.now) role index whole }
{
    match role {
        Role::Segment(name) => {
            due_by(argument_order(meanings.get(name.span.start), index), whole)
        }
        Role::Replacement(left) => due_by(replacing_order(meanings.get(left.span.start)), whole),
        _ => Due::Expression,
    }
}

// Appends the segments of a path that are looked at.
fn open_path(
    opened: &mut Vec<Task>,
    meanings: &Meanings,
    tree: &Tree,
    due: Due,
    inside: bool,
    segments: &[u32],
) -> Result<(), Memory>
    requires { AreThere tree.now segments.now }
    ensures { OnOk result (opened.new.items ≡ opened.old.items
        ++ walking.path_tasks (told meanings.now) tree.now due inside segments.now) }
{
    for (index, segment) in segments.iter().enumerate() {
        let node = *segment;
        let due = segment_due(due, index + 1 == segments.len());
        opened.push(Task { node, due, inside })?;
        if !is_known(meanings, tree.form(node)) {
            return Ok(());
        }
    }
    Ok(())
}

// What is due of a segment: of the last one what is due of the path.
fn segment_due(due: Due, is_last: bool) -> Due
    ensures { result ≡ if is_last then due else Qualifier }
{
    if is_last { due } else { Due::Qualifier }
}

// Appends the part of a form with an index.
fn part_task(
    meanings: &Meanings,
    tree: &Tree,
    role: Role,
    inside: bool,
    index: usize,
    node: u32,
) -> Task
    requires { node < length tree.now }
    ensures { result ≡ walking.part_task (told meanings.now) tree.now role inside index node }
{
    Task {
        node,
        due: part_due(meanings, role, index, tree.span(node)),
        inside: is_part_inside(role, inside, tree.form(node)),
    }
}

// Appends the parts of a form.
fn open_parts(
    opened: &mut Vec<Task>,
    meanings: &Meanings,
    tree: &Tree,
    role: Role,
    inside: bool,
    parts: &[u32],
) -> Result<(), Memory>
    requires { AreThere tree.now parts.now }
    ensures { OnOk result (opened.new.items ≡ opened.old.items
        ++ walking.part_tasks (told meanings.now) tree.now role inside 0 parts.now) }
{
    for (index, part) in parts.iter().enumerate() {
        opened.push(part_task(meanings, tree, role, inside, index, *part))?;
    }
    Ok(())
}

// Puts tasks on top, the first one uppermost, and leaves none opened.
fn put_on_top(tasks: &mut Vec<Task>, opened: &mut Vec<Task>) -> Result<(), Memory>
    ensures put { OnOk result (walking.stack tasks.new.items
        ≡ opened.old.items ++ walking.stack tasks.old.items) }
    ensures none { OnOk result (opened.new.items ≡ []) }
{
    while let Some(task) = opened.pop() {
        tasks.push(task)?;
    }
    Ok(())
}

// Appends the parts of a form, as it has them looked at.
fn open_below(
    opened: &mut Vec<Task>,
    meanings: &Meanings,
    tree: &Tree,
    task: Task,
    role: Role,
    parts: &[u32],
) -> Result<(), Memory>
    requires { AreThere tree.now parts.now }
    ensures { OnOk result (opened.new.items ≡ opened.old.items
        ++ walking.below (told meanings.now) tree.now task.due task.inside role parts.now) }
{
    if is_path(role) {
        return open_path(opened, meanings, tree, task.due, task.inside, parts);
    }
    open_parts(opened, meanings, tree, role, task.inside, parts)
}

// Looks at what is next, but for its parts. None are opened before and behind that; room for them is kept.
fn take(
    faults: &mut List<Diagnostic>,
    tasks: &mut Vec<Task>,
    opened: &mut Vec<Task>,
    meanings: &Meanings,
    tree: &Tree,
    next: Task,
) -> Result<(), Memory>
    requires there { next.node < length tree.now }
    requires due { walking.AreDue tree.now (walking.stack tasks.old.items) }
    requires none { opened.old.items ≡ [] }
    ensures taken { OnOk result (walking.IsTaken (told meanings.now) tree.now next faults.old
        faults.new (walking.stack tasks.old.items) (walking.stack tasks.new.items)) }
    ensures none { OnOk result (opened.new.items ≡ []) }
{
    let role = role_of(tree.form(next.node));
    let parts = tree.children(next.node);
    push_own(faults, meanings, next.due, next.inside, role, parts.len())?;
    open_below(opened, meanings, tree, next, role, parts)?;
    put_on_top(tasks, opened)?;
    Ok(())
}

/// Appends the faults of the trees of some nodes, where expressions are due.
pub fn push_trees(
    alloc: Global,
    faults: &mut List<Diagnostic>,
    meanings: &Meanings,
    tree: &Tree,
    nodes: &[u32],
) -> Result<(), Memory>
    requires { AreThere tree.now nodes.now }
    ensures { OnOk result (faults.new ≡ faults.old ++ arities.part_faults
        (told meanings.now) Other false 0 (trees (map (tree_at tree.now) nodes.now))) }
{
    let mut opened = Vec::new(alloc);
    open_parts(&mut opened, meanings, tree, Role::Other, false, nodes)?;
    let mut tasks = Vec::new(alloc);
    put_on_top(&mut tasks, &mut opened)?;
    while let Some(next) = tasks.pop() {
        take(faults, &mut tasks, &mut opened, meanings, tree, next)?;
    }
    Ok(())
}
