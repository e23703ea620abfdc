// Where names lead.
ghost use Rattle.std.specs.Prelude.{◌≡◌, ◌∷◌, ◌++◌, IfOk, map};
ghost use Rattle.std.specs.List.{AllByRecursion};
ghost use Rattle.std.specs.Option.{option_copied};
ghost use Rattle.tla_model.specs.Lexemes.{LiesIn};
ghost use Rattle.name_context.specs.AsTables.{meant_by};
ghost use Rattle.flattened_trees.specs.NodeForms.{lead_of};
ghost use Rattle.flattened_trees.specs.Leads as leading;
ghost use Rattle.tree_flattener.specs.Found.{lead_in};
ghost use Rattle.tree_kinds.specs.Standing.{is_bound};
ghost use Rattle.tree_flattener.specs.Worlds.{DoLie, DoesLie, declared_place, is_none_of, lead_by};
ghost use Rattle.tree_flattener.specs.Worlds.{local_of, own_place, with_locals, world_of};

use crate::locals::{Entry, Local, local_at};
use crate::names::{Lead, Names};
use crate::written::Written;
use flattened_trees::End;
use name_context::Named;
use std::alloc::Global;
use tla_model::{Entity, Meaning, UnitId};
use tool_list::Memory;
use tree_names::ModuleText;

// Whether there is none of these.
fn is_none_of(units: &[UnitId]) -> bool
    ensures { result ≡ is_none_of units.now }
{
    match units {
        [] => true,
        [_, ..] => false,
    }
}

// How many declaring names of the text stand before something that it declares itself.
fn declared_place(text: &ModuleText<'_>, meaning: &Meaning) -> Option<u32>
    ensures { result ≡ declared_place text.now meaning.now }
{
    match meaning {
        Meaning::BuiltIn => None,
        Meaning::Declared { callee, .. } => {
            if callee.decl.module.as_str() == text.file() && is_none_of(callee.via.as_slice()) {
                Some(callee.decl.place)
            } else {
                None
            }
        }
    }
}

// Whether this is a name that a quantifier, a function or a set binds.
fn is_bound(meaning: &Meaning) -> bool
    ensures { result ≡ is_bound meaning.now }
{
    match meaning {
        Meaning::Declared {
            entity: Entity::Bound { .. },
            ..
        } => true,
        _ => false,
    }
}

// The same of what can come into scope as a definition or a parameter: a bound name is none.
fn own_place(text: &ModuleText<'_>, meaning: &Meaning) -> Option<u32>
    ensures { result ≡ own_place text.now meaning.now }
{
    if is_bound(meaning) {
        return None;
    }
    declared_place(text, meaning)
}

// The name of a scope that this means.
fn local_of(text: &ModuleText<'_>, locals: &[Entry], meaning: &Meaning) -> Option<Local>
    ensures { result ≡ local_of text.now locals.now meaning.now }
{
    match own_place(text, meaning) {
        Some(place) => local_at(locals, place),
        None => None,
    }
}

// Nothing is known of a name.
fn nowhere(alloc: Global) -> Lead
    ensures { lead_in result ≡ leading.nowhere }
{
    Lead {
        path: Vec::new(alloc),
        end: End::Nowhere,
    }
}

// To this, where no name follows.
fn only(alloc: Global, end: End, path: &[Named<'_>]) -> Lead
    ensures { lead_in result ≡ leading.only end (map meant_by path.now) }
{
    if !path.is_empty() {
        return nowhere(alloc);
    }
    Lead {
        path: Vec::new(alloc),
        end,
    }
}

// One name of a path further: through an instance.
fn through(alloc: Global, number: usize, lead: Lead) -> Result<Lead, Memory>
    ensures { IfOk result (λ further. lead_in further ≡ leading.through number (lead_in lead)) }
{
    let mut path = Vec::new(alloc);
    path.push(number)?;
    path.extend_from_slice(lead.path.as_slice())?;
    Ok(Lead {
        path,
        end: lead.end,
    })
}

// Where a path leads behind an instance of a module.
fn behind<N: Names>(
    alloc: Global,
    names: &N,
    number: usize,
    module: &str,
    path: &[Named<'_>],
) -> Result<Lead, Memory>
    ensures { IfOk result (λ lead. lead_in lead ≡ leading.behind_instance number
        (N.faces names.now «module».now) (map meant_by path.now)) }
{
    if path.is_empty() {
        return Ok(nowhere(alloc));
    }
    let lead = names.behind(alloc, module, path)?;
    through(alloc, number, lead)
}

// Where a name of a scope leads.
fn local_lead<N: Names>(
    alloc: Global,
    names: &N,
    written: &Written<'_>,
    local: Local,
    path: &[Named<'_>],
) -> Result<Lead, Memory>
    requires { DoesLie written.now.text.now.source local }
    ensures { IfOk result (λ lead. lead_in lead
        ≡ lead_by (world_of (N.leads names.now) (N.faces names.now) written.now) local
        (map meant_by path.now)) }
{
    match local {
        Local::Nothing => Ok(nowhere(alloc)),
        Local::Place { place, order } => Ok(only(alloc, End::Place { place, order }, path)),
        Local::Definition(definition) => Ok(only(alloc, End::Definition(definition), path)),
        Local::Instance { number, module } => {
            let module = written.text.spelled(module);
            behind(alloc, names, number, module, path)
        }
    }
}

// Where a meaning leads at the names that follow: that of a name in scope, or one that is known
// elsewhere.
fn meaning_lead<N: Names>(
    alloc: Global,
    names: &N,
    written: &Written<'_>,
    locals: &[Entry],
    meaning: &Meaning,
    path: &[Named<'_>],
) -> Result<Lead, Memory>
    requires { DoLie written.now.text.now.source locals.now }
    ensures { IfOk result (λ lead. lead_in lead
        ≡ with_locals (world_of (N.leads names.now) (N.faces names.now) written.now)
        (N.leads names.now) locals.now meaning.now (map meant_by path.now)) }
{
    match local_of(written.text, locals, meaning) {
        Some(local) => {
            let lead = local_lead(alloc, names, written, local, path)?;
            Ok(lead)
        }
        None => {
            let lead = names.lead(alloc, meaning, path)?;
            Ok(lead)
        }
    }
}

// The same of what may mean nothing.
pub(crate) fn lead_of<N: Names>(
    alloc: Global,
    names: &N,
    written: &Written<'_>,
    locals: &[Entry],
    meaning: Option<&Meaning>,
    path: &[Named<'_>],
) -> Result<Lead, Memory>
    requires { DoLie written.now.text.now.source locals.now }
    ensures { IfOk result (λ lead. lead_in lead
        ≡ lead_of (with_locals (world_of (N.leads names.now) (N.faces names.now) written.now)
        (N.leads names.now) locals.now) (option_copied meaning.entry) (map meant_by path.now)) }
{
    match meaning {
        Some(meaning) => meaning_lead(alloc, names, written, locals, meaning, path),
        None => Ok(nowhere(alloc)),
    }
}
