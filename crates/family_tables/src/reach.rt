// Which modules some of them reach.
ghost use Rattle.std.specs.Prelude.{◌≡◌, ◌⊎◌, ℕ, List as ListOf, None, IfOk, OnOk, Contains, true};
ghost use Rattle.family_tables.specs.Plans.{AreOnce, IsClosed, IsCycles, IsOrder, IsPlan};
ghost use Rattle.family_tables.specs.Plans.{IsReached, Needs};
ghost use Rattle.family_tables.specs.Tables.{has_name, names_in};

use crate::order::Plan;
use crate::reading::Module;
use crate::table::Table;
use std::alloc::Global;
use tool_list::{Chars, Memory};

// Puts a name among others, unless it is one of them.
fn add_name(alloc: Global, names: &mut Table<()>, name: &str) -> Result<(), Memory>
    ensures kept { OnOk result ((other : ListOf ℕ) → has_name names.old other ≡ true
        → has_name names.new other ≡ true) }
    ensures added { OnOk result (has_name names.new name.now ≡ true) }
    ensures only { OnOk result ((other : ListOf ℕ) → has_name names.new other ≡ true
        → (has_name names.old other ≡ true) ⊎ (other ≡ name.now)) }
{
    if names.get(name).is_some() {
        return Ok(());
    }
    names.add(alloc, name, ())?;
    Ok(())
}

// Puts names among others.
fn add_names(alloc: Global, names: &mut Table<()>, more: &[Chars]) -> Result<(), Memory>
    ensures kept { OnOk result ((other : ListOf ℕ) → has_name names.old other ≡ true
        → has_name names.new other ≡ true) }
    ensures added { OnOk result ((other : ListOf ℕ) → Contains more.now other
        → has_name names.new other ≡ true) }
    ensures only { OnOk result ((other : ListOf ℕ) → has_name names.new other ≡ true
        → (has_name names.old other ≡ true) ⊎ Contains more.now other) }
{
    for name in more {
        add_name(alloc, names, name.as_str())?;
    }
    Ok(())
}

// Puts all that modules need among names.
fn add_all_needs(
    alloc: Global,
    modules: &Table<Module>,
    names: &mut Table<()>,
) -> Result<(), Memory>
    ensures kept { OnOk result ((other : ListOf ℕ) → has_name names.old other ≡ true
        → has_name names.new other ≡ true) }
    ensures closed { OnOk result (IsClosed modules.now names.new) }
{
    for index in 0..modules.len() {
        let (_, module) = modules.at(index);
        add_names(alloc, names, module.needs.as_slice())?;
    }
    Ok(())
}

// Puts what the module of a name needs among names, if that is one of them.
fn add_needs_of(
    alloc: Global,
    modules: &Table<Module>,
    names: &mut Table<()>,
    name: &str,
) -> Result<(), Memory>
    requires once { AreOnce (names_in modules.now) }
    ensures kept { OnOk result ((other : ListOf ℕ) → has_name names.old other ≡ true
        → has_name names.new other ≡ true) }
    ensures needs { OnOk result (has_name names.old name.now ≡ true → (need : ListOf ℕ)
        → Needs modules.now name.now need → has_name names.new need ≡ true) }
    ensures only { OnOk result ((other : ListOf ℕ) → has_name names.new other ≡ true
        → (has_name names.old other ≡ true)
        ⊎ ((has_name names.old name.now ≡ true) × Needs modules.now name.now other)) }
{
    if names.get(name).is_none() {
        return Ok(());
    }
    match modules.get(name) {
        Some(module) => {
            add_names(alloc, names, module.needs.as_slice())?;
            Ok(())
        }
        None => Ok(()),
    }
}

// Puts what modules need among names, the last module of an order first: those that need one stand
// behind it.
fn add_needs(
    alloc: Global,
    modules: &Table<Module>,
    order: &[Chars],
    names: &mut Table<()>,
) -> Result<(), Memory>
    requires once { AreOnce (names_in modules.now) }
    requires order { IsOrder modules.now order.now }
    requires acyclic { IsCycles modules.now None }
    ensures kept { OnOk result ((other : ListOf ℕ) → has_name names.old other ≡ true
        → has_name names.new other ≡ true) }
    ensures closed { OnOk result (IsClosed modules.now names.new) }
    ensures only { OnOk result ((other : ListOf ℕ) → has_name names.new other ≡ true
        → IsReached modules.now (λ name. has_name names.old name ≡ true) other) }
{
    for count in 0..order.len() {
        let last = order.len() - 1 - count;
        add_needs_of(alloc, modules, names, order[last].as_str())?;
    }
    Ok(())
}

/// Some names, and those of all modules that modules of these reach by what they need. Where some
/// module reaches itself, what any other module needs may be among them too.
pub fn reached_by(
    alloc: Global,
    modules: &Table<Module>,
    plan: &Plan,
    names: &[Chars],
) -> Result<Table<()>, Memory>
    requires once { AreOnce (names_in modules.now) }
    requires plan { IsPlan modules.now plan.now }
    ensures names { IfOk result (λ reached. (name : ListOf ℕ) → Contains names.now name
        → has_name reached name ≡ true) }
    ensures closed { IfOk result (IsClosed modules.now) }
    ensures only { IfOk result (λ reached. (name : ListOf ℕ) → plan.now.cycles ≡ None
        → has_name reached name ≡ true → IsReached modules.now (Contains names.now) name) }
{
    let mut reached = Table::new(alloc);
    add_names(alloc, &mut reached, names)?;
    match &plan.cycles {
        Some(_) => add_all_needs(alloc, modules, &mut reached)?,
        None => add_needs(alloc, modules, plan.order.as_slice(), &mut reached)?,
    }
    Ok(reached)
}
