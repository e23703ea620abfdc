// What is found of the modules of a family, one after another.
ghost use Rattle.std.specs.Prelude.{◌≡◌, ◌≤◌, ◌+◌, [], List as ListOf, IfOk, None, OnOk};
ghost use Rattle.std.specs.List.{All};
ghost use Rattle.family_facts.specs.Family.{AreMembersDistinct, Member};
ghost use Rattle.family_facts.specs.Verdicts.{after_checks};
ghost use Rattle.family_tables.specs.Modules as modules_of;
ghost use Rattle.family_tables.specs.Outcomes as outcomes_of;
ghost use Rattle.family_tables.specs.Plans.{AreOnce, IsPlan};
ghost use Rattle.family_tables.specs.Tables.{entry_of, names_in};
ghost use Rattle.leveled_modules.specs.Leveled.{AreKept};
ghost use Rattle.tree_numbers.specs.Numbered.{IsNumbered};
ghost use Rattle.family_levels.specs.Leveling.{AreNames, AreOutcomes, with_item};
ghost use Rattle.family_levels.specs.Versions.{AreHeld, AreHeldWith};

use crate::findings::Findings;
use crate::module::Found;
use crate::next::level_next;
use crate::versions::{Nodes, Version, Versions, ids_needed};
use alike_modules::{known_files_stay_known, made_modules_are_known};
use family_tables::{Module, Plan, Table};
use growing_modules::made_modules_stay;
use std::alloc::Global;
use step_count::Steps;
use tool_list::Memory;

// Keeps the item of a module, if it has one.
fn keep<T: Drop>(
    alloc: Global,
    items: &mut Table<T>,
    name: &str,
    item: Option<T>,
) -> Result<(), Memory>
    requires { entry_of items.old name.now ≡ None }
    ensures { OnOk result (items.new ≡ with_item items.old name.now item) }
{
    match item {
        Some(item) => items.add(alloc, name, item),
        None => Ok(()),
    }
}

// How many bytes of text became nodes for a version, if it was found anew.
fn size_anew(version: &Option<Version>, is_anew: bool) -> u64 {
    match version {
        Some(version) if is_anew => version.size(),
        _ => 0,
    }
}

// The number behind that of a version. One that 64 bits can't hold is want of memory.
fn following(id: u64) -> Result<u64, Memory>
    ensures { IfOk result (λ after. after ≡ id + 1) }
{
    match id.checked_add(1) {
        Some(after) => Ok(after),
        None => Err(Memory),
    }
}

/// What is found of modules, in the order of a plan, with their versions. One that was found before
/// over the same is not checked again; each other module without front fault is checked once, which
/// is one step. Versions that are found anew get numbers from the next one on.
pub(crate) fn level_all<L>(
    alloc: Global,
    modules: &Table<Module>,
    plan: &Plan,
    old: &Table<Version>,
    nodes: Nodes,
    steps: &mut Steps<L>,
) -> Result<(Findings, Versions), Memory>
    requires once { AreOnce (names_in modules.now) }
    requires read { All (λ entry. outcomes_of.IsSomeModule entry.0 entry.1) modules.now }
    requires plan { IsPlan modules.now plan.now }
    requires kept { AreKept nodes.known }
    requires numbered { IsNumbered nodes.known.tables.state.flat nodes.trees }
    requires held { AreHeld nodes.known nodes.next old.now }
    ensures outcomes { (family : ListOf Member) → AreMembersDistinct family
        → modules_of.AreModules family modules.now
        → IfOk result (λ made. AreOutcomes family made.0.outcomes) }
    ensures names { (family : ListOf Member) → AreMembersDistinct family
        → modules_of.AreModules family modules.now
        → IfOk result (λ made. AreNames family made.0.names) }
    ensures kept { IfOk result (λ made. AreKept made.1.nodes.known) }
    ensures numbered { IfOk result (λ made. IsNumbered made.1.nodes.known.tables.state.flat
        made.1.nodes.trees) }
    ensures held { (family : ListOf Member) → AreMembersDistinct family
        → modules_of.AreModules family modules.now
        → IfOk result (λ made. AreHeldWith made.1.nodes.known made.1.nodes.next made.1.modules
        old.now) }
    ensures most { IfOk result (λ _. steps.new
        ≤ after_checks (outcomes_of.trees_in modules.now) steps.old) }
    ensures all { old.now ≡ [] → IfOk result (λ _. steps.new
        ≡ after_checks (outcomes_of.trees_in modules.now) steps.old) }
{
    front_laws::one_front();
    made_modules_are_known();
    known_files_stay_known();
    made_modules_stay();
    // The proof needs that a count is below 2^64.
    let _count = steps.count();
    let mut outcomes = Table::new(alloc);
    let mut numbers = Table::new(alloc);
    let mut names = Table::new(alloc);
    let mut versions = Table::new(alloc);
    let needed = ids_needed(alloc, old)?;
    let Nodes {
        mut known,
        mut trees,
        mut next,
        mut made,
    } = nodes;
    for name in plan.order.as_slice() {
        let name = name.as_str();
        let Some(module) = modules.get(name) else {
            unreachable!();
        };
        let checks = steps.count();
        let (behind, found, version) = level_next(
            alloc, plan, old, &needed, &versions, &outcomes, &numbers, name, module, known,
            &mut trees, next, steps,
        )?;
        known = behind;
        made = made.saturating_add(size_anew(&version, steps.count() != checks));
        next = following(next)?;
        let Found {
            outcome,
            number,
            names: own,
        } = found;
        outcomes.add(alloc, name, outcome)?;
        keep(alloc, &mut numbers, name, number)?;
        keep(alloc, &mut versions, name, version)?;
        names.add(alloc, name, own)?;
    }
    let versions = Versions {
        modules: versions,
        nodes: Nodes {
            known,
            trees,
            next,
            made,
        },
    };
    Ok((Findings { outcomes, names }, versions))
}
