// The next module, by its version or by a check.
ghost use Rattle.std.specs.Prelude.{◌≡◌, ◌≤◌, ℕ, [], false, IfOk, IfSome, IsTrue, List as ListOf};
ghost use Rattle.std.specs.Prelude.{OnOk, Some, is_some, true};
ghost use Rattle.std.specs.Bool.{OnTrue};
ghost use Rattle.family_facts.specs.Verdicts.{after_checks};
ghost use Rattle.family_tables.specs.Agreement.{AreAgreed};
ghost use Rattle.family_tables.specs.Modules.{Entry, tree_count};
ghost use Rattle.family_tables.specs.Outcomes.{IsSomeModule};
ghost use Rattle.family_tables.specs.Plans.{IsPlan};
ghost use Rattle.family_tables.specs.Tables.{entry_of};
ghost use Rattle.leveled_modules.specs.Leveled.{AreKept};
ghost use Rattle.tree_numbers.specs.Numbered.{IsNumbered};
ghost use Rattle.family_levels.specs.Exactness.{AreExact};
ghost use Rattle.family_levels.specs.Leveling.{AreNumbers};
ghost use Rattle.family_levels.specs.Again.{AreNeeds, IsFoundAgain, IsFoundAs, IsInPlace, IsLike};
ghost use Rattle.family_levels.specs.Again.{IsMadeNext, IsSameTo, IsVersionAnew, IsVersionOf};
ghost use Rattle.family_levels.specs.Again.{IsCurrent, NeedAll, Stays, need_by, version_by};
ghost use Rattle.family_levels.specs.declared.versions.Need.{Need as NeedOf};
ghost use Rattle.family_levels.specs.declared.versions.Version.{Version as VersionOf};

use crate::laws::laws_below;
use crate::module::{Found, level_one};
use crate::versions::{Need, Version, is_text_of};
use exact_faces::exact_faces_are_told;
use face_views::{are_same, same_faces_look_alike};
use family_tables::{Module, Outcome, Plan, Reading, Table};
use growing_modules::made_modules_stay;
use indexmap::IndexSet;
use leveled_modules::LevelTables;
use resolved_trees::trees_are_kept;
use std::alloc::Global;
use step_count::Steps;
use tla_tree::ModuleTree;
use tool_list::{Chars, List, Memory};
use tree_numbers::{TreeNumbers, numbers_stay};

// The number of the version of a module, if it is accepted.
fn version_of(versions: &Table<Version>, name: &str) -> Option<u64>
    ensures { result ≡ version_by (entry_of versions.now name.now) }
{
    match versions.get(name) {
        Some(version) if version.found.number.is_some() => Some(version.id),
        _ => None,
    }
}

// What a module is to one that needs it, by its outcome. There is none where it is accepted and
// has no version.
fn need_found(outcomes: &Table<Outcome>, versions: &Table<Version>, need: &str) -> Option<Need>
    ensures { result ≡ need_by false (entry_of outcomes.now need.now)
        (version_by (entry_of versions.now need.now)) }
{
    match outcomes.get(need) {
        None => Some(Need::Unknown),
        Some(Outcome::Refused(_)) => Some(Need::Refused),
        Some(Outcome::Accepted(_)) => match version_of(versions, need) {
            Some(id) => Some(Need::Version(id)),
            None => None,
        },
    }
}

// What the modules are that a module needs. There are none where one is accepted and has no
// version.
fn needs_found(
    alloc: Global,
    plan: &Plan,
    outcomes: &Table<Outcome>,
    versions: &Table<Version>,
    name: &str,
    needs: &[Chars],
) -> Result<Option<List<Need>>, Memory>
    ensures are { IfOk result (λ found. IfSome found (AreNeeds plan.now outcomes.now versions.now
        name.now needs.now)) }
    ensures all { (modules : ListOf Entry) → IsPlan modules plan.now
        → NeedAll modules name.now needs.now → (needed : ListOf NeedOf)
        → AreNeeds plan.now outcomes.now versions.now name.now needs.now needed
        → IfOk result (λ found. found ≡ Some needed) }
{
    let mut found = List::new(alloc);
    for need in needs {
        let need = need.as_str();
        let cyclic = plan.is_cyclic(alloc, name, need)?;
        if cyclic {
            found.push(Need::Cyclic)?;
            continue;
        }
        let Some(need) = need_found(outcomes, versions, need) else {
            return Ok(None);
        };
        found.push(need)?;
    }
    Ok(Some(found))
}

// Whether a version is that of a tree whose needs are these.
fn is_version_of(version: &Version, tree: &ModuleTree, needs: &[Need]) -> bool
    ensures is { OnTrue result (IsVersionOf version.now tree.now needs.now) }
    ensures found { IsVersionOf version.now tree.now needs.now → result ≡ true }
{
    version.needs.as_slice() == needs && is_text_of(version, tree)
}

// The version of a tree whose needs are these, if it was found before.
fn known_version<'a>(
    old: &'a Table<Version>,
    name: &str,
    tree: &ModuleTree,
    needs: &[Need],
) -> Option<&'a Version>
    ensures is { IfSome result (λ version. (entry_of old.now name.now ≡ Some version.now)
        × IsVersionOf version.now tree.now needs.now) }
    ensures found { (version : VersionOf) → entry_of old.now name.now ≡ Some version
        → IsVersionOf version tree.now needs.now → is_some result ≡ true }
{
    let Some(version) = old.get(name) else {
        return None;
    };
    if is_version_of(version, tree, needs) {
        Some(version)
    } else {
        None
    }
}

// The version of a module whose needs are these, if it was found before.
fn found_version<'a>(
    old: &'a Table<Version>,
    name: &str,
    module: &Module,
    needs: &Option<List<Need>>,
) -> Option<&'a Version>
    ensures is { IfSome result (λ version. IsFoundAgain old.now name.now module.now needs.now
        version.now) }
    ensures found { (version : VersionOf)
        → IsFoundAgain old.now name.now module.now needs.now version → is_some result ≡ true }
{
    match &module.reading {
        Reading::Tree(tree) => match needs {
            Some(needs) => known_version(old, name, tree.tree(), needs.as_slice()),
            None => None,
        },
        Reading::Fault(_) => None,
    }
}

// The version of a module of which this was found, if it has a tree and it is known what its needs
// are.
fn new_version(
    alloc: Global,
    module: &Module,
    needs: Option<List<Need>>,
    id: u64,
    found: &Found,
) -> Result<Option<Version>, Memory>
    ensures { IfOk result (λ version. IfSome version
        (IsVersionAnew module.now needs id found.now)) }
{
    let (Reading::Tree(tree), Some(needs)) = (&module.reading, needs) else {
        return Ok(None);
    };
    Ok(Some(Version {
        tree: tree.copied()?,
        needs,
        id,
        found: found.copied(alloc)?,
    }))
}

// Whether a version was to others what a module is of which this was found: with the same face to
// their names, and with the same trees to their levels.
fn is_like(
    alloc: Global,
    known: &LevelTables,
    trees: &mut TreeNumbers,
    version: &Version,
    found: &Found,
) -> Result<bool, Memory>
    requires kept { AreKept known.now }
    requires numbered { IsNumbered known.now.tables.state.flat trees.old }
    ensures numbered { IsNumbered known.now.tables.state.flat trees.new }
    ensures like { IfOk result (λ same. IsTrue same → IsLike known.now version.now found.now) }
    ensures found { IfOk result (λ same. IsSameTo known.now version.now found.now → IsTrue same) }
{
    trees_are_kept();
    exact_faces_are_told();
    let (Outcome::Accepted(before), Some(was)) = (&version.found.outcome, version.found.number)
    else {
        return Ok(false);
    };
    let (Outcome::Accepted(face), Some(number)) = (&found.outcome, found.number) else {
        return Ok(false);
    };
    if !are_same(before, face) {
        return Ok(false);
    }
    trees.extend(alloc, known.as_flat())?;
    let same = known.are_alike(alloc, trees.as_slice(), was, number)?;
    Ok(same)
}

// The version of a module that was to others what the module is of which this was found, if there
// is one. It is compared where another version is over it.
fn version_like<'a>(
    alloc: Global,
    old: &'a Table<Version>,
    needed: &IndexSet<u64>,
    name: &str,
    known: &LevelTables,
    trees: &mut TreeNumbers,
    found: &Found,
) -> Result<Option<&'a Version>, Memory>
    requires kept { AreKept known.now }
    requires numbered { IsNumbered known.now.tables.state.flat trees.old }
    ensures numbered { IsNumbered known.now.tables.state.flat trees.new }
    ensures like { IfOk result (λ version. IfSome version (λ v.
        (entry_of old.now name.now ≡ Some v.now) × IsLike known.now v.now found.now)) }
    ensures stays { (id : ℕ) → Stays old.now needed.now.keys name.now known.now found.now id
        → IfOk result (λ version. is_some version ≡ true) }
{
    let Some(version) = old.get(name) else {
        return Ok(None);
    };
    if needed.contains(&version.id) && is_like(alloc, known, trees, version, found)? {
        return Ok(Some(version));
    }
    Ok(None)
}

// What was found, with the face of a version and its number.
fn found_as(alloc: Global, version: &Version, found: Found) -> Result<Found, Memory>
    ensures { IfOk result (IsFoundAs version.now found) }
{
    let Found {
        outcome: _,
        number: _,
        names,
    } = found;
    Ok(Found {
        outcome: version.found.outcome.copied(alloc)?,
        number: version.found.number,
        names,
    })
}

// What was found of a module, with its version: in the place of the version before, where another
// one is over that and it was to others what the module is.
fn in_place(
    alloc: Global,
    old: &Table<Version>,
    needed: &IndexSet<u64>,
    name: &str,
    known: &LevelTables,
    trees: &mut TreeNumbers,
    found: Found,
    anew: Version,
) -> Result<(Found, Version), Memory>
    requires kept { AreKept known.now }
    requires numbered { IsNumbered known.now.tables.state.flat trees.old }
    ensures numbered { IsNumbered known.now.tables.state.flat trees.new }
    ensures placed { IfOk result (λ made. IsInPlace old.now name.now known.now found anew made.0
        made.1) }
    ensures stays { (id : ℕ) → Stays old.now needed.now.keys name.now known.now found id
        → IfOk result (λ made. made.1.id ≡ id) }
{
    let Some(before) = version_like(alloc, old, needed, name, known, trees, &found)? else {
        return Ok((found, anew));
    };
    let found = found_as(alloc, before, found)?;
    let version = anew.in_place_of(alloc, before, &found)?;
    Ok((found, version))
}

// What a check finds of a module whose needs are these, with its version.
fn level_anew<L>(
    alloc: Global,
    plan: &Plan,
    old: &Table<Version>,
    needed: &IndexSet<u64>,
    versions: &Table<Version>,
    outcomes: &Table<Outcome>,
    numbers: &Table<usize>,
    name: &str,
    module: &Module,
    needs: Option<List<Need>>,
    known: LevelTables,
    trees: &mut TreeNumbers,
    next: u64,
    steps: &mut Steps<L>,
) -> Result<(LevelTables, Found, Option<Version>), Memory>
    requires some { IsSomeModule name.now module.now }
    requires agreed { AreAgreed outcomes.now }
    requires exact { AreExact outcomes.now }
    requires unfound { entry_of outcomes.now name.now ≡ None }
    requires needs { IfSome needs (AreNeeds plan.now outcomes.now versions.now name.now
        module.now.needs) }
    requires kept { AreKept known }
    requires numbered { IsNumbered known.tables.state.flat trees.old }
    requires numbers { AreNumbers known numbers.now }
    ensures kept { IfOk result (λ made. AreKept made.0) }
    ensures numbered { IfOk result (λ made. IsNumbered made.0.tables.state.flat trees.new) }
    ensures made { IfOk result (λ made. IsMadeNext plan.now old.now versions.now outcomes.now
        numbers.now next name.now module.now known made.0 made.1 made.2) }
    ensures steps { IfOk result (λ _. steps.new
        ≡ after_checks (tree_count module.now.reading) steps.old) }
{
    laws_below();
    made_modules_stay();
    same_faces_look_alike();
    numbers_stay();
    let (known, found) = level_one(alloc, plan, outcomes, numbers, name, module, known, steps)?;
    let Some(anew) = new_version(alloc, module, needs, next, &found)? else {
        return Ok((known, found, None));
    };
    let (taken, version) = in_place(alloc, old, needed, name, &known, trees, found, anew)?;
    Ok((known, taken, Some(version)))
}

/// What is found of a module behind what it needs, and the version that it is, if it has a tree: what
/// was found of it before where its needs were the same, or else what a check finds, which is one
/// step if it has no front fault. A version that is found anew has the number of the one before if
/// that is needed and the module is to others what it was, or else the next one.
pub(crate) fn level_next<L>(
    alloc: Global,
    plan: &Plan,
    old: &Table<Version>,
    needed: &IndexSet<u64>,
    versions: &Table<Version>,
    outcomes: &Table<Outcome>,
    numbers: &Table<usize>,
    name: &str,
    module: &Module,
    known: LevelTables,
    trees: &mut TreeNumbers,
    next: u64,
    steps: &mut Steps<L>,
) -> Result<(LevelTables, Found, Option<Version>), Memory>
    requires some { IsSomeModule name.now module.now }
    requires agreed { AreAgreed outcomes.now }
    requires exact { AreExact outcomes.now }
    requires unfound { entry_of outcomes.now name.now ≡ None }
    requires kept { AreKept known }
    requires numbered { IsNumbered known.tables.state.flat trees.old }
    requires numbers { AreNumbers known numbers.now }
    ensures kept { IfOk result (λ made. AreKept made.0) }
    ensures numbered { IfOk result (λ made. IsNumbered made.0.tables.state.flat trees.new) }
    ensures made { IfOk result (λ made. IsMadeNext plan.now old.now versions.now outcomes.now
        numbers.now next name.now module.now known made.0 made.1 made.2) }
    ensures most { IfOk result (λ _. steps.new
        ≤ after_checks (tree_count module.now.reading) steps.old) }
    ensures all { old.now ≡ [] → IfOk result (λ _. steps.new
        ≡ after_checks (tree_count module.now.reading) steps.old) }
    ensures again { (modules : ListOf Entry) → IsPlan modules plan.now
        → NeedAll modules name.now module.now.needs
        → IsCurrent plan.now old.now versions.now outcomes.now name.now module.now
        → OnOk result (steps.new ≡ steps.old) }
{
    // The proof needs that a count is below 2^64.
    let _count = steps.count();
    front_laws::one_front();
    laws_below();
    let needs = needs_found(
        alloc,
        plan,
        outcomes,
        versions,
        name,
        module.needs.as_slice(),
    )?;
    if let Some(version) = found_version(old, name, module, &needs) {
        let found = version.found.copied(alloc)?;
        let version = version.copied(alloc)?;
        return Ok((known, found, Some(version)));
    }
    let made = level_anew(
        alloc, plan, old, needed, versions, outcomes, numbers, name, module, needs, known, trees,
        next, steps,
    )?;
    Ok(made)
}
