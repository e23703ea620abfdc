// A family whose texts change.
ghost use Rattle.std.specs.Prelude.{◌≡◌, ◌≤◌, ◌<◌, ◌^◌, ℕ, List as ListOf, Contains, IfOk};
ghost use Rattle.std.specs.Prelude.{OnErr, OnOk, filter, length, sum_by};
ghost use Rattle.std.specs.Bool.{OnTrue};
ghost use Rattle.std.specs.List.{All};
ghost use Rattle.family_facts.specs.Verdicts.{AreDistinct, after_checks, checks_of, family_of};
ghost use Rattle.family_tables.specs.Keeping.{AreRead};
ghost use Rattle.family_tables.specs.Modules.{AreModules};
ghost use Rattle.family_tables.specs.Outcomes.{IsSomeModule};
ghost use Rattle.family_tables.specs.Plans.{AreOnce};
ghost use Rattle.family_tables.specs.Tables.{has_name, names_in};
ghost use Rattle.leveled_modules.specs.Leveled.{AreKept};
ghost use Rattle.tree_numbers.specs.Numbered.{IsNumbered};
ghost use Rattle.family_levels.specs.Findings.{nothing_found};
ghost use Rattle.family_levels.specs.Holding.{HoldVersions};
ghost use Rattle.family_levels.specs.Versions.{AreHeld, AreHeldWith};
ghost use Rattle.family_levels.specs.Telling.{AreFound, AreFoundIf, AreFoundOf, HasChecked};
ghost use Rattle.family_levels.specs.declared.findings.Findings.{Findings as FindingsOf};

use crate::findings::Findings;
use crate::modules::level_all;
use crate::standing::findings_stand_in_text;
use crate::versions::{Nodes, Version, Versions};
use family_facts::{File, names_differ};
use family_read::read_family;
use family_tables::{Module, Reading, SharedTree, Table, plan_of, reached_by};
use std::alloc::Global;
use std::marker::Model;
use step_count::Steps;
use tool_list::{Chars, List, Memory, copied};

/// A family whose texts change, with what was found of it last. Contracts see what was found.
pub struct Family {
    files: List<File>,
    // The trees of its modules, but of those with a front fault.
    trees: Table<SharedTree>,
    // The names of the modules of which it was found; none where it was of all.
    names: Option<List<Chars>>,
    // What was found of modules, with what it was found from; none behind want of memory.
    versions: Option<Versions>,
    found: Findings,
}

// By hand, so that a proof meets one call wherever a value ends.
impl Drop for Family {
    fn drop(self) {
        let Family {
            files: _,
            trees: _,
            names: _,
            versions: _,
            found: _,
        } = self;
    }
}

impl Model for Family {
    ghost use Rattle.family_tables.specs.Keeping.{AreRead};
    ghost use Rattle.family_levels.specs.Telling.{AreFoundIf};
    ghost use Rattle.family_levels.specs.Holding.{HoldVersions};
    ghost use Rattle.family_levels.specs.declared.findings.Findings.{Findings};

    ghost Value = { Findings };

    ghost view = { λ f. f.found };

    ghost invariant = { λ f. AreRead f.trees × AreFoundIf f.names f.files f.found
        × HoldVersions f.versions };
}

// Whether files are one: their names and their bytes.
fn is_same(file: &File, other: &File) -> bool
    ensures { OnTrue result (file.now ≡ other.now) }
{
    file.name.as_str() == other.name.as_str() && file.bytes.as_slice() == other.bytes.as_slice()
}

// Whether they are the same files, in the same order.
fn are_same(files: &[File], others: &[File]) -> bool
    ensures { OnTrue result (files.now ≡ others.now) }
{
    if files.len() != others.len() {
        return false;
    }
    for index in 0..files.len() {
        if !is_same(&files[index], &others[index]) {
            return false;
        }
    }
    true
}

// Whether names are one.
fn is_same_name(name: &Chars, other: &Chars) -> bool
    ensures { OnTrue result (name.now ≡ other.now) }
{
    name.as_str() == other.as_str()
}

// Whether a name is one of these.
fn is_among(name: &Chars, names: &[Chars]) -> bool
    ensures { OnTrue result (Contains names.now name.now) }
{
    for other in names {
        if is_same_name(name, other) {
            return true;
        }
    }
    false
}

// Whether each of these names is one of others.
fn are_among(names: &[Chars], others: &[Chars]) -> bool
    ensures { OnTrue result ((name : ListOf ℕ) → Contains names.now name
        → Contains others.now name) }
{
    for name in names {
        if !is_among(name, others) {
            return false;
        }
    }
    true
}

// Whether what was found of modules of some names, or else of all, was found of those of these
// names.
fn covers(found: &Option<List<Chars>>, names: &[Chars]) -> bool
    ensures { OnTrue result ((files : ListOf File) (findings : FindingsOf)
        → AreFoundIf found.now files findings → AreFoundOf names.now files findings) }
{
    match found {
        Some(found) => are_among(names, found.as_slice()),
        None => true,
    }
}

// The trees of modules, but of those with a front fault.
fn trees_of(alloc: Global, modules: &Table<Module>) -> Result<Table<SharedTree>, Memory>
    requires once { AreOnce (names_in modules.now) }
    requires read { All (λ entry. IsSomeModule entry.0 entry.1) modules.now }
    ensures { IfOk result AreRead }
{
    let mut trees = Table::new(alloc);
    for index in 0..modules.len() {
        let (name, module) = modules.at(index);
        if let Reading::Tree(tree) = &module.reading {
            trees.add(alloc, name, tree.copied()?)?;
        }
    }
    Ok(trees)
}

// What is found of files whose family has these modules, with the versions of these.
fn find_modules<L>(
    alloc: Global,
    files: &[File],
    modules: &Table<Module>,
    old: &Table<Version>,
    nodes: Nodes,
    steps: &mut Steps<L>,
) -> Result<(Findings, Versions), Memory>
    requires distinct { AreDistinct files.now }
    requires modules { AreModules (family_of files.now) modules.now }
    requires kept { AreKept nodes.known }
    requires numbered { IsNumbered nodes.known.tables.state.flat nodes.trees }
    requires held { AreHeld nodes.known nodes.next old.now }
    ensures found { IfOk result (λ made. AreFound files.now made.0) }
    ensures kept { IfOk result (λ made. AreKept made.1.nodes.known) }
    ensures numbered { IfOk result (λ made. IsNumbered made.1.nodes.known.tables.state.flat
        made.1.nodes.trees) }
    ensures held { IfOk result (λ made. AreHeldWith made.1.nodes.known made.1.nodes.next
        made.1.modules old.now) }
    ensures steps { IfOk result (λ _. steps.new ≤ after_checks (checks_of files.now) steps.old) }
{
    front_laws::one_front();
    names_differ();
    findings_stand_in_text();
    let plan = plan_of(alloc, modules)?;
    let made = level_all(alloc, modules, &plan, old, nodes, steps)?;
    Ok(made)
}

// Files with what is found of them, by trees and versions that were kept.
fn find_family<L>(
    alloc: Global,
    files: List<File>,
    kept: &Table<SharedTree>,
    versions: Option<Versions>,
    steps: &mut Steps<L>,
) -> Result<Family, Memory>
    requires distinct { AreDistinct files }
    requires small { sum_by (λ file. length file.bytes) files < 2 ^ 31 }
    requires kept { AreRead kept.now }
    requires held { HoldVersions versions }
    ensures found { IfOk result (AreFound files) }
    ensures steps { IfOk result (λ _. steps.new ≤ after_checks (checks_of files) steps.old) }
{
    let modules = read_family(alloc, kept, files.as_slice())?;
    let trees = trees_of(alloc, &modules)?;
    let Versions {
        modules: old,
        nodes,
    } = Versions::or_new(alloc, versions, &modules)?;
    let (found, versions) = find_modules(alloc, files.as_slice(), &modules, &old, nodes, steps)?;
    let versions = versions.with_others(alloc, &old, &modules)?;
    Ok(Family {
        files,
        trees,
        names: None,
        versions: Some(versions),
        found,
    })
}

// A copy of a file.
fn copy_of(alloc: Global, file: &File) -> Result<File, Memory>
    ensures { IfOk result (λ copy. copy ≡ file.now) }
{
    Ok(File {
        name: file.name.copied()?,
        bytes: copied(alloc, file.bytes.as_slice())?,
    })
}

// The files of these names.
fn named_files(alloc: Global, files: &[File], names: &Table<()>) -> Result<List<File>, Memory>
    ensures { IfOk result (λ part. part
        ≡ filter (λ file. has_name names.now file.name) files.now) }
{
    let mut part = List::new(alloc);
    for file in files {
        if names.get(file.name.as_str()).is_some() {
            part.push(copy_of(alloc, file)?)?;
        }
    }
    Ok(part)
}

// What is found of the modules of some names, with their versions: of the files whose family has
// these modules it looks at those that they reach.
fn find_reached<L>(
    alloc: Global,
    files: &[File],
    modules: &Table<Module>,
    trees: &Table<SharedTree>,
    names: &[Chars],
    versions: Versions,
    steps: &mut Steps<L>,
) -> Result<(Findings, Versions), Memory>
    requires distinct { AreDistinct files.now }
    requires small { sum_by (λ file. length file.bytes) files.now < 2 ^ 31 }
    requires modules { AreModules (family_of files.now) modules.now }
    requires trees { AreRead trees.now }
    requires held { HoldVersions (Some versions) }
    ensures found { IfOk result (λ made. AreFoundOf names.now files.now made.0) }
    ensures held { IfOk result (λ made. HoldVersions (Some made.1)) }
    ensures steps { IfOk result (λ _. HasChecked files.now steps.old steps.new) }
{
    front_laws::one_front();
    let plan = plan_of(alloc, modules)?;
    let reached = reached_by(alloc, modules, &plan, names)?;
    let part = named_files(alloc, files, &reached)?;
    let read = read_family(alloc, trees, part.as_slice())?;
    let Versions {
        modules: old,
        nodes,
    } = versions;
    let (found, versions) = find_modules(alloc, part.as_slice(), &read, &old, nodes, steps)?;
    let versions = versions.with_others(alloc, &old, modules)?;
    Ok((found, versions))
}

// Files with what is found of the modules of some names, by trees and versions that were kept.
fn find_part<L>(
    alloc: Global,
    files: List<File>,
    names: List<Chars>,
    kept: &Table<SharedTree>,
    versions: Option<Versions>,
    steps: &mut Steps<L>,
) -> Result<Family, Memory>
    requires distinct { AreDistinct files }
    requires small { sum_by (λ file. length file.bytes) files < 2 ^ 31 }
    requires kept { AreRead kept.now }
    requires held { HoldVersions versions }
    ensures found { IfOk result (AreFoundOf names files) }
    ensures steps { IfOk result (λ _. HasChecked files steps.old steps.new) }
{
    let modules = read_family(alloc, kept, files.as_slice())?;
    let trees = trees_of(alloc, &modules)?;
    let versions = Versions::or_new(alloc, versions, &modules)?;
    let (found, versions) = find_reached(
        alloc,
        files.as_slice(),
        &modules,
        &trees,
        names.as_slice(),
        versions,
        steps,
    )?;
    Ok(Family {
        files,
        trees,
        names: Some(names),
        versions: Some(versions),
        found,
    })
}

impl Family {
    /// No files, of which nothing was found. It takes no memory.
    pub fn new(alloc: Global) -> Family
        ensures { result ≡ nothing_found }
    {
        Family {
            files: List::new(alloc),
            trees: Table::new(alloc),
            names: None,
            versions: None,
            found: Findings::new(alloc),
        }
    }

    /// What was found last.
    pub fn found(&self) -> &Findings
        ensures { result.now ≡ self.now }
    {
        &self.found
    }

    /// Finds what there is to find of files over the built-in modules, levels and depths among it:
    /// a file hides the built-in module of its name. Where they are the files of before, all of it
    /// was found. Else each module without front fault is checked at most once, which is one step:
    /// mostly it is not where neither its text has changed nor what the modules that it names are to
    /// it; one whose text is what it was is not read again. After `Memory` all is as before.
    pub fn find<L>(
        &mut self,
        alloc: Global,
        files: List<File>,
        steps: &mut Steps<L>,
    ) -> Result<(), Memory>
        requires distinct { AreDistinct files }
        requires small { sum_by (λ file. length file.bytes) files < 2 ^ 31 }
        ensures found { OnOk result (AreFound files self.new) }
        ensures steps { OnOk result (steps.new ≤ after_checks (checks_of files) steps.old) }
        ensures err { OnErr result (self.new ≡ self.old) }
    {
        // The proof needs that a count is below 2^64.
        let _count = steps.count();
        if self.names.is_none() && are_same(self.files.as_slice(), files.as_slice()) {
            return Ok(());
        }
        let versions = self.versions.take();
        let family = find_family(alloc, files, &self.trees, versions, steps)?;
        *self = family;
        Ok(())
    }

    /// Finds what there is to find of the files of some names, as `find` does of all: modules that
    /// they do not reach by what they need are read and not checked. After `Memory` all is as
    /// before.
    pub fn find_named<L>(
        &mut self,
        alloc: Global,
        files: List<File>,
        names: List<Chars>,
        steps: &mut Steps<L>,
    ) -> Result<(), Memory>
        requires distinct { AreDistinct files }
        requires small { sum_by (λ file. length file.bytes) files < 2 ^ 31 }
        ensures found { OnOk result (AreFoundOf names files self.new) }
        ensures steps { OnOk result (HasChecked files steps.old steps.new) }
        ensures err { OnErr result (self.new ≡ self.old) }
    {
        // The proof needs that a count is below 2^64.
        let _count = steps.count();
        if covers(&self.names, names.as_slice())
            && are_same(self.files.as_slice(), files.as_slice())
        {
            return Ok(());
        }
        let versions = self.versions.take();
        let family = find_part(alloc, files, names, &self.trees, versions, steps)?;
        *self = family;
        Ok(())
    }
}
