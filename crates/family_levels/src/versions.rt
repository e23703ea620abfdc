// What was found of modules once, and over what.
ghost use Rattle.std.specs.Prelude.{◌≡◌, ℕ, [], IfOk, IfSome, OnOk, Some, true};
ghost use Rattle.std.specs.Bool.{OnTrue};
ghost use Rattle.family_tables.specs.Tables.{entry_of};
ghost use Rattle.leveled_modules.specs.Leveled.{AreKept};
ghost use Rattle.tree_numbers.specs.Numbered.{IsNumbered};
ghost use Rattle.family_levels.specs.Again.{AreIdsNeeded, HasIdsOf, HasMoreIds, IsSameVersion};
ghost use Rattle.family_levels.specs.Again.{IsVersionAs, has_id};
ghost use Rattle.family_levels.specs.declared.versions.Need.TheVariants as need_as;
ghost use Rattle.family_levels.specs.Holding.{HoldVersions};
ghost use Rattle.family_levels.specs.Versions.{AreHeldWith};

use crate::module::Found;
use family_tables::{Module, Reading, SharedTree, Table};
use indexmap::IndexSet;
use leveled_modules::LevelTables;
use std::alloc::Global;
use tla_tree::ModuleTree;
use tool_list::{List, Memory, copied};
use tree_numbers::TreeNumbers;

/// What a module is to one that needs it.
#[derive(Clone, Copy, PartialEq, Eq)]
pub(crate) enum Need {
    /// It is not there.
    Unknown,
    /// It is that one, or needs it.
    Cyclic,
    Refused,
    /// It is accepted: the number of its version.
    Version(u64),
}

/// A module as it was once, with what was found of it over others as they were.
pub(crate) struct Version {
    pub tree: SharedTree,
    /// What the modules are that it needs, in the order of its text.
    pub needs: List<Need>,
    /// Its own number, which it has from the version before where it is to others what that was, and
    /// else alone.
    pub id: u64,
    pub found: Found,
}

// By hand, so that a proof meets one call wherever a value ends.
impl Drop for Version {
    fn drop(self) {
        let Version {
            tree: _,
            needs: _,
            id: _,
            found: _,
        } = self;
    }
}

impl Version {
    /// How many bytes its text has.
    pub(crate) fn size(&self) -> u64 {
        self.tree.tree().source.as_str().len() as u64
    }

    /// The same version. It shares what it holds, but for faults.
    pub(crate) fn copied(&self, alloc: Global) -> Result<Version, Memory>
        ensures { IfOk result (IsSameVersion self.now) }
    {
        Ok(Version {
            tree: self.tree.copied()?,
            needs: copied(alloc, self.needs.as_slice())?,
            id: self.id,
            found: self.found.copied(alloc)?,
        })
    }

    /// The version with the number of another one, and with this that was found.
    pub(crate) fn in_place_of(
        self,
        alloc: Global,
        before: &Version,
        found: &Found,
    ) -> Result<Version, Memory>
        ensures { IfOk result (IsVersionAs before.now self found.now) }
    {
        let Version {
            tree,
            needs,
            id: _,
            found: _,
        } = self;
        Ok(Version {
            tree,
            needs,
            id: before.id,
            found: found.copied(alloc)?,
        })
    }
}

/// What versions are to the levels of others.
#[derive(Drop)]
pub(crate) struct Nodes {
    pub known: LevelTables,
    /// Numbers of nodes with the same trees, as far as they were compared.
    pub trees: TreeNumbers,
    /// No version has this number or a later one.
    pub next: u64,
    /// How many bytes have the texts that became nodes, those of versions that are no more among
    /// them.
    pub made: u64,
}

/// Versions of modules.
#[derive(Drop)]
pub(crate) struct Versions {
    pub modules: Table<Version>,
    pub nodes: Nodes,
}

// How many bytes of text may be left of versions that are no more, beside as many as others have.
const SPARE: u64 = 1 << 16;

/// Whether the text of a version is that of a tree.
pub(crate) fn is_text_of(version: &Version, tree: &ModuleTree) -> bool
    ensures is { OnTrue result (version.now.tree.source ≡ tree.now.source) }
    ensures found { version.now.tree.source ≡ tree.now.source → result ≡ true }
{
    version.tree.tree().source.as_str() == tree.source.as_str()
}

// Whether a module has the text of a version.
fn has_text_of(module: Option<&Module>, version: &Version) -> bool {
    match module {
        Some(
            Module {
                reading: Reading::Tree(tree),
                needs: _,
            },
        ) => is_text_of(version, tree.tree()),
        _ => false,
    }
}

// How many bytes the texts of those versions have whose modules have them still.
fn size_kept(versions: &Table<Version>, modules: &Table<Module>) -> u64 {
    let mut size = 0u64;
    for index in 0..versions.len() {
        let (name, version) = versions.at(index);
        if has_text_of(modules.get(name), version) {
            size = size.saturating_add(version.size());
        }
    }
    size
}

// The version of a module that is there.
fn version_there<'a>(
    old: &'a Table<Version>,
    modules: &Table<Module>,
    name: &str,
) -> Option<&'a Version>
    ensures { IfSome result (λ version. entry_of old.now name.now ≡ Some version.now) }
{
    if modules.get(name).is_none() {
        return None;
    }
    old.get(name)
}

// Puts the number of a version that is needed.
fn put_id(ids: &mut IndexSet<u64>, need: &Need) -> Result<(), Memory>
    ensures kept { OnOk result (HasMoreIds ids.new.keys ids.old.keys) }
    ensures put { OnOk result ((id : ℕ) → need.now ≡ need_as.Version id
        → has_id ids.new.keys id ≡ true) }
{
    if let Need::Version(id) = need {
        ids.insert(*id)?;
    }
    Ok(())
}

// Puts the numbers of all versions that are needed.
fn put_ids(ids: &mut IndexSet<u64>, needs: &[Need]) -> Result<(), Memory>
    ensures kept { OnOk result (HasMoreIds ids.new.keys ids.old.keys) }
    ensures put { OnOk result (HasIdsOf needs.now ids.new.keys) }
{
    for index in 0..needs.len() {
        put_id(ids, &needs[index])?;
    }
    Ok(())
}

/// The numbers of those versions that others are over.
pub(crate) fn ids_needed(alloc: Global, versions: &Table<Version>) -> Result<IndexSet<u64>, Memory>
    ensures { IfOk result (λ ids. AreIdsNeeded versions.now ids.keys) }
{
    let mut ids = IndexSet::new(alloc);
    for index in 0..versions.len() {
        let (_, version) = versions.at(index);
        put_ids(&mut ids, version.needs.as_slice())?;
    }
    Ok(ids)
}

impl Versions {
    /// No versions.
    pub(crate) fn new(alloc: Global) -> Result<Versions, Memory>
        ensures hold { IfOk result (λ versions. HoldVersions (Some versions)) }
        ensures none { IfOk result (λ versions. versions.modules ≡ []) }
    {
        Ok(Versions {
            modules: Table::new(alloc),
            nodes: Nodes {
                known: LevelTables::new(alloc)?,
                trees: TreeNumbers::new(alloc),
                next: 0,
                made: 0,
            },
        })
    }

    // Whether most of what became nodes is of texts that these modules have no more.
    fn are_outgrown(&self, modules: &Table<Module>) -> bool {
        self.nodes.made / 2 > size_kept(&self.modules, modules).saturating_add(SPARE)
    }

    /// Versions to go on with for these modules: none where there are none, or where most of what
    /// became nodes is of texts that the modules have no more.
    pub(crate) fn or_new(
        alloc: Global,
        versions: Option<Versions>,
        modules: &Table<Module>,
    ) -> Result<Versions, Memory>
        requires { HoldVersions versions }
        ensures { IfOk result (λ versions. HoldVersions (Some versions)) }
    {
        match versions {
            Some(versions) if !versions.are_outgrown(modules) => Ok(versions),
            _ => Versions::new(alloc),
        }
    }

    /// With those of modules that have none among these but among others.
    pub(crate) fn with_others(
        self,
        alloc: Global,
        old: &Table<Version>,
        modules: &Table<Module>,
    ) -> Result<Versions, Memory>
        requires kept { AreKept self.nodes.known }
        requires numbered { IsNumbered self.nodes.known.tables.state.flat self.nodes.trees }
        requires held { AreHeldWith self.nodes.known self.nodes.next self.modules old.now }
        ensures { IfOk result (λ versions. HoldVersions (Some versions)) }
    {
        let Versions {
            modules: mut versions,
            nodes,
        } = self;
        for index in 0..old.len() {
            let (name, _) = old.at(index);
            if versions.get(name).is_some() {
                continue;
            }
            if let Some(version) = version_there(old, modules, name) {
                versions.add(alloc, name, version.copied(alloc)?)?;
            }
        }
        Ok(Versions {
            modules: versions,
            nodes,
        })
    }
}
