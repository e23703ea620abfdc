// Where instances lead, by their declarations.
ghost use Rattle.std.specs.Prelude.{◌≡◌, [], IfSome, OnOk, Some, is_some, length, option_map, slice_get};
ghost use Rattle.tla_model.specs.Entities.{same_decl};
ghost use Rattle.tla_model.specs.Tables as tables;
ghost use Rattle.instance_leads.specs.Keys.{decl_of, joined_leads, lead, leads_of};
ghost use Rattle.instance_leads.specs.Leading as leading;
ghost use Rattle.instance_leads.specs.Leading.{leads_on};
ghost use Rattle.std.specs.Option.{option_copied};

use indexmap::IndexMap;
use std::alloc::Global;
use std::marker::Model;
use tla_model::{DeclId, Entity, Meaning};
use tool_list::Memory;
use tree_tasks::Held;

/// Where instances lead, by the declarations of their names, each once, in the order in which they were
/// put.
pub struct Leads<'a> {
    entries: IndexMap<(&'a str, u32), Held<'a>>,
}

// By hand, so that a proof meets one call wherever a value ends.
impl<'a> Drop for Leads<'a> {
    fn drop(self) {
        let Leads { entries: _ } = self;
    }
}

impl<'a> Model for Leads<'a> {
    ghost use Rattle.std.specs.Prelude.{List};
    ghost use Rattle.tla_model.specs.declared.ids.DeclId.{DeclId};
    ghost use Rattle.tree_tasks.specs.declared.held.Held.{Held};
    ghost use Rattle.instance_leads.specs.Keys.{leads_of};

    ghost Value = { List (DeclId × Held) };

    ghost view = { λ l. leads_of l.entries.entries };
}

// What is found, and nowhere where nothing is.
fn or_nowhere<'a>(found: Option<Held<'a>>) -> Held<'a>
    ensures { result ≡ leading.or_nowhere found.entry }
{
    match found {
        Some(held) => held,
        None => Held::Nowhere,
    }
}

// Notes all of these, unless they are noted.
fn join_entries<'a>(
    leads: &mut Leads<'a>,
    more: &IndexMap<(&'a str, u32), Held<'a>>,
) -> Result<(), Memory>
    ensures { OnOk result (leads.new ≡ joined_leads leads.old (leads_of more.now.entries)) }
{
    for index in 0..more.len() {
        let Some((key, held)) = more.get_index(index) else {
            unreachable!();
        };
        leads.put(key.0, key.1, *held)?;
    }
    Ok(())
}

// The key of a declaration, as it is kept.
fn key_of<'a>(entries: &IndexMap<(&'a str, u32), Held<'a>>, decl: &DeclId) -> Option<(&'a str, u32)>
    ensures key { IfSome result (λ key. decl_of key.0.now key.1 ≡ decl.now) }
    ensures there { is_some result
        ≡ is_some (tables.lookup same_decl (leads_of entries.now.entries) decl.now) }
{
    let Some(index) = (&*entries).get_index_of(&(decl.module.as_str(), decl.place)) else {
        return None;
    };
    let Some((key, _)) = entries.get_index(index) else {
        unreachable!();
    };
    Some((key.0, key.1))
}

impl<'a> Leads<'a> {
    /// None. It takes no memory.
    pub fn new(alloc: Global) -> Leads<'a>
        ensures { result ≡ [] }
    {
        Leads {
            entries: IndexMap::new(alloc),
        }
    }

    /// Notes where an instance leads whose name is declared at this place of a module's text, unless it
    /// is noted.
    pub fn put(&mut self, module: &'a str, place: u32, held: Held<'a>) -> Result<(), Memory>
        ensures { OnOk result (self.new
            ≡ tables.added same_decl self.old (decl_of «module».entry.now place) held.entry) }
    {
        if self.entries.contains_key(&(module, place)) {
            return Ok(());
        }
        self.entries.insert((module, place), held)?;
        Ok(())
    }

    /// Notes where others lead, unless it is noted.
    pub fn join(&mut self, more: &Leads<'a>) -> Result<(), Memory>
        ensures { OnOk result (self.new ≡ joined_leads self.old more.now) }
    {
        join_entries(self, &more.entries)
    }

    /// Where the instance of a declaration leads, if it is noted.
    pub fn get(&self, decl: &DeclId) -> Option<Held<'a>>
        ensures { result ≡ tables.lookup same_decl self.now decl.now }
    {
        self.entries
            .get(&(decl.module.as_str(), decl.place))
            .copied()
    }

    /// Where the instance leads whose name is declared at this place of a module's text, if it is noted.
    pub fn find(&self, module: &str, place: u32) -> Option<Held<'a>>
        ensures { result ≡ tables.lookup same_decl self.now (decl_of «module».now place) }
    {
        match self.entries.get(&(module, place)) {
            Some(held) => Some(*held),
            None => None,
        }
    }

    /// The instance of a declaration as it is noted: the module whose text declares its name, where its
    /// name stands among those that the text declares, and where it leads.
    pub fn noted(&self, decl: &DeclId) -> Option<(&'a str, u32, Held<'a>)>
        ensures key { IfSome result (λ found. (lead found).0 ≡ decl.now) }
        ensures held { IfSome result (λ found. tables.lookup same_decl self.now decl.now
            ≡ Some (lead found).1) }
        ensures there { is_some result ≡ is_some (tables.lookup same_decl self.now decl.now) }
    {
        let Some(held) = self.get(decl) else {
            return None;
        };
        match key_of(&self.entries, decl) {
            Some((module, place)) => Some((module, place, held)),
            None => None,
        }
    }

    /// Where a name leads that means this.
    pub fn on(&self, meaning: Option<&Meaning>) -> Held<'a>
        ensures { result ≡ leads_on self.now (option_copied meaning.entry) }
    {
        match meaning {
            Some(
                Meaning::Declared {
                    entity: Entity::Instance { .. },
                    callee,
                },
            ) => or_nowhere(self.get(&callee.decl)),
            _ => Held::Nowhere,
        }
    }

    /// How many instances are noted.
    pub fn len(&self) -> usize
        ensures { result ≡ length self.now }
    {
        self.entries.len()
    }

    /// The instance at a place of the order: the module whose text declares its name, where its name
    /// stands among those that the text declares, and where it leads.
    pub fn at(&self, index: usize) -> Option<(&'a str, u32, Held<'a>)>
        ensures { option_map lead result ≡ slice_get self.now index }
    {
        match self.entries.get_index(index) {
            Some((key, held)) => Some((key.0, key.1, *held)),
            None => None,
        }
    }
}
