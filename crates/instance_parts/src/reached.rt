// The instances that what a module exports reaches.
ghost use Rattle.std.specs.Prelude.{◌≡◌, ◌↔◌, ◌<◌, ◌+◌, ◌∷◌, [], ℕ, IfOk, IsTrue, None, OnOk, Some, is_some, length, map, slice_get, true};
ghost use Rattle.std.specs.Arc.{arc_value};
ghost use Rattle.std.specs.Str.{bytes_eq};
ghost use Rattle.tla_model.specs.Entities as entities;
ghost use Rattle.tla_model.specs.Entities.{same_decl};
ghost use Rattle.tla_model.specs.declared.ids.Callee.{Callee as Called};
ghost use Rattle.tla_model.specs.declared.names.Meaning.TheVariants.{Declared};
ghost use Rattle.tla_model.specs.EntityKinds.{is_instance, words_meant};
ghost use Rattle.tla_model.specs.Tables as tables;
ghost use Rattle.module_model.specs.Parts.{AreJoined};
ghost use Rattle.module_model.specs.Exports.{exports_of};
ghost use Rattle.module_model.specs.Given.{AreReached};
ghost use Rattle.name_context.specs.AsTables.{words_of};
ghost use Rattle.instance_leads.specs.declared.ended.Ended.{Ended as AnEnded};
ghost use Rattle.instance_parts.specs.Gathering as gathering;
ghost use Rattle.instance_parts.specs.Gathering.{exported_at};
ghost use Rattle.instance_parts.specs.Gathered.{AreDoneFrom, AreRooted, HasDone, HasGained, HasRoot, HasRoots, IsGathering, IsGrown, StayFrom, told_in};
ghost use Rattle.instance_leads.specs.Keys.{decl_of};
ghost use Rattle.instance_leads.specs.Leading.{IsOfImport, IsThere};
ghost use Rattle.instance_parts.specs.Parts.{AreParts};
ghost use Rattle.instance_scope.specs.Scoped.{IsSound, known_of};

use indexmap::IndexMap;
use instance_scope::Scope;
use module_model::{Face, Part, Parts};
use std::alloc::Global;
use std::sync::Arc;
use tla_model::{Meaning, NameTable, copied_symbols};
use tool_list::Memory;
use tree_tasks::Held;

/// The instances that are gathered: those of the text, and those of other texts; and which nested modules
/// are seen, whose instances are gathered too.
#[derive(Drop)]
pub struct Gathering<'s, 'a> {
    scope: &'s Scope<'a>,
    own: Part,
    parts: Parts,
    // The modules of the imports all whose instances are gathered, so that each is looked at once.
    joined: IndexMap<&'a str, ()>,
    seen: Vec<bool>,
}

// The same table, which shares its words.
fn copied(alloc: Global, table: &NameTable) -> Result<NameTable, Memory>
    ensures { IfOk result (λ copy. copy ≡ table.now) }
{
    // The proof needs that no name of the table is there twice.
    let _len = table.len();
    let symbols = copied_symbols(alloc, table.symbols())?;
    table.extended(alloc, IndexMap::new(alloc), symbols)
}

impl<'s, 'a> Gathering<'s, 'a> {
    // Whether all instances of an import are gathered.
    fn is_joined(&self, face: &Face) -> bool
        requires gathering { IsGathering self.now }
        requires import { IsOfImport self.now.scope.now.imported.now face.now }
        ensures noted { result ≡ is_some (tables.lookup bytes_eq
            (words_of self.now.joined.entries) face.now.«module») }
        ensures told { IsTrue result → gathering.IsTold (told_in self.now) face.now }
    {
        self.joined.contains_key(face.module.as_str())
    }

    // Gathers all instances of an import that are not gathered.
    fn join_new(&mut self, alloc: Global, face: &'a Face) -> Result<(), Memory>
        requires gathering { IsGathering self.old }
        requires import { IsOfImport self.old.scope.now.imported.now face.now }
        requires new { tables.lookup bytes_eq (words_of self.old.joined.entries)
            face.now.«module» ≡ None }
        ensures gathering { OnOk result (IsGathering self.new) }
        ensures grown { OnOk result (IsGrown self.old self.new) }
        ensures seen { OnOk result (self.new.seen.items ≡ self.old.seen.items) }
        ensures told { OnOk result (gathering.IsTold (told_in self.new) face.entry.now) }
    {
        self.parts.join(alloc, &face.parts)?;
        self.joined.insert(face.module.as_str(), ())?;
        Ok(())
    }

    // Gathers all instances of an import.
    fn join(&mut self, alloc: Global, face: &'a Face) -> Result<(), Memory>
        requires gathering { IsGathering self.old }
        requires import { IsOfImport self.old.scope.now.imported.now face.now }
        ensures gathering { OnOk result (IsGathering self.new) }
        ensures grown { OnOk result (IsGrown self.old self.new) }
        ensures seen { OnOk result (self.new.seen.items ≡ self.old.seen.items) }
        ensures told { OnOk result (gathering.IsTold (told_in self.new) face.entry.now) }
    {
        if self.is_joined(face) {
            return Ok(());
        }
        self.join_new(alloc, face)?;
        Ok(())
    }

    // Sees a nested module.
    fn mark(&mut self, number: usize)
        requires gathering { IsGathering self.old }
        requires there { number < length self.old.scope.now.nested.items }
        ensures gathering { IsGathering self.new }
        ensures grown { IsGrown self.old self.new }
        ensures below { (count : ℕ) → number < count → StayFrom count self.old self.new }
        ensures seen { slice_get self.new.seen.items number ≡ Some true }
    {
        if number < self.seen.len() {
            self.seen[number] = true;
        }
    }

    // Gathers what stands behind a place to which an instance leads.
    fn see(&mut self, alloc: Global, held: Held<'a>) -> Result<(), Memory>
        requires gathering { IsGathering self.old }
        requires there { IsThere self.old.scope.now.imported.now
            (length self.old.scope.now.nested.items) held }
        ensures gathering { OnOk result (IsGathering self.new) }
        ensures grown { OnOk result (IsGrown self.old self.new) }
        ensures below { OnOk result ((count : ℕ)
            → IsThere self.old.scope.now.imported.now count held.entry
            → StayFrom count self.old self.new) }
        ensures closed { OnOk result
            (gathering.IsClosed (told_in self.new) self.new.seen.items held.entry) }
    {
        match held {
            Held::Nowhere => Ok(()),
            Held::Imported { face } => {
                self.join(alloc, face)?;
                Ok(())
            }
            Held::Reached { face, .. } => {
                self.join(alloc, face)?;
                Ok(())
            }
            Held::Nested { number } => {
                self.mark(number);
                Ok(())
            }
        }
    }

    // What the module exports of an instance that leads to a place.
    fn table_at(&self, alloc: Global, held: Held<'a>) -> Result<Arc<NameTable>, Memory>
        ensures { IfOk result (λ table. exports_of (arc_value table)
            ≡ exported_at self.now.scope.now.nested.items held.entry) }
    {
        match held {
            Held::Nowhere => Ok(Arc::new(alloc, NameTable::new(alloc))?),
            Held::Imported { face } => Ok(face.exports.clone()?),
            Held::Reached { exports, .. } => Ok(Arc::new(alloc, copied(alloc, exports)?)?),
            Held::Nested { number } => match self.scope.nested.get(number) {
                Some(ended) => Ok(Arc::new(alloc, ended.exports.listed(alloc)?)?),
                None => Ok(Arc::new(alloc, NameTable::new(alloc))?),
            },
        }
    }

    // Gathers an instance of the text, of whose place all is gathered.
    fn put_own(&mut self, alloc: Global, place: u32, held: Held<'a>) -> Result<(), Memory>
        requires gathering { IsGathering self.old }
        requires known { tables.lookup same_decl self.old.scope.now.known
            (decl_of self.old.scope.now.title.now place) ≡ Some held }
        requires closed { gathering.IsClosed (told_in self.old) self.old.seen.items held }
        ensures gathering { OnOk result (IsGathering self.new) }
        ensures grown { OnOk result (IsGrown self.old self.new) }
        ensures seen { OnOk result (self.new.seen.items ≡ self.old.seen.items) }
        ensures told { OnOk result (told_in self.new (decl_of self.old.scope.now.title.now place)
            ≡ Some (exported_at self.old.scope.now.nested.items held.entry)) }
    {
        let table = self.table_at(alloc, held)?;
        self.own.put(place, table)?;
        Ok(())
    }

    // Gathers an instance that is known.
    fn reach(
        &mut self,
        alloc: Global,
        module: &str,
        place: u32,
        held: Held<'a>,
    ) -> Result<(), Memory>
        requires gathering { IsGathering self.old }
        requires known { tables.lookup same_decl self.old.scope.now.known
            (decl_of «module».now place) ≡ Some held }
        ensures gathering { OnOk result (IsGathering self.new) }
        ensures grown { OnOk result (IsGrown self.old self.new) }
        ensures below { OnOk result ((count : ℕ)
            → IsThere self.old.scope.now.imported.now count held.entry
            → StayFrom count self.old self.new) }
        ensures gained { OnOk result (HasGained self.new (decl_of «module».now place) held.entry) }
    {
        self.see(alloc, held)?;
        if module == self.scope.title {
            self.put_own(alloc, place, held)?;
        }
        Ok(())
    }

    // Gathers the instances of a nested module.
    fn reach_nested(&mut self, alloc: Global, number: usize) -> Result<(), Memory>
        requires gathering { IsGathering self.old }
        ensures gathering { OnOk result (IsGathering self.new) }
        ensures grown { OnOk result (IsGrown self.old self.new) }
        ensures below { OnOk result (StayFrom number self.old self.new) }
        ensures done { OnOk result ((ended : AnEnded)
            → slice_get self.old.scope.now.nested.items number ≡ Some ended
            → HasDone self.new ended) }
    {
        let scope = self.scope;
        let Some(ended) = scope.nested.get(number) else {
            return Ok(());
        };
        for index in 0..ended.instances.len() {
            let Some((module, place, _)) = ended.instances.at(index) else {
                unreachable!();
            };
            let Some(held) = ended.instances.find(module, place) else {
                unreachable!();
            };
            self.reach(alloc, module, place, held)?;
        }
        Ok(())
    }

    // Gathers the instance that a name means, if it means one that is known.
    fn reach_meaning(&mut self, alloc: Global, meaning: &Meaning) -> Result<(), Memory>
        requires gathering { IsGathering self.old }
        ensures gathering { OnOk result (IsGathering self.new) }
        ensures grown { OnOk result (IsGrown self.old self.new) }
        ensures root { OnOk result ((entity : entities.Entity) → (callee : Called)
            → meaning.now ≡ Declared entity callee
            → is_some (known_of self.old.scope.now callee.decl) ≡ true
            → HasRoot self.new callee.decl) }
    {
        let Meaning::Declared { callee, .. } = meaning else {
            return Ok(());
        };
        let Some(held) = self.scope.known.get(&callee.decl) else {
            return Ok(());
        };
        self.reach(alloc, callee.decl.module.as_str(), callee.decl.place, held)?;
        Ok(())
    }
    // Gathers the instances that words of a table name.
    fn reach_words(&mut self, alloc: Global, exports: &NameTable) -> Result<(), Memory>
        requires gathering { IsGathering self.old }
        ensures gathering { OnOk result (IsGathering self.new) }
        ensures grown { OnOk result (IsGrown self.old self.new) }
        ensures rooted { OnOk result (AreRooted self.new
            (map (λ word. word.1) (words_meant is_instance exports.now.words))) }
    {
        let words = exports.instances(alloc)?;
        for index in 0..words.len() {
            self.reach_meaning(alloc, words[index].1)?;
        }
        Ok(())
    }

    // Gathers the instances that symbols of a table name.
    fn reach_symbols(&mut self, alloc: Global, exports: &NameTable) -> Result<(), Memory>
        requires gathering { IsGathering self.old }
        ensures gathering { OnOk result (IsGathering self.new) }
        ensures grown { OnOk result (IsGrown self.old self.new) }
        ensures rooted { OnOk result (AreRooted self.new
            (map (λ symbol. symbol.1) exports.now.symbols)) }
    {
        let symbols = exports.symbols();
        for index in 0..symbols.len() {
            self.reach_meaning(alloc, &symbols[index].1)?;
        }
        Ok(())
    }

    // Gathers the instances that a table names.
    fn reach_exported(&mut self, alloc: Global, exports: &NameTable) -> Result<(), Memory>
        requires gathering { IsGathering self.old }
        requires reached { AreReached (known_of self.old.scope.now) (exports_of exports.now) }
        ensures gathering { OnOk result (IsGathering self.new) }
        ensures grown { OnOk result (IsGrown self.old self.new) }
        ensures roots { OnOk result (HasRoots self.new (exports_of exports.now)) }
    {
        self.reach_words(alloc, exports)?;
        self.reach_symbols(alloc, exports)?;
        Ok(())
    }

    // Whether a nested module is seen.
    fn is_seen(&self, number: usize) -> bool
        ensures { IsTrue result ↔ (slice_get self.now.seen.items number ≡ Some true) }
    {
        match self.seen.get(number) {
            Some(seen) => *seen,
            None => false,
        }
    }

    // Gathers the instances of a nested module, if it is seen.
    fn reach_seen(&mut self, alloc: Global, number: usize) -> Result<(), Memory>
        requires gathering { IsGathering self.old }
        requires done { AreDoneFrom (number + 1) self.old }
        ensures gathering { OnOk result (IsGathering self.new) }
        ensures grown { OnOk result (IsGrown self.old self.new) }
        ensures done { OnOk result (AreDoneFrom number self.new) }
    {
        if !self.is_seen(number) {
            return Ok(());
        }
        self.reach_nested(alloc, number)?;
        Ok(())
    }

    // Gathers the instances of all nested modules that are seen. A nested module sees those before it
    // alone, so that each is looked at once.
    fn reach_all(&mut self, alloc: Global) -> Result<(), Memory>
        requires gathering { IsGathering self.old }
        ensures gathering { OnOk result (IsGathering self.new) }
        ensures grown { OnOk result (IsGrown self.old self.new) }
        ensures done { OnOk result (AreDoneFrom 0 self.new) }
    {
        let mut left = self.seen.len();
        while left > 0 {
            left -= 1;
            self.reach_seen(alloc, left)?;
        }
        Ok(())
    }
}

// So many nested modules, none of which is seen.
fn unseen(alloc: Global, count: usize) -> Result<Vec<bool>, Memory>
    ensures count { IfOk result (λ seen. length seen.items ≡ count) }
    ensures none { IfOk result (λ seen. (number : ℕ)
        → slice_get seen.items number ≡ Some true → ⊥) }
{
    let mut seen = Vec::new(alloc);
    for _turn in 0..count {
        seen.push(false)?;
    }
    Ok(seen)
}

// Before anything is gathered.
fn begun<'s, 'a>(alloc: Global, scope: &'s Scope<'a>) -> Result<Gathering<'s, 'a>, Memory>
    requires { IsSound scope.now }
    ensures gathering { IfOk result IsGathering }
    ensures scope { IfOk result (λ begun. begun.scope.now ≡ scope.now) }
{
    let seen = unseen(alloc, scope.nested.len())?;
    Ok(Gathering {
        scope,
        own: Part::new(alloc),
        parts: Parts::new(alloc),
        joined: IndexMap::new(alloc),
        seen,
    })
}

// What was gathered, as parts.
fn parts_of(alloc: Global, gathering: Gathering<'_, '_>) -> Result<Parts, Memory>
    ensures { IfOk result (λ parts. AreJoined parts gathering.entry.parts
        ((gathering.entry.scope.now.title.now, gathering.entry.own) ∷ [])) }
{
    let Gathering {
        scope,
        own,
        parts,
        ..
    } = gathering;
    let mut parts = parts;
    parts.add(alloc, scope.title, own)?;
    Ok(parts)
}

/// The instances that these exports reach, each with what its module exports.
pub fn reached_from(alloc: Global, scope: &Scope<'_>, exports: &NameTable) -> Result<Parts, Memory>
    requires sound { IsSound scope.now }
    requires reached { AreReached (known_of scope.now) (exports_of exports.now) }
    ensures { IfOk result (λ parts. AreParts scope.now (exports_of exports.now) parts) }
{
    let mut gathering = begun(alloc, scope)?;
    gathering.reach_exported(alloc, exports)?;
    gathering.reach_all(alloc)?;
    let parts = parts_of(alloc, gathering)?;
    Ok(parts)
}
