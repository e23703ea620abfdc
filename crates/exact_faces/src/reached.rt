// Which instances of a face its exports reach.
ghost use Rattle.std.specs.Prelude.{◌≡◌, ◌++◌, IfOk, IsTrue, OnOk};
ghost use Rattle.tla_model.specs.declared.ids.DeclId.{DeclId};
ghost use Rattle.module_model.specs.Exports.{exports_of, face_exports, face_instances};
ghost use Rattle.module_model.specs.Given.{AreReached, IsWhole};
ghost use Rattle.exact_faces.specs.Exact.{IsNamed};
ghost use Rattle.exact_faces.specs.Found.{AreAllFound, AreFound, told};
ghost use Rattle.exact_faces.specs.Searching.{CanFind, HasFound, HasGrown, IsFound, IsSearch, OfAll};
ghost use Rattle.exact_faces.specs.Searching.{OfDecl, instances_among, of_symbols, of_words, shown};

use crate::found::Found;
use module_model::Face;
use std::alloc::Global;
use tla_model::{Meaning, NameTable};
use tla_symbols::Op;
use tool_list::Memory;

/// A search for the instances of a face that its exports reach. Each is looked through once, in the
/// order in which they are found.
pub struct Search<'f> {
    face: &'f Face,
    found: Found<'f>,
}

// By hand, so that a proof meets one call wherever a value ends.
impl<'f> Drop for Search<'f> {
    fn drop(self) {
        let Search { face: _, found: _ } = self;
    }
}

// Adds what the instances among symbols mean.
fn push_symbols<'f>(
    found: &mut Vec<&'f Meaning>,
    symbols: &'f [(Op, Meaning)],
) -> Result<(), Memory>
    ensures { OnOk result (shown found.new.items
        ≡ shown found.old.items ++ of_symbols symbols.entry.now) }
{
    for index in 0..symbols.len() {
        if symbols[index].1.is_instance() {
            found.push(&symbols[index].1)?;
        }
    }
    Ok(())
}

// What the instances among words mean.
fn words_in<'f>(alloc: Global, table: &'f NameTable) -> Result<Vec<&'f Meaning>, Memory>
    ensures { IfOk result (λ found. shown found.items ≡ of_words table.entry.now.words) }
{
    let words = table.instances(alloc)?;
    let mut found = Vec::new(alloc);
    for index in 0..words.len() {
        found.push(words[index].1)?;
    }
    Ok(found)
}

// What the instances among the names of a table mean.
fn instances_in<'f>(alloc: Global, table: &'f NameTable) -> Result<Vec<&'f Meaning>, Memory>
    ensures { IfOk result (λ found. shown found.items
        ≡ instances_among (exports_of table.entry.now)) }
{
    let mut found = words_in(alloc, table)?;
    push_symbols(&mut found, table.symbols())?;
    Ok(found)
}

// Whether an instance is found, if one is meant.
fn is_found(found: &Found<'_>, meaning: &Meaning) -> bool
    ensures { IsTrue result → OfDecl (IsFound found.now) meaning.now }
{
    match meaning {
        Meaning::BuiltIn => true,
        Meaning::Declared { callee, .. } => {
            found
                .get(callee.decl.module.as_str(), callee.decl.place)
                .is_some()
        }
    }
}

// Whether all instances are found that are meant.
fn are_found(found: &Found<'_>, meanings: &[&Meaning]) -> bool
    ensures { IsTrue result → OfAll (IsFound found.now) (shown meanings.now) }
{
    for index in 0..meanings.len() {
        if !is_found(found, meanings[index]) {
            return false;
        }
    }
    true
}

impl<'f> Search<'f> {
    // Finds the instance that is meant, if it is one of the face.
    fn find(&mut self, meaning: &'f Meaning) -> Result<(), Memory>
        requires search { IsSearch self.old }
        requires reached { OfDecl (CanFind self.old) meaning.now }
        ensures search { OnOk result (IsSearch self.new) }
        ensures grown { OnOk result (HasGrown self.old self.new) }
        ensures there { OnOk result (OfDecl (HasFound self.new) meaning.entry.now) }
    {
        let Meaning::Declared { callee, .. } = meaning else {
            return Ok(());
        };
        let face = self.face;
        let Some(table) = face.parts.get(&callee.decl) else {
            return Ok(());
        };
        // The proof needs that no name of the table is there twice.
        let _len = table.len();
        self.found.put(&callee.decl, table)?;
        Ok(())
    }

    // Finds all instances that are meant and are of the face.
    fn find_all(&mut self, meanings: &[&'f Meaning]) -> Result<(), Memory>
        requires search { IsSearch self.old }
        requires reached { OfAll (CanFind self.old) (shown meanings.now) }
        ensures search { OnOk result (IsSearch self.new) }
        ensures grown { OnOk result (HasGrown self.old self.new) }
        ensures there { OnOk result (OfAll (HasFound self.new) (shown meanings.now)) }
    {
        for index in 0..meanings.len() {
            self.find(meanings[index])?;
        }
        Ok(())
    }

    // Finds the instances that a table names, which are reached.
    fn find_named(&mut self, alloc: Global, table: &'f NameTable) -> Result<(), Memory>
        requires search { IsSearch self.old }
        requires inside { AreReached (face_instances self.old.face.now) (exports_of table.now) }
        requires reached { (decl : DeclId) → IsNamed (exports_of table.now) decl
            → CanFind self.old decl }
        ensures search { OnOk result (IsSearch self.new) }
        ensures grown { OnOk result (HasGrown self.old self.new) }
        ensures named { OnOk result (AreReached (told self.new.found)
            (exports_of table.entry.now)) }
    {
        // The proof needs that no name of the table is there twice.
        let _len = table.len();
        let meanings = instances_in(alloc, table)?;
        self.find_all(meanings.as_slice())?;
        Ok(())
    }

    // Looks through each instance that is found, and finds those that it names.
    fn run(&mut self, alloc: Global) -> Result<(), Memory>
        requires search { IsSearch self.old }
        requires whole { IsWhole self.old.face.now }
        requires exports { AreReached (told self.old.found) (face_exports self.old.face.now) }
        ensures search { OnOk result (IsSearch self.new) }
        ensures grown { OnOk result (HasGrown self.old self.new) }
        ensures all { OnOk result (AreAllFound self.old.face.now (told self.new.found)) }
    {
        let mut next = 0;
        while next < self.found.len() {
            let Some(table) = self.found.at(next) else {
                unreachable!();
            };
            self.find_named(alloc, table)?;
            next += 1;
        }
        Ok(())
    }

    // Looks through those that the module's own text declares, and finds those that they name.
    fn run_own(&mut self, alloc: Global) -> Result<(), Memory>
        requires search { IsSearch self.old }
        requires whole { IsWhole self.old.face.now }
        ensures search { OnOk result (IsSearch self.new) }
        ensures grown { OnOk result (HasGrown self.old self.new) }
    {
        let face = self.face;
        let mut next = 0;
        while next < self.found.len() {
            if let Some(table) = self.found.at_text(next, face.module.as_str()) {
                self.find_named(alloc, table)?;
            }
            next += 1;
        }
        Ok(())
    }

    // What is found.
    fn into_found(self) -> Found<'f>
        ensures { result ≡ self.entry.found }
    {
        let Search { face: _, found } = self;
        found
    }
}

/// The instances of a face that its exports reach.
pub fn reached<'f>(alloc: Global, face: &'f Face) -> Result<Found<'f>, Memory>
    requires whole { IsWhole face.now }
    ensures found { IfOk result (λ found. AreFound face.entry.now (told found)) }
    ensures all { IfOk result (λ found. AreAllFound face.entry.now (told found)) }
{
    let mut search = Search {
        face,
        found: Found::new(alloc),
    };
    search.find_named(alloc, &face.exports)?;
    search.run(alloc)?;
    Ok(search.into_found())
}

/// Those instances of a face that its exports reach through its own text: which they name, or an
/// instance that the text declares and that is found so. No instance of an import is looked through.
pub fn reached_by_text<'f>(alloc: Global, face: &'f Face) -> Result<Found<'f>, Memory>
    requires whole { IsWhole face.now }
    ensures found { IfOk result (λ found. AreFound face.entry.now (told found)) }
{
    let mut search = Search {
        face,
        found: Found::new(alloc),
    };
    search.find_named(alloc, &face.exports)?;
    search.run_own(alloc)?;
    Ok(search.into_found())
}

/// Whether all instances are found that the names of a table mean.
pub fn names_found(alloc: Global, found: &Found<'_>, table: &NameTable) -> Result<bool, Memory>
    ensures { IfOk result (λ are. IsTrue are → AreReached (told found.now) (exports_of table.now)) }
{
    // The proof needs that no name of the table is there twice.
    let _len = table.len();
    let meanings = instances_in(alloc, table)?;
    Ok(are_found(found, meanings.as_slice()))
}
