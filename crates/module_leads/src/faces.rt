// What modules are to those that name them, in a table.
ghost use Rattle.std.specs.Prelude.{◌≡◌, ◌≤◌, IfOk, MatchOption, None, OnOk, Some, if◌then◌else◌, length, option_map, slice_get};
ghost use Rattle.std.specs.Option.{option_copied, option_or};
ghost use Rattle.name_context.specs.AsTables.{meant_by};
ghost use Rattle.tla_model.specs.Tables as tables;
ghost use Rattle.tree_names.specs.Parameters.{entries_in};
ghost use Rattle.flattened_units.specs.Units.{no_face};
ghost use Rattle.module_leads.specs.Alike.{listed_words, names_in, symbols_in, symbols_of, words_in, words_of};
ghost use Rattle.module_leads.specs.Faces.{IsFaceBefore, faces_of, first_faces, table_way, way_among, way_of};
ghost use Rattle.module_leads.specs.Ways.{face_at, found_way};

use crate::layer::{Layer, Sought};
use crate::ways::{FoundWay, Way, copied_name};
use indexmap::IndexMap;
use name_context::{Named, symbol_in};
use std::alloc::Global;
use tla_model::{Meaning, NameTable};
use tla_symbols::Op;
use tool_list::{List, Memory};
use tree_names::Parameter;

/// Names with where they lead, one by one.
pub struct ListedNames {
    pub words: IndexMap<String, Way>,
    // There are few symbols, so they are looked through.
    pub symbols: Vec<(Op, Way)>,
}

// By hand, so that a proof meets one call wherever a value ends.
impl Drop for ListedNames {
    fn drop(self) {
        let ListedNames {
            words: _,
            symbols: _,
        } = self;
    }
}

/// The names that a module exports by a table. They lead where their meanings did behind its units.
pub struct TableNames {
    pub exports: NameTable,
    pub layer: Layer,
}

// By hand, so that a proof meets one call wherever a value ends.
impl Drop for TableNames {
    fn drop(self) {
        let TableNames {
            exports: _,
            layer: _,
        } = self;
    }
}

/// The names of a module, with where they lead.
pub enum FaceNames {
    Listed(ListedNames),
    Table(TableNames),
}

// By hand, so that a proof meets one call wherever a value ends.
impl Drop for FaceNames {
    fn drop(self) {
        match self {
            FaceNames::Listed(_) | FaceNames::Table(_) => {}
        }
    }
}

/// Which names of a module.
#[derive(Clone, Copy)]
pub enum Sort {
    Words,
    Symbols,
}

/// What a module is to those that name it.
pub struct ModuleFace {
    /// Its symbols, with their names.
    pub parameters: List<Parameter>,
    /// How many symbols of modules round it come before these.
    pub outer: usize,
    pub is_constant: bool,
    pub names: FaceNames,
}

// By hand, so that a proof meets one call wherever a value ends.
impl Drop for ModuleFace {
    fn drop(self) {
        let ModuleFace {
            parameters: _,
            outer: _,
            is_constant: _,
            names: _,
        } = self;
    }
}

impl ListedNames {
    /// No names.
    pub(crate) fn new(alloc: Global) -> ListedNames
        ensures { (name : tables.Named) → way_among result name ≡ None }
    {
        ListedNames {
            words: IndexMap::new(alloc),
            symbols: Vec::new(alloc),
        }
    }

    // The way of a name, as it was put.
    fn put_way(&self, name: Named<'_>) -> Option<&Way>
        ensures { option_copied result ≡ way_among self.now (meant_by name.entry) }
    {
        match name {
            Named::Word(word) => self.words.get(word),
            Named::Symbol(op) => symbol_in(self.symbols.as_slice(), op),
        }
    }

    // Where a name leads.
    fn way(&self, name: Named<'_>) -> Option<FoundWay<'_>>
        ensures { option_map found_way result ≡ way_among self.now (meant_by name.entry) }
    {
        let way = self.put_way(name)?;
        Some(FoundWay::Put(way))
    }

    // The word at an index.
    fn word_at(&self, index: usize) -> Option<Named<'_>>
        ensures { option_map meant_by result ≡ slice_get (listed_words self.now) index }
    {
        let (word, _) = self.words.get_index(index)?;
        Some(Named::Word(word.as_str()))
    }

    // The symbol at an index.
    fn symbol_at(&self, index: usize) -> Option<Named<'_>>
        ensures { option_map meant_by result ≡ slice_get (symbols_of self.now.symbols.items) index }
    {
        symbol_named(self.symbols.as_slice(), index)
    }

    /// Puts a name with where it leads. One that is there stays as it is.
    pub(crate) fn put(&mut self, alloc: Global, name: Named<'_>, way: Way) -> Result<(), Memory>
        ensures { OnOk result ((other : tables.Named) → way_among self.new other
            ≡ option_or (way_among self.old other)
            (if tables.same_named other (meant_by name.entry) then Some way else None)) }
    {
        match name {
            Named::Word(word) => self.put_word(alloc, word, way),
            Named::Symbol(op) => self.put_symbol(op, way),
        }
    }

    fn put_word(&mut self, alloc: Global, word: &str, way: Way) -> Result<(), Memory>
        ensures { OnOk result ((other : tables.Named) → way_among self.new other
            ≡ option_or (way_among self.old other)
            (if tables.same_named other (tables.Word word.now) then Some way else None)) }
    {
        if self.words.contains_key(word) {
            return Ok(());
        }
        let word = String::from_str(alloc, word)?;
        self.words.insert(word, way)?;
        Ok(())
    }

    fn put_symbol(&mut self, op: Op, way: Way) -> Result<(), Memory>
        ensures { OnOk result ((other : tables.Named) → way_among self.new other
            ≡ option_or (way_among self.old other)
            (if tables.same_named other (tables.Symbol op) then Some way else None)) }
    {
        if symbol_in(self.symbols.as_slice(), op).is_some() {
            return Ok(());
        }
        self.symbols.push((op, way))?;
        Ok(())
    }
}

// The symbol at an index, as a name.
fn symbol_named<V>(symbols: &[(Op, V)], index: usize) -> Option<Named<'_>>
    ensures { option_map meant_by result ≡ slice_get (symbols_of symbols.now) index }
{
    let (op, _) = symbols.get(index)?;
    Some(Named::Symbol(*op))
}

// What a name means in a table.
fn meaning_in<'b>(table: &'b NameTable, name: Named<'_>) -> Option<&'b Meaning>
    ensures { option_copied result ≡ tables.find table.now (meant_by name.entry) }
{
    match name {
        Named::Word(word) => table.word_among(table.len(), word),
        Named::Symbol(op) => symbol_in(table.symbols(), op),
    }
}

impl TableNames {
    // Where a name leads.
    fn way(&self, name: Named<'_>) -> Result<Option<FoundWay<'_>>, Memory>
        ensures { IfOk result (λ way. option_map found_way way
            ≡ table_way self.now (meant_by name.entry)) }
    {
        let Some(meaning) = meaning_in(&self.exports, name) else {
            return Ok(None);
        };
        let sought = Sought::new(meaning)?;
        Ok(Some(self.layer.way_alone(&sought)))
    }

    // The word at an index.
    fn word_at(&self, index: usize) -> Option<Named<'_>>
        ensures { option_map meant_by result ≡ slice_get (words_of self.now.exports.words) index }
    {
        let (word, _) = self.exports.word_at(index)?;
        Some(Named::Word(word))
    }

    // The symbol at an index.
    fn symbol_at(&self, index: usize) -> Option<Named<'_>>
        ensures { option_map meant_by result ≡ slice_get (symbols_of self.now.exports.symbols) index }
    {
        symbol_named(self.exports.symbols(), index)
    }
}

impl ModuleFace {
    // How many words the module has.
    fn word_count(&self) -> usize
        ensures { result ≡ length (words_in self.now.names) }
    {
        match &self.names {
            FaceNames::Listed(names) => names.words.len(),
            FaceNames::Table(names) => names.exports.len(),
        }
    }

    // How many symbols it has.
    fn symbol_count(&self) -> usize
        ensures { result ≡ length (symbols_in self.now.names) }
    {
        match &self.names {
            FaceNames::Listed(names) => names.symbols.len(),
            FaceNames::Table(names) => names.exports.symbols().len(),
        }
    }

    // The word at an index.
    fn word_at(&self, index: usize) -> Option<Named<'_>>
        ensures { option_map meant_by result ≡ slice_get (words_in self.now.names) index }
    {
        match &self.names {
            FaceNames::Listed(names) => names.word_at(index),
            FaceNames::Table(names) => names.word_at(index),
        }
    }

    // The symbol at an index.
    fn symbol_at(&self, index: usize) -> Option<Named<'_>>
        ensures { option_map meant_by result ≡ slice_get (symbols_in self.now.names) index }
    {
        match &self.names {
            FaceNames::Listed(names) => names.symbol_at(index),
            FaceNames::Table(names) => names.symbol_at(index),
        }
    }

    /// How many names of a sort it has.
    pub(crate) fn name_count(&self, sort: Sort) -> usize
        ensures { result ≡ length (names_in sort self.now.names) }
    {
        match sort {
            Sort::Words => self.word_count(),
            Sort::Symbols => self.symbol_count(),
        }
    }

    /// The name of a sort at an index.
    pub(crate) fn name_at(&self, sort: Sort, index: usize) -> Option<Named<'_>>
        ensures { option_map meant_by result ≡ slice_get (names_in sort self.now.names) index }
    {
        match sort {
            Sort::Words => self.word_at(index),
            Sort::Symbols => self.symbol_at(index),
        }
    }

    /// Where a name leads that the module has.
    pub(crate) fn way(&self, name: Named<'_>) -> Result<Option<FoundWay<'_>>, Memory>
        ensures { IfOk result (λ way. option_map found_way way
            ≡ way_of self.now (meant_by name.entry)) }
    {
        match &self.names {
            FaceNames::Listed(names) => Ok(names.way(name)),
            FaceNames::Table(names) => names.way(name),
        }
    }
}

// The face with a number among the first so many.
pub(crate) fn face_before(
    faces: &[ModuleFace],
    limit: usize,
    face: Option<usize>,
) -> Option<(usize, &ModuleFace)>
    requires { limit ≤ length faces.now }
    ensures { MatchOption result (face_at (first_faces faces.now limit) face ≡ no_face)
        (λ found. IsFaceBefore faces.now limit face found.0 found.1.now) }
{
    let number = face?;
    if number >= limit {
        return None;
    }
    Some((number, &faces[number]))
}

// The same entries, which share what they name.
fn copied_parameters(alloc: Global, parameters: &[Parameter]) -> Result<List<Parameter>, Memory>
    ensures { IfOk result (λ copies. copies ≡ parameters.now) }
{
    let mut copies = List::new(alloc);
    for parameter in parameters {
        copies.push(Parameter {
            name: copied_name(&parameter.name)?,
            meaning: parameter.meaning.copied()?,
        })?;
    }
    Ok(copies)
}

/// The symbols of a module that INSTANCE replaces, in their order.
pub(crate) fn face_parameters(
    alloc: Global,
    faces: &[ModuleFace],
    face: Option<usize>,
) -> Result<List<Parameter>, Memory>
    ensures { IfOk result (λ parameters. entries_in parameters
        ≡ (face_at (faces_of faces.now) face).parameters) }
{
    match face_before(faces, faces.len(), face) {
        Some((_, face)) => copied_parameters(alloc, face.parameters.as_slice()),
        None => Ok(List::new(alloc)),
    }
}

/// How many symbols of modules round a module come before its own.
pub(crate) fn face_outer(faces: &[ModuleFace], face: Option<usize>) -> usize
    ensures { result ≡ (face_at (faces_of faces.now) face).outer }
{
    match face_before(faces, faces.len(), face) {
        Some((_, face)) => face.outer,
        None => 0,
    }
}

/// Whether a module is constant, as one is that is not there.
pub(crate) fn face_is_constant(faces: &[ModuleFace], face: Option<usize>) -> bool
    ensures { result ≡ (face_at (faces_of faces.now) face).is_constant }
{
    match face_before(faces, faces.len(), face) {
        Some((_, face)) => face.is_constant,
        None => true,
    }
}
