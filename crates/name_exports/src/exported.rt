// The names that a module exports so far.
ghost use Rattle.std.specs.Prelude.{◌≡◌, ◌++◌, ◌∷◌, ◌≤◌, [], None, Some, false, IfOk, IsTrue, OnOk, if◌then◌else◌, is_some, length, map, slice_get};
ghost use Rattle.std.specs.Option.{option_copied};
ghost use Rattle.std.specs.Str.{bytes_eq};
ghost use Rattle.tla_model.specs.EntityKinds.{is_instance as names_instance, stands_for_parameter, words_meant};
ghost use Rattle.tla_model.specs.Stretches.{shown, words_of as stretch_words};
ghost use Rattle.tla_model.specs.Tables as tables;
ghost use Rattle.tla_model.specs.Tables.{AreNew, same_symbol};
ghost use Rattle.name_context.specs.AsTables.{meant_by, taken_words, words_of};

use crate::same::equal_entries;
use indexmap::IndexMap;
use name_context::{Named, symbol_in};
use std::alloc::Global;
use std::marker::Model;
use tla_model::{Meaning, NameTable, Words, copied_symbols};
use tla_symbols::Op;
use tool_list::{List, Memory};

/// The names that a module exports so far, each once, with what they mean outside it. The words of a
/// module that it extends may stand before its own as they were taken over.
pub struct Exported<'a> {
    taken: Option<&'a NameTable>,
    words: IndexMap<&'a str, Meaning>,
    // There are few symbols, so they are looked through.
    symbols: Vec<(Op, Meaning)>,
}

// By hand, so that a proof meets one call wherever a value ends.
impl<'a> Drop for Exported<'a> {
    fn drop(self) {
        let Exported {
            taken: _,
            words: _,
            symbols: _,
        } = self;
    }
}

impl<'a> Model for Exported<'a> {
    ghost use Rattle.std.specs.Prelude.{◌++◌, []};
    ghost use Rattle.std.specs.Str.{bytes_eq};
    ghost use Rattle.tla_model.specs.Entities.{Meaning};
    ghost use Rattle.tla_model.specs.Tables.{AreNew, Table, same_symbol};
    ghost use Rattle.name_context.specs.AsTables.{taken_words, words_of};

    ghost Value = { Table Meaning };

    ghost view = { λ t. record {
      words = taken_words t.taken ++ words_of t.words.entries;
      symbols = t.symbols.items;
    } };

    ghost invariant = { λ t. AreNew bytes_eq [] (taken_words t.taken ++ words_of t.words.entries)
        × AreNew same_symbol [] t.symbols.items };
}

// Whether a word was taken over.
fn is_taken(taken: Option<&NameTable>, word: &str) -> bool
    ensures { result ≡ is_some (tables.lookup bytes_eq (taken_words taken.entry) word.now) }
{
    match taken {
        Some(table) => table.word_among(table.len(), word).is_some(),
        None => false,
    }
}

// What stands under a word among those that were taken over.
fn taken_word<'b>(taken: Option<&'b NameTable>, word: &str) -> Option<&'b Meaning>
    ensures { option_copied result ≡ tables.lookup bytes_eq (taken_words taken.entry) word.now }
{
    match taken {
        Some(table) => table.word_among(table.len(), word),
        None => None,
    }
}

// How many words were taken over.
fn taken_len(taken: Option<&NameTable>) -> usize
    ensures { result ≡ length (taken_words taken.entry) }
{
    match taken {
        Some(table) => table.len(),
        None => 0,
    }
}

// Whether a word stands at a place of those that were taken over, and means this there.
fn is_taken_at(taken: Option<&NameTable>, index: usize, given: (&str, &Meaning)) -> bool
    ensures { IsTrue result → slice_get (taken_words taken.entry) index ≡ Some (shown given.entry) }
{
    let Some(table) = taken else {
        return false;
    };
    match table.word_at(index) {
        Some(found) => equal_entries(found, given),
        None => false,
    }
}

// Whether a word is there: one that was taken over, or one behind these.
fn has_word(taken: Option<&NameTable>, words: &IndexMap<&str, Meaning>, word: &str) -> bool
    ensures { result
        ≡ is_some
        (tables.lookup bytes_eq (taken_words taken.entry ++ words_of words.now.entries) word.now) }
{
    is_taken(taken, word) || words.contains_key(word)
}

// Whether a word stands at a place of these, and means this there.
fn is_own_at(words: &IndexMap<&str, Meaning>, index: usize, given: (&str, &Meaning)) -> bool
    ensures { IsTrue result
        → slice_get (words_of words.now.entries) index ≡ Some (shown given.entry) }
{
    match words.get_index(index) {
        Some((word, meaning)) => equal_entries((*word, meaning), given),
        None => false,
    }
}

// The parameters among the words that were taken over.
fn taken_parameters<'b, 'a: 'b>(
    alloc: Global,
    taken: Option<&'a NameTable>,
) -> Result<Vec<(&'a str, &'b Meaning)>, Memory>
    ensures { IfOk result (λ found. map shown found.items
        ≡ words_meant stands_for_parameter (taken_words taken.entry)) }
{
    match taken {
        Some(table) => table.parameters(alloc),
        None => Ok(Vec::new(alloc)),
    }
}

// The instances among the words that were taken over.
fn taken_instances<'b, 'a: 'b>(
    alloc: Global,
    taken: Option<&'a NameTable>,
) -> Result<Vec<(&'a str, &'b Meaning)>, Memory>
    ensures { IfOk result (λ found. map shown found.items
        ≡ words_meant names_instance (taken_words taken.entry)) }
{
    match taken {
        Some(table) => table.instances(alloc),
        None => Ok(Vec::new(alloc)),
    }
}

// Appends a word, if it is to be kept.
fn push_kept<'b, 'a: 'b>(
    found: &mut Vec<(&'a str, &'b Meaning)>,
    kept: bool,
    word: &'a str,
    meaning: &'b Meaning,
) -> Result<(), Memory>
    ensures { OnOk result (map shown found.new.items ≡ map shown found.old.items
        ++ (if kept then (word.now, meaning.now) ∷ [] else [])) }
{
    if !kept {
        return Ok(());
    }
    found.push((word, meaning))?;
    Ok(())
}

// Appends the parameters among these words.
fn push_parameters<'b, 'a: 'b>(
    found: &mut Vec<(&'a str, &'b Meaning)>,
    words: &'b IndexMap<&'a str, Meaning>,
) -> Result<(), Memory>
    ensures { OnOk result (map shown found.new.items ≡ map shown found.old.items
        ++ words_meant stands_for_parameter (words_of words.now.entries)) }
{
    for index in 0..words.len() {
        let Some((word, meaning)) = words.get_index(index) else {
            unreachable!();
        };
        push_kept(found, meaning.is_parameter(), *word, meaning)?;
    }
    Ok(())
}

// Appends the instances among these words.
fn push_instances<'b, 'a: 'b>(
    found: &mut Vec<(&'a str, &'b Meaning)>,
    words: &'b IndexMap<&'a str, Meaning>,
) -> Result<(), Memory>
    ensures { OnOk result (map shown found.new.items ≡ map shown found.old.items
        ++ words_meant names_instance (words_of words.now.entries)) }
{
    for index in 0..words.len() {
        let Some((word, meaning)) = words.get_index(index) else {
            unreachable!();
        };
        push_kept(found, meaning.is_instance(), *word, meaning)?;
    }
    Ok(())
}

// Puts a word that is not there behind the others, with a spelling of its own.
fn put_copy(alloc: Global, copies: &mut Words, word: &str, meaning: &Meaning) -> Result<(), Memory>
    requires { tables.lookup bytes_eq (stretch_words copies.old.entries) word.now ≡ None }
    ensures { OnOk result (stretch_words copies.new.entries ≡ stretch_words copies.old.entries
        ++ (word.now, meaning.now) ∷ []) }
{
    let word = String::from_str(alloc, word)?;
    let meaning = meaning.copied()?;
    copies.insert(word, meaning)?;
    Ok(())
}

// The same words, with spellings of their own.
fn owned(alloc: Global, words: &IndexMap<&str, Meaning>) -> Result<Words, Memory>
    requires { tables.AreNew bytes_eq [] (words_of words.now.entries) }
    ensures { IfOk result (λ copies. stretch_words copies.entries ≡ words_of words.now.entries) }
{
    let mut copies = IndexMap::new(alloc);
    for index in 0..words.len() {
        let Some((word, meaning)) = words.get_index(index) else {
            unreachable!();
        };
        put_copy(alloc, &mut copies, *word, meaning)?;
    }
    Ok(copies)
}

impl<'a> Exported<'a> {
    /// No names.
    pub fn new(alloc: Global) -> Exported<'a>
        ensures { result ≡ tables.empty }
    {
        Exported {
            taken: None,
            words: IndexMap::new(alloc),
            symbols: Vec::new(alloc),
        }
    }

    /// Puts a name behind the others, unless it is there.
    pub fn put(&mut self, name: Named<'a>, meaning: Meaning) -> Result<(), Memory>
        ensures { OnOk result (self.new ≡ tables.put self.old (meant_by name.entry) meaning) }
    {
        match name {
            Named::Word(word) => self.put_word(word, meaning),
            Named::Symbol(op) => self.put_symbol(op, meaning),
        }
    }

    fn put_word(&mut self, word: &'a str, meaning: Meaning) -> Result<(), Memory>
        ensures { OnOk result (self.new
            ≡ tables.put self.old (tables.Word word.entry.now) meaning) }
    {
        if has_word(self.taken, &self.words, word) {
            return Ok(());
        }
        self.words.insert(word, meaning)?;
        Ok(())
    }

    fn put_symbol(&mut self, op: Op, meaning: Meaning) -> Result<(), Memory>
        ensures { OnOk result (self.new ≡ tables.put self.old (tables.Symbol op) meaning) }
    {
        if symbol_in(self.symbols.as_slice(), op).is_some() {
            return Ok(());
        }
        self.symbols.push((op, meaning))?;
        Ok(())
    }

    // What stands under a word.
    fn word(&self, word: &str) -> Option<&Meaning>
        ensures { option_copied result ≡ tables.lookup bytes_eq self.now.words word.now }
    {
        if let Some(meaning) = taken_word(self.taken, word) {
            return Some(meaning);
        }
        self.words.get(word)
    }

    /// What a name means, if it is there; no word is there twice.
    pub fn get(&self, name: Named<'_>) -> Option<&Meaning>
        ensures meaning { option_copied result ≡ tables.find self.now (meant_by name.entry) }
        ensures once { AreNew bytes_eq [] self.now.words }
    {
        match name {
            Named::Word(word) => self.word(word),
            Named::Symbol(op) => symbol_in(self.symbols.as_slice(), op),
        }
    }

    /// The words that stand for parameters: constants and variables, in order. `Memory` comes where
    /// there was no room.
    pub fn parameters(&self, alloc: Global) -> Result<Vec<(&'a str, &Meaning)>, Memory>
        ensures { IfOk result (λ found. map shown found.items
            ≡ words_meant stands_for_parameter self.now.words) }
    {
        let mut found = taken_parameters(alloc, self.taken)?;
        push_parameters(&mut found, &self.words)?;
        Ok(found)
    }

    /// The words that name instances, in order. `Memory` comes where there was no room.
    pub fn instances(&self, alloc: Global) -> Result<Vec<(&'a str, &Meaning)>, Memory>
        ensures { IfOk result (λ found. map shown found.items
            ≡ words_meant names_instance self.now.words) }
    {
        let mut found = taken_instances(alloc, self.taken)?;
        push_instances(&mut found, &self.words)?;
        Ok(found)
    }

    /// Whether there is no word.
    pub fn has_no_word(&self) -> bool
        ensures { IsTrue result → self.now.words ≡ [] }
    {
        self.taken.is_none() && self.words.is_empty()
    }

    /// Whether a word stands at a place, and means this there.
    pub fn has_at(&self, index: usize, given: (&str, &Meaning)) -> bool
        ensures { IsTrue result → slice_get self.now.words index ≡ Some (shown given.entry) }
    {
        let len = taken_len(self.taken);
        if index < len {
            is_taken_at(self.taken, index, given)
        } else {
            is_own_at(&self.words, index - len, given)
        }
    }

    /// Whether there are no more words than so many.
    pub fn has_at_most(&self, count: usize) -> bool
        ensures { IsTrue result → length self.now.words ≤ count }
    {
        let len = taken_len(self.taken);
        len <= count && self.words.len() <= count - len
    }

    /// Takes over the words of a table, in place of those that are there.
    pub fn take(&mut self, table: &'a NameTable)
        ensures { self.new ≡ record { words = table.now.words; symbols = self.old.symbols } }
    {
        // The proof needs that no word of the table is there twice.
        let _len = table.len();
        self.words.truncate(0);
        self.taken = Some(table);
    }

    /// The table whose words were taken over, and the words behind these.
    pub fn words(&self) -> (Option<&'a NameTable>, &IndexMap<&'a str, Meaning>)
        ensures { taken_words result.0 ++ words_of result.1.now.entries ≡ self.now.words }
    {
        (self.taken, &self.words)
    }

    /// The symbols; no word and no symbol is there twice.
    pub fn symbols(&self) -> &[(Op, Meaning)]
        ensures symbols { result.now ≡ self.now.symbols }
        ensures once { AreNew same_symbol [] self.now.symbols }
        ensures words_once { AreNew bytes_eq [] self.now.words }
    {
        self.symbols.as_slice()
    }

    /// The same names as a table of their own, which shares the words that were taken over. `Memory`
    /// comes where there was no room.
    pub fn listed(&self, alloc: Global) -> Result<NameTable, Memory>
        ensures { IfOk result (λ table. table ≡ self.now) }
    {
        let words = owned(alloc, &self.words)?;
        let symbols = copied_symbols(alloc, self.symbols.as_slice())?;
        match self.taken {
            Some(table) => table.extended(alloc, words, symbols),
            None => NameTable::new(alloc).extended(alloc, words, symbols),
        }
    }
}
