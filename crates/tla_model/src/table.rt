// Names with what they mean, in stretches that tables share.
ghost use Rattle.std.specs.Prelude.{◌≡◌, ◌++◌, ◌∷◌, [], length, option_copied, option_map, map, slice_get, take, IfOk, IfNone, IfSome, OnOk};
ghost use Rattle.std.specs.Str.{bytes_eq};
ghost use Rattle.tla_model.specs.Tables as tables;
ghost use Rattle.tla_model.specs.Tables.{AreNew, same_symbol};
ghost use Rattle.tla_model.specs.Stretches.{all_words, shown, words_of};
ghost use Rattle.tla_model.specs.EntityKinds.{is_instance, stands_for_parameter, words_meant};
ghost use Rattle.tla_model.specs.Meant.{word_meaning};

use crate::names::Meaning;
use crate::stretch::{Stretch, Words, entry_at};
use indexmap::IndexMap;
use std::alloc::Global;
use std::marker::Model;
use std::sync::Arc;
use tla_symbols::Op;
use tool_list::{List, Memory};

/// Names with what they mean, each once. Contracts see the table, by the order in which the
/// names were put.
///
/// The words stand in stretches that tables share, each of them at least twice as long as the next.
/// So along a chain of tables, each with some words behind those of the one before, a word is copied
/// few times, and it is looked up in few stretches.
pub struct NameTable {
    stretches: List<Arc<Stretch>>,
    // How many words there are.
    len: usize,
    // There are few symbols, so they are copied.
    symbols: List<(Op, Meaning)>,
}

// By hand, so that a proof meets one call wherever a value ends.
impl Drop for NameTable {
    fn drop(self) {
        let NameTable {
            stretches: _,
            len: _,
            symbols: _,
        } = self;
    }
}

impl Model for NameTable {
    ghost use Rattle.std.specs.Prelude.{◌≡◌, [], length};
    ghost use Rattle.std.specs.Str.{bytes_eq};
    ghost use Rattle.tla_model.specs.Entities.{Meaning};
    ghost use Rattle.tla_model.specs.Stretches.{all_words};
    ghost use Rattle.tla_model.specs.Tables.{AreNew, Table, same_symbol};

    ghost Value = { Table Meaning };

    ghost view = { λ t. record { words = all_words t.stretches; symbols = t.symbols } };

    ghost invariant = { λ t. AreNew bytes_eq [] (all_words t.stretches)
        × (t.len ≡ length (all_words t.stretches)) × AreNew same_symbol [] t.symbols };
}

/// The same symbols. `Memory` comes where there was no room.
pub fn copied_symbols(
    alloc: Global,
    symbols: &[(Op, Meaning)],
) -> Result<List<(Op, Meaning)>, Memory>
    ensures { IfOk result (λ copies. copies ≡ symbols.now) }
{
    let mut copies = List::new(alloc);
    for (op, meaning) in symbols {
        copies.push((*op, meaning.copied()?))?;
    }
    Ok(copies)
}

// The same stretches.
fn shared(alloc: Global, stretches: &[Arc<Stretch>]) -> Result<Vec<Arc<Stretch>>, Memory>
    ensures { IfOk result (λ copies. all_words copies.items ≡ all_words stretches.now) }
{
    let mut copies = Vec::new(alloc);
    for stretch in stretches {
        copies.push(stretch.clone()?)?;
    }
    Ok(copies)
}

// Appends words, none of which is there.
fn append(alloc: Global, words: &mut Words, more: &Words) -> Result<(), Memory>
    requires { AreNew bytes_eq (words_of words.old.entries) (words_of more.now.entries) }
    ensures { OnOk result (words_of words.new.entries
        ≡ words_of words.old.entries ++ words_of more.now.entries) }
{
    for index in 0..more.len() {
        let Some((word, meaning)) = more.get_index(index) else {
            unreachable!();
        };
        let word = String::from_str(alloc, word.as_str())?;
        words.insert(word, meaning.copied()?)?;
    }
    Ok(())
}

// Two stretches as one.
fn joined(alloc: Global, first: &Words, second: &Words) -> Result<Words, Memory>
    requires { AreNew bytes_eq [] (words_of first.now.entries ++ words_of second.now.entries) }
    ensures { IfOk result (λ words. words_of words.entries
        ≡ words_of first.now.entries ++ words_of second.now.entries) }
{
    let mut words = IndexMap::new(alloc);
    append(alloc, &mut words, first)?;
    append(alloc, &mut words, second)?;
    Ok(words)
}

// Whether the last stretch is short of one that is to follow it: less than twice as long.
fn is_short(stretches: &[Arc<Stretch>], next: usize) -> bool {
    match stretches.last() {
        Some(stretch) => stretch.len() / 2 < next,
        None => false,
    }
}

// Takes the last stretch out where it is short of one that is to follow it.
fn take_short(stretches: &mut Vec<Arc<Stretch>>, next: usize) -> Option<Arc<Stretch>>
    ensures taken { IfSome result (λ stretch. stretches.old.items ≡ stretches.new.items ++ stretch
        ∷ []) }
    ensures none { IfNone result (stretches.new.items ≡ stretches.old.items) }
{
    if is_short(stretches.as_slice(), next) {
        stretches.pop()
    } else {
        None
    }
}

// Puts a stretch behind others, joined with those before it that are short.
fn push_stretch(
    alloc: Global,
    stretches: &mut Vec<Arc<Stretch>>,
    words: Words,
) -> Result<(), Memory>
    requires { AreNew bytes_eq [] (all_words stretches.old.items ++ words_of words.entries) }
    ensures { OnOk result (all_words stretches.new.items
        ≡ all_words stretches.old.items ++ words_of words.entries) }
{
    let mut words = words;
    while let Some(before) = take_short(stretches, words.len()) {
        words = joined(alloc, before.words(), &words)?;
    }
    let stretch = Stretch::new(alloc, words)?;
    stretches.push(Arc::new(alloc, stretch)?)?;
    Ok(())
}

// What stands under a word among the first so many of a stretch.
fn word_in<'a>(words: &'a Words, count: usize, word: &str) -> Option<&'a Meaning>
    ensures { option_copied result
        ≡ tables.lookup bytes_eq (take count (words_of words.now.entries)) word.now }
{
    match words.get_full(word) {
        Some((index, _, meaning)) => { if index < count { Some(meaning) } else { None } }
        None => None,
    }
}

impl NameTable {
    /// The table of no name. It takes no memory.
    pub fn new(alloc: Global) -> NameTable
        ensures { result ≡ tables.empty }
    {
        NameTable {
            stretches: List::new(alloc),
            len: 0,
            symbols: List::new(alloc),
        }
    }

    /// How many words there are; no word and no symbol is there twice.
    pub fn len(&self) -> usize
        ensures len { result ≡ length self.now.words }
        ensures once { AreNew bytes_eq [] self.now.words }
        ensures symbols_once { AreNew same_symbol [] self.now.symbols }
    {
        self.len
    }

    /// What stands under a word among the first so many.
    pub fn word_among(&self, count: usize, word: &str) -> Option<&Meaning>
        ensures { option_copied result
            ≡ tables.lookup bytes_eq (take count self.now.words) word.now }
    {
        let mut left = count;
        for stretch in self.stretches.as_slice() {
            if let Some(meaning) = word_in(stretch.words(), left, word) {
                return Some(meaning);
            }
            left = left.saturating_sub(stretch.len());
        }
        None
    }

    /// Which word stands at a place, and what it means.
    pub fn word_at(&self, index: usize) -> Option<(&str, &Meaning)>
        ensures { option_map shown result ≡ slice_get self.now.words index }
    {
        let mut left = index;
        for stretch in self.stretches.as_slice() {
            if let Some(entry) = entry_at(stretch.words(), left) {
                return Some(entry);
            }
            left = left.saturating_sub(stretch.len());
        }
        None
    }

    /// The first word that means this and can be named behind an instance, with what it means. It is looked up
    /// in few stretches.
    pub fn word_meaning(&self, meaning: &Meaning) -> Option<(&str, &Meaning)>
        ensures { option_map shown result ≡ word_meaning self.now.words meaning.now }
    {
        for stretch in self.stretches.as_slice() {
            if let Some(entry) = stretch.word_meaning(meaning) {
                return Some(entry);
            }
        }
        None
    }

    /// The words, stretch by stretch.
    pub fn stretches(&self) -> &[Arc<Stretch>]
        ensures { all_words result.now ≡ self.now.words }
    {
        self.stretches.as_slice()
    }

    /// The words that stand for parameters: constants and variables, in the order of the table. The work
    /// is in proportion to what is answered, and to the stretches.
    pub fn parameters(&self, alloc: Global) -> Result<Vec<(&str, &Meaning)>, Memory>
        ensures { IfOk result (λ found. map shown found.items
            ≡ words_meant stands_for_parameter self.now.words) }
    {
        let mut found = Vec::new(alloc);
        for stretch in self.stretches.as_slice() {
            stretch.push_parameters(&mut found)?;
        }
        Ok(found)
    }

    /// The words that name instances, in the order of the table. The work is in proportion to what is
    /// answered, and to the stretches.
    pub fn instances(&self, alloc: Global) -> Result<Vec<(&str, &Meaning)>, Memory>
        ensures { IfOk result (λ found. map shown found.items
            ≡ words_meant is_instance self.now.words) }
    {
        let mut found = Vec::new(alloc);
        for stretch in self.stretches.as_slice() {
            stretch.push_instances(&mut found)?;
        }
        Ok(found)
    }

    /// The symbols.
    pub fn symbols(&self) -> &[(Op, Meaning)]
        ensures { result.now ≡ self.now.symbols }
    {
        self.symbols.as_slice()
    }

    /// The table with words behind its own, none of which is there, and with these symbols, none of which
    /// is there twice, in place of its own. It shares what it can with the table. `Memory` comes where there was no room.
    pub fn extended(
        &self,
        alloc: Global,
        words: Words,
        symbols: List<(Op, Meaning)>,
    ) -> Result<NameTable, Memory>
        requires words { AreNew bytes_eq [] (self.now.words ++ words_of words.entries) }
        requires symbols { AreNew same_symbol [] symbols }
        ensures { IfOk result (λ table. table
            ≡ record { words = self.now.words ++ words_of words.entries; symbols = symbols }) }
    {
        let Some(len) = self.len.checked_add(words.len()) else {
            return Err(Memory);
        };
        let mut stretches = shared(alloc, self.stretches.as_slice())?;
        if !words.is_empty() {
            push_stretch(alloc, &mut stretches, words)?;
        }
        Ok(NameTable {
            stretches: List::from_vec(stretches),
            len,
            symbols,
        })
    }
}
