// Contexts: names with what they mean at a place.
ghost use Rattle.std.specs.Prelude.{◌≡◌, ◌++◌, ◌≤◌, None, Some, IfOk, IfSome, IsTrue, OnOk, length, option_map, slice_get, take};
ghost use Rattle.std.specs.Str.{bytes_eq};
ghost use Rattle.std.specs.Option.{option_copied};
ghost use Rattle.tla_model.specs.Tables as tables;
ghost use Rattle.name_context.specs.AsTables as as_tables;
ghost use Rattle.tla_model.specs.Stretches.{shown};
ghost use Rattle.name_context.specs.AsTables.{behind, cut, context_of, first_words, meant_by, mark_of, usable, usable_words, taken_words, words_of};

use indexmap::IndexMap;
use std::alloc::Global;
use std::mem;
use tla_model::{Meaning, NameTable};
use tla_symbols::Op;
use tool_list::Memory;

/// A name as it is looked up: an identifier by its spelling, or a symbol.
#[derive(Clone, Copy)]
pub enum Named<'a> {
    Word(&'a str),
    Symbol(Op),
}

// So many words are looked at whatever that saves: the built-in ones, beside a table of one word.
const FEW_WORDS: usize = 16;

/// How many names a context has.
#[derive(Clone, Copy)]
pub struct Mark {
    words: usize,
    symbols: usize,
}

/// Names with what they mean at a place, each once; a name that can't be used yet means nothing. What
/// first took a name stays there, until the context is cut.
///
/// The words of a module that is extended can be taken over as they stand, behind those that are there.
/// Then they are not looked up one by one. Those of a longer table can take their place.
pub struct Context<'a> {
    // The first words, before those that were taken over.
    before: IndexMap<&'a str, Option<Meaning>>,
    // The table whose words were taken over, and how many of them are there, if it has so many.
    taken: Option<&'a NameTable>,
    shared_len: usize,
    // The words behind them.
    words: IndexMap<&'a str, Option<Meaning>>,
    // There are few symbols, so they are looked through.
    symbols: Vec<(Op, Option<Meaning>)>,
}

// By hand, so that a proof meets one call wherever a value ends.
impl<'a> Drop for Context<'a> {
    fn drop(self) {
        let Context {
            before: _,
            taken: _,
            shared_len: _,
            words: _,
            symbols: _,
        } = self;
    }
}

// What was found, to be looked at.
fn seen<'b>(found: Option<&'b Option<Meaning>>) -> Option<Option<&'b Meaning>>
    ensures { option_map option_copied result ≡ option_copied found.entry }
{
    match found {
        Some(meaning) => Some(meaning.as_ref()),
        None => None,
    }
}

// What a word means among some.
fn meaning_in<'b>(
    words: &'b IndexMap<&str, Option<Meaning>>,
    word: &str,
) -> Option<Option<&'b Meaning>>
    ensures { option_map option_copied result
        ≡ tables.lookup bytes_eq (words_of words.now.entries) word.now }
{
    seen(words.get(word))
}

/// What stands under a symbol.
pub fn symbol_in<V>(symbols: &[(Op, V)], op: Op) -> Option<&V>
    ensures { option_copied result ≡ tables.lookup tables.same_symbol symbols.now op }
{
    for entry in symbols {
        if op == entry.0 {
            return Some(&entry.1);
        }
    }
    None
}

// Whether to look at so many words is little work beside others.
fn is_little(words: usize, others: usize) -> bool {
    words <= others.saturating_add(FEW_WORDS)
}

// Whether a table has none of these words.
fn are_apart(words: &IndexMap<&str, Option<Meaning>>, table: &NameTable) -> bool
    ensures { IsTrue result → as_tables.AreApart table.now.words (words_of words.now.entries) }
{
    for index in 0..words.len() {
        let Some((word, _)) = words.get_index(index) else {
            unreachable!();
        };
        if table.word_among(table.len(), *word).is_some() {
            return false;
        }
    }
    true
}

// Which word stands at a place of those that were taken over, and what it means.
fn taken_at(taken: Option<&NameTable>, index: usize) -> Option<(&str, &Meaning)>
    ensures { IfSome result (λ found. slice_get (taken_words taken.entry) index
        ≡ Some (shown found)) }
{
    match taken {
        Some(table) => table.word_at(index),
        None => None,
    }
}

// Which word stands at a place of these, and what it means, if it can be used.
fn usable_at<'b>(
    words: &'b IndexMap<&str, Option<Meaning>>,
    index: usize,
) -> Option<(&'b str, &'b Meaning)>
    ensures { IfSome result (λ found. slice_get (words_of words.now.entries) index
        ≡ Some (usable (shown found))) }
{
    match words.get_index(index) {
        Some((word, Some(meaning))) => Some((*word, meaning)),
        _ => None,
    }
}

impl<'a> Context<'a> {
    /// The context of no name.
    pub fn new(alloc: Global) -> Context<'a>
        ensures { context_of result ≡ tables.empty }
    {
        Context {
            before: IndexMap::new(alloc),
            taken: None,
            shared_len: 0,
            words: IndexMap::new(alloc),
            symbols: Vec::new(alloc),
        }
    }

    // What a word means among those that were taken over.
    fn taken_word(&self, word: &str) -> Option<&Meaning>
        ensures { option_copied result
            ≡ tables.lookup bytes_eq (take self.now.shared_len (taken_words self.now.taken))
            word.now }
    {
        match self.taken {
            Some(table) => table.word_among(self.shared_len, word),
            None => None,
        }
    }

    // How many words were taken over and are there.
    fn shared_len(&self) -> usize
        ensures { result ≡ length (take self.now.shared_len (taken_words self.now.taken)) }
    {
        match self.taken {
            Some(table) => self.shared_len.min(table.len()),
            None => 0,
        }
    }

    /// How many names there are. `Memory` comes where so many can't be counted.
    pub fn mark(&self) -> Result<Mark, Memory>
        ensures { IfOk result (λ mark. mark ≡ mark_of (context_of self.now)) }
    {
        let Some(before) = self.before.len().checked_add(self.shared_len()) else {
            return Err(Memory);
        };
        let Some(words) = before.checked_add(self.words.len()) else {
            return Err(Memory);
        };
        Ok(Mark {
            words,
            symbols: self.symbols.len(),
        })
    }

    /// Leaves the names that there were at a mark.
    pub fn cut(&mut self, mark: Mark)
        ensures { context_of self.new ≡ cut (context_of self.old) mark }
    {
        let behind = mark.words.saturating_sub(self.before.len());
        let shared_len = self.shared_len();
        self.words.truncate(behind.saturating_sub(shared_len));
        self.shared_len = self.shared_len.min(behind);
        self.before.truncate(mark.words);
        self.symbols.truncate(mark.symbols);
    }

    // What a word means.
    fn word(&self, word: &str) -> Option<Option<&Meaning>>
        ensures { option_map option_copied result
            ≡ tables.lookup bytes_eq (context_of self.now).words word.now }
    {
        if let Some(meaning) = meaning_in(&self.before, word) {
            return Some(meaning);
        }
        if let Some(meaning) = self.taken_word(word) {
            return Some(Some(meaning));
        }
        meaning_in(&self.words, word)
    }

    /// What a name means.
    pub fn get(&self, name: Named<'_>) -> Option<Option<&Meaning>>
        ensures { option_map option_copied result
            ≡ tables.find (context_of self.now) (meant_by name.entry) }
    {
        match name {
            Named::Word(word) => self.word(word),
            Named::Symbol(op) => seen(symbol_in(self.symbols.as_slice(), op)),
        }
    }

    /// Puts a name behind the others, unless it is there. `Memory` comes where there was no room.
    pub fn put(&mut self, name: Named<'a>, meaning: Option<Meaning>) -> Result<(), Memory>
        ensures { OnOk result (context_of self.new
            ≡ tables.put (context_of self.old) (meant_by name.entry) meaning) }
    {
        match name {
            Named::Word(word) => self.put_word(word, meaning),
            Named::Symbol(op) => self.put_symbol(op, meaning),
        }
    }

    fn put_word(&mut self, word: &'a str, meaning: Option<Meaning>) -> Result<(), Memory>
        ensures { OnOk result (context_of self.new
            ≡ tables.put (context_of self.old) (tables.Word word.entry.now) meaning) }
    {
        if self.word(word).is_some() {
            return Ok(());
        }
        self.words.insert(word, meaning)?;
        Ok(())
    }

    fn put_symbol(&mut self, op: Op, meaning: Option<Meaning>) -> Result<(), Memory>
        ensures { OnOk result (context_of self.new
            ≡ tables.put (context_of self.old) (tables.Symbol op) meaning) }
    {
        if symbol_in(self.symbols.as_slice(), op).is_some() {
            return Ok(());
        }
        self.symbols.push((op, meaning))?;
        Ok(())
    }

    /// Whether the words of a table can be taken over: none were taken over before, none of them is
    /// there, and to look at those that are there is little work beside putting them one by one.
    pub fn can_take(&self, table: &NameTable) -> bool
        ensures { IsTrue result → as_tables.CanTake self.now table.now.words }
    {
        self.taken.is_none()
            && self.before.is_empty()
            && is_little(self.words.len(), table.len())
            && are_apart(&self.words, table)
    }

    /// Which word stands at a place of those behind the first ones, and what it means, if it can be used.
    pub fn word_behind(&self, index: usize) -> Option<(&str, &Meaning)>
        ensures { IfSome result (λ found. slice_get (behind self.now) index
            ≡ Some (usable (shown found))) }
    {
        let shared_len = self.shared_len();
        if index < shared_len {
            taken_at(self.taken, index)
        } else {
            usable_at(&self.words, index - shared_len)
        }
    }

    /// Whether no more words than so many stand behind the first ones.
    pub fn has_at_most_behind(&self, count: usize) -> bool
        ensures { IsTrue result → length (behind self.now) ≤ count }
    {
        let shared_len = self.shared_len();
        shared_len <= count && self.words.len() <= count - shared_len
    }

    /// Whether a table has none of the first words, and to look at these is little work beside so many.
    pub fn is_apart(&self, table: &NameTable, count: usize) -> bool
        ensures { IsTrue result → as_tables.AreApart table.now.words (first_words self.now) }
    {
        is_little(self.before.len(), count) && are_apart(&self.before, table)
    }

    /// Takes over the words of a table, in place of those behind the first ones.
    pub fn take_instead(&mut self, table: &'a NameTable)
        ensures { context_of self.new
            ≡ record {
              words = first_words self.old ++ usable_words table.now.words;
              symbols =
                  (context_of self.old).symbols;
            } }
    {
        self.words.truncate(0);
        self.taken = Some(table);
        self.shared_len = table.len();
    }

    /// Takes over the words of a table, behind those that are there.
    pub fn take(&mut self, table: &'a NameTable)
        requires { as_tables.CanTake self.old table.now.words }
        ensures { context_of self.new
            ≡ record {
              words = (context_of self.old).words
                  ++ usable_words table.now.words;
              symbols = (context_of self.old).symbols;
            } }
    {
        mem::swap(&mut self.before, &mut self.words);
        self.taken = Some(table);
        self.shared_len = table.len();
    }
}
