// What of a table stands behind an instance.
ghost use Rattle.std.specs.Prelude.{◌≡◌, ◌∷◌, ◌++◌, [], IfOk, IsTrue, None, OnOk};
ghost use Rattle.std.specs.Arc.{arc_value};
ghost use Rattle.std.specs.Str.{bytes_eq};
ghost use Rattle.tla_model.specs.EntityKinds.{stands_behind, words_meant};
ghost use Rattle.tla_model.specs.Stretches.{words_of};
ghost use Rattle.tla_model.specs.Tables as tables;
ghost use Rattle.exact_faces.specs.Kept as behind;

use indexmap::IndexMap;
use std::alloc::Global;
use std::sync::Arc;
use tla_model::{Meaning, NameTable, Words};
use tla_symbols::Op;
use tool_list::{List, Memory};

// Whether all words can be named behind an instance.
fn has_words_alone(table: &NameTable) -> bool
    ensures { IsTrue result → words_meant stands_behind table.now.words ≡ table.now.words }
{
    for index in 0..table.len() {
        let Some((_, meaning)) = table.word_at(index) else {
            unreachable!();
        };
        if !meaning.stands_behind() {
            return false;
        }
    }
    true
}

// Whether all symbols can be named behind an instance.
fn has_symbols_alone(symbols: &[(Op, Meaning)]) -> bool
    ensures { IsTrue result → behind.kept_symbols symbols.now ≡ symbols.now }
{
    for index in 0..symbols.len() {
        if !symbols[index].1.stands_behind() {
            return false;
        }
    }
    true
}

/// Whether a table has nothing but what can be named behind an instance.
pub fn is_kept(table: &NameTable) -> bool
    ensures { IsTrue result → behind.kept table.now ≡ table.now }
{
    has_words_alone(table) && has_symbols_alone(table.symbols())
}

// Puts a word that is not there behind the others, with what it means, if it can be named behind an
// instance.
fn put_kept(alloc: Global, words: &mut Words, word: &str, meaning: &Meaning) -> Result<(), Memory>
    requires { tables.lookup bytes_eq (words_of words.old.entries) word.now ≡ None }
    ensures { OnOk result (words_of words.new.entries ≡ words_of words.old.entries
        ++ words_meant stands_behind ((word.now, meaning.now) ∷ [])) }
{
    if !meaning.stands_behind() {
        return Ok(());
    }
    let word = String::from_str(alloc, word)?;
    let meaning = meaning.copied()?;
    words.insert(word, meaning)?;
    Ok(())
}

// The words that can be named behind an instance.
fn kept_words(alloc: Global, table: &NameTable) -> Result<Words, Memory>
    ensures { IfOk result (λ words. words_of words.entries
        ≡ words_meant stands_behind table.now.words) }
{
    let mut words = IndexMap::new(alloc);
    for index in 0..table.len() {
        let Some((word, meaning)) = table.word_at(index) else {
            unreachable!();
        };
        put_kept(alloc, &mut words, word, meaning)?;
    }
    Ok(words)
}

// The symbols that can be named behind an instance.
fn kept_symbols(alloc: Global, symbols: &[(Op, Meaning)]) -> Result<List<(Op, Meaning)>, Memory>
    ensures { IfOk result (λ kept. kept ≡ behind.kept_symbols symbols.now) }
{
    let mut kept = List::new(alloc);
    for (op, meaning) in symbols {
        if meaning.stands_behind() {
            kept.push((*op, meaning.copied()?))?;
        }
    }
    Ok(kept)
}

// A table of the names that can be named behind an instance.
fn kept_table(alloc: Global, table: &NameTable) -> Result<NameTable, Memory>
    ensures { IfOk result (λ kept. kept ≡ behind.kept table.now) }
{
    // The proof needs that no name of the table is there twice.
    let _len = table.len();
    let words = kept_words(alloc, table)?;
    let symbols = kept_symbols(alloc, table.symbols())?;
    NameTable::new(alloc).extended(alloc, words, symbols)
}

/// What of a table can be named behind an instance. It is shared where that is all of it.
pub fn kept(alloc: Global, table: &Arc<NameTable>) -> Result<Arc<NameTable>, Memory>
    ensures { IfOk result (λ kept. arc_value kept ≡ behind.kept (arc_value table.now)) }
{
    if is_kept(table) {
        let shared = table.clone()?;
        return Ok(shared);
    }
    let table = kept_table(alloc, table)?;
    let made = Arc::new(alloc, table)?;
    Ok(made)
}
