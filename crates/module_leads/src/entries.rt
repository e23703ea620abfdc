// What modules export and bring, as lists of entries.
ghost use Rattle.std.specs.Prelude.{◌≡◌, ◌++◌, ◌∷◌, [], IfOk, OnOk};
ghost use Rattle.std.specs.Option.{option_copied};
ghost use Rattle.module_model.specs.Exports.{exports_of, of_symbols, of_words};
ghost use Rattle.name_context.specs.AsTables.{taken_words, words_of};
ghost use Rattle.name_exports.specs.Brought.{behind_through, passed_through};
ghost use Rattle.tla_model.specs.Tables as tables;
ghost use Rattle.tree_names.specs.Parameters.{entries_in, entry_in, named_in};

use crate::ways::copied_name;
use indexmap::IndexMap;
use name_exports::{Exported, passed};
use std::alloc::Global;
use tla_model::{Meaning, NameTable, UnitId};
use tla_symbols::Op;
use tool_list::{Chars, List, Memory};
use tree_names::{Name, Parameter};

// Appends an entry.
fn push_entry(entries: &mut List<Parameter>, name: Name, meaning: Meaning) -> Result<(), Memory>
    ensures { OnOk result (entries_in entries.new ≡ entries_in entries.old
        ++ (named_in name, meaning) ∷ []) }
{
    entries.push(Parameter { name, meaning })
}

// Appends a word.
fn push_word(
    alloc: Global,
    entries: &mut List<Parameter>,
    word: &str,
    meaning: &Meaning,
) -> Result<(), Memory>
    ensures { OnOk result (entries_in entries.new ≡ entries_in entries.old
        ++ (tables.Word word.now, meaning.now) ∷ []) }
{
    let name = Name::Word(Chars::from_str(alloc, word)?);
    let meaning = meaning.copied()?;
    push_entry(entries, name, meaning)
}

// Appends the words of a table.
fn push_words(alloc: Global, entries: &mut List<Parameter>, table: &NameTable) -> Result<(), Memory>
    ensures { OnOk result (entries_in entries.new ≡ entries_in entries.old
        ++ of_words table.now.words) }
{
    for index in 0..table.len() {
        let Some((word, meaning)) = table.word_at(index) else {
            unreachable!();
        };
        push_word(alloc, entries, word, meaning)?;
    }
    Ok(())
}

// Appends the words that a nested module has of its own.
fn push_own_words(
    alloc: Global,
    entries: &mut List<Parameter>,
    words: &IndexMap<&str, Meaning>,
) -> Result<(), Memory>
    ensures { OnOk result (entries_in entries.new ≡ entries_in entries.old
        ++ of_words (words_of words.now.entries)) }
{
    for index in 0..words.len() {
        let Some((word, meaning)) = words.get_index(index) else {
            unreachable!();
        };
        push_word(alloc, entries, *word, meaning)?;
    }
    Ok(())
}

// Appends the words that a nested module took over.
fn push_taken(
    alloc: Global,
    entries: &mut List<Parameter>,
    taken: Option<&NameTable>,
) -> Result<(), Memory>
    ensures { OnOk result (entries_in entries.new ≡ entries_in entries.old
        ++ of_words (taken_words taken.entry)) }
{
    match taken {
        Some(table) => push_words(alloc, entries, table),
        None => Ok(()),
    }
}

// Appends symbols.
fn push_symbols(entries: &mut List<Parameter>, symbols: &[(Op, Meaning)]) -> Result<(), Memory>
    ensures { OnOk result (entries_in entries.new ≡ entries_in entries.old
        ++ of_symbols symbols.now) }
{
    for (op, meaning) in symbols {
        push_entry(entries, Name::Symbol(*op), meaning.copied()?)?;
    }
    Ok(())
}

/// What a module exports by a table of it, in order.
pub fn table_entries(alloc: Global, table: &NameTable) -> Result<List<Parameter>, Memory>
    ensures { IfOk result (λ entries. entries_in entries ≡ exports_of table.now) }
{
    let mut entries = List::new(alloc);
    push_words(alloc, &mut entries, table)?;
    push_symbols(&mut entries, table.symbols())?;
    Ok(entries)
}

/// What a nested module exports, in order.
pub fn nested_entries(alloc: Global, exports: &Exported<'_>) -> Result<List<Parameter>, Memory>
    ensures { IfOk result (λ entries. entries_in entries ≡ exports_of exports.now) }
{
    let mut entries = List::new(alloc);
    let (taken, words) = exports.words();
    push_taken(alloc, &mut entries, taken)?;
    push_own_words(alloc, &mut entries, words)?;
    push_symbols(&mut entries, exports.symbols())?;
    Ok(entries)
}

// Appends an entry, if it is brought.
fn push_brought(
    alloc: Global,
    brought: &mut List<Parameter>,
    unit: Option<&UnitId>,
    entry: &Parameter,
) -> Result<(), Memory>
    ensures { OnOk result (entries_in brought.new ≡ entries_in brought.old ++ behind_through
        (option_copied unit.entry) (entry_in entry.now ∷ [])) }
{
    if !entry.meaning.stands_behind() {
        return Ok(());
    }
    let name = copied_name(&entry.name)?;
    let meaning = passed(alloc, unit, &entry.meaning)?;
    push_entry(brought, name, meaning)
}

/// What of these entries a module brings that is extended, or of which an INSTANCE without a name stands:
/// the definitions and instances, through the unit of the INSTANCE, or as they are where there is none.
pub fn brought_entries(
    alloc: Global,
    unit: Option<&UnitId>,
    entries: &[Parameter],
) -> Result<List<Parameter>, Memory>
    ensures { IfOk result (λ brought. entries_in brought
        ≡ behind_through (option_copied unit.entry) (entries_in entries.now)) }
{
    let mut brought = List::new(alloc);
    for entry in entries {
        push_brought(alloc, &mut brought, unit, entry)?;
    }
    Ok(brought)
}
