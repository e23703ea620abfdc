// The names that other modules bring.
ghost use Rattle.std.specs.Prelude.{◌≡◌, ◌||◌, ℕ, List as ListOf, false, IfOk, OnOk, drop};
ghost use Rattle.std.specs.Option.{option_copied};
ghost use Rattle.module_model.specs.Exports.{exports_of, of_symbols, of_words};
ghost use Rattle.module_model.specs.Modules.{clashes};
ghost use Rattle.name_exports.specs.Brought.{import_exports};
ghost use Rattle.name_context.specs.AsTables.{context_of, meant_by, taken_words, words_of};
ghost use Rattle.name_exports.specs.Brought.{AreFirst, IsBrought, ModuleNames, as_read, brought, shown_by};

use crate::exported::Exported;
use crate::names::Names;
use crate::same::differs;
use indexmap::IndexMap;
use module_model::Import;
use name_context::Named;
use std::alloc::Global;
use tla_model::{Meaning, NameTable};
use tla_symbols::Op;
use tool_list::Memory;

/// Puts a name that another module brings, unless it is there with another meaning, and answers
/// whether it is. It is exported unless it is LOCAL.
pub fn join<'a>(
    alloc: Global,
    names: &mut Names<'a>,
    local: bool,
    name: Named<'a>,
    meaning: Meaning,
) -> Result<bool, Memory>
    ensures clash { IfOk result (λ clash. clash
        ≡ clashes (context_of names.old.context) (meant_by name.entry, meaning)) }
    ensures names { OnOk result ((title : ListOf ℕ) → (taken : ModuleNames)
        → as_read title taken names.new
        ≡ brought local (as_read title taken names.old) (meant_by name.entry, meaning)) }
{
    if differs(names.context.get(name), &meaning) {
        return Ok(true);
    }
    names.put(alloc, local, name, meaning)?;
    Ok(false)
}

// Puts a name that a module which is extended brings, unless it is there with another meaning, and
// answers whether it is.
fn bring<'a>(
    alloc: Global,
    names: &mut Names<'a>,
    name: Named<'a>,
    meaning: &Meaning,
) -> Result<bool, Memory>
    ensures clash { IfOk result (λ clash. clash
        ≡ clashes (context_of names.old.context) (meant_by name.entry, meaning.now)) }
    ensures names { OnOk result ((title : ListOf ℕ) → (taken : ModuleNames)
        → as_read title taken names.new
        ≡ brought false (as_read title taken names.old) (meant_by name.entry, meaning.now)) }
{
    join(alloc, names, false, name, meaning.copied()?)
}

/// Whether one of them is so.
pub fn either(first: bool, second: bool) -> bool
    ensures { result ≡ (first || second) }
{
    first || second
}

// Puts the words of a table from a place on, and answers whether one of them clashes.
fn bring_words<'a>(
    alloc: Global,
    names: &mut Names<'a>,
    table: &'a NameTable,
    first: usize,
) -> Result<bool, Memory>
    ensures { IfOk result
        (λ clash. IsBrought names.old names.new clash (of_words (drop first table.now.words))) }
{
    let mut clash = false;
    for index in first..table.len() {
        let Some((word, meaning)) = table.word_at(index) else {
            unreachable!();
        };
        let clashes = bring(alloc, names, Named::Word(word), meaning)?;
        clash = either(clashes, clash);
    }
    Ok(clash)
}

// Puts the words of a table of which so many are there already, all together where there are no
// others, and answers whether one of them clashes.
fn bring_longer<'a>(
    alloc: Global,
    names: &mut Names<'a>,
    table: &'a NameTable,
    count: usize,
) -> Result<bool, Memory>
    requires { AreFirst names.old table.now.words count }
    ensures { IfOk result
        (λ clash. IsBrought names.old names.new clash (of_words table.now.words)) }
{
    if names.take_longer(table, count) {
        return Ok(false);
    }
    let clash = bring_words(alloc, names, table, count)?;
    Ok(clash)
}

// Puts the words of a table, all together where that can be done, and answers whether one of them
// clashes.
fn bring_table_words<'a>(
    alloc: Global,
    names: &mut Names<'a>,
    table: &'a NameTable,
) -> Result<bool, Memory>
    ensures { IfOk result
        (λ clash. IsBrought names.old names.new clash (of_words table.now.words)) }
{
    if names.take_words(table) {
        return Ok(false);
    }
    match names.first_there(table) {
        Some(count) => bring_longer(alloc, names, table, count),
        None => bring_words(alloc, names, table, 0),
    }
}

// Puts words of a nested module, and answers whether one of them clashes.
fn bring_own_words<'a>(
    alloc: Global,
    names: &mut Names<'a>,
    words: &IndexMap<&'a str, Meaning>,
) -> Result<bool, Memory>
    ensures { IfOk result
        (λ clash. IsBrought names.old names.new clash (of_words (words_of words.now.entries))) }
{
    let mut clash = false;
    for index in 0..words.len() {
        let Some((word, meaning)) = words.get_index(index) else {
            unreachable!();
        };
        let clashes = bring(alloc, names, Named::Word(*word), meaning)?;
        clash = either(clashes, clash);
    }
    Ok(clash)
}

// Puts symbols, and answers whether one of them clashes.
fn bring_symbols<'a>(
    alloc: Global,
    names: &mut Names<'a>,
    symbols: &[(Op, Meaning)],
) -> Result<bool, Memory>
    ensures { IfOk result (λ clash. IsBrought names.old names.new clash (of_symbols symbols.now)) }
{
    let mut clash = false;
    for (op, meaning) in symbols {
        let clashes = bring(alloc, names, Named::Symbol(*op), meaning)?;
        clash = either(clashes, clash);
    }
    Ok(clash)
}

// Puts the words that a nested module took over, and answers whether one of them clashes.
fn bring_taken<'a>(
    alloc: Global,
    names: &mut Names<'a>,
    taken: Option<&'a NameTable>,
) -> Result<bool, Memory>
    ensures { IfOk result
        (λ clash. IsBrought names.old names.new clash (of_words (taken_words taken.entry))) }
{
    match taken {
        Some(table) => {
            let clash = bring_table_words(alloc, names, table)?;
            Ok(clash)
        }
        None => Ok(false),
    }
}

/// Puts the names that a nested module exports, and answers whether one of them clashes.
pub fn bring_nested<'a>(
    alloc: Global,
    names: &mut Names<'a>,
    exports: &Exported<'a>,
) -> Result<bool, Memory>
    ensures { IfOk result (λ clash. IsBrought names.old names.new clash (exports_of exports.now)) }
{
    let (taken, words) = exports.words();
    let first = bring_taken(alloc, names, taken)?;
    let behind = bring_own_words(alloc, names, words)?;
    let symbols = bring_symbols(alloc, names, exports.symbols())?;
    Ok(either(either(first, behind), symbols))
}

// The table of what an imported module exports.
fn exports_of_import(import: Option<&Import>) -> Option<&NameTable>
    ensures { shown_by result ≡ import_exports (option_copied import.entry) }
{
    match import {
        Some(Import::Module(face)) => Some(&face.exports),
        _ => None,
    }
}

// Puts the names of a table, and answers whether one of them clashes.
fn bring_table<'a>(
    alloc: Global,
    names: &mut Names<'a>,
    table: &'a NameTable,
) -> Result<bool, Memory>
    ensures { IfOk result (λ clash. IsBrought names.old names.new clash (exports_of table.now)) }
{
    let words = bring_table_words(alloc, names, table)?;
    let symbols = bring_symbols(alloc, names, table.symbols())?;
    Ok(either(words, symbols))
}

/// Puts the names that an imported module exports, and answers whether one of them clashes.
pub fn bring_import<'a>(
    alloc: Global,
    names: &mut Names<'a>,
    import: Option<&'a Import>,
) -> Result<bool, Memory>
    ensures { IfOk result
        (λ clash. IsBrought names.old names.new clash
        (import_exports (option_copied import.entry))) }
{
    match exports_of_import(import) {
        Some(table) => {
            let clash = bring_table(alloc, names, table)?;
            Ok(clash)
        }
        None => Ok(false),
    }
}
