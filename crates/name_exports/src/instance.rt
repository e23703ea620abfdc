// The names that an INSTANCE without a name brings.
ghost use Rattle.std.specs.Prelude.{◌≡◌, ◌++◌, ◌∷◌, [], IfOk};
ghost use Rattle.std.specs.Option.{option_copied};
ghost use Rattle.module_model.specs.Exports.{exports_of, instantiable, of_symbols, of_words};
ghost use Rattle.module_model.specs.Instances.{through};
ghost use Rattle.name_context.specs.AsTables.{meant_by, taken_words, words_of};
ghost use Rattle.name_exports.specs.Brought.{IsJoined, behind_through, brought_through, passed_through};

use crate::exported::Exported;
use crate::extend::{either, join};
use crate::names::Names;
use indexmap::IndexMap;
use name_context::Named;
use std::alloc::Global;
use tla_model::{Callee, Meaning, NameTable, UnitId};
use tla_symbols::Op;
use tool_list::{List, Memory, SharedList};

// These units, with one behind them.
fn with_unit(alloc: Global, via: &[UnitId], unit: &UnitId) -> Result<SharedList<UnitId>, Memory>
    ensures { IfOk result (λ units. units ≡ via.now ++ unit.now ∷ []) }
{
    let mut units = List::new(alloc);
    for before in via {
        units.push(before.copied()?)?;
    }
    units.push(unit.copied()?)?;
    units.into_shared()
}

// A callee that came through one more unit.
fn called_through(alloc: Global, unit: &UnitId, callee: &Callee) -> Result<Callee, Memory>
    ensures { IfOk result (λ called. called
        ≡ record callee.now { via = callee.now.via ++ unit.now ∷ [] }) }
{
    Ok(Callee {
        instance: callee.instance,
        decl: callee.decl.copied()?,
        via: with_unit(alloc, callee.via.as_slice(), unit)?,
    })
}

// What a name means that came through one more unit.
fn meant_through(alloc: Global, unit: &UnitId, meaning: &Meaning) -> Result<Meaning, Memory>
    ensures { IfOk result (λ meant. meant ≡ through unit.now meaning.now) }
{
    match meaning {
        Meaning::BuiltIn => Ok(Meaning::BuiltIn),
        Meaning::Declared { entity, callee } => Ok(Meaning::Declared {
            entity: entity.copied()?,
            callee: called_through(alloc, unit, callee)?,
        }),
    }
}

/// What a name means behind an INSTANCE: through its unit, or the same where there is none.
pub fn passed(alloc: Global, unit: Option<&UnitId>, meaning: &Meaning) -> Result<Meaning, Memory>
    ensures { IfOk result (λ meant. meant
        ≡ passed_through (option_copied unit.entry) meaning.now) }
{
    match unit {
        Some(unit) => meant_through(alloc, unit, meaning),
        None => meaning.copied(),
    }
}

// Puts a name that can be named behind an instance, and answers whether it clashes.
fn bring_passed<'a>(
    alloc: Global,
    names: &mut Names<'a>,
    local: bool,
    name: Named<'a>,
    meaning: Meaning,
) -> Result<bool, Memory>
    ensures { IfOk result (λ clash. IsJoined local names.old names.new clash
        ((meant_by name.entry, meaning) ∷ [])) }
{
    join(alloc, names, local, name, meaning)
}

// Puts a name if an INSTANCE brings it, and answers whether it clashes.
fn bring_entry<'a>(
    alloc: Global,
    names: &mut Names<'a>,
    local: bool,
    unit: Option<&UnitId>,
    name: Named<'a>,
    meaning: &Meaning,
) -> Result<bool, Memory>
    ensures { IfOk result (λ clash. IsJoined local names.old names.new clash
        (behind_through (option_copied unit.entry)
        ((meant_by name.entry, meaning.now) ∷ []))) }
{
    if !meaning.stands_behind() {
        return Ok(false);
    }
    let meaning = passed(alloc, unit, meaning)?;
    bring_passed(alloc, names, local, name, meaning)
}

// Puts the words of a table that an INSTANCE brings, and answers whether one of them clashes.
fn bring_words<'a>(
    alloc: Global,
    names: &mut Names<'a>,
    local: bool,
    unit: Option<&UnitId>,
    table: &'a NameTable,
) -> Result<bool, Memory>
    ensures { IfOk result (λ clash. IsJoined local names.old names.new clash
        (behind_through (option_copied unit.entry) (of_words table.now.words))) }
{
    let mut clash = false;
    for index in 0..table.len() {
        let Some((word, meaning)) = table.word_at(index) else {
            unreachable!();
        };
        let clashes = bring_entry(alloc, names, local, unit, Named::Word(word), meaning)?;
        clash = either(clash, clashes);
    }
    Ok(clash)
}

// Puts the words of a nested module that an INSTANCE brings, and answers whether one of them clashes.
fn bring_own_words<'a>(
    alloc: Global,
    names: &mut Names<'a>,
    local: bool,
    unit: Option<&UnitId>,
    words: &IndexMap<&'a str, Meaning>,
) -> Result<bool, Memory>
    ensures { IfOk result (λ clash. IsJoined local names.old names.new clash
        (behind_through (option_copied unit.entry) (of_words (words_of words.now.entries)))) }
{
    let mut clash = false;
    for index in 0..words.len() {
        let Some((word, meaning)) = words.get_index(index) else {
            unreachable!();
        };
        let clashes = bring_entry(alloc, names, local, unit, Named::Word(*word), meaning)?;
        clash = either(clash, clashes);
    }
    Ok(clash)
}

// Puts the symbols that an INSTANCE brings, and answers whether one of them clashes.
fn bring_symbols<'a>(
    alloc: Global,
    names: &mut Names<'a>,
    local: bool,
    unit: Option<&UnitId>,
    symbols: &[(Op, Meaning)],
) -> Result<bool, Memory>
    ensures { IfOk result (λ clash. IsJoined local names.old names.new clash
        (behind_through (option_copied unit.entry) (of_symbols symbols.now))) }
{
    let mut clash = false;
    for (op, meaning) in symbols {
        let clashes = bring_entry(alloc, names, local, unit, Named::Symbol(*op), meaning)?;
        clash = either(clash, clashes);
    }
    Ok(clash)
}

// Puts the words that a nested module took over and an INSTANCE brings, and answers whether one of them
// clashes.
fn bring_taken<'a>(
    alloc: Global,
    names: &mut Names<'a>,
    local: bool,
    unit: Option<&UnitId>,
    taken: Option<&'a NameTable>,
) -> Result<bool, Memory>
    ensures { IfOk result (λ clash. IsJoined local names.old names.new clash
        (behind_through (option_copied unit.entry) (of_words (taken_words taken.entry)))) }
{
    match taken {
        Some(table) => {
            let clash = bring_words(alloc, names, local, unit, table)?;
            Ok(clash)
        }
        None => Ok(false),
    }
}

/// Puts the definitions and instances of a table as an INSTANCE without a name brings them, and answers
/// whether one of them clashes. They come through its unit, or as they are where there is none, and are
/// exported unless it is LOCAL.
pub fn bring_through<'a>(
    alloc: Global,
    names: &mut Names<'a>,
    local: bool,
    unit: Option<&UnitId>,
    table: &'a NameTable,
) -> Result<bool, Memory>
    ensures { IfOk result (λ clash. IsJoined local names.old names.new clash
        (brought_through (option_copied unit.entry) (instantiable (exports_of table.now)))) }
{
    let words = bring_words(alloc, names, local, unit, table)?;
    let symbols = bring_symbols(alloc, names, local, unit, table.symbols())?;
    Ok(either(words, symbols))
}

/// Puts the definitions and instances that a nested module exports as an INSTANCE without a name brings
/// them, and answers whether one of them clashes. They come through its unit, or as they are where
/// there is none, and are exported unless it is LOCAL.
pub fn bring_nested_through<'a>(
    alloc: Global,
    names: &mut Names<'a>,
    local: bool,
    unit: Option<&UnitId>,
    exports: &Exported<'a>,
) -> Result<bool, Memory>
    ensures { IfOk result (λ clash. IsJoined local names.old names.new clash
        (brought_through (option_copied unit.entry) (instantiable (exports_of exports.now)))) }
{
    let (taken, words) = exports.words();
    let first = bring_taken(alloc, names, local, unit, taken)?;
    let behind = bring_own_words(alloc, names, local, unit, words)?;
    let symbols = bring_symbols(alloc, names, local, unit, exports.symbols())?;
    Ok(either(either(first, behind), symbols))
}
