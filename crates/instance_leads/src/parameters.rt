// The parameters of modules.
ghost use Rattle.std.specs.Prelude.{◌≡◌, ◌++◌, ◌∷◌, [], IfOk, OnOk, filter, map};
ghost use Rattle.tla_model.specs.EntityKinds.{is_meant, stands_for_parameter};
ghost use Rattle.tla_model.specs.Stretches.{shown};
ghost use Rattle.module_model.specs.Exports.{exports_of, face_exports, of_symbols, of_words, parameters_in};
ghost use Rattle.tree_names.specs.Parameters.{entries_in, named_in};

use crate::kinds::is_parameter;
use crate::named::exports_in;
use module_model::Face;
use name_exports::Exported;
use std::alloc::Global;
use tla_model::Meaning;
use tla_symbols::Op;
use tool_list::{Chars, List, Memory};
use tree_names::{Name, Parameter};

// Appends a parameter.
fn push(found: &mut List<Parameter>, name: Name, meaning: &Meaning) -> Result<(), Memory>
    ensures { OnOk result (entries_in found.new
        ≡ entries_in found.old ++ (named_in name, meaning.now) ∷ []) }
{
    let meaning = meaning.copied()?;
    found.push(Parameter { name, meaning })
}

// Appends words as parameters.
fn push_words(
    alloc: Global,
    found: &mut List<Parameter>,
    words: &[(&str, &Meaning)],
) -> Result<(), Memory>
    ensures { OnOk result (entries_in found.new
        ≡ entries_in found.old ++ of_words (map shown words.now)) }
{
    for (word, meaning) in words {
        push(found, Name::Word(Chars::from_str(alloc, *word)?), *meaning)?;
    }
    Ok(())
}

// Appends a symbol, if it stands for a parameter.
fn push_symbol(found: &mut List<Parameter>, op: Op, meaning: &Meaning) -> Result<(), Memory>
    ensures { OnOk result (entries_in found.new ≡ entries_in found.old
        ++ of_symbols (filter (λ symbol. is_meant stands_for_parameter symbol.1)
        ((op, meaning.now) ∷ []))) }
{
    if !is_parameter(meaning) {
        return Ok(());
    }
    push(found, Name::Symbol(op), meaning)
}

// Appends the symbols that stand for parameters.
fn push_symbols(found: &mut List<Parameter>, symbols: &[(Op, Meaning)]) -> Result<(), Memory>
    ensures { OnOk result (entries_in found.new ≡ entries_in found.old
        ++ of_symbols (filter (λ symbol. is_meant stands_for_parameter symbol.1) symbols.now)) }
{
    for (op, meaning) in symbols {
        push_symbol(found, *op, meaning)?;
    }
    Ok(())
}

// These words, and the symbols that stand for parameters.
fn listed(
    alloc: Global,
    words: &[(&str, &Meaning)],
    symbols: &[(Op, Meaning)],
) -> Result<List<Parameter>, Memory>
    ensures { IfOk result (λ found. entries_in found ≡ of_words (map shown words.now)
        ++ of_symbols (filter (λ symbol. is_meant stands_for_parameter symbol.1) symbols.now)) }
{
    let mut found = List::new(alloc);
    push_words(alloc, &mut found, words)?;
    push_symbols(&mut found, symbols)?;
    Ok(found)
}

/// The parameters of a module with this face.
pub fn face_parameters(alloc: Global, face: &Face) -> Result<List<Parameter>, Memory>
    ensures { IfOk result (λ found. entries_in found ≡ parameters_in (face_exports face.now)) }
{
    let table = exports_in(face);
    let words = table.parameters(alloc)?;
    listed(alloc, words.as_slice(), table.symbols())
}

/// The parameters among what a nested module exports.
pub fn nested_parameters(alloc: Global, exports: &Exported<'_>) -> Result<List<Parameter>, Memory>
    ensures { IfOk result (λ found. entries_in found ≡ parameters_in (exports_of exports.now)) }
{
    let words = exports.parameters(alloc)?;
    listed(alloc, words.as_slice(), exports.symbols())
}
