// Entries of tables, by their names.
ghost use Rattle.std.specs.Prelude.{◌≡◌, ◌&&◌, IfOk, filter};
ghost use Rattle.std.specs.Option.{option_copied};
ghost use Rattle.std.specs.Str.{bytes_eq};
ghost use Rattle.tla_model.specs.EntityKinds.{is_meant, words_meant};
ghost use Rattle.tla_model.specs.Tables.{lookup, same_symbol};
ghost use Rattle.module_model.specs.Exports.{entry_of, exports_of};
ghost use Rattle.name_context.specs.AsTables.{meant_by};
ghost use Rattle.instance_leads.specs.Found.{kept, of_kind};

use crate::kinds::Kind;
use name_context::{Named, symbol_in};
use name_exports::Exported;
use tla_model::{Meaning, NameTable};
use tla_symbols::Op;
use tool_list::Memory;

// Whether an entry stands under a symbol, and means something of a kind.
fn is_this(kind: Kind, entry: &(Op, Meaning), op: Op) -> bool
    ensures { result ≡ (same_symbol op entry.now.0 && is_meant (of_kind kind) entry.now.1) }
{
    op == entry.0 && kind.has(&entry.1)
}

// What a symbol means among those that mean something of a kind.
fn symbol_kept(kind: Kind, symbols: &[(Op, Meaning)], op: Op) -> Option<&Meaning>
    ensures { option_copied result
        ≡ lookup same_symbol (filter (λ entry. is_meant (of_kind kind) entry.1) symbols.now) op }
{
    for entry in symbols {
        if is_this(kind, entry, op) {
            return Some(&entry.1);
        }
    }
    None
}

// What a word of a table means, if that is of a kind.
fn word_kept<'b>(kind: Kind, table: &'b NameTable, word: &str) -> Option<&'b Meaning>
    ensures { option_copied result
        ≡ lookup bytes_eq (words_meant (of_kind kind) table.now.words) word.now }
{
    kind.keep(table.word_among(table.len(), word))
}

// The same of a word that a nested module exports.
fn own_word_kept<'b>(kind: Kind, exports: &'b Exported<'_>, word: &str) -> Option<&'b Meaning>
    ensures { option_copied result
        ≡ lookup bytes_eq (words_meant (of_kind kind) exports.now.words) word.now }
{
    kind.keep(exports.get(Named::Word(word)))
}

/// What a name means among the entries of a table that are of a kind.
pub fn kept_in<'b>(kind: Kind, table: &'b NameTable, name: Named<'_>) -> Option<&'b Meaning>
    ensures { option_copied result
        ≡ entry_of (kept kind (exports_of table.now)) (meant_by name.entry) }
{
    match name {
        Named::Word(word) => word_kept(kind, table, word),
        Named::Symbol(op) => symbol_kept(kind, table.symbols(), op),
    }
}

/// What a name means among those entries of a nested module that are of a kind.
pub fn kept_among<'b>(kind: Kind, exports: &'b Exported<'_>, name: Named<'_>) -> Option<&'b Meaning>
    ensures { option_copied result
        ≡ entry_of (kept kind (exports_of exports.now)) (meant_by name.entry) }
{
    match name {
        Named::Word(word) => own_word_kept(kind, exports, word),
        Named::Symbol(op) => symbol_kept(kind, exports.symbols(), op),
    }
}

/// What a name means in a table.
pub fn meant_in<'b>(table: &'b NameTable, name: Named<'_>) -> Option<&'b Meaning>
    ensures { option_copied result ≡ entry_of (exports_of table.now) (meant_by name.entry) }
{
    match name {
        Named::Word(word) => table.word_among(table.len(), word),
        Named::Symbol(op) => symbol_in(table.symbols(), op),
    }
}

/// What a name means that a nested module exports.
pub fn meant_among<'b>(exports: &'b Exported<'_>, name: Named<'_>) -> Option<&'b Meaning>
    ensures { option_copied result ≡ entry_of (exports_of exports.now) (meant_by name.entry) }
{
    exports.get(name)
}

/// The same meaning, if there is one.
pub fn copied(found: Option<&Meaning>) -> Result<Option<Meaning>, Memory>
    ensures { IfOk result (λ meaning. meaning ≡ option_copied found.entry) }
{
    match found {
        Some(meaning) => Ok(Some(meaning.copied()?)),
        None => Ok(None),
    }
}
