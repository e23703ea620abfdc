// What is kept of nested modules that have ended.
ghost use Rattle.std.specs.Prelude.{◌≡◌, ◌++◌, ◌∷◌, [], IfOk, None, OnOk, filter, is_some, map, true};
ghost use Rattle.std.specs.List.{AllByRecursion};
ghost use Rattle.std.specs.Str.{bytes_eq};
ghost use Rattle.tla_model.specs.Entities.{same_decl};
ghost use Rattle.tla_model.specs.EntityKinds.{is_meant, stands_for_parameter};
ghost use Rattle.tla_model.specs.Stretches.{shown};
ghost use Rattle.tla_model.specs.Tables.{AreNew, find, lookup, same_symbol};
ghost use Rattle.module_model.specs.Exports.{exports_of, parameters_in};
ghost use Rattle.module_model.specs.Given.{AreReached};
ghost use Rattle.module_model.specs.Instances as instances;
ghost use Rattle.name_context.specs.AsTables.{context_of, meant_by};
ghost use Rattle.instance_leads.specs.Found.{AreIn, AreTold, IsTold, is_new_symbol, is_new_word, with_last};

use instance_leads::{Leads, is_parameter};
use name_context::{Context, Named};
use name_exports::Exported;
use std::alloc::Global;
use tla_model::{DeclId, Entity, Meaning};
use tla_symbols::Op;
use tool_list::Memory;

// ---- parameters

// Puts a name that is not there behind the others.
fn put_new<'a>(own: &mut Exported<'a>, name: Named<'a>, meaning: &Meaning) -> Result<(), Memory>
    requires { find own.old (meant_by name) ≡ None }
    ensures { OnOk result (own.new ≡ with_last own.old (meant_by name.entry) meaning.now) }
{
    own.put(name, meaning.copied()?)
}

// Puts a word that stands for a parameter, unless the context holds it.
fn put_word<'a>(
    own: &mut Exported<'a>,
    context: &Context<'a>,
    word: &'a str,
    meaning: &Meaning,
) -> Result<(), Memory>
    requires { lookup bytes_eq own.old.words word.now ≡ None }
    ensures words { OnOk result (own.new.words ≡ own.old.words
        ++ filter (is_new_word (context_of context.now)) ((word.entry.now, meaning.now) ∷ [])) }
    ensures symbols { OnOk result (own.new.symbols ≡ own.old.symbols) }
{
    if context.get(Named::Word(word)).is_some() {
        return Ok(());
    }
    put_new(own, Named::Word(word), meaning)
}

// Puts a symbol if it stands for a parameter, unless the context holds it.
fn put_symbol<'a>(
    own: &mut Exported<'a>,
    context: &Context<'a>,
    op: Op,
    meaning: &Meaning,
) -> Result<(), Memory>
    requires { lookup same_symbol own.old.symbols op ≡ None }
    ensures words { OnOk result (own.new.words ≡ own.old.words) }
    ensures symbols { OnOk result (own.new.symbols ≡ own.old.symbols
        ++ filter (is_new_symbol (context_of context.now))
        (filter (λ symbol. is_meant stands_for_parameter symbol.1) ((op, meaning.now) ∷ []))) }
{
    if !is_parameter(meaning) || context.get(Named::Symbol(op)).is_some() {
        return Ok(());
    }
    put_new(own, Named::Symbol(op), meaning)
}

// Puts words that stand for parameters, but for those that the context holds.
fn put_words<'a>(
    own: &mut Exported<'a>,
    context: &Context<'a>,
    words: &[(&'a str, &Meaning)],
) -> Result<(), Memory>
    requires { AreNew bytes_eq own.old.words (map shown words.now) }
    ensures words { OnOk result (own.new.words ≡ own.old.words
        ++ filter (is_new_word (context_of context.now)) (map shown words.now)) }
    ensures symbols { OnOk result (own.new.symbols ≡ own.old.symbols) }
{
    for (word, meaning) in words {
        put_word(own, context, *word, *meaning)?;
    }
    Ok(())
}

// Puts the symbols that stand for parameters, but for those that the context holds.
fn put_symbols<'a>(
    own: &mut Exported<'a>,
    context: &Context<'a>,
    symbols: &[(Op, Meaning)],
) -> Result<(), Memory>
    requires { AreNew same_symbol own.old.symbols symbols.now }
    ensures words { OnOk result (own.new.words ≡ own.old.words) }
    ensures symbols { OnOk result (own.new.symbols ≡ own.old.symbols
        ++ filter (is_new_symbol (context_of context.now))
        (filter (λ symbol. is_meant stands_for_parameter symbol.1) symbols.now)) }
{
    for (op, meaning) in symbols {
        put_symbol(own, context, *op, meaning)?;
    }
    Ok(())
}

/// The parameters of a nested module that exports this: those that the context round it does not hold.
pub fn own_parameters<'a>(
    alloc: Global,
    exports: &Exported<'a>,
    context: &Context<'a>,
) -> Result<Exported<'a>, Memory>
    ensures { IfOk result (λ own. parameters_in (exports_of own)
        ≡ instances.own_parameters (context_of context.now) (exports_of exports.now)) }
{
    let words = exports.parameters(alloc)?;
    let symbols = exports.symbols();
    let mut own = Exported::new(alloc);
    put_words(&mut own, context, words.as_slice())?;
    put_symbols(&mut own, context, symbols)?;
    Ok(own)
}

// ---- instances

// Keeps where the instance of a declaration leads, which is known.
fn keep<'a>(kept: &mut Leads<'a>, known: &Leads<'a>, decl: &DeclId) -> Result<(), Memory>
    requires there { is_some (lookup same_decl known.now decl.now) ≡ true }
    requires known { AreIn known.now kept.old }
    ensures known { OnOk result (AreIn known.now kept.new) }
    ensures kept { OnOk result (AreIn kept.new kept.old) }
    ensures there { OnOk result (is_some (lookup same_decl kept.new decl.now) ≡ true) }
{
    match known.noted(decl) {
        Some((module, place, held)) => kept.put(module, place, held),
        None => unreachable!(),
    }
}

// Keeps where a name leads that means this, if it is an instance.
fn keep_meant<'a>(kept: &mut Leads<'a>, known: &Leads<'a>, meaning: &Meaning) -> Result<(), Memory>
    requires told { IsTold (lookup same_decl known.now) meaning.now }
    requires known { AreIn known.now kept.old }
    ensures known { OnOk result (AreIn known.now kept.new) }
    ensures kept { OnOk result (AreIn kept.new kept.old) }
    ensures told { OnOk result (IsTold (lookup same_decl kept.new) meaning.now) }
{
    match meaning {
        Meaning::Declared {
            entity: Entity::Instance { .. },
            callee,
        } => keep(kept, known, &callee.decl),
        _ => Ok(()),
    }
}

// Keeps where words lead.
fn keep_words<'a>(
    kept: &mut Leads<'a>,
    known: &Leads<'a>,
    words: &[(&str, &Meaning)],
) -> Result<(), Memory>
    requires told { AllByRecursion
        (λ word. IsTold (lookup same_decl known.now) word.1.now) words.now }
    requires known { AreIn known.now kept.old }
    ensures known { OnOk result (AreIn known.now kept.new) }
    ensures told { OnOk result (AllByRecursion
        (λ word. IsTold (lookup same_decl kept.new) word.1.now) words.now) }
{
    for (_, meaning) in words {
        keep_meant(kept, known, *meaning)?;
    }
    Ok(())
}

// Keeps where symbols lead.
fn keep_symbols<'a>(
    kept: &mut Leads<'a>,
    known: &Leads<'a>,
    symbols: &[(Op, Meaning)],
) -> Result<(), Memory>
    requires told { AllByRecursion
        (λ symbol. IsTold (lookup same_decl known.now) symbol.1) symbols.now }
    requires known { AreIn known.now kept.old }
    ensures known { OnOk result (AreIn known.now kept.new) }
    ensures kept { OnOk result (AreIn kept.new kept.old) }
    ensures told { OnOk result (AllByRecursion
        (λ symbol. IsTold (lookup same_decl kept.new) symbol.1) symbols.now) }
{
    for (_, meaning) in symbols {
        keep_meant(kept, known, meaning)?;
    }
    Ok(())
}

/// Where the instances lead that a nested module exports, each of which is known.
pub fn kept_leads<'a>(
    alloc: Global,
    known: &Leads<'a>,
    exports: &Exported<'a>,
) -> Result<Leads<'a>, Memory>
    requires { AreReached (lookup same_decl known.now) (exports_of exports.now) }
    ensures known { IfOk result (AreIn known.now) }
    ensures told { IfOk result (λ kept. AreTold (lookup same_decl kept) (exports_of exports.now)) }
{
    let words = exports.instances(alloc)?;
    let symbols = exports.symbols();
    let mut kept = Leads::new(alloc);
    keep_words(&mut kept, known, words.as_slice())?;
    keep_symbols(&mut kept, known, symbols)?;
    Ok(kept)
}
