// What is said of names in one module.
ghost use Rattle.std.specs.Prelude.{◌≡◌, ◌+◌, ◌<◌, ◌^◌, [], IfOk, IsTrue, OnOk, length, option_map};
ghost use Rattle.std.specs.Option.{option_copied};
ghost use Rattle.tla_model.specs.Entities as entities;
ghost use Rattle.module_model.specs.Exports.{exports_of, instantiable};
ghost use Rattle.name_context.specs.AsTables.{meant_by};
ghost use Rattle.module_leads.specs.Brought.{name_meaning, symbol_meaning};
ghost use Rattle.module_leads.specs.Layers.{AddsSymbol, HasSymbols, IsBrought, IsPut, IsSilent, brought_by, first_ways, keyed_end, layer_way};
ghost use Rattle.module_leads.specs.Layers.{last_brought, place_end, said_way, symbol_among, symbol_end};
ghost use Rattle.module_leads.specs.Ways.{found_way, unsaid_way};
ghost use Rattle.module_leads.specs.declared.ways.Way.TheVariants as way;

use crate::keys::{MeaningKey, SymbolKey, is_bound};
use crate::ways::{FoundWay, Way, unsaid_end};
use flattened_trees::End;
use indexmap::IndexMap;
use name_context::Named;
use std::alloc::Global;
use std::marker::Model;
use tla_model::{Meaning, NameTable};
use tla_symbols::Op;
use tool_list::Memory;

/// What a module brings that is extended: the definitions and instances that it exports, through an instance
/// of it.
pub struct Brought {
    pub exports: NameTable,
    pub instance: usize,
    pub face: Option<usize>,
}

// By hand, so that a proof meets one call wherever a value ends.
impl Drop for Brought {
    fn drop(self) {
        let Brought {
            exports: _,
            instance: _,
            face: _,
        } = self;
    }
}

/// What is said of names in one module, over what is said round it.
pub struct Layer {
    // Its symbols, each at a place.
    pub symbols: IndexMap<SymbolKey, End>,
    // What is defined, and what is brought as a list.
    pub others: IndexMap<MeaningKey, Way>,
    // What is brought as a table, behind all that was put. The last that has something counts.
    pub brought: Vec<Brought>,
}

// By hand, so that a proof meets one call wherever a value ends.
impl Drop for Layer {
    fn drop(self) {
        let Layer {
            symbols: _,
            others: _,
            brought: _,
        } = self;
    }
}

/// A meaning as it is looked up.
pub struct Sought {
    meaning: MeaningKey,
    symbol: Option<SymbolKey>,
}

// By hand, so that a proof meets one call wherever a value ends.
impl Drop for Sought {
    fn drop(self) {
        let Sought {
            meaning: _,
            symbol: _,
        } = self;
    }
}

impl Model for Sought {
    ghost use Rattle.std.specs.Prelude.{◌≡◌};
    ghost use Rattle.tla_model.specs.Entities.{Meaning};
    ghost use Rattle.module_leads.specs.Keys.{symbol_key};

    ghost Value = { Meaning };

    ghost view = { λ s. s.meaning.meaning };

    ghost invariant = { λ s. s.symbol ≡ symbol_key s.meaning.meaning };
}

impl Sought {
    /// The keys of a meaning.
    pub fn new(meaning: &Meaning) -> Result<Sought, Memory>
        ensures { IfOk result (λ sought. sought ≡ meaning.now) }
    {
        let symbol = SymbolKey::new(meaning)?;
        let meaning = MeaningKey::new(meaning)?;
        Ok(Sought { meaning, symbol })
    }

    // Where the meaning ends where nothing is said of it.
    fn unsaid(&self) -> End
        ensures { way.To result ≡ unsaid_way self.now }
    {
        unsaid_end(&self.meaning.meaning)
    }
}

// The end of a symbol at a place.
fn place_end(place: usize, arity: Option<u32>) -> End
    ensures { result ≡ place_end place arity }
{
    let order = match arity {
        Some(arity) => arity,
        None => 0,
    };
    End::Place { place, order }
}

// Puts a symbol at a place, before those that mean the same. What is no symbol is left out.
fn put_symbol(
    symbols: &mut IndexMap<SymbolKey, End>,
    meaning: &Meaning,
    place: usize,
) -> Result<(), Memory>
    ensures { OnOk result (AddsSymbol symbols.old symbols.new meaning.now place) }
{
    let Some(key) = SymbolKey::new(meaning)? else {
        return Ok(());
    };
    let end = place_end(place, key.arity);
    symbols.insert(key, end)?;
    Ok(())
}

// These symbols, at places from this one on.
fn symbols_at(
    alloc: Global,
    own: &[Meaning],
    place: usize,
) -> Result<IndexMap<SymbolKey, End>, Memory>
    requires { place + length own.now < 2 ^ 64 }
    ensures { IfOk result (λ symbols. (other : entities.Meaning) → symbol_end symbols other
        ≡ symbol_among own.now place other) }
{
    let mut symbols = IndexMap::new(alloc);
    let mut index = own.len();
    while index > 0 {
        index -= 1;
        put_symbol(&mut symbols, &own[index], place + index)?;
    }
    Ok(symbols)
}

// The symbol that means this and can be named behind an instance, if there is one.
fn symbol_meaning(symbols: &[(Op, Meaning)], meaning: &Meaning) -> Option<Op>
    ensures { result ≡ symbol_meaning symbols.now meaning.now }
{
    for (op, meant) in symbols {
        if meant.stands_behind() && meaning == meant {
            return Some(*op);
        }
    }
    None
}

impl Brought {
    // The name of the module that means this, if it brings one.
    fn name(&self, meaning: &Meaning) -> Option<Named<'_>>
        ensures { option_map meant_by result ≡ name_meaning self.now.exports meaning.now }
    {
        if let Some((word, _)) = self.exports.word_meaning(meaning) {
            return Some(Named::Word(word));
        }
        let op = symbol_meaning(self.exports.symbols(), meaning)?;
        Some(Named::Symbol(op))
    }

    // The way of what it brings. A bound name is nothing that a module brings.
    fn way(&self, meaning: &Meaning) -> Option<FoundWay<'_>>
        ensures { option_map found_way result ≡ brought_by self.now meaning.now }
    {
        if is_bound(meaning) {
            return None;
        }
        let name = self.name(meaning)?;
        Some(FoundWay::Through {
            instance: self.instance,
            face: self.face,
            name,
        })
    }
}

// The way of what these bring: the last that has something counts.
fn last_brought<'b>(brought: &'b [Brought], meaning: &Meaning) -> Option<FoundWay<'b>>
    ensures { option_map found_way result ≡ last_brought brought.now meaning.now }
{
    let mut index = brought.len();
    while index > 0 {
        index -= 1;
        if let Some(way) = brought[index].way(meaning) {
            return Some(way);
        }
    }
    None
}

impl Layer {
    /// Nothing is said.
    pub fn new(alloc: Global) -> Layer
        ensures { IsSilent result }
    {
        Layer {
            symbols: IndexMap::new(alloc),
            others: IndexMap::new(alloc),
            brought: Vec::new(alloc),
        }
    }

    /// These symbols, at places from this one on. `Memory` comes where so many places can't be counted.
    pub fn of_symbols(alloc: Global, own: &[Meaning], place: usize) -> Result<Layer, Memory>
        ensures { IfOk result (λ layer. HasSymbols layer own.now place) }
    {
        if place.checked_add(own.len()).is_none() {
            return Err(Memory);
        }
        Ok(Layer {
            symbols: symbols_at(alloc, own, place)?,
            others: IndexMap::new(alloc),
            brought: Vec::new(alloc),
        })
    }

    /// Puts where a meaning leads, before all that was said of it.
    pub fn put(&mut self, meaning: &Meaning, way: Way) -> Result<(), Memory>
        ensures { OnOk result (IsPut self.old self.new meaning.now way) }
    {
        let key = MeaningKey::new(meaning)?;
        self.others.insert(key, way)?;
        Ok(())
    }

    // Where a symbol ends.
    fn symbol(&self, key: Option<&SymbolKey>) -> Option<End>
        ensures { result ≡ keyed_end self.now.symbols (option_copied key.entry) }
    {
        match key {
            Some(key) => self.symbols.get(key).copied(),
            None => None,
        }
    }

    /// Whether nothing was put; what is brought as a table can stand behind that.
    pub fn has_none_put(&self) -> bool
        ensures { IsTrue result → self.now.others.entries ≡ [] }
    {
        self.others.is_empty()
    }

    /// Whether nothing is said.
    pub fn is_silent(&self) -> bool
        ensures { IsTrue result → IsSilent self.now }
    {
        self.symbols.is_empty() && self.others.is_empty() && self.brought.is_empty()
    }

    /// Brings what a table has, through an instance of its module, before all that was brought.
    pub fn bring(&mut self, brought: Brought) -> Result<(), Memory>
        requires { self.old.others.entries ≡ [] }
        ensures { OnOk result (IsBrought self.old self.new (instantiable (exports_of brought.exports))
            brought.instance brought.face) }
    {
        self.brought.push(brought)?;
        Ok(())
    }

    /// The way of what is said of a meaning.
    pub fn way(&self, sought: &Sought) -> Option<FoundWay<'_>>
        ensures { option_map found_way result ≡ said_way self.now sought.now }
    {
        if let Some(way) = self.others.get(&sought.meaning) {
            return Some(FoundWay::Put(way));
        }
        if let Some(way) = last_brought(self.brought.as_slice(), &sought.meaning.meaning) {
            return Some(way);
        }
        let end = self.symbol(sought.symbol.as_ref())?;
        Some(FoundWay::To(end))
    }

    /// The way of a meaning by this layer alone.
    pub fn way_alone(&self, sought: &Sought) -> FoundWay<'_>
        ensures { found_way result ≡ layer_way self.now (unsaid_way sought.now) sought.now }
    {
        match self.way(sought) {
            Some(way) => way,
            None => FoundWay::To(sought.unsaid()),
        }
    }
}

/// The way of a meaning by these layers, each over those before it.
pub(crate) fn way_in<'b>(layers: &'b [Layer], sought: &Sought) -> FoundWay<'b>
    ensures { found_way result ≡ first_ways layers.now (length layers.now) sought.now }
{
    let mut index = layers.len();
    while index > 0 {
        index -= 1;
        match layers[index].way(sought) {
            Some(way) => return way,
            None => {}
        }
    }
    FoundWay::To(sought.unsaid())
}
