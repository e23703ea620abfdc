// Where slots stand, and how they are found.
ghost use Rattle.std.specs.Prelude.{◌≡◌, ◌<◌, ◌++◌, ◌∷◌, [], Some, MatchOption, OnOk, OnErr, length, remove, slice_get, slice_set};
ghost use Rattle.fact_store.specs.Slots.{HasNoSlot, IsIndexOf};
ghost use Rattle.fact_store.specs.Slots as slots_of;
ghost use Rattle.fact_store.specs.Right as rules;
ghost use Rattle.fact_store.specs.declared.slot.Slot.{Slot as SlotOf};

use crate::given::Given;
use crate::slot::{Kept, Slot, set_inputs, set_text};
use indexmap::IndexMap;
use slab::Slab;
use std::alloc::Global;
use std::marker::Model;
use tool_list::{Chars, List, Memory};

/// Slots in the order in which their names came. An index is where a slot stands in that order.
#[derive(Drop)]
pub struct Shelf<O: Drop, F: Drop> {
    slots: Slab<Slot<O, F>>,
    // Each name with the key of its slot.
    names: IndexMap<String, usize>,
}

impl<O: Drop, F: Drop> Model for Shelf<O, F> {
    ghost use Rattle.std.specs.Prelude.{List};
    ghost use Rattle.fact_store.specs.declared.slot.Slot.{Slot as SlotOf};

    ghost Value = { List (SlotOf O F) };

    ghost use Rattle.fact_store.specs.Shelf.{shelved, IsShelf};

    ghost view = { λ s. shelved s.slots s.names.entries };

    ghost invariant = { λ s. IsShelf s.slots s.names.entries };
}

impl<O: Drop, F: Drop> Shelf<O, F> {
    /// No slots. It takes no memory.
    pub fn new(alloc: Global) -> Shelf<O, F>
        ensures { result ≡ [] }
    {
        Shelf {
            slots: Slab::new(alloc),
            names: IndexMap::new(alloc),
        }
    }

    /// How many slots there are.
    pub fn len(&self) -> usize
        ensures { result ≡ length self.now }
    {
        self.names.len()
    }

    /// The slot at an index.
    pub fn at(&self, index: usize) -> &Slot<O, F>
        requires { index < length self.now }
        ensures { slice_get self.now index ≡ Some result.now }
    {
        &self.slots[self.names[index]]
    }

    /// The index of the slot with this name.
    pub fn index_of(&self, name: &str) -> Option<usize>
        ensures { MatchOption result (HasNoSlot self.now name.now) (IsIndexOf self.now name.now) }
    {
        self.names.get_index_of(name)
    }

    /// Puts a slot behind the others. After `Memory` all is as before.
    pub fn push(&mut self, alloc: Global, slot: Slot<O, F>) -> Result<(), Memory>
        requires { HasNoSlot self.old slot.name }
        ensures ok { OnOk result (self.new ≡ self.old ++ slot ∷ []) }
        ensures err { OnErr result (self.new ≡ self.old) }
    {
        let name = String::from_str(alloc, slot.name.as_str())?;
        self.slots.reserve(1)?;
        self.names.insert(name, self.slots.vacant_key())?;
        self.slots.insert_reserved(slot);
        Ok(())
    }

    /// Takes the slot at an index away. Its key stays vacant until a slot is pushed.
    pub fn remove(&mut self, index: usize)
        requires { index < length self.old }
        ensures { self.new ≡ remove self.old index }
    {
        let Some((_, key)) = self.names.shift_remove_index(index) else {
            unreachable!();
        };
        let _ = self.slots.remove(key);
    }

    /// Gives the slot at an index another text with its parts.
    pub fn set_text(&mut self, index: usize, bytes: List<u8>, own: O, needs: Option<List<Chars>>)
        requires { index < length self.old }
        ensures { (slot : SlotOf O F) → slice_get self.old index ≡ Some slot
            → self.new
            ≡ slice_set self.old index
            (record {
              name = slot.name;
              bytes = bytes;
              own = own;
              needs = needs;
              kept =
                  slots_of.kept_after slot.kept slot.bytes bytes;
            }) }
    {
        let key = self.names[index];
        set_text(&mut self.slots[key], bytes, own, needs);
    }

    /// Puts what the needs of the slot at an index give now in the place of what they gave when its
    /// fact was made.
    pub fn set_inputs(&mut self, index: usize, given: Given<F>)
        requires { index < length self.old }
        ensures { (slot : SlotOf O F) → slice_get self.old index ≡ Some slot
            → self.new
            ≡ slice_set self.old index (record slot { kept = rules.with_given slot.kept given }) }
    {
        let key = self.names[index];
        set_inputs(&mut self.slots[key], given);
    }

    /// Gives the slot at an index another fact.
    pub fn keep(&mut self, index: usize, kept: Kept<F>)
        requires { index < length self.old }
        ensures { (slot : SlotOf O F) → slice_get self.old index ≡ Some slot
            → self.new ≡ slice_set self.old index (record slot { kept = Some kept }) }
    {
        let key = self.names[index];
        let slot = &mut self.slots[key];
        slot.kept = Some(kept);
    }
}
