//! Lists and texts that contracts see as lists.
//!
//! Knows nothing of what the items mean. What grows a value answers [`Memory`] where there is no
//! room, and the value is then as before.
#![tactic(auto)]

ghost use Rattle.std.specs.Prelude.{◌≡◌, ◌↔◌, [], ◌∷◌, ◌++◌, IfOk, IsTrue, OnOk, OnErr, length};
ghost use Rattle.std.specs.Prelude.{nat_eq};
ghost use Rattle.std.specs.declared.option.Option.TheVariants.{Some};
ghost use Rattle.std.specs.Ordering.{nat_cmp};
ghost use Rattle.std.specs.Cmp.Lexicographic.{pointwise, slice_cmp, nat_list_eq_equiv, nat_list_cmp_total, texts_ties, texts_po};
ghost use Rattle.std.specs.Cmp.{partial_equiv_from_equiv};
ghost use Rattle.std.proofs.Common.{refl};

mod slices;

pub use slices::{copied, prefix, skip};
use std::alloc::{AllocError, AllocFailed, Global};
use std::cmp::Ordering;
use std::marker::Model;
use std::sync::{ArcSlice, ArcStr};

/// There was no room for what a call was to make: the fault of a call that has no other.
#[derive(Clone, Copy, Debug, PartialEq, Eq)]
pub struct Memory;

impl From<AllocError> for Memory {
    fn from(_: AllocError) -> Self {
        Memory
    }
}

impl<T: Drop> From<AllocFailed<T>> for Memory {
    fn from(_: AllocFailed<T>) -> Self {
        Memory
    }
}

/// A list of items. A type may hold itself through one.
#[derive(Drop)]
pub struct List<T> {
    items: Vec<T>,
}

impl<T> Model for List<T> {
    ghost use Rattle.std.specs.Prelude.{List};
    ghost use Rattle.std.specs.Coded.{coded_list};

    ghost Value = { List T };

    ghost coded = { coded_list T.code };

    ghost view = { λ l. l.items.items };
}

impl<T> List<T> {
    /// The empty list. It takes no memory.
    pub fn new(alloc: Global) -> List<T>
        ensures { result ≡ [] }
    {
        List {
            items: Vec::new(alloc),
        }
    }

    /// The list of the same items. It takes no memory.
    pub fn from_vec(items: Vec<T>) -> List<T>
        ensures { result ≡ items.items }
    {
        List { items }
    }

    /// The vector of the same items. It takes no memory.
    pub fn into_vec(self) -> Vec<T>
        ensures { result.items ≡ self }
    {
        let List { items } = self;
        items
    }

    /// The items in order.
    pub fn as_slice(&self) -> &[T]
        ensures { result.now ≡ self.now }
    {
        self.items.as_slice()
    }

    /// How many items there are.
    pub fn len(&self) -> usize
        ensures { result ≡ length self.now }
    {
        self.items.len()
    }

    /// Whether there is no item.
    pub fn is_empty(&self) -> bool
        ensures { IsTrue result ↔ (length self.now ≡ 0) }
    {
        self.items.is_empty()
    }
}

impl<T: Drop> List<T> {
    /// Appends the item. After `Memory` the item is dropped, and the list is as before.
    pub fn push(&mut self, item: T) -> Result<(), Memory>
        ensures ok { OnOk result (self.new ≡ self.old ++ item ∷ []) }
        ensures err { OnErr result (self.new ≡ self.old) }
    {
        self.items.push(item)?;
        Ok(())
    }
}

impl<T: Drop> List<T> {
    /// The same items, to be shared.
    pub fn into_shared(self) -> Result<SharedList<T>, Memory>
        ensures { IfOk result (λ shared. shared ≡ self) }
    {
        let List { items } = self;
        if items.is_empty() {
            return Ok(SharedList { items: None });
        }
        Ok(SharedList {
            items: Some(ArcSlice::from_vec(items)?),
        })
    }
}

/// A list of items that stays as it is. Copies share it.
pub struct SharedList<T: Drop> {
    // None where there is no item.
    items: Option<ArcSlice<T>>,
}

// By hand, so that a proof meets one call wherever a value ends.
impl<T: Drop> Drop for SharedList<T> {
    fn drop(self) {
        let SharedList { items: _ } = self;
    }
}

impl<T: Drop> Model for SharedList<T> {
    ghost use Rattle.std.specs.Prelude.{List};
    ghost use Rattle.std.specs.Coded.{coded_list};
    ghost use Rattle.tool_list.specs.Shared.{shared_items};

    ghost Value = { List T };

    ghost coded = { coded_list T.code };

    ghost view = { λ l. shared_items l.items };
}

impl<T: Drop> SharedList<T> {
    /// The empty list. It takes no memory.
    pub fn new() -> SharedList<T>
        ensures { result ≡ [] }
    {
        SharedList { items: None }
    }

    /// The items in order.
    pub fn as_slice(&self) -> &[T]
        ensures { result.now ≡ self.now }
    {
        match &self.items {
            Some(items) => items.as_slice(),
            None => &[],
        }
    }

    /// The same list. `Memory` comes where so many copies can't be counted.
    pub fn copied(&self) -> Result<SharedList<T>, Memory>
        ensures { IfOk result (λ shared. shared ≡ self.now) }
    {
        match &self.items {
            Some(items) => Ok(SharedList {
                items: Some(items.clone()?),
            }),
            None => Ok(SharedList { items: None }),
        }
    }
}

/// A text: valid UTF-8, which contracts see as its bytes. Copies share it.
pub struct Chars {
    text: ArcStr,
}

// By hand, so that a proof meets one call wherever a value ends.
impl Drop for Chars {
    fn drop(self) {
        let Chars { text: _ } = self;
    }
}

impl Model for Chars {
    ghost use Rattle.std.specs.Prelude.{List, ℕ};
    ghost use Rattle.std.specs.Arc.{arc_str_bytes};

    ghost Value = { List ℕ };

    ghost view = { λ c. arc_str_bytes c.text };
}

impl Chars {
    /// The same text, in memory of its own.
    pub fn from_str(alloc: Global, text: &str) -> Result<Chars, Memory>
        ensures { IfOk result (λ chars. chars ≡ text.now) }
    {
        Ok(Chars {
            text: ArcStr::from_str(alloc, text)?,
        })
    }

    /// The same text. It shares the memory of this one. `Memory` comes where so many copies can't be
    /// counted.
    pub fn copied(&self) -> Result<Chars, Memory>
        ensures { IfOk result (λ chars. chars ≡ self.now) }
    {
        Ok(Chars {
            text: self.text.clone()?,
        })
    }

    /// The same text.
    pub fn as_str(&self) -> &str
        ensures { result.now ≡ self.now }
    {
        self.text.as_str()
    }
}

impl PartialEq for Chars {
    ghost eq = { pointwise nat_eq };

    ghost laws = { partial_equiv_from_equiv nat_list_eq_equiv };

    fn eq(&self, other: &Self) -> bool {
        self.as_str() == other.as_str()
    }
}

impl Eq for Chars {
    ghost laws = { nat_list_eq_equiv };
}

impl PartialOrd for Chars {
    ghost partial_cmp = { λ x y. Some (slice_cmp nat_cmp x y) };

    ghost laws = { texts_po };

    fn partial_cmp(&self, other: &Self) -> Option<Ordering> {
        Some(self.cmp(other))
    }
}

/// Texts are ordered by their bytes.
impl Ord for Chars {
    ghost cmp = { slice_cmp nat_cmp };

    ghost total = { nat_list_cmp_total };

    ghost matches_partial_cmp = { λ x y. refl };

    ghost matches_eq = { texts_ties };

    fn cmp(&self, other: &Self) -> Ordering {
        self.as_str().cmp(other.as_str())
    }
}
