// Items under names.
ghost use Rattle.std.specs.Prelude.{◌≡◌, ◌<◌, ◌++◌, ◌∷◌, [], Some, None, length, option_copied, slice_get, OnOk};
ghost use Rattle.family_tables.specs.Tables.{entry_of};

use indexmap::IndexMap;
use std::alloc::Global;
use std::marker::Model;
use tool_list::Memory;

/// Items under their names, each name once. Contracts see the list of names with their items, in the
/// order in which they were added.
pub struct Table<T> {
    rows: IndexMap<String, T>,
}

// By hand, so that a proof meets one call wherever a value ends.
impl<T: Drop> Drop for Table<T> {
    fn drop(self) {
        let Table { rows: _ } = self;
    }
}

impl<T> Model for Table<T> {
    ghost use Rattle.std.specs.Prelude.{List, ℕ};
    ghost use Rattle.family_tables.specs.Tables.{entries_of};

    ghost Value = { List (List ℕ × T) };

    ghost view = { λ t. entries_of t.rows.entries };
}

impl<T: Drop> Table<T> {
    /// No items. It takes no memory.
    pub fn new(alloc: Global) -> Table<T>
        ensures { result ≡ [] }
    {
        Table {
            rows: IndexMap::new(alloc),
        }
    }

    /// How many items there are.
    pub fn len(&self) -> usize
        ensures { result ≡ length self.now }
    {
        self.rows.len()
    }

    /// The name and the item at an index.
    pub fn at(&self, index: usize) -> (&str, &T)
        requires { index < length self.now }
        ensures { slice_get self.now index ≡ Some (result.0.now, result.1.now) }
    {
        let Some((name, item)) = self.rows.get_index(index) else {
            unreachable!();
        };
        (name.as_str(), item)
    }

    /// The item under a name, if there is one.
    pub fn get(&self, name: &str) -> Option<&T>
        ensures { option_copied result ≡ entry_of self.now name.now }
    {
        self.rows.get(name)
    }

    /// Puts an item behind the others, under a name that has none. `Memory` comes where there was no
    /// room.
    pub fn add(&mut self, alloc: Global, name: &str, item: T) -> Result<(), Memory>
        requires { entry_of self.old name.now ≡ None }
        ensures { OnOk result (self.new ≡ self.old ++ (name.now, item) ∷ []) }
    {
        let name = String::from_str(alloc, name)?;
        self.rows.insert(name, item)?;
        Ok(())
    }
}
