// Instances that are found, each with the table of what its module exports.
ghost use Rattle.std.specs.Prelude.{◌≡◌, [], OnOk, is_some, length, option_map, slice_get};
ghost use Rattle.std.specs.Arc.{arc_value};
ghost use Rattle.tla_model.specs.Entities.{same_decl};
ghost use Rattle.tla_model.specs.Tables as tables;
ghost use Rattle.module_model.specs.Parts.{table_shown};
ghost use Rattle.exact_faces.specs.Found.{decl_of, of_text};

use indexmap::IndexMap;
use std::alloc::Global;
use std::marker::Model;
use std::sync::Arc;
use tla_model::{DeclId, NameTable};
use tool_list::Memory;

/// Instances that are found, by the declarations of their names, each once, in the order in which
/// they were put: with the tables of what their modules export.
pub struct Found<'f> {
    entries: IndexMap<(&'f str, u32), &'f Arc<NameTable>>,
}

// By hand, so that a proof meets one call wherever a value ends.
impl<'f> Drop for Found<'f> {
    fn drop(self) {
        let Found { entries: _ } = self;
    }
}

impl<'f> Model for Found<'f> {
    ghost use Rattle.exact_faces.specs.Found.{Tables, tables_of};

    ghost Value = { Tables };

    ghost view = { λ f. tables_of f.entries.entries };
}

impl<'f> Found<'f> {
    /// None. It takes no memory.
    pub fn new(alloc: Global) -> Found<'f>
        ensures { result ≡ [] }
    {
        Found {
            entries: IndexMap::new(alloc),
        }
    }

    /// How many there are.
    pub fn len(&self) -> usize
        ensures { result ≡ length self.now }
    {
        self.entries.len()
    }

    /// The table of the instance at a place of the order.
    pub fn at(&self, index: usize) -> Option<&'f Arc<NameTable>>
        ensures { table_shown result ≡ option_map (λ entry. entry.1) (slice_get self.now index) }
    {
        match self.entries.get_index(index) {
            Some((_, table)) => Some(*table),
            None => None,
        }
    }

    /// The table of the instance at a place of the order, if its name is declared in the text of this
    /// module.
    pub fn at_text(&self, index: usize, module: &str) -> Option<&'f Arc<NameTable>>
        ensures { table_shown result ≡ of_text «module».now (slice_get self.now index) }
    {
        match self.entries.get_index(index) {
            Some(((text, _), table)) => {
                if *text == module {
                    return Some(*table);
                }
                None
            }
            None => None,
        }
    }

    /// The table of the instance whose name is declared at this place of a module's text, if it is
    /// found.
    pub fn get(&self, module: &str, place: u32) -> Option<&'f Arc<NameTable>>
        ensures { table_shown result
            ≡ tables.lookup same_decl self.now (decl_of «module».now place) }
    {
        match self.entries.get(&(module, place)) {
            Some(table) => Some(*table),
            None => None,
        }
    }

    /// Whether the instance whose name is declared at this place of a module's text is found.
    pub fn has(&self, module: &str, place: u32) -> bool
        ensures { result ≡ is_some (tables.lookup same_decl self.now (decl_of «module».now place)) }
    {
        self.get(module, place).is_some()
    }

    /// Puts the instance of a declaration behind the others, unless it is there.
    pub fn put(&mut self, decl: &'f DeclId, table: &'f Arc<NameTable>) -> Result<(), Memory>
        ensures { OnOk result (self.new
            ≡ tables.added same_decl self.old decl.entry.now (arc_value table.entry.now)) }
    {
        let key = (decl.module.as_str(), decl.place);
        if self.entries.contains_key(&key) {
            return Ok(());
        }
        self.entries.insert(key, table)?;
        Ok(())
    }
}
