// The names of a module that is read: those that stand in its context, and those that it exports.
ghost use Rattle.std.specs.Prelude.{◌≡◌, ℕ, List as ListOf, [], Some, false, IfSome, IsTrue, OnOk, if◌then◌else◌, slice_get, take};
ghost use Rattle.std.specs.Str.{bytes_eq};
ghost use Rattle.module_model.specs.Exports.{of_words};
ghost use Rattle.module_model.specs.Modules as in_modules;
ghost use Rattle.tla_model.specs.Stretches.{shown};
ghost use Rattle.tla_model.specs.Tables as tables;
ghost use Rattle.tla_model.specs.Tables.{AreNew};
ghost use Rattle.name_context.specs.AsTables.{behind, meant_by, usable, usable_words};
ghost use Rattle.name_exports.specs.Brought.{AreFirst, IsBrought, ModuleNames, as_read};

use crate::exported::Exported;
use crate::same::equal_entries;
use name_context::{Context, Named};
use std::alloc::Global;
use tla_model::{Meaning, NameTable};
use tool_list::Memory;

/// The names of a module that is read.
pub struct Names<'a> {
    pub context: Context<'a>,
    pub exports: Exported<'a>,
}

// By hand, so that a proof meets one call wherever a value ends.
impl<'a> Drop for Names<'a> {
    fn drop(self) {
        let Names {
            context: _,
            exports: _,
        } = self;
    }
}

// Puts a name among those that are exported, unless it is LOCAL.
fn export<'a>(
    alloc: Global,
    exports: &mut Exported<'a>,
    local: bool,
    name: Named<'a>,
    meaning: &Meaning,
) -> Result<(), Memory>
    ensures { OnOk result (exports.new
        ≡ (if local then exports.old
        else tables.put exports.old (meant_by name.entry) meaning.now)) }
{
    if local {
        return Ok(());
    }
    exports.put(name, meaning.copied()?)
}

impl<'a> Names<'a> {
    /// Puts a name that may be exported, unless it is LOCAL. A name that is there stays as it is.
    pub fn put(
        &mut self,
        alloc: Global,
        local: bool,
        name: Named<'a>,
        meaning: Meaning,
    ) -> Result<(), Memory>
        ensures { OnOk result ((title : ListOf ℕ) → (modules : ModuleNames)
            → as_read title modules self.new
            ≡ in_modules.with_entry local (as_read title modules self.old)
            (meant_by name.entry) meaning) }
    {
        export(alloc, &mut self.exports, local, name, &meaning)?;
        self.context.put(name, Some(meaning))
    }

    /// Takes over the words of a module that is extended where that can be done, and answers whether it
    /// was: all of them are new then, so that none clashes.
    pub fn take_words(&mut self, table: &'a NameTable) -> bool
        ensures taken { IsTrue result
            → IsBrought self.old self.new false (of_words table.now.words) }
        ensures left { result ≡ false → self.new ≡ self.old }
    {
        if !self.exports.has_no_word() || !self.context.can_take(table) {
            return false;
        }
        self.exports.take(table);
        self.context.take(table);
        true
    }

    // Whether a word stands at a place of those that are exported, and of those behind the first ones
    // of the context, and means this there.
    fn has_at(&self, index: usize, given: (&str, &Meaning)) -> bool
        ensures shown { IsTrue result
            → slice_get self.now.exports.words index ≡ Some (shown given.entry) }
        ensures seen { IsTrue result
            → slice_get (behind self.now.context) index ≡ Some (usable (shown given.entry)) }
    {
        let Some(found) = self.context.word_behind(index) else {
            return false;
        };
        equal_entries(found, given) && self.exports.has_at(index, given)
    }

    // How many of a table's words are the first that are exported, and the first behind the first
    // ones of the context. No word of the table is there twice.
    fn first_len(&self, table: &NameTable) -> usize
        ensures once { AreNew bytes_eq [] table.now.words }
        ensures shown { take result self.now.exports.words ≡ take result table.now.words }
        ensures seen { take result (behind self.now.context)
            ≡ usable_words (take result table.now.words) }
    {
        let len = table.len();
        for index in 0..len {
            let Some(entry) = table.word_at(index) else {
                return index;
            };
            if !self.has_at(index, entry) {
                return index;
            }
        }
        len
    }

    /// How many of a table's words are there as they stand in the table, from the first one on. It is
    /// `None` where the table has words that stand before those, or to look them up were more work.
    pub fn first_there(&self, table: &NameTable) -> Option<usize>
        ensures { IfSome result (λ count. AreFirst self.now table.now.words count) }
    {
        let count = self.first_len(table);
        if self.context.is_apart(table, count) {
            return Some(count);
        }
        None
    }

    /// Takes over the words of a table of which so many are there, in place of these, where there are
    /// no others, and answers whether it was: then none clashes.
    pub fn take_longer(&mut self, table: &'a NameTable, count: usize) -> bool
        requires { AreFirst self.old table.now.words count }
        ensures taken { IsTrue result
            → IsBrought self.old self.new false (of_words table.now.words) }
        ensures left { result ≡ false → self.new ≡ self.old }
    {
        if !self.exports.has_at_most(count) || !self.context.has_at_most_behind(count) {
            return false;
        }
        self.exports.take(table);
        self.context.take_instead(table);
        true
    }
}
