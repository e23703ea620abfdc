// What the modules that a module names are to it.
ghost use Rattle.std.specs.Prelude.{◌≡◌, ◌↔◌, ◌++◌, ◌∷◌, [], length, option_copied, IsTrue, OnOk, OnErr};
ghost use Rattle.module_model.specs.Imports.{import_of, HasNoImport};

use crate::face::Face;
use indexmap::IndexMap;
use std::alloc::Global;
use std::marker::Model;
use std::sync::Arc;
use tool_list::Memory;

/// What a module that is named in another one is to it.
#[derive(Drop)]
pub enum Import {
    /// There is no such module.
    Unknown,
    /// It is the module that names it, or reaches that one.
    Cyclic,
    /// It has a fault.
    Refused,
    /// It is accepted.
    Module(Arc<Face>),
}

/// Imports under their names, each name once. Contracts see the list of names with their imports, in
/// the order in which they were added.
pub struct Imported {
    imports: IndexMap<String, Import>,
}

// By hand, so that a proof meets one call wherever a value ends.
impl Drop for Imported {
    fn drop(self) {
        let Imported { imports: _ } = self;
    }
}

impl Model for Imported {
    ghost use Rattle.module_model.specs.Imports.{Imports, imports_of};

    ghost Value = { Imports };

    ghost view = { λ i. imports_of i.imports.entries };
}

impl Imported {
    /// No imports. It takes no memory.
    pub fn new(alloc: Global) -> Imported
        ensures { result ≡ [] }
    {
        Imported {
            imports: IndexMap::new(alloc),
        }
    }

    /// How many imports there are.
    pub fn len(&self) -> usize
        ensures { result ≡ length self.now }
    {
        self.imports.len()
    }

    /// Whether there is no import.
    pub fn is_empty(&self) -> bool
        ensures { IsTrue result ↔ (length self.now ≡ 0) }
    {
        self.imports.is_empty()
    }

    /// The import under a name, if there is one.
    pub fn get(&self, name: &str) -> Option<&Import>
        ensures { option_copied result ≡ import_of self.now name.now }
    {
        self.imports.get(name)
    }

    /// Puts an import behind the others, under a name that has none. After `Memory` the import is
    /// dropped, and all is as before.
    pub fn add(&mut self, alloc: Global, name: &str, import: Import) -> Result<(), Memory>
        requires { HasNoImport self.old name.now }
        ensures ok { OnOk result (self.new ≡ self.old ++ (name.now, import) ∷ []) }
        ensures err { OnErr result (self.new ≡ self.old) }
    {
        let name = String::from_str(alloc, name)?;
        self.imports.insert(name, import)?;
        Ok(())
    }
}
