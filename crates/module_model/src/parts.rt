// The instances that a face reaches.
ghost use Rattle.std.specs.Prelude.{◌≡◌, ◌∷◌, [], is_some, nat_eq, IfOk, IsTrue, OnOk, length};
ghost use Rattle.std.specs.Prelude.{option_map, slice_get};
ghost use Rattle.std.specs.Arc.{arc_value};
ghost use Rattle.tla_model.specs.Tables as tables;
ghost use Rattle.module_model.specs.Parts.{AreJoined, AreUnited, IsSet, instance_shown, part_shown};
ghost use Rattle.module_model.specs.Parts.{reached, table_shown};

use indexmap::IndexMap;
use std::alloc::Global;
use std::marker::Model;
use std::sync::Arc;
use tla_model::{DeclId, NameTable};
use tool_list::Memory;

/// What a face reaches of the text of one module: instances that it declares. Contracts see them by the
/// places of their names, each with what its module exports, in the order in which they were put.
pub struct Part {
    instances: IndexMap<u32, Arc<NameTable>>,
}

// By hand, so that a proof meets one call wherever a value ends.
impl Drop for Part {
    fn drop(self) {
        let Part { instances: _ } = self;
    }
}

impl Model for Part {
    ghost use Rattle.module_model.specs.Parts.{InText, in_text};

    ghost Value = { InText };

    ghost view = { λ p. in_text p.instances.entries };
}

impl Part {
    /// No instances. It takes no memory.
    pub fn new(alloc: Global) -> Part
        ensures { result ≡ [] }
    {
        Part {
            instances: IndexMap::new(alloc),
        }
    }

    /// What the module exports of which the instance at a place is one, if it is there.
    pub fn get(&self, place: u32) -> Option<&Arc<NameTable>>
        ensures { table_shown result ≡ tables.lookup nat_eq self.now place }
    {
        self.instances.get(&place)
    }

    /// How many instances there are.
    pub fn len(&self) -> usize
        ensures { result ≡ length self.now }
    {
        self.instances.len()
    }

    /// The place of an instance by its number, in the order in which they were put, with what the module
    /// exports of which it is one.
    pub fn at(&self, index: usize) -> Option<(u32, &Arc<NameTable>)>
        ensures { option_map instance_shown result ≡ slice_get self.now index }
    {
        match self.instances.get_index(index) {
            Some((place, exports)) => Some((*place, exports)),
            None => None,
        }
    }

    // Whether the instance at a place is there.
    fn has(&self, place: u32) -> bool
        ensures { result ≡ is_some (tables.lookup nat_eq self.now place) }
    {
        self.instances.contains_key(&place)
    }

    /// Puts an instance whose name stands at a place, with what its module exports, unless one is there.
    pub fn put(&mut self, place: u32, exports: Arc<NameTable>) -> Result<(), Memory>
        ensures { OnOk result (self.new
            ≡ tables.added nat_eq self.old place (arc_value exports)) }
    {
        if self.instances.contains_key(&place) {
            return Ok(());
        }
        self.instances.insert(place, exports)?;
        Ok(())
    }

    // Puts all instances of another part. Those that are there stay as they are.
    fn put_all(&mut self, other: &Part) -> Result<(), Memory>
        ensures { OnOk result (AreUnited self.new self.old other.now) }
    {
        for index in 0..other.instances.len() {
            let Some((place, exports)) = other.instances.get_index(index) else {
                unreachable!();
            };
            self.put(*place, exports.clone()?)?;
        }
        Ok(())
    }

    // Whether all instances of another part are there.
    fn has_all(&self, other: &Part) -> bool
        ensures { IsTrue result → AreUnited self.now self.now other.now }
    {
        for index in 0..other.instances.len() {
            let Some((place, _)) = other.instances.get_index(index) else {
                unreachable!();
            };
            if !self.has(*place) {
                return false;
            }
        }
        true
    }
}

// Both parts in one. What is in the first stays as it is.
fn united(alloc: Global, first: &Part, second: &Part) -> Result<Part, Memory>
    ensures { IfOk result (λ part. AreUnited part first.now second.now) }
{
    let mut part = Part::new(alloc);
    part.put_all(first)?;
    part.put_all(second)?;
    Ok(part)
}

/// The instances that a face reaches, each once, in parts that faces share: one for each text that
/// declares some of them. Contracts see them by their declarations, each with what its module exports.
pub struct Parts {
    texts: IndexMap<String, Arc<Part>>,
}

// By hand, so that a proof meets one call wherever a value ends.
impl Drop for Parts {
    fn drop(self) {
        let Parts { texts: _ } = self;
    }
}

impl Model for Parts {
    ghost use Rattle.module_model.specs.Parts.{ByText, by_text};

    ghost Value = { ByText };

    ghost view = { λ p. by_text p.texts.entries };
}

impl Parts {
    /// No instances. It takes no memory.
    pub fn new(alloc: Global) -> Parts
        ensures { result ≡ [] }
    {
        Parts {
            texts: IndexMap::new(alloc),
        }
    }

    /// What the module exports of which the instance of a declaration is one, if it is there.
    pub fn get(&self, decl: &DeclId) -> Option<&Arc<NameTable>>
        ensures { table_shown result ≡ reached self.now decl.now }
    {
        match self.texts.get(decl.module.as_str()) {
            Some(part) => part.get(decl.place),
            None => None,
        }
    }

    /// How many parts there are.
    pub fn len(&self) -> usize
        ensures { result ≡ length self.now }
    {
        self.texts.len()
    }

    /// A part by its number, with the module whose text declares its instances.
    pub fn at(&self, index: usize) -> Option<(&str, &Arc<Part>)>
        ensures { option_map part_shown result ≡ slice_get self.now index }
    {
        match self.texts.get_index(index) {
            Some((title, part)) => Some((title.as_str(), part)),
            None => None,
        }
    }

    // Puts the part of a text, in place of one that is there.
    fn set(&mut self, alloc: Global, title: &str, part: Arc<Part>) -> Result<(), Memory>
        ensures { OnOk result (IsSet self.new self.old title.now (arc_value part)) }
    {
        let title = String::from_str(alloc, title)?;
        self.texts.insert(title, part)?;
        Ok(())
    }

    // Adds a part of a text: it is shared where none is there, and nothing is built where it adds nothing.
    fn join_part(&mut self, alloc: Global, title: &str, part: &Arc<Part>) -> Result<(), Memory>
        ensures { OnOk result (AreJoined self.new self.old
            ((title.now, arc_value part.now) ∷ [])) }
    {
        let Some(first) = self.texts.get(title) else {
            self.set(alloc, title, part.clone()?)?;
            return Ok(());
        };
        if first.has_all(part) {
            return Ok(());
        }
        let both = united(alloc, first, part)?;
        self.set(alloc, title, Arc::new(alloc, both)?)?;
        Ok(())
    }

    /// Adds instances that the text of a module declares. One that is there stays as it is.
    pub fn add(&mut self, alloc: Global, module: &str, part: Part) -> Result<(), Memory>
        ensures { OnOk result (AreJoined self.new self.old
            ((«module».now, part) ∷ [])) }
    {
        let part = Arc::new(alloc, part)?;
        self.join_part(alloc, module, &part)
    }

    /// Adds the instances that another face reaches. One that is there stays as it is. Parts of texts
    /// that are not there are shared.
    pub fn join(&mut self, alloc: Global, other: &Parts) -> Result<(), Memory>
        ensures { OnOk result (AreJoined self.new self.old other.now) }
    {
        for index in 0..other.texts.len() {
            let Some((title, part)) = other.texts.get_index(index) else {
                unreachable!();
            };
            self.join_part(alloc, title.as_str(), part)?;
        }
        Ok(())
    }
}
