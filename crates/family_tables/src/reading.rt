// What was read of a module.
ghost use Rattle.std.specs.Prelude.{◌≡◌, IfOk};
ghost use Rattle.family_tables.specs.Needs.{needs_of};

use std::alloc::Global;
use std::marker::Model;
use std::sync::Arc;
use tla_model::Diagnostic;
use tla_tree::ModuleTree;
use tool_list::{Chars, List, Memory};

/// The tree of a module, with the names of the modules that it needs. Copies share both. Contracts
/// see the tree.
pub struct SharedTree {
    tree: Arc<ModuleTree>,
    needs: Arc<List<Chars>>,
}

// By hand, so that a proof meets one call wherever a value ends.
impl Drop for SharedTree {
    fn drop(self) {
        let SharedTree { tree: _, needs: _ } = self;
    }
}

impl Model for SharedTree {
    ghost use Rattle.std.specs.Prelude.{◌≡◌};
    ghost use Rattle.std.specs.Arc.{arc_value};
    ghost use Rattle.tla_tree.specs.declared.unit.ModuleTree.{ModuleTree};
    ghost use Rattle.family_tables.specs.Needs.{needs_of};

    ghost Value = { ModuleTree };

    ghost view = { λ t. arc_value t.tree };

    ghost invariant = { λ t. arc_value t.needs ≡ needs_of (arc_value t.tree) };
}

impl SharedTree {
    /// The tree with the names of the modules that it needs, to be shared.
    pub fn new(alloc: Global, tree: ModuleTree, needs: List<Chars>) -> Result<SharedTree, Memory>
        requires { needs ≡ needs_of tree }
        ensures { IfOk result (λ shared. shared ≡ tree) }
    {
        Ok(SharedTree {
            tree: Arc::new(alloc, tree)?,
            needs: Arc::new(alloc, needs)?,
        })
    }

    /// The tree.
    pub fn tree(&self) -> &ModuleTree
        ensures { result.now ≡ self.now }
    {
        &self.tree
    }

    /// The names of the modules that it needs, in the order of its text.
    pub fn needs(&self) -> &List<Chars>
        ensures { result.now ≡ needs_of self.now }
    {
        &self.needs
    }

    /// The same tree. `Memory` comes where so many copies can't be counted.
    pub fn copied(&self) -> Result<SharedTree, Memory>
        ensures { IfOk result (λ shared. shared ≡ self.now) }
    {
        Ok(SharedTree {
            tree: self.tree.clone()?,
            needs: self.needs.clone()?,
        })
    }
}

/// The tree of a module, or its one front fault.
pub enum Reading {
    Tree(SharedTree),
    Fault(Diagnostic),
}

// By hand, so that a proof meets one call wherever a value ends.
impl Drop for Reading {
    fn drop(self) {
        match self {
            Reading::Tree(_) | Reading::Fault(_) => {}
        }
    }
}

/// A module that was read, with the names of the modules that it needs.
pub struct Module {
    pub reading: Reading,
    pub needs: List<Chars>,
}

// By hand, so that a proof meets one call wherever a value ends.
impl Drop for Module {
    fn drop(self) {
        let Module {
            reading: _,
            needs: _,
        } = self;
    }
}
