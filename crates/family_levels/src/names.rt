// The names of a module, and their levels.
ghost use Rattle.std.specs.Prelude.{◌≡◌, [], IfOk, map};
ghost use Rattle.family_levels.specs.Judging.{level_at, with_level};

use check_core::Checked;
use indexmap::IndexMap;
use std::alloc::Global;
use std::marker::Model;
use std::sync::Arc;
use tla_model::{Decl, Level, Use};
use tool_list::{List, Memory};

/// The uses of names in a module, with their levels where it is accepted, and its declarations,
/// both in the order of the text. There are none after a fault of its front or of an import.
pub struct Names {
    pub uses: List<Use>,
    pub decls: List<Decl>,
}

// By hand, so that a proof meets one call wherever a value ends.
impl Drop for Names {
    fn drop(self) {
        let Names { uses: _, decls: _ } = self;
    }
}

// The level of the use that begins there.
fn level_at(levels: &IndexMap<u32, Level>, start: u32) -> Level
    ensures { result ≡ level_at levels.now start }
{
    match levels.get(&start) {
        Some(level) => *level,
        None => Level::Constant,
    }
}

// Uses with their levels.
fn with_levels(uses: List<Use>, levels: &IndexMap<u32, Level>) -> List<Use>
    ensures { result ≡ map (with_level levels.now) uses }
{
    let mut uses = uses.into_vec();
    for found in uses.iter_mut() {
        found.level = level_at(levels, found.name.start);
    }
    List::from_vec(uses)
}

impl Names {
    /// No names.
    pub(crate) fn none(alloc: Global) -> Names
        ensures uses { result.uses ≡ [] }
        ensures decls { result.decls ≡ [] }
    {
        Names {
            uses: List::new(alloc),
            decls: List::new(alloc),
        }
    }

    /// Those of a module that was checked, whose levels are not known.
    pub(crate) fn of(checked: Checked) -> Names
        ensures uses { result.uses ≡ checked.uses }
        ensures decls { result.decls ≡ checked.decls }
    {
        let (uses, decls) = checked.into_names();
        Names { uses, decls }
    }

    /// Those of a module that was checked, with the levels of its uses.
    pub(crate) fn leveled(checked: Checked, levels: &IndexMap<u32, Level>) -> Names
        ensures uses { result.uses ≡ map (with_level levels.now) checked.uses }
        ensures decls { result.decls ≡ checked.decls }
    {
        let (uses, decls) = checked.into_names();
        Names {
            uses: with_levels(uses, levels),
            decls,
        }
    }
}

/// Names that copies share. Contracts see the names.
pub struct SharedNames {
    names: Arc<Names>,
}

// By hand, so that a proof meets one call wherever a value ends.
impl Drop for SharedNames {
    fn drop(self) {
        let SharedNames { names: _ } = self;
    }
}

impl Model for SharedNames {
    ghost use Rattle.std.specs.Arc.{arc_value};
    ghost use Rattle.family_levels.specs.declared.names.Names.{Names};

    ghost Value = { Names };

    ghost view = { λ n. arc_value n.names };
}

impl SharedNames {
    /// These names, to be shared.
    pub(crate) fn new(alloc: Global, names: Names) -> Result<SharedNames, Memory>
        ensures { IfOk result (λ shared. shared ≡ names) }
    {
        Ok(SharedNames {
            names: Arc::new(alloc, names)?,
        })
    }

    /// The names.
    pub fn names(&self) -> &Names
        ensures { result.now ≡ self.now }
    {
        &self.names
    }

    /// The same names. `Memory` comes where so many copies can't be counted.
    pub(crate) fn copied(&self) -> Result<SharedNames, Memory>
        ensures { IfOk result (λ shared. shared ≡ self.now) }
    {
        Ok(SharedNames {
            names: self.names.clone()?,
        })
    }
}
