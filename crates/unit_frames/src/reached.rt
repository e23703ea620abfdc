// What was read of a module.
ghost use Rattle.std.specs.Prelude.{◌+◌, ◌≤◌, ◌<◌, ◌^◌, ℕ, suc, List, [], ◌∷◌, ◌++◌, IfOk, OnErr};
ghost use Rattle.tla_tree.specs.Arena.{Node};
ghost use Rattle.unit_grammar.specs.Units.{UnitTree};
ghost use Rattle.unit_grammar.specs.UnitNodes.{AreUnits};
ghost use Rattle.unit_frames.specs.FrameMeaning.{IsReached};

use std::alloc::Global;
use tla_tree::Unit;
use tool_list::{List, Memory};

/// How many modules are open, and the units so far, with the begins of these modules.
#[derive(Drop)]
pub struct Reached {
    pub alloc: Global,
    pub depth: usize,
    pub units: List<Unit>,
}

impl Reached {
    /// Nothing was read.
    pub fn new(alloc: Global) -> Reached
        ensures { (nodes : List Node) → IsReached nodes result 0 [] }
    {
        Reached {
            alloc,
            depth: 0,
            units: List::new(alloc),
        }
    }

    /// One more unit was read.
    pub fn with(self, unit: Unit) -> Result<Reached, Memory>
        ensures { IfOk result (λ more. (nodes : List Node) → (depth : ℕ) → (units : List UnitTree)
            → (last : UnitTree) → IsReached nodes self depth units
            → AreUnits nodes (unit ∷ []) (last ∷ [])
            → IsReached nodes more depth (units ++ last ∷ [])) }
    {
        let mut units = self.units;
        units.push(unit)?;
        Ok(Reached {
            alloc: self.alloc,
            depth: self.depth,
            units,
        })
    }

    /// A module is open inside those that were. `Memory` only where they would be 2^64.
    pub fn opens(self) -> Result<Reached, Memory>
        ensures opens { IfOk result (λ more. (nodes : List Node) → (depth : ℕ)
            → (units : List UnitTree) → IsReached nodes self depth units
            → IsReached nodes more (suc depth) units) }
        ensures bound { OnErr result (2 ^ 64 ≤ self.depth + 1) }
    {
        let Some(depth) = self.depth.checked_add(1) else {
            return Err(Memory);
        };
        Ok(Reached {
            alloc: self.alloc,
            depth,
            units: self.units,
        })
    }

    /// The innermost module is read.
    pub fn closes(self) -> Reached
        requires { 0 < self.depth }
        ensures { (nodes : List Node) → (depth : ℕ) → (units : List UnitTree)
            → IsReached nodes self (suc depth) units → IsReached nodes result depth units }
    {
        Reached {
            alloc: self.alloc,
            depth: self.depth - 1,
            units: self.units,
        }
    }
}
