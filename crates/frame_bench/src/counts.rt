//! What is counted of contents.

ghost use Rattle.std.specs.Prelude.{◌≤◌};

use crate::refused::refused_in;
use crate::task::Task;
use std::alloc::Global;
use tool_list::Memory;

/// Counts of the contents of frames.
#[derive(Clone, Copy, Debug)]
pub struct Counts {
    pub contents: u64,
    /// The bytes of all contents together.
    pub bytes: u64,
    /// The contents that are no message, where each is read as one.
    pub refused: u64,
    ghost among: { refused ≤ contents },
}

impl Counts {
    ghost use Rattle.std.specs.Prelude.{ℕ, ◌+◌, ◌^◌, ◌<◌, List, [], ◌∷◌, ◌++◌, IfOk, length};
    ghost use Rattle.frame_bench.specs.Counting.{HasCounts};
    ghost use Rattle.frame_bench.specs.declared.task.Task.{Task};

    /// Those of no content.
    pub fn none() -> Counts
        ensures { (task : Task) → HasCounts task [] result }
    {
        Counts {
            contents: 0,
            bytes: 0,
            refused: 0,
        }
    }

    /// Those of one more content.
    pub fn with(self, alloc: Global, task: Task, content: &[u8]) -> Result<Counts, Memory>
        requires { self.contents + self.bytes + length content.now < 2 ^ 62 }
        ensures { (contents : List (List ℕ)) → HasCounts task contents self
            → IfOk result (HasCounts task (contents ++ content.now ∷ [])) }
    {
        let refused = refused_in(alloc, task, content)?;
        Ok(Counts {
            contents: self.contents + 1,
            bytes: self.bytes + content.len() as u64,
            refused: self.refused + refused,
        })
    }
}
