// The unit that is read, and its frames that wait for their parts.
ghost use Rattle.std.specs.Prelude.{◌≡◌, ◌+◌, ℕ, List, [], ◌∷◌, OnOk, length};
ghost use Rattle.tla_tree.specs.Arena as arena;
ghost use Rattle.unit_grammar.specs.Units as units;
ghost use Rattle.unit_machine.specs.Machine as machine;
ghost use Rattle.unit_frames.specs.FrameMeaning.{IsFrame, IsUnder};

use crate::frame::Frame;
use crate::reached::Reached;
use tla_symbols::Lexeme;
use tool_list::{List, Memory};

/// The unit that is read, with what it has beside its last part.
#[derive(Drop)]
pub enum Begun {
    /// The nodes of the declarations so far.
    Constants(List<u32>),
    /// The LOCAL before a definition, if one stands there.
    Definition(Option<Lexeme>),
    Instance(Option<Lexeme>),
    /// The word of an assumption.
    Assumption(Lexeme),
    Theorem(Lexeme),
}

/// A unit that is read after others, and its frames that wait for their parts, the innermost last.
pub struct Unfinished {
    pub reached: Reached,
    pub begun: Begun,
    pub below: Vec<Frame>,
}

// By hand, so that a proof meets one call wherever a value ends.
impl Drop for Unfinished {
    fn drop(self) {
        let Unfinished {
            reached: _,
            begun: _,
            below: _,
        } = self;
    }
}

impl Unfinished {
    /// A frame waits for a part above those that do.
    pub fn under(&mut self, frame: Frame) -> Result<(), Memory>
        ensures under { OnOk result ((nodes : List arena.Node) → (depth : ℕ)
            → (us : List units.UnitTree) → (b : machine.Begun) → (fs : List machine.Frame)
            → (f : machine.Frame) → IsUnder nodes self.old b fs depth us → IsFrame nodes frame f
            → IsUnder nodes self.new b (f ∷ fs) depth us) }
        ensures one { OnOk result (length self.new.below.items
            ≡ length self.old.below.items + 1) }
    {
        self.below.push(frame)?;
        Ok(())
    }

    /// What was read, and what the unit began with.
    pub fn into_begun(self) -> (Reached, Begun)
        ensures { result ≡ (self.reached, self.begun) }
    {
        let Unfinished {
            reached,
            begun,
            below: _,
        } = self;
        (reached, begun)
    }

    /// No frame waits below.
    pub fn alone(self) -> Unfinished
        ensures under { (nodes : List arena.Node) → (depth : ℕ) → (us : List units.UnitTree)
            → (b : machine.Begun) → (fs : List machine.Frame) → IsUnder nodes self b fs depth us
            → IsUnder nodes result b [] depth us }
        ensures none { length result.below.items ≡ 0 }
    {
        let (reached, begun) = self.into_begun();
        let below = Vec::new(reached.alloc);
        Unfinished {
            reached,
            begun,
            below,
        }
    }
}
