// The machine that reads expressions.
ghost use Rattle.std.specs.Prelude.{◌≡◌, ◌+◌, ◌*◌, ◌≤◌, ℕ, List, [], ◌∷◌, cond, false, Option, Some, None, length, OnOk, OnErr, IfOk};
ghost use Rattle.tla_symbols.specs.declared.lexeme.Lexeme.{Lexeme};
ghost use Rattle.tla_tree.specs.Arena as Arena;
ghost use Rattle.expr_grammar.specs.Machine as machine;
ghost use Rattle.expr_grammar.specs.Counting as counting;
ghost use Rattle.expr_parse.specs.declared.machine.Stage.TheVariants as Stage;
ghost use Rattle.expr_parse.specs.declared.goal.Step.TheVariants as Step;
ghost use Rattle.expr_parse.specs.declared.turn.Turn.TheVariants as Turn;
ghost use Rattle.expr_parse.specs.Goals as goals;
ghost use Rattle.expr_parse.specs.Ending as ends;
ghost use Rattle.tree_parts.specs.Parts.{Grows};
ghost use Rattle.expr_stack.specs.StackMeaning.{Stands};
ghost use Rattle.expr_parse.specs.TurnMeaning.{IsTurn, IsTurnReady, Turns};
ghost use Rattle.expr_parse.specs.MachineMeaning.{StandsAt, HasRead, IsReady, IsRefusing, IsAnswer, IsDone, HasStepped, start_of};

use crate::begins::{due, goes_on};
use crate::ending::{close, is_whole, whole};
use crate::goal::{Goal, Step};
use crate::parts::have;
use crate::turn::Turn;
use expr_grammar::Wait;
use expr_stack::Stack;
use std::alloc::Global;
use tla_symbols::{LexKind, Lexeme};
use tla_tree::Tree;
use tool_list::Memory;

// Where a machine stands.
#[derive(Clone, Copy)]
enum Stage {
    // Nothing was read.
    Begins,
    Goes(Turn),
}

/// A machine that reads an expression, or the bounds in the head of a function's definition, lexeme
/// by lexeme, into a tree (*Specifying Systems*, chapters 15 and 16). It calls nothing that calls
/// itself, however deep what it reads is nested.
pub struct ExprMachine {
    goal: Goal,
    stack: Stack,
    stage: Stage,
}

// By hand, so that a proof meets one call wherever a value ends.
impl Drop for ExprMachine {
    fn drop(self) {
        let ExprMachine {
            goal: _,
            stack: _,
            stage: _,
        } = self;
    }
}

// What a lexeme leads to.
fn advance(stack: &mut Stack, tree: &mut Tree, turn: Turn, lexeme: Lexeme) -> Result<Turn, Memory>
    requires { IsTurnReady tree.old stack.old turn }
    ensures { IfOk result (λ next. (state : Option machine.State)
        → IsTurn tree.old stack.old turn state
        → Turns tree.old tree.new stack.new next (machine.run state (lexeme ∷ []))
        (counting.made_run state (lexeme ∷ []))) }
{
    match turn {
        Turn::Refused => Ok(Turn::Refused),
        Turn::Due => {
            let next = due(stack, tree, lexeme)?;
            Ok(next)
        }
        Turn::Read(part) => {
            let next = have(stack, tree, part, lexeme)?;
            Ok(next)
        }
    }
}

impl ExprMachine {
    /// A machine that has read nothing. It takes no memory.
    pub fn new(alloc: Global, goal: Goal) -> ExprMachine
        ensures goal { result.goal ≡ goal }
        ensures read { (nodes : List Arena.Node) → HasRead nodes result (length nodes) [] }
        ensures ready { (nodes : List Arena.Node) → IsReady nodes result }
    {
        ExprMachine {
            goal,
            stack: Stack::new(alloc),
            stage: Stage::Begins,
        }
    }

    /// Reads a lexeme after those that were read. `next` is the lexeme after it; no reading needs it,
    /// since all are chosen by what was read before them.
    ///
    /// `Done` comes exactly where the lexemes before this one are whole and this one may follow: for
    /// an expression a comma, `]`, `-.`, a name, a word that begins a unit, a run of dashes or of
    /// `=`, or the run that closes the module; for bounds `]`. `Refused` comes exactly where it is not
    /// `Done` and nothing that is derivable begins with the lexemes so far. After either, and after
    /// `Memory`, it refuses whatever comes. All its steps together add at most eight nodes for each,
    /// and leave the nodes that were there. `Memory` comes only where there is no room, where the tree
    /// has 2^32 - 1 nodes, or where an operator's parameter has as many places.
    pub fn step(&mut self, lexeme: &Lexeme, _next: &Lexeme, tree: &mut Tree) -> Result<Step, Memory>
        requires { IsReady tree.old self.old }
        ensures answer { IfOk result (λ step. (before : ℕ) → (lexemes : List Lexeme)
            → HasRead tree.old self.old before lexemes
            → IsAnswer tree.new self.new before lexemes lexeme.now step) }
        ensures few { OnOk result ((before : ℕ) → (lexemes : List Lexeme)
            → HasRead tree.old self.old before lexemes
            → length tree.new ≤ before + 8 * (length lexemes + 1)) }
        ensures grows { OnOk result (Grows tree.old tree.new) }
        ensures refusing { IsRefusing self.old
            → IfOk result (λ step. (step ≡ Step.Refused) × IsRefusing self.new) }
        ensures memory { OnErr result (IsRefusing self.new) }
        ensures goal { self.new.goal ≡ self.old.goal }
        ensures ready { IsReady tree.new self.new }
    {
        match self.answer(*lexeme, tree) {
            Ok(step) => Ok(step),
            Err(memory) => {
                self.stage = Stage::Goes(Turn::Refused);
                Err(memory)
            }
        }
    }

    fn answer(&mut self, lexeme: Lexeme, tree: &mut Tree) -> Result<Step, Memory>
        requires { IsReady tree.old self.old }
        ensures answer { IfOk result (λ step. (before : ℕ) → (lexemes : List Lexeme)
            → HasRead tree.old self.old before lexemes
            → IsAnswer tree.new self.new before lexemes lexeme step) }
        ensures few { OnOk result ((before : ℕ) → (lexemes : List Lexeme)
            → HasRead tree.old self.old before lexemes
            → length tree.new ≤ before + 8 * (length lexemes + 1)) }
        ensures grows { OnOk result (Grows tree.old tree.new) }
        ensures refusing { IsRefusing self.old
            → IfOk result (λ step. (step ≡ Step.Refused) × IsRefusing self.new) }
        ensures goal { self.new.goal ≡ self.old.goal }
        ensures ready { OnOk result (IsReady tree.new self.new) }
    {
        let turn = self.begun()?;
        if self.ends(tree, turn, lexeme.kind) {
            let step = self.finish(tree, turn)?;
            return Ok(step);
        }
        let step = self.read(tree, turn, lexeme)?;
        Ok(step)
    }

    // Where the machine stands, with its outermost frame on the stack.
    fn begun(&mut self) -> Result<Turn, Memory>
        ensures turn { IfOk result (λ turn. (nodes : List Arena.Node)
            → (state : Option machine.State) → StandsAt nodes self.old self.old.stage state
            → IsTurn nodes self.new.stack turn state) }
        ensures goal { self.new.goal ≡ self.old.goal }
    {
        match self.stage {
            Stage::Goes(turn) => Ok(turn),
            Stage::Begins => {
                let turn = open(&mut self.stack, self.goal)?;
                Ok(turn)
            }
        }
    }

    // Whether what is read is whole, and a lexeme of this kind may follow.
    fn ends(&self, tree: &Tree, turn: Turn, kind: LexKind) -> bool
        requires { IsTurnReady tree.now self.now.stack turn }
        ensures { (state : Option machine.State) → IsTurn tree.now self.now.stack turn state
            → result
            ≡ cond (goals.may_end self.now.goal kind)
            (ends.is_whole self.now.goal (ends.ending_of state)) false }
    {
        self.goal.may_end(kind) && is_whole(&self.stack, tree, turn, self.goal)
    }

    // Ends all frames: what is read is whole.
    fn finish(&mut self, tree: &mut Tree, turn: Turn) -> Result<Step, Memory>
        requires { IsTurnReady tree.old self.old.stack turn }
        ensures done { IfOk result (λ step. (state : Option machine.State) → (last : ends.Outermost)
            → IsTurn tree.old self.old.stack turn state → ends.ending_of state ≡ Some last
            → IsDone tree.old tree.new self.old.goal step last (counting.made_finish state)) }
        ensures grows { OnOk result (Grows tree.old tree.new) }
        ensures goal { self.new.goal ≡ self.old.goal }
        ensures refused { OnOk result (self.new.stage ≡ Stage.Goes Turn.Refused) }
    {
        let left = close(&mut self.stack, tree, turn)?;
        self.stage = Stage::Goes(Turn::Refused);
        let Some(part) = left else {
            return Ok(Step::Refused);
        };
        let node = whole(&mut self.stack, tree, part, self.goal)?;
        Ok(Step::Done { node })
    }

    // Reads the lexeme.
    fn read(&mut self, tree: &mut Tree, turn: Turn, lexeme: Lexeme) -> Result<Step, Memory>
        requires { IsTurnReady tree.old self.old.stack turn }
        ensures read { IfOk result (λ step. (state : Option machine.State)
            → IsTurn tree.old self.old.stack turn state
            → HasStepped tree.old tree.new self.new step state lexeme) }
        ensures goal { self.new.goal ≡ self.old.goal }
    {
        let next = advance(&mut self.stack, tree, turn, lexeme)?;
        self.stage = Stage::Goes(next);
        match next {
            Turn::Refused => Ok(Step::Refused),
            Turn::Due => Ok(Step::Going),
            Turn::Read(_) => Ok(Step::Going),
        }
    }
}

// Puts the outermost frame on the stack.
fn open(stack: &mut Stack, goal: Goal) -> Result<Turn, Memory>
    ensures { IfOk result (λ turn. (nodes : List Arena.Node) → Stands nodes stack.old []
        → IsTurn nodes stack.new turn (Some (start_of goal))) }
{
    let opening = stack.opening(None);
    match goal {
        Goal::Expression => {
            stack.put(Wait::Whole, opening)?;
            Ok(Turn::Due)
        }
        Goal::Bounds => {
            let turn = goes_on(stack, Wait::WholeBounds, opening)?;
            Ok(turn)
        }
    }
}
