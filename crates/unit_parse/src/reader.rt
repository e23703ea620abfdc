// Expressions, and the bounds in heads of functions, as they are read in a unit.
ghost use Rattle.std.specs.Prelude.{ℕ, List, [], IfOk, length};
ghost use Rattle.tla_symbols.specs.declared.lexeme.Lexeme.{Lexeme};
ghost use Rattle.tla_tree.specs.Arena.{Node};
ghost use Rattle.expr_grammar.specs.Machine as expressions;
ghost use Rattle.expr_parse.specs.MachineMeaning.{HasRead, IsReady, start_of};
ghost use Rattle.unit_parse.specs.ReaderMeaning.{IsReading, Feeds};
ghost use Rattle.unit_parse.specs.NodeCounts.{FeedsFew};

use expr_parse::{ExprMachine, Goal, Step};
use std::alloc::Global;
use tla_symbols::{Lexeme, Span};
use tla_tree::Tree;
use tool_list::Memory;
use tree_parts::{Part, joined};

/// An expression, or bounds, of which some lexemes were read, and their span, if there are any.
pub(crate) struct ExprReader {
    pub(crate) machine: ExprMachine,
    pub(crate) span: Option<Span>,
}

// By hand, so that a proof meets one call wherever a value ends.
impl Drop for ExprReader {
    fn drop(self) {
        let ExprReader {
            machine: _,
            span: _,
        } = self;
    }
}

/// What a lexeme led to.
#[derive(Clone, Copy)]
pub(crate) enum Fed {
    /// It goes on with what is read.
    Going,
    /// What stands before it is whole, and it is no part of it.
    Done(Part),
    Refused,
}

impl ExprReader {
    /// Nothing was read.
    pub(crate) fn new(alloc: Global, goal: Goal) -> ExprReader
        ensures reading { (nodes : List Node) → IsReading nodes result goal (start_of goal) [] }
        ensures read { (nodes : List Node) → HasRead nodes result.machine (length nodes) [] }
    {
        ExprReader {
            machine: ExprMachine::new(alloc, goal),
            span: None,
        }
    }

    /// Reads a lexeme after those that were read.
    pub(crate) fn feed(&mut self, tree: &mut Tree, lexeme: Lexeme) -> Result<Fed, Memory>
        requires { IsReady tree.old self.old.machine }
        ensures feeds { IfOk result (λ fed. (goal : Goal) → (state : expressions.State)
            → (read : List Lexeme) → IsReading tree.old self.old goal state read
            → Feeds tree.old tree.new self.new goal state read lexeme fed) }
        ensures few { IfOk result (λ fed. (before : ℕ) → (read : List Lexeme)
            → HasRead tree.old self.old.machine before read
            → FeedsFew tree.new self.new.machine before read lexeme fed) }
    {
        match self.machine.step(&lexeme, &lexeme, tree)? {
            Step::Going => {
                self.span = joined(self.span, Some(lexeme.span));
                Ok(Fed::Going)
            }
            Step::Done { node } => Ok(Fed::Done(Part {
                node,
                span: self.span,
            })),
            Step::Refused => Ok(Fed::Refused),
        }
    }
}
