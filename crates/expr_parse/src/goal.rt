// What a machine reads, and what it answers.
ghost use Rattle.std.specs.Prelude.{◌≡◌};
ghost use Rattle.expr_parse.specs.Goals as goals;

use tla_symbols::{LexKind, Mark, Op, Word};

/// What is read.
#[derive(Clone, Copy, Debug, PartialEq, Eq)]
pub enum Goal {
    /// An expression.
    Expression,
    /// The bounds in the head of a function's definition, as in `f[x \in S, y \in T] == e`.
    Bounds,
}

/// What a lexeme led to.
#[derive(Clone, Copy, Debug, PartialEq, Eq)]
pub enum Step {
    /// The lexeme goes on with what is read.
    Going,
    /// What stands before the lexeme is whole, and the lexeme is no part of it. The node has the
    /// expression, or the bounds as its children.
    Done { node: u32 },
    /// Nothing that is read so begins with the lexemes so far.
    Refused,
}

// Whether an expression of a unit may be done before a lexeme of this kind: before what parts
// units or begins one, and what ends modules.
fn stops(kind: LexKind) -> bool
    ensures { result ≡ goals.stops kind }
{
    match kind {
        LexKind::Name | LexKind::Dashes | LexKind::Equals | LexKind::Close => true,
        LexKind::Mark(mark) => matches!(&mark, Mark::Comma | Mark::RightBracket),
        LexKind::Sym(op) => matches!(&op, Op::Negative),
        LexKind::Word(word) => begins_unit(word),
        _ => false,
    }
}

// Whether units begin with the word.
fn begins_unit(word: Word) -> bool
    ensures { result ≡ goals.stops (LexKind.Word word) }
{
    match word {
        Word::Assume
        | Word::Assumption
        | Word::Axiom
        | Word::Constant
        | Word::Constants
        | Word::Instance
        | Word::Local
        | Word::Theorem
        | Word::Variable
        | Word::Variables => true,
        _ => false,
    }
}

impl Goal {
    /// Whether what is read may be done before a lexeme of this kind.
    pub(crate) fn may_end(self, kind: LexKind) -> bool
        ensures { result ≡ goals.may_end self kind }
    {
        match self {
            Goal::Expression => stops(kind),
            Goal::Bounds => matches!(&kind, LexKind::Mark(Mark::RightBracket)),
        }
    }
}
