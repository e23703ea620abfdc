// Tables of moves: what lexemes begin, what they are after an operand, and which are bullets.
ghost use Rattle.std.specs.Prelude.{◌≡◌};
ghost use Rattle.expr_grammar.specs.Tables as tables;

use expr_grammar::{Handed, Mode, Role, Start, Wait};
use tla_symbols::{Fix, LexKind, Lexeme, Mark, Op, Word, range_of};
use tla_tree::Form;

fn is_junction(kind: LexKind) -> bool
    ensures { result ≡ tables.is_junction kind }
{
    match kind {
        LexKind::Sym(Op::And) | LexKind::Sym(Op::Or) => true,
        _ => false,
    }
}

fn is_same_junction(kind: LexKind, other: LexKind) -> bool
    ensures { result ≡ tables.same_junction kind other }
{
    match kind {
        LexKind::Sym(Op::And) => match other {
            LexKind::Sym(Op::And) => true,
            _ => false,
        },
        LexKind::Sym(Op::Or) => match other {
            LexKind::Sym(Op::Or) => true,
            _ => false,
        },
        _ => false,
    }
}

/// Whether the lexeme opens an aligned list where an operand is due: only the spellings `/\` and
/// `\/` do, not `\land` and `\lor`.
pub fn is_bullet(lexeme: Lexeme) -> bool
    ensures { result ≡ tables.is_bullet lexeme }
{
    is_junction(lexeme.kind) && lexeme.span.end >= 2 && lexeme.span.end - 2 == lexeme.span.start
}

/// Whether the lexeme begins the next item of the list that the first bullet opened.
pub fn goes_on(first: Lexeme, lexeme: Lexeme) -> bool
    ensures { result ≡ tables.goes_on first lexeme }
{
    is_bullet(lexeme) && is_same_junction(lexeme.kind, first.kind) && lexeme.col == first.col
}

fn symbol_role(op: Op) -> Role
    ensures { result ≡ tables.role_of op }
{
    if range_of(op, Fix::Infix).is_some() {
        return Role::Symbol(op, Fix::Infix);
    }
    if range_of(op, Fix::Postfix).is_some() {
        return Role::Symbol(op, Fix::Postfix);
    }
    Role::Mark
}

/// What the lexeme is after an operand.
pub fn role(kind: LexKind) -> Role
    ensures { result ≡ tables.role kind }
{
    match kind {
        LexKind::Sym(op) => symbol_role(op),
        LexKind::Mark(Mark::LeftBracket) => Role::Apply,
        LexKind::Mark(Mark::Dot) => Role::Select,
        _ => Role::Mark,
    }
}

fn symbol_start(op: Op, lexeme: Lexeme) -> Start
    ensures { result ≡ tables.start_symbol op lexeme }
{
    if is_bullet(lexeme) {
        return Start::Push(Wait::ListFirst(lexeme));
    }
    if range_of(op, Fix::Prefix).is_some() {
        return Start::Push(Wait::PrefixOperand(lexeme));
    }
    Start::NoStart
}

fn mark_start(mark: Mark, lexeme: Lexeme) -> Start
    ensures { result ≡ tables.start_kind (LexKind.Mark mark) lexeme }
{
    match mark {
        Mark::At => Start::Leaf(Form::At(lexeme)),
        Mark::LeftParen => Start::Push(Wait::ParenthesesBody),
        Mark::LeftBracket => Start::Push(Wait::SquareFirst(true)),
        Mark::LeftBrace => Start::Push(Wait::BraceFirst),
        Mark::LeftAngle => Start::Push(Wait::AngleFirst(true)),
        Mark::ForAll | Mark::Exists => Start::Push(Wait::QuantifierFirst(lexeme)),
        Mark::TemporalForAll | Mark::TemporalExists => Start::Push(Wait::TemporalFirst(lexeme)),
        _ => Start::NoStart,
    }
}

fn word_start(word: Word, lexeme: Lexeme) -> Start
    ensures { result ≡ tables.start_kind (LexKind.Word word) lexeme }
{
    match word {
        Word::Choose => Start::Push(Wait::ChooseFirst),
        Word::If => Start::Push(Wait::IfTest),
        Word::Case => Start::Push(Wait::CaseArms),
        Word::Let => Start::Push(Wait::LetFirst),
        Word::WeakFair | Word::StrongFair => Start::Push(Wait::FairSubscript(lexeme)),
        _ => Start::NoStart,
    }
}

// What the lexeme begins where an expression is due.
fn starts_expression(lexeme: Lexeme) -> Start
    ensures { result ≡ tables.start_kind lexeme.kind lexeme }
{
    match lexeme.kind {
        LexKind::Name => Start::Hand(Handed::Segment),
        LexKind::Number => Start::Leaf(Form::Number(lexeme)),
        LexKind::Str => Start::Leaf(Form::Text(lexeme)),
        LexKind::Sym(op) => symbol_start(op, lexeme),
        LexKind::Mark(mark) => mark_start(mark, lexeme),
        LexKind::Word(word) => word_start(word, lexeme),
        _ => Start::NoStart,
    }
}

// What the lexeme begins where a subscript is due.
fn starts_subscript(lexeme: Lexeme) -> Start
    ensures { result ≡ tables.subscript_kind lexeme.kind lexeme }
{
    match lexeme.kind {
        LexKind::Name => Start::PushLeaf(Form::Segment(lexeme), Wait::SubscriptRead),
        LexKind::Mark(mark) => match mark {
            Mark::LeftParen => Start::Push(Wait::ParenthesesBody),
            Mark::LeftBracket => Start::Push(Wait::SquareFirst(false)),
            Mark::LeftBrace => Start::Push(Wait::BraceFirst),
            Mark::LeftAngle => Start::Push(Wait::AngleFirst(false)),
            _ => Start::NoStart,
        },
        _ => Start::NoStart,
    }
}

/// What the lexeme begins in a frame in which this comes next.
pub fn begins(mode: Mode, lexeme: Lexeme) -> Start
    ensures { result ≡ tables.begins mode lexeme }
{
    match mode {
        Mode::Operand => starts_expression(lexeme),
        Mode::Subscript => starts_subscript(lexeme),
        Mode::Marks | Mode::Child => Start::NoStart,
    }
}
