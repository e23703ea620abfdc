// Lexemes.
use crate::op::Op;

/// A reserved word that is no operator (*Specifying Systems*, section 15.1.1).
#[derive(Clone, Copy, Debug, PartialEq, Eq)]
pub enum Word {
    /// `ASSUME`
    Assume,
    /// `ASSUMPTION`
    Assumption,
    /// `AXIOM`
    Axiom,
    /// `CASE`
    Case,
    /// `CHOOSE`
    Choose,
    /// `CONSTANT`
    Constant,
    /// `CONSTANTS`
    Constants,
    /// `ELSE`
    Else,
    /// `EXCEPT`
    Except,
    /// `EXTENDS`
    Extends,
    /// `IF`
    If,
    /// `IN`
    In,
    /// `INSTANCE`
    Instance,
    /// `LET`
    Let,
    /// `LOCAL`
    Local,
    /// `MODULE`
    Module,
    /// `OTHER`
    Other,
    /// `SF_`
    StrongFair,
    /// `THEN`
    Then,
    /// `THEOREM`
    Theorem,
    /// `VARIABLE`
    Variable,
    /// `VARIABLES`
    Variables,
    /// `WF_`
    WeakFair,
    /// `WITH`
    With,
    /// `LAMBDA`, which no lexeme is as yet.
    Lambda,
}

/// A sign that is no operator.
#[derive(Clone, Copy, Debug, PartialEq, Eq)]
pub enum Mark {
    /// `==`
    Define,
    /// `->`
    Arrow,
    /// `<-`
    LeftArrow,
    /// `|->`
    MapsTo,
    /// `,`
    Comma,
    /// `:`
    Colon,
    /// `!`
    Bang,
    /// `@`
    At,
    /// `(`
    LeftParen,
    /// `)`
    RightParen,
    /// `[`
    LeftBracket,
    /// `]`
    RightBracket,
    /// `]_`
    RightBracketSubscript,
    /// `{`
    LeftBrace,
    /// `}`
    RightBrace,
    /// `<<`
    LeftAngle,
    /// `>>`
    RightAngle,
    /// `>>_`
    RightAngleSubscript,
    /// `_`
    Underscore,
    /// `.`
    Dot,
    /// `\A`
    ForAll,
    /// `\E`
    Exists,
    /// `\AA`
    TemporalForAll,
    /// `\EE`
    TemporalExists,
}

/// What a lexeme is.
#[derive(Clone, Copy, Debug, PartialEq, Eq)]
pub enum LexKind {
    /// Letters, digits and `_` with at least one letter, and no reserved word.
    Name,
    Word(Word),
    Number,
    /// A string, with its quotes.
    Str,
    Sym(Op),
    Mark(Mark),
    /// Four or more `-`.
    Dashes,
    /// Four or more `=`, but for the run that closes the module.
    Equals,
    /// The run of `=` that closes the outermost module, and so the list of lexemes.
    Close,
    /// The text's end, where nothing closed the module.
    End,
    /// A place at which no lexeme begins. It ends the list of lexemes.
    Bad,
}

/// A part of a text, in bytes from the text's start. The end is exclusive.
#[derive(Clone, Copy, Debug, PartialEq, Eq)]
pub struct Span {
    pub start: u32,
    pub end: u32,
}

/// A lexeme and its place.
#[derive(Clone, Copy, Debug, PartialEq, Eq)]
pub struct Lexeme {
    pub kind: LexKind,
    pub span: Span,
    /// The line on which it begins, from 0.
    pub line: u32,
    /// Its alignment column, from 0: the number of characters before it on its line, where a tab
    /// moves to the next multiple of 8.
    pub col: u32,
}
