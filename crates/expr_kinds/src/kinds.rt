// Tests for the kinds of lexemes.
ghost use Rattle.std.specs.Prelude.{◌≡◌};
ghost use Rattle.expr_grammar.specs.Kinds as kinds;

use tla_symbols::{LexKind, Mark, Op, Word};

/// A name that is no reserved word.
pub fn is_name(kind: LexKind) -> bool
    ensures { result ≡ kinds.is_name kind }
{
    matches!(&kind, LexKind::Name)
}

/// `==`
pub fn is_define(kind: LexKind) -> bool
    ensures { result ≡ kinds.is_define kind }
{
    matches!(&kind, LexKind::Mark(Mark::Define))
}

/// `->`
pub fn is_arrow(kind: LexKind) -> bool
    ensures { result ≡ kinds.is_arrow kind }
{
    matches!(&kind, LexKind::Mark(Mark::Arrow))
}

/// `<-`
pub fn is_left_arrow(kind: LexKind) -> bool
    ensures { result ≡ kinds.is_left_arrow kind }
{
    matches!(&kind, LexKind::Mark(Mark::LeftArrow))
}

/// `|->`
pub fn is_maps_to(kind: LexKind) -> bool
    ensures { result ≡ kinds.is_maps_to kind }
{
    matches!(&kind, LexKind::Mark(Mark::MapsTo))
}

/// `,`
pub fn is_comma(kind: LexKind) -> bool
    ensures { result ≡ kinds.is_comma kind }
{
    matches!(&kind, LexKind::Mark(Mark::Comma))
}

/// `:`
pub fn is_colon(kind: LexKind) -> bool
    ensures { result ≡ kinds.is_colon kind }
{
    matches!(&kind, LexKind::Mark(Mark::Colon))
}

/// `!`
pub fn is_bang(kind: LexKind) -> bool
    ensures { result ≡ kinds.is_bang kind }
{
    matches!(&kind, LexKind::Mark(Mark::Bang))
}

/// `(`
pub fn is_left_paren(kind: LexKind) -> bool
    ensures { result ≡ kinds.is_left_paren kind }
{
    matches!(&kind, LexKind::Mark(Mark::LeftParen))
}

/// `)`
pub fn is_right_paren(kind: LexKind) -> bool
    ensures { result ≡ kinds.is_right_paren kind }
{
    matches!(&kind, LexKind::Mark(Mark::RightParen))
}

/// `[`
pub fn is_left_bracket(kind: LexKind) -> bool
    ensures { result ≡ kinds.is_left_bracket kind }
{
    matches!(&kind, LexKind::Mark(Mark::LeftBracket))
}

/// `]`
pub fn is_right_bracket(kind: LexKind) -> bool
    ensures { result ≡ kinds.is_right_bracket kind }
{
    matches!(&kind, LexKind::Mark(Mark::RightBracket))
}

/// `]_`
pub fn is_right_bracket_subscript(kind: LexKind) -> bool
    ensures { result ≡ kinds.is_right_bracket_subscript kind }
{
    matches!(&kind, LexKind::Mark(Mark::RightBracketSubscript))
}

/// `}`
pub fn is_right_brace(kind: LexKind) -> bool
    ensures { result ≡ kinds.is_right_brace kind }
{
    matches!(&kind, LexKind::Mark(Mark::RightBrace))
}

/// `<<`
pub fn is_left_angle(kind: LexKind) -> bool
    ensures { result ≡ kinds.is_left_angle kind }
{
    matches!(&kind, LexKind::Mark(Mark::LeftAngle))
}

/// `>>`
pub fn is_right_angle(kind: LexKind) -> bool
    ensures { result ≡ kinds.is_right_angle kind }
{
    matches!(&kind, LexKind::Mark(Mark::RightAngle))
}

/// `>>_`
pub fn is_right_angle_subscript(kind: LexKind) -> bool
    ensures { result ≡ kinds.is_right_angle_subscript kind }
{
    matches!(&kind, LexKind::Mark(Mark::RightAngleSubscript))
}

/// `_`
pub fn is_underscore(kind: LexKind) -> bool
    ensures { result ≡ kinds.is_underscore kind }
{
    matches!(&kind, LexKind::Mark(Mark::Underscore))
}

/// `.`
pub fn is_dot(kind: LexKind) -> bool
    ensures { result ≡ kinds.is_dot kind }
{
    matches!(&kind, LexKind::Mark(Mark::Dot))
}

/// `EXCEPT`
pub fn is_except(kind: LexKind) -> bool
    ensures { result ≡ kinds.is_except kind }
{
    matches!(&kind, LexKind::Word(Word::Except))
}

/// `IN`
pub fn is_in_word(kind: LexKind) -> bool
    ensures { result ≡ kinds.is_in_word kind }
{
    matches!(&kind, LexKind::Word(Word::In))
}

/// `THEN`
pub fn is_then(kind: LexKind) -> bool
    ensures { result ≡ kinds.is_then kind }
{
    matches!(&kind, LexKind::Word(Word::Then))
}

/// `ELSE`
pub fn is_else(kind: LexKind) -> bool
    ensures { result ≡ kinds.is_else kind }
{
    matches!(&kind, LexKind::Word(Word::Else))
}

/// `OTHER`
pub fn is_other(kind: LexKind) -> bool
    ensures { result ≡ kinds.is_other kind }
{
    matches!(&kind, LexKind::Word(Word::Other))
}

/// `INSTANCE`
pub fn is_instance(kind: LexKind) -> bool
    ensures { result ≡ kinds.is_instance kind }
{
    matches!(&kind, LexKind::Word(Word::Instance))
}

/// `WITH`
pub fn is_with(kind: LexKind) -> bool
    ensures { result ≡ kinds.is_with kind }
{
    matches!(&kind, LexKind::Word(Word::With))
}

/// `\in`
pub fn is_member(kind: LexKind) -> bool
    ensures { result ≡ kinds.is_member kind }
{
    matches!(&kind, LexKind::Sym(Op::In))
}

/// `[]`
pub fn is_always(kind: LexKind) -> bool
    ensures { result ≡ kinds.is_always kind }
{
    matches!(&kind, LexKind::Sym(Op::Always))
}

/// `=`
pub fn is_equal(kind: LexKind) -> bool
    ensures { result ≡ kinds.is_equal kind }
{
    matches!(&kind, LexKind::Sym(Op::Equal))
}

/// `-.`
pub fn is_negative(kind: LexKind) -> bool
    ensures { result ≡ kinds.is_negative kind }
{
    matches!(&kind, LexKind::Sym(Op::Negative))
}
