// The operator symbols at their places in expressions.
ghost use Rattle.std.specs.Prelude.{◌≡◌};
ghost use Rattle.tla_symbols.specs.Symbols as symbols;

use crate::level::Rule;
use crate::op::Op;

/// Where an operator stands to its operands.
#[derive(Clone, Copy, Debug, PartialEq, Eq)]
pub enum Fix {
    Prefix,
    Infix,
    Postfix,
}

/// The precedence range of an operator: two ranges that overlap admit neither order, but that of
/// a left-associative operator beside itself (*Specifying Systems*, section 15.2.1).
#[derive(Clone, Copy, Debug, PartialEq, Eq)]
pub struct Range {
    pub lo: u8,
    pub hi: u8,
    pub left: bool,
}

// What a symbol is at one place. A place without a range is none where it can be applied.
#[derive(Clone, Copy)]
struct Place {
    range: Option<Range>,
    rule: Option<Rule>,
    definable: bool,
}

fn nowhere() -> Place
    ensures { result ≡ symbols.nowhere }
{
    Place {
        range: None,
        rule: None,
        definable: false,
    }
}

// A symbol of the language, which no module can define.
fn built_in(lo: u8, hi: u8, left: bool, rule: Rule) -> Place
    ensures { result ≡ symbols.built_in lo hi left rule }
{
    Place {
        range: Some(Range { lo, hi, left }),
        rule: Some(rule),
        definable: false,
    }
}

// A symbol that means what a module defines it to be.
fn free(lo: u8, hi: u8, left: bool) -> Place
    ensures { result ≡ symbols.free lo hi left }
{
    Place {
        range: Some(Range { lo, hi, left }),
        rule: None,
        definable: true,
    }
}

fn prefix(op: Op) -> Place
    ensures { result ≡ symbols.prefix_place op }
{
    match op {
        Op::Not => built_in(4, 4, false, Rule::Boolean),
        Op::Enabled => built_in(4, 15, false, Rule::Enabled),
        Op::Unchanged => built_in(4, 15, false, Rule::Unchanged),
        Op::Always => built_in(4, 15, false, Rule::Always),
        Op::Eventually => built_in(4, 15, false, Rule::Eventually),
        Op::PowerSet | Op::BigUnion => built_in(8, 8, false, Rule::Plain),
        Op::Domain => built_in(9, 9, false, Rule::Plain),
        Op::Minus => Place {
            range: Some(Range {
                lo: 12,
                hi: 12,
                left: false,
            }),
            rule: None,
            definable: false,
        },
        Op::Negative => Place {
            range: None,
            rule: None,
            definable: true,
        },
        _ => nowhere(),
    }
}

fn infix(op: Op) -> Place
    ensures { result ≡ symbols.infix_place op }
{
    match op {
        Op::Implies => built_in(1, 1, false, Rule::Boolean),
        Op::Equivalent => built_in(2, 2, false, Rule::Boolean),
        Op::PlusArrow | Op::LeadsTo => built_in(2, 2, false, Rule::Leads),
        Op::And | Op::Or => built_in(3, 3, true, Rule::Boolean),
        Op::Equal | Op::NotEqual | Op::In | Op::NotIn | Op::SubsetEqual => built_in(
            5,
            5,
            false,
            Rule::Plain,
        ),
        Op::Less
        | Op::Greater
        | Op::LessEqual
        | Op::GreaterEqual
        | Op::Subset
        | Op::Superset
        | Op::SupersetEqual
        | Op::SquareSubset
        | Op::SquareSubsetEqual
        | Op::SquareSuperset
        | Op::SquareSupersetEqual
        | Op::Precedes
        | Op::PrecedesEqual
        | Op::Succeeds
        | Op::SucceedsEqual => free(5, 5, false),
        Op::MuchLess
        | Op::MuchGreater
        | Op::Similar
        | Op::SimilarEqual
        | Op::Asymptotic
        | Op::Approximate
        | Op::Congruent
        | Op::DotEqual
        | Op::Proportional
        | Op::RightTurnstile
        | Op::LeftTurnstile
        | Op::RightModels
        | Op::LeftModels
        | Op::Assign
        | Op::Produces => free(5, 5, false),
        Op::ActionCompose => built_in(5, 14, true, Rule::Compose),
        Op::AtAt => free(6, 6, true),
        Op::ColonGreater | Op::LessColon => free(7, 7, false),
        Op::SetMinus => built_in(8, 8, false, Rule::Plain),
        Op::Cup | Op::Cap => built_in(8, 8, true, Rule::Plain),
        Op::DotDot | Op::Ellipsis => free(9, 9, false),
        Op::BangBang => free(9, 13, false),
        Op::HashHash
        | Op::Dollar
        | Op::DollarDollar
        | Op::QueryQuery
        | Op::SquareCap
        | Op::SquareCup
        | Op::MultisetUnion => free(9, 13, true),
        Op::Wreath => free(9, 14, false),
        Op::Plus | Op::PlusPlus | Op::CirclePlus => free(10, 10, true),
        Op::Percent => free(10, 11, false),
        Op::PercentPercent | Op::Bar | Op::BarBar => free(10, 11, true),
        Op::Minus | Op::MinusMinus | Op::CircleMinus => free(11, 11, true),
        Op::Product => built_in(10, 13, false, Rule::Plain),
        Op::Star
        | Op::StarStar
        | Op::Ampersand
        | Op::AmpersandAmpersand
        | Op::CircleDot
        | Op::CircleTimes
        | Op::BigCircle
        | Op::BulletSign
        | Op::Concatenate
        | Op::StarSign => free(13, 13, true),
        Op::Slash | Op::SlashSlash | Op::Divide | Op::CircleSlash => free(13, 13, false),
        Op::Caret | Op::CaretCaret => free(14, 14, false),
        _ => nowhere(),
    }
}

fn postfix(op: Op) -> Place
    ensures { result ≡ symbols.postfix_place op }
{
    match op {
        Op::Prime => built_in(15, 15, false, Rule::Prime),
        Op::PlusClosure | Op::StarClosure | Op::SharpClosure => free(15, 15, false),
        _ => nowhere(),
    }
}

fn place_of(op: Op, fix: Fix) -> Place
    ensures { result ≡ symbols.place_of op fix }
{
    match fix {
        Fix::Prefix => prefix(op),
        Fix::Infix => infix(op),
        Fix::Postfix => postfix(op),
    }
}

/// The precedence range of a symbol at a place. None exactly where it can't be applied there.
pub fn range_of(op: Op, fix: Fix) -> Option<Range>
    ensures { result ≡ symbols.range_of op fix }
{
    place_of(op, fix).range
}

/// The rule of levels for a built-in symbol at a place. None exactly where it is not built in
/// there: it then means what a module defines it to be, or nothing.
pub fn rule_of(op: Op, fix: Fix) -> Option<Rule>
    ensures { result ≡ symbols.rule_of op fix }
{
    place_of(op, fix).rule
}

/// Whether a module may declare and define the symbol at that place.
pub fn definable(op: Op, fix: Fix) -> bool
    ensures { result ≡ symbols.is_definable op fix }
{
    place_of(op, fix).definable
}
