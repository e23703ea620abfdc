//! The table of levels: the kind of an expression from the kinds of its operands
//! (*Specifying Systems*, section 17.2).
//!
//! Knows nothing of trees, names or places in a text, and takes no memory.
#![tactic(auto)]

ghost use Rattle.std.specs.Prelude.{◌≡◌, Some, IfOk, IfErr, max};
ghost use Rattle.level_rules.specs.Kinds as kinds;

use tla_symbols::{Kind, Rule};

/// The first operand, counted from 0, that a rule refuses.
#[derive(Clone, Copy, Debug, PartialEq, Eq)]
pub struct Breaks {
    pub operand: u64,
}

/// The kind of an expression whose operands have these kinds, in order. `Plain` and `Boolean` take
/// any number of operands, and give `Const` at none; `Leads` takes two, or the one body of `\AA` or
/// `\EE`; `Square`, `Angle` and `Fair` take the action and then its subscript.
/// `Breaks` comes exactly where the table refuses an operand, and names the first.
pub fn apply(rule: Rule, operands: &[Kind]) -> Result<Kind, Breaks>
    ensures kind { IfOk result (λ kind. kinds.applied rule operands.now ≡ Some kind) }
    ensures breaks { IfErr result (λ breaks. kinds.first_refused rule 0 operands.now
        ≡ Some breaks.operand) }
{
    for (place, kind) in operands.iter().enumerate() {
        if !takes(rule, place, *kind) {
            return Err(Breaks {
                operand: place as u64,
            });
        }
    }
    Ok(given(rule, operands))
}

// Whether a rule takes an operand of this kind at this place.
fn takes(rule: Rule, place: usize, kind: Kind) -> bool
    ensures { result ≡ kinds.takes rule place kind }
{
    match rule {
        Rule::Boolean => true,
        Rule::Plain | Rule::Enabled | Rule::Compose => level(kind) <= 2,
        Rule::Prime | Rule::Unchanged => level(kind) <= 1,
        Rule::Always => is_no_action(kind) || matches!(kind, Kind::BoxAction),
        Rule::Eventually => is_no_action(kind) || matches!(kind, Kind::DiamondAction),
        Rule::Leads => is_no_action(kind),
        Rule::Square | Rule::Angle | Rule::Fair => takes_subscripted(place, kind),
    }
}

// Whether an action with a subscript takes this kind: the action first, and then a state function.
fn takes_subscripted(place: usize, kind: Kind) -> bool
    ensures { result ≡ kinds.takes_subscripted place kind }
{
    let most = if place == 0 { 2 } else { 1 };
    level(kind) <= most
}

// Whether a kind is of another level than an action's.
fn is_no_action(kind: Kind) -> bool
    ensures { result ≡ kinds.is_no_action kind }
{
    level(kind) != 2
}

// The kind that a rule gives where it takes its operands.
fn given(rule: Rule, operands: &[Kind]) -> Kind
    ensures { result ≡ kinds.given rule operands.now }
{
    match rule {
        Rule::Plain | Rule::Boolean => greatest(operands),
        Rule::Prime | Rule::Unchanged | Rule::Compose => Kind::Action,
        Rule::Enabled => Kind::State,
        Rule::Always | Rule::Eventually | Rule::Leads | Rule::Fair => Kind::Temporal,
        Rule::Square => Kind::BoxAction,
        Rule::Angle => Kind::DiamondAction,
    }
}

// The plain kind of the greatest level.
fn greatest(operands: &[Kind]) -> Kind
    ensures { result ≡ kinds.greatest operands.now }
{
    let mut most = 0;
    for kind in operands {
        most = most.max(level(*kind));
    }
    plain(most)
}

/// Constant 0, state 1, action 2, temporal 3.
pub fn level(kind: Kind) -> u8
    ensures { result ≡ kinds.level kind }
{
    match kind {
        Kind::Const => 0,
        Kind::State => 1,
        Kind::Action | Kind::BoxAction | Kind::DiamondAction => 2,
        Kind::Temporal => 3,
    }
}

fn plain(level: u8) -> Kind
    ensures { result ≡ kinds.plain level }
{
    match level {
        0 => Kind::Const,
        1 => Kind::State,
        2 => Kind::Action,
        _ => Kind::Temporal,
    }
}
