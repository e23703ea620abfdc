// What an operator makes of the operand before it.
ghost use Rattle.std.specs.Prelude.{◌≡◌, cond};
ghost use Rattle.tla_symbols.specs.declared.op.Op.{Op};
ghost use Rattle.tla_symbols.specs.declared.place.Fix.{Fix};
ghost use Rattle.tla_tree.specs.Edges as edges;
ghost use Rattle.precedence.specs.Choices as choices;
ghost use Rattle.precedence.specs.Ranges.{edge_of};
ghost use Rattle.precedence.specs.declared.Choice.{Choice};
ghost use Rattle.expr_grammar.specs.Tables as tables;

use expr_grammar::{Handed, Lead, Mode, Role, Wait};
use expr_kinds::mode;
use precedence::{Choice, Neighbour, Operator, choose_neighbour, may_hold};
use tla_symbols::{Fix, LexKind, Lexeme, Op};
use tla_tree::Form;

/// Whether the frame takes one operand more at this operator: only `\X` does, at a further `\X`.
pub fn takes(wait: Wait, role: Role) -> bool
    ensures { result ≡ tables.takes wait role }
{
    match wait {
        Wait::Factor => match role {
            Role::Symbol(Op::Product, Fix::Infix) => true,
            _ => false,
        },
        _ => false,
    }
}

fn lead_infix(op: Op, lexeme: Lexeme) -> Lead
    ensures { result ≡ tables.lead_infix op lexeme }
{
    match op {
        Op::Product => Lead::Push(Wait::Factor),
        _ => Lead::Push(Wait::InfixOperand(lexeme)),
    }
}

/// What the operator makes of the operand before it, where it stands in that operand's place.
pub fn lead(role: Role, lexeme: Lexeme) -> Lead
    ensures { result ≡ tables.lead role lexeme }
{
    match role {
        Role::Symbol(op, fix) => match fix {
            Fix::Infix => lead_infix(op, lexeme),
            Fix::Postfix => Lead::Node(Form::Postfix(lexeme)),
            Fix::Prefix => Lead::NoLead,
        },
        Role::Apply => Lead::Push(Wait::ApplicationArgument),
        Role::Select => Lead::Push(Wait::FieldName),
        Role::Mark => Lead::NoLead,
    }
}

// What stands beside an operand before a lexeme in this role.
fn neighbour_in(role: Role) -> Neighbour
    ensures { edge_of result ≡ tables.edge_of role }
{
    match role {
        Role::Symbol(op, fix) => Neighbour::Operator(Operator { op, fix }),
        Role::Apply => Neighbour::Applied,
        Role::Select => Neighbour::Selected,
        Role::Mark => Neighbour::Open,
    }
}

// The symbol of a lexeme at a place.
fn operator(kind: LexKind, fix: Fix) -> Neighbour
    ensures { edge_of result ≡ edges.operator kind fix }
{
    match kind {
        LexKind::Sym(op) => Neighbour::Operator(Operator { op, fix }),
        _ => Neighbour::Open,
    }
}

// What becomes of a bound at what comes after its set: the set may take that as its operator, and
// the bound may not.
fn bound_choice(coming: Neighbour) -> Choice
    ensures { result ≡ cond (choices.meets (edges.Operator Op.In Fix.Infix) (edge_of coming))
        Choice.Waits
        Choice.Clashes }
{
    let member = Operator {
        op: Op::In,
        fix: Fix::Infix,
    };
    if may_hold(Neighbour::Operator(member), coming) {
        Choice::Waits
    } else {
        Choice::Clashes
    }
}

/// What becomes of a frame with this wait at a lexeme in this role after its part.
pub fn choice(wait: Wait, role: Role) -> Choice
    ensures { result ≡ tables.choice wait (tables.edge_of role) }
{
    let coming = neighbour_in(role);
    let product = Operator {
        op: Op::Product,
        fix: Fix::Infix,
    };
    match wait {
        Wait::PrefixOperand(symbol) => choose_neighbour(operator(symbol.kind, Fix::Prefix), coming),
        Wait::InfixOperand(symbol) => choose_neighbour(operator(symbol.kind, Fix::Infix), coming),
        Wait::Factor => choose_neighbour(Neighbour::Operator(product), coming),
        Wait::BoundSet | Wait::TupleBoundSet => bound_choice(coming),
        Wait::Handing(Handed::Segment, _) | Wait::SquareSubscript | Wait::AngleSubscript => {
            Choice::Ends
        }
        _ => match mode(wait) {
            Mode::Operand => Choice::Waits,
            _ => Choice::Clashes,
        },
    }
}
