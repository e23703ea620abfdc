// Places of a tree: what is due there, and what a form is to its parts.
ghost use Rattle.std.specs.Prelude.{◌≡◌};
ghost use Rattle.arity_rules.specs.Arities as arities;

use tla_symbols::{Lexeme, Span};
use tla_tree::Form;

/// What is due at a place of a tree.
#[derive(Clone, Copy, Debug, PartialEq, Eq)]
pub enum Due {
    /// An expression.
    Expression,
    /// A bare operator of this arity, whose own parameters are expressions. `whole` is the place of
    /// the whole argument or right side, in bytes.
    Operator { arity: usize, whole: Span },
    /// An instance, before `!`.
    Qualifier,
    /// Nothing: whatever stands there is no fault.
    Nothing,
}

/// What a form is where arities are looked at.
#[derive(Clone, Copy, Debug, PartialEq, Eq)]
pub enum Role {
    /// A general identifier.
    Path,
    /// A segment of one, by its name.
    Segment(Lexeme),
    /// A bare symbol.
    Symbol(Lexeme),
    /// `@`
    At(Lexeme),
    /// A replacement, by its left side.
    Replacement(Lexeme),
    /// What EXCEPT changes: its steps, and the right side.
    Update,
    /// Any other form: its expressions are due as such.
    Other,
}

/// What a form is where arities are looked at.
pub fn role_of(form: Form) -> Role
    ensures { result ≡ arities.role_of form }
{
    match form {
        Form::Identifier => Role::Path,
        Form::Segment(name) => Role::Segment(name),
        Form::Symbol(symbol) => Role::Symbol(symbol),
        Form::At(at) => Role::At(at),
        Form::Replacement(left) => Role::Replacement(left),
        Form::Update => Role::Update,
        _ => Role::Other,
    }
}

/// Whether the parts of a form are the segments of a path.
pub fn is_path(role: Role) -> bool
    ensures { result ≡ arities.is_path role }
{
    matches!(role, Role::Path)
}

// Whether a part of an update is one of its indices.
fn is_index(form: Form) -> bool
    ensures { result ≡ arities.is_index form }
{
    matches!(form, Form::IndexStep)
}

/// Whether a part stands in a right side of EXCEPT, by whether the form around it does.
pub fn is_part_inside(role: Role, inside: bool, part: Form) -> bool
    ensures { result ≡ arities.is_part_inside role inside part }
{
    match role {
        Role::Update => inside || !is_index(part),
        _ => inside,
    }
}

/// What is due of an argument or a right side, by its order and its place: an expression where the
/// order is 0, and else an operator of that arity. Nothing is due where it has no order.
pub fn due_by(order: Option<usize>, whole: Span) -> Due
    ensures { result ≡ arities.due_by order whole }
{
    match order {
        None => Due::Nothing,
        Some(0) => Due::Expression,
        Some(arity) => Due::Operator { arity, whole },
    }
}
