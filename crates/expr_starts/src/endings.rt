// Which frames may end with no part to come.
ghost use Rattle.std.specs.Prelude.{◌≡◌};
ghost use Rattle.expr_grammar.specs.Tables as tables;

use expr_grammar::{Binding, Wait};
use expr_kinds::{is_colon, is_comma, is_right_paren};
use tla_symbols::LexKind;
use tla_tree::Form;

fn takes_none(binding: Binding) -> bool
    ensures { result ≡ tables.takes_none binding }
{
    !matches!(&binding, Binding::Bound)
}

fn takes_lone_tuple(binding: Binding) -> bool
    ensures { result ≡ tables.takes_lone_tuple binding }
{
    matches!(&binding, Binding::One)
}

fn ends_symbol(kind: LexKind) -> bool
    ensures { result ≡ tables.ends_symbol kind }
{
    is_comma(kind) || is_right_paren(kind)
}

fn when(test: bool, form: Form) -> Option<Form>
    ensures { result ≡ tables.when test form }
{
    if test { Some(form) } else { None }
}

/// The form of a frame that may end before a lexeme of this kind, or at the end, with no part to
/// come.
pub fn endable(wait: Wait, next: Option<LexKind>) -> Option<Form>
    ensures { result ≡ tables.endable wait next }
{
    match wait {
        Wait::SegmentName(name) => return Some(Form::Segment(name)),
        Wait::SubscriptRead => return Some(Form::Identifier),
        Wait::InstanceNamed(module) => return Some(Form::Instance(module)),
        Wait::ReplacementEnd(left) => return Some(Form::Replacement(left)),
        Wait::ParameterName(name) => return Some(Form::Name(name)),
        _ => (),
    }
    let kind = next?;
    match wait {
        Wait::PrefixOperand(symbol) | Wait::ListFirst(symbol) => when(
            ends_symbol(kind),
            Form::Symbol(symbol),
        ),
        Wait::BindingRead(binding) => when(takes_none(binding) && is_colon(kind), Form::Names),
        Wait::TupleClosed(binding) => when(
            takes_lone_tuple(binding) && is_colon(kind),
            Form::TupleNames,
        ),
        _ => None,
    }
}
