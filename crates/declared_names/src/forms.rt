// What forms declare and bind, one by one.
ghost use Rattle.std.specs.Prelude.{◌≡◌};
ghost use Rattle.tla_model.specs.Entities as entities;
ghost use Rattle.declared_names.specs.Listed.{listed};

use tla_model::{Binding, Entity};
use tla_symbols::Lexeme;
use tla_tree::Form;

/// The name that is declared or bound at a form, with the number of its places.
pub fn placed(form: Form) -> Option<(Lexeme, u32)>
    ensures { listed result ≡ entities.placed form }
{
    match form {
        Form::Name(name) => Some((name, 0)),
        Form::OperatorParameter(name, places) => Some((name, places)),
        Form::PrefixParameter(symbol) | Form::PostfixParameter(symbol) => Some((symbol, 1)),
        Form::InfixParameter(symbol) => Some((symbol, 2)),
        _ => None,
    }
}

/// What a name stands for that is bound so, by the number of its places.
pub fn entity_of(binding: Binding, places: u32) -> Entity
    ensures { result ≡ entities.entity_of binding places }
{
    match binding {
        Binding::Constant => Entity::Constant { arity: places },
        Binding::Parameter => Entity::Parameter { arity: places },
        Binding::Bound { state } => Entity::Bound { state },
    }
}

/// As what a form binds the names among its parts.
pub fn binding_of(form: Form) -> Binding
    ensures { result ≡ entities.binding_of form }
{
    match form {
        Form::OperatorDefinition(_)
        | Form::PrefixDefinition(_)
        | Form::InfixDefinition(_)
        | Form::PostfixDefinition(_)
        | Form::ModuleDefinition(_)
        | Form::Lambda => Binding::Parameter,
        Form::TemporalQuantifier(_) => Binding::Bound { state: true },
        _ => Binding::Bound { state: false },
    }
}

/// Whether a form is a group of names that are bound together, over a set or over none.
pub fn is_group(form: Form) -> bool
    ensures { result ≡ entities.is_group form }
{
    matches!(
        form,
        Form::Names | Form::TupleNames | Form::Bound | Form::TupleBound | Form::Bounds
    )
}

/// Whether the symbol that a form defines stands behind its first part.
pub fn follows_first(form: Form) -> bool
    ensures { result ≡ entities.follows_first form }
{
    matches!(form, Form::InfixDefinition(_) | Form::PostfixDefinition(_))
}

/// As what the names in the parts of a form are bound, which is itself bound so.
pub fn binding_in(binding: Binding, form: Form) -> Binding
    ensures { result ≡ entities.binding_in binding form }
{
    if is_group(form) {
        binding
    } else {
        binding_of(form)
    }
}
