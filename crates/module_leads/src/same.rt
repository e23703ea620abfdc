// Whether names and symbols are the same.
ghost use Rattle.std.specs.Prelude.{◌≡◌};
ghost use Rattle.face_views.specs.Exact.{Tells};
ghost use Rattle.name_context.specs.AsTables.{meant_by};
ghost use Rattle.tree_names.specs.Parameters.{entries_in, entry_in};

use face_views::is_same_meaning;
use name_context::Named;
use tree_names::Parameter;

/// Whether both are the same name.
pub(crate) fn is_same_name(one: Named<'_>, other: Named<'_>) -> bool
    ensures { Tells result (meant_by one.entry ≡ meant_by other.entry) }
{
    match (one, other) {
        (Named::Word(one), Named::Word(other)) => one == other,
        (Named::Symbol(one), Named::Symbol(other)) => one == other,
        _ => false,
    }
}

// Whether both are the same symbol with the same name.
fn is_same_parameter(one: &Parameter, other: &Parameter) -> bool
    ensures { Tells result (entry_in one.now ≡ entry_in other.now) }
{
    is_same_name(one.name.named(), other.name.named())
        && is_same_meaning(&one.meaning, &other.meaning)
}

/// Whether both are the same symbols with the same names, in the same order.
pub(crate) fn are_same_parameters(one: &[Parameter], other: &[Parameter]) -> bool
    ensures { Tells result (entries_in one.now ≡ entries_in other.now) }
{
    if one.len() != other.len() {
        return false;
    }
    for index in 0..one.len() {
        if !is_same_parameter(&one[index], &other[index]) {
            return false;
        }
    }
    true
}
