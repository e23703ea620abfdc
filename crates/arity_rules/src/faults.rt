// The faults of one name, by what it means and what is due where it stands.
ghost use Rattle.std.specs.Prelude.{◌≡◌, ◌++◌, OnOk, option_copied};
ghost use Rattle.arity_rules.specs.Arities as arities;

use crate::entity::{arity, is_instance, takes_expressions};
use crate::place::Due;
use tla_model::{Diagnostic, Entity};
use tla_symbols::Span;
use tool_list::{List, Memory};

/// Appends a fault of this code at a place, if it is one.
pub fn push_if(
    faults: &mut List<Diagnostic>,
    is_fault: bool,
    code: u16,
    span: Span,
) -> Result<(), Memory>
    ensures { OnOk result (faults.new ≡ faults.old ++ arities.fault_if is_fault code span) }
{
    if is_fault {
        faults.push(Diagnostic { code, span })?;
    }
    Ok(())
}

// Whether the number of arguments is wrong.
fn is_miscounted(due: Due, written: usize, entity: &Entity) -> bool
    ensures { result ≡ arities.is_miscounted due written entity.now }
{
    match due {
        Due::Qualifier => (is_instance(entity) || written != 0) && written != arity(entity),
        _ => written != 0 && written != arity(entity),
    }
}

// Whether a name with so many arguments is no expression.
fn is_no_expression(written: usize, entity: &Entity) -> bool
    ensures { result ≡ arities.is_no_expression written entity.now }
{
    is_instance(entity) || (written == 0 && arity(entity) != 0)
}

// Whether a name with so many arguments is a bare operator of this arity, all of whose parameters are
// expressions.
fn is_operator(places: usize, written: usize, entity: &Entity) -> bool
    ensures { result ≡ arities.is_operator places written entity.now }
{
    written == 0 && !is_instance(entity) && arity(entity) == places && takes_expressions(entity)
}

// Appends a confusion of operator and expression.
fn push_confusion(
    faults: &mut List<Diagnostic>,
    due: Due,
    at: Span,
    written: usize,
    entity: &Entity,
) -> Result<(), Memory>
    ensures { OnOk result (faults.new
        ≡ faults.old ++ arities.confusions due at written entity.now) }
{
    match due {
        Due::Expression => push_if(faults, is_no_expression(written, entity), 502, at),
        Due::Operator { arity, whole } => {
            push_if(faults, !is_operator(arity, written, entity), 502, whole)
        }
        Due::Qualifier | Due::Nothing => Ok(()),
    }
}

// Appends the fault of a name that means nothing.
fn push_unknown(faults: &mut List<Diagnostic>, due: Due, written: usize) -> Result<(), Memory>
    ensures { OnOk result (faults.new ≡ faults.old ++ arities.unknown_faults due written) }
{
    match due {
        Due::Operator { whole, .. } => push_if(faults, written != 0, 502, whole),
        _ => Ok(()),
    }
}

/// Appends the faults of a name with so many written arguments, by what it means.
pub fn push_use(
    faults: &mut List<Diagnostic>,
    due: Due,
    at: Span,
    written: usize,
    meaning: Option<&Entity>,
) -> Result<(), Memory>
    ensures { OnOk result (faults.new
        ≡ faults.old ++ arities.use_faults due at written (option_copied meaning.entry)) }
{
    let Some(entity) = meaning else {
        return push_unknown(faults, due, written);
    };
    push_if(faults, is_miscounted(due, written, entity), 501, at)?;
    push_confusion(faults, due, at, written, entity)
}

/// Appends the fault of an expression that is no name, where an operator is due.
pub fn push_other(faults: &mut List<Diagnostic>, due: Due) -> Result<(), Memory>
    ensures { OnOk result (faults.new ≡ faults.old ++ arities.other_faults due) }
{
    match due {
        Due::Operator { whole, .. } => push_if(faults, true, 502, whole),
        _ => Ok(()),
    }
}
