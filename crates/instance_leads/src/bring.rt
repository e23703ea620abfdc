// The names that modules bring.
ghost use Rattle.std.specs.Prelude.{◌≡◌, IfOk, Some};
ghost use Rattle.std.specs.Option.{option_copied};
ghost use Rattle.module_model.specs.Exports.{face_outside, instantiable};
ghost use Rattle.module_model.specs.Instances.{brought_by, brought_entries};
ghost use Rattle.name_exports.specs.Brought.{IsBrought, IsJoined};
ghost use Rattle.tree_names.specs.Parameters.{entries_in};
ghost use Rattle.instance_leads.specs.Found.{unit_if};
ghost use Rattle.instance_leads.specs.Leading.{exports_shown, parameters_shown};

use crate::ended::Ended;
use crate::named::exports_in;
use crate::parameters::{face_parameters, nested_parameters};
use module_model::Face;
use name_exports::{Names, bring_nested, bring_nested_through, bring_through};
use std::alloc::Global;
use tla_model::UnitId;
use tool_list::{List, Memory};
use tree_names::Parameter;

/// Puts the names that a nested module exports, and answers whether one of them clashes.
pub fn bring_ended<'a>(
    alloc: Global,
    names: &mut Names<'a>,
    ended: Option<&Ended<'a>>,
) -> Result<bool, Memory>
    ensures { IfOk result (λ clash. IsBrought names.old names.new clash
        (exports_shown (option_copied ended.entry))) }
{
    match ended {
        Some(ended) => {
            let clash = bring_nested(alloc, names, &ended.exports)?;
            Ok(clash)
        }
        None => Ok(false),
    }
}

// The INSTANCE through which names come, where its module has parameters to replace.
fn unit_where<'b>(parameters: &List<Parameter>, unit: &'b UnitId) -> Option<&'b UnitId>
    ensures { option_copied result ≡ unit_if (entries_in parameters.now) unit.now }
{
    if parameters.is_empty() {
        None
    } else {
        Some(unit)
    }
}

/// Puts the names that an INSTANCE brings of a module with this face, and answers whether one of them
/// clashes.
pub fn bring_face<'a>(
    alloc: Global,
    names: &mut Names<'a>,
    local: bool,
    unit: &UnitId,
    face: &'a Face,
) -> Result<bool, Memory>
    ensures { IfOk result (λ clash. IsJoined local names.old names.new clash
        (brought_by unit.now (face_outside face.now))) }
{
    let parameters = face_parameters(alloc, face)?;
    let unit = unit_where(&parameters, unit);
    let clash = bring_through(alloc, names, local, unit, exports_in(face))?;
    Ok(clash)
}

// Puts the names that an INSTANCE brings of a nested module that is there, and answers whether one of
// them clashes.
fn bring_there<'a>(
    alloc: Global,
    names: &mut Names<'a>,
    local: bool,
    unit: &UnitId,
    ended: &Ended<'a>,
) -> Result<bool, Memory>
    ensures { IfOk result (λ clash. IsJoined local names.old names.new clash
        (brought_entries unit.now (parameters_shown (Some ended.now))
        (instantiable (exports_shown (Some ended.now))))) }
{
    let parameters = nested_parameters(alloc, &ended.parameters)?;
    let unit = unit_where(&parameters, unit);
    let clash = bring_nested_through(alloc, names, local, unit, &ended.exports)?;
    Ok(clash)
}

/// Puts the names that an INSTANCE brings of a nested module, and answers whether one of them clashes.
pub fn bring_ended_through<'a>(
    alloc: Global,
    names: &mut Names<'a>,
    local: bool,
    unit: &UnitId,
    ended: Option<&Ended<'a>>,
) -> Result<bool, Memory>
    ensures { IfOk result (λ clash. IsJoined local names.old names.new clash
        (brought_entries unit.now (parameters_shown (option_copied ended.entry))
        (instantiable (exports_shown (option_copied ended.entry))))) }
{
    match ended {
        Some(ended) => {
            let clash = bring_there(alloc, names, local, unit, ended)?;
            Ok(clash)
        }
        None => Ok(false),
    }
}
