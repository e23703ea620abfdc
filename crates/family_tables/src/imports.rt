// What the modules are that a module needs.
ghost use Rattle.std.specs.Prelude.{◌≡◌, ℕ, List as ListOf, None, Some, IfOk, Contains};
ghost use Rattle.family_tables.specs.Agreement.{AreAgreed, AreFrom, IsFrom};
ghost use Rattle.family_tables.specs.Modules.{Entry};
ghost use Rattle.family_tables.specs.Outcomes.{ImportsOnly, IsNeedTold};
ghost use Rattle.family_tables.specs.Plans as plans;
ghost use Rattle.family_tables.specs.Plans.{IsPlan};
ghost use Rattle.family_tables.specs.Tables.{entry_of};
ghost use Rattle.module_facts.specs.Checks.{given_by, given_in};
ghost use Rattle.module_model.specs.Given.{AreFaces};

use crate::order::Plan;
use crate::outcome::Outcome;
use crate::table::Table;
use module_model::{Import, Imported};
use std::alloc::Global;
use tool_list::{Chars, Memory};

// What a module is to one that needs it.
fn import_of(
    alloc: Global,
    plan: &Plan,
    outcomes: &Table<Outcome>,
    name: &str,
    need: &str,
) -> Result<Import, Memory>
    ensures told { (modules : ListOf Entry) → IsPlan modules plan.now
        → plans.Needs modules name.now need.now
        → IfOk result (λ import. IsNeedTold modules outcomes.now name.now need.now
        (given_by (Some import))) }
    ensures from { IfOk result (IsFrom outcomes.now need.now) }
{
    if plan.is_cyclic(alloc, name, need)? {
        return Ok(Import::Cyclic);
    }
    match outcomes.get(need) {
        None => Ok(Import::Unknown),
        Some(Outcome::Refused(_)) => Ok(Import::Refused),
        Some(Outcome::Accepted(face)) => Ok(Import::Module(face.clone()?)),
    }
}

/// The imports of a module that needs these modules, and of which nothing was found so far: each of
/// them once, by its outcome, unless it is cyclic. The faces are those that were found, and go
/// together. `Memory` comes where there was no room.
pub fn imports_of(
    alloc: Global,
    plan: &Plan,
    outcomes: &Table<Outcome>,
    name: &str,
    needs: &[Chars],
) -> Result<Imported, Memory>
    requires agreed { AreAgreed outcomes.now }
    requires unfound { entry_of outcomes.now name.now ≡ None }
    ensures told { (modules : ListOf Entry) → IsPlan modules plan.now
        → ((need : ListOf ℕ) → Contains needs.now need → plans.Needs modules name.now need)
        → IfOk result (λ imported. (need : ListOf ℕ) → Contains needs.now need
        → IsNeedTold modules outcomes.now name.now need (given_in imported need)) }
    ensures from { IfOk result (AreFrom outcomes.now) }
    ensures only { IfOk result (ImportsOnly needs.now) }
    ensures faces { IfOk result (λ imported. AreFaces imported name.now) }
{
    let mut imported = Imported::new(alloc);
    for need in needs {
        let need = need.as_str();
        if imported.get(need).is_none() {
            imported.add(alloc, need, import_of(alloc, plan, outcomes, name, need)?)?;
        }
    }
    Ok(imported)
}
