// The check of a family of modules.
ghost use Rattle.std.specs.Prelude.{◌≡◌, ◌<◌, ◌^◌, [], IfOk, if◌then◌else◌, length, map, sum_by};
ghost use Rattle.std.specs.List.{All};
ghost use Rattle.family_facts.specs.Verdicts.{AreDistinct, after_checks, checks_of};
ghost use Rattle.family_facts.specs.Verdicts.{family_of};
ghost use Rattle.family_tables.specs.Modules.{AreModules};
ghost use Rattle.family_tables.specs.Outcomes.{IsSomeModule};
ghost use Rattle.family_tables.specs.Plans.{AreOnce};
ghost use Rattle.family_tables.specs.Tables.{names_in};
ghost use Rattle.leveled_facts.specs.Families as found_of;
ghost use Rattle.fact_lines.specs.Rows.{row_of};
ghost use Rattle.fact_lines.specs.Reports.{IsReportPlaced, reports_on};

use crate::modules::level_all;
use crate::shown::{reports_of, use_count_of};
use crate::standing::reports_stand_in_text;
use crate::versions::Versions;
use fact_lines::{ModuleReport, declared_places, places_are_declared};
use family_facts::{File, names_differ};
use family_read::read_family;
use family_tables::{Module, Table, plan_of, verdicts_of};
use std::alloc::Global;
use step_count::Steps;
use tla_text::Place;
use tool_list::{List, Memory};

/// What a check of a family found.
pub struct FamilyCheck {
    /// What is said of the files, in their order.
    pub reports: List<ModuleReport>,
    /// How many uses of names the accepted modules of the files have.
    pub use_count: u64,
}

// By hand, so that a proof meets one call wherever a value ends.
impl Drop for FamilyCheck {
    fn drop(self) {
        let FamilyCheck {
            reports: _,
            use_count: _,
        } = self;
    }
}

// Where the names stand that modules declare. They are looked for where facts are asked for.
fn places_if(
    alloc: Global,
    facts: bool,
    modules: &Table<Module>,
) -> Result<Table<List<Place>>, Memory>
    requires once { AreOnce (names_in modules.now) }
    requires read { All (λ entry. IsSomeModule entry.0 entry.1) modules.now }
    ensures { IfOk result (λ places. places ≡ (if facts then map row_of modules.now else [])) }
{
    if !facts {
        return Ok(Table::new(alloc));
    }
    declared_places(alloc, modules)
}

// What is said of files whose family has these modules, and how many uses they have.
fn check_modules<L>(
    alloc: Global,
    files: &[File],
    facts: bool,
    modules: &Table<Module>,
    steps: &mut Steps<L>,
) -> Result<FamilyCheck, Memory>
    requires distinct { AreDistinct files.now }
    requires small { sum_by (λ file. length file.bytes) files.now < 2 ^ 31 }
    requires modules { AreModules (family_of files.now) modules.now }
    ensures reports { IfOk result (λ found. found.reports ≡ reports_on facts files.now) }
    ensures use_count { IfOk result (λ found. found.use_count ≡ found_of.uses_on files.now) }
    ensures placed { IfOk result (λ found. All IsReportPlaced found.reports) }
    ensures steps { IfOk result (λ _. steps.new ≡ after_checks (checks_of files.now) steps.old) }
{
    front_laws::one_front();
    names_differ();
    places_are_declared();
    reports_stand_in_text();
    let plan = plan_of(alloc, modules)?;
    let Versions {
        modules: none,
        nodes,
    } = Versions::new(alloc)?;
    let (found, _) = level_all(alloc, modules, &plan, &none, nodes, steps)?;
    let verdicts = verdicts_of(alloc, files, &found.outcomes)?;
    let use_count = use_count_of(files, &found)?;
    let places = places_if(alloc, facts, modules)?;
    let reports = reports_of(alloc, facts, &places, &found, verdicts)?;
    Ok(FamilyCheck { reports, use_count })
}

/// What is said of files over the built-in modules, levels and depths among their faults: with the
/// uses of accepted modules, if facts are asked for. And how many uses they have. A file hides the
/// built-in module of its name. Each module without front fault is checked once, which is one step.
/// `Memory` comes where there was no room.
pub fn check_family<L>(
    alloc: Global,
    files: &[File],
    facts: bool,
    steps: &mut Steps<L>,
) -> Result<FamilyCheck, Memory>
    requires distinct { AreDistinct files.now }
    requires small { sum_by (λ file. length file.bytes) files.now < 2 ^ 31 }
    ensures reports { IfOk result (λ found. found.reports ≡ reports_on facts files.now) }
    ensures use_count { IfOk result (λ found. found.use_count ≡ found_of.uses_on files.now) }
    ensures placed { IfOk result (λ found. All IsReportPlaced found.reports) }
    ensures steps { IfOk result (λ _. steps.new ≡ after_checks (checks_of files.now) steps.old) }
{
    let modules = read_family(alloc, &Table::new(alloc), files)?;
    check_modules(alloc, files, facts, &modules, steps)
}
