// The uses that are shown of files.
ghost use Rattle.std.specs.Prelude.{◌≡◌, IfOk, length, map, sum_by};
ghost use Rattle.family_levels.specs.Findings as findings;

use crate::findings::Findings;
use fact_lines::{FactLine, ModuleReport, fact_lines};
use family_facts::{File, Verdict};
use family_tables::Table;
use std::alloc::Global;
use tla_text::Place;
use tool_list::{List, Memory};

/// How many uses are shown of files. A number that 64 bits can't hold is want of memory.
pub(crate) fn use_count_of(files: &[File], found: &Findings) -> Result<u64, Memory>
    ensures { IfOk result (λ total. total
        ≡ sum_by (λ file. length (findings.shown_in found.now file.name)) files.now) }
{
    let mut total = 0u64;
    for file in files {
        let count = found.shown(file.name.as_str()).len() as u64;
        let Some(more) = total.checked_add(count) else {
            return Err(Memory);
        };
        total = more;
    }
    Ok(total)
}

// The facts on the module of a name, if they are asked for.
fn facts_of(
    alloc: Global,
    facts: bool,
    places: &Table<List<Place>>,
    found: &Findings,
    name: &str,
) -> Result<List<FactLine>, Memory>
    ensures { IfOk result
        (λ lines. lines ≡ findings.facts_by facts places.now found.now name.now) }
{
    if !facts {
        return Ok(List::new(alloc));
    }
    fact_lines(alloc, places, found.shown(name))
}

/// What is said of files by their verdicts, by what was found of their modules and by where the
/// names stand that modules declare: with facts, if they are asked for.
pub(crate) fn reports_of(
    alloc: Global,
    facts: bool,
    places: &Table<List<Place>>,
    found: &Findings,
    verdicts: List<Verdict>,
) -> Result<List<ModuleReport>, Memory>
    ensures { IfOk result
        (λ reports. reports ≡ map (findings.report_by facts places.now found.now) verdicts) }
{
    let mut reports = List::new(alloc);
    for verdict in verdicts.into_vec() {
        let facts = facts_of(alloc, facts, places, found, verdict.name.as_str())?;
        reports.push(ModuleReport { verdict, facts })?;
    }
    Ok(reports)
}
