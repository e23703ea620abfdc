// What is said of a module by its front.
ghost use Rattle.std.specs.Prelude.{◌≡◌, ◌<◌, ◌^◌, ◌∷◌, [], IfOk, false, length, map, string_bytes};
ghost use Rattle.tla_lexeme.specs.Spans.{IsPlaced};
ghost use Rattle.front_laws.specs.Fronts.{Fault, IsFront};
ghost use Rattle.family_facts.specs.Fronts.{front_of};
ghost use Rattle.family_facts.specs.Verdicts.{text_of};
ghost use Rattle.fact_lines.specs.Reports.{reports_on};
ghost use Rattle.sany_report.specs.Report.{report};
ghost use Rattle.sany_front.specs.Said as said;

use fact_lines::ModuleReport;
use family_facts::{File, Verdict, names_differ, one_front_of};
use family_tables::{Table, verdicts_of};
use leveled_facts::leveled_is;
use sany_report::report_on;
use std::alloc::Global;
use tla_front::{FrontError, front};
use tla_model::Diagnostic;
use tool_list::{List, Memory};

/// What is written of a module, and the status.
#[derive(Drop)]
pub(crate) struct Outcome {
    pub text: String,
    pub status: u8,
}

// What is found of the module of a name whose front has this fault.
fn found_of(
    alloc: Global,
    name: &str,
    fault: Diagnostic,
) -> Result<Table<family_tables::Outcome>, Memory>
    ensures { IfOk result (λ found. found ≡ said.found_of name.now fault) }
{
    let mut faults = List::new(alloc);
    faults.push(fault)?;
    let mut found = Table::new(alloc);
    found.add(alloc, name, family_tables::Outcome::Refused(faults))?;
    Ok(found)
}

// What is said of verdicts without facts.
fn without_facts(alloc: Global, verdicts: List<Verdict>) -> Result<List<ModuleReport>, Memory>
    ensures { IfOk result (λ reports. reports ≡ map said.without_facts verdicts) }
{
    let mut reports = List::new(alloc);
    for verdict in verdicts.into_vec() {
        let facts = List::new(alloc);
        reports.push(ModuleReport { verdict, facts })?;
    }
    Ok(reports)
}

// What `check` says of a file alone whose front has this fault.
fn reports_of(alloc: Global, file: File, fault: Diagnostic) -> Result<List<ModuleReport>, Memory>
    requires small { length file.bytes < 2 ^ 31 }
    requires front { IsFront file.name file.bytes (Fault fault) }
    ensures said { IfOk result (λ reports. reports ≡ reports_on false (file ∷ [])) }
    ensures fault { IfOk result (λ reports. reports ≡ said.refused file fault ∷ []) }
{
    names_differ();
    leveled_is();
    let found = found_of(alloc, file.name.as_str(), fault)?;
    let mut files = List::new(alloc);
    files.push(file)?;
    let verdicts = verdicts_of(alloc, files.as_slice(), &found)?;
    let reports = without_facts(alloc, verdicts)?;
    Ok(reports)
}

// The report of `check` on a file alone whose front has this fault.
fn refused(alloc: Global, file: File, fault: Diagnostic) -> Result<Outcome, Memory>
    requires small { length file.bytes < 2 ^ 31 }
    requires front { IsFront file.name file.bytes (Fault fault) }
    requires placed { IsPlaced (text_of file.bytes) fault.span }
    ensures text { IfOk result (λ outcome. string_bytes outcome.text
        ≡ report (reports_on false (file ∷ []))) }
    ensures status { IfOk result (λ outcome. outcome.status ≡ 1) }
{
    let reports = reports_of(alloc, file, fault)?;
    let text = report_on(alloc, reports.as_slice())?;
    Ok(Outcome { text, status: 1 })
}

// The line on a module whose front has no fault.
fn read(alloc: Global, name: &str) -> Result<Outcome, Memory>
    ensures text { IfOk result (λ outcome. string_bytes outcome.text ≡ said.read name.now) }
    ensures status { IfOk result (λ outcome. outcome.status ≡ 0) }
{
    let text = format!(in alloc; "{name} has no front fault\n")?;
    Ok(Outcome { text, status: 0 })
}

/// What is said of a module by its front: where it has a fault, the report of `check` on a folder with
/// this file alone and status 1, and else a line that it has none and status 0. `Memory` comes where
/// there is no room.
pub(crate) fn outcome_of(alloc: Global, file: File) -> Result<Outcome, Memory>
    requires { length file.bytes < 2 ^ 31 }
    ensures text { IfOk result (λ outcome. string_bytes outcome.text
        ≡ said.text_of file (front_of file.name file.bytes)) }
    ensures status { IfOk result (λ outcome. outcome.status
        ≡ said.status_of (front_of file.name file.bytes)) }
{
    one_front_of();
    match front(alloc, file.name.as_str(), file.bytes.as_slice()) {
        Ok(_) => {
            let outcome = read(alloc, file.name.as_str())?;
            Ok(outcome)
        }
        Err(FrontError::Fault(fault)) => {
            let outcome = refused(alloc, file, fault)?;
            Ok(outcome)
        }
        Err(FrontError::Memory) => Err(Memory),
    }
}
