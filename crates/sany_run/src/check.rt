// The outcome for the modules of a folder.
ghost use Rattle.std.specs.Prelude.{◌≡◌, ◌≤◌, IfOk, IfSome, OnErr, true, is_none, nat_le};
ghost use Rattle.std.specs.List.{All};
ghost use Rattle.std.specs.Option.{option_map};
ghost use Rattle.tool_io.specs.Causes.{HasCause};
ghost use Rattle.family_facts.specs.Verdicts.{AreDistinct, after_checks, checks_of};
ghost use Rattle.fact_lines.specs.Reports.{IsReportPlaced};
ghost use Rattle.sany_files.specs.Calls.{IsLeftAfter};
ghost use Rattle.sany_run.specs.Answers.{is_done};
ghost use Rattle.sany_run.specs.Program as program;
ghost use Rattle.sany_files.specs.Calls as calls;
ghost use Rattle.sany_files.specs.Files as files_in;
ghost use Rattle.sany_files.specs.Reading as reading;

use fact_lines::ModuleReport;
use family_facts::File;
use sany_files::files_of_folder;
use sany_report::{report_on, report_status};
use std::alloc::Global;
use step_count::Steps;
use tool_io::{Folder, IoFault};
use tool_list::{List, Memory};
use workspace::check_family;

/// What a run is to write, and its status.
#[derive(Drop)]
pub struct Outcome {
    pub status: u8,
    pub bytes: List<u8>,
}

// The report on modules.
fn reported(alloc: Global, reports: &[ModuleReport]) -> Result<Outcome, Memory>
    requires { All IsReportPlaced reports.now }
    ensures outcome { IfOk result (λ outcome. outcome ≡ program.reported reports.now) }
    ensures verdict { IfOk result (λ outcome. nat_le outcome.status 1 ≡ true) }
{
    let report = report_on(alloc, reports)?;
    Ok(Outcome {
        status: report_status(reports),
        bytes: List::from_vec(report.into_bytes()),
    })
}

// The outcome for the files of a folder.
fn outcome_of_files<L>(
    alloc: Global,
    files: &[File],
    facts: bool,
    steps: &mut Steps<L>,
) -> Result<Outcome, Memory>
    requires distinct { AreDistinct files.now }
    requires small { files_in.byte_count files.now ≤ files_in.MOST_BYTES }
    ensures outcome { IfOk result (λ outcome. outcome
        ≡ program.outcome_of_files facts files.now) }
    ensures done { IfOk result (λ outcome. is_done outcome.status ≡ true) }
    ensures ticks { IfOk result (λ _. steps.new
        ≡ after_checks (checks_of files.now) steps.old) }
{
    let found = check_family(alloc, files, facts, steps)?;
    reported(alloc, found.reports.as_slice())
}

/// The outcome for a folder: with facts, if they are asked for. None where a limit is passed.
pub fn outcome_of_folder<F: Folder, L>(
    alloc: Global,
    folder: &mut F,
    path: &str,
    facts: bool,
    steps: &mut Steps<L>,
) -> Result<Option<Outcome>, IoFault>
    ensures outcome { IfOk result
        (λ outcome.
        IfSome outcome
        (λ o. IfSome (F.told folder.old) (λ t. o
        ≡ program.outcome_of_files facts (files_in.files_of t path.now)))) }
    ensures limit { IfOk result
        (λ outcome. IfSome (F.told folder.old) (λ t. files_in.is_over_folder t path.now
        ≡ is_none outcome)) }
    ensures done { IfOk result (λ outcome. IfSome outcome (λ o. is_done o.status ≡ true)) }
    ensures ticks { IfOk result
        (λ outcome.
        IfSome outcome
        (λ _. IfSome (F.told folder.old) (λ t. steps.new
        ≡ after_checks (checks_of (files_in.files_of t path.now)) steps.old))) }
    ensures told { IfOk result (λ outcome. F.told folder.new
        ≡ option_map (reading.after_folder path.now) (F.told folder.old)) }
    ensures part { OnErr result
        (IfSome (F.told folder.old) (λ t. IsLeftAfter 1 (calls.calls_of_folder t path.now) t
        (F.told folder.new))) }
    ensures cause { HasCause (F.fault_count folder.old) (F.fault_count folder.new) result }
{
    let Some(files) = files_of_folder(alloc, folder, path)? else {
        return Ok(None);
    };
    match outcome_of_files(alloc, files.as_slice(), facts, steps) {
        Ok(outcome) => Ok(Some(outcome)),
        Err(Memory) => Err(IoFault::Memory),
    }
}
