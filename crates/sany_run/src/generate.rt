// The outcome for modules that are made.
ghost use Rattle.std.specs.Prelude.{◌≡◌, IfOk, true};
ghost use Rattle.family_facts.specs.Verdicts.{after_checks, checks_of};
ghost use Rattle.gen_texts.specs.Generated as generated_by;
ghost use Rattle.sany_run.specs.Answers.{is_done};
ghost use Rattle.sany_run.specs.Program as program;

use crate::check::Outcome;
use gen_texts::generated;
use sany_report::{counts_of, report_status};
use std::alloc::Global;
use step_count::Steps;
use tool_list::{List, Memory};
use workspace::{FamilyCheck, check_family};

// The counts of what was found.
fn counted(alloc: Global, found: &FamilyCheck) -> Result<Outcome, Memory>
    ensures outcome { IfOk result (λ outcome. outcome
        ≡ program.counted found.now.reports found.now.use_count) }
    ensures done { IfOk result (λ outcome. is_done outcome.status ≡ true) }
{
    let reports = found.reports.as_slice();
    let counts = counts_of(alloc, reports, found.use_count)?;
    Ok(Outcome {
        status: report_status(reports),
        bytes: List::from_vec(counts.into_bytes()),
    })
}

/// The outcome for so many modules that are made.
pub fn outcome_of_generated<L>(
    alloc: Global,
    count: u16,
    steps: &mut Steps<L>,
) -> Result<Outcome, Memory>
    ensures outcome { IfOk result (λ outcome. outcome ≡ program.outcome_of_generated count) }
    ensures done { IfOk result (λ outcome. is_done outcome.status ≡ true) }
    ensures ticks { IfOk result (λ _. steps.new
        ≡ after_checks (checks_of (generated_by.generated count)) steps.old) }
{
    let files = generated(alloc, count)?;
    let found = check_family(alloc, files.as_slice(), false, steps)?;
    counted(alloc, &found)
}
