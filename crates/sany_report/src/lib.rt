//! The report on some modules: a line for each, the faults below those that are refused and the
//! facts below the others, and the counts; or the counts alone, with that of their uses.
//!
//! Answers the report and the status that goes with it. Knows nothing of how verdicts and facts are
//! found, and of where a report is written.
#![tactic(auto)]

mod report;

pub use report::{counts_of, report_on, report_status};
