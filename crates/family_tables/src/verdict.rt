// The verdicts on files, by what was found of their modules.
ghost use Rattle.std.specs.Prelude.{◌≡◌, ◌<◌, ◌≤◌, ◌^◌, IfOk, length, sum_by, take};
ghost use Rattle.std.specs.List.{AllZip};
ghost use Rattle.std.specs.Str.{IsUtf8};
ghost use Rattle.family_tables.specs.Outcomes as outcomes_of;
ghost use Rattle.family_tables.specs.Outcomes.{IsSaid};
ghost use Rattle.family_tables.specs.Tables.{entry_of};
ghost use Rattle.family_facts.specs.Verdicts.{text_of};

use crate::outcome::Outcome;
use crate::table::Table;
use family_facts::{File, Verdict};
use std::alloc::Global;
use tla_model::Diagnostic;
use tla_text::{Text, TextError};
use tool_list::{Chars, List, Memory, copied};

// A front of some bytes that is a text.
fn front_text(alloc: Global, bytes: &[u8], at: usize) -> Result<Text, Memory>
    requires fits { length bytes.now < 2 ^ 31 }
    requires within { at ≤ length bytes.now }
    requires utf8 { IsUtf8 (take at bytes.now) }
    ensures { IfOk result (λ text. text ≡ take at bytes.now) }
{
    Text::from_utf8(alloc, &bytes[..at])
}

// The longest front of some bytes that is a text.
fn readable(alloc: Global, bytes: &[u8]) -> Result<Text, Memory>
    requires { length bytes.now < 2 ^ 31 }
    ensures { IfOk result (λ text. text ≡ text_of bytes.now) }
{
    match Text::read(alloc, bytes) {
        Ok(text) => Ok(text),
        Err(TextError::NotUtf8 { at }) => front_text(alloc, bytes, at as usize),
        Err(TextError::Memory) => Err(Memory),
    }
}

// The faults that were found of a name.
fn faults_of(
    alloc: Global,
    outcomes: &Table<Outcome>,
    name: &str,
) -> Result<List<Diagnostic>, Memory>
    ensures { IfOk result (λ faults. faults
        ≡ outcomes_of.faults_of (entry_of outcomes.now name.now)) }
{
    match outcomes.get(name) {
        Some(Outcome::Refused(faults)) => Ok(copied(alloc, faults.as_slice())?),
        _ => Ok(List::new(alloc)),
    }
}

// The verdict on a file.
fn verdict_of(alloc: Global, file: &File, outcomes: &Table<Outcome>) -> Result<Verdict, Memory>
    requires { length file.now.bytes < 2 ^ 31 }
    ensures { IfOk result (IsSaid outcomes.now file.now) }
{
    let name = file.name.as_str();
    let text = readable(alloc, file.bytes.as_slice())?;
    let faults = faults_of(alloc, outcomes, name)?;
    let name = Chars::from_str(alloc, name)?;
    Ok(Verdict { name, text, faults })
}

/// The verdicts on files, in their order, by what was found of their modules.
pub fn verdicts_of(
    alloc: Global,
    files: &[File],
    outcomes: &Table<Outcome>,
) -> Result<List<Verdict>, Memory>
    requires { sum_by (λ file. length file.bytes) files.now < 2 ^ 31 }
    ensures { IfOk result (AllZip (IsSaid outcomes.now) files.now) }
{
    let mut verdicts = List::new(alloc);
    for file in files {
        verdicts.push(verdict_of(alloc, file, outcomes)?)?;
    }
    Ok(verdicts)
}
