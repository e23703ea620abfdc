//! The program over the front alone: reads one module, and says what is at fault before its names are
//! looked at.
//!
//! The word is the name of the module, whose text comes on standard input. It stands on few crates, so
//! that it shows a first report soon. Knows nothing of names, of levels and of other modules.
#![tactic(auto)]

mod outcome;

use crate::outcome::{Outcome, outcome_of};
use family_facts::File;
use std::alloc::Global;
use std::env;
use std::io::{self, Read};
use std::process::ExitCode;
use std::rt::Env;
use tool_list::{Chars, List};

// The most bytes that are read.
const MOST_BYTES: usize = 33_554_432;

// The one word, if there is no other.
fn word_of(rt: &(impl Env + AllocGlobal)) -> io::Result<Option<String>> {
    let mut words = env::args(rt)?.skip(1);
    let Some(word) = words.next() else {
        return Ok(None);
    };
    if words.next().is_some() {
        return Ok(None);
    }
    Ok(Some(word))
}

fn bytes_of(alloc: Global, input: &mut impl Read) -> io::Result<Vec<u8>> {
    let mut bytes = Vec::new(alloc);
    input.read_to_end(&mut bytes)?;
    Ok(bytes)
}

// Prints what is said of a module.
fn show(rt: &impl Print, outcome: &Outcome) -> io::Result<ExitCode> {
    let text = outcome.text.as_str();
    print!(rt; "{text}")?;
    Ok(ExitCode::from(outcome.status))
}

// Says on standard error why nothing is printed.
fn refuse(rt: &impl Eprint, status: u8, line: &str) -> io::Result<ExitCode> {
    eprintln!(rt; "{line}")?;
    Ok(ExitCode::from(status))
}

fn main(rt: HostRuntime) -> io::Result<ExitCode> {
    let alloc = rt.alloc();
    let Some(word) = word_of(&rt)? else {
        return refuse(&rt, 2, "sany_front: usage: sany_front NAME <FILE");
    };
    let bytes = bytes_of(alloc, &mut rt.stdin())?;
    if bytes.len() > MOST_BYTES {
        return refuse(&rt, 7, "sany_front: limit");
    }
    let Ok(name) = Chars::from_str(alloc, word.as_str()) else {
        return refuse(&rt, 6, "sany_front: no memory");
    };
    let bytes = List::from_vec(bytes);
    match outcome_of(alloc, File { name, bytes }) {
        Ok(outcome) => show(&rt, &outcome),
        Err(_) => refuse(&rt, 6, "sany_front: no memory"),
    }
}
