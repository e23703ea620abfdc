//! Reads a text whole, steps one machine for expressions over the lexemes behind the first `==` of its
//! module, and prints what the machine answers.
//!
//! There are no words.
#![tactic(auto)]

mod body;
mod measure;
mod stepping;

use crate::measure::{Fault, Found, measure};
use expr_parse::Step;
use std::alloc::Global;
use std::env;
use std::io::{self, Read};
use std::process::ExitCode;
use std::rt::Env;

// More bytes than the input may have.
const TOO_MANY: usize = 67_108_864;

fn has_words(rt: &(impl Env + AllocGlobal)) -> io::Result<bool> {
    let mut words = env::args(rt)?.skip(1);
    Ok(words.next().is_some())
}

fn bytes_of(alloc: Global, input: &mut impl Read) -> io::Result<Vec<u8>> {
    let mut bytes = Vec::new(alloc);
    input.read_to_end(&mut bytes)?;
    Ok(bytes)
}

fn word_of(step: Step) -> &'static str {
    match step {
        Step::Going => "going",
        Step::Done { .. } => "done",
        Step::Refused => "refused",
    }
}

// The status of a fault, and what standard error says of it.
fn told(fault: Fault) -> (u8, &'static str) {
    match fault {
        Fault::NotUtf8 => (3, "step_bench: the input is not UTF-8"),
        Fault::NoHeader => (3, "step_bench: the input has no module header"),
        Fault::NoDefinition => (3, "step_bench: the module has no =="),
        Fault::Memory => (6, "step_bench: there is no memory"),
    }
}

// Prints what was found.
fn show(rt: &impl Print, found: Found) -> io::Result<ExitCode> {
    let word = word_of(found.stop.step);
    println!(rt;
        "lexemes={} answer={} nodes={}",
        found.stop.lexemes, word, found.nodes
    )?;
    Ok(ExitCode::from(0))
}

// Says on standard error why nothing is printed.
fn refuse(rt: &impl Eprint, status: u8, line: &str) -> io::Result<ExitCode> {
    eprintln!(rt; "{line}")?;
    Ok(ExitCode::from(status))
}

fn main(rt: HostRuntime) -> io::Result<ExitCode> {
    if has_words(&rt)? {
        return refuse(&rt, 2, "usage: step_bench <FILE");
    }
    let input = bytes_of(rt.alloc(), &mut rt.stdin())?;
    if input.len() >= TOO_MANY {
        return refuse(&rt, 7, "step_bench: the input has 2^26 bytes or more");
    }
    match measure(rt.alloc(), &input) {
        Ok(found) => show(&rt, found),
        Err(fault) => {
            let (status, line) = told(fault);
            refuse(&rt, status, line)
        }
    }
}
