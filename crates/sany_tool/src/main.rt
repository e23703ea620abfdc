//! The program: reads a folder of modules and reports on them.
//!
//! `main` makes the adapters over std, and leaves all else to `run` of `sany_run`.
#![tactic(auto)]

ghost use Rattle.std.specs.Prelude.{◌≡◌};
ghost use Rattle.std.specs.Option.{option_copied};
ghost use Rattle.std.specs.IoError.{error_kind};
ghost use Rattle.std.specs.Process.{exit_status};
ghost use Rattle.sany_tool.specs.Lines as lines;

use sany_run::run;
use std::alloc::Global;
use std::io::ErrorKind;
use std::process::ExitCode;
use std::rt::Env;
use std::{env, io};
use step_count::Steps;
use tool_io::{StdFolder, StdSink, StdSource};

// The words of the command line, without the program's name.
fn words_of(rt: &(impl Env + AllocGlobal), alloc: Global) -> io::Result<Vec<String>> {
    let mut words = Vec::new(alloc);
    for word in env::args(rt)?.skip(1) {
        words.push(word)?;
    }
    Ok(words)
}

// The status where the words can't be read.
fn status_without_words(error: &io::Error) -> u8
    ensures { result ≡ lines.status_without_words (error_kind error.now) }
{
    match error.kind() {
        ErrorKind::OutOfMemory => 6,
        _ => 2,
    }
}

// The line for a status that is no verdict.
fn line_of(status: u8) -> Option<&'static str>
    ensures { option_copied result ≡ lines.line_of status }
{
    match status {
        2 => Some("sany: usage: check FOLDER [--facts] | serve | gen N"),
        3 => Some("sany: folder fault"),
        4 => Some("sany: input fault"),
        5 => Some("sany: output fault"),
        6 => Some("sany: no memory"),
        7 => Some("sany: limit"),
        8 => Some("sany: bad header"),
        _ => None,
    }
}

// What the process answers for a status.
fn exit_code(status: u8) -> ExitCode
    ensures { exit_status result ≡ status }
{
    ExitCode::from(status)
}

fn main(rt: HostRuntime) -> ExitCode {
    let alloc = rt.alloc();
    let status = match words_of(&rt, alloc) {
        Ok(words) => {
            let mut input = StdSource::new(rt.stdin());
            let mut output = StdSink::new(rt.stdout());
            let mut steps = Steps::new(());
            let folder = StdFolder::new(&rt);
            let (status, _) = run(alloc, &words, folder, &mut input, &mut output, &mut steps);
            status
        }
        Err(error) => status_without_words(&error),
    };
    if let Some(line) = line_of(status) {
        let _ = eprintln!(rt; "{line}");
    }
    exit_code(status)
}
