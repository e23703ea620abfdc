//! Does what the program does, and then says on standard error how many modules it checked.
#![tactic(auto)]

use sany_run::run;
use std::alloc::Global;
use std::process::ExitCode;
use std::rt::Env;
use std::{env, io};
use step_count::Steps;
use tool_io::{StdFolder, StdSink, StdSource};

// The words of the command line, without the program's name.
fn words_of(rt: &(impl Env + AllocGlobal), alloc: Global) -> io::Result<Vec<String>> {
    let mut words = Vec::new(alloc);
    for word in env::args(rt)?.skip(1) {
        words.push(word)?;
    }
    Ok(words)
}

fn main(rt: HostRuntime) -> io::Result<ExitCode> {
    let alloc = rt.alloc();
    let words = words_of(&rt, alloc)?;
    let mut input = StdSource::new(rt.stdin());
    let mut output = StdSink::new(rt.stdout());
    let mut steps = Steps::new(());
    let folder = StdFolder::new(&rt);
    let (status, _) = run(alloc, &words, folder, &mut input, &mut output, &mut steps);
    eprintln!(rt; "checks={}", steps.count())?;
    Ok(ExitCode::from(status))
}
