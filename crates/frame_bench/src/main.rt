//! Reads its input whole, takes the frames of it apart, and prints what was found.
//!
//! The words say what is measured: `framer byte`, `framer block` and `framer whole` feed a framer by
//! one byte, by 4,096 bytes and at once; `message` feeds it at once, and reads each content.
#![tactic(auto)]

mod count;
mod counts;
mod refused;
mod task;

use std::alloc::Global;
use std::env;
use std::io::{self, Read};
use std::process::ExitCode;
use std::rt::Env;

// More bytes than the input may have.
const TOO_MANY: usize = 67_108_864;

fn words_of(rt: &(impl Env + AllocGlobal), alloc: Global) -> io::Result<Vec<String>> {
    let mut words = Vec::new(alloc);
    for word in env::args(rt)?.skip(1) {
        words.push(word)?;
    }
    Ok(words)
}

fn bytes_of(alloc: Global, input: &mut impl Read) -> io::Result<Vec<u8>> {
    let mut bytes = Vec::new(alloc);
    input.read_to_end(&mut bytes)?;
    Ok(bytes)
}

fn main(rt: HostRuntime) -> io::Result<ExitCode> {
    let alloc = rt.alloc();
    let words = words_of(&rt, alloc)?;
    let Some(task) = task::task_of(&words) else {
        eprintln!(rt; "usage: frame_bench framer byte|block|whole, or frame_bench message")?;
        return Ok(ExitCode::from(2));
    };
    let stream = bytes_of(alloc, &mut rt.stdin())?;
    if stream.len() >= TOO_MANY {
        eprintln!(rt; "frame_bench: the input has 2^26 bytes or more")?;
        return Ok(ExitCode::from(7));
    }
    match count::count(alloc, task, &stream) {
        Ok(counts) => {
            println!(rt;
                "contents={} bytes={} refused={}",
                counts.contents, counts.bytes, counts.refused
            )?;
            Ok(ExitCode::from(0))
        }
        Err(_) => Ok(ExitCode::from(6)),
    }
}
