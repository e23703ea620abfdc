// What the words ask for.
ghost use Rattle.std.specs.Prelude.{◌≡◌, ◌==◌, IfOk, Some, option_map};
ghost use Rattle.clap.specs.Words.{found_of, rows_of};
ghost use Rattle.sany_words.specs.Words as words_of;
ghost use Rattle.sany_words.specs.Texts.{texts};

use crate::command::{ARGUMENT, COMMAND, FACTS, command};
use clap::ArgMatches;
use clap::error::ErrorKind;
use std::alloc::Global;
use tool_list::{Chars, Memory};

/// What is asked for.
#[derive(Drop)]
pub enum Request {
    /// To check the modules of the folder of this path, and to show facts too where they are asked
    /// for.
    Check { folder: Chars, facts: bool },
    /// To make so many modules and check them.
    Generate(u16),
    /// To answer the messages of a client (LSP).
    Serve,
}

// The most modules that are made.
const MOST_GENERATED: u16 = 1024;

// Whether a text begins with a digit other than 0.
fn begins_count(text: &[u8]) -> bool
    ensures { result ≡ words_of.begins_count text.now }
{
    match text {
        [] => false,
        [first, ..] => (b'1'..=b'9').contains(first),
    }
}

// The number of modules that a text asks for: from 1 to the most, in digits without leading zero.
fn count_in(text: &str) -> Option<u16>
    ensures { result ≡ words_of.count_in text.now }
{
    if !begins_count(text.as_bytes()) {
        return None;
    }
    match text.parse::<u16>() {
        Ok(count) if count <= MOST_GENERATED => Some(count),
        _ => None,
    }
}

// What a command with an argument asks for. Facts are shown by a check alone.
fn request_with(
    alloc: Global,
    command: &str,
    argument: &str,
    facts: bool,
) -> Result<Option<Request>, Memory>
    ensures { IfOk result
        (λ request. request ≡ words_of.request_with command.now argument.now facts) }
{
    if command == "check" {
        let folder = Chars::from_str(alloc, argument)?;
        return Ok(Some(Request::Check { folder, facts }));
    }
    if facts || command != "gen" {
        return Ok(None);
    }
    match count_in(argument) {
        Some(count) => Ok(Some(Request::Generate(count))),
        None => Ok(None),
    }
}

// What a command without an argument asks for.
fn request_without(command: &str, facts: bool) -> Option<Request>
    ensures { result ≡ words_of.request_without command.now facts }
{
    if !facts && command == "serve" {
        return Some(Request::Serve);
    }
    None
}

// What a command asks for.
fn request_by(
    alloc: Global,
    command: Option<&str>,
    argument: Option<&str>,
    facts: bool,
) -> Result<Option<Request>, Memory>
    ensures { IfOk result (λ request. request
        ≡ words_of.request_by (option_map (λ s. s.now) command.entry)
        (option_map (λ s. s.now) argument.entry) facts) }
{
    let Some(command) = command else {
        return Ok(None);
    };
    match argument {
        Some(argument) => request_with(alloc, command, argument, facts),
        None => Ok(request_without(command, facts)),
    }
}

// Whether a flag with this value is set.
fn is_set(value: Option<&str>) -> bool
    ensures { result ≡ words_of.is_set (option_map (λ s. s.now) value.entry) }
{
    match value {
        Some(text) => text == "true",
        None => false,
    }
}

// What the matches ask for.
fn request_in(alloc: Global, matches: &ArgMatches<'_>) -> Result<Option<Request>, Memory>
    ensures { IfOk result (λ request. request
        ≡ words_of.request_in (rows_of (found_of matches.now))) }
{
    let facts = is_set(matches.get_str(FACTS));
    request_by(
        alloc,
        matches.get_str(COMMAND),
        matches.get_str(ARGUMENT),
        facts,
    )
}

/// What the words ask for. None where the command refuses them, or where it takes them and they are
/// no request.
pub fn request_of(alloc: Global, words: &[String]) -> Result<Option<Request>, Memory>
    ensures { IfOk result (λ request. request ≡ words_of.request_of (texts words.now)) }
{
    match command(alloc)?.try_get_matches_from(words) {
        Ok(matches) => request_in(alloc, &matches),
        Err(error) => match error.kind() {
            ErrorKind::OutOfMemory => Err(Memory),
            _ => Ok(None),
        },
    }
}
