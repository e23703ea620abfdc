// The command whose words are read.
ghost use Rattle.std.specs.Prelude.{◌≡◌, IfOk};
ghost use Rattle.clap.specs.Words.{app_of, with_rule};
ghost use Rattle.sany_words.specs.Words as words_of;

use clap::{Arg, ArgAction, Command};
use std::alloc::{AllocError, Global};

/// What is to be done.
pub const COMMAND: &str = "COMMAND";

/// What it is to be done with.
pub const ARGUMENT: &str = "ARG";

/// Whether facts are asked for.
pub const FACTS: &str = "facts";

// The command without arguments. It reads all words, and has no flags of its own.
fn bare<'a>(alloc: Global) -> Command<'a>
    ensures { app_of result ≡ words_of.bare }
{
    Command::new(alloc, "sany")
        .no_binary_name(true)
        .disable_help_flag(true)
        .disable_version_flag(true)
}

// With COMMAND, which is required.
fn with_name<'a>(alloc: Global, command: Command<'a>) -> Result<Command<'a>, AllocError>
    ensures { IfOk result
        (λ more. app_of more ≡ with_rule (app_of command.entry) words_of.name_rule) }
{
    command.arg(Arg::new(alloc, COMMAND).required(true))
}

// With ARG.
fn with_argument<'a>(alloc: Global, command: Command<'a>) -> Result<Command<'a>, AllocError>
    ensures { IfOk result
        (λ more. app_of more ≡ with_rule (app_of command.entry) words_of.argument_rule) }
{
    command.arg(Arg::new(alloc, ARGUMENT))
}

// With the flag `--facts`.
fn with_facts<'a>(alloc: Global, command: Command<'a>) -> Result<Command<'a>, AllocError>
    ensures { IfOk result
        (λ more. app_of more ≡ with_rule (app_of command.entry) words_of.facts_rule) }
{
    let facts = Arg::new(alloc, FACTS)
        .long(FACTS)
        .action(ArgAction::SetTrue);
    command.arg(facts)
}

/// The command: a required COMMAND, an optional ARG, and the flag `--facts`.
pub fn command<'a>(alloc: Global) -> Result<Command<'a>, AllocError>
    ensures { IfOk result (λ command. app_of command ≡ words_of.command) }
{
    let named = with_name(alloc, bare(alloc))?;
    let both = with_argument(alloc, named)?;
    with_facts(alloc, both)
}
