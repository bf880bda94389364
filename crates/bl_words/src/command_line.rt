//! The command line, as `clap` is told it, and what `clap` makes of words.
ghost use Rattle.std.specs.Prelude.{◌≡◌, IfOk, IfErr, map, string_bytes, [], false};
ghost use Rattle.clap.specs.{Walk.texts, declared.builder.command.Command.TheViews.out-Command as fields_of};
ghost use Rattle.clap.specs.Words.{app_of, fault_of, kind_of, rule_of, subcommand_of, subcommand_rows_of};
ghost use Rattle.bl_words.specs.CommandLine.{argument_rule, bare_app, blade_app, command_shape, option_rule, with_commands as commands_in};

use clap::error::ErrorKind;
use clap::{Arg, ArgAction, ArgMatches, Command, Error};
use std::alloc::{AllocError, Global};

/// Why there are no matches.
#[derive(Clone, Copy, Debug, PartialEq, Eq)]
pub enum Unmatched {
    /// The words are refused.
    Refused,
    /// There is no memory for them.
    Memory,
}

/// What `clap` makes of the words, the program's own name first: refused exactly where it finds a fault in them.
pub fn matches_of<'a>(alloc: Global, words: &'a [String]) -> Result<ArgMatches<'a>, Unmatched>
    ensures taken { IfOk result (λ m. (fault_of blade_app (map string_bytes words.now) ≡ [])
        × (subcommand_rows_of m ≡ subcommand_of blade_app (map string_bytes words.now))) }
    ensures refused { IfErr result (λ e. e ≡ Unmatched.Refused → fault_of blade_app (map string_bytes words.now) ≡ [] → ⊥) }
{
    let Ok(command) = command_line(alloc) else {
        return Err(Unmatched::Memory);
    };
    match command.try_get_matches_from(words) {
        Ok(found) => Ok(found),
        Err(error) => Err(reason_of(&error)),
    }
}

/// Why `clap` fails: each of its refusals but want of memory refuses the words.
fn reason_of(error: &Error) -> Unmatched
    ensures { result ≡ Unmatched.Refused → kind_of error.now ≡ ErrorKind.OutOfMemory → ⊥ }
{
    match error.kind() {
        ErrorKind::OutOfMemory => Unmatched::Memory,
        _ => Unmatched::Refused,
    }
}

/// The program with its commands.
fn command_line<'a>(alloc: Global) -> Result<Command<'a>, AllocError>
    ensures { IfOk result (λ c. app_of c ≡ blade_app) }
{
    with_commands(
        alloc,
        bare(alloc),
        &[
            "harden", "lower", "interp", "run", "spec", "verify", "twin", "forward", "predict",
            "part", "join", "gen",
        ],
    )
}

/// The program with these commands too.
fn with_commands<'a>(
    alloc: Global,
    program: Command<'a>,
    names: &[&'a str],
) -> Result<Command<'a>, AllocError>
    ensures { IfOk result (λ c. app_of c ≡ commands_in (app_of program.entry) (texts names.now)) }
{
    let mut program = program;
    for name in names {
        let command = subcommand(alloc, *name)?;
        program = program.subcommand(command)?;
    }
    Ok(program)
}

/// The program without its commands: no help and no version, and a command must stand.
fn bare<'a>(alloc: Global) -> Command<'a>
    ensures app { app_of result ≡ bare_app }
    ensures local { (fields_of result).has_globals ≡ false }
{
    Command::new(alloc, "blade")
        .disable_help_flag(true)
        .disable_help_subcommand(true)
        .disable_version_flag(true)
        .subcommand_required(true)
}

/// A command. All have one shape: `clap` takes their words apart, and the command counts its parts.
fn subcommand<'a>(alloc: Global, name: &'a str) -> Result<Command<'a>, AllocError>
    ensures app { IfOk result (λ c. app_of c ≡ record { top = command_shape name.now; subs = [] }) }
    ensures local { IfOk result (λ c. (fields_of c).has_globals ≡ false) }
{
    let command = Command::new(alloc, name).arg(argument(alloc))?;
    let command = command.arg(option(alloc, "steps"))?;
    command.arg(option(alloc, "counts"))
}

/// The arguments of a command, in order.
fn argument<'a>(alloc: Global) -> Arg<'a>
    ensures rule { rule_of result ≡ argument_rule }
    ensures local { result.global ≡ false }
{
    Arg::new(alloc, "argument").action(ArgAction::Append)
}

/// An option, each time that it stands.
fn option<'a>(alloc: Global, name: &'a str) -> Arg<'a>
    ensures rule { rule_of result ≡ option_rule name.now }
    ensures local { result.global ≡ false }
{
    Arg::new(alloc, name).long(name).action(ArgAction::Append)
}
