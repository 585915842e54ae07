//! The table of subcommands as `clap` commands.
ghost use Rattle.std.specs.Prelude.{◌≡◌, IfOk, false};
ghost use Rattle.clap.specs.Words.{app_of, rule_of};
ghost use Rattle.clap.specs.declared.builder.command.Command.TheViews.{out-Command as fields_of};
ghost use Rattle.moc_command_line.specs.CommandLine.{IsCommandLine};
ghost use Rattle.moc_command_line.specs.Private.Words.{app_of_subcommand, app_with_subcommand};
ghost use Rattle.moc_command_line.specs.Private.Words.{bare_app, rule_of_argument};

use crate::help::OVERVIEW;
use crate::subcommands::{Argument, Subcommand, subcommands};
use clap::{Arg, Command};
use std::alloc::{AllocError, Global};

/// Returns the command line of the program for `clap`: one level of subcommands, all arguments positional.
///
/// # Errors
/// Fails with `AllocError` if an allocation fails.
pub fn command_line<'a>(alloc: Global) -> Result<Command<'a>, AllocError>
    ensures { IfOk result (λ c. IsCommandLine (app_of c)) }
{
    let mut program = program(alloc)?;
    for word in subcommands() {
        program = add_subcommand(alloc, program, word)?;
    }
    Ok(program)
}

/// Returns the program without subcommands.
fn program<'a>(alloc: Global) -> Result<Command<'a>, AllocError>
    ensures { IfOk result (λ c. app_of c ≡ bare_app) }
{
    Command::new(alloc, "moc")
        .version("0.1.0")
        .override_help(OVERVIEW)
        .no_binary_name(true)
        .subcommand_required(true)
        .bin_name("moc")
}

/// Adds a subcommand to the program.
fn add_subcommand<'a>(
    alloc: Global,
    program: Command<'a>,
    word: &Subcommand,
) -> Result<Command<'a>, AllocError>
    ensures { IfOk result (λ c. app_of c ≡ app_with_subcommand (app_of program.entry) word.now) }
{
    program.subcommand(command(alloc, word)?)
}

/// Returns a subcommand with its arguments.
fn command<'a>(alloc: Global, word: &Subcommand) -> Result<Command<'a>, AllocError>
    ensures app { IfOk result (λ c. app_of c ≡ app_of_subcommand word.now) }
    ensures local { IfOk result (λ c. (fields_of c).has_globals ≡ false) }
{
    let mut command = Command::new(alloc, word.name)
        .about(word.about)
        .after_help(word.topic.text());
    for argument in word.arguments {
        command = command.arg(positional_argument(alloc, argument))?;
    }
    Ok(command)
}

/// Returns an argument of a subcommand.
fn positional_argument<'a>(alloc: Global, argument: &Argument) -> Arg<'a>
    ensures rule { rule_of result ≡ rule_of_argument argument.now }
    ensures local { result.global ≡ false }
{
    Arg::new(alloc, argument.name)
        .required(argument.required)
        .value_parser(argument.values)
        .help(argument.help)
}
