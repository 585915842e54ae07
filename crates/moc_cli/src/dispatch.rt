//! The entry point of the program: from the command line to the exit status.
ghost use Rattle.std.specs.Prelude.{◌≡◌, ◌≢◌, ◌⊎◌, ◌||◌, false, map, IfErr, IfOk, IsTrue, OnOk};
ghost use Rattle.moc_devices.specs.Devices.{AcceptsNone};
ghost use Rattle.std.specs.IoError.{error_kind};
ghost use Rattle.clap.specs.Words.{kind_of};
ghost use Rattle.moc_cli.specs.Explanations.{not_utf8_text};
ghost use Rattle.moc_cli.specs.Endings.{AcceptsSome, AreAlwaysInvalid, AreInvalid, HasInvalidName};
ghost use Rattle.moc_cli.specs.Endings.{RequestHelp, BlamesFailed, CanEndWith};
ghost use Rattle.moc_cli.specs.Endings.{ReportsUsageError, IsUsageError, RunsOutOfMemory, ReportsErrorOf};
ghost use Rattle.moc_cli.specs.Endings.{Succeeds, WritesUnlessFailed};
ghost use Rattle.moc_cli.specs.Statuses.{IsErrorCode, code_of, error_text};
ghost use Rattle.moc_cli.specs.Private.Matches.{AreParsedAs};

use crate::execution::execute_matches;
use crate::explaining::{explain, has_invalid_name, report_invalid_name};
use crate::status::{ProgramError, Status, report_result};
use clap::error::ErrorKind;
use clap::{ArgMatches, Error};
use moc_command_line::command_line;
use moc_devices::{Sink, Source, write_all};
use std::alloc::Global;
use std::convert::AsStr;
use std::io::{self, ErrorKind as IoErrorKind};
use std::marker::Sync;
use std::sync::Wait;
use std::thread::Threads;

/// Executes the command line, and returns the exit status: 0 on success and after help, 1 for an invalid value, text or
/// line, 2 for an invalid command line, 3 if a device or an allocation fails or a thread cannot be started. Errors, and
/// notes on what was read, are reported on `errors`; a failure to write them does not change the status. Only the
/// subcommand `crew` starts threads and waits for them.
///
/// Requires that no call of the input or the output has failed before.
pub fn program<'a, T: Threads + Wait + Sync, S: AsStr, R: Source, W: Sink, E: Sink>(
    rt: &T,
    alloc: Global,
    arguments: &'a [S],
    input: &mut R,
    output: &mut W,
    errors: &mut E,
) -> u8
    requires input { R.mark input.old ≡ false }
    requires output { W.mark output.old ≡ false }

    // The status is one of `Status`.
    ensures status { (status : Status) × (result ≡ code_of status) }

    // 2 is returned only if `clap` rejects the command line or a name is invalid, and always in the second case. A
    // command line that can only be invalid ends with 2; or with 3, and then `errors` accepts the text of `Memory`, or
    // a prefix of it if `errors` fails. In both cases nothing is written to `output`.
    ensures failure { result ≡ code_of Status.BadCommandLine
        → AreInvalid (map S.text arguments.entry.now) ⊎ HasInvalidName (map S.text arguments.entry.now) }
    ensures names { HasInvalidName (map S.text arguments.entry.now) → result ≡ code_of Status.BadCommandLine }
    ensures always_invalid { AreAlwaysInvalid (map S.text arguments.entry.now)
        → (result ≡ code_of Status.BadCommandLine) ⊎ ((result ≡ code_of Status.Failed)
        × RunsOutOfMemory (W.writing output.old) (W.writing output.new)
        (E.mark errors.old || E.mark errors.new) (E.writing errors.old) (E.writing errors.new)) }
    ensures no_output { result ≡ code_of Status.BadCommandLine
        → AcceptsNone (W.writing output.old) (W.writing output.new) }
    ensures explained { result ≡ code_of Status.BadCommandLine → ReportsUsageError (map S.text arguments.entry.now)
        (E.mark errors.old || E.mark errors.new) (E.writing errors.old) (E.writing errors.new) }

    // At 0 either the command line asks for help, at least one byte is written, and nothing is written to `errors`. Or
    // its action succeeded, the whole output is written, and its notes on what was read are written to `errors`, or a
    // prefix of them if `errors` fails.
    ensures done { result ≡ code_of Status.Success → (RequestHelp (map S.text arguments.entry.now)
        × AcceptsSome (W.writing output.old) (W.writing output.new)
        × AcceptsNone (E.writing errors.old) (E.writing errors.new))
        ⊎ Succeeds (map S.text arguments.entry.now)
        (R.reading input.old) (R.reading input.new) (W.writing output.old) (W.writing output.new)
        (E.mark errors.old || E.mark errors.new) (E.writing errors.old) (E.writing errors.new) }

    // At 1 and 3 the status is that of an error: `Memory` before any output, `Write` of help, or an error with which
    // the action may end on what was read. A device that the error blames has failed. The text of the error is written
    // to `errors`, or a prefix of it if `errors` fails.
    ensures reported { IsErrorCode result
        → ReportsErrorOf result (λ error. BlamesFailed (R.mark input.new) (W.mark output.new) error
        × CanEndWith (map S.text arguments.entry.now)
        (R.reading input.old) (R.reading input.new) (W.writing output.old) (W.writing output.new) error)
        (E.mark errors.old || E.mark errors.new) (E.writing errors.old) (E.writing errors.new) }

    // A failed device ends the program with 3, and at 0 all that was written is flushed.
    ensures input { IsTrue (R.mark input.new) → result ≡ code_of Status.Failed }
    ensures output { IsTrue (W.mark output.new) → result ≡ code_of Status.Failed }
    ensures flushed { result ≡ code_of Status.Success → IsTrue (W.flushed output.new) }
{
    if has_invalid_name(arguments) {
        return report_invalid_name(arguments, errors).code();
    }
    parse_and_execute(rt, alloc, arguments, input, output, errors)
}

/// Executes a command line whose names are valid, with the contract of `program`.
fn parse_and_execute<'a, T: Threads + Wait + Sync, S: AsStr, R: Source, W: Sink, E: Sink>(
    rt: &T,
    alloc: Global,
    arguments: &'a [S],
    input: &mut R,
    output: &mut W,
    errors: &mut E,
) -> u8
    requires input { R.mark input.old ≡ false }
    requires output { W.mark output.old ≡ false }
    ensures status { (status : Status) × (result ≡ code_of status) }
    ensures failure { result ≡ code_of Status.BadCommandLine → AreInvalid (map S.text arguments.entry.now) }
    ensures always_invalid { AreAlwaysInvalid (map S.text arguments.entry.now)
        → (result ≡ code_of Status.BadCommandLine) ⊎ ((result ≡ code_of Status.Failed)
        × RunsOutOfMemory (W.writing output.old) (W.writing output.new)
        (E.mark errors.old || E.mark errors.new) (E.writing errors.old) (E.writing errors.new)) }
    ensures no_output { result ≡ code_of Status.BadCommandLine
        → AcceptsNone (W.writing output.old) (W.writing output.new) }
    ensures explained { result ≡ code_of Status.BadCommandLine → ReportsUsageError (map S.text arguments.entry.now)
        (E.mark errors.old || E.mark errors.new) (E.writing errors.old) (E.writing errors.new) }
    ensures done { result ≡ code_of Status.Success → (RequestHelp (map S.text arguments.entry.now)
        × AcceptsSome (W.writing output.old) (W.writing output.new)
        × AcceptsNone (E.writing errors.old) (E.writing errors.new))
        ⊎ Succeeds (map S.text arguments.entry.now)
        (R.reading input.old) (R.reading input.new) (W.writing output.old) (W.writing output.new)
        (E.mark errors.old || E.mark errors.new) (E.writing errors.old) (E.writing errors.new) }
    ensures reported { IsErrorCode result
        → ReportsErrorOf result (λ error. BlamesFailed (R.mark input.new) (W.mark output.new) error
        × CanEndWith (map S.text arguments.entry.now)
        (R.reading input.old) (R.reading input.new) (W.writing output.old) (W.writing output.new) error)
        (E.mark errors.old || E.mark errors.new) (E.writing errors.old) (E.writing errors.new) }
    ensures input { IsTrue (R.mark input.new) → result ≡ code_of Status.Failed }
    ensures output { IsTrue (W.mark output.new) → result ≡ code_of Status.Failed }
    ensures flushed { result ≡ code_of Status.Success → IsTrue (W.flushed output.new) }
{
    let status = match parse(alloc, arguments) {
        Ok(matches) => report_result(execute_matches(rt, alloc, &matches, input, output), errors),
        Err(error) => explain(alloc, arguments, &error, output, errors),
    };
    status.code()
}

/// Reports why the arguments of the command line are not available, and returns the exit status: 3 if an allocation
/// failed, else 2.
pub fn report_argument_error<E: Sink>(error: &io::Error, errors: &mut E) -> u8
    ensures memory { error_kind error.now ≡ IoErrorKind.OutOfMemory → result ≡ code_of Status.Failed }
    ensures not_utf8 { error_kind error.now ≢ IoErrorKind.OutOfMemory
        → result ≡ code_of Status.BadCommandLine }
    ensures reported { result ≡ code_of Status.Failed → WritesUnlessFailed (E.mark errors.old || E.mark errors.new)
        (error_text ProgramError.Memory) (E.writing errors.old) (E.writing errors.new) }
    ensures explained { result ≡ code_of Status.BadCommandLine
        → WritesUnlessFailed (E.mark errors.old || E.mark errors.new) not_utf8_text
        (E.writing errors.old) (E.writing errors.new) }
{
    if error.kind() == IoErrorKind::OutOfMemory {
        return report_result(Err(ProgramError::Memory), errors).code();
    }
    let _ = write_all(b"error: a word of the command line is not UTF-8\n", errors);
    Status::BadCommandLine.code()
}

/// Parses the command line.
fn parse<'a, S: AsStr>(alloc: Global, arguments: &'a [S]) -> Result<ArgMatches<'a>, Error>
    ensures read { IfOk result (AreParsedAs (map S.text arguments.entry.now)) }
    ensures failure { IfErr result (λ e. IsUsageError (kind_of e) → AreInvalid (map S.text arguments.entry.now)) }
    ensures help { IfErr result (λ e. (kind_of e ≡ ErrorKind.DisplayHelp) ⊎ (kind_of e ≡ ErrorKind.DisplayVersion)
        → RequestHelp (map S.text arguments.entry.now)) }
    ensures not_invalid { OnOk result (AreAlwaysInvalid (map S.text arguments.entry.now) → ⊥) }
    ensures always_invalid { IfErr result (λ e. AreAlwaysInvalid (map S.text arguments.entry.now)
        → (kind_of e ≡ ErrorKind.OutOfMemory) ⊎ IsUsageError (kind_of e)) }
{
    command_line(alloc)?.try_get_matches_from(arguments)
}
