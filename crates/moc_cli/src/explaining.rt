//! Help, and reports of an invalid command line.
ghost use Rattle.std.specs.Prelude.{◌≡◌, ◌≢◌, ◌⊎◌, ◌||◌, ◌&&◌, [], false, map, nat_le, nat_lt, string_bytes, true};
ghost use Rattle.std.specs.Prelude.{IfOk, IsTrue, List, ℕ};
ghost use Rattle.std.specs.Char.{is_control};
ghost use Rattle.std.specs.List.{list_all, list_any};
ghost use Rattle.std.specs.Str.{chars};
ghost use Rattle.moc_devices.specs.Devices.{Accepts, AcceptsNone};
ghost use Rattle.clap.specs.Words.{kind_of};
ghost use Rattle.moc_cli.specs.Explanations.{IsUsageErrorText, control_text, has_control};
ghost use Rattle.moc_cli.specs.Endings.{AcceptsSome, HasInvalidName, ReportsUsageError, is_name as is_name_text};
ghost use Rattle.moc_cli.specs.Endings.{IsUsageError, RunsOutOfMemory, ReportsErrorOf};
ghost use Rattle.moc_cli.specs.Statuses.{IsErrorCode, code_of};

use crate::printing::write_text;
use crate::status::{ProgramError, Status, report_result};
use clap::Error;
use clap::error::ErrorKind;
use moc_command_line::suggest;
use moc_conversion::Notes;
use moc_devices::{Sink, write_all};
use std::alloc::{AllocError, Global};
use std::convert::AsStr;

/// The maximal number of bytes of a name.
const MAX_NAME_BYTES: usize = 40;

/// The text for a command line with a control character.
const CONTROL_TEXT: &str = "error: a word of the command line has a control character\n";

/// Reports why there are no matches: writes help to the output, and errors to `errors`.
pub(crate) fn explain<S: AsStr, W: Sink, E: Sink>(
    alloc: Global,
    arguments: &[S],
    error: &Error,
    output: &mut W,
    errors: &mut E,
) -> Status
    requires output { W.mark output.old ≡ false }
    ensures bad_command_line { result ≡ Status.BadCommandLine → IsUsageError (kind_of error.now) }
    ensures usage_error { IsUsageError (kind_of error.now)
        → (result ≡ Status.BadCommandLine) ⊎ ((result ≡ Status.Failed)
        × RunsOutOfMemory (W.writing output.old) (W.writing output.new)
        (E.mark errors.old || E.mark errors.new) (E.writing errors.old) (E.writing errors.new)) }
    ensures memory { kind_of error.now ≡ ErrorKind.OutOfMemory → (result ≡ Status.Failed)
        × RunsOutOfMemory (W.writing output.old) (W.writing output.new)
        (E.mark errors.old || E.mark errors.new) (E.writing errors.old) (E.writing errors.new) }
    ensures explained { result ≡ Status.BadCommandLine → ReportsUsageError (map S.text arguments.now)
        (E.mark errors.old || E.mark errors.new) (E.writing errors.old) (E.writing errors.new) }
    ensures no_output { result ≡ Status.BadCommandLine → AcceptsNone (W.writing output.old) (W.writing output.new) }
    ensures output { IsTrue (W.mark output.new) → result ≡ Status.Failed }
    ensures flushed { result ≡ Status.Success → IsTrue (W.flushed output.new) }
    ensures help { result ≡ Status.Success
        → (kind_of error.now ≡ ErrorKind.DisplayHelp) ⊎ (kind_of error.now ≡ ErrorKind.DisplayVersion) }
    ensures written { result ≡ Status.Success → AcceptsSome (W.writing output.old) (W.writing output.new) }
    ensures silent { result ≡ Status.Success → AcceptsNone (E.writing errors.old) (E.writing errors.new) }
    ensures reported { IsErrorCode (code_of result)
        → ReportsErrorOf (code_of result) (λ end.
        ((end ≡ ProgramError.Memory) × AcceptsNone (W.writing output.old) (W.writing output.new))
        ⊎ ((end ≡ ProgramError.Write) × IsTrue (W.mark output.new)
        × ((kind_of error.now ≡ ErrorKind.DisplayHelp) ⊎ (kind_of error.now ≡ ErrorKind.DisplayVersion))
        × ((front : List ℕ) × Accepts (W.writing output.old) (W.writing output.new) front)))
        (E.mark errors.old || E.mark errors.new) (E.writing errors.old) (E.writing errors.new) }
{
    if error.kind() == ErrorKind::OutOfMemory {
        return report_result(Err(ProgramError::Memory), errors);
    }
    let Ok(text) = explanation(alloc, arguments, error) else {
        return report_result(Err(ProgramError::Memory), errors);
    };
    if error.use_stderr() {
        let _ = write_all(text.as_bytes(), errors);
        return Status::BadCommandLine;
    }
    report_result(write_text(text.as_str(), Notes::none(), output), errors)
}

/// Returns the text of help or of an error: `clap`'s text, except that an argument with a control character is not
/// shown, and that an unknown subcommand may have a suggestion.
fn explanation<S: AsStr>(
    alloc: Global,
    arguments: &[S],
    error: &Error,
) -> Result<String, AllocError>
    ensures some { IfOk result (λ text. string_bytes text ≢ []) }
    ensures usage_error { IfOk result (λ text. IsUsageError (kind_of error.now)
        → IsUsageErrorText (map S.text arguments.now) (string_bytes text)) }
{
    if error.use_stderr() && has_control_character(arguments) {
        return String::from_str(alloc, CONTROL_TEXT);
    }
    if error.kind() == ErrorKind::InvalidSubcommand
        && let Some(name) = subcommand_name(arguments)
        && let Some(suggestion) = suggest(name)
    {
        return format!(in alloc;
            "error: unrecognized subcommand '{name}'\n\n  tip: use {suggestion}\n\n\
             Usage: moc <COMMAND>\n\nFor more information, try '--help'.\n"
        );
    }
    text_of_error(alloc, error)
}

/// Returns `clap`'s text, or the usage line if the text is empty, which no contract of `clap` rules out.
fn text_of_error(alloc: Global, error: &Error) -> Result<String, AllocError>
    ensures { IfOk result (λ text. string_bytes text ≢ []) }
{
    let text = format!(in alloc; "{error}")?;
    if text.is_empty() {
        return String::from_str(
            alloc,
            "Usage: moc <COMMAND>\n\nFor more information, try '--help'.\n",
        );
    }
    Ok(text)
}

/// Returns the subcommand that the command line names, also after `help`.
fn subcommand_name<S: AsStr>(arguments: &[S]) -> Option<&str> {
    match arguments {
        [help, name, ..] if help.as_str() == "help" => Some(name.as_str()),
        [name, ..] => Some(name.as_str()),
        [] => None,
    }
}

/// Returns whether an argument of `draw` after the format is not a name.
pub(crate) fn has_invalid_name<S: AsStr>(arguments: &[S]) -> bool
    ensures invalid { result ≡ true → HasInvalidName (map S.text arguments.now) }
    ensures valid { HasInvalidName (map S.text arguments.now) → result ≡ true }
{
    if arguments.len() <= 2 {
        return false;
    }
    if arguments[0].as_str() != "draw" {
        return false;
    }
    !are_names(&arguments[2..])
}

/// Returns whether all arguments are names.
fn are_names<S: AsStr>(arguments: &[S]) -> bool
    ensures { result ≡ list_all is_name_text (map S.text arguments.now) }
{
    for argument in arguments {
        if !is_name(argument.as_str().as_bytes()) {
            return false;
        }
    }
    true
}

/// Returns whether a text is a name.
fn is_name(text: &[u8]) -> bool
    ensures { result ≡ is_name_text text.now }
{
    !text.is_empty() && text.len() <= MAX_NAME_BYTES && is_printable(text)
}

/// Returns whether all bytes are printable ASCII.
fn is_printable(text: &[u8]) -> bool
    ensures { result ≡ list_all (λ b. nat_le 32 b && nat_lt b 127) text.now }
{
    for byte in text {
        if !(b' '..=b'~').contains(byte) {
            return false;
        }
    }
    true
}

/// Reports that an argument is not a name. Does not quote an argument.
pub(crate) fn report_invalid_name<S: AsStr, E: Sink>(arguments: &[S], errors: &mut E) -> Status
    ensures status { result ≡ Status.BadCommandLine }
    ensures explained { ReportsUsageError (map S.text arguments.now)
        (E.mark errors.old || E.mark errors.new) (E.writing errors.old) (E.writing errors.new) }
{
    let _ = write_all(invalid_name_text(arguments).as_bytes(), errors);
    Status::BadCommandLine
}

/// Returns the text for an argument that is not a name.
fn invalid_name_text<S: AsStr>(arguments: &[S]) -> &'static str
    ensures { IsUsageErrorText (map S.text arguments.now) result.now }
{
    if has_control_character(arguments) {
        return CONTROL_TEXT;
    }
    "error: a name is not 1 to 40 bytes of printable ASCII\n\nUsage: moc draw <FORM> [FIRST] [SECOND]\n\n\
     For more information, try '--help'.\n"
}

/// Returns whether an argument has a control character.
fn has_control_character<S: AsStr>(arguments: &[S]) -> bool
    ensures { result ≡ list_any has_control (map S.text arguments.now) }
{
    for argument in arguments {
        if contains_control(argument.as_str()) {
            return true;
        }
    }
    false
}

/// Returns whether a text has a control character.
fn contains_control(text: &str) -> bool
    ensures { result ≡ list_any is_control (chars text.now) }
{
    for character in text.chars() {
        if character.is_control() {
            return true;
        }
    }
    false
}
