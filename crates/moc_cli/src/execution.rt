//! Execution of actions.
ghost use Rattle.std.specs.Prelude.{◌≡◌, ◌⊎◌, false, Err, IfErr, IfOk, IsErrOf, IsTrue, Ok, OnOk};
ghost use Rattle.moc_cli.specs.Actions.{ActionEnds, AreNone};
ghost use Rattle.moc_cli.specs.Listing.{error_list};
ghost use Rattle.moc_cli.specs.Endings.{BlamesFailed};
ghost use Rattle.moc_cli.specs.Private.Ending.{status_of_result};
ghost use Rattle.moc_cli.specs.Private.Matches.{MatchedEnd};

use crate::action::Action;
use crate::number_lines::write_number;
use crate::printing::{write_result, write_text};
use crate::status::{ProgramError, Status};
use clap::ArgMatches;
use moc_command_line::FAULTS;
use moc_conversion::{
    Notes, change_input, check_input, combine_input, convert_input, describe_input, draw_input,
};
use moc_devices::{Sink, Source};
use moc_lines::{RunError, renumber, run};
use moc_script::{OpenGate, crew, play};
use std::alloc::Global;
use std::marker::Sync;
use std::sync::Wait;
use std::thread::Threads;

/// Executes the action of the matches. Returns the notes on what was read.
pub(crate) fn execute_matches<T: Threads + Wait + Sync, R: Source, W: Sink>(
    rt: &T,
    alloc: Global,
    matches: &ArgMatches<'_>,
    input: &mut R,
    output: &mut W,
) -> Result<Notes, ProgramError>
    requires input { R.mark input.old ≡ false }
    requires output { W.mark output.old ≡ false }
    ensures input { IsTrue (R.mark input.new) → status_of_result result ≡ Status.Failed }
    ensures output { IsTrue (W.mark output.new) → status_of_result result ≡ Status.Failed }
    ensures flushed { OnOk result (IsTrue (W.flushed output.new)) }
    ensures ends { MatchedEnd matches.now (R.reading input.old) (R.reading input.new)
        (W.writing output.old) (W.writing output.new) result }
    ensures devices { IfErr result (BlamesFailed (R.mark input.new) (W.mark output.new)) }
{
    let Some(action) = Action::from_matches(matches) else {
        // `clap` requires the subcommand and its values, so none is missing.
        return Err(ProgramError::Memory);
    };
    execute(rt, alloc, &action, input, output)
}

/// Executes an action. Returns the notes on what was read.
#[tactic(auto, using(crate::proofs::Writing::result_writes, crate::proofs::Writing::sent_writes))]
fn execute<T: Threads + Wait + Sync, R: Source, W: Sink>(
    rt: &T,
    alloc: Global,
    action: &Action<'_>,
    input: &mut R,
    output: &mut W,
) -> Result<Notes, ProgramError>
    requires input { R.mark input.old ≡ false }
    requires output { W.mark output.old ≡ false }
    ensures input { IsTrue (R.mark input.new) → status_of_result result ≡ Status.Failed }
    ensures output { IsTrue (W.mark output.new) → status_of_result result ≡ Status.Failed }
    ensures flushed { OnOk result (IsTrue (W.flushed output.new)) }
    ensures ends { ActionEnds action.now (R.reading input.old) (R.reading input.new)
        (W.writing output.old) (W.writing output.new) result }
    ensures devices { IfErr result (BlamesFailed (R.mark input.new) (W.mark output.new)) }
{
    match *action {
        Action::Run => run_result(run(alloc, input, output)),
        Action::Play => run_result(play(alloc, input, output)),
        Action::Crew(lanes) => run_result(crew(rt, alloc, input, output, lanes, &OpenGate)),
        Action::Renumber(renumbering) => run_result(renumber(alloc, input, output, renumbering)),
        Action::Number(number) => write_number(alloc, number, output),
        Action::Convert(from, to) => write_result(convert_input(alloc, from, to, input), output),
        Action::Check(choice) => {
            let notes = check_input(alloc, choice, input)?;
            write_text("ok\n", notes, output)
        }
        Action::Describe(choice) => write_result(describe_input(alloc, choice, input), output),
        Action::Draw(choice, names) => {
            write_result(draw_input(alloc, choice, names, input), output)
        },
        Action::Change(change, choice) => write_result(
            change_input(alloc, change, choice, input),
            output,
        ),
        Action::Combine(operation, choice) => {
            let (text, notes) = combine_input(alloc, operation, choice, input)?;
            write_text(text.as_str(), notes, output)
        }
        Action::Faults => write_text(error_list_text(), Notes::none(), output),
    }
}

/// Converts the result of a run or a crew. There are no notes.
fn run_result(end: Result<(), RunError>) -> Result<Notes, ProgramError>
    ensures done { OnOk result (end ≡ Ok tt) }
    ensures notes { IfOk result AreNone }
    ensures error { IfErr result (λ error. (cause : RunError) × (error ≡ ProgramError.Lines cause)
        × (end ≡ Err cause)) }
    ensures device { IsErrOf end RunError.Read ⊎ IsErrOf end RunError.Write
        → status_of_result result ≡ Status.Failed }
{
    end?;
    Ok(Notes::none())
}

/// Returns the list of the exit statuses and the errors.
fn error_list_text() -> &'static str
    ensures { result.now ≡ error_list }
{
    FAULTS
}
