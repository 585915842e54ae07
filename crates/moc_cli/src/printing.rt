//! Texts on the output.
ghost use Rattle.std.specs.Prelude.{◌≡◌, false, Err, IsErrOf, IsTrue, MatchResult, OnOk, is_err};
ghost use Rattle.moc_devices.specs.Devices.{AcceptsNone};
ghost use Rattle.std.specs.String.{string_bytes};
ghost use Rattle.moc_conversion.specs.Notes.{no_notes};
ghost use Rattle.moc_cli.specs.Private.Ending.{status_of_result};
ghost use Rattle.moc_cli.specs.Private.Writing.{IsSent};

use crate::status::{ProgramError, Status};
use moc_conversion::{InputError, Notes};
use moc_devices::{Sink, write_all};

/// Writes the text that a call for the input returned, or returns its error. There are no notes.
pub(crate) fn write_result<W: Sink>(
    text: Result<String, InputError>,
    output: &mut W,
) -> Result<Notes, ProgramError>
    requires { W.mark output.old ≡ false }
    ensures sent { MatchResult text
        (λ t. IsSent (string_bytes t) no_notes (W.writing output.old) (W.writing output.new) result)
        (λ e. (result ≡ Err (ProgramError.Input e)) × AcceptsNone (W.writing output.old) (W.writing output.new)) }
    ensures write { IsErrOf result ProgramError.Write → IsTrue (W.mark output.new) }
    ensures flushed { OnOk result (IsTrue (W.flushed output.new)) }
    ensures input { IsErrOf text InputError.Read → status_of_result result ≡ Status.Failed }
    ensures output { IsTrue (W.mark output.new) → status_of_result result ≡ Status.Failed }
{
    let text = text?;
    write_text(text.as_str(), Notes::none(), output)
}

/// Writes a text whole, and flushes the output. Returns the notes.
#[tactic(auto, using(crate::proofs::Writing::sent_on, crate::proofs::Writing::sent_front))]
pub(crate) fn write_text<W: Sink>(
    text: &str,
    notes: Notes,
    output: &mut W,
) -> Result<Notes, ProgramError>
    requires { W.mark output.old ≡ false }
    ensures sent { IsSent text.now notes (W.writing output.old) (W.writing output.new) result }
    ensures flushed { OnOk result (IsTrue (W.flushed output.new)) }
    ensures marks { W.mark output.new ≡ is_err result }
{
    write_all(text.as_bytes(), output)?;
    output.flush()?;
    Ok(notes)
}
