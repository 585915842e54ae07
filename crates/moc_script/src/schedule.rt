//! Schedules of steps, played from a reader to a writer.
ghost use Rattle.std.specs.Prelude.{◌≡◌, false, OnOk};
ghost use Rattle.moc_lines.specs.Runs.{line_limit, AnswersAll, EndsFlushed, Flushes, Runs, ReportsFailure};
ghost use Rattle.moc_lines.specs.Runs.{AreLinesAnswered, HasNotEnded};
ghost use Rattle.moc_script.specs.Schedules.{schedule_rules, schedule_text, start_schedule};

use crate::player::Player;
use moc_devices::{GuardedSource, Sink};
use moc_lines::{RunError, answer_all_lines};
use std::alloc::Global;

/// Plays a schedule: clients take, change and give back parts of one set of pixels of order 29, which is empty at
/// first, one step a line, on the step machine of `moc_steps`.
///
/// Lines are those of [`run`](crate::run). A client C is a number of 32 bits, a part B a base pixel, 0 to 11.
///
/// | Line | Step |
/// |---|---|
/// | `begin C BATCH` | the client begins a batch of commands, which is written as a line of a script |
/// | `take C` | it takes the next part of the batch's footprint |
/// | `edit C B` | it changes a part that it holds; at the first one the batch is committed |
/// | `give C B` | it gives a part back |
/// | `quit C` | it gives the batch up, before it has changed a part |
/// | `end C` | it is idle again |
///
/// The answer to a permitted step is `ok`, except that the end of a committed batch has the batch's answer in `run`. A
/// step that is not permitted changes nothing, and its answer is `refused NAME`. An invalid line is not a step; its
/// answer is `fault NAME`. After the last line come two more: `order`, with the number of the line that began each
/// committed batch, in the order of the batches; and the set as `read` shows it, or `midway N` if N clients are in the
/// middle of a batch.
///
/// # Errors
/// If the call fails with `LineTooLong` or `Memory`, the output is exactly the answers to the lines before the line
/// that the error names. If it fails with `Read`, the output is the answers to the whole lines that were read; with
/// `Write`, as much of the text as the writer accepted. The two last lines are built before either is written: if an
/// allocation fails for them, `Memory` names the line after the last.
///
/// # Complexity
/// A step takes O(log n) for n clients in the middle of a batch, in addition to the batch's own work at its first
/// `edit`.
///
/// # Memory
/// Linear in the sets, the clients in the middle of a batch, the committed batches, and the longest line and answer.
pub fn play<R: GuardedSource<W>, W: Sink>(
    alloc: Global,
    reader: &mut R,
    writer: &mut W,
) -> Result<(), RunError>
    requires reader { R.mark reader.old ≡ false }
    requires writer { W.mark writer.old ≡ false }

    // Before each read, no device has failed, no read of this call has found the end, and the sink has accepted the
    // answers to all whole lines that were delivered: the reader needs to permit reads in such states only. Every
    // `Source` does.
    requires permission { (r : _) (w : _) → R.mark r ≡ false → W.mark w ≡ false
        → HasNotEnded (R.reading reader.old) (R.reading r)
        → AreLinesAnswered schedule_rules start_schedule
        (R.reading reader.old) (R.reading r) (W.writing writer.old) (W.writing w)
        → R.may_read r w }

    // The sink accepts the defined answers to what the source delivers. This needs no assumption about the devices:
    // standard input and output are included.
    ensures plays { Runs line_limit schedule_rules start_schedule
        (R.reading reader.old) (R.reading reader.new) (W.writing writer.old) (W.writing writer.new) result }

    // If the call succeeds, the source has ended, and the sink accepted the text of the whole input.
    ensures answers { OnOk result (AnswersAll schedule_text
        (R.reading reader.old) (R.reading reader.new) (W.writing writer.old) (W.writing writer.new)) }

    // The call succeeds only at the end of the input, and then flushes once after all output.
    ensures end { EndsFlushed result (R.reading reader.new) (W.flushed writer.old) (W.flushed writer.new) }
    ensures flushes { Flushes result (W.flushes writer.old) (W.flushes writer.new) }

    // An error names a device only if it has failed. If a device has failed, the call fails with `Read` or `Write`.
    ensures devices { ReportsFailure result (R.mark reader.new) (W.mark writer.new) }
{
    let Ok(mut player) = Player::new(alloc) else {
        return Err(RunError::Memory { line: 0 });
    };
    answer_all_lines(alloc, &mut player, reader, writer)
}
