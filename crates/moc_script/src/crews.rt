//! Scripts that several threads answer together. A crew is a set of such threads; each thread is a lane.
ghost use Rattle.std.specs.Prelude.{◌≡◌, ◌≢◌, ◌<◌, ◌↔◌, false, IfOk, IfErr, OnOk, OnErr};
ghost use Rattle.std.specs.Prelude.{Err, IsErrOf, IsTrue, length};
ghost use Rattle.std.specs.FinSet as set;
ghost use Rattle.moc_shared.specs.Clients.{clients_of, start_of};
ghost use Rattle.moc_lines.specs.Runs.{EndsFlushed, Flushes};
ghost use Rattle.moc_text.specs.Lines.{lines_of};
ghost use Rattle.moc_script.specs.Crews.{CrewEnds, cover_line, lane_count, nonblank_lines};
ghost use Rattle.moc_script.specs.Private.Gathering.{AreLaneOutputs, IsLanesError};
ghost use Rattle.moc_script.specs.Private.Joining.{EndsWriting, AreCrewAnswers};

mod gate;
mod gathering;
mod lane;
mod lanes;
mod lines;
mod merging;
mod texts;
mod theorems;
mod threads;

pub use gate::{Gate, OpenGate};
use gathering::{all_outputs, take_in_all};
use lane::{Job, LaneOutput};
pub use lanes::Lanes;
use merging::write_merged;
use moc_devices::{Sink, Source};
use moc_lines::{RunError, line_after_last, push_cover, read_all};
use moc_ranges::{Coverage, Memory};
use moc_shared::{CloseError, NewError, SharedMap};
use std::alloc::Global;
use std::marker::Sync;
use std::sync::Wait;
use std::thread::Threads;
use texts::Texts;
pub use theorems::crews_answer_each_line;
use threads::run_lanes;

/// The output of a crew.
#[derive(Drop)]
struct CrewOutput {
    /// The answers of each lane, in order.
    answers: Vec<Texts>,
    /// The line after the answers: the cover of the set after all lines.
    cover: Vec<u8>,
}

/// Processes the lines on the lanes.
fn answer_all<R: Threads + Wait + Sync, G: Gate + Sync>(
    rt: &R,
    alloc: Global,
    gate: &G,
    input: &[u8],
    lanes: Lanes,
) -> Result<CrewOutput, RunError>
    ensures crew_output { IfOk result (λ crew_output.
        AreCrewAnswers (lane_count lanes) (nonblank_lines (lines_of input.now)) crew_output.answers.items
        crew_output.cover.items) }
    ensures line { IfErr result (λ e. IsLanesError input.now e) }
{
    let start = Coverage::empty(alloc);
    let lanes = lanes.get();
    let (map, clients) = match SharedMap::new(alloc, start, lanes) {
        Ok((map, clients)) => (map, clients),
        // The number of lanes is from 1 to 64.
        Err(NewError::BadCount) => unreachable!(),
        Err(NewError::Memory) => return Err(RunError::Memory { line: 0 }),
    };
    let job = Job {
        map: &map,
        input,
        lanes,
    };
    let ends = run_lanes(rt, alloc, gate, job, clients)?;
    let outputs = all_outputs(alloc, input, ends)?;
    match close_map(alloc, map, input, lanes, outputs) {
        Ok(crew_output) => Ok(crew_output),
        Err(Memory) => Err(RunError::Memory {
            line: line_after_last(input),
        }),
    }
}

/// Closes the map of lanes that have processed their lines. Returns the answers, and the cover of the set after them.
fn close_map(
    alloc: Global,
    map: SharedMap,
    input: &[u8],
    lanes: u8,
    outputs: Vec<LaneOutput>,
) -> Result<CrewOutput, Memory>
    requires some { 0 < lanes }
    requires start { start_of map ≡ set.empty }
    requires clients { clients_of map ≡ lanes }
    requires outputs { AreLaneOutputs map lanes input.now outputs.items }
    ensures { IfOk result (λ crew_output. AreCrewAnswers lanes (nonblank_lines (lines_of input.now))
        crew_output.answers.items crew_output.cover.items) }
{
    let job = Job {
        map: &map,
        input,
        lanes,
    };
    let (client, answers) = take_in_all(alloc, job, outputs)?;
    let set = match map.close(client) {
        Ok(set) => set,
        // The client stands for all clients, and holds no part.
        Err(CloseError::Midway { part: _ }) => unreachable!(),
        Err(CloseError::Memory) => return Err(Memory),
    };
    let cover = line_of_cover(alloc, &set)?;
    Ok(CrewOutput { answers, cover })
}

/// Returns the line of the cover of a set.
fn line_of_cover(alloc: Global, set: &Coverage) -> Result<Vec<u8>, Memory>
    ensures { IfOk result (λ line. line.items ≡ cover_line set.now) }
{
    let mut line = Vec::new(alloc);
    push_cover(alloc, set, &mut line)?;
    line.push(b'\n')?;
    Ok(line)
}

/// Runs a script on several lanes. Each lane is a thread with its own client of one shared map, which is empty at
/// first; a single lane runs on the caller's thread. `rt` starts the threads, and lets them wait for each other.
///
/// All lines are read first. The lines that are not blank are dealt to the lanes in turn, the first to lane 0. Lines
/// and answers are those of `run`. The answers are those of all lines in one order, which keeps the order of each lane.
/// They are written in the order of the lines; after them comes the cover of the set, as `read` of the whole sky would
/// show it.
///
/// A lane calls the gate before it begins a line, and again after it has the answer. Nothing is written before all
/// lanes have ended. After the whole text the writer is flushed, once. The call may wait for parts that other lanes
/// hold.
///
/// # Errors
/// If the call fails, nothing is written, except that for `Write` the output is as much of the text as the writer
/// accepted. `Memory` names the line that was read or processed, and the least one if several lanes failed. It names 0
/// if the allocation failed before the first line was read, or for the map and the threads, and one more than the
/// number of lines if it failed after all lines. `Spawn` takes precedence over `Memory` of a lane. Once an allocation
/// or the start of a thread fails, each lane stops before its next line.
///
/// # Complexity
/// Each lane passes over all lines and parses its own.
///
/// # Memory
/// Linear in the script and its answers.
pub fn crew<R: Source, W: Sink, G: Gate + Sync, T: Threads + Wait + Sync>(
    rt: &T,
    alloc: Global,
    reader: &mut R,
    writer: &mut W,
    lanes: Lanes,
    gate: &G,
) -> Result<(), RunError>
    requires reader { R.mark reader.old ≡ false }
    requires writer { W.mark writer.old ≡ false }

    // What is written is a text that this number of lanes may write for the input, as far as the result states.
    ensures ends { CrewEnds (lane_count lanes)
        (R.reading reader.old) (R.reading reader.new) (W.writing writer.old) (W.writing writer.new) result }

    // The call succeeds only at the end of the input, and then flushes once after all output.
    ensures end { EndsFlushed result (R.reading reader.new) (W.flushed writer.old) (W.flushed writer.new) }
    ensures flushes { Flushes result (W.flushes writer.old) (W.flushes writer.new) }

    // An error names a device only if it has failed; a device that has failed is reported.
    ensures read { IsErrOf result RunError.Read → IsTrue (R.mark reader.new) }
    ensures write { IsErrOf result RunError.Write ↔ IsTrue (W.mark writer.new) }
    ensures reported { IsTrue (R.mark reader.new) → IsErrOf result RunError.Read }
{
    let input = read_all(alloc, reader)?;
    let crew_output = answer_all(rt, alloc, gate, &input, lanes)?;
    write_output(alloc, &input, &crew_output, writer)
}

/// Writes the answers to the lines of the input, and flushes the writer.
fn write_output<W: Sink>(
    alloc: Global,
    input: &[u8],
    crew_output: &CrewOutput,
    writer: &mut W,
) -> Result<(), RunError>
    requires some { 0 < length crew_output.now.answers.items }
    requires writer { W.mark writer.old ≡ false }
    ensures ends { EndsWriting input.now crew_output.now.answers.items crew_output.now.cover.items
        (W.writing writer.old) (W.writing writer.new) result }
    ensures flushed { OnOk result (IsTrue (W.flushed writer.new)) }
    ensures unflushed { OnErr result (IsTrue (W.flushed writer.new) → IsTrue (W.flushed writer.old)) }
    ensures flushes { Flushes result (W.flushes writer.old) (W.flushes writer.new) }
    ensures write { IsErrOf result RunError.Write ↔ IsTrue (W.mark writer.new) }
    ensures read { result ≢ Err RunError.Read }
{
    write_merged(
        alloc,
        input,
        &crew_output.answers,
        &crew_output.cover,
        writer,
    )?;
    if writer.flush().is_err() {
        return Err(RunError::Write);
    }
    Ok(())
}
