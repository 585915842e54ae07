//! One lane of a crew: a thread with its own client.
ghost use Rattle.std.specs.Prelude.{◌≡◌, ◌<◌, [], false, true};
ghost use Rattle.moc_shared.specs.Clients.{IsClientOf, number_of, record_of};
ghost use Rattle.moc_script.specs.Private.LaneEnds.{HasMade, MakesCall};
ghost use Rattle.moc_script.specs.Private.LaneEnds.{Precedes, IsLaneEnd, failure_line};

use crate::crews::gate::Gate;
use crate::crews::lines::LaneLines;
use crate::crews::texts::Texts;
use moc_lines::{Executor, answer_commands};
use moc_parts::{Batch, CellCommand, Command, Replies, Reply};
use moc_ranges::Memory;
use moc_shared::{Client, SharedMap};
use std::alloc::Global;
use std::sync::Wait;
use std::sync::atomic::{AtomicBool, Ordering};

/// The work of all lanes: the lines of a script, which are dealt to `lanes` lanes, on a map.
#[derive(Clone, Copy)]
pub(crate) struct Job<'a> {
    pub(crate) map: &'a SharedMap,
    pub(crate) input: &'a [u8],
    pub(crate) lanes: u8,
}

/// The result of a lane: its client, and its answers in order.
#[derive(Drop)]
pub(crate) struct LaneOutput {
    pub(crate) client: Client,
    pub(crate) answers: Texts,
}

/// Why a lane has not processed all of its lines.
#[derive(Clone, Copy)]
pub(crate) enum LaneFailure {
    /// An allocation failed while this line was processed.
    OutOfMemory { line: u64 },
    /// The lane stopped before this line, because another lane failed.
    Stopped { line: u64 },
}

/// The result of a lane.
pub(crate) type LaneResult = Result<LaneOutput, LaneFailure>;

impl LaneFailure {
    /// Returns the line at which the lane ended.
    pub(crate) fn line(self) -> u64
        ensures { result ≡ failure_line self }
    {
        match self {
            LaneFailure::OutOfMemory { line } | LaneFailure::Stopped { line } => line,
        }
    }

    /// Returns whether this failure takes precedence over the other: an allocation failure over a stop, and the lesser
    /// line among failures of one kind.
    pub(crate) fn precedes(self, other: LaneFailure) -> bool
        ensures yes { result ≡ true → Precedes self other }
        ensures no { result ≡ false → Precedes other self }
    {
        match (self, other) {
            (LaneFailure::OutOfMemory { line: a }, LaneFailure::OutOfMemory { line: b }) => a <= b,
            (LaneFailure::OutOfMemory { .. }, LaneFailure::Stopped { .. }) => true,
            (LaneFailure::Stopped { .. }, LaneFailure::OutOfMemory { .. }) => false,
            (LaneFailure::Stopped { line: a }, LaneFailure::Stopped { line: b }) => a <= b,
        }
    }
}

/// A client of the map of a crew.
#[derive(Drop)]
struct LaneClient<'a, R> {
    rt: &'a R,
    map: &'a SharedMap,
    client: Client,
}

impl<'a, R: Wait> Executor for LaneClient<'a, R> {
    ghost ready = { λ c. IsClientOf c.map.now c.client };

    ghost executes = { λ old commands replies new. (new.map.now ≡ old.map.now)
        × MakesCall commands replies old.client new.client };

    fn execute(&mut self, _alloc: Global, command: Command) -> Result<Reply, Memory> {
        self.map.answer(self.rt, &mut self.client, command)
    }

    fn execute_on_cell(&mut self, _alloc: Global, command: &CellCommand) -> Result<Reply, Memory> {
        self.map.answer_cell(self.rt, &mut self.client, command)
    }

    fn execute_batch(&mut self, _alloc: Global, batch: &Batch) -> Result<Replies, Memory> {
        self.map.apply(self.rt, &mut self.client, batch)
    }
}

/// Signals the other lanes to stop, and returns the failure of a lane whose allocation failed at this line.
fn fail_lane(stop: &AtomicBool, line: u64) -> LaneFailure
    ensures { result ≡ LaneFailure.OutOfMemory line }
{
    stop.store(true, Ordering::SeqCst);
    LaneFailure::OutOfMemory { line }
}

/// Processes the lines of the client's lane in order. Before each line the lane checks whether it has to stop.
pub(crate) fn answer_lines<R: Wait, G: Gate>(
    rt: &R,
    alloc: Global,
    gate: &G,
    job: Job<'_>,
    client: Client,
    stop: &AtomicBool,
) -> LaneResult
    requires map { IsClientOf job.map.now client }
    requires lane { number_of client < job.lanes }
    requires fresh { HasMade (number_of client) [] (record_of client) }
    ensures { IsLaneEnd job.entry.map.now job.entry.lanes job.entry.input.now (number_of client) result }
{
    let lane = client.number();
    let mut lane_client = LaneClient {
        rt,
        map: job.map,
        client,
    };
    let mut left = LaneLines::new(job.input, job.lanes, lane);
    let mut lens = Vec::new(alloc);
    let mut bytes = Vec::new(alloc);
    while let Some((number, line)) = left.next_line() {
        if stop.load(Ordering::SeqCst) {
            return Err(LaneFailure::Stopped { line: number });
        }
        gate.pass(lane, number);
        let before = bytes.len();
        let Ok(()) = answer_commands(&mut lane_client, alloc, line, &mut bytes) else {
            return Err(fail_lane(stop, number));
        };
        let Ok(()) = lens.push(bytes.len() - before) else {
            return Err(fail_lane(stop, number));
        };
        gate.done(lane, number);
    }
    let answers = Texts::new(lens, bytes);
    let client = lane_client.client;
    Ok(LaneOutput { client, answers })
}
