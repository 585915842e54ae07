//! Collection of the results of the lanes.
ghost use Rattle.std.specs.Prelude.{◌≡◌, ◌<◌, ◌⊎◌, List, ℕ, IfErr, IfOk, IfSome, length};
ghost use Rattle.moc_shared.specs.declared.map.SharedMap.{SharedMap};
ghost use Rattle.moc_shared.specs.Clients.{IsClientOf};
ghost use Rattle.moc_script.specs.Private.LaneEnds.{AreLaneEnds, Precedes};
ghost use Rattle.moc_script.specs.Private.Gathering.{AreLaneOutputs, HasBoth, HasLanes, IsFirstFailure, NamesFirst};

use crate::crews::lane::{Job, LaneFailure, LaneOutput, LaneResult};
use crate::crews::texts::Texts;
use moc_lines::{RunError, line_after_last};
use moc_ranges::Memory;
use moc_shared::{Client, SharedMap};
use std::alloc::Global;

/// Returns the one of two failures that takes precedence.
fn first_of(one: LaneFailure, other: LaneFailure) -> LaneFailure
    ensures either { (result ≡ one) ⊎ (result ≡ other) }
    ensures first { Precedes result one × Precedes result other }
{
    if one.precedes(other) { one } else { other }
}

/// Returns the failure that takes precedence over all others, if a lane failed.
fn first_failure(ends: &[LaneResult]) -> Option<LaneFailure>
    ensures { IsFirstFailure ends.now result }
{
    let mut first = None;
    for end in ends {
        if let Err(unfinished) = end {
            first = match first {
                Some(before) => Some(first_of(before, *unfinished)),
                None => Some(*unfinished),
            };
        }
    }
    first
}

/// Returns the outputs of all lanes. If a lane failed, fails with the least line at which an allocation failed, or else
/// the least at which a lane stopped.
pub(crate) fn all_outputs(
    alloc: Global,
    input: &[u8],
    ends: Vec<LaneResult>,
) -> Result<Vec<LaneOutput>, RunError>
    ensures done { IfOk result (λ done. (map : SharedMap) (lanes : ℕ) (script : List ℕ)
        → AreLaneEnds map lanes script ends.items → AreLaneOutputs map lanes script done.items) }
    ensures first { IfErr result (λ e. NamesFirst input.now ends.items e) }
{
    if let Some(unfinished) = first_failure(&ends) {
        let line = unfinished.line();
        return Err(RunError::Memory { line });
    }
    let mut done = Vec::new(alloc);
    for end in ends {
        // No lane failed.
        let Ok(end) = end else { unreachable!() };
        let Ok(()) = done.push(end) else {
            return Err(RunError::Memory {
                line: line_after_last(input),
            });
        };
    }
    Ok(done)
}

/// Merges two clients into one that has the records of both; returns the second if there is no first.
fn both(map: &SharedMap, first: Option<Client>, second: Client) -> Client
    requires first { IfSome first (λ c. IsClientOf map.now c) }
    requires second { IsClientOf map.now second }
    ensures map { IsClientOf map.now result }
    ensures both { HasBoth first second result }
{
    match first {
        Some(mut client) => {
            map.take_in(&mut client, second);
            client
        }
        None => second,
    }
}

/// Returns one client with the records of all, and the answers of the lanes in order.
pub(crate) fn take_in_all(
    alloc: Global,
    job: Job<'_>,
    done: Vec<LaneOutput>,
) -> Result<(Client, Vec<Texts>), Memory>
    requires some { 0 < job.lanes }
    requires done { AreLaneOutputs job.map.now job.lanes job.input.now done.items }
    ensures map { IfOk result (λ r. IsClientOf job.entry.map.now r.0) }
    ensures wide { IfOk result (λ r. length r.1.items ≡ job.entry.lanes) }
    ensures lanes { IfOk result (λ r. HasLanes job.entry.lanes job.entry.lanes job.entry.input.now r.1.items r.0) }
{
    let mut all = None;
    let mut answers = Vec::new(alloc);
    for end in done {
        let LaneOutput {
            client,
            answers: texts,
        } = end;
        all = Some(both(job.map, all, client));
        answers.push(texts)?;
    }
    match all {
        Some(client) => Ok((client, answers)),
        // There is at least one lane.
        None => unreachable!(),
    }
}
