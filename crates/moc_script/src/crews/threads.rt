//! The threads of the lanes.
ghost use Rattle.std.specs.Prelude.{◌≡◌, IfErr, IfOk};
ghost use Rattle.moc_shared.specs.Clients.{AreNewClients};
ghost use Rattle.moc_script.specs.Private.Gathering.{IsLanesError};
ghost use Rattle.moc_script.specs.Private.LaneEnds.{IsLaneEnd, AreLaneEnds};
ghost use Rattle.moc_script.specs.Private.Promises.{ArePromised};

use crate::crews::gate::Gate;
use crate::crews::lane::{Job, LaneResult, answer_lines};
use moc_lines::RunError;
use moc_shared::Client;
use std::alloc::Global;
use std::marker::{Send, Sync};
use std::sync::Wait;
use std::sync::atomic::{AtomicBool, Ordering};
use std::thread;
use std::thread::{Promise, PromisedHandle, Scope, Threads};

/// The work of one lane: its lines of the job.
#[derive(Clone, Copy)]
pub(crate) struct Work<'a> {
    pub(crate) job: Job<'a>,
    pub(crate) lane: u8,
}

impl<'a> Promise<LaneResult> for Work<'a> {
    ghost kept_by = { λ work end.
        IsLaneEnd work.job.map.now work.job.lanes work.job.input.now work.lane end };
}

/// Starts a thread for each client. If one cannot be started, signals the others to stop.
fn start<'s, E, R: Wait + Sync, G: Gate + Sync>(
    rt: &'s R,
    alloc: Global,
    gate: &'s G,
    scope: &Scope<'s, E>,
    job: Job<'s>,
    clients: Vec<Client>,
    stop: &'s AtomicBool,
) -> Result<Vec<PromisedHandle<LaneResult, Work<'s>>>, RunError>
    requires clients { AreNewClients job.map.now clients.items job.lanes }
    ensures promised { IfOk result (λ handles.
        ArePromised job.entry.map.now job.entry.lanes job.entry.input.now handles.items) }
    ensures line { IfErr result (λ e. IsLanesError job.entry.input.now e) }
{
    // The closures of the threads capture the fields of the job: closures that captured the job itself were not proved.
    let Job { map, input, lanes } = job;
    let Ok(mut handles) = Vec::with_capacity(alloc, usize::from(lanes)) else {
        return Err(RunError::Memory { line: 0 });
    };
    for client in clients {
        let lane = client.number();
        let work = Work { job, lane };
        let Ok(handle) = scope.spawn_with(work, move || {
            let job = Job { map, input, lanes };
            answer_lines(rt, alloc, gate, job, client, stop)
        }) else {
            stop.store(true, Ordering::SeqCst);
            return Err(RunError::Spawn);
        };
        handles.push_reserved(handle);
    }
    Ok(handles)
}

/// Processes the lines of a single lane on this thread.
fn run_single_lane<R: Wait, G: Gate>(
    rt: &R,
    alloc: Global,
    gate: &G,
    job: Job<'_>,
    clients: Vec<Client>,
) -> Result<Vec<LaneResult>, RunError>
    requires alone { job.lanes ≡ 1 }
    requires clients { AreNewClients job.map.now clients.items job.lanes }
    ensures ends { IfOk result (λ ends. AreLaneEnds job.entry.map.now job.entry.lanes job.entry.input.now ends.items) }
    ensures line { IfErr result (λ e. IsLanesError job.entry.input.now e) }
{
    let Ok(mut ends) = Vec::with_capacity(alloc, 1) else {
        return Err(RunError::Memory { line: 0 });
    };
    let mut clients = clients;
    // One lane has one client.
    let Some(client) = clients.pop() else {
        unreachable!()
    };
    let stop = AtomicBool::new(false);
    ends.push_reserved(answer_lines(rt, alloc, gate, job, client, &stop));
    Ok(ends)
}

/// Runs each lane on its own thread, or a single lane on this one. Returns when all lanes have ended, which is soon
/// after a failure.
pub(crate) fn run_lanes<R: Threads + Wait + Sync, G: Gate + Sync>(
    rt: &R,
    alloc: Global,
    gate: &G,
    job: Job<'_>,
    clients: Vec<Client>,
) -> Result<Vec<LaneResult>, RunError>
    requires clients { AreNewClients job.map.now clients.items job.lanes }
    ensures ends { IfOk result (λ ends. AreLaneEnds job.entry.map.now job.entry.lanes job.entry.input.now ends.items) }
    ensures line { IfErr result (λ e. IsLanesError job.entry.input.now e) }
{
    if job.lanes == 1 {
        return run_single_lane(rt, alloc, gate, job, clients);
    }
    let Job { map, input, lanes } = job;
    let stop = AtomicBool::new(false);
    thread::scope(
        thread::scope_env(),
        rt,
        |scope| -> Result<Vec<LaneResult>, RunError>
            requires { AreNewClients map.now clients.items lanes }
            ensures ends { IfOk result (λ ends. AreLaneEnds map.entry.now lanes input.entry.now ends.items) }
            ensures line { IfErr result (λ e. IsLanesError input.entry.now e) }
        {
            let job = Job { map, input, lanes };
            let handles = start(rt, alloc, gate, scope, job, clients, &stop)?;
            match thread::join_promised(rt, handles) {
                Ok(ends) => Ok(ends),
                Err(_) => {
                    stop.store(true, Ordering::SeqCst);
                    Err(RunError::Memory { line: 0 })
                }
            }
        },
    )
}
