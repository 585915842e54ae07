//! `refusals WORK`: executes a work that allocates, and reports its result. `tests/program.py` makes each allocation of
//! each work fail in turn, and counts the allocations of `once` and of `often`. Without a word it executes all works.
#![tactic(auto)]

mod calls;
mod crew;
mod inversion;
mod script;
mod steady;

use anyhow::{Result, bail};
use std::alloc::Global;
use std::io::Print;
use std::marker::Sync;
use std::sync::Wait;
use std::thread::Threads;

fn main(rt: HostRuntime) -> Result<()> {
    let words: Vec<String> = std::env::args(&rt)?.collect(rt.alloc())?;
    match words.get(1) {
        Some(work) => report(&rt, rt.alloc(), work.as_str()),
        None => report_all(&rt, rt.alloc()),
    }
}

/// Reports the result of a work.
fn report<R: Print + Threads + Wait + Sync>(rt: &R, alloc: Global, work: &str) -> Result<()> {
    match work {
        "calls" => calls::report(rt, alloc),
        "crew" => crew::report(rt, alloc),
        "inversion" => inversion::report(rt, alloc),
        "often" => steady::report(rt, alloc, 30),
        "once" => steady::report(rt, alloc, 1),
        "script" => script::report(rt, alloc),
        _ => bail!("no work {work}"),
    }
}

/// Reports the result of each work.
fn report_all<R: Print + Threads + Wait + Sync>(rt: &R, alloc: Global) -> Result<()> {
    for work in ["calls", "crew", "inversion", "often", "once", "script"] {
        report(rt, alloc, work)?;
    }
    Ok(())
}
