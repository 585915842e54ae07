//! Benchmarks of the library. `moc_bench OP REPEATS [COUNT]` times one operation (`timing`), `moc_bench clients
//! [CALLS]` the clients of a shared map (`clients`).
#![tactic(auto)]

mod clients;
mod operation;
mod random;
mod schedule;
mod timing;

use anyhow::{Result, bail};

fn main(rt: HostRuntime) -> Result<()> {
    let words: Vec<String> = std::env::args(&rt)?.collect(rt.alloc())?;
    match words.as_slice() {
        [_, word] if word.as_str() == "clients" => clients::run(&rt, rt.alloc(), None),
        [_, word, calls] if word.as_str() == "clients" => {
            clients::run(&rt, rt.alloc(), Some(calls.as_str().parse()?))
        }
        [_, word, repeats] => timing::run(&rt, word.as_str(), repeats.as_str().parse()?, None),
        [_, word, repeats, count] => timing::run(
            &rt,
            word.as_str(),
            repeats.as_str().parse()?,
            Some(count.as_str().parse()?),
        ),
        _ => bail!("moc_bench OP REPEATS [COUNT] | clients [CALLS]"),
    }
}
