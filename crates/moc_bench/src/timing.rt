//! The time of one operation of the library, as a line `OP median first least checksum`, in seconds. Standard input has
//! one coverage in ASCII a line: the first, and for an operation on two sets the second. Operations on numbers and
//! schedules make their own input, of the given number of numbers or operations, or of millions.
use crate::operation::{Input, Operation, answer};
use anyhow::{Result, bail};
use std::fmt;
use std::io::Read;
use std::time::Instant;

/// Times an operation on the input this number of times, and prints its line.
pub fn run(rt: &HostRuntime, word: &str, repeats: u32, count: Option<u32>) -> Result<()> {
    let Some(operation) = Operation::from_name(word) else {
        bail!("no operation {word}");
    };
    let mut text = Vec::new(rt.alloc());
    rt.stdin().read_to_end(&mut text)?;
    let input = Input::new(rt.alloc(), operation, count, &text)?;
    let (mut times, sum) = times_of(rt, operation, &input, repeats)?;
    let first = in_seconds(times.first());
    times.sort_unstable();
    let median = in_seconds(times.get(times.len() / 2));
    let least = in_seconds(times.first());
    println!(rt; "{word} {median} {first} {least} {sum}")?;
    Ok(())
}

/// Returns the microseconds of each run, and the operation's checksum.
fn times_of(
    rt: &HostRuntime,
    operation: Operation,
    input: &Input<'_>,
    repeats: u32,
) -> Result<(Vec<u64>, u64)> {
    let mut times = Vec::new(rt.alloc());
    let mut sum = 0;
    for _ in 0..repeats {
        let start = Instant::now(rt)?;
        sum = answer(rt.alloc(), operation, input)?;
        let micros = start.elapsed(rt)?.as_micros();
        times.push(u64::try_from(micros).unwrap_or(u64::MAX))?;
    }
    Ok((times, sum))
}

/// Formats a time in microseconds.
#[derive(Clone, Copy)]
struct Seconds(u64);

fn in_seconds(micros: Option<&u64>) -> Seconds {
    Seconds(micros.copied().unwrap_or(0))
}

impl fmt::Display for Seconds {
    fn fmt<W: fmt::Write>(&self, f: &mut fmt::Formatter<W>) -> fmt::Result {
        write!(f, "{}.{:06}", self.0 / 1_000_000, self.0 % 1_000_000)
    }
}
