//! Runs a script of four lines with two lanes, and reports the result and the number of output lines.

use anyhow::{Result, bail};
use moc_devices::{OverReader, OverWriter};
use moc_script::{Lanes, OpenGate, crew};
use std::alloc::Global;
use std::io::Print;
use std::marker::Sync;
use std::sync::Wait;
use std::thread::Threads;

/// A blank line, and four lines with replies, two for each lane.
const SCRIPT: &[u8] = b"add 0/0\nadd 0/1\n\ncount 0/0 1/4\ncount 0/1 1/8\n";

/// Reports the result of the crew.
pub fn report<R: Print + Threads + Wait + Sync>(rt: &R, alloc: Global) -> Result<()> {
    let Some(lanes) = Lanes::new(2) else {
        bail!("no lanes");
    };
    let mut room = [0u8; 256];
    let mut source = OverReader::new(SCRIPT);
    let mut sink = OverWriter::new(room.as_mut_slice());
    let result = crew(rt, alloc, &mut source, &mut sink, lanes, &OpenGate);
    drop(sink);
    let lines = room.iter().filter(|byte| **byte == b'\n').count();
    match result {
        Ok(()) => println!(rt; "the end behind {lines} lines")?,
        Err(error) => println!(rt; "{error} behind {lines} lines")?,
    }
    Ok(())
}
