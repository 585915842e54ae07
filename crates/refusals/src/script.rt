//! Runs a script of six lines, and reports the result and the number of replies.

use anyhow::Result;
use moc_devices::{OverReader, OverWriter};
use moc_lines::run;
use std::alloc::Global;
use std::io::Print;

/// Two blank lines, and four lines with replies.
const SCRIPT: &[u8] = b" \t\n\nadd 0/0\ncount 0/0-1\nadd 0/1 ; read 0/0-2\nread\n";

/// Reports the result of the run.
pub fn report(rt: &impl Print, alloc: Global) -> Result<()> {
    let mut room = [0u8; 256];
    let mut source = OverReader::new(SCRIPT);
    let mut sink = OverWriter::new(room.as_mut_slice());
    let result = run(alloc, &mut source, &mut sink);
    drop(sink);
    let answers = room.iter().filter(|byte| **byte == b'\n').count();
    match result {
        Ok(()) => println!(rt; "the end behind {answers} answers")?,
        Err(error) => println!(rt; "{error} behind {answers} answers")?,
    }
    Ok(())
}
