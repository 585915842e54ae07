//! A client that sends a line only when it has the replies to the lines before.
ghost use Rattle.std.specs.Prelude.{◌≡◌, [], false, None};
ghost use Rattle.std.specs.FinSet as set;
ghost use Rattle.moc_lines.specs.Runs.{answers_to, script_rules, whole_lines_of};

use crate::between::has_text;
use crate::failing::{FailingSink, WORKING};
use moc_devices::{DeviceFault, GuardedSource, Log};
use moc_lines::{RunError, answer_all_lines};
use moc_parts::Map;
use moc_ranges::Coverage;
use std::alloc::Global;

/// A client that sends one byte a call, and would wait forever if the reply to an earlier line were missing.
#[derive(Drop)]
struct WaitingClient<'a> {
    script: &'a [u8],
    is_ended: bool,
    /// The number of lines that it has sent.
    lines: usize,
    /// Whether a read came before a reply.
    has_waited: bool,
    log: Log,
}

impl<'a> WaitingClient<'a> {
    /// Returns a client that sends this script, and has sent nothing yet.
    fn new(script: &'a [u8]) -> WaitingClient<'a>
        ensures { result.log.bytes ≡ [] }
    {
        WaitingClient {
            script,
            is_ended: false,
            lines: 0,
            has_waited: false,
            log: Log::new(),
        }
    }
}

impl GuardedSource<FailingSink> for WaitingClient<'_> {
    ghost reading = { λ s. record { delivered = s.log.bytes; ended = s.is_ended; left = None } };

    ghost mark = { λ _. false };

    ghost may_read = { λ s w. w.taken.items ≡ answers_to script_rules set.empty (whole_lines_of s.log.bytes) };

    fn read_after(&mut self, sink: &FailingSink, buffer: &mut [u8]) -> Result<usize, DeviceFault> {
        if lines_in(&sink.taken) != self.lines {
            self.has_waited = true;
        }
        self.is_ended = false;
        if buffer.is_empty() {
            return Ok(0);
        }
        match self.script.split_first() {
            None => {
                self.is_ended = true;
                Ok(0)
            }
            Some((first, others)) => {
                if *first == b'\n' {
                    self.lines = self.lines.saturating_add(1);
                }
                buffer[0] = *first;
                self.script = others;
                self.log.note(&buffer[..1]);
                Ok(1)
            }
        }
    }
}

/// Returns the number of line feeds in a text.
fn lines_in(text: &[u8]) -> usize {
    text.iter().filter(|byte| **byte == b'\n').count()
}

/// Processes the lines of a client that may be read only after all replies.
fn answer_client(
    alloc: Global,
    map: &mut Map,
    client: &mut WaitingClient<'_>,
    sink: &mut FailingSink,
) -> Result<(), RunError>
    requires map { map.old ≡ set.empty }
    requires client { client.old.log.bytes ≡ [] }
    requires sink { sink.old.taken.items ≡ [] }
    requires unmarked { sink.old.is_marked ≡ false }
{
    answer_all_lines(alloc, map, client, sink)
}

#[test]
fn a_client_waits_for_each_answer(rt: HostRuntime) {
    let alloc = rt.alloc();
    let mut map = Map::new(alloc, Coverage::empty(alloc)).expect(&rt, "memory");
    let mut client = WaitingClient::new(b"add 0/0\nhop\ncount 0/0-1\n");
    let mut sink = FailingSink::new(alloc, WORKING);
    let result = answer_client(alloc, &mut map, &mut client, &mut sink);
    assert_eq!(rt; result, Ok(()));
    assert!(rt; !client.has_waited);
    has_text(
        &rt,
        &sink.taken,
        "changed 288230376151711744\nfault UnknownWord\ntotal 288230376151711744\n",
    );
}
