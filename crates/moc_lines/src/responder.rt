//! The interface of types that process lines.
ghost use Rattle.std.specs.Prelude.{◌≡◌, ◌≢◌, ◌++◌, [], OnOk, OnErr};
ghost use Rattle.moc_lines.specs.Runs.{Rules};

use moc_ranges::Memory;
use std::alloc::Global;

/// A type that processes lines by its rules, which define the answer to each line.
pub trait Responder {
    /// The answer to a line, with its line feed, or nothing; the state after the line; and the closing text after the
    /// last line.
    ghost rules: { Rules Self };

    /// Processes a line, and appends the answer to the text.
    ///
    /// # Errors
    /// Fails with `Memory` if an allocation fails. The text is then unspecified.
    fn answer_line(&mut self, alloc: Global, line: &[u8], text: &mut Vec<u8>) -> Result<(), Memory>
        ensures text { OnOk result (text.new.items ≡ text.old.items ++ rules.answer self.old line.now) }
        ensures after { OnOk result (self.new ≡ rules.after self.old line.now) };

    /// Appends the closing text after the last line. Allocates nothing if the closing text is empty.
    fn close(&self, alloc: Global, text: &mut Vec<u8>) -> Result<(), Memory>
        ensures text { OnOk result (text.new.items ≡ text.old.items ++ rules.closing self.now) }
        ensures some { OnErr result (rules.closing self.now ≢ []) };
}
