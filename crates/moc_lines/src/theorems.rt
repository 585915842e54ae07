//! Consequences of the contract of a run.
ghost use Rattle.moc_lines.specs.Runs.{AnswersReportedInput, line_limit};

use crate::responder::Responder;

/// States what the contract of a run means for a source that reports its input, such as a slice of bytes: the output is
/// a prefix of the text of that input, and a run that succeeds has read the whole input.
pub fn reported_input_is_answered<A: Responder>()
    ensures { AnswersReportedInput line_limit A.rules }
{}
