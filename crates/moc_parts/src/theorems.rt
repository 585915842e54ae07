//! Theorems about the commands and about the parts of sets. The functions have no effect at run time.
ghost use Rattle.moc_parts.specs.Theorems.{BatchesAreLocal, CommandsAreLocal, DegradedOperandsMeetTheSameParts};
ghost use Rattle.moc_parts.specs.Theorems.{SetsHaveTwelveParts, SetsAreUnitedByParts, QueriesLeaveTheSet};

/// A command reads and changes only the parts in its footprint.
pub fn commands_are_local()
    ensures { CommandsAreLocal }
{}

/// A batch reads and changes only the parts in its footprint.
pub fn batches_are_local()
    ensures { BatchesAreLocal }
{}

/// An operand's original set and its degraded set have pixels in the same parts. A footprint can therefore be computed
/// from the original set.
pub fn degraded_operands_meet_the_same_parts()
    ensures { DegradedOperandsMeetTheSameParts }
{}

/// A batch without updates leaves the set unchanged.
pub fn queries_leave_the_set()
    ensures { QueriesLeaveTheSet }
{}

/// Twelve sets, each within its own base pixel, are the parts of their union. The union is within the sky. A pixel is
/// in the union if and only if it is in the set of its base pixel.
pub fn sets_are_united_by_parts()
    ensures { SetsAreUnitedByParts }
{}

/// A set of pixels has twelve parts, each within its own base pixel, and their union is the set.
pub fn sets_have_twelve_parts()
    ensures { SetsHaveTwelveParts }
{}
