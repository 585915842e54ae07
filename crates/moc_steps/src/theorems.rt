//! Theorems about the step machine, for all lists of permitted steps. The functions have no effect at run time.
ghost use Rattle.moc_steps.specs.Theorems.{RepliesAreTheEntries, StepsHaveOneOrder, WorldsAreNeverStuck, WorldsEndSoon};

/// The operations that have edited a part are in one sequential order. The order respects real time: an operation that
/// ended before another began comes first. Each finished operation has the reply that one single set gives in this
/// order. Each part is within its base pixel, and if no client is midway, the union of the twelve parts is that set.
pub fn steps_have_one_order()
    ensures { StepsHaveOneOrder }
{}

/// If a client is midway, at least one step of a midway client is permitted that is neither a Begin nor a Quit.
pub fn worlds_are_never_stuck()
    ensures { WorldsAreNeverStuck }
{}

/// Lists of steps without Begins and Quits have a bounded length and extend the order. If no client is midway
/// afterwards, they have added exactly the operations that were midway, had not quit, and had not edited a part.
pub fn worlds_end_soon()
    ensures { WorldsEndSoon }
{}

/// The replies that an End returns are those in the entry of its operation.
pub fn replies_are_the_entries()
    ensures { RepliesAreTheEntries }
{}
