//! Theorems on the languages of scripts and schedules. The functions do nothing; their contracts are proved.
ghost use Rattle.moc_script.specs.Theorems.{LinesOfOneCommand, LinesWithoutOrder, ScriptsOfSingleCommands};
ghost use Rattle.moc_script.specs.Theorems.{ScriptsWithoutOrder, SchedulesOfSingleCommands, SchedulesWithoutOrder};
ghost use Rattle.moc_script.specs.Theorems.{SchedulesHaveOneOrder};

use moc_parts::batches_are_local;
use moc_steps::steps_have_one_order;

/// States that a line without `;` that is not blank has the answer and the effect of its one command.
pub fn lines_of_one_command()
    ensures { LinesOfOneCommand }
{}

/// States that a line without `@` has the answer and the effect that it has in the language whose operands are
/// coverages alone.
pub fn lines_without_order()
    ensures { LinesWithoutOrder }
{}

/// States that a script without `;` has the answers that it has in the language without batches.
pub fn scripts_of_single_commands()
    ensures { ScriptsOfSingleCommands }
{}

/// States that a script without `@` has the answers that it has in the language without orders.
pub fn scripts_without_order()
    ensures { ScriptsWithoutOrder }
{}

/// States that a schedule without `;` has the answers that it has in the language without batches.
pub fn schedules_of_single_commands()
    ensures { SchedulesOfSingleCommands }
{}

/// States that a schedule without `@` has the answers that it has in the language without orders.
pub fn schedules_without_order()
    ensures { SchedulesWithoutOrder }
{}

/// States that the steps of a schedule's lines, those whose answer is neither `fault` nor `refused`, are permitted and
/// lead to the world whose order and set the last lines show, and that this order explains the steps.
pub fn schedules_have_one_order()
    ensures { SchedulesHaveOneOrder }
{
    batches_are_local();
    steps_have_one_order();
}
