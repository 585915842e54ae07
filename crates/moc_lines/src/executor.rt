//! The interface of what executes commands.
ghost use Rattle.std.specs.Prelude.{◌∷◌, [], IfOk, List};
ghost use Rattle.moc_parts.specs.CellCommands.{command_on_cell};
ghost use Rattle.moc_parts.specs.declared.command.Command.{Command};
ghost use Rattle.moc_parts.specs.declared.reply.Reply.{Reply};

use moc_parts::{Batch, CellCommand, Command, Replies, Reply};
use moc_ranges::Memory;
use std::alloc::Global;

/// A type that executes commands on a set of pixels.
pub trait Executor {
    /// Whether commands can be executed in a state. Each call keeps this property.
    ghost ready: { Self → Type 0 };

    /// Whether the execution of commands in one state may have these replies and end in another state.
    ghost executes: { Self → List Command → List Reply → Self → Type 0 };

    /// Executes one command.
    ///
    /// # Errors
    /// Fails with `Memory` if an allocation fails.
    fn execute(&mut self, alloc: Global, command: Command) -> Result<Reply, Memory>
        requires ready { ready self.old }
        ensures ready { ready self.new }
        ensures reply { IfOk result (λ reply. executes self.old (command ∷ []) (reply ∷ []) self.new) };

    /// Executes a command on one cell, like the command on the set of the cell.
    ///
    /// # Errors
    /// Fails with `Memory` if an allocation fails.
    fn execute_on_cell(&mut self, alloc: Global, command: &CellCommand) -> Result<Reply, Memory>
        requires ready { ready self.old }
        ensures ready { ready self.new }
        ensures reply { IfOk result (λ reply.
            executes self.old (command_on_cell command.now ∷ []) (reply ∷ []) self.new) };

    /// Executes the commands of a batch, in order.
    ///
    /// # Errors
    /// Fails with `Memory` if an allocation fails.
    fn execute_batch(&mut self, alloc: Global, batch: &Batch) -> Result<Replies, Memory>
        requires ready { ready self.old }
        ensures ready { ready self.new }
        ensures replies { IfOk result (λ replies. executes self.old batch.now replies self.new) };
}
