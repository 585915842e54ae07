//! Batches: commands that are executed in order, as one operation.
ghost use Rattle.std.specs.Prelude.{◌≡◌, [], ◌∷◌, ◌<◌, ◌≤◌, ℕ, true, length, nat_eq, IfOk, IfErr, OnOk, OnErr};
ghost use Rattle.std.specs.Prelude.{if◌then◌else◌};
ghost use Rattle.std.specs.FinSet as set;
ghost use Rattle.std.specs.List.{list_any};
ghost use Rattle.moc_parts.specs.Batches.{footprint_of_all, AreCommands};
ghost use Rattle.moc_parts.specs.Commands.{is_update};
ghost use Rattle.moc_parts.specs.Parts.{part_count};

use crate::command::Command;
use crate::part::PartSet;
use moc_ranges::Memory;
use std::alloc::Global;
use std::marker::Model;
use thiserror::Error;

/// The maximum number of commands in a batch.
pub const MAX_COMMANDS: usize = 16;

/// The reason why a list of commands is not a valid batch.
#[derive(Clone, Copy, Debug, PartialEq, Eq, Error)]
pub enum BatchError {
    /// The list is empty.
    #[error("a batch has a command")]
    EmptyCommand,
    /// The list has more than 16 commands.
    #[error("a batch has at most 16 commands")]
    TooManyCommands,
}

/// A list of 1 to 16 commands that are executed in order, as one operation.
#[derive(Debug, Drop)]
pub struct Batch {
    commands: Vec<Command>,
}

impl Model for Batch {
    ghost use Rattle.std.specs.Prelude.{List, ◌<◌, ◌≤◌, length};
    ghost use Rattle.std.specs.Coded.{codes};
    ghost use Rattle.moc_ranges.specs.contracts.coverage.Coverage as coverage;
    ghost use Rattle.moc_parts.specs.Batches.{max_commands};
    ghost use Rattle.moc_parts.specs.declared.command.Command.{Command};

    ghost Value = { List Command };

    ghost coded = { Prim.hlevel (codes, coverage.the_row.coded) };

    ghost view = { λ b. b.commands.items };

    ghost invariant = { λ b. (0 < length b.commands.items) × (length b.commands.items ≤ max_commands) };
}

/// Batches are equal if they have equal commands in the same order.
impl PartialEq for Batch {
    ghost use Rattle.std.specs.Cmp.{partial_equiv_from_equiv};
    ghost use Rattle.std.specs.Cmp.Lexicographic.{pointwise, lists_equiv};
    ghost use Rattle.moc_parts.specs.contracts.command.CommandPartialEq.TheImpl as command_eq;
    ghost use Rattle.moc_parts.specs.contracts.command.CommandEq.TheImpl.Laws.{laws-law};

    ghost eq = { pointwise (command_eq.ghosts).eq };

    ghost laws = { partial_equiv_from_equiv (lists_equiv laws-law) };

    fn eq(&self, other: &Batch) -> bool {
        self.commands == other.commands
    }
}

impl Eq for Batch {
    ghost use Rattle.std.specs.Cmp.Lexicographic.{lists_equiv};
    ghost use Rattle.moc_parts.specs.contracts.command.CommandEq.TheImpl.Laws.{laws-law};

    ghost laws = { lists_equiv laws-law };
}

impl Batch {
    /// Creates a batch from a list of commands.
    ///
    /// # Errors
    /// Fails with `EmptyCommand` if the list is empty, and with `TooManyCommands` if it has more than 16 commands. The
    /// list is dropped on failure.
    ///
    /// # Complexity
    /// Linear in the number of commands. Allocates nothing.
    pub fn new(commands: Vec<Command>) -> Result<Batch, BatchError>
        ensures value { IfOk result (λ b. b ≡ commands.items) }
        ensures accepted { OnOk result ((0 < length commands.items) × (length commands.items ≤ MAX_COMMANDS)) }
        ensures error { IfErr result (λ e.
            e ≡ (if nat_eq (length commands.items) 0 then BatchError.EmptyCommand else BatchError.TooManyCommands)) }
        ensures failure { OnErr result (0 < length commands.items → MAX_COMMANDS < length commands.items) }
    {
        if commands.is_empty() {
            Err(BatchError::EmptyCommand)
        } else if commands.len() > MAX_COMMANDS {
            Err(BatchError::TooManyCommands)
        } else {
            Ok(Batch { commands })
        }
    }

    /// Creates a batch of one command. O(1).
    ///
    /// # Errors
    /// Fails with `Memory` if an allocation fails; the command is then dropped.
    pub fn one(alloc: Global, command: Command) -> Result<Batch, Memory>
        ensures { IfOk result (λ b. b ≡ command ∷ []) }
    {
        let mut commands = Vec::new(alloc);
        commands.push(command)?;
        Ok(Batch { commands })
    }

    /// Creates a batch from a list of commands. Requires a list of 1 to 16 commands. Allocates nothing.
    pub fn of(commands: Vec<Command>) -> Batch
        requires some { 0 < length commands.items }
        requires bounded { length commands.items ≤ MAX_COMMANDS }
        ensures { result ≡ commands.items }
    {
        Batch { commands }
    }

    /// Returns the commands in order. Linear in the number of commands; allocates nothing.
    pub fn commands(&self) -> &[Command]
        ensures commands { result.now ≡ self.now }
        ensures some { 0 < length self.now }
        ensures bounded { length self.now ≤ MAX_COMMANDS }

        // The theorems about commands require this fact.
        ensures valid { AreCommands self.now }
    {
        prove_all_in_sky(&self.commands);
        &self.commands
    }

    /// Returns whether at least one command is an update. Linear in the number of commands; allocates nothing.
    pub fn is_update(&self) -> bool
        ensures { result ≡ list_any is_update self.now }
    {
        self.commands.iter().any(|command| command.is_update())
    }

    /// Returns the union of the footprints of all commands: the parts that the batch reads or changes. Takes O(log n)
    /// for each command, for an operand of n ranges; allocates nothing.
    pub fn footprint(&self, alloc: Global) -> PartSet
        ensures parts { (b : ℕ) → b < part_count → set.contains result b ≡ footprint_of_all self.now b }

        // The footprint is never empty.
        ensures some { (b : ℕ) × (b < part_count) × (set.contains result b ≡ true) }
    {
        footprint_of_all(self.commands(), alloc)
    }

    /// Returns a copy, which shares the blocks of all operands. One `Command::try_copy` for each command.
    ///
    /// # Errors
    /// Fails with `Memory` if an allocation fails.
    pub fn try_copy(&self, alloc: Global) -> Result<Batch, Memory>
        ensures { IfOk result (λ x. x ≡ self.now) }
    {
        let mut commands = Vec::new(alloc);
        for command in &self.commands {
            commands.push(command.try_copy(alloc)?)?;
        }
        Ok(Batch { commands })
    }
}

/// Establishes that every command is valid: operands are within the sky, orders and cells are valid. Changes nothing,
/// but takes one call for each command at run time.
fn prove_all_in_sky(commands: &[Command])
    ensures { AreCommands commands.now }
{
    if let Some((first, rest)) = commands.split_first() {
        first.prove_in_sky();
        prove_all_in_sky(rest);
    }
}

/// Returns the union of the footprints of the commands.
fn footprint_of_all(commands: &[Command], alloc: Global) -> PartSet
    ensures { (b : ℕ) → b < part_count → set.contains result b ≡ footprint_of_all commands.now b }
{
    match commands.split_first() {
        Some((only, rest)) if rest.is_empty() => only.footprint(alloc),
        Some((first, rest)) => first.footprint(alloc).union(footprint_of_all(rest, alloc)),
        None => PartSet::none(),
    }
}
