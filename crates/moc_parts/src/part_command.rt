//! Commands that are executed on the list of a single part: a `Command` with such an operand, or a command on one cell.
ghost use Rattle.std.specs.Prelude.{◌≡◌, false, true, IfOk, OnOk, OnErr, if◌then◌else◌};
ghost use Rattle.std.specs.Bool.{OnTrue};
ghost use Rattle.std.specs.FinSet as set;
ghost use Rattle.moc_ranges.specs.Cells.{span};
ghost use Rattle.moc_ranges.specs.Operations.{meets};
ghost use Rattle.moc_parts.specs.Commands.{is_update, reply_on, set_after, is_no_change, IsPlain, NeedsOnly};
ghost use Rattle.moc_parts.specs.CellCommands.{command_on_cell};
ghost use Rattle.moc_parts.specs.declared.command.Command.{Command as CommandValue};
ghost use Rattle.moc_parts.specs.declared.reply.Reply.TheVariants as reply;

use crate::command::Command;
use crate::part::Part;
use crate::reply::Reply;
use moc_ranges::{Coverage, Memory};
use moc_sphere::Cell;
use std::alloc::Global;

/// What a shared map needs of a command on a single part: a `CellCommand`, or a `Command` for which `IsPlain` holds.
pub trait PartCommand {
    /// The command that contracts refer to.
    ghost command: { Self → CommandValue };

    /// Returns whether the command may change the set.
    fn is_update(&self) -> bool
        ensures { result ≡ is_update (command self.now) };

    /// Returns true only if the command leaves the set unchanged and replies with `Changed(0)`. Recognizes an `Add` of
    /// pixels that the set has.
    fn adds_nothing(&self, pixels: &Coverage) -> bool
        requires { IsPlain (command self.now) }
        ensures set { OnTrue result (set_after pixels.now (command self.now) ≡ pixels.now) }
        ensures reply { OnTrue result (reply_on pixels.now (command self.now) ≡ reply.Changed 0) };

    /// Executes the command on a set, and returns its reply.
    ///
    /// # Errors
    /// Fails with `Memory` if an allocation fails; the set is then unchanged.
    fn execute_on(&self, alloc: Global, pixels: &mut Coverage) -> Result<Reply, Memory>
        requires { IsPlain (command self.now) }
        ensures set { OnOk result (pixels.new ≡ set_after pixels.old (command self.now)) }
        ensures reply { IfOk result (λ r. r ≡ reply_on pixels.old (command self.now)) }
        ensures unchanged { OnErr result (pixels.new ≡ pixels.old) }
        ensures same { IfOk result (λ r. is_no_change r ≡ true → pixels.new ≡ pixels.old) };

    /// Returns the reply to a query on a set.
    ///
    /// # Errors
    /// Fails with `Memory` if an allocation fails.
    fn query_on(&self, alloc: Global, pixels: &Coverage) -> Result<Reply, Memory>
        requires plain { IsPlain (command self.now) }
        requires query { is_update (command self.now) ≡ false }
        ensures { IfOk result (λ r. r ≡ reply_on pixels.now (command self.now)) };
}

impl PartCommand for Command {
    ghost command = { λ c. c };

    fn is_update(&self) -> bool {
        Command::is_update(self)
    }

    fn adds_nothing(&self, pixels: &Coverage) -> bool {
        match self {
            Command::Add(x) => pixels.covers(&x.set),
            _ => false,
        }
    }

    fn execute_on(&self, alloc: Global, pixels: &mut Coverage) -> Result<Reply, Memory> {
        Command::execute_on(self, alloc, pixels)
    }

    fn query_on(&self, alloc: Global, pixels: &Coverage) -> Result<Reply, Memory> {
        Command::query_on(self, alloc, pixels)
    }
}

/// What a command does with the pixels of a cell.
#[derive(Clone, Copy, Debug, PartialEq, Eq)]
pub enum CellAction {
    /// Adds the pixels.
    Add,
    /// Removes the pixels.
    Remove,
    /// Adds the pixels if the set has none of them.
    Claim,
    /// Counts the pixels that the set has.
    Count,
}

/// A command on the pixels of one cell. It has the meaning of the `Command` on the set of the cell, which it need not
/// allocate.
#[derive(Clone, Copy, Debug, PartialEq, Eq)]
pub struct CellCommand {
    /// What the command does.
    pub action: CellAction,
    /// The cell.
    pub cell: Cell,
}

impl CellCommand {
    /// Returns the part that the cell is in. O(1).
    pub fn part(&self) -> Part
        ensures { NeedsOnly (command_on_cell self.now) result }
    {
        // The two calls only make their contracts available to the proof: the order and the index are in range.
        self.cell.order().get();
        self.cell.index();
        Part::of(self.cell.base_pixel())
    }
}

impl PartCommand for CellCommand {
    ghost use Rattle.moc_parts.specs.CellCommands.{command_on_cell};

    ghost command = { command_on_cell };

    fn is_update(&self) -> bool {
        !matches!(self.action, CellAction::Count)
    }

    fn adds_nothing(&self, pixels: &Coverage) -> bool {
        match self.action {
            CellAction::Add => pixels.contains_cell(self.cell),
            _ => false,
        }
    }

    fn execute_on(&self, alloc: Global, pixels: &mut Coverage) -> Result<Reply, Memory> {
        match self.action {
            CellAction::Add => Ok(Reply::Changed(pixels.insert_cell(alloc, self.cell)?)),
            CellAction::Remove => Ok(Reply::Changed(pixels.remove_cell(alloc, self.cell)?)),
            CellAction::Claim => claim_cell(alloc, pixels, self.cell),
            CellAction::Count => Ok(Reply::Total(pixels.count_cell(self.cell))),
        }
    }

    fn query_on(&self, _alloc: Global, pixels: &Coverage) -> Result<Reply, Memory> {
        Ok(Reply::Total(pixels.count_cell(self.cell)))
    }
}

/// Adds the pixels of a cell if none of them is in the set.
fn claim_cell(alloc: Global, pixels: &mut Coverage, cell: Cell) -> Result<Reply, Memory>
    ensures set { OnOk result (pixels.new ≡ (if meets pixels.old (span cell.order cell.index)
        then pixels.old else set.union pixels.old (span cell.order cell.index))) }
    ensures reply { IfOk result (λ r. r ≡ (if meets pixels.old (span cell.order cell.index)
        then reply.Taken (set.len (set.intersection pixels.old (span cell.order cell.index)))
        else reply.Claimed)) }
    ensures unchanged { OnErr result (pixels.new ≡ pixels.old) }
{
    let common = pixels.count_cell(cell);
    if common > 0 {
        return Ok(Reply::Taken(common));
    }
    pixels.insert_cell(alloc, cell)?;
    Ok(Reply::Claimed)
}
