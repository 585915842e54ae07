//! The commands of a map and their operands.
ghost use Rattle.std.specs.Prelude.{◌≡◌, ◌<◌, ℕ, nat_eq, IfOk, IfSome, OnSome, None};
ghost use Rattle.std.specs.FinSet as set;
ghost use Rattle.moc_ranges.specs.Operations.{part_of};
ghost use Rattle.moc_parts.specs.Commands.{footprint, is_update, operand_set, parts_met};
ghost use Rattle.moc_parts.specs.Commands.{IsCommand, IsOperand, NeedsOnly};
ghost use Rattle.moc_parts.specs.Private.EffectiveSet.{effective_pixels};
ghost use Rattle.moc_parts.specs.Parts.{part_count};

use crate::effective_set::EffectiveSet;
use crate::footprint::{parts_around, parts_met, single_part};
use crate::part::{Part, PartSet};
use moc_ranges::{Coverage, Memory};
use moc_sphere::{Cell, Order};
use std::alloc::Global;

/// The operand of a command: a set of pixels that is degraded first if an order is given.
#[derive(Debug, PartialEq, Eq, Drop)]
pub struct Operand {
    /// The set of pixels.
    pub set: Coverage,
    /// The order to which the set is degraded first, if any.
    pub coarse: Option<Order>,
}

/// A command of a client. Below, S is the operand's set (degraded if it has an order) and A is the set of the map.
#[derive(Debug, PartialEq, Eq, Drop)]
pub enum Command {
    /// Replaces A by the union of A and S.
    Add(Operand),
    /// Replaces A by the difference of A and S.
    Remove(Operand),
    /// Replaces A by the intersection of A and S.
    Keep(Operand),
    /// Adds S to A if they have no pixel in common; otherwise leaves A unchanged.
    Claim(Operand),
    /// Replaces A by its complement in the sky.
    Invert,
    /// Degrades A to an order.
    Degrade(Order),
    /// Counts the pixels in the intersection of A and S.
    Count(Operand),
    /// Returns the intersection of A and S.
    Read(Operand),
    /// Returns whether A has a pixel in the cell or in a cell that touches it.
    Near(Cell),
}

impl Operand {
    /// Establishes that the set is within the sky and that the order is valid. Has no effect at run time.
    fn prove_in_sky(&self)
        ensures { IsOperand self.now }
    {
        self.set.is_empty();
        if let Some(order) = self.coarse {
            order.get();
        }
    }

    /// Returns the single part that contains the whole set. Returns `None` if the operand has an order, if the set is
    /// empty, or if the set has pixels in several parts.
    ///
    /// # Complexity
    /// O(log n) for n ranges. Allocates nothing.
    pub fn single_part(&self) -> Option<Part>
        ensures in_part { IfSome result (λ b. part_of self.now.set b ≡ self.now.set) }
        ensures met { IfSome result (λ b. (k : ℕ) → parts_met self.now.set k ≡ nat_eq b k) }
        ensures set { OnSome result (operand_set self.now ≡ self.now.set) }

        // The theorems about commands require this fact.
        ensures valid { OnSome result (IsOperand self.now) }
    {
        match self.coarse {
            Some(_) => None,
            None => single_part(&self.set),
        }
    }

    /// Returns the operand's effective set: the set itself, or the degraded set if an order is given.
    pub(crate) fn effective_set(&self, alloc: Global) -> Result<EffectiveSet<'_>, Memory>
        ensures { IfOk result (λ r. effective_pixels r ≡ operand_set self.now) }
    {
        match self.coarse {
            Some(order) => Ok(EffectiveSet::Degraded(self.set.degrade(alloc, order)?)),
            None => Ok(EffectiveSet::Original(&self.set)),
        }
    }

    /// Returns a copy, which shares the blocks of the set. Costs as much as `Coverage::try_copy`.
    ///
    /// # Errors
    /// Fails with `Memory` if an allocation fails.
    pub fn try_copy(&self, alloc: Global) -> Result<Operand, Memory>
        ensures { IfOk result (λ x. x ≡ self.now) }
    {
        Ok(Operand {
            set: self.set.try_copy(alloc)?,
            coarse: self.coarse,
        })
    }
}

/// Creates an operand without an order: the set is not degraded.
impl From<Coverage> for Operand {
    ghost from_gives = { λ set x. x ≡ record { set = set; coarse = None } };

    fn from(set: Coverage) -> Operand {
        Operand { set, coarse: None }
    }
}

impl Command {
    /// Returns whether the command is an update, that is, may change the set. Allocates nothing.
    pub fn is_update(&self) -> bool
        ensures { result ≡ is_update self.now }
    {
        !matches!(
            self,
            Command::Count(_) | Command::Read(_) | Command::Near(_)
        )
    }

    /// Returns the footprint of the command: the parts that it reads or changes. The footprint depends only on the
    /// operand's original set or on the cell, and is never empty.
    ///
    /// # Complexity
    /// O(log n) for an operand of n ranges. Allocates nothing.
    pub fn footprint(&self, alloc: Global) -> PartSet
        ensures { (b : ℕ) → b < part_count → set.contains result b ≡ footprint self.now b }
    {
        match self {
            Command::Add(x)
            | Command::Remove(x)
            | Command::Claim(x)
            | Command::Count(x)
            | Command::Read(x) => parts_met(&x.set),
            Command::Keep(_) | Command::Invert | Command::Degrade(_) => PartSet::all(),
            Command::Near(cell) => parts_around(*cell, alloc),
        }
    }

    /// Returns the only part of the footprint if the command can be executed on the list of this part alone: if it is
    /// an `Add`, `Remove`, `Claim`, `Count` or `Read` whose operand is within one part and has no order. Otherwise
    /// returns `None`.
    ///
    /// # Complexity
    /// O(log n) for an operand of n ranges. Allocates nothing.
    pub fn single_part(&self) -> Option<Part>
        ensures { IfSome result (λ b. NeedsOnly self.now b) }
    {
        match self {
            Command::Add(x)
            | Command::Remove(x)
            | Command::Claim(x)
            | Command::Count(x)
            | Command::Read(x) => x.single_part(),
            _ => None,
        }
    }

    /// Establishes that the command is valid: its operand is within the sky, its order or cell is valid. Has no effect
    /// at run time.
    pub(crate) fn prove_in_sky(&self)
        ensures { IsCommand self.now }
    {
        match self {
            Command::Add(x)
            | Command::Remove(x)
            | Command::Keep(x)
            | Command::Claim(x)
            | Command::Count(x)
            | Command::Read(x) => x.prove_in_sky(),
            Command::Invert => {}
            Command::Degrade(order) => {
                order.get();
            }
            Command::Near(cell) => {
                cell.order().get();
                cell.index();
            }
        }
    }

    /// Returns a copy, which shares the blocks of the operand. Costs at most as much as `Coverage::try_copy`.
    ///
    /// # Errors
    /// Fails with `Memory` if an allocation fails.
    pub fn try_copy(&self, alloc: Global) -> Result<Command, Memory>
        ensures { IfOk result (λ x. x ≡ self.now) }
    {
        Ok(match self {
            Command::Add(x) => Command::Add(x.try_copy(alloc)?),
            Command::Remove(x) => Command::Remove(x.try_copy(alloc)?),
            Command::Keep(x) => Command::Keep(x.try_copy(alloc)?),
            Command::Claim(x) => Command::Claim(x.try_copy(alloc)?),
            Command::Invert => Command::Invert,
            Command::Degrade(order) => Command::Degrade(*order),
            Command::Count(x) => Command::Count(x.try_copy(alloc)?),
            Command::Read(x) => Command::Read(x.try_copy(alloc)?),
            Command::Near(cell) => Command::Near(*cell),
        })
    }
}
