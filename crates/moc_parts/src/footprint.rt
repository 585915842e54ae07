//! The parts of operands and cells.
ghost use Rattle.std.specs.Prelude.{◌≡◌, ◌<◌, ℕ, nat_eq, IfSome};
ghost use Rattle.std.specs.FinSet as set;
ghost use Rattle.moc_parts.specs.Commands.{parts_around, parts_met};
ghost use Rattle.moc_ranges.specs.Operations.{part_of, IsWithin, pixels};
ghost use Rattle.moc_sphere.specs.Faces.{face_of};
ghost use Rattle.moc_parts.specs.Parts.{part_count};

use crate::part::{Part, PartSet};
use moc_ranges::Coverage;
use moc_sphere::Cell;
use std::alloc::Global;

/// Returns the parts in which a set has a pixel; returns part 0 if the set is empty.
pub(crate) fn parts_met(operand: &Coverage) -> PartSet
    ensures parts { (b : ℕ) → b < part_count → set.contains result b ≡ parts_met operand.now b }
    ensures within { IsWithin operand.now pixels }
{
    let mut parts = PartSet::none();
    if operand.is_empty() {
        parts.insert(Part::of(0));
        return parts;
    }
    let mut from = 0;
    while let Some(b) = operand.next_base_pixel(from) {
        parts.insert(Part::of(b));
        from = b + 1;
    }
    parts
}

/// Returns the single part that contains the whole set, or `None` if the set is empty or has pixels in several parts.
pub(crate) fn single_part(operand: &Coverage) -> Option<Part>
    ensures in_part { IfSome result (λ b. part_of operand.now b ≡ operand.now) }
    ensures met { IfSome result (λ b. (k : ℕ) → parts_met operand.now k ≡ nat_eq b k) }
    ensures within { IsWithin operand.now pixels }
{
    if operand.is_empty() {
        return None;
    }
    let b = operand.next_base_pixel(0)?;
    if operand.next_base_pixel(b + 1).is_some() {
        return None;
    }
    Some(Part::of(b))
}

/// Returns the base pixels of a cell and of the cells that touch it.
pub(crate) fn parts_around(cell: Cell, alloc: Global) -> PartSet
    ensures { (b : ℕ) → b < part_count → set.contains result b ≡ parts_around cell b }
{
    let mut parts = PartSet::none();
    parts.insert(part_of_cell(cell));
    for index in cell.touching(alloc).as_slice() {
        parts.insert(part_of_cell(Cell::of(cell.order(), *index)));
    }
    parts
}

/// Returns the base pixel of a cell as a part.
fn part_of_cell(cell: Cell) -> Part
    ensures { result ≡ face_of cell.order cell.index }
{
    Part::of(cell.base_pixel())
}
