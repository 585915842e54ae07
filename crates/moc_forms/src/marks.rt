//! The cells of a picture, with their tones.
ghost use Rattle.std.specs.Prelude.{◌≡◌, ◌++◌, ◌<◌, ◌∷◌, [], true, if◌then◌else◌, IfOk, OnOk};
ghost use Rattle.moc_sphere.specs.CellNumber.{cell_count, cell_number};
ghost use Rattle.moc_ranges.specs.Cells.{cells_of, span};
ghost use Rattle.moc_ranges.specs.Operations.{meets};
ghost use Rattle.moc_forms.specs.Drawing.{is_mixed, layers_of_one, layers_of_two, main_colour, marks_of, mixed_below};
ghost use Rattle.moc_forms.specs.Drawing.{tone_of, whole_marks};

use moc_ranges::{Coverage, Memory};
use moc_sphere::{Cell, Order};
use std::alloc::{AllocError, Global};

/// The deepest order whose cells are drawn.
const MARK_ORDER: u8 = 7;

/// The number of pixels of order 29 in a cell of this order: 4^22.
const CELL_SIZE: u64 = 17592186044416;

/// A quarter of these pixels.
const QUARTER: u64 = 4398046511104;

/// The number of shades of each colour.
const SHADES: u64 = 4;

/// The number before the first tone of blue.
pub const BLUE: u64 = 0;

/// The number before the first tone of orange.
pub const ORANGE: u64 = 4;

/// The number before the first tone of black.
pub const BLACK: u64 = 8;

/// The pixels of a picture: all of them, and those in blue, in orange and in black.
#[derive(Drop)]
pub struct Layers {
    all: Coverage,
    first: Coverage,
    second: Coverage,
    both: Coverage,
}

impl Layers {
    /// Returns the layers of a picture of one set.
    pub fn of_one(alloc: Global, set: &Coverage) -> Result<Layers, Memory>
        ensures { IfOk result (λ l. l ≡ layers_of_one set.now) }
    {
        Ok(Layers {
            all: set.try_copy(alloc)?,
            first: set.try_copy(alloc)?,
            second: Coverage::empty(alloc),
            both: Coverage::empty(alloc),
        })
    }

    /// Returns the layers of a picture of two sets.
    pub fn of_two(alloc: Global, first: &Coverage, second: &Coverage) -> Result<Layers, Memory>
        ensures { IfOk result (λ l. l ≡ layers_of_two first.now second.now) }
    {
        Ok(Layers {
            all: first.union(alloc, second)?,
            first: first.difference(alloc, second)?,
            second: second.difference(alloc, first)?,
            both: first.intersection(alloc, second)?,
        })
    }
}

/// Returns the cells of a picture, with their tones from 1 to 12: the cells of order 7 or less that have one colour,
/// and the other cells of order 7 that have pixels.
#[tactic(auto, unfolding(crate::specs::Drawing::marks_of))]
pub fn marks(alloc: Global, layers: &Layers) -> Result<Vec<(Cell, u64)>, Memory>
    ensures { IfOk result (λ v. v.items ≡ marks_of layers.now) }
{
    let mut marks = Vec::new(alloc);
    push_set(alloc, &mut marks, &layers.first, BLUE)?;
    push_set(alloc, &mut marks, &layers.second, ORANGE)?;
    push_set(alloc, &mut marks, &layers.both, BLACK)?;
    push_all_mixed(&mut marks, layers)?;
    Ok(marks)
}

/// Appends the cells of order 7 or less of a set, in the darkest shade of a colour.
fn push_set(
    alloc: Global,
    marks: &mut Vec<(Cell, u64)>,
    set: &Coverage,
    colour: u64,
) -> Result<(), Memory>
    requires { colour < 9 }
    ensures { OnOk result (marks.new.items ≡ marks.old.items ++ whole_marks colour (cells_of set.now)) }
{
    let cells = set.cells(alloc)?;
    push_whole(marks, &cells, colour)?;
    Ok(())
}

/// Appends the cells of order 7 or less, in the darkest shade of a colour.
#[tactic(auto, unfolding(crate::specs::Drawing::whole_marks))]
fn push_whole(marks: &mut Vec<(Cell, u64)>, cells: &[Cell], colour: u64) -> Result<(), AllocError>
    requires { colour < 9 }
    ensures { OnOk result (marks.new.items ≡ marks.old.items ++ whole_marks colour cells.now) }
{
    for cell in cells {
        if cell.order().get() <= MARK_ORDER {
            marks.push((*cell, colour + SHADES))?;
        }
    }
    Ok(())
}

/// Appends the mixed cells of order 7, in ascending order. Moves from each cell that has pixels to the next one.
fn push_all_mixed(marks: &mut Vec<(Cell, u64)>, layers: &Layers) -> Result<(), AllocError>
    ensures { OnOk result (marks.new.items ≡ marks.old.items ++ mixed_below layers.now (cell_count 7)) }
{
    let mut index = 0;
    while let Some(pixel) = layers.all.next_pixel(index * CELL_SIZE) {
        index = pixel / CELL_SIZE;
        push_mixed(marks, layers, index)?;
        index += 1;
    }
    Ok(())
}

/// Appends a cell of order 7 if it has pixels, but not all in one colour.
#[tactic(auto, unfolding(crate::specs::Drawing::is_mixed))]
fn push_mixed(marks: &mut Vec<(Cell, u64)>, layers: &Layers, index: u64) -> Result<(), AllocError>
    requires { index < cell_count 7 }
    ensures { OnOk result (marks.new.items ≡ marks.old.items
        ++ (if is_mixed layers.now index then (cell_number 7 index, tone_of layers.now index) ∷ [] else [])) }
{
    let cell = Cell::of(Order::of(MARK_ORDER), index);
    if layers.all.meets_cell(cell)
        && !layers.first.contains_cell(cell)
        && !layers.second.contains_cell(cell)
        && !layers.both.contains_cell(cell)
    {
        marks.push((cell, tone(layers, cell)))?;
    }
    Ok(())
}

/// Returns the tone of a cell of order 7 that has pixels.
#[tactic(auto, unfolding(crate::specs::Drawing::tone_of, moc_ranges::specs::Operations::meets))]
fn tone(layers: &Layers, cell: Cell) -> u64
    requires order { cell.order ≡ 7 }
    requires met { meets layers.now.all (span cell.order cell.index) ≡ true }
    ensures { result ≡ tone_of layers.now cell.index }
{
    let first = layers.first.count_cell(cell);
    let second = layers.second.count_cell(cell);
    let both = layers.both.count_cell(cell);
    colour(first, second, both) + 1 + (layers.all.count_cell(cell) - 1) / QUARTER
}

/// Returns the colour of most pixels.
#[tactic(auto, unfolding(crate::specs::Drawing::main_colour))]
fn colour(first: u64, second: u64, both: u64) -> u64
    ensures value { result ≡ main_colour first second both }
    ensures colour { result < 9 }
{
    if first <= both && second <= both {
        BLACK
    } else if first <= second {
        ORANGE
    } else {
        BLUE
    }
}
