//! The cells that touch a cell, which HEALPix calls its neighbours.
ghost use Rattle.smallvec.specs.SmallVec.{small_vec_len};
ghost use Rattle.moc_sphere.specs.CellNumber.{base_pixel_count, cell_number, IsCell};
ghost use Rattle.moc_sphere.specs.Faces.{IsAt, x_of, y_of};
ghost use Rattle.moc_sphere.specs.Private.Spread.{spread_of};
ghost use Rattle.moc_sphere.specs.Touching.{IsNeighbour, Touches, healpy_index, touching_cells};
ghost use Rattle.moc_sphere.specs.Private.Sides.{IsAtStep};
ghost use Rattle.moc_sphere.specs.declared.direction.Direction.{Direction};
ghost use Rattle.std.specs.List.Sorted.{IsStrictlyIncreasing};
ghost use Rattle.std.specs.Prelude.{◌≡◌, ℕ, ◌-◌, ◌<◌, ◌≤◌, ◌^◌, ◌↔◌, All, Contains, IfSome, MatchOption, get_or, map};

use crate::ascending::{insert_sorted, sums_around};
use crate::bits::{spread_decrement, spread_increment};
use crate::cell::Cell;
use crate::direction::Direction;
use crate::sides::{FaceXy, beside};
use smallvec::SmallVec;
use std::alloc::Global;

impl Cell {
    /// Returns the indices of the cells that share a corner point with this cell, in ascending order. HEALPix calls
    /// these cells its neighbours. There are 8 of them, or 7 at a vertex where three base pixels meet, or 6 at order 0.
    ///
    /// Takes a constant number of steps and does not allocate.
    pub fn touching(self, alloc: Global) -> SmallVec<u64, 8>
        ensures ascending { IsStrictlyIncreasing result.items }
        ensures touch { (j : ℕ) → Contains result.items j ↔ Touches self.order self.index j }

        // The result is the list of the definition.
        ensures whole { result.items ≡ touching_cells self.order self.index }

        // Touching is symmetric.
        ensures back { (j : ℕ) → Contains result.items j → Touches self.order j self.index }

        ensures bounded { small_vec_len result ≤ 8 }
        ensures inline { result.capacity ≡ 8 }
    {
        let (x, y, last) = self.spread_xy();
        if 0 < x && x < last && 0 < y && y < last {
            return touching_in_face(self, x, y, alloc);
        }
        let (face, x, y) = self.face_xy();
        touching_across(self, face, x, y, alloc)
    }

    /// Returns the cells that share a corner point with this cell, in ascending order: the cells of the indices that
    /// `touching` returns. Takes a constant number of steps and does not allocate.
    pub fn touching_cells(self, alloc: Global) -> SmallVec<Cell, 8>
        ensures whole { result.items ≡ map (cell_number self.order) (touching_cells self.order self.index) }
        ensures touch { All (λ c. (c.order ≡ self.order) × Touches self.order self.index c.index) result.items }
        ensures bounded { small_vec_len result ≤ 8 }
        ensures inline { result.capacity ≡ 8 }
    {
        let order = self.order();
        let mut cells = SmallVec::new(alloc);
        for index in self.touching(alloc).as_slice() {
            cells.push_reserved(Cell::of(order, *index));
        }
        cells
    }

    /// Returns the neighbour in a direction, or `None` at a corner where only three cells meet. Takes a constant number
    /// of steps.
    pub fn neighbour(self, direction: Direction) -> Option<Cell>
        ensures found { IfSome result
            (λ c. (c.order ≡ self.order) × IsNeighbour self.order direction self.index c.index) }
        ensures only { (j : ℕ) → IsNeighbour self.order direction self.index j
            → result ≡ Some (cell_number self.order j) }
        ensures touch { IfSome result (λ c. Touches self.order self.index c.index) }
    {
        let (face, x, y) = self.face_xy();
        neighbour_of(self, FaceXy::new(u32::from(face), x, y), direction)
    }

    /// Returns the neighbours in all directions, in healpy's order: south-west, west, north-west, north, north-east,
    /// east, south-east, south. Each entry is the result of `neighbour`. Takes a constant number of steps.
    pub fn neighbours(self) -> [Option<Cell>; 8]
        ensures found { (d : Direction) → IfSome (get_or result (healpy_index d) None)
            (λ c. (c.order ≡ self.order) × IsNeighbour self.order d self.index c.index) }
        ensures only { (d : Direction) (j : ℕ) → IsNeighbour self.order d self.index j
            → get_or result (healpy_index d) None ≡ Some (cell_number self.order j) }
        ensures touch { All (λ cell. IfSome cell (λ c. Touches self.order self.index c.index)) result }
    {
        let (face, x, y) = self.face_xy();
        let from = FaceXy::new(u32::from(face), x, y);
        [
            neighbour_of(self, from, Direction::SouthWest),
            neighbour_of(self, from, Direction::West),
            neighbour_of(self, from, Direction::NorthWest),
            neighbour_of(self, from, Direction::North),
            neighbour_of(self, from, Direction::NorthEast),
            neighbour_of(self, from, Direction::East),
            neighbour_of(self, from, Direction::SouthEast),
            neighbour_of(self, from, Direction::South),
        ]
    }
}

/// Returns the neighbour in a direction of the cell at `from`.
fn neighbour_of(cell: Cell, from: FaceXy, direction: Direction) -> Option<Cell>
    requires face { from.face < base_pixel_count }
    requires place { IsAt cell from.face from.x from.y }
    requires x { from.x < 2 ^ cell.order }
    requires y { from.y < 2 ^ cell.order }
    ensures found { IfSome result (λ c. (c.order ≡ cell.order) × IsNeighbour cell.order direction cell.index c.index) }
    ensures only { (j : ℕ) → IsNeighbour cell.order direction cell.index j → result ≡ Some (cell_number cell.order j) }
    ensures touch { IfSome result (λ c. Touches cell.order cell.index c.index) }
{
    at_step(cell, from, direction.step())
}

/// Returns the cell one step from the cell at `from`, or `None` if no cell is there. The nine steps are numbered by x
/// and then by y; step 4 leads to the cell itself.
fn at_step(cell: Cell, from: FaceXy, step: u32) -> Option<Cell>
    requires face { from.face < base_pixel_count }
    requires place { IsAt cell from.face from.x from.y }
    requires x { from.x < 2 ^ cell.order }
    requires y { from.y < 2 ^ cell.order }
    requires step { step < 9 }
    ensures { MatchOption result ((j : ℕ) → ¬ IsAtStep cell.order cell.index step j)
        (λ to. (to.order ≡ cell.order) × IsAtStep cell.order cell.index step to.index) }
{
    let order = cell.order();
    let to = beside(order.nside() as u32, from, step / 3, step % 3)?;
    Some(Cell::at_place(order, to.face as u8, to.x, to.y))
}

/// Returns the indices of the cells that touch a cell inside its base pixel. Requires the spread bits of x and y; the
/// cell is not on the border of the base pixel.
#[inline]
fn touching_in_face(cell: Cell, x: u64, y: u64, alloc: Global) -> SmallVec<u64, 8>
    requires cell { IsCell cell }
    requires x { x ≡ spread_of 32 (x_of cell.order cell.index) }
    requires y { y ≡ spread_of 32 (y_of cell.order cell.index) }
    requires x_above { 0 < x }
    requires x_below { x < spread_of 32 (2 ^ cell.order - 1) }
    requires y_above { 0 < y }
    requires y_below { y < spread_of 32 (2 ^ cell.order - 1) }
    ensures ascending { IsStrictlyIncreasing result.items }
    ensures touch { (j : ℕ) → Contains result.items j ↔ Touches cell.order cell.index j }
    ensures bounded { small_vec_len result ≤ 8 }
    ensures inline { result.capacity ≡ 8 }
{
    let digits = 2 * cell.order().get();
    let first = (cell.index() >> digits) << digits;
    let across = [
        first + spread_decrement(x),
        first + x,
        first + spread_increment(x),
    ];
    let up = [2 * spread_decrement(y), 2 * y, 2 * spread_increment(y)];
    SmallVec::from_buf(alloc, sums_around(across, up))
}

/// Returns the indices of the cells that touch the cell at x and y of a base pixel, in any base pixels.
fn touching_across(cell: Cell, face: u8, x: u32, y: u32, alloc: Global) -> SmallVec<u64, 8>
    requires face { face < base_pixel_count }
    requires place { IsAt cell face x y }
    requires x { x < 2 ^ cell.order }
    requires y { y < 2 ^ cell.order }
    ensures ascending { IsStrictlyIncreasing result.items }
    ensures touch { (j : ℕ) → Contains result.items j ↔ Touches cell.order cell.index j }
    ensures bounded { small_vec_len result ≤ 8 }
    ensures inline { result.capacity ≡ 8 }
{
    let from = FaceXy::new(u32::from(face), x, y);
    let mut cells = SmallVec::new(alloc);
    for step in 0u32..9 {
        if step != 4 {
            if let Some(near) = at_step(cell, from, step) {
                insert_sorted(&mut cells, near.index());
            }
        }
    }
    cells
}
