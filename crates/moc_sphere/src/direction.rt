//! The directions from a cell to its neighbours.
ghost use Rattle.std.specs.Prelude.{◌≡◌, ◌≢◌, ◌/◌, ◌%◌, ◌<◌};
ghost use Rattle.moc_sphere.specs.Touching.{corners_of};
ghost use Rattle.moc_sphere.specs.Private.Sides.{corners_of_step};

/// The direction from a cell to a neighbour. A cell is a diamond: it has sides to the north-east, north-west,
/// south-west and south-east, and corners to the north, east, south and west. The order of the variants is that of
/// `ALL`.
#[derive(Clone, Copy, Debug, PartialEq, Eq, PartialOrd, Ord, Hash)]
pub enum Direction {
    SouthWest,
    West,
    NorthWest,
    North,
    NorthEast,
    East,
    SouthEast,
    South,
}

impl Direction {
    /// All directions, in healpy's order.
    pub const ALL: [Direction; 8] = [
        Direction::SouthWest,
        Direction::West,
        Direction::NorthWest,
        Direction::North,
        Direction::NorthEast,
        Direction::East,
        Direction::SouthEast,
        Direction::South,
    ];

    /// Returns the number of the step in this direction. The nine steps are numbered by x and then by y.
    pub(crate) fn step(self) -> u32
        ensures small { result < 9 }
        // Step 4 leads to the cell itself.
        ensures away { result ≢ 4 }
        ensures corners { corners_of_step (result / 3) (result % 3) ≡ corners_of self }
    {
        match self {
            Direction::SouthWest => 1,
            Direction::West => 2,
            Direction::NorthWest => 5,
            Direction::North => 8,
            Direction::NorthEast => 7,
            Direction::East => 6,
            Direction::SouthEast => 3,
            Direction::South => 0,
        }
    }
}
