//! The cells beyond the sides and vertices of a base pixel. The base pixels of the north cap are numbered 0 to 3, those
//! of the equator 4 to 7, and those of the south cap 8 to 11, each four from west to east. `last` is the greatest
//! coordinate.

ghost use Rattle.moc_sphere.specs.Private.Sides.{IsBeside, IsBeyondEast, IsBeyondNorth, IsBeyondNorthEast};
ghost use Rattle.moc_sphere.specs.Private.Sides.{IsBeyondNorthWest, IsBeyondSouth, IsBeyondSouthEast};
ghost use Rattle.moc_sphere.specs.Private.Sides.{IsBeyondSouthWest, IsBeyondWest};
ghost use Rattle.std.specs.Prelude.{◌≡◌, ℕ, ◌+◌, ◌<◌, ◌≤◌, ◌^◌, MatchOption};
ghost use Rattle.moc_sphere.specs.CellNumber.{base_pixel_count, max_order};

/// A base pixel, and the coordinates (x, y) of a cell in it.
#[derive(Clone, Copy)]
pub struct FaceXy {
    pub face: u32,
    pub x: u32,
    pub y: u32,
}

impl FaceXy {
    /// Returns the given coordinates in the given base pixel.
    pub fn new(face: u32, x: u32, y: u32) -> FaceXy
        ensures { result ≡ record { face = face; x = x; y = y } }
    {
        FaceXy { face, x, y }
    }
}

/// Returns the cell across the north-eastern side, `along` steps from the eastern end of this side.
fn beyond_north_east(last: u32, face: u32, along: u32) -> FaceXy
    requires { face < base_pixel_count }
    ensures { IsBeyondNorthEast last face along result.face result.x result.y }
{
    if face < 4 {
        FaceXy::new((face + 1) % 4, along, last)
    } else if face < 8 {
        FaceXy::new(face - 4, 0, along)
    } else {
        FaceXy::new(4 + (face + 1) % 4, 0, along)
    }
}

/// Returns the cell across the south-western side, `along` steps from the southern end of this side.
fn beyond_south_west(last: u32, face: u32, along: u32) -> FaceXy
    requires { face < base_pixel_count }
    ensures { IsBeyondSouthWest last face along result.face result.x result.y }
{
    if face < 4 {
        FaceXy::new(face + 4, last, along)
    } else if face < 8 {
        FaceXy::new(8 + (face + 3) % 4, last, along)
    } else {
        FaceXy::new(8 + (face + 3) % 4, along, 0)
    }
}

/// Returns the cell across the north-western side, `along` steps from the western end of this side.
fn beyond_north_west(last: u32, face: u32, along: u32) -> FaceXy
    requires { face < base_pixel_count }
    ensures { IsBeyondNorthWest last face along result.face result.x result.y }
{
    if face < 4 {
        FaceXy::new((face + 3) % 4, last, along)
    } else if face < 8 {
        FaceXy::new((face + 3) % 4, along, 0)
    } else {
        FaceXy::new(face - 4, along, 0)
    }
}

/// Returns the cell across the south-eastern side, `along` steps from the southern end of this side.
fn beyond_south_east(last: u32, face: u32, along: u32) -> FaceXy
    requires { face < base_pixel_count }
    ensures { IsBeyondSouthEast last face along result.face result.x result.y }
{
    if face < 4 {
        FaceXy::new(4 + (face + 1) % 4, along, last)
    } else if face < 8 {
        FaceXy::new(face + 4, along, last)
    } else {
        FaceXy::new(8 + (face + 1) % 4, 0, along)
    }
}

/// Returns the cell across the northern vertex, or `None` if no base pixel touches there.
fn beyond_north(last: u32, face: u32) -> Option<FaceXy>
    requires { face < base_pixel_count }
    ensures { MatchOption result
        ((g z w : ℕ) → IsBeyondNorth last face g z w → ⊥)
        (λ to. IsBeyondNorth last face to.face to.x to.y) }
{
    if face < 4 {
        Some(FaceXy::new((face + 2) % 4, last, last))
    } else if face < 8 {
        None
    } else {
        Some(FaceXy::new(face - 8, 0, 0))
    }
}

/// Returns the cell across the southern vertex, or `None` if no base pixel touches there.
fn beyond_south(last: u32, face: u32) -> Option<FaceXy>
    requires { face < base_pixel_count }
    ensures { MatchOption result
        ((g z w : ℕ) → IsBeyondSouth last face g z w → ⊥)
        (λ to. IsBeyondSouth last face to.face to.x to.y) }
{
    if face < 4 {
        Some(FaceXy::new(face + 8, last, last))
    } else if face < 8 {
        None
    } else {
        Some(FaceXy::new(8 + (face + 2) % 4, 0, 0))
    }
}

/// Returns the cell across the eastern vertex, or `None` if no base pixel touches there.
fn beyond_east(last: u32, face: u32) -> Option<FaceXy>
    requires { face < base_pixel_count }
    ensures { MatchOption result
        ((g z w : ℕ) → IsBeyondEast last face g z w → ⊥)
        (λ to. IsBeyondEast last face to.face to.x to.y) }
{
    if 4 <= face && face < 8 {
        Some(FaceXy::new(4 + (face + 1) % 4, 0, last))
    } else {
        None
    }
}

/// Returns the cell across the western vertex, or `None` if no base pixel touches there.
fn beyond_west(last: u32, face: u32) -> Option<FaceXy>
    requires { face < base_pixel_count }
    ensures { MatchOption result
        ((g z w : ℕ) → IsBeyondWest last face g z w → ⊥)
        (λ to. IsBeyondWest last face to.face to.x to.y) }
{
    if 4 <= face && face < 8 {
        Some(FaceXy::new(4 + (face + 3) % 4, last, 0))
    } else {
        None
    }
}

/// Returns the cell that a step of `a - 1` in x and `b - 1` in y leads to, or `None` at a vertex where only three base
/// pixels meet. `n` is the number of cells along a side of a base pixel.
pub(crate) fn beside(n: u32, from: FaceXy, a: u32, b: u32) -> Option<FaceXy>
    requires some { 0 < n }
    requires bounded { n ≤ 2 ^ max_order }
    requires face { from.face < base_pixel_count }
    requires x { from.x < n }
    requires y { from.y < n }
    requires a_small { a < 3 }
    requires b_small { b < 3 }
    ensures { MatchOption result ((g z w : ℕ) → IsBeside n from.face (from.x + a) (from.y + b) g z w → ⊥)
        (λ to. IsBeside n from.face (from.x + a) (from.y + b) to.face to.x to.y) }
{
    let s = from.x + a;
    let t = from.y + b;
    let face = from.face;
    let last = n - 1;
    if s == 0 {
        if t == 0 {
            beyond_south(last, face)
        } else if t > n {
            beyond_west(last, face)
        } else {
            Some(beyond_south_west(last, face, t - 1))
        }
    } else if s > n {
        if t == 0 {
            beyond_east(last, face)
        } else if t > n {
            beyond_north(last, face)
        } else {
            Some(beyond_north_east(last, face, t - 1))
        }
    } else if t == 0 {
        Some(beyond_south_east(last, face, s - 1))
    } else if t > n {
        Some(beyond_north_west(last, face, s - 1))
    } else {
        Some(FaceXy::new(face, s - 1, t - 1))
    }
}
