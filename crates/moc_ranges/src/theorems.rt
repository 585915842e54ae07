//! Theorems on coverages and their cells. Each function does nothing; its contract states the theorem.
ghost use Rattle.moc_ranges.specs.Theorems.{NormalListIsUnique, CellsAreCells, CellsFillTheSet, CellsAscend};
ghost use Rattle.moc_ranges.specs.Theorems.{ComplementTwiceIsTheSet, PixelsAreCells};

/// A set has at most one normal list of ranges.
pub fn normal_list_is_unique()
    ensures { NormalListIsUnique }
{}

/// The cells of a set are valid cells.
pub fn cells_are_cells()
    ensures { CellsAreCells }
{}

/// The cells of a set have exactly the pixels of the set.
pub fn cells_fill_the_set()
    ensures { CellsFillTheSet }
{}

/// The cells of a set are in ascending NUNIQ.
pub fn cells_ascend()
    ensures { CellsAscend }
{}

/// The complement of the complement of a set is the set.
pub fn complement_twice_is_the_set()
    ensures { ComplementTwiceIsTheSet }
{}

/// The pixels are the cells of order 29, and a base pixel has the pixels of a cell of order 0.
pub fn pixels_are_cells()
    ensures { PixelsAreCells }
{}
