//! One or two sets of pixels as an SVG picture.
ghost use Rattle.std.specs.Prelude.{◌≡◌, ◌++◌, ◌<◌, ◌≤◌, ◌*◌, ◌^◌, ◌==◌, IfOk, OnOk, option_map};
ghost use Rattle.std.specs.String.{string_bytes};
ghost use Rattle.std.specs.List.{filter, flat_map, range_with_len};
ghost use Rattle.moc_sphere.specs.CellNumber.{cell_number};
ghost use Rattle.moc_sphere.specs.Rings.{column_of, row_of};
ghost use Rattle.moc_forms.specs.Drawing.{cell_diamonds, diamond, diamonds_at, group_head, label, labels, labels_at};
ghost use Rattle.moc_forms.specs.Drawing.{mark_diamonds, outlines, path_head, picture_head, picture_of};
ghost use Rattle.moc_forms.specs.Drawing.{picture_of_two, shades, three_colours, tone_path};

use crate::legend::{PictureNames, push_legend, push_legend_of_two, tone_colour};
use crate::marks::{BLACK, BLUE, Layers, ORANGE, marks};
use crate::texts::push_count;
use moc_ranges::{Coverage, Memory};
use moc_sphere::{Cell, Order};
use std::alloc::{AllocError, Global};

/// The width of the sky in half steps of order 7.
const WIDTH: u64 = 1024;

/// The height of a picture of one set.
const HEIGHT: u64 = 656;

/// The height of a picture of two sets.
const HEIGHT_OF_TWO: u64 = 712;

/// Returns a picture of a set as SVG: the HEALPix projection, 1024 half steps of order 7 wide and 512 high, north up
/// and east to the left, longitude 0 at both edges. Each cell of the set of order 7 or less is a diamond of the darkest
/// of four shades of blue. A cell of order 7 that the set contains in part has the shade of its share: up to a quarter
/// of its pixels, up to a half, up to three quarters, or more.
/// The sky is grey, with the outlines and the numbers of the base pixels under the cells. A legend explains the shades,
/// and has the name of the set, if there is one. In a name, a byte that is not printable ASCII is drawn as `?`.
///
/// # Errors
/// Fails with `Memory` if an allocation fails.
///
/// # Complexity
/// Time of `Coverage::cells`, a few passes over the cells, and a few searches in O(log n) for each cell of order 7 that
/// the set meets.
///
/// # Memory
/// Proportional to the number of the set's cells.
///
/// # Source
/// Górski et al. 2005, the HEALPix projection.
pub fn draw(alloc: Global, set: &Coverage, name: Option<&str>) -> Result<String, Memory>
    ensures { IfOk result (λ t. string_bytes t ≡ picture_of set.now (option_map (λ n. n.now) name.entry)) }
{
    let layers = Layers::of_one(alloc, set)?;
    let marks = marks(alloc, &layers)?;
    let mut text = String::new(alloc);
    push_sky(&mut text, HEIGHT)?;
    push_shades(&mut text, &marks, BLUE)?;
    text.push_str("</g>\n")?;
    push_legend(&mut text, name)?;
    text.push_str("</svg>\n")?;
    Ok(text)
}

/// Returns a picture of two sets as SVG, in the projection of `draw`, with four shades of each of three colours: blue
/// for the pixels of the first set only, orange for the second only, and black for both. Each cell of one colour of
/// order 7 or less is a diamond of the darkest shade. Any other cell of order 7 with pixels has the colour of most of
/// its pixels. Of colours with equally many pixels, it has black, then orange. It has the shade of its share that is in
/// any of the sets. A legend explains colours and shades, and has the names of the sets, if there are any.
///
/// # Errors
/// Fails with `Memory` if an allocation fails.
///
/// # Complexity
/// Time of a union, two differences and an intersection, and a few times the time of `draw`.
///
/// # Memory
/// Proportional to the number of cells of these sets.
pub fn draw_two(
    alloc: Global,
    first: &Coverage,
    second: &Coverage,
    names: PictureNames<'_>,
) -> Result<String, Memory>
    ensures { IfOk result (λ t. string_bytes t ≡ picture_of_two first.now second.now names.entry) }
{
    let layers = Layers::of_two(alloc, first, second)?;
    let marks = marks(alloc, &layers)?;
    let mut text = String::new(alloc);
    push_sky(&mut text, HEIGHT_OF_TWO)?;
    push_three_colours(&mut text, &marks)?;
    text.push_str("</g>\n")?;
    push_legend_of_two(&mut text, names)?;
    text.push_str("</svg>\n")?;
    Ok(text)
}

/// Appends what is below the cells, and the start of the group of cells.
fn push_sky(text: &mut String, height: u64) -> Result<(), AllocError>
    ensures { OnOk result (string_bytes text.new
        ≡ string_bytes text.old ++ (picture_head height ++ outlines ++ labels ++ group_head)) }
{
    push_head(text, height)?;
    push_outlines(text)?;
    push_labels(text)?;
    push_mirror(text)
}

/// Appends the title, the bounds of the projection and the background of a picture of a height.
fn push_head(text: &mut String, height: u64) -> Result<(), AllocError>
    ensures { OnOk result (string_bytes text.new ≡ string_bytes text.old ++ picture_head height) }
{
    push_count(
        text,
        "<svg xmlns=\"http://www.w3.org/2000/svg\" viewBox=\"-40 -40 1104 ",
        height,
    )?;
    text.push_str(
        "\">\n<title>Sky coverage</title>\n<clipPath id=\"plane\"><path d=\"M0 0h1024v512H0z\"/></clipPath>\n",
    )?;
    push_count(
        text,
        "<rect x=\"-40\" y=\"-40\" width=\"1104\" height=\"",
        height,
    )?;
    text.push_str("\" fill=\"#fff\"/>\n")?;
    Ok(())
}

/// Appends the start of the group of cells, which is mirrored.
fn push_mirror(text: &mut String) -> Result<(), AllocError>
    ensures { OnOk result (string_bytes text.new ≡ string_bytes text.old ++ group_head) }
{
    text.push_str(
        "<g transform=\"translate(1024 0) scale(-1 1)\" clip-path=\"url(#plane)\" shape-rendering=\"crispEdges\">\n",
    )
}

/// Appends the marks in three colours.
#[tactic(auto, unfolding(crate::specs::Drawing::three_colours))]
fn push_three_colours(text: &mut String, marks: &[(Cell, u64)]) -> Result<(), AllocError>
    ensures { OnOk result (string_bytes text.new ≡ string_bytes text.old ++ three_colours marks.now) }
{
    push_shades(text, marks, BLUE)?;
    push_shades(text, marks, ORANGE)?;
    push_shades(text, marks, BLACK)
}

/// Appends the marks in the shades of a colour.
#[tactic(auto, unfolding(crate::specs::Drawing::shades))]
fn push_shades(text: &mut String, marks: &[(Cell, u64)], colour: u64) -> Result<(), AllocError>
    requires { colour < 9 }
    ensures { OnOk result (string_bytes text.new ≡ string_bytes text.old ++ shades marks.now colour) }
{
    push_tone(text, marks, colour + 1)?;
    push_tone(text, marks, colour + 2)?;
    push_tone(text, marks, colour + 3)?;
    push_tone(text, marks, colour + 4)
}

/// Appends the path of the marks of a tone.
fn push_tone(text: &mut String, marks: &[(Cell, u64)], tone: u64) -> Result<(), AllocError>
    requires { 0 < tone × tone < 13 }
    ensures { OnOk result (string_bytes text.new ≡ string_bytes text.old ++ tone_path marks.now tone) }
{
    push_path_head(text, tone_colour(tone))?;
    push_marks(text, marks, tone)?;
    text.push_str("\"/>\n")?;
    Ok(())
}

/// Appends the start of a path of cells in a colour.
fn push_path_head(text: &mut String, colour: &str) -> Result<(), AllocError>
    ensures { OnOk result (string_bytes text.new ≡ string_bytes text.old ++ path_head colour.now) }
{
    text.push_str("<path fill=\"")?;
    text.push_str(colour)?;
    text.push_str("\" stroke=\"")?;
    text.push_str(colour)?;
    text.push_str("\" vector-effect=\"non-scaling-stroke\" d=\"")?;
    Ok(())
}

/// Appends the diamonds of the marks of a tone.
#[tactic(auto, unfolding(crate::specs::Drawing::mark_diamonds))]
fn push_marks(text: &mut String, marks: &[(Cell, u64)], tone: u64) -> Result<(), AllocError>
    ensures { OnOk result (string_bytes text.new
        ≡ string_bytes text.old ++ mark_diamonds (filter (λ m. m.1 == tone) marks.now)) }
{
    for (cell, number) in marks {
        if *number == tone {
            push_cell(text, *cell)?;
        }
    }
    Ok(())
}

/// Appends the sky: the outlined base pixels.
fn push_outlines(text: &mut String) -> Result<(), AllocError>
    ensures { OnOk result (string_bytes text.new ≡ string_bytes text.old ++ outlines) }
{
    text.push_str("<path fill=\"#eee\" stroke=\"#bbb\" clip-path=\"url(#plane)\" d=\"")?;
    push_base_pixels(text)?;
    text.push_str("\"/>\n")?;
    Ok(())
}

/// Appends the diamonds of the base pixels.
fn push_base_pixels(text: &mut String) -> Result<(), AllocError>
    ensures { OnOk result (string_bytes text.new
        ≡ string_bytes text.old ++ flat_map (λ f. cell_diamonds (cell_number 0 f)) (range_with_len 0 12)) }
{
    for face in 0..12 {
        push_cell(text, Cell::of(Order::of(0), face))?;
    }
    Ok(())
}

/// Appends the diamonds of a cell of order 7 or less.
#[tactic(auto, unfolding(crate::specs::Drawing::cell_diamonds))]
fn push_cell(text: &mut String, cell: Cell) -> Result<(), AllocError>
    ensures { OnOk result (string_bytes text.new ≡ string_bytes text.old ++ cell_diamonds cell) }
{
    let (row, column) = cell.row_column();
    let half = 1 << 7u8.saturating_sub(cell.order().get());
    push_diamonds(text, half, row, column)
}

/// Appends the diamonds at a row and a column, which count in steps of half a diamond's width.
#[tactic(auto, unfolding(crate::specs::Drawing::diamonds_at))]
fn push_diamonds(text: &mut String, half: u64, row: u64, column: u64) -> Result<(), AllocError>
    requires half { half ≤ 128 }
    requires row { 0 < row × row < 4 * 2 ^ 29 }
    requires column { column < 8 * 2 ^ 29 }
    ensures { OnOk result (string_bytes text.new ≡ string_bytes text.old ++ diamonds_at half row column) }
{
    push_diamond(text, half, column * half, row * half)?;
    if column == 0 {
        push_diamond(text, half, WIDTH, row * half)?;
    }
    Ok(())
}

/// Appends a diamond around a centre.
#[tactic(auto, unfolding(crate::specs::Drawing::diamond))]
fn push_diamond(text: &mut String, half: u64, x: u64, y: u64) -> Result<(), AllocError>
    requires { half ≤ y }
    ensures { OnOk result (string_bytes text.new ≡ string_bytes text.old ++ diamond half x y) }
{
    push_count(text, "M", x)?;
    push_count(text, " ", y - half)?;
    push_count(text, "l", half)?;
    push_count(text, " ", half)?;
    push_count(text, "-", half)?;
    push_count(text, " ", half)?;
    push_count(text, "-", half)?;
    push_count(text, "-", half)?;
    text.push('z')
}

/// Appends the numbers of the base pixels.
fn push_labels(text: &mut String) -> Result<(), AllocError>
    ensures { OnOk result (string_bytes text.new ≡ string_bytes text.old ++ labels) }
{
    text.push_str(
        "<g font-family=\"sans-serif\" font-size=\"20\" text-anchor=\"middle\" fill=\"#bbb\">\n",
    )?;
    push_numbers(text)?;
    text.push_str("</g>\n")?;
    Ok(())
}

/// Appends a label for each base pixel.
fn push_numbers(text: &mut String) -> Result<(), AllocError>
    ensures { OnOk result (string_bytes text.new
        ≡ string_bytes text.old ++ flat_map (λ f. labels_at f (row_of 0 f) (column_of 0 f)) (range_with_len 0 12)) }
{
    for face in 0..12 {
        let (row, column) = Cell::of(Order::of(0), face).row_column();
        push_labels_at(text, face, row, column)?;
    }
    Ok(())
}

/// Appends the number of a base pixel in a row and a column. Columns count from the right.
#[tactic(auto, unfolding(crate::specs::Drawing::labels_at))]
fn push_labels_at(text: &mut String, face: u64, row: u64, column: u64) -> Result<(), AllocError>
    requires row { row < 4 }
    requires column { column < 8 }
    ensures { OnOk result (string_bytes text.new ≡ string_bytes text.old ++ labels_at face row column) }
{
    let y = row * 128 + 7;
    if column == 0 {
        push_label(text, face, 16, y)?;
        push_label(text, face, WIDTH - 16, y)
    } else {
        push_label(text, face, WIDTH - column * 128, y)
    }
}

/// Appends a number at a position.
#[tactic(auto, unfolding(crate::specs::Drawing::label))]
fn push_label(text: &mut String, number: u64, x: u64, y: u64) -> Result<(), AllocError>
    ensures { OnOk result (string_bytes text.new ≡ string_bytes text.old ++ label number x y) }
{
    push_count(text, "<text x=\"", x)?;
    push_count(text, "\" y=\"", y)?;
    push_count(text, "\">", number)?;
    text.push_str("</text>\n")
}
