//! The legend of a picture, and the colours of its tones.
ghost use Rattle.std.specs.Prelude.{◌≡◌, ◌++◌, ◌<◌, OnOk, option_map};
ghost use Rattle.std.specs.String.{string_bytes};
ghost use Rattle.moc_forms.specs.Drawing.{legend, legend_head, legend_of_two, legend_row, square};
ghost use Rattle.moc_forms.specs.Drawing.{tone_colour as colour_of_tone, xml_byte, xml_name, xml_text};

use crate::marks::{BLACK, BLUE, ORANGE};
use crate::texts::push_count;
use std::alloc::AllocError;

/// The names of the sets of a picture in its legend, if they have names.
#[derive(Clone, Copy, Debug, PartialEq, Eq)]
pub struct PictureNames<'a> {
    /// The name of the first set, or of the only one.
    pub first: Option<&'a str>,
    /// The name of the second set.
    pub second: Option<&'a str>,
}

/// The colours of the tones.
static TONE_COLOURS: [&str; 12] = [
    "#8cc0dc", "#5ea6cf", "#2e8bc0", "#0072b2", "#f4d48c", "#efc35e", "#ebb02e", "#e69f00",
    "#8c8c8c", "#5e5e5e", "#2e2e2e", "#000000",
];

/// Returns the colour of a tone.
#[tactic(auto, unfolding(crate::specs::Drawing::tone_colours))]
pub fn tone_colour(tone: u64) -> &'static str
    requires { 0 < tone × tone < 13 }
    ensures { result.now ≡ colour_of_tone tone }
{
    TONE_COLOURS[tone as usize - 1]
}

/// Appends the legend of one set.
#[tactic(auto, unfolding(crate::specs::Drawing::legend))]
pub fn push_legend(text: &mut String, name: Option<&str>) -> Result<(), AllocError>
    ensures { OnOk result (string_bytes text.new
        ≡ string_bytes text.old ++ legend (option_map (λ n. n.now) name.entry)) }
{
    push_legend_head(text, "of a cell of order 7")?;
    push_row(text, 580, BLUE, name, "covered")?;
    text.push_str("</g>\n")?;
    Ok(())
}

/// Appends the legend of two sets.
#[tactic(auto, unfolding(crate::specs::Drawing::legend_of_two))]
pub fn push_legend_of_two(text: &mut String, names: PictureNames<'_>) -> Result<(), AllocError>
    ensures { OnOk result (string_bytes text.new ≡ string_bytes text.old ++ legend_of_two names.entry) }
{
    push_legend_head(
        text,
        "of a cell of order 7; its colour is that of most of its covered pixels",
    )?;
    push_row(text, 580, BLUE, names.first, "first only")?;
    push_row(text, 608, ORANGE, names.second, "second only")?;
    push_row(text, 636, BLACK, None, "both")?;
    text.push_str("</g>\n")?;
    Ok(())
}

/// Appends the start of a legend: the directions east and west, and the meaning of the shades.
fn push_legend_head(text: &mut String, meaning: &str) -> Result<(), AllocError>
    ensures { OnOk result (string_bytes text.new ≡ string_bytes text.old ++ legend_head meaning.now) }
{
    text.push_str(
        "<g font-family=\"sans-serif\" font-size=\"20\" fill=\"#444\">\n<text x=\"-34\" y=\"263\">E</text>\n",
    )?;
    text.push_str("<text x=\"1036\" y=\"263\">W</text>\n<text x=\"0\" y=\"566\">up to</text>\n")?;
    text.push_str("<text x=\"60\" y=\"566\">1/4</text>\n<text x=\"100\" y=\"566\">1/2</text>\n")?;
    text.push_str(
        "<text x=\"140\" y=\"566\">3/4</text>\n<text x=\"180\" y=\"566\">1</text>\n<text x=\"216\" y=\"566\">",
    )?;
    text.push_str(meaning)?;
    text.push_str("</text>\n")?;
    Ok(())
}

/// Appends a row of a legend: the four shades of a colour, and the name or the default meaning of the colour.
fn push_row(
    text: &mut String,
    y: u64,
    colour: u64,
    name: Option<&str>,
    default: &str,
) -> Result<(), AllocError>
    requires position { y < 1000 }
    requires colour { colour < 9 }
    ensures { OnOk result (string_bytes text.new
        ≡ string_bytes text.old ++ legend_row y colour (xml_name (option_map (λ n. n.now) name.entry) default.now)) }
{
    push_square(text, 60, y, colour + 1)?;
    push_square(text, 100, y, colour + 2)?;
    push_square(text, 140, y, colour + 3)?;
    push_square(text, 180, y, colour + 4)?;
    push_count(text, "<text x=\"216\" y=\"", y + 15)?;
    text.push_str("\">")?;
    push_name(text, name, default)?;
    text.push_str("</text>\n")?;
    Ok(())
}

/// Appends a square of a tone at a position.
fn push_square(text: &mut String, x: u64, y: u64, tone: u64) -> Result<(), AllocError>
    requires { 0 < tone × tone < 13 }
    ensures { OnOk result (string_bytes text.new ≡ string_bytes text.old ++ square x y tone) }
{
    text.push_str("<path fill=\"")?;
    text.push_str(tone_colour(tone))?;
    push_count(text, "\" d=\"M", x)?;
    push_count(text, " ", y)?;
    text.push_str("h24v16h-24z\"/>\n")?;
    Ok(())
}

/// Appends a name, or the default text if there is none.
fn push_name(text: &mut String, name: Option<&str>, default: &str) -> Result<(), AllocError>
    ensures { OnOk result (string_bytes text.new
        ≡ string_bytes text.old ++ xml_name (option_map (λ n. n.now) name.entry) default.now) }
{
    match name {
        Some(name) => push_xml(text, name.as_bytes()),
        None => text.push_str(default),
    }
}

/// Appends the bytes of a name in XML.
#[tactic(auto, unfolding(crate::specs::Drawing::xml_text))]
fn push_xml(text: &mut String, bytes: &[u8]) -> Result<(), AllocError>
    ensures { OnOk result (string_bytes text.new ≡ string_bytes text.old ++ xml_text bytes.now) }
{
    for byte in bytes {
        push_xml_byte(text, *byte)?;
    }
    Ok(())
}

/// Appends a byte in XML.
fn push_xml_byte(text: &mut String, byte: u8) -> Result<(), AllocError>
    ensures { OnOk result (string_bytes text.new ≡ string_bytes text.old ++ xml_byte byte) }
{
    if byte == b'&' {
        text.push_str("&amp;")
    } else if byte == b'<' {
        text.push_str("&lt;")
    } else if byte == b'>' {
        text.push_str("&gt;")
    } else if byte == b'"' {
        text.push_str("&quot;")
    } else if (b' '..=b'~').contains(&byte) {
        text.push(char::from(byte))
    } else {
        text.push('?')
    }
}
