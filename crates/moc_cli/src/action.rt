//! The action that the command line asks for.
ghost use Rattle.std.specs.Prelude.{IfSome, codes};
ghost use Rattle.moc_forms.specs.Combining.{operation_name};
ghost use Rattle.moc_forms.specs.Formats.{format_name};
ghost use Rattle.moc_lines.specs.Numberings.{numbering_name};
ghost use Rattle.moc_script.specs.Crews.{lane_count};
ghost use Rattle.moc_cli.specs.Requests.{HasChoice, HasNames, HasNumber, HasOrder, HasValue, SelectsAction};
ghost use Rattle.moc_cli.specs.Private.Matches.{IsRequestedIn, values_of};
ghost use Rattle.moc_cli.specs.declared.action.Action.TheVariants as action;

use clap::ArgMatches;
use moc_forms::{Change, Format, FormatChoice, Operation, PictureNames};
use moc_lines::{Numbering, Renumbering};
use moc_script::Lanes;
use moc_sphere::Order;
use std::str::FromStr;

/// An action of the program.
#[derive(Clone, Copy)]
pub enum Action<'a> {
    /// Run a script.
    Run,
    /// Play a schedule.
    Play,
    /// Run a script on several threads.
    Crew(Lanes),
    /// Convert a number.
    Number(NumberConversion),
    /// Convert cell numbers of an order, one a line, from one numbering to another.
    Renumber(Renumbering),
    /// Convert a coverage from one text format to another.
    Convert(Format, Format),
    /// Check whether a text is a valid coverage, and report the position of its first error.
    Check(FormatChoice),
    /// Print the statistics of a coverage.
    Describe(FormatChoice),
    /// Draw one coverage or two, with names.
    Draw(FormatChoice, PictureNames<'a>),
    /// Change a coverage.
    Change(Change, FormatChoice),
    /// Combine coverages.
    Combine(Operation, FormatChoice),
    /// List the exit statuses and the errors.
    Faults,
}

/// A number to convert.
#[derive(Clone, Copy)]
pub enum NumberConversion {
    /// A nested number, to its ring number.
    Ring(Order, u64),
    /// A ring number, to its nested number.
    Nest(Order, u64),
    /// A nested number, to its NUNIQ number.
    Uniq(Order, u64),
    /// A NUNIQ number, to its order and nested number.
    Cell(u64),
    /// A nested number, to those of the cells that touch the cell.
    Near(Order, u64),
}

impl<'a> Action<'a> {
    /// Returns the action of the matches, or `None` if a subcommand or a value is missing, which `clap` rules out.
    pub fn from_matches(matches: &ArgMatches<'a>) -> Option<Action<'a>>
        ensures { IfSome result (λ action. IsRequestedIn matches.now action) }
    {
        let (name, values) = matches.subcommand()?;
        match name {
            "run" => Some(Action::Run),
            "play" => Some(Action::Play),
            "crew" => Some(Action::Crew(lanes(values)?)),
            "renumber" => Some(Action::Renumber(renumbering(values)?)),
            "convert" => Some(Action::Convert(format(values, "FROM")?, format(values, "TO")?)),
            "check" => Some(Action::Check(choice(values)?)),
            "describe" => Some(Action::Describe(choice(values)?)),
            "draw" => Some(Action::Draw(choice(values)?, picture_names(values))),
            "degrade" => Some(Action::Change(Change::Degrade(order(values)?), choice(values)?)),
            "complement" => Some(Action::Change(Change::Complement, choice(values)?)),
            "combine" => Some(Action::Combine(operation(values)?, choice(values)?)),
            "faults" => Some(Action::Faults),
            _ => Some(Action::Number(NumberConversion::from_matches(name, values)?)),
        }
    }
}

impl NumberConversion {
    /// Returns the number of a subcommand and its values, or `None` if the subcommand does not convert a number or a
    /// value is missing.
    fn from_matches(name: &str, values: &ArgMatches<'_>) -> Option<NumberConversion>
        ensures { IfSome result (λ number. SelectsAction name.now (values_of values.now) (action.Number number)) }
    {
        if name == "cell" {
            return Some(NumberConversion::Cell(index(values, "UNIQ")?));
        }
        let order = order(values)?;
        match name {
            "ring" => Some(NumberConversion::Ring(order, index(values, "CELL")?)),
            "nest" => Some(NumberConversion::Nest(order, index(values, "RING")?)),
            "uniq" => Some(NumberConversion::Uniq(order, index(values, "CELL")?)),
            "near" => Some(NumberConversion::Near(order, index(values, "CELL")?)),
            _ => None,
        }
    }
}

/// Returns the format that the argument with this name selects.
fn format(values: &ArgMatches<'_>, id: &str) -> Option<Format>
    ensures { IfSome result (λ format. HasValue id.now (values_of values.now) (format_name format)) }
{
    Format::from_str(values.get_str(id)?).ok()
}

/// Returns the format to read in, or `Auto`.
fn choice(values: &ArgMatches<'_>) -> Option<FormatChoice>
    ensures { IfSome result (λ choice. HasChoice (values_of values.now) choice) }
{
    FormatChoice::from_str(values.get_str("FORM")?).ok()
}

/// Returns the names of the coverages of a picture.
fn picture_names<'a>(values: &ArgMatches<'a>) -> PictureNames<'a>
    ensures { HasNames (values_of values.now) result }
{
    PictureNames {
        first: values.get_str("FIRST"),
        second: values.get_str("SECOND"),
    }
}

/// Returns the operation on two sets.
fn operation(values: &ArgMatches<'_>) -> Option<Operation>
    ensures { IfSome result (λ operation. HasValue (codes "OP") (values_of values.now) (operation_name operation)) }
{
    Operation::from_str(values.get_str("OP")?).ok()
}

/// Returns the two numberings and the order.
fn renumbering(values: &ArgMatches<'_>) -> Option<Renumbering>
    ensures { IfSome result (λ r. SelectsAction (codes "renumber") (values_of values.now) (action.Renumber r)) }
{
    Some(Renumbering {
        from: numbering(values, "FROM")?,
        to: numbering(values, "TO")?,
        order: order(values)?,
    })
}

/// Returns the numbering that the argument with this name selects.
fn numbering(values: &ArgMatches<'_>, id: &str) -> Option<Numbering>
    ensures { IfSome result (λ numbering. HasValue id.now (values_of values.now) (numbering_name numbering)) }
{
    Numbering::from_str(values.get_str(id)?).ok()
}

/// Returns the number of lanes.
fn lanes(values: &ArgMatches<'_>) -> Option<Lanes>
    ensures { IfSome result (λ lanes. HasNumber (codes "N") (values_of values.now) (lane_count lanes)) }
{
    Lanes::new(values.get_one::<u8>("N")?)
}

/// Returns the order.
fn order(values: &ArgMatches<'_>) -> Option<Order>
    ensures { IfSome result (λ order. HasOrder (values_of values.now) order) }
{
    Order::new(values.get_one::<u8>("ORDER")?)
}

/// Returns the number in the argument with this name.
fn index(values: &ArgMatches<'_>, id: &str) -> Option<u64>
    ensures { IfSome result (λ n. HasNumber id.now (values_of values.now) n) }
{
    values.get_one::<u64>(id)
}
