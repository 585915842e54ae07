//! The commands of pieces of lines.
ghost use Rattle.std.specs.Prelude.{◌≡◌, false, IfSome, Ok};
ghost use Rattle.moc_parts.specs.CellCommands.{command_on_cell};
ghost use Rattle.moc_lines.specs.Language.{coverage_of, order_of, plain_operand_of, operand_of, invert_of, degrade_of};
ghost use Rattle.moc_lines.specs.Language.{near_of, command_named, command_with, command_of, ParsesAs};
ghost use Rattle.moc_lines.specs.Private.CellLines.{action_of_word};
ghost use Rattle.moc_lines.specs.Private.Verbs.{verb_command, word_command, near_command};

use crate::error::LineError;
use crate::fields::{only_field, two_fields};
use crate::words::{is_blank_text, is_word, parse_decimal, split_word, without_blanks};
use moc_parts::{CellAction, CellCommand, Command, Operand};
use moc_ranges::Coverage;
use moc_sphere::{Cell, Order};
use moc_text::{only_cell, read_ascii};
use std::alloc::Global;

/// Parses a coverage in the ASCII format.
fn read_coverage(alloc: Global, text: &[u8]) -> Result<Coverage, LineError>
    ensures { ParsesAs (λ set. set) result (coverage_of text.now) }
{
    match read_ascii(alloc, text) {
        Ok((set, _)) => Ok(set),
        Err(error) => Err(LineError::of_text(error)),
    }
}

/// Parses an order.
fn read_order(field: &[u8]) -> Result<Order, LineError>
    ensures { result ≡ order_of field.now }
{
    let number = parse_decimal(field).ok_or(LineError::BadNumber)?;
    let Ok(order) = Order::try_from(number) else {
        return Err(LineError::OrderTooLarge);
    };
    Ok(order)
}

/// Parses an operand without an order: a coverage.
fn read_plain(alloc: Global, text: &[u8]) -> Result<Operand, LineError>
    ensures { ParsesAs (λ operand. operand) result (plain_operand_of text.now) }
{
    let set = read_coverage(alloc, text)?;
    Ok(Operand { set, coarse: None })
}

/// Returns whether the first word of a text begins with `@`.
fn has_order(text: &[u8]) -> bool
    ensures { result ≡ false → operand_of text.now ≡ plain_operand_of text.now }
{
    matches!(without_blanks(text), [b'@', ..])
}

/// Parses an operand: `@` and an order before a coverage, or a coverage alone.
fn read_operand(alloc: Global, text: &[u8]) -> Result<Operand, LineError>
    ensures { ParsesAs (λ operand. operand) result (operand_of text.now) }
{
    if has_order(text) {
        read_ordered(alloc, text)
    } else {
        read_plain(alloc, text)
    }
}

/// Parses an operand, as [`read_operand`] does. The function is separate, because each call initializes the stack of a
/// whole function: an operand without an order needs less of it.
#[inline(never)]
fn read_ordered(alloc: Global, text: &[u8]) -> Result<Operand, LineError>
    ensures { ParsesAs (λ operand. operand) result (operand_of text.now) }
{
    let (word, following) = split_word(text);
    match word {
        [b'@', field @ ..] => {
            let order = read_order(field)?;
            let set = read_coverage(alloc, following)?;
            Ok(Operand {
                set,
                coarse: Some(order),
            })
        }
        _ => read_plain(alloc, text),
    }
}

/// Parses the rest of `invert`: no field.
fn read_invert(text: &[u8]) -> Result<Command, LineError>
    ensures { result ≡ invert_of text.now }
{
    if is_blank_text(text) {
        Ok(Command::Invert)
    } else {
        Err(LineError::WrongCount)
    }
}

/// Parses the rest of `degrade`: exactly one field, an order.
fn read_degrade(text: &[u8]) -> Result<Command, LineError>
    ensures { result ≡ degrade_of text.now }
{
    let field = only_field(text)?;
    let order = read_order(field)?;
    Ok(Command::Degrade(order))
}

/// Parses the command `near` from its two fields: the order and the index of its cell.
fn read_cell(order: &[u8], index: &[u8]) -> Result<Command, LineError>
    ensures { result ≡ near_command order.now index.now }
{
    let depth = parse_decimal(order).ok_or(LineError::BadNumber)?;
    let index = parse_decimal(index).ok_or(LineError::BadNumber)?;
    let Ok(order) = Order::try_from(depth) else {
        return Err(LineError::OrderTooLarge);
    };
    match Cell::new(order, index) {
        Ok(cell) => Ok(Command::Near(cell)),
        Err(_) => Err(LineError::CellTooLarge),
    }
}

/// Parses the rest of `near`: exactly two fields, an order and the index of a cell.
fn read_near(text: &[u8]) -> Result<Command, LineError>
    ensures { result ≡ near_of text.now }
{
    let (order, index) = two_fields(text)?;
    read_cell(order, index)
}

/// The word of a command that takes an operand.
#[derive(Clone, Copy)]
enum Verb {
    Add,
    Remove,
    Keep,
    Claim,
    Count,
    Read,
}

impl Verb {
    /// Returns the verb with this name, or `None` if there is no such verb.
    fn from_word(word: &[u8]) -> Option<Verb>
        ensures { command_named word.now ≡ word_command result }
    {
        if is_word(word, "add") {
            Some(Verb::Add)
        } else if is_word(word, "remove") {
            Some(Verb::Remove)
        } else if is_word(word, "keep") {
            Some(Verb::Keep)
        } else if is_word(word, "claim") {
            Some(Verb::Claim)
        } else if is_word(word, "count") {
            Some(Verb::Count)
        } else if is_word(word, "read") {
            Some(Verb::Read)
        } else {
            None
        }
    }

    /// Returns the command of this verb with an operand.
    fn of(self, operand: Operand) -> Command
        ensures { result ≡ verb_command self operand }
    {
        match self {
            Verb::Add => Command::Add(operand),
            Verb::Remove => Command::Remove(operand),
            Verb::Keep => Command::Keep(operand),
            Verb::Claim => Command::Claim(operand),
            Verb::Count => Command::Count(operand),
            Verb::Read => Command::Read(operand),
        }
    }
}

/// Parses the command with this word: its operand is the text after the word.
fn read_with_operand(alloc: Global, word: &[u8], text: &[u8]) -> Result<Command, LineError>
    ensures { ParsesAs (λ command. command) result (command_with operand_of word.now text.now) }
{
    let Some(verb) = Verb::from_word(word) else {
        return Err(LineError::UnknownWord);
    };
    let operand = read_operand(alloc, text)?;
    Ok(verb.of(operand))
}

/// Returns the action on a cell of a command with this word, or `None` if no command with this word can be on a cell.
fn cell_action(word: &[u8]) -> Option<CellAction>
    ensures { result ≡ action_of_word word.now }
{
    if is_word(word, "add") {
        Some(CellAction::Add)
    } else if is_word(word, "remove") {
        Some(CellAction::Remove)
    } else if is_word(word, "claim") {
        Some(CellAction::Claim)
    } else if is_word(word, "count") {
        Some(CellAction::Count)
    } else {
        None
    }
}

/// Returns the command of a piece of a line if it is one on a single cell. Returns `None` for any other piece.
#[tactic(auto, using(crate::proofs::CellLines::command_on_cell_of))]
pub(crate) fn cell_command(piece: &[u8]) -> Option<CellCommand>
    ensures { IfSome result (λ c. command_of piece.now ≡ Ok (command_on_cell c)) }
{
    let (word, text) = split_word(piece);
    let action = cell_action(word)?;
    if has_order(text) {
        return None;
    }
    let cell = only_cell(text)?;
    Some(CellCommand { action, cell })
}

/// Parses the command of a piece of a line.
pub(crate) fn read_command(alloc: Global, piece: &[u8]) -> Result<Command, LineError>
    ensures { ParsesAs (λ command. command) result (command_of piece.now) }
{
    let (word, text) = split_word(piece);
    if is_word(word, "invert") {
        read_invert(text)
    } else if is_word(word, "degrade") {
        read_degrade(text)
    } else if is_word(word, "near") {
        read_near(text)
    } else {
        read_with_operand(alloc, word, text)
    }
}
