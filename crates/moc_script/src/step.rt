//! The steps of the lines of a schedule.
ghost use Rattle.std.specs.Prelude.{◌≡◌, ◌≤◌, SomeIff};
ghost use Rattle.moc_steps.specs.Played.{step_of};
ghost use Rattle.moc_lines.specs.Language.{ParsesAs, batch_of, command_of};
ghost use Rattle.moc_script.specs.Schedules.{begin_of, client_by, only_client, only_client_and_part, step_of_line};

use moc_lines::{
    LineError, is_blank_text, is_word, only_field, parse_decimal, read_batch, split_word,
    two_fields,
};
use moc_parts::Part;
use moc_steps::Step;
use std::alloc::Global;

/// Returns the client with this number, or `None` if the number has more than 32 bits.
fn client_of_number(number: u64) -> Option<u32>
    ensures { SomeIff result (number ≤ 4294967295) number }
{
    u32::try_from(number).ok()
}

/// Returns the part with this number, or `None` above 11.
fn part_of_number(number: u64) -> Option<Part>
    ensures { SomeIff result (number ≤ 11) number }
{
    Part::new(u8::try_from(number).ok()?)
}

/// Parses a client.
fn read_client(field: &[u8]) -> Result<u32, LineError>
    ensures { result ≡ client_by field.now }
{
    let number = parse_decimal(field).ok_or(LineError::BadNumber)?;
    let client = client_of_number(number).ok_or(LineError::ClientTooLarge)?;
    Ok(client)
}

/// Parses a client and a part: exactly two fields.
fn only_client_and_part(text: &[u8]) -> Result<(u32, Part), LineError>
    ensures { result ≡ only_client_and_part text.now }
{
    let (client, part) = two_fields(text)?;
    let client = parse_decimal(client).ok_or(LineError::BadNumber)?;
    let part = parse_decimal(part).ok_or(LineError::BadNumber)?;
    let client = client_of_number(client).ok_or(LineError::ClientTooLarge)?;
    let part = part_of_number(part).ok_or(LineError::PartTooLarge)?;
    Ok((client, part))
}

/// Parses a client: exactly one field.
fn only_client(text: &[u8]) -> Result<u32, LineError>
    ensures { result ≡ only_client text.now }
{
    let field = only_field(text)?;
    read_client(field)
}

/// Parses the rest of `begin`: a client, and a batch of commands.
fn read_begin(alloc: Global, text: &[u8]) -> Result<Step, LineError>
    ensures { ParsesAs step_of result (begin_of (batch_of command_of) text.now) }
{
    let (field, line) = split_word(text);
    if is_blank_text(line) {
        return Err(LineError::WrongCount);
    }
    let client = read_client(field)?;
    let batch = read_batch(alloc, line)?;
    Ok(Step::Begin { client, batch })
}

/// Parses the step of a line.
pub(crate) fn read_step(alloc: Global, line: &[u8]) -> Result<Step, LineError>
    ensures { ParsesAs step_of result (step_of_line line.now) }
{
    let (word, text) = split_word(line);
    if is_word(word, "begin") {
        read_begin(alloc, text)
    } else if is_word(word, "take") {
        let client = only_client(text)?;
        Ok(Step::Take { client })
    } else if is_word(word, "edit") {
        let (client, part) = only_client_and_part(text)?;
        Ok(Step::Edit { client, part })
    } else if is_word(word, "give") {
        let (client, part) = only_client_and_part(text)?;
        Ok(Step::Give { client, part })
    } else if is_word(word, "quit") {
        let client = only_client(text)?;
        Ok(Step::Quit { client })
    } else if is_word(word, "end") {
        let client = only_client(text)?;
        Ok(Step::End { client })
    } else {
        Err(LineError::UnknownWord)
    }
}
