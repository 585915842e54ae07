//! The answers of the step machine to lines.
ghost use Rattle.std.specs.Prelude.{◌≡◌, ◌++◌, ◌∷◌, [], IfOk, Ok, OnOk, codes, get_or};
ghost use Rattle.moc_steps.specs.Played.{entries_of, step_of};
ghost use Rattle.moc_script.specs.Schedules.{answer_to_step, begin_lines, done_text, end_text};
ghost use Rattle.moc_script.specs.Schedules.{name_of_refusal, schedule_rules, start_schedule, step_taken, with_step};

use crate::step::read_step;
use moc_lines::{
    LineError, Responder, is_blank_text, push_count, push_cover, push_error, push_reply_line,
};
use moc_parts::Replies;
use moc_ranges::{Coverage, Memory};
use moc_steps::{CoverError, Entry, Step, StepError, World};
use std::alloc::Global;
use std::marker::Model;

/// The step machine, the number of lines that were read, and for each operation the line that began it.
#[derive(Drop)]
pub(crate) struct Player {
    world: World,
    lines: u64,
    begins: Vec<u64>,
}

impl Model for Player {
    ghost use Rattle.moc_script.specs.Private.Codes.{schedule_code};
    ghost use Rattle.moc_script.specs.Schedules.{Schedule};

    ghost Value = { Schedule };

    ghost coded = { schedule_code };

    ghost view = { λ p. record { world = p.world; lines = p.lines; begins = p.begins.items } };
}

impl Player {
    /// Returns a machine whose set is empty, before the first line.
    pub(crate) fn new(alloc: Global) -> Result<Player, Memory>
        ensures { IfOk result (λ player. player ≡ start_schedule) }
    {
        Ok(Player {
            world: World::new(alloc, Coverage::empty(alloc))?,
            lines: 0,
            begins: Vec::new(alloc),
        })
    }

    /// Takes the step of the last line if it is permitted, and appends the answer.
    fn take(&mut self, alloc: Global, step: Step, text: &mut Vec<u8>) -> Result<(), Memory>
        ensures text { OnOk result (text.new.items ≡ text.old.items ++ answer_to_step self.old (Ok (step_of step))) }
        ensures after { OnOk result (self.new ≡ with_step self.old (step_taken self.old (Ok (step_of step)))) }
    {
        let is_begin = matches!(step, Step::Begin { .. });
        match self.world.step(step) {
            Ok(replies) => {
                if is_begin {
                    self.begins.push(self.lines)?;
                }
                push_permitted(alloc, replies, text)
            }
            Err(StepError::Memory) => Err(Memory),
            Err(why) => push_refused(why, text),
        }
    }
}

impl Responder for Player {
    ghost rules = { schedule_rules };

    fn answer_line(
        &mut self,
        alloc: Global,
        line: &[u8],
        text: &mut Vec<u8>,
    ) -> Result<(), Memory> {
        self.lines = self.lines.checked_add(1).ok_or(Memory)?;
        if is_blank_text(line) {
            return Ok(());
        }
        match read_step(alloc, line) {
            Ok(step) => self.take(alloc, step, text),
            Err(LineError::Memory) => Err(Memory),
            Err(error) => push_error(error.name(), text),
        }
    }

    fn close(&self, alloc: Global, text: &mut Vec<u8>) -> Result<(), Memory> {
        text.extend_from_slice(b"order")?;
        push_order(self.world.order(), &self.begins, text)?;
        text.extend_from_slice(b"\n")?;
        push_end(alloc, &self.world, text)?;
        text.extend_from_slice(b"\n")?;
        Ok(())
    }
}

/// Appends the answer to a permitted step.
fn push_permitted(alloc: Global, replies: Option<Replies>, text: &mut Vec<u8>) -> Result<(), Memory>
    ensures { OnOk result (text.new.items ≡ text.old.items ++ (done_text replies ++ 10 ∷ [])) }
{
    match replies {
        None => text.extend_from_slice(b"ok\n")?,
        Some(replies) => push_reply_line(alloc, replies.as_slice(), text)?,
    }
    Ok(())
}

/// Appends the answer to a refused step.
fn push_refused(why: StepError, text: &mut Vec<u8>) -> Result<(), Memory>
    ensures { OnOk result (text.new.items ≡ text.old.items ++ (codes "refused " ++ name_of_refusal why ++ 10 ∷ [])) }
{
    text.extend_from_slice(b"refused ")?;
    text.extend_from_slice(name_of_refusal(why).as_bytes())?;
    text.extend_from_slice(b"\n")?;
    Ok(())
}

/// Returns the name of the error of a refused step, without its numbers.
fn name_of_refusal(why: StepError) -> &'static str
    ensures { result.now ≡ name_of_refusal why }
{
    match why {
        StepError::NotIdle => "NotIdle",
        StepError::Idle => "Idle",
        StepError::PartHeld { .. } => "PartHeld",
        StepError::AllTaken => "AllTaken",
        StepError::NotAllTaken => "NotAllTaken",
        StepError::NotHeld => "NotHeld",
        StepError::AlreadyEdited => "AlreadyEdited",
        StepError::NotEdited => "NotEdited",
        StepError::BegunEditing => "BegunEditing",
        StepError::StillHolding => "StillHolding",
        StepError::NothingDone => "NothingDone",
        StepError::Quitting => "Quitting",
        StepError::Memory => "Memory",
        StepError::TooMany => "TooMany",
    }
}

/// Appends for each entry a space and the line that began its operation.
fn push_order(order: &[Entry], begins: &[u64], text: &mut Vec<u8>) -> Result<(), Memory>
    ensures { OnOk result (text.new.items ≡ text.old.items ++ begin_lines begins.now (entries_of order.now)) }
{
    for entry in order {
        push_count(b" ", begin_line(entry.begin, begins), text)?;
    }
    Ok(())
}

/// Returns the line that began this operation; 0 if there is none.
fn begin_line(operation: u64, begins: &[u64]) -> u64
    ensures { result ≡ get_or begins.now operation 0 }
{
    match usize::try_from(operation) {
        Ok(place) => begins.get(place).copied().unwrap_or(0),
        Err(_) => 0,
    }
}

/// Appends the set of the twelve parts, or the number of clients that are in the middle of a batch.
fn push_end(alloc: Global, world: &World, text: &mut Vec<u8>) -> Result<(), Memory>
    ensures { OnOk result (text.new.items ≡ text.old.items ++ end_text world.now) }
{
    match world.coverage() {
        Ok(set) => push_cover(alloc, &set, text),
        Err(CoverError::Midway { n }) => push_count(b"midway ", n as u64, text),
        Err(CoverError::Memory) => Err(Memory),
    }
}
