//! Schedules of many steps.
use crate::random::Random;
use anyhow::{Result, bail};
use moc_parts::{Batch, Command, Operand, Part};
use moc_ranges::Coverage;
use moc_sphere::{Cell, Order};
use moc_steps::Step;
use std::alloc::Global;

/// The number of clients that come one after another.
const CLIENTS: u32 = 1_000;

/// The order of the cells that commands add and count.
const ORDER: u8 = 5;

/// The number of cells of order 5 in a base pixel.
const CELLS: u64 = 1 << 10;

/// Returns the steps of this number of operations, by a thousand clients in turn, one after another.
pub fn in_turn(alloc: Global, operations: u32) -> Result<Vec<Step>> {
    let mut random = Random::new();
    let mut steps = Vec::new(alloc);
    for at in 0..operations {
        let part = push_begin(alloc, &mut random, at % CLIENTS, &mut steps)?;
        push_work(at % CLIENTS, part, &mut steps)?;
        steps.push(Step::End {
            client: at % CLIENTS,
        })?;
    }
    Ok(steps)
}

/// Returns the steps of this number of operations, in rounds in which this number of clients begin; then each takes,
/// edits and gives back its part; all end together.
pub fn in_rounds(alloc: Global, operations: u32, clients: u32) -> Result<Vec<Step>> {
    let mut random = Random::new();
    let mut steps = Vec::new(alloc);
    for _ in 0..operations / clients.max(1) {
        let mut parts = Vec::new(alloc);
        for client in 0..clients {
            parts.push(push_begin(alloc, &mut random, client, &mut steps)?)?;
        }
        for (client, part) in (0..clients).zip(parts) {
            push_work(client, part, &mut steps)?;
        }
        for client in 0..clients {
            steps.push(Step::End { client })?;
        }
    }
    Ok(steps)
}

/// Begins an add or a count of a random cell, and returns its part.
fn push_begin(
    alloc: Global,
    random: &mut Random,
    client: u32,
    steps: &mut Vec<Step>,
) -> Result<Part> {
    let number = random.below(12 * CELLS);
    let set = match Order::new(ORDER) {
        Some(order) => Coverage::from_cell(alloc, Cell::new(order, number)?)?,
        None => Coverage::empty(alloc),
    };
    let operand = Operand { set, coarse: None };
    let command = match random.below(2) {
        0 => Command::Add(operand),
        _ => Command::Count(operand),
    };
    let batch = Batch::one(alloc, command)?;
    steps.push(Step::Begin { client, batch })?;
    let Some(part) = Part::new((number / CELLS) as u8) else {
        bail!("no part");
    };
    Ok(part)
}

/// Takes, edits and gives back a part.
fn push_work(client: u32, part: Part, steps: &mut Vec<Step>) -> Result<()> {
    steps.push(Step::Take { client })?;
    steps.push(Step::Edit { client, part })?;
    steps.push(Step::Give { client, part })?;
    Ok(())
}
