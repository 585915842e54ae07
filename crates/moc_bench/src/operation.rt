//! The operations that are timed.
use crate::random::Random;
use crate::schedule::{in_rounds, in_turn};
use anyhow::Result;
use moc_ranges::Coverage;
use moc_sphere::{Cell, Order};
use moc_steps::{Step, replay};
use moc_text::{read_ascii, write_ascii, write_json};
use std::alloc::{AllocError, Global};

/// An operation that is timed.
#[derive(Clone, Copy)]
pub enum Operation {
    ReadAscii,
    Count,
    Union,
    Intersection,
    Difference,
    Symmetric,
    Complement,
    Degrade(u8),
    WriteAscii,
    WriteJson,
    Ring(u8),
    Nest(u8),
    Near(u8),
    /// Touching cells of cells at the south-western border of a base pixel.
    Border(u8),
    /// Steps by clients one after another.
    Turns,
    /// Steps in rounds of a number of clients.
    Rounds(u32),
}

/// The input of operations.
#[derive(Drop)]
pub struct Input<'a> {
    text: &'a [u8],
    a: Coverage,
    b: Coverage,
    cells: Vec<u64>,
    steps: Vec<Step>,
}

impl<'a> Input<'a> {
    /// The coverages of the first two lines, and the number of numbers or operations, which is in millions by default.
    pub fn new(
        alloc: Global,
        operation: Operation,
        count: Option<u32>,
        text: &'a [u8],
    ) -> Result<Input<'a>> {
        let mut lines = text.split(|byte| *byte == b'\n');
        let text = lines.next().unwrap_or(&[]);
        let (a, _) = read_ascii(alloc, text)?;
        let (b, _) = read_ascii(alloc, lines.next().unwrap_or(&[]))?;
        Ok(Input {
            text,
            a,
            b,
            cells: operation.cells(alloc, count)?,
            steps: operation.steps(alloc, count)?,
        })
    }
}

impl Operation {
    pub fn from_name(word: &str) -> Option<Operation> {
        match word {
            "read_a" => Some(Operation::ReadAscii),
            "count" => Some(Operation::Count),
            "union" => Some(Operation::Union),
            "intersection" => Some(Operation::Intersection),
            "difference" => Some(Operation::Difference),
            "symmetric" => Some(Operation::Symmetric),
            "complement" => Some(Operation::Complement),
            "degrade10" => Some(Operation::Degrade(10)),
            "degrade13" => Some(Operation::Degrade(13)),
            "write_ascii" => Some(Operation::WriteAscii),
            "write_json" => Some(Operation::WriteJson),
            "ring13" => Some(Operation::Ring(13)),
            "ring29" => Some(Operation::Ring(29)),
            "nest13" => Some(Operation::Nest(13)),
            "nest29" => Some(Operation::Nest(29)),
            "near13" => Some(Operation::Near(13)),
            "near29" => Some(Operation::Near(29)),
            "border13" => Some(Operation::Border(13)),
            "border29" => Some(Operation::Border(29)),
            "turns" => Some(Operation::Turns),
            "rounds10" => Some(Operation::Rounds(10)),
            "rounds1000" => Some(Operation::Rounds(1_000)),
            "rounds100000" => Some(Operation::Rounds(100_000)),
            _ => None,
        }
    }

    /// The given number of cell numbers of the order: by default ten million, or a million for touching cells.
    fn cells(self, alloc: Global, count: Option<u32>) -> Result<Vec<u64>, AllocError> {
        match self {
            Operation::Ring(order) | Operation::Nest(order) => {
                random_cells(alloc, order, count.unwrap_or(10_000_000))
            }
            Operation::Near(order) => random_cells(alloc, order, count.unwrap_or(1_000_000)),
            Operation::Border(order) => border_cells(alloc, order, count.unwrap_or(1_000_000)),
            _ => Ok(Vec::new(alloc)),
        }
    }

    /// The steps of a schedule with the given number of operations, of five steps each: by default a million steps.
    fn steps(self, alloc: Global, count: Option<u32>) -> Result<Vec<Step>> {
        let operations = count.unwrap_or(200_000);
        match self {
            Operation::Turns => in_turn(alloc, operations),
            Operation::Rounds(clients) => in_rounds(alloc, operations, clients),
            _ => Ok(Vec::new(alloc)),
        }
    }
}

/// Random cell numbers of an order.
fn random_cells(alloc: Global, order: u8, count: u32) -> Result<Vec<u64>, AllocError> {
    let mut cells = Vec::new(alloc);
    let Some(order) = Order::new(order) else {
        return Ok(cells);
    };
    let all = order.cell_count();
    let mut random = Random::new();
    for _ in 0..count {
        cells.push(random.below(all))?;
    }
    Ok(cells)
}

/// Numbers of cells of an order with x = 0 in a base pixel: at its border.
fn border_cells(alloc: Global, order: u8, count: u32) -> Result<Vec<u64>, AllocError> {
    let mut cells = Vec::new(alloc);
    let Some(order) = Order::new(order) else {
        return Ok(cells);
    };
    let side = order.nside();
    let mut random = Random::new();
    for _ in 0..count {
        let face = u8::try_from(random.below(12)).unwrap_or(0);
        let y = u32::try_from(random.below(side)).unwrap_or(0);
        if let Ok(cell) = Cell::from_face_xy(order, face, 0, y) {
            cells.push(cell.index())?;
        }
    }
    Ok(cells)
}

/// Executes the operation once, and returns its checksum.
pub fn answer(alloc: Global, operation: Operation, input: &Input<'_>) -> Result<u64> {
    let Input {
        text,
        a,
        b,
        cells,
        steps,
    } = input;
    Ok(match operation {
        Operation::ReadAscii => read_ascii(alloc, text)?.0.count(),
        Operation::Count => a.count(),
        Operation::Union => a.union(alloc, b)?.count(),
        Operation::Intersection => a.intersection(alloc, b)?.count(),
        Operation::Difference => a.difference(alloc, b)?.count(),
        Operation::Symmetric => a.symmetric(alloc, b)?.count(),
        Operation::Complement => a.complement(alloc)?.count(),
        Operation::Degrade(order) => match Order::new(order) {
            Some(order) => a.degrade(alloc, order)?.count(),
            None => 0,
        },
        Operation::WriteAscii => write_ascii(alloc, a, None)?.len() as u64,
        Operation::WriteJson => write_json(alloc, a, None)?.len() as u64,
        Operation::Ring(order) => rings(order, cells),
        Operation::Nest(order) => nests(order, cells),
        Operation::Near(order) | Operation::Border(order) => touching(alloc, order, cells),
        Operation::Turns | Operation::Rounds(_) => {
            let world = replay(alloc, &Coverage::empty(alloc), steps)?;
            world.order().len() as u64
        }
    })
}

/// Returns the sum of the ring indices of nested indices.
fn rings(order: u8, cells: &[u64]) -> u64 {
    let Some(order) = Order::new(order) else {
        return 0;
    };
    let mut sum = 0u64;
    for index in cells {
        if let Ok(cell) = Cell::new(order, *index) {
            sum = sum.wrapping_add(cell.ring());
        }
    }
    sum
}

/// Returns the sum of the nested indices of ring indices.
fn nests(order: u8, cells: &[u64]) -> u64 {
    let Some(order) = Order::new(order) else {
        return 0;
    };
    let mut sum = 0u64;
    for ring in cells {
        if let Ok(cell) = Cell::from_ring(order, *ring) {
            sum = sum.wrapping_add(cell.index());
        }
    }
    sum
}

/// Returns the sum of the indices of the cells that touch cells.
fn touching(alloc: Global, order: u8, cells: &[u64]) -> u64 {
    let Some(order) = Order::new(order) else {
        return 0;
    };
    let mut sum = 0u64;
    for index in cells {
        if let Ok(cell) = Cell::new(order, *index) {
            for near in cell.touching(alloc).as_slice() {
                sum = sum.wrapping_add(*near);
            }
        }
    }
    sum
}
