//! Compares cell numbers with tables of independent HEALPix libraries on standard input. A line `order nested ring`
//! gives both indices of a cell, for each cell of orders 0 to 4; they are compared both ways. A line `order cell:
//! cells` lists the cells that touch a cell, ascending, for each cell of orders 0 to 3. A line that begins with `#` is
//! a comment.
#![tactic(auto)]

use anyhow::{Result, bail};
use moc_sphere::{Cell, Order};
use std::alloc::Global;

/// Returns the cell with this order and nested index.
fn read_cell(order: Option<&str>, nested: Option<&str>) -> Option<Cell> {
    let order = Order::new(order?.parse().ok()?)?;
    Cell::new(order, nested?.parse().ok()?).ok()
}

/// Tests whether the line has both indices of a cell.
fn has_ring_number(line: &str) -> bool {
    let mut words = line.split_whitespace();
    let Some(cell) = read_cell(words.next(), words.next()) else {
        return false;
    };
    let ring: Option<u64> = words.next().and_then(|word| word.parse().ok());
    ring == Some(cell.ring()) && Cell::from_ring(cell.order(), cell.ring()) == Ok(cell)
}

/// Tests whether the words are these numbers, in this order.
fn are_words(words: &str, numbers: &[u64]) -> bool {
    let mut words = words.split_whitespace();
    for number in numbers {
        let word: Option<u64> = words.next().and_then(|word| word.parse().ok());
        if word != Some(*number) {
            return false;
        }
    }
    words.next().is_none()
}

/// Tests whether the words before a colon are a cell, and those after it the cells that touch it.
fn has_touching(before: &str, behind: &str, alloc: Global) -> bool {
    let mut words = before.split_whitespace();
    match read_cell(words.next(), words.next()) {
        Some(cell) => are_words(behind, cell.touching(alloc).as_slice()),
        None => false,
    }
}

/// Tests whether the numbers of a line are equal to ours.
fn agrees(line: &str, alloc: Global) -> bool {
    match line.split_once(":") {
        Some((before, behind)) => has_touching(before, behind, alloc),
        None => has_ring_number(line),
    }
}

fn main(rt: HostRuntime) -> Result<()> {
    let mut rows = 0u64;
    for line in rt.lines(rt.alloc()) {
        let line = line?;
        if line.as_str().starts_with("#") {
            continue;
        }
        if !agrees(line.as_str(), rt.alloc()) {
            bail!("this row differs: {line}");
        }
        rows = rows.saturating_add(1);
    }
    println!(rt; "{rows} rows agree")?;
    Ok(())
}
