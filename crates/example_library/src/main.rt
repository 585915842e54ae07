//! A first program with the library: it parses texts, compares, counts and measures sets, grows one by its neighbours,
//! queries a map, and writes. It needs no proof by hand.
#![tactic(auto)]

use anyhow::{Result, bail};
use moc_forms::Statistics;
use moc_parts::{Command, Map, Operand, Reply};
use moc_ranges::{Coverage, CoverageBuilder, Memory, PIXEL_COUNT};
use moc_sphere::{Cell, Direction, Order};
use moc_text::{read_ascii, read_json, write_ascii, write_json};
use std::alloc::Global;

/// Returns the pixels of a cell and of the cells that touch it.
fn around(alloc: Global, cell: Cell) -> Result<Coverage, Memory> {
    let mut cells = CoverageBuilder::new(alloc);
    cells.add_cell(cell)?;
    cells.extend(cell.touching_cells(alloc))?;
    cells.build()
}

/// Prints a cell and its north-eastern neighbour as one set, and the cell's base pixel.
fn north_east(rt: &HostRuntime, cell: Cell) -> Result<()> {
    let alloc = rt.alloc();
    if let Some(next) = cell.neighbour(Direction::NorthEast) {
        let both = Coverage::from_cells(alloc, &[cell, next])?;
        println!(rt;
            "side by side: {}",
            write_ascii(alloc, &both, None)?.as_str()
        )?;
    }
    if let Some(base) = cell.ancestor(Order::default()) {
        println!(rt; "in cell {} of order {}", base.index(), base.order())?;
    }
    Ok(())
}

/// Prints a cell that is given by its nside and a number, and the statistics of two of its children.
fn family(rt: &HostRuntime) -> Result<()> {
    let alloc = rt.alloc();
    // The toolchain cannot prove `?` here: it has no rule for passing an error with a `&'static str` by value.
    let Ok(order) = Order::from_nside(8) else {
        bail!("not an nside")
    };
    let cell = Cell::new(order, 10)?;
    println!(rt;
        "{cell}: nside {}, base pixel {}",
        cell.order().nside(),
        cell.base_pixel()
    )?;
    if let Some(children) = cell.children() {
        let [first, second, _, _] = children;
        let both = Coverage::from_cells(alloc, &[first, second])?;
        println!(rt;
            "{first} {second}: order {}, ranges {}",
            both.deepest_order(),
            both.range_count()
        )?;
        print!(rt; "{}", Statistics::of(&both, None))?;
    }
    Ok(())
}

/// Prints the common pixels of two sets, and the number of pixels of the first.
fn compare(rt: &HostRuntime, ours: &Coverage, theirs: &Coverage) -> Result<()> {
    let alloc = rt.alloc();
    let common = ours.intersection(alloc, theirs)?;
    println!(rt;
        "in common: {}",
        write_ascii(alloc, &common, None)?.as_str()
    )?;
    println!(rt; "{} of {PIXEL_COUNT} pixels", ours.count())?;
    println!(rt;
        "a pixel of the last cell: {}",
        ours.contains(PIXEL_COUNT - 1)
    )?;
    Ok(())
}

/// Claims a set on a map, and prints how many of its pixels are taken.
fn claim(rt: &HostRuntime, ours: Coverage, theirs: Coverage) -> Result<()> {
    let alloc = rt.alloc();
    let mut map = Map::new(alloc, ours)?;
    let claim = Command::Claim(Operand::from(theirs));
    if let Reply::Taken(pixels) = map.answer(alloc, &claim)? {
        println!(rt; "taken: {pixels} pixels")?;
    }
    Ok(())
}

fn main(rt: HostRuntime) -> Result<()> {
    let alloc = rt.alloc();
    let (ours, _) = read_ascii(alloc, b"0/0 1/4-5")?;
    let (theirs, _) = read_json(alloc, b"{\"1\":[3,4,6,7],\"2\":[20,32]}")?;
    compare(&rt, &ours, &theirs)?;
    claim(&rt, ours, theirs)?;
    let cell = Cell::new(Order::new(2).unwrap_or_default(), 3)?;
    let grown = around(alloc, cell)?;
    println!(rt; "{}", write_json(alloc, &grown, None)?.as_str())?;
    north_east(&rt, cell)?;
    family(&rt)?;
    if let Err(error) = read_ascii(alloc, b"1/1-2 4 2/12-14x") {
        println!(rt; "{error}, so at {:?}", error.place())?;
    }
    Ok(())
}
