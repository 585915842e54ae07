//! Commands on the cells of an array or on a set of a store, without a line of text.
ghost use Rattle.std.specs.Prelude.{◌≡◌, IfSome};
ghost use Rattle.std.specs.FinSet as set;
ghost use Rattle.moc_c.specs.Answers.{set_at};
ghost use Rattle.moc_c.specs.Commands.{CallsWithCells, CallsWithSet, command_on, ExecutesCommand, number_of_reply};
ghost use Rattle.moc_c.specs.Commands.{value_of_reply};
ghost use Rattle.moc_c.specs.Private.CellCommands.{ActsOnCells, ExecutesOnCell, IsCellCommand};
ghost use Rattle.moc_c.specs.Sharing.{IsAfter, member_of_handle};
ghost use Rattle.moc_c.specs.declared.commands.Verb.TheVariants.{Add, Claim, Contains, Count, Remove};

use crate::arrays::{only_cell, set_of_cells};
use crate::call_result::CallResult;
use crate::client_handle::ClientHandle;
use crate::client_state::ClientState;
use crate::error::CallError;
use crate::member::Member;
use crate::store::Store;
use crate::table::CoverageTable;
use moc_parts::{CellAction, CellCommand, Command, Operand, Reply};
use moc_ranges::Coverage;
use moc_sphere::Order;
use std::alloc::Global;

/// What a command does with a set.
#[derive(Clone, Copy)]
pub enum Verb {
    /// Adds the set.
    Add,
    /// Removes the set.
    Remove,
    /// Adds the set if the map has no pixel of it.
    Claim,
    /// Counts the pixels that the map has in common with the set.
    Count,
    /// Tests whether the map has all pixels of the set.
    Contains,
}

impl Verb {
    /// Returns the command on a set.
    fn command(self, set: Coverage) -> Command
        ensures { result ≡ command_on self set }
    {
        let operand = Operand::from(set);
        match self {
            Verb::Add => Command::Add(operand),
            Verb::Remove => Command::Remove(operand),
            Verb::Claim => Command::Claim(operand),
            Verb::Count | Verb::Contains => Command::Count(operand),
        }
    }

    /// Returns what the command does with one cell, or `None` if its value depends on the size of the cell.
    fn cell_action(self) -> Option<CellAction>
        ensures { IfSome result (ActsOnCells self) }
    {
        match self {
            Verb::Add => Some(CellAction::Add),
            Verb::Remove => Some(CellAction::Remove),
            Verb::Claim => Some(CellAction::Claim),
            Verb::Count => Some(CellAction::Count),
            Verb::Contains => None,
        }
    }

    /// Returns the value of the reply to the command on a set with this number of pixels.
    fn value_of_reply(self, pixels: u64, reply: &Reply) -> u64
        ensures { result ≡ value_of_reply self pixels reply.now }
    {
        let number = number_of_reply(reply);
        match self {
            Verb::Contains => u64::from(number == pixels),
            _ => number,
        }
    }
}

/// Returns the number of pixels that a reply states, and 0 if it states none.
fn number_of_reply(reply: &Reply) -> u64
    ensures { result ≡ number_of_reply reply.now }
{
    match reply {
        Reply::Changed(pixels) | Reply::Taken(pixels) | Reply::Total(pixels) => *pixels,
        Reply::Claimed | Reply::Cover(_) | Reply::Near(_) => 0,
    }
}

/// Returns the command on one cell, if there is one index, it is that of a cell, and the value of the command does not
/// depend on the size of the cell.
fn cell_command(verb: Verb, order: u8, cells: &[u64]) -> Option<CellCommand>
    ensures { IfSome result (IsCellCommand verb order cells.now) }
{
    let [index] = cells else {
        return None;
    };
    let action = verb.cell_action()?;
    let Ok(cell) = only_cell(Order::new(order)?, *index) else {
        return None;
    };
    Some(CellCommand { action, cell })
}

impl Member {
    /// Executes a command on a set, and returns the value of its reply.
    fn execute(&mut self, verb: Verb, set: Coverage) -> CallResult
        ensures after { IsAfter self.old self.new }
        ensures executed { ExecutesCommand self.old self.new verb set result }
    {
        let pixels = set.count();
        match self.answer(&verb.command(set)) {
            Ok(reply) => CallResult::number(verb.value_of_reply(pixels, &reply)),
            Err(error) => CallResult::of(CallError::from(error)),
        }
    }

    /// Executes a command on one cell, and returns the number of its reply.
    fn execute_on_cell(&mut self, command: &CellCommand) -> CallResult
        ensures after { IsAfter self.old self.new }
        ensures executed { ExecutesOnCell self.old self.new command.now result }
    {
        match self.answer_cell(command) {
            Ok(reply) => CallResult::number(number_of_reply(&reply)),
            Err(error) => CallResult::of(CallError::from(error)),
        }
    }
}

impl ClientState {
    /// Executes a command on the cells of an order with these indices, and returns the value of its reply.
    fn answer_cells(&mut self, alloc: Global, verb: Verb, order: u8, cells: &[u64]) -> CallResult
        ensures { CallsWithCells verb self.old self.new order cells.now result }
    {
        if let Some(command) = cell_command(verb, order, cells) {
            if let Some(member) = &mut self.member {
                return member.execute_on_cell(&command);
            }
        }
        self.answer_set_of_cells(alloc, verb, order, cells)
    }

    /// Executes a command as `answer_cells` does, but makes the set of the cells. The function is separate because each
    /// call initializes the stack of a whole function, and a command on one cell needs less of it.
    #[inline(never)]
    fn answer_set_of_cells(
        &mut self,
        alloc: Global,
        verb: Verb,
        order: u8,
        cells: &[u64],
    ) -> CallResult
        ensures { CallsWithCells verb self.old self.new order cells.now result }
    {
        let Some(member) = &mut self.member else {
            return CallResult::of(CallError::NoMap);
        };
        let Some(order) = Order::new(order) else {
            return CallResult::of(CallError::NoSuchOrder { order });
        };
        match set_of_cells(alloc, order, cells) {
            Ok(set) => member.execute(verb, set),
            Err(error) => CallResult::of(error),
        }
    }

    /// Executes a command on the set at an id, and returns the value of its reply.
    fn answer_set(&mut self, alloc: Global, verb: Verb, table: &CoverageTable, a: u64) -> CallResult
        ensures { CallsWithSet verb self.old self.new (member_of_handle self.old) (set_at table.now a) result }
    {
        let Some(member) = &mut self.member else {
            return CallResult::of(CallError::NoMap);
        };
        let set = match table.set(a) {
            Ok(set) => set,
            Err(error) => return CallResult::of(error),
        };
        match set.try_copy(alloc) {
            Ok(set) => member.execute(verb, set),
            Err(_) => CallResult::of(CallError::Memory),
        }
    }
}

/// Adds the cells of an order with these nested indices to the map. Returns the number of pixels of order 29 that were
/// added. Does not wait, and keeps the replies to the last line.
///
/// # Errors
/// Fails if the handle has no client, for an order above 29, or for the first index that is not a cell of the order.
/// Fails if another client holds a part in which a cell is, or if an allocation fails. The map is unchanged then.
///
/// # Complexity
/// Usually O(log n) for one cell in a part of n ranges, and at most O(n). If another set shares the list of the part,
/// as after `moc_map_coverage`, a pointer and a number for each node of the list are copied first.
#[unsafe(no_mangle)]
pub extern "C" fn moc_map_add(
    alloc: Global,
    client_handle: &mut ClientHandle,
    order: u8,
    cells: &[u64],
) -> CallResult
    ensures { CallsWithCells Add client_handle.old.contents client_handle.new.contents order cells.now result }
{
    client_handle
        .client_state()
        .answer_cells(alloc, Verb::Add, order, cells)
}

/// Removes the cells of an order with these nested indices from the map. Returns the number of pixels that were
/// removed. As `moc_map_add`.
#[unsafe(no_mangle)]
pub extern "C" fn moc_map_remove(
    alloc: Global,
    client_handle: &mut ClientHandle,
    order: u8,
    cells: &[u64],
) -> CallResult
    ensures { CallsWithCells Remove client_handle.old.contents client_handle.new.contents order cells.now result }
{
    client_handle
        .client_state()
        .answer_cells(alloc, Verb::Remove, order, cells)
}

/// Adds the cells of an order with these nested indices to the map if no pixel of them is in the map. Returns the
/// number of their pixels that are in the map, and 0 if the claim succeeded. As `moc_map_add`.
#[unsafe(no_mangle)]
pub extern "C" fn moc_map_claim(
    alloc: Global,
    client_handle: &mut ClientHandle,
    order: u8,
    cells: &[u64],
) -> CallResult
    ensures { CallsWithCells Claim client_handle.old.contents client_handle.new.contents order cells.now result }
{
    client_handle
        .client_state()
        .answer_cells(alloc, Verb::Claim, order, cells)
}

/// Returns the number of pixels that the map has in the cells of an order with these nested indices. As `moc_map_add`,
/// but the map does not change.
#[unsafe(no_mangle)]
pub extern "C" fn moc_map_count(
    alloc: Global,
    client_handle: &mut ClientHandle,
    order: u8,
    cells: &[u64],
) -> CallResult
    ensures { CallsWithCells Count client_handle.old.contents client_handle.new.contents order cells.now result }
{
    client_handle
        .client_state()
        .answer_cells(alloc, Verb::Count, order, cells)
}

/// Returns 1 if the map has all pixels of the cells of an order with these nested indices, and 0 if not. As
/// `moc_map_count`.
#[unsafe(no_mangle)]
pub extern "C" fn moc_map_contains(
    alloc: Global,
    client_handle: &mut ClientHandle,
    order: u8,
    cells: &[u64],
) -> CallResult
    ensures { CallsWithCells Contains client_handle.old.contents client_handle.new.contents order cells.now result }
{
    client_handle
        .client_state()
        .answer_cells(alloc, Verb::Contains, order, cells)
}

/// Adds the set at an id of a store to the map. Returns the number of pixels that were added. Does not wait, and keeps
/// the replies to the last line.
///
/// # Errors
/// Fails if the handle has no client, or if the id has no set. Fails if another client holds a part that the set meets,
/// or part 0 if the set is empty, or if an allocation fails. The map is unchanged then.
///
/// # Complexity
/// The set is copied, which shares its ranges. Then a constant number of passes over its ranges and over those of the
/// parts that it meets. A set of one range in one part is added as by `moc_map_add`.
#[unsafe(no_mangle)]
pub extern "C" fn moc_map_add_coverage(
    alloc: Global,
    client_handle: &mut ClientHandle,
    store: &mut Store,
    a: u64,
) -> CallResult
    ensures call { CallsWithSet Add client_handle.old.contents client_handle.new.contents
        (member_of_handle client_handle.old.contents) (set_at store.old.contents a) result }
    ensures same { store.new.contents ≡ store.old.contents }
{
    let table = store.table();
    client_handle
        .client_state()
        .answer_set(alloc, Verb::Add, table, a)
}

/// Removes the set at an id of a store from the map. Returns the number of pixels that were removed. As
/// `moc_map_add_coverage`.
#[unsafe(no_mangle)]
pub extern "C" fn moc_map_remove_coverage(
    alloc: Global,
    client_handle: &mut ClientHandle,
    store: &mut Store,
    a: u64,
) -> CallResult
    ensures call { CallsWithSet Remove client_handle.old.contents client_handle.new.contents
        (member_of_handle client_handle.old.contents) (set_at store.old.contents a) result }
    ensures same { store.new.contents ≡ store.old.contents }
{
    let table = store.table();
    client_handle
        .client_state()
        .answer_set(alloc, Verb::Remove, table, a)
}

/// Adds the set at an id of a store to the map if the map has none of its pixels. Returns the number of its pixels that
/// the map has, and 0 if the claim succeeded. As `moc_map_add_coverage`.
#[unsafe(no_mangle)]
pub extern "C" fn moc_map_claim_coverage(
    alloc: Global,
    client_handle: &mut ClientHandle,
    store: &mut Store,
    a: u64,
) -> CallResult
    ensures call { CallsWithSet Claim client_handle.old.contents client_handle.new.contents
        (member_of_handle client_handle.old.contents) (set_at store.old.contents a) result }
    ensures same { store.new.contents ≡ store.old.contents }
{
    let table = store.table();
    client_handle
        .client_state()
        .answer_set(alloc, Verb::Claim, table, a)
}

/// Returns the number of pixels that the map has in the set at an id of a store. As `moc_map_add_coverage`, but the map
/// does not change.
#[unsafe(no_mangle)]
pub extern "C" fn moc_map_count_coverage(
    alloc: Global,
    client_handle: &mut ClientHandle,
    store: &mut Store,
    a: u64,
) -> CallResult
    ensures call { CallsWithSet Count client_handle.old.contents client_handle.new.contents
        (member_of_handle client_handle.old.contents) (set_at store.old.contents a) result }
    ensures same { store.new.contents ≡ store.old.contents }
{
    let table = store.table();
    client_handle
        .client_state()
        .answer_set(alloc, Verb::Count, table, a)
}

/// Returns 1 if the map has all pixels of the set at an id of a store, and 0 if not. As `moc_map_count_coverage`.
#[unsafe(no_mangle)]
pub extern "C" fn moc_map_contains_coverage(
    alloc: Global,
    client_handle: &mut ClientHandle,
    store: &mut Store,
    a: u64,
) -> CallResult
    ensures call { CallsWithSet Contains client_handle.old.contents client_handle.new.contents
        (member_of_handle client_handle.old.contents) (set_at store.old.contents a) result }
    ensures same { store.new.contents ≡ store.old.contents }
{
    let table = store.table();
    client_handle
        .client_state()
        .answer_set(alloc, Verb::Contains, table, a)
}
