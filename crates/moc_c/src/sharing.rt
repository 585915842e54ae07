//! A map that threads of C change and query at the same time, each through its own client handle.
ghost use Rattle.std.specs.Prelude.{◌≡◌, ◌∷◌, ℕ, List, [], IfOk, Ok};
ghost use Rattle.moc_parts.specs.CellCommands.{command_on_cell};
ghost use Rattle.moc_lines.specs.Language.{batch_of, command_of};
ghost use Rattle.moc_c.specs.Answers.{both, set_at};
ghost use Rattle.moc_c.specs.Sharing.{answer_of, Applies, BeginsMap, client_count, FillsAnswer, IsFirstClient, Joins};
ghost use Rattle.moc_c.specs.Sharing.{StoresMapSet, member_of_handle, StoresMember, unless_in_use};
ghost use Rattle.moc_c.specs.Private.Making.{IsLineError};

use crate::call_result::CallResult;
use crate::client_handle::ClientHandle;
use crate::client_state::ClientState;
use crate::error::CallError;
use crate::member::Member;
use crate::store::Store;
use crate::table::CoverageTable;
use crate::texts::fill_text;
use moc_lines::{LineError, answer_text, place_of_error, read_batch, read_cell_command};
use moc_parts::CellCommand;
use moc_ranges::Memory;
use moc_shared::MAX_CLIENTS;
use std::alloc::Global;

/// Returns the number of clients if a map can have as many.
fn checked_client_count(clients: u8) -> Result<u8, CallError>
    ensures { result ≡ client_count clients }
{
    if 1 <= clients && clients <= MAX_CLIENTS {
        Ok(clients)
    } else {
        Err(CallError::BadCount { clients })
    }
}

/// Returns the error of an invalid line, with its place. If an allocation fails, the error is `Memory`.
fn line_error(alloc: Global, line: &[u8], error: LineError) -> CallError
    ensures { IsLineError line.now error result }
{
    if error == LineError::Memory {
        return CallError::Memory;
    }
    match place_of_error(alloc, line, error) {
        Ok(place) => CallError::Line { error, place },
        Err(Memory) => CallError::Memory,
    }
}

/// Returns a client of a new map that starts with the set at an id.
fn begin_member(
    alloc: Global,
    table: &CoverageTable,
    a: u64,
    clients: u8,
) -> Result<Member, CallError>
    ensures { IsFirstClient (both (set_at table.now a) (client_count clients)) result }
{
    let set = table.set(a)?;
    let clients = checked_client_count(clients)?;
    let start = set.try_copy(alloc)?;
    Ok(Member::begin(alloc, start, clients)?)
}

impl ClientState {
    /// Makes the handle a client of a new map that starts with the set at an id.
    fn begin(&mut self, alloc: Global, table: &CoverageTable, a: u64, clients: u8) -> CallResult
        ensures { BeginsMap self.old self.new
            (unless_in_use self.old.member (both (set_at table.now a) (client_count clients))) result }
    {
        if self.member.is_some() {
            return CallResult::of(CallError::HandleInUse);
        }
        self.set_member(begin_member(alloc, table, a, clients))
    }

    /// Makes another handle the next client of this handle's map.
    fn join(&mut self, alloc: Global, other: &mut ClientState) -> CallResult
        ensures { Joins self.old self.new other.old other.new
            (unless_in_use other.old.member (member_of_handle self.old)) result }
    {
        if other.member.is_some() {
            return CallResult::of(CallError::HandleInUse);
        }
        let Some(member) = &mut self.member else {
            return CallResult::of(CallError::NoMap);
        };
        other.set_member(member.give(alloc))
    }

    /// Stores the member in the handle, and returns its client number.
    fn set_member(&mut self, member: Result<Member, CallError>) -> CallResult
        ensures { StoresMember self.old self.new member result }
    {
        match member {
            Ok(member) => {
                let number = member.number();
                self.member = Some(member);
                CallResult::number(u64::from(number))
            }
            Err(error) => CallResult::of(error),
        }
    }

    /// Executes the commands of a line, and keeps the replies.
    fn apply(&mut self, alloc: Global, line: &[u8]) -> CallResult
        ensures { Applies self.old self.new (member_of_handle self.old) line.now result }
    {
        match read_cell_command(line) {
            Some(command) => self.apply_on_cell(alloc, &command),
            None => self.apply_batch(alloc, line),
        }
    }

    /// Executes the command on one cell that a line has, and keeps the reply.
    fn apply_on_cell(&mut self, alloc: Global, command: &CellCommand) -> CallResult
        ensures { (line : List ℕ) → batch_of command_of line ≡ Ok (command_on_cell command.now ∷ [])
            → Applies self.old self.new (member_of_handle self.old) line result }
    {
        let Some(member) = &mut self.member else {
            return CallResult::of(CallError::NoMap);
        };
        match member.apply_cell(alloc, command) {
            Ok(replies) => {
                self.replies = Some(replies);
                CallResult::success()
            }
            Err(error) => CallResult::of(CallError::from(error)),
        }
    }

    /// Executes the commands of a line as a batch, and keeps the replies.
    fn apply_batch(&mut self, alloc: Global, line: &[u8]) -> CallResult
        ensures { Applies self.old self.new (member_of_handle self.old) line.now result }
    {
        let Some(member) = &mut self.member else {
            return CallResult::of(CallError::NoMap);
        };
        let batch = match read_batch(alloc, line) {
            Ok(batch) => batch,
            Err(error) => return CallResult::of(line_error(alloc, line, error)),
        };
        match member.apply(&batch) {
            Ok(replies) => {
                self.replies = Some(replies);
                CallResult::success()
            }
            Err(error) => CallResult::of(CallError::from(error)),
        }
    }

    /// Stores a copy of the map's set in a table.
    fn store_set(&mut self, alloc: Global, table: &mut CoverageTable) -> CallResult
        ensures { StoresMapSet self.old self.new table.old table.new (member_of_handle self.old) result }
    {
        let Some(member) = &mut self.member else {
            return CallResult::of(CallError::NoMap);
        };
        match member.read(alloc) {
            Ok(set) => table.insert_new(Ok(set)),
            Err(error) => CallResult::of(CallError::from(error)),
        }
    }

    /// Returns the reply text of the last line.
    fn answer(&self, alloc: Global) -> Result<Vec<u8>, Memory>
        ensures { IfOk result (λ text. text.items ≡ answer_of self.now.replies) }
    {
        match &self.replies {
            Some(replies) => answer_text(alloc, replies),
            None => Ok(Vec::new(alloc)),
        }
    }
}

/// Creates a map that starts with a set of a store, for 1 to 64 clients. The handle becomes one of the clients;
/// `moc_map_join` gives the others to other handles. Returns the client's number. The set stays in the store.
///
/// # Errors
/// Fails if the handle is in use, if the id has no set, if the number of clients is not 1 to 64, or if an allocation
/// fails.
///
/// # Complexity
/// O(n) for n ranges.
#[unsafe(no_mangle)]
pub extern "C" fn moc_map_begin(
    alloc: Global,
    client_handle: &mut ClientHandle,
    store: &mut Store,
    a: u64,
    clients: u8,
) -> CallResult
    ensures begins { BeginsMap client_handle.old.contents client_handle.new.contents
        (unless_in_use client_handle.old.contents.member
        (both (set_at store.old.contents a) (client_count clients))) result }
    ensures same { store.new.contents ≡ store.old.contents }
{
    let table = store.table();
    client_handle.client_state().begin(alloc, table, a, clients)
}

/// Makes another handle, which may be sent to another thread, the next client of this handle's map. Returns the
/// client's number. Only the handle that created the map has further clients. O(1).
///
/// # Errors
/// Fails if the other handle is in use, if this handle has no client, if no further client is left, or if an
/// allocation fails.
#[unsafe(no_mangle)]
pub extern "C" fn moc_map_join(
    alloc: Global,
    client_handle: &mut ClientHandle,
    other: &mut ClientHandle,
) -> CallResult
    ensures { Joins client_handle.old.contents client_handle.new.contents other.old.contents other.new.contents
        (unless_in_use other.old.contents.member (member_of_handle client_handle.old.contents)) result }
{
    let joining = other.client_state();
    client_handle.client_state().join(alloc, joining)
}

/// Executes the commands of a line on the map, all in one atomic step or none. Keeps the replies, whose text
/// `moc_map_answer` writes. Never waits.
///
/// # Errors
/// Fails if the handle has no client, if the line is invalid, if another client holds a part that the commands need,
/// or if an allocation fails; the map is unchanged then.
///
/// # Memory
/// Allocates the operands and the parts that change.
#[unsafe(no_mangle)]
pub extern "C" fn moc_map_apply(
    alloc: Global,
    client_handle: &mut ClientHandle,
    line: &[u8],
) -> CallResult
    ensures { Applies client_handle.old.contents client_handle.new.contents
        (member_of_handle client_handle.old.contents) line.now result }
{
    client_handle.client_state().apply(alloc, line)
}

/// Writes the replies to the last line, ended by a line feed, to the front of a buffer, and returns the length. Writes
/// nothing before the first line. Linear in the text.
///
/// # Errors
/// Fails if the buffer is too short, or if an allocation fails; the call may be repeated.
#[unsafe(no_mangle)]
pub extern "C" fn moc_map_answer(
    alloc: Global,
    client_handle: &mut ClientHandle,
    out: &mut [u8],
) -> CallResult
    ensures answer { FillsAnswer client_handle.old.contents out.old out.new result }
    ensures same { client_handle.new.contents ≡ client_handle.old.contents }
{
    match client_handle.client_state().answer(alloc) {
        Ok(text) => fill_text(&text, out),
        Err(Memory) => CallResult::of(CallError::Memory),
    }
}

/// Stores a copy of the map's set under a new id. The copy is a query of the whole sky. O(n) for n ranges.
///
/// # Errors
/// Fails if the handle has no client, if another client holds a part, or if an allocation fails.
#[unsafe(no_mangle)]
pub extern "C" fn moc_map_coverage(
    alloc: Global,
    client_handle: &mut ClientHandle,
    store: &mut Store,
) -> CallResult
    ensures { StoresMapSet client_handle.old.contents client_handle.new.contents store.old.contents store.new.contents
        (member_of_handle client_handle.old.contents) result }
{
    let table = store.table();
    client_handle.client_state().store_set(alloc, table)
}
