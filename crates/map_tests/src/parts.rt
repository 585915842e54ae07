//! Each call that allocates once with enough memory, and the footprints of small operands.
ghost use Rattle.std.specs.Prelude.{◌<◌};
ghost use Rattle.moc_parts.specs.CellCommands.{command_on_cell};
ghost use Rattle.moc_parts.specs.Commands.{IsPlain};

use crate::shown::is_shown;
use moc_parts::{
    Batch, BatchError, CellAction, CellCommand, Command, Map, Operand, Part, PartCommand, PartSet,
    Replies, Reply, merge_parts, prepare, prepare_changes, reply_of, split_by_base_pixel,
};
use moc_ranges::Coverage;
use moc_sphere::{Cell, Order};
use std::alloc::Global;
use std::process::Abort;

/// The number of pixels of a base pixel: 4^29.
const BASE: u64 = 288230376151711744;

/// Returns the operand of these ranges.
fn ranges(rt: &impl Abort, alloc: Global, pairs: &[(u64, u64)]) -> Operand {
    Operand::from(set(rt, alloc, pairs))
}

/// Returns the union of these ranges.
fn set(rt: &impl Abort, alloc: Global, pairs: &[(u64, u64)]) -> Coverage {
    Coverage::from_ranges(alloc, pairs).expect(rt, "ranges")
}

/// Returns the map of these ranges.
fn map_of(rt: &impl Abort, alloc: Global, pairs: &[(u64, u64)]) -> Map {
    Map::new(alloc, set(rt, alloc, pairs)).expect(rt, "memory")
}

/// Returns the batch of one command.
fn one(rt: &impl Abort, alloc: Global, command: Command) -> Batch {
    Batch::one(alloc, command).expect(rt, "memory")
}

/// Returns a cell.
fn cell_of(rt: &impl Abort, order: u8, index: u64) -> Cell {
    let order = Order::new(order).expect(rt, "an order");
    Cell::new(order, index).expect(rt, "a cell")
}

/// Returns the command `near` of a cell.
fn near(rt: &impl Abort, order: u8, index: u64) -> Command {
    Command::Near(cell_of(rt, order, index))
}

/// Tests whether the footprint has exactly these parts.
fn has_just(footprint: PartSet, parts: &[u8]) -> bool {
    (0u8..12).all(|b| footprint.contains(Part::of(b)) == parts.contains(&b))
}

/// Checks that the footprint of a command has exactly these parts.
fn touches_just(rt: &impl Abort, alloc: Global, command: Command, parts: &[u8]) {
    assert!(rt; has_just(command.footprint(alloc), parts), "{parts:?}");
}

#[test]
fn footprints_of_operands(rt: HostRuntime) {
    let alloc = rt.alloc();
    let empty = Command::Add(ranges(&rt, alloc, &[]));
    touches_just(&rt, alloc, empty, &[0]);
    let pairs = [(3 * BASE, 4 * BASE), (5 * BASE + 3 * (BASE / 4), 6 * BASE)];
    let two = Command::Count(ranges(&rt, alloc, &pairs));
    touches_just(&rt, alloc, two, &[3, 5]);
    let keep = Command::Keep(ranges(&rt, alloc, &[(3 * BASE, 4 * BASE)]));
    let all = [0, 1, 2, 3, 4, 5, 6, 7, 8, 9, 10, 11];
    touches_just(&rt, alloc, keep, &all);
}

#[test]
fn footprints_of_cells(rt: HostRuntime) {
    let alloc = rt.alloc();
    touches_just(&rt, alloc, near(&rt, 0, 4), &[0, 3, 4, 5, 7, 8, 11]);
    touches_just(&rt, alloc, near(&rt, 1, 0), &[0, 4, 5, 8]);
    touches_just(&rt, alloc, near(&rt, 1, 3), &[0, 1, 2, 3]);
}

/// Checks the single part that contains an operand.
fn lies_in(rt: &impl Abort, operand: &Operand, part: Option<u8>) {
    assert_eq!(rt; operand.single_part().map(|part| part.get()), part);
}

#[test]
fn an_operand_in_one_part(rt: HostRuntime) {
    let alloc = rt.alloc();
    let pairs = [(3 * BASE, 3 * BASE + 2), (4 * BASE - 1, 4 * BASE)];
    let three = ranges(&rt, alloc, &pairs);
    lies_in(&rt, &three, Some(3));
    let degraded = Operand {
        coarse: Order::new(0),
        ..three
    };
    lies_in(&rt, &degraded, None);
}

#[test]
fn operands_in_no_one_part(rt: HostRuntime) {
    let alloc = rt.alloc();
    let two = ranges(&rt, alloc, &[(0, 1), (BASE, BASE + 1)]);
    lies_in(&rt, &two, None);
    let none = ranges(&rt, alloc, &[]);
    lies_in(&rt, &none, None);
}

#[test]
fn parts_of_a_set_rise(rt: HostRuntime) {
    let mut parts = PartSet::none();
    for number in [11u8, 0, 5] {
        parts.insert(Part::of(number));
    }
    let mut ascending = parts.into_iter();
    for number in [0u8, 5, 11] {
        assert!(rt; ascending.next() == Some(Part::of(number)));
    }
    for _ in 0..2 {
        assert!(rt; ascending.next().is_none());
    }
    assert!(rt; PartSet::none().into_iter().next().is_none());
}

#[test]
fn all_parts(rt: HostRuntime) {
    for number in 0u8..12 {
        assert_eq!(rt; Part::ALL[usize::from(number)].get(), number);
    }
}

/// Returns the batch that adds base pixel 3, and then the empty set.
fn two_adds(rt: &impl Abort, alloc: Global) -> Batch {
    let three = Command::Add(ranges(rt, alloc, &[(3 * BASE, 4 * BASE)]));
    let none = Command::Add(ranges(rt, alloc, &[]));
    let commands = vec![in alloc; three, none].expect(rt, "memory");
    Batch::new(commands).expect(rt, "two commands")
}

#[test]
fn a_batch_has_the_parts_of_its_commands(rt: HostRuntime) {
    let alloc = rt.alloc();
    let batch = two_adds(&rt, alloc);
    assert!(rt; has_just(batch.footprint(alloc), &[0, 3]));
    assert!(rt; batch.is_update());
    let copy = batch.try_copy(alloc).expect(&rt, "memory");
    assert_eq!(rt; copy.commands().len(), 2);
}

/// Returns the error of a batch of this number of commands.
fn batch_error(rt: &impl Abort, alloc: Global, count: u8) -> Option<BatchError> {
    let mut commands = Vec::new(alloc);
    for _ in 0..count {
        commands.push(Command::Invert).expect(rt, "memory");
    }
    Batch::new(commands).err()
}

#[test]
fn batches_of_none_and_of_seventeen(rt: HostRuntime) {
    let none = batch_error(&rt, rt.alloc(), 0);
    assert!(rt; matches!(none, Some(BatchError::EmptyCommand)));
    let many = batch_error(&rt, rt.alloc(), 17);
    assert!(rt; matches!(many, Some(BatchError::TooManyCommands)));
}

/// Returns a copy of a set, as the set of a copied reply.
fn cover_of_copy(rt: &impl Abort, alloc: Global, set: &Coverage) -> Coverage {
    let reply = Reply::Cover(set.try_copy(alloc).expect(rt, "memory"));
    match reply.try_copy(alloc).expect(rt, "memory") {
        Reply::Cover(cover) => cover,
        _ => panic!(rt; "another reply"),
    }
}

/// Returns the operand of a copied command.
fn operand_of_copy(rt: &impl Abort, alloc: Global, operand: Operand) -> Operand {
    match Command::Keep(operand).try_copy(alloc).expect(rt, "memory") {
        Command::Keep(kept) => kept,
        _ => panic!(rt; "another command"),
    }
}

#[test]
fn copies(rt: HostRuntime) {
    let alloc = rt.alloc();
    let third = set(&rt, alloc, &[(3 * BASE, 4 * BASE)]);
    let cover = cover_of_copy(&rt, alloc, &third);
    assert!(rt; cover.same(&third));
    let kept = operand_of_copy(&rt, alloc, Operand::from(third));
    assert!(rt; kept.set.same(&cover));
}

/// Checks whether the batches of two commands are equal, and their copies.
fn are_same(rt: &impl Abort, alloc: Global, first: Command, second: Command, same: bool) {
    let first = one(rt, alloc, first);
    let copy = first.try_copy(alloc).expect(rt, "memory");
    assert!(rt; first == copy);
    assert_eq!(rt; copy == one(rt, alloc, second), same);
}

#[test]
fn commands_are_compared(rt: HostRuntime) {
    let alloc = rt.alloc();
    for (pairs, same) in [(&[(0, 4)], true), (&[(0, 5)], false)] {
        let first = Command::Add(ranges(&rt, alloc, &[(0, 4)]));
        let second = Command::Add(ranges(&rt, alloc, pairs));
        are_same(&rt, alloc, first, second, same);
    }
    let keep = Command::Keep(ranges(&rt, alloc, &[(0, 4)]));
    let remove = Command::Remove(ranges(&rt, alloc, &[(0, 4)]));
    are_same(&rt, alloc, keep, remove, false);
    are_same(&rt, alloc, near(&rt, 1, 0), near(&rt, 1, 0), true);
}

#[test]
fn sets_of_parts(rt: HostRuntime) {
    let mut parts = PartSet::none();
    parts.insert(Part::of(3));
    assert!(rt; has_just(parts.union(PartSet::none()), &[3]));
    assert!(rt; has_just(PartSet::none().union(parts), &[3]));
    assert!(rt; parts.union(PartSet::all()) == PartSet::all());
}

/// Returns the number of changed pixels in the first reply.
fn changed_pixels(replies: &Replies) -> Option<u64> {
    match replies.first() {
        Some(Reply::Changed(pixels)) => Some(*pixels),
        _ => None,
    }
}

/// Checks the number of pixels that a batch of one command changes.
fn is_applied(rt: &impl Abort, alloc: Global, map: &mut Map, command: Command, pixels: u64) {
    let batch = one(rt, alloc, command);
    let replies = map.apply(alloc, &batch).expect(rt, "memory");
    assert_eq!(rt; changed_pixels(&replies), Some(pixels));
    let copy = replies.try_copy(alloc).expect(rt, "memory");
    assert_eq!(rt; changed_pixels(&copy), Some(pixels));
}

/// Checks the number of pixels that a single command changes.
fn is_answered(rt: &impl Abort, alloc: Global, map: &mut Map, command: Command, pixels: u64) {
    let reply = map.answer(alloc, &command).expect(rt, "memory");
    assert_eq!(rt; reply, Reply::Changed(pixels));
}

/// Checks the number of pixels of a part of a map.
fn has_in_part(rt: &impl Abort, map: &Map, number: u8, pixels: u64)
    requires { number < 12 }
{
    assert_eq!(rt; map.part(Part::of(number)).count(), pixels);
}

#[test]
fn a_map_does_commands(rt: HostRuntime) {
    let alloc = rt.alloc();
    let mut map = map_of(&rt, alloc, &[(0, BASE)]);
    is_applied(&rt, alloc, &mut map, Command::Invert, 12 * BASE);
    has_in_part(&rt, &map, 0, 0);
    has_in_part(&rt, &map, 11, BASE);
    let keep = Command::Keep(ranges(&rt, alloc, &[(BASE, BASE + 5)]));
    is_answered(&rt, alloc, &mut map, keep, 11 * BASE - 5);
    has_in_part(&rt, &map, 11, 0);
}

#[test]
fn one_add_alone(rt: HostRuntime) {
    let alloc = rt.alloc();
    let mut map = map_of(&rt, alloc, &[(BASE, BASE + 10)]);
    let before = map.part(Part::of(1)).try_copy(alloc).expect(&rt, "memory");
    let add = Command::Add(ranges(&rt, alloc, &[(BASE + 5, BASE + 20)]));
    is_applied(&rt, alloc, &mut map, add, 10);
    has_in_part(&rt, &map, 1, 20);
    assert_eq!(rt; before.count(), 10);
}

/// Returns the reply of a map to one command.
fn reply_of_map(rt: &impl Abort, alloc: Global, map: &mut Map, command: Command) -> Reply {
    map.answer(alloc, &command).expect(rt, "memory")
}

#[test]
fn commands_in_one_part(rt: HostRuntime) {
    let alloc = rt.alloc();
    let mut map = map_of(&rt, alloc, &[(0, 4), (BASE, BASE + 10)]);
    let remove = Command::Remove(ranges(&rt, alloc, &[(BASE + 2, BASE + 5)]));
    is_applied(&rt, alloc, &mut map, remove, 3);
    has_in_part(&rt, &map, 1, 7);
    let absent = Command::Remove(ranges(&rt, alloc, &[(BASE + 2, BASE + 5)]));
    is_answered(&rt, alloc, &mut map, absent, 0);
    let taken = Command::Claim(ranges(&rt, alloc, &[(BASE + 4, BASE + 7)]));
    let taken = reply_of_map(&rt, alloc, &mut map, taken);
    assert!(rt; matches!(taken, Reply::Taken(2)));
    let free = Command::Claim(ranges(&rt, alloc, &[(BASE + 2, BASE + 5)]));
    let free = reply_of_map(&rt, alloc, &mut map, free);
    assert!(rt; matches!(free, Reply::Claimed));
    let read = Command::Read(ranges(&rt, alloc, &[(BASE + 8, BASE + 12)]));
    let Reply::Cover(cover) = reply_of_map(&rt, alloc, &mut map, read) else {
        panic!(rt; "no cover")
    };
    has_ranges(&rt, &cover, &[(BASE + 8, BASE + 10)]);
    has_in_part(&rt, &map, 0, 4);
    has_in_part(&rt, &map, 1, 10);
}

/// Checks the single part of a command.
fn has_single_part(rt: &impl Abort, command: Command, part: Option<u8>) {
    let actual = command.single_part().map(|part| part.get());
    assert_eq!(rt; actual, part, "{command:?}");
}

#[test]
fn single_parts_of_commands(rt: HostRuntime) {
    let alloc = rt.alloc();
    let pairs = [(2 * BASE, 2 * BASE + 1)];
    has_single_part(&rt, Command::Add(ranges(&rt, alloc, &pairs)), Some(2));
    has_single_part(&rt, Command::Remove(ranges(&rt, alloc, &pairs)), Some(2));
    has_single_part(&rt, Command::Claim(ranges(&rt, alloc, &pairs)), Some(2));
    has_single_part(&rt, Command::Count(ranges(&rt, alloc, &pairs)), Some(2));
    has_single_part(&rt, Command::Read(ranges(&rt, alloc, &pairs)), Some(2));
    has_single_part(&rt, Command::Keep(ranges(&rt, alloc, &pairs)), None);
    has_single_part(&rt, Command::Invert, None);
    has_single_part(&rt, near(&rt, 1, 7), None);
    let across = ranges(&rt, alloc, &[(BASE - 1, BASE + 1)]);
    has_single_part(&rt, Command::Add(across), None);
    let coarse = Operand {
        set: set(&rt, alloc, &pairs),
        coarse: Order::new(3),
    };
    has_single_part(&rt, Command::Add(coarse), None);
}

#[test]
fn replies_that_state_no_change(rt: HostRuntime) {
    assert!(rt; Reply::Changed(0).is_no_change() && Reply::Taken(3).is_no_change());
    assert!(rt; !Reply::Changed(1).is_no_change() && !Reply::Claimed.is_no_change());
}

#[test]
fn adds_of_two_parts_and_of_two_ranges(rt: HostRuntime) {
    let alloc = rt.alloc();
    let mut map = map_of(&rt, alloc, &[(BASE, BASE + 20)]);
    let across = Command::Add(ranges(&rt, alloc, &[(2 * BASE - 3, 2 * BASE + 3)]));
    is_answered(&rt, alloc, &mut map, across, 6);
    let pairs = [(3 * BASE, 3 * BASE + 1), (4 * BASE - 1, 4 * BASE)];
    let two = Command::Add(ranges(&rt, alloc, &pairs));
    is_answered(&rt, alloc, &mut map, two, 2);
    has_in_part(&rt, &map, 3, 2);
}

#[test]
fn a_batch_is_prepared_from_a_part(rt: HostRuntime) {
    let alloc = rt.alloc();
    let map = map_of(&rt, alloc, &[(0, 3 * BASE)]);
    let part = Some(map.part(Part::of(0)));
    let found = [
        part, None, None, None, None, None, None, None, None, None, None, None,
    ];
    let removal = Command::Remove(ranges(&rt, alloc, &[(5, BASE)]));
    let removal = one(&rt, alloc, removal);
    let mut prepared = prepare(alloc, &removal, &found).expect(&rt, "memory");
    assert_eq!(rt; changed_pixels(prepared.reply()), Some(BASE - 5));
    let list = prepared.take(Part::of(0)).expect(&rt, "no list");
    assert_eq!(rt; list.count(), 5);
    assert!(rt; prepared.take(Part::of(0)).is_none());
    assert!(rt; prepared.take(Part::of(1)).is_none());
    assert_eq!(rt; prepared.into_reply().as_slice().len(), 1);
}

#[test]
fn a_query_is_answered_from_a_part(rt: HostRuntime) {
    let alloc = rt.alloc();
    let map = map_of(&rt, alloc, &[(0, 3 * BASE)]);
    let part = Some(map.part(Part::of(0)));
    let found = [
        part, None, None, None, None, None, None, None, None, None, None, None,
    ];
    let count = one(&rt, alloc, Command::Count(ranges(&rt, alloc, &[(5, BASE)])));
    assert!(rt; !count.is_update());
    let replies = reply_of(alloc, &count, &found).expect(&rt, "memory");
    assert!(rt; matches!(replies.first(), Some(Reply::Total(288230376151711739))));
}

#[test]
fn a_part_that_is_left_has_no_change(rt: HostRuntime) {
    let alloc = rt.alloc();
    let map = map_of(&rt, alloc, &[(0, 5)]);
    let part = Some(map.part(Part::of(0)));
    let found = [
        part, None, None, None, None, None, None, None, None, None, None, None,
    ];
    let addition = one(&rt, alloc, Command::Add(ranges(&rt, alloc, &[(2, 4)])));
    let mut changes = prepare_changes(alloc, &addition, &found).expect(&rt, "memory");
    assert_eq!(rt; changed_pixels(changes.reply()), Some(0));
    assert!(rt; changes.take(Part::of(0)).is_none());
}

#[test]
fn a_set_is_split_and_merged(rt: HostRuntime) {
    let alloc = rt.alloc();
    let whole = set(&rt, alloc, &[(BASE - 1, BASE + 1)]);
    let parts = split_by_base_pixel(alloc, &whole).expect(&rt, "memory");
    let (first, second) = (parts.first(), parts.get(1));
    let given = [
        first, second, None, None, None, None, None, None, None, None, None, None,
    ];
    assert_eq!(rt; parts.len(), 12);
    assert_eq!(rt; first.expect(&rt, "a part").count(), 1);
    assert!(rt; merge_parts(alloc, &given).expect(&rt, "memory") == whole);
}

#[test]
fn texts_of_errors(rt: HostRuntime) {
    let (few, many) = (BatchError::EmptyCommand, BatchError::TooManyCommands);
    is_shown(&rt, rt.alloc(), &few, "a batch has a command");
    is_shown(&rt, rt.alloc(), &many, "a batch has at most 16 commands");
}

/// Checks the ranges of a set.
fn has_ranges(rt: &impl Abort, set: &Coverage, pairs: &[(u64, u64)]) {
    let mut ranges = set.ranges();
    for pair in pairs {
        assert_eq!(rt; ranges.next(), Some(*pair));
    }
    assert_eq!(rt; ranges.next(), None);
}

#[test]
fn a_map_is_one_coverage(rt: HostRuntime) {
    let alloc = rt.alloc();
    let pairs = [(BASE - 1, BASE + 1), (5 * BASE, 7 * BASE)];
    let map = map_of(&rt, alloc, &pairs);
    let whole = map.coverage(alloc).expect(&rt, "memory");
    has_ranges(&rt, &whole, &pairs);
    let operand = Operand::from(whole);
    assert!(rt; operand.coarse.is_none() && operand.set.count() == 2 * BASE + 2);
}

#[test]
fn parts_of_cells(rt: HostRuntime) {
    for (order, index, part) in [
        (0, 0, 0),
        (0, 11, 11),
        (1, 47, 11),
        (1, 19, 4),
        (29, BASE - 1, 0),
        (29, BASE, 1),
        (29, 12 * BASE - 1, 11),
    ] {
        let cell = cell_of(&rt, order, index);
        let action = CellAction::Count;
        assert_eq!(rt; CellCommand { action, cell }.part().get(), part);
    }
}

#[test]
fn commands_on_cells_that_are_updates(rt: HostRuntime) {
    let cell = cell_of(&rt, 0, 3);
    for (action, update) in [
        (CellAction::Add, true),
        (CellAction::Remove, true),
        (CellAction::Claim, true),
        (CellAction::Count, false),
    ] {
        assert_eq!(rt; CellCommand { action, cell }.is_update(), update);
    }
}

// The set has the pixels 0 to 8. The cell 28/2 has the pixels 8 to 11.
#[test]
fn a_cell_that_is_added_in_vain(rt: HostRuntime) {
    let pixels = set(&rt, rt.alloc(), &[(0, 9)]);
    for (index, in_vain) in [(0, true), (1, true), (2, false), (3, false)] {
        let add = CellCommand {
            action: CellAction::Add,
            cell: cell_of(&rt, 28, index),
        };
        assert_eq!(rt; add.adds_nothing(&pixels), in_vain);
    }
    let claim = CellCommand {
        action: CellAction::Claim,
        cell: cell_of(&rt, 28, 0),
    };
    assert!(rt; !claim.adds_nothing(&pixels));
}

/// Checks the reply to a command on a cell that is executed on a set.
fn is_executed(
    rt: &impl Abort,
    alloc: Global,
    pixels: &mut Coverage,
    command: CellCommand,
    reply: Reply,
)
    requires { IsPlain (command_on_cell command) }
{
    let got = command.execute_on(alloc, pixels).expect(rt, "memory");
    assert!(rt; got == reply);
}

/// Checks the reply of a map to a command on a cell of order 29.
fn replies_to_pixel(
    rt: &impl Abort,
    alloc: Global,
    map: &mut Map,
    action: CellAction,
    pixel: u64,
    reply: Reply,
) {
    let cell = cell_of(rt, 29, pixel);
    let got = map
        .answer_cell(alloc, &CellCommand { action, cell })
        .expect(rt, "memory");
    assert!(rt; got == reply);
}

#[test]
fn commands_on_cells_of_a_map(rt: HostRuntime) {
    let alloc = rt.alloc();
    let mut map = map_of(&rt, alloc, &[(0, 4), (BASE, BASE + 10)]);
    let (add, remove) = (CellAction::Add, CellAction::Remove);
    let (claim, count) = (CellAction::Claim, CellAction::Count);
    replies_to_pixel(&rt, alloc, &mut map, add, 4, Reply::Changed(1));
    replies_to_pixel(&rt, alloc, &mut map, add, BASE + 9, Reply::Changed(0));
    replies_to_pixel(&rt, alloc, &mut map, remove, BASE, Reply::Changed(1));
    replies_to_pixel(&rt, alloc, &mut map, claim, 2 * BASE, Reply::Claimed);
    replies_to_pixel(&rt, alloc, &mut map, claim, 2 * BASE, Reply::Taken(1));
    replies_to_pixel(&rt, alloc, &mut map, count, BASE, Reply::Total(0));
    replies_to_pixel(&rt, alloc, &mut map, count, 4, Reply::Total(1));
    has_in_part(&rt, &map, 0, 5);
    has_in_part(&rt, &map, 1, 9);
    has_in_part(&rt, &map, 2, 1);
}

// The cell 28/0 has the pixels 0 to 3, 28/2 the pixels 8 to 11, and 28/3 the pixels 12 to 15.
#[test]
fn commands_on_cells_of_a_set(rt: HostRuntime) {
    let alloc = rt.alloc();
    let mut pixels = set(&rt, alloc, &[(0, 9)]);
    let command = CellCommand {
        action: CellAction::Count,
        cell: cell_of(&rt, 28, 2),
    };
    is_executed(&rt, alloc, &mut pixels, command, Reply::Total(1));
    let command = CellCommand {
        action: CellAction::Claim,
        cell: cell_of(&rt, 28, 2),
    };
    is_executed(&rt, alloc, &mut pixels, command, Reply::Taken(1));
    let command = CellCommand {
        action: CellAction::Add,
        cell: cell_of(&rt, 28, 2),
    };
    is_executed(&rt, alloc, &mut pixels, command, Reply::Changed(3));
    let command = CellCommand {
        action: CellAction::Claim,
        cell: cell_of(&rt, 28, 3),
    };
    is_executed(&rt, alloc, &mut pixels, command, Reply::Claimed);
    let command = CellCommand {
        action: CellAction::Remove,
        cell: cell_of(&rt, 28, 0),
    };
    is_executed(&rt, alloc, &mut pixels, command, Reply::Changed(4));
    let command = CellCommand {
        action: CellAction::Remove,
        cell: cell_of(&rt, 28, 0),
    };
    is_executed(&rt, alloc, &mut pixels, command, Reply::Changed(0));
    assert!(rt; pixels.same(&set(&rt, alloc, &[(4, 16)])));
}

#[test]
fn a_query_on_a_cell_of_a_set(rt: HostRuntime) {
    let alloc = rt.alloc();
    let pixels = set(&rt, alloc, &[(0, 9), (20, 30)]);
    let count = CellCommand {
        action: CellAction::Count,
        cell: cell_of(&rt, 27, 0),
    };
    let reply = count.query_on(alloc, &pixels).expect(&rt, "memory");
    assert!(rt; reply == Reply::Total(9));
}
