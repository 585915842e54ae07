//! The table of locks, its invariant, and the effect of each atomic step.
use crate::record::{Call, Note, View};
use atomic_table::{Join, Play, Seat, Shared, Split, TableRule};
use moc_parts::{Batch, Replies};
use moc_ranges::Coverage;
use std::alloc::Global;
use std::marker::{Brand, PhantomData};
use std::sync::Arc;

/// The parameters of a map, set once at its creation.
#[derive(Drop)]
pub struct MapParameters {
    /// The set with which the map is created.
    pub start: Coverage,
    /// The number of its clients.
    pub clients: u64,
}

/// The content of a part's slot: a shared pointer to the set of the part. The slot is `None` while a client holds the
/// part.
pub type Pointer = Arc<Coverage, Global>;

/// The view of a client's seat: the facts that the client knows.
pub type ClientView = View<Coverage, Batch, Replies, Option<Coverage>>;

/// The seat of a client in the table.
pub type SeatToken = Seat<Option<Pointer>, ClientView>;

/// The lock words and slots of the twelve parts, shared between threads.
pub type LockTable = Shared<Option<Pointer>, ClientView, MapParameters, LockRule>;

/// The invariant of the table.
pub struct LockRule;

impl TableRule<Option<Pointer>, ClientView, MapParameters> for LockRule {
    ghost use Rattle.moc_shared.specs.Batches.{batch_answer};
    ghost use Rattle.moc_shared.specs.Private.Seats.{content, part, IsInSky};
    ghost use Rattle.moc_shared.specs.Private.Invariant.{TableInvariant};
    ghost use Rattle.moc_shared.specs.Private.InitialViews.{first_view};

    ghost holds = { λ p s. TableInvariant 12 content part batch_answer IsInSky p.start p.clients s };

    ghost first = { λ parameters. first_view parameters.start parameters.clients };
}

/// A step that takes a part: sets the client's mark in its lock word.
pub(crate) struct Take;

impl Play<Option<Pointer>, ClientView> for Take {
    ghost use Rattle.moc_shared.specs.Private.Seats.{content, part};
    ghost use Rattle.moc_shared.specs.Private.StepEffects.{TakesPart};

    ghost then = { TakesPart content part };
}

/// A step that gives a part back.
pub(crate) struct Give;

impl Play<Option<Pointer>, ClientView> for Give {
    ghost use Rattle.moc_shared.specs.Private.StepEffects.{GivesPart};

    ghost then = { GivesPart };
}

/// The call that takes effect with the first part given back, and the notes of the parts that are still held.
pub trait EndingCall {
    ghost use Rattle.std.specs.Prelude.{List};
    ghost use Rattle.moc_shared.specs.Batches.{BatchCall};
    ghost use Rattle.moc_shared.specs.Private.Seats.{PartNote};

    ghost call: { BatchCall };

    ghost notes: { List PartNote };
}

impl EndingCall for Brand {
    ghost use Rattle.std.specs.Prelude.{[]};
    ghost use Rattle.moc_shared.specs.Private.Slots.{placeholder_call};

    ghost call = { placeholder_call };

    ghost notes = { [] };
}

/// A step that gives the first part back, with which a call takes effect.
pub(crate) struct End<C> {
    of: PhantomData<C>,
}

impl<C: EndingCall> Play<Option<Pointer>, ClientView> for End<C> {
    ghost use Rattle.moc_shared.specs.Batches.{batch_answer};
    ghost use Rattle.moc_shared.specs.Private.StepEffects.{EndsWithCall};

    ghost then = { EndsWithCall batch_answer C.call C.notes };
}

/// A step that reads the whole history.
pub(crate) struct ReadHistory;

impl Play<Option<Pointer>, ClientView> for ReadHistory {
    ghost use Rattle.moc_shared.specs.Batches.{batch_answer};
    ghost use Rattle.moc_shared.specs.Private.StepEffects.{ReadsHistory};

    ghost then = { ReadsHistory batch_answer };
}

/// A step that merges two records.
pub(crate) struct MergeRecords;

impl Play<Option<Pointer>, ClientView> for MergeRecords {
    ghost use Rattle.moc_shared.specs.Batches.{batch_answer};
    ghost use Rattle.moc_shared.specs.Private.StepEffects.{MergesRecords};

    ghost then = { MergesRecords batch_answer };
}

/// A split of a seat after its first record.
pub(crate) struct SplitSeat;

impl Split<ClientView> for SplitSeat {
    ghost use Rattle.moc_shared.specs.Private.StepEffects.{first_record};
    ghost use Rattle.moc_shared.specs.Private.InitialViews.{rest_view};

    ghost left = { first_record };

    ghost right = { rest_view };
}

/// A join of two seats: puts the records of both into one view.
pub(crate) struct JoinSeats;

impl Join<ClientView> for JoinSeats {
    ghost use Rattle.std.specs.FinSet as set;
    ghost use Rattle.moc_shared.specs.Private.StepEffects.{joined_views};
    ghost use Rattle.moc_shared.specs.Private.InitialViews.{idle_view};

    ghost both = { joined_views };

    ghost spent = { idle_view set.empty 0 };
}
