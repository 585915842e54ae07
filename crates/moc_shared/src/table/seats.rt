//! Steps that regroup records: reading the whole history, joining seats, and splitting a seat.
ghost use Rattle.std.specs.Prelude.{◌≡◌, ◌<◌, [], ◌∷◌};
ghost use Rattle.moc_shared.specs.History.{StandsFor};
ghost use Rattle.moc_shared.specs.Seats.{table_index};
ghost use Rattle.moc_shared.specs.Private.Seats.{IsOfTable};
ghost use Rattle.moc_shared.specs.Private.StepEffects.{MergesWith, SeesAll, first_record, joined_views};
ghost use Rattle.moc_shared.specs.Private.InitialViews.{rest_view};
ghost use Rattle.moc_shared.specs.Batches.{BatchRecord, batch_answer};

use crate::table::locks::{JoinSeats, LockTable, MergeRecords, ReadHistory, SeatToken, SplitSeat};

/// Reads the whole history.
pub(crate) fn read_history(table: &LockTable, seat: &mut SeatToken)
    requires place { IsOfTable seat.old.table_id table.now.table_id }
    requires client { StandsFor seat.old.me.0.mine seat.old.me.0.mine.number }
    ensures same { (seat.new.table_id ≡ seat.old.table_id) × (seat.new.id ≡ seat.old.id) }
    ensures history_read { SeesAll batch_answer seat.old.me seat.new.me }
{
    table.load::<ReadHistory>(seat, 0);
}

/// Merges the record of the view with its one further record.
pub(crate) fn merge_records(table: &LockTable, seat: &mut SeatToken)
    requires place { IsOfTable seat.old.table_id table.now.table_id }
    requires client { StandsFor seat.old.me.0.mine seat.old.me.0.mine.number }
    requires two { (q : BatchRecord) × (seat.old.me.0.others ≡ q ∷ []) }
    ensures same { (seat.new.table_id ≡ seat.old.table_id) × (seat.new.id ≡ seat.old.id) }
    ensures merged { (q : BatchRecord) → seat.old.me.0.others ≡ q ∷ []
        → MergesWith batch_answer q seat.old.me seat.new.me }
{
    table.load::<MergeRecords>(seat, 0);
}

/// Appends the records of another seat.
pub(crate) fn join(table: &LockTable, seat: &mut SeatToken, other: SeatToken)
    requires place { (seat.old.table_id ≡ table.now.table_id) × (other.table_id ≡ table.now.table_id)
        × (table.now.table_id.words ≡ table_index 12) }
    requires client { StandsFor seat.old.me.0.mine seat.old.me.0.mine.number }
    requires idle { (other.me.0.holds ≡ []) × (other.me.1 ≡ []) }
    ensures same { (seat.new.table_id ≡ seat.old.table_id) × (seat.new.id ≡ seat.old.id) }
    ensures joined { seat.new.me ≡ (joined_views seat.old.me.0 other.me.0, seat.old.me.1) }
{
    table.join_seat::<JoinSeats>(seat, other)
}

/// Keeps the first record. The new seat gets the others.
pub(crate) fn split(table: &LockTable, seat: &mut SeatToken) -> SeatToken
    requires place { IsOfTable seat.old.table_id table.now.table_id }
    requires client { StandsFor seat.old.me.0.mine seat.old.me.0.mine.number }
    ensures same { (seat.new.table_id ≡ seat.old.table_id) × (seat.new.id ≡ seat.old.id)
        × (result.table_id ≡ seat.old.table_id) }
    ensures kept { seat.new.me ≡ (first_record seat.old.me.0, seat.old.me.1) }
    ensures given { result.me ≡ (rest_view seat.old.me.0, []) }
{
    table.split_seat::<SplitSeat>(seat)
}
