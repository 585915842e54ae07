//! Finds the run that a range belongs to.
ghost use Rattle.std.specs.Prelude.{◌<◌, IfSome};
ghost use Rattle.moc_blocks.specs.RangeList.{IsNormal};
ghost use Rattle.moc_blocks.specs.Private.Walks.{all_ranges};
ghost use Rattle.moc_blocks.specs.Private.Edits.{IsSplitAtRun};

use crate::runs::{Run, count_ended};

/// A run of a list, with the runs before and after it.
#[derive(Clone, Copy)]
pub(crate) struct SplitAtRun<'a, T> {
    pub before: &'a [T],
    pub run: &'a T,
    pub after: &'a [T],
}

/// Returns the first run that does not end before a number, or the last run if all do. O(log n).
pub(crate) fn find_run<T: Run>(runs: &[T], from: u64) -> Option<SplitAtRun<'_, T>>
    requires { IsNormal (all_ranges T.ranges runs.now) }
    ensures { IfSome result (λ a. IsSplitAtRun T.ranges from runs.entry.now a.before.now a.run.now a.after.now) }
{
    let ended = count_ended(runs, from.saturating_sub(1));
    let place = ended.min(runs.len().saturating_sub(1));
    let [run, after @ ..] = &runs[place..] else {
        return None;
    };
    Some(SplitAtRun {
        before: &runs[..place],
        run,
        after,
    })
}
