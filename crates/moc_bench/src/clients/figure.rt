//! The result of a work.
use anyhow::Result;
use std::time::{Clock, Instant};

/// The time of the slowest thread, the number of calls that changed exactly one cell, and the number of reads
/// meanwhile.
#[derive(Clone, Copy, PartialEq, Eq, PartialOrd, Ord)]
pub struct Figure {
    pub micros: u64,
    pub good: u64,
    pub reads: u64,
}

impl Figure {
    /// No result yet.
    pub fn nothing() -> Figure {
        Figure {
            good: 0,
            reads: 0,
            micros: 0,
        }
    }

    /// A number of reads, without a time.
    pub fn of_reads(reads: u64) -> Figure {
        Figure {
            good: 0,
            reads,
            micros: 0,
        }
    }

    /// A number of calls that changed exactly one cell since a time.
    pub fn since<R: Clock>(rt: &R, start: &Instant, good: u64) -> Result<Figure> {
        let micros = u64::try_from(start.elapsed(rt)?.as_micros()).unwrap_or(u64::MAX);
        Ok(Figure {
            good,
            reads: 0,
            micros,
        })
    }

    /// The sum of all, executed at the same time.
    pub fn of_all(statistics: Vec<Figure>) -> Figure {
        let mut all = Figure::nothing();
        for figure in statistics {
            all = all.with(figure);
        }
        all
    }

    /// The sum of both, executed at the same time.
    fn with(self, other: Figure) -> Figure {
        Figure {
            good: self.good.saturating_add(other.good),
            reads: self.reads.saturating_add(other.reads),
            micros: self.micros.max(other.micros),
        }
    }
}
