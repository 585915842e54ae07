//! Executing one command on a set, without a draft of the twelve parts.
ghost use Rattle.std.specs.Prelude.{◌≡◌, false, true, IfOk, OnOk, OnErr, if◌then◌else◌};
ghost use Rattle.std.specs.FinSet as set;
ghost use Rattle.moc_ranges.specs.Operations.{meets};
ghost use Rattle.moc_parts.specs.Commands.{is_update, reply_on, set_after, is_no_change, IsPlain};
ghost use Rattle.moc_parts.specs.declared.reply.Reply.TheVariants as reply;

use crate::command::Command;
use crate::reply::Reply;
use moc_ranges::{Coverage, Memory};
use std::alloc::Global;

impl Command {
    /// Executes an `Add`, `Remove`, `Claim`, `Count` or `Read` on a set, and returns its reply. Requires one of these
    /// commands, and an operand that is not changed by its order, if it has one.
    ///
    /// # Errors
    /// Fails with `Memory` if an allocation fails; the set is then unchanged.
    ///
    /// # Complexity
    /// `Add` costs as much as `Coverage::insert_all`, and `Remove` as much as `Coverage::remove_all`: one range is
    /// inserted into the list in place, or removed from it. `Claim` first costs as much as `Coverage::count_common`,
    /// and then inserts the operand if the sets have no pixel in common. Queries cost as much as `query_on`.
    pub fn execute_on(&self, alloc: Global, pixels: &mut Coverage) -> Result<Reply, Memory>
        requires { IsPlain self.now }
        ensures set { OnOk result (pixels.new ≡ set_after pixels.old self.now) }
        ensures reply { IfOk result (λ r. r ≡ reply_on pixels.old self.now) }
        ensures unchanged { OnErr result (pixels.new ≡ pixels.old) }

        // A caller that shares the old set keeps it in this case.
        ensures same { IfOk result (λ r. is_no_change r ≡ true → pixels.new ≡ pixels.old) }
    {
        match self {
            Command::Add(x) => Ok(Reply::Changed(pixels.insert_all(alloc, &x.set)?)),
            Command::Remove(x) => Ok(Reply::Changed(pixels.remove_all(alloc, &x.set)?)),
            Command::Claim(x) => claim(alloc, pixels, &x.set),
            _ => self.query_on(alloc, pixels),
        }
    }

    /// Returns the reply to a query, a `Count` or `Read`, on a set. Requires one of these commands, and an operand that
    /// is not changed by its order, if it has one.
    ///
    /// # Errors
    /// Fails with `Memory` if an allocation fails. A `Count` allocates nothing.
    ///
    /// # Complexity
    /// As `Coverage::count_common` and `Coverage::intersection`.
    pub fn query_on(&self, alloc: Global, pixels: &Coverage) -> Result<Reply, Memory>
        requires plain { IsPlain self.now }
        requires query { is_update self.now ≡ false }
        ensures { IfOk result (λ r. r ≡ reply_on pixels.now self.now) }
    {
        match self {
            Command::Count(x) => Ok(Reply::Total(pixels.count_common(&x.set))),
            Command::Read(x) => Ok(Reply::Cover(pixels.intersection(alloc, &x.set)?)),
            _ => unreachable!(),
        }
    }
}

/// Adds the pixels of another set if none of them is in the set.
fn claim(alloc: Global, pixels: &mut Coverage, others: &Coverage) -> Result<Reply, Memory>
    ensures set { OnOk result (pixels.new
        ≡ (if meets pixels.old others.now then pixels.old else set.union pixels.old others.now)) }
    ensures reply { IfOk result (λ r. r ≡ (if meets pixels.old others.now
        then reply.Taken (set.len (set.intersection pixels.old others.now))
        else reply.Claimed)) }
    ensures unchanged { OnErr result (pixels.new ≡ pixels.old) }
{
    let common = pixels.count_common(others);
    if common > 0 {
        return Ok(Reply::Taken(common));
    }
    pixels.insert_all(alloc, others)?;
    Ok(Reply::Claimed)
}
