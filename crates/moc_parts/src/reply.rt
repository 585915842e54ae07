//! The replies to commands.
ghost use Rattle.std.specs.Prelude.{◌≡◌, ◌++◌, ◌∷◌, [], ◌⊎◌, ℕ, IfOk, IfSome, OnOk, Some, length, slice_get};
ghost use Rattle.std.specs.Option.{option_copied};
ghost use Rattle.moc_parts.specs.Commands.{is_no_change};

use moc_ranges::{Coverage, Memory};
use std::alloc::Global;
use std::marker::Model;

/// The reply to a command. All counts are counts of pixels of order 29.
#[derive(Debug, PartialEq, Eq, Drop)]
pub enum Reply {
    /// The number of pixels that were added or removed.
    Changed(u64),
    /// The claim succeeded: its pixels were free and were added.
    Claimed,
    /// The claim failed: the number of its pixels that were already in the set.
    Taken(u64),
    /// The number of pixels that the set has in common with the operand.
    Total(u64),
    /// The pixels that the set has in common with the operand.
    Cover(Coverage),
    /// Whether the set has a pixel in the cell or in a cell that touches it.
    Near(bool),
}

impl Reply {
    /// Returns the number of pixels in a `Changed`, `Taken` or `Total` reply, and `None` for other replies. O(1);
    /// allocates nothing.
    pub fn pixels(&self) -> Option<u64>
        ensures changed { (n : ℕ) → self.now ≡ Reply.Changed n → result ≡ Some n }
        ensures taken { (n : ℕ) → self.now ≡ Reply.Taken n → result ≡ Some n }
        ensures counted { (n : ℕ) → self.now ≡ Reply.Total n → result ≡ Some n }
        ensures reported { IfSome result (λ n.
            (self.now ≡ Reply.Changed n) ⊎ (self.now ≡ Reply.Taken n) ⊎ (self.now ≡ Reply.Total n)) }
    {
        match self {
            Reply::Changed(pixels) | Reply::Taken(pixels) | Reply::Total(pixels) => Some(*pixels),
            Reply::Claimed | Reply::Cover(_) | Reply::Near(_) => None,
        }
    }

    /// Returns whether the reply states that an `Add`, `Remove` or `Claim` left the set unchanged: `Changed(0)` or
    /// `Taken`. O(1); allocates nothing.
    pub fn is_no_change(&self) -> bool
        ensures { result ≡ is_no_change self.now }
    {
        matches!(self, Reply::Changed(0) | Reply::Taken(_))
    }

    /// Returns a copy, which shares the blocks of a `Cover`. Costs at most as much as `Coverage::try_copy`.
    ///
    /// # Errors
    /// Fails with `Memory` if an allocation fails.
    pub fn try_copy(&self, alloc: Global) -> Result<Reply, Memory>
        ensures { IfOk result (λ x. x ≡ self.now) }
    {
        Ok(match self {
            Reply::Changed(pixels) => Reply::Changed(*pixels),
            Reply::Claimed => Reply::Claimed,
            Reply::Taken(pixels) => Reply::Taken(*pixels),
            Reply::Total(pixels) => Reply::Total(*pixels),
            Reply::Cover(set) => Reply::Cover(set.try_copy(alloc)?),
            Reply::Near(near) => Reply::Near(*near),
        })
    }
}

/// The replies to the commands of a batch, in the order of the commands.
#[derive(Debug, Drop)]
pub struct Replies {
    replies: Vec<Reply>,
}

impl Model for Replies {
    ghost use Rattle.std.specs.Prelude.{List};
    ghost use Rattle.std.specs.Coded.{codes};
    ghost use Rattle.moc_ranges.specs.contracts.coverage.Coverage as coverage;
    ghost use Rattle.moc_parts.specs.declared.reply.Reply.{Reply};

    ghost Value = { List Reply };

    ghost coded = { Prim.hlevel (codes, coverage.the_row.coded) };

    ghost view = { λ r. r.replies.items };
}

/// Equal if the replies are equal and in the same order.
impl PartialEq for Replies {
    ghost use Rattle.std.specs.Cmp.{partial_equiv_from_equiv};
    ghost use Rattle.std.specs.Cmp.Lexicographic.{pointwise, lists_equiv};
    ghost use Rattle.moc_parts.specs.contracts.reply.ReplyPartialEq.TheImpl as reply_eq;
    ghost use Rattle.moc_parts.specs.contracts.reply.ReplyEq.TheImpl.Laws.{laws-law};

    ghost eq = { pointwise (reply_eq.ghosts).eq };

    ghost laws = { partial_equiv_from_equiv (lists_equiv laws-law) };

    fn eq(&self, other: &Replies) -> bool {
        self.replies == other.replies
    }
}

impl Eq for Replies {
    ghost use Rattle.std.specs.Cmp.Lexicographic.{lists_equiv};
    ghost use Rattle.moc_parts.specs.contracts.reply.ReplyEq.TheImpl.Laws.{laws-law};

    ghost laws = { lists_equiv laws-law };
}

impl Replies {
    /// Creates an empty list of replies.
    pub(crate) fn new(alloc: Global) -> Replies
        ensures { result ≡ [] }
    {
        Replies {
            replies: Vec::new(alloc),
        }
    }

    /// Appends a reply.
    pub(crate) fn push(&mut self, reply: Reply) -> Result<(), Memory>
        ensures { OnOk result (self.new ≡ self.old ++ reply ∷ []) }
    {
        self.replies.push(reply)?;
        Ok(())
    }

    /// Creates a list of one reply. O(1).
    ///
    /// # Errors
    /// Fails with `Memory` if an allocation fails; the reply is then dropped.
    pub fn one(alloc: Global, reply: Reply) -> Result<Replies, Memory>
        ensures { IfOk result (λ r. r ≡ reply ∷ []) }
    {
        let mut replies = Replies::new(alloc);
        replies.push(reply)?;
        Ok(replies)
    }

    /// Replaces the only reply. Requires a list of exactly one reply. A list that is created before a command is
    /// executed can hold its reply without a further allocation. O(1); allocates nothing.
    pub fn set_only(&mut self, reply: Reply)
        requires { length self.old ≡ 1 }
        ensures { self.new ≡ reply ∷ [] }
    {
        self.replies[0] = reply;
    }

    /// Returns the replies in the order of the commands. Allocates nothing.
    pub fn as_slice(&self) -> &[Reply]
        ensures { result.now ≡ self.now }
    {
        &self.replies
    }

    /// Returns the reply to the first command; a batch always has a first command. Allocates nothing.
    pub fn first(&self) -> Option<&Reply>
        ensures { option_copied result ≡ slice_get self.now 0 }
    {
        self.replies.first()
    }

    /// Returns the only reply. Requires a list of exactly one reply. O(1); allocates nothing.
    pub fn into_only(self) -> Reply
        requires { length self ≡ 1 }
        ensures { self ≡ result ∷ [] }
    {
        let mut replies = self.replies;
        match replies.pop() {
            Some(only) => only,
            None => unreachable!(),
        }
    }

    /// Returns a copy, which shares the blocks of all sets. One `Reply::try_copy` for each reply.
    ///
    /// # Errors
    /// Fails with `Memory` if an allocation fails.
    pub fn try_copy(&self, alloc: Global) -> Result<Replies, Memory>
        ensures { IfOk result (λ x. x ≡ self.now) }
    {
        let mut copy = Replies::new(alloc);
        for reply in &self.replies {
            copy.push(reply.try_copy(alloc)?)?;
        }
        Ok(copy)
    }
}
