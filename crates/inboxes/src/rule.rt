//! What a pass knows of its inbox, and what each step keeps and tells.
use crate::posting::Postable;
use crossbeam_queue::protocol::{Join, Lesson, Outcome, Protocol, Split};
use std::collections::LinkedList;

/// What a pass knows. No value of it is made: it stands in proofs alone, which read a `LinkedList` as a list. An item stands
/// beside its place among all that were ever posted to the inbox: 0 for the first of them.
pub struct Known<T> {
    /// Whether the pass is in use; one that was joined to another no longer is.
    pub live: bool,
    /// The parts that it has of the right to know the whole inbox.
    pub parts: u64,
    /// What it took.
    pub took: LinkedList<(u64, T)>,
    /// What it posted.
    pub posted: LinkedList<(u64, T)>,
}

/// The rule of an inbox.
pub struct InOrder;

impl<T: Postable> Protocol<T, Known<T>> for InOrder {
    ghost use Rattle.inboxes.specs.Steps.{IsKept, first_known};

    ghost holds = { IsKept T.fits };

    ghost first = { first_known };
}

/// The step of `take`, and what it tells where nothing was there.
pub struct Takes;

impl<T: Postable> Outcome<T, Known<T>> for Takes {
    ghost use Rattle.inboxes.specs.Steps.{Took};

    ghost then = { Took T.fits };
}

impl<T> Lesson<T, Known<T>> for Takes {
    ghost use Rattle.inboxes.specs.Steps.{Saw};

    ghost fact = { Saw };
}

/// The step of `post`.
pub struct Posts;

impl<T> Outcome<T, Known<T>> for Posts {
    ghost use Rattle.inboxes.specs.Steps.{Posted};

    ghost then = { Posted };
}

/// The step of `split`.
pub struct SplitsOff;

impl<T> Split<Known<T>> for SplitsOff {
    ghost use Rattle.inboxes.specs.Steps.{one_less, newcomer};

    ghost left = { one_less };

    ghost right = { newcomer };
}

/// The step of `join`.
pub struct Joins;

impl<T> Join<Known<T>> for Joins {
    ghost use Rattle.inboxes.specs.Steps.{together, spent};

    ghost both = { together };

    ghost spent = { spent };
}
