//! An inbox, and the calls on it.
ghost use Rattle.std.specs.Prelude.{◌≡◌, [], IfOk, IfErr, MatchOption, MatchResult};
ghost use Rattle.inboxes.specs.Steps.{first_known, one_less, newcomer, together, Took, Posted, Saw};
ghost use Rattle.inboxes.specs.Passes.{known, IsPassOf};

use crate::pass::InboxPass;
use crate::posting::Postable;
use crate::rule::{InOrder, Joins, Known, Posts, SplitsOff, Takes};
use crossbeam_queue::RuledSegQueue;
use plain_lists::Want;
use std::alloc::Global;
use std::sync::Wait;

/// Items that any thread may post and any thread may take, the oldest first. It has no bound.
pub struct Inbox<T: Postable> {
    queue: RuledSegQueue<T, Known<T>, InOrder>,
}

impl<T: Postable> Inbox<T> {
    /// An empty inbox, with the pass that all others are split off from.
    pub fn new(alloc: Global) -> Result<(Inbox<T>, InboxPass<T>), Want>
        ensures { IfOk result (λ made. IsPassOf made.0 made.1 × (known made.1 ≡ first_known)) }
    {
        let (queue, seat) = RuledSegQueue::with_rule(alloc)?;
        Ok((Inbox { queue }, InboxPass { seat }))
    }

    /// One pass more, which took and posted nothing. It takes one part from a pass that has two or more. From a pass with fewer
    /// it can take none: then no pass ever has all parts again.
    ///
    /// It takes no memory, so it never answers `Want`.
    pub fn split(&self, pass: &mut InboxPass<T>) -> Result<InboxPass<T>, Want>
        requires { IsPassOf self.now pass.old }
        ensures of { IsPassOf self.now pass.new × (known pass.new ≡ one_less (known pass.old)) }
        ensures other { IfOk result (λ other. IsPassOf self.now other × (known other ≡ newcomer (known pass.old))) }
        ensures done { IfErr result (λ _. ⊥) }
    {
        let seat = self.queue.another::<SplitsOff>(&mut pass.seat);
        Ok(InboxPass { seat })
    }

    /// Puts another pass, with all that it took and posted, into this one.
    pub fn join(&self, pass: &mut InboxPass<T>, other: InboxPass<T>)
        requires { IsPassOf self.now pass.old × IsPassOf self.now other }
        ensures { IsPassOf self.now pass.new × (known pass.new ≡ together (known pass.old) (known other)) }
    {
        let InboxPass { seat } = other;
        self.queue.absorb::<Joins>(&mut pass.seat, seat);
    }

    /// An item that was at the front at one step of the inbox, behind all that this pass took before; or none. Of none the clause
    /// says that the inbox was empty at a step at which this pass had taken and posted what it has: one of this call is meant, but
    /// only a pass that has all parts can tell it from an earlier one. It may wait for a post that has begun.
    pub fn take<R: Wait>(&self, rt: &R, pass: &mut InboxPass<T>) -> Option<T>
        requires { IsPassOf self.now pass.old }
        ensures of { IsPassOf self.now pass.new }
        ensures taken { MatchOption result ((known pass.new ≡ known pass.old) × Saw (known pass.old) []) (λ x. Took T.fits (known pass.old) x (known pass.new)) }
    {
        self.queue.pop_as::<Takes, R>(rt, &mut pass.seat)
    }

    /// Puts an item at the back. The item comes back where there is no memory for it, or after nearly 2^62 posts.
    pub fn post<R: Wait>(&self, rt: &R, pass: &mut InboxPass<T>, posted: T) -> Result<(), T>
        requires of { IsPassOf self.now pass.old }
        requires fits { T.fits posted }
        ensures of { IsPassOf self.now pass.new }
        ensures posted { MatchResult result (λ _. Posted (known pass.old) posted (known pass.new)) (λ back. (back ≡ posted) × (known pass.new ≡ known pass.old)) }
    {
        self.queue.push_as::<Posts, R>(rt, &mut pass.seat, posted)
    }
}

impl<T: Postable> Drop for Inbox<T> {
    fn drop(self) {
        let Inbox { queue } = self;
        queue.destroy();
    }
}
