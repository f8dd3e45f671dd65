ghost use Rattle.std.specs.Prelude.{◌≡◌, ◌≤◌, ℕ, Bool};
ghost use Rattle.global_order.specs.Unsaid.{HasPending, IsAmong, IsNoted, LooksFrom, whole_view, with_view};

/// Where the numbers of a view stand for which a word may be due: from `low` to below `high` those that changed since it was
/// looked for, and from `beyond` on those that weren't in the window yet. So what is due isn't looked for among all numbers.
#[derive(Clone, Copy)]
pub struct PendingNumbers {
    pub view: u64,
    pub low: u64,
    pub high: u64,
    pub beyond: u64,
}

/// All numbers of a view.
pub fn all_pending(view: u64) -> PendingNumbers
    ensures { result ≡ whole_view view }
{
    PendingNumbers {
        view,
        low: 1,
        high: 0,
        beyond: 1,
    }
}

/// Notes that a word may be due for a number, if it is one of the pending view.
pub fn note_pending(pending: &mut PendingNumbers, v: u64, s: u64)
    ensures { IsNoted v s pending.old pending.new }
{
    if v != pending.view || s == 0 || s >= pending.beyond {
        return;
    }
    pending.low = pending.low.min(s);
    pending.high = pending.high.max(s + 1);
}

/// Notes that words may be due for all numbers of a view, if it is the pending one.
pub fn note_all_pending(pending: &mut PendingNumbers, v: u64)
    ensures { pending.new ≡ with_view v pending.old }
{
    if v == pending.view {
        *pending = all_pending(v);
    }
}

/// What is pending in a view: all of it, where another one was pending.
pub fn pending_in(pending: &PendingNumbers, view: u64) -> PendingNumbers
    ensures view { result.view ≡ view }
    ensures pending { (said there : ℕ → ℕ → Bool) → HasPending said there pending.now → HasPending said there result }
{
    if pending.view == view {
        *pending
    } else {
        all_pending(view)
    }
}

/// A number below which none is pending.
pub fn first_pending(pending: &PendingNumbers) -> u64
    ensures { (s : ℕ) → IsAmong pending.now s → result ≤ s }
{
    if pending.low < pending.high {
        pending.low.min(pending.beyond)
    } else {
        pending.beyond
    }
}

/// What is pending once all numbers below `end` were looked at.
pub fn pending_from(pending: &PendingNumbers, end: u64) -> PendingNumbers
    ensures { LooksFrom end pending.now result }
{
    let high = if pending.high <= end { 0 } else { pending.high };
    PendingNumbers {
        view: pending.view,
        low: pending.low.max(end),
        high,
        beyond: pending.beyond.max(end),
    }
}
