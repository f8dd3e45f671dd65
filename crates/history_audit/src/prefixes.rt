ghost use Rattle.std.specs.Prelude.{◌≡◌, ◌↔◌, IsTrue, List, Option, option_copied};
ghost use Rattle.std.specs.List.{filter_map, starts_with};
ghost use Rattle.message_types.specs.declared.updates.Update.{Update as UpdateWord};
ghost use Rattle.history_rules.specs.Sameness.{is_same_update};
ghost use Rattle.world_rules.specs.Headline.{are_prefixes};
ghost use Rattle.history_audit.specs.Prefixes as lists;

use message_types::Update;
use plain_lists::Same;

/// What may have executed updates, as a master's bench has, and a client's or an intruded master's has not.
pub trait Executes {
    ghost executed: { Self → Option (List UpdateWord) };

    /// The updates executed, where there are such.
    fn executions(&self) -> Option<&[Update]>
        ensures { option_copied result ≡ executed self.now };
}

/// Whether of any two lists of executions one begins the other. All are compared with the longest.
pub fn all_prefixes<E: Executes>(holders: &[E]) -> bool
    ensures { result ≡ lists.all_prefixes (filter_map E.executed holders.now) }
{
    let longest = longest_of(holders);
    for holder in holders {
        if !begins_longest(holder.executions(), longest) {
            return false;
        }
    }
    true
}

// The first of the longest lists, the empty one where there is none.
fn longest_of<E: Executes>(holders: &[E]) -> &[Update]
    ensures { result.now ≡ lists.longest (filter_map E.executed holders.now) }
{
    let mut longest: &[Update] = &[];
    for holder in holders {
        longest = longer(longest, holder.executions());
    }
    longest
}

fn longer<'a>(longest: &'a [Update], other: Option<&'a [Update]>) -> &'a [Update]
    ensures { result.now ≡ lists.longer_of longest.entry.now (option_copied other.entry) }
{
    match other {
        Some(list) if list.len() > longest.len() => list,
        _ => longest,
    }
}

fn begins_longest(list: Option<&[Update]>, longest: &[Update]) -> bool
    ensures { result ≡ lists.begins_if longest.now (option_copied list.entry) }
{
    match list {
        Some(list) => begins(list, longest),
        None => true,
    }
}

/// Whether of two lists one begins the other.
pub fn one_begins(a: &[Update], b: &[Update]) -> bool
    ensures { result ≡ are_prefixes a.now b.now }
{
    begins(a, b) || begins(b, a)
}

fn begins(part: &[Update], whole: &[Update]) -> bool
    ensures { result ≡ starts_with is_same_update whole.now part.now }
{
    match whole.split_at_checked(part.len()) {
        Some((front, _)) => are_same(part, front),
        None => false,
    }
}

fn are_same(a: &[Update], b: &[Update]) -> bool
    ensures { IsTrue result ↔ (a.now ≡ b.now) }
{
    if a.len() != b.len() {
        return false;
    }
    for (place, update) in a.iter().enumerate() {
        if !update.is_same(&b[place]) {
            return false;
        }
    }
    true
}
