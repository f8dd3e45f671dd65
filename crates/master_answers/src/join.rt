ghost use Rattle.std.specs.Prelude.{◌≡◌, ◌++◌, IfOk, OnOk};
ghost use Rattle.std.specs.Option.{option_to_list};

use crate::{GiftsSaid, Split};
use message_types::Body;
use plain_lists::{Want, extend_option};
use std::alloc::Global;

/// The words first, then those of the other lists in turn.
pub(crate) fn join_first(
    first: Vec<Body>,
    at_a_tick: Vec<Body>,
    orders: Vec<Body>,
    measures: Vec<Body>,
    views: Vec<Body>,
) -> Result<Vec<Body>, Want>
    ensures { IfOk result (λ all. all.items ≡ first.items ++ at_a_tick.items ++ orders.items ++ measures.items ++ views.items) }
{
    let mut all = first;
    add(&mut all, at_a_tick)?;
    add(&mut all, orders)?;
    add(&mut all, measures)?;
    add(&mut all, views)?;
    Ok(all)
}

/// The words said so far, then those of the other lists in turn.
pub(crate) fn join_last(
    first: Vec<Body>,
    asks: Split,
    gifts: GiftsSaid,
    vouchers: Vec<Body>,
    marks: Vec<Body>,
) -> Result<Vec<Body>, Want>
    ensures { IfOk result (λ all. all.items ≡ first.items ++ asks.early.items ++ gifts.gives.items ++ asks.late.items ++ gifts.orders.items ++ vouchers.items ++ marks.items) }
{
    let mut all = first;
    add(&mut all, asks.early)?;
    add(&mut all, gifts.gives)?;
    add(&mut all, asks.late)?;
    add(&mut all, gifts.orders)?;
    add(&mut all, vouchers)?;
    add(&mut all, marks)?;
    Ok(all)
}

/// One word or two, where they are there.
pub(crate) fn both(
    alloc: Global,
    first: Option<Body>,
    second: Option<Body>,
) -> Result<Vec<Body>, Want>
    ensures { IfOk result (λ words. words.items ≡ option_to_list first ++ option_to_list second) }
{
    let mut words = Vec::new(alloc);
    extend_option(&mut words, first)?;
    extend_option(&mut words, second)?;
    Ok(words)
}

fn add(words: &mut Vec<Body>, more: Vec<Body>) -> Result<(), Want>
    ensures { OnOk result (words.new.items ≡ words.old.items ++ more.items) }
{
    let mut more = more;
    words.append(&mut more)?;
    Ok(())
}
