ghost use Rattle.std.specs.Prelude.{◌≡◌, ◌≤◌, length, slice_index, OnOk};
ghost use Rattle.leader_proposals.specs.Counting.{KnowsFewRows};

use crate::matrices::take_numbers;
use global_order::Order;
use leader_proposals::{Proposer, Summary, Vouchers};
use message_types::{Body, Order as ClientOrder};
use plain_lists::Want;
use quorum_sets::Sizes;
use std::alloc::Global;
use std::test::Fail;
use summary_matrix::{Matrix, Reach};

/// What a leader goes by where it offers.
#[derive(Drop)]
struct Leading {
    order: Order,
    matrix: Matrix,
    proposer: Proposer,
}

/// A leader that knows nothing.
fn knowing_nothing(alloc: Global, sizes: Sizes) -> Leading
    ensures few { KnowsFewRows result.order }
    ensures masters { result.matrix.group.n ≡ sizes.n }
    ensures view { result.proposer.progress.view ≡ 0 }
{
    Leading {
        order: Order::new(alloc, sizes),
        matrix: Matrix::new(alloc, sizes),
        proposer: Proposer::new(sizes),
    }
}

/// Has a matrix of four masters take summaries of three, the third up to this number.
fn sum_up(alloc: Global, matrix: &mut Matrix, third: u64) -> Result<(), Want>
    requires masters { matrix.old.group.n ≡ 4 }
    requires small { third ≤ 4096 }
{
    take_numbers(alloc, matrix, 0, [1, 0, 0, 0])?;
    take_numbers(alloc, matrix, 1, [1, 0, 0, 0])?;
    take_numbers(alloc, matrix, 2, [third, 0, 0, 0])
}

/// The number that the leader of view 0 offers next.
fn number_offered(leading: &mut Leading) -> Result<Option<u64>, Want>
    requires few { KnowsFewRows leading.old.order }
    requires view { leading.old.proposer.progress.view ≡ 0 }
{
    let word = leading
        .proposer
        .due(&leading.order, &leading.matrix, true, 0, true, true)?;
    Ok(number_of(&word))
}

fn number_of(word: &Option<Body>) -> Option<u64> {
    match word {
        Some(Body::PrePrepare(word)) => Some(word.s),
        _ => None,
    }
}

/// The number that the leader of four masters offers first, where three of them summed up, the third up to this number.
fn first_number(alloc: Global, sizes: Sizes, third: u64) -> Result<Option<u64>, Want>
    requires masters { sizes.n ≡ 4 }
    requires small { third ≤ 4096 }
{
    let mut leading = knowing_nothing(alloc, sizes);
    sum_up(alloc, &mut leading.matrix, third)?;
    number_offered(&mut leading)
}

/// What three of four masters have certified is offered.
#[test]
fn a_leader_offers_what_a_quorum_certified(rt: HostRuntime) -> Result<(), Fail> {
    let sizes = Sizes::new(1, 0)?;
    assert_eq!(rt; sizes.n, 4);
    assert_eq!(rt; first_number(rt.alloc(), sizes, 1)?, Some(1));
    assert_eq!(rt; first_number(rt.alloc(), sizes, 0)?, None);
    Ok(())
}

/// How long the summary said is, 0 where none is.
fn length_summed_up(summary: &mut Summary, numbers: &Reach) -> Result<usize, Want> {
    match summary.due(numbers, true)? {
        Some(Body::PoSummary(word)) => Ok(word.numbers.len()),
        _ => Ok(0),
    }
}

/// The lengths where a vector is of zeros, where it has grown, and where it stayed since.
fn lengths_summed_up(summary: &mut Summary) -> Result<[usize; 3], Want> {
    let mut reach = Reach::none();
    let zeros = length_summed_up(summary, &reach)?;
    reach.numbers[2] = 5;
    let grown = length_summed_up(summary, &reach)?;
    let again = length_summed_up(summary, &reach)?;
    Ok([zeros, grown, again])
}

#[test]
fn a_vector_is_summed_up_once(rt: HostRuntime) -> Result<(), Fail> {
    let mut summary = Summary::new(rt.alloc(), Sizes::new(1, 1)?);
    let lengths = lengths_summed_up(&mut summary)?;
    assert_eq!(rt; lengths, [0, 6, 0]);
    Ok(())
}

/// The number of the last voucher due for client 1, 0 where none is.
fn last_vouched(alloc: Global, vouchers: &mut Vouchers, orders: &[ClientOrder]) -> Result<u64, Want>
    requires { slice_index vouchers.old.counts 1 ≤ length orders.now }
    ensures { OnOk result (slice_index vouchers.new.counts 1 ≤ length orders.now) }
{
    let mut bodies = Vec::new(alloc);
    vouchers.due_for(&mut bodies, 1, orders)?;
    Ok(number_vouched(bodies.last()))
}

fn number_vouched(body: Option<&Body>) -> u64 {
    match body {
        Some(Body::Voucher(word)) => word.number,
        _ => 0,
    }
}

/// The last vouchers where one order is known, where two are, and then.
fn numbers_vouched(alloc: Global) -> Result<[u64; 3], Want> {
    let order = ClientOrder::Write { point: 1, raw: 2 };
    let mut vouchers = Vouchers::none();
    let one = last_vouched(alloc, &mut vouchers, &[order])?;
    let two = last_vouched(alloc, &mut vouchers, &[order, order])?;
    let again = last_vouched(alloc, &mut vouchers, &[order, order])?;
    Ok([one, two, again])
}

#[test]
fn each_order_is_vouched_for_once(rt: HostRuntime) -> Result<(), Fail> {
    assert_eq!(rt; numbers_vouched(rt.alloc())?, [1, 2, 0]);
    Ok(())
}
