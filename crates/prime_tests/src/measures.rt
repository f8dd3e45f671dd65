ghost use Rattle.std.specs.Prelude.{◌≡◌, ◌+◌, ◌^◌, ◌≤◌, IfOk, OnOk};

use message_types::{Body, Ping, Pong, Rtt, Suspect, TatBound, TatReport};
use plain_lists::{Same, Want};
use quorum_sets::Sizes;
use std::alloc::Global;
use std::test::Fail;
use suspect_leader::Measure;

/// The measures of a master of four, of whom one may be intruded.
fn measure_of_four(alloc: Global, me: u32) -> Result<Measure, Fail>
    ensures { IfOk result (λ measure. measure.ticks ≡ 0) }
{
    Ok(Measure::new(alloc, Sizes::new(1, 0)?, me))
}

fn four_ticks(measure: &mut Measure, waits: bool) -> Result<(), Want>
    requires { measure.old.ticks + 4 ≤ 2 ^ 32 }
    ensures { OnOk result (measure.new.ticks ≡ measure.old.ticks + 4) }
{
    measure.tick(0, waits)?;
    measure.tick(0, waits)?;
    measure.tick(0, waits)?;
    measure.tick(0, waits)
}

fn eight_ticks(measure: &mut Measure, waits: bool) -> Result<(), Want>
    requires { measure.old.ticks + 8 ≤ 2 ^ 32 }
    ensures { OnOk result (measure.new.ticks ≡ measure.old.ticks + 8) }
{
    four_ticks(measure, waits)?;
    four_ticks(measure, waits)
}

fn take_report(measure: &mut Measure, signer: u32, ticks: u64) -> Result<(), Want> {
    measure.take(signer, &Body::TatReport(TatReport { v: 0, ticks }))
}

/// Has masters 0, 1 and 2 report these ticks for view 0.
fn take_reports(measure: &mut Measure, ticks: [u64; 3]) -> Result<(), Want> {
    take_report(measure, 0, ticks[0])?;
    take_report(measure, 1, ticks[1])?;
    take_report(measure, 2, ticks[2])
}

fn take_bound(measure: &mut Measure, signer: u32, ticks: u64) -> Result<(), Want> {
    measure.take(signer, &Body::TatBound(TatBound { v: 0, ticks }))
}

fn take_ping(measure: &mut Measure, signer: u32) -> Result<(), Want> {
    measure.take(signer, &Body::Ping(Ping { number: 1 }))
}

fn take_pong(measure: &mut Measure, signer: u32) -> Result<(), Want> {
    measure.take(signer, &Body::Pong(Pong { to: 0, number: 1 }))
}

/// Has a master tell master 0 of a round trip of no tick.
fn take_round_trip(measure: &mut Measure, signer: u32) -> Result<(), Want> {
    let word = Rtt {
        to: 0,
        number: 1,
        ticks: 0,
    };
    measure.take(signer, &Body::Rtt(word))
}

/// Whether what is due at an event is this word alone.
fn is_due(measure: &mut Measure, at_tick: bool, word: &Body) -> Result<bool, Want> {
    let bodies = measure.due(0, at_tick)?;
    Ok(match bodies.as_slice() {
        [body] => body.is_same(word),
        _ => false,
    })
}

fn count_due(measure: &mut Measure) -> Result<usize, Want> {
    Ok(measure.due(0, true)?.len())
}

fn figures(measure: &mut Measure) -> Result<[u64; 2], Want> {
    take_reports(measure, [8, 24, 16])?;
    take_bound(measure, 1, 6)?;
    take_bound(measure, 2, 10)?;
    Ok([measure.leader_turnaround(0), measure.acceptable(0)])
}

/// Of four masters with one intruded the second lowest report and the second highest bound count.
#[test]
fn turnaround_and_what_is_acceptable(rt: HostRuntime) -> Result<(), Fail> {
    let mut measure = measure_of_four(rt.alloc(), 0)?;
    assert_eq!(rt; figures(&mut measure)?, [8, 16]);
    Ok(())
}

/// Whether master 2 owes a pong alone to master 3, where both said a ping.
fn is_pong_due(measure: &mut Measure) -> Result<bool, Want> {
    measure.still(0, false);
    take_ping(measure, 3)?;
    take_ping(measure, 2)?;
    is_due(measure, false, &Body::Pong(Pong { to: 3, number: 1 }))
}

#[test]
fn pings_of_others_are_answered(rt: HostRuntime) -> Result<(), Fail> {
    let mut measure = measure_of_four(rt.alloc(), 2)?;
    assert!(rt; is_pong_due(&mut measure)?);
    Ok(())
}

fn is_trip_due(measure: &mut Measure, to: u32) -> Result<bool, Want> {
    let word = Rtt {
        to,
        number: 1,
        ticks: 0,
    };
    is_due(measure, false, &Body::Rtt(word))
}

/// Whether the ping is due alone at the sixteenth tick, and at the next event the round trip of a pong that came before it,
/// and then that of one that comes at once.
fn ping_and_trips_due(measure: &mut Measure) -> Result<[bool; 3], Want>
    requires { measure.old.ticks ≡ 0 }
{
    eight_ticks(measure, false)?;
    eight_ticks(measure, false)?;
    take_pong(measure, 2)?;
    let ping = is_due(measure, true, &Body::Ping(Ping { number: 1 }))?;
    let early = is_trip_due(measure, 2)?;
    take_pong(measure, 1)?;
    Ok([ping, early, is_trip_due(measure, 1)?])
}

#[test]
fn round_trips_of_no_tick(rt: HostRuntime) -> Result<(), Fail> {
    let mut measure = measure_of_four(rt.alloc(), 0)?;
    assert_eq!(rt; ping_and_trips_due(&mut measure)?, [true, true, true]);
    Ok(())
}

fn is_own_bound_due(measure: &mut Measure) -> Result<bool, Want>
    requires { measure.old.ticks ≡ 0 }
{
    measure.tick(0, false)?;
    take_round_trip(measure, 1)?;
    take_round_trip(measure, 2)?;
    is_due(measure, true, &Body::TatBound(TatBound { v: 0, ticks: 4 }))
}

/// Two round trips of no tick make a bound of four ticks.
#[test]
fn round_trips_make_the_own_bound(rt: HostRuntime) -> Result<(), Fail> {
    let mut measure = measure_of_four(rt.alloc(), 0)?;
    assert!(rt; is_own_bound_due(&mut measure)?);
    Ok(())
}

fn is_report_due(measure: &mut Measure) -> Result<bool, Want>
    requires { measure.old.ticks ≡ 0 }
{
    eight_ticks(measure, true)?;
    is_due(
        measure,
        true,
        &Body::TatReport(TatReport { v: 0, ticks: 8 }),
    )
}

/// Eight ticks of waiting are reported.
#[test]
fn waiting_is_reported(rt: HostRuntime) -> Result<(), Fail> {
    let mut measure = measure_of_four(rt.alloc(), 3)?;
    assert!(rt; is_report_due(&mut measure)?);
    Ok(())
}

/// Whether a vote is due alone, and how many words are due after it.
fn votes_due(measure: &mut Measure) -> Result<(bool, usize), Want>
    requires { measure.old.ticks ≡ 0 }
{
    measure.tick(0, false)?;
    take_reports(measure, [24, 24, 24])?;
    let is_vote = is_due(measure, true, &Body::Suspect(Suspect { v: 0 }))?;
    Ok((is_vote, count_due(measure)?))
}

/// Twenty-four ticks are above the sixteen that are acceptable where no bound is known.
#[test]
fn a_slow_leader_is_voted_against_once(rt: HostRuntime) -> Result<(), Fail> {
    let mut measure = measure_of_four(rt.alloc(), 3)?;
    assert_eq!(rt; votes_due(&mut measure)?, (true, 0));
    Ok(())
}
