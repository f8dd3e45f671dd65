//! What a new view takes over.
use crate::scripts::played;
use message_types::{Body, NewView};
use std::alloc::Global;
use std::test::Fail;
use world_history::Kept;

/// A command that is seen through.
const ROUND: &str = "command s0 ack 0\nflow 4\ntick masters\nflow 1\ntick m0\nflow 5\n";

/// The leader is lost, and the others wait until they go on without it.
const LEADER_LOST: &str =
    "lose m0\ncommand s0 ack 0\nflow 4\ntick masters\nflow 1\ntick masters 24\nflow 1\ntick masters\nflow 3\n";

/// Ten commands, and an eleventh that the leader doesn't see.
fn script_of(alloc: Global) -> Result<String, Fail> {
    let mut script = String::new(alloc);
    for _round in 0..10u64 {
        script.push_str(ROUND)?;
    }
    script.push_str(LEADER_LOST)?;
    Ok(script)
}

/// The first new view that an actor said.
fn new_view_of(kept: &Kept) -> Option<&NewView> {
    for entry in kept.bench().list() {
        for body in entry.said.as_slice() {
            if let Body::NewView(word) = body {
                return Some(word);
            }
        }
    }
    None
}

/// The greatest number that a certificate of the new view is of, 0 where it holds none.
fn greatest_number(word: &NewView) -> u64 {
    let mut greatest = 0u64;
    for report in word.reports.as_slice() {
        for certificate in report.body.certificates.as_slice() {
            greatest = greatest.max(certificate.s);
        }
    }
    greatest
}

#[test]
fn a_new_view_begins_at_the_stable_number(rt: HostRuntime) -> Result<(), Fail> {
    let script = script_of(rt.alloc())?;
    let kept = played(rt.alloc(), "screens = 1\n", script.as_str(), "")??;
    let Some(leader) = kept.get(1) else {
        return Err("no such master".into());
    };
    let Some(word) = new_view_of(leader) else {
        return Err("no new view".into());
    };
    assert_eq!(rt; word.v, 1);
    assert_eq!(rt; word.reports.len(), 3);
    for report in word.reports.as_slice() {
        assert_eq!(rt; report.body.base, 8);
    }
    // So two numbers are taken over: the ninth and the tenth.
    assert_eq!(rt; greatest_number(word), 10);
    Ok(())
}
