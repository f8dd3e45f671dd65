//! What replays print.
use crate::calls::{Given, NONE_FAILS, ONE_COMMAND, ONE_SCREEN, ended, played, text_by};
use std::alloc::Global;
use std::test::Fail;

/// The text with the first place of `old` replaced.
fn replaced(alloc: Global, text: &str, old: &str, new: &str) -> Result<String, Fail> {
    let Some((before, after)) = text.split_once(old) else {
        return Err("not in the text".into());
    };
    let mut changed = String::from_str(alloc, before)?;
    changed.push_str(new)?;
    changed.push_str(after)?;
    Ok(changed)
}

fn of_history(history: &str) -> Given<'_> {
    Given {
        keys: ONE_SCREEN,
        script: "",
        words: "",
        history,
    }
}

/// Only the entries of a text count for its replay.
#[test]
fn a_replay_doesnt_believe_the_verdict(rt: HostRuntime) -> Result<(), Fail> {
    let alloc = rt.alloc();
    let text = played(&rt, alloc, ONE_SCREEN, ONE_COMMAND, "")?;
    let other = replaced(alloc, text.as_str(), "agree yes", "agree no")?;
    let again = text_by(
        &rt,
        alloc,
        "replay scenario history",
        of_history(other.as_str()),
    )?;
    assert!(rt; again.as_str() == text.as_str());
    Ok(())
}

#[test]
fn an_entry_that_says_another_word_is_not_legal(rt: HostRuntime) -> Result<(), Fail> {
    let alloc = rt.alloc();
    let text = played(&rt, alloc, ONE_SCREEN, ONE_COMMAND, "")?;
    let other = replaced(alloc, text.as_str(), "says preprepare", "says prepare")?;
    let ending = ended(
        &rt,
        alloc,
        "replay scenario history",
        of_history(other.as_str()),
        NONE_FAILS,
    )?;
    assert_eq!(rt; ending.status, 5);
    assert_eq!(rt; ending.line.as_str(), "spire: history NotLegal 49\n");
    assert!(rt; ending.text.is_empty());
    Ok(())
}

#[test]
fn a_text_without_its_entries_ends_too_soon(rt: HostRuntime) -> Result<(), Fail> {
    let alloc = rt.alloc();
    let text = played(&rt, alloc, ONE_SCREEN, ONE_COMMAND, "")?;
    let Some((head, _)) = text.as_str().split_once("0 s0 command") else {
        return Err("no entry".into());
    };
    let ending = ended(
        &rt,
        alloc,
        "replay scenario history",
        of_history(head),
        NONE_FAILS,
    )?;
    assert_eq!(rt; ending.status, 5);
    assert_eq!(rt; ending.line.as_str(), "spire: history BadLine 15\n");
    Ok(())
}

/// Frames of one entry under one signature change no text.
#[test]
fn signatures_in_groups_show_in_no_text(rt: HostRuntime) -> Result<(), Fail> {
    let alloc = rt.alloc();
    let alone = played(&rt, alloc, ONE_SCREEN, ONE_COMMAND, "")?;
    let grouped = played(&rt, alloc, "screens = 1\nframes = 2\n", ONE_COMMAND, "")?;
    assert!(rt; grouped.as_str() == alone.as_str());
    Ok(())
}
