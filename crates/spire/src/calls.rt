//! Calls of the program over files in memory.
use crate::named_files::{File, call_failing};
use std::alloc::Global;
use std::process::Abort;
use std::sync::Wait;
use std::test::Fail;
use std::thread::Threads;

/// What each scenario begins with: masters 0 to 3.
const BEGINNING: &str =
    "f = 1\nseed = \"0000000000000000000000000000000000000000000000000000000000000000\"\n";

/// One screen.
pub(crate) const ONE_SCREEN: &str = "screens = 1\n";

/// An operator's command that is seen through.
pub(crate) const ONE_COMMAND: &str =
    "command s0 ack 0\nflow 3\ntick masters\nflow 1\ntick m0\nflow 5\n";

/// The command of a play.
pub(crate) const PLAY: &str = "play scenario script words";

/// A scenario with these other keys, the script and words of a play, and a history.
#[derive(Clone, Copy)]
pub(crate) struct Given<'a> {
    pub(crate) keys: &'a str,
    pub(crate) script: &'a str,
    pub(crate) words: &'a str,
    pub(crate) history: &'a str,
}

impl<'a> Given<'a> {
    /// What a play is given.
    pub(crate) fn play(keys: &'a str, script: &'a str, words: &'a str) -> Given<'a> {
        Given {
            keys,
            script,
            words,
            history: "",
        }
    }

    /// Its files, with this scenario.
    fn files(self, scenario: &'a str) -> [File<'a>; 4] {
        [
            ("scenario", scenario.as_bytes()),
            ("script", self.script.as_bytes()),
            ("words", self.words.as_bytes()),
            ("history", self.history.as_bytes()),
        ]
    }
}

/// The calls that fail: one of a load, one of a put to the output, and one of a put to the error output. 0 is none.
#[derive(Clone, Copy)]
pub(crate) struct Failing {
    pub(crate) load: u64,
    pub(crate) put: u64,
    pub(crate) line: u64,
}

/// No call fails.
pub(crate) const NONE_FAILS: Failing = Failing {
    load: 0,
    put: 0,
    line: 0,
};

/// What a call ends in: its status, the line on the error output, and the text on the output.
#[derive(Drop)]
pub(crate) struct Ending {
    pub(crate) status: u8,
    pub(crate) line: String,
    pub(crate) text: String,
}

/// The words of a command in one line.
pub(crate) fn words_of(alloc: Global, line: &str) -> Result<Vec<String>, Fail> {
    let mut words = Vec::new(alloc);
    for word in line.split(' ') {
        words.push(String::from_str(alloc, word)?)?;
    }
    Ok(words)
}

/// The text of a scenario with these other keys.
fn scenario_of(alloc: Global, keys: &str) -> Result<String, Fail> {
    let mut scenario = String::from_str(alloc, BEGINNING)?;
    scenario.push_str(keys)?;
    Ok(scenario)
}

fn text_of(alloc: Global, bytes: &[u8]) -> Result<String, Fail> {
    match std::str::from_utf8(bytes) {
        Ok(text) => Ok(String::from_str(alloc, text)?),
        Err(_) => Err("no text".into()),
    }
}

/// What a call with this status, line and text ends in.
fn ending_of(alloc: Global, status: u8, line: &[u8], text: &[u8]) -> Result<Ending, Fail> {
    let line = text_of(alloc, line)?;
    let text = text_of(alloc, text)?;
    Ok(Ending { status, line, text })
}

/// Runs a command over these files, where some calls fail.
pub(crate) fn ended<R: Threads + Wait + Sync>(
    rt: &R,
    alloc: Global,
    command: &str,
    given: Given<'_>,
    failing: Failing,
) -> Result<Ending, Fail> {
    let scenario = scenario_of(alloc, given.keys)?;
    let files = given.files(scenario.as_str());
    let called = call_failing(rt, alloc, command, &files, failing)?;
    ending_of(alloc, called.status, &called.line, &called.put)
}

impl Ending {
    /// The text of a call that is seen through.
    pub(crate) fn whole(self) -> Result<String, Fail> {
        let Ending { status, line, text } = self;
        if status != 0 || !line.is_empty() {
            return Err("the call is refused".into());
        }
        Ok(text)
    }

    /// The line of a call that is refused with this status and puts nothing.
    pub(crate) fn refused(self, wanted: u8) -> Result<String, Fail> {
        let Ending { status, line, text } = self;
        if status != wanted || !text.is_empty() {
            return Err("another status, or a text".into());
        }
        Ok(line)
    }
}

/// The text of a command that is seen through.
pub(crate) fn text_by<R: Threads + Wait + Sync>(
    rt: &R,
    alloc: Global,
    command: &str,
    given: Given<'_>,
) -> Result<String, Fail> {
    let ending = ended(rt, alloc, command, given, NONE_FAILS)?;
    ending.whole()
}

/// The text of a play of a scenario with these other keys.
pub(crate) fn played<R: Threads + Wait + Sync>(
    rt: &R,
    alloc: Global,
    keys: &str,
    script: &str,
    words: &str,
) -> Result<String, Fail> {
    text_by(rt, alloc, PLAY, Given::play(keys, script, words))
}

/// How often a line stands in a text.
pub(crate) fn count_of(text: &str, line: &str) -> usize {
    text.lines().filter(|it| *it == line).count()
}

/// Plays, and wants a text that begins with this head and in which each of these lines stands so often.
pub(crate) fn shows<R: Threads + Wait + Sync + Abort>(
    rt: &R,
    alloc: Global,
    given: Given<'_>,
    head: &str,
    lines: &[(&str, usize)],
) -> Result<(), Fail> {
    let text = text_by(rt, alloc, PLAY, given)?;
    assert!(rt; text.as_str().starts_with(head));
    for (line, count) in lines {
        assert_eq!(rt; count_of(text.as_str(), line), *count, "{line}");
    }
    Ok(())
}
