//! Lines as a user types them, cut at the spaces: what each asks for, and which are refused.
use command_words::{Asked, WordsAnswer, read_words};
use std::alloc::Global;
use std::process::Abort;
use std::test::Fail;

fn words_of(alloc: Global, line: &str) -> Result<Vec<String>, Fail> {
    let mut words = Vec::new(alloc);
    for word in line.split(' ') {
        words.push(String::from_str(alloc, word)?)?;
    }
    Ok(words)
}

/// Wants a line to ask for this.
fn asks(rt: &impl Abort, alloc: Global, line: &str, asked: Asked<'_>) -> Result<(), Fail> {
    let words = words_of(alloc, line)?;
    assert_eq!(rt; read_words(alloc, words.as_slice())?, asked, "{line}");
    Ok(())
}

#[test]
fn commands_over_scripts_and_histories(rt: HostRuntime) -> Result<(), Fail> {
    let play = Asked::Play {
        scenario: "s",
        script: "p",
        words: "w",
    };
    let run = Asked::Run {
        scenario: "s",
        script: "p",
        words: "w",
        hands: 2,
        turns: 9,
    };
    let replay = Asked::Replay {
        scenario: "s",
        history: "h",
    };
    let blame = Asked::Blame {
        scenario: "s",
        history: "-h",
    };
    let trend = Asked::Trend {
        scenario: "s",
        history: "h",
        point: 1,
        first: 0,
        last: 4294967295,
    };
    let delays = Asked::Delays {
        scenario: "s",
        history: "h",
    };
    let page = Asked::Page {
        scenario: "s",
        history: "h",
    };
    let part = Asked::Picture {
        scenario: "s",
        history: "h",
        first: Some(3),
        last: None,
        width: Some(700),
    };
    let plot = Asked::Plot {
        scenario: "s",
        history: "h",
        point: 1,
        width: None,
    };
    let chart = Asked::Chart {
        scenario: "s",
        history: "h",
        width: Some(4000),
    };
    for (line, asked) in [
        ("play s p w", play),
        ("run s --turns 009 p --hands=+2 w", run),
        ("replay s h", replay),
        ("blame s -- -h", blame),
        ("trend s h 1 0 4294967295", trend),
        ("delays s h", delays),
        ("page s h", page),
        ("picture s --width=700 h 3", part),
        ("plot s h 1", plot),
        ("chart s h --width 4000", chart),
    ] {
        asks(&rt, rt.alloc(), line, asked)?;
    }
    Ok(())
}

#[test]
fn commands_over_keys_and_parts(rt: HostRuntime) -> Result<(), Fail> {
    let verify = Asked::Verify {
        public: "k",
        message: "m",
        signature: "help",
    };
    let parts = Asked::Parts {
        scenario: "s",
        history: "h",
        originator: 3,
        number: 12,
    };
    let rebuild = Asked::Rebuild {
        scenario: "s",
        pieces: "p",
    };
    let key = Asked::Key {
        scenario: "s",
        actor: "m0",
    };
    for (line, asked) in [
        ("make -- +7", Asked::Make { number: 7 }),
        ("keys s", Asked::Keys { scenario: "s" }),
        ("key s m0", key),
        ("verify k m help", verify),
        ("parts s h 3 12", parts),
        ("rebuild s p", rebuild),
    ] {
        asks(&rt, rt.alloc(), line, asked)?;
    }
    Ok(())
}

#[test]
fn a_merge_is_of_one_file_or_more(rt: HostRuntime) -> Result<(), Fail> {
    let one = ["a"];
    let three = ["a", "b", "a"];
    for (line, keeps) in [
        ("merge s a", one.as_slice()),
        ("merge s a b a", three.as_slice()),
    ] {
        let asked = Asked::Merge {
            scenario: "s",
            keeps: Vec::from_slice(rt.alloc(), keeps)?,
        };
        asks(&rt, rt.alloc(), line, asked)?;
    }
    Ok(())
}

#[test]
fn other_words_are_refused(rt: HostRuntime) -> Result<(), Fail> {
    let none = Vec::new(rt.alloc());
    assert_eq!(rt;
        read_words(rt.alloc(), none.as_slice()),
        Err(WordsAnswer::Usage)
    );
    let lines = [
        "--help",
        "help play",
        "play s p",
        "play s p w x",
        "Play s p w",
        "pl s p w",
        "make -0",
        "make 4294967296",
        "make x",
        "run s p w --hands 5 --turns 9",
        "run s p w --hands 2",
        "run s p w --hands 2 --hands 2 --turns 9",
        "play -x s p w",
        "plot s h",
        "merge s",
        "picture s h --width 599",
        "chart s h --width 4001",
    ];
    for line in lines {
        let words = words_of(rt.alloc(), line)?;
        assert_eq!(rt;
            read_words(rt.alloc(), words.as_slice()),
            Err(WordsAnswer::Usage)
        );
    }
    Ok(())
}
