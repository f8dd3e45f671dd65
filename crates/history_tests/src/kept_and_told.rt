//! Stations: what comes is answered, kept and told, each entry's words behind its line, its notes behind these, and a failing file
//! or output ends it.
use outside::MemorySink;
use scenario_file::Scenario;
use station_files::{MemoryFile, ReadLines};
use stations::{Halt, actor_of, begin, live};
use std::alloc::Global;
use std::test::Fail;

const SCENARIO: &[u8] =
    b"f = 1\nseed = \"0000000000000000000000000000000000000000000000000000000000000000\"\nscreens = 1\n";

const BEGUN: &[u8] = b"note begun 0 left 32768\n";

const COMMANDS: &[u8] = b"command ack 0\ndance\npoll\nagain 0\ntorn";

/// What became of a life: how it ended, its file, how much of that is durable, and what it put out.
#[derive(Drop)]
struct Lived {
    answer: Result<(), Halt>,
    file: Vec<u8>,
    durable: usize,
    put: Vec<u8>,
}

// The life of an actor that kept these bytes before and is given this input, over a file and a sink of which these calls fail.
fn life_of(
    alloc: Global,
    name: &str,
    kept: &[u8],
    input: &[u8],
    failing: &[u64],
    failing_puts: &[u64],
) -> Result<Lived, Fail> {
    let scenario = Scenario::read(alloc, SCENARIO)?;
    let actor = actor_of(alloc, &scenario, name)?;
    let kept = Vec::from_slice(alloc, kept)?;
    let mut file = MemoryFile::make(alloc, kept, Vec::from_slice(alloc, failing)?, 5);
    let mut sink = MemorySink::make(alloc, Vec::from_slice(alloc, failing_puts)?);
    let mut lines = ReadLines::make(alloc, input)?;
    let mut station = begin(alloc, &scenario, None, actor, &mut file)?;
    let answer = live(&mut station, &mut lines, &mut file, &mut sink);
    Ok(Lived {
        answer,
        file: Vec::from_slice(alloc, file.bytes())?,
        durable: file.durable().len(),
        put: Vec::from_slice(alloc, sink.bytes())?,
    })
}

// The lines of a text.
fn lines_of(alloc: Global, text: &[u8]) -> Result<Vec<&str>, Fail> {
    let text = std::str::from_utf8(text)?;
    Ok(text.lines().collect(alloc)?)
}

// A file's first entry is its start.
#[test]
fn a_screen_says_its_command_once_it_is_kept(rt: HostRuntime) -> Result<(), Fail> {
    let alloc = rt.alloc();
    let first = life_of(alloc, "s0", b"", COMMANDS, &[], &[])?;
    assert_eq!(rt; first.answer, Ok(()));
    let kept = lines_of(alloc, first.file.as_slice())?;
    assert_eq!(rt; kept.len(), 2);
    assert!(rt; kept[0].starts_with("0 s0 restart digest "));
    assert!(rt; kept[1].starts_with("1 s0 command ack 0 says update digest "));
    assert_eq!(rt; first.file.last(), Some(&10));
    assert_eq!(rt; first.durable, first.file.len());
    let put = lines_of(alloc, first.put.as_slice())?;
    assert_eq!(rt; put.len(), 6);
    assert_eq!(rt; put[0], "note begun 0 left 32768");
    assert!(rt; put[1].starts_with("say m0,m1 "));
    assert_eq!(rt; put[2], "note badline");
    assert_eq!(rt; put[3], "note refused");
    assert_eq!(rt; put[4], put[1]);
    assert_eq!(rt; put[5], "note badline");
    let second = life_of(
        alloc,
        "s0",
        first.file.as_slice(),
        b"command ack 1\n",
        &[],
        &[],
    )?;
    assert!(rt; second.file.starts_with(first.file.as_slice()));
    let kept = lines_of(alloc, second.file.as_slice())?;
    assert_eq!(rt; kept.len(), 3);
    assert!(rt; kept[2].starts_with("2 s0 command ack 1 says update digest "));
    let put = lines_of(alloc, second.put.as_slice())?;
    assert_eq!(rt; put.len(), 2);
    assert_eq!(rt; put[0], "note begun 2 left 32767");
    Ok(())
}

// The first line of its first life is a frame.
#[test]
fn a_master_takes_a_frame_once(rt: HostRuntime) -> Result<(), Fail> {
    let alloc = rt.alloc();
    let screen = life_of(alloc, "s0", b"", COMMANDS, &[], &[])?;
    let put = lines_of(alloc, screen.put.as_slice())?;
    let frame = put.get(1).and_then(|word| word.strip_prefix("say m0,m1 "));
    let Some(frame) = frame else {
        return Err("no word".into());
    };
    let input = format!(in alloc; "took frame {frame}\ntook frame {frame}\ntook frame 00\n")?;
    let master = life_of(alloc, "m0", b"", input.as_bytes(), &[], &[])?;
    assert_eq!(rt; master.answer, Ok(()));
    let kept = lines_of(alloc, master.file.as_slice())?;
    assert_eq!(rt; kept.len(), 2);
    assert!(rt; kept[1].starts_with("1 m0 took frame "));
    let put = lines_of(alloc, master.put.as_slice())?;
    assert_eq!(rt; put.len(), 4);
    assert_eq!(rt; put[0], "note begun 0 left 32768");
    assert!(rt; put[1].starts_with("say m1,m2,m3 "));
    assert_eq!(rt; put[2], "note repeated");
    assert_eq!(rt; put[3], "note refused");
    let again = life_of(
        alloc,
        "m0",
        master.file.as_slice(),
        input.as_bytes(),
        &[],
        &[],
    )?;
    assert_eq!(rt;
        again.put.as_slice(),
        b"note begun 2 left 32767\nnote repeated\nnote repeated\nnote refused\n".as_slice()
    );
    Ok(())
}

// Of the calls the first reads the file and the second appends the start, which says nothing; the third appends what came, and
// the fourth settles. Of what is put the note of the start comes first.
#[test]
fn nothing_is_said_that_is_not_kept(rt: HostRuntime) -> Result<(), Fail> {
    let alloc = rt.alloc();
    for failing in [2u64, 3, 4] {
        let stopped = life_of(alloc, "s0", b"", COMMANDS, &[failing], &[])?;
        assert_eq!(rt; stopped.answer, Err(Halt::Keep));
        assert_eq!(rt; stopped.durable, 0);
        let noted = if failing == 2 { b"".as_slice() } else { BEGUN };
        assert_eq!(rt; stopped.put.as_slice(), noted);
    }
    let stopped = life_of(alloc, "s0", b"", COMMANDS, &[], &[1])?;
    assert_eq!(rt; stopped.answer, Err(Halt::Output));
    assert_eq!(rt; stopped.durable, 0);
    assert!(rt; stopped.put.is_empty());
    let stopped = life_of(alloc, "s0", b"", COMMANDS, &[], &[2])?;
    assert_eq!(rt; stopped.answer, Err(Halt::Output));
    assert_eq!(rt; stopped.durable, stopped.file.len());
    assert_eq!(rt; stopped.put.as_slice(), BEGUN);
    Ok(())
}
