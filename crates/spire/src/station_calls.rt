//! Calls that live a station, over files in memory and a real file that is kept.
use crate::calls::words_of;
use crate::named_files::{File, call};
use outside::{MemoryFiles, MemorySink};
use station_commands::RealKeep;
use station_commands::call::station;
use station_files::{KeptFile, ReadLines, open_kept};
use std::alloc::Global;
use std::fs;
use std::sync::Wait;
use std::test::Fail;
use std::thread::Threads;

const SCENARIO: &[u8] =
    b"f = 1\nseed = \"0000000000000000000000000000000000000000000000000000000000000000\"\nlevels = [5]\nscreens = 1\n";

/// What a call ends in: its status, the line on the error output, and what was put to the output.
#[derive(Drop)]
struct Ending {
    status: u8,
    line: Vec<u8>,
    put: Vec<u8>,
}

fn files_of(alloc: Global, given: &[File<'_>]) -> Result<MemoryFiles, Fail> {
    let mut files = Vec::new(alloc);
    for (name, content) in given {
        files.push((
            String::from_str(alloc, name)?,
            Vec::from_slice(alloc, content)?,
        ))?;
    }
    Ok(MemoryFiles::make(alloc, files, Vec::new(alloc)))
}

// Lives a station that has its keys by a seed, and is given this input.
fn lived(rt: &HostRuntime, line: &str, input: &[u8]) -> Result<Ending, Fail> {
    let files: [File<'_>; 2] = [("scenario", SCENARIO), ("torn", b"f = ")];
    lived_over(rt, line, &files, input)
}

// Lives a station over these files.
fn lived_over(
    rt: &HostRuntime,
    line: &str,
    given: &[File<'_>],
    input: &[u8],
) -> Result<Ending, Fail> {
    let alloc = rt.alloc();
    let words = words_of(alloc, line)?;
    let mut files = files_of(alloc, given)?;
    let mut keep = RealKeep::make(alloc, rt);
    let mut lines = ReadLines::make(alloc, input)?;
    let mut out = MemorySink::make(alloc, Vec::new(alloc));
    let mut err = MemorySink::make(alloc, Vec::new(alloc));
    let status = station(
        alloc,
        words.as_slice(),
        &mut files,
        &mut keep,
        &mut lines,
        &mut out,
        &mut err,
    );
    Ok(Ending {
        status,
        line: Vec::from_slice(alloc, err.bytes())?,
        put: Vec::from_slice(alloc, out.bytes())?,
    })
}

/// Calls that touch no file that is kept, with their statuses and lines. The screen is actor 4.
const REFUSED: [(&str, u8, &str); 6] = [
    ("station scenario m0", 2, "spire: usage\n"),
    ("station scenario m0 none more", 2, "spire: usage\n"),
    ("station scenario m4 none", 2, "spire: usage\n"),
    ("station absent m0 none", 3, "spire: file absent fault\n"),
    ("station torn m0 none", 4, "spire: scenario BadToml\n"),
    (
        "station scenario m0 no_folder/none",
        3,
        "spire: file no_folder/none fault\n",
    ),
];

#[test]
fn nothing_is_kept_before_all_is_found_right(rt: HostRuntime) -> Result<(), Fail> {
    for (line, status, told) in REFUSED {
        let ending = lived(&rt, line, b"tick\n")?;
        assert_eq!(rt; ending.status, status, "{line}");
        assert!(rt; ending.line.as_slice() == told.as_bytes(), "{line}");
        assert!(rt; ending.put.is_empty(), "{line}");
        assert!(rt; fs::metadata(&rt, "none").is_err(), "{line}");
    }
    Ok(())
}

#[test]
fn a_station_lives_twice(rt: HostRuntime) -> Result<(), Fail> {
    let call = "station scenario m1 spire_station_twice";
    let first = lived(&rt, call, b"tick\n")?;
    assert_eq!(rt; first.status, 0);
    assert!(rt; first.line.is_empty());
    assert!(rt; first.put.starts_with(b"note begun 0 left 32\n"));
    let kept = fs::read(&rt, "spire_station_twice")?;
    let second = lived(&rt, call, b"")?;
    assert_eq!(rt; second.status, 0);
    assert!(rt; second.put.starts_with(b"note begun 2 left "));
    assert!(rt; fs::read(&rt, "spire_station_twice")?.as_slice() == kept.as_slice());
    let other = lived(&rt, "station scenario m2 spire_station_twice", b"tick\n")?;
    assert_eq!(rt; other.status, 5);
    assert!(rt; other.line.as_slice() == b"spire: keep NotLegal 0\n".as_slice());
    assert!(rt; other.put.is_empty());
    fs::remove_file(&rt, "spire_station_twice")?;
    Ok(())
}

/// Calls with files of keys that don't fit, with their statuses and lines.
const OTHER_KEYS: [(&str, u8, &str); 6] = [
    ("station seedless m1 none ring", 2, "spire: usage\n"),
    (
        "station seedless m1 none",
        4,
        "spire: scenario MissingKey seed\n",
    ),
    (
        "station scenario m1 none ring own",
        4,
        "spire: scenario UnknownKey seed\n",
    ),
    (
        "station seedless m1 none own own",
        5,
        "spire: ring BadLine 1\n",
    ),
    (
        "station seedless m2 none ring own",
        5,
        "spire: key BadLine 1\n",
    ),
    (
        "station seedless m1 spire_station_other ring other",
        5,
        "spire: key OtherKey\n",
    ),
];

/// The ring of the scenario, m1's own key, and m2's by the name of m1.
#[derive(Drop)]
struct Keys {
    ring: Vec<u8>,
    own: Vec<u8>,
    other: Vec<u8>,
}

// The line of an actor's key, by the name of m1.
fn renamed(alloc: Global, line: &[u8]) -> Result<Vec<u8>, Fail> {
    let mut renamed = Vec::from_slice(alloc, b"m1".as_slice())?;
    for byte in line.iter().skip(2) {
        renamed.push(*byte)?;
    }
    Ok(renamed)
}

fn keys_of<R: Threads + Wait + Sync>(rt: &R, alloc: Global) -> Result<Keys, Fail> {
    let scenario: [File<'_>; 1] = [("scenario", SCENARIO)];
    let ring = call(rt, alloc, "keys scenario", &scenario)?;
    let own = call(rt, alloc, "key scenario m1", &scenario)?;
    let other = call(rt, alloc, "key scenario m2", &scenario)?;
    Ok(Keys {
        ring: Vec::from_slice(alloc, &ring.put)?,
        own: Vec::from_slice(alloc, &own.put)?,
        other: renamed(alloc, &other.put)?,
    })
}

// Lives a station over the scenario, with its seed and without, and these keys.
fn lived_with(rt: &HostRuntime, line: &str, keys: &Keys) -> Result<Ending, Fail> {
    let files: [File<'_>; 5] = [
        ("scenario", SCENARIO),
        ("seedless", b"f = 1\nlevels = [5]\nscreens = 1\n"),
        ("ring", keys.ring.as_slice()),
        ("own", keys.own.as_slice()),
        ("other", keys.other.as_slice()),
    ];
    lived_over(rt, line, &files, b"tick\n")
}

#[test]
fn a_station_lives_by_its_own_key_as_by_the_seed(rt: HostRuntime) -> Result<(), Fail> {
    let keys = keys_of(&rt, rt.alloc())?;
    let by_seed = lived_with(&rt, "station scenario m1 spire_station_seed", &keys)?;
    let by_key = lived_with(&rt, "station seedless m1 spire_station_own ring own", &keys)?;
    assert_eq!(rt; by_seed.status, 0);
    assert_eq!(rt; by_key.status, 0);
    assert!(rt; by_key.put.as_slice() == by_seed.put.as_slice());
    let kept = fs::read(&rt, "spire_station_seed")?;
    assert!(rt; !kept.is_empty());
    assert!(rt; fs::read(&rt, "spire_station_own")?.as_slice() == kept.as_slice());
    fs::remove_file(&rt, "spire_station_seed")?;
    fs::remove_file(&rt, "spire_station_own")?;
    Ok(())
}

#[test]
fn keys_that_do_not_fit_are_refused(rt: HostRuntime) -> Result<(), Fail> {
    let keys = keys_of(&rt, rt.alloc())?;
    for (line, status, told) in OTHER_KEYS {
        let ending = lived_with(&rt, line, &keys)?;
        assert_eq!(rt; ending.status, status, "{line}");
        assert!(rt; ending.line.as_slice() == told.as_bytes(), "{line}");
        assert!(rt; ending.put.is_empty(), "{line}");
    }
    fs::remove_file(&rt, "spire_station_other")?;
    Ok(())
}

#[test]
fn a_file_is_refused_by_its_line_or_as_in_use(rt: HostRuntime) -> Result<(), Fail> {
    let call = "station scenario m1 spire_station_used";
    let mut held = open_kept(rt.alloc(), &rt, "spire_station_used")?;
    let second = lived(&rt, call, b"tick\n")?;
    assert_eq!(rt; second.status, 3);
    assert!(rt; second.line.as_slice() == b"spire: keep InUse\n".as_slice());
    held.append(b"dance\n")?;
    drop(held);
    let third = lived(&rt, call, b"tick\n")?;
    assert_eq!(rt; third.status, 5);
    assert!(rt; third.line.as_slice() == b"spire: keep BadLine 1\n".as_slice());
    assert!(rt; third.put.is_empty());
    fs::remove_file(&rt, "spire_station_used")?;
    Ok(())
}
