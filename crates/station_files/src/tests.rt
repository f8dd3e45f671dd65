//! What no clause can say: what the system does with a real file, which of a reader's pieces make a line, and that calls succeed.
use crate::{
    Batch, Came, KeptFile, LineAnswer, Lines, MemoryFile, OpenAnswer, ReadLines, ReleaseAnswer,
    open_kept,
};
use outside::{LoadAnswer, MemorySink};
use std::alloc::{AllocError, Global};
use std::fs::OpenOptions;
use std::io::{Read, Write};
use std::rt::Files;
use std::test::Fail;
use std::{fs, io};

const FIRST: &[u8] = b"entry 1 tick m1\n";

/// A line of bytes that are no text, a zero and a carriage return among them.
const SECOND: &[u8] = b"\xff\0 \r\n";

const BOTH: &[u8] = b"entry 1 tick m1\n\xff\0 \r\n";

// Adds bytes to a file as another program does.
fn write_behind<S: Files>(system: &S, name: &str, bytes: &[u8]) -> io::Result<()> {
    let mut file = OpenOptions::new().append(true).open(system, name)?;
    file.write_all(bytes)
}

#[test]
fn a_real_file_keeps_its_whole_lines(rt: HostRuntime) -> Result<(), Fail> {
    let name = "station_files_lines";
    let mut file = open_kept(rt.alloc(), &rt, name)?;
    assert!(rt; file.recover(0)?.is_empty());
    file.append(FIRST)?;
    file.settle()?;
    drop(file);
    write_behind(&rt, name, b"entry 2 to")?;
    let mut file = open_kept(rt.alloc(), &rt, name)?;
    assert_eq!(rt; file.recover(25).err(), Some(LoadAnswer::TooLong));
    assert_eq!(rt; fs::metadata(&rt, name)?.len(), 26);
    assert_eq!(rt; file.recover(26)?.as_slice(), FIRST);
    assert_eq!(rt; fs::metadata(&rt, name)?.len(), 16);
    file.append(SECOND)?;
    assert_eq!(rt; fs::read(&rt, name)?.as_slice(), BOTH);
    fs::remove_file(&rt, name)?;
    Ok(())
}

#[test]
fn a_file_is_one_process_s_own(rt: HostRuntime) -> Result<(), Fail> {
    let name = "station_files_room/held";
    assert_eq!(rt;
        open_kept(rt.alloc(), &rt, name).err(),
        Some(OpenAnswer::Failed)
    );
    fs::create_dir(&rt, "station_files_room")?;
    let mut first = open_kept(rt.alloc(), &rt, name)?;
    first.append(FIRST)?;
    assert_eq!(rt;
        open_kept(rt.alloc(), &rt, name).err(),
        Some(OpenAnswer::InUse)
    );
    first.append(SECOND)?;
    drop(first);
    let mut second = open_kept(rt.alloc(), &rt, name)?;
    assert_eq!(rt; second.recover(100)?.as_slice(), BOTH);
    fs::remove_file(&rt, name)?;
    fs::remove_dir(&rt, "station_files_room")?;
    Ok(())
}

/// A reader that gives 1 byte, then 2, up to 7, then 1 again, and fails once it has given all where it is to fail.
#[derive(Drop)]
struct Sipping<'a> {
    rest: &'a [u8],
    most: usize,
    is_failing: bool,
}

impl Read for Sipping<'_> {
    fn read(&mut self, buf: &mut [u8]) -> io::Result<usize> {
        if self.rest.is_empty() && self.is_failing {
            return Err(io::Error::from(io::ErrorKind::TimedOut));
        }
        let most = self.most.min(buf.len());
        self.most = self.most % 7 + 1;
        self.rest.read(&mut buf[..most])
    }
}

fn lines_of(
    alloc: Global,
    rest: &[u8],
    is_failing: bool,
) -> Result<ReadLines<Sipping<'_>>, AllocError> {
    ReadLines::make(
        alloc,
        Sipping {
            rest,
            most: 1,
            is_failing,
        },
    )
}

fn is_line(came: Came, text: &[u8]) -> bool {
    matches!(came, Came::Line(line) if line.as_slice() == text)
}

// The pieces are `o`, `ne`, `LF LF t`, `oo l`, `ong`, ..
#[test]
fn lines_come_of_any_pieces(rt: HostRuntime) -> Result<(), Fail> {
    let mut lines = lines_of(rt.alloc(), b"one\n\ntoo long\nfour\nlast", false)?;
    assert!(rt; !lines.is_line_ahead());
    assert!(rt; is_line(lines.next_line(4)?, b"one"));
    assert!(rt; lines.is_line_ahead());
    assert!(rt; is_line(lines.next_line(4)?, b""));
    assert!(rt; !lines.is_line_ahead());
    assert!(rt; matches!(lines.next_line(4)?, Came::TooLong));
    assert!(rt; is_line(lines.next_line(4)?, b"four"));
    assert!(rt; matches!(lines.next_line(4)?, Came::Unended));
    assert!(rt; matches!(lines.next_line(4)?, Came::End));
    Ok(())
}

#[test]
fn a_reader_that_fails_in_mid_line_ends_nothing(rt: HostRuntime) -> Result<(), Fail> {
    let mut lines = lines_of(rt.alloc(), b"one\ntwo", true)?;
    assert!(rt; is_line(lines.next_line(4)?, b"one"));
    assert_eq!(rt; lines.next_line(4).err(), Some(LineAnswer::Failed));
    Ok(())
}

/// A release of one line and of a word or a note, over a file and a sink of which the listed calls fail: its answer, what the file
/// holds then, how much of that is durable, and what was put.
#[derive(Clone, Copy)]
struct Case {
    name: &'static str,
    is_word: bool,
    failing: &'static [u64],
    failing_puts: &'static [u64],
    answer: Result<(), ReleaseAnswer>,
    held: &'static [u8],
    durable: usize,
    put: &'static [u8],
}

const CASES: [Case; 5] = [
    Case {
        name: "a word",
        is_word: true,
        failing: &[],
        failing_puts: &[],
        answer: Ok(()),
        held: FIRST,
        durable: 16,
        put: b"text\n",
    },
    Case {
        name: "a note, which waits for no disk",
        is_word: false,
        failing: &[2],
        failing_puts: &[],
        answer: Ok(()),
        held: FIRST,
        durable: 0,
        put: b"text\n",
    },
    Case {
        name: "an append that fails",
        is_word: true,
        failing: &[1],
        failing_puts: &[],
        answer: Err(ReleaseAnswer::NotKept),
        held: b"ent",
        durable: 0,
        put: b"",
    },
    Case {
        name: "settling that fails",
        is_word: true,
        failing: &[2],
        failing_puts: &[],
        answer: Err(ReleaseAnswer::NotKept),
        held: FIRST,
        durable: 0,
        put: b"",
    },
    Case {
        name: "an output that fails",
        is_word: true,
        failing: &[],
        failing_puts: &[1],
        answer: Err(ReleaseAnswer::NotPut),
        held: FIRST,
        durable: 16,
        put: b"",
    },
];

fn batch_of(alloc: Global, is_word: bool) -> Result<Batch, AllocError> {
    let mut batch = Batch::new(alloc);
    batch.keep(FIRST)?;
    if is_word {
        batch.say(b"text\n")?;
    } else {
        batch.note(b"text\n")?;
    }
    Ok(batch)
}

// Whether the release gives what the case says.
fn goes_as_told(alloc: Global, case: &Case) -> Result<bool, Fail> {
    let failing = Vec::from_slice(alloc, case.failing)?;
    let mut file = MemoryFile::make(alloc, Vec::new(alloc), failing, 3);
    let failing = Vec::from_slice(alloc, case.failing_puts)?;
    let mut sink = MemorySink::make(alloc, failing);
    let mut batch = batch_of(alloc, case.is_word)?;
    let answer = batch.release(&mut file, &mut sink);
    Ok(
        answer == case.answer
            && file.bytes() == case.held
            && file.durable().len() == case.durable
            && sink.bytes() == case.put,
    )
}

#[test]
fn nothing_is_put_before_it_is_kept(rt: HostRuntime) -> Result<(), Fail> {
    for case in CASES {
        assert!(rt; goes_as_told(rt.alloc(), &case)?, "{}", case.name);
    }
    Ok(())
}

#[test]
fn a_file_in_memory_gives_its_whole_lines(rt: HostRuntime) -> Result<(), Fail> {
    let torn = Vec::from_slice(rt.alloc(), b"one\ntw")?;
    let mut file = MemoryFile::make(rt.alloc(), torn, Vec::new(rt.alloc()), 0);
    assert_eq!(rt; file.recover(6)?.as_slice(), b"one\n".as_slice());
    assert_eq!(rt; file.durable(), b"one\n".as_slice());
    Ok(())
}
