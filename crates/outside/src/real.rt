ghost use Rattle.std.specs.Prelude.{◌≡◌, ◌≤◌, ◌+◌, ◌^◌, ◌-◌, ℕ, List, Option, None, IfOk, IfErr, IfSome, IsErrOf, vec_len, min, take};
ghost use Rattle.std.specs.Bool.{OnTrue};
ghost use Rattle.std.specs.Io.KnownBytes.{Appends};
ghost use Rattle.outside.specs.Faults.{HasRisen};
ghost use Rattle.outside.specs.Piece.{PutGives, PutCounts, WritesPiece};
ghost use Rattle.outside.specs.Shelf.{LoadGives, AddsPiece};

use crate::files::{Files, LoadAnswer};
use crate::sinks::{PutAnswer, Sink};
use std::alloc::Global;
use std::fs;
use std::fs::OpenFile;
use std::io::{Read, Write};
use std::marker::Model;
use std::rt::Files as FileSystem;

const PIECE: usize = 4096;

/// The files of a file system. It counts its errors, whatever their file, and tells no content: what
/// a real file holds is outside all that is proved.
#[derive(Drop)]
pub struct RealFiles<R: FileSystem> {
    alloc: Global,
    system: R,
    faults: u64,
}

impl<R: FileSystem> Model for RealFiles<R> {
    ghost Value = { ℕ };

    ghost view = { λ real. real.faults };
}

impl<R: FileSystem> RealFiles<R> {
    pub fn make(alloc: Global, system: R) -> Self
        ensures { result ≡ 0 }
    {
        RealFiles {
            alloc,
            system,
            faults: 0,
        }
    }
}

impl<R: FileSystem> Files for RealFiles<R> {
    ghost faults = { λ count _. count };

    ghost held = { λ _ _. None };

    fn load(&mut self, name: &str, room: u64) -> Result<Vec<u8>, LoadAnswer> {
        let answer = match fs::open(&self.system, name) {
            Ok(mut file) => load_open(self.alloc, &mut file, room),
            Err(_) => Err(LoadAnswer::Failed),
        };
        if matches!(answer, Err(LoadAnswer::Failed)) {
            self.faults = self.faults.saturating_add(1);
        }
        answer
    }
}

/// The whole of an open file. One that is longer by what the system tells of it isn't read up to there first.
fn load_open<F: OpenFile + Read>(
    alloc: Global,
    file: &mut F,
    room: u64,
) -> Result<Vec<u8>, LoadAnswer>
    ensures within_room { IfOk result (λ loaded. vec_len loaded ≤ room) }
{
    match file.metadata() {
        Ok(about) if about.len() > room => Err(LoadAnswer::TooLong),
        _ => read_whole(alloc, file, room),
    }
}

/// The whole of what a reader gives from here on, of at most `room` bytes. A read of nothing is its
/// end. After a refusal the reader stands anywhere.
pub fn read_whole<S: Read>(alloc: Global, source: &mut S, room: u64) -> Result<Vec<u8>, LoadAnswer>
    ensures content { IfSome (S.remaining source.old) (λ content. LoadGives content room result) }
    ensures within_room { IfOk result (λ loaded. vec_len loaded ≤ room) }
{
    let mut loaded = Vec::new(alloc);
    let mut piece = [0u8; PIECE];
    loop {
        match source.read(&mut piece) {
            Err(_) => return Err(LoadAnswer::Failed),
            Ok(0) => return Ok(loaded),
            Ok(count) => add_piece(&mut loaded, &piece[..count], room)?,
        }
    }
}

// Adds a piece where all of it has room.
fn add_piece(loaded: &mut Vec<u8>, piece: &[u8], room: u64) -> Result<(), LoadAnswer>
    requires { vec_len loaded.old ≤ room }
    ensures { AddsPiece loaded.old.items piece.now room result loaded.new.items }
{
    if piece.len() as u64 > room - loaded.len() as u64 {
        return Err(LoadAnswer::TooLong);
    }
    loaded
        .extend_from_slice(piece)
        .map_err(|_| LoadAnswer::Want)
}

/// Standard output, standard error (by the name `RealErr`), or another writer in their place. As a sink it tells
/// no bytes, since what the system does with them is outside all that is proved; of a writer that tells what it
/// holds each put says what it takes.
#[derive(Drop)]
pub struct RealOut<W: Write> {
    writer: W,
    faults: u64,
}

impl<W: Write> Model for RealOut<W> {
    ghost use Rattle.outside.specs.Piece.{Outlet};

    ghost Value = { Outlet };

    ghost view = { λ real. record { faults = real.faults; written = W.contents real.writer } };
}

impl<W: Write> RealOut<W> {
    pub fn make(writer: W) -> Self
        ensures { result ≡ record { faults = 0; written = W.contents writer } }
    {
        RealOut { writer, faults: 0 }
    }
}

impl<W: Write> Sink for RealOut<W> {
    ghost faults = { λ outlet. outlet.faults };

    ghost told = { λ _. None };

    fn put(&mut self, piece: &[u8]) -> Result<(), PutAnswer>
        ensures never_falls { self.old.faults ≤ self.new.faults }
        ensures failed { IsErrOf result PutAnswer.Failed → HasRisen self.old.faults self.new.faults }
        ensures counted { PutCounts result self.old.faults self.new.faults }
        ensures bytes { PutGives None piece.now result None }
        ensures written { WritesPiece self.old.written piece.now result self.new.written }
    {
        if write_whole(&mut self.writer, piece) {
            return Ok(());
        }
        self.faults = self.faults.saturating_add(1);
        Err(PutAnswer::Failed)
    }
}

// Whether the writer took the whole piece. A write that takes nothing of what is left is an error.
fn write_whole<W: Write>(writer: &mut W, piece: &[u8]) -> bool
    ensures whole { OnTrue result (Appends (W.contents writer.old) (W.contents writer.new) piece.now) }
    ensures beginning { (count : ℕ) × Appends (W.contents writer.old) (W.contents writer.new) (take count piece.now) }
{
    let mut rest = piece;
    while !rest.is_empty() {
        match writer.write(rest) {
            Ok(0) => return false,
            Err(_) => return false,
            Ok(taken) => rest = rest.split_at(taken).1,
        }
    }
    writer.flush().is_ok()
}
