ghost use Rattle.std.specs.Prelude.{◌≡◌, ◌≤◌, ℕ, Option, None, IfOk, OnOk, IsErrOf, vec_len};
ghost use Rattle.std.specs.Io.KnownBytes.{Appends};
ghost use Rattle.outside.specs.Faults.{HasRisen};
ghost use Rattle.outside.specs.Keepers.{KeepCounts};
ghost use Rattle.outside.specs.Piece.{Outlet};
ghost use Rattle.station_files.specs.Held.{AppendGives, SettleGives};
ghost use Rattle.station_files.specs.WholeLines.{whole_lines};

use crate::kept_file::KeptFile;
use crate::whole_lines::whole_length;
use outside::{KeepAnswer, LoadAnswer, read_whole};
use std::alloc::Global;
use std::fs;
use std::fs::{File, OpenFile, OpenOptions, TryLockError};
use std::io::{Read, Seek, Write};
use std::marker::Model;
use std::rt::Files as FileSystem;
use thiserror::Error;

/// Why a file was not opened.
#[derive(Clone, Copy, Debug, PartialEq, Eq, Error)]
pub enum OpenAnswer {
    #[error("fault")]
    Failed,
    #[error("in use")]
    InUse,
}

/// A file of a file system. As a kept file it tells nothing, since what a system does with bytes is outside all that is proved;
/// of a file that tells what was written each append says that it wrote the whole piece.
#[derive(Drop)]
pub struct RealFile<F: Read + Write + Seek + OpenFile> {
    alloc: Global,
    file: F,
    faults: u64,
}

impl<F: Read + Write + Seek + OpenFile> Model for RealFile<F> {
    ghost use Rattle.outside.specs.Piece.{Outlet};

    ghost Value = { Outlet };

    ghost view = { λ real. record { faults = real.faults; written = F.contents real.file } };
}

impl<F: Read + Write + Seek + OpenFile> RealFile<F> {
    pub fn make(alloc: Global, file: F) -> Self
        ensures { result ≡ record { faults = 0; written = F.contents file } }
    {
        RealFile {
            alloc,
            file,
            faults: 0,
        }
    }

    /// How many faults came so far.
    pub fn faults(&self) -> u64
        ensures { result ≡ self.now.faults }
    {
        self.faults
    }
}

/// The file of that name, made where there is none. Another process can't open it so before this one lets go of it or ends: it is
/// told that the file is in use.
pub fn open_kept<S: FileSystem<File = File>>(
    alloc: Global,
    system: &S,
    name: &str,
) -> Result<RealFile<File>, OpenAnswer>
    ensures { IfOk result (λ real. real.faults ≡ 0) }
{
    let opened = OpenOptions::new()
        .read(true)
        .append(true)
        .create(true)
        .open(system, name);
    let Ok(file) = opened else {
        return Err(OpenAnswer::Failed);
    };
    match file.try_lock() {
        Ok(()) => {}
        Err(TryLockError::WouldBlock) => return Err(OpenAnswer::InUse),
        Err(TryLockError::Error(_)) => return Err(OpenAnswer::Failed),
    }
    if !settle_folder(system, name) {
        return Err(OpenAnswer::Failed);
    }
    Ok(RealFile::make(alloc, file))
}

// Makes it durable that the folder has the file. Whether that went well.
fn settle_folder<S: FileSystem<File = File>>(system: &S, name: &str) -> bool {
    let folder = match name.rsplit_once('/') {
        Some(("", _)) => "/",
        Some((folder, _)) => folder,
        None => ".",
    };
    match fs::open(system, folder) {
        Ok(opened) => opened.sync_all().is_ok(),
        Err(_) => false,
    }
}

impl<F: Read + Write + Seek + OpenFile> KeptFile for RealFile<F> {
    ghost faults = { λ outlet. outlet.faults };

    ghost held = { λ _. None };

    fn recover(&mut self, room: u64) -> Result<Vec<u8>, LoadAnswer> {
        let answer = recover_file(self.alloc, &mut self.file, room);
        if matches!(answer, Err(LoadAnswer::Failed)) {
            self.faults = self.faults.saturating_add(1);
        }
        answer
    }

    fn append(&mut self, piece: &[u8]) -> Result<(), KeepAnswer>
        ensures never_falls { self.old.faults ≤ self.new.faults }
        ensures failed { IsErrOf result KeepAnswer.Failed → HasRisen self.old.faults self.new.faults }
        ensures counted { KeepCounts result self.old.faults self.new.faults }
        ensures added { AppendGives None piece.now result None }
        ensures written { OnOk result (Appends self.old.written self.new.written piece.now) }
    {
        if self.file.write_all(piece).is_ok() {
            return Ok(());
        }
        self.faults = self.faults.saturating_add(1);
        Err(KeepAnswer::Failed)
    }

    fn settle(&mut self) -> Result<(), KeepAnswer> {
        if self.file.sync_data().is_ok() {
            return Ok(());
        }
        self.faults = self.faults.saturating_add(1);
        Err(KeepAnswer::Failed)
    }
}

// The whole lines of a file, which are then all that it has, and durable.
fn recover_file<F: Read + Write + Seek + OpenFile>(
    alloc: Global,
    file: &mut F,
    room: u64,
) -> Result<Vec<u8>, LoadAnswer>
    ensures lines { IfOk result (λ text. whole_lines text.items ≡ text.items) }
    ensures within_room { IfOk result (λ text. vec_len text ≤ room) }
{
    file.rewind().map_err(|_| LoadAnswer::Failed)?;
    let mut text = read_whole(alloc, file, room)?;
    let whole = whole_length(text.as_slice());
    if whole < text.len() {
        file.set_len(whole as u64).map_err(|_| LoadAnswer::Failed)?;
    }
    text.truncate(whole);
    file.sync_all().map_err(|_| LoadAnswer::Failed)?;
    Ok(text)
}
