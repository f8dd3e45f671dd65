ghost use Rattle.std.specs.Prelude.{◌≡◌, ◌≢◌, ◌≤◌, ◌++◌, ℕ, List, [], ◌∷◌, Err, IfOk, OnOk, IsErrOf};
ghost use Rattle.outside.specs.Faults.{HasRisen};
ghost use Rattle.station_files.specs.Input.{LineCounts, GivesByte, Fills, TakesAhead, Inlet, waiting_of, IsRead, at_end, at_feed};

use crate::lines::{Came, LineAnswer, Lines};
use std::alloc::{AllocError, Global};
use std::io::Read;
use std::marker::Model;

const LINE_FEED: u8 = 10;

const AHEAD: usize = 65_536;

/// The lines that a reader gives, as standard input. It reads ahead as much as is there, up to a fixed room.
#[derive(Drop)]
pub struct ReadLines<R: Read> {
    alloc: Global,
    reader: R,
    // what was read ahead is `ahead[from..to]`
    ahead: Vec<u8>,
    from: usize,
    to: usize,
    faults: u64,
}

impl<R: Read> Model for ReadLines<R> {
    ghost use Rattle.std.specs.Prelude.{◌≤◌, ◌<◌, drop, take, vec_len};
    ghost use Rattle.station_files.specs.Input.{Inlet};

    ghost Value = { Inlet };

    ghost view = { λ lines. record { faults = lines.faults; ahead = drop lines.from (take lines.to lines.ahead.items); rest = R.remaining lines.reader } };

    ghost invariant = { λ lines. (lines.from ≤ lines.to) × (lines.to ≤ vec_len lines.ahead) × (0 < vec_len lines.ahead) };
}

impl<R: Read> ReadLines<R> {
    pub fn make(alloc: Global, reader: R) -> Result<Self, AllocError>
    where
        R: Drop,
        ensures { IfOk result (λ lines. lines ≡ record { faults = 0; ahead = []; rest = R.remaining reader }) }
    {
        let ahead = vec![in alloc; 0u8; AHEAD]?;
        Ok(ReadLines {
            alloc,
            reader,
            ahead,
            from: 0,
            to: 0,
            faults: 0,
        })
    }

    // The first of what was read ahead.
    fn take_ahead(&mut self) -> Option<u8>
        ensures { TakesAhead self.old result self.new }
    {
        if self.from == self.to {
            return None;
        }
        let byte = self.ahead[self.from];
        self.from += 1;
        Some(byte)
    }

    // Reads ahead, where nothing is left of what was read ahead before.
    fn fill(&mut self) -> Result<(), LineAnswer>
        requires { self.old.ahead ≡ [] }
        ensures never_falls { self.old.faults ≤ self.new.faults }
        ensures failed { IsErrOf result LineAnswer.Failed → HasRisen self.old.faults self.new.faults }
        ensures counted { LineCounts result self.old.faults self.new.faults }
        ensures filled { Fills self.old result self.new }
    {
        self.from = 0;
        self.to = 0;
        match self.reader.read(self.ahead.as_mut_slice()) {
            Ok(count) => {
                self.to = count;
                Ok(())
            }
            Err(_) => {
                self.faults = self.faults.saturating_add(1);
                Err(LineAnswer::Failed)
            }
        }
    }

    // The next byte, or none at the end.
    fn next_byte(&mut self) -> Result<Option<u8>, LineAnswer>
        ensures never_falls { self.old.faults ≤ self.new.faults }
        ensures failed { IsErrOf result LineAnswer.Failed → HasRisen self.old.faults self.new.faults }
        ensures counted { LineCounts result self.old.faults self.new.faults }
        ensures byte { GivesByte (waiting_of self.old) result (waiting_of self.new) }
    {
        if let Some(byte) = self.take_ahead() {
            return Ok(Some(byte));
        }
        self.fill()?;
        Ok(self.take_ahead())
    }
}

// What was read of a line so far: its bytes that have room, whether there were any, and whether one had no room.
#[derive(Drop)]
struct Begun {
    line: Vec<u8>,
    is_begun: bool,
    is_long: bool,
}

impl Begun {
    // One byte more, which is no line feed.
    fn add(&mut self, byte: u8, room: u64) -> Result<(), LineAnswer>
        ensures never_failed { result ≢ Err LineAnswer.Failed }
        ensures read { OnOk result ((seen : List ℕ) → IsRead room seen self.old.line.items self.old.is_begun self.old.is_long → byte ≢ 10 → IsRead room (seen ++ byte ∷ []) self.new.line.items self.new.is_begun self.new.is_long) }
    {
        self.is_begun = true;
        if self.line.len() as u64 >= room {
            self.is_long = true;
            return Ok(());
        }
        self.line.push(byte).map_err(|_| LineAnswer::Want)
    }

    // What it comes to where the input ends.
    fn at_end(&self) -> Came
        ensures { result ≡ at_end self.now.is_begun }
    {
        if self.is_begun {
            return Came::Unended;
        }
        Came::End
    }

    // What it comes to where a line feed ends it.
    fn at_feed(self) -> Came
        ensures { result ≡ at_feed self.line self.is_long }
    {
        let Begun {
            line,
            is_begun: _,
            is_long,
        } = self;
        if is_long {
            return Came::TooLong;
        }
        Came::Line(line)
    }
}

impl<R: Read> Lines for ReadLines<R> {
    ghost faults = { λ inlet. inlet.faults };

    ghost ahead = { λ inlet. inlet.ahead };

    ghost waiting = { waiting_of };

    fn next_line(&mut self, room: u64) -> Result<Came, LineAnswer> {
        let mut begun = Begun {
            line: Vec::new(self.alloc),
            is_begun: false,
            is_long: false,
        };
        for _made in 0..u64::MAX {
            let Some(byte) = self.next_byte()? else {
                return Ok(begun.at_end());
            };
            if byte == LINE_FEED {
                return Ok(begun.at_feed());
            }
            begun.add(byte, room)?;
        }
        self.faults = self.faults.saturating_add(1);
        Err(LineAnswer::Failed)
    }

    fn is_line_ahead(&self) -> bool {
        self.ahead.as_slice()[self.from..self.to].contains(&LINE_FEED)
    }
}
