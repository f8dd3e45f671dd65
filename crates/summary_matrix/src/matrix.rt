ghost use Rattle.std.specs.Prelude.{◌≡◌, ◌++◌, ◌≤◌, ◌<◌, ℕ, [], take, IsTrue, OnOk, OnErr, IfOk, option_copied, slice_index, sum};
ghost use Rattle.std.specs.Option.{option_to_list};
ghost use Rattle.message_types.specs.declared.body.Body.TheVariants as body;
ghost use Rattle.message_types.specs.Parts.{as_frame};
ghost use Rattle.protocol_rules.specs.Group.{group_of};
ghost use Rattle.protocol_rules.specs.Places.{in_place};
ghost use Rattle.protocol_rules.specs.Matrix as rules;
ghost use Rattle.protocol_rules.specs.Master.{latest_rows, eligible_now, shown_now};
ghost use Rattle.summary_matrix.specs.Held.{IsMatrixOf, Learns, Where, TellsEach, TellsBelow, HasFigures, proposal_of, takes_over, row_of, rows_at, frames_at};

use crate::reach::{Reach, greatest_reached, leading, number_at};
use message_types::{FrameList, PoSummary, Rows, Signed};
use plain_lists::{Copied, Items, Vector, Want};
use protocol_rules::MOST_NUMBER;
use quorum_sets::{MASTER_PLACES, MOST_MASTERS, Sizes};
use std::alloc::Global;
use std::marker::Model;

// The numbers of a summary are together no more than this.
const MOST_TOTAL: u64 = MOST_MASTERS as u64 * MOST_NUMBER;

/// The latest summary of each master.
pub struct Matrix {
    alloc: Global,
    sizes: Sizes,
    latest: Latest,
    /// How far `q` of the latest summaries reach, and `f + 1` of them: made anew where a summary takes another's place.
    eligible: Reach,
    shown: Reach,
}

type Latest = [Option<Signed<PoSummary>>; MASTER_PLACES];

// Taken apart here once, so that no crate above proves it again.
impl Drop for Matrix {
    fn drop(self) {
        let Matrix {
            alloc: _,
            sizes: _,
            latest: _,
            eligible: _,
            shown: _,
        } = self;
    }
}

impl Model for Matrix {
    ghost use Rattle.std.specs.Prelude.{◌+◌, ◌≤◌, ◌<◌, ℕ, None, sum};
    ghost use Rattle.std.specs.List.{slice_index_or};
    ghost use Rattle.protocol_rules.specs.Group.{group_of};
    ghost use Rattle.summary_matrix.specs.Held.{Summaries, HasFigures, row_of};
    ghost use Rattle.summary_matrix.specs.declared.matrix.TheConstants.{MOST_TOTAL};

    ghost Value = { Summaries };

    ghost view = { λ m. record { group = group_of m.sizes 0; latest = m.latest } };

    ghost invariant = { λ m. ((j : ℕ) → sum (row_of (slice_index_or m.latest j None)) ≤ MOST_TOTAL)
        × HasFigures m.sizes.n m.sizes.q m.latest m.eligible.numbers
        × HasFigures m.sizes.n (m.sizes.f + 1) m.latest m.shown.numbers };
}

impl Matrix {
    /// The matrix where no word is known.
    pub fn new(alloc: Global, sizes: Sizes) -> Matrix
        ensures group { result.group ≡ group_of sizes 0 }
        ensures nothing { (clients : ℕ) → IsMatrixOf (group_of sizes clients) result [] }
    {
        Matrix {
            alloc,
            sizes,
            latest: [
                None, None, None, None, None, None, None, None, None, None, None, None, None, None,
            ],
            eligible: Reach::none(),
            shown: Reach::none(),
        }
    }

    /// Takes a summary as the next word known.
    pub fn take(&mut self, frame: &Signed<PoSummary>) -> Result<(), Want>
        requires { IsTrue (in_place self.old.group (as_frame body.PoSummary frame.now)) }
        ensures group { self.new.group ≡ self.old.group }
        ensures ok { OnOk result (Learns self.old self.new (as_frame body.PoSummary frame.now)) }
        ensures err { OnErr result (self.new ≡ self.old) }
    {
        let place = frame.signer as usize;
        if !replaces(frame, &self.latest[place]) {
            return Ok(());
        }
        let copy = frame.copy()?;
        self.latest[place] = Some(copy);
        self.eligible = reach_of(&self.latest, self.sizes.n, self.sizes.q);
        self.shown = reach_of(&self.latest, self.sizes.n, self.sizes.f + 1);
        Ok(())
    }

    /// A master's latest summary. None exactly where none of it is known.
    pub fn latest(&self, j: u32) -> Option<&Signed<PoSummary>>
        requires { j < self.now.group.n }
        ensures { Where self.now (λ g known. option_copied result ≡ rules.latest known j) }
    {
        self.latest[j as usize].as_ref()
    }

    /// The numbers of the latest summaries, a row for each master.
    pub fn rows(&self) -> Result<Rows, Want>
        ensures { IfOk result (λ rows. Where self.now (λ g known. rows ≡ latest_rows g known)) }
    {
        let mut rows = Items::new(self.alloc);
        for master in 0..self.sizes.n {
            rows.push(copied_row(self.alloc, &self.latest[master as usize])?)?;
        }
        Ok(rows)
    }

    /// How far the latest summaries make the requests of each master eligible.
    pub fn eligible(&self) -> Reach
        ensures each { Where self.now (λ g known. TellsEach result.numbers (rules.eligible g (latest_rows g known))) }
        ensures now { Where self.now (λ g known. TellsBelow g.n result.numbers (eligible_now g known)) }
    {
        self.eligible
    }

    /// How far `f + 1` of the latest summaries, and so a correct master's, have the requests of each master certified.
    pub fn shown(&self) -> Reach
        ensures { Where self.now (λ g known. TellsBelow g.n result.numbers (shown_now g known)) }
    {
        self.shown
    }

    /// Whether the latest summaries make more eligible than `offered` has.
    pub fn exceeds(&self, offered: &Reach) -> bool
        ensures { Where self.now (λ g known. result ≡ rules.exceeds g (latest_rows g known) (slice_index offered.now.numbers)) }
    {
        self.eligible().exceeds(offered, self.sizes.n)
    }

    /// The latest summaries, where they make more eligible than `offered` has. None exactly where they don't.
    pub fn proposal(&self, offered: &Reach) -> Result<Option<FrameList>, Want>
        ensures { IfOk result (λ answer. Where self.now (λ g known. answer ≡ proposal_of g known (slice_index offered.now.numbers))) }
    {
        if !self.exceeds(offered) {
            return Ok(None);
        }
        Ok(Some(self.frames()?))
    }

    fn frames(&self) -> Result<FrameList, Want>
        ensures { IfOk result (λ frames. frames ≡ frames_at self.now.group.n self.now.latest) }
    {
        let mut frames = Items::new(self.alloc);
        for master in 0..self.sizes.n {
            push_copy(&mut frames, &self.latest[master as usize])?;
        }
        Ok(frames)
    }
}

/// How far, by master, `least` of the latest summaries reach.
fn reach_of(latest: &Latest, masters: u32, least: u32) -> Reach
    requires { masters ≤ MOST_MASTERS }
    ensures { HasFigures masters least latest.now result.numbers }
{
    let mut reach = Reach::none();
    for place in 0..MASTER_PLACES {
        let numbers = column(latest, masters, place);
        reach.numbers[place] = greatest_reached(leading(&numbers, masters as usize), least);
    }
    reach
}

/// What the latest summaries tell of one master.
fn column(latest: &Latest, masters: u32, place: usize) -> [u64; MASTER_PLACES]
    requires { masters ≤ MOST_MASTERS }
    ensures { take masters result ≡ rules.column (rows_at masters latest.now) place }
{
    let mut numbers = [0; MASTER_PLACES];
    for master in 0..masters {
        let at = master as usize;
        numbers[at] = number_told(&latest[at], place);
    }
    numbers
}

/// Whether a summary takes the place of the one held, if any.
fn replaces(frame: &Signed<PoSummary>, held: &Option<Signed<PoSummary>>) -> bool
    requires new { sum frame.now.body.numbers ≤ MOST_TOTAL }
    requires old { sum (row_of held.now) ≤ MOST_TOTAL }
    ensures { result ≡ takes_over frame.now held.now }
{
    match held {
        None => true,
        Some(best) => total(&best.body.numbers) < total(&frame.body.numbers),
    }
}

fn total(numbers: &Vector) -> u64
    requires { sum numbers.now ≤ MOST_TOTAL }
    ensures { result ≡ sum numbers.now }
{
    numbers.iter().sum()
}

fn number_told(held: &Option<Signed<PoSummary>>, place: usize) -> u64
    ensures { result ≡ slice_index (row_of held.now) place }
{
    match held {
        None => 0,
        Some(frame) => number_at(&frame.body.numbers, place),
    }
}

fn copied_row(alloc: Global, held: &Option<Signed<PoSummary>>) -> Result<Vector, Want>
    ensures { IfOk result (λ row. row ≡ row_of held.now) }
{
    match held {
        None => Ok(Items::new(alloc)),
        Some(frame) => frame.body.numbers.copy(),
    }
}

fn push_copy(frames: &mut FrameList, held: &Option<Signed<PoSummary>>) -> Result<(), Want>
    ensures { OnOk result (frames.new ≡ frames.old ++ option_to_list held.now) }
{
    match held {
        None => Ok(()),
        Some(frame) => {
            let copy = frame.copy()?;
            frames.push(copy)
        }
    }
}
