ghost use Rattle.std.specs.Prelude.{◌≡◌, ◌++◌, OnOk, IfOk, max, if◌then◌else◌};
ghost use Rattle.std.specs.List.{filter_map, list_any};
ghost use Rattle.std.specs.Option.{option_to_list};
ghost use Rattle.quorum_sets.specs.Masters.{numbers_below};
ghost use Rattle.protocol_rules.specs.Group.{group_of};
ghost use Rattle.protocol_rules.specs.Facts.{facts_of};
ghost use Rattle.protocol_rules.specs.Order as rules;
ghost use Rattle.protocol_rules.specs.Words.{first_of_list, greatest_of};
ghost use Rattle.intruder_words.specs.Marking.{marked_in, all_marked, is_marked_by, is_marked, shown_by, mark_of};

use message_types::{Body, Frame, Mark, Signed};
use plain_lists::{Items, Want, extend_option};
use quorum_sets::Sizes;
use std::alloc::Global;

/// That a master marked a number.
#[derive(Clone, Copy)]
pub struct Marked {
    pub s: u64,
    pub master: u32,
}

/// The greatest number that a quorum's marks are known of, 0 where there is none.
pub fn stable(alloc: Global, sizes: &Sizes, known: &[Frame]) -> Result<u64, Want>
    ensures { IfOk result (λ base. base ≡ rules.stable (group_of sizes.now 0) (facts_of (group_of sizes.now 0) known.now)) }
{
    let marks = all_marked(alloc, known)?;
    Ok(greatest_marked(sizes, &marks))
}

/// The marks that show a base: the first ones of the `q` lowest masters, no mark for base 0. None exactly where the base
/// isn't 0 and fewer than `q` masters' marks of it are known.
pub fn marks_at(
    alloc: Global,
    sizes: &Sizes,
    known: &[Frame],
    base: u64,
) -> Result<Option<Items<Signed<Mark>>>, Want>
    ensures { IfOk result (λ marks. marks ≡ rules.marks_at (group_of sizes.now 0) (facts_of (group_of sizes.now 0) known.now) base) }
{
    if base == 0 {
        return Ok(Some(Items::new(alloc)));
    }
    let mut marks = first_marks(alloc, sizes, known, base)?;
    if marks.len() < sizes.q as usize {
        return Ok(None);
    }
    marks.truncate(sizes.q as usize);
    Ok(Some(Items::from_vec(alloc, marks)))
}

/// Who marked which number.
fn all_marked(alloc: Global, known: &[Frame]) -> Result<Vec<Marked>, Want>
    ensures { IfOk result (λ marks. marks.items ≡ all_marked known.now) }
{
    let mut marks = Vec::new(alloc);
    for frame in known {
        extend_option(&mut marks, marked_in(frame))?;
    }
    Ok(marks)
}

fn marked_in(frame: &Frame) -> Option<Marked>
    ensures { result ≡ marked_in frame.now }
{
    match &frame.body {
        Body::Mark(mark) => Some(Marked {
            s: mark.s,
            master: frame.signer,
        }),
        _ => None,
    }
}

/// The greatest number that a quorum marked, 0 where there is none.
fn greatest_marked(sizes: &Sizes, marks: &[Marked]) -> u64
    ensures { result ≡ greatest_of (filter_map (shown_by (group_of sizes.now 0) marks.now) marks.now) }
{
    let mut greatest = 0;
    for mark in marks {
        greatest = raised(sizes, marks, greatest, mark.s);
    }
    greatest
}

/// A number raised to another one, where that is greater and a quorum marked it.
fn raised(sizes: &Sizes, marks: &[Marked], least: u64, s: u64) -> u64
    ensures { result ≡ (if is_marked (group_of sizes.now 0) marks.now s then max least s else least) }
{
    if s <= least {
        return least;
    }
    if is_marked(sizes, marks, s) { s } else { least }
}

/// Whether a quorum marked the number.
fn is_marked(sizes: &Sizes, marks: &[Marked], s: u64) -> bool
    ensures { result ≡ is_marked (group_of sizes.now 0) marks.now s }
{
    let mut count = 0;
    for master in 0..sizes.n {
        count += u32::from(has_marked(marks, s, master));
    }
    count >= sizes.q
}

fn has_marked(marks: &[Marked], s: u64, master: u32) -> bool
    ensures { result ≡ list_any (is_marked_by s master) marks.now }
{
    marks
        .iter()
        .any(|mark| mark.master == master && mark.s == s)
}

/// Each master's first mark of the number, by rising master.
fn first_marks(
    alloc: Global,
    sizes: &Sizes,
    known: &[Frame],
    s: u64,
) -> Result<Vec<Signed<Mark>>, Want>
    ensures { IfOk result (λ marks. marks.items ≡ filter_map (λ m. first_of_list (filter_map (mark_of s m) known.now)) (numbers_below sizes.now.n)) }
{
    let mut marks = Vec::new(alloc);
    for master in 0..sizes.n {
        let mark = first_mark(known, s, master)?;
        extend_option(&mut marks, mark)?;
    }
    Ok(marks)
}

fn first_mark(known: &[Frame], s: u64, master: u32) -> Result<Option<Signed<Mark>>, Want>
    ensures { IfOk result (λ mark. mark ≡ first_of_list (filter_map (mark_of s master) known.now)) }
{
    for frame in known {
        let mark = mark_of(frame, s, master)?;
        if let Some(mark) = mark {
            return Ok(Some(mark));
        }
    }
    Ok(None)
}

/// The frame as the master's mark of the number.
fn mark_of(frame: &Frame, s: u64, master: u32) -> Result<Option<Signed<Mark>>, Want>
    ensures { IfOk result (λ mark. mark ≡ mark_of s master frame.now) }
{
    match &frame.body {
        Body::Mark(mark) if frame.signer == master && mark.s == s => {
            Ok(Some(frame.with_body(*mark)?))
        }
        _ => Ok(None),
    }
}
