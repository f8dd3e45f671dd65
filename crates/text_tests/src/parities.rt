//! The parts of four bytes among four masters, reckoned by hand: piece 0 is 01 02 and piece 1 is 03 80, and master i's bytes
//! are those of piece 0 plus i times those of piece 1.
ghost use Rattle.std.specs.Prelude.{◌≡◌, IfOk, length};

use parity_parts::{Part, RebuildAnswer, join, part_of, rebuild};
use plain_lists::Bytes;
use quorum_sets::Sizes;
use std::alloc::Global;
use std::test::Fail;

const TEXT: [u8; 4] = [1, 2, 3, 128];

fn part(alloc: Global, master: u32, bytes: &[u8]) -> Result<Part, Fail>
    ensures { IfOk result (λ part. (part.master ≡ master) × (part.length ≡ 4) × (part.bytes ≡ bytes.now)) }
{
    Ok(Part {
        master,
        length: 4,
        bytes: Bytes::from_slice(alloc, bytes)?,
    })
}

#[test]
fn parts_of_four_bytes(rt: HostRuntime) -> Result<(), Fail> {
    let sizes = Sizes::new(1, 0)?;
    assert_eq!(rt; sizes.n, 4);
    let bytes = [[1u8, 2], [2, 130], [7, 31], [4, 159]];
    for master in 0..4u32 {
        let made = part_of(rt.alloc(), &sizes, master, &TEXT)?;
        assert_eq!(rt; made.master, master);
        assert_eq!(rt; made.length, 4);
        assert_eq!(rt; made.bytes.as_slice(), bytes[master as usize].as_slice());
    }
    Ok(())
}

#[test]
fn two_parts_give_the_text_back(rt: HostRuntime) -> Result<(), Fail> {
    let sizes = Sizes::new(1, 0)?;
    let parts = [
        part(rt.alloc(), 2, &[7, 31])?,
        part(rt.alloc(), 3, &[4, 159])?,
    ];
    let text = join(rt.alloc(), &sizes, &parts)?;
    assert_eq!(rt; text.as_slice(), TEXT.as_slice());
    Ok(())
}

/// The text of an update, and its digest as Python's `hashlib` has it.
const UPDATE: [u8; 19] = [0, 1, 0, 0, 0, 0, 0, 0, 0, 0, 0, 0, 0, 1, 3, 0, 0, 0, 0];

const DIGEST: [u8; 32] = [
    83, 7, 192, 176, 174, 106, 172, 220, 245, 7, 98, 84, 241, 255, 146, 249, 142, 125, 143, 206,
    60, 28, 148, 121, 189, 55, 254, 16, 215, 53, 86, 26,
];

fn update_part(alloc: Global, master: u32, bytes: &[u8; 10]) -> Result<Part, Fail>
    ensures { IfOk result (λ part. (part.master ≡ master) × (part.length ≡ 19) × (length part.bytes ≡ 10)) }
{
    Ok(Part {
        master,
        length: 19,
        bytes: Bytes::from_slice(alloc, bytes)?,
    })
}

#[test]
fn a_wrong_part_is_named(rt: HostRuntime) -> Result<(), Fail> {
    let sizes = Sizes::new(1, 0)?;
    let parts = [
        update_part(rt.alloc(), 1, &[0, 1, 0, 1, 3, 0, 0, 0, 0, 0])?,
        update_part(rt.alloc(), 2, &[0, 1, 0, 2, 6, 0, 0, 0, 0, 1])?,
        update_part(rt.alloc(), 3, &[0, 1, 0, 3, 5, 0, 0, 0, 0, 0])?,
    ];
    let rebuilt = rebuild(rt.alloc(), &sizes, &DIGEST, &parts)?;
    assert_eq!(rt; rebuilt.text.as_slice(), UPDATE.as_slice());
    assert_eq!(rt; rebuilt.wrong.len(), 1);
    assert!(rt; rebuilt.wrong.has(2));
    Ok(())
}

#[test]
fn too_few_right_parts_give_no_text(rt: HostRuntime) -> Result<(), Fail> {
    let sizes = Sizes::new(1, 0)?;
    let parts = [
        update_part(rt.alloc(), 1, &[0, 1, 0, 1, 3, 0, 0, 0, 0, 0])?,
        update_part(rt.alloc(), 2, &[0, 1, 0, 2, 6, 0, 0, 0, 0, 1])?,
    ];
    let answer = rebuild(rt.alloc(), &sizes, &DIGEST, &parts);
    assert!(rt; matches!(answer, Err(RebuildAnswer::NoText)));
    Ok(())
}
