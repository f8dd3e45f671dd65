//! Texts rebuilt from the lines of parts, in a group of four masters of which one may be intruded.
use run_questions::parts::{RebuildRefusal, rebuilt_text};
use scenario_file::Scenario;
use std::alloc::Global;
use std::test::Fail;

/// The digest of an update's text of 19 bytes.
const DIGEST: &str = "digest 5307c0b0ae6aacdcf5076254f1ff92f98e7d8fce3c1c9479bd37fe10d735561a\n";

/// What is printed for these lines behind the digest's.
fn rebuilt(alloc: Global, scenario: &Scenario, lines: &str) -> Result<Vec<u8>, RebuildRefusal> {
    let mut text = Vec::from_slice(alloc, DIGEST.as_bytes()).map_err(|_| RebuildRefusal::Want)?;
    text.extend_from_slice(lines.as_bytes())
        .map_err(|_| RebuildRefusal::Want)?;
    rebuilt_text(alloc, scenario, &text)
}

#[test]
fn a_wrong_part_is_named(rt: HostRuntime) -> Result<(), Fail> {
    let scenario = Scenario::s1(rt.alloc())?;
    let lines =
        "m1 19 00010001030000000000\nm2 19 00010002060000000001\nm3 19 00010003050000000000\n";
    let text = rebuilt(rt.alloc(), &scenario, lines)?;
    assert!(rt;
        text.as_slice() == b"text 00010000000000000000000000010300000000\nwrong m2\n".as_slice()
    );
    Ok(())
}

#[test]
fn one_right_part_is_too_few(rt: HostRuntime) -> Result<(), Fail> {
    let scenario = Scenario::s1(rt.alloc())?;
    let lines = "m1 19 00010001030000000000\nm2 19 00010002060000000001\n";
    let none = matches!(
        rebuilt(rt.alloc(), &scenario, lines),
        Err(RebuildRefusal::NoText)
    );
    assert!(rt; none);
    Ok(())
}

fn bad_line(answer: &Result<Vec<u8>, RebuildRefusal>) -> Option<u64> {
    match answer {
        Err(RebuildRefusal::BadLine { line }) => Some(*line),
        _ => None,
    }
}

/// Lines behind the digest's, and the number of the first bad one.
const BAD: [(&str, u64); 10] = [
    ("m1 19 00010001030000000000", 2),
    ("m1 19 00010001030000000000\n\n", 3),
    (
        "m1 19 00010001030000000000\nm1 19 00010001030000000000\n",
        3,
    ),
    (
        "m2 19 00010002060000000000\nm1 19 00010001030000000000\n",
        3,
    ),
    ("m4 19 00010001030000000000\n", 2),
    ("m1 0 00\n", 2),
    ("m1 65537 00\n", 2),
    ("m1 19 000100010300000000\n", 2),
    ("m01 19 00010001030000000000\n", 2),
    ("m1  19 00010001030000000000\n", 2),
];

#[test]
fn the_first_bad_line_is_told(rt: HostRuntime) -> Result<(), Fail> {
    let scenario = Scenario::s1(rt.alloc())?;
    for (lines, number) in &BAD {
        let answer = rebuilt(rt.alloc(), &scenario, lines);
        assert!(rt; bad_line(&answer) == Some(*number), "{number}");
    }
    let nothing = rebuilt_text(rt.alloc(), &scenario, b"");
    assert!(rt; bad_line(&nothing) == Some(1));
    Ok(())
}
