use crate::none_played::Unplayed;
use outside::{MemoryFiles, MemorySink};
use run_commands::Program;
use run_commands::call::run_command;
use std::alloc::Global;
use std::process::Abort;
use std::test::Fail;

const SCENARIO: &str =
    "f = 1\nseed = \"0000000000000000000000000000000000000000000000000000000000000000\"\nscreens = 1\n";

const FIRST_KEY: &[u8] =
    b"m0 0000000100000005000000038d97df5ff83db01f7c97ccf9009e0aff6d1e2f7c06dd3aab89efe46f94cade905c9a22adcda6f57bd64e168b185d5f2b\n";

const LAST_KEY: &[u8] =
    b"s0 000000010000000500000003fb3d36db74b5fcfa587e204743b7e6511b2cd599f8820fcde2ac3e464b5f88543ca88ac4137c13d05bc3bde413f891c1\n";

// Made with Python's hashlib: the hash of the seed, the actor's number in 32 bits and 0, and the first half of the one with 1.
const OWN_KEY: &[u8] =
    b"s0 082eda49d024e3e7c5cae1ec033bfba89d40b8db06a6084d187090a0d0f90012 fb3d36db74b5fcfa587e204743b7e651\n";

/// What a command ends in: its status, the line on the error output, and what was put to the output.
#[derive(Drop)]
struct Ending {
    status: u8,
    line: Vec<u8>,
    put: Vec<u8>,
}

fn words_of(alloc: Global, line: &str) -> Result<Vec<String>, Fail> {
    let mut words = Vec::new(alloc);
    for word in line.split(' ') {
        words.push(String::from_str(alloc, word)?)?;
    }
    Ok(words)
}

fn file(alloc: Global, name: &str, content: &str) -> Result<(String, Vec<u8>), Fail> {
    let name = String::from_str(alloc, name)?;
    let content = Vec::from_slice(alloc, content.as_bytes())?;
    Ok((name, content))
}

fn files_of(alloc: Global, script: &str) -> Result<MemoryFiles, Fail> {
    let mut listed = Vec::new(alloc);
    for (name, content) in [("scenario", SCENARIO), ("script", script)] {
        listed.push(file(alloc, name, content)?)?;
    }
    Ok(MemoryFiles::make(alloc, listed, Vec::new(alloc)))
}

fn ending_of(alloc: Global, status: u8, line: &[u8], put: &[u8]) -> Result<Ending, Fail> {
    let line = Vec::from_slice(alloc, line)?;
    let put = Vec::from_slice(alloc, put)?;
    Ok(Ending { status, line, put })
}

// Runs a command over a scenario and a script.
fn run(alloc: Global, line: &str, script: &str) -> Result<Ending, Fail> {
    let words = words_of(alloc, line)?;
    let mut files = files_of(alloc, script)?;
    let mut out = MemorySink::make(alloc, Vec::new(alloc));
    let mut err = MemorySink::make(alloc, Vec::new(alloc));
    let program = Program { runs: Unplayed };
    let status = run_command(
        alloc,
        &program,
        words.as_slice(),
        &mut files,
        &mut out,
        &mut err,
    );
    ending_of(alloc, status, err.bytes(), out.bytes())
}

/// The status of a command that tells this line and puts nothing.
fn told(
    rt: &impl Abort,
    alloc: Global,
    line: &str,
    script: &str,
    wanted: &[u8],
) -> Result<u8, Fail> {
    let ending = run(alloc, line, script)?;
    assert_eq!(rt; ending.line.as_slice(), wanted, "{line}");
    assert!(rt; ending.put.is_empty(), "{line}");
    Ok(ending.status)
}

#[test]
fn words_and_files_are_refused_by_name(rt: HostRuntime) -> Result<(), Fail> {
    for (line, script, wanted, status) in [
        ("dance", "", b"spire: usage\n".as_slice(), 2),
        (
            "keys nothing",
            "",
            b"spire: file nothing fault\n".as_slice(),
            3,
        ),
        (
            "keys script",
            "k = 1\n",
            b"spire: scenario MissingKey f\n".as_slice(),
            4,
        ),
        ("key script m4", SCENARIO, b"spire: usage\n".as_slice(), 2),
    ] {
        assert_eq!(rt; told(&rt, rt.alloc(), line, script, wanted)?, status);
    }
    Ok(())
}

#[test]
fn scripts_and_plays_are_refused_by_line(rt: HostRuntime) -> Result<(), Fail> {
    for (line, script, wanted, status) in [
        (
            "play scenario script nothing",
            "flow\ntick m9\n",
            b"spire: script NoActor 2\n".as_slice(),
            5,
        ),
        (
            "play scenario script nothing",
            "flow\n",
            b"spire: file nothing fault\n".as_slice(),
            3,
        ),
        (
            "replay scenario script",
            "spire 1\n",
            b"spire: history BadLine 1\n".as_slice(),
            5,
        ),
    ] {
        assert_eq!(rt; told(&rt, rt.alloc(), line, script, wanted)?, status);
    }
    Ok(())
}

#[test]
fn questions_load_the_scenario_and_then_their_file(rt: HostRuntime) -> Result<(), Fail> {
    for (line, script, wanted, status) in [
        (
            "blame nothing script",
            "",
            b"spire: file nothing fault\n".as_slice(),
            3,
        ),
        (
            "trend scenario nothing 0 1 6",
            "",
            b"spire: file nothing fault\n".as_slice(),
            3,
        ),
        (
            "parts scenario script 0 1",
            "spire 1\n",
            b"spire: history BadLine 1\n".as_slice(),
            5,
        ),
        (
            "parts scenario script 0 4294967296",
            "",
            b"spire: usage\n".as_slice(),
            2,
        ),
    ] {
        assert_eq!(rt; told(&rt, rt.alloc(), line, script, wanted)?, status);
    }
    Ok(())
}

#[test]
fn parts_of_no_text_have_a_status_of_their_own(rt: HostRuntime) -> Result<(), Fail> {
    let line = b"spire: rebuild NoText\n";
    let status = told(&rt, rt.alloc(), "rebuild scenario script", "", line)?;
    assert_eq!(rt; status, 9);
    Ok(())
}

/// A call of `verify` with so many bytes as public key, and the scenario and the script as message and signature.
fn verifying(alloc: Global, bytes: u64) -> Result<String, Fail> {
    let mut line = String::from_str(alloc, "verify ")?;
    for _byte in 0..bytes {
        line.push_str("0f")?;
    }
    line.push_str(" scenario script")?;
    Ok(line)
}

#[test]
fn a_signature_that_is_none_is_refused(rt: HostRuntime) -> Result<(), Fail> {
    for (bytes, wanted, status) in [
        (60, b"spire: not verified\n".as_slice(), 8),
        (1, b"spire: usage\n".as_slice(), 2),
    ] {
        let line = verifying(rt.alloc(), bytes)?;
        let told = told(&rt, rt.alloc(), line.as_str(), "", wanted)?;
        assert_eq!(rt; told, status);
    }
    Ok(())
}

/// The actors' keys have one tree each, so few hashes make them.
#[test]
fn the_keys_are_the_known_ones(rt: HostRuntime) -> Result<(), Fail> {
    let mut scenario = String::from_str(rt.alloc(), SCENARIO)?;
    scenario.push_str("levels = [5]\n")?;
    let ending = run(rt.alloc(), "keys script", scenario.as_str())?;
    assert_eq!(rt; ending.status, 0);
    assert!(rt; ending.line.is_empty());
    assert_eq!(rt; ending.put.len(), 620);
    assert!(rt; ending.put.starts_with(FIRST_KEY));
    assert!(rt; ending.put.ends_with(LAST_KEY));
    let own = run(rt.alloc(), "key script s0", scenario.as_str())?;
    assert_eq!(rt; own.status, 0);
    assert!(rt; own.put.as_slice() == OWN_KEY);
    Ok(())
}
