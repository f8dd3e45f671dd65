//! Scenario files, read.
use crate::lines::describe;
use anyhow::Result;
use scenario_file::Scenario;
use std::fs;
use std::rt::Files;

// The line for one file.
fn print_answer<R: AllocGlobal + Print>(rt: &R, bytes: &[u8]) -> Result<()> {
    let alloc = rt.alloc();
    let mut line = String::new(alloc);
    match Scenario::read(alloc, bytes) {
        Ok(scenario) => describe(&mut line, &scenario)?,
        Err(refusal) => write!(line, "{refusal}")?,
    }
    rt.println(line.as_str())?;
    Ok(())
}

pub fn print_answers<R: Files + AllocGlobal + Print>(rt: &R, name: &str) -> Result<()> {
    let bytes = fs::read(rt, name)?;
    let mut scenario = Vec::new(rt.alloc());
    for line in bytes.split(|byte| *byte == b'\n') {
        if line == b"----".as_slice() {
            print_answer(rt, &scenario)?;
            scenario.clear();
        } else {
            scenario.extend_from_slice(line)?;
            scenario.extend_from_slice(b"\n")?;
        }
    }
    Ok(())
}
