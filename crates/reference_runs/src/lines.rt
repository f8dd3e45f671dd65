//! A scenario on one line.
use alarm_rules::{AlarmKind, AlarmRule};
use anyhow::Result;
use interlocks::Interlock;
use plain_lists::Vector;
use point_table::{Area, DeviceSizes, Point};
use quorum_sets::VoterSet;
use scenario_file::Scenario;

pub fn describe(line: &mut String, scenario: &Scenario) -> Result<()> {
    describe_group(line, scenario)?;
    for device in scenario.plant.devices.as_slice() {
        describe_device(line, device)?;
    }
    for point in scenario.plant.points.as_slice() {
        describe_point(line, point)?;
    }
    for alarm in scenario.plant.alarms.as_slice() {
        describe_alarm(line, alarm)?;
    }
    for interlock in scenario.plant.interlocks.as_slice() {
        describe_interlock(line, interlock)?;
    }
    for calls in scenario.failing.as_slice() {
        describe_calls(line, calls)?;
    }
    Ok(())
}

fn describe_group(line: &mut String, scenario: &Scenario) -> Result<()> {
    let sizes = scenario.sizes;
    write!(
        line,
        "n {} f {} k {} q {} seed ",
        sizes.n, sizes.f, sizes.k, sizes.q
    )?;
    for byte in &scenario.seed {
        write!(line, "{byte:02x}")?;
    }
    line.push_str(" levels")?;
    for height in scenario.heights.as_slice() {
        write!(line, " {height}")?;
    }
    write!(
        line,
        " frames {} screens {} intruded",
        scenario.frames, scenario.screens
    )?;
    describe_set(line, &scenario.intruded)
}

fn describe_set(line: &mut String, masters: &VoterSet) -> Result<()> {
    for master in 0..14u32 {
        if masters.has(master) {
            write!(line, " {master}")?;
        }
    }
    Ok(())
}

fn describe_device(line: &mut String, device: &DeviceSizes) -> Result<()> {
    write!(line, "; proxy {} {} ", device.coils, device.discrete)?;
    write!(line, "{} {}", device.holding, device.input)?;
    Ok(())
}

fn area_name(area: Area) -> &'static str {
    match area {
        Area::Coil => "coil",
        Area::Discrete => "discrete",
        Area::Holding => "holding",
        Area::Input => "input",
    }
}

fn describe_point(line: &mut String, point: &Point) -> Result<()> {
    write!(
        line,
        "; point {} {} {} ",
        point.name.as_str(),
        point.proxy,
        area_name(point.area)
    )?;
    write!(line, "{} {} {} ", point.place, point.scale, point.offset)?;
    write!(line, "{} {} {}", point.low, point.high, point.start)?;
    Ok(())
}

fn describe_alarm(line: &mut String, alarm: &AlarmRule) -> Result<()> {
    let kind = match alarm.kind {
        AlarmKind::High => "high",
        AlarmKind::Low => "low",
    };
    write!(
        line,
        "; alarm {} {} {kind} ",
        alarm.name.as_str(),
        alarm.point
    )?;
    write!(line, "{} {}", alarm.limit, alarm.band)?;
    Ok(())
}

fn describe_interlock(line: &mut String, interlock: &Interlock) -> Result<()> {
    write!(
        line,
        "; interlock {} {}",
        interlock.name.as_str(),
        interlock.point
    )?;
    match interlock.value {
        Some(value) => write!(line, " {value}")?,
        None => line.push_str(" any")?,
    }
    Ok(())
}

fn describe_calls(line: &mut String, calls: &Vector) -> Result<()> {
    line.push_str("; failing")?;
    for call in calls.as_slice() {
        write!(line, " {call}")?;
    }
    Ok(())
}
