//! What a scenario says of its plant.
ghost use Rattle.std.specs.Prelude.{◌≡◌, ◌++◌, OnOk, IfOk, string_bytes};
ghost use Rattle.std.specs.List.{flat_map};
ghost use Rattle.scenario_file.specs.Reading.{contents};
ghost use Rattle.run_page.specs.Plant.{alarm_text, bounds_text, group_text, interlock_text, kind_text, limit_text, place_text, plant_text, point_text, rules_text, scale_text, start_text, value_text};

use alarm_rules::{AlarmKind, AlarmRule};
use interlocks::Interlock;
use plain_lists::Want;
use point_table::Point;
use quorum_sets::{Rules, Sizes};
use run_lines::area_name;
use scenario_file::Scenario;
use std::alloc::Global;

/// The plant of a scenario, a line each for the group, for the points, for the alarms and for the interlocks.
#[tactic(auto, unfolding(crate::specs::Plant::plant_text))]
pub(crate) fn plant_text(alloc: Global, scenario: &Scenario) -> Result<String, Want>
    ensures { IfOk result (λ text. string_bytes text ≡ plant_text (contents scenario.now)) }
{
    let mut text = String::new(alloc);
    put_group(&mut text, scenario.sizes)?;
    put_points(&mut text, scenario.plant.points.as_slice())?;
    put_alarms(&mut text, scenario.plant.alarms.as_slice())?;
    put_interlocks(&mut text, scenario.plant.interlocks.as_slice())?;
    Ok(text)
}

#[tactic(auto, unfolding(crate::specs::Plant::group_text))]
fn put_group(text: &mut String, sizes: Sizes) -> Result<(), Want>
    ensures { OnOk result (string_bytes text.new ≡ string_bytes text.old ++ group_text sizes.f sizes.k sizes.rules) }
{
    let (f, k) = (sizes.f, sizes.k);
    write!(text, "group {f} {k} rules ")?;
    text.push_str(rules_name(sizes.rules))?;
    text.push_str("\n")?;
    Ok(())
}

fn rules_name(rules: Rules) -> &'static str
    ensures { result.now ≡ rules_text rules }
{
    match rules {
        Rules::First => "1",
        Rules::Live => "2",
    }
}

fn put_points(text: &mut String, points: &[Point]) -> Result<(), Want>
    ensures { OnOk result (string_bytes text.new ≡ string_bytes text.old ++ flat_map point_text points.now) }
{
    for point in points {
        put_point(text, point)?;
    }
    Ok(())
}

#[tactic(auto, unfolding(crate::specs::Plant::point_text))]
fn put_point(text: &mut String, point: &Point) -> Result<(), Want>
    ensures { OnOk result (string_bytes text.new ≡ string_bytes text.old ++ point_text point.now) }
{
    text.push_str("point ")?;
    text.push_str(point.name.as_str())?;
    put_place(text, point)?;
    put_scale(text, point)?;
    put_bounds(text, point)?;
    put_start(text, point)
}

/// Where the point stands.
#[tactic(auto, unfolding(crate::specs::Plant::place_text))]
fn put_place(text: &mut String, point: &Point) -> Result<(), Want>
    ensures { OnOk result (string_bytes text.new ≡ string_bytes text.old ++ place_text point.now) }
{
    let (proxy, place) = (point.proxy, point.place);
    write!(text, " p{proxy} ")?;
    text.push_str(area_name(point.area))?;
    write!(text, " {place}")?;
    Ok(())
}

/// How its raw value is read.
#[tactic(auto, unfolding(crate::specs::Plant::scale_text))]
fn put_scale(text: &mut String, point: &Point) -> Result<(), Want>
    ensures { OnOk result (string_bytes text.new ≡ string_bytes text.old ++ scale_text point.now) }
{
    let (scale, offset) = (point.scale, point.offset);
    write!(text, " scale {scale} offset {offset}")?;
    Ok(())
}

/// Which values it may have.
#[tactic(auto, unfolding(crate::specs::Plant::bounds_text))]
fn put_bounds(text: &mut String, point: &Point) -> Result<(), Want>
    ensures { OnOk result (string_bytes text.new ≡ string_bytes text.old ++ bounds_text point.now) }
{
    let (low, high) = (point.low, point.high);
    write!(text, " low {low} high {high}")?;
    Ok(())
}

/// Its value before any reading.
#[tactic(auto, unfolding(crate::specs::Plant::start_text))]
fn put_start(text: &mut String, point: &Point) -> Result<(), Want>
    ensures { OnOk result (string_bytes text.new ≡ string_bytes text.old ++ start_text point.now) }
{
    let start = point.start;
    write!(text, " start {start}\n")?;
    Ok(())
}

fn put_alarms(text: &mut String, alarms: &[AlarmRule]) -> Result<(), Want>
    ensures { OnOk result (string_bytes text.new ≡ string_bytes text.old ++ flat_map alarm_text alarms.now) }
{
    for alarm in alarms {
        put_alarm(text, alarm)?;
    }
    Ok(())
}

#[tactic(auto, unfolding(crate::specs::Plant::alarm_text))]
fn put_alarm(text: &mut String, alarm: &AlarmRule) -> Result<(), Want>
    ensures { OnOk result (string_bytes text.new ≡ string_bytes text.old ++ alarm_text alarm.now) }
{
    let point = alarm.point;
    text.push_str("alarm ")?;
    text.push_str(alarm.name.as_str())?;
    write!(text, " point {point} ")?;
    text.push_str(kind_name(alarm.kind))?;
    put_limit(text, alarm)
}

#[tactic(auto, unfolding(crate::specs::Plant::limit_text))]
fn put_limit(text: &mut String, alarm: &AlarmRule) -> Result<(), Want>
    ensures { OnOk result (string_bytes text.new ≡ string_bytes text.old ++ limit_text alarm.now) }
{
    let (limit, band) = (alarm.limit, alarm.band);
    write!(text, " {limit} band {band}\n")?;
    Ok(())
}

fn kind_name(kind: AlarmKind) -> &'static str
    ensures { result.now ≡ kind_text kind }
{
    match kind {
        AlarmKind::High => "high",
        AlarmKind::Low => "low",
    }
}

fn put_interlocks(text: &mut String, interlocks: &[Interlock]) -> Result<(), Want>
    ensures { OnOk result (string_bytes text.new ≡ string_bytes text.old ++ flat_map interlock_text interlocks.now) }
{
    for interlock in interlocks {
        put_interlock(text, interlock)?;
    }
    Ok(())
}

#[tactic(auto, unfolding(crate::specs::Plant::interlock_text))]
fn put_interlock(text: &mut String, interlock: &Interlock) -> Result<(), Want>
    ensures { OnOk result (string_bytes text.new ≡ string_bytes text.old ++ interlock_text interlock.now) }
{
    let point = interlock.point;
    text.push_str("interlock ")?;
    text.push_str(interlock.name.as_str())?;
    write!(text, " point {point} value ")?;
    put_value(text, interlock.value)
}

fn put_value(text: &mut String, value: Option<i64>) -> Result<(), Want>
    ensures { OnOk result (string_bytes text.new ≡ string_bytes text.old ++ value_text value) }
{
    match value {
        Some(value) => write!(text, "{value}\n")?,
        None => text.push_str("any\n")?,
    }
    Ok(())
}
