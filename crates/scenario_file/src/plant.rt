ghost use Rattle.std.specs.Prelude.{◌≡◌, ◌++◌, codes, ◌&&◌, ◌≤◌, not, length, IfOk};
ghost use Rattle.toml.specs.Data.{get_member};
ghost use Rattle.point_table.specs.Table.{point_named};
ghost use Rattle.alarm_rules.specs.Board.{alarm_named};
ghost use Rattle.toml.specs.View.{table_view};
ghost use Rattle.scenario_file.specs.Answers.{Answers, kept};
ghost use Rattle.scenario_file.specs.PlantRows.{device_in, is_name, name_in, area_of, area_in, proxy_in, point_in, point_named_in, kind_of, kind_in, alarm_in, interlock_named, value_of, names_of, rule_of, rule_in, interlock_in, devices_of, points_of, alarms_of, interlocks_of, plant_of};

use crate::refusal::ScenarioRefusal;
use crate::rows::{RowReader, read_rows};
use crate::values::{Keys, integer};
use alarm_rules::{AlarmKind, AlarmRule, Alarms};
use interlocks::token::{Token, token_of};
use interlocks::{Interlock, Rule, RuleRefusal};
use master_points::{MOST_INTERLOCKS, MOST_PROXIES, Plant};
use plain_lists::{Items, Text};
use point_table::{Area, DeviceSizes, Point, Points};

/// The most places of one area that a device may have.
const MOST_PLACES: u32 = 1024;

/// Whether a rule's text can name something so.
fn is_name(text: &str) -> bool
    ensures { result ≡ is_name text.now }
{
    match token_of(text.as_bytes()) {
        Token::Name => true,
        _ => false,
    }
}

impl Keys<'_> {
    /// The name that a row gives, where nothing has it yet.
    #[tactic(auto, unfolding(crate::specs::PlantRows::name_in))]
    fn fresh_name(&self, name: &str, is_taken: bool) -> Result<Text, ScenarioRefusal>
        ensures { Answers result (kept (self.now.at.now ++ codes "name") (is_name name.now && not is_taken) name.now) }
    {
        if is_name(name) && !is_taken {
            Ok(Text::from_str(self.alloc, name)?)
        } else {
            self.bad("name")
        }
    }

    #[tactic(auto, unfolding(crate::specs::PlantRows::area_in))]
    fn area(&self) -> Result<Area, ScenarioRefusal>
        ensures { Answers result (area_in self.now.at.now (table_view self.now.table.now)) }
    {
        match self.text_at("area")? {
            "coil" => Ok(Area::Coil),
            "discrete" => Ok(Area::Discrete),
            "holding" => Ok(Area::Holding),
            "input" => Ok(Area::Input),
            _ => self.bad("area"),
        }
    }

    /// The number of a proxy that is there.
    #[tactic(auto, unfolding(crate::specs::PlantRows::proxy_in))]
    fn proxy(&self, devices: u32) -> Result<u32, ScenarioRefusal>
        ensures { Answers result (proxy_in devices self.now.at.now (table_view self.now.table.now)) }
    {
        let proxy = self.count_at("proxy", 0, u32::MAX)?;
        if proxy < devices {
            Ok(proxy)
        } else {
            self.bad("proxy")
        }
    }

    /// The number of the point that a row names.
    #[tactic(auto, unfolding(crate::specs::PlantRows::point_named_in))]
    fn point(&self, points: &Points) -> Result<u32, ScenarioRefusal>
        ensures { Answers result (point_named_in points.now.points self.now.at.now (table_view self.now.table.now)) }
    {
        let name = self.text_at("point")?;
        match points.find(name) {
            Some(point) => Ok(point),
            None => self.bad("point"),
        }
    }

    #[tactic(auto, unfolding(crate::specs::PlantRows::kind_in))]
    fn kind(&self) -> Result<AlarmKind, ScenarioRefusal>
        ensures { Answers result (kind_in self.now.at.now (table_view self.now.table.now)) }
    {
        match self.text_at("kind")? {
            "high" => Ok(AlarmKind::High),
            "low" => Ok(AlarmKind::Low),
            _ => self.bad("kind"),
        }
    }

    /// The value that an interlock guards, if it gives one.
    #[tactic(auto, unfolding(crate::specs::PlantRows::value_of))]
    fn guarded_value(&self) -> Result<Option<i64>, ScenarioRefusal>
        ensures { Answers result (value_of (self.now.at.now ++ codes "value") (get_member (codes "value") (table_view self.now.table.now))) }
    {
        match self.member("value") {
            Some(value) => Ok(Some(integer(
                self.alloc,
                value,
                self.at,
                "value",
                i64::MIN,
                i64::MAX,
            )?)),
            None => Ok(None),
        }
    }

    #[tactic(auto, unfolding(crate::specs::PlantRows::rule_in))]
    fn rule(&self, points: &Points, alarms: &Alarms) -> Result<Rule, ScenarioRefusal>
        ensures { Answers result (rule_in (record { points = points.now; alarms = alarms.now }) self.now.at.now (table_view self.now.table.now)) }
    {
        let text = self.text_at("deny")?;
        match Rule::read(self.alloc, text, points, alarms) {
            Ok(rule) => Ok(rule),
            Err(RuleRefusal::Want) => Err(ScenarioRefusal::Want),
            Err(_) => self.bad("deny"),
        }
    }
}

/// The rows of proxies.
#[derive(Drop)]
struct DeviceRows;

impl RowReader<DeviceSizes> for DeviceRows {
    ghost use Rattle.scenario_file.specs.PlantRows.{device_in};

    ghost reads = { λ _ before at t. device_in before at t };

    #[tactic(auto, unfolding(crate::specs::PlantRows::device_in))]
    fn read(
        &self,
        _before: &[DeviceSizes],
        keys: &Keys<'_>,
    ) -> Result<DeviceSizes, ScenarioRefusal> {
        Ok(DeviceSizes {
            coils: keys.count_at("coils", 0, MOST_PLACES)? as u16,
            discrete: keys.count_at("discrete", 0, MOST_PLACES)? as u16,
            holding: keys.count_at("holding", 0, MOST_PLACES)? as u16,
            input: keys.count_at("input", 0, MOST_PLACES)? as u16,
        })
    }
}

/// The rows of points over that many devices.
#[derive(Drop)]
struct PointRows {
    devices: u32,
}

impl RowReader<Point> for PointRows {
    ghost use Rattle.scenario_file.specs.PlantRows.{point_in};

    ghost reads = { λ rows before at t. point_in rows.devices before at t };

    #[tactic(auto, unfolding(crate::specs::PlantRows::point_in, crate::specs::PlantRows::name_in))]
    fn read(&self, before: &[Point], keys: &Keys<'_>) -> Result<Point, ScenarioRefusal> {
        let name = keys.text_at("name")?;
        let is_taken = point_place(before, name.as_bytes()).is_some();
        let name = keys.fresh_name(name, is_taken)?;
        let proxy = keys.proxy(self.devices)?;
        let area = keys.area()?;
        let place = keys.count_at("place", 0, 65535)?;
        let scale = keys.integer_or("scale", 1, 1, 1_000_000)?;
        let offset = keys.integer_or("offset", 0, i64::MIN, i64::MAX)?;
        let low = keys.integer_at("low", i64::MIN, i64::MAX)?;
        let high = keys.integer_at("high", low, i64::MAX)?;
        let start = keys.integer_or("start", 0, low, high)?;
        Ok(Point {
            name,
            proxy,
            area,
            place: place as u16,
            scale,
            offset,
            low,
            high,
            start,
        })
    }
}

/// The place of the first point of that name.
fn point_place(points: &[Point], name: &[u8]) -> Option<usize>
    ensures { result ≡ point_named points.now name.now }
{
    points
        .iter()
        .position(|point| point.name.as_str().as_bytes() == name)
}

/// The rows of alarms over points.
#[derive(Drop)]
struct AlarmRows<'a> {
    points: &'a Points,
}

impl RowReader<AlarmRule> for AlarmRows<'_> {
    ghost use Rattle.scenario_file.specs.PlantRows.{alarm_in};

    ghost reads = { λ rows before at t. alarm_in rows.points.now.points before at t };

    #[tactic(auto, unfolding(crate::specs::PlantRows::alarm_in, crate::specs::PlantRows::name_in))]
    fn read(&self, before: &[AlarmRule], keys: &Keys<'_>) -> Result<AlarmRule, ScenarioRefusal> {
        let name = keys.text_at("name")?;
        let is_taken = alarm_place(before, name.as_bytes()).is_some();
        let name = keys.fresh_name(name, is_taken)?;
        let point = keys.point(self.points)?;
        let kind = keys.kind()?;
        let limit = keys.integer_at("limit", i64::MIN, i64::MAX)?;
        let band = keys.integer_at("band", 0, i64::MAX)?;
        Ok(AlarmRule {
            name,
            point,
            kind,
            limit,
            band,
        })
    }
}

/// The place of the first alarm of that name.
fn alarm_place(alarms: &[AlarmRule], name: &[u8]) -> Option<usize>
    ensures { result ≡ alarm_named alarms.now name.now }
{
    alarms
        .iter()
        .position(|alarm| alarm.name.as_str().as_bytes() == name)
}

/// The rows of interlocks over points and alarms.
#[derive(Drop)]
struct InterlockRows<'a> {
    points: &'a Points,
    alarms: &'a Alarms,
}

impl RowReader<Interlock> for InterlockRows<'_> {
    ghost use Rattle.scenario_file.specs.PlantRows.{interlock_in};

    ghost reads = { λ rows before at t. interlock_in (record { points = rows.points.now; alarms = rows.alarms.now }) before at t };

    #[tactic(auto, unfolding(crate::specs::PlantRows::interlock_in, crate::specs::PlantRows::name_in))]
    fn read(&self, before: &[Interlock], keys: &Keys<'_>) -> Result<Interlock, ScenarioRefusal> {
        let name = keys.text_at("name")?;
        let is_taken = interlock_place(before, name.as_bytes()).is_some();
        let name = keys.fresh_name(name, is_taken)?;
        let point = keys.point(self.points)?;
        let value = keys.guarded_value()?;
        let deny = keys.rule(self.points, self.alarms)?;
        Ok(Interlock {
            name,
            point,
            value,
            deny,
        })
    }
}

/// The place of the first interlock of that name.
fn interlock_place(interlocks: &[Interlock], name: &[u8]) -> Option<usize>
    ensures { result ≡ interlock_named interlocks.now name.now }
{
    interlocks
        .iter()
        .position(|interlock| interlock.name.as_str().as_bytes() == name)
}

#[tactic(auto, unfolding(crate::specs::PlantRows::devices_of))]
fn devices(document: &Keys<'_>) -> Result<Items<DeviceSizes>, ScenarioRefusal>
    ensures { Answers result (devices_of (table_view document.now.table.now)) }
{
    read_rows(document, &DeviceRows, "proxy", Some(MOST_PROXIES))
}

#[tactic(auto, unfolding(crate::specs::PlantRows::points_of))]
fn points(document: &Keys<'_>, devices: u32) -> Result<Items<Point>, ScenarioRefusal>
    ensures { Answers result (points_of devices (table_view document.now.table.now)) }
{
    read_rows(
        document,
        &PointRows { devices },
        "point",
        Some(Points::MOST),
    )
}

#[tactic(auto, unfolding(crate::specs::PlantRows::alarms_of))]
fn alarms(document: &Keys<'_>, points: &Points) -> Result<Items<AlarmRule>, ScenarioRefusal>
    ensures { Answers result (alarms_of points.now.points (table_view document.now.table.now)) }
{
    read_rows(document, &AlarmRows { points }, "alarm", Some(Alarms::MOST))
}

#[tactic(auto, unfolding(crate::specs::PlantRows::interlocks_of))]
fn interlocks(
    document: &Keys<'_>,
    points: &Points,
    alarms: &Alarms,
) -> Result<Items<Interlock>, ScenarioRefusal>
    ensures { Answers result (interlocks_of (record { points = points.now; alarms = alarms.now }) (table_view document.now.table.now)) }
{
    read_rows(
        document,
        &InterlockRows { points, alarms },
        "interlock",
        Some(MOST_INTERLOCKS),
    )
}

/// The plant of a document.
#[tactic(auto, unfolding(crate::specs::PlantRows::plant_of))]
pub fn plant(document: &Keys<'_>) -> Result<Plant, ScenarioRefusal>
    ensures few { IfOk result (λ plant. length plant.devices ≤ MOST_PROXIES) }
    ensures answer { Answers result (plant_of (table_view document.now.table.now)) }
{
    let devices = devices(document)?;
    let points = points(document, devices.len() as u32)?;
    let table = Points::make(document.alloc, points.as_slice())?;
    let alarms = alarms(document, &table)?;
    let board = Alarms::make(document.alloc, alarms.as_slice())?;
    let interlocks = interlocks(document, &table, &board)?;
    Ok(Plant {
        devices,
        points,
        alarms,
        interlocks,
    })
}
