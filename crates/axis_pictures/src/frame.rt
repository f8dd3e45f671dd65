//! Where things stand in a field with axes. Lengths are in pixels.
ghost use Rattle.std.specs.Prelude.{◌≡◌, ◌++◌, OnOk, string_bytes};
ghost use Rattle.std.specs.List.{flat_map};
ghost use Rattle.quorum_sets.specs.Masters.{numbers_below};
ghost use Rattle.axis_pictures.specs.Frames.{along, distance, height_of, right, rise, step_of, tick_at, tick_text};

use plain_lists::Want;
use point_table::Point;
use svg_shapes::{put_line, put_number};

/// The height of the field, and where its top and its foot are.
const FIELD: u64 = 240;

pub(crate) const TOP: u64 = 40;

pub(crate) const FOOT: u64 = 280;

/// The room left of the field.
pub(crate) const LEFT: u64 = 70;

/// How wide a picture is, and how many places stand side by side in its field.
#[derive(Clone, Copy)]
pub struct Frame {
    pub width: u64,
    pub count: u64,
}

impl Frame {
    /// Where a place stands, from 0. What is too far for a number stands at the greatest one.
    #[tactic(auto, unfolding(crate::specs::Frames::along))]
    pub(crate) fn along(self, place: u64) -> u64
        ensures { result ≡ along self place }
    {
        let room = self.width.saturating_sub(90);
        let steps = self.count.saturating_sub(1).max(1);
        (place.saturating_mul(room) / steps).saturating_add(LEFT)
    }

    /// Where the field ends.
    pub(crate) fn right(self) -> u64
        ensures { result ≡ right self }
    {
        self.width.saturating_sub(20)
    }

    /// From one tick to the next.
    #[tactic(auto, unfolding(crate::specs::Frames::step_of))]
    fn step(self) -> u64
        ensures { result ≡ step_of self }
    {
        self.count / 8 + 1
    }

    /// At most eight ticks, each with its place's number, of places that count from `first`.
    pub(crate) fn put_ticks(self, text: &mut String, first: u64) -> Result<(), Want>
        ensures { OnOk result (string_bytes text.new ≡ string_bytes text.old ++ flat_map (tick_text self first) (numbers_below 8)) }
    {
        for tick in 0..8u64 {
            self.put_tick(text, first, tick)?;
        }
        Ok(())
    }

    fn put_tick(self, text: &mut String, first: u64, tick: u64) -> Result<(), Want>
        ensures { OnOk result (string_bytes text.new ≡ string_bytes text.old ++ tick_text self first tick) }
    {
        let place = tick.saturating_mul(self.step());
        if place < self.count {
            self.put_tick_at(text, place, place.saturating_add(first))?;
        }
        Ok(())
    }

    #[tactic(auto, unfolding(crate::specs::Frames::tick_at))]
    fn put_tick_at(self, text: &mut String, place: u64, number: u64) -> Result<(), Want>
        ensures { OnOk result (string_bytes text.new ≡ string_bytes text.old ++ tick_at self place number) }
    {
        let x = self.along(place);
        put_line(text, (x, FOOT), (x, 285), "#808080")?;
        put_number(text, x.saturating_sub(3), 300, "#404040", number)
    }
}

/// Where a value stands between the point's bounds. One beyond them stands at the nearer one.
#[tactic(auto, unfolding(crate::specs::Frames::height_of))]
pub(crate) fn height_of(point: &Point, value: i64) -> u64
    ensures { result ≡ height_of point.now value }
{
    let range = distance(point.low, point.high).max(1);
    let below = distance(value, point.high).min(range);
    let pixels = u128::from(below) * u128::from(FIELD) / u128::from(range);
    TOP + pixels as u64
}

/// How far one value is below another, or nothing.
#[tactic(auto, unfolding(crate::specs::Frames::distance))]
pub(crate) fn distance(low: i64, high: i64) -> u64
    ensures { result ≡ distance low high }
{
    if low < high { high.abs_diff(low) } else { 0 }
}

/// Where a count stands above the field's foot, of counts up to the greatest one.
#[tactic(auto, unfolding(crate::specs::Frames::rise))]
pub(crate) fn rise(greatest: u64, count: u64) -> u64
    ensures { result ≡ rise greatest count }
{
    let pixels = (count.saturating_mul(FIELD) / greatest.max(1)).min(FIELD);
    FOOT.saturating_sub(pixels)
}
