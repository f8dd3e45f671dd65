ghost use Rattle.std.specs.Prelude.{◌≡◌, ◌≤◌, ◌<◌, ◌+◌, ◌++◌, ◌∷◌, ◌^◌, ◌&&◌, ℕ, List, [], true, not, length, replicate, Err, OnOk, OnErr, IfOk, IfErr, IfSome, IfNone, IsSomeAnd, slice_get, Some};
ghost use Rattle.message_types.specs.declared.updates.Update.{Update};
ghost use Rattle.point_table.specs.Point.{is_within};
ghost use Rattle.point_table.specs.Table.{AreUsable};
ghost use Rattle.master_points.specs.declared.plant.Plant.{Plant};
ghost use Rattle.master_points.specs.Effects.{is_own_within};
ghost use Rattle.master_points.specs.Orders.{AreOwned};
ghost use Rattle.trend_archive.specs.declared.answer.TrendAnswer.TheVariants.{Want as WantAnswer};
ghost use Rattle.trend_archive.specs.Trends.{IsTrend, changes, has_value, news, noted, refusal};

use crate::answer::{TrendAnswer, refusal};
use crate::change::{Changed, Changes, Reading};
use crate::ranges::{add, between, list_of};
use master_points::Plant;
use message_types::{Op, Update};
use plain_lists::{Items, Want};
use point_table::Points;
use std::alloc::Global;
use std::marker::Model;

/// The points' values and their changes so far, a list for each point.
pub struct Trend {
    alloc: Global,
    points: Points,
    lists: Vec<Items<Changed>, Global>,
    count: u64,
}

// Taken apart here once, so that no crate above proves it again.
impl Drop for Trend {
    fn drop(self) {
        let Trend {
            alloc: _,
            points: _,
            lists: _,
            count: _,
        } = self;
    }
}

impl Model for Trend {
    ghost use Rattle.std.specs.Prelude.{◌≡◌, ◌≤◌, length};
    ghost use Rattle.trend_archive.specs.Trends.{Archive};

    ghost Value = { Archive };

    ghost view = { λ trend. record { points = trend.points.points; values = trend.points.values; lists = trend.lists.items; count = trend.count } };

    ghost invariant = { λ trend. (length trend.lists.items ≡ length trend.points.points) × (length trend.points.points ≤ 1024) };
}

impl Trend {
    /// A trend of a plant before any update.
    pub fn make(alloc: Global, plant: &Plant) -> Result<Trend, Want>
        requires few { length plant.now.points ≤ 1024 }
        requires usable { AreUsable plant.now.points }
        requires owned { AreOwned (length plant.now.devices) plant.now.points }
        ensures { IfOk result (λ trend. (screens : ℕ) → IsTrend plant.now screens [] trend) }
    {
        let points = Points::make(alloc, plant.points.as_slice())?;
        let lists = empty_lists(alloc, plant.points.len())?;
        Ok(Trend {
            alloc,
            points,
            lists,
            count: 0,
        })
    }

    /// Takes the next executed update. Without memory for it nothing changes.
    pub fn apply(&mut self, update: &Update) -> Result<(), Want>
        requires { self.old.count < 2 ^ 63 }
        ensures ok { OnOk result ((plant : Plant) (screens : ℕ) (us : List Update) → IsTrend plant screens us self.old → IsTrend plant screens (us ++ update.now ∷ []) self.new) }
        ensures counted { OnOk result (self.new.count ≡ self.old.count + 1) }
        ensures err { OnErr result (self.new ≡ self.old) }
    {
        let news = self.news(update);
        self.note(news)
    }

    /// How many updates were taken.
    pub fn executed(&self) -> u64
        ensures { result ≡ self.now.count }
    {
        self.count
    }

    /// The changes of a point by the updates number `first` to `last`.
    pub fn changes(&self, point: u32, first: u64, last: u64) -> Result<Changes, TrendAnswer>
        ensures found { IfOk result (λ found. (plant : Plant) (screens : ℕ) (us : List Update) → IsTrend plant screens us self.now → found ≡ record { point = point; first = first; last = last; items = changes plant screens point first last us }) }
        ensures refused { IfSome (refusal (length self.now.points) self.now.count point first last) (λ answer. result ≡ Err answer) }
        ensures answered { IfNone (refusal (length self.now.points) self.now.count point first last) (IfErr result (λ answer. answer ≡ WantAnswer)) }
    {
        match refusal(self.lists.len(), self.count, point, first, last) {
            Some(answer) => Err(answer),
            None => self.found(point, first, last),
        }
    }

    fn found(&self, point: u32, first: u64, last: u64) -> Result<Changes, TrendAnswer>
        requires { point < length self.now.points }
        ensures found { IfOk result (λ found. (plant : Plant) (screens : ℕ) (us : List Update) → IsTrend plant screens us self.now → found ≡ record { point = point; first = first; last = last; items = changes plant screens point first last us }) }
        ensures want { IfErr result (λ answer. answer ≡ WantAnswer) }
    {
        let items = list_of(self.alloc, between(self.list(point), first, last))?;
        Ok(Changes {
            point,
            first,
            last,
            items,
        })
    }

    // A point's changes so far.
    fn list(&self, point: u32) -> &[Changed]
        requires { point < length self.now.points }
        ensures { slice_get self.now.lists point ≡ Some result.now }
    {
        self.lists[point as usize].as_slice()
    }

    // The reading by which an update changes a point.
    fn news(&self, update: &Update) -> Option<Reading>
        ensures { result ≡ news self.now.points self.now.values update.now.client update.now.op }
    {
        match update.op {
            Op::Reading { point, value } if self.is_news(update.client, point, value) => {
                Some(Reading { point, value })
            }
            _ => None,
        }
    }

    fn is_news(&self, client: u32, point: u32, value: i64) -> bool
        ensures { result ≡ (is_own_within client value (slice_get self.now.points point) && not (has_value value (slice_get self.now.values point))) }
    {
        self.is_own_within(client, point, value) && !self.has_value(point, value)
    }

    fn is_own_within(&self, client: u32, point: u32, value: i64) -> bool
        ensures { result ≡ is_own_within client value (slice_get self.now.points point) }
    {
        match self.points.point(point) {
            Some(point) => point.proxy == client && point.is_within(value),
            None => false,
        }
    }

    fn has_value(&self, point: u32, value: i64) -> bool
        ensures { result ≡ has_value value (slice_get self.now.values point) }
    {
        match self.points.value(point) {
            Some(before) => before == value,
            None => false,
        }
    }

    // Counts an update, with the change that it makes.
    fn note(&mut self, news: Option<Reading>) -> Result<(), Want>
        requires count { self.old.count < 2 ^ 63 }
        requires can { IfSome news (λ reading. IsSomeAnd (slice_get self.old.points reading.point) (λ p. is_within p reading.value ≡ true)) }
        ensures ok { OnOk result (self.new ≡ noted self.old news) }
        ensures err { OnErr result (self.new ≡ self.old) }
    {
        match news {
            Some(reading) => self.change(reading.point, reading.value),
            None => {
                self.count += 1;
                Ok(())
            }
        }
    }

    // Counts an update that gives a point another value.
    fn change(&mut self, point: u32, value: i64) -> Result<(), Want>
        requires count { self.old.count < 2 ^ 63 }
        requires can { IsSomeAnd (slice_get self.old.points point) (λ p. is_within p value ≡ true) }
        ensures ok { OnOk result (self.new ≡ noted self.old (Some (record { point = point; value = value }))) }
        ensures err { OnErr result (self.new ≡ self.old) }
    {
        let change = Changed {
            number: self.count + 1,
            value,
        };
        add(&mut self.lists, point as usize, change)?;
        let _ = self.points.set(point, value);
        self.count += 1;
        Ok(())
    }
}

fn empty_lists(alloc: Global, count: usize) -> Result<Vec<Items<Changed>, Global>, Want>
    ensures { IfOk result (λ lists. lists.items ≡ replicate count []) }
{
    let mut lists = Vec::with_capacity(alloc, count)?;
    for _ in 0..count {
        lists.push(Items::new(alloc))?;
    }
    Ok(lists)
}
