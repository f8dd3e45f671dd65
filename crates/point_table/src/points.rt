ghost use Rattle.std.specs.Prelude.{◌≡◌, ◌↔◌, ◌≤◌, ◌<◌, length, map, OnOk, OnErr, IfOk, IfSome, option_copied, slice_get, slice_set, IsSomeAnd, IsOk, Ok, Some, None, true, false};
ghost use Rattle.point_table.specs.Table.{point_named, start_values};

use crate::point::Point;
use plain_lists::{Copied, Items, Want};
use std::alloc::{AllocError, Global};
use std::marker::Model;
use thiserror::Error;

/// Why a point has no such value.
#[derive(Clone, Copy, Debug, PartialEq, Eq, Error)]
pub enum PointRefusal {
    #[error("there is no such point")]
    NoPoint,
    #[error("the value is out of the point's range")]
    OutOfRange,
}

/// The points of a plant and their values, which are within their points' bounds.
#[derive(Drop)]
pub struct Points {
    points: Items<Point>,
    values: Vec<i64, Global>,
}

impl Model for Points {
    ghost use Rattle.std.specs.Prelude.{◌≤◌, length};
    ghost use Rattle.point_table.specs.Table.{Table, AreWithin, AreUsable};

    ghost Value = { Table };

    ghost view = { λ table. record { points = table.points; values = table.values.items } };

    ghost invariant = { λ table. (length table.points ≤ 1024) × AreUsable table.points × AreWithin table.points table.values.items };
}

impl Points {
    ghost use Rattle.point_table.specs.Point.{is_within, raw_of, HasScale};
    ghost use Rattle.point_table.specs.Table.{Table, AreUsable, AreWithin, start_values, point_named};

    /// The most points that a plant may have.
    pub const MOST: usize = 1024;

    /// The points with their start values.
    pub fn make(alloc: Global, points: &[Point]) -> Result<Points, Want>
        requires few { length points.now ≤ 1024 }
        requires usable { AreUsable points.now }
        ensures { IfOk result (λ made. made ≡ record { points = points.now; values = start_values points.now }) }
    {
        let mut copies = Vec::with_capacity(alloc, points.len())?;
        for point in points {
            copies.push(point.copy()?)?;
        }
        let values = starts(alloc, points)?;
        Ok(Points {
            points: Items::from_vec(alloc, copies),
            values,
        })
    }

    /// Gives a point a new value. The point has to be there, and the value within its bounds.
    pub fn set(&mut self, point: u32, value: i64) -> Result<(), PointRefusal>
        ensures ok { OnOk result (self.new ≡ record self.old { values = slice_set self.old.values point value }) }
        ensures err { OnErr result (self.new ≡ self.old) }
        ensures no_point { (result ≡ Err PointRefusal.NoPoint) ↔ (length self.old.points ≤ point) }
        ensures out_of_range { (result ≡ Err PointRefusal.OutOfRange) ↔ IsSomeAnd (slice_get self.old.points point) (λ p. is_within p value ≡ false) }
    {
        let place = point as usize;
        let Some(found) = self.points.get(place) else {
            return Err(PointRefusal::NoPoint);
        };
        if !found.is_within(value) {
            return Err(PointRefusal::OutOfRange);
        }
        self.values[place] = value;
        Ok(())
    }

    /// A point's value. None exactly where there is no such point.
    pub fn value(&self, point: u32) -> Option<i64>
        ensures { result ≡ slice_get self.now.values point }
    {
        self.values.get(point as usize).copied()
    }

    /// The point of that number. None exactly where there is none.
    pub fn point(&self, number: u32) -> Option<&Point>
        ensures point { option_copied result ≡ slice_get self.now.points number }
        ensures scaled { IfSome result (λ p. HasScale p.now) }
    {
        match self.points.get(number as usize) {
            Some(point) => Some(point),
            None => None,
        }
    }

    /// The raw value that stands for a value of a point.
    pub fn raw_of(&self, point: u32, value: i64) -> Result<u16, PointRefusal>
        ensures ok { IfOk result (λ raw. IsSomeAnd (slice_get self.now.points point) (λ p. raw_of p value ≡ Some raw)) }
        ensures no_point { (result ≡ Err PointRefusal.NoPoint) ↔ (length self.now.points ≤ point) }
        ensures out_of_range { (result ≡ Err PointRefusal.OutOfRange) ↔ IsSomeAnd (slice_get self.now.points point) (λ p. raw_of p value ≡ None) }
    {
        let Some(found) = self.points.get(point as usize) else {
            return Err(PointRefusal::NoPoint);
        };
        match found.raw_of(value) {
            Some(raw) => Ok(raw),
            None => Err(PointRefusal::OutOfRange),
        }
    }

    /// The number of the first point of that name. None exactly where there is none.
    pub fn find(&self, name: &str) -> Option<u32>
        ensures { result ≡ point_named self.now.points name.now }
    {
        self.find_bytes(name.as_bytes())
    }

    /// The same for a name that is given as bytes.
    pub fn find_bytes(&self, name: &[u8]) -> Option<u32>
        ensures { result ≡ point_named self.now.points name.now }
    {
        let place = place_of(self.points.as_slice(), name)?;
        Some(place as u32)
    }
}

/// The place of the first point of that name.
fn place_of(points: &[Point], name: &[u8]) -> Option<usize>
    ensures place { result ≡ point_named points.now name.now }
    ensures within { IfSome result (λ place. place < length points.now) }
{
    points
        .iter()
        .position(|point| point.name.as_str().as_bytes() == name)
}

/// The points' start values.
fn starts(alloc: Global, points: &[Point]) -> Result<Vec<i64>, AllocError>
    ensures { IfOk result (λ values. values.items ≡ start_values points.now) }
{
    points.iter().map(|point| point.start).collect(alloc)
}
