ghost use Rattle.std.specs.Prelude.{◌≡◌, ◌≤◌, ◌≢◌, ◌*◌, ℕ, IfSome, IfNone};

use plain_lists::{Copied, Text, Want};

/// The four kinds of places that a field device has.
#[derive(Clone, Copy, Debug, PartialEq, Eq)]
pub enum Area {
    /// A bit that can be read and written.
    Coil,
    /// A bit that can only be read.
    Discrete,
    /// A 16-bit register that can be read and written.
    Holding,
    /// A 16-bit register that can only be read.
    Input,
}

impl Area {
    ghost use Rattle.point_table.specs.Point.{greatest_raw, is_writable};

    /// The greatest value that a place of this area can hold.
    pub fn greatest_raw(self) -> u16
        ensures { result ≡ greatest_raw self }
    {
        match self {
            Area::Coil | Area::Discrete => 1,
            Area::Holding | Area::Input => u16::MAX,
        }
    }

    /// Whether a master may write places of this area.
    pub fn is_writable(self) -> bool
        ensures { result ≡ is_writable self }
    {
        match self {
            Area::Coil | Area::Holding => true,
            Area::Discrete | Area::Input => false,
        }
    }
}

/// How many places of each area a field device has.
#[derive(Clone, Copy, PartialEq, Eq)]
pub struct DeviceSizes {
    pub coils: u16,
    pub discrete: u16,
    pub holding: u16,
    pub input: u16,
}

/// A measured point: the place of a device where it stands, how its raw value is read, and the
/// values that it may have. A raw value `r` stands for `r * scale + offset`.
#[derive(Drop)]
pub struct Point {
    pub name: Text,
    /// The number of the proxy, and so of the device, that the point belongs to.
    pub proxy: u32,
    pub area: Area,
    pub place: u16,
    pub scale: i64,
    pub offset: i64,
    pub low: i64,
    pub high: i64,
    /// The value before any reading.
    pub start: i64,
}

impl Point {
    ghost use Rattle.point_table.specs.Point.{is_within, raw_of, HasScale};

    /// Whether a value lies within the point's low and high.
    pub fn is_within(&self, value: i64) -> bool
        ensures { result ≡ is_within self.now value }
    {
        self.low <= value && value <= self.high
    }

    /// The raw value that stands for `value`. None exactly where the value is not within the
    /// point's bounds, or no raw value of its area stands for it.
    pub fn raw_of(&self, value: i64) -> Option<u16>
        requires { HasScale self.now }
        ensures { result ≡ raw_of self.now value }
    {
        if !self.is_within(value) {
            return None;
        }
        let away = i128::from(value) - i128::from(self.offset);
        if away < 0 {
            return None;
        }
        raw_away(away as u128, self.scale as u128, self.area.greatest_raw())
    }
}

impl Copied for Point {
    fn copy(&self) -> Result<Self, Want> {
        Ok(Point {
            name: self.name.copy()?,
            proxy: self.proxy,
            area: self.area,
            place: self.place,
            scale: self.scale,
            offset: self.offset,
            low: self.low,
            high: self.high,
            start: self.start,
        })
    }
}

/// The quotient of `away` and `scale`, where there is no rest and it is at most `greatest`.
fn raw_away(away: u128, scale: u128, greatest: u16) -> Option<u16>
    requires { 1 ≤ scale }
    ensures found { IfSome result (λ raw. (raw * scale ≡ away) × (raw ≤ greatest)) }
    ensures none { IfNone result ((raw : ℕ) → raw ≤ greatest → raw * scale ≢ away) }
{
    if away % scale != 0 {
        return None;
    }
    let raw = away / scale;
    if raw > u128::from(greatest) {
        return None;
    }
    Some(raw as u16)
}
