//! Where things stand in a picture whose entries stand in rows. Lengths are in pixels.
ghost use Rattle.std.specs.Prelude.{◌≡◌};
ghost use Rattle.lane_pictures.specs.Sheets.{across, bottom, edge, joined, level, row_of, sheet_of};

/// From one entry to the next, and from one lane to the next.
const STEP: u64 = 14;

const LANE: u64 = 46;

/// Half the height of a lane's band.
pub(crate) const HALF: u64 = 20;

/// The room left of the first entry of a row.
pub(crate) const LEFT: u64 = 70;

/// How a picture is laid out: the stamp that it begins with, how many entries stand in a row, how high a row is, and how wide
/// the picture.
#[derive(Clone, Copy)]
pub struct Sheet {
    pub first: u64,
    pub columns: u64,
    pub height: u64,
    pub width: u64,
}

/// How a stamp stands to a later one.
#[derive(Clone, Copy)]
pub enum Joined {
    /// In its row.
    Here { from: u64 },
    /// In a row above.
    Above { from: u64 },
    /// Before the picture, or there is none.
    Apart,
}

impl Sheet {
    /// For a picture that begins with a stamp, so many pixels wide, of so many lanes.
    #[tactic(auto, unfolding(crate::specs::Sheets::sheet_of))]
    pub fn make(first: u64, width: u32, lanes: u64) -> Sheet
        ensures { result ≡ sheet_of first width lanes }
    {
        let width = u64::from(width);
        Sheet {
            first,
            columns: (width.saturating_sub(90) / STEP).max(1),
            height: lanes.saturating_mul(LANE).saturating_add(30),
            width,
        }
    }

    /// The row of a stamp, from 0.
    #[tactic(auto, unfolding(crate::specs::Sheets::row_of))]
    pub(crate) fn row_of(self, stamp: u64) -> u64
        ensures { result ≡ row_of self stamp }
    {
        stamp.saturating_sub(self.first) / self.columns.max(1)
    }

    /// How far to the right a stamp stands in its row. What is too far for a number stands at the greatest one.
    #[tactic(auto, unfolding(crate::specs::Sheets::across))]
    pub(crate) fn across(self, stamp: u64) -> u64
        ensures { result ≡ across self stamp }
    {
        let column = stamp.saturating_sub(self.first) % self.columns.max(1);
        column.saturating_mul(STEP).saturating_add(LEFT)
    }

    /// Where an actor's lane stands in a row.
    #[tactic(auto, unfolding(crate::specs::Sheets::level))]
    pub(crate) fn level(self, row: u64, lane: u32) -> u64
        ensures { result ≡ level self row lane }
    {
        row.saturating_mul(self.height)
            .saturating_add(u64::from(lane).saturating_mul(LANE))
            .saturating_add(50)
    }

    /// Where so many rows end.
    #[tactic(auto, unfolding(crate::specs::Sheets::bottom))]
    pub(crate) fn bottom(self, rows: u64) -> u64
        ensures { result ≡ bottom self rows }
    {
        rows.saturating_mul(self.height).saturating_add(20)
    }

    /// Where rows end at the right.
    pub(crate) fn edge(self) -> u64
        ensures { result ≡ edge self }
    {
        self.width.saturating_sub(16)
    }

    /// How an earlier stamp stands to a later one.
    #[tactic(auto, unfolding(crate::specs::Sheets::joined))]
    pub(crate) fn joined(self, from: Option<u64>, stamp: u64) -> Joined
        ensures { result ≡ joined self from stamp }
    {
        let Some(from) = from else {
            return Joined::Apart;
        };
        if from < self.first {
            return Joined::Apart;
        }
        if self.row_of(from) == self.row_of(stamp) {
            Joined::Here { from }
        } else {
            Joined::Above { from }
        }
    }
}
