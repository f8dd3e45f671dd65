ghost use Rattle.std.specs.Prelude.{◌≡◌};

use plain_lists::{Copied, Text, Want};

/// On which side of its limit an alarm is raised.
#[derive(Clone, Copy, PartialEq, Eq)]
pub enum AlarmKind {
    /// Raised at the limit and above.
    High,
    /// Raised at the limit and below.
    Low,
}

/// An alarm over one point: it is raised where the value reaches the limit, and cleared where the
/// value has left the limit by more than the band.
#[derive(Drop)]
pub struct AlarmRule {
    pub name: Text,
    /// The number of the point that is watched.
    pub point: u32,
    pub kind: AlarmKind,
    pub limit: i64,
    pub band: i64,
}

/// What is remembered of an alarm.
#[derive(Clone, Copy, PartialEq, Eq)]
pub enum AlarmState {
    Quiet,
    Raised,
    Acknowledged,
}

impl AlarmState {
    ghost use Rattle.alarm_rules.specs.Alarm.{is_raised};

    /// Whether the alarm is raised, acknowledged or not.
    pub fn is_raised(self) -> bool
        ensures { result ≡ is_raised self }
    {
        match self {
            AlarmState::Quiet => false,
            AlarmState::Raised | AlarmState::Acknowledged => true,
        }
    }
}

impl AlarmRule {
    ghost use Rattle.alarm_rules.specs.Alarm.{reaches, leaves, next_state};

    /// Whether a value reaches the limit.
    pub fn reaches(&self, value: i64) -> bool
        ensures { result ≡ reaches self.now value }
    {
        match self.kind {
            AlarmKind::High => value >= self.limit,
            AlarmKind::Low => value <= self.limit,
        }
    }

    /// Whether a value has left the limit by more than the band.
    pub fn leaves(&self, value: i64) -> bool
        ensures { result ≡ leaves self.now value }
    {
        let value = i128::from(value);
        let limit = i128::from(self.limit);
        let band = i128::from(self.band);
        match self.kind {
            AlarmKind::High => value < limit - band,
            AlarmKind::Low => value > limit + band,
        }
    }

    /// The state after the point has taken a value.
    pub fn next_state(&self, value: i64, state: AlarmState) -> AlarmState
        ensures { result ≡ next_state self.now value state }
    {
        match state {
            AlarmState::Quiet => {
                if self.reaches(value) {
                    AlarmState::Raised
                } else {
                    AlarmState::Quiet
                }
            }
            AlarmState::Raised | AlarmState::Acknowledged => {
                if self.leaves(value) {
                    AlarmState::Quiet
                } else {
                    state
                }
            }
        }
    }
}

impl Copied for AlarmRule {
    fn copy(&self) -> Result<Self, Want> {
        Ok(AlarmRule {
            name: self.name.copy()?,
            point: self.point,
            kind: self.kind,
            limit: self.limit,
            band: self.band,
        })
    }
}
