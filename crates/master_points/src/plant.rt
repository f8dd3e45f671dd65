use alarm_rules::AlarmRule;
use interlocks::Interlock;
use plain_lists::{Copied, Items, Want};
use point_table::{DeviceSizes, Point};

/// What a scenario says of the plant: one field device behind each proxy, the points, the alarms over
/// them, and the interlocks.
pub struct Plant {
    pub devices: Items<DeviceSizes>,
    pub points: Items<Point>,
    pub alarms: Items<AlarmRule>,
    pub interlocks: Items<Interlock>,
}

// Taken apart here once, so that no crate above proves it again.
impl Drop for Plant {
    fn drop(self) {
        let Plant {
            devices: _,
            points: _,
            alarms: _,
            interlocks: _,
        } = self;
    }
}

impl Copied for Plant {
    fn copy(&self) -> Result<Self, Want> {
        Ok(Plant {
            devices: self.devices.copy()?,
            points: self.points.copy()?,
            alarms: self.alarms.copy()?,
            interlocks: self.interlocks.copy()?,
        })
    }
}
