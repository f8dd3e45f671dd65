ghost use Rattle.std.specs.Prelude.{◌≡◌};
ghost use Rattle.field_proxy.specs.Undoing.{put_back, undone};

use field_device::Device;
use point_table::Area;
use std::alloc::Global;

/// What a place held before it was written, if the device has the place.
#[derive(Clone, Copy)]
pub struct Held {
    pub area: Area,
    pub place: u16,
    pub value: Option<u16>,
}

fn put_back(device: &mut Device, held: &Held)
    ensures { device.new ≡ put_back held.now device.old }
{
    if let Some(value) = held.value {
        let _put = device.change(held.area, held.place, value);
    }
}

/// Puts back what places held, the last written first. It takes no memory.
pub fn undo(device: &mut Device, mut log: Vec<Held, Global>)
    ensures { device.new ≡ undone log.items device.old }
{
    while let Some(held) = log.pop() {
        put_back(device, &held);
    }
}
