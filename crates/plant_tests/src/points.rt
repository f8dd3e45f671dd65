ghost use Rattle.std.specs.Prelude.{IfOk};
ghost use Rattle.point_table.specs.Point.{IsUsable};

use plain_lists::{Copied, Text, Want};
use point_table::{Area, Point, PointRefusal, Points};
use std::alloc::Global;
use std::test::Fail;

fn feeder(alloc: Global) -> Result<Point, Want>
    ensures { IfOk result IsUsable }
{
    Ok(Point {
        name: Text::from_str(alloc, "feeder_amps")?,
        proxy: 0,
        area: Area::Input,
        place: 0,
        scale: 10,
        offset: 0,
        low: 0,
        high: 20000,
        start: 0,
    })
}

#[test]
fn a_feeder_refuses_what_it_cannot_show(rt: HostRuntime) -> Result<(), Fail> {
    let feeder = feeder(rt.alloc())?.copy()?;
    let mut points = Points::make(rt.alloc(), &[feeder])?;
    assert_eq!(rt; points.set(0, 20001), Err(PointRefusal::OutOfRange));
    assert_eq!(rt; points.set(3, 0), Err(PointRefusal::NoPoint));
    assert_eq!(rt; points.raw_of(0, 15), Err(PointRefusal::OutOfRange));
    assert_eq!(rt; points.raw_of(0, 150), Ok(15));
    assert_eq!(rt; points.set(0, 9500), Ok(()));
    assert_eq!(rt; points.value(0), Some(9500));
    assert_eq!(rt; points.find("feeder_amps"), Some(0));
    assert_eq!(rt; points.find("feeder"), None);
    Ok(())
}
