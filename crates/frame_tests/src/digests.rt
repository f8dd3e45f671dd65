use message_types::{Op, Rows, Update, rows_digest, update_digest};
use plain_lists::{Items, Vector};
use std::test::Fail;

// An update that acknowledges alarm 0.
const ASKED: Update = Update {
    client: 0,
    t: 1,
    op: Op::Ack { alarm: 0 },
};

#[test]
fn digests_are_those_of_the_texts(rt: HostRuntime) -> Result<(), Fail> {
    let digest = [
        83, 7, 192, 176, 174, 106, 172, 220, 245, 7, 98, 84, 241, 255, 146, 249, 142, 125, 143,
        206, 60, 28, 148, 121, 189, 55, 254, 16, 215, 53, 86, 26,
    ];
    assert_eq!(rt; update_digest(&ASKED), digest);
    let mut first: Vector = Items::new(rt.alloc());
    first.push(1)?;
    first.push(2)?;
    let mut last: Vector = Items::new(rt.alloc());
    last.push(3)?;
    last.push(4)?;
    let mut rows: Rows = Items::new(rt.alloc());
    rows.push(first)?;
    rows.push(Items::new(rt.alloc()))?;
    rows.push(last)?;
    let digest = [
        15, 82, 241, 173, 128, 158, 203, 162, 210, 146, 82, 10, 210, 178, 32, 155, 221, 202, 78,
        214, 121, 130, 0, 221, 87, 59, 56, 60, 33, 129, 215, 181,
    ];
    assert_eq!(rt; rows_digest(&rows), digest);
    Ok(())
}
