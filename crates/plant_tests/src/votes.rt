use message_types::{Order, Voucher};
use quorum_sets::Sizes;
use std::test::Fail;
use vouched_orders::{Vote, Vouched};

fn write(signer: u32, number: u64, raw: u16) -> Vote {
    Vote {
        signer,
        voucher: Voucher {
            client: 0,
            number,
            order: Order::Write { point: 1, raw },
        },
    }
}

#[test]
fn a_later_number_waits_for_the_one_before(rt: HostRuntime) -> Result<(), Fail> {
    let mut vouched = Vouched::new(rt.alloc(), &Sizes::new(1, 0)?);
    for vote in [
        write(0, 2, 1),
        write(1, 2, 1),
        write(0, 1, 0),
        write(0, 1, 0),
        write(4, 1, 0),
    ] {
        assert!(rt; vouched.ready(&vote)?.is_empty());
        vouched.take(vote)?;
    }
    let last = write(2, 1, 0);
    let orders = vouched.ready(&last)?;
    assert!(rt;
        orders.as_slice()
            == [
                Order::Write { point: 1, raw: 0 },
                Order::Write { point: 1, raw: 1 }
            ]
            .as_slice()
    );
    Ok(())
}
