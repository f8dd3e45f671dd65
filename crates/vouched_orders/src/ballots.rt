ghost use Rattle.std.specs.Prelude.{◌≡◌};
ghost use Rattle.message_types.specs.Texts.{notice_number};
ghost use Rattle.vouched_orders.specs.Tally.{ballot};

use message_types::{NoticeKind, Order, Voucher};

/// A number and an order as the key of a sorted map.
pub fn ballot_of(voucher: &Voucher) -> [u64; 5]
    ensures { result ≡ ballot voucher.now.number voucher.now.order }
{
    let number = voucher.number;
    match voucher.order {
        Order::Write { point, raw } => [number, 0, u64::from(point), u64::from(raw), 0],
        Order::Notice(notice) => [
            number,
            1,
            kind_number(notice.what),
            notice.t,
            u64::from(notice.number),
        ],
    }
}

fn kind_number(kind: NoticeKind) -> u64
    ensures { result ≡ notice_number kind }
{
    match kind {
        NoticeKind::Done => 1,
        NoticeKind::Denied => 2,
        NoticeKind::NoPoint => 3,
        NoticeKind::OutOfRange => 4,
        NoticeKind::NotWritable => 5,
        NoticeKind::NoAlarm => 6,
        NoticeKind::Raised => 7,
        NoticeKind::Cleared => 8,
        NoticeKind::WrongPart => 9,
    }
}
