ghost use Rattle.std.specs.Prelude.{◌≡◌};

use message_types::{Notice, NoticeKind, Op, Order, Voucher};
use operator_screen::Screen;
use plain_lists::Want;
use quorum_sets::Sizes;
use std::test::Fail;

fn told(number: u64, what: NoticeKind) -> Voucher {
    Voucher {
        client: 1,
        number,
        order: Order::Notice(Notice {
            what,
            t: number,
            number: 0,
        }),
    }
}

/// Has a screen take what these masters vouch for.
fn take(screen: &mut Screen, votes: &[(u32, Voucher)]) -> Result<(), Want> {
    for (signer, voucher) in votes {
        screen.take_voucher(*signer, voucher)?;
    }
    Ok(())
}

#[test]
fn a_screen_shows_what_two_masters_of_four_vouch_for(rt: HostRuntime) -> Result<(), Fail> {
    let sizes = Sizes::new(1, 0)?;
    let mut screen = Screen::make(rt.alloc(), 1, sizes);
    assert_eq!(rt; screen.command(Op::Ack { alarm: 0 }).t, 1);
    assert_eq!(rt; screen.command(Op::Ack { alarm: 0 }).t, 2);
    assert_eq!(rt; screen.commands(), 2);
    let votes = [
        (0, told(2, NoticeKind::Done)),
        (1, told(2, NoticeKind::Done)),
        (0, told(1, NoticeKind::NoAlarm)),
        (0, told(1, NoticeKind::NoAlarm)),
        (3, told(1, NoticeKind::Denied)),
        (4, told(1, NoticeKind::NoAlarm)),
    ];
    take(&mut screen, &votes)?;
    assert!(rt; screen.board().is_empty());
    take(&mut screen, &[(2, told(1, NoticeKind::NoAlarm))])?;
    let board = screen.board();
    assert_eq!(rt; board.len(), 2);
    assert!(rt; board[0].what == NoticeKind::NoAlarm);
    assert!(rt; board[1].what == NoticeKind::Done);
    Ok(())
}
