ghost use Rattle.std.specs.Prelude.{◌≡◌, ◌+◌, ◌++◌, ◌∷◌, ◌<◌, ◌^◌, ◌&&◌, [], nat_eq, OnOk, OnErr, IfOk};
ghost use Rattle.operator_screen.specs.Board.{is_notice, notice_in, notices, Desk, IsDeskOf};

use message_types::{Notice, Op, Order, Update, Voucher};
use plain_lists::Want;
use quorum_sets::Sizes;
use std::alloc::Global;
use std::marker::Model;
use vouched_orders::{Vote, Vouched};

/// A screen: the commands given at it so far, and the notices that it shows.
pub struct Screen {
    alloc: Global,
    client: u32,
    sizes: Sizes,
    commands: u64,
    vouched: Vouched,
    board: Vec<Notice, Global>,
}

// Taken apart here once, so that no crate above proves it again.
impl Drop for Screen {
    fn drop(self) {
        let Screen {
            alloc: _,
            client: _,
            sizes: _,
            commands: _,
            vouched: _,
            board: _,
        } = self;
    }
}

impl Model for Screen {
    ghost use Rattle.operator_screen.specs.Board.{ScreenState};

    ghost Value = { ScreenState };

    ghost view = { λ screen. record { client = screen.client; n = screen.sizes.n; f = screen.sizes.f; commands = screen.commands; tally = screen.vouched; board = screen.board.items } };
}

impl Screen {
    ghost use Rattle.vouched_orders.specs.Vouching.{done, counted};

    /// A screen before its first command. `client` is its number among the clients. It takes no memory.
    pub fn make(alloc: Global, client: u32, sizes: Sizes) -> Screen
        ensures made { IsDeskOf result (record { client = client; n = sizes.n; f = sizes.f; commands = 0; votes = [] }) }
        ensures commands { result.commands ≡ 0 }
    {
        Screen {
            alloc,
            client,
            sizes,
            commands: 0,
            vouched: Vouched::new(alloc, &sizes),
            board: Vec::new(alloc),
        }
    }

    /// The update that a command is, with the screen's next number, from 1.
    pub fn command(&mut self, op: Op) -> Update
        requires { self.old.commands < 2 ^ 63 }
        ensures update { result ≡ record { client = self.old.client; t = self.old.commands + 1; op = op } }
        ensures counted { self.new ≡ record self.old { commands = self.old.commands + 1 } }
    {
        self.commands += 1;
        Update {
            client: self.client,
            t: self.commands,
            op,
        }
    }

    /// How many commands were given.
    pub fn commands(&self) -> u64
        ensures { result ≡ self.now.commands }
    {
        self.commands
    }

    /// Takes a voucher. One for another client, or with a write, changes nothing; nor does one after which memory is
    /// wanted. One that no master signed supports no notice.
    pub fn take_voucher(&mut self, signer: u32, voucher: &Voucher) -> Result<(), Want>
        ensures ok { OnOk result ((s : Desk) → IsDeskOf self.old s
            → IsDeskOf self.new (record s { votes = s.votes ++ counted is_notice s.client (record { signer = signer; voucher = voucher.now } ∷ []) })) }
        ensures err { OnErr result ((s : Desk) → IsDeskOf self.old s → IsDeskOf self.new s) }
    {
        if !self.counts(voucher) {
            return Ok(());
        }
        let vote = Vote {
            signer,
            voucher: *voucher,
        };
        let orders = self.vouched.ready(&vote)?;
        let shown = notices_among(self.alloc, orders.as_slice())?;
        let before = self.board.len();
        self.board.extend_from_slice(shown.as_slice())?;
        if let Err(want) = self.vouched.take(vote) {
            self.board.truncate(before);
            return Err(want);
        }
        Ok(())
    }

    /// The notices shown, the oldest first.
    pub fn board(&self) -> &[Notice]
        ensures { (s : Desk) → IsDeskOf self.now s → result.now ≡ notices (done s.n s.f s.votes) }
    {
        self.board.as_slice()
    }

    /// Whether a voucher is for this screen, and with a notice.
    fn counts(&self, voucher: &Voucher) -> bool
        ensures { result ≡ (nat_eq voucher.now.client self.now.client && is_notice voucher.now.order) }
    {
        voucher.client == self.client && is_for_a_screen(&voucher.order)
    }
}

/// Whether a screen acts on the order.
fn is_for_a_screen(order: &Order) -> bool
    ensures { result ≡ is_notice order.now }
{
    match order {
        Order::Notice(_) => true,
        Order::Write { .. } => false,
    }
}

/// The notices among orders.
fn notices_among(alloc: Global, orders: &[Order]) -> Result<Vec<Notice, Global>, Want>
    ensures { IfOk result (λ found. found.items ≡ notices orders.now) }
{
    let mut found = Vec::new(alloc);
    for order in orders {
        add_notice(&mut found, order)?;
    }
    Ok(found)
}

fn add_notice(found: &mut Vec<Notice, Global>, order: &Order) -> Result<(), Want>
    ensures { OnOk result (found.new.items ≡ found.old.items ++ notice_in order.now) }
{
    if let Order::Notice(notice) = order {
        found.push(*notice)?;
    }
    Ok(())
}
