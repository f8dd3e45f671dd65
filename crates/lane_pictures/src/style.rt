//! Families of words, each with a colour of its own.
ghost use Rattle.std.specs.Prelude.{◌≡◌};
ghost use Rattle.lane_pictures.specs.Drawing.{colour_of, family_of, lane_colour};

use crate::picture::Role;
use script_grammar::Kind;
use svg_shapes::WRONG;

/// What words are about.
#[derive(Clone, Copy, PartialEq, Eq)]
pub enum Family {
    /// Updates, and how masters come to have them.
    Requests,
    /// One order of all updates.
    Order,
    /// What clients are told.
    Vouchers,
    /// Leaders that are too slow, and views.
    Views,
    /// Times between masters.
    Measures,
    /// What a master lacks.
    Lacks,
    Marks,
}

/// What a kind of word is about.
pub fn family_of(kind: Kind) -> Family
    ensures { result ≡ family_of kind }
{
    match kind {
        Kind::Update | Kind::PoRequest | Kind::PoAck | Kind::PoSummary => Family::Requests,
        Kind::PrePrepare | Kind::Prepare | Kind::Commit => Family::Order,
        Kind::Voucher => Family::Vouchers,
        Kind::Suspect | Kind::Report | Kind::NewView => Family::Views,
        Kind::Ping | Kind::Pong | Kind::Rtt | Kind::TatReport | Kind::TatBound => Family::Measures,
        Kind::AskUpdate | Kind::Give | Kind::AskOrder | Kind::GiveOrdered => Family::Lacks,
        Kind::Mark => Family::Marks,
    }
}

impl Family {
    /// Its colour.
    pub(crate) fn colour(self) -> &'static str
        ensures { result.now ≡ colour_of self }
    {
        match self {
            Family::Requests => "#2a6fb0",
            Family::Order => "#2e8b57",
            Family::Vouchers => "#d98200",
            Family::Views => "#8a3fb0",
            Family::Measures => "#9a9a9a",
            Family::Lacks => "#8b5a2b",
            Family::Marks => "#008b8b",
        }
    }
}

/// The colour of an actor's lane.
pub(crate) fn lane_colour(role: Role) -> &'static str
    ensures { result.now ≡ lane_colour role }
{
    match role {
        Role::Intruded => WRONG,
        Role::Master | Role::Client => "#404040",
    }
}
