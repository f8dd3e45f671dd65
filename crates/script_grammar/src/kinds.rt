ghost use Rattle.std.specs.Prelude.{◌≡◌};
ghost use Rattle.std.specs.List.{find};
ghost use Rattle.std.specs.Str.{bytes_eq};
ghost use Rattle.script_grammar.specs.Kinds.{kind_name, kind_number, kind_named};

/// The kinds of messages, in the order of their numbers.
const KINDS: [Kind; 21] = [
    Kind::Update,
    Kind::PoRequest,
    Kind::PoAck,
    Kind::PoSummary,
    Kind::PrePrepare,
    Kind::Prepare,
    Kind::Commit,
    Kind::Ping,
    Kind::Pong,
    Kind::Rtt,
    Kind::TatReport,
    Kind::TatBound,
    Kind::Suspect,
    Kind::Report,
    Kind::NewView,
    Kind::AskUpdate,
    Kind::Give,
    Kind::AskOrder,
    Kind::GiveOrdered,
    Kind::Voucher,
    Kind::Mark,
];

/// What a message is.
#[derive(Clone, Copy, PartialEq, Eq)]
pub enum Kind {
    Update,
    PoRequest,
    PoAck,
    PoSummary,
    PrePrepare,
    Prepare,
    Commit,
    Ping,
    Pong,
    Rtt,
    TatReport,
    TatBound,
    Suspect,
    Report,
    NewView,
    AskUpdate,
    Give,
    AskOrder,
    GiveOrdered,
    Voucher,
    Mark,
}

impl Kind {
    /// The kind's name, as scripts have it.
    pub fn name(self) -> &'static str
        ensures { result.now ≡ kind_name self }
    {
        match self {
            Kind::Update => "update",
            Kind::PoRequest => "porequest",
            Kind::PoAck => "poack",
            Kind::PoSummary => "posummary",
            Kind::PrePrepare => "preprepare",
            Kind::Prepare => "prepare",
            Kind::Commit => "commit",
            Kind::Ping => "ping",
            Kind::Pong => "pong",
            Kind::Rtt => "rtt",
            Kind::TatReport => "tatreport",
            Kind::TatBound => "tatbound",
            Kind::Suspect => "suspect",
            Kind::Report => "report",
            Kind::NewView => "newview",
            Kind::AskUpdate => "askupdate",
            Kind::Give => "give",
            Kind::AskOrder => "askorder",
            Kind::GiveOrdered => "giveordered",
            Kind::Voucher => "voucher",
            Kind::Mark => "mark",
        }
    }

    /// The kind's number, as frames have it.
    pub fn number(self) -> u16
        ensures { result ≡ kind_number self }
    {
        match self {
            Kind::Update => 1,
            Kind::PoRequest => 2,
            Kind::PoAck => 3,
            Kind::PoSummary => 4,
            Kind::PrePrepare => 5,
            Kind::Prepare => 6,
            Kind::Commit => 7,
            Kind::Ping => 8,
            Kind::Pong => 9,
            Kind::Rtt => 10,
            Kind::TatReport => 11,
            Kind::TatBound => 12,
            Kind::Suspect => 13,
            Kind::Report => 14,
            Kind::NewView => 15,
            Kind::AskUpdate => 16,
            Kind::Give => 17,
            Kind::AskOrder => 18,
            Kind::GiveOrdered => 19,
            Kind::Voucher => 20,
            Kind::Mark => 21,
        }
    }

    /// The kind that has a name.
    #[tactic(auto, unfolding(crate::specs::Kinds::kind_named))]
    pub fn named(name: &str) -> Option<Kind>
        ensures { result ≡ kind_named name.now }
    {
        named_among(&KINDS, name)
    }
}

/// The first of some kinds that has a name.
fn named_among(kinds: &[Kind], name: &str) -> Option<Kind>
    ensures { result ≡ find (λ k. bytes_eq (kind_name k) name.now) kinds.now }
{
    for kind in kinds {
        if kind.name() == name {
            return Some(*kind);
        }
    }
    None
}
