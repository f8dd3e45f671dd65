ghost use Rattle.std.specs.Prelude.{◌≡◌};
ghost use Rattle.suspect_leader.specs.Sayings.{saying_in};

use message_types::Body;

/// What a master says once at most: a body by what tells it from the others of its kind.
#[derive(Clone, Copy, PartialEq, Eq, PartialOrd, Ord)]
pub enum Saying {
    Ping { number: u64 },
    Pong { to: u32, number: u64 },
    RoundTrip { to: u32, number: u64 },
    Report { v: u64, ticks: u64 },
    Bound { v: u64 },
    Vote { v: u64 },
}

/// What a body of this crate's kinds says.
pub(crate) fn saying_of(body: &Body) -> Option<Saying>
    ensures { result ≡ saying_in body.now }
{
    match body {
        Body::Ping(word) => Some(Saying::Ping {
            number: word.number,
        }),
        Body::Pong(word) => Some(Saying::Pong {
            to: word.to,
            number: word.number,
        }),
        Body::Rtt(word) => Some(Saying::RoundTrip {
            to: word.to,
            number: word.number,
        }),
        Body::TatReport(word) => Some(Saying::Report {
            v: word.v,
            ticks: word.ticks,
        }),
        Body::TatBound(word) => Some(Saying::Bound { v: word.v }),
        Body::Suspect(word) => Some(Saying::Vote { v: word.v }),
        _ => None,
    }
}
