ghost use Rattle.std.specs.Prelude.{◌≡◌};
ghost use Rattle.suspect_leader.specs.Sayings.{heard_in};

use message_types::{Body, Ping, Pong, Rtt, TatBound, TatReport};

/// A word that counts for the measures of a leader.
#[derive(Clone, Copy)]
pub(crate) enum Heard {
    Ping(Ping),
    Pong(Pong),
    RoundTrip(Rtt),
    Report(TatReport),
    Bound(TatBound),
}

/// What a body tells of them.
pub(crate) fn heard_of(body: &Body) -> Option<Heard>
    ensures { result ≡ heard_in body.now }
{
    match body {
        Body::Ping(word) => Some(Heard::Ping(*word)),
        Body::Pong(word) => Some(Heard::Pong(*word)),
        Body::Rtt(word) => Some(Heard::RoundTrip(*word)),
        Body::TatReport(word) => Some(Heard::Report(*word)),
        Body::TatBound(word) => Some(Heard::Bound(*word)),
        _ => None,
    }
}
