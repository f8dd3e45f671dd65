use message_types::Order;
use plain_lists::{Bytes, Copied, Items, Vector, Want};

/// A frame, named by its signer, by the number of its body's kind and by its own number among those of that signer and
/// kind, from 1. In a word these are the frames that the speaker knows, as they became known, and a body counts once.
#[derive(Clone, Copy, Debug, PartialEq, Eq)]
pub struct Ref {
    pub actor: u32,
    pub kind: u16,
    pub number: u64,
}

/// A number and a view of which a report is to bring the certificate.
#[derive(Clone, Copy, PartialEq, Eq)]
pub struct Item {
    pub s: u64,
    pub v: u64,
}

/// What an intruded master is made to say: bytes as they stand, or a body, whose frames and digests are those of frames
/// that the master knows.
#[derive(Drop)]
pub enum Word {
    Raw {
        bytes: Bytes,
    },
    PoRequest {
        k: u64,
        update: Ref,
    },
    /// The digest is that of the named request's update or of the named preprepare's rows, here as in `Prepare` and
    /// in `Commit`.
    PoAck {
        j: u32,
        k: u64,
        digest: Ref,
    },
    PoSummary {
        numbers: Vector,
    },
    PrePrepare {
        v: u64,
        s: u64,
        frames: Items<Ref>,
    },
    Prepare {
        v: u64,
        s: u64,
        digest: Ref,
    },
    Commit {
        v: u64,
        s: u64,
        digest: Ref,
    },
    Ping {
        number: u64,
    },
    Pong {
        to: u32,
        number: u64,
    },
    Rtt {
        to: u32,
        number: u64,
        ticks: u64,
    },
    TatReport {
        v: u64,
        ticks: u64,
    },
    TatBound {
        v: u64,
        ticks: u64,
    },
    Suspect {
        v: u64,
    },
    /// Without a base it is the stable number.
    Report {
        v: u64,
        base: Option<u64>,
        items: Items<Item>,
    },
    NewView {
        v: u64,
        reports: Items<Ref>,
    },
    AskUpdate {
        j: u32,
        k: u64,
    },
    Give {
        j: u32,
        k: u64,
    },
    AskOrder {
        s: u64,
    },
    GiveOrdered {
        s: u64,
    },
    Voucher {
        client: u32,
        number: u64,
        order: Order,
    },
    Mark {
        s: u64,
    },
}

impl Copied for Word {
    fn copy(&self) -> Result<Self, Want> {
        Ok(match self {
            Word::Raw { bytes } => Word::Raw {
                bytes: bytes.copy()?,
            },
            Word::PoRequest { k, update } => Word::PoRequest {
                k: *k,
                update: *update,
            },
            Word::PoAck { j, k, digest } => Word::PoAck {
                j: *j,
                k: *k,
                digest: *digest,
            },
            Word::PoSummary { numbers } => Word::PoSummary {
                numbers: numbers.copy()?,
            },
            Word::PrePrepare { v, s, frames } => Word::PrePrepare {
                v: *v,
                s: *s,
                frames: frames.copy()?,
            },
            Word::Prepare { v, s, digest } => Word::Prepare {
                v: *v,
                s: *s,
                digest: *digest,
            },
            Word::Commit { v, s, digest } => Word::Commit {
                v: *v,
                s: *s,
                digest: *digest,
            },
            Word::Ping { number } => Word::Ping { number: *number },
            Word::Pong { to, number } => Word::Pong {
                to: *to,
                number: *number,
            },
            Word::Rtt { to, number, ticks } => Word::Rtt {
                to: *to,
                number: *number,
                ticks: *ticks,
            },
            Word::TatReport { v, ticks } => Word::TatReport {
                v: *v,
                ticks: *ticks,
            },
            Word::TatBound { v, ticks } => Word::TatBound {
                v: *v,
                ticks: *ticks,
            },
            Word::Suspect { v } => Word::Suspect { v: *v },
            Word::Report { v, base, items } => Word::Report {
                v: *v,
                base: *base,
                items: items.copy()?,
            },
            Word::NewView { v, reports } => Word::NewView {
                v: *v,
                reports: reports.copy()?,
            },
            Word::AskUpdate { j, k } => Word::AskUpdate { j: *j, k: *k },
            Word::Give { j, k } => Word::Give { j: *j, k: *k },
            Word::AskOrder { s } => Word::AskOrder { s: *s },
            Word::GiveOrdered { s } => Word::GiveOrdered { s: *s },
            Word::Voucher {
                client,
                number,
                order,
            } => Word::Voucher {
                client: *client,
                number: *number,
                order: *order,
            },
            Word::Mark { s } => Word::Mark { s: *s },
        })
    }
}
