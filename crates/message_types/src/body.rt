ghost use Rattle.std.specs.Prelude.{◌≡◌, ◌↔◌, IsTrue, IfOk};

use crate::measures::{Ping, Pong, Rtt, Suspect, TatBound, TatReport};
use crate::ordering::{Commit, Mark, PrePrepare, Prepare};
use crate::preordering::{PoAck, PoRequest, PoSummary};
use crate::reconciling::{AskOrder, AskUpdate, Give, GiveOrdered};
use crate::signed::Signed;
use crate::updates::Update;
use crate::views::{NewView, Report};
use crate::vouchers::Voucher;
use plain_lists::{Copied, Same, Want};

/// All that can be signed.
#[derive(Drop)]
pub enum Body {
    Update(Update),
    PoRequest(PoRequest),
    PoAck(PoAck),
    PoSummary(PoSummary),
    PrePrepare(PrePrepare),
    Prepare(Prepare),
    Commit(Commit),
    Ping(Ping),
    Pong(Pong),
    Rtt(Rtt),
    TatReport(TatReport),
    TatBound(TatBound),
    Suspect(Suspect),
    Report(Report),
    NewView(NewView),
    AskUpdate(AskUpdate),
    Give(Give),
    AskOrder(AskOrder),
    GiveOrdered(GiveOrdered),
    Voucher(Voucher),
    Mark(Mark),
}

/// A signed word, as it is sent.
pub type Frame = Signed<Body>;

impl Copied for Body {
    fn copy(&self) -> Result<Self, Want> {
        Ok(match self {
            Body::Update(word) => Body::Update(word.copy()?),
            Body::PoRequest(word) => Body::PoRequest(word.copy()?),
            Body::PoAck(word) => Body::PoAck(word.copy()?),
            Body::PoSummary(word) => Body::PoSummary(word.copy()?),
            Body::PrePrepare(word) => Body::PrePrepare(word.copy()?),
            Body::Prepare(word) => Body::Prepare(word.copy()?),
            Body::Commit(word) => Body::Commit(word.copy()?),
            Body::Ping(word) => Body::Ping(word.copy()?),
            Body::Pong(word) => Body::Pong(word.copy()?),
            Body::Rtt(word) => Body::Rtt(word.copy()?),
            Body::TatReport(word) => Body::TatReport(word.copy()?),
            Body::TatBound(word) => Body::TatBound(word.copy()?),
            Body::Suspect(word) => Body::Suspect(word.copy()?),
            Body::Report(word) => Body::Report(word.copy()?),
            Body::NewView(word) => Body::NewView(word.copy()?),
            Body::AskUpdate(word) => Body::AskUpdate(word.copy()?),
            Body::Give(word) => Body::Give(word.copy()?),
            Body::AskOrder(word) => Body::AskOrder(word.copy()?),
            Body::GiveOrdered(word) => Body::GiveOrdered(word.copy()?),
            Body::Voucher(word) => Body::Voucher(word.copy()?),
            Body::Mark(word) => Body::Mark(word.copy()?),
        })
    }
}

impl Same for Body {
    fn is_same(&self, other: &Self) -> bool {
        match (self, other) {
            (Body::Update(mine), Body::Update(theirs)) => mine.is_same(theirs),
            (Body::PoRequest(mine), Body::PoRequest(theirs)) => mine.is_same(theirs),
            (Body::PoAck(mine), Body::PoAck(theirs)) => mine.is_same(theirs),
            (Body::PoSummary(mine), Body::PoSummary(theirs)) => mine.is_same(theirs),
            (Body::PrePrepare(mine), Body::PrePrepare(theirs)) => mine.is_same(theirs),
            (Body::Prepare(mine), Body::Prepare(theirs)) => mine.is_same(theirs),
            (Body::Commit(mine), Body::Commit(theirs)) => mine.is_same(theirs),
            (Body::Ping(mine), Body::Ping(theirs)) => mine.is_same(theirs),
            (Body::Pong(mine), Body::Pong(theirs)) => mine.is_same(theirs),
            (Body::Rtt(mine), Body::Rtt(theirs)) => mine.is_same(theirs),
            (Body::TatReport(mine), Body::TatReport(theirs)) => mine.is_same(theirs),
            (Body::TatBound(mine), Body::TatBound(theirs)) => mine.is_same(theirs),
            (Body::Suspect(mine), Body::Suspect(theirs)) => mine.is_same(theirs),
            (Body::Report(mine), Body::Report(theirs)) => mine.is_same(theirs),
            (Body::NewView(mine), Body::NewView(theirs)) => mine.is_same(theirs),
            (Body::AskUpdate(mine), Body::AskUpdate(theirs)) => mine.is_same(theirs),
            (Body::Give(mine), Body::Give(theirs)) => mine.is_same(theirs),
            (Body::AskOrder(mine), Body::AskOrder(theirs)) => mine.is_same(theirs),
            (Body::GiveOrdered(mine), Body::GiveOrdered(theirs)) => mine.is_same(theirs),
            (Body::Voucher(mine), Body::Voucher(theirs)) => mine.is_same(theirs),
            (Body::Mark(mine), Body::Mark(theirs)) => mine.is_same(theirs),
            _ => false,
        }
    }
}
