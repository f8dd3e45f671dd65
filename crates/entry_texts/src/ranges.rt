//! That each number of a frame is within its type, and each digest of 32 bytes. Contracts don't know it of what stands
//! deep in a value, until the code has looked at it; a machine has nothing to do for it.
ghost use Rattle.std.specs.Prelude.{◌<◌, ◌^◌, FitsSigned};
ghost use Rattle.std.specs.Int.{w64};
ghost use Rattle.std.specs.List.{AllByRecursion};
ghost use Rattle.message_forms.specs.Widths.{Is32, Is64, IsDigest, FitsSigner, FitsOp, FitsUpdate, FitsRequest, FitsAck, FitsSummary, FitsPrePrepare, FitsPrepare, FitsCommit, FitsMark, FitsCertificate, FitsReport, FitsNewView, FitsGive, FitsGiveOrdered, FitsNotice, FitsOrder, FitsVoucher, FitsBody};

use message_types::{
    Body, Certificate, Commit, Give, GiveOrdered, Mark, NewView, Notice, Op, Order, PoAck,
    PoRequest, PoSummary, PrePrepare, Prepare, Report, Signed, Update, Voucher,
};
use plain_lists::Items;

pub trait Ranged: Drop {
    ghost is_within: { Self → Type 0 };

    /// Reads all numbers and digests, and does nothing with them.
    fn look(&self)
        ensures { is_within self.now };
}

impl Ranged for u16 {
    ghost is_within = { λ number. number < 2 ^ 16 };

    fn look(&self) {
        let _number = *self;
    }
}

impl Ranged for u32 {
    ghost is_within = { Is32 };

    fn look(&self) {
        let _number = *self;
    }
}

impl Ranged for u64 {
    ghost is_within = { Is64 };

    fn look(&self) {
        let _number = *self;
    }
}

impl Ranged for i64 {
    ghost is_within = { FitsSigned w64 };

    fn look(&self) {
        let _number = *self;
    }
}

impl Ranged for [u8; 32] {
    ghost is_within = { IsDigest };

    fn look(&self) {
        let _digest = *self;
    }
}

impl<T: Ranged> Ranged for Items<T> {
    ghost is_within = { AllByRecursion T.is_within };

    fn look(&self) {
        for item in self.as_slice() {
            item.look();
        }
    }
}

impl<B: Ranged> Ranged for Signed<B> {
    ghost is_within = { FitsSigner B.is_within };

    fn look(&self) {
        self.signer.look();
        self.body.look();
    }
}

impl Ranged for Op {
    ghost is_within = { FitsOp };

    fn look(&self) {
        match self {
            Op::Reading { point, value } | Op::Set { point, value } => {
                point.look();
                value.look();
            }
            Op::Ack { alarm } => {
                alarm.look();
            }
        }
    }
}

impl Ranged for Update {
    ghost is_within = { FitsUpdate };

    fn look(&self) {
        self.client.look();
        self.t.look();
        self.op.look();
    }
}

impl Ranged for PoRequest {
    ghost is_within = { FitsRequest };

    fn look(&self) {
        self.k.look();
        self.update.look();
    }
}

impl Ranged for PoAck {
    ghost is_within = { FitsAck };

    fn look(&self) {
        self.j.look();
        self.k.look();
        self.digest.look();
    }
}

impl Ranged for PoSummary {
    ghost is_within = { FitsSummary };

    fn look(&self) {
        self.numbers.look();
    }
}

impl Ranged for PrePrepare {
    ghost is_within = { FitsPrePrepare };

    fn look(&self) {
        self.v.look();
        self.s.look();
        self.frames.look();
    }
}

impl Ranged for Prepare {
    ghost is_within = { FitsPrepare };

    fn look(&self) {
        self.v.look();
        self.s.look();
        self.digest.look();
    }
}

impl Ranged for Commit {
    ghost is_within = { FitsCommit };

    fn look(&self) {
        self.v.look();
        self.s.look();
        self.digest.look();
    }
}

impl Ranged for Mark {
    ghost is_within = { FitsMark };

    fn look(&self) {
        self.s.look();
    }
}

impl Ranged for Certificate {
    ghost is_within = { FitsCertificate };

    fn look(&self) {
        self.s.look();
        self.v.look();
        self.rows.look();
        self.prepares.look();
    }
}

impl Ranged for Report {
    ghost is_within = { FitsReport };

    fn look(&self) {
        self.v.look();
        self.base.look();
        self.marks.look();
        self.certificates.look();
    }
}

impl Ranged for NewView {
    ghost is_within = { FitsNewView };

    fn look(&self) {
        self.v.look();
        self.reports.look();
    }
}

impl Ranged for Give {
    ghost is_within = { FitsGive };

    fn look(&self) {
        self.request.look();
        self.acks.look();
    }
}

impl Ranged for GiveOrdered {
    ghost is_within = { FitsGiveOrdered };

    fn look(&self) {
        self.s.look();
        self.v.look();
        self.rows.look();
        self.commits.look();
    }
}

impl Ranged for Notice {
    ghost is_within = { FitsNotice };

    fn look(&self) {
        self.t.look();
        self.number.look();
    }
}

impl Ranged for Order {
    ghost is_within = { FitsOrder };

    fn look(&self) {
        match self {
            Order::Write { point, raw } => {
                point.look();
                raw.look();
            }
            Order::Notice(notice) => notice.look(),
        }
    }
}

impl Ranged for Voucher {
    ghost is_within = { FitsVoucher };

    fn look(&self) {
        self.client.look();
        self.number.look();
        self.order.look();
    }
}

impl Ranged for Body {
    ghost is_within = { FitsBody };

    fn look(&self) {
        match self {
            Body::Update(word) => word.look(),
            Body::PoRequest(word) => word.look(),
            Body::PoAck(word) => word.look(),
            Body::PoSummary(word) => word.look(),
            Body::PrePrepare(word) => word.look(),
            Body::Prepare(word) => word.look(),
            Body::Commit(word) => word.look(),
            Body::Ping(word) => word.number.look(),
            Body::Pong(word) => {
                word.to.look();
                word.number.look();
            }
            Body::Rtt(word) => {
                word.to.look();
                word.number.look();
                word.ticks.look();
            }
            Body::TatReport(word) => {
                word.v.look();
                word.ticks.look();
            }
            Body::TatBound(word) => {
                word.v.look();
                word.ticks.look();
            }
            Body::Suspect(word) => word.v.look(),
            Body::Report(word) => word.look(),
            Body::NewView(word) => word.look(),
            Body::AskUpdate(word) => {
                word.j.look();
                word.k.look();
            }
            Body::Give(word) => word.look(),
            Body::AskOrder(word) => word.s.look(),
            Body::GiveOrdered(word) => word.look(),
            Body::Voucher(word) => word.look(),
            Body::Mark(word) => word.look(),
        }
    }
}
