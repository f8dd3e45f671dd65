ghost use Rattle.std.specs.Prelude.{◌≡◌, ◌++◌, OnOk};
ghost use Rattle.message_types.specs.Texts.{update_text, request_text, ack_text, summary_text, prepare_text, commit_text, mark_text, report_text};
ghost use Rattle.message_types.specs.Spelling.{always_fits, request_fits, summary_fits, report_fits};

use crate::written::{Written, put_certificates, put_frames, put_op, put_row, put_signed};
use message_types::{Commit, Mark, PoAck, PoRequest, PoSummary, Prepare, Report, Update};
use plain_lists::Want;
use wire_parts::{put_bytes, put_u16, put_u32, put_u64};

impl Written for Update {
    ghost text = { update_text };

    ghost fits = { always_fits };

    fn put(&self, out: &mut Vec<u8>) -> Result<(), Want> {
        put_u16(out, 1)?;
        put_u32(out, self.client)?;
        put_u64(out, self.t)?;
        put_op(out, self.op)
    }
}

impl Written for PoRequest {
    ghost text = { request_text };

    ghost fits = { request_fits };

    fn put(&self, out: &mut Vec<u8>) -> Result<(), Want> {
        put_u16(out, 2)?;
        put_u64(out, self.k)?;
        put_signed(out, &self.update)
    }
}

impl Written for PoAck {
    ghost text = { ack_text };

    ghost fits = { always_fits };

    fn put(&self, out: &mut Vec<u8>) -> Result<(), Want> {
        put_u16(out, 3)?;
        put_u32(out, self.j)?;
        put_u64(out, self.k)?;
        put_bytes(out, &self.digest)
    }
}

impl Written for PoSummary {
    ghost text = { summary_text };

    ghost fits = { summary_fits };

    fn put(&self, out: &mut Vec<u8>) -> Result<(), Want> {
        put_u16(out, 4)?;
        put_row(out, &self.numbers)
    }
}

impl Written for Prepare {
    ghost text = { prepare_text };

    ghost fits = { always_fits };

    fn put(&self, out: &mut Vec<u8>) -> Result<(), Want> {
        put_u16(out, 6)?;
        put_u64(out, self.v)?;
        put_u64(out, self.s)?;
        put_bytes(out, &self.digest)
    }
}

impl Written for Commit {
    ghost text = { commit_text };

    ghost fits = { always_fits };

    fn put(&self, out: &mut Vec<u8>) -> Result<(), Want> {
        put_u16(out, 7)?;
        put_u64(out, self.v)?;
        put_u64(out, self.s)?;
        put_bytes(out, &self.digest)
    }
}

impl Written for Mark {
    ghost text = { mark_text };

    ghost fits = { always_fits };

    fn put(&self, out: &mut Vec<u8>) -> Result<(), Want> {
        put_u16(out, 21)?;
        put_u64(out, self.s)
    }
}

impl Written for Report {
    ghost text = { report_text };

    ghost fits = { report_fits };

    fn put(&self, out: &mut Vec<u8>) -> Result<(), Want> {
        put_u16(out, 14)?;
        put_u64(out, self.v)?;
        put_u64(out, self.base)?;
        put_frames(out, &self.marks)?;
        put_certificates(out, &self.certificates)
    }
}
