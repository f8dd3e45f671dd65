ghost use Rattle.std.specs.Prelude.{◌≡◌};
ghost use Rattle.message_forms.specs.Grammar.{marked, number_at, bytes_at, no_key, list_at};
ghost use Rattle.message_forms.specs.Forms.{point_at, op_at, update_at, request_at, ack_at, row_at, summary_at, prepare_at, commit_at, mark_at, rows_at, certificate_at, certificate_key, report_at};
ghost use Rattle.message_forms.specs.Gives.{Gives};

use crate::form_reader::FormReader;
use crate::pieces::{Listed, Readable, frames, list, mark16, number_above, signed};
use crate::refusal::FormRefusal;
use message_types::{
    Certificate, Commit, MOST_CERTIFICATES, MOST_LISTED, Mark, Op, PoAck, PoRequest, PoSummary,
    Prepare, Report, Rows, Update,
};
use plain_lists::Vector;
use std::alloc::Global;

#[tactic(auto, unfolding(crate::specs::Forms::point_at))]
fn point(reader: &mut FormReader<'_>) -> Result<(u32, i64), FormRefusal>
    ensures { Gives result reader.new (point_at reader.old) }
{
    let point = reader.u32()?;
    let value = reader.i64()?;
    Ok((point, value))
}

#[tactic(auto, unfolding(crate::specs::Forms::op_at))]
fn op(reader: &mut FormReader<'_>) -> Result<Op, FormRefusal>
    ensures { Gives result reader.new (op_at reader.old) }
{
    let place = reader.place();
    let kind = reader.u8()?;
    if kind == 1 {
        let (point, value) = point(reader)?;
        Ok(Op::Reading { point, value })
    } else if kind == 2 {
        let (point, value) = point(reader)?;
        Ok(Op::Set { point, value })
    } else if kind == 3 {
        let alarm = reader.u32()?;
        Ok(Op::Ack { alarm })
    } else {
        Err(FormRefusal::UnknownKind { place })
    }
}

#[tactic(auto, unfolding(crate::specs::Forms::update_at))]
pub fn update(reader: &mut FormReader<'_>) -> Result<Update, FormRefusal>
    ensures { Gives result reader.new (update_at reader.old) }
{
    let client = reader.u32()?;
    let t = reader.u64()?;
    let op = op(reader)?;
    Ok(Update { client, t, op })
}

impl Readable for Update {
    ghost form = { marked 2 1 update_at };

    fn read(_alloc: Global, reader: &mut FormReader<'_>) -> Result<Self, FormRefusal> {
        mark16(reader, 1)?;
        update(reader)
    }
}

#[tactic(auto, unfolding(crate::specs::Forms::request_at))]
pub fn request(alloc: Global, reader: &mut FormReader<'_>) -> Result<PoRequest, FormRefusal>
    ensures { Gives result reader.new (request_at reader.old) }
{
    let k = reader.u64()?;
    let update = signed(alloc, reader, None)?;
    Ok(PoRequest { k, update })
}

impl Readable for PoRequest {
    ghost form = { marked 2 2 request_at };

    fn read(alloc: Global, reader: &mut FormReader<'_>) -> Result<Self, FormRefusal> {
        mark16(reader, 2)?;
        request(alloc, reader)
    }
}

fn digest(reader: &mut FormReader<'_>) -> Result<[u8; 32], FormRefusal>
    ensures { Gives result reader.new (bytes_at 32 reader.old) }
{
    let field = reader.bytes(32)?;
    let mut digest = [0; 32];
    digest.copy_from_slice(field);
    Ok(digest)
}

#[tactic(auto, unfolding(crate::specs::Forms::ack_at))]
pub fn ack(reader: &mut FormReader<'_>) -> Result<PoAck, FormRefusal>
    ensures { Gives result reader.new (ack_at reader.old) }
{
    let j = reader.u32()?;
    let k = reader.u64()?;
    let digest = digest(reader)?;
    Ok(PoAck { j, k, digest })
}

impl Readable for PoAck {
    ghost form = { marked 2 3 ack_at };

    fn read(_alloc: Global, reader: &mut FormReader<'_>) -> Result<Self, FormRefusal> {
        mark16(reader, 3)?;
        ack(reader)
    }
}

impl Listed for u64 {
    ghost item = { λ before. number_at 8 };

    ghost key = { no_key };

    fn read_item(
        _alloc: Global,
        reader: &mut FormReader<'_>,
        _before: Option<u64>,
    ) -> Result<Self, FormRefusal> {
        reader.u64()
    }

    fn key_of(&self) -> Option<u64> {
        None
    }
}

#[tactic(auto, unfolding(crate::specs::Forms::row_at))]
fn row(alloc: Global, reader: &mut FormReader<'_>) -> Result<Vector, FormRefusal>
    ensures { Gives result reader.new (row_at reader.old) }
{
    list(alloc, reader, MOST_LISTED)
}

impl Listed for Vector {
    ghost item = { λ before. row_at };

    ghost key = { no_key };

    fn read_item(
        alloc: Global,
        reader: &mut FormReader<'_>,
        _before: Option<u64>,
    ) -> Result<Self, FormRefusal> {
        row(alloc, reader)
    }

    fn key_of(&self) -> Option<u64> {
        None
    }
}

#[tactic(auto, unfolding(crate::specs::Forms::summary_at))]
pub fn summary(alloc: Global, reader: &mut FormReader<'_>) -> Result<PoSummary, FormRefusal>
    ensures { Gives result reader.new (summary_at reader.old) }
{
    let numbers = row(alloc, reader)?;
    Ok(PoSummary { numbers })
}

impl Readable for PoSummary {
    ghost form = { marked 2 4 summary_at };

    fn read(alloc: Global, reader: &mut FormReader<'_>) -> Result<Self, FormRefusal> {
        mark16(reader, 4)?;
        summary(alloc, reader)
    }
}

#[tactic(auto, unfolding(crate::specs::Forms::prepare_at))]
pub fn prepare(reader: &mut FormReader<'_>) -> Result<Prepare, FormRefusal>
    ensures { Gives result reader.new (prepare_at reader.old) }
{
    let v = reader.u64()?;
    let s = reader.u64()?;
    let digest = digest(reader)?;
    Ok(Prepare { v, s, digest })
}

impl Readable for Prepare {
    ghost form = { marked 2 6 prepare_at };

    fn read(_alloc: Global, reader: &mut FormReader<'_>) -> Result<Self, FormRefusal> {
        mark16(reader, 6)?;
        prepare(reader)
    }
}

#[tactic(auto, unfolding(crate::specs::Forms::commit_at))]
pub fn commit(reader: &mut FormReader<'_>) -> Result<Commit, FormRefusal>
    ensures { Gives result reader.new (commit_at reader.old) }
{
    let v = reader.u64()?;
    let s = reader.u64()?;
    let digest = digest(reader)?;
    Ok(Commit { v, s, digest })
}

impl Readable for Commit {
    ghost form = { marked 2 7 commit_at };

    fn read(_alloc: Global, reader: &mut FormReader<'_>) -> Result<Self, FormRefusal> {
        mark16(reader, 7)?;
        commit(reader)
    }
}

#[tactic(auto, unfolding(crate::specs::Forms::mark_at))]
pub fn mark(reader: &mut FormReader<'_>) -> Result<Mark, FormRefusal>
    ensures { Gives result reader.new (mark_at reader.old) }
{
    let s = reader.u64()?;
    Ok(Mark { s })
}

impl Readable for Mark {
    ghost form = { marked 2 21 mark_at };

    fn read(_alloc: Global, reader: &mut FormReader<'_>) -> Result<Self, FormRefusal> {
        mark16(reader, 21)?;
        mark(reader)
    }
}

#[tactic(auto, unfolding(crate::specs::Forms::rows_at))]
pub fn rows(alloc: Global, reader: &mut FormReader<'_>) -> Result<Rows, FormRefusal>
    ensures { Gives result reader.new (rows_at reader.old) }
{
    mark16(reader, 0x00f0)?;
    list(alloc, reader, MOST_LISTED)
}

#[tactic(auto, unfolding(crate::specs::Forms::certificate_at))]
fn certificate(
    alloc: Global,
    reader: &mut FormReader<'_>,
    before: Option<u64>,
) -> Result<Certificate, FormRefusal>
    ensures { Gives result reader.new (certificate_at before reader.old) }
{
    let s = number_above(reader, before)?;
    let v = reader.u64()?;
    let rows = rows(alloc, reader)?;
    let prepares = frames(alloc, reader)?;
    Ok(Certificate {
        s,
        v,
        rows,
        prepares,
    })
}

impl Listed for Certificate {
    ghost item = { certificate_at };

    ghost key = { certificate_key };

    fn read_item(
        alloc: Global,
        reader: &mut FormReader<'_>,
        before: Option<u64>,
    ) -> Result<Self, FormRefusal> {
        certificate(alloc, reader, before)
    }

    fn key_of(&self) -> Option<u64> {
        Some(self.s)
    }
}

#[tactic(auto, unfolding(crate::specs::Forms::report_at))]
pub fn report(alloc: Global, reader: &mut FormReader<'_>) -> Result<Report, FormRefusal>
    ensures { Gives result reader.new (report_at reader.old) }
{
    let v = reader.u64()?;
    let base = reader.u64()?;
    let marks = frames(alloc, reader)?;
    let certificates = list(alloc, reader, MOST_CERTIFICATES)?;
    Ok(Report {
        v,
        base,
        marks,
        certificates,
    })
}

impl Readable for Report {
    ghost form = { marked 2 14 report_at };

    fn read(alloc: Global, reader: &mut FormReader<'_>) -> Result<Self, FormRefusal> {
        mark16(reader, 14)?;
        report(alloc, reader)
    }
}
