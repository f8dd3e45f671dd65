ghost use Rattle.std.specs.Prelude.{◌≡◌, ◌++◌, ◌∷◌, [], IfOk, OnOk};
ghost use Rattle.std.specs.List.{flat_map};
ghost use Rattle.message_types.specs.declared.body.Body.{Body};
ghost use Rattle.message_types.specs.declared.body.Body.TheVariants as body;
ghost use Rattle.message_types.specs.Parts.{as_frame, frames_of, request_parts, inside_report, inside, parts};

use crate::{
    Body, Certificate, Commit, Frame, Give, Mark, PoAck, PoRequest, PoSummary, Prepare, Report,
    Signed, Update,
};
use plain_lists::{Copied, Want};
use std::alloc::Global;

// A body that frames inside others have.
trait Inner: Copied {
    ghost kind: { Self → Body };

    fn into_body(self) -> Body
        ensures { result ≡ kind self };
}

impl Inner for Update {
    ghost kind = { body.Update };

    fn into_body(self) -> Body {
        Body::Update(self)
    }
}

impl Inner for PoRequest {
    ghost kind = { body.PoRequest };

    fn into_body(self) -> Body {
        Body::PoRequest(self)
    }
}

impl Inner for PoAck {
    ghost kind = { body.PoAck };

    fn into_body(self) -> Body {
        Body::PoAck(self)
    }
}

impl Inner for PoSummary {
    ghost kind = { body.PoSummary };

    fn into_body(self) -> Body {
        Body::PoSummary(self)
    }
}

impl Inner for Prepare {
    ghost kind = { body.Prepare };

    fn into_body(self) -> Body {
        Body::Prepare(self)
    }
}

impl Inner for Commit {
    ghost kind = { body.Commit };

    fn into_body(self) -> Body {
        Body::Commit(self)
    }
}

impl Inner for Mark {
    ghost kind = { body.Mark };

    fn into_body(self) -> Body {
        Body::Mark(self)
    }
}

impl Inner for Report {
    ghost kind = { body.Report };

    fn into_body(self) -> Body {
        Body::Report(self)
    }
}

// Appends a copy of a frame of one kind as one of any. The signature is shared.
fn put_frame<B: Inner>(out: &mut Vec<Frame>, frame: &Signed<B>) -> Result<(), Want>
    ensures { OnOk result (out.new.items ≡ out.old.items ++ as_frame B.kind frame.now ∷ []) }
{
    let body = frame.body.copy()?.into_body();
    out.push(frame.with_body(body)?)?;
    Ok(())
}

fn put_frames<B: Inner>(out: &mut Vec<Frame>, frames: &[Signed<B>]) -> Result<(), Want>
    ensures { OnOk result (out.new.items ≡ out.old.items ++ frames_of B.kind frames.now) }
{
    for frame in frames {
        put_frame(out, frame)?;
    }
    Ok(())
}

fn put_certificates(out: &mut Vec<Frame>, certificates: &[Certificate]) -> Result<(), Want>
    ensures { OnOk result (out.new.items
        ≡ out.old.items ++ flat_map (λ c. frames_of body.Prepare c.prepares) certificates.now) }
{
    for certificate in certificates {
        put_frames(out, certificate.prepares.as_slice())?;
    }
    Ok(())
}

fn put_inside_report(out: &mut Vec<Frame>, report: &Report) -> Result<(), Want>
    ensures { OnOk result (out.new.items ≡ out.old.items ++ inside_report report.now) }
{
    put_frames(out, report.marks.as_slice())?;
    put_certificates(out, report.certificates.as_slice())
}

fn put_report(out: &mut Vec<Frame>, frame: &Signed<Report>) -> Result<(), Want>
    ensures { OnOk result (out.new.items
        ≡ out.old.items ++ (as_frame body.Report frame.now ∷ inside_report frame.now.body)) }
{
    put_frame(out, frame)?;
    put_inside_report(out, &frame.body)
}

fn put_reports(out: &mut Vec<Frame>, reports: &[Signed<Report>]) -> Result<(), Want>
    ensures { OnOk result (out.new.items
        ≡ out.old.items ++ flat_map (λ f. as_frame body.Report f ∷ inside_report f.body) reports.now) }
{
    for report in reports {
        put_report(out, report)?;
    }
    Ok(())
}

fn put_request(out: &mut Vec<Frame>, frame: &Signed<PoRequest>) -> Result<(), Want>
    ensures { OnOk result (out.new.items ≡ out.old.items ++ request_parts frame.now) }
{
    put_frame(out, frame)?;
    put_frame(out, &frame.body.update)
}

fn put_give(out: &mut Vec<Frame>, give: &Give) -> Result<(), Want>
    ensures { OnOk result (out.new.items ≡ out.old.items ++ (request_parts give.now.request ++ frames_of body.PoAck give.now.acks)) }
{
    put_request(out, &give.request)?;
    put_frames(out, give.acks.as_slice())
}

/// Appends the frames inside a body, in the order of the text, each before those inside it.
pub fn put_inside(out: &mut Vec<Frame>, body: &Body) -> Result<(), Want>
    ensures { OnOk result (out.new.items ≡ out.old.items ++ inside body.now) }
{
    match body {
        Body::PoRequest(word) => put_frame(out, &word.update),
        Body::PrePrepare(word) => put_frames(out, word.frames.as_slice()),
        Body::Report(word) => put_inside_report(out, word),
        Body::NewView(word) => put_reports(out, word.reports.as_slice()),
        Body::Give(word) => put_give(out, word),
        Body::GiveOrdered(word) => put_frames(out, word.commits.as_slice()),
        _ => Ok(()),
    }
}

/// A frame and the frames inside it, in the order of the text, each before those inside it. They share its
/// signatures.
pub fn parts_of(alloc: Global, frame: &Frame) -> Result<Vec<Frame>, Want>
    ensures { IfOk result (λ list. list.items ≡ parts frame.now) }
{
    let mut frames = Vec::new(alloc);
    frames.push(frame.copy()?)?;
    put_inside(&mut frames, &frame.body)?;
    Ok(frames)
}
