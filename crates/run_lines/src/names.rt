//! The names of areas, kinds of bodies and notices.
ghost use Rattle.std.specs.Prelude.{◌≡◌};
ghost use Rattle.std.specs.List.{find};
ghost use Rattle.std.specs.Str.{bytes_eq};
ghost use Rattle.run_lines.specs.Names.{area_name, area_named, notice_name, kind_of};

use message_types::{Body, NoticeKind};
use point_table::Area;
use script_grammar::Kind;

/// The areas of a device's places.
const AREAS: [Area; 4] = [Area::Coil, Area::Discrete, Area::Holding, Area::Input];

/// The name of an area, as scripts have it.
pub fn area_name(area: Area) -> &'static str
    ensures { result.now ≡ area_name area }
{
    match area {
        Area::Coil => "coil",
        Area::Discrete => "discrete",
        Area::Holding => "holding",
        Area::Input => "input",
    }
}

/// The area that has a name.
#[tactic(auto, unfolding(crate::specs::Names::area_named))]
pub fn area_named(name: &str) -> Option<Area>
    ensures { result ≡ area_named name.now }
{
    named_among(&AREAS, name)
}

/// The first of some areas that has a name.
fn named_among(areas: &[Area], name: &str) -> Option<Area>
    ensures { result ≡ find (λ a. bytes_eq (area_name a) name.now) areas.now }
{
    for area in areas {
        if area_name(*area) == name {
            return Some(*area);
        }
    }
    None
}

pub fn notice_name(what: NoticeKind) -> &'static str
    ensures { result.now ≡ notice_name what }
{
    match what {
        NoticeKind::Done => "done",
        NoticeKind::Denied => "denied",
        NoticeKind::NoPoint => "nopoint",
        NoticeKind::OutOfRange => "outofrange",
        NoticeKind::NotWritable => "notwritable",
        NoticeKind::NoAlarm => "noalarm",
        NoticeKind::Raised => "raised",
        NoticeKind::Cleared => "cleared",
        NoticeKind::WrongPart => "wrongpart",
    }
}

/// What kind of body it is.
pub fn kind_of(body: &Body) -> Kind
    ensures { result ≡ kind_of body.now }
{
    match body {
        Body::Update(_) => Kind::Update,
        Body::PoRequest(_) => Kind::PoRequest,
        Body::PoAck(_) => Kind::PoAck,
        Body::PoSummary(_) => Kind::PoSummary,
        Body::PrePrepare(_) => Kind::PrePrepare,
        Body::Prepare(_) => Kind::Prepare,
        Body::Commit(_) => Kind::Commit,
        Body::Ping(_) => Kind::Ping,
        Body::Pong(_) => Kind::Pong,
        Body::Rtt(_) => Kind::Rtt,
        Body::TatReport(_) => Kind::TatReport,
        Body::TatBound(_) => Kind::TatBound,
        Body::Suspect(_) => Kind::Suspect,
        Body::Report(_) => Kind::Report,
        Body::NewView(_) => Kind::NewView,
        Body::AskUpdate(_) => Kind::AskUpdate,
        Body::Give(_) => Kind::Give,
        Body::AskOrder(_) => Kind::AskOrder,
        Body::GiveOrdered(_) => Kind::GiveOrdered,
        Body::Voucher(_) => Kind::Voucher,
        Body::Mark(_) => Kind::Mark,
    }
}
