ghost use Rattle.std.specs.Prelude.{◌≡◌, ◌&&◌, not, option_copied};
ghost use Rattle.std.specs.List.{list_any};
ghost use Rattle.message_types.specs.Kinds.{kind_number};
ghost use Rattle.history_rules.specs.Sameness.{is_same_body};
ghost use Rattle.intruder_words.specs.Naming.{bears, named};

use message_types::{Body, Frame};
use plain_lists::Same;
use play_words::Ref;

/// The number of a body's kind, by which its text begins.
pub fn kind_of(body: &Body) -> u16
    ensures { result ≡ kind_number body.now }
{
    match body {
        Body::Update(_) => 1,
        Body::PoRequest(_) => 2,
        Body::PoAck(_) => 3,
        Body::PoSummary(_) => 4,
        Body::PrePrepare(_) => 5,
        Body::Prepare(_) => 6,
        Body::Commit(_) => 7,
        Body::Ping(_) => 8,
        Body::Pong(_) => 9,
        Body::Rtt(_) => 10,
        Body::TatReport(_) => 11,
        Body::TatBound(_) => 12,
        Body::Suspect(_) => 13,
        Body::Report(_) => 14,
        Body::NewView(_) => 15,
        Body::AskUpdate(_) => 16,
        Body::Give(_) => 17,
        Body::AskOrder(_) => 18,
        Body::GiveOrdered(_) => 19,
        Body::Voucher(_) => 20,
        Body::Mark(_) => 21,
    }
}

fn bears(frame: &Frame, which: Ref) -> bool
    ensures { result ≡ bears which frame.now }
{
    frame.signer == which.actor && kind_of(&frame.body) == which.kind
}

fn is_same_body(a: &Body, b: &Body) -> bool
    ensures { result ≡ is_same_body a.now b.now }
{
    a.is_same(b)
}

/// Whether the other frame is of the signer and kind and has the frame's body.
fn is_alike(other: &Frame, which: Ref, frame: &Frame) -> bool
    ensures { result ≡ (bears which other.now && is_same_body other.now.body frame.now.body) }
{
    bears(other, which) && is_same_body(&other.body, &frame.body)
}

/// Whether none of the earlier frames of the signer and kind has the frame's body.
fn is_new(earlier: &[Frame], which: Ref, frame: &Frame) -> bool
    ensures { result ≡ not (list_any (λ e. bears which e && is_same_body e.body frame.now.body) earlier.now) }
{
    !earlier.iter().any(|other| is_alike(other, which, frame))
}

/// Whether the frame counts among those of the signer and kind, where these are known before it.
fn is_counted(earlier: &[Frame], which: Ref, frame: &Frame) -> bool
    ensures { result ≡ (bears which frame.now && not (list_any (λ e. bears which e && is_same_body e.body frame.now.body) earlier.now)) }
{
    bears(frame, which) && is_new(earlier, which, frame)
}

/// The frame that is meant. None exactly where there is none.
pub fn named<'a>(known: &'a [Frame], which: Ref) -> Option<&'a Frame>
    ensures { option_copied result ≡ named known.now which }
{
    if which.number == 0 {
        return None;
    }
    let mut left = which.number;
    for (place, frame) in known.iter().enumerate() {
        if !is_counted(&known[..place], which, frame) {
            continue;
        }
        if left == 1 {
            return Some(frame);
        }
        left -= 1;
    }
    None
}
