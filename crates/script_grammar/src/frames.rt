ghost use Rattle.std.specs.Prelude.{◌≡◌, ◌≤◌, Result};
ghost use Rattle.script_grammar.specs.Faults.{Answers};
ghost use Rattle.script_grammar.specs.Frames.{allows, kind_in, frame_of, frame_in, frames_in};
ghost use Rattle.script_grammar.specs.Lines.{texts};

use crate::company::Company;
use crate::fault::{LineRefusal, both};
use crate::kinds::Kind;
use crate::names::names_rise;
use crate::numbers::number;
use crate::pieces::{Part, each, parts};
use message_types::MOST_LISTED;
use plain_lists::Items;
use play_words::Ref;

/// The most frames that a list may have.
const MOST_FRAMES: usize = MOST_LISTED as usize;

/// Which kinds of frames may stand at a place.
#[derive(Clone, Copy, PartialEq, Eq)]
pub enum Allowed {
    Any,
    Updates,
    Summaries,
    Reports,
    /// Requests and preprepares: a digest is that of a request's update or of a preprepare's rows.
    Digested,
}

impl Allowed {
    fn allows(self, kind: Kind) -> bool
        ensures { result ≡ allows self kind }
    {
        match self {
            Allowed::Any => true,
            Allowed::Updates => matches!(kind, Kind::Update),
            Allowed::Summaries => matches!(kind, Kind::PoSummary),
            Allowed::Reports => matches!(kind, Kind::Report),
            Allowed::Digested => matches!(kind, Kind::PoRequest | Kind::PrePrepare),
        }
    }

    /// The number of a kind that may stand here.
    #[tactic(auto, unfolding(crate::specs::Frames::kind_in))]
    fn kind(self, name: &str) -> Result<u16, LineRefusal>
        ensures { Answers result (kind_in self name.now) }
    {
        match Kind::named(name) {
            None => Err(LineRefusal::BadLine),
            Some(kind) => {
                if self.allows(kind) {
                    Ok(kind.number())
                } else {
                    Err(LineRefusal::BadLine)
                }
            }
        }
    }
}

impl<'a> Company<'a> {
    fn frame_of(&self, allowed: Allowed, parts: &[&str]) -> Result<Ref, LineRefusal>
        ensures { Answers result (frame_of self.now.cast allowed (texts parts.now)) }
    {
        match parts {
            [name, kind, number_text] => {
                let kind_and_number = both(allowed.kind(kind), number(number_text, 1, u64::MAX));
                let (actor, (kind, number)) = both(self.actor(name), kind_and_number)?;
                Ok(Ref {
                    actor,
                    kind,
                    number,
                })
            }
            _ => Err(LineRefusal::BadLine),
        }
    }

    /// A frame of a kind that may stand here.
    #[tactic(auto, unfolding(crate::specs::Frames::frame_in))]
    pub fn frame(&self, allowed: Allowed, text: &str) -> Result<Ref, LineRefusal>
        ensures { Answers result (frame_in self.now.cast allowed text.now) }
    {
        let parts = parts(self.alloc(), text, '.')?;
        self.frame_of(allowed, parts.as_slice())
    }

    /// Frames whose signers rise, at most as many as a list may have.
    #[tactic(auto, unfolding(crate::specs::Frames::frames_in))]
    pub fn frames(&self, allowed: Allowed, frames: &[&str]) -> Result<Items<Ref>, LineRefusal>
        ensures { Answers result (frames_in self.now.cast allowed (texts frames.now)) }
    {
        if frames.len() > MOST_FRAMES || !names_rise(frames) {
            return Err(LineRefusal::BadLine);
        }
        each(
            self.alloc(),
            &FrameParts {
                company: self,
                allowed,
            },
            frames,
        )
    }
}

/// The frames of a list.
#[derive(Drop)]
struct FrameParts<'a> {
    company: &'a Company<'a>,
    allowed: Allowed,
}

impl Part<Ref> for FrameParts<'_> {
    ghost use Rattle.script_grammar.specs.Frames.{frame_in};

    ghost reads = { λ part text. frame_in part.company.now.cast part.allowed text };

    fn read(&self, text: &str) -> Result<Ref, LineRefusal> {
        self.company.frame(self.allowed, text)
    }
}
