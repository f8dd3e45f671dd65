//! What the line of an entry in a printed run says.
ghost use Rattle.std.specs.Prelude.{◌≡◌, ◌<◌, [], Result, length, position, IfSome};
ghost use Rattle.std.specs.Str.{bytes_eq};
ghost use Rattle.std.specs.Prelude.{codes};
ghost use Rattle.script_grammar.specs.Faults.{Answers, each, said};
ghost use Rattle.run_lines.specs.declared.event_line.EventLine.{EventLine as EventLineWord};
ghost use Rattle.script_grammar.specs.Lines.{texts};
ghost use Rattle.script_grammar.specs.Names.{actor_in};
ghost use Rattle.run_lines.specs.Reading.{kind_in, kinds_in, event_and_kinds_in, if_there, entry_in, entry_line_in};

use crate::event_line::{EventLine, read_event};
use plain_lists::Items;
use script_grammar::{Company, Kind, LineRefusal, Part, both, each, parts, wide};
use std::alloc::Global;

/// What the line of an entry says. The actor is None where the scenario hasn't the one of that name.
#[derive(Drop)]
pub struct EntryLine {
    pub stamp: u64,
    pub actor: Option<u32>,
    pub event: EventLine,
    /// The kinds of what was said, in order.
    pub kinds: Items<Kind>,
}

/// Names of kinds.
#[derive(Drop)]
struct KindNames;

impl Part<Kind> for KindNames {
    ghost use Rattle.run_lines.specs.Reading.{kind_in};

    ghost reads = { λ _ name. kind_in name };

    fn read(&self, name: &str) -> Result<Kind, LineRefusal> {
        match Kind::named(name) {
            Some(kind) => Ok(kind),
            None => Err(LineRefusal::BadLine),
        }
    }
}

fn kinds(alloc: Global, names: &[&str]) -> Result<Items<Kind>, LineRefusal>
    ensures { Answers result (kinds_in (texts names.now)) }
{
    if names.is_empty() {
        return Err(LineRefusal::BadLine);
    }
    each(alloc, &KindNames, names)
}

/// The place of the first `says`.
fn says_place(words: &[&str]) -> Option<usize>
    ensures place { result ≡ position (λ word. bytes_eq word.now (codes "says")) words.now }
    ensures within { IfSome result (λ place. place < length words.now) }
{
    words.iter().position(|word| *word == "says")
}

/// An event at which nothing was said.
fn without_kinds(
    alloc: Global,
    read: Result<EventLine, LineRefusal>,
) -> Result<(EventLine, Items<Kind>), LineRefusal>
    ensures { (right : Result EventLineWord LineRefusal) → Answers read right → Answers result (said (λ event. (event, [])) right) }
{
    match read {
        Ok(event) => Ok((event, Items::new(alloc))),
        Err(fault) => Err(fault),
    }
}

/// An event, and the kinds of what was said at it.
#[tactic(auto, unfolding(crate::specs::Reading::event_and_kinds_in))]
fn event_and_kinds(alloc: Global, words: &[&str]) -> Result<(EventLine, Items<Kind>), LineRefusal>
    ensures { Answers result (event_and_kinds_in (texts words.now)) }
{
    match says_place(words) {
        None => without_kinds(alloc, read_event(alloc, words)),
        Some(place) => both(
            read_event(alloc, &words[..place]),
            kinds(alloc, &words[place + 1..]),
        ),
    }
}

/// The actor of a name, if it is there.
fn if_there(company: &Company<'_>, name: &str) -> Result<Option<u32>, LineRefusal>
    ensures { Answers result (if_there (actor_in company.now.cast name.now)) }
{
    match company.actor(name) {
        Ok(actor) => Ok(Some(actor)),
        Err(LineRefusal::NoActor) => Ok(None),
        Err(fault) => Err(fault),
    }
}

#[tactic(auto, unfolding(crate::specs::Reading::entry_in))]
fn read_entry(company: &Company<'_>, words: &[&str]) -> Result<EntryLine, LineRefusal>
    ensures { Answers result (entry_in company.now.cast (texts words.now)) }
{
    match words {
        [stamp, name, rest @ ..] => {
            let told = event_and_kinds(company.alloc(), rest);
            let who = both(if_there(company, name), told);
            let (stamp, (actor, (event, kinds))) = both(wide(stamp), who)?;
            Ok(EntryLine {
                stamp,
                actor,
                event,
                kinds,
            })
        }
        _ => Err(LineRefusal::BadLine),
    }
}

/// What the line of an entry says. Its fault is `BadLine` or want of memory.
#[tactic(auto, unfolding(crate::specs::Reading::entry_line_in))]
pub fn read_entry_line(company: &Company<'_>, line: &[u8]) -> Result<EntryLine, LineRefusal>
    ensures { Answers result (entry_line_in company.now.cast line.now) }
{
    match std::str::from_utf8(line) {
        Ok(text) => {
            let words = parts(company.alloc(), text, ' ')?;
            read_entry(company, words.as_slice())
        }
        Err(_) => Err(LineRefusal::BadLine),
    }
}
