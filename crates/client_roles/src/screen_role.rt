//! A screen at its events.
ghost use Rattle.std.specs.Prelude.{◌≡◌, ◌+◌, ◌<◌, ◌^◌, ◌++◌, [], ◌∷◌, take, OnOk, OnErr, IfOk};
ghost use Rattle.message_types.specs.declared.body.Body.TheVariants as body;
ghost use Rattle.vouched_orders.specs.Vouching.{votes_in, counted};
ghost use Rattle.operator_screen.specs.Board.{Desk, IsDeskOf, is_notice};
ghost use Rattle.world_entries.specs.Entries.{event_of};
ghost use Rattle.world_rules.specs.Clients.{screen_says};
ghost use Rattle.client_roles.specs.Roles.{IsScreenAfter};

use message_types::{Body, Frame, Op};
use operator_screen::Screen;
use plain_lists::Want;
use std::alloc::Global;
use world_entries::Event;

/// What a screen says at an event, `room` words at most, and the screen goes on: a command that there is no room for isn't
/// counted. After want of memory the screen stays as it was.
pub fn answer_at_screen(
    alloc: Global,
    screen: &mut Screen,
    event: &Event,
    room: u64,
) -> Result<Vec<Body>, Want>
    requires { screen.old.commands < 2 ^ 63 }
    ensures said { IfOk result (λ said. (s : Desk) → IsDeskOf screen.old s → said.items ≡ take room (screen_says s (event_of event.now))) }
    ensures after { IfOk result (λ said. IsScreenAfter screen.old screen.new (event_of event.now) said.items) }
    ensures err { OnErr result ((s : Desk) → IsDeskOf screen.old s → IsDeskOf screen.new s) }
{
    match event {
        Event::Command { op } => {
            let no_room = room == 0;
            if no_room {
                return Ok(Vec::new(alloc));
            }
            say_command(alloc, screen, *op)
        }
        Event::Took { frame, .. } => {
            hear(screen, frame.frame())?;
            Ok(Vec::new(alloc))
        }
        _ => Ok(Vec::new(alloc)),
    }
}

/// A command as the screen's next word. The memory for it is there before the command counts.
fn say_command(alloc: Global, screen: &mut Screen, op: Op) -> Result<Vec<Body>, Want>
    requires { screen.old.commands < 2 ^ 63 }
    ensures said { IfOk result (λ said. said.items ≡ body.Update record { client = screen.old.client; t = screen.old.commands + 1; op = op } ∷ []) }
    ensures counted { OnOk result (screen.new ≡ record screen.old { commands = screen.old.commands + 1 }) }
    ensures err { OnErr result (screen.new ≡ screen.old) }
{
    let mut said = Vec::with_capacity(alloc, 1)?;
    said.push(Body::Update(screen.command(op)))?;
    Ok(said)
}

/// Takes a frame: of all frames a voucher alone tells a screen something.
fn hear(screen: &mut Screen, frame: &Frame) -> Result<(), Want>
    ensures ok { OnOk result ((s : Desk) → IsDeskOf screen.old s
        → IsDeskOf screen.new (record s { votes = s.votes ++ counted is_notice s.client (votes_in (frame.now ∷ [])) })) }
    ensures err { OnErr result ((s : Desk) → IsDeskOf screen.old s → IsDeskOf screen.new s) }
{
    match &frame.body {
        Body::Voucher(voucher) => screen.take_voucher(frame.signer, voucher),
        _ => Ok(()),
    }
}
