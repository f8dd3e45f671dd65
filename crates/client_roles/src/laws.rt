//! What a scenario's clients say and keep. The functions whose contracts are laws do nothing.
ghost use Rattle.std.specs.Prelude.{IsTrue};
ghost use Rattle.protocol_rules.specs.Places.{op_in_place};
ghost use Rattle.world_entries.specs.Entries.{event_of};
ghost use Rattle.client_roles.specs.Roles.{carries_well};
ghost use Rattle.client_roles.specs.Laws.{ClientFramesStand, ClientWordsAreInPlace, ClientWordsFit, CommandsStayFew, ProxiesBeginFresh, ProxiesSayByRoom, ScreensBeginFresh, ScreensSayByRoom, UpdatesStayFew};

use message_types::Op;
use world_entries::Event;

/// A client that has had no event yet is one that was just made.
pub fn clients_begin_fresh()
    ensures proxies { ProxiesBeginFresh }
    ensures screens { ScreensBeginFresh }
{}

/// At no event a proxy counts more updates than a plant has points, and a screen more than one command.
pub fn counts_stay_few()
    ensures updates { UpdatesStayFew }
    ensures commands { CommandsStayFew }
{}

/// What a client says is cut to the room that its leaves leave.
pub fn clients_say_by_room()
    ensures proxies { ProxiesSayByRoom }
    ensures screens { ScreensSayByRoom }
{}

/// Each word of a client has a spelling, and is in its place.
pub fn client_words_fit()
    ensures fit { ClientWordsFit }
    ensures placed { ClientWordsAreInPlace }
{}

/// The frames of a client's words stand.
pub fn client_frames_stand()
    ensures { ClientFramesStand }
{}

/// The numbers that an event has here are within those that an update can hold.
pub fn event_carries_well(event: &Event)
    ensures { IsTrue (carries_well (event_of event.now)) }
{
    if let Event::Command { op } = event {
        op_is_in_place(*op);
    }
}

fn op_is_in_place(op: Op)
    ensures { IsTrue (op_in_place op) }
{
    match op {
        Op::Reading { point: _, value: _ } | Op::Set { point: _, value: _ } => {}
        Op::Ack { alarm: _ } => {}
    }
}
