//! What happened to an actor at an entry.
ghost use Rattle.std.specs.Prelude.{◌≡◌, ◌++◌, ◌∷◌, [], drop, map, false, OnOk};
ghost use Rattle.std.specs.List.{filter_map};
ghost use Rattle.std.specs.Option.{option_to_list};
ghost use Rattle.history_rules.specs.Events.{is_tick};
ghost use Rattle.world_entries.specs.Entries.{event_of, entry_of};
ghost use Rattle.run_questions.specs.DelaysText.{entered, execution_of, happening_at, shown_of, spoken_in, ticked, whats_since};

use delay_times::{Happening, What};
use message_types::{Body, Notice, Update};
use plain_lists::Want;
use world_entries::{Entry, Event};
use world_history::Bench;

/// How far an actor came: how many updates it executed, how many notices it showed, and its view.
#[derive(Clone, Copy)]
pub(crate) struct Came {
    pub executed: usize,
    pub shown: usize,
    pub view: u64,
}

/// When and to whom it happened.
#[derive(Clone, Copy)]
struct Place {
    pub stamp: u64,
    pub actor: u32,
}

/// Appends what happened to a bench's actor at its last entry, before which it had come so far.
pub(crate) fn add_happened(
    happened: &mut Vec<Happening>,
    came: Came,
    bench: &Bench,
    entry: &Entry,
) -> Result<(), Want>
    requires { bench.now.is_spent ≡ false }
    ensures { OnOk result (happened.new.items ≡ happened.old.items
        ++ map (happening_at entry.now.stamp entry.now.actor) (whats_since came.executed came.shown came.view bench.now (entry_of entry.now))) }
{
    let place = Place {
        stamp: entry.stamp,
        actor: entry.actor,
    };
    add_if(happened, place, tick_in(&entry.event))?;
    add_if(happened, place, view_entered(came.view, bench.view()))?;
    add_said(happened, place, entry.said.as_slice())?;
    add_executed(happened, place, behind(bench.executions(), came.executed))?;
    add_shown(happened, place, behind(bench.board(), came.shown))
}

/// What stands in the list behind so many elements.
fn behind<T>(list: &[T], count: usize) -> &[T]
    ensures { result.now ≡ drop count list.now }
{
    if count < list.len() {
        &list[count..]
    } else {
        &[]
    }
}

fn tick_in(event: &Event) -> Option<What>
    ensures { option_to_list result ≡ ticked (is_tick (event_of event.now)) }
{
    match event {
        Event::Tick => Some(What::Tick),
        _ => None,
    }
}

fn view_entered(old: u64, now: u64) -> Option<What>
    ensures { option_to_list result ≡ entered old now }
{
    if now == old {
        None
    } else {
        Some(What::Entered { view: now })
    }
}

/// The update that is said, or the vote against the leader of a view.
fn spoken_in(body: &Body) -> Option<What>
    ensures { result ≡ spoken_in body.now }
{
    match body {
        Body::Update(update) => Some(What::Said {
            client: update.client,
            t: update.t,
        }),
        Body::Suspect(suspect) => Some(What::Voted { view: suspect.v }),
        _ => None,
    }
}

fn add(happened: &mut Vec<Happening>, place: Place, what: What) -> Result<(), Want>
    ensures { OnOk result (happened.new.items ≡ happened.old.items ++ map (happening_at place.stamp place.actor) (what ∷ [])) }
{
    happened.push(Happening {
        stamp: place.stamp,
        actor: place.actor,
        what,
    })?;
    Ok(())
}

fn add_if(happened: &mut Vec<Happening>, place: Place, what: Option<What>) -> Result<(), Want>
    ensures { OnOk result (happened.new.items ≡ happened.old.items ++ map (happening_at place.stamp place.actor) (option_to_list what)) }
{
    match what {
        Some(what) => add(happened, place, what),
        None => Ok(()),
    }
}

fn add_said(happened: &mut Vec<Happening>, place: Place, said: &[Body]) -> Result<(), Want>
    ensures { OnOk result (happened.new.items ≡ happened.old.items ++ map (happening_at place.stamp place.actor) (filter_map spoken_in said.now)) }
{
    for body in said {
        add_if(happened, place, spoken_in(body))?;
    }
    Ok(())
}

fn add_executed(happened: &mut Vec<Happening>, place: Place, updates: &[Update]) -> Result<(), Want>
    ensures { OnOk result (happened.new.items ≡ happened.old.items ++ map (happening_at place.stamp place.actor) (map execution_of updates.now)) }
{
    for update in updates {
        let what = What::Executed {
            client: update.client,
            t: update.t,
        };
        add(happened, place, what)?;
    }
    Ok(())
}

fn add_shown(happened: &mut Vec<Happening>, place: Place, notices: &[Notice]) -> Result<(), Want>
    ensures { OnOk result (happened.new.items ≡ happened.old.items ++ map (happening_at place.stamp place.actor) (map shown_of notices.now)) }
{
    for notice in notices {
        add(happened, place, What::Shown { t: notice.t })?;
    }
    Ok(())
}
