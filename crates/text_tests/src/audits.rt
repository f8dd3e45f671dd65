ghost use Rattle.std.specs.Prelude.{IsTrue, IfOk};
ghost use Rattle.std.specs.List.{list_all};
ghost use Rattle.message_types.specs.Spelling.{body_fits};

use history_audit::audit;
use message_types::{Body, Op, Update};
use plain_lists::{Items, Want};
use scenario_file::Scenario;
use std::alloc::Global;
use std::test::Fail;
use world_entries::{Entry, Event, History};

/// Four masters, and a screen as actor 4.
const SMALLEST: &str =
    "f = 1\nseed = \"0000000000000000000000000000000000000000000000000000000000000000\"\nscreens = 1\n";

fn update(t: u64) -> Update {
    Update {
        client: 4,
        t,
        op: Op::Ack { alarm: 7 },
    }
}

/// A command at the screen and the update that it said.
fn commanded(alloc: Global, t: u64) -> Result<Entry, Want>
    ensures { IfOk result (λ entry. IsTrue (list_all body_fits entry.said)) }
{
    let mut said = Items::new(alloc);
    said.push(Body::Update(update(t)))?;
    Ok(Entry {
        stamp: t,
        actor: 4,
        event: Event::Command {
            op: Op::Ack { alarm: 7 },
        },
        said,
    })
}

#[test]
fn a_history_is_audited(rt: HostRuntime) -> Result<(), Fail> {
    let alloc = rt.alloc();
    let scenario = Scenario::read(alloc, SMALLEST.as_bytes())?;
    let mut history = History::new(alloc);
    history.push(commanded(alloc, 1)?)?;
    history.push(commanded(alloc, 2)?)?;
    let counts = audit(alloc, &scenario, &history)?;
    assert_eq!(rt; counts.forged, 0);
    assert_eq!(rt; counts.alike, 0);
    assert_eq!(rt; counts.intruded, 0);
    Ok(())
}
