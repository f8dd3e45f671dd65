ghost use Rattle.std.specs.Prelude.{◌≡◌, Ok};
ghost use Rattle.scenario_file.specs.PlantRows.{area_of};
ghost use Rattle.script_grammar.specs.Faults.{Answers, or_bad, said};
ghost use Rattle.script_grammar.specs.Lines.{texts};
ghost use Rattle.script_grammar.specs.Names.{device_of};
ghost use Rattle.script_lines.specs.declared.step.Step.TheVariants.{Lose, Heal};
ghost use Rattle.script_lines.specs.Steps.{times_in, ticking_in, tick_in, flow_in, one_actor_in, drop_in, take_in, set_in, ack_in, op_in, command_in, change_in, has_place, places_of, in_place, field_in, poll_in, cry_in, restart_in, step_of, step_in};

use message_types::Op;
use play_words::Ref;
use point_table::{Area, DeviceSizes};
use script_grammar::{Allowed, Company, LineRefusal, both, narrow, number, short, signed};

/// Who ticks: one actor, each master or each actor, in number order.
#[derive(Clone, Copy, Debug, PartialEq, Eq)]
pub enum Ticking {
    Actor(u32),
    Masters,
    All,
}

/// What one line of a script does.
#[derive(Clone, Copy, Debug, PartialEq, Eq)]
pub enum Step {
    /// These tick, all of them so many times over.
    Tick {
        who: Ticking,
        times: u64,
    },
    /// All that waits is delivered, so many rounds.
    Flow {
        rounds: u64,
    },
    /// Nothing comes to the actor or from it.
    Lose {
        actor: u32,
    },
    /// It does so no longer.
    Heal {
        actor: u32,
    },
    /// All that waits is thrown away.
    Drop,
    /// The actor takes a frame, whether it is lost or not.
    Take {
        actor: u32,
        frame: Ref,
    },
    Command {
        screen: u32,
        op: Op,
    },
    /// The place of the area in the proxy's field holds this value from now on.
    Field {
        proxy: u32,
        area: Area,
        place: u16,
        value: u16,
    },
    Poll {
        proxy: u32,
    },
    /// The master says so many of its next words.
    Cry {
        master: u32,
        times: u64,
    },
    Restart {
        actor: u32,
    },
}

/// A place of an area that holds a value from now on.
#[derive(Clone, Copy)]
struct Change {
    area: Area,
    place: u16,
    value: u16,
}

fn times(fields: &[&str]) -> Result<u64, LineRefusal>
    ensures { Answers result (times_in (texts fields.now)) }
{
    match fields {
        [] => Ok(1),
        [times] => number(times, 1, 1000),
        _ => Err(LineRefusal::BadLine),
    }
}

fn who_ticks(company: &Company<'_>, name: &str) -> Result<Ticking, LineRefusal>
    ensures { Answers result (ticking_in company.now name.now) }
{
    match name {
        "masters" => Ok(Ticking::Masters),
        "all" => Ok(Ticking::All),
        _ => Ok(Ticking::Actor(company.actor(name)?)),
    }
}

fn tick(company: &Company<'_>, fields: &[&str]) -> Result<Step, LineRefusal>
    ensures { Answers result (tick_in company.now (texts fields.now)) }
{
    match fields {
        [] => Err(LineRefusal::BadLine),
        [name, repeats @ ..] => {
            let (who, times) = both(who_ticks(company, name), times(repeats))?;
            Ok(Step::Tick { who, times })
        }
    }
}

fn flow(fields: &[&str]) -> Result<Step, LineRefusal>
    ensures { Answers result (flow_in (texts fields.now)) }
{
    Ok(Step::Flow {
        rounds: times(fields)?,
    })
}

fn one_actor(company: &Company<'_>, fields: &[&str]) -> Result<u32, LineRefusal>
    ensures { Answers result (one_actor_in company.now (texts fields.now)) }
{
    match fields {
        [name] => company.actor(name),
        _ => Err(LineRefusal::BadLine),
    }
}

fn drop_all(fields: &[&str]) -> Result<Step, LineRefusal>
    ensures { Answers result (drop_in (texts fields.now)) }
{
    match fields {
        [] => Ok(Step::Drop),
        _ => Err(LineRefusal::BadLine),
    }
}

fn take(company: &Company<'_>, fields: &[&str]) -> Result<Step, LineRefusal>
    ensures { Answers result (take_in company.now (texts fields.now)) }
{
    match fields {
        [name, frame] => {
            let (actor, frame) = both(company.actor(name), company.frame(Allowed::Any, frame))?;
            Ok(Step::Take { actor, frame })
        }
        _ => Err(LineRefusal::BadLine),
    }
}

fn set(fields: &[&str]) -> Result<Op, LineRefusal>
    ensures { Answers result (set_in (texts fields.now)) }
{
    match fields {
        [point, value] => {
            let (point, value) = both(narrow(point), signed(value))?;
            Ok(Op::Set { point, value })
        }
        _ => Err(LineRefusal::BadLine),
    }
}

fn ack(fields: &[&str]) -> Result<Op, LineRefusal>
    ensures { Answers result (ack_in (texts fields.now)) }
{
    match fields {
        [alarm] => Ok(Op::Ack {
            alarm: narrow(alarm)?,
        }),
        _ => Err(LineRefusal::BadLine),
    }
}

fn op(fields: &[&str]) -> Result<Op, LineRefusal>
    ensures { Answers result (op_in (texts fields.now)) }
{
    match fields {
        [] => Err(LineRefusal::BadLine),
        [what, rest @ ..] => {
            if *what == "set" {
                set(rest)
            } else if *what == "ack" {
                ack(rest)
            } else {
                Err(LineRefusal::BadLine)
            }
        }
    }
}

fn command(company: &Company<'_>, fields: &[&str]) -> Result<Step, LineRefusal>
    ensures { Answers result (command_in company.now (texts fields.now)) }
{
    match fields {
        [] => Err(LineRefusal::BadLine),
        [name, rest @ ..] => {
            let (screen, op) = both(company.screen(name), op(rest))?;
            Ok(Step::Command { screen, op })
        }
    }
}

fn area(name: &str) -> Result<Area, LineRefusal>
    ensures { Answers result (or_bad (area_of name.now)) }
{
    match name {
        "coil" => Ok(Area::Coil),
        "discrete" => Ok(Area::Discrete),
        "holding" => Ok(Area::Holding),
        "input" => Ok(Area::Input),
        _ => Err(LineRefusal::BadLine),
    }
}

fn read_change(fields: &[&str]) -> Result<Change, LineRefusal>
    ensures { Answers result (change_in (texts fields.now)) }
{
    match fields {
        [name, place_text, value_text] => {
            let place_and_value = both(short(place_text), short(value_text));
            let (area, (place, value)) = both(area(name), place_and_value)?;
            Ok(Change { area, place, value })
        }
        _ => Err(LineRefusal::BadLine),
    }
}

fn places(device: &DeviceSizes, area: Area) -> u16
    ensures { result ≡ places_of device.now area }
{
    match area {
        Area::Coil => device.coils,
        Area::Discrete => device.discrete,
        Area::Holding => device.holding,
        Area::Input => device.input,
    }
}

/// Whether the device behind a proxy has a place.
fn has_place(company: &Company<'_>, proxy: u32, change: Change) -> bool
    ensures { result ≡ has_place (device_of company.now proxy) change.area change.place }
{
    match company.device(proxy) {
        Some(device) => change.place < places(device, change.area),
        None => false,
    }
}

fn field(company: &Company<'_>, fields: &[&str]) -> Result<Step, LineRefusal>
    ensures { Answers result (field_in company.now (texts fields.now)) }
{
    match fields {
        [] => Err(LineRefusal::BadLine),
        [name, rest @ ..] => {
            let (proxy, change) = both(company.proxy(name), read_change(rest))?;
            in_place(company, proxy, change)
        }
    }
}

fn in_place(company: &Company<'_>, proxy: u32, change: Change) -> Result<Step, LineRefusal>
    ensures { Answers result (in_place company.now (Ok (proxy, change))) }
{
    if has_place(company, proxy, change) {
        Ok(Step::Field {
            proxy,
            area: change.area,
            place: change.place,
            value: change.value,
        })
    } else {
        Err(LineRefusal::BadLine)
    }
}

fn poll(company: &Company<'_>, fields: &[&str]) -> Result<Step, LineRefusal>
    ensures { Answers result (poll_in company.now (texts fields.now)) }
{
    match fields {
        [name] => Ok(Step::Poll {
            proxy: company.proxy(name)?,
        }),
        _ => Err(LineRefusal::BadLine),
    }
}

fn cry(company: &Company<'_>, fields: &[&str]) -> Result<Step, LineRefusal>
    ensures { Answers result (cry_in company.now (texts fields.now)) }
{
    match fields {
        [] => Err(LineRefusal::BadLine),
        [name, repeats @ ..] => {
            let (master, times) = both(company.intruded(name), times(repeats))?;
            Ok(Step::Cry { master, times })
        }
    }
}

fn restart(company: &Company<'_>, fields: &[&str]) -> Result<Step, LineRefusal>
    ensures { Answers result (restart_in company.now (texts fields.now)) }
{
    match fields {
        [name] => Ok(Step::Restart {
            actor: company.correct(name)?,
        }),
        _ => Err(LineRefusal::BadLine),
    }
}

fn lose(company: &Company<'_>, fields: &[&str]) -> Result<Step, LineRefusal>
    ensures { Answers result (said Lose (one_actor_in company.now (texts fields.now))) }
{
    Ok(Step::Lose {
        actor: one_actor(company, fields)?,
    })
}

fn heal(company: &Company<'_>, fields: &[&str]) -> Result<Step, LineRefusal>
    ensures { Answers result (said Heal (one_actor_in company.now (texts fields.now))) }
{
    Ok(Step::Heal {
        actor: one_actor(company, fields)?,
    })
}

/// What a line says, by its first word.
fn step_of(company: &Company<'_>, what: &str, fields: &[&str]) -> Result<Step, LineRefusal>
    ensures { Answers result (step_of company.now what.now (texts fields.now)) }
{
    match what {
        "tick" => tick(company, fields),
        "flow" => flow(fields),
        "lose" => lose(company, fields),
        "heal" => heal(company, fields),
        "drop" => drop_all(fields),
        "take" => take(company, fields),
        "command" => command(company, fields),
        "field" => field(company, fields),
        "poll" => poll(company, fields),
        "cry" => cry(company, fields),
        "restart" => restart(company, fields),
        _ => Err(LineRefusal::BadLine),
    }
}

/// What the words of a line of a script say.
#[tactic(auto, unfolding(crate::specs::Steps::step_in))]
pub fn read_step(company: &Company<'_>, words: &[&str]) -> Result<Step, LineRefusal>
    ensures { Answers result (step_in company.now (texts words.now)) }
{
    match words {
        [] => Err(LineRefusal::BadLine),
        [what, fields @ ..] => step_of(company, what, fields),
    }
}
