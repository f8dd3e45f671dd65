//! Actors, operations and bytes as words of a line.
ghost use Rattle.std.specs.Prelude.{◌≡◌, ◌+◌, ◌≤◌, ◌++◌, OnOk, string_bytes};
ghost use Rattle.scenario_file.specs.Actors.{actors_of, actor_name};
ghost use Rattle.run_lines.specs.Texts.{hex_text, op_text};

use message_types::Op;
use plain_lists::Want;
use scenario_file::Cast;
use std::alloc::Global;

/// Appends the name of an actor, as `m0`, `p0` or `s0`.
#[tactic(auto, unfolding(scenario_file::specs::Actors::actor_name))]
pub fn put_actor(text: &mut String, cast: Cast, actor: u32) -> Result<(), Want>
    requires { actors_of cast ≤ 26 }
    ensures { OnOk result (string_bytes text.new ≡ string_bytes text.old ++ actor_name cast actor) }
{
    if actor < cast.masters {
        write!(text, "m{actor}")?;
        return Ok(());
    }
    put_client(text, cast, actor - cast.masters)
}

/// Appends the name of a client. The proxies are the first clients.
#[tactic(auto, unfolding(scenario_file::specs::Actors::actor_name))]
pub fn put_client(text: &mut String, cast: Cast, client: u32) -> Result<(), Want>
    ensures { OnOk result (string_bytes text.new ≡ string_bytes text.old ++ actor_name cast (cast.masters + client)) }
{
    if client < cast.proxies {
        write!(text, "p{client}")?;
    } else {
        let screen = client - cast.proxies;
        write!(text, "s{screen}")?;
    }
    Ok(())
}

/// Appends what an update asks for.
#[tactic(auto, unfolding(crate::specs::Texts::op_text))]
pub(crate) fn put_op(text: &mut String, op: &Op) -> Result<(), Want>
    ensures { OnOk result (string_bytes text.new ≡ string_bytes text.old ++ op_text op.now) }
{
    match *op {
        Op::Reading { point, value } => write!(text, "reading {point} {value}")?,
        Op::Set { point, value } => write!(text, "set {point} {value}")?,
        Op::Ack { alarm } => write!(text, "ack {alarm}")?,
    }
    Ok(())
}

/// Appends two digits for each byte, and a dash for no bytes.
pub fn put_hex(alloc: Global, text: &mut String, bytes: &[u8]) -> Result<(), Want>
    ensures { OnOk result (string_bytes text.new ≡ string_bytes text.old ++ hex_text bytes.now) }
{
    if bytes.is_empty() {
        text.push_str("-")?;
        return Ok(());
    }
    let digits = hex::encode(alloc, bytes)?;
    text.push_str(digits.as_str())?;
    Ok(())
}
