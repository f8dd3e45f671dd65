//! The lines of the actors, of the audit and of the number of entries.
ghost use Rattle.std.specs.Prelude.{◌≡◌, ◌+◌, ◌≤◌, ◌<◌, ◌^◌, ◌++◌, OnOk, length, string_bytes};
ghost use Rattle.std.specs.List.{flat_map};
ghost use Rattle.scenario_file.specs.Actors.{actors_of, actor_name};
ghost use Rattle.run_lines.specs.Texts.{halted_text, numbered_lines, execution_text, intruded_text, executions_text, master_text, exception_text, write_text, proxy_text, details_text, notice_text, screen_text, forgery_text, intrusion_text, audit_text, agree_text, count_text};

use crate::actors::{put_actor, put_client, put_op};
use crate::names::notice_name;
use field_proxy::Write;
use message_types::{Notice, NoticeKind, Update};
use plain_lists::Want;
use scenario_file::Cast;

fn put_halted(text: &mut String, is_halted: bool) -> Result<(), Want>
    ensures { OnOk result (string_bytes text.new ≡ string_bytes text.old ++ halted_text is_halted) }
{
    if is_halted {
        text.push_str(" halted")?;
    }
    Ok(())
}

/// Appends the line of an intruded master.
#[tactic(auto, unfolding(crate::specs::Texts::intruded_text))]
pub fn put_intruded(text: &mut String, cast: Cast, master: u32) -> Result<(), Want>
    requires { actors_of cast ≤ 26 }
    ensures { OnOk result (string_bytes text.new ≡ string_bytes text.old ++ intruded_text cast master) }
{
    text.push_str("master ")?;
    put_actor(text, cast, master)?;
    text.push_str(" intruded\n")?;
    Ok(())
}

/// Appends the lines of a correct master: its view and the updates that it executed.
#[tactic(auto, unfolding(crate::specs::Texts::master_text))]
pub fn put_master(
    text: &mut String,
    cast: Cast,
    master: u32,
    view: u64,
    executions: &[Update],
    is_halted: bool,
) -> Result<(), Want>
    requires { actors_of cast ≤ 26 }
    ensures { OnOk result (string_bytes text.new ≡ string_bytes text.old ++ master_text cast master view executions.now is_halted) }
{
    text.push_str("master ")?;
    put_actor(text, cast, master)?;
    write!(text, " view {view}")?;
    put_executed(text, cast, executions, is_halted)
}

#[tactic(auto, unfolding(crate::specs::Texts::executions_text))]
fn put_executed(
    text: &mut String,
    cast: Cast,
    executions: &[Update],
    is_halted: bool,
) -> Result<(), Want>
    ensures { OnOk result (string_bytes text.new ≡ string_bytes text.old ++ executions_text cast executions.now is_halted) }
{
    let count = executions.len();
    write!(text, " executed {count}")?;
    put_halted(text, is_halted)?;
    text.push_str("\n")?;
    put_executions(text, cast, executions)
}

fn put_executions(text: &mut String, cast: Cast, executions: &[Update]) -> Result<(), Want>
    ensures { OnOk result (string_bytes text.new ≡ string_bytes text.old ++ numbered_lines (execution_text cast) 1 executions.now) }
{
    for (place, update) in executions.iter().enumerate() {
        let number = place as u64 + 1;
        put_execution(text, cast, number, update)?;
    }
    Ok(())
}

/// Appends the line of an update that a master executed.
#[tactic(auto, unfolding(crate::specs::Texts::execution_text))]
pub fn put_execution(
    text: &mut String,
    cast: Cast,
    number: u64,
    update: &Update,
) -> Result<(), Want>
    ensures { OnOk result (string_bytes text.new ≡ string_bytes text.old ++ execution_text cast number update.now) }
{
    let t = update.t;
    write!(text, "{number} ")?;
    put_client(text, cast, update.client)?;
    write!(text, " {t} ")?;
    put_op(text, &update.op)?;
    text.push_str("\n")?;
    Ok(())
}

/// Appends the lines of a proxy: the writes that it made.
#[tactic(auto, unfolding(crate::specs::Texts::proxy_text))]
pub fn put_proxy(
    text: &mut String,
    cast: Cast,
    proxy: u32,
    writes: &[Write],
    is_halted: bool,
) -> Result<(), Want>
    requires { actors_of cast ≤ 26 }
    ensures { OnOk result (string_bytes text.new ≡ string_bytes text.old ++ proxy_text cast proxy writes.now is_halted) }
{
    let count = writes.len();
    text.push_str("proxy ")?;
    put_actor(text, cast, proxy)?;
    write!(text, " writes {count}")?;
    put_halted(text, is_halted)?;
    text.push_str("\n")?;
    put_writes(text, writes)
}

fn put_writes(text: &mut String, writes: &[Write]) -> Result<(), Want>
    ensures { OnOk result (string_bytes text.new ≡ string_bytes text.old ++ flat_map write_text writes.now) }
{
    for write in writes {
        put_write(text, write)?;
    }
    Ok(())
}

/// Appends the line of a write that a proxy made.
#[tactic(auto, unfolding(crate::specs::Texts::write_text))]
pub fn put_write(text: &mut String, write: &Write) -> Result<(), Want>
    ensures { OnOk result (string_bytes text.new ≡ string_bytes text.old ++ write_text write.now) }
{
    let number = write.number;
    let point = write.point;
    let raw = write.raw;
    write!(text, "{number} {point} {raw}")?;
    put_exception(text, write.exception)
}

fn put_exception(text: &mut String, exception: Option<u8>) -> Result<(), Want>
    ensures { OnOk result (string_bytes text.new ≡ string_bytes text.old ++ exception_text exception) }
{
    match exception {
        None => text.push_str(" ok\n")?,
        Some(code) => write!(text, " exception {code}\n")?,
    }
    Ok(())
}

/// Appends the lines of a screen: the notices that it shows.
#[tactic(auto, unfolding(crate::specs::Texts::screen_text))]
pub fn put_screen(
    text: &mut String,
    cast: Cast,
    screen: u32,
    notices: &[Notice],
    is_halted: bool,
) -> Result<(), Want>
    requires { actors_of cast ≤ 26 }
    ensures { OnOk result (string_bytes text.new ≡ string_bytes text.old ++ screen_text cast screen notices.now is_halted) }
{
    let count = notices.len();
    text.push_str("screen ")?;
    put_actor(text, cast, screen)?;
    write!(text, " notices {count}")?;
    put_halted(text, is_halted)?;
    text.push_str("\n")?;
    put_notices(text, notices)
}

fn put_notices(text: &mut String, notices: &[Notice]) -> Result<(), Want>
    ensures { OnOk result (string_bytes text.new ≡ string_bytes text.old ++ numbered_lines notice_text 1 notices.now) }
{
    for (place, notice) in notices.iter().enumerate() {
        let number = place as u64 + 1;
        put_notice(text, number, notice)?;
    }
    Ok(())
}

/// Appends the line of a notice that a screen shows.
#[tactic(auto, unfolding(crate::specs::Texts::notice_text))]
pub fn put_notice(text: &mut String, number: u64, notice: &Notice) -> Result<(), Want>
    ensures { OnOk result (string_bytes text.new ≡ string_bytes text.old ++ notice_text number notice.now) }
{
    write!(text, "{number} ")?;
    text.push_str(notice_name(notice.what))?;
    put_details(text, notice)?;
    text.push_str("\n")?;
    Ok(())
}

/// Appends the command that a notice answers, and what it is about, where there is either.
fn put_details(text: &mut String, notice: &Notice) -> Result<(), Want>
    ensures { OnOk result (string_bytes text.new ≡ string_bytes text.old ++ details_text notice.now.what notice.now) }
{
    let t = notice.t;
    let number = notice.number;
    match notice.what {
        NoticeKind::Done | NoticeKind::WrongPart => write!(text, " {t}")?,
        NoticeKind::Raised | NoticeKind::Cleared => write!(text, " {number}")?,
        NoticeKind::Denied
        | NoticeKind::NoPoint
        | NoticeKind::OutOfRange
        | NoticeKind::NotWritable
        | NoticeKind::NoAlarm => write!(text, " {t} {number}")?,
    }
    Ok(())
}

/// Appends the line of the audit: how many words are forged, how many digests are shared, and how many masters are intruded
/// of those that may be.
pub fn put_audit(
    text: &mut String,
    forged: u64,
    alike: u64,
    intruded: u32,
    limit: u32,
) -> Result<(), Want>
    ensures { OnOk result (string_bytes text.new ≡ string_bytes text.old ++ audit_text forged alike intruded limit) }
{
    put_forgery(text, forged, alike)?;
    put_intrusion(text, intruded, limit)
}

#[tactic(auto, unfolding(crate::specs::Texts::forgery_text))]
fn put_forgery(text: &mut String, forged: u64, alike: u64) -> Result<(), Want>
    ensures { OnOk result (string_bytes text.new ≡ string_bytes text.old ++ forgery_text forged alike) }
{
    write!(text, "audit forged {forged} alike {alike}")?;
    Ok(())
}

#[tactic(auto, unfolding(crate::specs::Texts::intrusion_text))]
fn put_intrusion(text: &mut String, intruded: u32, limit: u32) -> Result<(), Want>
    ensures { OnOk result (string_bytes text.new ≡ string_bytes text.old ++ intrusion_text intruded limit) }
{
    write!(text, " intruded {intruded} limit {limit}\n")?;
    Ok(())
}

/// Appends the line that tells whether the masters agree.
pub fn put_agree(text: &mut String, agree: bool) -> Result<(), Want>
    ensures { OnOk result (string_bytes text.new ≡ string_bytes text.old ++ agree_text agree) }
{
    if agree {
        text.push_str("agree yes\n")?;
    } else {
        text.push_str("agree no\n")?;
    }
    Ok(())
}

/// Appends the line that tells how many entries follow.
#[tactic(auto, unfolding(crate::specs::Texts::count_text))]
pub fn put_count(text: &mut String, count: u64) -> Result<(), Want>
    ensures { OnOk result (string_bytes text.new ≡ string_bytes text.old ++ count_text count) }
{
    write!(text, "history {count}\n")?;
    Ok(())
}
