//! Texts from their grammars, with wrong words among them.
ghost use Rattle.std.specs.Prelude.{◌<◌};

use crate::draws::Draws;
use crate::words::fill;
use anyhow::Result;
use std::alloc::Global;

const SCRIPT_LINES: [&str; 16] = [
    "tick %a",
    "tick masters %n",
    "tick all",
    "flow %n",
    "lose %a",
    "heal %a",
    "drop",
    "take %a %f",
    "command %s %o",
    "command %s %o",
    "field %p %e %d %n",
    "poll %p",
    "cry m3 %n",
    "restart %a",
    "# %k",
    "",
];

const WORD_LINES: [&str; 26] = [
    "%m %a raw %h",
    "%m %a raw -",
    "%m %a,%a porequest %n s0.update.%n",
    "%m %a poack %n %n @%f",
    "%m %a posummary %n %n %n %n",
    "%m %a preprepare %n %n m1.posummary.1 m2.posummary.%n",
    "%m %a prepare %n %n @m0.preprepare.%n",
    "%m %a commit %n %n @%f",
    "%m %a ping %n",
    "%m %a pong %n %n",
    "%m %a rtt %n %n %n",
    "%m %a tatreport %n %n",
    "%m %a tatbound %n %n",
    "%m %a suspect %n",
    "%m %a report %n %n:%n %n:%n",
    "%m %a report %n base %n %n:%n",
    "%m %a newview %n m0.report.1 m1.report.%n m2.report.1",
    "%m %a askupdate %n %n",
    "%m %a,%a give %n %n",
    "%m %a askorder %n",
    "%m %a giveordered %n",
    "%m %a voucher %n %n write %n %n",
    "%m %a voucher %n %n notice %d %n %n",
    "%m %a mark %n",
    "%m %a %k %n %f",
    "# %a",
];

const SCENARIO_LINES: [&str; 43] = [
    "f = 1",
    "k = 0",
    "seed = \"%H\"",
    "levels = [5]",
    "frames = 1",
    "intruded = [%d]",
    "screens = 1",
    "[[proxy]]",
    "coils = 2",
    "discrete = 0",
    "holding = 1",
    "input = 1",
    "[[proxy]]",
    "coils = 1",
    "discrete = 0",
    "holding = 0",
    "input = 0",
    "[[point]]",
    "name = \"feeder_amps\"",
    "proxy = 0",
    "area = \"input\"",
    "place = 0",
    "scale = 10",
    "low = 0",
    "high = 20000",
    "[[point]]",
    "name = \"breaker\"",
    "proxy = 0",
    "area = \"coil\"",
    "place = 0",
    "low = 0",
    "high = 1",
    "[[alarm]]",
    "name = \"overload\"",
    "point = \"feeder_amps\"",
    "kind = \"high\"",
    "limit = 9000",
    "band = 500",
    "[[interlock]]",
    "name = \"no_close\"",
    "point = \"breaker\"",
    "value = 1",
    "deny = \"feeder_amps %c 9000 or not (alarm overload)\"",
];

// Values that stand where another was due.
const ODD_VALUES: [&str; 8] = [
    "= %v",
    "= %n",
    "= %d",
    "= \"%N\"",
    "= \"%e\"",
    "= [%d, %n]",
    "= [5, %d]",
    "= %k",
];

const LEAVES: [&str; 12] = [
    "alarm overload",
    "feeder_amps %c %n",
    "feeder_amps<=%n",
    "breaker = 1",
    "not breaker %c %d",
    "( breaker != 0 )",
    "not not (alarm overload)",
    "((breaker = 1) and (feeder_amps = 0))",
    "alarm %N",
    "%N %c %v",
    "%N%c%v",
    "(alarm %N",
];

const ENTRY_EVENTS: [&str; 10] = [
    "%a took %d.0 says poack",
    "%a took %n.%n",
    "%a took frame %h",
    "%a tick",
    "%a tick says ping %k",
    "%s command %o says update",
    "%p field %e 0 %n",
    "%p poll",
    "%m cry %h",
    "%a restart",
];

// Lines that no entry of a history has.
const ODD_ENTRIES: [&str; 8] = [
    "%n %a %k",
    "%n  %a tick",
    "01 %a tick",
    "%a tick",
    "%n %a took %d.0 says",
    "%n %a field %e 0",
    "history %n",
    "",
];

/// Up to six lines of a script.
pub fn script(alloc: Global, draws: &mut Draws) -> Result<String> {
    lines(alloc, draws, &SCRIPT_LINES)
}

/// Up to six lines of words.
pub fn sayings(alloc: Global, draws: &mut Draws) -> Result<String> {
    lines(alloc, draws, &WORD_LINES)
}

fn lines(alloc: Global, draws: &mut Draws, templates: &[&str]) -> Result<String> {
    let mut text = String::new(alloc);
    for _ in 0..1 + draws.below(6) {
        let template = draws.pick(templates);
        fill(draws, &mut text, template)?;
        let end = if draws.one_in(16) { "\r\n" } else { "\n" };
        text.push_str(end)?;
    }
    Ok(text)
}

/// A scenario file in which a few lines may lack, stand twice or hold something else.
pub fn scenario(alloc: Global, draws: &mut Draws) -> Result<String> {
    let mut text = String::new(alloc);
    let kept = 1 + draws.below(100);
    for line in &SCENARIO_LINES {
        if draws.one_in(kept) {
            put_odd_line(draws, &mut text, line)?;
        } else {
            put_line(draws, &mut text, line)?;
        }
    }
    if draws.one_in(100) {
        put_odd_value(draws, &mut text)?;
    }
    Ok(text)
}

fn put_line(draws: &mut Draws, text: &mut String, template: &str) -> Result<()> {
    fill(draws, text, template)?;
    text.push('\n')?;
    Ok(())
}

// What stands in the place of a line.
fn put_odd_line(draws: &mut Draws, text: &mut String, line: &str) -> Result<()> {
    match draws.below(4) {
        0 => Ok(()),
        1 => {
            put_line(draws, text, line)?;
            put_line(draws, text, line)
        }
        2 => put_line(draws, text, "other = %v"),
        _ => {
            let (key, _) = line.split_once('=').unwrap_or((line, ""));
            text.push_str(key)?;
            let value = draws.pick(&ODD_VALUES);
            put_line(draws, text, value)
        }
    }
}

// A key's value of very many levels.
fn put_odd_value(draws: &mut Draws, text: &mut String) -> Result<()> {
    text.push_str("odd = ")?;
    if draws.one_in(2) {
        put_nested(draws, text, "[", "1", "]")?;
    } else {
        put_nested(draws, text, "{ a = ", "1", " }")?;
    }
    text.push('\n')?;
    Ok(())
}

// Something in very many brackets.
fn put_nested(
    draws: &mut Draws,
    text: &mut String,
    open: &str,
    inner: &str,
    close: &str,
) -> Result<()> {
    let depth = draws.below(5000);
    for _ in 0..depth {
        text.push_str(open)?;
    }
    text.push_str(inner)?;
    for _ in 0..depth {
        text.push_str(close)?;
    }
    Ok(())
}

/// A rule of up to five parts, seldom one of very many levels.
pub fn rule(alloc: Global, draws: &mut Draws) -> Result<String> {
    let mut text = String::new(alloc);
    match draws.below(100) {
        0 => put_nested(draws, &mut text, "(", "breaker = 1", ")")?,
        1 => put_nested(draws, &mut text, "not ", "breaker = 1", "")?,
        _ => put_parts(draws, &mut text)?,
    }
    Ok(text)
}

fn put_parts(draws: &mut Draws, text: &mut String) -> Result<()> {
    let joins = if draws.one_in(2) { " and " } else { " or " };
    for place in 0..1 + draws.below(5) {
        if place > 0 {
            let other = draws.one_in(12);
            text.push_str(if other { " or not " } else { joins })?;
        }
        let template = draws.pick(&LEAVES);
        fill(draws, text, template)?;
    }
    Ok(())
}

// How many entries are kept, mostly few.
fn kept_of(draws: &mut Draws) -> u32
    ensures { result < 120 }
{
    if draws.one_in(6) {
        draws.below(120)
    } else {
        draws.below(12)
    }
}

// Lines that no printed text begins with.
const ODD_HEADS: [&str; 7] = [
    "spire %n",
    "spire",
    "spire 1 ",
    "spire 01",
    "%a 1",
    "history %n",
    "",
];

// Lines that tell no count of entries.
const ODD_COUNTS: [&str; 7] = [
    "history",
    "history 0%d",
    "history  %d",
    "history %d ",
    "history %k",
    "history 4294967296",
    "histories %d",
];

// What stands before the entries of a text, each third time or so with an odd line.
fn put_head(draws: &mut Draws, text: &mut String, count: u32) -> Result<()> {
    if draws.one_in(6) {
        let line = draws.pick(&ODD_HEADS);
        put_line(draws, text, line)?;
    } else {
        text.push_str("spire 1\n")?;
    }
    text.push_str("agree yes\n")?;
    if draws.one_in(6) {
        let line = draws.pick(&ODD_COUNTS);
        return put_line(draws, text, line);
    }
    Ok(write!(text, "history {count}\n")?)
}

/// A history that begins with some of these entries and mostly has others behind them, each second time with an odd line too.
pub fn history(alloc: Global, draws: &mut Draws, entries: &str) -> Result<String> {
    let mut text = String::new(alloc);
    let kept = kept_of(draws);
    let others = draws.below(3);
    let told = if draws.one_in(8) {
        draws.below(9)
    } else {
        kept + others
    };
    put_head(draws, &mut text, told)?;
    for line in entries.lines().take(kept as usize) {
        text.push_str(line)?;
        text.push('\n')?;
    }
    for place in 0..others {
        let stamp = kept + place;
        write!(text, "{stamp} ")?;
        let template = draws.pick(&ENTRY_EVENTS);
        put_line(draws, &mut text, template)?;
    }
    if draws.one_in(2) {
        let template = draws.pick(&ODD_ENTRIES);
        put_line(draws, &mut text, template)?;
    }
    Ok(text)
}

// A request's parts of four masters, any two of which rebuild it.
const PARTS: [&str; 5] = [
    "digest 5307c0b0ae6aacdcf5076254f1ff92f98e7d8fce3c1c9479bd37fe10d735561a",
    "m0 19 00010000000000000000",
    "m1 19 00010001030000000000",
    "m2 19 00010002060000000000",
    "m3 19 00010003050000000000",
];

const PART_LINES: [&str; 4] = [
    "m%d 19 0001000%d0%d0000000000",
    "m%d %n %h",
    "%a 19 0001000%d050000000000",
    "digest %H",
];

/// Parts of a request, of which some lack and others are wrong.
pub fn parts(alloc: Global, draws: &mut Draws) -> Result<String> {
    let mut text = String::new(alloc);
    for line in &PARTS {
        if !draws.one_in(6) {
            put_line(draws, &mut text, line)?;
        }
        if draws.one_in(8) {
            let template = draws.pick(&PART_LINES);
            put_line(draws, &mut text, template)?;
        }
    }
    Ok(text)
}
