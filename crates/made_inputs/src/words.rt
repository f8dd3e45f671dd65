//! Words of texts, by the letters of a template.
use crate::draws::Draws;
use anyhow::Result;

const ACTORS: [&str; 9] = ["m0", "m1", "m2", "m3", "s0", "s0", "p0", "p1", "m7"];

const MASTERS: [&str; 5] = ["m3", "m3", "m3", "m1", "m4"];

const PROXIES: [&str; 4] = ["p0", "p0", "p0", "p1"];

const SCREENS: [&str; 3] = ["s0", "s0", "s1"];

const AREAS: [&str; 5] = ["coil", "coil", "input", "holding", "discrete"];

const NAMES: [&str; 7] = [
    "feeder_amps",
    "breaker",
    "pump",
    "overload",
    "overload",
    "no_close",
    "absent",
];

const COMPARISONS: [&str; 7] = ["=", "!=", "<", "<=", ">", ">=", "=="];

const VALUES: [&str; 8] = [
    "0",
    "1",
    "-1",
    "9000",
    "-0",
    "9223372036854775807",
    "-9223372036854775808",
    "9223372036854775808",
];

const KINDS: [&str; 22] = [
    "update",
    "porequest",
    "poack",
    "posummary",
    "preprepare",
    "prepare",
    "commit",
    "ping",
    "pong",
    "rtt",
    "tatreport",
    "tatbound",
    "suspect",
    "report",
    "newview",
    "askupdate",
    "give",
    "askorder",
    "giveordered",
    "voucher",
    "mark",
    "murmur",
];
// Words that stand where another was due.
const STRAY: [&str; 18] = [
    "",
    " ",
    "x1",
    "m01",
    "m",
    "M0",
    "m99999999999",
    "-1",
    "+1",
    "01",
    "0x1",
    "1.0",
    "\t",
    "\r",
    "é",
    "-",
    "#",
    "\"",
];

/// A template with a word for each `%` and the letter behind it.
pub fn fill(draws: &mut Draws, text: &mut String, template: &str) -> Result<()> {
    let mut is_letter = false;
    for letter in template.chars() {
        if is_letter {
            put_some_word(draws, text, letter)?;
            is_letter = false;
        } else if letter == '%' {
            is_letter = true;
        } else {
            text.push(letter)?;
        }
    }
    Ok(())
}

fn put_some_word(draws: &mut Draws, text: &mut String, letter: char) -> Result<()> {
    if draws.one_in(60) {
        text.push_str(draws.pick(&STRAY))?;
        return Ok(());
    }
    put_word(draws, text, letter)
}

// Actors (a), masters (m), proxies (p), screens (s), areas (e), names (N), comparisons (c), values (v), kinds (k), numbers
// (n), small numbers (d), frames (f), orders (o) and hex digits (h, 64 of them H).
fn put_word(draws: &mut Draws, text: &mut String, letter: char) -> Result<()> {
    match letter {
        'a' => text.push_str(draws.pick(&ACTORS))?,
        'm' => text.push_str(draws.pick(&MASTERS))?,
        'p' => text.push_str(draws.pick(&PROXIES))?,
        's' => text.push_str(draws.pick(&SCREENS))?,
        'e' => text.push_str(draws.pick(&AREAS))?,
        'N' => text.push_str(draws.pick(&NAMES))?,
        'c' => text.push_str(draws.pick(&COMPARISONS))?,
        'v' => text.push_str(draws.pick(&VALUES))?,
        'k' => text.push_str(draws.pick(&KINDS))?,
        'f' => put_frame_name(draws, text)?,
        'o' => put_op(draws, text)?,
        'h' => put_digits(draws, text, 8)?,
        'H' => put_digits(draws, text, 64)?,
        'd' => put_number(text, u64::from(draws.below(4)))?,
        _ => put_number(text, draws.number())?,
    }
    Ok(())
}

fn put_number(text: &mut String, number: u64) -> Result<()> {
    write!(text, "{number}")?;
    Ok(())
}

fn put_frame_name(draws: &mut Draws, text: &mut String) -> Result<()> {
    text.push_str(draws.pick(&ACTORS))?;
    text.push('.')?;
    text.push_str(draws.pick(&KINDS))?;
    text.push('.')?;
    put_number(text, 1 + u64::from(draws.below(3)))
}

fn put_op(draws: &mut Draws, text: &mut String) -> Result<()> {
    if draws.one_in(2) {
        text.push_str("ack ")?;
        return put_number(text, draws.number());
    }
    text.push_str("set ")?;
    put_number(text, draws.number())?;
    text.push(' ')?;
    text.push_str(draws.pick(&VALUES))?;
    Ok(())
}

fn put_digits(draws: &mut Draws, text: &mut String, count: u32) -> Result<()> {
    for _ in 0..count {
        let digit = draws.below(16);
        write!(text, "{digit:x}")?;
    }
    Ok(())
}
