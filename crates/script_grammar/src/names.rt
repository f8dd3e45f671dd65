ghost use Rattle.std.specs.Prelude.{◌≡◌, map, true};
ghost use Rattle.script_grammar.specs.Frames.{signer_in};
ghost use Rattle.script_grammar.specs.Lines.{texts};
ghost use Rattle.script_grammar.specs.Names.{is_name, comes_before, rise, names_rise};

use crate::numbers::is_numeral;

/// Whether a text is an actor's name, be the actor there or not: the letter of its kind, and a number.
pub fn is_name(name: &[u8]) -> bool
    ensures { result ≡ is_name name.now }
{
    let Some((letter, number)) = name.split_first() else {
        return false;
    };
    (*letter == b'm' || *letter == b'p' || *letter == b's') && is_numeral(number)
}

/// Whether an actor comes before another, in the order in which actors are numbered. Of two numbers in decimal the smaller is
/// the shorter one or, of equally long ones, the one with the smaller digit where they first differ.
fn comes_before(name: &[u8], other: &[u8]) -> bool
    requires name { is_name name.now ≡ true }
    requires other { is_name other.now ≡ true }
    ensures { result ≡ comes_before name.now other.now }
{
    if name[0] != other[0] {
        return name[0] < other[0];
    }
    if name.len() != other.len() {
        return name.len() < other.len();
    }
    name < other
}

/// The name in a frame's text.
fn signer(text: &str) -> &[u8]
    ensures { result.now ≡ signer_in text.now }
{
    match text.split_once('.') {
        Some((name, _)) => name.as_bytes(),
        None => text.as_bytes(),
    }
}

fn rise(first: &[u8], second: &[u8]) -> bool
    ensures { result ≡ rise first.now second.now }
{
    is_name(first) && is_name(second) && comes_before(first, second)
}

/// Whether the names in frames' texts rise.
pub fn names_rise(frames: &[&str]) -> bool
    ensures { result ≡ names_rise (map signer_in (texts frames.now)) }
{
    match frames {
        [first, second, ..] => { rise(signer(first), signer(second)) && names_rise(&frames[1..]) }
        _ => true,
    }
}
