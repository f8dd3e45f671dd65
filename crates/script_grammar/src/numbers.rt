ghost use Rattle.std.specs.Prelude.{◌≡◌, ◌≤◌, ◌^◌, true, IfOk};
ghost use Rattle.std.specs.List.{list_all};
ghost use Rattle.std.specs.Char.{is_ascii_digit};
ghost use Rattle.std.specs.Option.{MatchOption};
ghost use Rattle.std.specs.Str.Parse.{digits_value};
ghost use Rattle.script_grammar.specs.Faults.{Answers};
ghost use Rattle.script_grammar.specs.Numbers.{starts_as_number, is_numeral, within, number_in, wide_in, narrow_in, short_in, below_zero_in, not_below_zero_in, signed_in, hex_bytes, bytes_in};

use crate::fault::LineRefusal;
use plain_lists::Bytes;
use std::alloc::Global;

/// The greatest magnitude that a number of 64 bits with its sign can have, below 0.
const MOST_BELOW: u64 = 9_223_372_036_854_775_808;

/// The greatest number of 64 bits with a sign.
const MOST_ABOVE: u64 = 9_223_372_036_854_775_807;

fn starts_as_number(text: &[u8]) -> bool
    ensures { result ≡ starts_as_number text.now }
{
    match text {
        [] => false,
        [_] => true,
        [first, ..] => *first != b'0',
    }
}

fn are_digits(text: &[u8]) -> bool
    ensures { result ≡ list_all is_ascii_digit text.now }
{
    text.iter().all(|byte| byte.is_ascii_digit())
}

/// Whether a text is a decimal number without a sign and without a 0 before another digit.
pub fn is_numeral(text: &[u8]) -> bool
    ensures { result ≡ is_numeral text.now }
{
    starts_as_number(text) && are_digits(text)
}

/// The number of 64 bits that a decimal number spells. None where it is greater.
fn value(text: &str) -> Option<u64>
    requires { is_numeral text.now ≡ true }
    ensures { MatchOption result (2 ^ 64 ≤ digits_value 10 text.now) (λ n. n ≡ digits_value 10 text.now) }
{
    text.parse::<u64>().ok()
}

/// The number that a text spells, from `least` to `most`.
#[tactic(auto, unfolding(crate::specs::Numbers::number_in))]
pub fn number(text: &str, least: u64, most: u64) -> Result<u64, LineRefusal>
    ensures value { Answers result (number_in least most text.now) }
    ensures bound { IfOk result (λ n. n ≤ most) }
{
    if !is_numeral(text.as_bytes()) {
        return Err(LineRefusal::BadLine);
    }
    match value(text) {
        None => Err(LineRefusal::BadLine),
        Some(number) => within(number, least, most),
    }
}

fn within(number: u64, least: u64, most: u64) -> Result<u64, LineRefusal>
    ensures { result ≡ within least most number }
{
    if least <= number && number <= most {
        Ok(number)
    } else {
        Err(LineRefusal::BadLine)
    }
}

/// A number of 64 bits.
pub fn wide(text: &str) -> Result<u64, LineRefusal>
    ensures { Answers result (wide_in text.now) }
{
    number(text, 0, u64::MAX)
}

/// A number of 32 bits.
pub fn narrow(text: &str) -> Result<u32, LineRefusal>
    ensures { Answers result (narrow_in text.now) }
{
    match number(text, 0, 4_294_967_295) {
        Ok(number) => Ok(number as u32),
        Err(fault) => Err(fault),
    }
}

/// A number of 16 bits.
pub fn short(text: &str) -> Result<u16, LineRefusal>
    ensures { Answers result (short_in text.now) }
{
    match number(text, 0, 65_535) {
        Ok(number) => Ok(number as u16),
        Err(fault) => Err(fault),
    }
}

fn below_zero(digits: &str) -> Result<i64, LineRefusal>
    ensures { Answers result (below_zero_in digits.now) }
{
    match number(digits, 0, MOST_BELOW) {
        Ok(number) => Ok((-i128::from(number)) as i64),
        Err(fault) => Err(fault),
    }
}

fn not_below_zero(digits: &str) -> Result<i64, LineRefusal>
    ensures { Answers result (not_below_zero_in digits.now) }
{
    match number(digits, 0, MOST_ABOVE) {
        Ok(number) => Ok(number as i64),
        Err(fault) => Err(fault),
    }
}

/// A number of 64 bits, with a `-` before it or not.
#[tactic(auto, unfolding(crate::specs::Numbers::signed_in))]
pub fn signed(text: &str) -> Result<i64, LineRefusal>
    ensures { Answers result (signed_in text.now) }
{
    match text.strip_prefix('-') {
        Some(digits) => below_zero(digits),
        None => not_below_zero(text),
    }
}

/// Bytes as two hex digits each; no bytes are `-`.
#[tactic(auto, unfolding(crate::specs::Numbers::bytes_in))]
pub fn bytes(alloc: Global, text: &str) -> Result<Bytes, LineRefusal>
    ensures { Answers result (bytes_in text.now) }
{
    if text.is_empty() {
        return Err(LineRefusal::BadLine);
    }
    if text == "-" {
        return Ok(Bytes::from_vec(alloc, Vec::new(alloc))?);
    }
    match hex::decode(alloc, text) {
        Ok(bytes) => Ok(Bytes::from_vec(alloc, bytes)?),
        Err(hex::FromHexError::OutOfMemory) => Err(LineRefusal::Want),
        Err(_) => Err(LineRefusal::BadLine),
    }
}
