ghost use Rattle.std.specs.Prelude.{◌≡◌, ℕ, ◌<◌, ◌≤◌, ◌*◌, ◌/◌, ◌++◌, length, slice_index};
ghost use Rattle.wire_parts.specs.Fields.{u16_bytes};
ghost use Rattle.ots_keys.specs.Parameters.{width, chains, top_digit};
ghost use Rattle.ots_keys.specs.Digits.{coef, checksum, digit};

use crate::parameters::Ots;
use lane_chains::MOST_CHAINS;

// Digit `i` of bytes.
#[tactic(auto, using(crate::proofs::Widths::digit_fits, crate::proofs::Widths::top_is))]
fn coefficient(ots: Ots, text: &[u8], i: usize) -> u8
    requires inside { i * width ots / 8 < length text.now }
    requires small { i < 512 }
    ensures value { result ≡ coef text.now i (width ots) }
    ensures top { result ≤ top_digit ots }
{
    let width = ots.width();
    let shift = 8 - (width * (i % (8 / width)) + width);
    ots.top_digit() & (text[i * width / 8] >> shift)
}

// The checksum of a hash.
fn checksum(ots: Ots, hash: &[u8; 32]) -> u16
    ensures { result ≡ checksum ots hash.now }
{
    let mut sum: u32 = 0;
    for i in 0..256 / ots.width() {
        sum += u32::from(ots.top_digit() - coefficient(ots, hash, i));
    }
    ((sum << ots.checksum_shift()) % 0x1_0000) as u16
}

// The text whose digits are signed.
fn checked_hash(ots: Ots, hash: &[u8; 32]) -> [u8; 34]
    ensures { result ≡ hash.now ++ u16_bytes (checksum ots hash.now) }
{
    let mut text = [0; 34];
    let sum = checksum(ots, hash);
    let (front, back) = text.split_at_mut(32);
    front.copy_from_slice(hash);
    back.copy_from_slice(&sum.to_be_bytes());
    text
}

// How far chain `i` goes, of the hash whose text this is.
fn digit_of(ots: Ots, text: &[u8; 34], i: u16) -> u8
    requires { i < chains ots }
    ensures value { result ≡ coef text.now i (width ots) }
    ensures top { result ≤ top_digit ots }
{
    coefficient(ots, text, usize::from(i))
}

// How far each chain goes, of a hash.
pub(crate) fn digits_of(ots: Ots, hash: &[u8; 32]) -> [u16; MOST_CHAINS]
    ensures value { (i : ℕ) → i < chains ots → slice_index result i ≡ digit ots hash.now i }
    ensures top { (i : ℕ) → i < chains ots → slice_index result i ≤ top_digit ots }
{
    let text = checked_hash(ots, hash);
    let mut digits = [0u16; MOST_CHAINS];
    'digits: for i in 0..ots.chains() {
        let at = usize::from(i);
        let far = digit_of(ots, &text, i);
        digits[at] = u16::from(far);
    }
    digits
}
