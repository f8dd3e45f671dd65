//! The field of 256 elements. `specs/Field.antt` says what it is.
ghost use Rattle.std.specs.Prelude.{◌≡◌, drop, slice_index};
ghost use Rattle.parity_parts.specs.Field.{inverse, product, times_x, value};
ghost use Rattle.parity_parts.specs.Parts.{column};

// The inverses of the elements below 16.
const INVERSES: [u8; 16] = [
    0, 1, 142, 244, 71, 167, 122, 186, 173, 157, 221, 152, 61, 170, 93, 150,
];

fn shifted(a: u8) -> u8
    ensures { result ≡ times_x a }
{
    (a % 128) * 2 ^ (a / 128) * 29
}

/// The product of two elements.
pub fn multiply(a: u8, b: u8) -> u8
    ensures { result ≡ product a b }
{
    let mut sum = 0u8;
    let mut left = a;
    let mut copy = b;
    for _bit in 0..8u32 {
        sum ^= (left % 2) * copy;
        left /= 2;
        copy = shifted(copy);
    }
    sum
}

/// The inverse of an element below 16, and 0 for all others.
pub fn invert(a: u8) -> u8
    ensures { result ≡ inverse a }
{
    if a < 16 { INVERSES[a as usize] } else { 0 }
}

// The first byte, and zero where there is none.
fn first_or_zero(text: &[u8]) -> u8
    ensures { result ≡ slice_index text.now 0 }
{
    match text {
        [] => 0,
        [first, ..] => *first,
    }
}

/// What is left of the text behind this many bytes.
pub fn behind(text: &[u8], count: usize) -> &[u8]
    ensures { result.now ≡ drop count text.now }
{
    if count < text.len() {
        &text[count..]
    } else {
        &[]
    }
}

/// The value at `x` of the polynomial whose `count` coefficients stand in the text, each `step` behind the one before.
pub fn value_of_column(text: &[u8], step: usize, count: u32, x: u8) -> u8
    ensures { result ≡ value (column step count text.now) x }
{
    if count == 0 {
        return 0;
    }
    let higher = value_of_column(behind(text, step), step, count - 1, x);
    first_or_zero(text) ^ multiply(x, higher)
}
