ghost use Rattle.std.specs.Prelude.{◌≡◌, ◌≤◌, IfSome, option_and_then, option_map, neg_ℤ, pos};
ghost use Rattle.interlocks.specs.Numbers.{magnitude, number_of, at_most_2_63, below_2_63, digits_on};

/// The greatest magnitude that a number of 64 bits with its sign can have, below 0.
const MOST: u128 = 9_223_372_036_854_775_808;

/// The number that decimal digits spell, at most 2^63. None where another byte is among them.
fn value_of(digits: &[u8]) -> Option<u64>
    ensures bound { IfSome result (λ n. n ≤ 9223372036854775808) }
    ensures value { result ≡ option_and_then at_most_2_63 (digits_on 0 digits.now) }
{
    let mut value = 0u128;
    for digit in digits {
        if !digit.is_ascii_digit() {
            return None;
        }
        value = value * 10 + u128::from(*digit - b'0');
        if value > MOST {
            return None;
        }
    }
    Some(value as u64)
}

/// The same for a text that has a digit, and no 0 before another one.
#[tactic(auto, unfolding(crate::specs::Numbers::magnitude))]
fn magnitude(digits: &[u8]) -> Option<u64>
    ensures value { result ≡ magnitude digits.now }
    ensures bound { IfSome result (λ n. n ≤ 9223372036854775808) }
{
    let Some((first, rest)) = digits.split_first() else {
        return None;
    };
    if *first == b'0' && !rest.is_empty() {
        return None;
    }
    value_of(digits)
}

/// The number of 64 bits that a text spells: decimal digits, behind a `-` or not.
pub fn number_of(text: &[u8]) -> Option<i64>
    ensures { result ≡ number_of text.now }
{
    let Some((first, rest)) = text.split_first() else {
        return None;
    };
    if *first == b'-' {
        negative(magnitude(rest))
    } else {
        positive(magnitude(text))
    }
}

fn negative(value: Option<u64>) -> Option<i64>
    requires { IfSome value (λ n. n ≤ 9223372036854775808) }
    ensures { result ≡ option_map (λ n. neg_ℤ (pos n)) value }
{
    match value {
        Some(value) => Some((-i128::from(value)) as i64),
        None => None,
    }
}

fn positive(value: Option<u64>) -> Option<i64>
    ensures { result ≡ option_and_then below_2_63 value }
{
    match value {
        Some(value) if u128::from(value) < MOST => Some(value as i64),
        _ => None,
    }
}
