//! Newton's interpolation. `specs/Interpolation.antt` says what it gives.
ghost use Rattle.std.specs.Prelude.{◌≡◌, IfOk, length};
ghost use Rattle.parity_parts.specs.Interpolation.{interpolated, quotients, raised};

use crate::field::{invert, multiply};
use plain_lists::Want;
use std::alloc::Global;

// The quotients at the other points.
fn quotients_of(alloc: Global, x: u8, y: u8, points: &[u8], values: &[u8]) -> Result<Vec<u8>, Want>
    requires { length points.now ≡ length values.now }
    ensures made { IfOk result (λ made. made.items ≡ quotients x y points.now values.now) }
    ensures same { IfOk result (λ made. length made.items ≡ length points.now) }
{
    let mut made = Vec::new(alloc);
    for i in 0..points.len() {
        made.push(multiply(invert(points[i] ^ x), values[i] ^ y))?;
    }
    Ok(made)
}

// The coefficients of y + (X + x) Q.
fn raise(alloc: Global, x: u8, y: u8, quotient: &[u8]) -> Result<Vec<u8>, Want>
    ensures { IfOk result (λ made. made.items ≡ raised x y quotient.now) }
{
    let mut made = Vec::new(alloc);
    let mut carry = y;
    for q in quotient {
        made.push(carry ^ multiply(x, *q))?;
        carry = *q;
    }
    made.push(carry)?;
    Ok(made)
}

/// The coefficients of the polynomial that takes these values at these points, lowest first.
pub fn interpolate(alloc: Global, points: &[u8], values: &[u8]) -> Result<Vec<u8>, Want>
    requires { length points.now ≡ length values.now }
    ensures { IfOk result (λ made. made.items ≡ interpolated points.now values.now) }
{
    match points {
        [] => Ok(Vec::new(alloc)),
        [x, others @ ..] => {
            let quotients = quotients_of(alloc, *x, values[0], others, &values[1..])?;
            let quotient = interpolate(alloc, others, quotients.as_slice())?;
            raise(alloc, *x, values[0], quotient.as_slice())
        }
    }
}
