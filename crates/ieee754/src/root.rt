// The square root: that of the significand as a whole number, rounded.
ghost use Rattle.std.specs.Prelude.{◌≡◌, ℕ, ◌+◌, ◌*◌, ◌^◌, ◌≤◌, ◌<◌, T, Float};
ghost use Rattle.std.specs.Float.{binary32};
ghost use Rattle.std.specs.Float.Ieee.{fits, to_bits};
ghost use Rattle.ieee754.specs.Root as Root;

use crate::pattern::{packed, significand};

// A whole number's square root without its fraction, and what its square leaves of the number.
#[derive(Clone, Copy)]
struct Extracted {
    root: u64,
    rest: u64,
}

// The square root of n by Heron's rule: for any guess above 0 the mean of guess and n / guess is not
// below the root without its fraction. How near the first guess is matters for speed alone: where n
// has 47 or 48 digits it is off by less than 3 in 100, and two steps leave at most 2 to take away.
// (The library's `isqrt` halves an interval of 2^32 numbers, in 32 steps.)
fn extract_root(n: u64) -> Extracted
    requires { n < 2 ^ 48 }
    ensures square { result.root * result.root + result.rest ≡ n }
    ensures below_next { result.rest ≤ 2 * result.root }
{
    let guess = n / 24445000 + 5757000;
    let better = (guess + n / guess) / 2;
    let mut root = (better + n / better) / 2;
    while root * root > n {
        root -= 1;
    }
    Extracted {
        root,
        rest: n - root * root,
    }
}

// The square root of digits * 2^(place - 126) units of the smallest value, rounded to the nearest.
fn rounded_root(place: u32, digits: u32) -> f32
    requires place_fits { place ≤ 500 }
    requires full { 2 ^ 23 ≤ digits }
    requires few { digits < 2 ^ 24 }
    ensures { (a : ℕ) → a * 2 ^ 126 ≡ digits * 2 ^ place → result ≡ Root.root_of binary32 a }
{
    let Extracted { root, rest } = extract_root((digits as u64) << (23 + place % 2));
    // the square of root + 1/2 is 1/4 above root * root + root
    if rest <= root {
        packed(place / 2, root as u32)
    } else {
        packed(place / 2, (root + 1) as u32)
    }
}

// The square root of the finite number above 0 that has the pattern `bits`.
fn root_of_pattern(bits: u32) -> f32
    requires above_zero { 0 < bits }
    requires finite { bits < 0x7f80_0000 }
    ensures { (x : Float) → T (fits binary32 x) → to_bits binary32 x ≡ bits → result ≡ Root.sqrt binary32 x }
{
    let exponent = bits >> 23;
    if exponent > 0 {
        rounded_root(exponent + 125, significand(bits))
    } else {
        // a subnormal number: its leading digit moves to bit 23
        let zeros = bits.leading_zeros();
        rounded_root(134 - zeros, bits << (zeros - 8))
    }
}

// The square root of x, rounded to the nearest (what that is, `Root.NearestRoot` says); that of -0.0
// is -0.0, and that of any other negative number is no number.
pub fn sqrt(x: f32) -> f32
    ensures { result ≡ Root.sqrt binary32 x }
{
    if x.is_nan() {
        return x;
    }
    if x == 0.0 {
        return x;
    }
    let bits = x.to_bits();
    if bits >= 0x8000_0000 {
        return f32::NAN;
    }
    if bits >= 0x7f80_0000 {
        return x;
    }
    root_of_pattern(bits)
}
