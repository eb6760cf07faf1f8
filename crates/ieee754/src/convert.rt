// Conversions between `f32` and integers: a float without its fraction, and a whole number rounded
// to a float.
ghost use Rattle.std.specs.Prelude.{◌≡◌, pos};
ghost use Rattle.std.specs.Float.Ieee as Ieee;
ghost use Rattle.std.specs.Float.{binary32};
ghost use Rattle.std.specs.Float.Ieee.Nearest.{closest};

use crate::pattern::{packed, significand};

// x without its fraction, held at the ends of a `u64`: a negative x and a not-a-number give 0.
fn truncate_u64(x: f32) -> u64
    ensures { result ≡ Ieee.to_unsigned 64 x }
{
    if x.is_nan() {
        return 0;
    }
    let bits = x.to_bits();
    if bits >= 0x8000_0000 {
        return 0;
    }
    let exponent = bits >> 23;
    if exponent < 127 {
        return 0;
    }
    if exponent > 190 {
        return u64::MAX;
    }
    // from bit 63 the leading digit moves down to its place, exponent - 127
    let digits = (significand(bits) as u64) << 40;
    digits >> (190 - exponent)
}

// A function for each type, as Rust has a cast for each. One that is generic over the type would be
// no plainer: these three bodies, which differ, would stand in three impls of a trait.

// x without its fraction, held at the ends of a `u32`.
pub fn truncate_u32(x: f32) -> u32
    ensures { result ≡ Ieee.to_unsigned 32 x }
{
    truncate_u64(x).min(u32::MAX as u64) as u32
}

// x without its fraction, held at the ends of a `usize`, which has 64 bits.
pub fn truncate_usize(x: f32) -> usize
    ensures { result ≡ Ieee.to_unsigned 64 x }
{
    truncate_u64(x) as usize
}

// x without its fraction, held at the ends of an `i32`.
pub fn truncate_i32(x: f32) -> i32
    ensures { result ≡ Ieee.to_signed 31 x }
{
    if x < 0.0 {
        let n = truncate_u64(-x);
        if n >= 0x8000_0000 {
            return i32::MIN;
        }
        -(n as i32)
    } else {
        truncate_u64(x).min(i32::MAX as u64) as i32
    }
}

// n / 256 rounded to the nearest whole number, a tie to the even one.
fn without_last_byte(n: u32) -> u32
    ensures { result ≡ closest n 256 }
{
    let kept = n >> 8;
    let rest = n & 0xff;
    // up from above the half, and from the half itself if kept is odd
    if rest + (kept & 1) > 128 {
        kept + 1
    } else {
        kept
    }
}

// The `f32` nearest to n; where two are as near, the one whose last digit is even.
pub fn nearest_f32(n: u32) -> f32
    ensures { result ≡ Ieee.of_int binary32 (pos n) }
{
    if n == 0 {
        return 0.0;
    }
    // with the leading digit moved to bit 31, the upper 24 digits are kept
    let zeros = n.leading_zeros();
    packed(157 - zeros, without_last_byte(n << zeros))
}
