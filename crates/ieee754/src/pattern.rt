// The bit pattern of an `f32`: the sign, the exponent's field of 8 digits, and the 23 digits below
// the significand's leading one.
ghost use Rattle.std.specs.Prelude.{◌≡◌, false, not, ◌+◌, ◌%◌, ◌^◌, ◌≤◌};
ghost use Rattle.std.specs.Float.Ieee as Ieee;
ghost use Rattle.std.specs.Float.{binary32};

// Is a pattern that of a number, an infinity included?
pub fn is_number(bits: u32) -> bool
    ensures { result ≡ not (Ieee.nan_bits binary32 bits) }
{
    bits % 0x8000_0000 <= 0x7f80_0000
}

// The float of a pattern. That of a not-a-number is some not-a-number.
pub fn from_bits(bits: u32) -> f32
    ensures { result ≡ Ieee.of_bits binary32 bits }
{
    if is_number(bits) {
        f32::from_bits(bits)
    } else {
        f32::NAN
    }
}

// The pattern of a float, and 7fc00000 for every not-a-number.
pub fn to_bits(x: f32) -> u32
    ensures { result ≡ Ieee.to_bits binary32 x }
{
    if x.is_nan() { 0x7fc0_0000 } else { x.to_bits() }
}

// The significand of a pattern whose exponent's field is not 0: its digits under the leading one.
pub(crate) fn significand(bits: u32) -> u32
    ensures { result ≡ 2 ^ 23 + bits % 2 ^ 23 }
{
    (bits & 0x7f_ffff) | 0x80_0000
}

// digits * 2^place units of the smallest value, 2^-149. The digits are 24, or 2^24 after a carry.
// The leading digit adds one to the exponent's field, and so does the carry.
pub(crate) fn packed(place: u32, digits: u32) -> f32
    requires place_fits { place ≤ 252 }
    requires full { 2 ^ 23 ≤ digits }
    requires few { digits ≤ 2 ^ 24 }
    ensures { result ≡ Ieee.units binary32 false digits place }
{
    f32::from_bits((place << 23) + digits)
}
