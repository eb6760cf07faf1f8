// Conversions and operations of IEEE 754-2019 on `f32`, its `abs`, minimum and maximum operations on
// either `Format`, and the bit patterns of `f32`. Each function has a result for every input. The
// contracts know one not-a-number: where a result is one, its pattern is left open.
//
// std has methods for most of these. By the port's scope these are its own, the rounding of a `u32`
// among them; the tests for a NaN and for a sign are std's.
#![tactic(auto)]

mod convert;
mod format;
mod min_max;
mod operations;
mod pattern;
mod root;

pub use convert::{nearest_f32, truncate_i32, truncate_u32, truncate_usize};
pub use format::Format;
pub use min_max::{
    maximum, maximum_magnitude, maximum_magnitude_number, maximum_number, minimum,
    minimum_magnitude, minimum_magnitude_number, minimum_number,
};
pub use operations::{abs, clamp, is_same};
pub use pattern::{from_bits, is_number, to_bits};
pub use root::sqrt;
