// Conversions and operations of IEEE 754-2019 and Rust's `clamp`; draws of the noise generator; ratios of pitches; a sliding value; the small functions of utils.
ghost use Rattle.std.specs.Prelude.{◌≡◌, pos};
ghost use Rattle.std.specs.Float.Ieee as Ieee;
ghost use Rattle.std.specs.Float.{binary32};
ghost use Rattle.ieee754.specs.Operations as Operations;
ghost use Rattle.ieee754.specs.Root as Root;
ghost use Rattle.random.specs.Random as Random;
ghost use Rattle.units.specs.Units as Units;
ghost use Rattle.parameter_interpolator.specs.ParameterInterpolator as Interpolator;
ghost use Rattle.utils.specs.Utils as Utils;

use parameter_interpolator::ParameterInterpolator;
use random::Draw;

// Toward zero, held at the ends of the target; a NaN gives 0. So are the next two.
#[unsafe(no_mangle)]
pub extern "C" fn bechullpi_ieee754_truncate_u32(x: f32) -> u32
    ensures { result ≡ Ieee.to_unsigned 32 x }
{
    ieee754::truncate_u32(x)
}

#[unsafe(no_mangle)]
pub extern "C" fn bechullpi_ieee754_truncate_usize(x: f32) -> usize
    ensures { result ≡ Ieee.to_unsigned 64 x }
{
    ieee754::truncate_usize(x)
}

#[unsafe(no_mangle)]
pub extern "C" fn bechullpi_ieee754_truncate_i32(x: f32) -> i32
    ensures { result ≡ Ieee.to_signed 31 x }
{
    ieee754::truncate_i32(x)
}

// To the nearest value, a tie to the even one.
#[unsafe(no_mangle)]
pub extern "C" fn bechullpi_ieee754_nearest_f32(n: u32) -> f32
    ensures { result ≡ Ieee.of_int binary32 (pos n) }
{
    ieee754::nearest_f32(n)
}

#[unsafe(no_mangle)]
pub extern "C" fn bechullpi_ieee754_abs(x: f32) -> f32
    ensures { result ≡ Operations.abs x }
{
    ieee754::abs(x)
}

// lo where x is below lo, else hi where x is above hi, else x, a NaN too.
#[unsafe(no_mangle)]
pub extern "C" fn bechullpi_ieee754_clamp(x: f32, lo: f32, hi: f32) -> f32
    ensures { result ≡ Operations.clamp x lo hi }
{
    ieee754::clamp(x, lo, hi)
}

// The nearest value to the root. A number below zero gives a NaN, -0.0 gives -0.0.
#[unsafe(no_mangle)]
pub extern "C" fn bechullpi_ieee754_sqrt(x: f32) -> f32
    ensures { result ≡ Root.sqrt binary32 x }
{
    ieee754::sqrt(x)
}

// The word drawn, which is the next state.
#[unsafe(no_mangle)]
pub extern "C" fn bechullpi_random_get_word(state: u32) -> u32
    ensures { result ≡ Random.get_word state }
{
    random::get_word(state)
}

// A value from 0.0 to 1.0, both included, and the word drawn, which is the next state.
#[unsafe(no_mangle)]
pub extern "C" fn bechullpi_random_get_float(state: u32) -> Draw
    ensures { result ≡ Random.get_float state }
{
    random::get_float(state)
}

// The ratio of a pitch in semitones. It is held past the end of the tables, at 128.0.
#[unsafe(no_mangle)]
pub extern "C" fn bechullpi_units_semitones_to_ratio(semitones: f32) -> f32
    ensures { result ≡ Units.ratio semitones }
{
    units::semitones_to_ratio(semitones)
}

// A value that reaches another in `size` equal steps.
#[unsafe(no_mangle)]
pub extern "C" fn bechullpi_parameter_interpolator_new(
    value: f32,
    new_value: f32,
    size: u32,
) -> ParameterInterpolator
    ensures { result ≡ Interpolator.new value new_value size }
{
    ParameterInterpolator::new(value, new_value, size)
}

// One step.
#[unsafe(no_mangle)]
pub extern "C" fn bechullpi_parameter_interpolator_next(
    interpolator: ParameterInterpolator,
) -> ParameterInterpolator
    ensures { result ≡ Interpolator.next interpolator }
{
    interpolator.next()
}

#[unsafe(no_mangle)]
pub extern "C" fn bechullpi_utils_one_pole(out: f32, in_: f32, coefficient: f32) -> f32
    ensures { result ≡ Utils.one_pole out in_ coefficient }
{
    utils::one_pole(out, in_, coefficient)
}

#[unsafe(no_mangle)]
pub extern "C" fn bechullpi_utils_slope(out: f32, in_: f32, positive: f32, negative: f32) -> f32
    ensures { result ≡ Utils.slope out in_ positive negative }
{
    utils::slope(out, in_, positive, negative)
}

#[unsafe(no_mangle)]
pub extern "C" fn bechullpi_utils_crossfade(a: f32, b: f32, fade: f32) -> f32
    ensures { result ≡ Utils.crossfade a b fade }
{
    utils::crossfade(a, b, fade)
}

#[unsafe(no_mangle)]
pub extern "C" fn bechullpi_utils_soft_limit(x: f32) -> f32
    ensures { result ≡ Utils.soft_limit x }
{
    utils::soft_limit(x)
}

#[unsafe(no_mangle)]
pub extern "C" fn bechullpi_utils_soft_clip(x: f32) -> f32
    ensures { result ≡ Utils.soft_clip x }
{
    utils::soft_clip(x)
}

#[unsafe(no_mangle)]
pub extern "C" fn bechullpi_utils_sqrt(x: f32) -> f32
    ensures { result ≡ Utils.sqrt x }
{
    utils::sqrt(x)
}
