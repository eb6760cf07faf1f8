// The minimum and maximum operations of IEEE 754-2019, 9.6, in single and in double precision. Which pattern of a NaN comes back is left open.
ghost use Rattle.std.specs.Prelude.{◌≡◌, ◌&&◌, ◌||◌};
ghost use Rattle.std.specs.Float.{binary32, binary64};
ghost use Rattle.std.specs.Float.Ieee.{is_nan};
ghost use Rattle.ieee754.specs.Operations as Operations;
ghost use Rattle.ieee754.specs.Operations.{NanWhere};

// The smaller of two numbers, -0.0 below 0.0. A NaN if either operand is one.
#[unsafe(no_mangle)]
pub extern "C" fn bechullpi_ieee754_minimum(x: f32, y: f32) -> f32
    ensures value { result ≡ Operations.minimum x y }
    ensures nan_where { NanWhere binary32 (is_nan x || is_nan y) result }
{
    ieee754::minimum(x, y)
}

// The smaller of two numbers, -0.0 below 0.0. The number if one operand is a NaN, a NaN if both are.
#[unsafe(no_mangle)]
pub extern "C" fn bechullpi_ieee754_minimum_number(x: f32, y: f32) -> f32
    ensures value { result ≡ Operations.minimum_number x y }
    ensures nan_where { NanWhere binary32 (is_nan x && is_nan y) result }
{
    ieee754::minimum_number(x, y)
}

// The larger of two numbers, 0.0 above -0.0. A NaN if either operand is one.
#[unsafe(no_mangle)]
pub extern "C" fn bechullpi_ieee754_maximum(x: f32, y: f32) -> f32
    ensures value { result ≡ Operations.maximum x y }
    ensures nan_where { NanWhere binary32 (is_nan x || is_nan y) result }
{
    ieee754::maximum(x, y)
}

// The larger of two numbers, 0.0 above -0.0. The number if one operand is a NaN, a NaN if both are.
#[unsafe(no_mangle)]
pub extern "C" fn bechullpi_ieee754_maximum_number(x: f32, y: f32) -> f32
    ensures value { result ≡ Operations.maximum_number x y }
    ensures nan_where { NanWhere binary32 (is_nan x && is_nan y) result }
{
    ieee754::maximum_number(x, y)
}

// The operand of smaller magnitude; `minimum` where the magnitudes are equal or an operand is a NaN.
#[unsafe(no_mangle)]
pub extern "C" fn bechullpi_ieee754_minimum_magnitude(x: f32, y: f32) -> f32
    ensures value { result ≡ Operations.minimum_magnitude x y }
    ensures nan_where { NanWhere binary32 (is_nan x || is_nan y) result }
{
    ieee754::minimum_magnitude(x, y)
}

// The operand of smaller magnitude; `minimum_number` where the magnitudes are equal or an operand is a NaN.
#[unsafe(no_mangle)]
pub extern "C" fn bechullpi_ieee754_minimum_magnitude_number(x: f32, y: f32) -> f32
    ensures value { result ≡ Operations.minimum_magnitude_number x y }
    ensures nan_where { NanWhere binary32 (is_nan x && is_nan y) result }
{
    ieee754::minimum_magnitude_number(x, y)
}

// The operand of larger magnitude; `maximum` where the magnitudes are equal or an operand is a NaN.
#[unsafe(no_mangle)]
pub extern "C" fn bechullpi_ieee754_maximum_magnitude(x: f32, y: f32) -> f32
    ensures value { result ≡ Operations.maximum_magnitude x y }
    ensures nan_where { NanWhere binary32 (is_nan x || is_nan y) result }
{
    ieee754::maximum_magnitude(x, y)
}

// The operand of larger magnitude; `maximum_number` where the magnitudes are equal or an operand is a NaN.
#[unsafe(no_mangle)]
pub extern "C" fn bechullpi_ieee754_maximum_magnitude_number(x: f32, y: f32) -> f32
    ensures value { result ≡ Operations.maximum_magnitude_number x y }
    ensures nan_where { NanWhere binary32 (is_nan x && is_nan y) result }
{
    ieee754::maximum_magnitude_number(x, y)
}

// The same in double precision, and so the next seven.
#[unsafe(no_mangle)]
pub extern "C" fn bechullpi_ieee754_minimum_f64(x: f64, y: f64) -> f64
    ensures value { result ≡ Operations.minimum x y }
    ensures nan_where { NanWhere binary64 (is_nan x || is_nan y) result }
{
    ieee754::minimum(x, y)
}

#[unsafe(no_mangle)]
pub extern "C" fn bechullpi_ieee754_minimum_number_f64(x: f64, y: f64) -> f64
    ensures value { result ≡ Operations.minimum_number x y }
    ensures nan_where { NanWhere binary64 (is_nan x && is_nan y) result }
{
    ieee754::minimum_number(x, y)
}

#[unsafe(no_mangle)]
pub extern "C" fn bechullpi_ieee754_maximum_f64(x: f64, y: f64) -> f64
    ensures value { result ≡ Operations.maximum x y }
    ensures nan_where { NanWhere binary64 (is_nan x || is_nan y) result }
{
    ieee754::maximum(x, y)
}

#[unsafe(no_mangle)]
pub extern "C" fn bechullpi_ieee754_maximum_number_f64(x: f64, y: f64) -> f64
    ensures value { result ≡ Operations.maximum_number x y }
    ensures nan_where { NanWhere binary64 (is_nan x && is_nan y) result }
{
    ieee754::maximum_number(x, y)
}

#[unsafe(no_mangle)]
pub extern "C" fn bechullpi_ieee754_minimum_magnitude_f64(x: f64, y: f64) -> f64
    ensures value { result ≡ Operations.minimum_magnitude x y }
    ensures nan_where { NanWhere binary64 (is_nan x || is_nan y) result }
{
    ieee754::minimum_magnitude(x, y)
}

#[unsafe(no_mangle)]
pub extern "C" fn bechullpi_ieee754_minimum_magnitude_number_f64(x: f64, y: f64) -> f64
    ensures value { result ≡ Operations.minimum_magnitude_number x y }
    ensures nan_where { NanWhere binary64 (is_nan x && is_nan y) result }
{
    ieee754::minimum_magnitude_number(x, y)
}

#[unsafe(no_mangle)]
pub extern "C" fn bechullpi_ieee754_maximum_magnitude_f64(x: f64, y: f64) -> f64
    ensures value { result ≡ Operations.maximum_magnitude x y }
    ensures nan_where { NanWhere binary64 (is_nan x || is_nan y) result }
{
    ieee754::maximum_magnitude(x, y)
}

#[unsafe(no_mangle)]
pub extern "C" fn bechullpi_ieee754_maximum_magnitude_number_f64(x: f64, y: f64) -> f64
    ensures value { result ≡ Operations.maximum_magnitude_number x y }
    ensures nan_where { NanWhere binary64 (is_nan x && is_nan y) result }
{
    ieee754::maximum_magnitude_number(x, y)
}
