// utils/mod.rs: small functions that the filters and the voices share. What the Rust changes through `&mut f32` goes in and comes back.
#![tactic(auto)]

ghost use Rattle.std.specs.Prelude.{◌≡◌};
ghost use Rattle.utils.specs.Utils as spec;

pub fn one_pole(out: f32, in_: f32, coefficient: f32) -> f32
    ensures { result ≡ spec.one_pole out in_ coefficient }
{
    out + coefficient * (in_ - out)
}

pub fn slope(out: f32, in_: f32, positive: f32, negative: f32) -> f32
    ensures { result ≡ spec.slope out in_ positive negative }
{
    let error = in_ - out;
    if error > 0.0 {
        out + positive
    } else {
        out + negative * error
    }
}

pub fn crossfade(a: f32, b: f32, fade: f32) -> f32
    ensures { result ≡ spec.crossfade a b fade }
{
    a + (b - a) * fade
}

pub fn soft_limit(x: f32) -> f32
    ensures { result ≡ spec.soft_limit x }
{
    x * (27.0 + x * x) / (27.0 + 9.0 * x * x)
}

pub fn soft_clip(x: f32) -> f32
    ensures { result ≡ spec.soft_clip x }
{
    if x < -3.0 {
        -1.0
    } else if x > 3.0 {
        1.0
    } else {
        soft_limit(x)
    }
}

pub fn sqrt(x: f32) -> f32
    ensures { result ≡ spec.sqrt x }
{
    ieee754::sqrt(x)
}
