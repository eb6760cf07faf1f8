// Sameness, the sign cleared, and a value held between bounds.
ghost use Rattle.std.specs.Prelude.{◌≡◌, ◌↔◌, IsTrue};
ghost use Rattle.ieee754.specs.Operations as Operations;

use crate::format::Format;
use crate::pattern::to_bits;

// Whether x and y are one value: -0.0 is not 0.0 here, and a not-a-number is a not-a-number.
pub fn is_same(x: f32, y: f32) -> bool
    ensures { IsTrue result ↔ (x ≡ y) }
{
    to_bits(x) == to_bits(y)
}

// x with a positive sign.
pub fn abs<F: Format>(x: F) -> F
    ensures { F.value result ≡ Operations.abs (F.value x) }
{
    x.abs()
}

// Rust's `f32::clamp`, with a result for any bounds.
#[tactic(auto, unfolding(crate::specs::Operations::clamp))]
pub fn clamp(x: f32, lo: f32, hi: f32) -> f32
    ensures { result ≡ Operations.clamp x lo hi }
{
    let y = if x < lo { lo } else { x };
    if y > hi { hi } else { y }
}
