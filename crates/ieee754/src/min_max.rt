// The minimum and maximum operations of IEEE 754-2019, 9.6, on either format. A NaN that comes back is a
// quiet one, as 6.2 has it. No contract sees that: the logic has one NaN, and its pattern is open.
ghost use Rattle.std.specs.Prelude.{◌≡◌, ◌&&◌, ◌||◌};
ghost use Rattle.std.specs.Float.Ieee.{is_nan};
ghost use Rattle.ieee754.specs.Operations as Operations;
ghost use Rattle.ieee754.specs.Operations.{choose, NanWhere};
ghost use Rattle.ieee754.specs.Choosing.{Tests, Computes};

use crate::format::Format;

// Whether x is below y, where -0.0 is below 0.0.
#[tactic(auto, unfolding(crate::specs::Operations::precedes))]
fn precedes<F: Format>(x: F, y: F) -> bool
    ensures { result ≡ Operations.precedes (F.value x) (F.value y) }
{
    x.is_less(y) || (x.is_equal(y) && (x.is_sign_minus() && !y.is_sign_minus()))
}

// Whether x is above y.
fn follows<F: Format>(x: F, y: F) -> bool
    ensures { result ≡ Operations.follows (F.value x) (F.value y) }
{
    precedes(y, x)
}

// Whether x has the smaller magnitude.
#[tactic(auto, unfolding(crate::specs::Operations::smaller_magnitude))]
fn smaller_magnitude<F: Format>(x: F, y: F) -> bool
    ensures { result ≡ Operations.smaller_magnitude (F.value x) (F.value y) }
{
    x.abs().is_less(y.abs())
}

// Whether x has the larger magnitude.
fn larger_magnitude<F: Format>(x: F, y: F) -> bool
    ensures { result ≡ Operations.larger_magnitude (F.value x) (F.value y) }
{
    smaller_magnitude(y, x)
}

// x; where it is a signaling NaN, a quiet one, which a sum makes of it.
#[tactic(auto, using(crate::proofs::Choice::nan_sum))]
fn quiet<F: Format>(x: F) -> F
    ensures { F.value result ≡ F.value x }
{
    if x.is_nan() { x.plus(x) } else { x }
}

// What is left: a NaN, if an operand is one.
#[tactic(auto, using(crate::proofs::Choice::either_by))]
fn either_nan<F: Format>(x: F, y: F) -> F
    ensures { F.value result ≡ Operations.either_nan (F.value x) (F.value y) }
{
    if x.is_nan() { quiet(x) } else { quiet(y) }
}

// What is left: the number, if the other operand is a NaN.
#[tactic(auto, using(crate::proofs::Choice::number_by))]
fn the_number<F: Format>(x: F, y: F) -> F
    ensures { F.value result ≡ Operations.the_number (F.value x) (F.value y) }
{
    if y.is_nan() { quiet(x) } else { y }
}

// x if it comes first, y if that does, and otherwise what is left: the sentence of each of the eight, as in
// `Operations`. A NaN comes before nothing, so only what is left has to look for one.
#[tactic(auto, unfolding(crate::specs::Operations::choose))]
fn choose<F: Format, B: Fn(F, F) -> bool, R: Fn(F, F) -> F>(
    before: B,
    otherwise: R,
    x: F,
    y: F,
) -> F
    requires before { B.IsAlwaysCallable before }
    requires otherwise { R.IsAlwaysCallable otherwise }
    ensures { (order : _) (rest : _) → Tests F.value (B.post before) order → Computes F.value (R.post otherwise) rest
        → F.value result ≡ choose order rest (F.value x) (F.value y) }
{
    if before(x, y) {
        x
    } else if before(y, x) {
        y
    } else {
        otherwise(x, y)
    }
}

// The smaller of two numbers, -0.0 below 0.0. A NaN if either operand is one.
#[tactic(auto, using(crate::proofs::Choice::nans), unfolding(crate::specs::Operations::minimum))]
pub fn minimum<F: Format>(x: F, y: F) -> F
    ensures value { F.value result ≡ Operations.minimum (F.value x) (F.value y) }
    ensures nan_where { NanWhere F.format (is_nan (F.value x) || is_nan (F.value y)) (F.value result) }
{
    choose(precedes, either_nan, x, y)
}

// The smaller of two numbers, -0.0 below 0.0. The number if one operand is a NaN, a NaN if both are.
#[tactic(auto, using(crate::proofs::Choice::nans), unfolding(crate::specs::Operations::minimum_number))]
pub fn minimum_number<F: Format>(x: F, y: F) -> F
    ensures value { F.value result ≡ Operations.minimum_number (F.value x) (F.value y) }
    ensures nan_where { NanWhere F.format (is_nan (F.value x) && is_nan (F.value y)) (F.value result) }
{
    choose(precedes, the_number, x, y)
}

// The larger of two numbers, 0.0 above -0.0. A NaN if either operand is one.
#[tactic(auto, using(crate::proofs::Choice::nans), unfolding(crate::specs::Operations::maximum))]
pub fn maximum<F: Format>(x: F, y: F) -> F
    ensures value { F.value result ≡ Operations.maximum (F.value x) (F.value y) }
    ensures nan_where { NanWhere F.format (is_nan (F.value x) || is_nan (F.value y)) (F.value result) }
{
    choose(follows, either_nan, x, y)
}

// The larger of two numbers, 0.0 above -0.0. The number if one operand is a NaN, a NaN if both are.
#[tactic(auto, using(crate::proofs::Choice::nans), unfolding(crate::specs::Operations::maximum_number))]
pub fn maximum_number<F: Format>(x: F, y: F) -> F
    ensures value { F.value result ≡ Operations.maximum_number (F.value x) (F.value y) }
    ensures nan_where { NanWhere F.format (is_nan (F.value x) && is_nan (F.value y)) (F.value result) }
{
    choose(follows, the_number, x, y)
}

// The operand of smaller magnitude; `minimum` where the magnitudes are equal or an operand is a NaN.
#[tactic(auto, using(crate::proofs::Choice::nans), unfolding(crate::specs::Operations::minimum_magnitude))]
pub fn minimum_magnitude<F: Format>(x: F, y: F) -> F
    ensures value { F.value result ≡ Operations.minimum_magnitude (F.value x) (F.value y) }
    ensures nan_where { NanWhere F.format (is_nan (F.value x) || is_nan (F.value y)) (F.value result) }
{
    choose(smaller_magnitude, minimum, x, y)
}

// The operand of smaller magnitude; `minimum_number` where the magnitudes are equal or an operand is a NaN.
#[tactic(auto, using(crate::proofs::Choice::nans), unfolding(crate::specs::Operations::minimum_magnitude_number))]
pub fn minimum_magnitude_number<F: Format>(x: F, y: F) -> F
    ensures value { F.value result ≡ Operations.minimum_magnitude_number (F.value x) (F.value y) }
    ensures nan_where { NanWhere F.format (is_nan (F.value x) && is_nan (F.value y)) (F.value result) }
{
    choose(smaller_magnitude, minimum_number, x, y)
}

// The operand of larger magnitude; `maximum` where the magnitudes are equal or an operand is a NaN.
#[tactic(auto, using(crate::proofs::Choice::nans), unfolding(crate::specs::Operations::maximum_magnitude))]
pub fn maximum_magnitude<F: Format>(x: F, y: F) -> F
    ensures value { F.value result ≡ Operations.maximum_magnitude (F.value x) (F.value y) }
    ensures nan_where { NanWhere F.format (is_nan (F.value x) || is_nan (F.value y)) (F.value result) }
{
    choose(larger_magnitude, maximum, x, y)
}

// The operand of larger magnitude; `maximum_number` where the magnitudes are equal or an operand is a NaN.
#[tactic(auto, using(crate::proofs::Choice::nans), unfolding(crate::specs::Operations::maximum_magnitude_number))]
pub fn maximum_magnitude_number<F: Format>(x: F, y: F) -> F
    ensures value { F.value result ≡ Operations.maximum_magnitude_number (F.value x) (F.value y) }
    ensures nan_where { NanWhere F.format (is_nan (F.value x) && is_nan (F.value y)) (F.value result) }
{
    choose(larger_magnitude, maximum_number, x, y)
}
