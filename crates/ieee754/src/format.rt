// The binary formats of IEEE 754-2019, `f32` and `f64`, by those of the standard's operations from
// which the ones on either format are made.
ghost use Rattle.std.specs.Prelude.{◌≡◌, Float};
ghost use Rattle.std.specs.Float as Logic;
ghost use Rattle.std.specs.Float.{binary32, binary64};
ghost use Rattle.std.specs.Float.Ieee.{lt, eq, is_nan, add};
ghost use Rattle.ieee754.specs.Operations as Operations;

// A format's values, by the standard's operations on them. Not by `PartialOrd` and `Add`: on a type parameter `x < y` is `partial_cmp`
// and a test of what that gives, and it would take laws beside `value` to say what these clauses say.
pub trait Format: Copy {
    // Which format it is, and the value that `self` is.
    ghost format: { Logic.Format };

    ghost value: { Self → Float };

    // 5.6.1, compareQuietLess.
    fn is_less(self, y: Self) -> bool
        ensures { result ≡ lt (value self) (value y) };

    // 5.6.1, compareQuietEqual: the two zeros are equal.
    fn is_equal(self, y: Self) -> bool
        ensures { result ≡ eq (value self) (value y) };

    // 5.7.2, isNaN.
    fn is_nan(self) -> bool
        ensures { result ≡ is_nan (value self) };

    // 5.7.2, isSignMinus, for a number; here it is false for a NaN.
    fn is_sign_minus(self) -> bool
        ensures { result ≡ Operations.is_sign_minus (value self) };

    // 5.5.1, abs: `self` with a positive sign.
    fn abs(self) -> Self
        ensures { value result ≡ Operations.abs (value self) };

    // 5.4.1, addition.
    fn plus(self, y: Self) -> Self
        ensures { value result ≡ add format (value self) (value y) };
}

impl Format for f32 {
    ghost format = { binary32 };

    ghost value = { λ x. x };

    fn is_less(self, y: f32) -> bool {
        self < y
    }

    fn is_equal(self, y: f32) -> bool {
        self == y
    }

    fn is_nan(self) -> bool {
        f32::is_nan(self)
    }

    #[tactic(auto, using(crate::proofs::Fields::nan_sign, crate::proofs::Fields::number_sign))]
    fn is_sign_minus(self) -> bool {
        !f32::is_nan(self) && f32::is_sign_negative(self)
    }

    fn abs(self) -> f32 {
        if f32::is_nan(self) {
            self
        } else {
            f32::from_bits(self.to_bits() & 0x7fff_ffff)
        }
    }

    fn plus(self, y: f32) -> f32 {
        self + y
    }
}

impl Format for f64 {
    ghost format = { binary64 };

    ghost value = { λ x. x };

    fn is_less(self, y: f64) -> bool {
        self < y
    }

    fn is_equal(self, y: f64) -> bool {
        self == y
    }

    fn is_nan(self) -> bool {
        f64::is_nan(self)
    }

    #[tactic(auto, using(crate::proofs::Fields::nan_sign, crate::proofs::Fields::number_sign))]
    fn is_sign_minus(self) -> bool {
        !f64::is_nan(self) && f64::is_sign_negative(self)
    }

    fn abs(self) -> f64 {
        if f64::is_nan(self) {
            self
        } else {
            f64::from_bits(self.to_bits() & 0x7fff_ffff_ffff_ffff)
        }
    }

    fn plus(self, y: f64) -> f64 {
        self + y
    }
}
