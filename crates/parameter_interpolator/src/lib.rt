// utils/parameter_interpolator.rs: a value that slides to a new one over a block, in equal steps.
// The Rust holds a reference and stores the value through it on `Drop`; here the caller takes the value back after the block.
#![tactic(auto)]

ghost use Rattle.std.specs.Prelude.{◌≡◌};
ghost use Rattle.parameter_interpolator.specs.ParameterInterpolator as spec;

#[repr(C)]
#[derive(Clone, Copy)]
pub struct ParameterInterpolator {
    pub value: f32,
    pub increment: f32,
}

impl ParameterInterpolator {
    // With size 0 the increment is infinite or a NaN; an empty block takes no step, so its value stays.
    pub fn new(value: f32, new_value: f32, size: u32) -> Self
        ensures { result ≡ spec.new value new_value size }
    {
        ParameterInterpolator {
            value,
            increment: (new_value - value) / ieee754::nearest_f32(size),
        }
    }

    // One step. What the Rust's `next` returns is the value after it.
    pub fn next(mut self) -> Self
        ensures { result ≡ spec.next self }
    {
        self.value += self.increment;
        self
    }
}
