// Six square waves whose phases of 32 bits run round on purpose: the metallic noise of the hi-hat.
ghost use Rattle.std.specs.Prelude.{◌≡◌, ◌/◌, ◌^◌, ◌<◌, length};
ghost use Rattle.block.specs.Block.{samples, after};
ghost use Rattle.hihat.specs.SquareNoise as spec;

use block::Turn;

// The Rust's `ratios`.
const RATIOS: [f32; 6] = [1.0, 1.304, 1.466, 1.787, 1.932, 2.536];

#[repr(C)]
#[derive(Clone, Copy)]
pub struct SquareNoise {
    pub phase: [u32; 6],
}

impl SquareNoise {
    // Every field zero, for `init` to overwrite. (No `Default`: the scope leaves it out.)
    pub const ZERO: SquareNoise = SquareNoise { phase: [0; 6] };

    pub fn init(self) -> Self
        ensures { result ≡ spec.init }
    {
        SquareNoise::ZERO
    }

    // Any f0 and any length: there is nothing to refuse.
    pub fn render(self, f0: f32, out: &mut [f32]) -> Self
        ensures noise { result ≡ after (spec.turn (spec.increments f0)) (length out.old) self }
        ensures out { out.new ≡ samples (spec.turn (spec.increments f0)) (length out.old) self }
    {
        let increment = increments(f0);
        block::pass(self, out, |noise, _| noise.turn(increment))
    }

    // One turn of the loop.
    pub(crate) fn turn(self, increment: [u32; 6]) -> Turn<Self>
        ensures { result ≡ spec.turn increment self }
    {
        let noise = self.advanced(increment);
        Turn {
            sample: noise.level(),
            next: noise,
        }
    }

    fn advanced(self, increment: [u32; 6]) -> Self
        ensures { result ≡ (spec.turn increment self).next }
    {
        let phase = std::array::from_fn(|k: usize| self.phase[k].wrapping_add(increment[k]));
        SquareNoise { phase }
    }

    // The sample, by how many phases have bit 31 set. Not the product over `ieee754::nearest_f32`: with it the hi-hat takes 109 instructions a sample, and not 99.
    fn level(self) -> f32
        ensures { result ≡ spec.level self.phase }
    {
        match count_high(self.phase) {
            0 => 0.33 * (0.0 - 1.0),
            1 => 0.33 * (1.0 - 1.0),
            2 => 0.33 * (2.0 - 1.0),
            3 => 0.33 * (3.0 - 1.0),
            4 => 0.33 * (4.0 - 1.0),
            5 => 0.33 * (5.0 - 1.0),
            _ => 0.33 * (6.0 - 1.0),
        }
    }
}

pub(crate) fn increments(f0: f32) -> [u32; 6]
    ensures { result ≡ spec.increments f0 }
{
    RATIOS.map(|ratio| increment_at(f0, ratio))
}

fn increment_at(f0: f32, ratio: f32) -> u32
    ensures { result ≡ spec.increment f0 ratio }
{
    let f = f0 * ratio;
    if f >= 0.499 {
        return ieee754::truncate_u32(0.499 * 4294967296.0);
    }
    ieee754::truncate_u32(f * 4294967296.0)
}

// How many phases have bit 31 set.
fn count_high(phase: [u32; 6]) -> u32
    ensures value { result ≡ spec.count_high phase }
    ensures upper_bound { result < 7 }
{
    let mut noise = 0;
    for p in &phase {
        noise += *p >> 31;
    }
    noise
}
