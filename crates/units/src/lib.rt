// utils/units.rs: pitches in semitones as ratios of frequencies.
#![tactic(auto)]

ghost use Rattle.std.specs.Prelude.{◌≡◌};
ghost use Rattle.units.specs.Units as spec;
ghost use Rattle.units.specs.Accuracy.{InTables, Accurate};

mod tables; // LUT_PITCH_RATIO_HIGH and LUT_PITCH_RATIO_LOW

use tables::ratio_at;

// The ratio 2^(semitones / 12), the pitch cut to a 256th of a semitone: whole semitones by one table, 256ths by the other.
// `pitch` counts from the first entry, at -128 semitones; below 256 it has a place in both tables, and from there on the ratio
// is held at their last entries. One that is negative, or not a number, reads the first entry of each.
pub fn semitones_to_ratio(semitones: f32) -> f32
    ensures value { result ≡ spec.ratio semitones }
    ensures accurate { InTables (spec.pitch_of semitones) → Accurate semitones result }
{
    let pitch = semitones + 128.0;
    if pitch >= 256.0 {
        return ratio_at(255, 255);
    }
    let pitch_integral = ieee754::truncate_usize(pitch);
    // The Rust takes the step from the fraction of `pitch`. 256 * pitch is exact, so its remainder is the
    // same. `pitch_integral` is not taken from it too: the compiler then makes jumps of a table.
    let step = ieee754::truncate_usize(pitch * 256.0) % 256;
    ratio_at(pitch_integral as u8, step as u8)
}
