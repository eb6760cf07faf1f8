// The synthetic snare drum.
ghost use Rattle.std.specs.Prelude.{◌≡◌};
ghost use Rattle.refusal.specs.Refusal.{call_number, call_voice};
ghost use Rattle.synthetic_snare_drum.specs.SyntheticSnareDrum as spec;

use refusal::{Refused, number_and_voice};
use synthetic_snare_drum::{Knobs, SyntheticSnareDrum};

// The number of the refusal, 0 for an accepted call, and the voice after the call.
#[repr(C)]
#[derive(Clone, Copy)]
pub struct SyntheticSnareDrumAnswered {
    pub number: u32,
    pub voice: SyntheticSnareDrum,
}

impl From<Result<SyntheticSnareDrum, Refused<SyntheticSnareDrum>>> for SyntheticSnareDrumAnswered {
    ghost from_gives = { λ r a. (a.number ≡ call_number r) × (a.voice ≡ call_voice r) };

    fn from(answer: Result<SyntheticSnareDrum, Refused<SyntheticSnareDrum>>) -> Self {
        let (number, voice) = number_and_voice(answer);
        SyntheticSnareDrumAnswered { number, voice }
    }
}

// Every field zero, for `init` to overwrite.
#[unsafe(no_mangle)]
pub extern "C" fn bechullpi_synthetic_snare_drum_zero() -> SyntheticSnareDrum
    ensures { result ≡ spec.ZERO }
{
    SyntheticSnareDrum::ZERO
}

// Refused by 1.
#[unsafe(no_mangle)]
pub extern "C" fn bechullpi_synthetic_snare_drum_init(
    voice: SyntheticSnareDrum,
    sample_rate_hz: f32,
) -> SyntheticSnareDrumAnswered
    ensures number { result.number ≡ (spec.init voice sample_rate_hz).number }
    ensures voice { result.voice ≡ (spec.init voice sample_rate_hz).state }
{
    voice.init(sample_rate_hz).into()
}

// Begins a sound: it renders no sample, sets no filter and draws no noise. Refused by 1, of the rate that the voice stores, 4 and 5.
#[unsafe(no_mangle)]
pub extern "C" fn bechullpi_synthetic_snare_drum_strike(
    voice: SyntheticSnareDrum,
    accent: f32,
    decay: f32,
) -> SyntheticSnareDrumAnswered
    ensures number { result.number ≡ (spec.strike voice accent decay).number }
    ensures voice { result.voice ≡ (spec.strike voice accent decay).state }
{
    voice.strike(accent, decay).into()
}

// Renders a block of it. Refused by 1, of the rate that the voice stores, 2, 3, 4 and 5.
#[unsafe(no_mangle)]
pub extern "C" fn bechullpi_synthetic_snare_drum_run(
    voice: SyntheticSnareDrum,
    knobs: Knobs,
    out: &mut [f32],
) -> SyntheticSnareDrumAnswered
    ensures number { result.number ≡ (spec.run voice knobs out.old).number }
    ensures voice { result.voice ≡ (spec.run voice knobs out.old).state }
    ensures out { out.new ≡ (spec.run voice knobs out.old).out }
{
    voice.run(knobs, out).into()
}
