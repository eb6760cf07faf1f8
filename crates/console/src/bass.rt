// The 808 bass drum.
ghost use Rattle.std.specs.Prelude.{◌≡◌};
ghost use Rattle.refusal.specs.Refusal.{call_number, call_voice};
ghost use Rattle.analog_bass_drum.specs.AnalogBassDrum as spec;

use analog_bass_drum::{AnalogBassDrum, Knobs};
use refusal::{Refused, number_and_voice};

// The number of the refusal, 0 for an accepted call, and the voice after the call.
#[repr(C)]
#[derive(Clone, Copy)]
pub struct AnalogBassDrumAnswered {
    pub number: u32,
    pub voice: AnalogBassDrum,
}

impl From<Result<AnalogBassDrum, Refused<AnalogBassDrum>>> for AnalogBassDrumAnswered {
    ghost from_gives = { λ r a. (a.number ≡ call_number r) × (a.voice ≡ call_voice r) };

    fn from(answer: Result<AnalogBassDrum, Refused<AnalogBassDrum>>) -> Self {
        let (number, voice) = number_and_voice(answer);
        AnalogBassDrumAnswered { number, voice }
    }
}

// Every field zero, for `init` to overwrite.
#[unsafe(no_mangle)]
pub extern "C" fn bechullpi_analog_bass_drum_zero() -> AnalogBassDrum
    ensures { result ≡ spec.ZERO }
{
    AnalogBassDrum::ZERO
}

// Refused by 1.
#[unsafe(no_mangle)]
pub extern "C" fn bechullpi_analog_bass_drum_init(
    voice: AnalogBassDrum,
    sample_rate_hz: f32,
) -> AnalogBassDrumAnswered
    ensures number { result.number ≡ (spec.init voice sample_rate_hz).number }
    ensures voice { result.voice ≡ (spec.init voice sample_rate_hz).state }
{
    voice.init(sample_rate_hz).into()
}

// Begins a sound: it renders no sample, sets no filter and draws no noise. Refused by 4.
#[unsafe(no_mangle)]
pub extern "C" fn bechullpi_analog_bass_drum_strike(
    voice: AnalogBassDrum,
    accent: f32,
) -> AnalogBassDrumAnswered
    ensures number { result.number ≡ (spec.strike voice accent).number }
    ensures voice { result.voice ≡ (spec.strike voice accent).state }
{
    voice.strike(accent).into()
}

// Renders a block of it. Refused by 2, 3 and 5.
#[unsafe(no_mangle)]
pub extern "C" fn bechullpi_analog_bass_drum_run(
    voice: AnalogBassDrum,
    knobs: Knobs,
    out: &mut [f32],
) -> AnalogBassDrumAnswered
    ensures number { result.number ≡ (spec.run voice knobs out.old).number }
    ensures voice { result.voice ≡ (spec.run voice knobs out.old).state }
    ensures out { out.new ≡ (spec.run voice knobs out.old).out }
{
    voice.run(knobs, out).into()
}
