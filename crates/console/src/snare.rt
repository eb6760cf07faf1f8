// The 808 snare drum.
ghost use Rattle.std.specs.Prelude.{◌≡◌};
ghost use Rattle.refusal.specs.Refusal.{call_number, call_voice};
ghost use Rattle.analog_snare_drum.specs.AnalogSnareDrum as spec;

use analog_snare_drum::{AnalogSnareDrum, Knobs};
use refusal::{Refused, number_and_voice};

// The number of the refusal, 0 for an accepted call, and the voice after the call.
#[repr(C)]
#[derive(Clone, Copy)]
pub struct AnalogSnareDrumAnswered {
    pub number: u32,
    pub voice: AnalogSnareDrum,
}

impl From<Result<AnalogSnareDrum, Refused<AnalogSnareDrum>>> for AnalogSnareDrumAnswered {
    ghost from_gives = { λ r a. (a.number ≡ call_number r) × (a.voice ≡ call_voice r) };

    fn from(answer: Result<AnalogSnareDrum, Refused<AnalogSnareDrum>>) -> Self {
        let (number, voice) = number_and_voice(answer);
        AnalogSnareDrumAnswered { number, voice }
    }
}

// Every field zero, for `init` to overwrite.
#[unsafe(no_mangle)]
pub extern "C" fn bechullpi_analog_snare_drum_zero() -> AnalogSnareDrum
    ensures { result ≡ spec.ZERO }
{
    AnalogSnareDrum::ZERO
}

// Refused by 1.
#[unsafe(no_mangle)]
pub extern "C" fn bechullpi_analog_snare_drum_init(
    voice: AnalogSnareDrum,
    sample_rate_hz: f32,
) -> AnalogSnareDrumAnswered
    ensures number { result.number ≡ (spec.init voice sample_rate_hz).number }
    ensures voice { result.voice ≡ (spec.init voice sample_rate_hz).state }
{
    voice.init(sample_rate_hz).into()
}

// Begins a sound: it renders no sample, sets no filter and draws no noise. Refused by 4.
#[unsafe(no_mangle)]
pub extern "C" fn bechullpi_analog_snare_drum_strike(
    voice: AnalogSnareDrum,
    accent: f32,
) -> AnalogSnareDrumAnswered
    ensures number { result.number ≡ (spec.strike voice accent).number }
    ensures voice { result.voice ≡ (spec.strike voice accent).state }
{
    voice.strike(accent).into()
}

// Renders a block of it. Refused by 2, 3 and 5.
#[unsafe(no_mangle)]
pub extern "C" fn bechullpi_analog_snare_drum_run(
    voice: AnalogSnareDrum,
    knobs: Knobs,
    out: &mut [f32],
) -> AnalogSnareDrumAnswered
    ensures number { result.number ≡ (spec.run voice knobs out.old).number }
    ensures voice { result.voice ≡ (spec.run voice knobs out.old).state }
    ensures out { out.new ≡ (spec.run voice knobs out.old).out }
{
    voice.run(knobs, out).into()
}
