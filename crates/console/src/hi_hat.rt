// The 808 hi-hat, and the square noise by itself.
ghost use Rattle.std.specs.Prelude.{◌≡◌, length};
ghost use Rattle.block.specs.Block.{samples, after};
ghost use Rattle.refusal.specs.Refusal.{call_number, call_voice};
ghost use Rattle.hihat.specs.SquareNoise as square;
ghost use Rattle.hihat.specs.Hihat as spec;
ghost use Rattle.console.specs.Enums.{vca_type};

use crate::enums;
use hihat::{Hihat, Knobs, SquareNoise};
use refusal::{Refused, number_and_voice};

// The number of the refusal, 0 for an accepted call, and the voice after the call.
#[repr(C)]
#[derive(Clone, Copy)]
pub struct HihatAnswered {
    pub number: u32,
    pub voice: Hihat,
}

impl From<Result<Hihat, Refused<Hihat>>> for HihatAnswered {
    ghost from_gives = { λ r a. (a.number ≡ call_number r) × (a.voice ≡ call_voice r) };

    fn from(answer: Result<Hihat, Refused<Hihat>>) -> Self {
        let (number, voice) = number_and_voice(answer);
        HihatAnswered { number, voice }
    }
}

// Every field zero, for `init` to overwrite.
#[unsafe(no_mangle)]
pub extern "C" fn bechullpi_hihat_zero() -> Hihat
    ensures { result ≡ spec.ZERO }
{
    Hihat::ZERO
}

// Refused by 1.
#[unsafe(no_mangle)]
pub extern "C" fn bechullpi_hihat_init(voice: Hihat, sample_rate: f32) -> HihatAnswered
    ensures number { result.number ≡ (spec.init voice sample_rate).number }
    ensures voice { result.voice ≡ (spec.init voice sample_rate).state }
{
    voice.init(sample_rate).into()
}

// Begins a sound: it renders no sample, sets no filter and draws no noise. Refused by 1, of the rate that the voice stores, 4 and 5.
#[unsafe(no_mangle)]
pub extern "C" fn bechullpi_hihat_strike(voice: Hihat, accent: f32, decay: f32) -> HihatAnswered
    ensures number { result.number ≡ (spec.strike voice accent decay).number }
    ensures voice { result.voice ≡ (spec.strike voice accent decay).state }
{
    voice.strike(accent, decay).into()
}

// Renders a block of it. The VCA is the swing one unless `linear` is set. Refused by 1, of the rate that the voice stores, 2, 3, 4 and 5.
#[unsafe(no_mangle)]
pub extern "C" fn bechullpi_hihat_run(
    voice: Hihat,
    linear: bool,
    knobs: Knobs,
    out: &mut [f32],
) -> HihatAnswered
    ensures number { result.number ≡ (spec.run voice (vca_type linear) knobs out.old).number }
    ensures voice { result.voice ≡ (spec.run voice (vca_type linear) knobs out.old).state }
    ensures out { out.new ≡ (spec.run voice (vca_type linear) knobs out.old).out }
{
    voice.run(enums::vca_type(linear), knobs, out).into()
}

#[unsafe(no_mangle)]
pub extern "C" fn bechullpi_hihat_square_noise_zero() -> SquareNoise
    ensures { result ≡ square.init }
{
    SquareNoise::ZERO
}

#[unsafe(no_mangle)]
pub extern "C" fn bechullpi_hihat_square_noise_init(noise: SquareNoise) -> SquareNoise
    ensures { result ≡ square.init }
{
    noise.init()
}

// Any f0 and any length: nothing is refused.
#[unsafe(no_mangle)]
pub extern "C" fn bechullpi_hihat_square_noise_render(
    noise: SquareNoise,
    f0: f32,
    out: &mut [f32],
) -> SquareNoise
    ensures noise { result ≡ after (square.turn (square.increments f0)) (length out.old) noise }
    ensures out { out.new ≡ samples (square.turn (square.increments f0)) (length out.old) noise }
{
    noise.render(f0, out)
}
