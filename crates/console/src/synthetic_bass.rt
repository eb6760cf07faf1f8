// The click and the hiss of the synthetic bass drum, each by itself, and both over a block.
ghost use Rattle.std.specs.Prelude.{◌≡◌};
ghost use Rattle.refusal.specs.Refusal.{call_number, call_voice};
ghost use Rattle.synthetic_bass_drum.specs.Click as Click;
ghost use Rattle.synthetic_bass_drum.specs.AttackNoise as AttackNoise;
ghost use Rattle.synthetic_bass_drum.specs.Transient as Transient;

use refusal::{Refused, number_and_voice};
use synthetic_bass_drum::{
    SyntheticBassDrumAttackNoise, SyntheticBassDrumAttackNoiseOutput, SyntheticBassDrumClick,
    SyntheticBassDrumClickOutput, SyntheticBassDrumTransient,
};

// The number of the refusal, 0 for an accepted call, and the click after the call.
#[repr(C)]
#[derive(Clone, Copy)]
pub struct SyntheticBassDrumClickAnswered {
    pub number: u32,
    pub click: SyntheticBassDrumClick,
}

impl From<Result<SyntheticBassDrumClick, Refused<SyntheticBassDrumClick>>>
    for SyntheticBassDrumClickAnswered {
    ghost from_gives = { λ r a. (a.number ≡ call_number r) × (a.click ≡ call_voice r) };

    fn from(answer: Result<SyntheticBassDrumClick, Refused<SyntheticBassDrumClick>>) -> Self {
        let (number, click) = number_and_voice(answer);
        SyntheticBassDrumClickAnswered { number, click }
    }
}

// The number of the refusal, 0 for an accepted call, and the transient after the call.
#[repr(C)]
#[derive(Clone, Copy)]
pub struct SyntheticBassDrumTransientAnswered {
    pub number: u32,
    pub transient: SyntheticBassDrumTransient,
}

impl From<Result<SyntheticBassDrumTransient, Refused<SyntheticBassDrumTransient>>>
    for SyntheticBassDrumTransientAnswered {
    ghost from_gives = { λ r a. (a.number ≡ call_number r) × (a.transient ≡ call_voice r) };

    fn from(
        answer: Result<SyntheticBassDrumTransient, Refused<SyntheticBassDrumTransient>>,
    ) -> Self {
        let (number, transient) = number_and_voice(answer);
        SyntheticBassDrumTransientAnswered { number, transient }
    }
}

// Every field zero, for `init` to overwrite.
#[unsafe(no_mangle)]
pub extern "C" fn bechullpi_synthetic_bass_drum_click_zero() -> SyntheticBassDrumClick
    ensures { result ≡ Click.ZERO }
{
    SyntheticBassDrumClick::ZERO
}

// Refused by 1.
#[unsafe(no_mangle)]
pub extern "C" fn bechullpi_synthetic_bass_drum_click_init(
    click: SyntheticBassDrumClick,
    sample_rate_hz: f32,
) -> SyntheticBassDrumClickAnswered
    ensures number { result.number ≡ (Click.init click sample_rate_hz).number }
    ensures click { result.click ≡ (Click.init click sample_rate_hz).state }
{
    click.init(sample_rate_hz).into()
}

// One sample. The click is what a rise of `in` from 0.0 to 1.0 gives.
#[unsafe(no_mangle)]
pub extern "C" fn bechullpi_synthetic_bass_drum_click_process(
    click: SyntheticBassDrumClick,
    in_: f32,
) -> SyntheticBassDrumClickOutput
    ensures { result ≡ Click.process click in_ }
{
    click.process(in_)
}

#[unsafe(no_mangle)]
pub extern "C" fn bechullpi_synthetic_bass_drum_attack_noise_zero() -> SyntheticBassDrumAttackNoise
    ensures { result ≡ AttackNoise.init }
{
    SyntheticBassDrumAttackNoise::ZERO
}

#[unsafe(no_mangle)]
pub extern "C" fn bechullpi_synthetic_bass_drum_attack_noise_init(
    attack_noise: SyntheticBassDrumAttackNoise,
) -> SyntheticBassDrumAttackNoise
    ensures { result ≡ AttackNoise.init }
{
    attack_noise.init()
}

// One sample. The noise state goes in and comes back; 33 is the one to begin with.
#[unsafe(no_mangle)]
pub extern "C" fn bechullpi_synthetic_bass_drum_attack_noise_render(
    attack_noise: SyntheticBassDrumAttackNoise,
    noise: u32,
) -> SyntheticBassDrumAttackNoiseOutput
    ensures { result ≡ AttackNoise.render attack_noise noise }
{
    attack_noise.render(noise)
}

// Every field zero, for `init` to overwrite.
#[unsafe(no_mangle)]
pub extern "C" fn bechullpi_synthetic_bass_drum_transient_zero() -> SyntheticBassDrumTransient
    ensures { result ≡ Transient.ZERO }
{
    SyntheticBassDrumTransient::ZERO
}

// Both parts, and the noise state at 33. Refused by 1.
#[unsafe(no_mangle)]
pub extern "C" fn bechullpi_synthetic_bass_drum_transient_init(
    transient: SyntheticBassDrumTransient,
    sample_rate_hz: f32,
) -> SyntheticBassDrumTransientAnswered
    ensures number { result.number ≡ (Transient.init transient sample_rate_hz).number }
    ensures transient { result.transient ≡ (Transient.init transient sample_rate_hz).state }
{
    transient.init(sample_rate_hz).into()
}

// Renders a block, click plus hiss: the click is fed 0.0 for its first n samples and 1.0 afterwards. Refused by 2.
#[unsafe(no_mangle)]
pub extern "C" fn bechullpi_synthetic_bass_drum_transient_render(
    transient: SyntheticBassDrumTransient,
    n: usize,
    out: &mut [f32],
) -> SyntheticBassDrumTransientAnswered
    ensures number { result.number ≡ (Transient.render transient n out.old).number }
    ensures transient { result.transient ≡ (Transient.render transient n out.old).state }
    ensures out { out.new ≡ (Transient.render transient n out.old).out }
{
    transient.render(n, out).into()
}
