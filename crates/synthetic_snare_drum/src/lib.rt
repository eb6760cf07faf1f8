// drums/synthetic_snare_drum.rs: naive snare drum model, two modulated oscillators and filtered noise, with its sustain mode.
#![tactic(auto)]

ghost use Rattle.std.specs.Prelude.{◌≡◌, cond, ℕ, length, IfOk};
ghost use Rattle.std.specs.Float.Ieee.{lt, neg};
ghost use Rattle.ieee754.specs.Single.{◌⊕◌, ◌⊖◌, decimal};
ghost use Rattle.ieee754.specs.Operations.{abs};
ghost use Rattle.refusal.specs.Refusal.{answer_number, call_number, call_voice};
ghost use Rattle.block.specs.Block.{samples, after};
ghost use Rattle.synthetic_snare_drum.specs.SyntheticSnareDrum as spec;
ghost use Rattle.synthetic_snare_drum.specs.Parts.{enveloped};

use block::Turn;
use filter::{FilterMode, FrequencyApproximation, OnePole, Svf};
use parameter_interpolator::ParameterInterpolator;
use refusal::{
    BlockLength, Refusal, Refused, ask, ask_strike, is_frequency, is_sample_rate, is_unit,
};

#[repr(C)]
#[derive(Clone, Copy)]
pub struct SyntheticSnareDrum {
    pub sample_rate_hz: f32,
    pub phase: [f32; 2],
    pub drum_amplitude: f32,
    pub snare_amplitude: f32,
    pub fm: f32,
    pub sustain_gain: f32,
    pub hold_counter: u32,
    pub drum_lp: OnePole,
    pub snare_hp: OnePole,
    pub snare_lp: Svf,
    pub noise: u32,
}

// The parameters of a block.
#[repr(C)]
#[derive(Clone, Copy)]
pub struct Knobs {
    pub sustain: bool,
    pub accent: f32,
    pub f0: f32,
    pub fm_amount: f32,
    pub decay: f32,
    pub snappy: f32,
}

// What stays the same over a block: fm_amount is squared here, and snappy clamped. `sustain` and its increment are no `Option`: in the Rust a block that
// does not sustain has an interpolator too, and an `Option` would need a definition beside the Rust's: no plainer.
#[derive(Clone, Copy)]
struct Settings {
    sustain: bool,
    f0: f32,
    fm_amount: f32,
    drum_decay: f32,
    snare_decay: f32,
    fm_decay: f32,
    snappy: f32,
    drum_level: f32,
    snare_level: f32,
    increment: f32,
}

impl SyntheticSnareDrum {
    // Every field zero, for `init` to overwrite. (No `Default`: the scope leaves it out.)
    pub const ZERO: SyntheticSnareDrum = SyntheticSnareDrum {
        sample_rate_hz: 0.0,
        phase: [0.0, 0.0],
        drum_amplitude: 0.0,
        snare_amplitude: 0.0,
        fm: 0.0,
        sustain_gain: 0.0,
        hold_counter: 0,
        drum_lp: OnePole::ZERO,
        snare_hp: OnePole::ZERO,
        snare_lp: Svf::ZERO,
        noise: 0,
    };

    pub fn init(self, sample_rate_hz: f32) -> Result<Self, Refused<Self>>
        ensures number { call_number result ≡ (spec.init self sample_rate_hz).number }
        ensures voice { call_voice result ≡ (spec.init self sample_rate_hz).state }
    {
        ask(is_sample_rate(sample_rate_hz), Refusal::SampleRate).map_err(|refusal| refusal.of(
            self,
        ))?;
        Ok(self.initialized(sample_rate_hz))
    }

    // The noise state is the one that the Rust's begins with, 0x21.
    fn initialized(self, sample_rate_hz: f32) -> Self
        ensures { result ≡ spec.initialized self sample_rate_hz }
    {
        let drum_lp = self.drum_lp.init();
        let snare_hp = self.snare_hp.init();
        let snare_lp = self.snare_lp.init();
        SyntheticSnareDrum {
            sample_rate_hz,
            drum_lp,
            snare_hp,
            snare_lp,
            noise: 33,
            ..SyntheticSnareDrum::ZERO
        }
    }

    // What the Rust's `render` does where its trigger is set, and nothing else.
    // A sheet calls it too; without the hint the compiler then leaves it out of line for C (docs/DECISIONS.md).
    #[inline]
    pub fn strike(self, accent: f32, decay: f32) -> Result<Self, Refused<Self>>
        ensures number { call_number result ≡ (spec.strike self accent decay).number }
        ensures voice { call_voice result ≡ (spec.strike self accent decay).state }
    {
        ask_strike(self.sample_rate_hz, accent, decay).map_err(|refusal| refusal.of(self))?;
        Ok(self.triggered(accent, decay))
    }

    // The Rust's `render` where its trigger is not set. accent stays a knob: a sustained block goes to accent times decay.
    pub fn run(self, knobs: Knobs, out: &mut [f32]) -> Result<Self, Refused<Self>>
        ensures number { call_number result ≡ (spec.run self knobs out.old).number }
        ensures voice { call_voice result ≡ (spec.run self knobs out.old).state }
        ensures out { out.new ≡ (spec.run self knobs out.old).out }
    {
        let length = knobs
            .asked(self.sample_rate_hz, out.len())
            .map_err(|refusal| refusal.of(self))?;
        let settings = knobs.settings(self, length);
        Ok(self.tuned(settings).fill(settings, out))
    }

    // The filters at the block's frequencies.
    fn tuned(self, settings: Settings) -> Self
        ensures { result ≡ spec.tuned self settings }
    {
        let snare_f_min = ieee754::minimum_number(10.0 * settings.f0, 0.5);
        let snare_f_max = ieee754::minimum_number(35.0 * settings.f0, 0.5);
        let snare_hp = self
            .snare_hp
            .set_f(snare_f_min, FrequencyApproximation::Fast);
        let snare_lp = self.snare_lp.set_f_q(
            snare_f_max,
            0.5 + 2.0 * settings.snappy,
            FrequencyApproximation::Fast,
        );
        let drum_lp = self
            .drum_lp
            .set_f(3.0 * settings.f0, FrequencyApproximation::Fast);
        SyntheticSnareDrum {
            drum_lp,
            snare_hp,
            snare_lp,
            ..self
        }
    }

    fn triggered(self, accent: f32, decay: f32) -> Self
        ensures { result ≡ spec.triggered self accent decay }
    {
        let snare_amplitude = 0.3 + 0.7 * accent;
        SyntheticSnareDrum {
            phase: [0.0, 0.0],
            drum_amplitude: snare_amplitude,
            snare_amplitude,
            fm: 1.0,
            hold_counter: ieee754::truncate_u32((0.04 + decay * 0.03) * self.sample_rate_hz),
            ..self
        }
    }

    // The loop over the block. A function by itself, since as a part of `run` it takes more instructions a sample (docs/DECISIONS.md).
    #[inline(never)]
    fn fill(self, settings: Settings, out: &mut [f32]) -> Self
        ensures voice { let n = length out.old in result ≡ after (spec.step settings n) n self }
        ensures out { let n = length out.old in out.new ≡ samples (spec.step settings n) n self }
    {
        block::pass(self, out, |voice, _| voice.step(settings))
    }

    // One turn of the loop.
    fn step(self, settings: Settings) -> Turn<Self>
        ensures { (size : ℕ) → result ≡ spec.step settings size self }
    {
        let v = self.enveloped(settings);
        // Two oscillators, written one after the other as in the Rust. An array is no plainer: the reset noise is made of both phases before either moves,
        // and 1.47 and 0.25 are the second's own.
        let phase_0 = v.phase[0];
        let phase_1 = v.phase[1];

        // The 909 circuit has a funny kind of oscillator coupling: the signal leaving Q40's collector and
        // resetting all oscillators allows some intermodulation.
        let amount = ieee754::clamp((0.125 - settings.f0) * 8.0, 0.0, 1.0);
        let amount = amount * amount * settings.fm_amount;
        let reset_noise = (0.0 + reset_sign(phase_0) + reset_sign(phase_1)) * (amount * 0.025);
        let f = settings.f0 * (1.0 + settings.fm_amount * (4.0 * v.fm));
        let phase_0 = reset(amount, reset_noise, phase_0 + f);
        let phase_1 = reset(amount, reset_noise, phase_1 + f * 1.47);

        let sines = -0.1 + distorted_sine(phase_0) * 0.60 + distorted_sine(phase_1) * 0.25;
        let amplitude = v.drum_amplitude * settings.drum_level;
        let drum = v.drum_lp.process(sines * amplitude, FilterMode::LowPass);
        let draw = random::get_float(v.noise);
        let low = v.snare_lp.process(draw.value, FilterMode::LowPass);
        let high = v.snare_hp.process(low.out, FilterMode::HighPass);
        let snare = (high.out + 0.1) * (v.snare_amplitude + v.fm) * settings.snare_level;
        Turn {
            sample: snare + drum.out,
            next: SyntheticSnareDrum {
                phase: [phase_0, phase_1],
                drum_lp: drum.filter,
                snare_hp: high.filter,
                snare_lp: low.filter,
                noise: draw.word,
                ..v
            },
        }
    }

    // Only a sustained block steps the gain. In any other all envelopes decay, the snare's after a "hold" stage which lasts
    // between 40 and 70 ms.
    fn enveloped(self, settings: Settings) -> Self
        ensures { result ≡ enveloped self settings }
    {
        if settings.sustain {
            let sustain_gain = ParameterInterpolator {
                value: self.sustain_gain,
                increment: settings.increment,
            };
            let next = sustain_gain.next();
            return SyntheticSnareDrum {
                drum_amplitude: next.value,
                snare_amplitude: next.value,
                fm: 0.0,
                sustain_gain: next.value,
                ..self
            };
        }
        if self.hold_counter == 0 {
            return SyntheticSnareDrum {
                drum_amplitude: self.drum_amplitude * settings.drum_decay,
                snare_amplitude: self.snare_amplitude * settings.snare_decay,
                fm: self.fm * settings.fm_decay,
                ..self
            };
        }
        SyntheticSnareDrum {
            drum_amplitude: self.drum_amplitude * settings.drum_decay,
            fm: self.fm * settings.fm_decay,
            hold_counter: self.hold_counter - 1,
            ..self
        }
    }
}

impl Knobs {
    // The questions of a run, written out for each voice: its own knobs, in the scope's order.
    #[tactic(auto, unfolding(crate::specs::SyntheticSnareDrum::run_refusal))]
    fn asked(self, sample_rate_hz: f32, samples: usize) -> Result<BlockLength, Refusal>
        ensures number { answer_number result ≡ spec.run_refusal sample_rate_hz self samples }
        ensures length { IfOk result (λ length. length ≡ samples) }
    {
        ask(is_sample_rate(sample_rate_hz), Refusal::SampleRate)?;
        let length = BlockLength::try_from(samples)?;
        ask(is_frequency(self.f0), Refusal::Frequency)?;
        ask(is_unit(self.accent), Refusal::Accent)?;
        ask(is_unit(self.fm_amount), Refusal::Knob)?;
        ask(is_unit(self.decay), Refusal::Knob)?;
        ask(is_unit(self.snappy), Refusal::Knob)?;
        Ok(length)
    }

    // The lines before the loop.
    fn settings(self, voice: SyntheticSnareDrum, length: BlockLength) -> Settings
        ensures { result ≡ spec.settings voice self length }
    {
        let rate = voice.sample_rate_hz;
        let decay = self.decay;
        let decay_xt = decay * (1.0 + decay * (decay - 1.0));
        let fm_amount = self.fm_amount * self.fm_amount;
        let drum_pitch = -decay_xt * 72.0 - fm_amount * 12.0 + self.snappy * 7.0;
        let snare_pitch = -decay * 60.0 - self.snappy * 7.0;
        let snappy = ieee754::clamp(self.snappy * 1.1 - 0.05, 0.0, 1.0);
        let sustain_gain = ParameterInterpolator::new(
            voice.sustain_gain,
            self.accent * decay,
            length.into(),
        );
        Settings {
            sustain: self.sustain,
            f0: self.f0,
            fm_amount,
            drum_decay: 1.0 - 1.0 / (0.015 * rate) * units::semitones_to_ratio(drum_pitch),
            snare_decay: 1.0 - 1.0 / (0.01 * rate) * units::semitones_to_ratio(snare_pitch),
            fm_decay: 1.0 - 1.0 / (0.007 * rate),
            snappy,
            drum_level: utils::sqrt(1.0 - snappy),
            snare_level: utils::sqrt(snappy),
            increment: sustain_gain.increment,
        }
    }
}

fn reset_sign(phase: f32) -> f32
    ensures { result ≡ cond (lt (decimal 5 1) phase) (neg (decimal 1 0)) (decimal 1 0) }
{
    if phase > 0.5 { -1.0 } else { 1.0 }
}

// A phase at its end starts again. As in the Rust this is no wrap: a phase may stay outside of 0 to 1.
fn reset(reset_noise_amount: f32, reset_noise: f32, phase: f32) -> f32
    ensures { result ≡ spec.reset reset_noise_amount reset_noise phase }
{
    if reset_noise_amount > 0.1 {
        if phase >= 1.0 + reset_noise {
            return 1.0 - phase;
        }
        return phase;
    }
    if phase >= 1.0 {
        return phase - 1.0;
    }
    phase
}

fn distorted_sine(phase: f32) -> f32
    ensures { result ≡ spec.distorted_sine phase }
{
    let triangle = folded(phase) * 4.0 - 1.3;
    2.0 * triangle / one_plus_abs(triangle)
}

// The smaller of phase and 1.0 - phase: below 0.5 it is the phase.
fn folded(phase: f32) -> f32
    ensures { result ≡ cond (lt phase (decimal 5 1)) phase (decimal 1 0 ⊖ phase) }
{
    let rest = 1.0 - phase;
    if phase < rest { phase } else { rest }
}

// 1.0 + |x|, as the larger of two: no question whether x is a number.
fn one_plus_abs(x: f32) -> f32
    ensures { result ≡ decimal 1 0 ⊕ abs x }
{
    let below = 1.0 - x;
    let above = 1.0 + x;
    if below > above { below } else { above }
}
