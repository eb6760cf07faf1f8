// drums/hihat.rs: 808 hi-hat model, with the square noise as its source. The Rust makes five passes over the block; here each sample goes through
// all five in turn. That both leave the same block and the same voice is a theorem (proofs/OnePass.antt), and the contract cites the passes.
#![tactic(auto)]

mod passes; // passes.rt: one sample through the passes past the metallic noise
mod square_noise; // square_noise.rt: the metallic noise

ghost use Rattle.std.specs.Prelude.{◌≡◌, if◌then◌else◌, Float, IfOk};
ghost use Rattle.refusal.specs.Refusal.{answer_number, call_number, call_voice};
ghost use Rattle.ieee754.specs.Single.{◌⊕◌, ◌⊗◌, decimal};
ghost use Rattle.hihat.specs.Hihat as spec;
ghost use Rattle.hihat.specs.OnePass.{tuned, step};

use block::Turn;
use filter::{FrequencyApproximation, Svf};
use parameter_interpolator::ParameterInterpolator;
use refusal::{
    BlockLength, Refusal, Refused, ask, ask_strike, is_frequency, is_sample_rate, is_unit,
};
pub use square_noise::SquareNoise;

#[derive(Clone, Copy, Debug, PartialEq, Eq)]
pub enum VcaType {
    Swing,
    Linear,
}

#[repr(C)]
#[derive(Clone, Copy)]
pub struct Hihat {
    pub sample_rate: f32,
    pub envelope: f32,
    pub noise_clock: f32,
    pub noise_sample: f32,
    pub sustain_gain: f32,
    pub square_noise: SquareNoise,
    pub noise_coloration_svf: Svf,
    pub hpf: Svf,
    pub noise: u32,
}

// The parameters of a block, but for the kind of the VCA.
#[repr(C)]
#[derive(Clone, Copy)]
pub struct Knobs {
    pub sustain: bool,
    pub accent: f32,
    pub f0: f32,
    pub tone: f32,
    pub decay: f32,
    pub noisiness: f32,
    pub resonance: bool,
    pub two_stage_envelope: bool,
}

// What stays the same over a block. `sustain` and the increment of its gain are no `Option`: in the Rust a block that does not
// sustain has an interpolator too, and an `Option` would need a definition beside the Rust's: no plainer.
#[derive(Clone, Copy)]
struct Settings {
    envelope_decay: f32,
    cut_decay: f32,
    increment: [u32; 6],
    cutoff: f32,
    q: f32,
    noisiness: f32,
    noise_f: f32,
    gain_increment: f32,
    sustain: bool,
    vca_type: VcaType,
    two_stage_envelope: bool,
}

impl Hihat {
    // Every field zero, for `init` to overwrite. (No `Default`: the scope leaves it out.)
    pub const ZERO: Hihat = Hihat {
        sample_rate: 0.0,
        envelope: 0.0,
        noise_clock: 0.0,
        noise_sample: 0.0,
        sustain_gain: 0.0,
        square_noise: SquareNoise::ZERO,
        noise_coloration_svf: Svf::ZERO,
        hpf: Svf::ZERO,
        noise: 0,
    };

    pub fn init(self, sample_rate: f32) -> Result<Self, Refused<Self>>
        ensures number { call_number result ≡ (spec.init self sample_rate).number }
        ensures voice { call_voice result ≡ (spec.init self sample_rate).state }
    {
        ask(is_sample_rate(sample_rate), Refusal::SampleRate).map_err(|refusal| refusal.of(self))?;
        Ok(self.initialized(sample_rate))
    }

    // The noise state is the one that the Rust's begins with, 0x21.
    fn initialized(self, sample_rate: f32) -> Self
        ensures { result ≡ spec.initialized self sample_rate }
    {
        let square_noise = self.square_noise.init();
        let noise_coloration_svf = self.noise_coloration_svf.init();
        let hpf = self.hpf.init();
        Hihat {
            sample_rate,
            square_noise,
            noise_coloration_svf,
            hpf,
            noise: 33,
            ..Hihat::ZERO
        }
    }

    // What the Rust's `render` does where its trigger is set, and nothing else.
    pub fn strike(self, accent: f32, decay: f32) -> Result<Self, Refused<Self>>
        ensures number { call_number result ≡ (spec.strike self accent decay).number }
        ensures voice { call_voice result ≡ (spec.strike self accent decay).state }
    {
        ask_strike(self.sample_rate, accent, decay).map_err(|refusal| refusal.of(self))?;
        Ok(self.triggered(accent, decay))
    }

    // The Rust's `render` where its trigger is not set. accent stays a knob: a sustained block goes to accent times decay.
    pub fn run(
        self,
        vca_type: VcaType,
        knobs: Knobs,
        out: &mut [f32],
    ) -> Result<Self, Refused<Self>>
        ensures number { call_number result ≡ (spec.run self vca_type knobs out.old).number }
        ensures voice { call_voice result ≡ (spec.run self vca_type knobs out.old).state }
        ensures out { out.new ≡ (spec.run self vca_type knobs out.old).out }
    {
        let length = knobs
            .asked(self.sample_rate, out.len())
            .map_err(|refusal| refusal.of(self))?;
        Ok(self.passes(knobs.settings(self, vca_type, length), out))
    }

    fn triggered(self, accent: f32, decay: f32) -> Self
        ensures { result ≡ spec.triggered self accent decay }
    {
        Hihat {
            envelope: (1.5 + 0.5 * (1.0 - decay)) * (0.3 + 0.7 * accent),
            ..self
        }
    }

    // Both filters at the cutoff.
    fn tuned(self, settings: Settings) -> Self
        ensures { result ≡ tuned settings self }
    {
        let noise_coloration_svf = self.noise_coloration_svf.set_f_q(
            settings.cutoff,
            settings.q,
            FrequencyApproximation::Accurate,
        );
        let hpf = self
            .hpf
            .set_f_q(settings.cutoff, 0.5, FrequencyApproximation::Accurate);
        Hihat {
            noise_coloration_svf,
            hpf,
            ..self
        }
    }

    // The passes over the block, in one. A function by itself, since as a part of `run` it takes more instructions a sample (docs/DECISIONS.md).
    #[inline(never)]
    fn passes(self, settings: Settings, out: &mut [f32]) -> Self
        ensures voice { result ≡ (spec.passes settings (record { state = self; out = out.old })).state }
        ensures out { out.new ≡ (spec.passes settings (record { state = self; out = out.old })).out }
    {
        block::pass(self.tuned(settings), out, |voice, _| voice.step(settings))
    }

    // One sample, through all the passes.
    fn step(self, settings: Settings) -> Turn<Self>
        ensures { (x : Float) → result ≡ step settings self x }
    {
        let metallic = self.metallic(settings);
        let colored = metallic.next.colored(metallic.sample);
        let clocked = colored.next.clocked(settings, colored.sample);
        let amplified = clocked.next.amplified(settings, clocked.sample);
        amplified.next.high_passed(amplified.sample)
    }

    // Render the metallic noise.
    #[tactic(auto, unfolding(crate::specs::Hihat::metallic))]
    fn metallic(self, settings: Settings) -> Turn<Self>
        ensures { result ≡ spec.metallic settings self }
    {
        let noise = self.square_noise.turn(settings.increment);
        Turn {
            sample: noise.sample,
            next: Hihat {
                square_noise: noise.next,
                ..self
            },
        }
    }
}

impl Knobs {
    // The questions of a run, written out for each voice: its own knobs, in the scope's order.
    #[tactic(auto, unfolding(crate::specs::Hihat::run_refusal))]
    fn asked(self, sample_rate: f32, samples: usize) -> Result<BlockLength, Refusal>
        ensures number { answer_number result ≡ spec.run_refusal sample_rate self samples }
        ensures length { IfOk result (λ length. length ≡ samples) }
    {
        ask(is_sample_rate(sample_rate), Refusal::SampleRate)?;
        let length = BlockLength::try_from(samples)?;
        ask(is_frequency(self.f0), Refusal::Frequency)?;
        ask(is_unit(self.accent), Refusal::Accent)?;
        ask(is_unit(self.tone), Refusal::Knob)?;
        ask(is_unit(self.decay), Refusal::Knob)?;
        ask(is_unit(self.noisiness), Refusal::Knob)?;
        Ok(length)
    }

    // The lines of the Rust's `render` outside its passes.
    fn settings(self, voice: Hihat, vca_type: VcaType, length: BlockLength) -> Settings
        ensures { result ≡ spec.settings voice vca_type self length }
    {
        let noisiness = self.noisiness * self.noisiness;
        let gain = ParameterInterpolator::new(
            voice.sustain_gain,
            self.accent * self.decay,
            length.into(),
        );
        Settings {
            envelope_decay: 1.0 - 0.003 * units::semitones_to_ratio(-self.decay * 84.0),
            cut_decay: 1.0 - 0.0025 * units::semitones_to_ratio(-self.decay * 36.0),
            increment: square_noise::increments(2.0 * self.f0),
            cutoff: ieee754::clamp(
                150.0 / voice.sample_rate * units::semitones_to_ratio(self.tone * 72.0),
                0.0,
                16000.0 / voice.sample_rate,
            ),
            q: self.q(),
            noisiness,
            noise_f: ieee754::clamp(self.f0 * (16.0 + 16.0 * (1.0 - noisiness)), 0.0, 0.5),
            gain_increment: gain.increment,
            sustain: self.sustain,
            vca_type,
            two_stage_envelope: self.two_stage_envelope,
        }
    }

    // The resonance of the coloration filter.
    fn q(self) -> f32
        ensures { result ≡ (if self.resonance then (decimal 3 0 ⊕ decimal 3 0 ⊗ self.tone) else decimal 1 0) }
    {
        if self.resonance {
            3.0 + 3.0 * self.tone
        } else {
            1.0
        }
    }
}
