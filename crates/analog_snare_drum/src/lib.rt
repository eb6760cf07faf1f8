// drums/analog_snare_drum.rs: 808 snare drum model, without its sustain mode.
#![tactic(auto)]

ghost use Rattle.std.specs.Prelude.{◌≡◌, cond, length, ◌↔◌, IsTrue};
ghost use Rattle.std.specs.Float.Ieee.{lt};
ghost use Rattle.ieee754.specs.Single.{decimal};
ghost use Rattle.refusal.specs.Refusal.{answer_number, call_number, call_voice};
ghost use Rattle.block.specs.Block.{samples, after};
ghost use Rattle.analog_snare_drum.specs.AnalogSnareDrum as spec;
ghost use Rattle.analog_snare_drum.specs.Excitation.{excitation, AtRest};

use block::Turn;
use filter::{FilterMode, FrequencyApproximation, Svf};
use refusal::{Refusal, Refused, ask, is_block_length, is_frequency, is_sample_rate, is_unit};
use trigger_pulse::TriggerPulse;

// Parallel arrays, as in the Rust: the filters' stands in the record that C knows, so a struct of a mode could hold only a gain and a constant frequency.
const MODE_FREQUENCIES: [f32; 5] = [1.00, 2.00, 3.18, 4.16, 5.62];

#[repr(C)]
#[derive(Clone, Copy)]
pub struct AnalogSnareDrum {
    pub pulse_remaining_samples: u32,
    pub pulse: f32,
    pub pulse_height: f32,
    pub pulse_lp: f32,
    pub noise_envelope: f32,
    pub resonator: [Svf; 5],
    pub noise_filter: Svf,
    pub trigger_pulse_duration: u32,
    pub pulse_decay_time: u32,
    pub noise: u32,
}

#[repr(C)]
#[derive(Clone, Copy)]
pub struct Knobs {
    pub f0: f32,
    pub tone: f32,
    pub decay: f32,
    pub snappy: f32,
}

// What stays the same over a block. Decay and leak are made of the knob `snappy`; here it is clamped.
#[derive(Clone, Copy)]
struct Settings {
    q: f32,
    noise_envelope_decay: f32,
    exciter_leak: f32,
    snappy: f32,
    f0: f32,
    gain: [f32; 5],
}

// The pulse and its low-pass after one sample, and what excites the first mode and the others.
#[derive(Clone, Copy)]
struct Excitation {
    remaining_samples: u32,
    pulse: f32,
    pulse_lp: f32,
    first: f32,
    other: f32,
}

// A resonator after one sample, and the shell with its part. No `Turn`: what comes out is no sample, but the sum so far.
#[derive(Clone, Copy)]
struct ModeOutput {
    resonator: Svf,
    shell: f32,
}

// The resonators after one sample, and the shell that they make. No `Turn`: the shell is no sample, but a part of one beside the noise.
#[derive(Clone, Copy)]
struct ShellOutput {
    resonator: [Svf; 5],
    shell: f32,
}

impl AnalogSnareDrum {
    // Every field zero, for `init` to overwrite. (No `Default`: the scope leaves it out.)
    pub const ZERO: AnalogSnareDrum = AnalogSnareDrum {
        pulse_remaining_samples: 0,
        pulse: 0.0,
        pulse_height: 0.0,
        pulse_lp: 0.0,
        noise_envelope: 0.0,
        resonator: [Svf::ZERO; 5],
        noise_filter: Svf::ZERO,
        trigger_pulse_duration: 0,
        pulse_decay_time: 0,
        noise: 0,
    };

    pub fn init(self, sample_rate_hz: f32) -> Result<Self, Refused<Self>>
        ensures number { call_number result ≡ (spec.init self sample_rate_hz).number }
        ensures voice { call_voice result ≡ (spec.init self sample_rate_hz).state }
    {
        ask(is_sample_rate(sample_rate_hz), Refusal::SampleRate).map_err(|refusal| refusal.of(
            self,
        ))?;
        Ok(self.initialized(sample_rate_hz))
    }

    // The noise state is the one that the Rust's begins with, 0x21.
    fn initialized(self, sample_rate_hz: f32) -> Self
        ensures { result ≡ spec.initialized self sample_rate_hz }
    {
        let resonator = self.resonator.map(|mode| mode.init());
        let noise_filter = self.noise_filter.init();
        AnalogSnareDrum {
            resonator,
            noise_filter,
            trigger_pulse_duration: ieee754::truncate_u32(1.0e-3 * sample_rate_hz),
            pulse_decay_time: ieee754::truncate_u32(0.1e-3 * sample_rate_hz),
            noise: 33,
            ..AnalogSnareDrum::ZERO
        }
    }

    // What the Rust's `render` does where its trigger is set, and nothing else.
    pub fn strike(self, accent: f32) -> Result<Self, Refused<Self>>
        ensures number { call_number result ≡ (spec.strike self accent).number }
        ensures voice { call_voice result ≡ (spec.strike self accent).state }
    {
        ask(is_unit(accent), Refusal::Accent).map_err(|refusal| refusal.of(self))?;
        Ok(self.triggered(accent))
    }

    // The Rust's `render` where its trigger is not set: it makes nothing of accent then, and none is taken.
    pub fn run(self, knobs: Knobs, out: &mut [f32]) -> Result<Self, Refused<Self>>
        ensures number { call_number result ≡ (spec.run self knobs out.old).number }
        ensures voice { call_voice result ≡ (spec.run self knobs out.old).state }
        ensures out { out.new ≡ (spec.run self knobs out.old).out }
    {
        knobs.asked(out.len()).map_err(|refusal| refusal.of(self))?;
        let settings = knobs.settings();
        Ok(self.tuned(settings).fill(settings, out))
    }

    fn triggered(self, accent: f32) -> Self
        ensures { result ≡ spec.triggered self accent }
    {
        AnalogSnareDrum {
            pulse_remaining_samples: self.trigger_pulse_duration,
            pulse_height: 3.0 + 7.0 * accent,
            noise_envelope: 2.0,
            ..self
        }
    }

    // The six filters set to their frequencies.
    fn tuned(self, settings: Settings) -> Self
        ensures { result ≡ spec.tuned settings self }
    {
        let f0 = settings.f0;
        let resonator = tuned_modes(self.resonator, f0, settings.q);
        let f_noise = ieee754::clamp(f0 * 16.0, 0.0, 0.499);
        let noise_filter = self
            .noise_filter
            .set_f_q(f_noise, 1.0 + f_noise * 1.5, FrequencyApproximation::Fast);
        AnalogSnareDrum {
            resonator,
            noise_filter,
            ..self
        }
    }

    // The loop over the block. A `for` and not `block::pass`, whose turn may be asked of any state: this one asks that e be the excitation of its voice.
    // A struct of the two with that fact as its invariant takes more instructions a sample (docs/DECISIONS.md).
    fn fill(self, settings: Settings, out: &mut [f32]) -> Self
        ensures voice { result ≡ after (spec.step settings) (length out.old) self }
        ensures out { out.new ≡ samples (spec.step settings) (length out.old) self }
    {
        let mut voice = self;
        let mut e = voice.excitation();
        // The pulse comes to rest, at most rates in a subnormal that its product rounds back to itself.
        // From then on no turn changes the excitation, and products of subnormals are slow: e is kept.
        let mut at_rest = voice.is_at_rest(e);
        for sample in out.iter_mut() {
            let turn = voice.step(settings, e);
            *sample = turn.sample;
            voice = turn.next;
            // With the two lines below under `if !at_rest` the compiler pairs the filters' products worse (docs/DECISIONS.md).
            if at_rest {
                continue;
            }
            e = voice.excitation();
            at_rest = voice.is_at_rest(e);
        }
        voice
    }

    // What the next turn of the loop makes of the pulse.
    fn excitation(self) -> Excitation
        ensures { result ≡ excitation self }
    {
        // Q45 / Q46; no `TriggerPulse` stands in the voice, but its two fields, which C knows by name.
        let trigger_pulse = TriggerPulse {
            remaining_samples: self.pulse_remaining_samples,
            pulse: self.pulse,
        };
        let decay_time = ieee754::nearest_f32(self.pulse_decay_time);
        let p = trigger_pulse.next(self.pulse_height, decay_time);
        let pulse = p.pulse;

        // R189 / C57 / R190 + C58 / C59 / R197 / R196 / IC14
        let pulse_lp = utils::one_pole(self.pulse_lp, pulse, 0.75);
        Excitation {
            remaining_samples: p.remaining_samples,
            pulse,
            pulse_lp,
            first: (pulse - pulse_lp) + 0.006 * pulse,
            other: 0.026 * pulse,
        }
    }

    // Whether the turn leaves the pulse and its low-pass as they are.
    // (A derived `==` would have -0.0 equal to 0.0, and a NaN unequal to itself.)
    fn is_at_rest(self, e: Excitation) -> bool
        ensures { IsTrue result ↔ AtRest self e }
    {
        e.remaining_samples == self.pulse_remaining_samples
            && ieee754::is_same(e.pulse, self.pulse)
            && ieee754::is_same(e.pulse_lp, self.pulse_lp)
    }

    // What is left of the turn. The noise comes before the shell, otherwise than in the Rust: with the shell first it takes more instructions a sample
    // (docs/DECISIONS.md).
    fn step(self, settings: Settings, e: Excitation) -> Turn<Self>
        requires { e ≡ excitation self }
        ensures { result ≡ spec.step settings self }
    {
        // C56 / R194 / Q48 / C54 / R188 / D54
        let draw = random::get_float(self.noise);
        let drawn = not_negative(2.0 * draw.value - 1.0);
        let noise_envelope = self.noise_envelope * settings.noise_envelope_decay;

        // C66 / R201 / C67 / R202 / R203 / Q49
        let filtered = self.noise_filter.process(
            drawn * (noise_envelope * settings.snappy * 2.0),
            FilterMode::BandPass,
        );

        let shell = self.shell_output(settings, e.first, e.other);
        let resonator = shell.resonator;
        let noise_filter = filtered.filter;
        Turn {
            next: AnalogSnareDrum {
                pulse_remaining_samples: e.remaining_samples,
                pulse: e.pulse,
                pulse_lp: e.pulse_lp,
                noise_envelope,
                resonator,
                noise_filter,
                noise: draw.word,
                ..self
            },
            // IC13
            sample: filtered.out + shell.shell * (1.0 - settings.snappy),
        }
    }

    // The resonators under the excitation of the first mode and that of the others.
    fn shell_output(self, settings: Settings, first: f32, other: f32) -> ShellOutput
        ensures { result ≡ spec.shell_output settings self.resonator first other }
    {
        // By index: three arrays by place, and the sum goes from mode to mode.
        let mut resonator = [Svf::ZERO; 5];
        let mut shell = 0.0;
        for i in 0..5 {
            let excitation = if i == 0 { first } else { other };
            let mode = mode_output(
                shell,
                settings.gain[i],
                self.resonator[i],
                excitation,
                settings.exciter_leak,
            );
            resonator[i] = mode.resonator;
            shell = mode.shell;
        }
        ShellOutput {
            resonator,
            shell: utils::soft_clip(shell),
        }
    }
}

// One turn of the loop over the modes.
fn mode_output(
    shell: f32,
    gain: f32,
    resonator: Svf,
    excitation: f32,
    exciter_leak: f32,
) -> ModeOutput
    ensures { result ≡ spec.mode_output shell gain resonator excitation exciter_leak }
{
    let o = resonator.process(excitation, FilterMode::BandPass);
    let next = o.filter;
    ModeOutput {
        resonator: next,
        shell: shell + gain * (o.out + excitation * exciter_leak),
    }
}

fn not_negative(noise: f32) -> f32
    ensures { result ≡ cond (lt noise (decimal 0 0)) (decimal 0 0) noise }
{
    if noise < 0.0 { 0.0 } else { noise }
}

// A function by itself: with it written out in `run`, the compiler pairs the filters' products in the loop worse (docs/DECISIONS.md).
#[inline(never)]
fn tuned_modes(resonator: [Svf; 5], f0: f32, q: f32) -> [Svf; 5]
    ensures { result ≡ spec.tuned_modes resonator f0 q }
{
    // (With `from_fn`, over the calls or over one function of the place, the proof did not close.)
    let mut tuned = [Svf::ZERO; 5];
    for i in 0..5 {
        let q = if i == 0 { q } else { q * 0.25 };
        tuned[i] = tuned_mode(resonator[i], f0, MODE_FREQUENCIES[i], q);
    }
    tuned
}

fn tuned_mode(resonator: Svf, f0: f32, mode_frequency: f32, q: f32) -> Svf
    ensures { result ≡ spec.tuned_mode resonator f0 mode_frequency q }
{
    let f = ieee754::minimum_number(f0 * mode_frequency, 0.499);
    resonator.set_f_q(f, 1.0 + f * q, FrequencyApproximation::Fast)
}

impl Knobs {
    // The questions of a run, written out for each voice: its own knobs, in the scope's order. No `BlockLength`: nothing is made of the length.
    #[tactic(auto, unfolding(crate::specs::AnalogSnareDrum::run_refusal, crate::specs::AnalogSnareDrum::knobs_refusal))]
    fn asked(self, samples: usize) -> Result<(), Refusal>
        ensures { answer_number result ≡ spec.run_refusal self samples }
    {
        ask(is_block_length(samples), Refusal::BlockLength)?;
        ask(is_frequency(self.f0), Refusal::Frequency)?;
        ask(is_unit(self.tone), Refusal::Knob)?;
        ask(is_unit(self.decay), Refusal::Knob)?;
        ask(is_unit(self.snappy), Refusal::Knob)?;
        Ok(())
    }

    // The lines before the loop.
    fn settings(self) -> Settings
        ensures { result ≡ spec.settings self }
    {
        let decay_xt = self.decay * (1.0 + self.decay * (self.decay - 1.0));
        Settings {
            q: 2000.0 * units::semitones_to_ratio(decay_xt * 84.0),
            noise_envelope_decay: 1.0
                - 0.0017 * units::semitones_to_ratio(-self.decay * (50.0 + self.snappy * 10.0)),
            exciter_leak: self.snappy * (2.0 - self.snappy) * 0.1,
            snappy: ieee754::clamp(self.snappy * 1.1 - 0.05, 0.0, 1.0),
            f0: self.f0,
            gain: gains(self.tone),
        }
    }
}

// The part of each mode in the shell.
fn gains(tone: f32) -> [f32; 5]
    ensures { result ≡ spec.gains tone }
{
    if tone < 0.666667 {
        // 808-style (2 modes)
        let t = tone * 1.5;
        return [
            1.5 + (1.0 - t) * (1.0 - t) * 4.5,
            2.0 * t + 0.15,
            0.0,
            0.0,
            0.0,
        ];
    }
    // What the 808 could have been if there were extra modes!
    let t = (tone - 0.666667) * 3.0;
    let t2 = t * t;
    let t4 = t2 * t2;
    [1.5 - t * 0.5, 2.15 - t * 0.7, t, t2, t4]
}
