// drums/analog_bass_drum.rs: 808 bass drum model, without its sustain mode.
#![tactic(auto)]

ghost use Rattle.std.specs.Prelude.{◌≡◌, ◌↔◌, IsTrue, length};
ghost use Rattle.refusal.specs.Refusal.{answer_number, call_number, call_voice};
ghost use Rattle.block.specs.Block.{samples, after};
ghost use Rattle.analog_bass_drum.specs.AnalogBassDrum as spec;
ghost use Rattle.analog_bass_drum.specs.Excitation.{fm_pulse, excitation, AtRest};

use filter::{FilterMode, FrequencyApproximation, Svf};
use refusal::{
    Refusal, Refused, ask, is_bass_decay, is_block_length, is_frequency, is_sample_rate, is_unit,
};
use trigger_pulse::TriggerPulse;

#[repr(C)]
#[derive(Clone, Copy)]
pub struct AnalogBassDrum {
    pub pulse_remaining_samples: u32,
    pub fm_pulse_remaining_samples: u32,
    pub pulse: f32,
    pub pulse_height: f32,
    pub pulse_lp: f32,
    pub fm_pulse_lp: f32,
    pub retrig_pulse: f32,
    pub lp_out: f32,
    pub tone_lp: f32,
    pub resonator: Svf,
    pub trigger_pulse_duration: u32,
    pub fm_pulse_duration: u32,
    pub pulse_decay_time: f32,
    pub pulse_filter_time: f32,
    pub retrig_pulse_duration: f32,
}

#[repr(C)]
#[derive(Clone, Copy)]
pub struct Knobs {
    pub f0: f32,
    pub tone: f32,
    pub decay: f32,
    pub attack_fm_amount: f32,
    pub self_fm_amount: f32,
}

// What stays the same over a block.
#[derive(Clone, Copy)]
struct Settings {
    f0: f32,
    scale: f32,
    q: f32,
    tone_f: f32,
    exciter_leak: f32,
    attack_fm_amount: f32,
    self_fm_amount: f32,
}

// The pulse on the resonator's frequency, and the pulse at its end.
#[derive(Clone, Copy)]
struct FmPulse {
    remaining_samples: u32,
    fm_pulse: f32,
    retrig_pulse: f32,
}

// What of a turn comes to rest after a strike: the new fields of the voice, and what is made of them for what is left of the turn.
#[derive(Clone, Copy)]
struct Excitation {
    pulse_remaining_samples: u32,
    fm_pulse_remaining_samples: u32,
    pulse: f32,
    pulse_lp: f32,
    fm_pulse_lp: f32,
    rectified: f32,
    leak: f32,
    attack: f32,
}

impl AnalogBassDrum {
    // Every field zero, for `init` to overwrite. (No `Default`: the scope leaves it out.)
    pub const ZERO: AnalogBassDrum = AnalogBassDrum {
        pulse_remaining_samples: 0,
        fm_pulse_remaining_samples: 0,
        pulse: 0.0,
        pulse_height: 0.0,
        pulse_lp: 0.0,
        fm_pulse_lp: 0.0,
        retrig_pulse: 0.0,
        lp_out: 0.0,
        tone_lp: 0.0,
        resonator: Svf::ZERO,
        trigger_pulse_duration: 0,
        fm_pulse_duration: 0,
        pulse_decay_time: 0.0,
        pulse_filter_time: 0.0,
        retrig_pulse_duration: 0.0,
    };

    pub fn init(self, sample_rate_hz: f32) -> Result<Self, Refused<Self>>
        ensures number { call_number result ≡ (spec.init self sample_rate_hz).number }
        ensures voice { call_voice result ≡ (spec.init self sample_rate_hz).state }
    {
        ask(is_sample_rate(sample_rate_hz), Refusal::SampleRate).map_err(|refusal| refusal.of(
            self,
        ))?;
        Ok(self.initialized(sample_rate_hz))
    }

    fn initialized(self, sample_rate_hz: f32) -> Self
        ensures { result ≡ spec.initialized self sample_rate_hz }
    {
        let resonator = self.resonator.init();
        AnalogBassDrum {
            resonator,
            trigger_pulse_duration: ieee754::truncate_u32(1.0e-3 * sample_rate_hz),
            fm_pulse_duration: ieee754::truncate_u32(6.0e-3 * sample_rate_hz),
            pulse_decay_time: 0.2e-3 * sample_rate_hz,
            pulse_filter_time: 0.1e-3 * sample_rate_hz,
            retrig_pulse_duration: 0.05 * sample_rate_hz,
            ..AnalogBassDrum::ZERO
        }
    }

    // What the Rust's `render` does where its trigger is set, and nothing else.
    pub fn strike(self, accent: f32) -> Result<Self, Refused<Self>>
        ensures number { call_number result ≡ (spec.strike self accent).number }
        ensures voice { call_voice result ≡ (spec.strike self accent).state }
    {
        ask(is_unit(accent), Refusal::Accent).map_err(|refusal| refusal.of(self))?;
        Ok(self.triggered(accent))
    }

    // The Rust's `render` where its trigger is not set: it makes nothing of accent then, and none is taken.
    pub fn run(self, knobs: Knobs, out: &mut [f32]) -> Result<Self, Refused<Self>>
        ensures number { call_number result ≡ (spec.run self knobs out.old).number }
        ensures voice { call_voice result ≡ (spec.run self knobs out.old).state }
        ensures out { out.new ≡ (spec.run self knobs out.old).out }
    {
        knobs.asked(out.len()).map_err(|refusal| refusal.of(self))?;
        Ok(self.fill(knobs.settings(), out))
    }

    fn triggered(self, accent: f32) -> Self
        ensures { result ≡ spec.triggered self accent }
    {
        AnalogBassDrum {
            pulse_remaining_samples: self.trigger_pulse_duration,
            fm_pulse_remaining_samples: self.fm_pulse_duration,
            pulse_height: 3.0 + 7.0 * accent,
            lp_out: 0.0,
            ..self
        }
    }

    // The loop over the block, a function by itself, since as a part of `run` it takes more instructions a sample (docs/DECISIONS.md).
    // By index: at rest what is left of the block is handed on. A `for` over `iter_mut` has it borrowed, and a `while let` with `into_slice` is no plainer.
    #[inline(never)]
    fn fill(self, settings: Settings, out: &mut [f32]) -> Self
        ensures voice { result ≡ after (spec.step settings) (length out.old) self }
        ensures out { out.new ≡ samples (spec.step settings) (length out.old) self }
    {
        let mut voice = self;
        let mut e = voice.excitation(settings);
        for i in 0..out.len() {
            if voice.is_at_rest(e) {
                return voice.fill_at_rest(settings, e, &mut out[i..]);
            }
            voice = voice.step(settings, e);
            out[i] = voice.tone_lp;
            e = voice.excitation(settings);
        }
        voice
    }

    // The pulses have come to rest, at most rates in subnormals that their products round back to themselves.
    // No turn changes the excitation any more, and products of subnormals are slow: e is kept.
    // A `for` and not `block::pass`, whose turn may be asked of any state: this one asks that e be the excitation of its voice. A struct with that fact
    // as its invariant would hold the settings too, of which the excitation is made here: no plainer. In the analog snare, whose excitation needs none, it was
    // tried and takes more instructions.
    fn fill_at_rest(self, settings: Settings, e: Excitation, out: &mut [f32]) -> Self
        requires current { e ≡ excitation settings self }
        requires rest { AtRest self e }
        ensures voice { result ≡ after (spec.step settings) (length out.old) self }
        ensures out { out.new ≡ samples (spec.step settings) (length out.old) self }
    {
        let mut voice = self;
        for sample in out.iter_mut() {
            voice = voice.step(settings, e);
            *sample = voice.tone_lp;
        }
        voice
    }

    // The parts of a turn of the loop that come to rest.
    fn excitation(self, settings: Settings) -> Excitation
        ensures { result ≡ excitation settings self }
    {
        // Q39 / Q40. Two fields of the record, which C knows by name, make a pulse.
        let trigger_pulse = TriggerPulse {
            remaining_samples: self.pulse_remaining_samples,
            pulse: self.pulse,
        };
        let p = trigger_pulse.next(self.pulse_height, self.pulse_decay_time);

        // C40 / R163 / R162 / D83
        let pulse_lp = utils::one_pole(self.pulse_lp, p.pulse, 1.0 / self.pulse_filter_time);
        let rectified = diode((p.pulse - pulse_lp) + p.pulse * 0.044);

        let m = self.fm_pulse();
        let fm_pulse_lp = utils::one_pole(
            self.fm_pulse_lp,
            m.fm_pulse,
            1.0 / self.pulse_filter_time,
        );

        // Q43 / R165
        let attack_fm = fm_pulse_lp * 1.7 * settings.attack_fm_amount;
        Excitation {
            pulse_remaining_samples: p.remaining_samples,
            fm_pulse_remaining_samples: m.remaining_samples,
            pulse: p.pulse,
            pulse_lp,
            fm_pulse_lp,
            rectified,
            leak: rectified * settings.exciter_leak,
            attack: 1.0 + attack_fm,
        }
    }

    // Whether the turn leaves the pulses and their low-passes as they are.
    // (A derived `==` would have -0.0 equal to 0.0, and a NaN unequal to itself.)
    fn is_at_rest(self, e: Excitation) -> bool
        ensures { IsTrue result ↔ AtRest self e }
    {
        e.pulse_remaining_samples == self.pulse_remaining_samples
            && e.fm_pulse_remaining_samples == self.fm_pulse_remaining_samples
            && ieee754::is_same(e.pulse, self.pulse)
            && ieee754::is_same(e.pulse_lp, self.pulse_lp)
            && ieee754::is_same(e.fm_pulse_lp, self.fm_pulse_lp)
    }

    // What is left of the turn. The sample is tone_lp.
    fn step(self, settings: Settings, e: Excitation) -> Self
        requires { e ≡ excitation settings self }
        ensures { result ≡ (spec.step settings self).next }
    {
        let m = self.fm_pulse();

        // Q43 and R170 leakage
        let punch = 0.7 + diode(10.0 * self.lp_out - 1.0);

        // Q43 / R165
        let self_fm = punch * 0.08 * settings.self_fm_amount;
        let f = ieee754::clamp(settings.f0 * (e.attack + self_fm), 0.0, 0.4);

        let tuned = self
            .resonator
            .set_f_q(f, 1.0 + settings.q * f, FrequencyApproximation::Dirty);
        let d = tuned.process_dual(
            (e.rectified - m.retrig_pulse * 0.2) * settings.scale,
            FilterMode::BandPass,
            FilterMode::LowPass,
        );
        AnalogBassDrum {
            pulse_remaining_samples: e.pulse_remaining_samples,
            fm_pulse_remaining_samples: e.fm_pulse_remaining_samples,
            pulse: e.pulse,
            pulse_lp: e.pulse_lp,
            fm_pulse_lp: e.fm_pulse_lp,
            retrig_pulse: m.retrig_pulse,
            lp_out: d.out_2,
            tone_lp: utils::one_pole(self.tone_lp, e.leak + d.out_1, settings.tone_f),
            resonator: d.filter,
            ..self
        }
    }

    // Q41 / Q42, C39 / C52, C39 / R161. No `TriggerPulse`: this one has two outputs, of fixed heights, and only the second decays.
    fn fm_pulse(self) -> FmPulse
        ensures { result ≡ fm_pulse self }
    {
        if self.fm_pulse_remaining_samples == 0 {
            return FmPulse {
                remaining_samples: 0,
                fm_pulse: 0.0,
                retrig_pulse: self.retrig_pulse * (1.0 - 1.0 / self.retrig_pulse_duration),
            };
        }
        let remaining_samples = self.fm_pulse_remaining_samples - 1;
        FmPulse {
            remaining_samples,
            fm_pulse: 1.0,
            retrig_pulse: if remaining_samples == 0 { -0.8 } else { 0.0 },
        }
    }
}

impl Knobs {
    // The questions of a run, written out for each voice: its own knobs, in the scope's order. No `BlockLength`: nothing is made of the length.
    #[tactic(auto, unfolding(crate::specs::AnalogBassDrum::run_refusal, crate::specs::AnalogBassDrum::knobs_refusal))]
    fn asked(self, samples: usize) -> Result<(), Refusal>
        ensures { answer_number result ≡ spec.run_refusal self samples }
    {
        ask(is_block_length(samples), Refusal::BlockLength)?;
        ask(is_frequency(self.f0), Refusal::Frequency)?;
        ask(is_unit(self.tone), Refusal::Knob)?;
        ask(is_bass_decay(self.decay), Refusal::Knob)?;
        ask(is_unit(self.attack_fm_amount), Refusal::Knob)?;
        ask(is_unit(self.self_fm_amount), Refusal::Knob)?;
        Ok(())
    }

    // The lines before the loop.
    fn settings(self) -> Settings
        ensures { result ≡ spec.settings self }
    {
        Settings {
            f0: self.f0,
            scale: 0.001 / self.f0,
            q: 1500.0 * units::semitones_to_ratio(self.decay * 80.0),
            tone_f: ieee754::minimum_number(
                4.0 * self.f0 * units::semitones_to_ratio(self.tone * 108.0),
                1.0,
            ),
            exciter_leak: 0.08 * (self.tone + 0.25),
            attack_fm_amount: self.attack_fm_amount,
            self_fm_amount: self.self_fm_amount,
        }
    }
}

fn diode(x: f32) -> f32
    ensures { result ≡ spec.diode x }
{
    if x >= 0.0 {
        return x;
    }
    // y is negative or no number, so this is 1.0 plus its magnitude
    let y = x * 2.0;
    0.7 * y / (1.0 - y)
}
