// drums/synthetic_bass_drum.rs, in part: the click and the hiss that its attack is made of, each by itself, and both over a block.
#![tactic(auto)]

ghost use Rattle.std.specs.Prelude.{◌≡◌, length, replicate};
ghost use Rattle.block.specs.Block.{scan, scanned};
ghost use Rattle.refusal.specs.Refusal.{call_number, call_voice};
ghost use Rattle.synthetic_bass_drum.specs.Click as Click;
ghost use Rattle.synthetic_bass_drum.specs.AttackNoise as AttackNoise;
ghost use Rattle.synthetic_bass_drum.specs.Transient as Transient;

use block::Turn;
use filter::{FilterMode, FrequencyApproximation, Svf};
use refusal::{Refusal, Refused, ask, is_block_length, is_sample_rate};

#[repr(C)]
#[derive(Clone, Copy)]
pub struct SyntheticBassDrumClick {
    pub sample_rate_hz: f32,
    pub lp: f32,
    pub hp: f32,
    pub filter: Svf,
}

// A click after one sample, and its output.
#[repr(C)]
#[derive(Clone, Copy)]
pub struct SyntheticBassDrumClickOutput {
    pub click: SyntheticBassDrumClick,
    pub out: f32,
}

impl SyntheticBassDrumClick {
    // Every field zero, for `init` to overwrite. (No `Default`: the scope leaves it out.)
    pub const ZERO: SyntheticBassDrumClick = SyntheticBassDrumClick {
        sample_rate_hz: 0.0,
        lp: 0.0,
        hp: 0.0,
        filter: Svf::ZERO,
    };

    pub fn init(self, sample_rate_hz: f32) -> Result<Self, Refused<Self>>
        ensures number { call_number result ≡ (Click.init self sample_rate_hz).number }
        ensures click { call_voice result ≡ (Click.init self sample_rate_hz).state }
    {
        ask(is_sample_rate(sample_rate_hz), Refusal::SampleRate).map_err(|refusal| refusal.of(
            self,
        ))?;
        Ok(self.initialized(sample_rate_hz))
    }

    fn initialized(self, sample_rate_hz: f32) -> Self
        ensures { result ≡ Click.initialized self sample_rate_hz }
    {
        let filter = self.filter.init();
        let filter = filter.set_f_q(5000.0 / sample_rate_hz, 2.0, FrequencyApproximation::Fast);
        SyntheticBassDrumClick {
            sample_rate_hz,
            filter,
            ..SyntheticBassDrumClick::ZERO
        }
    }

    // One sample. The input is a level: the click is what a rise from 0.0 to 1.0 gives.
    pub fn process(self, in_: f32) -> SyntheticBassDrumClickOutput
        ensures { result ≡ Click.process self in_ }
    {
        let lp = utils::slope(self.lp, in_, 0.5, 0.1);
        let hp = utils::one_pole(self.hp, lp, 0.04);
        let low = self.filter.process(lp - hp, FilterMode::LowPass);
        SyntheticBassDrumClickOutput {
            click: SyntheticBassDrumClick {
                lp,
                hp,
                filter: low.filter,
                ..self
            },
            out: low.out,
        }
    }
}

#[repr(C)]
#[derive(Clone, Copy)]
pub struct SyntheticBassDrumAttackNoise {
    pub lp: f32,
    pub hp: f32,
}

// A hiss after one sample, the noise state after its draw, and its output.
#[repr(C)]
#[derive(Clone, Copy)]
pub struct SyntheticBassDrumAttackNoiseOutput {
    pub attack_noise: SyntheticBassDrumAttackNoise,
    pub noise: u32,
    pub out: f32,
}

impl SyntheticBassDrumAttackNoise {
    // Every field zero, for `init` to overwrite. (No `Default`: the scope leaves it out.)
    pub const ZERO: SyntheticBassDrumAttackNoise = SyntheticBassDrumAttackNoise {
        lp: 0.0,
        hp: 0.0,
    };

    pub fn init(self) -> Self
        ensures { result ≡ AttackNoise.init }
    {
        SyntheticBassDrumAttackNoise::ZERO
    }

    // One sample. The noise state goes in and comes back.
    pub fn render(self, noise: u32) -> SyntheticBassDrumAttackNoiseOutput
        ensures { result ≡ AttackNoise.render self noise }
    {
        let draw = random::get_float(noise);
        let lp = utils::one_pole(self.lp, draw.value, 0.05);
        let hp = utils::one_pole(self.hp, lp, 0.005);
        SyntheticBassDrumAttackNoiseOutput {
            attack_noise: SyntheticBassDrumAttackNoise { lp, hp },
            noise: draw.word,
            out: lp - hp,
        }
    }
}

// The Rust's `transient`, click plus hiss, by itself, with the noise state that the hiss draws from.
#[repr(C)]
#[derive(Clone, Copy)]
pub struct SyntheticBassDrumTransient {
    pub click: SyntheticBassDrumClick,
    pub attack_noise: SyntheticBassDrumAttackNoise,
    pub noise: u32,
}

impl SyntheticBassDrumTransient {
    // Every field zero, for `init` to overwrite. (No `Default`: the scope leaves it out.)
    pub const ZERO: SyntheticBassDrumTransient = SyntheticBassDrumTransient {
        click: SyntheticBassDrumClick::ZERO,
        attack_noise: SyntheticBassDrumAttackNoise::ZERO,
        noise: 0,
    };

    // Both parts from their `init`, the click's with its question. The noise state is the one that the Rust's begins with, 0x21.
    pub fn init(self, sample_rate_hz: f32) -> Result<Self, Refused<Self>>
        ensures number { call_number result ≡ (Transient.init self sample_rate_hz).number }
        ensures transient { call_voice result ≡ (Transient.init self sample_rate_hz).state }
    {
        let click = self
            .click
            .init(sample_rate_hz)
            .map_err(|refused| refused.refusal.of(self))?;
        Ok(SyntheticBassDrumTransient {
            click,
            attack_noise: self.attack_noise.init(),
            noise: 33,
        })
    }

    // A block in which the click is fed 0.0 for its first n samples and 1.0 afterwards.
    pub fn render(self, n: usize, out: &mut [f32]) -> Result<Self, Refused<Self>>
        ensures number { call_number result ≡ (Transient.render self n out.old).number }
        ensures transient { call_voice result ≡ (Transient.render self n out.old).state }
        ensures out { out.new ≡ (Transient.render self n out.old).out }
    {
        ask(is_block_length(out.len()), Refusal::BlockLength).map_err(|refusal| refusal.of(self))?;
        let (zeros, ones) = out.split_at_mut(n.min(out.len()));
        Ok(self.held(0.0, zeros).held(1.0, ones))
    }

    // A block in which the click is fed one level.
    fn held(self, in_: f32, out: &mut [f32]) -> Self
        ensures transient { result ≡ scanned Transient.turn self (replicate (length out.old) in_) }
        ensures out { out.new ≡ scan Transient.turn self (replicate (length out.old) in_) }
    {
        block::pass(self, out, |transient, _| transient.turn(in_))
    }

    // One turn of the loop: click plus hiss.
    #[tactic(auto, unfolding(crate::specs::Transient::turn))]
    fn turn(self, in_: f32) -> Turn<Self>
        ensures { result ≡ Transient.turn self in_ }
    {
        let click = self.click.process(in_);
        let hiss = self.attack_noise.render(self.noise);
        Turn {
            sample: click.out + hiss.out,
            next: SyntheticBassDrumTransient {
                click: click.click,
                attack_noise: hiss.attack_noise,
                noise: hiss.noise,
            },
        }
    }
}
