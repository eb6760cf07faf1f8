// One sample through the passes of the Rust's `Hihat::render`, past the metallic noise.
ghost use Rattle.std.specs.Prelude.{◌≡◌};
ghost use Rattle.hihat.specs.Hihat as spec;

use crate::{Hihat, Settings, VcaType};
use block::Turn;
use filter::FilterMode;
use parameter_interpolator::ParameterInterpolator;

impl Hihat {
    // Apply BPF on the metallic noise.
    pub(crate) fn colored(self, sample: f32) -> Turn<Self>
        ensures { result ≡ spec.colored self sample }
    {
        let o = self
            .noise_coloration_svf
            .process(sample, FilterMode::BandPass);
        Turn {
            sample: o.out,
            next: Hihat {
                noise_coloration_svf: o.filter,
                ..self
            },
        }
    }

    // Noise that is drawn anew at each tick of the clock, blended with the sample.
    pub(crate) fn clocked(self, settings: Settings, out: f32) -> Turn<Self>
        ensures { result ≡ spec.clocked settings self out }
    {
        let noise_clock = self.noise_clock + settings.noise_f;
        if noise_clock >= 1.0 {
            let draw = random::get_float(self.noise);
            let noise_sample = draw.value - 0.5;
            return Turn {
                sample: out + settings.noisiness * (noise_sample - out),
                next: Hihat {
                    noise_clock: noise_clock - 1.0,
                    noise_sample,
                    noise: draw.word,
                    ..self
                },
            };
        }
        Turn {
            sample: out + settings.noisiness * (self.noise_sample - out),
            next: Hihat {
                noise_clock,
                ..self
            },
        }
    }

    // Apply VCA.
    pub(crate) fn amplified(self, settings: Settings, sample: f32) -> Turn<Self>
        ensures { result ≡ spec.amplified settings self sample }
    {
        let vca_type = settings.vca_type;
        let envelope = self.envelope * decay(settings, self.envelope);
        if settings.sustain {
            let gain = ParameterInterpolator {
                value: self.sustain_gain,
                increment: settings.gain_increment,
            };
            let sustain_gain = gain.next().value;
            return Turn {
                sample: amplify(vca_type, sample, sustain_gain),
                next: Hihat {
                    envelope,
                    sustain_gain,
                    ..self
                },
            };
        }
        Turn {
            sample: amplify(vca_type, sample, envelope),
            next: Hihat { envelope, ..self },
        }
    }

    pub(crate) fn high_passed(self, sample: f32) -> Turn<Self>
        ensures { result ≡ spec.high_passed self sample }
    {
        let o = self.hpf.process(sample, FilterMode::HighPass);
        Turn {
            sample: o.out,
            next: Hihat {
                hpf: o.filter,
                ..self
            },
        }
    }
}

fn decay(settings: Settings, envelope: f32) -> f32
    ensures { result ≡ spec.decay settings envelope }
{
    if envelope > 0.5 {
        return settings.envelope_decay;
    }
    if settings.two_stage_envelope {
        return settings.cut_decay;
    }
    settings.envelope_decay
}

fn amplify(vca_type: VcaType, s: f32, gain: f32) -> f32
    ensures { result ≡ spec.amplify vca_type s gain }
{
    match vca_type {
        VcaType::Swing => swing_vca(s, gain),
        VcaType::Linear => linear_vca(s, gain),
    }
}

fn swing_vca(s: f32, gain: f32) -> f32
    ensures { result ≡ spec.swing_vca s gain }
{
    let driven = drive(s);
    (driven / (1.0 + ieee754::abs(driven)) + 0.1) * gain
}

// The gain of the two halves of the wave.
fn drive(s: f32) -> f32
    ensures { result ≡ spec.drive s }
{
    if s > 0.0 { s * 4.0 } else { s * 0.1 }
}

fn linear_vca(s: f32, gain: f32) -> f32
    ensures { result ≡ spec.linear_vca s gain }
{
    s * gain
}
