// The bass in a sheet.
ghost use Rattle.analog_bass_drum.specs.AnalogBassDrum as spec;
ghost use Rattle.cue_render.specs.Voices.{bass};

use crate::drum::Drum;
use analog_bass_drum::{AnalogBassDrum, Knobs};
use cue_sheet::Cue;
use refusal::number_and_voice;

impl Drum for AnalogBassDrum {
    // accent and knobs
    type Sets = (f32, Knobs);

    ghost player = { bass };

    ghost calls = { λ sets. record { strike = λ v. spec.strike v sets.0; run = λ v. spec.run v sets.1 } };

    fn begin(sample_rate_hz: f32) -> Self {
        number_and_voice(AnalogBassDrum::ZERO.init(sample_rate_hz)).1
    }

    #[tactic(auto, unfolding(crate::specs::Voices::bass_cue))]
    fn own(cue: Cue) -> Option<(f32, Knobs)> {
        match cue {
            Cue::Bass {
                accent,
                f0,
                tone,
                decay,
                attack_fm_amount,
            } => Some((
                accent,
                Knobs {
                    f0,
                    tone,
                    decay,
                    attack_fm_amount,
                    self_fm_amount: 0.0,
                },
            )),
            _ => None,
        }
    }

    fn play(self, (accent, knobs): (f32, Knobs), out: &mut [f32]) -> Self {
        let struck = number_and_voice(self.strike(accent)).1;
        number_and_voice(struck.run(knobs, out)).1
    }
}
