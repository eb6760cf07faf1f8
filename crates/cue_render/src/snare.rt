// The analog snare in a sheet.
ghost use Rattle.analog_snare_drum.specs.AnalogSnareDrum as spec;
ghost use Rattle.cue_render.specs.Voices.{snare};

use crate::drum::Drum;
use analog_snare_drum::{AnalogSnareDrum, Knobs};
use cue_sheet::Cue;
use refusal::number_and_voice;

impl Drum for AnalogSnareDrum {
    // accent and knobs
    type Sets = (f32, Knobs);

    ghost player = { snare };

    ghost calls = { λ sets. record { strike = λ v. spec.strike v sets.0; run = λ v. spec.run v sets.1 } };

    fn begin(sample_rate_hz: f32) -> Self {
        number_and_voice(AnalogSnareDrum::ZERO.init(sample_rate_hz)).1
    }

    #[tactic(auto, unfolding(crate::specs::Voices::snare_cue))]
    fn own(cue: Cue) -> Option<(f32, Knobs)> {
        match cue {
            Cue::Snare {
                accent,
                f0,
                tone,
                decay,
                snappy,
            } => Some((
                accent,
                Knobs {
                    f0,
                    tone,
                    decay,
                    snappy,
                },
            )),
            _ => None,
        }
    }

    fn play(self, (accent, knobs): (f32, Knobs), out: &mut [f32]) -> Self {
        let struck = number_and_voice(self.strike(accent)).1;
        number_and_voice(struck.run(knobs, out)).1
    }
}
