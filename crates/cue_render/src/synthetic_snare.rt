// The synthetic snare in a sheet.
ghost use Rattle.synthetic_snare_drum.specs.SyntheticSnareDrum as spec;
ghost use Rattle.cue_render.specs.Voices.{synthetic_snare};

use crate::drum::Drum;
use cue_sheet::Cue;
use refusal::number_and_voice;
use synthetic_snare_drum::{Knobs, SyntheticSnareDrum};

impl Drum for SyntheticSnareDrum {
    type Sets = Knobs;

    ghost player = { synthetic_snare };

    ghost calls = { λ knobs. record { strike = λ v. spec.strike v knobs.accent knobs.decay; run = λ v. spec.run v knobs } };

    fn begin(sample_rate_hz: f32) -> Self {
        number_and_voice(SyntheticSnareDrum::ZERO.init(sample_rate_hz)).1
    }

    #[tactic(auto, unfolding(crate::specs::Voices::synthetic_snare_cue))]
    fn own(cue: Cue) -> Option<Knobs> {
        match cue {
            Cue::SyntheticSnare {
                accent,
                f0,
                fm_amount,
                decay,
                snappy,
            } => Some(Knobs {
                sustain: false,
                accent,
                f0,
                fm_amount,
                decay,
                snappy,
            }),
            _ => None,
        }
    }

    fn play(self, knobs: Knobs, out: &mut [f32]) -> Self {
        let struck = number_and_voice(self.strike(knobs.accent, knobs.decay)).1;
        number_and_voice(struck.run(knobs, out)).1
    }
}
