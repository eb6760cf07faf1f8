// The hi-hat in a sheet.
ghost use Rattle.hihat.specs.Hihat as spec;
ghost use Rattle.hihat.specs.declared.VcaType.TheVariants.{Swing};
ghost use Rattle.cue_render.specs.Voices.{hihat};

use crate::drum::Drum;
use cue_sheet::Cue;
use hihat::{Hihat, Knobs, VcaType};
use refusal::number_and_voice;

impl Drum for Hihat {
    type Sets = Knobs;

    ghost player = { hihat };

    ghost calls = { λ knobs. record { strike = λ v. spec.strike v knobs.accent knobs.decay; run = λ v. spec.run v Swing knobs } };

    fn begin(sample_rate_hz: f32) -> Self {
        number_and_voice(Hihat::ZERO.init(sample_rate_hz)).1
    }

    #[tactic(auto, unfolding(crate::specs::Voices::hihat_cue))]
    fn own(cue: Cue) -> Option<Knobs> {
        match cue {
            Cue::Hihat {
                accent,
                f0,
                tone,
                decay,
                noisiness,
            } => Some(Knobs {
                sustain: false,
                accent,
                f0,
                tone,
                decay,
                noisiness,
                resonance: true,
                two_stage_envelope: false,
            }),
            _ => None,
        }
    }

    fn play(self, knobs: Knobs, out: &mut [f32]) -> Self {
        let struck = number_and_voice(self.strike(knobs.accent, knobs.decay)).1;
        number_and_voice(struck.run(VcaType::Swing, knobs, out)).1
    }
}
