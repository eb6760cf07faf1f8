// The trigger pulse of the analog voices: a countdown at its height, a last sample one lower, then a decay.
#![tactic(auto)]

ghost use Rattle.std.specs.Prelude.{◌≡◌};
ghost use Rattle.trigger_pulse.specs.TriggerPulse as spec;

#[derive(Clone, Copy)]
pub struct TriggerPulse {
    pub remaining_samples: u32,
    pub pulse: f32,
}

impl TriggerPulse {
    // The pulse of the next sample.
    pub fn next(self, height: f32, decay_time: f32) -> Self
        ensures { result ≡ spec.next self.remaining_samples self.pulse height decay_time }
    {
        match self.remaining_samples.checked_sub(1) {
            None => TriggerPulse {
                remaining_samples: 0,
                pulse: self.pulse * (1.0 - 1.0 / decay_time),
            },
            Some(0) => TriggerPulse {
                remaining_samples: 0,
                pulse: height - 1.0,
            },
            Some(remaining_samples) => TriggerPulse {
                remaining_samples,
                pulse: height,
            },
        }
    }
}
