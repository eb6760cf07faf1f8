// The four voices of a sheet and their letters.
ghost use Rattle.std.specs.Prelude.{◌≡◌};
ghost use Rattle.cue_sheet.specs.Fields as spec;

#[derive(Clone, Copy, Debug, PartialEq, Eq)]
pub enum Voice {
    Bass,
    Snare,
    SyntheticSnare,
    Hihat,
}

impl Voice {
    // The voice whose letter a field is.
    // An Option, and no TryFrom: a letter that is no voice's has no error of its own, its line is refused as a whole, by 8.
    #[tactic(auto, unfolding(crate::specs::Fields::voice_of))]
    pub(crate) fn read(field: &[u8]) -> Option<Self>
        ensures { result ≡ spec.voice_of (spec.letter field.now) }
    {
        match field {
            [b'b'] => Some(Voice::Bass),
            [b's'] => Some(Voice::Snare),
            [b'y'] => Some(Voice::SyntheticSnare),
            [b'h'] => Some(Voice::Hihat),
            _ => None,
        }
    }
}
