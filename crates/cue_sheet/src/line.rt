// One line after the first, `start,voice,accent,f0,a,decay,c`: its fields, the questions that it must pass where a walk comes to it, and its cue.
ghost use Rattle.std.specs.Prelude.{◌≡◌};
ghost use Rattle.cue_sheet.specs.CueLine as spec;
ghost use Rattle.cue_sheet.specs.Fields.{knob, read_fields};

use crate::Head;
use crate::answer::SheetRefusal;
use crate::voice::Voice;
use ieee754::from_bits;
use refusal::{Refusal, ask, is_bass_decay, is_frequency, is_unit};
use text::read::{decimal, pattern, split_field, without_end};

// One of four strikes, each with its own knobs under their names; one struct with an a and a c would be no plainer to whoever plays a cue.
#[derive(Clone, Copy)]
pub enum Cue {
    Bass {
        accent: f32,
        f0: f32,
        tone: f32,
        decay: f32,
        attack_fm_amount: f32,
    },
    Snare {
        accent: f32,
        f0: f32,
        tone: f32,
        decay: f32,
        snappy: f32,
    },
    SyntheticSnare {
        accent: f32,
        f0: f32,
        fm_amount: f32,
        decay: f32,
        snappy: f32,
    },
    Hihat {
        accent: f32,
        f0: f32,
        tone: f32,
        decay: f32,
        noisiness: f32,
    },
}

// What a line says that passes its questions.
#[derive(Clone, Copy)]
pub struct Strike {
    pub start: u32,
    pub cue: Cue,
}

// The fields of a line that are well formed. What a and c set depends on the voice.
#[derive(Clone, Copy)]
struct Fields {
    start: u32,
    voice: Voice,
    accent: f32,
    f0: f32,
    a: f32,
    decay: f32,
    c: f32,
}

// The decay of a bass goes up to 2.0, that of any other voice up to 1.0.
#[tactic(auto, unfolding(crate::specs::CueLine::is_decay))]
fn is_decay(voice: Voice, decay: f32) -> bool
    ensures { result ≡ spec.is_decay voice decay }
{
    match voice {
        Voice::Bass => is_bass_decay(decay),
        _ => is_unit(decay),
    }
}

// A knob is the bit pattern of a float.
fn read_knob(field: &[u8]) -> Option<f32>
    ensures { result ≡ knob field.now }
{
    Some(from_bits(pattern(field)?))
}

// A knob with a comma in it is none, so there are seven fields.
fn read_fields(line: &[u8]) -> Option<Fields>
    ensures { result ≡ read_fields line.now }
{
    let (start, rest) = split_field(without_end(line)?)?;
    let (voice, rest) = split_field(rest)?;
    let (accent, rest) = split_field(rest)?;
    let (f0, rest) = split_field(rest)?;
    let (a, rest) = split_field(rest)?;
    let (decay, c) = split_field(rest)?;
    Some(Fields {
        start: decimal(start, 99999)?,
        voice: Voice::read(voice)?,
        accent: read_knob(accent)?,
        f0: read_knob(f0)?,
        a: read_knob(a)?,
        decay: read_knob(decay)?,
        c: read_knob(c)?,
    })
}

#[tactic(auto, unfolding(crate::specs::CueLine::cue_of))]
fn cue_of(fields: Fields) -> Cue
    ensures { result ≡ spec.cue_of fields }
{
    match fields.voice {
        Voice::Bass => Cue::Bass {
            accent: fields.accent,
            f0: fields.f0,
            tone: fields.a,
            decay: fields.decay,
            attack_fm_amount: fields.c,
        },
        Voice::Snare => Cue::Snare {
            accent: fields.accent,
            f0: fields.f0,
            tone: fields.a,
            decay: fields.decay,
            snappy: fields.c,
        },
        Voice::SyntheticSnare => Cue::SyntheticSnare {
            accent: fields.accent,
            f0: fields.f0,
            fm_amount: fields.a,
            decay: fields.decay,
            snappy: fields.c,
        },
        Voice::Hihat => Cue::Hihat {
            accent: fields.accent,
            f0: fields.f0,
            tone: fields.a,
            decay: fields.decay,
            noisiness: fields.c,
        },
    }
}

// Where a walk over a sheet has come to: the number of the next line, the cues read so far, and the lowest start that the next cue may have.
#[derive(Clone, Copy)]
pub struct Walk {
    pub head: Head,
    pub line: u32,
    pub cues: u32,
    pub least_start: u32,
}

impl Walk {
    // What the next line, with its line end, says: a strike, or the first question that it does not pass. `CueLines` takes the walk on.
    #[tactic(auto, unfolding(crate::specs::CueLine::read_cue))]
    pub fn read_cue(self, line: &[u8]) -> Result<Strike, SheetRefusal>
        ensures { spec.told result ≡ spec.read_cue self line.now }
    {
        ask(self.cues < 64, SheetRefusal::CueCount)?;
        let fields = read_fields(line).ok_or(SheetRefusal::CueLine)?;
        ask(fields.start < self.head.length, SheetRefusal::CueStart)?;
        ask(self.least_start <= fields.start, SheetRefusal::CueStart)?;
        ask(is_frequency(fields.f0), Refusal::Frequency)?;
        ask(is_unit(fields.accent), Refusal::Accent)?;
        ask(is_unit(fields.a), Refusal::Knob)?;
        ask(is_decay(fields.voice, fields.decay), Refusal::Knob)?;
        ask(is_unit(fields.c), Refusal::Knob)?;
        Ok(Strike {
            start: fields.start,
            cue: cue_of(fields),
        })
    }
}
