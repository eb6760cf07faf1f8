// A cue sheet rendered to samples: voice after voice over the whole buffer, each from init and struck by its own cues alone. That this gives the samples of
// the segments into which all cues cut a sheet is a theorem (crates/track/proofs/Alone.antt), and the contract cites the segments.
#![tactic(auto)]

mod bass; // bass.rt: the bass as a sheet plays it, and so the other voices
mod drum; // drum.rt: what that takes, of any voice
mod hi_hat;
mod mix; // mix.rt: blocks added sample by sample
mod snare;
mod synthetic_snare;
mod own_track; // own_track.rt: a voice's track, added to the buffer

ghost use Rattle.std.specs.Prelude.{◌≡◌};
ghost use Rattle.cue_sheet.specs.Sheet as Sheet;
ghost use Rattle.cue_sheet.specs.Sheet.{strikes};
ghost use Rattle.cue_render.specs.Calls.{NoneRefused};
ghost use Rattle.cue_render.specs.Render as spec;
ghost use Rattle.cue_render.specs.Run.{Playable};

use analog_bass_drum::AnalogBassDrum;
use analog_snare_drum::AnalogSnareDrum;
use cue_sheet::{Accepted, Head, RefusedAt, SheetRefusal};
use hihat::Hihat;
use own_track::add_track;
use synthetic_snare_drum::SyntheticSnareDrum;

// A sheet into the first places of a buffer. The others stay as they were, and so do all of them where the sheet is refused. No voice refuses
// a call that an accepted sheet makes of it.
pub fn render(sheet: &[u8], out: &mut [f32]) -> Result<Accepted, RefusedAt>
    ensures answer { Sheet.answer result ≡ spec.answer sheet.now out.old }
    ensures out { out.new ≡ spec.render sheet.now out.old }
    ensures calls { NoneRefused sheet.now }
{
    let accepted = cue_sheet::judge(sheet)?;
    let length = accepted.head.length as usize;
    if out.len() < length {
        // The scope answers 11 with line 0, a number that no line of a sheet has: so this is no `Option` of a line.
        return Err(RefusedAt {
            refusal: SheetRefusal::BufferLength,
            line: 0,
        });
    }
    // as long as the longest sheet
    let mut scratch = [0.0f32; 16384];
    render_voices(sheet, accepted.head, &mut out[..length], &mut scratch);
    Ok(accepted)
}

// An accepted sheet, into a buffer of its length. Here and in `add_track` it is `sheet` and `head`, and not `CueLines`: the definition's track is of these.
fn render_voices(sheet: &[u8], head: Head, out: &mut [f32], scratch: &mut [f32])
    requires { Playable head out.old scratch.old }
    ensures { out.new ≡ spec.samples head (strikes head sheet.now) }
{
    out.fill(0.0);
    add_track::<AnalogBassDrum>(sheet, head, out, scratch);
    add_track::<AnalogSnareDrum>(sheet, head, out, scratch);
    add_track::<SyntheticSnareDrum>(sheet, head, out, scratch);
    add_track::<Hihat>(sheet, head, out, scratch);
}
