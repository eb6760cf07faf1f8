// One voice's track, added to a buffer: each of its cues from its start to the start of its next, or to the sheet's end.
ghost use Rattle.std.specs.Prelude.{◌≡◌};
ghost use Rattle.cue_sheet.specs.Sheet.{strikes};
ghost use Rattle.track.specs.Mix.{mixed};
ghost use Rattle.track.specs.Track.{track};
ghost use Rattle.track.specs.Own.{owns};
ghost use Rattle.track.specs.Lawful.{Tested};
ghost use Rattle.cue_render.specs.Run.{Playable, end_of, left, from_next};

use crate::drum::Drum;
use crate::mix;
use cue_sheet::{CueLines, Head, Strike};

// A cue of the voice's own: where it starts, and what it sets.
#[derive(Clone, Copy)]
struct OwnCue<Sets> {
    start: u32,
    sets: Sets,
}

pub(crate) fn add_track<D: Drum>(sheet: &[u8], head: Head, out: &mut [f32], scratch: &mut [f32])
    requires lawful { Tested D.player }
    requires playable { Playable head out.old scratch.old }
    ensures { out.new ≡ mixed out.old (track D.player head (strikes head sheet.now)) }
{
    let mut voice = D::begin(ieee754::nearest_f32(head.rate));
    let mut lines = CueLines::begin(sheet, head);
    // A `while let`: a cue's run ends where the next own cue starts, so one is read ahead.
    let mut next = next_of::<D>(&mut lines);
    while let Some(cue) = next {
        next = next_of::<D>(&mut lines);
        let from = cue.start as usize;
        let to = end_of(next, head.length) as usize;
        // What the two slices below need (`fits` of proofs/Pass.antt).
        prove!(from <= to && to <= out.len() && to - from <= scratch.len());
        let block = &mut scratch[..to - from];
        voice = voice.play(cue.sets, block);
        mix::add_to(&mut out[from..to], block);
    }
}

// The voice's next cue among the lines that are left, and the lines after it.
fn next_of<D: Drum>(lines: &mut CueLines) -> Option<OwnCue<D::Sets>>
    ensures { owns D.player (left lines.old) ≡ from_next D.calls result (owns D.player (left lines.new)) }
{
    lines.find_map(|line| {
        let Strike { start, cue } = line.ok()?;
        Some(OwnCue {
            start,
            sets: D::own(cue)?,
        })
    })
}

// Where the run before a cue ends.
fn end_of<Sets: Copy>(next: Option<OwnCue<Sets>>, length: u32) -> u32
    ensures { result ≡ end_of length next }
{
    next.map_or(length, |cue| cue.start)
}
