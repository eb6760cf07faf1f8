// A cue sheet: its lines read, one walk over them, and the sheet judged.
#![tactic(auto)]

mod answer; // answer.rt: the sheet's own refusals
mod line; // line.rt: one cue line, read where a walk comes to it
mod voice; // voice.rt: the voices and their letters
mod walk; // walk.rt: one cue line after the other

ghost use Rattle.std.specs.Prelude.{◌≡◌};
ghost use Rattle.cue_sheet.specs.Sheet as spec;

pub use answer::SheetRefusal;
pub use line::{Cue, Strike, Walk};
use text::read::{decimal, split_field, split_line, without_end};
pub use voice::Voice;
pub use walk::{CueLines, RefusedAt};

// What the first line says.
#[derive(Clone, Copy)]
pub struct Head {
    pub rate: u32,
    pub length: u32,
}

// Of an accepted sheet, its first line and the number of its cues.
#[derive(Clone, Copy)]
pub struct Accepted {
    pub head: Head,
    pub cues: u32,
}

// `rate,length` and a line end. A length with a comma in it is none, so there are two fields.
pub fn read_first_line(line: &[u8]) -> Option<Head>
    ensures { result ≡ spec.read_first_line line.now }
{
    let (rate, length) = split_field(without_end(line)?)?;
    let rate = decimal(rate, 96000)?;
    let length = decimal(length, 16384)?;
    if rate < 16000 {
        return None;
    }
    Some(Head { rate, length })
}

pub fn judge(sheet: &[u8]) -> Result<Accepted, RefusedAt>
    ensures { spec.answer result ≡ spec.judge sheet.now }
{
    let (first, _) = split_line(sheet);
    let head = read_first_line(first).ok_or(RefusedAt {
        refusal: SheetRefusal::FirstLine,
        line: 1,
    })?;
    // Counted here though the walk counts too: after a `for` over `&mut lines` nothing is known of `lines`, nor of its count.
    let mut cues = 0;
    for line in CueLines::begin(sheet, head) {
        line?;
        cues += 1;
    }
    Ok(Accepted { head, cues })
}
