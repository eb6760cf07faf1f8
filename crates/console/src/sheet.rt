// Cue sheets.
ghost use Rattle.std.specs.Prelude.{◌≡◌};
ghost use Rattle.cue_sheet.specs.Sheet as Sheet;
ghost use Rattle.cue_render.specs.Render.{answer, render};
ghost use Rattle.console.specs.Sheet as spec;

use cue_sheet::{Accepted, RefusedAt};

// The answer to a sheet. An accepted one has number 0 and line 0; of a refused one rate, length and cues are 0.
#[repr(C)]
#[derive(Clone, Copy)]
pub struct SheetAnswered {
    pub number: u32,
    pub line: u32,
    pub rate: u32,
    pub length: u32,
    pub cues: u32,
}

impl From<Result<Accepted, RefusedAt>> for SheetAnswered {
    ghost from_gives = { λ r a. a ≡ spec.sheet (Sheet.answer r) };

    fn from(answer: Result<Accepted, RefusedAt>) -> Self {
        match answer {
            Ok(accepted) => SheetAnswered {
                number: 0,
                line: 0,
                rate: accepted.head.rate,
                length: accepted.head.length,
                cues: accepted.cues,
            },
            Err(refused) => SheetAnswered {
                number: refused.refusal.into(),
                line: refused.line,
                rate: 0,
                length: 0,
                cues: 0,
            },
        }
    }
}

// A sheet rendered into the first places of a buffer. The others stay as they were, and so do all of them where the sheet is refused.
#[unsafe(no_mangle)]
pub extern "C" fn bechullpi_sheet(sheet: &[u8], out: &mut [f32]) -> SheetAnswered
    ensures answer { result ≡ spec.sheet (answer sheet.now out.old) }
    ensures out { out.new ≡ render sheet.now out.old }
{
    cue_render::render(sheet, out).into()
}
