// The walk over the lines of a sheet after the first. Nothing is stored: whoever renders a sheet walks over its lines again.
ghost use Rattle.std.specs.Prelude.{◌≡◌, length, drop};
ghost use Rattle.std.specs.Iterator.{at_most};
ghost use Rattle.text.specs.Read.{first_line};
ghost use Rattle.cue_sheet.specs.Sheet as spec;
ghost use Rattle.cue_sheet.specs.Walks.{walks};

use crate::Head;
use crate::answer::SheetRefusal;
use crate::line::{Strike, Walk};
use text::read::split_line;

// A refusal, and the line that is refused, counted from 1.
#[derive(Clone, Copy, Debug, PartialEq, Eq)]
pub struct RefusedAt {
    pub refusal: SheetRefusal,
    pub line: u32,
}

// The lines that a walk has not come to yet.
#[derive(Clone, Copy)]
pub struct CueLines<'a> {
    pub rest: &'a [u8],
    pub walk: Walk,
}

impl<'a> CueLines<'a> {
    // All lines after the first, whatever that says.
    pub fn begin(sheet: &'a [u8], head: Head) -> Self
        ensures rest { result.rest.now ≡ drop (length (first_line sheet.now)) sheet.now }
        ensures walk { result.walk ≡ spec.begin head }
    {
        let (_, rest) = split_line(sheet);
        let walk = Walk {
            head,
            line: 2,
            cues: 0,
            least_start: 0,
        };
        CueLines { rest, walk }
    }
}

// What each line says. After a refused one the walk goes on: its count and its least start stay.
impl<'a> Iterator for CueLines<'a> {
    type Item = Result<Strike, RefusedAt>;

    ghost next_gives = { walks };

    ghost remaining = { λ s. at_most (length s.rest.now) };

    fn next(&mut self) -> Option<Result<Strike, RefusedAt>> {
        if self.rest.is_empty() {
            return None;
        }
        let (line, rest) = split_line(self.rest);
        let at = self.walk;
        self.rest = rest;
        // Nothing bounds the lines of a walk that goes on past refused ones: the count may come round.
        self.walk.line = at.line.wrapping_add(1);
        match at.read_cue(line) {
            Ok(strike) => {
                self.walk.cues = at.cues + 1;
                self.walk.least_start = strike.start + 1;
                Some(Ok(strike))
            }
            Err(refusal) => Some(Err(RefusedAt {
                refusal,
                line: at.line,
            })),
        }
    }
}
