// The sheet's own refusals, beside those of the voices' calls.
ghost use Rattle.std.specs.Prelude.{◌≡◌};
ghost use Rattle.cue_sheet.specs.Answer as spec;
ghost use Rattle.cue_sheet.specs.declared.answer.SheetRefusal.TheVariants.{Knobs};

use refusal::Refusal;

// What the voices ask of a cue's knobs keeps its number, 3 to 5; the sheet's own questions have 7 to 11, in this order.
#[derive(Clone, Copy, Debug, PartialEq, Eq)]
pub enum SheetRefusal {
    Knobs(Refusal),
    FirstLine,
    CueLine,
    CueStart,
    CueCount,
    BufferLength,
}

impl From<Refusal> for SheetRefusal {
    ghost from_gives = { λ knobs refusal. refusal ≡ Knobs knobs };

    fn from(knobs: Refusal) -> Self {
        SheetRefusal::Knobs(knobs)
    }
}

// The number that a user sees.
impl From<SheetRefusal> for u32 {
    ghost from_gives = { λ refusal number. number ≡ spec.number refusal };

    fn from(refusal: SheetRefusal) -> u32
        ensures { result ≡ spec.number refusal }
    {
        match refusal {
            SheetRefusal::Knobs(refusal) => refusal.into(),
            SheetRefusal::FirstLine => 7,
            SheetRefusal::CueLine => 8,
            SheetRefusal::CueStart => 9,
            SheetRefusal::CueCount => 10,
            SheetRefusal::BufferLength => 11,
        }
    }
}
