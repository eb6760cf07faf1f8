// A voice as a sheet plays it, by its player in the definitions. The four are in bass.rt, snare.rt, synthetic_snare.rt and hi_hat.rt.
ghost use Rattle.std.specs.Prelude.{◌≡◌, MatchOption};
ghost use Rattle.std.proofs.Math.Option.{none, some};
ghost use Rattle.track.specs.Track.{Calls, Player};

use cue_sheet::Cue;

pub(crate) trait Drum: Copy {
    // What a cue of the voice's own sets.
    type Sets: Copy;

    ghost player: { Player Self };

    // The voice's strike and run with that.
    ghost calls: { Self.Sets → Calls Self };

    // What `init` makes. Here and in `play` the voice of the call is taken and not its number: no call is refused (`NoneRefused` of `render`). `ZERO`, `init`,
    // `strike` and `run` are each voice's own and of no trait, so each impl names its voice's.
    fn begin(sample_rate_hz: f32) -> Self
        ensures { result ≡ (player.init sample_rate_hz).state };

    // What a cue sets, if it is the voice's own.
    fn own(cue: Cue) -> Option<Self::Sets>
        ensures { MatchOption result (player.calls cue ≡ none) (λ sets. player.calls cue ≡ some (calls sets)) };

    // A cue of its own strikes the voice, which then runs over a block.
    fn play(self, sets: Self::Sets, out: &mut [f32]) -> Self
        ensures voice { result ≡ ((calls sets).run ((calls sets).strike self).state out.old).state }
        ensures out { out.new ≡ ((calls sets).run ((calls sets).strike self).state out.old).out };
}
