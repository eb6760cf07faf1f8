// Blocks added sample by sample, by their places: a `zip` with `iter_mut()` proves nothing of what it writes.
ghost use Rattle.std.specs.Prelude.{◌≡◌, map, length};
ghost use Rattle.std.proofs.Math.Option.{some};
ghost use Rattle.track.specs.Mix as spec;

pub(crate) fn add_to(out: &mut [f32], block: &[f32])
    requires { length block.now ≡ length out.old }
    ensures { out.new ≡ spec.mixed out.old (map some block.now) }
{
    for (i, x) in block.iter().enumerate() {
        out[i] += *x;
    }
}
