// The filters: OnePole and Svf. `Svf::process_mut` does not cross: it is proved equal to `process`.
ghost use Rattle.std.specs.Prelude.{◌≡◌};
ghost use Rattle.filter.specs.OnePole as one-pole;
ghost use Rattle.filter.specs.Svf as svf;
ghost use Rattle.console.specs.Enums as Enums;

use crate::enums::{FilterMode, FrequencyApproximation};
use filter::{OnePole, OnePoleOutput, Svf, SvfDualOutput, SvfOutput};

// Every field zero, for `init` to overwrite.
#[unsafe(no_mangle)]
pub extern "C" fn bechullpi_filter_one_pole_zero() -> OnePole
    ensures { result ≡ one-pole.ZERO }
{
    OnePole::ZERO
}

#[unsafe(no_mangle)]
pub extern "C" fn bechullpi_filter_one_pole_init(filter: OnePole) -> OnePole
    ensures { result ≡ one-pole.init filter }
{
    filter.init()
}

#[unsafe(no_mangle)]
pub extern "C" fn bechullpi_filter_one_pole_reset(filter: OnePole) -> OnePole
    ensures { result ≡ one-pole.reset filter }
{
    filter.reset()
}

// The tangent of pi f, approximated.
#[unsafe(no_mangle)]
pub extern "C" fn bechullpi_filter_one_pole_tan(
    f: f32,
    approximation: FrequencyApproximation,
) -> f32
    ensures { result ≡ one-pole.tan f (Enums.approximation approximation) }
{
    OnePole::tan(f, approximation.into())
}

#[unsafe(no_mangle)]
pub extern "C" fn bechullpi_filter_one_pole_set_f(
    filter: OnePole,
    f: f32,
    approximation: FrequencyApproximation,
) -> OnePole
    ensures { result ≡ one-pole.set_f filter f (Enums.approximation approximation) }
{
    filter.set_f(f, approximation.into())
}

// A band-pass mode gives 0.0.
#[unsafe(no_mangle)]
pub extern "C" fn bechullpi_filter_one_pole_process(
    filter: OnePole,
    in_: f32,
    mode: FilterMode,
) -> OnePoleOutput
    ensures { result ≡ one-pole.process filter in_ (Enums.filter_mode mode) }
{
    filter.process(in_, mode.into())
}

// Every field zero, for `init` to overwrite.
#[unsafe(no_mangle)]
pub extern "C" fn bechullpi_filter_svf_zero() -> Svf
    ensures { result ≡ svf.ZERO }
{
    Svf::ZERO
}

#[unsafe(no_mangle)]
pub extern "C" fn bechullpi_filter_svf_init(filter: Svf) -> Svf
    ensures { result ≡ svf.init filter }
{
    filter.init()
}

#[unsafe(no_mangle)]
pub extern "C" fn bechullpi_filter_svf_reset(filter: Svf) -> Svf
    ensures { result ≡ svf.reset filter }
{
    filter.reset()
}

// The settings of another filter.
#[unsafe(no_mangle)]
pub extern "C" fn bechullpi_filter_svf_set(filter: Svf, other: Svf) -> Svf
    ensures { result ≡ svf.set filter other }
{
    filter.set(other)
}

#[unsafe(no_mangle)]
pub extern "C" fn bechullpi_filter_svf_set_g_r_h(filter: Svf, g: f32, r: f32, h: f32) -> Svf
    ensures { result ≡ svf.set_g_r_h filter g r h }
{
    filter.set_g_r_h(g, r, h)
}

#[unsafe(no_mangle)]
pub extern "C" fn bechullpi_filter_svf_set_g_r(filter: Svf, g: f32, r: f32) -> Svf
    ensures { result ≡ svf.set_g_r filter g r }
{
    filter.set_g_r(g, r)
}

#[unsafe(no_mangle)]
pub extern "C" fn bechullpi_filter_svf_set_g_q(filter: Svf, g: f32, resonance: f32) -> Svf
    ensures { result ≡ svf.set_g_q filter g resonance }
{
    filter.set_g_q(g, resonance)
}

#[unsafe(no_mangle)]
pub extern "C" fn bechullpi_filter_svf_set_f_q(
    filter: Svf,
    f: f32,
    resonance: f32,
    approximation: FrequencyApproximation,
) -> Svf
    ensures { result ≡ svf.set_f_q filter f resonance (Enums.approximation approximation) }
{
    filter.set_f_q(f, resonance, approximation.into())
}

#[unsafe(no_mangle)]
pub extern "C" fn bechullpi_filter_svf_process(filter: Svf, in_: f32, mode: FilterMode) -> SvfOutput
    ensures { result ≡ svf.process filter in_ (Enums.filter_mode mode) }
{
    filter.process(in_, mode.into())
}

// One sample, in two modes.
#[unsafe(no_mangle)]
pub extern "C" fn bechullpi_filter_svf_process_dual(
    filter: Svf,
    in_: f32,
    mode_1: FilterMode,
    mode_2: FilterMode,
) -> SvfDualOutput
    ensures { result ≡ svf.process_dual filter in_ (Enums.filter_mode mode_1) (Enums.filter_mode mode_2) }
{
    filter.process_dual(in_, mode_1.into(), mode_2.into())
}

// As many samples as the shorter slice has; the rest of `out` keeps what it held.
#[unsafe(no_mangle)]
pub extern "C" fn bechullpi_filter_svf_process_buffer(
    filter: Svf,
    in_: &[f32],
    out: &mut [f32],
    mode: FilterMode,
) -> Svf
    ensures filter { result ≡ (svf.process_buffer filter in_.now out.old (Enums.filter_mode mode)).state }
    ensures out { out.new ≡ (svf.process_buffer filter in_.now out.old (Enums.filter_mode mode)).out }
{
    filter.process_buffer(in_, out, mode.into())
}
