// The choices that cross as bools, so that every value means something.
ghost use Rattle.std.specs.Prelude.{◌≡◌};
ghost use Rattle.console.specs.Enums as spec;

use hihat::VcaType;

// A filter's output: low-pass, or high-pass where `high_or_normalized` is set; with `band_pass` the band-pass, or the normalized one.
#[repr(C)]
#[derive(Clone, Copy)]
pub struct FilterMode {
    pub band_pass: bool,
    pub high_or_normalized: bool,
}

// How a frequency becomes a coefficient: dirty where that is set, else fast where that is set, else accurate.
#[repr(C)]
#[derive(Clone, Copy)]
pub struct FrequencyApproximation {
    pub fast: bool,
    pub dirty: bool,
}

impl From<FilterMode> for filter::FilterMode {
    ghost from_gives = { λ mode r. r ≡ spec.filter_mode mode };

    fn from(mode: FilterMode) -> Self {
        match (mode.band_pass, mode.high_or_normalized) {
            (false, false) => filter::FilterMode::LowPass,
            (false, true) => filter::FilterMode::HighPass,
            (true, false) => filter::FilterMode::BandPass,
            (true, true) => filter::FilterMode::BandPassNormalized,
        }
    }
}

impl From<FrequencyApproximation> for filter::FrequencyApproximation {
    ghost from_gives = { λ approximation r. r ≡ spec.approximation approximation };

    fn from(approximation: FrequencyApproximation) -> Self {
        match (approximation.dirty, approximation.fast) {
            (true, _) => filter::FrequencyApproximation::Dirty,
            (false, true) => filter::FrequencyApproximation::Fast,
            (false, false) => filter::FrequencyApproximation::Accurate,
        }
    }
}

// Of a bare bool, which is no kind by itself, so this is no `From`.
pub(crate) fn vca_type(linear: bool) -> VcaType
    ensures { result ≡ spec.vca_type linear }
{
    if linear {
        VcaType::Linear
    } else {
        VcaType::Swing
    }
}
