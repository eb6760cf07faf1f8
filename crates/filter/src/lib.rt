// utils/filter.rs: zero-delay-feedback filters, one pole and state variable. A filter goes in by value and comes back with its output, in
// structs that cross to C by their names: a pair, or one generic struct, has none there.
#![tactic(auto)]

ghost use Rattle.std.specs.Prelude.{◌≡◌};
ghost use Rattle.filter.specs.OnePole as one_pole;
ghost use Rattle.filter.specs.Svf as svf;

#[derive(Clone, Copy, Debug, PartialEq, Eq)]
pub enum FilterMode {
    LowPass,
    BandPass,
    BandPassNormalized,
    HighPass,
}

// Without the Rust's `Exact`.
#[derive(Clone, Copy, Debug, PartialEq, Eq)]
pub enum FrequencyApproximation {
    Accurate,
    Fast,
    Dirty,
}

const M_PI_F: f32 = 3.14159265358979323846264338327950288;

// Powers of pi, each an f32 product in the Rust's order: none is the f32 nearest to its power.
const M_PI_POW_2: f32 = M_PI_F * M_PI_F;

const M_PI_POW_3: f32 = M_PI_POW_2 * M_PI_F;

const M_PI_POW_5: f32 = M_PI_POW_3 * M_PI_POW_2;

const M_PI_POW_7: f32 = M_PI_POW_5 * M_PI_POW_2;

const M_PI_POW_9: f32 = M_PI_POW_7 * M_PI_POW_2;

const M_PI_POW_11: f32 = M_PI_POW_9 * M_PI_POW_2;

const DIRTY_A: f32 = 3.736e-01 * M_PI_POW_3;

const FAST_A: f32 = 3.260e-01 * M_PI_POW_3;

const FAST_B: f32 = 1.823e-01 * M_PI_POW_5;

const ACCURATE_A: f32 = 3.333314036e-01 * M_PI_POW_3;

const ACCURATE_B: f32 = 1.333923995e-01 * M_PI_POW_5;

const ACCURATE_C: f32 = 5.33740603e-02 * M_PI_POW_7;

const ACCURATE_D: f32 = 2.900525e-03 * M_PI_POW_9;

const ACCURATE_E: f32 = 9.5168091e-03 * M_PI_POW_11;

#[repr(C)]
#[derive(Clone, Copy)]
pub struct OnePole {
    pub g: f32,
    pub gi: f32,
    pub state: f32,
}

// A filter after one sample, and its output.
#[repr(C)]
#[derive(Clone, Copy)]
pub struct OnePoleOutput {
    pub filter: OnePole,
    pub out: f32,
}

impl OnePole {
    // Every field zero, for `init` to overwrite. (No `Default`: the scope leaves it out.)
    pub const ZERO: OnePole = OnePole {
        g: 0.0,
        gi: 0.0,
        state: 0.0,
    };

    pub fn init(self) -> Self
        ensures { result ≡ one_pole.init self }
    {
        self.set_f(0.01, FrequencyApproximation::Dirty).reset()
    }

    pub fn reset(self) -> Self
        ensures { result ≡ one_pole.reset self }
    {
        OnePole { state: 0.0, ..self }
    }

    // The tangent of pi f, approximated.
    pub fn tan(f: f32, approximation: FrequencyApproximation) -> f32
        ensures { result ≡ one_pole.tan f approximation }
    {
        match approximation {
            FrequencyApproximation::Dirty => f * (M_PI_F + DIRTY_A * f * f),
            FrequencyApproximation::Fast => {
                let f2 = f * f;
                f * (M_PI_F + f2 * (FAST_A + FAST_B * f2))
            }
            FrequencyApproximation::Accurate => {
                let f2 = f * f;
                let inner = ACCURATE_C + f2 * (ACCURATE_D + f2 * ACCURATE_E);
                f * (M_PI_F + f2 * (ACCURATE_A + f2 * (ACCURATE_B + f2 * inner)))
            }
        }
    }

    pub fn set_f(self, f: f32, approximation: FrequencyApproximation) -> Self
        ensures { result ≡ one_pole.set_f self f approximation }
    {
        let g = OnePole::tan(f, approximation);
        OnePole {
            g,
            gi: 1.0 / (1.0 + g),
            ..self
        }
    }

    pub fn process(mut self, in_: f32, mode: FilterMode) -> OnePoleOutput
        ensures { result ≡ one_pole.process self in_ mode }
    {
        let lp = (self.g * in_ + self.state) * self.gi;
        self.state = self.g * (in_ - lp) + lp;
        let out = match mode {
            FilterMode::LowPass => lp,
            FilterMode::HighPass => in_ - lp,
            FilterMode::BandPass | FilterMode::BandPassNormalized => 0.0,
        };
        OnePoleOutput { filter: self, out }
    }
}

#[repr(C)]
#[derive(Clone, Copy)]
pub struct Svf {
    pub g: f32,
    pub r: f32,
    pub h: f32,
    pub state_1: f32,
    pub state_2: f32,
}

// A filter after one sample, and its output in one mode.
#[repr(C)]
#[derive(Clone, Copy)]
pub struct SvfOutput {
    pub filter: Svf,
    pub out: f32,
}

// A filter after one sample, and its outputs in two modes.
#[repr(C)]
#[derive(Clone, Copy)]
pub struct SvfDualOutput {
    pub filter: Svf,
    pub out_1: f32,
    pub out_2: f32,
}

// A filter after one sample, and what the modes choose from.
#[derive(Clone, Copy)]
struct Passed {
    filter: Svf,
    lp: f32,
    bp: f32,
    hp: f32,
}

impl Passed {
    #[tactic(auto, unfolding(crate::specs::Svf::output))]
    fn output(self, mode: FilterMode) -> f32
        ensures { result ≡ svf.output self mode }
    {
        match mode {
            FilterMode::LowPass => self.lp,
            FilterMode::BandPass => self.bp,
            FilterMode::BandPassNormalized => self.bp * self.filter.r,
            FilterMode::HighPass => self.hp,
        }
    }
}

impl Svf {
    // Every field zero, for `init` to overwrite. (No `Default`: the scope leaves it out.)
    pub const ZERO: Svf = Svf {
        g: 0.0,
        r: 0.0,
        h: 0.0,
        state_1: 0.0,
        state_2: 0.0,
    };

    pub fn init(self) -> Self
        ensures { result ≡ svf.init self }
    {
        self.set_f_q(0.01, 100.0, FrequencyApproximation::Dirty)
            .reset()
    }

    pub fn reset(self) -> Self
        ensures { result ≡ svf.reset self }
    {
        Svf {
            state_1: 0.0,
            state_2: 0.0,
            ..self
        }
    }

    // The settings of another filter.
    pub fn set(self, f: Svf) -> Self
        ensures { result ≡ svf.set self f }
    {
        self.set_g_r_h(f.g, f.r, f.h)
    }

    pub fn set_g_r_h(self, g: f32, r: f32, h: f32) -> Self
        ensures { result ≡ svf.set_g_r_h self g r h }
    {
        Svf { g, r, h, ..self }
    }

    pub fn set_g_r(self, g: f32, r: f32) -> Self
        ensures { result ≡ svf.set_g_r self g r }
    {
        self.set_g_r_h(g, r, 1.0 / (1.0 + r * g + g * g))
    }

    pub fn set_g_q(self, g: f32, resonance: f32) -> Self
        ensures { result ≡ svf.set_g_q self g resonance }
    {
        self.set_g_r(g, 1.0 / resonance)
    }

    pub fn set_f_q(self, f: f32, resonance: f32, approximation: FrequencyApproximation) -> Self
        ensures { result ≡ svf.set_f_q self f resonance approximation }
    {
        self.set_g_q(OnePole::tan(f, approximation), resonance)
    }

    // One sample through the filter.
    #[tactic(auto, unfolding(crate::specs::Svf::passed))]
    fn passed(mut self, in_: f32) -> Passed
        ensures { result ≡ svf.passed self in_ }
    {
        let hp = (in_ - self.r * self.state_1 - self.g * self.state_1 - self.state_2) * self.h;
        let bp = self.g * hp + self.state_1;
        self.state_1 = self.g * hp + bp;
        let lp = self.g * bp + self.state_2;
        self.state_2 = self.g * bp + lp;
        Passed {
            filter: self,
            lp,
            bp,
            hp,
        }
    }

    #[tactic(auto, unfolding(crate::specs::Svf::process))]
    pub fn process(self, in_: f32, mode: FilterMode) -> SvfOutput
        ensures { result ≡ svf.process self in_ mode }
    {
        let p = self.passed(in_);
        SvfOutput {
            filter: p.filter,
            out: p.output(mode),
        }
    }

    // `process` of a filter lent by reference: the filter is copied out, and the one that comes back is stored in its place.
    pub fn process_mut(&mut self, in_: f32, mode: FilterMode) -> f32
        ensures out { result ≡ (svf.process self.old in_ mode).out }
        ensures filter { self.new ≡ (svf.process self.old in_ mode).filter }
    {
        let o = self.process(in_, mode);
        *self = o.filter;
        o.out
    }

    #[tactic(auto, unfolding(crate::specs::Svf::process_dual))]
    pub fn process_dual(self, in_: f32, mode_1: FilterMode, mode_2: FilterMode) -> SvfDualOutput
        ensures { result ≡ svf.process_dual self in_ mode_1 mode_2 }
    {
        let p = self.passed(in_);
        SvfDualOutput {
            filter: p.filter,
            out_1: p.output(mode_1),
            out_2: p.output(mode_2),
        }
    }

    // As many samples as the shorter slice has; the rest of `out` keeps what it held. (A `zip` with `out.iter_mut()` proves
    // nothing of what it writes.)
    pub fn process_buffer(self, in_: &[f32], out: &mut [f32], mode: FilterMode) -> Self
        ensures filter { result ≡ (svf.process_buffer self in_.now out.old mode).state }
        ensures out { out.new ≡ (svf.process_buffer self in_.now out.old mode).out }
    {
        let n = in_.len().min(out.len());
        let mut filter = self;
        for (i, x) in in_[..n].iter().enumerate() {
            let o = filter.process(*x, mode);
            filter = o.filter;
            out[i] = o.out;
        }
        filter
    }
}
