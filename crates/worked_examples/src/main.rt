// The examples at the edges that are run: each prints the number that a call answers, 0 where it is accepted. Those that are theorems are in proofs/Table.antt.
#![tactic(auto)]

use analog_bass_drum::AnalogBassDrum;
use hihat::{Hihat, VcaType};
use refusal::{Refused, number_and_voice};
use std::io;
use synthetic_bass_drum::{SyntheticBassDrumClick, SyntheticBassDrumTransient};

type Transient = SyntheticBassDrumTransient;

fn print(rt: &HostRuntime, example: &str, number: u32) -> io::Result<()> {
    println!(rt; "{example}: {number}")
}

fn number<V: Drop>(call: Result<V, Refused<V>>) -> u32 {
    number_and_voice(call).0
}

fn started(rate: f32) -> Result<AnalogBassDrum, Refused<AnalogBassDrum>> {
    AnalogBassDrum::ZERO.init(rate)
}

// A bass at 48000.0.
fn struck(accent: f32) -> Result<AnalogBassDrum, Refused<AnalogBassDrum>> {
    started(48000.0)?.strike(accent)
}

// A bass at f0, over a block.
fn run(
    voice: AnalogBassDrum,
    f0: f32,
    out: &mut [f32],
) -> Result<AnalogBassDrum, Refused<AnalogBassDrum>> {
    let knobs = analog_bass_drum::Knobs {
        f0,
        tone: 0.5,
        decay: 0.5,
        attack_fm_amount: 0.0,
        self_fm_amount: 0.0,
    };
    voice.run(knobs, out)
}

fn run_hihat(voice: Hihat, f0: f32, out: &mut [f32]) -> Result<Hihat, Refused<Hihat>> {
    let knobs = hihat::Knobs {
        sustain: false,
        accent: 1.0,
        f0,
        tone: 0.5,
        decay: 0.5,
        noisiness: 0.5,
        resonance: true,
        two_stage_envelope: false,
    };
    voice.run(VcaType::Swing, knobs, out)
}

// How many samples of two blocks differ.
fn differing(a: &[f32; 64], b: &[f32; 64]) -> u32 {
    let mut count = 0u32;
    for i in 0..64 {
        if !ieee754::is_same(a[i], b[i]) {
            count = count.wrapping_add(1);
        }
    }
    count
}

// Runs of a voice that was struck. Where one is refused the strike stands: the next run is as one straight after the strike.
fn print_runs(rt: &HostRuntime, voice: AnalogBassDrum) -> io::Result<()> {
    let mut samples = [0.0f32; 16385];
    print(rt, "16385 samples", number(run(voice, 0.01, &mut samples)))?;
    let mut most = [0.0f32; 16384];
    print(rt, "16384 samples", number(run(voice, 0.01, &mut most)))?;

    let mut straight = [0.0f32; 64];
    print(rt, "f0 0.5", number(run(voice, 0.5, &mut straight)))?;
    let mut late = [0.0f32; 64];
    let (refused, kept) = number_and_voice(run(voice, 0.75, &mut late));
    print(rt, "f0 0.75", refused)?;
    print(rt, "f0 0.5 after that", number(run(kept, 0.5, &mut late)))?;
    print(
        rt,
        "samples in which the two at f0 0.5 differ",
        differing(&straight, &late),
    )
}

// A hi-hat whose record holds no rate.
fn print_unstarted(rt: &HostRuntime) -> io::Result<()> {
    let (strike, voice) = number_and_voice(Hihat::ZERO.strike(1.0, 0.5));
    print(rt, "a hi-hat of rate 0.0, struck", strike)?;
    let mut block = [0.0f32; 64];
    print(
        rt,
        "a hi-hat of rate 0.0, f0 not-a-number",
        number(run_hihat(voice, f32::NAN, &mut block)),
    )
}

// Click and hiss at 48000.0 over a block, the click fed 0.0 for its first n samples and 1.0 afterwards.
fn clicked(n: usize, out: &mut [f32]) -> Result<Transient, Refused<Transient>> {
    Transient::ZERO.init(48000.0)?.render(n, out)
}

// `init` asks the rate, and a block its length alone.
fn print_clicks(rt: &HostRuntime) -> io::Result<()> {
    let click = SyntheticBassDrumClick::ZERO;
    print(rt, "a click at rate 16000.0", number(click.init(16000.0)))?;
    print(rt, "a click at rate 15999.0", number(click.init(15999.0)))?;
    let mut samples = [0.0f32; 16385];
    let refused = number(clicked(48, &mut samples));
    print(rt, "16385 samples of a click", refused)?;
    let mut most = [0.0f32; 16384];
    let accepted = number(clicked(48, &mut most));
    print(rt, "16384 samples of a click", accepted)?;
    let mut block = [0.0f32; 64];
    let zeros = number(Transient::ZERO.render(48, &mut block));
    print(rt, "64 samples of a click's record of zeros", zeros)
}

// Any n. In the first sample, fed 1.0 or 0.0, the two clicks differ already; what n has above the length makes no difference.
fn print_fed(rt: &HostRuntime) -> io::Result<()> {
    let mut none = [0.0f32; 64];
    let at_once = number(clicked(0, &mut none));
    print(rt, "64 samples of a click, n 0", at_once)?;
    let mut all = [0.0f32; 64];
    let exactly = number(clicked(64, &mut all));
    print(rt, "64 samples of a click, n 64", exactly)?;
    let mut beyond = [0.0f32; 64];
    let above = number(clicked(usize::MAX, &mut beyond));
    print(rt, "64 samples of a click, n the largest", above)?;
    print(
        rt,
        "samples in which n 0 and n 64 differ",
        differing(&none, &all),
    )?;
    print(
        rt,
        "samples in which n 64 and n the largest differ",
        differing(&all, &beyond),
    )
}

// 64 samples, one by one: click plus hiss.
fn one_by_one(start: Transient, n: usize) -> [f32; 64] {
    let mut out = [0.0f32; 64];
    let mut click = start.click;
    let mut attack_noise = start.attack_noise;
    let mut noise = start.noise;
    for i in 0..64 {
        let rise = click.process(if i < n { 0.0 } else { 1.0 });
        let hiss = attack_noise.render(noise);
        out[i] = rise.out + hiss.out;
        click = rise.click;
        attack_noise = hiss.attack_noise;
        noise = hiss.noise;
    }
    out
}

// The same samples in one block, in two, the second with what the first left of n, and one by one.
fn print_parts(rt: &HostRuntime) -> io::Result<()> {
    let mut whole = [0.0f32; 64];
    print(
        rt,
        "64 samples of a click, n 48",
        number(clicked(48, &mut whole)),
    )?;

    let mut parts = [0.0f32; 64];
    let (first, rest) = parts.split_at_mut(32);
    let (refused, between) = number_and_voice(clicked(48, first));
    print(rt, "the first 32, n 48", refused)?;
    print(
        rt,
        "the other 32 after them, n 16",
        number(between.render(16, rest)),
    )?;
    print(
        rt,
        "samples in which the 64 and these differ",
        differing(&whole, &parts),
    )?;

    let (_, start) = number_and_voice(Transient::ZERO.init(48000.0));
    let singles = one_by_one(start, 48);
    print(
        rt,
        "samples in which the 64 and click plus hiss, one by one, differ",
        differing(&whole, &singles),
    )
}

// A sheet of two samples into a lent buffer. Where it is refused, its line too.
fn print_rendered(rt: &HostRuntime, example: &str, out: &mut [f32]) -> io::Result<()> {
    match cue_render::render(b"48000,2\n", out) {
        Ok(_) => print(rt, example, 0),
        Err(refused) => {
            print(rt, example, refused.refusal.into())?;
            print(rt, "its line", refused.line)
        }
    }
}

fn main(rt: HostRuntime) -> io::Result<()> {
    print(&rt, "rate 16000.0", number(started(16000.0)))?;
    print(&rt, "rate 15999.0", number(started(15999.0)))?;

    let (strike, voice) = number_and_voice(struck(1.0));
    print(&rt, "a strike", strike)?;
    print(&rt, "a strike of accent 1.5", number(struck(1.5)))?;
    print_runs(&rt, voice)?;
    print_unstarted(&rt)?;

    print_clicks(&rt)?;
    print_fed(&rt)?;
    print_parts(&rt)?;

    let mut one = [0.0f32; 1];
    print_rendered(&rt, "a sheet of 2 samples into 1 place", &mut one)?;
    let mut two = [0.0f32; 2];
    print_rendered(&rt, "a sheet of 2 samples into 2 places", &mut two)?;
    Ok(())
}
