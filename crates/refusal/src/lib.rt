// What a call of a voice answers: the voice after it, or the first question that it does not pass and the voice as it was; and the questions, one by one.
#![tactic(auto)]

ghost use Rattle.std.specs.Prelude.{◌≡◌, true, false, OnOk, IfErr};
ghost use Rattle.refusal.specs.Refusal as spec;
ghost use Rattle.refusal.specs.Asked.{LengthAsked};

use std::marker::Model;

// The questions of a voice's call, by what they ask for, in the order of their numbers.
#[derive(Clone, Copy, Debug, PartialEq, Eq)]
pub enum Refusal {
    SampleRate,
    BlockLength,
    Frequency,
    Accent,
    Knob,
}

impl From<Refusal> for u32 {
    ghost from_gives = { λ refusal n. n ≡ spec.number refusal };

    fn from(refusal: Refusal) -> u32
        ensures { result ≡ spec.number refusal }
    {
        match refusal {
            Refusal::SampleRate => 1,
            Refusal::BlockLength => 2,
            Refusal::Frequency => 3,
            Refusal::Accent => 4,
            Refusal::Knob => 5,
        }
    }
}

// A refused call: the voice as it was, and the question. The voice comes first, as in an accepted call's result: so it stands at one place in both, and
// whoever takes it from either copies it whole.
#[derive(Clone, Copy, Debug)]
pub struct Refused<V> {
    pub voice: V,
    pub refusal: Refusal,
}

// No trait for `init`, `strike` and `run`: their parameters are the Rust's and differ from voice to voice, but for `init`, and each is its questions,
// a `?` that hands the voice back by `of`, and one line. So a trait is no plainer.
impl Refusal {
    pub fn of<V>(self, voice: V) -> Refused<V>
        ensures { result ≡ record { refusal = self; voice = voice } }
    {
        Refused {
            voice,
            refusal: self,
        }
    }
}

// A call's result in two parts: its number, 0 where it is accepted, and the voice after it.
pub fn number_and_voice<V>(call: Result<V, Refused<V>>) -> (u32, V)
    ensures number { result.0 ≡ spec.call_number call }
    ensures voice { result.1 ≡ spec.call_voice call }
{
    match call {
        Ok(voice) => (0, voice),
        Err(refused) => (refused.refusal.into(), refused.voice),
    }
}

// A question: the error where it is not passed.
pub fn ask<E: Drop>(passes: bool, refusal: E) -> Result<(), E>
    ensures passed { OnOk result (passes ≡ true) }
    ensures refused { IfErr result (λ e. (passes ≡ false) × (e ≡ refusal)) }
{
    if passes { Ok(()) } else { Err(refusal) }
}

// The scope's two comparisons. (A range's `contains` goes by `partial_cmp`.)
fn within(low: f32, high: f32, x: f32) -> bool
    ensures { result ≡ spec.within low high x }
{
    low <= x && x <= high
}

pub fn is_sample_rate(sample_rate_hz: f32) -> bool
    ensures { result ≡ spec.is_sample_rate sample_rate_hz }
{
    within(16000.0, 96000.0, sample_rate_hz)
}

pub fn is_block_length(samples: usize) -> bool
    ensures { result ≡ spec.is_block_length samples }
{
    samples <= 16384
}

// The length of a block that passes its question.
#[derive(Clone, Copy, Debug)]
pub struct BlockLength(u32);

impl Model for BlockLength {
    ghost use Rattle.std.specs.Prelude.{ℕ, ◌≤◌};

    ghost Value = { ℕ };

    ghost view = { λ n. n.0 };

    ghost invariant = { λ n. n.0 ≤ 16384 };

    ghost inverse = { λ n. record { 0 = n } };
}

impl TryFrom<usize> for BlockLength {
    type Error = Refusal;

    ghost try_from_gives = { LengthAsked };

    fn try_from(samples: usize) -> Result<Self, Refusal>
        ensures { LengthAsked samples result }
    {
        ask(is_block_length(samples), Refusal::BlockLength)?;
        Ok(BlockLength(samples as u32))
    }
}

impl From<BlockLength> for u32 {
    ghost from_gives = { λ length n. n ≡ length };

    fn from(length: BlockLength) -> u32 {
        length.0
    }
}

// The smallest frequency is 2^-20, written out.
pub fn is_frequency(f0: f32) -> bool
    ensures { result ≡ spec.is_frequency f0 }
{
    within(0.00000095367431640625, 0.5, f0)
}

// Accent and the other knobs, but for one.
pub fn is_unit(x: f32) -> bool
    ensures { result ≡ spec.is_unit x }
{
    within(0.0, 1.0, x)
}

// The one knob that goes further: the decay of the bass, whose thud rings longer in a large pipe.
pub fn is_bass_decay(x: f32) -> bool
    ensures { result ≡ spec.is_bass_decay x }
{
    within(0.0, 2.0, x)
}

// The questions of a strike of a voice that stores its rate, asks it again and makes something of the decay: the synthetic snare and the hi-hat.
#[tactic(auto, unfolding(crate::specs::Refusal::strike_refusal))]
pub fn ask_strike(sample_rate_hz: f32, accent: f32, decay: f32) -> Result<(), Refusal>
    ensures { spec.answer_number result ≡ spec.strike_refusal sample_rate_hz accent decay }
{
    ask(is_sample_rate(sample_rate_hz), Refusal::SampleRate)?;
    ask(is_unit(accent), Refusal::Accent)?;
    ask(is_unit(decay), Refusal::Knob)?;
    Ok(())
}
