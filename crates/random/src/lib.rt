// utils/random.rs: a linear congruential generator of 32 bits. The state, a static in the Rust, goes in and comes back.
#![tactic(auto)]

ghost use Rattle.std.specs.Prelude.{◌≡◌, ◌*◌, ◌%◌, ◌^◌, ◌<◌};
ghost use Rattle.random.specs.Random as spec;

use std::num::wrapping_add_u32;

// A float drawn. The word drawn with it is the next state.
#[repr(C)]
#[derive(Clone, Copy)]
pub struct Draw {
    pub word: u32,
    pub value: f32,
}

// The only multiplication here, for a processor without a wide multiply. Its precondition is the proof, at every call, that a multiplication takes
// two numbers below 65,536.
fn mul16(a: u32, b: u32) -> u32
    requires first { a < 65536 }
    requires second { b < 65536 }
    ensures { result ≡ a * b }
{
    a * b
}

// Rust's `u32::wrapping_mul`, put together from 16-bit halves: first a * b_low, then what b_high adds. The product of the two high halves is left out:
// it would add a multiple of 2^32. The sums are calls: of `wrapping_add`, which is no call, the compiler does not make one multiplication, and `get_float`
// takes 44 instructions, not 35.
fn wrapping_mul(a: u32, b: u32) -> u32
    ensures { result ≡ a * b % 2 ^ 32 }
{
    let a_high = a >> 16;
    let a_low = a % 65536;
    let b_high = b >> 16;
    let b_low = b % 65536;
    let a_times_b_low = wrapping_add_u32(mul16(a_low, b_low), mul16(a_high, b_low) << 16);
    wrapping_add_u32(a_times_b_low, mul16(a_low, b_high) << 16)
}

// The word drawn, which is the next state.
#[tactic(auto, unfolding(crate::specs::Random::get_word))]
pub fn get_word(state: u32) -> u32
    ensures { result ≡ spec.get_word state }
{
    wrapping_add_u32(wrapping_mul(state, 1664525), 1013904223)
}

pub fn get_float(state: u32) -> Draw
    ensures { result ≡ spec.get_float state }
{
    let word = get_word(state);
    Draw {
        word,
        value: ieee754::nearest_f32(word) / 4294967296.0,
    }
}
