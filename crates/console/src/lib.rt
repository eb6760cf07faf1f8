// The library for C: every routine of the port under a C name, one call each, with the routine's own promise. Records cross by value and slices as a pointer and
// a length; enums and type parameters do not cross, so an answer is a number and a record, with a struct for each voice, and a choice is made of bools.
// So the files of the voices are alike, and those of one operation in both widths: each function is an export of its own, and none can stand for two types.
// console/bechullpi.h is made from these signatures.
#![tactic(auto)]

mod bass; // bass.rt: AnalogBassDrum
mod enums; // enums.rt: the choices that cross as bools
mod filters; // filters.rt: OnePole and Svf
mod hi_hat; // hi_hat.rt: Hihat and SquareNoise
mod min_max; // min_max.rt: the minimum and maximum operations, in both widths
mod numbers; // numbers.rt: conversions, operations, noise, pitches and the small functions
mod sheet; // sheet.rt: cue sheets
mod snare; // snare.rt: AnalogSnareDrum
mod synthetic_bass; // synthetic_bass.rt: the click and the hiss of the synthetic bass drum
mod synthetic_snare; // synthetic_snare.rt: SyntheticSnareDrum
