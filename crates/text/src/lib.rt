// Text in bytes: its fields and numbers read, and numbers and bytes written into a buffer.
#![tactic(auto)]

pub mod read;
pub mod write;
