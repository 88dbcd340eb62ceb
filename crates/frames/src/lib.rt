//! Frames: what the bytes of a line say, told by the first byte and the length.
#![tactic(auto)]

pub mod decode;
pub mod frame;
