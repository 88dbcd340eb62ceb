//! Lines of hexadecimal: a reader of the bytes of each, and a writer of one.
#![tactic(auto)]

pub mod hex;
pub mod line;
pub mod output;
pub mod reader;
