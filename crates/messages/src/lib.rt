//! The messages that seats send, and sets of them: a pool is such a set, and so are the marks of what was broadcast.
#![tactic(auto)]

pub mod message;
pub mod set;
