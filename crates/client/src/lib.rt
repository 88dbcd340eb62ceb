//! A user of the hall who writes a draw, a kind of entry and a seal book of its own: the hall's contracts give the promises for these too.
#![tactic(auto)]

pub mod counted;
pub mod label;
pub mod mirror;
pub mod tried;
