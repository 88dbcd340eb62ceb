//! Seal books: the set of signatures made so far. One keeps a mask for each kind and subject, the other a list.
#![tactic(auto)]

pub mod book;
pub mod fault;
pub mod listed;
pub mod record;
pub mod row;
