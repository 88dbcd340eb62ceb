//! The page: a submission's lines are run on a hall, and its record is written.
#![tactic(auto)]

mod entry_table;
pub mod examine;
pub mod fault;
mod first;
mod lists;
mod ranks;
mod run;
pub mod types;
mod writing;
