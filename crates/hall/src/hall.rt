//! The state of a hall.
use messages::set::MessageSet;
use plans::plan::Plan;
use seals::book::{SealBook, SealView};
use seats::seat::Seat;
use tree::tree::Tree;

mod admit;
pub mod corrupt;
pub mod deliver;
pub mod honest;
pub mod open;
pub mod perform;
pub mod read;

/// An open hall: its plan, the blocks, the seats with their pools, the marks of what was broadcast, and the seal book.
#[derive(Drop)]
pub struct Hall<B: SealBook> {
    plan: Plan,
    tree: Tree,
    seats: [Seat; 13],
    broadcast: MessageSet,
    book: B,
}
