//! What a seat's rule is asked in.
use basics::numbers::SeatIndex;
use plans::plan::Plan;
use tree::tree::Tree;

/// What a seat's rule looks at beside the seat itself: the plan, the tree of blocks, and which of the plan's seats it is.
#[derive(Clone, Copy)]
pub struct Context<'a> {
    pub plan: &'a Plan,
    pub tree: &'a Tree,
    pub who: SeatIndex,
}
