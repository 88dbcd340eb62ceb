//! The tree of blocks.
use crate::payload::Payload;
use basics::numbers::BlockNumber;

mod walks;

/// A block that was made: its parent and its payload.
#[derive(Clone, Copy, Debug, PartialEq, Eq)]
pub struct Block {
    parent: BlockNumber,
    payload: Payload,
}

/// The blocks by number, those that were made. The root, 0, is never made: it is always there.
#[derive(Clone, Copy, Debug, PartialEq, Eq)]
pub struct Tree {
    blocks: [Option<Block>; 313],
}

impl Tree {
    ghost use Rattle.std.specs.Prelude.{◌≡◌, ℕ, true, false, List, [], option_copied};
    ghost use Rattle.basics.specs.Put.{put};
    ghost use Rattle.tree.specs.Payloads.{listed};
    ghost use Rattle.tree.specs.Blocks.{block_at, mades, parents, payloads};

    /// The tree with no block but the root.
    pub fn new() -> Tree
        ensures made { mades result ≡ (λ (b : ℕ). false) }
        ensures parent { parents result ≡ (λ (b : ℕ). 0) }
        ensures places { ◌≡◌ {A = ℕ → List ℕ} (payloads result) (λ b. []) }
    {
        Tree {
            blocks: [None; 313],
        }
    }

    // the block of this number, if it was made
    fn at(&self, number: BlockNumber) -> Option<&Block>
        ensures { option_copied result ≡ block_at self.now number.value }
    {
        self.blocks[number.value() as usize].as_ref()
    }

    /// Whether the block was made.
    pub fn is_made(&self, block: BlockNumber) -> bool
        ensures { result ≡ mades self.now block.value }
    {
        self.at(block).is_some()
    }

    /// The parent of a block; the root for a block that was not made.
    pub fn parent(&self, block: BlockNumber) -> BlockNumber
        ensures { result.value ≡ parents self.now block.value }
    {
        self.at(block).map_or(BlockNumber::capped(0), |b| b.parent)
    }

    /// The payload of a block; empty for a block that was not made.
    pub fn payload(&self, block: BlockNumber) -> Payload
        ensures { listed result ≡ payloads self.now block.value }
    {
        self.at(block).map_or(Payload::empty(), |b| b.payload)
    }

    // the places of a block; none for a block that was not made
    fn places(&self, block: BlockNumber) -> &[u8]
        ensures { result.now ≡ payloads self.now block.value }
    {
        self.at(block).map_or(&[], |b| b.payload.as_slice())
    }

    /// Makes the block.
    pub fn make(&mut self, block: BlockNumber, parent: BlockNumber, payload: Payload)
        ensures made { mades self.new ≡ put block.value true (mades self.old) }
        ensures parent { parents self.new ≡ put block.value parent.value (parents self.old) }
        ensures places { payloads self.new ≡ put block.value (listed payload) (payloads self.old) }
    {
        self.blocks[block.value() as usize] = Some(Block { parent, payload });
    }
}
