//! The blocks under way, one way.

ghost use Rattle.std.specs.Prelude.{◌≡◌, ℕ, ◌<◌, ◌≤◌, List, [], ◌∷◌, ◌++◌, length, drop, slice_index_or, IfSome, IfNone, OnOk};
ghost use Rattle.block_frame.specs.Block.{block_text};
ghost use Rattle.board_world.specs.Stands.{IsFound, IsSmall};

use block_frame::{Block, Found, Scanner, scan};
use std::alloc::{AllocError, Global};
use std::collections::VecDeque;
use std::marker::Model;

/// Blocks under way, the oldest first.
#[derive(Drop)]
pub struct Line {
    blocks: VecDeque<Block>,
}

impl Model for Line {
    ghost use Rattle.std.specs.Prelude.{ℕ, List};
    ghost use Rattle.board_world.specs.Stands.{texts};

    ghost Value = { List (List ℕ) };

    ghost view = { λ l. texts l.blocks.items };
}

impl Line {
    /// A line without a block.
    pub fn new(alloc: Global) -> Self
        ensures { result ≡ [] }
    {
        Line {
            blocks: VecDeque::new(alloc),
        }
    }

    #[tactic(auto, using(crate::proofs::Texts::length_texts))]
    pub fn len(&self) -> usize
        ensures { result ≡ length self.now }
    {
        self.blocks.len()
    }

    /// The oldest block.
    #[tactic(auto, using(crate::proofs::Texts::none_left))]
    pub fn first(&self) -> Option<&Block>
        ensures some { IfSome result (λ b. (rest : List (List ℕ)) × self.now ≡ b.now.items ∷ rest) }
        ensures none { IfNone result (self.now ≡ []) }
    {
        self.blocks.front()
    }

    /// The block at a place, counted from the oldest.
    #[tactic(auto, using(crate::proofs::Texts::length_texts, crate::proofs::Texts::text_at_place))]
    pub fn block(&self, i: usize) -> Block
        requires { i < length self.now }
        ensures { result.items ≡ slice_index_or self.now i [] }
    {
        match self.blocks.get(i) {
            Some(block) => block_of(block.as_slice()),
            None => unreachable!(),
        }
    }

    /// Puts a block behind the others.
    #[tactic(auto, using(crate::proofs::Texts::texts_push))]
    pub fn put(&mut self, block: Block) -> Result<(), AllocError>
        ensures { OnOk result (self.new ≡ self.old ++ block.items ∷ []) }
    {
        self.blocks.push_back(block)?;
        Ok(())
    }

    /// Puts blocks behind the others.
    pub fn put_all(&mut self, blocks: &[Block]) -> Result<(), AllocError>
        ensures { OnOk result (self.new ≡ self.old ++ texts blocks.now) }
    {
        for block in blocks {
            self.put(block_of(block.as_slice()))?;
        }
        Ok(())
    }

    /// The oldest block leaves, where there is one.
    #[tactic(auto, using(crate::proofs::Texts::texts_drop))]
    pub fn lose(&mut self)
        ensures { self.new ≡ drop 1 self.old }
    {
        let _lost = self.blocks.pop_front();
    }
}

ghost use Rattle.board_world.specs.Stands.{texts};

/// A block of these bytes.
fn block_of(bytes: &[u8]) -> Block
    requires { length bytes.now ≤ 64 }
    ensures { result.items ≡ bytes.now }
{
    let mut block = Block::new();
    for byte in bytes {
        block.push(*byte);
    }
    block
}

/// What stands in a block's bytes.
pub fn found_in(block: &Block) -> Found
    ensures small { IsSmall result }
    ensures block { (n : ℕ) (content : List ℕ) → n < 16 → block.now.items ≡ block_text n content →
        IsFound result n content }
{
    scan(&mut Scanner::new(), block.as_slice()).0
}
