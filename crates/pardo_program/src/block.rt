//! Blocks of code.
ghost use Rattle.std.specs.Prelude.{◌≡◌, List, [], ◌∷◌, ◌==◌, length, IfOk, MatchOption};
ghost use Rattle.pardo_program.specs.Blocks.{is_choice, choice_depth};

use std::alloc::{AllocError, Global};
use std::marker::Model;

/// An open block; of a loop the place of its first line.
#[derive(Clone, Copy)]
pub enum Block {
    If,
    Else,
    /// The `else` that an `elsif` is. It ends where the `if` in it ends.
    Elsif,
    While(usize),
    For(usize),
}

impl Block {
    // Whether it is a part of an `if`.
    fn is_choice(self) -> bool
        ensures { result ≡ is_choice self }
    {
        matches!(self, Block::If | Block::Else | Block::Elsif)
    }
}

/// The open blocks.
#[derive(Drop)]
pub struct Blocks {
    blocks: Vec<Block>,
    /// How many of them are parts of an `if`.
    depth: usize,
}

impl Model for Blocks {
    ghost use Rattle.std.specs.Prelude.{◌≡◌, List, reverse};
    ghost use Rattle.pardo_program.specs.declared.block.Block.{Block};
    ghost use Rattle.pardo_program.specs.Blocks.{choice_depth};

    ghost Value = { List Block };

    ghost view = { λ b. reverse b.blocks.items };

    ghost invariant = { λ b. b.depth ≡ choice_depth (reverse b.blocks.items) };
}

impl Blocks {
    /// No block is open.
    pub fn new(alloc: Global) -> Self
        ensures { result ≡ [] }
    {
        Blocks {
            blocks: Vec::new(alloc),
            depth: 0,
        }
    }

    /// Whether no block is open.
    pub fn is_empty(&self) -> bool
        ensures { result ≡ (length self.now == 0) }
    {
        self.blocks.is_empty()
    }

    /// How many blocks of an `if` are open.
    pub fn depth(&self) -> usize
        ensures { result ≡ choice_depth self.now }
    {
        self.depth
    }

    /// The innermost block.
    pub fn last(&self) -> Option<Block>
        ensures { MatchOption result (self.now ≡ [])
            (λ block. (outer : List Block) × (self.now ≡ block ∷ outer)) }
    {
        self.blocks.last().copied()
    }

    /// Opens a block in the innermost one.
    pub fn push(&mut self, block: Block) -> Result<(), AllocError>
        ensures { IfOk result (λ _. self.new ≡ block ∷ self.old) }
    {
        self.blocks.push(block)?;
        if block.is_choice() {
            self.depth += 1;
        }
        Ok(())
    }

    /// Closes the innermost block.
    pub fn pop(&mut self) -> Option<Block>
        ensures { MatchOption result (self.old ≡ []) (λ block. self.old ≡ block ∷ self.new) }
    {
        let block = self.blocks.pop()?;
        if block.is_choice() {
            self.depth -= 1;
        }
        Some(block)
    }
}
