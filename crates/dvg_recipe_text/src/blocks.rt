//! Blocks that are open, one in another, and what stands in them.

use crate::fault::RecipeTextWhy;
use crate::limits::MOST_BLOCKS;
use crate::sequence::{Balanced, Sequence};
use dvg_recipe::{Part, Piece, turns_within};
use std::alloc::{AllocError, Global};
use std::mem;

/// What an open block is.
#[derive(Drop)]
pub enum BlockKind {
    /// Alternatives, and those that are whole.
    Either(Balanced),
    Repeat { least: u16, most: u16 },
}

/// An open block, and what stands before it in the block around it.
#[derive(Drop)]
struct Block {
    kind: BlockKind,
    before: Sequence,
}

/// The open blocks, the innermost last, and what stands so far in that one.
#[derive(Drop)]
pub struct Blocks {
    open: Vec<Block>,
    here: Sequence,
}

/// The part that stands in a block or a branch, which is not empty.
fn whole(alloc: Global, inner: Sequence) -> Result<Part, RecipeTextWhy> {
    if inner.is_empty() {
        return Err(RecipeTextWhy::Form);
    }
    Ok(inner.into_part(alloc)?)
}

/// The part of a block whose last branch, or whose body, this is.
fn closed(alloc: Global, kind: BlockKind, last: Part) -> Result<Part, AllocError> {
    match kind {
        BlockKind::Either(mut branches) => {
            branches.push(alloc, last)?;
            branches.into_part(alloc)
        }
        BlockKind::Repeat { least, most } => {
            let body = Box::new(alloc, last)?;
            Ok(Part::Repeat { least, most, body })
        }
    }
}

impl Blocks {
    /// No block, and nothing so far. Takes no memory.
    pub fn new(alloc: Global) -> Blocks {
        Blocks {
            open: Vec::new(alloc),
            here: Sequence::new(alloc),
        }
    }

    /// How many blocks are open.
    pub fn depth(&self) -> usize {
        self.open.len()
    }

    /// How many turns the next line has, with the repeats around it written out: no more than a list has words.
    pub fn turns(&self) -> u16 {
        let mut turns = 1;
        for block in &self.open {
            if let BlockKind::Repeat { most, .. } = block.kind {
                turns = turns_within(turns, most);
            }
        }
        turns
    }

    /// Adds a piece.
    pub fn push_piece(&mut self, piece: Piece) -> Result<(), AllocError> {
        self.here.push_piece(piece)
    }

    /// Opens a block.
    pub fn open(&mut self, alloc: Global, kind: BlockKind) -> Result<(), RecipeTextWhy> {
        if self.open.len() >= MOST_BLOCKS {
            return Err(RecipeTextWhy::TooDeep);
        }
        let before = mem::replace(&mut self.here, Sequence::new(alloc));
        self.open.push(Block { kind, before })?;
        Ok(())
    }

    /// Ends a branch of alternatives, behind which another follows.
    pub fn next_branch(&mut self, alloc: Global) -> Result<(), RecipeTextWhy> {
        let Some(block) = self.open.last_mut() else {
            return Err(RecipeTextWhy::Form);
        };
        let BlockKind::Either(branches) = &mut block.kind else {
            return Err(RecipeTextWhy::Form);
        };
        let inner = mem::replace(&mut self.here, Sequence::new(alloc));
        branches.push(alloc, whole(alloc, inner)?)?;
        Ok(())
    }

    /// Ends the innermost block.
    pub fn close(&mut self, alloc: Global) -> Result<(), RecipeTextWhy> {
        let Some(Block { kind, before }) = self.open.pop() else {
            return Err(RecipeTextWhy::Form);
        };
        let inner = mem::replace(&mut self.here, before);
        let part = closed(alloc, kind, whole(alloc, inner)?)?;
        self.here.push_part(alloc, part)?;
        Ok(())
    }

    /// Takes what stands outside of all blocks, where none is open.
    pub fn take(&mut self, alloc: Global) -> Result<Part, RecipeTextWhy> {
        if !self.open.is_empty() {
            return Err(RecipeTextWhy::Form);
        }
        let inner = mem::replace(&mut self.here, Sequence::new(alloc));
        Ok(inner.into_part(alloc)?)
    }
}
