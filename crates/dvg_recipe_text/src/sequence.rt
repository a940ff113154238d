//! Parts that stand one behind the other, or of which one is chosen.

use dvg_recipe::{Part, Piece};
use std::alloc::{AllocError, Global};
use std::mem;

/// What two parts make together.
#[derive(Clone, Copy)]
pub enum Joint {
    /// The first, and behind it the second.
    Then,
    /// One of them.
    Either,
}

fn pair(alloc: Global, joint: Joint, one: Part, other: Part) -> Result<Part, AllocError> {
    let one = Box::new(alloc, one)?;
    let other = Box::new(alloc, other)?;
    Ok(match joint {
        Joint::Then => Part::Then(one, other),
        Joint::Either => Part::Either(one, other),
    })
}

/// A part of so many levels of pairs.
#[derive(Drop)]
struct Tree {
    levels: u8,
    part: Part,
}

/// Parts that are put together in balanced pairs: trees of fewer and fewer levels.
#[derive(Drop)]
pub struct Balanced {
    joint: Joint,
    trees: Vec<Tree>,
}

impl Balanced {
    /// No part so far. Takes no memory.
    pub fn new(alloc: Global, joint: Joint) -> Balanced {
        Balanced {
            joint,
            trees: Vec::new(alloc),
        }
    }

    /// Whether there is no part.
    fn is_empty(&self) -> bool {
        self.trees.is_empty()
    }

    /// Adds a part behind the others. Trees of as many levels become one.
    pub fn push(&mut self, alloc: Global, part: Part) -> Result<(), AllocError> {
        let mut last = Tree { levels: 0, part };
        'joining: while let Some(before) = self.trees.pop() {
            if before.levels != last.levels {
                self.trees.push(before)?;
                break;
            }
            last = Tree {
                levels: last.levels.saturating_add(1),
                part: pair(alloc, self.joint, before.part, last.part)?,
            };
        }
        self.trees.push(last)?;
        Ok(())
    }

    /// One part for all of them. For none it is an empty row.
    pub fn into_part(self, alloc: Global) -> Result<Part, AllocError> {
        let Balanced { joint, trees } = self;
        let mut trees = trees;
        let mut whole = match trees.pop() {
            Some(last) => last.part,
            None => Part::Row(Vec::new(alloc)),
        };
        'joining: while let Some(before) = trees.pop() {
            whole = pair(alloc, joint, before.part, whole)?;
        }
        Ok(whole)
    }
}

/// Parts, one behind the other, and pieces behind them that are no part yet.
#[derive(Drop)]
pub struct Sequence {
    parts: Balanced,
    row: Vec<Piece>,
}

impl Sequence {
    /// Nothing so far. Takes no memory.
    pub fn new(alloc: Global) -> Sequence {
        Sequence {
            parts: Balanced::new(alloc, Joint::Then),
            row: Vec::new(alloc),
        }
    }

    /// Whether nothing stands here.
    pub fn is_empty(&self) -> bool {
        self.parts.is_empty() && self.row.is_empty()
    }

    /// Adds a piece.
    pub fn push_piece(&mut self, piece: Piece) -> Result<(), AllocError> {
        self.row.push(piece)?;
        Ok(())
    }

    /// Makes a part of the last pieces.
    fn end_row(&mut self, alloc: Global) -> Result<(), AllocError> {
        if !self.row.is_empty() {
            let row = mem::replace(&mut self.row, Vec::new(alloc));
            self.parts.push(alloc, Part::Row(row))?;
        }
        Ok(())
    }

    /// Adds a part.
    pub fn push_part(&mut self, alloc: Global, part: Part) -> Result<(), AllocError> {
        self.end_row(alloc)?;
        self.parts.push(alloc, part)
    }

    /// All of it as one part.
    pub fn into_part(self, alloc: Global) -> Result<Part, AllocError> {
        let mut whole = self;
        whole.end_row(alloc)?;
        let Sequence { parts, row: _ } = whole;
        parts.into_part(alloc)
    }
}
