//! How far the items of a frame are those of a recipe's frames, and room for sets of indices.

use std::alloc::{AllocError, Global};

/// The furthest index at which pieces were tried in vain, and the numbers of these pieces.
#[derive(Drop)]
pub struct Tried {
    pub index: usize,
    pub pieces: Vec<u16>,
}

impl Tried {
    /// Nothing was tried.
    pub fn new(alloc: Global) -> Tried {
        Tried {
            index: 0,
            pieces: Vec::new(alloc),
        }
    }

    /// Notes that a piece was tried at an index in vain.
    #[inline(always)]
    pub fn note(&mut self, piece: u16, index: usize) -> Result<(), AllocError> {
        if index < self.index {
            return Ok(());
        }
        self.note_furthest(piece, index)
    }

    /// Notes it where no index that was noted before is past this one.
    #[inline(never)]
    fn note_furthest(&mut self, piece: u16, index: usize) -> Result<(), AllocError> {
        if index > self.index {
            self.index = index;
            self.pieces.clear();
        }
        if !self.pieces.contains(&piece) {
            self.pieces.push(piece)?;
        }
        Ok(())
    }
}

/// What finding out which parts spell a frame's items goes by besides these: what was tried, and a set of indices that no part uses any
/// more, whose memory the next one takes.
#[derive(Drop)]
pub struct Work {
    alloc: Global,
    /// How many indices a set has at most.
    most: usize,
    pub tried: Tried,
    spare: Option<Vec<usize>>,
}

impl Work {
    /// For a frame of so many items: nothing was tried, and no set is left.
    pub fn new(alloc: Global, items: usize) -> Work {
        Work {
            alloc,
            most: items.saturating_add(1),
            tried: Tried::new(alloc),
            spare: None,
        }
    }

    /// Some set, with memory for all indices.
    pub fn take(&mut self) -> Result<Vec<usize>, AllocError> {
        match self.spare.take() {
            Some(set) => Ok(set),
            None => Vec::with_capacity(self.alloc, self.most),
        }
    }

    /// Takes back a set that no part uses any more.
    pub fn put(&mut self, set: Vec<usize>) {
        self.spare = Some(set);
    }
}
