//! The items of a frame that is to be written.

use crate::choices::{Words, choices, jmpl};
use crate::goal::{Goal, Number};
use crate::piece::{DrawRange, Piece, PieceKind};
use crate::recipe::{Jump, Part};
use std::alloc::{AllocError, Global};

/// An item that is to be written.
#[derive(Clone, Copy)]
pub enum Written {
    Words(Words),
    /// A draw of a range that leads as far as can be to the side of which the number speaks. Its sizes are chosen where it is known from
    /// which place.
    Draw(DrawRange, Number),
}

/// The items before a place in a recipe, and those from it on.
#[derive(Drop)]
pub struct Trail {
    alloc: Global,
    /// The latest first.
    before: Vec<Written>,
    behind: Vec<Written>,
    /// The turns of the repeats around the place, the innermost first.
    turns: Vec<u16>,
    /// What the items before these have to lead to. `None` where there is no goal yet, or none do.
    pub goal: Option<Goal>,
}

/// The items of a frame, from word 000 on.
#[derive(Drop)]
pub struct Trailed {
    pub items: Vec<Written>,
    /// The turns of the repeats around the place, the outermost first.
    pub turns: Vec<u16>,
}

/// An item that a piece allows.
fn some_item(alloc: Global, kind: &PieceKind) -> Result<Option<Written>, AllocError> {
    match kind {
        PieceKind::Draw(range) => Ok(Some(Written::Draw(*range, Number::Any))),
        _ => match choices(alloc, kind)?.first() {
            Some(words) => Ok(Some(Written::Words(*words))),
            None => Ok(None),
        },
    }
}

impl Trail {
    /// No items so far, and no goal.
    pub fn new(alloc: Global) -> Trail {
        Trail {
            alloc,
            before: Vec::new(alloc),
            behind: Vec::new(alloc),
            turns: Vec::new(alloc),
            goal: None,
        }
    }

    /// Adds an item in front of all others, and notes what the items before it have to lead to. Where there is no such item, none do.
    pub fn push_before(&mut self, found: Option<(Written, Goal)>) -> Result<(), AllocError> {
        self.goal = None;
        if let Some((item, goal)) = found {
            self.before.push(item)?;
            self.goal = Some(goal);
        }
        Ok(())
    }

    /// Adds a JMPL to a word address in front of all others. The items before it lead to the goal behind it.
    pub fn push_jump_before(&mut self, to: u16) -> Result<(), AllocError> {
        self.before.push(Written::Words(jmpl(to)))?;
        self.goal = self.goal.map(|goal| goal.before_jump());
        Ok(())
    }

    /// Notes the turn, counted from 1, of the next repeat around the place.
    pub fn push_turn(&mut self, turn: u16) -> Result<(), AllocError> {
        self.turns.push(turn)?;
        Ok(())
    }

    /// Adds an item of each piece of a row behind all others.
    #[inline(never)]
    pub fn push_row(&mut self, row: &[Piece]) -> Result<(), AllocError> {
        for piece in row {
            if let Some(item) = some_item(self.alloc, &piece.kind)? {
                self.behind.push(item)?;
            }
        }
        Ok(())
    }

    /// Adds jumps and items of their parts behind all others.
    pub fn push_jumps(&mut self, jumps: &[Jump]) -> Result<(), AllocError> {
        for jump in jumps {
            self.behind.push(Written::Words(jmpl(jump.area.first)))?;
            push_part(&jump.body, self)?;
        }
        Ok(())
    }

    /// All items, in the order in which they stand, and the turns.
    pub fn into_trailed(self) -> Result<Trailed, AllocError> {
        let Trail {
            before: mut items,
            behind,
            mut turns,
            ..
        } = self;
        items.reverse();
        items.extend_from_slice(&behind)?;
        turns.reverse();
        Ok(Trailed { items, turns })
    }
}

/// Adds items of a part behind all others: those of the first branches and of the fewest turns.
#[cycle(push_part)]
pub fn push_part(part: &Part, trail: &mut Trail) -> Result<(), AllocError> {
    match part {
        Part::Row(row) => trail.push_row(row),
        Part::Then(first, second) => {
            push_part(first, trail)?;
            push_part(second, trail)
        }
        Part::Either(one, _) => push_part(one, trail),
        Part::Repeat { least, body, .. } => push_turns(body, *least, trail),
    }
}

/// Adds items of so many turns of a part behind all others.
#[cycle(push_part)]
pub fn push_turns(body: &Part, turns: u16, trail: &mut Trail) -> Result<(), AllocError> {
    for _ in 0..turns {
        push_part(body, trail)?;
    }
    Ok(())
}
