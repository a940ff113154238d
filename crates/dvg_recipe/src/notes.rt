//! What is noted while a recipe is judged: the first fault, the first piece that is stuck, and, if that is asked for, what is seen before
//! each piece.

ghost use Rattle.std.specs.Prelude.{◌≡◌, None};
ghost use Rattle.dvg_recipe.specs.Private.Hulls.{AreSoundChanges};
ghost use Rattle.dvg_recipe.specs.Private.Judging.{IfFine};

use crate::hull::{Change, Hull};
use crate::hulls::joined;
use crate::rectangles::is_stuck;
use dvg_cert::Key;
use dvg_check::FrameWhy;
use std::alloc::{AllocError, Global};
use std::marker::Model;

/// The first piece, repeats written out, at which some frame of a recipe breaks a rule, and the rule of the lowest number.
#[derive(Clone, Copy, Debug)]
pub struct RecipeFault {
    /// The number of the piece. `None` if it is the jump to a list, at word 000.
    pub piece: Option<u16>,
    pub why: FrameWhy,
}

/// How many scales there are, that which is unknown among them.
const SCALES: usize = 17;

/// What is seen of a piece, in all turns of the repeats around it.
#[derive(Clone, Copy)]
pub struct SeenPiece {
    /// All that may be known before it, by the scale there; last at unknown scale.
    before: [Option<Hull>; SCALES],
    /// The most words of its items and of what they call, of all turns together.
    pub words: u32,
    /// The most words so far in this turn.
    turn: u32,
}

/// Where a scale stands among all.
fn index_of(scale: Key) -> usize {
    match scale {
        Key::At(scale) => usize::from(scale),
        Key::Any => SCALES - 1,
    }
}

impl SeenPiece {
    /// Nothing is seen.
    const NOTHING: SeenPiece = SeenPiece {
        before: [None; SCALES],
        words: 0,
        turn: 0,
    };

    /// All that may be known before the piece: a hull for each scale that may be known.
    pub fn before(&self) -> &[Option<Hull>] {
        &self.before
    }

    /// Sees what may be known before the piece, and what its items may do from there.
    fn see(&mut self, hull: &Hull, changes: &[Change]) {
        if let Some(seen) = self.before.get_mut(index_of(hull.scale)) {
            *seen = Some(match seen {
                Some(old) => joined(old, hull),
                None => *hull,
            });
        }
        for change in changes {
            self.turn = self.turn.max(change.words);
        }
    }

    /// The turn ends.
    fn end(&mut self) {
        self.words = self.words.saturating_add(self.turn);
        self.turn = 0;
    }
}

/// Where what is seen of a piece stands; behind all where it is none.
fn index_of_piece(piece: Option<u16>) -> usize {
    usize::from(piece.unwrap_or(u16::MAX))
}

/// Whether from some place that a hull has some of these changes can't lead to where they have to.
fn is_any_stuck(hull: &Hull, changes: &[Change]) -> bool
    requires changes { AreSoundChanges changes.now }
{
    for change in changes {
        if is_stuck(&change.into, &change.motion, &hull.places) {
            return true;
        }
    }
    false
}

/// What is noted so far.
#[derive(Drop)]
pub struct Notes {
    fault: Option<RecipeFault>,
    /// The first piece whose draws can't lead from some place to where they have to.
    stuck: Option<u16>,
    /// Whether the turn in which it is stuck has ended: what follows is in no frame, and nothing more is seen.
    is_over: bool,
    /// What is seen of each piece, by its number; of none, if that is not asked for.
    seen: Vec<SeenPiece>,
}

impl Model for Notes {
    ghost use Rattle.std.specs.Prelude.{Option};
    ghost use Rattle.dvg_recipe.specs.declared.notes.RecipeFault.{RecipeFault};

    ghost Value = { Option RecipeFault };

    ghost view = { λ n. n.fault };
}

impl Notes {
    /// Nothing is noted, and no piece is to be seen. Takes no memory.
    pub fn new(alloc: Global) -> Notes
        ensures { result ≡ None }
    {
        Notes {
            fault: None,
            stuck: None,
            is_over: false,
            seen: Vec::new(alloc),
        }
    }

    /// Nothing is noted, and so many pieces are to be seen.
    pub fn seeing(alloc: Global, pieces: usize) -> Result<Notes, AllocError> {
        let mut seen = Vec::new(alloc);
        seen.resize(pieces, SeenPiece::NOTHING)?;
        Ok(Notes {
            fault: None,
            stuck: None,
            is_over: false,
            seen,
        })
    }

    /// The first fault.
    pub fn fault(&self) -> Option<RecipeFault>
        ensures { result ≡ self.now }
    {
        self.fault
    }

    /// The first piece that is stuck: from some place, none of its draws leads to where it has to.
    pub fn stuck(&self) -> Option<u16> {
        self.stuck
    }

    /// What is seen of each piece.
    pub fn into_seen(self) -> Vec<SeenPiece> {
        self.seen
    }

    /// Sees what may be known before a piece, and what its items may do from there.
    pub fn see(&mut self, piece: Option<u16>, hull: &Hull, changes: &[Change])
        requires changes { AreSoundChanges changes.now }
        ensures { self.new ≡ self.old }
    {
        if self.is_over {
            return;
        }
        if self.stuck.is_none() && is_any_stuck(hull, changes) {
            self.stuck = piece;
        }
        if let Some(seen) = self.seen.get_mut(index_of_piece(piece)) {
            seen.see(hull, changes);
        }
    }

    /// Sees what may be known before the HALT of this number.
    pub fn see_end(&mut self, halt: u16, here: &[Hull])
        ensures { self.new ≡ self.old }
    {
        for hull in here {
            self.see(Some(halt), hull, &[]);
        }
    }

    /// Ends the turn of a piece. Notes the fault, if it is the first: that of the piece of this number, if it breaks a rule.
    pub fn end(&mut self, piece: Option<u16>, broken: Option<FrameWhy>)
        ensures { IfFine self.old self.new (broken ≡ None) }
    {
        if let (None, Some(why)) = (self.fault, broken) {
            self.fault = Some(RecipeFault { piece, why });
        }
        if let Some(seen) = self.seen.get_mut(index_of_piece(piece)) {
            seen.end();
        }
        self.is_over = self.stuck.is_some();
    }
}
