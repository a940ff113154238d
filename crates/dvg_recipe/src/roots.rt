//! The calls of a recipe, each at each scale that may be known before it: the roots of the certificate that is made for it.

ghost use Rattle.std.specs.Prelude.{◌≡◌, ◌<◌, ℕ, Contains};
ghost use Rattle.dvg_words.specs.declared.map.TheConstants.{ADDRESS_END};
ghost use Rattle.dvg_words.specs.Decoding.{InstrFits};
ghost use Rattle.dvg_cert.specs.Entry.{IsKey};
ghost use Rattle.dvg_recipe.specs.Limits.{PieceFits, RowFits};
ghost use Rattle.dvg_recipe.specs.Private.Judging.{IsWithin, AreWithin};

use crate::piece::{Piece, PieceKind};
use crate::recipe::{Jump, Part, Recipe};
use crate::takes::cell_of_words;
use dvg_cert::{Key, is_key};
use dvg_check::{KEYS, Keys, key_index};
use dvg_make::{EntryFault, EntryMaker};
use dvg_words::{ADDRESS_END, Cell, Instr, RomImage};
use std::alloc::{AllocError, Global};

/// A call whose entry can't be made.
#[derive(Clone, Copy, Debug)]
pub struct Unmade {
    /// The number of the piece.
    pub piece: u16,
    /// The word address that is called, and the scale that is known there.
    pub to: u16,
    pub scale: Key,
    pub why: EntryFault,
}

/// The roots so far.
#[derive(Drop)]
struct Roots<'a> {
    maker: EntryMaker<'a>,
    asked: Vec<(u16, Key)>,
    /// The scale behind a call of each word address at each scale, where that is a root.
    behind: Vec<Keys>,
}

/// How many calls there are: of each word address, at each scale.
const CALLS: usize = ADDRESS_END as usize * KEYS as usize;

/// Where a call stands among all.
fn call_index(to: u16, scale: Key) -> usize
    requires key { IsKey scale }
{
    usize::from(to) * usize::from(KEYS) + usize::from(key_index(scale))
}

/// The scales of a set.
fn keys_of(scales: &[bool; 16]) -> Keys {
    let mut keys = Keys::NONE;
    for scale in 0..16u8 {
        if scales[usize::from(scale)] {
            keys = keys.with(Keys::one(Key::At(scale)));
        }
    }
    keys
}

/// The set of one scale.
fn only(scale: Key) -> Keys {
    if is_key(scale) {
        Keys::one(scale)
    } else {
        Keys::NONE
    }
}

impl<'a> Roots<'a> {
    /// No root so far.
    fn new(alloc: Global, rom: &'a RomImage<'a>) -> Result<Roots<'a>, AllocError> {
        Ok(Roots {
            maker: EntryMaker::new(alloc, rom),
            asked: Vec::new(alloc),
            behind: vec![in alloc; Keys::NONE; CALLS]?,
        })
    }

    /// Adds a root, and keeps the scale behind it.
    fn note(&mut self, to: u16, scale: Key, behind: Keys) -> Result<(), AllocError>
        requires key { IsKey scale }
    {
        self.asked.push((to, scale))?;
        if let Some(kept) = self.behind.get_mut(call_index(to, scale)) {
            *kept = behind;
        }
        Ok(())
    }

    /// Makes the entry of the shape at a word address, called at a scale: the scale at its end.
    #[inline(never)]
    fn make(&mut self, to: u16, scale: Key) -> Result<Keys, EntryFault>
        requires near { to < ADDRESS_END }
        requires key { IsKey scale }
    {
        let entry = self.maker.entry(to, scale)?;
        let behind = only(entry.scale);
        match self.note(to, scale, behind) {
            Ok(()) => Ok(behind),
            Err(_) => Err(EntryFault::Memory),
        }
    }

    /// The scale behind a call of a piece at a scale, whose entry is made if it is not made yet.
    fn past_call(&mut self, piece: u16, to: u16, scale: Key) -> Result<Keys, Unmade>
        requires near { to < ADDRESS_END }
        requires key { IsKey scale }
    {
        match self.behind.get(call_index(to, scale)) {
            Some(behind) if !behind.is_empty() => Ok(*behind),
            _ => match self.make(to, scale) {
                Ok(behind) => Ok(behind),
                Err(why) => Err(Unmade {
                    piece,
                    to,
                    scale,
                    why,
                }),
            },
        }
    }

    /// The scales behind calls of a piece.
    fn past_calls(&mut self, piece: u16, targets: &[u16], here: Keys) -> Result<Keys, Unmade>
        requires near { (to : ℕ) → Contains targets.now to → to < ADDRESS_END }
    {
        let mut left = here;
        let mut next = Keys::NONE;
        while let Some(scale) = left.take_first() {
            for &to in targets {
                next = next.with(self.past_call(piece, to, scale)?);
            }
        }
        Ok(next)
    }

    /// The scales behind an instruction of a piece.
    fn past_instr(&mut self, piece: u16, instr: &Instr, here: Keys) -> Result<Keys, Unmade>
        requires fits { InstrFits instr.now }
    {
        match *instr {
            Instr::Labs { gscale, .. } => Ok(Keys::one(Key::At(gscale))),
            Instr::Jsrl { to } => self.past_calls(piece, &[to], here),
            _ => Ok(here),
        }
    }

    /// The scales behind the items of a piece.
    fn past_piece(&mut self, piece: &Piece, here: Keys) -> Result<Keys, Unmade>
        requires fits { PieceFits piece.now.kind }
    {
        match &piece.kind {
            PieceKind::Place(range) => Ok(keys_of(&range.scales)),
            PieceKind::Call(targets) => self.past_calls(piece.number, targets, here),
            PieceKind::Draw(_) => Ok(here),
            PieceKind::Fixed { first, second } => match cell_of_words(*first, *second) {
                Cell::Holds { instr, .. } => self.past_instr(piece.number, &instr, here),
                Cell::Missing | Cell::Odd => Ok(here),
            },
        }
    }

    /// The scales behind the items of a row.
    #[inline(never)]
    fn past_row(&mut self, row: &[Piece], here: Keys) -> Result<Keys, Unmade>
        requires fits { RowFits row.now }
    {
        let mut here = here;
        for piece in row {
            here = self.past_piece(piece, here)?;
        }
        Ok(here)
    }
}

/// The scales behind the items of a part.
#[cycle(keys_past)]
fn keys_past(part: &Part, roots: &mut Roots, here: Keys) -> Result<Keys, Unmade>
    requires fits { IsWithin part.now }
{
    match part {
        Part::Row(row) => roots.past_row(row, here),
        Part::Then(first, second) => {
            let between = keys_past(first, roots, here)?;
            keys_past(second, roots, between)
        }
        Part::Either(one, other) => {
            let next = keys_past(one, roots, here)?;
            Ok(next.with(keys_past(other, roots, here)?))
        }
        Part::Repeat { least, most, body } => repeat_past(body, roots, *least, *most, here),
    }
}

/// The scales behind `least` to `most` turns of a part.
#[cycle(keys_past)]
#[inline(never)]
fn repeat_past(
    body: &Part,
    roots: &mut Roots,
    least: u16,
    most: u16,
    here: Keys,
) -> Result<Keys, Unmade>
    requires fits { IsWithin body.now }
{
    let mut here = here;
    let mut next = if least == 0 { here } else { Keys::NONE };
    for turn in 1..=most {
        here = keys_past(body, roots, here)?;
        if turn >= least {
            next = next.with(here);
        }
    }
    Ok(next)
}

/// The scales behind jumps and their parts.
fn jumps_past(jumps: &[Jump], roots: &mut Roots, here: Keys) -> Result<Keys, Unmade>
    requires fits { AreWithin jumps.now }
{
    let mut here = here;
    for jump in jumps {
        here = keys_past(&jump.body, roots, here)?;
    }
    Ok(here)
}

/// The scales behind all items of a recipe.
fn recipe_past(recipe: &Recipe, roots: &mut Roots) -> Result<Keys, Unmade> {
    let here = keys_past(recipe.body(), roots, Keys::one(Key::Any))?;
    jumps_past(recipe.jumps(), roots, here)
}

/// The roots of a recipe, and the call at which they end if its entry can't be made.
#[derive(Drop)]
pub struct RecipeRoots {
    pub asked: Vec<(u16, Key)>,
    pub unmade: Option<Unmade>,
}

/// The roots of a recipe over a ROM, each once, in the order in which they are met, the pieces in the order of reading with repeats
/// written out.
pub fn roots_of(alloc: Global, rom: &RomImage, recipe: &Recipe) -> Result<RecipeRoots, AllocError> {
    let mut roots = Roots::new(alloc, rom)?;
    let unmade = match recipe_past(recipe, &mut roots) {
        Ok(_) => None,
        Err(
            Unmade {
                why: EntryFault::Memory,
                ..
            },
        ) => return Err(AllocError),
        Err(unmade) => Some(unmade),
    };
    Ok(RecipeRoots {
        asked: roots.asked,
        unmade,
    })
}
