//! Whether a frame is one of a recipe's.
//!
//! The items of a frame are determined, so an index of an item stands for the items before it. A part of the recipe takes the set of the
//! indices where it may begin to that of the indices where it may end.

ghost use Rattle.std.specs.Prelude.{◌≡◌, ◌↔◌, ◌+◌, ◌^◌, ◌<◌, ◌≤◌, [], ◌∷◌, ℕ, false, Contains, length, IsTrue, IfOk, IfSome, IfNone};
ghost use Rattle.dvg_recipe.specs.Members.{IsMember};
ghost use Rattle.dvg_recipe.specs.Private.Indices.{IsPast, PieceLeads, RowLeads, Turns, PartLeads, JumpLeads, JumpsLead, ListStarts, SomeStarts, RecipeLeads, AreThose};
ghost use Rattle.dvg_recipe.specs.Private.KnownPlaces.{AreFramesItems};

use crate::frame_items::{FrameItems, frame_items};
use crate::indices::{add, add_all, set_to};
use crate::known_places::KnownPlaces;
use crate::piece::Piece;
use crate::recipe::{Area, Jump, Part, Recipe};
use crate::takes::takes;
use crate::tried::{Tried, Work};
use dvg_items::Item;
use dvg_words::{FrameImage, Instr, RomImage};
use std::alloc::{AllocError, Global};
use std::mem::replace;

/// Where a frame leaves a recipe: behind the longest front of its items that some frame of the recipe has.
#[derive(Debug, Drop)]
pub struct Leaving {
    /// The word address behind that front.
    pub at: u16,
    /// The numbers of the pieces of which one would have to stand there, rising; none where word 000 leads to none of the lists.
    pub pieces: Vec<u16>,
}

/// Whether an item that a piece allows stands at an index, and leads to where it has to.
#[inline(always)]
fn is_taken(places: &KnownPlaces<'_>, index: usize, piece: &Piece) -> Result<bool, AllocError>
    ensures yes { IfOk result (λ yes. IsTrue yes → PieceLeads piece.now places.now index (index + 1)) }
    ensures no { IfOk result (λ yes. yes ≡ false → (j : ℕ) → PieceLeads piece.now places.now index j → ⊥) }
    ensures near { IfOk result (λ yes. IsTrue yes → index < 2 ^ 63) }
{
    match places.items().get(index) {
        Some(item) if takes(&piece.kind, item) => places.arrives(&piece.kind, index + 1),
        _ => Ok(false),
    }
}

/// Takes indices to those behind the items that a piece allows.
#[inline(always)]
fn past_piece(
    places: &KnownPlaces<'_>,
    tried: &mut Tried,
    piece: &Piece,
    here: &mut Vec<usize>,
) -> Result<(), AllocError>
    ensures { IfOk result (λ _. IsPast (PieceLeads piece.now places.now) here.old.items here.new.items) }
{
    let mut passed = 0;
    for place in 0..here.len() {
        let index = here[place];
        let taken = is_taken(places, index, piece)?;
        if taken {
            here[passed] = index + 1;
            passed += 1;
        } else {
            tried.note(piece.number, index)?;
        }
    }
    here.truncate(passed);
    Ok(())
}

/// Takes indices to those behind the items that a row allows.
#[inline(always)]
fn past_row(
    places: &KnownPlaces<'_>,
    tried: &mut Tried,
    row: &[Piece],
    here: &mut Vec<usize>,
) -> Result<(), AllocError>
    ensures { IfOk result (λ _. IsPast (RowLeads row.now places.now) here.old.items here.new.items) }
{
    for piece in row {
        past_piece(places, tried, piece, here)?;
    }
    Ok(())
}

/// Takes indices to those behind the items that a part spells.
#[cycle(past_part)]
fn past_part(
    part: &Part,
    places: &KnownPlaces<'_>,
    work: &mut Work,
    here: &mut Vec<usize>,
) -> Result<(), AllocError>
    ensures { IfOk result (λ _. IsPast (PartLeads part.now places.now) here.old.items here.new.items) }
{
    match part {
        Part::Row(row) => past_row(places, &mut work.tried, row, here),
        Part::Then(first, second) => {
            past_part(first, places, work, here)?;
            past_part(second, places, work, here)
        }
        Part::Either(one, other) => {
            let mut more = work.take()?;
            set_to(&mut more, here)?;
            past_part(one, places, work, here)?;
            past_part(other, places, work, &mut more)?;
            add_all(here, &more)?;
            work.put(more);
            Ok(())
        }
        Part::Repeat { least, most, body } => {
            past_repeat(body, places, work, *least, *most, here)
        }
    }
}

/// The index behind the items that a row allows from an index on, if it allows them.
#[inline(always)]
fn row_end(
    places: &KnownPlaces<'_>,
    tried: &mut Tried,
    row: &[Piece],
    index: usize,
) -> Result<Option<usize>, AllocError>
    ensures some { IfOk result (λ end. IfSome end (RowLeads row.now places.now index)) }
    ensures only { IfOk result (λ end. IfSome end (λ i. (j : ℕ) → RowLeads row.now places.now index j → j ≡ i)) }
    ensures none { IfOk result (λ end. IfNone end ((j : ℕ) → RowLeads row.now places.now index j → ⊥)) }
{
    let mut end = index;
    for piece in row {
        let taken = is_taken(places, end, piece)?;
        if !taken {
            tried.note(piece.number, end)?;
            return Ok(None);
        }
        end += 1;
    }
    Ok(Some(end))
}

/// The indices behind `least` to `most` turns of a row from an index on.
#[inline(never)]
fn past_turns(
    places: &KnownPlaces<'_>,
    tried: &mut Tried,
    row: &[Piece],
    least: u16,
    most: u16,
    index: usize,
    ends: &mut Vec<usize>,
) -> Result<(), AllocError>
    requires turns { least ≤ most }
    ensures { IfOk result (λ _. IsPast (Turns least most (RowLeads row.now places.now)) (index ∷ []) ends.new.items) }
{
    ends.clear();
    let mut end = index;
    for turn in 0..most {
        if least <= turn {
            ends.push(end)?;
        }
        let next = row_end(places, tried, row, end)?;
        match next {
            Some(next) => end = next,
            None => return Ok(()),
        }
    }
    ends.push(end)?;
    Ok(())
}

/// Takes indices to those behind `least` to `most` turns of a part.
#[cycle(past_part)]
#[inline(never)]
fn past_repeat(
    body: &Part,
    places: &KnownPlaces<'_>,
    work: &mut Work,
    least: u16,
    most: u16,
    here: &mut Vec<usize>,
) -> Result<(), AllocError>
    ensures { IfOk result (λ _. IsPast (Turns least most (PartLeads body.now places.now)) here.old.items here.new.items) }
{
    if most < least {
        here.clear();
        return Ok(());
    }
    if let (Part::Row(row), 1) = (body, here.len()) {
        // most repeats are so, and need no sets
        return past_turns(places, &mut work.tried, row, least, most, here[0], here);
    }
    let mut next = work.take()?;
    for _ in 0..least {
        set_to(&mut next, here)?;
        past_part(body, places, work, here)?;
        if *here == next {
            // each further turn changes nothing either
            work.put(next);
            return Ok(());
        }
    }
    set_to(&mut next, here)?;
    for _ in least..most {
        past_part(body, places, work, here)?;
        if !add_all(&mut next, here)? {
            // each further turn adds nothing either
            work.put(replace(here, next));
            return Ok(());
        }
    }
    work.put(replace(here, next));
    Ok(())
}

/// Whether a jump to a word address stands at an index.
fn is_jump(places: &KnownPlaces<'_>, index: usize, to: u16) -> bool
    ensures yes { IsTrue result → JumpLeads to places.now index (index + 1) }
    ensures no { result ≡ false → (j : ℕ) → JumpLeads to places.now index j → ⊥ }
    ensures near { IsTrue result → index < 2 ^ 63 }
{
    match places.items().get(index) {
        Some(item) => item.instr == Instr::Jmpl { to },
        None => false,
    }
}

/// The indices behind a jump.
fn past_jump(
    alloc: Global,
    places: &KnownPlaces<'_>,
    tried: &mut Tried,
    jump: &Jump,
    here: &[usize],
) -> Result<Vec<usize>, AllocError>
    ensures { IfOk result (λ next. IsPast (JumpLeads jump.now.area.first places.now) here.now next.items) }
{
    let mut next = Vec::new(alloc);
    for &index in here {
        if is_jump(places, index, jump.area.first) {
            next.push(index + 1)?;
        } else {
            tried.note(jump.number, index)?;
        }
    }
    Ok(next)
}

/// The indices behind the items that jumps and their parts spell.
fn past_jumps(
    alloc: Global,
    places: &KnownPlaces<'_>,
    work: &mut Work,
    jumps: &[Jump],
    here: Vec<usize>,
) -> Result<Vec<usize>, AllocError>
    ensures { IfOk result (λ next. IsPast (JumpsLead jumps.now places.now) here.items next.items) }
{
    let mut here = here;
    for jump in jumps {
        let mut there = past_jump(alloc, places, &mut work.tried, jump, &here)?;
        past_part(&jump.body, places, work, &mut there)?;
        here = there;
    }
    Ok(here)
}

/// The index of the first item of a list, if the frame's word 000 leads to it.
fn start_of(places: &KnownPlaces<'_>, first: u16) -> Option<usize>
    ensures some { IfSome result (ListStarts first places.now) }
    ensures only { IfSome result (λ i. (j : ℕ) → ListStarts first places.now j → j ≡ i) }
    ensures none { IfNone result ((j : ℕ) → ListStarts first places.now j → ⊥) }
{
    if first == 0 {
        Some(0)
    } else if is_jump(places, 0, first) {
        Some(1)
    } else {
        None
    }
}

/// The indices of the first items of lists to which the frame's word 000 leads.
fn starts(
    places: &KnownPlaces<'_>,
    work: &mut Work,
    lists: &[Area],
) -> Result<Vec<usize>, AllocError>
    ensures { IfOk result (λ here. AreThose (SomeStarts lists.now places.now) here.items) }
{
    let mut here = work.take()?;
    here.clear();
    for area in lists {
        if let Some(index) = start_of(places, area.first) {
            add(&mut here, index)?;
        }
    }
    Ok(here)
}

/// The indices behind the items of the recipe's lists.
fn past_recipe(
    alloc: Global,
    places: &KnownPlaces<'_>,
    work: &mut Work,
    recipe: &Recipe,
) -> Result<Vec<usize>, AllocError>
    ensures { IfOk result (λ here. AreThose (RecipeLeads recipe.now places.now) here.items) }
{
    let mut here = starts(places, work, recipe.lists())?;
    past_part(recipe.body(), places, work, &mut here)?;
    let here = past_jumps(alloc, places, work, recipe.jumps(), here)?;
    for &index in &here {
        work.tried.note(recipe.halt(), index)?;
    }
    Ok(here)
}

/// Whether a HALT stands behind the items of a frame, and the index there is in a set.
fn has_end(all: &FrameItems, here: &[usize]) -> bool
    ensures { IsTrue result ↔ (IsTrue all.now.halts × Contains here.now (length all.now.items.items)) }
{
    all.halts && here.contains(&all.items.len())
}

/// Where a frame leaves a recipe, from its items and from what was tried.
fn leaving_of(all: &FrameItems, tried: Tried) -> Result<Leaving, AllocError> {
    let at = match all.items.get(tried.index) {
        Some(item) => item.at,
        None => all.end,
    };
    let mut pieces = tried.pieces;
    pieces.sort()?;
    Ok(Leaving { at, pieces })
}

/// What has to be known of a frame's items for a recipe: if no draw has to lead somewhere, nothing.
fn places_for<'a>(
    alloc: Global,
    rom: &'a RomImage<'a>,
    recipe: &Recipe,
    items: &'a [Item],
) -> Result<KnownPlaces<'a>, AllocError>
    requires { AreFramesItems items.now }
    ensures { IfOk result (λ places. places ≡ record { rom = rom.now; items = items.now }) }
{
    if recipe.leads_somewhere() {
        KnownPlaces::find(alloc, rom, items)
    } else {
        Ok(KnownPlaces::unknown(alloc, rom, items))
    }
}

/// Where a frame leaves a recipe over a ROM (only tested), `None` if it is one of the recipe's. The ROM is asked only where a draw has to
/// lead to a place: by the made entries of what the frame calls before, as far as they can be made.
///
/// An `Err` says that there was no memory to find out, or a shape that a draw's place depends on needs by itself more entries than a
/// certificate may have.
pub fn belongs(
    alloc: Global,
    rom: &RomImage,
    recipe: &Recipe,
    frame: &FrameImage,
) -> Result<Option<Leaving>, AllocError>
    ensures none { IfOk result (λ leaving. IfNone leaving (IsMember rom.now recipe.now frame.now)) }
    ensures some { IfOk result (λ leaving. IfSome leaving (λ _. IsMember rom.now recipe.now frame.now → ⊥)) }
{
    frame.prove_whole();
    let all = frame_items(alloc, frame)?;
    let places = places_for(alloc, rom, recipe, &all.items)?;
    let mut work = Work::new(alloc, all.items.len());
    let here = past_recipe(alloc, &places, &mut work, recipe)?;
    if has_end(&all, &here) {
        return Ok(None);
    }
    Ok(Some(leaving_of(&all, work.tried)?))
}
