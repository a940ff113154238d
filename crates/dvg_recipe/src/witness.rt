//! Frames of a recipe that lead to a fault or to a call, or that have its greatest counts.
//!
//! Nothing here is trusted: what is found is a frame, which `belongs` and the judge of frames confirm before it is told. The hulls are
//! followed up to the place that is looked for, and then back, item by item: each number of a hull comes from one number of a hull before.
//! So it is where a draw has to lead into a rectangle, too: if the rectangle cuts what is known behind it, the front before it that is
//! furthest out reaches just to the cut.

ghost use Rattle.dvg_cert.specs.declared.limits.TheConstants.{MOST_WORDS};
ghost use Rattle.dvg_items.specs.Bounds.{IsSomeCertificate};
ghost use Rattle.dvg_recipe.specs.Limits.{PieceFits, RowFits};
ghost use Rattle.dvg_recipe.specs.Recipes.{Draw as Draws};
ghost use Rattle.dvg_recipe.specs.Private.Judging.{IsWithin, AreWithin};
ghost use Rattle.dvg_recipe.specs.Private.Hulls.{IsSoundChange};

use crate::changes::{act_change, draws_act, words_change};
use crate::choices::{Words, choices, jsrl};
use crate::goal::{Goal, Number, goal_of_fault, most_depth, most_words};
use crate::hull::{Change, Hull};
use crate::hulls::add_all;
use crate::judge::{Asked, first_broken, hull_past, past_jump, past_part, past_piece, starts};
use crate::notes::{Notes, RecipeFault};
use crate::piece::{DrawRange, Piece, PieceKind};
use crate::recipe::{Area, Jump, Part, Recipe};
use crate::takes::cell_of_words;
use crate::trail::{Trail, Trailed, Written, push_part, push_turns};
use crate::writing::frame_words;
use dvg_cert::{Entries, Key, MOST_WORDS};
use dvg_check::FrameWhy;
use dvg_words::{Cell, Instr, RomImage};
use std::alloc::{AllocError, Global};
use std::marker::Model;

/// Where a frame has to lead to.
#[derive(Clone, Copy)]
pub enum Stop {
    /// The first item that breaks a rule.
    Fault,
    /// The first call of this word address at this scale.
    Call { to: u16, scale: Key },
    /// The end, with the most words.
    MostWords,
    /// The end, with the most return places stored at once.
    MostDepth,
}

/// What is looked for, and in what.
#[derive(Drop)]
struct Search<'a, E: Entries> {
    alloc: Global,
    entries: &'a E,
    asked: &'a Asked,
    stop: &'a Stop,
}

impl<'a, E: Entries> Model for Search<'a, E> {
    ghost use Rattle.std.specs.Prelude.{List};
    ghost use Rattle.dvg_cert.specs.declared.entry.Entry.{Entry};

    ghost Value = { List Entry };

    ghost view = { λ search. E.list search.entries.now };
}

/// What an item has to do.
#[derive(Clone, Copy)]
enum Sought {
    /// Lead to a goal.
    Goal(Goal),
    /// Break this rule first.
    Fault(FrameWhy),
}

impl Sought {
    /// What the items before an item have to lead to, if it does what it has to by this change from what a hull has.
    fn before(&self, asked: &Asked, change: &Change, hull: &Hull) -> Option<Goal>
        requires change { IsSoundChange change.now }
    {
        match self {
            Sought::Goal(goal) => {
                if change.words + hull.words > MOST_WORDS || !goal.is_at(&hull_past(change, hull)) {
                    return None;
                }
                Some(goal.before(change, hull))
            }
            Sought::Fault(why) => {
                if first_broken(asked, hull, change) != Some(*why) {
                    return None;
                }
                Some(goal_of_fault(&asked.window, hull, change, *why))
            }
        }
    }
}

/// A draw of a range that does what is sought from what a hull has, and what the items before it have to lead to.
fn draw_from<E: Entries>(
    search: &Search<E>,
    range: &DrawRange,
    hull: &Hull,
    sought: &Sought,
) -> Option<(Written, Goal)>
    requires fits { PieceFits (Draws range.now) }
{
    let change = act_change(search.entries, &draws_act(range), hull.scale);
    let goal = sought.before(search.asked, &change, hull)?;
    Some((Written::Draw(*range, goal.number), goal))
}

/// An item among some that does what is sought from what a hull has, and what the items before it have to lead to.
fn words_from<E: Entries>(
    search: &Search<E>,
    all: &[Words],
    hull: &Hull,
    sought: &Sought,
) -> Option<(Written, Goal)> {
    for words in all {
        let change = words_change(search.entries, words.first, words.second, hull.scale);
        if let Some(goal) = sought.before(search.asked, &change, hull) {
            return Some((Written::Words(*words), goal));
        }
    }
    None
}

/// An item of a piece that does what is sought from one of some hulls, and what the items before it have to lead to.
fn item_from<E: Entries>(
    search: &Search<E>,
    kind: &PieceKind,
    here: &[Hull],
    sought: &Sought,
) -> Result<Option<(Written, Goal)>, AllocError>
    requires fits { PieceFits kind.now }
{
    let all = choices(search.alloc, kind)?;
    for hull in here {
        let found = match kind {
            PieceKind::Draw(range) => draw_from(search, range, hull, sought),
            _ => words_from(search, &all, hull, sought),
        };
        if found.is_some() {
            return Ok(found);
        }
    }
    Ok(None)
}

/// Adds items of a row that lead to the goal, in front of all others. `fronts` are the hulls before each piece.
#[tactic(auto, using(crate::proofs::Sounds::piece_got))]
#[inline(never)]
fn row_back<E: Entries>(
    search: &Search<E>,
    row: &[Piece],
    fronts: Vec<Vec<Hull>>,
    trail: &mut Trail,
) -> Result<(), AllocError>
    requires fits { RowFits row.now }
{
    let mut fronts = fronts;
    while let Some(here) = fronts.pop() {
        let (Some(piece), Some(goal)) = (row.get(fronts.len()), trail.goal) else {
            break;
        };
        let found = item_from(search, &piece.kind, &here, &Sought::Goal(goal))?;
        trail.push_before(found)?;
    }
    Ok(())
}

/// The hulls before each piece of a row.
#[tactic(auto, using(crate::proofs::Sounds::piece_at))]
fn row_fronts<E: Entries>(
    search: &Search<E>,
    row: &[Piece],
    here: &[Hull],
) -> Result<Vec<Vec<Hull>>, AllocError>
    requires fits { RowFits row.now }
{
    let alloc = search.alloc;
    let mut fronts = Vec::new(alloc);
    let mut here = Vec::from_slice(alloc, here)?;
    for piece in row {
        let notes = &mut Notes::new(alloc);
        let next = past_piece(alloc, search.entries, search.asked, notes, piece, &here)?;
        fronts.push(here)?;
        here = next;
    }
    Ok(fronts)
}

/// Adds items of a row that lead from one of some hulls to the goal, in front of all others.
#[inline(never)]
fn row_before<E: Entries>(
    search: &Search<E>,
    row: &[Piece],
    here: &[Hull],
    trail: &mut Trail,
) -> Result<(), AllocError>
    requires fits { RowFits row.now }
{
    let fronts = row_fronts(search, row, here)?;
    row_back(search, row, fronts, trail)
}

/// The hulls behind a part, whatever rule is broken in it.
#[inline(never)]
fn behind_part<E: Entries>(
    part: &Part,
    search: &Search<E>,
    here: &[Hull],
) -> Result<Vec<Hull>, AllocError>
    requires fits { IsWithin part.now }
{
    let alloc = search.alloc;
    let notes = &mut Notes::new(alloc);
    past_part(part, alloc, search.entries, search.asked, notes, here)
}

/// Whether a goal is reached behind a part.
#[inline(never)]
fn leads_through<E: Entries>(
    part: &Part,
    search: &Search<E>,
    here: &[Hull],
    goal: &Goal,
) -> Result<bool, AllocError>
    requires fits { IsWithin part.now }
{
    let behind = behind_part(part, search, here)?;
    Ok(goal.is_in(&behind))
}

/// The hulls before each turn of a part, up to the first number of turns, at least `least`, behind which a goal is reached.
#[inline(never)]
fn turn_fronts<E: Entries>(
    body: &Part,
    search: &Search<E>,
    turns: (u16, u16),
    here: &[Hull],
    goal: &Goal,
) -> Result<Vec<Vec<Hull>>, AllocError>
    requires fits { IsWithin body.now }
{
    let (least, most) = turns;
    let mut fronts = Vec::new(search.alloc);
    let mut here = Vec::from_slice(search.alloc, here)?;
    for turn in 0..most {
        if turn >= least && goal.is_in(&here) {
            return Ok(fronts);
        }
        let next = behind_part(body, search, &here)?;
        fronts.push(here)?;
        here = next;
    }
    Ok(fronts)
}

/// Adds items of a part that lead from one of some hulls to the goal, in front of all others.
#[cycle(part_before)]
fn part_before<E: Entries>(
    part: &Part,
    search: &Search<E>,
    here: &[Hull],
    trail: &mut Trail,
) -> Result<(), AllocError>
    requires fits { IsWithin part.now }
{
    let Some(goal) = trail.goal else {
        return Ok(());
    };
    match part {
        Part::Row(row) => row_before(search, row, here, trail),
        Part::Then(first, second) => {
            let between = behind_part(first, search, here)?;
            part_before(second, search, &between, trail)?;
            part_before(first, search, here, trail)
        }
        Part::Either(one, other) => {
            let branch = if leads_through(one, search, here, &goal)? {
                one
            } else {
                other
            };
            part_before(branch, search, here, trail)
        }
        Part::Repeat { least, most, body } => {
            let fronts = turn_fronts(body, search, (*least, *most), here, &goal)?;
            turns_back(body, search, fronts, trail)
        }
    }
}

/// Adds items of turns of a part that lead to the goal, in front of all others. `fronts` are the hulls before each turn.
#[cycle(part_before)]
#[inline(never)]
fn turns_back<E: Entries>(
    body: &Part,
    search: &Search<E>,
    fronts: Vec<Vec<Hull>>,
    trail: &mut Trail,
) -> Result<(), AllocError>
    requires fits { IsWithin body.now }
{
    let mut fronts = fronts;
    while let Some(here) = fronts.pop() {
        part_before(body, search, &here, trail)?;
    }
    Ok(())
}

/// Whether a piece allows a JSRL to a word address.
fn calls(kind: &PieceKind, to: u16) -> bool {
    match kind {
        PieceKind::Call(targets) => targets.contains(&to),
        PieceKind::Fixed { first, second } => match cell_of_words(*first, *second) {
            Cell::Holds {
                instr: Instr::Jsrl { to: target },
                ..
            } => target == to,
            _ => false,
        },
        PieceKind::Place(_) | PieceKind::Draw(_) => false,
    }
}

/// Whether to stop at an item of a piece: then it is added in front of all others. `fault` is the rule of the lowest number that some item
/// of the piece breaks.
fn stops_at<E: Entries>(
    search: &Search<E>,
    piece: &Piece,
    fault: Option<RecipeFault>,
    here: &[Hull],
    trail: &mut Trail,
) -> Result<bool, AllocError>
    requires fits { PieceFits piece.now.kind }
{
    let found = match (*search.stop, fault) {
        (Stop::Fault, Some(fault)) => {
            item_from(search, &piece.kind, here, &Sought::Fault(fault.why))?
        }
        (Stop::Call { to, scale }, _) if calls(&piece.kind, to) => {
            let number = Number::Any;
            let goal = Goal { scale, number };
            if !goal.is_in(here) {
                return Ok(false);
            }
            Some((Written::Words(jsrl(to)), goal))
        }
        _ => return Ok(false),
    };
    trail.push_before(found)?;
    Ok(true)
}

/// Finds the first place in a row at which to stop, as `find_in` does.
#[tactic(auto, using(crate::proofs::Sounds::piece_at))]
#[inline(never)]
fn find_in_row<E: Entries>(
    row: &[Piece],
    search: &Search<E>,
    here: &[Hull],
    trail: &mut Trail,
    next: &mut Vec<Hull>,
) -> Result<bool, AllocError>
    requires fits { RowFits row.now }
{
    let alloc = search.alloc;
    let mut fronts = Vec::new(alloc);
    let mut here = Vec::from_slice(alloc, here)?;
    for (index, piece) in row.iter().enumerate() {
        let mut notes = Notes::new(alloc);
        let behind = past_piece(
            alloc,
            search.entries,
            search.asked,
            &mut notes,
            piece,
            &here,
        )?;
        if stops_at(search, piece, notes.fault(), &here, trail)? {
            trail.push_row(&row[index + 1..])?;
            row_back(search, row, fronts, trail)?;
            return Ok(true);
        }
        fronts.push(here)?;
        here = behind;
    }
    add_all(next, &here)?;
    Ok(false)
}

/// Finds the first place in a part, in the order of reading with repeats written out, at which to stop, and answers whether there is one:
/// then the items of the part up to there are added in front of all others, and items of what follows in the part behind all others. Else
/// the hulls behind the part are added to `next`.
#[cycle(find_in)]
fn find_in<E: Entries>(
    part: &Part,
    search: &Search<E>,
    here: &[Hull],
    trail: &mut Trail,
    next: &mut Vec<Hull>,
) -> Result<bool, AllocError>
    requires fits { IsWithin part.now }
{
    match part {
        Part::Row(row) => find_in_row(row, search, here, trail, next),
        Part::Then(first, second) => {
            let mut between = Vec::new(search.alloc);
            if find_in(first, search, here, trail, &mut between)? {
                push_part(second, trail)?;
                return Ok(true);
            }
            if !find_in(second, search, &between, trail, next)? {
                return Ok(false);
            }
            part_before(first, search, here, trail)?;
            Ok(true)
        }
        Part::Either(one, other) => {
            if find_in(one, search, here, trail, next)? {
                return Ok(true);
            }
            find_in(other, search, here, trail, next)
        }
        Part::Repeat { least, most, body } => {
            find_in_turns(body, search, (*least, *most), here, trail, next)
        }
    }
}

/// Finds the first place in the turns of a part at which to stop, as `find_in` does.
#[cycle(find_in)]
#[inline(never)]
fn find_in_turns<E: Entries>(
    body: &Part,
    search: &Search<E>,
    turns: (u16, u16),
    here: &[Hull],
    trail: &mut Trail,
    next: &mut Vec<Hull>,
) -> Result<bool, AllocError>
    requires fits { IsWithin body.now }
{
    let (least, most) = turns;
    let mut fronts = Vec::new(search.alloc);
    let mut here = Vec::from_slice(search.alloc, here)?;
    for turn in 0..most {
        if turn >= least {
            add_all(next, &here)?;
        }
        let mut behind = Vec::new(search.alloc);
        if find_in(body, search, &here, trail, &mut behind)? {
            trail.push_turn(turn + 1)?;
            push_turns(body, least.saturating_sub(turn + 1), trail)?;
            turns_back(body, search, fronts, trail)?;
            return Ok(true);
        }
        fronts.push(here)?;
        here = behind;
    }
    add_all(next, &here)?;
    Ok(false)
}

/// Finds the place at which to stop in a jump and what stands behind it, as `find_in` does.
fn find_in_jump<E: Entries>(
    jump: &Jump,
    search: &Search<E>,
    here: &[Hull],
    trail: &mut Trail,
    next: &mut Vec<Hull>,
) -> Result<bool, AllocError>
    requires fits { IsWithin jump.now.body }
{
    let mut notes = Notes::new(search.alloc);
    let number = Some(jump.number);
    let there = past_jump(search.alloc, search.asked, &mut notes, number, here)?;
    if let (Stop::Fault, Some(_), Some(goal)) = (*search.stop, notes.fault(), most_words(here)) {
        trail.push_jump_before(jump.area.first)?;
        trail.goal = Some(goal);
        push_part(&jump.body, trail)?;
        return Ok(true);
    }
    if !find_in(&jump.body, search, &there, trail, next)? {
        return Ok(false);
    }
    trail.push_jump_before(jump.area.first)?;
    Ok(true)
}

/// Adds jumps, with items of what stands behind each, that lead to the goal, in front of all others. `fronts` are the hulls before each
/// jump.
fn jumps_back<E: Entries>(
    jumps: &[Jump],
    search: &Search<E>,
    fronts: Vec<Vec<Hull>>,
    trail: &mut Trail,
) -> Result<(), AllocError>
    requires fits { AreWithin jumps.now }
{
    let mut fronts = fronts;
    while let Some(here) = fronts.pop() {
        let Some(jump) = jumps.get(fronts.len()) else {
            break;
        };
        let notes = &mut Notes::new(search.alloc);
        let number = Some(jump.number);
        let there = past_jump(search.alloc, search.asked, notes, number, &here)?;
        part_before(&jump.body, search, &there, trail)?;
        trail.push_jump_before(jump.area.first)?;
    }
    Ok(())
}

/// What all items up to the HALT have to lead to.
fn end_goal(asked: &Asked, stop: &Stop, here: &[Hull]) -> Option<Goal> {
    match *stop {
        Stop::MostDepth => most_depth(here),
        Stop::MostWords => most_words(here),
        Stop::Fault => {
            let goal = most_words(here)?;
            match goal.number {
                Number::Words(words) if words >= asked.budget => Some(goal),
                _ => None,
            }
        }
        Stop::Call { .. } => None,
    }
}

/// Finds the place at which to stop in jumps, in what stands behind each, or at the HALT, and adds items that lead there from the first
/// jump on.
fn find_in_jumps<E: Entries>(
    jumps: &[Jump],
    search: &Search<E>,
    here: Vec<Hull>,
    trail: &mut Trail,
) -> Result<(), AllocError>
    requires fits { AreWithin jumps.now }
{
    let mut fronts = Vec::new(search.alloc);
    let mut here = here;
    for (index, jump) in jumps.iter().enumerate() {
        let mut next = Vec::new(search.alloc);
        if find_in_jump(jump, search, &here, trail, &mut next)? {
            trail.push_jumps(&jumps[index + 1..])?;
            return jumps_back(jumps, search, fronts, trail);
        }
        fronts.push(here)?;
        here = next;
    }
    trail.goal = end_goal(search.asked, search.stop, &here);
    jumps_back(jumps, search, fronts, trail)
}

/// Finds the place at which to stop in what stands in lists and behind them, and adds items that lead there from the list on.
fn find_in_recipe<E: Entries>(
    search: &Search<E>,
    recipe: &Recipe,
    trail: &mut Trail,
) -> Result<(), AllocError> {
    let alloc = search.alloc;
    let mut notes = Notes::new(alloc);
    let first = starts(alloc, search.asked, &mut notes, recipe.lists())?;
    if let (Stop::Fault, Some(_)) = (*search.stop, notes.fault()) {
        trail.goal = most_words(&first);
        push_part(recipe.body(), trail)?;
        trail.push_jumps(recipe.jumps())?;
        return Ok(());
    }
    let body = recipe.body();
    let mut next = Vec::new(alloc);
    if find_in(body, search, &first, trail, &mut next)? {
        trail.push_jumps(recipe.jumps())?;
        return Ok(());
    }
    find_in_jumps(recipe.jumps(), search, next, trail)?;
    part_before(body, search, &first, trail)
}

/// The word address of a list that leads to a goal: one at 000 has no word before it, and others have the JMPL to them.
fn list_of(lists: &[Area], goal: &Goal) -> Option<u16> {
    for area in lists {
        match goal.number {
            Number::Words(words) if (words == 0) != (area.first == 0) => {}
            _ => return Some(area.first),
        }
    }
    None
}

/// A frame of a recipe that leads to where it has to stop.
#[derive(Drop)]
pub struct LeadingFrame {
    pub words: Vec<u16>,
    /// In which turns, counted from 1, the repeats around the place are at which it stops, the outermost first.
    pub turns: Vec<u16>,
}

/// The words of a frame of a recipe over a ROM that leads to where it has to stop, `None` if there is none (only tested).
pub fn find<E: Entries>(
    alloc: Global,
    rom: &RomImage,
    entries: &E,
    asked: &Asked,
    stop: &Stop,
    recipe: &Recipe,
) -> Result<Option<LeadingFrame>, AllocError> {
    let search = Search {
        alloc,
        entries,
        asked,
        stop,
    };
    let mut trail = Trail::new(alloc);
    find_in_recipe(&search, recipe, &mut trail)?;
    let Some(goal) = trail.goal else {
        return Ok(None);
    };
    let Some(first) = list_of(recipe.lists(), &goal) else {
        return Ok(None);
    };
    if first > 0 {
        trail.push_jump_before(first)?;
    }
    let Trailed { items, turns } = trail.into_trailed()?;
    let words = frame_words(alloc, rom, &items)?;
    Ok(Some(LeadingFrame { words, turns }))
}
