//! Judges all frames of a recipe at once, by hulls of what may be known.

ghost use Rattle.std.specs.Prelude.{◌≡◌, ◌≤◌, ◌+◌, [], ◌∷◌, List, None, true, false, get_or, Contains, IfOk, IfNone};
ghost use Rattle.dvg_cert.specs.declared.limits.TheConstants.{MOST_WORDS};
ghost use Rattle.dvg_cert.specs.declared.entry.Entry.{Entry};
ghost use Rattle.dvg_words.specs.declared.machine.Machine.TheVariants.{Board};
ghost use Rattle.dvg_items.specs.Bounds.{IsSomeCertificate};
ghost use Rattle.dvg_check.specs.Rules.{Good};
ghost use Rattle.dvg_make.specs.Made.{AllMade};
ghost use Rattle.dvg_check.specs.declared.fault.Mode.TheVariants.{Exact};
ghost use Rattle.dvg_recipe.specs.Limits.{PieceFits, RowFits};
ghost use Rattle.dvg_recipe.specs.Means.{AllMean};
ghost use Rattle.dvg_recipe.specs.Recipes.{Place, TakesCall, AddsRow, Spells, SpellsJumps};
ghost use Rattle.dvg_recipe.specs.Private.Judging.{IsJump, IsTaken, Carries, IfFine, IsWithin, AreWithin, Turns, IsFirst, AreListStarts, AreGoodMembers, AreGoodFrames, IsCounted};
ghost use Rattle.dvg_recipe.specs.Private.Hulls.{AreUnder, IsSoundChange, HullKeeps, LightsIn, IsNearLight, AreNearPlaces, IsAct, ActFits, PlaceAct, LeadOn, hull_past, places_of};

use crate::changes::{act_change, draws_act, places_of, still, words_act};
use crate::hull::{Act, Change, Hull, Light, Places, Rectangle};
use crate::hulls::{add, add_all};
use crate::notes::{Notes, RecipeFault};
use crate::piece::{Piece, PieceKind, PlaceRange};
use crate::recipe::{Area, Jump, Part, Recipe};
use crate::rectangles::{is_shown, moved, part_in, places_in, places_past};
use crate::takes::has_scale;
use crate::verdict::RecipeRefusal;
use dvg_cert::{Entries, Key, MOST_WORDS};
use dvg_check::{Accepted, FrameWhy};
use dvg_words::{Machine, RomImage, Window};
use std::alloc::{AllocError, Global};

/// What is asked of each frame: how many words it may take at most, and in which window it may light.
#[derive(Clone, Copy)]
pub struct Asked {
    pub budget: u32,
    pub window: Window,
    ghost most: { budget ≤ MOST_WORDS },
}

/// The first rule that is broken by what is lit from some place. What a draw into a rectangle lights ends there.
fn light_broken(
    window: &Window,
    into: &Option<Rectangle>,
    places: &Places,
    light: &Light,
) -> Option<FrameWhy>
    requires places { AreNearPlaces MOST_WORDS places.now }
    requires light { IsNearLight light.now }
    ensures { IfNone result (LightsIn window.now into.now places.now light.now) }
{
    match (light, places) {
        (Light::Dark, _) => None,
        (_, Places::Lost) => Some(FrameWhy::BeamUnknown),
        (Light::Unbounded, _) => Some(FrameWhy::ScaleUnknown),
        (Light::Shown { from, to }, Places::Within(r)) => {
            let ends = part_in(into, &moved(r, to));
            if is_shown(window, &moved(r, from)) && is_shown(window, &ends) {
                None
            } else {
                Some(FrameWhy::OffScreen)
            }
        }
    }
}

/// The first rule that a change breaks from what a hull has.
#[tactic(auto, using(crate::proofs::Leads::near_most))]
pub fn first_broken(asked: &Asked, hull: &Hull, change: &Change) -> Option<FrameWhy>
    requires change { IsSoundChange change.now }
    ensures { IfNone result (HullKeeps asked.now.window asked.now.budget hull.now change.now) }
{
    match light_broken(&asked.window, &change.into, &hull.places, &change.light) {
        Some(why) => Some(why),
        None if !change.named => Some(FrameWhy::NoEntry),
        None if change.words + hull.words > asked.budget => Some(FrameWhy::Budget),
        None => None,
    }
}

/// What may be known past a change.
#[tactic(auto, using(crate::proofs::Leads::near_most, crate::proofs::Past::past_sound))]
pub fn hull_past(change: &Change, hull: &Hull) -> Hull
    requires change { IsSoundChange change.now }
    requires few { change.now.words + hull.now.words ≤ MOST_WORDS }
    ensures value { result ≡ hull_past change.now hull.now }
{
    Hull {
        scale: change.scale,
        places: places_in(&change.into, &places_past(&change.motion, &hull.places)),
        words: change.words + hull.words,
        depth: change.depth.max(hull.depth),
    }
}

/// The rule of the lower number.
fn lower(broken: Option<FrameWhy>, why: FrameWhy) -> FrameWhy {
    match broken {
        Some(other) if other.number() < why.number() => other,
        _ => why,
    }
}

/// Adds what is known past a change from what a hull has to other hulls, and notes the rule that it breaks.
fn put(
    next: &mut Vec<Hull>,
    broken: &mut Option<FrameWhy>,
    asked: &Asked,
    hull: &Hull,
    change: &Change,
) -> Result<(), AllocError>
    requires change { IsSoundChange change.now }
    ensures fine { IfOk result (λ _. broken.new ≡ None → broken.old ≡ None) }
    ensures keeps { IfOk result (λ _. broken.new ≡ None → HullKeeps asked.now.window asked.now.budget hull.now change.now) }
    ensures added { IfOk result (λ _. broken.new ≡ None → AreUnder (hull_past change.now hull.now ∷ []) next.new.items) }
    ensures kept { IfOk result (λ _. AreUnder next.old.items next.new.items) }
{
    if let Some(why) = first_broken(asked, hull, change) {
        *broken = Some(lower(*broken, why));
    }
    if change.words + hull.words <= MOST_WORDS {
        add(next, &hull_past(change, hull))?;
    }
    Ok(())
}

/// The hulls behind a jump of this number. The first fault is noted.
pub fn past_jump(
    alloc: Global,
    asked: &Asked,
    notes: &mut Notes,
    number: Option<u16>,
    here: &[Hull],
) -> Result<Vec<Hull>, AllocError>
    ensures leads { IfOk result (λ next. IfFine notes.old notes.new ((list : List Entry) → LeadOn asked.now.window list asked.now.budget IsJump here.now next.items)) }
{
    let mut next = Vec::new(alloc);
    let mut broken = None;
    for hull in here {
        notes.see(number, hull, &[]);
        put(&mut next, &mut broken, asked, hull, &still(hull.scale))?;
    }
    notes.end(number, broken);
    Ok(next)
}

/// Adds what is known past an act of a piece from some hulls to others, and notes the rule of the lowest number that it breaks.
fn add_act<E: Entries>(
    entries: &E,
    asked: &Asked,
    notes: &mut Notes,
    number: u16,
    act: &Act,
    here: &[Hull],
    next: &mut Vec<Hull>,
    broken: &mut Option<FrameWhy>,
) -> Result<(), AllocError>
    requires fits { ActFits act.now }
    ensures fine { IfOk result (λ _. broken.new ≡ None → broken.old ≡ None) }
    ensures leads { IfOk result (λ _. broken.new ≡ None → LeadOn asked.now.window (E.list entries.now) asked.now.budget (IsAct (E.list entries.now) act.now) here.now next.new.items) }
    ensures noted { IfOk result (λ _. notes.new ≡ notes.old) }
    ensures kept { IfOk result (λ _. AreUnder next.old.items next.new.items) }
{
    for hull in here {
        let change = act_change(entries, act, hull.scale);
        notes.see(Some(number), hull, &[change]);
        put(next, broken, asked, hull, &change)?;
    }
    Ok(())
}

/// Adds what is known past a LABS to places of a range at a scale, as `add_act` does, if the scale is one of the range's.
fn add_place<E: Entries>(
    entries: &E,
    asked: &Asked,
    notes: &mut Notes,
    number: u16,
    range: &PlaceRange,
    scale: u8,
    here: &[Hull],
    next: &mut Vec<Hull>,
    broken: &mut Option<FrameWhy>,
) -> Result<(), AllocError>
    requires fits { PieceFits (Place range.now) }
    requires scale { scale ≤ 15 }
    ensures fine { IfOk result (λ _. broken.new ≡ None → broken.old ≡ None) }
    ensures leads { IfOk result (λ _. broken.new ≡ None → get_or range.now.scales scale false ≡ true → LeadOn asked.now.window (E.list entries.now) asked.now.budget (IsAct (E.list entries.now) (PlaceAct (places_of range.now) scale)) here.now next.new.items) }
    ensures noted { IfOk result (λ _. notes.new ≡ notes.old) }
    ensures kept { IfOk result (λ _. AreUnder next.old.items next.new.items) }
{
    if !has_scale(&range.scales, scale) {
        return Ok(());
    }
    let places = places_of(range);
    let act = Act::Place { places, scale };
    add_act(entries, asked, notes, number, &act, here, next, broken)
}

/// Adds what is known past a LABS to places of a range, at each of its scales, as `add_act` does.
fn add_places<E: Entries>(
    entries: &E,
    asked: &Asked,
    notes: &mut Notes,
    number: u16,
    range: &PlaceRange,
    here: &[Hull],
    next: &mut Vec<Hull>,
    broken: &mut Option<FrameWhy>,
) -> Result<(), AllocError>
    requires fits { PieceFits (Place range.now) }
    ensures fine { IfOk result (λ _. broken.new ≡ None → broken.old ≡ None) }
    ensures leads { IfOk result (λ _. broken.new ≡ None → LeadOn asked.now.window (E.list entries.now) asked.now.budget (IsTaken (Place range.now)) here.now next.new.items) }
    ensures noted { IfOk result (λ _. notes.new ≡ notes.old) }
    ensures kept { IfOk result (λ _. AreUnder next.old.items next.new.items) }
{
    for scale in 0..16u8 {
        add_place(
            entries, asked, notes, number, range, scale, here, next, broken,
        )?;
    }
    Ok(())
}

/// Adds what is known past a JSRL to each of some word addresses, as `add_act` does.
fn add_calls<E: Entries>(
    entries: &E,
    asked: &Asked,
    notes: &mut Notes,
    number: u16,
    targets: &[u16],
    here: &[Hull],
    next: &mut Vec<Hull>,
    broken: &mut Option<FrameWhy>,
) -> Result<(), AllocError>
    ensures fine { IfOk result (λ _. broken.new ≡ None → broken.old ≡ None) }
    ensures leads { IfOk result (λ _. broken.new ≡ None → LeadOn asked.now.window (E.list entries.now) asked.now.budget (λ known i. TakesCall targets.now i.instr) here.now next.new.items) }
    ensures noted { IfOk result (λ _. notes.new ≡ notes.old) }
    ensures kept { IfOk result (λ _. AreUnder next.old.items next.new.items) }
{
    for &to in targets {
        let act = Act::Call { to };
        add_act(entries, asked, notes, number, &act, here, next, broken)?;
    }
    Ok(())
}

/// Adds what is known past the items of a piece, as `add_act` does.
fn add_items<E: Entries>(
    entries: &E,
    asked: &Asked,
    notes: &mut Notes,
    piece: &Piece,
    here: &[Hull],
    next: &mut Vec<Hull>,
    broken: &mut Option<FrameWhy>,
) -> Result<(), AllocError>
    requires fits { PieceFits piece.now.kind }
    ensures fine { IfOk result (λ _. broken.new ≡ None → broken.old ≡ None) }
    ensures leads { IfOk result (λ _. broken.new ≡ None → LeadOn asked.now.window (E.list entries.now) asked.now.budget (IsTaken piece.now.kind) here.now next.new.items) }
    ensures noted { IfOk result (λ _. notes.new ≡ notes.old) }
    ensures kept { IfOk result (λ _. AreUnder next.old.items next.new.items) }
{
    let number = piece.number;
    let act = match &piece.kind {
        PieceKind::Place(range) => {
            return add_places(entries, asked, notes, number, range, here, next, broken);
        }
        PieceKind::Call(targets) => {
            return add_calls(entries, asked, notes, number, targets, here, next, broken);
        }
        PieceKind::Draw(range) => draws_act(range),
        PieceKind::Fixed { first, second } => words_act(*first, *second),
    };
    add_act(entries, asked, notes, number, &act, here, next, broken)
}

/// Adds the hulls behind the items of a piece to others. The first fault is noted.
#[inline(never)]
pub fn add_piece<E: Entries>(
    entries: &E,
    asked: &Asked,
    notes: &mut Notes,
    piece: &Piece,
    here: &[Hull],
    next: &mut Vec<Hull>,
) -> Result<(), AllocError>
    requires fits { PieceFits piece.now.kind }
    ensures leads { IfOk result (λ _. IfFine notes.old notes.new (LeadOn asked.now.window (E.list entries.now) asked.now.budget (IsTaken piece.now.kind) here.now next.new.items)) }
    ensures kept { IfOk result (λ _. AreUnder next.old.items next.new.items) }
{
    let mut broken = None;
    add_items(entries, asked, notes, piece, here, next, &mut broken)?;
    notes.end(Some(piece.number), broken);
    Ok(())
}

/// The hulls behind the items of a piece. The first fault is noted.
pub fn past_piece<E: Entries>(
    alloc: Global,
    entries: &E,
    asked: &Asked,
    notes: &mut Notes,
    piece: &Piece,
    here: &[Hull],
) -> Result<Vec<Hull>, AllocError>
    requires fits { PieceFits piece.now.kind }
    ensures leads { IfOk result (λ next. IfFine notes.old notes.new (LeadOn asked.now.window (E.list entries.now) asked.now.budget (IsTaken piece.now.kind) here.now next.items)) }
{
    let mut next = Vec::new(alloc);
    add_piece(entries, asked, notes, piece, here, &mut next)?;
    Ok(next)
}

/// The hulls behind the items of a row. The first fault is noted.
fn past_row<E: Entries>(
    alloc: Global,
    entries: &E,
    asked: &Asked,
    notes: &mut Notes,
    row: &[Piece],
    here: Vec<Hull>,
) -> Result<Vec<Hull>, AllocError>
    requires fits { RowFits row.now }
    ensures carries { IfOk result (λ next. IfFine notes.old notes.new (Carries asked.now.window (E.list entries.now) asked.now.budget (AddsRow row.now) here.items next.items)) }
{
    let mut here = here;
    for piece in row {
        here = past_piece(alloc, entries, asked, notes, piece, &here)?;
    }
    Ok(here)
}

/// Adds the hulls behind the items of a row to others. The first fault is noted.
fn add_pieces<E: Entries>(
    alloc: Global,
    entries: &E,
    asked: &Asked,
    notes: &mut Notes,
    row: &[Piece],
    here: &[Hull],
    next: &mut Vec<Hull>,
) -> Result<(), AllocError>
    requires fits { RowFits row.now }
    ensures carries { IfOk result (λ _. IfFine notes.old notes.new (Carries asked.now.window (E.list entries.now) asked.now.budget (AddsRow row.now) here.now next.new.items)) }
    ensures kept { IfOk result (λ _. AreUnder next.old.items next.new.items) }
{
    let copy = Vec::from_slice(alloc, here)?;
    let behind = past_row(alloc, entries, asked, notes, row, copy)?;
    add_all(next, &behind)
}

/// Adds the hulls behind the items of a row to others. The first fault is noted.
#[tactic(auto, using(crate::proofs::Sounds::piece_at))]
#[inline(never)]
fn add_row<E: Entries>(
    alloc: Global,
    entries: &E,
    asked: &Asked,
    notes: &mut Notes,
    row: &[Piece],
    here: &[Hull],
    next: &mut Vec<Hull>,
) -> Result<(), AllocError>
    requires fits { RowFits row.now }
    ensures carries { IfOk result (λ _. IfFine notes.old notes.new (Carries asked.now.window (E.list entries.now) asked.now.budget (AddsRow row.now) here.now next.new.items)) }
    ensures kept { IfOk result (λ _. AreUnder next.old.items next.new.items) }
{
    if row.len() == 1 {
        return add_piece(entries, asked, notes, &row[0], here, next);
    }
    add_pieces(alloc, entries, asked, notes, row, here, next)
}

/// Adds the hulls behind the items of a part to others. The first fault is noted.
#[cycle(add_part)]
pub fn add_part<E: Entries>(
    part: &Part,
    alloc: Global,
    entries: &E,
    asked: &Asked,
    notes: &mut Notes,
    here: &[Hull],
    next: &mut Vec<Hull>,
) -> Result<(), AllocError>
    requires fits { IsWithin part.now }
    ensures carries { IfOk result (λ _. IfFine notes.old notes.new (Carries asked.now.window (E.list entries.now) asked.now.budget (Spells part.now) here.now next.new.items)) }
    ensures kept { IfOk result (λ _. AreUnder next.old.items next.new.items) }
{
    match part {
        Part::Row(row) => add_row(alloc, entries, asked, notes, row, here, next),
        Part::Then(first, second) => {
            let mut between = Vec::new(alloc);
            add_part(first, alloc, entries, asked, notes, here, &mut between)?;
            add_part(second, alloc, entries, asked, notes, &between, next)
        }
        Part::Either(one, other) => {
            add_part(one, alloc, entries, asked, notes, here, next)?;
            add_part(other, alloc, entries, asked, notes, here, next)
        }
        Part::Repeat { least, most, body } => {
            add_repeat(
                body, alloc, entries, asked, notes, *least, *most, here, next,
            )
        }
    }
}

/// Adds the hulls behind `least` to `most` turns of a part to others. The first fault is noted.
#[cycle(add_part)]
#[inline(never)]
fn add_repeat<E: Entries>(
    body: &Part,
    alloc: Global,
    entries: &E,
    asked: &Asked,
    notes: &mut Notes,
    least: u16,
    most: u16,
    here: &[Hull],
    next: &mut Vec<Hull>,
) -> Result<(), AllocError>
    requires fits { IsWithin body.now }
    requires turns { least ≤ most }
    ensures carries { IfOk result (λ _. IfFine notes.old notes.new (Carries asked.now.window (E.list entries.now) asked.now.budget (Turns least most (Spells body.now)) here.now next.new.items)) }
    ensures kept { IfOk result (λ _. AreUnder next.old.items next.new.items) }
{
    let mut there = Vec::from_slice(alloc, here)?;
    for _ in 0..least {
        let mut behind = Vec::new(alloc);
        add_part(body, alloc, entries, asked, notes, &there, &mut behind)?;
        there = behind;
    }
    add_all(next, &there)?;
    for _ in least..most {
        let mut behind = Vec::new(alloc);
        add_part(body, alloc, entries, asked, notes, &there, &mut behind)?;
        there = behind;
        add_all(next, &there)?;
    }
    Ok(())
}

/// The hulls behind the items of a part. The first fault is noted.
pub fn past_part<E: Entries>(
    part: &Part,
    alloc: Global,
    entries: &E,
    asked: &Asked,
    notes: &mut Notes,
    here: &[Hull],
) -> Result<Vec<Hull>, AllocError>
    requires fits { IsWithin part.now }
    ensures carries { IfOk result (λ next. IfFine notes.old notes.new (Carries asked.now.window (E.list entries.now) asked.now.budget (Spells part.now) here.now next.items)) }
{
    let mut next = Vec::new(alloc);
    add_part(part, alloc, entries, asked, notes, here, &mut next)?;
    Ok(next)
}

/// The hulls behind jumps and their parts. The first fault is noted.
fn past_jumps<E: Entries>(
    alloc: Global,
    entries: &E,
    asked: &Asked,
    notes: &mut Notes,
    jumps: &[Jump],
    here: Vec<Hull>,
) -> Result<Vec<Hull>, AllocError>
    requires fits { AreWithin jumps.now }
    ensures carries { IfOk result (λ next. IfFine notes.old notes.new (Carries asked.now.window (E.list entries.now) asked.now.budget (SpellsJumps jumps.now) here.items next.items)) }
{
    let mut here = here;
    for jump in jumps {
        let there = past_jump(alloc, asked, notes, Some(jump.number), &here)?;
        here = past_part(&jump.body, alloc, entries, asked, notes, &there)?;
    }
    Ok(here)
}

/// All that may be known at word 000 of a frame.
fn first_hull() -> Hull
    ensures first { IsFirst result }
{
    Hull {
        scale: Key::Any,
        places: Places::Lost,
        words: 0,
        depth: 0,
    }
}

/// The hulls where a list that begins in an area begins. The first fault is noted.
fn starts_in(
    alloc: Global,
    asked: &Asked,
    notes: &mut Notes,
    area: &Area,
) -> Result<Vec<Hull>, AllocError>
    ensures starts { IfOk result (λ here. IfFine notes.old notes.new ((list : List Entry) → AreListStarts asked.now.window list asked.now.budget (area.now ∷ []) here.items)) }
{
    if area.first == 0 {
        let mut here = Vec::new(alloc);
        add(&mut here, &first_hull())?;
        return Ok(here);
    }
    past_jump(alloc, asked, notes, None, &[first_hull()])
}

/// The hulls where lists begin. The first fault is noted.
pub fn starts(
    alloc: Global,
    asked: &Asked,
    notes: &mut Notes,
    lists: &[Area],
) -> Result<Vec<Hull>, AllocError>
    ensures starts { IfOk result (λ here. IfFine notes.old notes.new ((list : List Entry) → AreListStarts asked.now.window list asked.now.budget lists.now here.items)) }
{
    let mut here = Vec::new(alloc);
    for area in lists {
        let more = starts_in(alloc, asked, notes, area)?;
        add_all(&mut here, &more)?;
    }
    Ok(here)
}

/// The greatest of counts and of those of lists whose HALT stands behind a hull.
fn counted(yes: &Accepted, hull: &Hull) -> Accepted
    ensures counted { IsCounted result.words result.depth hull.now }
    ensures more { (yes.now.words ≤ result.words) × (yes.now.depth ≤ result.depth) }
{
    Accepted {
        words: yes.words.max(hull.words + 1),
        depth: yes.depth.max(hull.depth),
    }
}

/// The greatest counts of the lists whose HALT stands behind these hulls.
fn counts(here: &[Hull]) -> Accepted
    ensures { (h : Hull) → Contains here.now h → IsCounted result.words result.depth h }
{
    let mut yes = Accepted { words: 0, depth: 0 };
    for hull in here {
        yes = counted(&yes, hull);
    }
    yes
}

/// Counts, if no piece is stuck, there is no fault, and they are within the budget.
fn accepted(
    asked: &Asked,
    halt: u16,
    notes: &Notes,
    yes: Accepted,
) -> Result<Accepted, RecipeRefusal>
    ensures { IfOk result (λ answer. (notes.now ≡ None) × (answer ≡ yes) × (yes.words ≤ asked.now.budget)) }
{
    if let Some(piece) = notes.stuck() {
        return Err(RecipeRefusal::Stuck { piece });
    }
    if let Some(fault) = notes.fault() {
        return Err(RecipeRefusal::Frame(fault));
    }
    if yes.words > asked.budget {
        return Err(RecipeRefusal::Frame(RecipeFault {
            piece: Some(halt),
            why: FrameWhy::Budget,
        }));
    }
    Ok(yes)
}

/// The hulls behind all items of a recipe's lists. The first fault is noted.
pub fn past_recipe<E: Entries>(
    alloc: Global,
    entries: &E,
    asked: &Asked,
    recipe: &Recipe,
    notes: &mut Notes,
) -> Result<Vec<Hull>, AllocError>
    ensures good { IfOk result (λ ends. IfFine notes.old notes.new (AreGoodMembers asked.now.window (E.list entries.now) asked.now.budget recipe.now ends.items)) }
{
    let here = starts(alloc, asked, notes, recipe.lists())?;
    let here = past_part(recipe.body(), alloc, entries, asked, notes, &here)?;
    past_jumps(alloc, entries, asked, notes, recipe.jumps(), here)
}

/// Judges all frames of a recipe at once over a ROM on the board, whose shapes are good by these entries: the greatest counts of its
/// frames, the first piece that is stuck, or the first fault of one of them.
pub fn judge_over<E: Entries>(
    alloc: Global,
    rom: &RomImage,
    entries: &E,
    asked: &Asked,
    recipe: &Recipe,
    notes: &mut Notes,
) -> Result<Accepted, RecipeRefusal>
    requires list { IsSomeCertificate (E.list entries.now) }
    requires made { AllMade rom.now (E.list entries.now) }
    requires good { Good Exact asked.now.window rom.now (E.list entries.now) }
    requires board { rom.now.machine ≡ Board }
    ensures means { IfOk result (λ yes. AllMean rom.now recipe.now asked.now.window yes.words yes.depth) }
    ensures good { IfOk result (λ yes. AreGoodFrames rom.now recipe.now asked.now.window (E.list entries.now) asked.now.budget) }
{
    rom.prove_whole();
    asked.window.prove_for_board();
    let ends = past_recipe(alloc, entries, asked, recipe, notes)?;
    notes.see_end(recipe.halt(), &ends);
    accepted(asked, recipe.halt(), notes, counts(&ends))
}
