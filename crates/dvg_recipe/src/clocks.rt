//! Goes over a recipe with the most clocks that its frames may take, by the known scale.
//!
//! What an item takes depends on the scale before it alone, and adds up. So the most at each scale is all that there is to know, and is
//! what some frame may take: nothing is lost where frames meet. The limit is asked of each item, in the order of reading with repeats
//! written out.

ghost use Rattle.std.specs.Prelude.{◌≡◌, ◌≤◌, ℕ, [], ◌∷◌, true, false, get_or, IfSome, IfOk, OnOk};
ghost use Rattle.dvg_clocks.specs.declared.clocks.States.{States};
ghost use Rattle.dvg_words.specs.Decoding.{InstrFits};
ghost use Rattle.dvg_words.specs.declared.instruction.Instr.TheVariants.{Jmpl as Jumps};
ghost use Rattle.dvg_cert.specs.Entry.{IsKey};
ghost use Rattle.dvg_items.specs.Known.{callee_at};
ghost use Rattle.dvg_items.specs.declared.item.Item.{Item as AnItem};
ghost use Rattle.dvg_clocks.specs.declared.clocks.ClockRange.{ClockRange as Clocks};
ghost use Rattle.dvg_clocks.specs.Forecasts.{plus, callee_taken, clocks_known};
ghost use Rattle.dvg_clocks.specs.Kept.{clocks_in};
ghost use Rattle.dvg_recipe.specs.Limits.{PieceFits, AreAddresses, RowFits};
ghost use Rattle.dvg_recipe.specs.Recipes.{Place, Draw as Draws, Fixed, Takes, TakesCall, AddsRow, Spells, SpellsJumps};
ghost use Rattle.dvg_recipe.specs.Private.Judging.{IsWithin, AreWithin, Turns};
ghost use Rattle.dvg_recipe.specs.Private.Clocks.{AreNoMore, AreAlike, IsLabsAt, TakeOn, Spend, StartWith, EndWith, AreListsUnder, IsUnder, most_at, scale_past, taken_past};

use crate::most_clocks::MostClocks;
use crate::piece::{DrawRange, Piece, PieceKind, PlaceRange};
use crate::recipe::{Area, Jump, Part, Recipe};
use crate::takes::{cell_of_words, has_scale};
use dvg_cert::{Entries, Entry, Key};
use dvg_clocks::{ClockRange, ShapeClocks, Timing, instr_clocks};
use dvg_items::{Item, Kind, callee, scale_past, target};
use dvg_words::{Cell, Draw, Format, Instr};

/// By what clocks are counted: the table and the limit, the entries of a certificate, and what their shapes take.
#[derive(Drop)]
pub struct Counting<'a, E: Entries> {
    pub timing: &'a Timing,
    pub entries: &'a E,
    pub shapes: &'a ShapeClocks,
}

/// 58: with this piece some frame may take more clocks than the limit. `None` is the jump to a list, at word 000.
#[derive(Clone, Copy, Debug, PartialEq, Eq)]
pub struct SlowPiece {
    pub piece: Option<u16>,
}

/// An instruction that stands anywhere: what it takes doesn't depend on where.
fn somewhere(format: Format, instr: Instr) -> Item
    ensures { result ≡ record { at = 0; format = format; instr = instr } }
{
    Item {
        at: 0,
        format,
        instr,
    }
}

/// The sum of two ranges, if it is within a limit.
fn sum_within(limit: u64, one: ClockRange, other: ClockRange) -> Option<ClockRange>
    ensures { IfSome result (λ sum. (sum ≡ plus one other) × (sum.most ≤ limit)) }
{
    let least = one.least.checked_add(other.least)?;
    let most = one.most.checked_add(other.most)?;
    if most > limit {
        return None;
    }
    Some(ClockRange { least, most })
}

/// What is taken with an item and what it calls, if it is within the limit.
fn taken_with<E: Entries>(
    counting: &Counting<E>,
    item: &Item,
    scale: Key,
    called: &Option<Entry>,
    before: ClockRange,
) -> Option<ClockRange>
    requires key { IsKey scale }
    requires fields { InstrFits item.now.instr }
    ensures { IfSome result (λ sum. (sum ≡ plus (plus (clocks_known counting.now.timing.now.states item.now.format item.now.instr scale)
        (callee_taken (clocks_in counting.now.shapes.now) called.now)) before) × (sum.most ≤ counting.now.timing.now.limit)) }
{
    let limit = counting.timing.limit;
    let own = instr_clocks(&counting.timing.states, item.format, &item.instr, scale);
    let below = match called {
        None => ClockRange::ZERO,
        Some(entry) => counting.shapes.of(entry),
    };
    let here = sum_within(limit, own, below)?;
    sum_within(limit, here, before)
}

/// Adds what may be taken past an item at a scale.
fn add_at<E: Entries>(
    counting: &Counting<E>,
    piece: Option<u16>,
    item: &Item,
    scale: Key,
    here: &MostClocks,
    next: &mut MostClocks,
) -> Result<(), SlowPiece>
    requires key { IsKey scale }
    requires fields { InstrFits item.now.instr }
    ensures past { OnOk result ((n : Clocks) → IsUnder n (most_at here.now scale)
        → IsUnder (taken_past counting.now.timing.now.states (E.list counting.now.entries.now) (clocks_in counting.now.shapes.now) item.now scale n)
        (most_at next.new (scale_past counting.now.timing.now.states (E.list counting.now.entries.now) (clocks_in counting.now.shapes.now) item.now scale))) }
    ensures kept { OnOk result (AreNoMore next.old next.new) }
{
    let Some(before) = here.at(scale) else {
        return Ok(());
    };
    let called = callee(counting.entries, target(Kind::Frame, &item.instr), scale);
    match taken_with(counting, item, scale, &called, before) {
        Some(clocks) => {
            next.add(scale_past(&item.instr, scale, &called), clocks);
            Ok(())
        }
        None => Err(SlowPiece { piece }),
    }
}

/// Adds what may be taken past an item, and past each that is like it.
fn add_item<E: Entries>(
    counting: &Counting<E>,
    piece: Option<u16>,
    item: &Item,
    here: &MostClocks,
    next: &mut MostClocks,
) -> Result<(), SlowPiece>
    requires fields { InstrFits item.now.instr }
    ensures past { OnOk result (TakeOn counting.now.timing.now.states (E.list counting.now.entries.now) (clocks_in counting.now.shapes.now)
        (AreAlike counting.now.timing.now.states item.now) here.now next.new) }
    ensures kept { OnOk result (AreNoMore next.old next.new) }
{
    for scale in 0..16u8 {
        add_at(counting, piece, item, Key::At(scale), here, next)?;
    }
    add_at(counting, piece, item, Key::Any, here, next)
}

/// Adds what may be taken past a LABS that sets a scale, if it is one of the range's.
fn add_place_at<E: Entries>(
    counting: &Counting<E>,
    number: u16,
    range: &PlaceRange,
    scale: u8,
    here: &MostClocks,
    next: &mut MostClocks,
) -> Result<(), SlowPiece>
    requires scale { scale ≤ 15 }
    ensures past { OnOk result (get_or range.now.scales scale false ≡ true
        → TakeOn counting.now.timing.now.states (E.list counting.now.entries.now) (clocks_in counting.now.shapes.now)
        (λ i. IsLabsAt scale i.instr) here.now next.new) }
    ensures kept { OnOk result (AreNoMore next.old next.new) }
{
    if !has_scale(&range.scales, scale) {
        return Ok(());
    }
    let labs = Instr::Labs {
        x: 0,
        y: 0,
        gscale: scale,
    };
    add_item(
        counting,
        Some(number),
        &somewhere(Format::Long, labs),
        here,
        next,
    )
}

/// Adds what may be taken past a LABS of a range.
fn add_places<E: Entries>(
    counting: &Counting<E>,
    number: u16,
    range: &PlaceRange,
    here: &MostClocks,
    next: &mut MostClocks,
) -> Result<(), SlowPiece>
    ensures past { OnOk result (TakeOn counting.now.timing.now.states (E.list counting.now.entries.now) (clocks_in counting.now.shapes.now)
        (λ i. Takes (Place range.now) i.format i.instr) here.now next.new) }
    ensures kept { OnOk result (AreNoMore next.old next.new) }
{
    for scale in 0..16u8 {
        add_place_at(counting, number, range, scale, here, next)?;
    }
    Ok(())
}

/// Adds what may be taken past a JSRL to each of some word addresses.
fn add_calls<E: Entries>(
    counting: &Counting<E>,
    number: u16,
    targets: &[u16],
    here: &MostClocks,
    next: &mut MostClocks,
) -> Result<(), SlowPiece>
    requires fits { AreAddresses targets.now }
    ensures past { OnOk result (TakeOn counting.now.timing.now.states (E.list counting.now.entries.now) (clocks_in counting.now.shapes.now)
        (λ i. TakesCall targets.now i.instr) here.now next.new) }
    ensures kept { OnOk result (AreNoMore next.old next.new) }
{
    for &to in targets {
        let call = somewhere(Format::Short, Instr::Jsrl { to });
        add_item(counting, Some(number), &call, here, next)?;
    }
    Ok(())
}

/// A draw that takes what each of a range takes.
fn draw_of(range: &DrawRange) -> Item
    requires { PieceFits (Draws range.now) }
    ensures fields { InstrFits result.instr }
    ensures alike { (t : States) (i : AnItem) → Takes (Draws range.now) i.format i.instr → AreAlike t result i }
{
    let draw = Draw {
        dx: 0,
        dy: 0,
        lscale: range.lscale,
        bright: 0,
    };
    somewhere(range.format, Instr::Draw(draw))
}

/// Adds what may be taken past the instruction of two words.
fn add_fixed<E: Entries>(
    counting: &Counting<E>,
    number: u16,
    words: (u16, u16),
    here: &MostClocks,
    next: &mut MostClocks,
) -> Result<(), SlowPiece>
    ensures past { OnOk result (TakeOn counting.now.timing.now.states (E.list counting.now.entries.now) (clocks_in counting.now.shapes.now)
        (λ i. Takes (Fixed words.0 words.1) i.format i.instr) here.now next.new) }
    ensures kept { OnOk result (AreNoMore next.old next.new) }
{
    let (first, second) = words;
    match cell_of_words(first, second) {
        Cell::Holds { format, instr } => {
            add_item(
                counting,
                Some(number),
                &somewhere(format, instr),
                here,
                next,
            )
        }
        Cell::Missing | Cell::Odd => Ok(()),
    }
}

/// Adds what may be taken past the items of a piece.
fn add_piece<E: Entries>(
    counting: &Counting<E>,
    piece: &Piece,
    here: &MostClocks,
    next: &mut MostClocks,
) -> Result<(), SlowPiece>
    requires fits { PieceFits piece.now.kind }
    ensures { OnOk result (TakeOn counting.now.timing.now.states (E.list counting.now.entries.now) (clocks_in counting.now.shapes.now)
        (λ i. Takes piece.now.kind i.format i.instr) here.now next.new) }
{
    let number = piece.number;
    match &piece.kind {
        PieceKind::Place(range) => add_places(counting, number, range, here, next),
        PieceKind::Call(targets) => add_calls(counting, number, targets, here, next),
        PieceKind::Draw(range) => add_item(counting, Some(number), &draw_of(range), here, next),
        PieceKind::Fixed { first, second } => {
            add_fixed(counting, number, (*first, *second), here, next)
        }
    }
}

/// What may be taken past the pieces of a row.
fn past_row<E: Entries>(
    counting: &Counting<E>,
    row: &[Piece],
    here: &MostClocks,
) -> Result<MostClocks, SlowPiece>
    requires fits { RowFits row.now }
    ensures { IfOk result (Spend counting.now.timing.now.states (E.list counting.now.entries.now) (clocks_in counting.now.shapes.now) (AddsRow row.now) here.now) }
{
    let mut here = *here;
    for piece in row {
        let mut next = MostClocks::NONE;
        add_piece(counting, piece, &here, &mut next)?;
        here = next;
    }
    Ok(here)
}

/// What may be taken past a part.
#[cycle(past_part)]
fn past_part<E: Entries>(
    part: &Part,
    counting: &Counting<E>,
    here: &MostClocks,
) -> Result<MostClocks, SlowPiece>
    requires fits { IsWithin part.now }
    ensures { IfOk result (Spend counting.now.timing.now.states (E.list counting.now.entries.now) (clocks_in counting.now.shapes.now) (Spells part.now) here.now) }
{
    match part {
        Part::Row(row) => past_row(counting, row, here),
        Part::Then(first, second) => {
            let between = past_part(first, counting, here)?;
            past_part(second, counting, &between)
        }
        Part::Either(one, other) => {
            let mut next = past_part(one, counting, here)?;
            next.add_all(&past_part(other, counting, here)?);
            Ok(next)
        }
        Part::Repeat { least, most, body } => past_turns(body, counting, *least, *most, here),
    }
}

/// What may be taken past `least` to `most` turns of a part.
#[cycle(past_part)]
fn past_turns<E: Entries>(
    body: &Part,
    counting: &Counting<E>,
    least: u16,
    most: u16,
    here: &MostClocks,
) -> Result<MostClocks, SlowPiece>
    requires fits { IsWithin body.now }
    requires turns { least ≤ most }
    ensures { IfOk result (Spend counting.now.timing.now.states (E.list counting.now.entries.now) (clocks_in counting.now.shapes.now) (Turns least most (Spells body.now)) here.now) }
{
    let mut there = *here;
    for _ in 0..least {
        there = past_part(body, counting, &there)?;
    }
    let mut all = there;
    for _ in least..most {
        there = past_part(body, counting, &there)?;
        all.add_all(&there);
    }
    Ok(all)
}

/// What may be taken past a JMPL.
fn past_jump<E: Entries>(
    counting: &Counting<E>,
    piece: Option<u16>,
    here: &MostClocks,
) -> Result<MostClocks, SlowPiece>
    ensures { IfOk result (TakeOn counting.now.timing.now.states (E.list counting.now.entries.now) (clocks_in counting.now.shapes.now) (λ i. (to : ℕ) × (i.instr ≡ Jumps to)) here.now) }
{
    let mut next = MostClocks::NONE;
    let jump = somewhere(Format::Short, Instr::Jmpl { to: 0 });
    add_item(counting, piece, &jump, here, &mut next)?;
    Ok(next)
}

/// What may be taken past jumps and their parts.
fn past_jumps<E: Entries>(
    counting: &Counting<E>,
    jumps: &[Jump],
    here: &MostClocks,
) -> Result<MostClocks, SlowPiece>
    requires fits { AreWithin jumps.now }
    ensures { IfOk result (Spend counting.now.timing.now.states (E.list counting.now.entries.now) (clocks_in counting.now.shapes.now) (SpellsJumps jumps.now) here.now) }
{
    let mut here = *here;
    for jump in jumps {
        let there = past_jump(counting, Some(jump.number), &here)?;
        here = past_part(&jump.body, counting, &there)?;
    }
    Ok(here)
}

/// What may be taken where a list begins in an area.
fn starts_in<E: Entries>(counting: &Counting<E>, area: &Area) -> Result<MostClocks, SlowPiece>
    ensures { IfOk result (StartWith counting.now.timing.now.states (E.list counting.now.entries.now) (clocks_in counting.now.shapes.now) (area.now ∷ [])) }
{
    let mut first = MostClocks::NONE;
    first.add(Key::Any, ClockRange::ZERO);
    if area.first == 0 {
        return Ok(first);
    }
    past_jump(counting, None, &first)
}

/// What may be taken where lists begin.
fn starts<E: Entries>(counting: &Counting<E>, lists: &[Area]) -> Result<MostClocks, SlowPiece>
    ensures { IfOk result (StartWith counting.now.timing.now.states (E.list counting.now.entries.now) (clocks_in counting.now.shapes.now) lists.now) }
{
    let mut here = MostClocks::NONE;
    for area in lists {
        here.add_all(&starts_in(counting, area)?);
    }
    Ok(here)
}

/// What may be taken before the HALT of a recipe's lists.
fn past_lists<E: Entries>(counting: &Counting<E>, recipe: &Recipe) -> Result<MostClocks, SlowPiece>
    ensures { IfOk result (EndWith counting.now.timing.now.states (E.list counting.now.entries.now) (clocks_in counting.now.shapes.now) recipe.now) }
{
    let here = starts(counting, recipe.lists())?;
    let here = past_part(recipe.body(), counting, &here)?;
    past_jumps(counting, recipe.jumps(), &here)
}

/// What the frames of a recipe take at most: the greatest least, and the greatest most. Takes no memory.
pub fn most_of_lists<E: Entries>(
    counting: &Counting<E>,
    recipe: &Recipe,
) -> Result<ClockRange, SlowPiece>
    ensures lists { IfOk result (AreListsUnder counting.now.timing.now.states (E.list counting.now.entries.now) (clocks_in counting.now.shapes.now) recipe.now) }
    ensures within { IfOk result (λ most. most.most ≤ counting.now.timing.now.limit) }
{
    let before = past_lists(counting, recipe)?.greatest();
    let halt = somewhere(Format::Short, Instr::Halt);
    match taken_with(counting, &halt, Key::Any, &None, before) {
        Some(clocks) => Ok(clocks),
        None => Err(SlowPiece {
            piece: Some(recipe.halt()),
        }),
    }
}
