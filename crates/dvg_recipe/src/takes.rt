//! Whether an item is one that a piece allows.

ghost use Rattle.std.specs.Prelude.{◌≡◌, ◌↔◌, Some, IsTrue, pos, true, get_or, false};
ghost use Rattle.dvg_words.specs.Beam.{signed_field};
ghost use Rattle.dvg_words.specs.Decoding.{CellFits, cell_of_words};
ghost use Rattle.dvg_words.specs.declared.machine.Machine.TheVariants.{Board};
ghost use Rattle.dvg_recipe.specs.Recipes.{IsInSpan, TakesPlace, TakesCall, TakesDraw, Takes};
ghost use Rattle.dvg_words.specs.declared.instruction.Cell.TheVariants.{Holds};

use crate::piece::{DrawRange, PieceKind, PlaceRange, Span};
use dvg_items::Item;
use dvg_words::{Cell, Format, Instr, Machine, decode_on, is_long};

/// Whether a number is in a range.
fn is_in_span(range: Span, z: i32) -> bool
    ensures { IsTrue result ↔ IsInSpan range z }
{
    i32::from(range.low) <= z && z <= i32::from(range.high)
}

/// The number that a field of a LABS says, as the board loads it: two's complement of twelve bits.
fn signed_field(field: u16) -> i32
    ensures { result ≡ signed_field field }
{
    if field <= 2047 {
        i32::from(field)
    } else {
        i32::from(field) - 4096
    }
}

/// Whether a scale is in a set.
pub fn has_scale(scales: &[bool; 16], scale: u8) -> bool
    ensures { result ≡ get_or scales.now scale false }
{
    usize::from(scale) < 16 && scales[usize::from(scale)]
}

fn takes_place(range: &PlaceRange, instr: &Instr) -> bool
    ensures { IsTrue result ↔ TakesPlace range.now instr.now }
{
    match *instr {
        Instr::Labs { x, y, gscale } => {
            is_in_span(range.x, signed_field(x))
                && is_in_span(range.y, signed_field(y))
                && has_scale(&range.scales, gscale)
        }
        _ => false,
    }
}

fn takes_call(targets: &[u16], instr: &Instr) -> bool
    ensures { IsTrue result ↔ TakesCall targets.now instr.now }
{
    match instr {
        Instr::Jsrl { to } => targets.contains(to),
        _ => false,
    }
}

fn takes_draw(range: &DrawRange, instr: &Instr) -> bool
    ensures { IsTrue result ↔ TakesDraw range.now instr.now }
{
    match instr {
        Instr::Draw(draw) => {
            draw.lscale == range.lscale
                && is_in_span(range.dx, i32::from(draw.dx))
                && is_in_span(range.dy, i32::from(draw.dy))
                && is_in_span(range.bright, i32::from(draw.bright))
        }
        _ => false,
    }
}

fn is_format(format: Format, other: Format) -> bool
    ensures { IsTrue result ↔ (format ≡ other) }
{
    match (format, other) {
        (Format::Short, Format::Short) | (Format::Long, Format::Long) => true,
        _ => false,
    }
}

/// What two words are on the board. A short instruction ignores the second.
pub fn cell_of_words(first: u16, second: u16) -> Cell
    ensures value { result ≡ cell_of_words Board (Some first) (Some second) }
    ensures fields { CellFits result }
{
    let (format, second) = if is_long(first) {
        (Format::Long, second)
    } else {
        (Format::Short, 0)
    };
    match decode_on(Machine::Board, first, second) {
        Some(instr) => Cell::Holds { format, instr },
        None => Cell::Odd,
    }
}

/// Whether two words say this instruction in this format.
fn says(first: u16, second: u16, item: &Item) -> bool
    ensures { IsTrue result ↔ (cell_of_words Board (Some first) (Some second) ≡ Holds item.now.format item.now.instr) }
{
    match cell_of_words(first, second) {
        Cell::Holds { format, instr } => is_format(format, item.format) && instr == item.instr,
        _ => false,
    }
}

/// Whether an item is one that a piece allows.
#[inline(always)]
pub fn takes(kind: &PieceKind, item: &Item) -> bool
    ensures { IsTrue result ↔ Takes kind.now item.now.format item.now.instr }
{
    match kind {
        PieceKind::Place(range) => takes_place(range, &item.instr),
        PieceKind::Call(targets) => takes_call(targets, &item.instr),
        PieceKind::Draw(range) => {
            is_format(item.format, range.format) && takes_draw(range, &item.instr)
        }
        PieceKind::Fixed { first, second } => says(*first, *second, item),
    }
}
