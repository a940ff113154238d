//! The sizes of draws that are to be written: where the draws have to lead somewhere, they depend on the place before them.

ghost use Rattle.std.specs.Prelude.{◌≤◌};
ghost use Rattle.dvg_cert.specs.Entry.{IsKey};

use crate::choices::{Words, draw};
use crate::goal::Number;
use crate::piece::{DrawRange, Span};
use crate::takes::cell_of_words;
use dvg_cert::{End, Key};
use dvg_items::Known;
use dvg_words::{Cell, Instr, Machine, draw_move, in_units};

/// How far an instruction moves the beam on the axis across, at a global scale.
fn move_across(instr: &Instr, gscale: u8) -> i64
    requires { gscale ≤ 15 }
{
    match *instr {
        Instr::Draw(draw) => draw_move(Machine::Board, &draw, gscale).x,
        _ => 0,
    }
}

/// How far draws of a range of this size move the beam on an axis, at a global scale.
fn move_of(range: &DrawRange, size: i16, gscale: u8) -> i64
    requires { gscale ≤ 15 }
{
    let words = draw(range, size, 0);
    match cell_of_words(words.first, words.second) {
        Cell::Holds { instr, .. } => move_across(&instr, gscale),
        Cell::Missing | Cell::Odd => 0,
    }
}

/// How many halvings leave one of all sizes, and of the one behind them.
const HALVINGS: u8 = 11;

/// The least of some sizes that moves the beam no less than so far on an axis, to the right or up; the one behind them, if none does. Moves
/// grow with sizes.
fn first_size(range: &DrawRange, sizes: Span, gscale: u8, least: i64) -> i16
    requires { gscale ≤ 15 }
{
    let mut first = sizes.low;
    let mut end = sizes.high.saturating_add(1);
    for _ in 0..HALVINGS {
        let middle = first.saturating_add(end) >> 1;
        if first < end && move_of(range, middle, gscale) < least {
            first = middle.saturating_add(1);
        } else {
            end = middle;
        }
    }
    first
}

/// Those of some sizes that lead from a coordinate, in units of 1/1024 of a screen place, to one of these whole places.
fn sizes_into(range: &DrawRange, sizes: Span, gscale: u8, z: i64, to: Span) -> Span
    requires { gscale ≤ 15 }
{
    let least = in_units(to.low).saturating_sub(z);
    let past = (in_units(to.high) + 1).saturating_sub(z);
    Span {
        low: first_size(range, sizes, gscale, least),
        high: first_size(range, sizes, gscale, past).saturating_sub(1),
    }
}

/// The sizes across and up of the draws of a range that lead from what is known to where they have to.
fn sizes_from(range: &DrawRange, known: &Known) -> (Span, Span)
    requires { IsKey known.now.scale }
{
    match (range.to, known.place, known.scale) {
        (Some(to), End::Abs { x, y }, Key::At(gscale)) => (
            sizes_into(range, range.dx, gscale, x, to.x),
            sizes_into(range, range.dy, gscale, y, to.y),
        ),
        _ => (range.dx, range.dy),
    }
}

/// The brightest draw of a range that leads from what is known to where it has to, as far as can be to the side of which a number speaks.
pub fn draw_toward(range: &DrawRange, number: Number, known: &Known) -> Words
    requires { IsKey known.now.scale }
{
    let (across, up) = sizes_from(range, known);
    let dx = match number {
        Number::Right(_) => across.high,
        _ => across.low,
    };
    let dy = match number {
        Number::Top(_) => up.high,
        _ => up.low,
    };
    draw(range, dx, dy)
}
