//! Tails of shapes, each made of one item and the tail behind that item.
//!
//! A tail is the part of a shape from a word of the ROM on. What it does depends on this word and on the known scale there alone.
//! So what a tail does is what a shape does that starts at this word.

ghost use Rattle.std.specs.Prelude.{◌≡◌, ◌+◌, ◌<◌, ◌≤◌, ◌≤ℤ◌, ◌↔◌, ℕ, pos, IfSome, IsTrue};
ghost use Rattle.dvg_words.specs.Decoding.{InstrFits, cell_at};
ghost use Rattle.dvg_words.specs.Memory.{Rom, rom_word};
ghost use Rattle.dvg_words.specs.declared.instruction.Cell.TheVariants.{Holds};
ghost use Rattle.dvg_words.specs.declared.map.TheConstants.{ADDRESS_END};
ghost use Rattle.dvg_cert.specs.Entry.{IsKey, IsClaim};
ghost use Rattle.dvg_cert.specs.declared.entry.End.TheVariants.{Rel};
ghost use Rattle.dvg_cert.specs.declared.entry.LitBox.{LitBox};
ghost use Rattle.dvg_cert.specs.declared.entry.LitBox.TheVariants.{Span};
ghost use Rattle.dvg_items.specs.Lit.{IsInside, ScaleKnown, LitInBox};
ghost use Rattle.dvg_items.specs.declared.item.Kind.TheVariants.{Shape};
ghost use Rattle.dvg_items.specs.Known.{start};
ghost use Rattle.dvg_items.specs.Seen.{seen_with};
ghost use Rattle.dvg_items.specs.Bounds.{IsNear, IsNearPlace, IsNearBox, IsNearExtent};
ghost use Rattle.dvg_check.specs.Passing.{moved};
ghost use Rattle.dvg_check.specs.Private.Tails.{ClaimsLess, entry_of, end_of, place_over, known_over, first_seen, BoxInWindow, MayStandAt, MayStandFirst, IsSmall};

use crate::fault::Mode;
use dvg_cert::{End, Entries, Entry, Key, LitBox};
use dvg_items::{Cursor, Item, Kind, LitExtent, box_corners, callee, joined, spanning};
use dvg_words::{Instr, Machine, Point, Window, in_window, shift};

/// What a shape does from a word on, seen from its place there.
///
/// The large fields stand first, so that none of them has a gap before it.
#[derive(Clone, Copy)]
pub struct Tail {
    pub stop: End,
    pub lit: LitBox,
    pub words: u32,
    pub scale: Key,
    pub depth: u8,
}

/// The place at the end of a tail, seen from the start of the item before it: `place` is the place past this item, and `stop` the
/// end of the tail, seen from its own start.
fn stop_over(place: &End, stop: &End) -> End
    requires place { IsNearPlace 1 place.now }
    requires stop { IsNearPlace (ADDRESS_END + 2) stop.now }
    ensures { result ≡ place_over place.now stop.now }
{
    match (place, stop) {
        (_, End::Abs { x, y }) => End::Abs { x: *x, y: *y },
        (_, End::Lost) | (End::Lost, End::Rel { .. }) => End::Lost,
        (End::Abs { x: left, y: bottom }, End::Rel { x, y }) => {
            let p = shift(
                &Point {
                    x: *left,
                    y: *bottom,
                },
                &Point { x: *x, y: *y },
            );
            End::Abs { x: p.x, y: p.y }
        }
        (End::Rel { x: dx, y: dy }, End::Rel { x, y }) => {
            let p = shift(&Point { x: *dx, y: *dy }, &Point { x: *x, y: *y });
            End::Rel { x: p.x, y: p.y }
        }
    }
}

/// A box, moved.
pub fn moved(lit: &LitBox, by: &Point) -> LitBox
    requires lit { IsNearBox (ADDRESS_END + 2) lit.now }
    requires by { IsNear 1 by.now }
    ensures { result ≡ moved lit.now by.now }
{
    match box_corners(lit) {
        None => LitBox::Empty,
        Some((low, high)) => {
            let (low, high) = (shift(&low, by), shift(&high, by));
            LitBox::Span {
                x_min: low.x,
                x_max: high.x,
                y_min: low.y,
                y_max: high.y,
            }
        }
    }
}

/// Whether both corners of a box are in the window.
fn is_in_window(window: &Window, lit: &LitBox) -> bool
    ensures { IsTrue result → BoxInWindow window.now lit.now }
{
    match lit {
        LitBox::Span {
            x_min,
            x_max,
            y_min,
            y_max,
        } => in_window(window, *x_min, *y_min) && in_window(window, *x_max, *y_max),
        LitBox::Empty => true,
    }
}

/// The box that a tail lights at relative places, seen from the start of the item before it: `place` is the place past this item,
/// and `lit` the tail's box, seen from its own start. `None` where a tail with this box may not be lit at this place: the place is
/// lost, or it is absolute and the box leaves the window.
fn lit_over(window: &Window, place: &End, lit: &LitBox) -> Option<LitBox>
    requires place { IsNearPlace 1 place.now }
    requires lit { IsNearBox (ADDRESS_END + 2) lit.now }
    ensures part { IfSome result (λ part. (whole : LitBox) → IsInside part whole → MayStandAt window.now whole lit.now place.now) }
    ensures near { IfSome result (λ part. (n : ℕ) → IsNearBox n lit.now → IsNearBox (n + 1) part) }
{
    match (place, lit) {
        (_, LitBox::Empty) => Some(LitBox::Empty),
        (End::Lost, _) => None,
        (End::Rel { x, y }, _) => Some(moved(lit, &Point { x: *x, y: *y })),
        (End::Abs { x, y }, _) => {
            if is_in_window(window, &moved(lit, &Point { x: *x, y: *y })) {
                Some(LitBox::Empty)
            } else {
                None
            }
        }
    }
}

/// The tail from an item on, made of this item, told as a tail, and the tail behind it. `None` where the tail behind it may not
/// be lit past the item.
#[inline(always)]
pub fn after_item(window: &Window, item: &Tail, tail: &Tail) -> Option<Tail>
    requires item { IsSmall 1 item.now }
    requires tail { IsSmall (ADDRESS_END + 2) tail.now }
    ensures value { IfSome result (λ whole. end_of whole ≡ known_over (end_of item.now) (end_of tail.now)) }
    ensures item { IfSome result (λ whole. IsInside item.now.lit whole.lit) }
    ensures tail { IfSome result (λ whole. MayStandAt window.now whole.lit tail.now.lit item.now.stop) }
    ensures small { IfSome result (λ whole. (n : ℕ) → IsSmall n tail.now → IsSmall (n + 1) whole) }
{
    let part = lit_over(window, &item.stop, &tail.lit)?;
    Some(Tail {
        stop: stop_over(&item.stop, &tail.stop),
        lit: joined(&item.lit, &part),
        words: tail.words + item.words,
        scale: tail.scale,
        depth: tail.depth.max(item.depth),
    })
}

/// The box of what an item lights, seen from the place before it. `None` where its scale is unknown.
fn box_of(extent: &LitExtent) -> Option<LitBox>
    requires { IsNearExtent extent.now }
    ensures scale { IfSome result (λ lit. ScaleKnown extent.now) }
    ensures lit { IfSome result (λ lit. LitInBox lit extent.now (Rel (pos 0) (pos 0))) }
    ensures near { IfSome result (IsNearBox 1) }
{
    match extent {
        LitExtent::Nothing => Some(LitBox::Empty),
        LitExtent::Between { from, to } => Some(spanning(from, to)),
        LitExtent::Anywhere => None,
    }
}

/// An item at a key, told as the tail of a shape that has this item alone. `None` where no shape may have it: it is HALT, it calls
/// an address where no entry is named, or it lights at unknown scale.
pub fn last_item<E: Entries>(machine: Machine, entries: &E, item: &Item, key: Key) -> Option<Tail>
    requires key { IsKey key }
    requires fields { InstrFits item.now.instr }
    ensures value { IfSome result (λ first. end_of first ≡ (first_seen machine (E.list entries.now) key item.now).after) }
    ensures stands { IfSome result (λ first. (rom : Rom) → rom.machine ≡ machine →
        cell_at (rom_word rom) item.now.at ≡ Holds item.now.format item.now.instr →
        MayStandFirst rom (E.list entries.now) key first.lit item.now) }
    ensures small { IfSome result (IsSmall 1) }
{
    match &item.instr {
        Instr::Halt => None,
        Instr::Jsrl { to } | Instr::Jmpl { to } => {
            let callee = callee(entries, Some(*to), key)?;
            item_calling(machine, item, key, Some(callee))
        }
        // Draws are by themselves, so that their tails are made with no further look at what they are.
        Instr::Draw(_) => item_calling(machine, item, key, None),
        Instr::Labs { .. } | Instr::Rtsl => item_calling(machine, item, key, None),
    }
}

/// An item at a key that calls this entry, or calls none, told as the tail of a shape that has this item alone. `None` where it
/// lights at unknown scale.
#[inline(always)]
fn item_calling(machine: Machine, item: &Item, key: Key, callee: Option<Entry>) -> Option<Tail>
    requires key { IsKey key }
    requires callee { IfSome callee IsClaim }
    requires fields { InstrFits item.now.instr }
    ensures value { IfSome result (λ first. end_of first ≡ (seen_with machine callee (start Shape key) item.now).after) }
    ensures scale { IfSome result (λ first. ScaleKnown (seen_with machine callee (start Shape key) item.now).extent) }
    ensures boxed { IfSome result (λ first. LitInBox first.lit (seen_with machine callee (start Shape key) item.now).extent
        (seen_with machine callee (start Shape key) item.now).place) }
    ensures small { IfSome result (IsSmall 1) }
{
    // What is seen of the first item doesn't depend on where it stands.
    let seen = Cursor::start(Kind::Shape, 0, key).see(machine, item.format, &item.instr, callee);
    let lit = box_of(&seen.extent)?;
    Some(Tail {
        stop: seen.after.place,
        lit,
        words: seen.after.words,
        scale: seen.after.scale,
        depth: seen.after.depth,
    })
}

/// Whether the one range is a part of the other.
fn is_range_inside(low: &i64, high: &i64, from: &i64, to: &i64) -> bool
    ensures { IsTrue result ↔ (from.now ≤ℤ low.now) × (high.now ≤ℤ to.now) }
{
    from <= low && high <= to
}

/// Whether the box of two corners, the lower left one and the upper right one, is a part of another.
fn is_span_inside(low: &Point, high: &Point, from: &Point, to: &Point) -> bool
    ensures { IsTrue result → IsInside (Span low.now.x high.now.x low.now.y high.now.y) (Span from.now.x to.now.x from.now.y to.now.y) }
{
    is_range_inside(&low.x, &high.x, &from.x, &to.x)
        && is_range_inside(&low.y, &high.y, &from.y, &to.y)
}

/// Whether the one box is a part of the other.
fn is_inside(part: &LitBox, whole: &LitBox) -> bool
    ensures { IsTrue result → IsInside part.now whole.now }
{
    match (box_corners(part), box_corners(whole)) {
        (None, _) => true,
        (_, None) => false,
        (Some((low, high)), Some((from, to))) => is_span_inside(&low, &high, &from, &to),
    }
}

/// Whether the tail at an entry's address and key bears out the entry: the end and the scale are the same, the entry's box holds
/// the tail's, and its counts are no smaller, in the mode `Exact` the same.
pub fn claims_less(mode: Mode, entry: &Entry, tail: &Tail) -> bool
    ensures { IsTrue result → ClaimsLess mode entry.now (entry_of entry.now.addr entry.now.key tail.now) }
{
    let counts = match mode {
        Mode::Bound => tail.words <= entry.words && tail.depth <= entry.depth,
        Mode::Exact => tail.words == entry.words && tail.depth == entry.depth,
    };
    counts
        && entry.stop == tail.stop
        && entry.scale == tail.scale
        && is_inside(&tail.lit, &entry.lit)
}
