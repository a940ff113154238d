//! Rectangles of places and of moves.

ghost use Rattle.std.specs.Prelude.{◌≡◌, ◌↔◌, IsTrue};
ghost use Rattle.std.specs.Int.{int_min, int_max};
ghost use Rattle.dvg_words.specs.Beam.{InWindow};
ghost use Rattle.dvg_cert.specs.declared.limits.TheConstants.{MOST_WORDS};
ghost use Rattle.dvg_recipe.specs.Private.Hulls.{IsNearRectangle, AreNearPlaces, IsNearMotion, IsShown, moved, around, common, part_in, places_in, joined_places, places_past};

use crate::hull::{Motion, Places, Rectangle};
use dvg_words::{Point, Window, in_window, shift};

/// The points of one rectangle, moved by those of another.
pub fn moved(r: &Rectangle, by: &Rectangle) -> Rectangle
    requires r { IsNearRectangle MOST_WORDS r.now }
    requires by { IsNearRectangle 1 by.now }
    ensures { result ≡ moved r.now by.now }
{
    Rectangle {
        low: shift(&r.low, &by.low),
        high: shift(&r.high, &by.high),
    }
}

fn least(p: &Point, q: &Point) -> Point
    ensures { result ≡ record { x = int_min p.now.x q.now.x; y = int_min p.now.y q.now.y } }
{
    Point {
        x: p.x.min(q.x),
        y: p.y.min(q.y),
    }
}

fn greatest(p: &Point, q: &Point) -> Point
    ensures { result ≡ record { x = int_max p.now.x q.now.x; y = int_max p.now.y q.now.y } }
{
    Point {
        x: p.x.max(q.x),
        y: p.y.max(q.y),
    }
}

/// The least rectangle that has two others.
fn around(one: &Rectangle, other: &Rectangle) -> Rectangle
    ensures { result ≡ around one.now other.now }
{
    Rectangle {
        low: least(&one.low, &other.low),
        high: greatest(&one.high, &other.high),
    }
}

/// The points that two rectangles have. If they have none, a corner is past the other.
fn common(one: &Rectangle, other: &Rectangle) -> Rectangle
    ensures { result ≡ common one.now other.now }
{
    Rectangle {
        low: greatest(&one.low, &other.low),
        high: least(&one.high, &other.high),
    }
}

/// The points of a rectangle that are in another, if there is one.
pub fn part_in(into: &Option<Rectangle>, r: &Rectangle) -> Rectangle
    ensures { result ≡ part_in into.now r.now }
{
    match into {
        None => *r,
        Some(into) => common(into, r),
    }
}

/// The places that are in a rectangle, if there is one. A lost place stays lost: a draw that has to lead somewhere is stuck there.
pub fn places_in(into: &Option<Rectangle>, places: &Places) -> Places
    ensures { result ≡ places_in into.now places.now }
{
    match (into, places) {
        (Some(into), Places::Within(r)) => Places::Within(common(into, r)),
        (None, _) | (Some(_), Places::Lost) => *places,
    }
}

/// The least places that have two others.
pub fn joined_places(one: &Places, other: &Places) -> Places
    ensures { result ≡ joined_places one.now other.now }
{
    match (one, other) {
        (Places::Within(r), Places::Within(s)) => Places::Within(around(r, s)),
        _ => Places::Lost,
    }
}

/// The places past a motion.
pub fn places_past(motion: &Motion, places: &Places) -> Places
    requires places { AreNearPlaces MOST_WORDS places.now }
    requires motion { IsNearMotion motion.now }
    ensures { result ≡ places_past motion.now places.now }
{
    match (motion, places) {
        (Motion::To(r), _) => Places::Within(*r),
        (Motion::Away, _) | (Motion::By(_), Places::Lost) => Places::Lost,
        (Motion::By(d), Places::Within(r)) => Places::Within(moved(r, d)),
    }
}

/// Whether from each place of a rectangle some move leads into another: on each axis, the greatest move reaches from the least place to its
/// near side, and the least move from the greatest place to its far side. One size more is at most one whole place, so no place is passed
/// over.
fn reaches(into: &Rectangle, r: &Rectangle, by: &Rectangle) -> bool
    requires r { IsNearRectangle MOST_WORDS r.now }
    requires by { IsNearRectangle 1 by.now }
{
    let least = shift(&r.low, &by.high);
    let greatest = shift(&r.high, &by.low);
    into.low.x <= least.x
        && greatest.x <= into.high.x
        && into.low.y <= least.y
        && greatest.y <= into.high.y
}

/// Whether items that have to lead into a rectangle can't from some of these places.
pub fn is_stuck(into: &Option<Rectangle>, motion: &Motion, places: &Places) -> bool
    requires places { AreNearPlaces MOST_WORDS places.now }
    requires motion { IsNearMotion motion.now }
{
    match (into, motion, places) {
        (None, _, _) => false,
        (Some(into), Motion::By(by), Places::Within(r)) => !reaches(into, r, by),
        _ => true,
    }
}

/// Whether a place is in the window.
fn is_in(window: &Window, p: &Point) -> bool
    ensures { IsTrue result ↔ InWindow window.now p.now }
{
    in_window(window, p.x, p.y)
}

/// Whether a rectangle is in the window.
pub fn is_shown(window: &Window, r: &Rectangle) -> bool
    ensures { IsTrue result ↔ IsShown window.now r.now }
{
    is_in(window, &r.low) && is_in(window, &r.high)
}
