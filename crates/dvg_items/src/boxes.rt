//! Boxes of what is lit.

ghost use Rattle.std.specs.Prelude.{◌≡◌, ◌↔◌, ◌≤ℤ◌, IsTrue, IfSome, IfNone, List, ◌∷◌};
ghost use Rattle.dvg_words.specs.declared.beam.Point.{Point};
ghost use Rattle.dvg_items.specs.Lit.{InBox, IsInside};
ghost use Rattle.dvg_items.specs.Least.{IsLeast};
ghost use Rattle.dvg_cert.specs.declared.entry.LitBox.{LitBox};
ghost use Rattle.dvg_cert.specs.declared.entry.LitBox.TheVariants.{Empty, Span};

use dvg_cert::LitBox;
use dvg_words::Point;

fn is_between(low: &i64, value: i64, high: &i64) -> bool
    ensures { IsTrue result ↔ (low.now ≤ℤ value) × (value ≤ℤ high.now) }
{
    *low <= value && value <= *high
}

/// Whether a point is in a box, ends included. No point is in the empty box.
pub fn is_in_box(lit: &LitBox, p: &Point) -> bool
    ensures { IsTrue result ↔ InBox lit.now p.now }
{
    match lit {
        LitBox::Empty => false,
        LitBox::Span {
            x_min,
            x_max,
            y_min,
            y_max,
        } => is_between(x_min, p.x, x_max) && is_between(y_min, p.y, y_max),
    }
}

/// The corners of a box, the lower left one and the upper right one; `None` if it is empty.
#[inline(always)]
pub fn box_corners(lit: &LitBox) -> Option<(Point, Point)>
    ensures some { IfSome result (λ c. lit.now ≡ Span c.0.x c.1.x c.0.y c.1.y) }
    ensures none { IfNone result (lit.now ≡ Empty) }
{
    match lit {
        LitBox::Empty => None,
        LitBox::Span {
            x_min,
            x_max,
            y_min,
            y_max,
        } => Some((
            Point {
                x: *x_min,
                y: *y_min,
            },
            Point {
                x: *x_max,
                y: *y_max,
            },
        )),
    }
}

/// The least box that holds two points.
pub fn spanning(p: &Point, q: &Point) -> LitBox
    ensures first { InBox result p.now }
    ensures second { InBox result q.now }
    ensures least { (other : LitBox) → InBox other p.now → InBox other q.now → IsInside result other }
{
    LitBox::Span {
        x_min: p.x.min(q.x),
        x_max: p.x.max(q.x),
        y_min: p.y.min(q.y),
        y_max: p.y.max(q.y),
    }
}

/// The least box that holds two boxes.
pub fn joined(first: &LitBox, second: &LitBox) -> LitBox
    ensures first { IsInside first.now result }
    ensures second { IsInside second.now result }
    ensures least { (other : LitBox) → IsInside first.now other → IsInside second.now other → IsInside result other }
{
    match (first, second) {
        (LitBox::Empty, other) | (other, LitBox::Empty) => *other,
        (
            LitBox::Span {
                x_min,
                x_max,
                y_min,
                y_max,
            },
            LitBox::Span {
                x_min: left,
                x_max: right,
                y_min: bottom,
                y_max: top,
            },
        ) => LitBox::Span {
            x_min: (*x_min).min(*left),
            x_max: (*x_max).max(*right),
            y_min: (*y_min).min(*bottom),
            y_max: (*y_max).max(*top),
        },
    }
}

/// The least box that holds a box and two points.
pub fn widened(lit: &LitBox, p: &Point, q: &Point) -> LitBox
    ensures { (ps : List Point) → IsLeast ps lit.now → IsLeast (p.now ∷ q.now ∷ ps) result }
{
    joined(lit, &spanning(p, q))
}
