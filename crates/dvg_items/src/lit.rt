//! What an item lights, and whether it may light there.

ghost use Rattle.std.specs.Prelude.{◌≡◌, ◌↔◌, [], ◌∷◌, IsTrue, IfSome, IfNone};
ghost use Rattle.dvg_words.specs.Beam.{InWindow};
ghost use Rattle.dvg_words.specs.declared.map.TheConstants.{ADDRESS_END};
ghost use Rattle.dvg_words.specs.declared.machine.Machine.{Machine};
ghost use Rattle.dvg_cert.specs.declared.entry.Key.{Key};
ghost use Rattle.dvg_cert.specs.Entry.{IsBox};
ghost use Rattle.dvg_items.specs.Known.{draw_effect};
ghost use Rattle.dvg_items.specs.Lit.{draw_extent, box_extent, corners, absolute_corners, relative_corners, PlaceKnown, ScaleKnown, LitInWindow, LitInBox};
ghost use Rattle.dvg_items.specs.Bounds.{IsNearPlace, IsNear, IsNearEffect, IsNearExtent};

use crate::boxes::is_in_box;
use crate::known::Effect;
use dvg_cert::{End, LitBox};
use dvg_words::{Draw, Point, Window, in_window, shift};

/// What an item lights, seen from the place before it, in units of 1/1024 of a screen place.
#[derive(Clone, Copy)]
pub enum LitExtent {
    Nothing,
    /// All that it lights lies between two corners.
    Between { from: Point, to: Point },
    /// It is a lit draw at unknown scale, which may light anywhere.
    Anywhere,
}

/// What a draw lights, by its effect on the place: it moves it, or loses it if the scale is unknown.
#[inline(always)]
pub fn draw_extent(draw: &Draw, effect: &Effect) -> LitExtent
    requires { IsNearEffect effect.now }
    ensures extent { (machine : Machine) (scale : Key) → effect.now ≡ draw_effect machine draw.now scale
        → result ≡ draw_extent machine draw.now.bright draw.now scale }
    ensures near { IsNearExtent result }
{
    match (draw.bright, effect) {
        (0, _) => LitExtent::Nothing,
        (_, Effect::Moves(to)) => LitExtent::Between {
            from: Point::ORIGIN,
            to: *to,
        },
        _ => LitExtent::Anywhere,
    }
}

/// What a called shape may light.
#[inline(always)]
pub fn box_extent(lit: LitBox) -> LitExtent
    requires { IsBox lit }
    ensures extent { result ≡ box_extent lit }
    ensures near { IsNearExtent result }
{
    match lit {
        LitBox::Empty => LitExtent::Nothing,
        LitBox::Span {
            x_min,
            x_max,
            y_min,
            y_max,
        } => LitExtent::Between {
            from: Point { x: x_min, y: y_min },
            to: Point { x: x_max, y: y_max },
        },
    }
}

/// Whether the place is known at which an item lights. True if it lights nothing.
pub fn place_known(extent: &LitExtent, place: &End) -> bool
    ensures { IsTrue result ↔ PlaceKnown extent.now place.now }
{
    match (extent, place) {
        (LitExtent::Nothing, _) => true,
        (_, End::Lost) => false,
        _ => true,
    }
}

/// Whether the scale is known at which an item lights. True if it lights nothing.
pub fn scale_known(extent: &LitExtent) -> bool
    ensures { IsTrue result ↔ ScaleKnown extent.now }
{
    !matches!(extent, LitExtent::Anywhere)
}

/// Both corners of what an item lights, from the point before it. `None` if it lights nothing, or its scale is unknown.
fn corners(extent: &LitExtent, x: i64, y: i64) -> Option<(Point, Point)>
    requires place { IsNear ADDRESS_END (record { x = x; y = y }) }
    requires extent { IsNearExtent extent.now }
    ensures some { IfSome result (λ c. corners extent.now (record { x = x; y = y }) ≡ c.0 ∷ c.1 ∷ []) }
    ensures none { IfNone result (corners extent.now (record { x = x; y = y }) ≡ []) }
{
    match extent {
        LitExtent::Between { from, to } => {
            let here = Point { x, y };
            Some((shift(&here, from), shift(&here, to)))
        }
        _ => None,
    }
}

/// Both corners of what an item lights at an absolute place. `None` if it lights nothing there, or its scale is unknown.
pub fn absolute_corners(extent: &LitExtent, place: &End) -> Option<(Point, Point)>
    requires place { IsNearPlace ADDRESS_END place.now }
    requires extent { IsNearExtent extent.now }
    ensures some { IfSome result (λ c. absolute_corners extent.now place.now ≡ c.0 ∷ c.1 ∷ []) }
    ensures none { IfNone result (absolute_corners extent.now place.now ≡ []) }
{
    match place {
        End::Abs { x, y } => corners(extent, *x, *y),
        _ => None,
    }
}

/// Both corners of what an item lights at a relative place, seen from the beam at the call. `None` if it lights nothing there,
/// or its scale is unknown.
pub fn relative_corners(extent: &LitExtent, place: &End) -> Option<(Point, Point)>
    requires place { IsNearPlace ADDRESS_END place.now }
    requires extent { IsNearExtent extent.now }
    ensures some { IfSome result (λ c. relative_corners extent.now place.now ≡ c.0 ∷ c.1 ∷ []) }
    ensures none { IfNone result (relative_corners extent.now place.now ≡ []) }
{
    match place {
        End::Rel { x, y } => corners(extent, *x, *y),
        _ => None,
    }
}

/// Whether a point is in the window.
fn is_in_window(window: &Window, p: &Point) -> bool
    ensures { IsTrue result ↔ InWindow window.now p.now }
{
    in_window(window, p.x, p.y)
}

/// Whether both corners of what an item lights at an absolute place are in the window. True if there are none.
#[inline(always)]
pub fn lit_in_window(window: &Window, extent: &LitExtent, place: &End) -> bool
    requires place { IsNearPlace ADDRESS_END place.now }
    requires extent { IsNearExtent extent.now }
    ensures { IsTrue result ↔ LitInWindow window.now extent.now place.now }
{
    match absolute_corners(extent, place) {
        Some((from, to)) => is_in_window(window, &from) && is_in_window(window, &to),
        None => true,
    }
}

/// Whether both corners of what an item lights at a relative place are in the box. True if there are none.
pub fn lit_in_box(lit: &LitBox, extent: &LitExtent, place: &End) -> bool
    requires place { IsNearPlace ADDRESS_END place.now }
    requires extent { IsNearExtent extent.now }
    ensures { IsTrue result ↔ LitInBox lit.now extent.now place.now }
{
    match relative_corners(extent, place) {
        Some((from, to)) => is_in_box(lit, &from) && is_in_box(lit, &to),
        None => true,
    }
}
