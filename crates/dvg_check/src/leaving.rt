//! Which edge of a window or a box a lit corner is past, and by how much.

ghost use Rattle.std.specs.Prelude.{◌≡◌, ◌∷◌, [], IfSome, IfNone};
ghost use Rattle.dvg_words.specs.declared.map.TheConstants.{ADDRESS_END};
ghost use Rattle.dvg_items.specs.Bounds.{IsNearPlace, IsNearExtent};
ghost use Rattle.dvg_items.specs.Lit.{LitInWindow, LitInBox, relative_corners};
ghost use Rattle.dvg_check.specs.Leaving.{window_limits, InLimits, IsLeft, FirstLeft, LeavesFrom, LeavesBox};

use dvg_cert::{End, LitBox};
use dvg_items::{LitExtent, absolute_corners, box_corners, relative_corners};
use dvg_words::{Point, Window, in_units};

/// An edge of a window.
#[derive(Clone, Copy, Debug, PartialEq, Eq)]
pub enum Edge {
    Left,
    Right,
    Bottom,
    Top,
}

/// A lit corner, the first edge that it is past (in the order left, right, bottom, top), and by how much, in 1/1024 of a screen
/// place.
#[derive(Clone, Copy, Debug, PartialEq, Eq)]
pub struct Leaving {
    pub corner: Point,
    pub edge: Edge,
    pub by: u64,
}

impl Leaving {
    fn past(corner: &Point, edge: Edge, by: u64) -> Leaving
        ensures { result ≡ record { corner = corner.now; edge = edge; by = by } }
    {
        Leaving {
            corner: *corner,
            edge,
            by,
        }
    }
}

/// The least and the greatest place on both axes, in 1/1024 of a screen place, ends included.
#[derive(Drop)]
pub struct Limits {
    pub x_min: i64,
    pub x_max: i64,
    pub y_min: i64,
    pub y_max: i64,
}

impl Limits {
    /// The limits of a box with these corners, the lower left one and the upper right one.
    fn between(low: &Point, high: &Point) -> Limits
        ensures { result ≡ record { x_min = low.now.x; x_max = high.now.x; y_min = low.now.y; y_max = high.now.y } }
    {
        Limits {
            x_min: low.x,
            x_max: high.x,
            y_min: low.y,
            y_max: high.y,
        }
    }

    /// The limits of a window.
    #[tactic(auto, using(crate::proofs::Common::ints))]
    pub fn of_window(window: &Window) -> Limits
        ensures { result ≡ window_limits window.now }
    {
        Limits {
            x_min: in_units(window.x_min()),
            x_max: in_units(window.x_max()),
            y_min: in_units(window.y_min()),
            y_max: in_units(window.y_max()),
        }
    }

    /// The first edge that a point is past, and by how much.
    fn left_by(&self, p: &Point) -> Option<Leaving>
        ensures some { IfSome result (λ l. (l.corner ≡ p.now) × IsLeft self.now l) }
        ensures none { IfNone result (InLimits self.now p.now) }
    {
        if p.x < self.x_min {
            return Some(Leaving::past(p, Edge::Left, self.x_min.abs_diff(p.x)));
        }
        if p.x > self.x_max {
            return Some(Leaving::past(p, Edge::Right, p.x.abs_diff(self.x_max)));
        }
        if p.y < self.y_min {
            return Some(Leaving::past(p, Edge::Bottom, self.y_min.abs_diff(p.y)));
        }
        if p.y > self.y_max {
            return Some(Leaving::past(p, Edge::Top, p.y.abs_diff(self.y_max)));
        }
        None
    }

    /// The first of two corners that is past an edge.
    fn first_left(&self, from: &Point, to: &Point) -> Option<Leaving>
        ensures some { IfSome result (FirstLeft self.now (from.now ∷ to.now ∷ [])) }
        ensures none { IfNone result (InLimits self.now from.now × InLimits self.now to.now) }
    {
        match self.left_by(from) {
            Some(leaving) => Some(leaving),
            None => self.left_by(to),
        }
    }
}

/// The first corner of what an item lights at an absolute place that is not in a window, and the edge that it is past. `None` where
/// both corners are in the window, or the item lights nothing at an absolute place.
pub fn leaves_window(window: &Window, extent: &LitExtent, place: &End) -> Option<Leaving>
    requires place { IsNearPlace ADDRESS_END place.now }
    requires extent { IsNearExtent extent.now }
    ensures some { IfSome result (LeavesFrom window.now extent.now place.now) }
    ensures none { IfNone result (LitInWindow window.now extent.now place.now) }
{
    let (from, to) = absolute_corners(extent, place)?;
    Limits::of_window(window).first_left(&from, &to)
}

/// How a corner of what an item lights leaves a box.
#[derive(Clone, Copy, Debug, PartialEq, Eq)]
pub enum BoxLeaving {
    /// The box is empty, and this corner is lit.
    Empty(Point),
    /// It is past an edge.
    Past(Leaving),
}

/// The first corner of what an item lights at a relative place that is not in a box, and how it leaves the box. `None` where both
/// corners are in the box, or the item lights nothing at a relative place.
pub fn leaves_box(lit: &LitBox, extent: &LitExtent, place: &End) -> Option<BoxLeaving>
    requires place { IsNearPlace ADDRESS_END place.now }
    requires extent { IsNearExtent extent.now }
    ensures some { IfSome result (LeavesBox lit.now (relative_corners extent.now place.now)) }
    ensures none { IfNone result (LitInBox lit.now extent.now place.now) }
{
    let (from, to) = relative_corners(extent, place)?;
    let Some((low, high)) = box_corners(lit) else {
        return Some(BoxLeaving::Empty(from));
    };
    let leaving = Limits::between(&low, &high).first_left(&from, &to)?;
    Some(BoxLeaving::Past(leaving))
}
