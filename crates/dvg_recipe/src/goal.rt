//! What a front of items has to lead to: a number of a hull.

ghost use Rattle.dvg_cert.specs.declared.limits.TheConstants.{MOST_WORDS};
ghost use Rattle.dvg_recipe.specs.Private.Hulls.{IsSoundChange, IsNearRectangle, AreNearPlaces};

use crate::hull::{Change, Hull, Light, Motion, Places, Rectangle};
use crate::rectangles::{moved, part_in};
use dvg_cert::Key;
use dvg_check::FrameWhy;
use dvg_words::{Window, in_units};

/// A number of a hull.
#[derive(Clone, Copy)]
pub enum Number {
    /// None: the scale of the hull is enough.
    Any,
    /// That the place is lost.
    Lost,
    /// The least or the greatest coordinate on an axis.
    Left(i64),
    Right(i64),
    Bottom(i64),
    Top(i64),
    /// The most words.
    Words(u32),
    /// The most return places stored at once.
    Depth(u8),
}

/// What a front of items has to lead to: a number of the hull of a scale.
#[derive(Clone, Copy)]
pub struct Goal {
    pub scale: Key,
    pub number: Number,
}

impl Goal {
    /// Whether a front that has this number of a hull is one that leads to the goal.
    pub fn is_at(&self, hull: &Hull) -> bool {
        if hull.scale != self.scale {
            return false;
        }
        match (self.number, &hull.places) {
            (Number::Any, _) | (Number::Lost, Places::Lost) => true,
            (Number::Words(words), _) => hull.words == words,
            (Number::Depth(depth), _) => hull.depth == depth,
            (Number::Left(x), Places::Within(r)) => r.low.x == x,
            (Number::Right(x), Places::Within(r)) => r.high.x == x,
            (Number::Bottom(y), Places::Within(r)) => r.low.y == y,
            (Number::Top(y), Places::Within(r)) => r.high.y == y,
            _ => false,
        }
    }

    /// Whether a front that has this number of one of some hulls is one that leads to the goal.
    pub fn is_in(&self, hulls: &[Hull]) -> bool {
        for hull in hulls {
            if self.is_at(hull) {
                return true;
            }
        }
        false
    }

    /// What the items before an item have to lead to, if the item does this from what a hull has and then the goal is reached.
    pub fn before(&self, change: &Change, hull: &Hull) -> Goal {
        let number = match self.number {
            Number::Any => Number::Any,
            Number::Words(_) => Number::Words(hull.words),
            Number::Depth(depth) if depth <= change.depth => Number::Any,
            Number::Depth(_) => Number::Depth(hull.depth),
            side => side_before(side, &change.motion, &hull.places),
        };
        Goal {
            scale: hull.scale,
            number,
        }
    }

    /// What the items before a jump have to lead to: it takes a word, and leaves all else as it is.
    pub fn before_jump(&self) -> Goal {
        let number = match self.number {
            Number::Words(words) => Number::Words(words.saturating_sub(1)),
            number => number,
        };
        Goal {
            scale: self.scale,
            number,
        }
    }
}

/// The same side of places before a motion; none where the motion sets the place.
fn side_before(side: Number, motion: &Motion, places: &Places) -> Number {
    match (motion, places) {
        (Motion::To(_) | Motion::Away, _) => Number::Any,
        (Motion::By(_), Places::Lost) => Number::Lost,
        (Motion::By(_), Places::Within(r)) => side_of(side, r),
    }
}

/// The same side of a rectangle.
fn side_of(side: Number, r: &Rectangle) -> Number {
    match side {
        Number::Left(_) => Number::Left(r.low.x),
        Number::Right(_) => Number::Right(r.high.x),
        Number::Bottom(_) => Number::Bottom(r.low.y),
        Number::Top(_) => Number::Top(r.high.y),
        number => number,
    }
}

/// The side of a rectangle that is out of the window where it is seen moved.
fn side_out(window: &Window, seen: &Rectangle, r: &Rectangle) -> Option<Number> {
    if seen.low.x < in_units(window.x_min()) {
        Some(Number::Left(r.low.x))
    } else if in_units(window.x_max()) < seen.high.x {
        Some(Number::Right(r.high.x))
    } else if seen.low.y < in_units(window.y_min()) {
        Some(Number::Bottom(r.low.y))
    } else if in_units(window.y_max()) < seen.high.y {
        Some(Number::Top(r.high.y))
    } else {
        None
    }
}

/// The side of a rectangle from which what is lit between two corners leaves the window. What a draw into a rectangle lights ends there.
fn side_lit(
    window: &Window,
    into: &Option<Rectangle>,
    r: &Rectangle,
    from: &Rectangle,
    to: &Rectangle,
) -> Option<Number>
    requires r { IsNearRectangle MOST_WORDS r.now }
    requires from { IsNearRectangle 1 from.now }
    requires to { IsNearRectangle 1 to.now }
{
    match side_out(window, &moved(r, from), r) {
        Some(side) => Some(side),
        None => side_out(window, &part_in(into, &moved(r, to)), r),
    }
}

/// The side of places from which what a change lights leaves the window.
fn side_leaving(window: &Window, places: &Places, change: &Change) -> Number
    requires places { AreNearPlaces MOST_WORDS places.now }
    requires change { IsSoundChange change.now }
{
    match (&change.light, places) {
        (Light::Shown { from, to }, Places::Within(r)) => {
            side_lit(window, &change.into, r, from, to).unwrap_or(Number::Any)
        }
        _ => Number::Any,
    }
}

/// What the items before an item have to lead to, if the item breaks this rule from what a hull has.
#[tactic(auto, using(crate::proofs::Leads::near_most))]
pub fn goal_of_fault(window: &Window, hull: &Hull, change: &Change, why: FrameWhy) -> Goal
    requires change { IsSoundChange change.now }
{
    let number = match why {
        FrameWhy::BeamUnknown => Number::Lost,
        FrameWhy::OffScreen => side_leaving(window, &hull.places, change),
        FrameWhy::Budget => Number::Words(hull.words),
        _ => Number::Any,
    };
    Goal {
        scale: hull.scale,
        number,
    }
}

/// The goal of the most words of some hulls.
pub fn most_words(hulls: &[Hull]) -> Option<Goal> {
    let mut most = *hulls.first()?;
    for hull in hulls {
        if most.words < hull.words {
            most = *hull;
        }
    }
    Some(Goal {
        scale: most.scale,
        number: Number::Words(most.words),
    })
}

/// The goal of the most return places stored at once of some hulls.
pub fn most_depth(hulls: &[Hull]) -> Option<Goal> {
    let mut most = *hulls.first()?;
    for hull in hulls {
        if most.depth < hull.depth {
            most = *hull;
        }
    }
    Some(Goal {
        scale: most.scale,
        number: Number::Depth(most.depth),
    })
}
