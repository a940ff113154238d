//! All that may be known at a point of a recipe: one hull for each scale.

use dvg_cert::Key;
use dvg_words::{Draw, Format, Point};
use std::marker::Model;

/// Places between two corners, in units of 1/1024 of a screen place, ends included; or moves.
#[derive(Clone, Copy)]
pub struct Rectangle {
    /// The lower left corner.
    pub low: Point,
    /// The upper right corner.
    pub high: Point,
}

/// Where the beam may be.
#[derive(Clone, Copy)]
pub enum Places {
    /// In some frame its place is lost.
    Lost,
    Within(Rectangle),
}

/// All that may be known at a point of a recipe, at one scale.
#[derive(Clone, Copy)]
pub struct Hull {
    /// `Any` if it is unknown.
    pub scale: Key,
    pub places: Places,
    /// The most words so far.
    pub words: u32,
    /// The most return places stored at once so far.
    pub depth: u8,
}

impl Model for Hull {
    ghost use Rattle.dvg_recipe.specs.Private.Hulls.{Hull as Numbers, IsSoundHull};

    ghost Value = { Numbers };

    ghost view = { λ h. record { scale = h.scale; places = h.places; words = h.words; depth = h.depth } };

    ghost invariant = { λ h. IsSoundHull (record { scale = h.scale; places = h.places; words = h.words; depth = h.depth }) };

    ghost inverse = { λ v. record { scale = v.scale; places = v.places; words = v.words; depth = v.depth } };
}

/// Where an item may leave the beam.
#[derive(Clone, Copy)]
pub enum Motion {
    /// At one of these places.
    To(Rectangle),
    /// At a place that is lost.
    Away,
    /// Moved by one of these moves.
    By(Rectangle),
}

/// What an item may light, seen from the place before it.
#[derive(Clone, Copy)]
pub enum Light {
    Dark,
    /// What lies between two corners, each in a rectangle of its own.
    Shown { from: Rectangle, to: Rectangle },
    /// It may light anywhere.
    Unbounded,
}

/// What instructions do that a piece allows, before the scale at them is known.
#[derive(Clone, Copy)]
pub enum Act {
    /// Draws of a format between two, and where they have to lead, if anywhere.
    Draws {
        format: Format,
        low: Draw,
        high: Draw,
        into: Option<Rectangle>,
    },
    /// A LABS to one of these places.
    Place {
        places: Rectangle,
        scale: u8,
    },
    /// A JSRL to this word address.
    Call {
        to: u16,
    },
    /// A short instruction that leaves place and scale as they are.
    Still,
}

/// What an act does at a scale.
#[derive(Clone, Copy)]
pub struct Change {
    pub motion: Motion,
    pub light: Light,
    /// The scale behind them.
    pub scale: Key,
    /// The most words, with those of what they call.
    pub words: u32,
    /// The most return places stored at once.
    pub depth: u8,
    /// Whether what they call has an entry at the very scale.
    pub named: bool,
    /// Where they have to leave the beam, if they are draws that have to lead somewhere.
    pub into: Option<Rectangle>,
}
