//! Recipes: what the frames of a game are made of.

ghost use Rattle.std.specs.Prelude.{◌≡◌, Contains, IfSome, IfNone};
ghost use Rattle.dvg_recipe.specs.declared.recipe.Jump.{Jump};
ghost use Rattle.dvg_recipe.specs.Limits.{IsRecipe, PartFits, MOST_LEVELS, MOST_NESTED};

use crate::limits::is_recipe;
use crate::piece::{DrawRange, Piece, PieceKind};
use std::marker::Model;

/// The word addresses of the first and of the last word of a part of vector RAM.
#[derive(Clone, Copy, Debug, PartialEq, Eq)]
pub struct Area {
    pub first: u16,
    pub last: u16,
}

/// Which instructions may stand one behind the other. Long rows and many branches are rows of pieces or balanced pairs, so that no
/// recursion over a part is deep.
#[derive(Drop)]
pub enum Part {
    /// These pieces, one behind the other.
    Row(Vec<Piece>),
    /// The first part, and behind it the second.
    Then(Box<Part>, Box<Part>),
    /// One of two parts.
    Either(Box<Part>, Box<Part>),
    /// The body, `least` to `most` times.
    Repeat {
        least: u16,
        most: u16,
        body: Box<Part>,
    },
}

/// A JMPL to the first word of an area, and what stands there, up to the next jump or to the HALT.
#[derive(Drop)]
pub struct Jump {
    /// The place of the JMPL among all pieces of its recipe.
    pub number: u16,
    pub area: Area,
    pub body: Part,
}

/// Whether a piece is a draw that has to lead somewhere.
fn has_to(piece: &Piece) -> bool {
    matches!(piece.kind, PieceKind::Draw(DrawRange { to: Some(_), .. }))
}

/// Whether some draw of a part has to lead somewhere.
#[cycle(leads_somewhere)]
fn leads_somewhere(part: &Part) -> bool {
    match part {
        Part::Row(row) => row.iter().any(has_to),
        Part::Then(first, second) => leads_somewhere(first) || leads_somewhere(second),
        Part::Either(one, other) => leads_somewhere(one) || leads_somewhere(other),
        Part::Repeat { body, .. } => leads_somewhere(body),
    }
}

/// What the frames of a game are made of, within the limits of recipes.
#[derive(Drop)]
pub struct Recipe {
    lists: Vec<Area>,
    body: Part,
    jumps: Vec<Jump>,
    halt: u16,
    /// Whether some draw has to lead somewhere.
    leads: bool,
}

impl Model for Recipe {
    ghost use Rattle.std.specs.Coded.{codes};
    ghost use Rattle.dvg_recipe.specs.contracts.recipe.Part as part;
    ghost use Rattle.dvg_recipe.specs.Recipes.{Recipe as Described};

    ghost Value = { Described };

    ghost coded = { Prim.hlevel (codes, part.the_row.coded) };

    ghost use Rattle.dvg_recipe.specs.Limits.{IsRecipe};

    ghost view = { λ r. record { lists = r.lists.items; body = r.body; jumps = r.jumps.items; halt = r.halt } };

    ghost invariant = { λ r. IsRecipe (record { lists = r.lists.items; body = r.body; jumps = r.jumps.items; halt = r.halt }) };
}

impl Recipe {
    /// The recipe of frames that begin in one of these areas, with what stands there up to the first jump, the jumps, and the number of
    /// the HALT behind them. `None` if these are not within the limits of a recipe.
    pub fn new(lists: Vec<Area>, body: Part, jumps: Vec<Jump>, halt: u16) -> Option<Recipe>
        ensures some { IfSome result (λ recipe. (recipe ≡ record { lists = lists.items; body = body; jumps = jumps.items; halt = halt }) × IsRecipe recipe) }
        ensures none { IfNone result (IsRecipe (record { lists = lists.items; body = body; jumps = jumps.items; halt = halt }) → ⊥) }
    {
        if !is_recipe(&lists, &body, &jumps, halt) {
            return None;
        }
        let leads = leads_somewhere(&body) || jumps.iter().any(|jump| leads_somewhere(&jump.body));
        Some(Recipe {
            lists,
            body,
            jumps,
            halt,
            leads,
        })
    }

    /// Where the lists may begin.
    pub fn lists(&self) -> &[Area]
        ensures { result.now ≡ self.now.lists }
    {
        &self.lists
    }

    /// What stands in a list up to the first jump.
    pub fn body(&self) -> &Part
        ensures value { result.now ≡ self.now.body }
        ensures fits { PartFits MOST_LEVELS MOST_NESTED self.now.body }
    {
        &self.body
    }

    /// The jumps, with what stands behind each.
    pub fn jumps(&self) -> &[Jump]
        ensures value { result.now ≡ self.now.jumps }
        ensures fits { (jump : Jump) → Contains self.now.jumps jump → PartFits MOST_LEVELS MOST_NESTED jump.body }
    {
        &self.jumps
    }

    /// The number of the HALT.
    pub fn halt(&self) -> u16
        ensures { result ≡ self.now.halt }
    {
        self.halt
    }

    /// Whether some draw has to lead somewhere.
    pub(crate) fn leads_somewhere(&self) -> bool {
        self.leads
    }
}
