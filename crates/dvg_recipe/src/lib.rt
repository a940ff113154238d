//! Recipes: descriptions of all frames that a game can build.
//!
//! A [`Recipe`] says where a frame's list may begin, and of which instructions it is made up to its HALT: pieces ([`Piece`]) in rows,
//! alternatives and repeats ([`Part`]). [`belongs`] says whether a frame is one of the recipe's, and if not, where it leaves it.
//! [`judge_recipe`] judges all of them at once, [`judge_recipe_timed`] with how long they take to draw, and [`find_refused`] shows a frame
//! for which it refuses.
#![tactic(auto)]

mod belonging;
mod changes;
mod choices;
mod clocks;
mod confirmed;
mod frame_items;
mod goal;
mod hull;
mod hulls;
mod indices;
mod judge;
mod known_places;
pub mod laws;
mod lengths;
mod limits;
mod most_clocks;
mod notes;
mod options;
mod piece;
mod recipe;
mod rectangles;
mod roots;
mod sizes;
mod takes;
mod timed;
mod trail;
mod tried;
mod verdict;
mod witness;
mod writing;

pub use belonging::{Leaving, belongs};
pub use clocks::SlowPiece;
pub use confirmed::{RefusedFrame, find_deepest, find_longest, find_refused};
pub use hull::{Hull, Places, Rectangle};
pub use lengths::{Room, rooms, too_long};
pub use limits::{MOST_LEVELS, MOST_LISTS, MOST_NESTED, MOST_PIECES, MOST_TURNS};
pub use notes::{RecipeFault, SeenPiece};
pub use options::{MOST_OPTIONS, piece_options, turns_within};
pub use piece::{DrawRange, Piece, PieceKind, PlaceRange, PlaceSpan, Span};
pub use recipe::{Area, Jump, Part, Recipe};
pub use roots::Unmade;
pub use timed::judge_recipe_timed;
pub use verdict::{RecipeRefusal, SurveyedRecipe, judge_recipe, survey_recipe};
