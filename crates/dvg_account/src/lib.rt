//! The account of an answer: the lines behind the answer's own.
//!
//! [`verdict_text`], [`frame_text`] and [`timed_text`] answer the account of a verdict, [`made_text`] and [`unmade_text`] that of an
//! answer of the maker, [`plain_text`] that of a refusal before any item was judged, [`certificate_text`] that of a refused text, and
//! [`leaving_text`] that of a frame that leaves a recipe. Each is written of `Piece`s: keys, which begin lines, and what stands behind
//! them. What they tell is found, and proved, in the crates below; which lines tell it, and its words, are tested.
//! [`RecipeText`] has the lines of a recipe's account, which the caller finds, and [`dump_text`] the account of a dump that differs
//! from a good one.
#![tactic(auto)]

mod accepted;
mod beginnings;
mod beside;
mod chains;
mod cure;
mod dumps;
mod finder;
mod frame_list;
mod inputs;
mod item;
mod labs_watch;
mod leaving;
mod lines;
mod making;
mod meant;
mod middle;
mod piece;
mod recipes;
mod refused;
mod remarked;
mod remarks;
mod shape_items;
mod spelling;
mod starts;
mod swapped;
mod text;
mod texts;
mod time;
mod verdicts;
mod why;
mod zeros;

pub use dumps::dump_text;
pub use inputs::{Inputs, PlainWhy};
pub use recipes::{KnownBefore, RecipeText};
pub use remarked::{FrameRemark, frame_remarks, remarks_text};
pub use starts::ShapeStarts;
pub use swapped::{Swapped, find_swapped};
pub use texts::{
    address_text, certificate_text, frame_text, leaving_text, made_text, plain_text, timed_text,
    unmade_text, verdict_text,
};
