//! Items: the instructions of a shape or of a frame, one after another, what is known before each, and what each lights.
//!
//! A [`Cursor`] has the word address of an item, and what is known there ([`Known`]). [`Cursor::see`] gives what the rules see
//! of that item ([`Seen`]), and [`Seen::step`] leads past it. The crates that judge and make shapes and frames walk over items in
//! this way. [`SeenItems`] gives what the rules see of one item after another, for whoever asks what they come to, and [`Items`]
//! the items alone, for whoever asks what stands there.
#![tactic(auto)]

mod action;
mod boxes;
mod cursor;
mod item;
mod items;
mod known;
pub mod laws;
mod lit;
mod seen;
mod seen_items;

pub use boxes::{box_corners, is_in_box, joined, spanning, widened};
pub use cursor::{Cursor, Step};
pub use item::{Item, Kind, target};
pub use items::Items;
pub use known::{Effect, Known, callee, depth_under, place_past, scale_past};
pub use lit::{
    LitExtent, absolute_corners, lit_in_box, lit_in_window, place_known, relative_corners,
    scale_known,
};
pub use seen::{Seen, has_callee};
pub use seen_items::{SeenItems, WalkContext};
