//! The checker: it decides whether a vector ROM's shapes and a frame keep the rules, and a yes means that every run of the
//! generator is safe.
//!
//! [`check_rom`] takes a certificate that was read, and its contract has both halves: the exact verdict, and the safety of every
//! run. `check` of `dvg_verdict` takes the text.
#![tactic(auto)]

mod callees;
mod cause;
mod cells;
mod fault;
mod finding;
mod frames;
mod judged;
mod keys;
pub mod laws;
mod leaving;
mod needed;
mod rules;
mod shapes;
mod slots;
mod tail;
mod tails;
mod verdict;
mod walk;

pub use cause::{FrameCause, ShapeCause};
pub use fault::{
    Found, FrameFault, FrameFinding, FrameWhy, Mode, ShapeFault, ShapeFinding, ShapeWhy,
};
pub use finding::{Finding, judge_parts, judge_rom};
pub use frames::{Accepted, check_frame};
pub use judged::JudgedShapes;
pub use keys::{KEYS, Keys, key_index};
pub use leaving::{BoxLeaving, Edge, Leaving, Limits, leaves_box, leaves_window};
pub use shapes::{check_shapes, check_shapes_exact, judge_entry, judge_shapes};
pub use verdict::{Refusal, Yes, check_parts, check_parts_exact, check_rom, frame_of};
