//! How long a frame takes to draw: the clocks of its instructions' states, and of the counts of its draws.
//!
//! [`judge_timed`] judges a frame by its own certificate, and answers its clocks; [`explain_timed`] tells which items take most, too. [`ShapeClocks`] has what the shapes of a certificate's
//! entries take, and [`frame_clocks`] adds up what a frame over them takes.
#![tactic(auto)]

mod clocks;
mod dearest;
mod frames;
mod items;
mod judging;
pub mod laws;
mod shapes;

pub use clocks::{ClockRange, DVG_STATES, States, instr_clocks};
pub use dearest::{Dearest, TimedItem};
pub use frames::{Timing, frame_clocks};
pub use judging::{FrameTime, TimedJudging, TimedRefusal, TimedYes, explain_timed, judge_timed};
pub use shapes::ShapeClocks;
