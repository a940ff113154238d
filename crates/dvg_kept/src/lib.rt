//! Frames that are judged one after another over the same ROM: what was made for the earlier ones is kept for the later ones.
//!
//! [`KeptShapes::judge`] answers each frame as [`judge`](dvg_make::judge) does. [`frame_entries`] finds what is made for one frame among the
//! entries that were made for several.
#![tactic(auto)]

mod kept;
mod leaves;
mod marks;
mod own;
mod timed;

pub use kept::KeptShapes;
pub use own::frame_entries;
pub use timed::TimedShapes;
