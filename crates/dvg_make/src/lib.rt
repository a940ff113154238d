//! The maker of certificates: the entries of shapes and of all that they call or tail jump to, with exact counts and the
//! least boxes.
//!
//! [`make_for_frames`] answers the one list that a ROM, roots and frames ask for, or a fault: where they have none, or where
//! memory is out, and [`make_with_index`] the same with its entries by address and key; [`make`] does so for roots alone, and
//! [`EntryMaker`] makes one root's entry after another's. [`judge`] judges a frame by its own certificate.
#![tactic(auto)]

mod account;
mod entry_maker;
mod fault;
mod frames;
mod judging;
pub mod laws;
mod least;
mod made_entries;
mod maker;
mod making;
mod merged_entries;
mod obstacle;
mod partial;
mod shapes;
mod stack;
mod tails;

pub use account::{EntryCause, MakeAccount, ShapeAt, explain_making};
pub use entry_maker::EntryMaker;
pub use fault::{EntryFault, FrameCall, FramesFault, MakeFault};
pub use judging::{FrameRefusal, JudgedFrame, explain_judging, judge, own_verdict};
pub use made_entries::MadeEntries;
pub use maker::{MadeCert, make, make_for_frames, make_with_index};
pub use merged_entries::merged;
