//! How a dump of a ROM differs from a good one, and which single faults of a chip, of its socket or of a reader make the one of the other.
//!
//! Two dumps are compared as far as both go: this is their front. Lines are given by their weights: 1 for A0 or D0, 2 for A1 or D1, and so
//! on.
#![tactic(auto)]

mod differences;
mod fault;
mod faults;
mod lines;
mod measuring;
mod tried;

pub use differences::{Differences, differences_of};
pub use fault::{AddressFault, DataFault, DumpFault, LineFault, explains};
pub use faults::faults_of;
pub use lines::Level;
pub use measuring::{MOST_BYTES, Measure, count, front, is_level_where_different, word_at};
pub use tried::{DATA_LINES, lines_below};
