//! The labels of a program: files of labels as assemblers and linkers write them, read.
//!
//! [`read_labels`] reads a file (docs/LABELS.md) and answers the [`Labels`] of the words of vector RAM and vector ROM, in the file's
//! order. [`Labels::name_at`] names a word address by the nearest label at or below it, and [`Labels::address_of`] answers where a
//! label stands.
#![tactic(auto)]

mod cutting;
mod fault;
mod labels;
mod limits;
mod line;
mod reading;

pub use fault::{LabelFault, Unnamed};
pub use labels::{Label, Labels, Nearest};
pub use limits::{LONGEST_NAME, MOST_BYTES, MOST_LABELS};
pub use reading::read_labels;
