//! The verdict on the bytes of a ROM, a certificate and a frame: the text is read by `dvg_text`, and judged by `dvg_check`.
//!
//! The contract of [`check`] has both halves: the exact verdict, and the safety of every run.
#![tactic(auto)]

pub mod laws;
mod verdict;

pub use verdict::{check, check_exact, check_on};
