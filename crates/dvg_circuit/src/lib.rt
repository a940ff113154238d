//! The circuit of a board of the DVG, as a machine of its own.
//!
//! This is no simulator for users: it is what the theorem about the board speaks of, as code, so that it can be run and compared.
//! `dvg_bench trace` prints such runs. [`Run::step`] does just what the definitions of `specs/Circuit.antt` say of one instruction.
#![tactic(auto)]

mod circuit;
mod counters;
pub mod laws;
mod lit;
mod run;

pub use circuit::Circuit;
pub use counters::{Counters, counts, pulse};
pub use lit::LitDraw;
pub use run::{Bus, Run};
