//! Words, instructions, memory and beam of Atari's Digital Vector Generator (DVG).
//!
//! A vector ROM or a frame is a list of 16-bit words ([`RomImage`], [`FrameImage`]), a ROM at the addresses of its
//! [`RomMap`]. Words make instructions ([`decode`], [`read_cell`]), and drawing instructions move the beam
//! ([`displacement`]) over a screen of 1024 by 1024 places ([`on_screen`]), or a [`Window`] of it ([`in_window`]). The generator
//! itself, its states, steps and runs, is no code but the definitions of `specs/Generator.antt`.
#![tactic(auto)]

mod beam;
mod decoding;
mod image;
mod instruction;
pub mod laws;
mod machine;
mod map;
mod window;

pub use beam::{Point, displacement, displacement_on, draw_move, factor, labs_place, shift};
pub use decoding::{Fetch, decode, decode_on, is_long, read_cell};
pub use image::{FrameImage, FrameOn, ImageFault, RomImage};
pub use instruction::{Cell, Draw, Format, Instr};
pub use machine::Machine;
pub use map::{
    ADDRESS_END, ASTEROIDS, MEMORY_LAST, MOST_ROM_WORDS, RAM_WORDS, ROM_FIRST, ROM_LAST, RomMap,
};
pub use window::{CLIPPED, SCREEN, Window, in_units, in_window, in_zone, on_screen};
