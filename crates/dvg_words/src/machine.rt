//! The machines that words and frames are about.

/// A machine that runs a display list.
#[derive(Clone, Copy, Debug, PartialEq, Eq)]
pub enum Machine {
    /// The fixed-point profile: places keep fractions of 1/1024, and a LABS loads ten bits.
    Profile,
    /// A board of the DVG: each draw moves by whole places, and a LABS loads twelve bits as two's complement.
    Board,
}
