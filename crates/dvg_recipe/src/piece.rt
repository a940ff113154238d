//! Pieces: what one instruction of a frame may be.

use dvg_words::Format;

/// A range of numbers, ends included.
#[derive(Clone, Copy, Debug, PartialEq, Eq)]
pub struct Span {
    pub low: i16,
    pub high: i16,
}

/// The places of a rectangle, each with each of a set of global scales.
#[derive(Clone, Copy)]
pub struct PlaceRange {
    pub x: Span,
    pub y: Span,
    /// Which of the global scales 0 to 15 are in the set.
    pub scales: [bool; 16],
}

/// The places of a rectangle, in whole places of the screen.
#[derive(Clone, Copy)]
pub struct PlaceSpan {
    pub x: Span,
    pub y: Span,
}

/// Draws of one format and one local scale, with sizes and intensities in ranges. The sizes are those that the words say: an SVEC's are
/// 256 times its two bits.
#[derive(Clone, Copy)]
pub struct DrawRange {
    pub format: Format,
    pub lscale: u8,
    pub dx: Span,
    pub dy: Span,
    pub bright: Span,
    /// Where such a draw has to lead: behind it the place is known, and in this rectangle. Of VCTR alone.
    pub to: Option<PlaceSpan>,
}

/// Which instructions a piece allows.
#[derive(Drop)]
pub enum PieceKind {
    /// A LABS to one of these places, at one of these scales.
    Place(PlaceRange),
    /// A JSRL to one of these word addresses.
    Call(Vec<u16>),
    /// A VCTR or an SVEC of these ranges.
    Draw(DrawRange),
    /// The instruction of these words, or of others that say the same in the same format. A short instruction's second word says nothing.
    Fixed { first: u16, second: u16 },
}

/// What one instruction of a frame may be.
#[derive(Drop)]
pub struct Piece {
    /// The place of the piece among all pieces of its recipe, in the order of reading, from 0 on.
    pub number: u16,
    pub kind: PieceKind,
}
