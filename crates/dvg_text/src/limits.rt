//! The limits of a text, and the bytes that cut it into lines and tokens.

use dvg_cert::MOST_NUMBER;

/// The greatest number of an end or a box, as tokens without a sign are read.
pub const MOST_MAGNITUDE: u64 = MOST_NUMBER as u64;

/// The most bytes of a line, its end among them.
pub const LONGEST_LINE: usize = 200;

/// The most bytes that are put together for one write: as many as a pipe takes whole.
pub const MOST_AT_ONCE: usize = 4096;

/// The byte that ends a line.
pub const LINE_FEED: u8 = b'\n';

/// The byte between two tokens of a line.
pub const SPACE: u8 = b' ';
