//! The limits of a label file, and the bytes that cut it.

/// The most bytes of a label file (profile).
pub const MOST_BYTES: usize = 1_048_576;

/// The most labels of a label file, those that name no word among them (profile).
pub const MOST_LABELS: usize = 65_536;

/// The most bytes of a label's name (profile).
pub const LONGEST_NAME: usize = 80;

/// The byte that ends a line.
pub const LINE_FEED: u8 = b'\n';
