//! The limits of a recipe's text, and the bytes that cut it.

/// The most lines of a recipe (profile).
pub const MOST_LINES: u32 = 4096;

/// The most bytes of a line, its LF among them (profile).
pub const LONGEST_LINE: usize = 200;

/// The most blocks of a recipe, one in another (profile).
pub const MOST_BLOCKS: usize = 16;

/// The most bytes of a name (profile).
pub const LONGEST_NAME: usize = 80;

/// The byte that ends a line.
pub const LINE_FEED: u8 = b'\n';

/// The byte between two words of a line.
pub const SPACE: u8 = b' ';

/// The byte that begins a remark.
pub const REMARK: u8 = b';';

/// The first line of each recipe (profile).
pub const FIRST_LINE: &[u8; 11] = b"dvgrecipe 1";
