//! The limits of a certificate.

/// The most entries of a certificate.
pub const MOST_ENTRIES: usize = 4096;

/// The most return places that an entry may claim.
pub const MOST_DEPTH: u8 = 3;

/// The most words that an entry may claim.
pub const MOST_WORDS: u32 = 1_000_000;

/// The greatest number of an end or a box, in units of 1/1024 of a screen place. The least is its negative.
pub const MOST_NUMBER: i64 = 2_000_000_000_000;
