//! The worked recipes of [`laws`](dvg_recipe::laws): which frames belong, and what is answered. Worked by hand from the documentation of
//! the DVG.

use crate::recipes::members::expect_members;
use crate::recipes::verdicts::expect_told;

/// Pieces of all kinds; the frame that belongs, the one with a place past the range, and the one with a turn too many, after which only the
/// HALT may stand.
const ALL_KINDS: &str = "\
list 000 01F, place 0 1000 -8 100 scale 0 2, call 800 803
repeat 0 2, either, vctr 9 x -3 3 y 0 2 bright 0 7, or, words F0F0, end, end
belongs: 000 AFF8 2064 C803 9002 7403 F0F4 B000 E000
leaves 000 at 0: 000 AFF7 2064 C803 B000
leaves 005 at 4: 000 AFF8 2064 C803 F0F0 F0F0 F0F0 B000";

#[test]
fn tells_worked_members(rt: HostRuntime) {
    expect_members(&rt, rt.alloc(), "800", ALL_KINDS);
}

/// Columns of places, by their greatest Y.
const COLUMNS: &str = "\
list 000 00F, place 0 0 0 256 scale 0, call 800 802
accepted shapes=2 words=7 depth=1
list 000 00F, place 0 0 0 257 scale 0, call 800 802
refused 46 at 1";

#[test]
fn judges_worked_columns(rt: HostRuntime) {
    // VCTR at local scale 9, intensity 7, X size 1023, Y size 767; RTSL
    expect_told(&rt, rt.alloc(), "800 92FF 73FF D000", COLUMNS);
}
