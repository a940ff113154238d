//! Draws that have to lead to a rectangle: what is answered of recipes with them, and which frames are theirs. Worked by hand: at local
//! scale 9 and global scale 0 a draw's sizes are whole places.

use crate::expecting::expect_same;
use crate::recipes::building::{row, span, straight};
use crate::recipes::members::expect_members;
use crate::recipes::verdicts::{ROM, expect_told};
use dvg_recipe::{DrawRange, PieceKind, PlaceSpan};
use dvg_words::Format;
use std::alloc::Global;
use std::process::Abort;

/// Hills: each stroke is 12 places wide, and none ends below Y 80 or above Y 320. They stay in their bounds, and come to these sides of them.
const KEEPS_BOUNDS: &str = "\
; 85 strokes end at X 1020; a further one can't end on the screen
place 0 0 200 200 scale 0, repeat 0 85, vctr 9 x 12 12 y -60 60 bright 7 7 to 0 1023 80 320, end
accepted shapes=0 words=173 depth=0
place 0 0 200 200 scale 0, repeat 0 86, vctr 9 x 12 12 y -60 60 bright 7 7 to 0 1023 80 320, end
refused 59 at 1
; without bounds the fourth stroke ends below the screen
place 0 0 200 200 scale 0, repeat 0 3, vctr 9 x 12 12 y -60 60 bright 7 7, end
accepted shapes=0 words=9 depth=0
place 0 0 200 200 scale 0, repeat 0 4, vctr 9 x 12 12 y -60 60 bright 7 7, end
refused 46 at 1
; from Y 190 over 130 to 80, and over 250 and 310 to 320
window 0,1023,80,320
place 0 0 190 190 scale 0, repeat 0 3, vctr 9 x 12 12 y -60 60 bright 7 7 to 0 1023 80 320, end
accepted shapes=0 words=9 depth=0
window 0,1023,81,320
place 0 0 190 190 scale 0, repeat 0 3, vctr 9 x 12 12 y -60 60 bright 7 7 to 0 1023 80 320, end
refused 46 at 1
window 0,1023,80,319
place 0 0 190 190 scale 0, repeat 0 3, vctr 9 x 12 12 y -60 60 bright 7 7 to 0 1023 80 320, end
refused 46 at 1
; the budget, at a stroke and at the HALT
budget 7
place 0 0 190 190 scale 0, repeat 0 3, vctr 9 x 12 12 y -60 60 bright 7 7 to 0 1023 80 320, end
refused 48 at 1
budget 8
place 0 0 190 190 scale 0, repeat 0 3, vctr 9 x 12 12 y -60 60 bright 7 7 to 0 1023 80 320, end
refused 48 at 2";

/// Sides of a rectangle that cut what is known: some frame comes just to them. At local scale 8 each of the sizes moves by half a place,
/// halves rounded away from 0.
const COMES_TO_CUTS: &str = "\
window 450,540,0,1023
place 500 500 100 100 scale 0, repeat 2 2, vctr 9 x -60 60 y 0 0 bright 0 0 to 450 540 0 1023, end, words F070
accepted shapes=0 words=8 depth=0
window 451,540,0,1023
place 500 500 100 100 scale 0, repeat 2 2, vctr 9 x -60 60 y 0 0 bright 0 0 to 450 540 0 1023, end, words F070
refused 46 at 2
window 450,539,0,1023
place 500 500 100 100 scale 0, repeat 2 2, vctr 9 x -60 60 y 0 0 bright 0 0 to 450 540 0 1023, end, words F070
refused 46 at 2
window 499,501,0,1023
place 500 500 100 100 scale 0, vctr 8 x -3 3 y 0 0 bright 7 7 to 499 501 0 1023
accepted shapes=0 words=5 depth=0
window 500,501,0,1023
place 500 500 100 100 scale 0, vctr 8 x -3 3 y 0 0 bright 7 7 to 499 501 0 1023
refused 46 at 1
window 499,500,0,1023
place 500 500 100 100 scale 0, vctr 8 x -3 3 y 0 0 bright 7 7 to 499 501 0 1023
refused 46 at 1
; from anywhere on the screen into a small part of it
window 9,20,30,40
place 0 1023 0 1023 scale 0, vctr 9 x -1023 1023 y -1023 1023 bright 0 0 to 9 20 30 40, words F070
accepted shapes=0 words=6 depth=0
window 9,20,30,39
place 0 1023 0 1023 scale 0, vctr 9 x -1023 1023 y -1023 1023 bright 0 0 to 9 20 30 40, words F070
refused 46 at 2
; from out of the window, but into it
window 5,6,0,0
place 0 5 0 0 scale 0, vctr 9 x 0 5 y 0 0 bright 7 7 to 5 6 0 0
refused 46 at 1
; out of it, where the other axis has to be moved, too
place 1000 1000 100 104 scale 0, vctr 9 x 20 30 y -9 9 bright 7 7 to 0 1024 109 109
refused 46 at 1
; behind a jump
window 451,540,0,1023
list 000 0FF, list 101 1FF, place 500 500 100 100 scale 0, jump 200 2FF, vctr 9 x -60 60 y 0 0 bright 0 0 to 450 540 0 1023
words F070
refused 46 at 3";

/// Draws that can't lead from some place to where they have to.
const FINDS_STUCK: &str = "\
; from each place, and from the one that is furthest away alone
place 10 12 20 22 scale 0, vctr 9 x -1 1 y -1 1 bright 7 7 to 11 11 21 21
accepted shapes=0 words=5 depth=0
place 10 12 20 22 scale 0, vctr 9 x -1 1 y -1 1 bright 7 7 to 12 99 21 21
refused 59 at 1
place 10 12 20 22 scale 0, vctr 9 x -1 1 y -1 1 bright 7 7 to 0 10 21 21
refused 59 at 1
place 10 12 20 22 scale 0, vctr 9 x -1 1 y -1 1 bright 7 7 to 11 11 22 99
refused 59 at 1
place 10 12 20 22 scale 0, vctr 9 x -1 1 y -1 1 bright 7 7 to 11 11 0 20
refused 59 at 1
; where place and scale are not known, or not in each frame
vctr 9 x -1 1 y -1 1 bright 7 7 to 0 1023 0 1023
refused 59 at 0
repeat 0 1, place 10 10 10 10 scale 0, end, vctr 9 x -1 1 y -1 1 bright 7 7 to 0 1023 0 1023
refused 59 at 1
; at one scale alone: at scale 15 the size is 1.5 places, which are 2
place 500 500 500 500 scale 0 15, vctr 9 x 3 3 y 0 0 bright 7 7 to 502 503 500 500
accepted shapes=0 words=5 depth=0
place 500 500 500 500 scale 0 15, vctr 9 x 3 3 y 0 0 bright 7 7 to 503 503 500 500
refused 59 at 1
; in the last turn alone
place 0 0 0 0 scale 0, repeat 0 2, vctr 9 x 10 10 y 0 0 bright 7 7 to 0 25 0 0, end
accepted shapes=0 words=7 depth=0
place 0 0 0 0 scale 0, repeat 0 3, vctr 9 x 10 10 y 0 0 bright 7 7 to 0 25 0 0, end
refused 59 at 1
; the first of two
place 10 10 10 10 scale 0, vctr 9 x -1 1 y -1 1 bright 7 7 to 10 10 10 10, either, vctr 9 x -1 1 y -1 1 bright 7 7 to 99 99 99 99
or, vctr 9 x -1 1 y -1 1 bright 7 7 to 0 0 0 0, end
refused 59 at 2
; 57 before it, and it before 46 and 25
list 000 001, vctr 9 x -1 1 y -1 1 bright 7 7 to 0 1023 0 1023
refused 57 at 1
place 1020 1020 0 0 scale 0, call 810, call 850, vctr 9 x -1 1 y -1 1 bright 7 7 to 0 10 0 10
refused 59 at 3
; 60 to 62 before it
place 10 10 10 10 scale 0, either, vctr 9 x -1 1 y -1 1 bright 7 7 to 10 10 10 10, or
vctr 9 x -1 1 y -1 1 bright 7 7 to 99 99 99 99, end, call 870
unmade at 3: 870/0, no shape can have the item at 870";

/// Calls before draws that have to lead somewhere, and behind them.
const KNOWS_CALLS: &str = "\
; a shape that goes 30 places to the left, and one that stays
window 100,130,100,100
place 100 100 100 100 scale 0, call 8B0 800, vctr 9 x 0 60 y 0 0 bright 0 0 to 100 130 100 100, words F070
accepted shapes=2 words=10 depth=1
window 100,129,100,100
place 100 100 100 100 scale 0, call 800 8B0, vctr 9 x 0 60 y 0 0 bright 0 0 to 100 130 100 100, words F070
refused 46 at 3
window 101,130,100,100
place 100 100 100 100 scale 0, call 8B0, vctr 9 x 0 60 y 0 0 bright 0 0 to 100 130 100 100, words F070
refused 46 at 3
; one that goes to 512, 512 at scale 2
window 511,513,510,512
place 100 100 100 100 scale 0, call 840, vctr 7 x -9 9 y -9 9 bright 7 7 to 511 513 510 512
accepted shapes=1 words=9 depth=1
; the deepest calls behind such a draw
place 512 512 512 512 scale 0, vctr 9 x -9 9 y 5 9 bright 7 7 to 505 505 517 518, call 898
accepted shapes=4 words=14 depth=4
; 25 behind one
place 512 512 512 512 scale 0, vctr 9 x -9 9 y 5 9 bright 7 7 to 505 505 517 518, call 850
refused 25 shape 850/0 at 852
; a call that can't be made moves nothing, and what is called behind it does
place 100 100 100 100 scale 0, call 878, vctr 9 x 0 60 y 0 0 bright 0 0 to 100 130 100 100, place 100 100 100 100 scale 0
call 8B0, vctr 9 x 0 60 y 0 0 bright 0 0 to 100 130 100 100
unmade at 1: 878/0, no shape can have the item at 87A
place 100 100 100 100 scale 0, repeat 1 3, call 8B0, vctr 9 x 0 60 y 0 0 bright 0 0 to 100 130 100 100, end, call 878
unmade at 3: 878/0, no shape can have the item at 87A";

#[test]
fn keeps_bounds(rt: HostRuntime) {
    expect_told(&rt, rt.alloc(), ROM, KEEPS_BOUNDS);
}

#[test]
fn comes_to_cuts(rt: HostRuntime) {
    expect_told(&rt, rt.alloc(), ROM, COMES_TO_CUTS);
}

#[test]
fn finds_stuck(rt: HostRuntime) {
    expect_told(&rt, rt.alloc(), ROM, FINDS_STUCK);
}

#[test]
fn knows_calls(rt: HostRuntime) {
    expect_told(&rt, rt.alloc(), ROM, KNOWS_CALLS);
}

/// Ends of rectangles, X before Y, and whether a VCTR may have to lead there.
const RECTANGLES: &[((i16, i16), (i16, i16), bool)] = &[
    ((-2048, 2047), (-2048, 2047), true),
    ((-2049, 0), (0, 0), false),
    ((0, 2048), (0, 0), false),
    ((0, 0), (-2049, 0), false),
    ((0, 0), (0, 2048), false),
    ((1, 0), (0, 0), false),
    ((0, 0), (1, 0), false),
];

/// Stops the test unless a recipe may have a draw of a format that has to lead to this rectangle, or not.
fn expect_rectangle(
    rt: &impl Abort,
    alloc: Global,
    (format, lscale): (Format, u8),
    (x, y): ((i16, i16), (i16, i16)),
    fits: bool,
) {
    let draw = PieceKind::Draw(DrawRange {
        format,
        lscale,
        dx: span(0, 0),
        dy: span(0, 0),
        bright: span(7, 7),
        to: Some(PlaceSpan {
            x: span(x.0, x.1),
            y: span(y.0, y.1),
        }),
    });
    let body = row(alloc, 0, draw).expect(rt, "memory for a row");
    let recipe = straight(alloc, &[(0x000, 0x0FF)], body, 1).expect(rt, "memory for the recipe");
    expect_same(rt, &recipe.is_some(), &fits, &(x, y));
}

#[test]
fn limits_rectangles(rt: HostRuntime) {
    for &(x, y, fits) in RECTANGLES {
        expect_rectangle(&rt, rt.alloc(), (Format::Long, 9), (x, y), fits);
    }
    // an SVEC leads nowhere
    expect_rectangle(&rt, rt.alloc(), (Format::Short, 3), ((0, 9), (0, 9)), false);
}

/// Hills that stay in their bounds up to a draw, and hills that don't.
const HILLS: &str = "\
place 0 0 200 200 scale 0, repeat 0 85, vctr 9 x 12 12 y -60 60 bright 7 7 to 0 1023 80 320, end
belongs: 000 A0C8 0000 903C 700C 903C 700C 943C 700C 943C 700C B000
; to Y 320, and one place further; to Y 80, and one place further
leaves 006 at 1 2: 000 A0C8 0000 903C 700C 903C 700C 9001 700C B000
leaves 006 at 1 2: 000 A0C8 0000 943C 700C 943C 700C 9401 700C B000
; a size out of its range
leaves 002 at 1 2: 000 A0C8 0000 903D 700C B000";

#[test]
fn tells_hills(rt: HostRuntime) {
    expect_members(&rt, rt.alloc(), ROM, HILLS);
}

/// A place at 100, 100, a call, and a dark draw of no size. It leads behind a shape that goes 30 places to the left to 70, 100, behind one
/// that goes to 512, 512 to that place, and behind one whose entry can't be made to 100, 100.
const ENDS_OF_CALLS: &str = "\
place 100 100 100 100 scale 0, call 8B0 840 870, vctr 9 x 0 0 y 0 0 bright 0 0 to 70 70 100 100
belongs: 000 A064 0064 C8B0 9000 0000 B000
leaves 003 at 2: 000 A064 0064 C840 9000 0000 B000
leaves 003 at 2: 000 A064 0064 C870 9000 0000 B000

place 100 100 100 100 scale 0, call 8B0 840 870, vctr 9 x 0 0 y 0 0 bright 0 0 to 512 512 512 512
leaves 003 at 2: 000 A064 0064 C8B0 9000 0000 B000
belongs: 000 A064 0064 C840 9000 0000 B000
leaves 003 at 2: 000 A064 0064 C870 9000 0000 B000

place 100 100 100 100 scale 0, call 8B0 840 870, vctr 9 x 0 0 y 0 0 bright 0 0 to 100 100 100 100
leaves 003 at 2: 000 A064 0064 C8B0 9000 0000 B000
leaves 003 at 2: 000 A064 0064 C840 9000 0000 B000
belongs: 000 A064 0064 C870 9000 0000 B000";

#[test]
fn tells_ends_of_calls(rt: HostRuntime) {
    expect_members(&rt, rt.alloc(), ROM, ENDS_OF_CALLS);
}

/// At word 000 neither place nor scale is known.
const LOST_PLACES: &str = "\
vctr 9 x -1 1 y -1 1 bright 7 7 to -2048 2047 -2048 2047
leaves 000 at 0: 000 9000 0000 B000";

#[test]
fn tells_lost_places(rt: HostRuntime) {
    expect_members(&rt, rt.alloc(), ROM, LOST_PLACES);
}
