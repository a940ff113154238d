//! Rows for both machines: the profile's and the board's. What the board does was worked out by hand from its arithmetic: a draw
//! moves size * 2^(t + 1) / 1024 places at an effective scale t of 0 to 9, rounded half up and the same way for either sign, and
//! none at 10 to 15; a LABS loads twelve bits as two's complement.

use crate::expecting::{expect, expect_same};
use crate::rows::judge_rows;
use crate::table::{Inputs, Row, read_rows};
use dvg_check::{Refusal, Yes, frame_of};
use dvg_cmd::report_of;
use dvg_make::{FrameRefusal, judge, make_for_frames};
use dvg_text::read_cert;
use dvg_words::{
    Draw, Instr, Machine, Point, RomImage, decode, decode_on, displacement, displacement_on,
    draw_move, labs_place,
};
use std::alloc::Global;
use std::process::Abort;
use std::slice;

/// The words of a draw, a global scale, and how far the draw moves the beam there by the profile and on the board.
type MoveRow = (u16, u16, u8, (i32, i32), (i32, i32));

const MOVES: &[MoveRow] = &[
    // A VCTR by 1023, 767 at local scale 9, and an SVEC by -768, -768 at local scale 5.
    (0x92FF, 0x73FF, 0, (1047552, 785408), (1047552, 785408)),
    (0x92FF, 0x73FF, 15, (523776, 392704), (524288, 393216)),
    (0x92FF, 0x73FF, 6, (1023, 767), (0, 0)),
    (0xFF8F, 0x0000, 0, (-49152, -49152), (-49152, -49152)),
    (0xFF8F, 0x0000, 5, (-768, -768), (0, 0)),
    (0xFF8F, 0x0000, 11, (-1536, -1536), (-2048, -2048)),
    // Effective scale 0: 512 is one place, and 256 half a place.
    (0x0000, 0x0000, 0, (0, 0), (0, 0)),
    (0x0000, 0x0401, 0, (-2, 0), (0, 0)),
    (0x00FF, 0x04FF, 0, (-510, 510), (0, 0)),
    (0x0100, 0x0500, 0, (-512, 512), (-1024, 1024)),
    (0x0501, 0x0101, 0, (514, -514), (1024, -1024)),
    (0x02FF, 0x06FF, 0, (-1534, 1534), (-1024, 1024)),
    (0x0300, 0x0700, 0, (-1536, 1536), (-2048, 2048)),
    (0x03FF, 0x07FF, 0, (-2046, 2046), (-2048, 2048)),
    // 7: 4 is one place.
    (0x7401, 0x0001, 0, (256, -256), (0, 0)),
    (0x7402, 0x0002, 0, (512, -512), (1024, -1024)),
    (0x7405, 0x0006, 0, (1536, -1280), (2048, -1024)),
    // 8: 2 is one place.
    (0x8001, 0x0401, 0, (-512, 512), (-1024, 1024)),
    (0x8002, 0x0402, 0, (-1024, 1024), (-1024, 1024)),
    (0x8003, 0x0403, 0, (-1536, 1536), (-2048, 2048)),
    (0x0001, 0x0401, 8, (-512, 512), (-1024, 1024)),
    // 9: each size is as many places.
    (0x9001, 0x0401, 0, (-1024, 1024), (-1024, 1024)),
    (0x93FF, 0x07FF, 0, (-1047552, 1047552), (-1047552, 1047552)),
    (0x03FF, 0x07FF, 9, (-1047552, 1047552), (-1047552, 1047552)),
    // 10 and 15, dark and lit.
    (0x9001, 0x0401, 1, (-1, 1), (0, 0)),
    (0x93FF, 0x07FF, 1, (-1023, 1023), (0, 0)),
    (0x93FF, 0x77FF, 1, (-1023, 1023), (0, 0)),
    (0x93FF, 0x07FF, 6, (-1023, 1023), (0, 0)),
    (0x03FF, 0x77FF, 15, (-1023, 1023), (0, 0)),
    // 16, which is 0.
    (0x9100, 0x0500, 7, (-512, 512), (-1024, 1024)),
    // Short draws: sizes of 256, 512 and 768 at effective scale 0, by local scales 2, 3, 4 and 5; then 512 at 10 and 15.
    (0xF105, 0x0000, 14, (-512, 512), (-1024, 1024)),
    (0xF602, 0x0000, 14, (1024, -1024), (1024, -1024)),
    (0xF307, 0x0000, 14, (-1536, 1536), (-2048, 2048)),
    (0xFD01, 0x0000, 13, (512, -512), (1024, -1024)),
    (0xF10D, 0x0000, 12, (-512, 512), (-1024, 1024)),
    (0xFF7B, 0x0000, 11, (1536, -1536), (2048, -2048)),
    (0xF206, 0x0000, 8, (-512, 512), (0, 0)),
    (0xF276, 0x0000, 13, (-512, 512), (0, 0)),
];

/// The moves of a draw at a global scale, by the profile and on the board; `None` where the board's two calls differ.
fn both_moves(draw: &Draw, gscale: u8) -> Option<[(i32, i32); 2]> {
    let by = displacement_on(Machine::Board, draw, gscale % 16);
    let to = draw_move(Machine::Board, draw, gscale % 16);
    if to.x != i64::from(by.0) || to.y != i64::from(by.1) {
        return None;
    }
    Some([displacement(draw, gscale % 16), by])
}

/// The moves of the draw of two words; `None` where they are none, or are decoded otherwise on the board.
fn moves_of(first: u16, second: u16, gscale: u8) -> Option<[(i32, i32); 2]> {
    let instr = decode(first, second);
    if decode_on(Machine::Board, first, second) != instr {
        return None;
    }
    match &instr {
        Some(Instr::Draw(draw)) => both_moves(draw, gscale),
        _ => None,
    }
}

#[test]
fn moves_on_both(rt: HostRuntime) {
    for &(first, second, gscale, profile, board) in MOVES {
        let moves = moves_of(first, second, gscale);
        let want = Some([profile, board]);
        expect_same(&rt, &moves, &want, &(first, second, gscale));
    }
}

/// The words of a LABS, its fields on the board as x, y and global scale, and the place that it sets there in units of 1/1024 of a
/// screen place; and whether it is a LABS of the profile too.
type LabsRow = (u16, u16, (u16, u16, u8), (i64, i64), bool);

const LABS: &[LabsRow] = &[
    // Asteroids' own: 2028 up, which is off the screen, and 20 to the left of it.
    (0xA7EC, 0x0FEC, (4076, 2028, 0), (-20480, 2076672), false),
    (0xAFFF, 0x0FFF, (4095, 4095, 0), (-1024, -1024), false),
    (0xA800, 0x5000, (0, 2048, 5), (0, -2097152), false),
    (0xA000, 0xF800, (2048, 0, 15), (-2097152, 0), false),
    (0xA7FF, 0x0000, (0, 2047, 0), (0, 2096128), false),
    (0xA001, 0x07FF, (2047, 1, 0), (2096128, 1024), false),
    (0xA400, 0x0000, (0, 1024, 0), (0, 1048576), false),
    (0xA000, 0x0400, (1024, 0, 0), (1048576, 0), false),
    (0xA800, 0x1400, (1024, 2048, 1), (1048576, -2097152), false),
    (0xA7FF, 0x03FF, (1023, 2047, 0), (1047552, 2096128), false),
    (0xA800, 0x0FFF, (4095, 2048, 0), (-1024, -2097152), false),
    (0xA064, 0x0190, (400, 100, 0), (409600, 102400), true),
    (0xA3FF, 0xF3FF, (1023, 1023, 15), (1047552, 1047552), true),
];

#[test]
fn sets_places(rt: HostRuntime) {
    for &(first, second, (x, y, gscale), place, is_plain) in LABS {
        let labs = Some(Instr::Labs { x, y, gscale });
        let profile = if is_plain { labs } else { None };
        for (machine, instr) in [(Machine::Board, labs), (Machine::Profile, profile)] {
            expect_same(&rt, &decode_on(machine, first, second), &instr, &first);
        }
        expect_same(&rt, &decode(first, second), &profile, &first);
        let (x, y) = (labs_place(Machine::Board, x, y), place);
        expect_same(&rt, &x, &Point { x: y.0, y: y.1 }, &first);
    }
}

/// Rows that are judged on both machines.
const ROWS: &str = "\
size 255 at effective scale 0, lit at the right edge: on the board a dot
frame A000 03FF 0000 70FF B000
board accepted shapes=0 words=5 depth=0
refused 46 frame at 002

the same at the left edge, by -255
frame A000 0000 0000 74FF B000

the same by -256: half a place, and on the board a place
frame A000 0000 0000 7500 B000
board refused 46 frame at 002

sizes 256 and 255 up: on the board a place and none
frame A3FE 0000 0100 7000 00FF 7000 B000
board accepted shapes=0 words=7 depth=0
accepted shapes=0 words=7 depth=0

sizes 256 and 257 up: two places on the board
frame A3FE 0000 0100 7000 0101 7000 B000
board refused 46 frame at 004
refused 46 frame at 004

size 256 up twice: one place by the profile
frame A3FE 0000 0100 7000 0100 7000 B000
board refused 46 frame at 004
accepted shapes=0 words=7 depth=0

the same, the first dark
frame A3FE 0000 0100 0000 0100 7000 B000

the same, both dark
frame A3FE 0000 0100 0000 0100 0000 B000
board accepted shapes=0 words=7 depth=0

the same, both lit, up and down again
frame A3FE 0000 0100 7000 0500 7000 B000

size 257 up from place 1022
frame A3FE 0000 0101 7000 B000
board accepted shapes=0 words=5 depth=0
accepted shapes=0 words=5 depth=0

two draws of 1 at effective scale 8
frame A000 03FE 8000 7001 8000 7001 B000
board refused 46 frame at 004
accepted shapes=0 words=7 depth=0

the same two at the left edge, in a window of two places and where counts are exact
frame A000 0000 8000 7001 8000 7001 B000
window 0,1,0,1
mode exact

one draw of 2 there
frame A000 03FE 8000 7002 B000
board accepted shapes=0 words=5 depth=0
accepted shapes=0 words=5 depth=0

the same way by 1 at effective scale 9
frame A000 03FE 9000 7001 B000

the same and one place more, over the edge
frame A000 03FE 9000 7002 B000
board refused 46 frame at 002
refused 46 frame at 002

effective scale 10, lit at the edge: on the board a dot
frame A000 A3FF 0000 73FF B000
board accepted shapes=0 words=5 depth=0
refused 46 frame at 002

the same at effective scale 15
frame A000 63FF 9000 73FF B000

effective scale 10, dark at the edge, and a lit dot
frame A000 A3FF 0000 03FF 0000 7000 B000
board accepted shapes=0 words=7 depth=0
refused 46 frame at 004

the same dot at effective scale 15
frame A000 F000 0000 07FF 0000 7000 B000

effective scale 10, a lit dot outside the window
frame A000 A3FF 0000 73FF B000
window 0,1022,0,1023
board refused 46 frame at 002
refused 46 frame at 002

effective scale 15, twenty lit draws that leave the board's place alone
frame A000 F000 0000,73FF*20 B000
window 0,0,0,0
board accepted shapes=0 words=43 depth=0
refused 46 frame at 002

short draws of 256 at effective scale 0
frame A000 E3FE F071 F071 B000
board refused 46 frame at 003
accepted shapes=0 words=5 depth=0

the same to the left
frame A000 E001 F075 F075 B000

a short draw of 768 at effective scale 0
frame A000 E3FD F073 B000
board accepted shapes=0 words=4 depth=0
accepted shapes=0 words=4 depth=0

the same, and a dark one of -256
frame A000 E3FD F073 F005 F071 B000
board accepted shapes=0 words=6 depth=0
accepted shapes=0 words=6 depth=0

the same one place further right
frame A000 E3FE F073 F005 F071 B000
board refused 46 frame at 002
refused 46 frame at 002

a short draw of 256 at effective scale 0, by local scale 5
frame A000 B3FF F879 B000
board refused 46 frame at 002
refused 46 frame at 002

a short draw of 512 at effective scale 10, lit at the edge
frame A000 83FF F072 B000
board accepted shapes=0 words=4 depth=0
refused 46 frame at 002

LABS at x -1, and a lit dot
frame A005 0FFF 9000 7000 B000
board refused 46 frame at 002
refused 41 frame at 000

the same at x -2048
frame A005 0800 9000 7000 B000

the same at x 2047
frame A005 07FF 9000 7000 B000

the same at y -1
frame AFFF 0005 9000 7000 B000

the same at y -2048
frame A800 0005 9000 7000 B000

the same at y 2047
frame A7FF 0005 9000 7000 B000

the same with a stroke from x -1 onto the screen
frame A005 0FFF 9000 7002 B000

a dark way from x -1 onto the screen
frame A005 0FFF 9000 0001 9000 7001 B000
board accepted shapes=0 words=7 depth=0
refused 41 frame at 000

the same from x -2048
frame A005 0800 9000,03FF*2 9000 0002 9000 7001 B000
board accepted shapes=0 words=11 depth=0

the same, and one place less
frame A005 0800 9000,03FF*2 9000 0001 9000 7001 B000
board refused 46 frame at 008

the same from x 2047
frame A005 07FF 9000 07FF 9000 0401 9000 7401 B000
board accepted shapes=0 words=9 depth=0

the same from y -1, -2048 and 2047
frame AFFF 0000 9001 0000 9000 7001 A800 0000 93FF,0000*2 9002 0000 9000 7001 A7FF 0000 97FF 0000 9401 0000 9401 7000 B000
board accepted shapes=0 words=25 depth=0

LABS outside, dark to the end
frame A800 0800 9000 0001 B000
board accepted shapes=0 words=5 depth=0
refused 41 frame at 000

LABS outside, and LABS on the screen
frame AFFF 0FFF A001 0001 9400 7401 B000
board accepted shapes=0 words=7 depth=0
refused 41 frame at 000

Asteroids' LABS at -20, 2028
frame A7EC 0FEC 9000 7000 B000
board refused 46 frame at 002
refused 41 frame at 000

the same, dark
frame A7EC 0FEC B000
board accepted shapes=0 words=3 depth=0

a LABS whose second word is missing
frame A7EC
board refused 40 frame at 000
refused 40 frame at 000

a shape at unknown scale, with a LABS at -1, -1
rom 800 AFFF 0FFF D000
shape 800 any end abs -1024 -1024 box none depth 0 words 3 scale 0
frame C800 B000
board accepted shapes=1 words=5 depth=1
refused 21 shape 800/any at 800

the same, and a lit dot behind the call
frame C800 9000 7000 B000
board refused 46 frame at 001

a shape at unknown scale that lights where its LABS is
rom 800 A005 0FFF 9000 7001 D000
shape 800 any end abs 0 5120 box none depth 0 words 5 scale 0
frame C800 B000
board refused 25 shape 800/any at 802
refused 21 shape 800/any at 800

the same, dark onto the screen
rom 800 A005 0FFF 9000 0001 9000 7001 D000
shape 800 any end abs 1024 5120 box none depth 0 words 7 scale 0
board accepted shapes=1 words=9 depth=1

a shape at unknown scale that sets the scale and draws half a place
rom 800 A000 0000 0000 7100 D000
shape 800 any end abs 1024 0 box none depth 0 words 5 scale 0
frame C800 B000
board accepted shapes=1 words=7 depth=1
refused 29 shape 800/any at 804

a draw at unknown scale loses the place, though a board might not move by it
rom 800 0000 0000 D000
shape 800 any end lost box none depth 0 words 3 scale any
frame A000 A000 C800 0000 7000 B000
board refused 44 frame at 003
refused 44 frame at 003

the same shape with its place kept
shape 800 any end rel 0 0 box none depth 0 words 3 scale any
frame A000 A000 C800 B000
board refused 29 shape 800/any at 802
refused 29 shape 800/any at 802

half a place there and back, as the profile has it
rom 800 0000 7100 0000 7500 D000
shape 800 0 end rel 0 0 box 0 512 0 0 depth 0 words 5 scale 0
frame A000 0000 C800 B000
board refused 31 shape 800/0 at 800
accepted shapes=1 words=9 depth=1

the same as the board has it: a wider box for the profile
shape 800 0 end rel 0 0 box 0 1024 0 0 depth 0 words 5 scale 0
board accepted shapes=1 words=9 depth=1

the same from the right edge
frame A000 03FF C800 B000
board refused 46 frame at 002
refused 46 frame at 002

255 units there and back, as the profile has it: a wider box for the board
rom 800 0000 70FF 0000 74FF D000
shape 800 0 end rel 0 0 box 0 510 0 0 depth 0 words 5 scale 0
frame A000 0000 C800 B000
board accepted shapes=1 words=9 depth=1
accepted shapes=1 words=9 depth=1

the same as the board has it
shape 800 0 end rel 0 0 box 0 0 0 0 depth 0 words 5 scale 0
refused 31 shape 800/0 at 800

half a place, by the profile's end
rom 800 0000 7100 D000
shape 800 0 end rel 512 0 box 0 1024 0 0 depth 0 words 3 scale 0
frame A000 0000 C800 B000
board refused 29 shape 800/0 at 802
accepted shapes=1 words=7 depth=1

the same by the board's end
shape 800 0 end rel 1024 0 box 0 1024 0 0 depth 0 words 3 scale 0
board accepted shapes=1 words=7 depth=1
refused 29 shape 800/0 at 802

a place at effective scale 9, with more words and depth than there are
rom 800 9000 7001 D000
shape 800 0 end rel 1024 0 box 0 1024 0 0 depth 1 words 9 scale 0
frame A000 0000 C800 B000
board accepted shapes=1 words=13 depth=2
accepted shapes=1 words=13 depth=2

the same, where counts are exact
mode exact
board refused 32 shape 800/0 at 802
refused 32 shape 800/0 at 802

a call of a call, twice half a place
rom 800 C802 E802 0000 7100 D000
shape 800 0 end rel 2048 0 box 0 2048 0 0 depth 1 words 8 scale 0
shape 802 0 end rel 1024 0 box 0 1024 0 0 depth 0 words 3 scale 0
frame A000 03FE C800 B000
board refused 46 frame at 002
refused 29 shape 802/0 at 804";

/// Frames that the profile accepts and the board refuses, but for the last, which both accept. `made` names the machines for which
/// the certificate is made: the other machine's judges a made shape as its own moves have it.
const DRIFTS: &str = "\
half a place right and up, and a unit less left and down
made profile board
frame A3FE 03FE 0100,7100,04FF,74FF*255 B000
board refused 46 frame at 006
accepted shapes=0 words=1023 depth=0

509 dark draws at effective scale 10, and a lit one back
made profile board
frame A200 1000 9000,03FF*509 7000 77F9 B000
board refused 46 frame at 3FC
accepted shapes=0 words=1023 depth=0

a hundred dark draws of half a place
made profile board
frame A200 03FF 9000 0432 0000,0100*100 9000 7000 B000
board refused 46 frame at 0CC
accepted shapes=0 words=207 depth=0

the same of a unit less than half a place
frame A200 0000 9000 0000*2 00FF,0000*99 00FF 9000 7431 B000

a shape of short draws over effective scale 9 and one below, by the profile
made profile
rom 800 FF7F,FF7F,FF7F,FF7F,4003,7003*170 D000*4
shape 800 5 end rel 0 0 box -3072 0 -3072 0 depth 0 words 1021 scale 5
frame A200 5200 C800*19 B000
board refused 31 shape 800/5 at 804
accepted shapes=1 words=19421 depth=1

the same, called 970 times
frame A200 5200 C800*970 B000
budget 1000000
accepted shapes=1 words=991343 depth=1

the same shape on the board
made board
shape 800 5 end rel 522240 522240 box 0 522240 0 522240 depth 0 words 1021 scale 5
board refused 46 frame at 003
refused 31 shape 800/5 at 800

the same, called 19 times
frame A200 5200 C800*19 B000
budget 20000

a shape of half places and a unit less, by the profile
made profile
rom 800 0100,7100,04FF,74FF*255 D000*4
shape 800 0 end rel 510 510 box 0 1020 0 1020 depth 0 words 1021 scale 0
frame A200 0200 C800*19 B000
board refused 31 shape 800/0 at 800
accepted shapes=1 words=19421 depth=1

the same halves on the board
made board
shape 800 0 end rel 261120 261120 box 0 261120 0 261120 depth 0 words 1021 scale 0
board refused 46 frame at 004
refused 29 shape 800/0 at BFC

a closed outline, which drifts by a place a call on the board, by the profile
made profile
rom 800 7082 7101 7581 7101*2 7582 7402 7480 D000*1016
shape 800 9 end rel 0 0 box 0 1028 -510 260 depth 0 words 9 scale 9
frame A200 9200 C800*400 B000
board refused 31 shape 800/9 at 802
accepted shapes=1 words=4003 depth=1

the same outline on the board
made board
shape 800 9 end rel 1024 0 box 0 2048 -1024 0 depth 0 words 9 scale 9
board accepted shapes=1 words=4003 depth=1
refused 31 shape 800/9 at 800";

/// Frames by their own certificates, in windows: what lies outside is lit by a shape at an absolute place, or by the frame, where
/// a shape ends at a relative one.
const WINDOWS: &str = "\
usually the certificate is the one that the profile's maker makes
made profile

a shape that lights from 400,100 to 401,100 wherever it is called
rom 800 A064 0190 9000 7001 D000*1020
shape 800 any end abs 410624 102400 box none depth 0 words 5 scale 0
frame C800 B000
window 400,401,100,100
accepted shapes=1 words=7 depth=1

the same, where the window ends at 400
window 400,400,100,100
refused 25 shape 800/any at 802

a shape that lights one place to the right of its call at 400,100
rom 800 9000 7001 D000*1022
shape 800 0 end rel 1024 0 box 0 1024 0 0 depth 0 words 3 scale 0
frame A064 0190 C800 B000
window 400,401,100,100
accepted shapes=1 words=7 depth=1

the same box, where the window ends at 400
window 400,400,100,100
refused 46 frame at 002

a shape that sets the place and one that does not, where the second is lit past the window by the frame
rom 800 A064 0190 9000 7001 D000*4 9001 7000 D000*1014
shape 800 any end abs 410624 102400 box none depth 0 words 5 scale 0
shape 808 0 end rel 0 1024 box 0 0 0 1024 depth 0 words 3 scale 0
frame C800 C808*2 B000
window 400,401,100,101
refused 46 frame at 002";

#[test]
fn judges_rows_on_both(rt: HostRuntime) {
    judge_rows(&rt, rt.alloc(), ROWS);
    judge_rows(&rt, rt.alloc(), DRIFTS);
}

/// What a machine's verdict on a row's frame is by the certificate made for it; `None` where that certificate is not the row's.
fn judge_made(
    rt: &impl Abort,
    alloc: Global,
    machine: Machine,
    row: &Inputs,
) -> Option<Result<Yes, Refusal>> {
    let wanted = read_cert(alloc, &row.text).expect(rt, "a certificate");
    let rom = RomImage::from_bytes_on(machine, &row.rom, wanted.map()).expect(rt, "a ROM");
    let frame = frame_of(&row.frame, row.asked.budget).expect(rt, "a frame");
    let made = make_for_frames(alloc, &rom, &[], slice::from_ref(&frame));
    let made = made.ok()?;
    if made.entries() != wanted.entries() {
        return None;
    }
    match judge(alloc, &rom, &frame, row.asked.budget, row.asked.window) {
        Ok(yes) => Some(Ok(yes)),
        Err(FrameRefusal::Check(refusal)) => Some(Err(refusal)),
        Err(_) => None,
    }
}

/// Stops the test unless the row's certificate is the one that a machine makes, and its report that of the verdict by it.
fn expect_made(rt: &impl Abort, alloc: Global, machine: Machine, row: &Row, report: &str) {
    let verdict = judge_made(rt, alloc, machine, &row.inputs(rt, alloc));
    expect(rt, verdict.is_some(), &("the certificate of", row.lines));
    let line = report_of(&verdict.expect(rt, "a verdict"));
    let is = line.as_bytes().strip_suffix(b"\n") == Some(report.as_bytes());
    expect(rt, is, &(machine, row.lines));
}

/// Stops the test unless the certificates of a table's rows are those that their machines make.
fn make_rows(rt: &impl Abort, alloc: Global, table: &str) {
    for row in &read_rows(rt, alloc, table) {
        for made in row.made.split_whitespace() {
            match made {
                "board" => expect_made(rt, alloc, Machine::Board, row, row.board),
                _ => expect_made(rt, alloc, Machine::Profile, row, row.report),
            }
        }
    }
}

#[test]
fn makes_by_the_machine(rt: HostRuntime) {
    make_rows(&rt, rt.alloc(), DRIFTS);
    make_rows(&rt, rt.alloc(), WINDOWS);
}
