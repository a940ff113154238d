//! Verdicts on shapes and frames by calls that the rows don't ask: a shape with a lit stroke and a frame that calls it. And what faults
//! show.

use crate::expecting::{expect, expect_same, expect_shown};
use crate::inputs::{STROKE, STROKE_CERT, STROKE_FRAME, rom_of};
use crate::rows::worked::WORKED;
use crate::table::{Row, read_rows};
use dvg_cert::{Entries, HashIndex, Key, ListIndex};
use dvg_check::{
    Accepted, JudgedShapes, Mode, Refusal, ShapeFault, ShapeWhy, check_frame, check_shapes,
};
use dvg_text::read_cert;
use dvg_words::{FrameImage, Machine, RomImage, SCREEN};
use std::alloc::Global;
use std::process::Abort;

/// Judges the shapes of a vector ROM once, then frame after frame over them, and says whether all frames are safe.
fn are_safe(alloc: Global, rom: &[u8], text: &[u8], frames: &[&[u8]]) -> Result<bool, Refusal> {
    let cert = read_cert(alloc, text)?;
    let rom = RomImage::from_bytes(rom, cert.map())?;
    let Ok(entries) = HashIndex::new(alloc, &cert) else {
        return Err(Refusal::IndexMemory);
    };
    let shapes = JudgedShapes::judge(&rom, &cert, &entries, SCREEN, Mode::Bound)?;
    are_all_safe(&shapes, frames)
}

/// Says whether all frames are safe over shapes that were judged.
fn are_all_safe(shapes: &JudgedShapes<HashIndex>, frames: &[&[u8]]) -> Result<bool, Refusal> {
    for bytes in frames {
        let frame = FrameImage::from_bytes(bytes)?;
        if shapes.check_frame(&frame, 20_000).is_err() {
            return Ok(false);
        }
    }
    Ok(true)
}

/// A frame that calls the shape, HALT alone, and a frame that draws before it sets its place.
#[test]
fn judges_frames_over_judged_shapes(rt: HostRuntime) {
    let frames: [&[u8]; 3] = [
        STROKE_FRAME,
        &[0xB0, 0xB0],
        &[0x00, 0x70, 0x00, 0x70, 0x00, 0xB0],
    ];
    let rom = rom_of(&rt, rt.alloc(), STROKE);
    let are_first_safe = are_safe(rt.alloc(), &rom, STROKE_CERT, &frames[..2]);
    expect_same(&rt, &are_first_safe, &Ok(true), &"the first two");
    let are_three_safe = are_safe(rt.alloc(), &rom, STROKE_CERT, &frames);
    expect_same(&rt, &are_three_safe, &Ok(false), &"all three");
}

/// The certificate of the stroke with a box that is one unit too low.
const LOW_BOX: &[u8] =
    b"dvgcert 1\nshape 800 0 end rel 1047552 785408 box 0 1047552 0 785407 depth 0 words 3 scale 0\ndone 1\n";

/// What the half of the checker that judges shapes says of the low box.
const LOW_BOX_FAULT: ShapeFault = ShapeFault {
    addr: 0x800,
    key: Key::At(0),
    word: 0x800,
    why: ShapeWhy::BoxTooSmall,
};

/// What each half of the checker answers of a certificate, over an index that searches the list: the shapes, and the frame, whose
/// half takes the entry's box as it is claimed.
#[test]
fn judges_halves(rt: HostRuntime) {
    let bytes = rom_of(&rt, rt.alloc(), STROKE);
    let frame = FrameImage::from_bytes(STROKE_FRAME).expect(&rt, "a frame");
    for (text, want) in [(STROKE_CERT, Ok(())), (LOW_BOX, Err(LOW_BOX_FAULT))] {
        let cert = read_cert(rt.alloc(), text).expect(&rt, "a certificate");
        let rom = RomImage::from_bytes(&bytes, cert.map()).expect(&rt, "a ROM");
        let entries = ListIndex::new(&cert);
        assert!(rt; entries.named(0x800, Key::At(0)).is_some());
        assert!(rt; entries.named(0x800, Key::Any).is_none());
        let judged = check_shapes(&rom, &cert, &entries, &SCREEN);
        expect_same(&rt, &judged, &want, &text);
        let judged = check_frame(&rom, &frame, &cert, &entries, 20000, &SCREEN);
        let counts = Ok(Accepted { words: 7, depth: 1 });
        expect_same(&rt, &judged, &counts, &text);
    }
}

/// The numbers of refusals, and their texts behind the place.
const REFUSALS: &str = "\
1 the ROM has a wrong length
2 the frame has a wrong length
11 entries are out of order, or one is repeated
20 a word of the item is outside the ROM
21 the item is an odd LABS
22 the item is HALT
23 it lights at a lost place
24 it lights at unknown scale
25 it lights outside the window
26 it calls a shape that has no entry
27 more return places are needed than claimed
28 more words are needed than claimed
29 the place at the end is not the claimed one
30 the scale at the end is not the claimed one
31 it lights outside the claimed box
32 the words are fewer than claimed
33 the depth is less than claimed
40 a word of the item is outside the frame
41 the item is an odd LABS
42 the item is RTSL
43 the item is a jump to its own address or a lower one
44 it lights at a lost place
45 it lights at unknown scale
46 it lights outside the window
47 it calls a shape that has no entry
48 the words so far are over the budget
49 the budget is out of range";

/// Stops the test unless a refusal has this number, and shows this text behind its place, and so do the fault and the rule of a shape or
/// a frame.
fn expect_refusal(
    rt: &impl Abort,
    alloc: Global,
    refusal: &Refusal,
    place: &str,
    (number, text): (u8, &str),
) {
    expect_same(rt, &refusal.number(), &number, &text);
    expect_shown(rt, alloc, refusal, place, text);
    match refusal {
        Refusal::Shape(fault) => {
            let numbers = [fault.number(), fault.why.number()];
            expect_same(rt, &numbers, &[number; 2], &text);
            expect_shown(rt, alloc, fault, place, text);
            expect_shown(rt, alloc, &fault.why, "", text);
        }
        Refusal::Frame(fault) => {
            let numbers = [fault.number(), fault.why.number()];
            expect_same(rt, &numbers, &[number; 2], &text);
            expect_shown(rt, alloc, fault, place, text);
            expect_shown(rt, alloc, &fault.why, "", text);
        }
        _ => {}
    }
}

/// How many rows report this number, each of which a refusal shows by the row's place and this text.
fn count_shown(rt: &impl Abort, alloc: Global, rows: &[Row], number: u8, text: &str) -> usize {
    let mut count = 0usize;
    let report = format!(in alloc; "refused {number} ").expect(rt, "memory for a report");
    for row in rows {
        let line = format!(in alloc; "{} ", row.report).expect(rt, "memory for a report");
        if let Some(place) = line.strip_prefix(report.as_str()) {
            let inputs = row.inputs(rt, alloc);
            let judged = inputs.case(Machine::Profile).judge_bytes(alloc);
            let refusal = judged.expect_err(rt, "a refusal");
            let place = match place {
                "" => String::new(alloc),
                place => format!(in alloc; "{}: ", place.trim_end()).expect(rt, "memory"),
            };
            expect_refusal(rt, alloc, &refusal, &place, (number, text));
            count = count.saturating_add(1);
        }
    }
    count
}

#[test]
fn shows_refusals(rt: HostRuntime) {
    let rows = read_rows(&rt, rt.alloc(), WORKED);
    for row in REFUSALS.lines() {
        let (number, text) = row.split_once(' ').expect(&rt, "a row");
        let number = number.parse::<u8>().expect(&rt, "a number");
        let count = count_shown(&rt, rt.alloc(), &rows, number, text);
        expect(&rt, count > 0, &row);
    }
    let memory = (50, "out of memory for the index");
    expect_refusal(&rt, rt.alloc(), &Refusal::IndexMemory, "", memory);
}
