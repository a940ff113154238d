//! Causes of refusals that a short input has, and what a board clips, worked by hand. Calls, losses, chains and margins are in the
//! accounts that tests/explain has of the program.

use crate::expecting::{expect, expect_same};
use crate::inputs::{EMPTY, bytes_of, rom_of};
use crate::table::text_of_entries;
use dvg_cert::{HashIndex, ListIndex};
use dvg_check::{FrameCause, JudgedShapes, Mode, ShapeCause, judge_shapes};
use dvg_cmd::report_of;
use dvg_survey::{CallPlaces, Rectangle, entry_places, survey_frame};
use dvg_text::read_cert;
use dvg_verdict::check_on;
use dvg_words::{CLIPPED, FrameImage, Machine, RomImage, SCREEN};
use std::alloc::{AllocError, Global};
use std::fmt::{Debug, Write};
use std::process::Abort;

/// A ROM with a stroke of one screen place to the right at 800, and RTSL.
const SHORT: &str = "800 9000 7001 D000";

/// Frames with a budget of three words and no entry: the word address of the refusal, its cause, and the words. Lines that begin with `;`
/// say what rows show.
const FRAMES: &str = "\
; a LABS whose second word is not there, RTSL, JMPL 000, and a lit stroke before any LABS
000 Unmapped: A200
000 ReturnInFrame: D000
000 BackJump(0): E000
000 BeamUnknown: 9000 7001
; LABS to 0,512 at global scale 0, and a lit stroke of one screen place to the left
002 OffScreen(Leaving { corner: Point { x: -1024, y: 524288 }, edge: Left, by: 1024 }): A200 0000 9000 7401
; the same LABS, and JSRL 800
002 NoEntry { to: 2048, scale: At(0) }: A200 0000 C800
; two of it
002 Budget(1): A200 0000 A200 0000";

/// The word and the cause for which a frame over a certificate without entries is refused.
fn explain_frame(rt: &impl Abort, alloc: Global, words: &str) -> (u16, FrameCause) {
    let bytes = rom_of(rt, alloc, SHORT);
    let cert = read_cert(alloc, EMPTY).expect(rt, "a certificate");
    let rom = RomImage::from_bytes(&bytes, cert.map()).expect(rt, "a ROM");
    let words = bytes_of(rt, alloc, words);
    let frame = FrameImage::from_bytes(&words).expect(rt, "a frame");
    let entries = ListIndex::new(&cert);
    let judged = JudgedShapes::judge(&rom, &cert, &entries, SCREEN, Mode::Bound);
    let shapes = judged.expect(rt, "shapes");
    let judged = shapes.judge_frame(&frame, 3);
    let finding = judged.expect_err(rt, "a refusal");
    (finding.fault.word, finding.cause)
}

/// Entries for the ROM: the word address of the refusal, its cause, and the entry; the shape ends one place to the right, lights that
/// far, has three words and leaves scale 0.
const ENTRIES: &str = "\
800 ScaleUnknown: shape 800 any end rel 1024 0 box 0 1024 0 0 depth 0 words 3 scale any
802 TooManyWords(1): shape 800 0 end rel 1024 0 box 0 1024 0 0 depth 0 words 2 scale 0
802 EndDiffers(Rel { x: 1024, y: 0 }): shape 800 0 end rel 0 0 box 0 1024 0 0 depth 0 words 3 scale 0
802 ScaleDiffers(At(0)): shape 800 0 end rel 1024 0 box 0 1024 0 0 depth 0 words 3 scale 1
800 BoxTooSmall(Past(Leaving { corner: Point { x: 1024, y: 0 }, edge: Right, by: 512 })): shape 800 0 end rel 1024 0 box 0 512 0 0 depth 0 words 3 scale 0
800 BoxTooSmall(Empty(Point { x: 0, y: 0 })): shape 800 0 end rel 1024 0 box none depth 0 words 3 scale 0
802 WordsDiffer(3): shape 800 0 end rel 1024 0 box 0 1024 0 0 depth 0 words 4 scale 0
802 DepthDiffers(0): shape 800 0 end rel 1024 0 box 0 1024 0 0 depth 1 words 3 scale 0";

/// The word and the cause for which the shape of an entry, its counts taken as exact, is refused.
fn explain_entry(rt: &impl Abort, alloc: Global, entry: &str) -> (u16, ShapeCause) {
    let bytes = rom_of(rt, alloc, SHORT);
    let text = text_of_entries(rt, alloc, "800 BFF", entry);
    let cert = read_cert(alloc, &text).expect(rt, "a certificate");
    let rom = RomImage::from_bytes(&bytes, cert.map()).expect(rt, "a ROM");
    let entries = HashIndex::new(alloc, &cert).expect(rt, "an index");
    let judged = judge_shapes(&rom, &cert, &entries, &SCREEN, Mode::Exact);
    let finding = judged.expect_err(rt, "a refusal");
    (finding.fault.word, finding.cause)
}

/// Stops the test unless these are the word and the cause of a row.
fn expect_cause<C: Debug>(rt: &impl Abort, alloc: Global, told: &(u16, C), want: &str) {
    let (word, cause) = told;
    let told = format!(in alloc; "{word:03X} {cause:?}").expect(rt, "memory for a line");
    expect_same(rt, &told.as_str(), &want, &want);
}

#[test]
fn explains_refusals(rt: HostRuntime) {
    for row in FRAMES.lines() {
        if !row.starts_with(";") {
            let (want, words) = row.rsplit_once(": ").expect(&rt, "a row");
            let told = explain_frame(&rt, rt.alloc(), words);
            expect_cause(&rt, rt.alloc(), &told, want);
        }
    }
    for row in ENTRIES.lines() {
        let (want, entry) = row.rsplit_once(": ").expect(&rt, "a row");
        let told = explain_entry(&rt, rt.alloc(), entry);
        expect_cause(&rt, rt.alloc(), &told, want);
    }
}

/// The certificate of a stroke at 800 from ten places left of the call to ten right of it.
const WIDE_CERT: &[u8] =
    b"dvgcert 1\nshape 800 0 end rel 10240 0 box -10240 10240 0 0 depth 0 words 5 scale 0\ndone 1\n";

/// That stroke's ROM.
const WIDE: &str = "800 9000 040A 9000 7014 D000";

/// Frames that a board judges for the zone that it clips: the verdict's line, the word addresses of the items that light past the screen,
/// and the words. Lines that begin with `;` say what rows show.
const CLIPPED_FRAMES: &str = "\
; strokes over the left, the right, the lower and the upper edge, one that stays on the screen, a dark move from -5 to the left edge, and a
; call at 4, whose box reaches to -6
accepted shapes=1 words=33 depth=1, at 002 006 00A 00E 01A: A064 0000 9000 7405 A064 03FF 9000 7005 A000 0064 9407 7000 \
A3FF 0064 9008 7000 A064 0064 9005 7005 A064 0FFB 9000 0005 A064 0004 C800 B000
; a stroke from corner to corner, and a call at 10, whose box begins at the left edge
accepted shapes=1 words=13 depth=1, at: A000 0000 93FF 73FF A064 000A C800 B000
; a call at 2037, whose box reaches to 2047, and one at 2038
accepted shapes=1 words=9 depth=1, at 002: A064 07F5 C800 B000
refused 46 frame at 002, at 002: A064 07F6 C800 B000
; a stroke from -1023 to -1025
refused 46 frame at 002, at 002: A064 0C01 9000 7402 B000";

/// The word addresses of a frame's items that light past the screen on a board.
fn clipped_items(rt: &impl Abort, alloc: Global, frame: &[u8]) -> Vec<u16> {
    let cert = read_cert(alloc, WIDE_CERT).expect(rt, "a certificate");
    let frame = FrameImage::from_bytes(frame).expect(rt, "a frame");
    let entries = ListIndex::new(&cert);
    let survey = survey_frame(Machine::Board, alloc, &cert, &entries, &frame);
    survey.expect(rt, "memory for the survey").clipped
}

/// What a board judges of a frame for the zone that it clips, and the word addresses of its items that light past the screen.
fn told_of_clipped(rt: &impl Abort, alloc: Global, frame: &[u8]) -> Result<String, AllocError> {
    let rom = rom_of(rt, alloc, WIDE);
    let (machine, mode) = (Machine::Board, Mode::Exact);
    let verdict = check_on(
        machine, alloc, &rom, WIDE_CERT, frame, 20_000, CLIPPED, mode,
    );
    let report = report_of(&verdict);
    let line = str::from_utf8(report.as_bytes()).unwrap_or("");
    let mut told = format!(in alloc; "{}, at", line.trim_end())?;
    for at in &clipped_items(rt, alloc, frame) {
        write!(told, " {at:03X}")?;
    }
    Ok(told)
}

#[test]
fn tells_clipped(rt: HostRuntime) {
    for row in CLIPPED_FRAMES.lines() {
        if !row.starts_with(";") {
            let (want, words) = row.split_once(": ").expect(&rt, "a row");
            let frame = bytes_of(&rt, rt.alloc(), words);
            let told = told_of_clipped(&rt, rt.alloc(), &frame).expect(&rt, "memory for a line");
            expect_same(&rt, &told.as_str(), &want, &words);
        }
    }
}

/// The places of a rectangle.
fn within([x_min, x_max, y_min, y_max]: [i64; 4]) -> CallPlaces {
    CallPlaces::Within(Rectangle {
        x_min,
        x_max,
        y_min,
        y_max,
    })
}

#[test]
fn tells_places(rt: HostRuntime) {
    let cert = read_cert(rt.alloc(), WIDE_CERT).expect(&rt, "a certificate");
    let bytes = rom_of(&rt, rt.alloc(), WIDE);
    let rom = RomImage::from_bytes_on(Machine::Board, &bytes, cert.map()).expect(&rt, "a ROM");
    let entries = ListIndex::new(&cert);
    // the wide stroke's box goes from -10 to 10 across
    for (window, places) in [
        (SCREEN, [10, 1013, 0, 1023]),
        (CLIPPED, [-1014, 2037, -1024, 2047]),
    ] {
        let told = entry_places(rt.alloc(), &rom, &cert, &entries, &window);
        let told = told.expect(&rt, "memory for the places");
        expect(&rt, told.len() == 1, &window);
        for entry in &told {
            expect_same(&rt, &entry.places, &within(places), &window);
        }
    }
}
