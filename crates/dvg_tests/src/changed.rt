//! Certificates and frames that are cut short or changed, each in every way of its kind.
//!
//! What is swept here in one place is proved of all texts and frames, so one text and one frame are enough. `read_cert` and a
//! `CertReader` fed in pieces answer as the same definition does for all the bytes, and that has one answer to a text (law
//! `one_answer`), so they agree on every text, however it is cut (`cut_refusal`). A text that is taken is the only one of its
//! list (`one_text`, `one_certificate`), so it is written back as it was (`read_back`). And `check` returns, whatever its bytes.

use crate::certificates::{answer_of, fed};
use crate::expecting::{expect, expect_same};
use crate::inputs::{STROKE, STROKE_CERT, rom_of};
use crate::table::{Inputs, read_rows};
use dvg_check::{Refusal, Yes};
use dvg_text::read_cert;
use dvg_verdict::check;
use dvg_words::{Machine, SCREEN};
use std::alloc::Global;
use std::process::Abort;

/// Four shapes that call one another, and a frame that calls the first.
const FOUR: &str = "\
four calls in one another
rom 800 C802 D000 C804 D000 C806 D000 D000
shape 800 0 end rel 0 0 box none depth 3 words 7 scale 0
shape 802 0 end rel 0 0 box none depth 2 words 5 scale 0
shape 804 0 end rel 0 0 box none depth 1 words 3 scale 0
shape 806 0 end rel 0 0 box none depth 0 words 1 scale 0
frame A000 0000 C800 B000";

/// The inputs of these shapes.
fn four(rt: &impl Abort, alloc: Global) -> Inputs {
    let rows = read_rows(rt, alloc, FOUR);
    rows.first().expect(rt, "a row").inputs(rt, alloc)
}

/// The certificate of the four shapes, cut after each of its bytes but the last, and before the first: refused at the line that is
/// cut.
#[test]
fn cut_certificates(rt: HostRuntime) {
    let four = four(&rt, rt.alloc());
    let text = four.text.as_slice();
    let mut line = 1usize;
    for at in 0..text.len() {
        let report = format!(in rt.alloc(); "refused 13 certificate line {line}");
        let report = report.expect(&rt, "memory");
        let mut case = four.case(Machine::Profile);
        case.text = &text[..at];
        expect(&rt, case.is_reported(rt.alloc(), &report), &at);
        if text[at] == b'\n' {
            line = line.saturating_add(1);
        }
    }
}

/// How many bytes are left of the frame that calls them, and the report. It is refused by its length where half a word or nothing is left.
const CUT_FRAMES: &[(usize, &str)] = &[
    (0, "refused 2"),
    (1, "refused 2"),
    (2, "refused 40 frame at 000"),
    (3, "refused 2"),
    (4, "refused 40 frame at 002"),
    (5, "refused 2"),
    (6, "refused 40 frame at 003"),
    (7, "refused 2"),
    (8, "accepted shapes=4 words=11 depth=4"),
];

#[test]
fn cut_frames(rt: HostRuntime) {
    let four = four(&rt, rt.alloc());
    for &(len, report) in CUT_FRAMES {
        let mut case = four.case(Machine::Profile);
        case.frame = four.frame.get(..len).expect(&rt, "a frame");
        expect(&rt, case.is_reported(rt.alloc(), report), &len);
    }
}

/// The certificate of a shape that sets its place.
const PLACE_CERT: &[u8; 86] =
    b"dvgcert 1\nshape 800 any end abs 409600 102400 box none depth 0 words 3 scale 0\ndone 1\n";

/// Whether a text is taken, read whole and byte by byte.
fn is_taken(rt: &impl Abort, alloc: Global, text: &[u8]) -> bool {
    let whole = answer_of(rt, alloc, text, read_cert(alloc, text));
    expect_same(rt, &fed(rt, alloc, text, 1, 1), &whole, &text);
    whole.is_ok()
}

/// Each byte of a certificate, replaced by each other value. Taken are another address (3 by its first digit, 15 by each other
/// one), x and y (8 and 5 times 9 each), a depth of 1 to 3, words of 1, 2 and 4 to 9, and a scale of 1 to 9: 159 texts.
#[test]
fn changed_certificates(rt: HostRuntime) {
    let mut text = *PLACE_CERT;
    let mut taken = 0u32;
    for at in 0..86 {
        let byte = text[at];
        for other in 0..=255u8 {
            text[at] = other;
            if is_taken(&rt, rt.alloc(), &text) && other != byte {
                taken = taken.saturating_add(1);
            }
        }
        text[at] = byte;
    }
    assert_eq!(rt; taken, 159);
}

/// The number that answers a frame of this word and `B000`, over a shape with an entry for scale 0; 0 where it is accepted.
fn answer_to(word: u16) -> u8 {
    match word >> 12 {
        // A draw at a lost place, lit by the second word.
        0..=9 => 44,
        // A LABS, odd or not, behind which nothing is left.
        0xA if word & 0x0C00 != 0 => 41,
        0xA => 40,
        0xB => 0,
        // A call at unknown scale.
        0xC => 47,
        0xD => 42,
        0xE => match word & 0x0FFF {
            0 => 43,
            1 => 0,
            _ => 40,
        },
        // A draw at a lost place, lit or dark.
        _ if word & 0x00F0 != 0 => 44,
        _ => 0,
    }
}

/// The number of a verdict's refusal, or 0.
fn number_of(verdict: Result<Yes, Refusal>) -> u8 {
    match verdict {
        Ok(_) => 0,
        Err(refusal) => refusal.number(),
    }
}

/// Each word as the first of a frame.
#[test]
fn each_first_word(rt: HostRuntime) {
    let rom = rom_of(&rt, rt.alloc(), STROKE);
    for word in 0..=0xFFFFu16 {
        let [low, high] = word.to_le_bytes();
        let frame = [low, high, 0x00, 0xB0];
        let verdict = check(rt.alloc(), &rom, STROKE_CERT, &frame, 20000, SCREEN);
        expect_same(&rt, &number_of(verdict), &answer_to(word), &word);
    }
}
