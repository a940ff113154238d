//! Where refused lines of certificates leave the form, worked by hand; that no column is too small; and lines that are cut into pieces.

use crate::expecting::{expect, expect_same};
use dvg_text::{
    CertReader, EntryCounts, FormLeaving, LineWhy, RefusedText, first_leaving, later_leaving,
    rom_leaving,
};
use dvg_words::ASTEROIDS;
use std::alloc::Global;
use std::process::Abort;

/// What the rows call each token, and behind it how it is told that it was expected.
const EXPECTED: &str = "\
Version `dvgcert 1` or `dvgcert 2`; then the line's end
Rom `rom`; then a space
RomFirst the word address of the ROM's first word, three of 0-9 and A-F, 400 to BFF; then a space
RomLast the word address of the ROM's last word, three of 0-9 and A-F, from its first to BFF, but not 800 and BFF; then the line's end
Kind `shape` or `done`; then a space
Address a word address of the ROM, three of 0-9 and A-F; then a space
Key the scale of the call, 0 to 15 or `any`; then a space
End `end`; then a space
EndKind `rel`, `abs` or `lost`; then a space
EndX X of the end, a whole number of 1/1024 places, -2000000000000 to 2000000000000; then a space
EndY Y of the end, a whole number of 1/1024 places, -2000000000000 to 2000000000000; then a space
Box `box`; then a space
BoxLeft `none`, or a box's left side, a whole number of 1/1024 places, -2000000000000 to 2000000000000; then a space
BoxRight a box's right side, at least its left side, a whole number of 1/1024 places, -2000000000000 to 2000000000000; then a space
BoxBottom a box's lower side, a whole number of 1/1024 places, -2000000000000 to 2000000000000; then a space
BoxTop a box's upper side, at least its lower side, a whole number of 1/1024 places, -2000000000000 to 2000000000000; then a space
Depth `depth`; then a space
DepthNumber the depth, 0 to 3; then a space
Words `words`; then a space
WordsNumber the number of words, 1 to 1000000; then a space
Scale `scale`; then a space
ScaleKey the scale that is left behind, 0 to 15 or `any`; then the line's end
Count the number of entries, 0 to 4096; then the line's end";

/// First lines. Each row is what is expected, and a line without its end, with `|` where it leaves the form.
const FIRST_LINES: &[&str] = &[
    "Version |",
    "Version |Dvgcert 1",
    "Version dvgcert | 1",
    "Version dvgcert |3",
    "Version dvgcert 1|\r",
    "Version dvgcert 2| ",
    "Version dvgcert|",
];

/// Lines that say where the ROM lies.
const ROM_LINES: &[&str] = &[
    "Rom |",
    "Rom r|am 400 7FF",
    "Rom rom|\t400 7FF",
    "RomFirst rom |3FF 7FF",
    "RomFirst rom |C00 C00",
    "RomFirst rom 4|a0 7FF",
    "RomFirst rom 400|-7FF",
    "RomFirst rom | 400 7FF",
    "RomLast rom 500 |400",
    "RomLast rom 57F 57|9",
    "RomLast rom 400 |C00",
    "RomLast rom 800 BF|F",
    "RomLast rom 400 7F|",
    "RomLast rom 400 7FF|\r",
];

/// Later lines, over the map of Asteroids.
const LATER_LINES: &[&str] = &[
    "Kind |",
    "Kind shap|",
    "Kind |Shape 800 0 end rel 0 0 box none depth 0 words 1 scale 0",
    "Kind shape|\t800 0 end rel 0 0 box none depth 0 words 1 scale 0",
    "Address shape | 800 0 end rel 0 0 box none depth 0 words 1 scale 0",
    "Address shape |7FF 0 end rel 0 0 box none depth 0 words 1 scale 0",
    "Address shape |C00 0 end rel 0 0 box none depth 0 words 1 scale 0",
    "Address shape 80|a 0 end rel 0 0 box none depth 0 words 1 scale 0",
    "Address shape 800|/0 end rel 0 0 box none depth 0 words 1 scale 0",
    "Key shape 800 1|6 end rel 0 0 box none depth 0 words 1 scale 0",
    "Key shape 800 0|0 end rel 0 0 box none depth 0 words 1 scale 0",
    "Key shape 800 a|ll end rel 0 0 box none depth 0 words 1 scale 0",
    "Key shape 800 |-1 end rel 0 0 box none depth 0 words 1 scale 0",
    "End shape 800 0 |End rel 0 0 box none depth 0 words 1 scale 0",
    "EndKind shape 800 0 end re|t 0 0 box none depth 0 words 1 scale 0",
    "EndKind shape 800 0 end ab|t 0 0 box none depth 0 words 1 scale 0",
    "EndKind shape 800 0 end los| box none depth 0 words 1 scale 0",
    "EndKind shape 800 0 end |0 0 box none depth 0 words 1 scale 0",
    "EndX shape 800 0 end rel -|0 0 box none depth 0 words 1 scale 0",
    "EndX shape 800 0 end rel |+5 0 box none depth 0 words 1 scale 0",
    "EndX shape 800 0 end abs 0|5 0 box none depth 0 words 1 scale 0",
    "EndX shape 800 0 end rel 200000000000|1 0 box none depth 0 words 1 scale 0",
    "EndY shape 800 0 end rel 0 -200000000000|1 box none depth 0 words 1 scale 0",
    "EndY shape 800 0 end rel 0 |box none depth 0 words 1 scale 0",
    "Box shape 800 0 end rel 0 0 | box none depth 0 words 1 scale 0",
    "Box shape 800 0 end rel 0 0 b|ax none depth 0 words 1 scale 0",
    "BoxLeft shape 800 0 end rel 0 0 box n|ine depth 0 words 1 scale 0",
    "BoxLeft shape 800 0 end rel 0 0 box |x depth 0 words 1 scale 0",
    "BoxLeft shape 800 0 end rel 0 0 box -5|.5 5 -6 6 depth 0 words 1 scale 0",
    "BoxRight shape 800 0 end rel 0 0 box -5 -|6 -6 6 depth 0 words 1 scale 0",
    "BoxRight shape 800 0 end rel 0 0 box 100 5| -6 6 depth 0 words 1 scale 0",
    "BoxBottom shape 800 0 end rel 0 0 box -5 5 |x 6 depth 0 words 1 scale 0",
    "BoxTop shape 800 0 end rel 0 0 box -5 5 6 |-6 depth 0 words 1 scale 0",
    "BoxTop shape 800 0 end rel 0 0 box -5 5 -6 |depth 0 words 1 scale 0",
    "Depth shape 800 0 end rel 0 0 box none |Depth 0 words 1 scale 0",
    "DepthNumber shape 800 0 end rel 0 0 box none depth |4 words 1 scale 0",
    "Words shape 800 0 end rel 0 0 box none depth 0 word| 1 scale 0",
    "WordsNumber shape 800 0 end rel 0 0 box none depth 0 words |0 scale 0",
    "WordsNumber shape 800 0 end rel 0 0 box none depth 0 words 100000|1 scale 0",
    "WordsNumber shape 800 0 end rel 0 0 box none depth 0 words 1|",
    "Scale shape 800 0 end rel 0 0 box none depth 0 words 1 scale|",
    "ScaleKey shape 800 0 end rel 0 0 box none depth 0 words 1 scale |",
    "ScaleKey shape 800 0 end rel 0 0 box none depth 0 words 1 scale 1|6",
    "ScaleKey shape 800 0 end rel 0 0 box none depth 0 words 1 scale 0| ",
    "ScaleKey shape 800 0 end rel 0 0 box none depth 0 words 1 scale 0|\r",
    "Kind done|",
    "Kind d|noe 0",
    "Kind done|\t0",
    "Count done |",
    "Count done |-1",
    "Count done 0|1",
    "Count done 0| ",
    "Count done 0|\r",
    "Count done 500|0",
    "Count done 409|7",
];

/// What is expected, and the bytes before and behind the place where it is.
fn cut(row: &str) -> Option<(&str, &str, &str)> {
    let (expected, marked) = row.split_once(' ')?;
    let (before, behind) = marked.split_once('|')?;
    Some((expected, before, behind))
}

/// How it is told that what has this name was expected.
fn expected_of(rt: &impl Abort, name: &str) -> &'static str {
    for line in EXPECTED.lines() {
        let (known, told) = line.split_once(' ').expect(rt, "a name");
        if known == name {
            return told;
        }
    }
    panic!(rt; "nothing is called {name}")
}

/// The line or the text of a row.
fn bytes_of(rt: &impl Abort, alloc: Global, row: &str) -> Vec<u8> {
    let (_, before, behind) = cut(row).expect(rt, "a row");
    let mut bytes = Vec::from_slice(alloc, before.as_bytes()).expect(rt, "memory");
    bytes
        .extend_from_slice(behind.as_bytes())
        .expect(rt, "memory");
    bytes
}

/// Stops the test unless a line leaves the form where its row says.
fn expect_leaving(rt: &impl Abort, row: &str, leaving: FormLeaving) {
    let (name, before, _) = cut(row).expect(rt, "a row");
    expect_same(rt, &leaving.expected, &expected_of(rt, name), &row);
    let column = before.len().saturating_add(1);
    expect_same(rt, &leaving.column, &column, &row);
}

#[test]
fn columns(rt: HostRuntime) {
    for row in FIRST_LINES {
        let leaving = first_leaving(&bytes_of(&rt, rt.alloc(), row));
        expect_leaving(&rt, row, leaving);
    }
    for row in ROM_LINES {
        let leaving = rom_leaving(&bytes_of(&rt, rt.alloc(), row));
        expect_leaving(&rt, row, leaving);
    }
    for row in LATER_LINES {
        let leaving = later_leaving(ASTEROIDS, &bytes_of(&rt, rt.alloc(), row));
        expect_leaving(&rt, row, leaving);
    }
}

/// Lines of the form, each with all its tokens.
const OF_THE_FORM: &[&[u8]] = &[
    b"shape BFF any end abs -2000000000000 2000000000000 box -10 10 0 7 depth 3 words 1000000 scale 15",
    b"shape 80A 1 end lost box none depth 0 words 10 scale any",
    b"done 4096",
];

/// A byte that is changed may end a line's front, and nothing before it may.
#[test]
fn no_column_is_too_small(rt: HostRuntime) {
    for &line in OF_THE_FORM {
        for at in 0..line.len() {
            for &byte in b" 09aF-" {
                let changed = Vec::from_slice(rt.alloc(), line);
                let mut changed = changed.expect(&rt, "memory for a line");
                if let Some(place) = changed.get_mut(at) {
                    *place = byte;
                }
                let told = later_leaving(ASTEROIDS, &changed);
                expect(&rt, told.column > at, &changed);
            }
        }
    }
}

/// What is told of a text that is refused, in pieces of one size.
fn told_of(alloc: Global, text: &[u8], size: usize) -> Option<LineWhy> {
    let mut reader = CertReader::new(alloc);
    let mut rest = text;
    for _ in 0..=text.len() {
        let (piece, after) = rest.split_at(size.min(rest.len()));
        if let Err(fault) = reader.feed(piece) {
            return reader.into_refused(fault).why();
        }
        rest = after;
    }
    match reader.finish() {
        Ok(_) => None,
        Err(fault) => RefusedText::unended(fault).why(),
    }
}

/// Texts of which a line leaves the form, the column at which it does, and what is expected there.
const LEAVING_TEXTS: &[(&[u8], usize, &str)] = &[
    (b"dvgcert 1\r\ndone 0\r\n", 10, "Version"),
    (b"dvgcert 2\nrom 400 40f\ndone 0\n", 11, "RomLast"),
    (
        b"dvgcert 2\nrom 400 40F\nshape 410 0 end lost box none depth 0 words 1 scale 0\ndone 1\n",
        8,
        "Address",
    ),
];

/// Texts, how many entries they claim, and how many they have.
const COUNTED_TEXTS: &[(&[u8], u16, u32)] = &[
    (
        b"dvgcert 1\nshape 800 0 end lost box none depth 0 words 1 scale 0\ndone 2\n",
        2,
        1,
    ),
    (b"dvgcert 2\nrom 400 7FF\ndone 4096\n", 4096, 0),
];

/// Refused texts of which nothing is told.
const UNTOLD_TEXTS: &[&[u8]] = &[b"dvgcert 1\ndone 0\n\n", b"dvgcert 1\ndone 0"];

/// Stops the test unless this is told of a text, however it is cut.
fn expect_told(rt: &impl Abort, alloc: Global, text: &[u8], want: Option<LineWhy>) {
    for size in 1..=text.len() {
        expect_same(rt, &told_of(alloc, text, size), &want, &(text, size));
    }
}

#[test]
fn pieces(rt: HostRuntime) {
    for &(text, column, name) in LEAVING_TEXTS {
        let expected = expected_of(&rt, name);
        let leaving = FormLeaving { column, expected };
        expect_told(&rt, rt.alloc(), text, Some(LineWhy::Form(leaving)));
    }
    for &(text, claimed, found) in COUNTED_TEXTS {
        let counts = EntryCounts { claimed, found };
        expect_told(&rt, rt.alloc(), text, Some(LineWhy::Count(counts)));
    }
    for text in UNTOLD_TEXTS {
        expect_told(&rt, rt.alloc(), text, None);
    }
}
