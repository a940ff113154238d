//! Texts that are read and written, devices that fail, and what faults show.

mod counted;

use crate::expecting::{expect, expect_same, expect_shown};
use crate::inputs::{EMPTY, STROKE_CERT};
use crate::table::text_of_lines;
use dvg_cert::*;
use dvg_text::*;
use std::alloc::Global;
use std::process::Abort;

/// What a reader answers: how many entries, or the refusal.
pub type Answer = Result<usize, CertFault>;

/// What was answered of a text. What is taken must be written back as it was.
pub fn answer_of(
    rt: &impl Abort,
    alloc: Global,
    text: &[u8],
    read: Result<Cert, CertFault>,
) -> Answer {
    let cert = read?;
    let mut out = Counted::new(Vec::new(alloc));
    let is_written = write_cert(&cert, &mut out).is_ok();
    expect(rt, is_written && out.into_inner().as_slice() == text, &text);
    Ok(cert.entries().len())
}

/// Whether a reader that was refused answers the same to what comes after it, and at its end.
fn is_refused_for_good(reader: CertReader, fault: CertFault) -> bool {
    let mut reader = reader;
    let fed = reader.feed(b"done 0\n");
    fed == Err(fault) && reader.finish().err() == Some(fault)
}

/// Feeds pieces of one size after a first one. A refusal must stay, whatever comes.
pub fn fed(rt: &impl Abort, alloc: Global, text: &[u8], first: usize, size: usize) -> Answer {
    let mut reader = CertReader::new(alloc);
    let mut rest = text;
    let mut most = first;
    for _ in 0..=text.len() {
        let (piece, after) = rest.split_at(most.min(rest.len()));
        if let Err(fault) = reader.feed(piece) {
            expect(rt, is_refused_for_good(reader, fault), &fault);
            return Err(fault);
        }
        rest = after;
        most = size;
    }
    answer_of(rt, alloc, text, reader.finish())
}

/// The answer to a text, in one piece, byte by byte, and cut everywhere.
fn check_row(rt: &impl Abort, alloc: Global, text: &[u8], want: Answer) {
    let whole = answer_of(rt, alloc, text, read_cert(alloc, text));
    expect_same(rt, &whole, &want, &text);
    expect_same(rt, &fed(rt, alloc, text, 1, 1), &want, &text);
    for at in 0..=text.len() {
        let cut = fed(rt, alloc, text, at, text.len());
        expect_same(rt, &cut, &want, &(text, at));
    }
}

/// Texts, with `|` for each LF. Before each stand `ok` and how many entries it has, or the reason and the line of its refusal. Lines are
/// counted from the first, and the line of the ROM counts. Lines that begin with `;` say what rows show.
const TEXTS: &str = "\
ok 0: dvgcert 1|done 0|
ok 1: dvgcert 1|shape 800 0 end rel 1047552 785408 box 0 1047552 0 785408 depth 0 words 3 scale 0|done 1|
ok 1: dvgcert 1|shape BFF any end rel -2000000000000 -2000000000000 box -2000000000000 -2000000000000 -2000000000000 -2000000000000 depth 3 words 1000000 scale any|done 1|
ok 0: dvgcert 2|rom 400 7FF|done 0|
ok 0: dvgcert 2|rom 400 BFF|done 0|
ok 0: dvgcert 2|rom BFF BFF|done 0|
ok 1: dvgcert 2|rom 400 7FF|shape 400 0 end rel 1047552 785408 box 0 1047552 0 785408 depth 0 words 3 scale 0|done 1|
Count 2: dvgcert 1|done 1|
Order 3: dvgcert 1|shape 800 0 end rel 1047552 785408 box 0 1047552 0 785408 depth 0 words 3 scale 0|shape 800 0 end rel 1047552 785408 box 0 1047552 0 785408 depth 0 words 3 scale 0|done 2|
Order 3: dvgcert 1|shape 800 any end lost box none depth 0 words 1 scale 0|shape 800 15 end lost box none depth 0 words 1 scale 0|done 2|
After 3: dvgcert 1|done 0||
Form 1: dvgcert 1\r|done 0\r|
Form 1: dvgcert 3|
; an entry past the ROM's last word
Form 3: dvgcert 2|rom 400 7FF|shape 800 0 end rel 0 0 box none depth 0 words 3 scale 0|done 1|
After 4: dvgcert 2|rom 400 7FF|done 0|x
; lines of entries that are taken
Unended 3: dvgcert 1|shape 800 0 end lost box none depth 3 words 1 scale any|
Unended 3: dvgcert 1|shape 800 15 end abs 2000000000000 0 box 0 0 -1 -1 depth 0 words 1000000 scale 15|
; lines that are not of the format, or not the second line behind `dvgcert 1`
Form 2: dvgcert 1|done 00|
Form 2: dvgcert 1|done 4097|
Form 2: dvgcert 1|rom 400 7FF|
Form 2: dvgcert 1|shape 800 0 end lost box none depth 4 words 1 scale 0|
Form 2: dvgcert 1|shape 800 0 end lost box 1 0 0 0 depth 0 words 1 scale 0|
Form 2: dvgcert 1|shape 800 0 end lost box 0 0 1 0 depth 0 words 1 scale 0|
Form 2: dvgcert 1|shape 800 0 end lost box none depth 0 words 0 scale 0|
Form 2: dvgcert 1|shape 800 0 end lost box none depth 0 words 1000001 scale 0|
Form 2: dvgcert 1|shape 80a 0 end lost box none depth 0 words 1 scale 0|
Form 2: dvgcert 1|shape 7FF 0 end lost box none depth 0 words 1 scale 0|
Form 2: dvgcert 1|shape C00 0 end lost box none depth 0 words 1 scale 0|
Form 2: dvgcert 1|shape 800 16 end lost box none depth 0 words 1 scale 0|
Form 2: dvgcert 1|shape 800 00 end lost box none depth 0 words 1 scale 0|
Form 2: dvgcert 1|shape 800 0 end rel -0 0 box none depth 0 words 1 scale 0|
Form 2: dvgcert 1|shape 800 0 end rel +1 0 box none depth 0 words 1 scale 0|
Form 2: dvgcert 1|shape 800 0 end rel 01 0 box none depth 0 words 1 scale 0|
Form 2: dvgcert 1|shape 800 0 end rel 2000000000001 0 box none depth 0 words 1 scale 0|
Form 2: dvgcert 1|shape 800 0 end rel 0 -2000000000001 box none depth 0 words 1 scale 0|
Form 2: dvgcert 1|shape 800 0 end lost box none depth 0 words 1 scale 0\r|
Form 2: dvgcert 1|shape 800 0  end lost box none depth 0 words 1 scale 0|
Form 2: dvgcert 1|shape 800 0 end lost box none depth 0 words 1 scale 0 |
; no second line behind `dvgcert 2`: no map, the usual map, ends swapped, a map that begins below the ROM's part of the memory, one that
; ends above it, and small letters
Form 2: dvgcert 2|done 0|
Form 2: dvgcert 2|rom 800 BFF|
Form 2: dvgcert 2|rom 7FF 400|
Form 2: dvgcert 2|rom 3FF 7FF|
Form 2: dvgcert 2|rom 400 C00|
Form 2: dvgcert 2|rom 400 7ff|";

#[test]
fn texts(rt: HostRuntime) {
    for row in TEXTS.lines() {
        if !row.starts_with(";") {
            let (want, lines) = row.split_once(": ").expect(&rt, "a row");
            let text = text_of_lines(&rt, rt.alloc(), lines);
            let answer = answer_of(&rt, rt.alloc(), &text, read_cert(rt.alloc(), &text));
            let told = match answer {
                Ok(entries) => format!(in rt.alloc(); "ok {entries}"),
                Err(CertFault { line, why }) => format!(in rt.alloc(); "{why:?} {line}"),
            };
            expect_same(&rt, &told.expect(&rt, "memory").as_str(), &want, &lines);
            check_row(&rt, rt.alloc(), &text, answer);
        }
    }
}

/// Lines of 200 and of 199 bytes, with and without an end.
#[test]
fn long_lines(rt: HostRuntime) {
    let refused = |why: CertWhy| Err(CertFault { line: 1, why });
    let mut line = [b'a'; 200];
    check_row(&rt, rt.alloc(), &line, refused(CertWhy::TooLong));
    check_row(&rt, rt.alloc(), &line[..199], refused(CertWhy::Unended));
    line[199] = b'\n';
    check_row(&rt, rt.alloc(), &line, refused(CertWhy::Form));
}

/// A text of two lines, and one of three: cut, each is refused at the line that is cut.
#[test]
fn unended_texts(rt: HostRuntime) {
    let why = CertWhy::Unended;
    let short_texts: [&[u8]; 2] = [EMPTY, b"dvgcert 2\nrom 400 7FF\ndone 0\n"];
    for text in short_texts {
        let mut line = 1u32;
        for at in 0..text.len() {
            check_row(&rt, rt.alloc(), &text[..at], Err(CertFault { line, why }));
            line = line.saturating_add(u32::from(text[at] == b'\n'));
        }
    }
    for at in 0..STROKE_CERT.len() - 7 {
        let answer = fed(&rt, rt.alloc(), &STROKE_CERT[..at], 7, 7);
        expect(&rt, answer.is_err(), &at);
    }
}

/// The entries of a certificate are one, for its own map alone, and twice the same entry is none.
#[test]
fn from_entries(rt: HostRuntime) {
    let cert = read_cert(rt.alloc(), STROKE_CERT).expect(&rt, "a certificate");
    assert_eq!(rt; cert.rom(), (0x800, 0xBFF));
    let mut twice = Vec::from_slice(rt.alloc(), cert.entries()).expect(&rt, "memory");
    twice
        .extend_from_slice(cert.entries())
        .expect(&rt, "memory");
    let mut once = Cert::from_entries(twice, cert.rom())
        .err()
        .expect(&rt, "an entry twice");
    once.pop();
    let once = Cert::from_entries(once, (0x400, 0x7FF))
        .err()
        .expect(&rt, "another map");
    let once = Cert::from_entries(once, (0xBFF, 0x800))
        .err()
        .expect(&rt, "ends swapped");
    let again = Cert::from_entries(once, cert.rom()).expect(&rt, "the same entries");
    assert_eq!(rt; again.entries(), cert.entries());
}

/// The refusals, their numbers and their texts.
const FAULTS: &[(CertWhy, u8, &str)] = &[
    (CertWhy::Form, 10, "the line is not one of the format"),
    (
        CertWhy::Order,
        11,
        "entries are out of order, or one is repeated",
    ),
    (
        CertWhy::Count,
        12,
        "the number of entries is not that of the last line",
    ),
    (
        CertWhy::Unended,
        13,
        "the text ends before a whole `done` line",
    ),
    (CertWhy::After, 14, "something comes after the last line"),
    (CertWhy::TooLong, 15, "the line or the list is too long"),
    (CertWhy::Memory, 16, "there is no memory for the entry"),
];

#[test]
fn shows_faults(rt: HostRuntime) {
    for &(why, number, text) in FAULTS {
        let fault = CertFault { line: 4098, why };
        expect_same(&rt, &[why.number(), fault.number()], &[number; 2], &text);
        expect_shown(&rt, rt.alloc(), &why, "", text);
        expect_shown(&rt, rt.alloc(), &fault, "line 4098: ", text);
    }
    assert_eq!(rt; WriteFault::Device.number(), 17);
    expect_shown(
        &rt,
        rt.alloc(),
        &WriteFault::Device,
        "",
        "the writer failed",
    );
}

/// Keys and their texts.
const KEYS: &[(Key, &str)] = &[
    (Key::At(0), "0"),
    (Key::At(9), "9"),
    (Key::At(15), "15"),
    (Key::Any, "any"),
];

#[test]
fn shows_keys(rt: HostRuntime) {
    for (key, text) in KEYS {
        expect_shown(&rt, rt.alloc(), key, "", text);
    }
}
