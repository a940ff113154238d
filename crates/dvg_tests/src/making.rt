//! Made certificates by the text of their entries, and refusals of roots that no command line can name. Others are in
//! tests/make-command-line.

use crate::expecting::{FaultRow, expect_faults, expect_same};
use crate::inputs::{STROKE, rom_of};
use crate::table::text_of_entries;
use dvg_cert::{End, Key, ListIndex};
use dvg_check::{ShapeWhy, check_shapes_exact};
use dvg_items::Known;
use dvg_make::{EntryCause, MakeFault, explain_making, make};
use dvg_text::read_cert;
use dvg_words::{ASTEROIDS, RomImage, SCREEN};
use std::alloc::Global;
use std::process::Abort;

/// Words at 800, and the entry that is made of them, at whose scale they are the root.
const ONE_SHAPE: &[(&str, &str)] = &[
    (
        STROKE,
        "shape 800 0 end rel 1047552 785408 box 0 1047552 0 785408 depth 0 words 3 scale 0",
    ),
    (
        "800 FA70 F672 D000",
        "shape 800 0 end rel 4096 4096 box 0 4096 0 8192 depth 0 words 3 scale 0",
    ),
    (
        "800 A064 0190 D000",
        "shape 800 any end abs 409600 102400 box none depth 0 words 3 scale 0",
    ),
    (
        "800 A000 03FF 9000 7001 D000",
        "shape 800 0 end abs 1048576 0 box none depth 0 words 5 scale 0",
    ),
];

/// Stops the test unless the entry that is made is this one, with exact counts. The checker accepts it but where it lights off the
/// screen.
fn expect_made(rt: &impl Abort, alloc: Global, words: &str, entry: &str) {
    let bytes = rom_of(rt, alloc, words);
    let rom = RomImage::from_bytes(&bytes, ASTEROIDS).expect(rt, "a ROM");
    let text = text_of_entries(rt, alloc, "800 BFF", entry);
    let wanted = read_cert(alloc, &text).expect(rt, "a certificate");
    let key = if entry.starts_with("shape 800 any ") {
        Key::Any
    } else {
        Key::At(0)
    };
    let cert = make(alloc, &rom, &[(0x800, key)]).expect(rt, "a certificate");
    expect_same(rt, &cert.entries(), &wanted.entries(), &entry);
    expect_same(rt, &cert.rom(), &wanted.rom(), &entry);
    if let Err(fault) = check_shapes_exact(&rom, &cert, &ListIndex::new(&cert), &SCREEN) {
        expect_same(rt, &fault.why, &ShapeWhy::OffScreen, &entry);
    }
}

#[test]
fn makes_one_shape(rt: HostRuntime) {
    for &(words, entry) in ONE_SHAPE {
        expect_made(&rt, rt.alloc(), words, entry);
    }
}

/// Roots of the stroke's ROM whose scale is over 15: one of them below the ROM, too.
const OVER_15: &[(u16, Key)] = &[(0x7FF, Key::At(16)), (0x800, Key::At(16))];

/// The refusal names the root's word, and the account its scale.
#[test]
fn refuses_scales_over_15(rt: HostRuntime) {
    let bytes = rom_of(&rt, rt.alloc(), STROKE);
    let rom = RomImage::from_bytes(&bytes, ASTEROIDS).expect(&rt, "a ROM");
    for &(word, scale) in OVER_15 {
        let roots = [(word, scale)];
        let fault = make(rt.alloc(), &rom, &roots).err();
        expect_same(&rt, &fault, &Some(MakeFault::Unstraight { word }), &word);
        let explained = explain_making(rt.alloc(), &rom, &roots, &[]).err();
        let account = explained.expect(&rt, "a refusal");
        assert!(rt; account.chain.is_empty());
        let before = Known {
            place: End::Rel { x: 0, y: 0 },
            scale,
            words: 0,
            depth: 0,
        };
        let told = (account.at, account.before, account.cause);
        expect_same(&rt, &told, &(word, before, EntryCause::RootOutside), &word);
    }
}

/// The faults, their numbers and their texts.
const FAULTS: &[FaultRow<MakeFault>] = &[
    (
        MakeFault::Unstraight { word: 0x00A },
        60,
        "no shape can have the item at 00A",
    ),
    (MakeFault::Deep, 61, "the shapes call too deep"),
    (
        MakeFault::TooLarge,
        62,
        "the shapes are too large for a certificate",
    ),
    (
        MakeFault::Memory,
        63,
        "there is no memory for the certificate",
    ),
];

#[test]
fn shows_faults(rt: HostRuntime) {
    expect_faults(&rt, rt.alloc(), FAULTS, |fault: &MakeFault| fault.number());
}
