//! Which shapes read a word in which two ROMs differ, worked by hand.

use crate::expecting::{expect, expect_same};
use crate::inputs::{bytes_of, rom_of};
use dvg_cert::Key;
use dvg_make::make_for_frames;
use dvg_survey::{compare, reaches_touched, touched_entries};
use dvg_words::{ASTEROIDS, FrameImage, RomImage};
use std::slice;

/// At 800 a stroke and a tail jump to 810, where a stroke and RTSL stand; at 820 a stroke and RTSL that nothing calls.
const SHAPES: &str = "800 9000 7001 E810, 810 9000 7001 D000, 820 9000 7001 D000";

/// A frame that calls 800 at scale 0 and at scale 1, each after a LABS to 512, 512.
const FRAME: &str = "A200 0200 C800 A200 1200 C800 B000";

/// Words of the other ROM, and the address of the shapes that are touched, at both scales, with the first word that differs.
const CHANGES: &[(&str, Option<(u16, u16)>)] = &[
    // nothing
    ("800 9000", None),
    // the first word of a stroke, and the second
    ("800 9400", Some((0x800, 0x800))),
    ("801 7002", Some((0x800, 0x801))),
    // the tail jump
    ("802 E820", Some((0x800, 0x802))),
    // the second word and the tail jump
    ("801 7002 E820", Some((0x800, 0x801))),
    // of the shape that the tail jump leads to: the second word of the stroke, and RTSL
    ("811 7002", Some((0x810, 0x811))),
    ("812 D001", Some((0x810, 0x812))),
    // between shapes, and in the one that nothing calls
    ("803 7002", None),
    ("813 7002", None),
    ("820 9400 7002 B000", None),
];

#[test]
fn tells_touched(rt: HostRuntime) {
    let bytes = rom_of(&rt, rt.alloc(), SHAPES);
    let rom = RomImage::from_bytes(&bytes, ASTEROIDS).expect(&rt, "a ROM");
    let frame = bytes_of(&rt, rt.alloc(), FRAME);
    let frame = FrameImage::from_bytes(&frame).expect(&rt, "a frame");
    let cert = make_for_frames(rt.alloc(), &rom, &[], slice::from_ref(&frame));
    let cert = cert.expect(&rt, "a certificate");
    for (change, touched) in CHANGES {
        let other = format!(in rt.alloc(); "{SHAPES}, {change}").expect(&rt, "memory");
        let other = rom_of(&rt, rt.alloc(), &other);
        let other = RomImage::from_bytes(&other, ASTEROIDS).expect(&rt, "a ROM");
        let told = touched_entries(rt.alloc(), &rom, &other, cert.entries());
        let told = told.expect(&rt, "memory for the entries");
        expect(&rt, told.len() == 2 * touched.iter().count(), change);
        for (entry, scale) in told.iter().zip(0u8..) {
            let place = (entry.entry.addr, entry.word);
            expect_same(&rt, &Some(place), touched, change);
            expect_same(&rt, &entry.entry.key, &Key::At(scale), change);
        }
        let reaches = reaches_touched(&rom, &other, cert.entries());
        expect_same(&rt, &reaches, &touched.is_some(), change);
        let frames = slice::from_ref(&frame);
        let compared = compare(rt.alloc(), &rom, &other, &[(0x820, Key::At(0))], frames);
        let compared = compared.expect(&rt, "a comparison");
        let is_told = compared.reaching.as_slice() == [reaches].as_slice();
        expect(&rt, is_told, change);
        let others = usize::from(change.starts_with("820 "));
        expect(&rt, compared.entries.len() == told.len() + others, change);
    }
}
