//! Which frames belong to a recipe, and where the others leave it: rows that a program in Python, written apart from this one, gave. And
//! which values are no recipe.
//!
//! A table's lines are those of a recipe, as in [`verdicts`](crate::recipes::verdicts), and behind them those of the frames that are asked
//! for: what is told of one, a colon, and its words. An empty line stands before the next recipe.

use crate::expecting::expect_same;
use crate::inputs::{bytes_from, rom_of};
use crate::recipes::building::{nested, repeat, row, shape, straight};
use crate::recipes::verdicts::Asked;
use dvg_recipe::{Area, Leaving, Part, PieceKind, Recipe, belongs};
use dvg_words::{ASTEROIDS, FrameImage, Machine, RomImage};
use std::alloc::{AllocError, Global};
use std::fmt::Write;
use std::process::Abort;

/// Two lists, with a part to which each of them jumps: a place, then a call, or one to three draws, each with a dot, or no more than two
/// calls; and at 200 a stroke of an SVEC, and a call at 512, 512.
const MEMBERS: &str = "\
list 000 0FF, list 101 1FF, place 0 1023 -8 8 scale 0 2, either, call 800 810, or, either
repeat 1 3, vctr 9 x -4 4 y 0 2 bright 0 7, words F0F4, end, or, repeat 0 2, call 820, end, end, end
jump 200 2FF, svec 1 x -3 3 y -1 0 bright 5 6, words A200 0200 C800
belongs: 000 AFFD 0000 E200, 200 FD67 A200 0200 C800 B000
belongs: 000 E101, 101 A002 23FF 9002 7004 F0F0 E200, 200 FD61 A200 0200 C800 B000
belongs: 000 AFF8 2000 9002 0001 F0F0 9001 7404 F0F0 9002 7403 F0F0 E200, 200 FD63 A200 0200 C800 B000
leaves 000 at 0: 000 E111, 101 AFF8 0000 E200, 200 F856 A200 0200 C800 B000
leaves 201 at 7: 000 E101, 101 AFF8 22D7 C800 E200, 200 F866 C800 0200 C800 B000
leaves 104 at 5: 000 E101, 101 A000 20BA C810 E240, 200 F851 A200 0200 C800 B000
leaves 200 at 6: 000 AFF8 032A C800 E200, 0D9 0000
leaves 203 at 8: 000 E101, 101 AFF8 00BA 9000 2004 F0F0 9002 0004 F0F0 E200, 200 FD50 A200 0200 C840 B000
leaves 103 at 1 2 4 5: 000 E101, 101 AFF8 03FF F0F4 E200, 200 F850 F0F4 0200 C800 B000
leaves 003 at 4 5: 000 A008 03FC C820 C828 E200, 200 F867 A200 C800 C800 B000
leaves 105 at 3: 000 E101, 101 A002 2135 9000 0002 F1F0 E200, 200 F867 A200 0200 C800 B000
leaves 003 at 5: 000 AFF8 23FF C800 C820, 200 F863 A200 0200 C800 B000
leaves 204 at 9: 000 A008 03FF C810 E200, 200 F851 A200 0200 C800 E101
leaves 008 at 2 5: 000 AFFB 0000 9002 0402 F0F0 9002 1401 F0F0 2898 7002 F0F0 E200, 200 B000 A200 0200 C800 B000";

/// What an answer tells, in words.
fn told(alloc: Global, answer: &Result<Option<Leaving>, AllocError>) -> Result<String, AllocError> {
    match answer {
        Ok(None) => format!(in alloc; "belongs"),
        Ok(Some(leaving)) => {
            let mut line = format!(in alloc; "leaves {:03X} at", leaving.at)?;
            for piece in &leaving.pieces {
                write!(line, " {piece}")?;
            }
            Ok(line)
        }
        Err(_) => format!(in alloc; "out of memory"),
    }
}

/// Stops the test unless this is told of a frame of these words and a recipe.
pub fn expect_member(
    rt: &impl Abort,
    alloc: Global,
    rom: &RomImage,
    recipe: &Recipe,
    (want, words): (&str, &str),
) {
    let bytes = bytes_from(rt, alloc, 0, words);
    let frame = FrameImage::from_bytes(&bytes).expect(rt, "a frame");
    let line = told(alloc, &belongs(alloc, rom, recipe, &frame));
    let line = line.expect(rt, "memory for a line");
    expect_same(rt, &line.as_str(), &want, &words);
}

/// Stops the test unless this is told of the frames of a table, over the ROM of these words at 800 to BFF.
pub fn expect_members(rt: &impl Abort, alloc: Global, rom: &str, table: &str) {
    let bytes = rom_of(rt, alloc, rom);
    let rom = RomImage::from_bytes_on(Machine::Board, &bytes, ASTEROIDS).expect(rt, "a ROM");
    let mut asked = Asked::new(alloc);
    for line in table.lines() {
        match line.split_once(": ") {
            Some(frame) => {
                let recipe = asked.read(rt, alloc).recipe;
                expect_member(rt, alloc, &rom, &recipe, frame);
            }
            None if line.is_empty() => asked = Asked::new(alloc),
            None => asked.take(rt, line),
        }
    }
}

#[test]
fn tells_members(rt: HostRuntime) {
    expect_members(&rt, rt.alloc(), "800", MEMBERS);
}

/// 20 calls, and 20 calls with one more behind another item.
const NESTED: &[(&str, &str)] = &[
    ("belongs", "000 C820*20 B000"),
    ("leaves 014 at 0 1", "000 C820*20 C810 C820 B000"),
];

/// Stops the test unless this is told of the frames of `NESTED`, by so many repeats of at least so many turns, one in another.
fn expect_nested(rt: &impl Abort, alloc: Global, levels: u16, least: u16) {
    let bytes = rom_of(rt, alloc, "800");
    let rom = RomImage::from_bytes_on(Machine::Board, &bytes, ASTEROIDS).expect(rt, "a ROM");
    let body = nested(alloc, levels, least, 1023).expect(rt, "memory for the body");
    let recipe = straight(alloc, &[(0, 0x0FF)], body, 1).expect(rt, "memory for the recipe");
    let recipe = recipe.expect(rt, "a recipe");
    for row in NESTED {
        expect_member(rt, alloc, &rom, &recipe, *row);
    }
}

#[test]
fn ends_in_nested_repeats(rt: HostRuntime) {
    expect_nested(&rt, rt.alloc(), 12, 0);
}

#[test]
fn ends_in_most_nested(rt: HostRuntime) {
    expect_nested(&rt, rt.alloc(), 16, 1);
}

/// The recipe of a call of so many word addresses, up to 1,023 times.
fn many_calls(alloc: Global, targets: u16) -> Result<Option<Recipe>, AllocError> {
    let mut addresses = Vec::new(alloc);
    for to in 0..targets {
        addresses.push(to)?;
    }
    let calls = row(alloc, 0, PieceKind::Call(addresses))?;
    straight(alloc, &[(0, 0x3FF)], repeat(alloc, 0, 1023, calls)?, 1)
}

#[test]
fn limits_options(rt: HostRuntime) {
    // 1,023 turns of 256 addresses are 261,888, and of 257 they are 262,911
    for (targets, is_recipe) in [(256, true), (257, false)] {
        let recipe = many_calls(rt.alloc(), targets).expect(&rt, "memory for the recipe");
        expect_same(&rt, &recipe.is_some(), &is_recipe, &targets);
    }
}

/// Stops the test unless a recipe of lists in these areas and of this body is within the limits, or not.
fn expect_limits(
    rt: &impl Abort,
    alloc: Global,
    areas: &[(u16, u16)],
    body: Result<Part, AllocError>,
    fits: bool,
) {
    let body = body.expect(rt, "memory for the body");
    let recipe = straight(alloc, areas, body, 1).expect(rt, "memory for the recipe");
    expect_same(rt, &recipe.is_some(), &fits, &areas);
}

#[test]
fn keeps_limits(rt: HostRuntime) {
    // a second list that begins behind the first one's area, or in it
    for (second, fits) in [(0x100, true), (0x0FF, false)] {
        let areas = [(0, 0x0FF), (second, 0x1FF)];
        expect_limits(&rt, rt.alloc(), &areas, shape(rt.alloc(), 0), fits);
    }
}

/// A repeat of nothing or a call.
fn repeated_branches(alloc: Global) -> Result<Part, AllocError> {
    let nothing = Box::new(alloc, Part::Row(Vec::new(alloc)))?;
    let call = Box::new(alloc, shape(alloc, 0)?)?;
    repeat(alloc, 0, 1, Part::Either(nothing, call))
}

#[test]
fn limits_repeats(rt: HostRuntime) {
    let alloc = rt.alloc();
    let areas = [(0, 0x3FF)];
    for (levels, fits) in [(16, true), (17, false)] {
        let body = nested(alloc, levels, 1, 1023);
        expect_limits(&rt, alloc, &areas, body, fits);
    }
    let empty = repeat(alloc, 0, 1, Part::Row(Vec::new(alloc))).expect(&rt, "memory for the body");
    let recipe = straight(alloc, &areas, empty, 0).expect(&rt, "memory for the recipe");
    assert!(rt; recipe.is_none());
    expect_limits(&rt, alloc, &areas, repeated_branches(alloc), true);
}
