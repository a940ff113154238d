//! What a recipe says that is read: rows that a program in Python, written apart from this one, gave.

use crate::expecting::expect_same;
use crate::recipes::texts::{LABELS, text_of};
use dvg_labels::read_labels;
use dvg_recipe::{DrawRange, Part, Piece, PieceKind, PlaceRange, PlaceSpan, Recipe};
use dvg_recipe_text::read_recipe;
use dvg_words::{Draw, Format, Instr, Machine, decode_on, is_long};
use std::alloc::{AllocError, Global};
use std::fmt::Write;
use std::process::Abort;

/// Texts, spelled as those of [`texts`](crate::recipes::texts) are, what their recipes say, and the lines of their pieces. Names of `LABELS`
/// that they use are their own.
const SAYINGS: &str = "\
dvgrecipe 1|; A game of rocks over examples/arcade.rom. It has two lists: one is shown while the other is written.|list 001 1FF|list 201 3FF|shapes DIGIT 8B4 8B5 8B9 8C1 8C8 8CF 8D0 8D8 8DD 8E5|shapes SHIP 8FD 904 911 918 925 92C 939 940 94D 952 95B 960 969 96E 977 97C|; SCORE at 48, 976, and HIGH SCORE at 600, 976, both at scale 1|words A3D0 1030 C9CA C8EC|repeat 1 6|  call DIGIT|end|words A3D0 1258 C9CF C8EC|repeat 1 6|  call DIGIT|end|; the ships that are left, each 24 places further to the right; the shots below are led to by dark moves|words A3AC 0034 C8FD|repeat 0 4|  words 9000 0018 C8FD|end|repeat 0 27|  place 0 1023 0 1023 scale 0 1 2|  call 985 994 9A4|end|repeat 0 1|  place 0 1023 0 1023 scale 1|  call SHIP|  place 0 1023 0 1023 scale 0|  words 9000 F000|  repeat 0 3|    vctr 9 x -1023 1023 y -1023 1023 bright 0 0|    words 9000 F000|  end|end|repeat 0 1|  place 0 1023 0 1023 scale 0 1|  call 9B3|end|call 9EF|halt|
list 001 1FF, list 201 3FF, place 48 48 976 976 scale 1, call 9CA, call 8EC, [1 6: call 8B4 8B5 8B9 8C1 8C8 8CF 8D0 8D8 8DD 8E5], place 600 600 976 976 scale 1, call 9CF, call 8EC, [1 6: call 8B4 8B5 8B9 8C1 8C8 8CF 8D0 8D8 8DD 8E5], place 52 52 940 940 scale 0, call 8FD, [0 4: draw 2 9 x 24 24 y 0 0 bright 0 0, call 8FD], [0 27: place 0 1023 0 1023 scale 0 1 2, call 985 994 9A4], [0 1: place 0 1023 0 1023 scale 1, call 8FD 904 911 918 925 92C 939 940 94D 952 95B 960 969 96E 977 97C, place 0 1023 0 1023 scale 0, draw 2 9 x 0 0 y 0 0 bright 15 15, [0 3: draw 2 9 x -1023 1023 y -1023 1023 bright 0 0, draw 2 9 x 0 0 y 0 0 bright 15 15]], [0 1: place 0 1023 0 1023 scale 0 1, call 9B3], call 9EF, halt
8 8 8 10 12 12 12 14 17 17 19 19 22 23 26 27 28 29 31 32 36 37 39 40

dvgrecipe 1|; A small game over examples/homebrew.rom that keeps all that it draws on the screen.|list 001 3FF|; the ground, and the title at 384, 800|call 83C|words A320 3180 C839|repeat 0 12|  either|    ; a large rock reaches 64 places, a small one 32|    place 64 959 64 959 scale 2|  or|    place 32 991 32 991 scale 1|  end|  call 816|end|; the ship, with its flame or without|repeat 0 1|  place 18 1005 40 995 scale 1|  call 800 80D|end|repeat 0 4|  place 0 1023 0 1023 scale 0|  words 9000 F000|end|; the ships that are left|repeat 0 1|  words A3C0 0020 C800|  repeat 0 3|    words 9000 0018 C800|  end|end|halt|
list 001 3FF, call 83C, place 384 384 800 800 scale 3, call 839, [0 12: (place 64 959 64 959 scale 2 | place 32 991 32 991 scale 1), call 816], [0 1: place 18 1005 40 995 scale 1, call 800 80D], [0 4: place 0 1023 0 1023 scale 0, draw 2 9 x 0 0 y 0 0 bright 15 15], [0 1: place 32 32 960 960 scale 0, call 800, [0 3: draw 2 9 x 24 24 y 0 0 bright 0 0, call 800]], halt
5 6 6 10 12 14 18 19 22 23 27 27 29 29 32

dvgrecipe 1|; A page of text over examples/arcade.rom: lines of up to 20 letters, and 2 rows of headings.|list 000 3FF|shapes LETTER 800 808 815 81B 823 82B 832 83B 842 849 84F 855 85A 860 865 86B 872 87B 883 88A 890 896 89B 8A2 8A7 8AE|shapes DIGIT 8B4 8B5 8B9 8C1 8C8 8CF 8D0 8D8 8DD 8E5|shapes CHAR LETTER DIGIT 8EC|; headings at scale 2: a letter takes 48 places, and 16 of them 768|repeat 0 2|  place 0 251 700 900 scale 2|  repeat 1 16|    call CHAR|  end|end|; at scale 1 a letter takes 24 places|repeat 0 20|  place 0 540 0 660 scale 1|  repeat 1 20|    call CHAR|  end|end|; a line drawn below the text, of whatever length|repeat 0 1|  place 0 0 0 1000 scale 0|  vctr 9 x 0 1023 y 0 0 bright 7 7|end|call 9EF|halt|
list 000 3FF, [0 2: place 0 251 700 900 scale 2, [1 16: call 800 808 815 81B 823 82B 832 83B 842 849 84F 855 85A 860 865 86B 872 87B 883 88A 890 896 89B 8A2 8A7 8AE 8B4 8B5 8B9 8C1 8C8 8CF 8D0 8D8 8DD 8E5 8EC]], [0 20: place 0 540 0 660 scale 1, [1 20: call 800 808 815 81B 823 82B 832 83B 842 849 84F 855 85A 860 865 86B 872 87B 883 88A 890 896 89B 8A2 8A7 8AE 8B4 8B5 8B9 8C1 8C8 8CF 8D0 8D8 8DD 8E5 8EC]], [0 1: place 0 0 0 1000 scale 0, draw 2 9 x 0 1023 y 0 0 bright 7 7], call 9EF, halt
9 11 16 18 23 24 26 27

+words F872 9000 F000 A3D0 1030 C9CA||repeat 0 1|  call 801 800 801|end|halt|
list 001 3FF, draw 1 3 x 512 512 y 0 0 bright 7 7, draw 2 9 x 0 0 y 0 0 bright 15 15, place 48 48 976 976 scale 1, call 9CA, [0 1: call 801 800], halt
3 3 3 3 6 8

+shapes ROCK 980 990|shapes ALL 9A0 ROCK 9B0 980|call ROCK|place -5 6 -2048 2047 scale 0 2 15|svec 3 x -3 2 y -1 0 bright 0 15|vctr 0 x -1023 5 y 4 1023 bright 7 7 to -2048 5 -6 2047|call ALL|halt|
list 001 3FF, call 980 990, place -5 6 -2048 2047 scale 0 2 15, draw 1 5 x -768 512 y -256 0 bright 0 15, draw 2 0 x -1023 5 y 4 1023 bright 7 7 to -2048 5 -6 2047, call 9A0 980 990 9B0, halt
5 6 7 8 9 10

+either|  call 800|or|  call 801|  call 802|or|  repeat 2 3|    call 803|  end|or|  call 804|  either|    call 805|  or|    call 806|  end|end|halt|
list 001 3FF, (call 800 | call 801, call 802 | [2 3: call 803] | call 804, (call 805 | call 806)), halt
4 6 7 10 13 15 17 20

dvgrecipe 1|list 000 000|list 002 0FF|call 800|jump 100 1FF|repeat 1 4|  call 801|  repeat 0 9|    call 802|    call 803|  end|  call 804|end|jump 201 201|jump 300 3FF|call 805|; behind|halt|
list 000 000, list 002 0FF, call 800, jump 100 1FF, [1 4: call 801, [0 9: call 802, call 803], call 804], jump 201 201, jump 300 3FF, call 805, halt
4 5 7 9 10 12 14 15 16 18

+repeat 1 1|  call 801|end|repeat 1 2|  call 802|end|repeat 1 3|  call 803|end|repeat 1 4|  call 804|end|repeat 1 5|  call 805|end|repeat 1 6|  call 806|end|repeat 1 7|  call 807|end|repeat 1 8|  call 808|end|repeat 1 9|  call 809|end|repeat 1 10|  call 80A|end|repeat 1 11|  call 80B|end|halt|
list 001 3FF, [1 1: call 801], [1 2: call 802], [1 3: call 803], [1 4: call 804], [1 5: call 805], [1 6: call 806], [1 7: call 807], [1 8: call 808], [1 9: call 809], [1 10: call 80A], [1 11: call 80B], halt
4 7 10 13 16 19 22 25 28 31 34 36

+either|call 800|or|call 801|or|call 802|or|call 803|or|call 804|or|call 805|or|call 806|or|call 807|or|call 808|or|call 809|or|call 80A|end|halt|
list 001 3FF, (call 800 | call 801 | call 802 | call 803 | call 804 | call 805 | call 806 | call 807 | call 808 | call 809 | call 80A), halt
4 6 8 10 12 14 16 18 20 22 24 26

+words 9BFF F7FF FFFF FFFA F005 AFFF 0800 A800 F7FF CFFF|halt|
list 001 3FF, draw 2 9 x -1023 -1023 y 1023 1023 bright 15 15, draw 1 5 x -768 -768 y -768 -768 bright 15 15, draw 1 5 x 512 512 y -768 -768 bright 15 15, draw 1 2 x -256 -256 y 0 0 bright 0 0, place -2048 -2048 -1 -1 scale 0, place 2047 2047 -2048 -2048 scale 15, call FFF, halt
3 3 3 3 3 3 3 4";

/// Twelve bits as two's complement.
fn signed(bits: u16) -> i32 {
    if bits < 2048 {
        i32::from(bits)
    } else {
        i32::from(bits) - 4096
    }
}

/// Writes what instruction a piece of two words allows.
fn write_fixed(out: &mut String, first: u16, second: u16) -> Result<(), AllocError> {
    match decode_on(Machine::Board, first, second) {
        Some(
            Instr::Draw(
                Draw {
                    lscale,
                    dx,
                    dy,
                    bright,
                },
            ),
        ) => {
            let size = if is_long(first) { 2 } else { 1 };
            write!(out, "draw {size} {lscale} x {dx} {dx}")?;
            write!(out, " y {dy} {dy} bright {bright} {bright}")
        }
        Some(Instr::Labs { x, y, gscale }) => {
            let (x, y) = (signed(x), signed(y));
            write!(out, "place {x} {x} {y} {y} scale {gscale}")
        }
        Some(Instr::Jsrl { to }) => write!(out, "call {to:03X}"),
        _ => out.push_str("?"),
    }
}

fn write_place(out: &mut String, range: &PlaceRange) -> Result<(), AllocError> {
    let PlaceRange { x, y, scales } = range;
    write!(out, "place {} {}", x.low, x.high)?;
    write!(out, " {} {} scale", y.low, y.high)?;
    for (scale, held) in scales.iter().enumerate() {
        if *held {
            write!(out, " {scale}")?;
        }
    }
    Ok(())
}

fn write_draw(out: &mut String, range: &DrawRange) -> Result<(), AllocError> {
    let DrawRange {
        format,
        lscale,
        dx,
        dy,
        bright,
        to,
    } = range;
    let size = match format {
        Format::Long => 2,
        Format::Short => 1,
    };
    write!(out, "draw {size} {lscale} x {} {}", dx.low, dx.high)?;
    write!(out, " y {} {}", dy.low, dy.high)?;
    write!(out, " bright {} {}", bright.low, bright.high)?;
    if let Some(PlaceSpan { x, y }) = to {
        write!(out, " to {} {} {} {}", x.low, x.high, y.low, y.high)?;
    }
    Ok(())
}

/// Writes what a row of pieces says.
fn write_row(out: &mut String, row: &[Piece]) -> Result<(), AllocError> {
    for (at, piece) in row.iter().enumerate() {
        if at > 0 {
            out.push_str(", ")?;
        }
        match &piece.kind {
            PieceKind::Place(range) => write_place(out, range)?,
            PieceKind::Call(targets) => {
                out.push_str("call")?;
                for to in targets {
                    write!(out, " {to:03X}")?;
                }
            }
            PieceKind::Draw(range) => write_draw(out, range)?,
            PieceKind::Fixed { first, second } => write_fixed(out, *first, *second)?,
        }
    }
    Ok(())
}

/// Whether alternatives stand in parentheses: those in others are branches of these.
#[derive(Clone, Copy)]
enum Parentheses {
    Around,
    Without,
}

/// Writes alternatives, or what else a part says: pairs as the rows that they are.
fn write_part(out: &mut String, part: &Part, written: Parentheses) -> Result<(), AllocError> {
    match part {
        Part::Row(row) => write_row(out, row),
        Part::Then(first, second) => {
            write_part(out, first, Parentheses::Around)?;
            out.push_str(", ")?;
            write_part(out, second, Parentheses::Around)
        }
        Part::Either(one, other) => {
            let (open, close) = match written {
                Parentheses::Around => ("(", ")"),
                Parentheses::Without => ("", ""),
            };
            out.push_str(open)?;
            write_part(out, one, Parentheses::Without)?;
            out.push_str(" | ")?;
            write_part(out, other, Parentheses::Without)?;
            out.push_str(close)
        }
        Part::Repeat { least, most, body } => {
            write!(out, "[{least} {most}: ")?;
            write_part(out, body, Parentheses::Around)?;
            out.push_str("]")
        }
    }
}

/// Writes what a part says, and a comma behind it, if it has a piece.
fn write_whole(out: &mut String, part: &Part) -> Result<(), AllocError> {
    if let Part::Row(row) = part {
        if row.is_empty() {
            return Ok(());
        }
    }
    write_part(out, part, Parentheses::Around)?;
    out.push_str(", ")
}

/// What a recipe says.
fn said(alloc: Global, recipe: &Recipe) -> Result<String, AllocError> {
    let mut out = String::new(alloc);
    for area in recipe.lists() {
        write!(out, "list {:03X} {:03X}, ", area.first, area.last)?;
    }
    write_whole(&mut out, recipe.body())?;
    for jump in recipe.jumps() {
        write!(out, "jump {:03X} {:03X}, ", jump.area.first, jump.area.last)?;
        write_whole(&mut out, &jump.body)?;
    }
    out.push_str("halt")?;
    Ok(out)
}

/// Stops the test unless a text says what it is to say, and its pieces stand on these lines.
fn expect_saying(rt: &impl Abort, alloc: Global, spelling: &str, want: &str, lines: &str) {
    let labels = read_labels(alloc, LABELS).expect(rt, "labels");
    let text = text_of(rt, alloc, spelling);
    let read = read_recipe(alloc, &text, Some(&labels)).expect(rt, "a recipe");
    let said = said(alloc, &read.recipe).expect(rt, "memory for what it says");
    expect_same(rt, &said.as_str(), &want, &spelling);
    let mut told = String::new(alloc);
    for line in &read.lines {
        write!(told, "{line} ").expect(rt, "memory for the lines");
    }
    expect_same(rt, &told.trim_end(), &lines, &spelling);
}

#[test]
fn tells_pieces_and_lines(rt: HostRuntime) {
    for row in SAYINGS.split("\n\n") {
        let (spelling, said) = row.split_once('\n').expect(&rt, "a row");
        let (want, lines) = said.split_once('\n').expect(&rt, "a row");
        expect_saying(&rt, rt.alloc(), spelling, want, lines);
    }
}
