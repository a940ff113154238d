//! Recipes whose longest list passes its area, with the pieces that a program in Python, written apart from this one, gave.

use crate::expecting::expect_same;
use crate::recipes::building::{nested, straight};
use crate::recipes::verdicts::read_lines;
use dvg_recipe::too_long;
use std::alloc::Global;
use std::process::Abort;

/// The lines of a recipe's lists, and the number of the piece at which the longest list passes its area.
type Past = (&'static str, Option<u16>);

/// A place, a draw of each format, an instruction of each format, and a call: 2, 1, 2, 2, 1 and 1 words.
const ALL_KINDS: &str =
    "place 0 1023 -8 8 scale 0 2, svec 1 x 0 0 y 0 0 bright 0 7, vctr 9 x 0 0 y 0 0 bright 0 7, words A200 0200 F0F4, call 820";

/// Up to five times a place and a call: 15 words.
const TURNS: &str = "repeat 0 5, place 0 1023 -8 8 scale 0 2, call 820, end";

/// A call, and behind it a place or three calls: 4 words.
const BRANCHES: &str =
    "call 820, either, place 0 1023 -8 8 scale 0 2, or, call 820, call 820, call 820, end";

/// Up to four times a place, or up to three times a call and a draw, and behind it a call: 40 words.
const MIXED: &str =
    "repeat 0 4, either, place 0 1023 -8 8 scale 0 2, or, repeat 0 3, call 820, vctr 9 x 0 0 y 0 0 bright 0 7, end, end, call 820, end";

/// Stops the test unless the longest list of a recipe of these lists, and of these lines behind them, passes its area at the row's piece.
fn expect_past(rt: &impl Abort, alloc: Global, (lists, past): Past, body: &str) {
    let lines = format!(in alloc; "{lists}, {body}").expect(rt, "memory for the lines");
    let read = read_lines(rt, alloc, &lines);
    expect_same(rt, &too_long(&read.recipe), &past, &lists);
}

#[test]
fn counts_words(rt: HostRuntime) {
    let rows: &[Past] = &[
        ("list 000 000", Some(0)),
        ("list 000 001", Some(1)),
        ("list 000 002", Some(2)),
        ("list 000 003", Some(2)),
        ("list 000 005", Some(3)),
        ("list 000 006", Some(4)),
        ("list 000 007", Some(5)),
        ("list 000 008", Some(6)),
        ("list 000 009", None),
        ("list 000 0FF, list 100 106, list 110 117", Some(4)),
        ("list 000 007, list 100 108, list 110 1FF", Some(5)),
        ("list 000 0FF, list 100 109", None),
    ];
    for row in rows {
        expect_past(&rt, rt.alloc(), *row, ALL_KINDS);
    }
}

#[test]
fn counts_turns(rt: HostRuntime) {
    let rows: &[Past] = &[
        ("list 101 101", Some(0)),
        ("list 101 102", Some(1)),
        ("list 101 10A", Some(0)),
        ("list 101 10B", Some(1)),
        ("list 101 10C", Some(0)),
        ("list 101 10E", Some(1)),
        ("list 101 10F", Some(2)),
        ("list 101 110", None),
    ];
    for row in rows {
        expect_past(&rt, rt.alloc(), *row, TURNS);
    }
}

#[test]
fn counts_branches(rt: HostRuntime) {
    let rows: &[Past] = &[
        ("list 000 000", Some(1)),
        ("list 000 001", Some(1)),
        ("list 000 002", Some(4)),
        ("list 000 003", Some(5)),
        ("list 000 004", None),
    ];
    for row in rows {
        expect_past(&rt, rt.alloc(), *row, BRANCHES);
    }
}

#[test]
fn counts_mixed(rt: HostRuntime) {
    let rows: &[Past] = &[
        ("list 200 200", Some(0)),
        ("list 200 201", Some(2)),
        ("list 200 202", Some(1)),
        ("list 200 204", Some(2)),
        ("list 200 208", Some(3)),
        ("list 200 209", Some(0)),
        ("list 200 20A", Some(0)),
        ("list 200 20B", Some(2)),
        ("list 200 20F", Some(1)),
        ("list 200 219", Some(1)),
        ("list 200 226", Some(3)),
        ("list 200 227", Some(4)),
        ("list 200 228", None),
    ];
    for row in rows {
        expect_past(&rt, rt.alloc(), *row, MIXED);
    }
}

/// The last words of the areas of a list at 000 of 9 words, of a jump to 100 with 15, and of one from there to 200 with one, each with a
/// JMPL or a HALT.
#[test]
fn counts_jumps(rt: HostRuntime) {
    for (list, [first, second], past) in [
        ("list 000 007", ["1FF", "2FF"], Some(5)),
        ("list 000 008", ["1FF", "2FF"], Some(6)),
        ("list 000 009", ["10D", "200"], Some(8)),
        ("list 000 009", ["10E", "2FF"], Some(9)),
        ("list 000 009", ["10F", "200"], Some(11)),
        ("list 000 009", ["10F", "201"], None),
    ] {
        let body = format!(in rt.alloc();
            "{ALL_KINDS}, jump 100 {first}, {TURNS}, jump 200 {second}, call 820"
        );
        let body = body.expect(&rt, "memory for the lines");
        expect_past(&rt, rt.alloc(), (list, past), &body);
    }
}

#[test]
fn counts_nested_repeats(rt: HostRuntime) {
    for (levels, past) in [(1, None), (2, Some(0)), (16, Some(0))] {
        let body = nested(rt.alloc(), levels, 1, 1023).expect(&rt, "memory for the body");
        let recipe = straight(rt.alloc(), &[(0, 0x3FF)], body, 1).expect(&rt, "memory");
        let recipe = recipe.expect(&rt, "a recipe");
        expect_same(&rt, &too_long(&recipe), &past, &levels);
    }
}
