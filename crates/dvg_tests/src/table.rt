//! Tables of rows in words. Rows stand between empty lines. The first line of a row says what it shows, and each other one begins
//! with a name:
//!
//! - `map` and the word addresses of the ROM's first and last word,
//! - `rom`, a word address and the words from there on, among zeros,
//! - `bytes`, how many bytes the ROM has, where its map has another number,
//! - `shape`, as it is in the certificate, for each entry; its first and its last line go without saying,
//! - `text`, the certificate's whole text where it is another one, with `|` for each LF,
//! - `frame` and its words,
//! - `budget`, `window` and `mode`,
//! - `limit`, how many clocks the frame may take,
//! - `made` and the machines whose maker makes the certificate,
//! - `board` and what the board reports, where the row is judged on it,
//! - `accepted` or `refused`, which is what the profile's machine reports.
//!
//! A row has what it leaves out from the row above it where its first line begins with `the same`, and else from the usual row. Where
//! its first line begins with `usually` it is the usual row from there on, and nothing is judged; before it, `FIRST` is. A line with
//! another name stops the test. tests/command-line reads the rows of `rows::worked` in the same way.

use crate::expecting::expect;
use crate::inputs::{bytes_from, bytes_of, hex};
use dvg_check::Mode;
use dvg_cmd::window_of;
use dvg_words::{Machine, Window};
use std::alloc::Global;
use std::process::Abort;

/// How a ROM, a certificate and a frame are judged: on a machine, by a budget of words, for a window, and in a mode.
#[derive(Clone, Copy)]
pub struct Asked {
    pub machine: Machine,
    pub budget: u32,
    pub window: Window,
    pub mode: Mode,
}

/// A row: what stands behind the names of its lines.
#[derive(Clone, Copy)]
pub struct Row<'a> {
    /// The lines that are its own, by which it is told of.
    pub lines: &'a str,
    map: &'a str,
    rom: &'a str,
    bytes: &'a str,
    /// Lines, among which those of the entries are.
    entries: &'a str,
    text: &'a str,
    frame: &'a str,
    budget: &'a str,
    window: &'a str,
    mode: &'a str,
    pub limit: &'a str,
    pub made: &'a str,
    /// What the board reports, empty where the row is not judged on it.
    pub board: &'a str,
    /// What the profile's machine reports.
    pub report: &'a str,
}

/// The usual row of a table at first: a ROM of zeros, a certificate without entries, and a frame that halts at once, within more clocks
/// than any frame takes.
const FIRST: Row<'static> = Row {
    lines: "",
    map: "800 BFF",
    rom: "800",
    bytes: "",
    entries: "",
    text: "",
    frame: "B000",
    budget: "20000",
    window: "0,1023,0,1023",
    mode: "bound",
    limit: "99999999999",
    made: "",
    board: "",
    report: "",
};

/// What a line of a row may begin with.
const NAMES: &[&str] = &[
    "map", "rom", "bytes", "shape", "text", "frame", "budget", "window", "mode", "limit", "made",
    "board", "accepted", "refused",
];

/// Each line behind the first begins with a name.
fn are_named(lines: &str) -> bool {
    for line in lines.lines().skip(1) {
        let (word, _) = line.split_once(' ').unwrap_or((line, ""));
        if !NAMES.contains(&word) {
            return false;
        }
    }
    true
}

/// What stands behind the first word of a line: of the first line that begins so, or this where there is none.
fn words_of<'a>(lines: &'a str, first: &str, usual: &'a str) -> &'a str {
    for line in lines.lines() {
        let (word, words) = line.split_once(' ').unwrap_or((line, ""));
        if word == first {
            return words;
        }
    }
    usual
}

/// The line of what the profile's machine reports, or this where there is none.
fn report_of<'a>(lines: &'a str, usual: &'a str) -> &'a str {
    for line in lines.lines() {
        if line.starts_with("accepted ") || line.starts_with("refused ") {
            return line;
        }
    }
    usual
}

/// The lines themselves where one of them is of an entry, or these.
fn entries_of<'a>(lines: &'a str, usual: &'a str) -> &'a str {
    if lines.contains("\nshape ") {
        lines
    } else {
        usual
    }
}

/// The rows of a table.
pub fn read_rows<'a>(rt: &impl Abort, alloc: Global, table: &'a str) -> Vec<Row<'a>> {
    let mut rows = Vec::new(alloc);
    let mut usual = FIRST;
    let mut above = FIRST;
    for lines in table.split("\n\n") {
        expect(rt, are_named(lines), &lines);
        let other = if lines.starts_with("the same") {
            above
        } else {
            usual
        };
        above = other.with(lines);
        if lines.starts_with("usually ") {
            usual = above;
        } else {
            rows.push(above).expect(rt, "memory");
        }
    }
    rows
}

/// What is judged of a row, and how the profile's machine is asked.
#[derive(Drop)]
pub struct Inputs {
    pub rom: Vec<u8>,
    pub text: Vec<u8>,
    pub frame: Vec<u8>,
    pub asked: Asked,
}

impl<'a> Row<'a> {
    /// The row of these lines, which has what they leave out from this one.
    fn with(&self, lines: &'a str) -> Row<'a> {
        Row {
            lines,
            map: words_of(lines, "map", self.map),
            rom: words_of(lines, "rom", self.rom),
            bytes: words_of(lines, "bytes", self.bytes),
            entries: entries_of(lines, self.entries),
            text: words_of(lines, "text", self.text),
            frame: words_of(lines, "frame", self.frame),
            budget: words_of(lines, "budget", self.budget),
            window: words_of(lines, "window", self.window),
            mode: words_of(lines, "mode", self.mode),
            limit: words_of(lines, "limit", self.limit),
            made: words_of(lines, "made", self.made),
            board: words_of(lines, "board", self.board),
            report: report_of(lines, self.report),
        }
    }

    /// How the profile's machine is asked.
    fn asked(&self, rt: &impl Abort) -> Asked {
        Asked {
            machine: Machine::Profile,
            budget: self.budget.parse::<u32>().expect(rt, "a budget"),
            window: window_of(self.window).expect(rt, "a window"),
            mode: match self.mode {
                "exact" => Mode::Exact,
                _ => Mode::Bound,
            },
        }
    }

    /// The bytes of the row's words and texts.
    pub fn inputs(&self, rt: &impl Abort, alloc: Global) -> Inputs {
        let (first, last) = self.map.split_once(' ').expect(rt, "a map");
        let (first, last) = (hex(rt, first), hex(rt, last));
        let length = 2 * (usize::from(last.saturating_sub(first)) + 1);
        let mut rom = bytes_from(rt, alloc, first, self.rom);
        rom.resize(self.bytes.parse::<usize>().unwrap_or(length), 0)
            .expect(rt, "memory");
        let text = match self.text {
            "" => text_of_entries(rt, alloc, self.map, self.entries),
            text => text_of_lines(rt, alloc, text),
        };
        Inputs {
            rom,
            text,
            frame: bytes_of(rt, alloc, self.frame),
            asked: self.asked(rt),
        }
    }
}

/// Appends pieces of a text, one after another.
fn push_all(rt: &impl Abort, text: &mut Vec<u8>, pieces: &[&str]) {
    for piece in pieces {
        text.extend_from_slice(piece.as_bytes())
            .expect(rt, "memory");
    }
}

/// The text of the certificate with the entries among these lines, for a ROM of this map.
pub fn text_of_entries(rt: &impl Abort, alloc: Global, map: &str, lines: &str) -> Vec<u8> {
    let mut text = Vec::new(alloc);
    match map {
        "800 BFF" => push_all(rt, &mut text, &["dvgcert 1\n"]),
        _ => push_all(rt, &mut text, &["dvgcert 2\nrom ", map, "\n"]),
    }
    let mut count = 0u32;
    for line in lines.lines() {
        if line.starts_with("shape ") {
            push_all(rt, &mut text, &[line, "\n"]);
            count = count.saturating_add(1);
        }
    }
    let done = format!(in alloc; "done {count}\n").expect(rt, "memory");
    push_all(rt, &mut text, &[&done]);
    text
}

/// The text whose lines each end with `|`.
pub fn text_of_lines(rt: &impl Abort, alloc: Global, lines: &str) -> Vec<u8> {
    let mut text = Vec::from_slice(alloc, lines.as_bytes()).expect(rt, "memory");
    for byte in &mut text {
        if *byte == b'|' {
            *byte = b'\n';
        }
    }
    text
}
