//! What was judged, and the account of a refusal before any item was judged.

use crate::lines::Lines;
use crate::piece::Piece::{Bytes, Cure, Expected, Fitting, Line, Number, Rule, Text, ToDo};
use crate::starts::ShapeStarts;
use dvg_cert::{Cert, CertFault};
use dvg_check::{Mode, Refusal};
use dvg_labels::Labels;
use dvg_text::LineWhy;
use dvg_words::{ImageFault, Machine, RomMap, Window};

/// What was judged: the machine, the bytes that were read of a ROM and of a frame, where the ROM lies, if that is known, and the
/// certificate, if one was taken or made.
#[derive(Clone, Copy)]
pub struct Inputs<'a> {
    pub machine: Machine,
    pub rom: &'a [u8],
    pub map: Option<RomMap>,
    pub cert: Option<&'a Cert>,
    pub frame: &'a [u8],
    /// How many words the frame may take at most; 49 unless 1 to 1,000,000.
    pub budget: u32,
    /// Where strokes may be lit.
    pub window: Window,
    /// Whether the certificate's counts are bounds or exact.
    pub mode: Mode,
    /// The labels of words, if there are any.
    pub labels: Option<&'a Labels>,
    /// Where the shapes of other frames begin, if these were looked at.
    pub others: Option<&'a ShapeStarts>,
}

/// Why an answer is a refusal before any item was judged.
#[derive(Clone, Copy)]
pub enum PlainWhy {
    /// Nothing is known but the number.
    Nothing,
    /// So many bytes were read of the ROM, which lies here.
    RomLength { bytes: usize, map: RomMap },
    /// So many bytes were read of the frame.
    FrameLength { bytes: usize },
    /// The budget is so many words.
    Budget(u32),
    /// This line of the certificate is refused.
    Line(u32),
}

impl<'a> Inputs<'a> {
    /// Why these inputs are refused before any item is judged.
    pub fn plain_why(&self, refusal: &Refusal) -> PlainWhy {
        match (refusal, self.map) {
            (Refusal::Image(ImageFault::RomLength), Some(map)) => PlainWhy::RomLength {
                bytes: self.rom.len(),
                map,
            },
            (Refusal::Image(ImageFault::FrameLength), _) => PlainWhy::FrameLength {
                bytes: self.frame.len(),
            },
            (Refusal::BudgetRange, _) => PlainWhy::Budget(self.budget),
            (Refusal::Cert(fault), _) => PlainWhy::Line(fault.line),
            _ => PlainWhy::Nothing,
        }
    }
}

/// The most bytes of a frame. Of a longer one, one byte more is read.
const MOST_FRAME_BYTES: usize = 2048;

/// The most bytes of a ROM. Of a longer one, one byte more is read.
const MOST_ROM_BYTES: usize = 4096;

/// What is wrong with so many bytes of a ROM, if they are no more than the most.
fn rom_fault(bytes: usize) -> &'static str {
    if bytes < MOST_ROM_BYTES && bytes % 2 == 1 {
        ", an odd number, and words "
    } else {
        ", and words "
    }
}

/// What is wrong with so many bytes of a frame, if they are no more than the most.
fn frame_fault(bytes: usize) -> &'static str {
    if bytes == 0 {
        ", and one word is the least"
    } else if bytes < MOST_FRAME_BYTES {
        ", an odd number: words have two"
    } else {
        ""
    }
}

/// Adds the lines that tell of a refused line of the certificate, and of why, if that is known.
fn push_line(lines: &mut Lines, line: u32, why: Option<LineWhy>) {
    let at = [Line("certificate line"), Number(line as u64)];
    match why {
        None => lines.add(&at),
        Some(LineWhy::Form(leaving)) => {
            lines.add(&at);
            lines.add(&[
                Line("column"),
                Number(leaving.column as u64),
                Line("expected"),
                Expected(leaving.expected),
            ]);
        }
        Some(LineWhy::Count(counts)) => {
            lines.add(&[
                Line("why"),
                Text("the `done` line says "),
                Number(counts.claimed as u64),
                Text(entries(counts.claimed)),
                Text(", and the certificate has "),
                Number(counts.found as u64),
            ]);
            lines.add(&at);
        }
    }
}

/// The word for so many entries.
fn entries(count: u16) -> &'static str {
    if count == 1 { " entry" } else { " entries" }
}

/// Adds the lines that tell why, if something is known.
fn push_plain(lines: &mut Lines, why: PlainWhy) {
    match why {
        PlainWhy::Nothing => {}
        PlainWhy::RomLength { bytes, map } => lines.add(&[
            Line("why"),
            Text("the ROM has "),
            Bytes(bytes, MOST_ROM_BYTES),
            Text(rom_fault(bytes)),
            Fitting(map, bytes),
        ]),
        PlainWhy::FrameLength { bytes } => lines.add(&[
            Line("why"),
            Text("the frame has "),
            Bytes(bytes, MOST_FRAME_BYTES),
            Text(frame_fault(bytes)),
        ]),
        PlainWhy::Budget(budget) => {
            lines.add(&[Line("why"), Text("the budget is "), Number(budget as u64)])
        }
        PlainWhy::Line(line) => { lines.add(&[Line("certificate line"), Number(line as u64)]) }
    }
}

/// Adds the lines of a refusal with this number before any item was judged on a machine (this project's own).
pub fn push_plain_refusal(lines: &mut Lines, machine: Machine, number: u8, why: PlainWhy) {
    lines.push_machine(machine);
    lines.add(&[Line("rule"), Rule(number)]);
    push_plain(lines, why);
    lines.add(&[ToDo, Cure(number)]);
}

/// Adds the lines of a certificate's text that is refused, with what is told of the refused line, if anything is (this project's own).
pub fn push_refused_text(
    lines: &mut Lines,
    machine: Machine,
    fault: CertFault,
    why: Option<LineWhy>,
) {
    lines.push_machine(machine);
    lines.add(&[Line("rule"), Rule(fault.number())]);
    push_line(lines, fault.line, why);
    lines.add(&[ToDo, Cure(fault.number())]);
}
