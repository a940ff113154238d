//! Worked rows, judged over both indexes and by runs. The reports were found by hand.

pub mod worked;

use crate::devices::slow;
use crate::expecting::expect;
use crate::rows::worked::WORKED;
use crate::table::{Asked, Inputs, Row, read_rows};
use dvg_cert::ListIndex;
use dvg_check::{
    JudgedShapes, Mode, Refusal, Yes, check_parts, check_parts_exact, check_rom, frame_of,
};
use dvg_cmd::{report_of, run_check};
use dvg_text::{Counted, read_cert};
use dvg_verdict::{check, check_exact, check_on};
use dvg_words::{Machine, RomImage};
use std::alloc::Global;
use std::process::Abort;

/// What is judged, and how.
#[derive(Clone, Copy)]
pub struct Case<'a> {
    pub rom: &'a [u8],
    pub text: &'a [u8],
    pub frame: &'a [u8],
    pub asked: Asked,
}

impl Case<'_> {
    /// The verdict on bytes.
    pub fn judge_bytes(&self, alloc: Global) -> Result<Yes, Refusal> {
        let (rom, text, frame) = (self.rom, self.text, self.frame);
        let (asked, budget, window) = (self.asked, self.asked.budget, self.asked.window);
        match (asked.machine, asked.mode) {
            (Machine::Profile, Mode::Bound) => check(alloc, rom, text, frame, budget, window),
            (Machine::Profile, Mode::Exact) => check_exact(alloc, rom, text, frame, budget, window),
            (machine, mode) => check_on(machine, alloc, rom, text, frame, budget, window, mode),
        }
    }

    /// The verdict on the ROM's bytes, by a certificate and a frame that were read before.
    fn judge_rom(&self, alloc: Global) -> Result<Yes, Refusal> {
        let (machine, mode) = (self.asked.machine, self.asked.mode);
        let (budget, window) = (self.asked.budget, self.asked.window);
        let frame = frame_of(self.frame, budget)?;
        let cert = read_cert(alloc, self.text)?;
        check_rom(
            machine, alloc, self.rom, &frame, &cert, budget, window, mode,
        )
    }

    /// The verdict over an index that searches the list, where `check_parts` has one that hashes.
    fn judge_by_list(&self, alloc: Global) -> Result<Yes, Refusal> {
        let asked = self.asked;
        let frame = frame_of(self.frame, asked.budget)?;
        let cert = read_cert(alloc, self.text)?;
        let rom = RomImage::from_bytes_on(asked.machine, self.rom, cert.map())?;
        let entries = ListIndex::new(&cert);
        let shapes = JudgedShapes::judge(&rom, &cert, &entries, asked.window, asked.mode)?;
        let accepted = shapes.check_frame(&frame, asked.budget)?;
        Ok(Yes {
            shapes: cert.entries().len() as u32,
            words: accepted.words,
            depth: accepted.depth,
        })
    }

    /// The verdict on images and entries that are at hand.
    fn judge_parts(&self, alloc: Global) -> Result<Yes, Refusal> {
        let (asked, budget, window) = (self.asked, self.asked.budget, self.asked.window);
        let frame = frame_of(self.frame, budget)?;
        let cert = read_cert(alloc, self.text)?;
        let rom = RomImage::from_bytes_on(asked.machine, self.rom, cert.map())?;
        match asked.mode {
            Mode::Bound => check_parts(alloc, &rom, &frame, &cert, budget, window),
            Mode::Exact => check_parts_exact(alloc, &rom, &frame, &cert, budget, window),
        }
    }

    /// What a run writes over readers of one byte a read.
    fn run_byte_by_byte(&self, alloc: Global) -> Vec<u8> {
        let mut line = Vec::new(alloc);
        let _ = run_check(
            alloc,
            &mut slow(alloc, self.rom, 1),
            &mut slow(alloc, self.text, 1),
            &mut slow(alloc, self.frame, 1),
            self.asked.budget,
            self.asked.window,
            self.asked.mode,
            &mut Counted::new(&mut line),
        );
        line
    }

    /// Whether a run writes this report. A run is on the profile's machine.
    fn is_run(&self, alloc: Global, report: &[u8]) -> bool {
        match self.asked.machine {
            Machine::Profile => self.run_byte_by_byte(alloc).as_slice() == report,
            Machine::Board => true,
        }
    }

    /// Whether this is the report over both indexes, of the calls over bytes and of a run.
    pub fn is_reported(&self, alloc: Global, report: &str) -> bool {
        let verdict = self.judge_bytes(alloc);
        let line = report_of(&verdict);
        verdict == self.judge_parts(alloc)
            && verdict == self.judge_by_list(alloc)
            && verdict == self.judge_rom(alloc)
            && self.is_run(alloc, line.as_bytes())
            && line.as_bytes().strip_suffix(b"\n") == Some(report.as_bytes())
    }
}

impl Inputs {
    /// What is judged on a machine.
    pub fn case(&self, machine: Machine) -> Case<'_> {
        Case {
            rom: &self.rom,
            text: &self.text,
            frame: &self.frame,
            asked: Asked {
                machine,
                ..self.asked
            },
        }
    }
}

/// Stops the test unless a machine reports this of a row.
fn expect_reported(rt: &impl Abort, alloc: Global, row: &Row, machine: Machine, report: &str) {
    let inputs = row.inputs(rt, alloc);
    let is = inputs.case(machine).is_reported(alloc, report);
    expect(rt, is, &(machine, row.lines));
}

/// Stops the test unless the reports of each row of a table are those of its inputs.
pub fn judge_rows(rt: &impl Abort, alloc: Global, table: &str) {
    for row in &read_rows(rt, alloc, table) {
        expect_reported(rt, alloc, row, Machine::Profile, row.report);
        if !row.board.is_empty() {
            expect_reported(rt, alloc, row, Machine::Board, row.board);
        }
    }
}

#[test]
fn judges_rows(rt: HostRuntime) {
    judge_rows(&rt, rt.alloc(), WORKED);
}
