//! How far inputs are read, and what the statuses and messages of runs are.

use crate::devices::slow;
use crate::expecting::{FaultRow, expect, expect_faults, expect_lines, expect_same};
use crate::inputs::{EMPTY, STROKE, STROKE_FRAME, rom_of};
use dvg_cmd::{
    ASTEROIDS, Counted, Detail, EntryFault, FrameCall, FrameDetail, Lines, Listing, Machine,
    MakeFault, MakeRunFault, Mode, NamedReader, Outcome, OwnCertificates, RunFault, SCREEN,
    make_report_of, make_status_of, map_of, message_of, run_check, run_frames, run_make, status_of,
};
use std::alloc::{AllocError, Global};
use std::fmt::Debug;
use std::iter;
use std::process::Abort;

/// Reads a ROM, a frame and a certificate in a run, by readers that give so many bytes a read, and tells of the three how often each was
/// read, and how many bytes nobody read.
fn told_of_readers(alloc: Global, inputs: [&[u8]; 3], most: usize) -> ([u32; 3], [usize; 3]) {
    let [rom, frame, cert] = inputs;
    let mut rom = slow(alloc, rom, most);
    let mut frame = slow(alloc, frame, most);
    let mut cert = slow(alloc, cert, most);
    let _ = run_check(
        alloc,
        &mut rom,
        &mut cert,
        &mut frame,
        20000,
        SCREEN,
        Mode::Bound,
        &mut Counted::new(Vec::new(alloc)),
    );
    let (rom, frame, cert) = (rom.into_inner(), frame.into_inner(), cert.into_inner());
    let left = [rom.rest.len(), frame.rest.len(), cert.rest.len()];
    ([rom.calls, frame.calls, cert.calls], left)
}

/// Each row has the lengths of a ROM, a frame and a certificate of zeros; how many bytes a read gives; how often each input is read; and how
/// many bytes of each are left. An input is read to its end, which is met once, or to one byte past its limit. A certificate that is
/// refused is read no further than its first piece, but as far as the others where the frame was refused before it.
const LENGTHS: &[([usize; 3], usize, [u32; 3], [usize; 3])] = &[
    ([0, 0, 0], 1, [1, 1, 1], [0, 0, 0]),
    ([2047, 10, 0], 1, [2048, 11, 1], [0, 0, 0]),
    ([2048, 2048, 0], 1, [2049, 2049, 1], [0, 0, 0]),
    ([2049, 2049, 0], 1, [2050, 2049, 1], [0, 0, 0]),
    ([4096, 2049, 0], 1, [4097, 2049, 1], [0, 0, 0]),
    ([4110, 2100, 0], 1, [4097, 2049, 1], [13, 51, 0]),
    (
        [2048, 10, 1_048_600],
        1,
        [2049, 11, 4096],
        [0, 0, 1_044_504],
    ),
    ([2048, 0, 1_048_600], 1, [2049, 1, 1_048_577], [0, 0, 23]),
    ([2048, 0, 1_048_600], 4096, [2, 1, 257], [0, 0, 23]),
];

#[test]
fn reads_each_byte_once(rt: HostRuntime) {
    let zeros = vec![in rt.alloc(); 0u8; 1_048_600].expect(&rt, "memory");
    for &(lengths, most, reads, left) in LENGTHS {
        let rom = zeros.get(..lengths[0]).unwrap_or(&[]);
        let frame = zeros.get(..lengths[1]).unwrap_or(&[]);
        let cert = zeros.get(..lengths[2]).unwrap_or(&[]);
        let inputs = [rom, frame, cert];
        let told = told_of_readers(rt.alloc(), inputs, most);
        expect_same(&rt, &told, &(reads, left), &lengths);
    }
}

/// Stops the test unless a frame, or one that can't be opened, has this outcome and this line, over the stroke's ROM by its own
/// certificate.
fn expect_line(
    rt: &impl Abort,
    alloc: Global,
    frame: Option<&'static [u8]>,
    outcome: Outcome,
    line: &str,
) {
    let rom = rom_of(rt, alloc, STROKE);
    let mut judge = OwnCertificates {
        machine: Machine::Profile,
        rom: &rom,
        map: ASTEROIDS,
        budget: 20000,
        window: SCREEN,
        others: None,
    };
    let frame = NamedReader {
        name: format!(in alloc; "frame").expect(rt, "memory for a name"),
        reader: frame.map(|bytes| slow(alloc, bytes, 1)),
    };
    let listing = Listing {
        detail: FrameDetail::Answer(Detail::Line),
        lines: Lines::All,
        summary: false,
    };
    let mut out = Counted::new(Vec::new(alloc));
    let judged = run_frames(
        alloc,
        &mut judge,
        None,
        iter::once(frame),
        listing,
        &mut out,
    );
    expect_same(rt, &judged, &Ok(outcome), &line);
    let written = out.into_inner();
    expect_same(rt, &str::from_utf8(&written).unwrap_or(""), &line, &line);
}

#[test]
fn judges_one_frame(rt: HostRuntime) {
    expect_line(
        &rt,
        rt.alloc(),
        Some(STROKE_FRAME),
        Outcome::Accepted,
        "frame: accepted shapes=1 words=7 depth=1\n",
    );
    expect_line(
        &rt,
        rt.alloc(),
        None,
        Outcome::Unread,
        "frame: cannot read\n",
    );
}

/// Stops the test unless each outcome has its status, which this gives.
fn expect_statuses<E: Debug, S: Fn(&E) -> u8>(rt: &impl Abort, statuses: &[(E, u8)], status_of: S)
    requires { S.IsAlwaysCallable status_of }
{
    for (outcome, status) in statuses {
        expect_same(rt, &status_of(outcome), status, outcome);
    }
}

/// Outcomes of runs, and their statuses.
const STATUSES: &[(Outcome, u8)] = &[
    (Outcome::Accepted, 0),
    (Outcome::Refused, 1),
    (Outcome::NoMemory, 4),
    (Outcome::Unread, 3),
];

#[test]
fn says_how_it_ended(rt: HostRuntime) {
    expect_statuses(&rt, STATUSES, |outcome: &Outcome| status_of(&Ok(*outcome)));
    for &(fault, _, _) in FAULTS {
        let status = if fault == RunFault::Memory { 4 } else { 3 };
        expect_same(&rt, &status_of(&Err(fault)), &status, &fault);
    }
}

/// Faults of runs, their numbers and their texts.
const FAULTS: &[FaultRow<RunFault>] = &[
    (RunFault::ReadRom, 70, "cannot read the ROM"),
    (RunFault::ReadFrame, 71, "cannot read the frame"),
    (RunFault::ReadRecipe, 71, "cannot read the recipe"),
    (RunFault::ReadCert, 72, "cannot read the certificate"),
    (RunFault::Write, 73, "cannot write"),
    (RunFault::Memory, 74, "out of memory"),
];

/// A message is the text after the name of the program.
#[test]
fn shows_faults(rt: HostRuntime) {
    expect_faults(&rt, rt.alloc(), FAULTS, |fault: &RunFault| fault.number());
    for (fault, _, text) in FAULTS {
        let shown = message_of(fault).strip_prefix("dvgcheck: ");
        expect_same(&rt, &shown, &Some(*text), fault);
    }
}

const UNSTRAIGHT: MakeRunFault = MakeRunFault::Make(MakeFault::Unstraight { word: 0x0AB });

/// Faults of the maker.
const MAKE_FAULTS: &[MakeRunFault] = &[
    MakeRunFault::RomLength,
    UNSTRAIGHT,
    MakeRunFault::Make(MakeFault::Deep),
    MakeRunFault::Make(MakeFault::TooLarge),
    MakeRunFault::Make(MakeFault::Memory),
    MakeRunFault::ReadRom,
    MakeRunFault::Write,
];

/// Their numbers and texts, the statuses that they end with, and what is written of them.
const MAKE_ENDS: &str = "\
1, the ROM has a wrong length; 1, refused 1
60, no shape can have the item at 0AB; 1, refused 60 at 0AB
61, the shapes call too deep; 1, refused 61
62, the shapes are too large for a certificate; 1, refused 62
63, there is no memory for the certificate; 4, dvgcheck: out of memory
70, cannot read the ROM; 3, dvgcheck: cannot read the ROM
73, cannot write; 3, dvgcheck: cannot write";

/// A line without its end.
fn line_of(report: &[u8]) -> &str {
    let line = report.strip_suffix(b"\n").unwrap_or(b"no line");
    str::from_utf8(line).unwrap_or("no text")
}

#[test]
fn says_how_making_ended(rt: HostRuntime) {
    assert_eq!(rt; make_status_of(&Ok(())), 0);
    expect_lines(&rt, MAKE_FAULTS, MAKE_ENDS, |fault: &MakeRunFault| {
        let (number, status) = (fault.number(), make_status_of(&Err(*fault)));
        let report = make_report_of(fault);
        let line = line_of(report.as_bytes());
        format!(in rt.alloc(); "{number}, {fault}; {status}, {line}")
    });
}

const CALL: FrameCall = FrameCall {
    frame: 3,
    at: 0x03E,
};

/// Why the maker has no entry for the call of a frame.
const BLAMED: &[EntryFault] = &[
    EntryFault::Unstraight { word: 0x418 },
    EntryFault::Deep,
    EntryFault::TooManyWords,
    EntryFault::TooManyEntries,
    EntryFault::Memory,
];

/// Its number and status, and its line behind the frame's name.
const BLAMED_ENDS: &str = "\
60, 1: refused 60 at 418 for frame at 03E
61, 1: refused 61 for frame at 03E
62, 1: refused 62 for frame at 03E
62, 1: refused 62 by entries for frame at 03E
63, 4: out of memory";

/// Other faults of the maker for frames.
const FRAMES_FAULTS: &[MakeRunFault] = &[
    MakeRunFault::RomLength,
    MakeRunFault::FrameLength { frame: 3 },
    MakeRunFault::Make(MakeFault::Memory),
    MakeRunFault::ReadRom,
    MakeRunFault::ReadFrame,
    MakeRunFault::Write,
];

/// Their numbers and statuses, and their lines, of one behind the frame's name.
const FRAMES_ENDS: &str = "\
1, 1, refused 1
2, 1: refused 2
63, 4, dvgcheck: out of memory
70, 3, dvgcheck: cannot read the ROM
71, 3, dvgcheck: cannot read the frame
73, 3, dvgcheck: cannot write";

/// What is told of a fault: its line behind a comma, if it names no frame.
fn end_of(alloc: Global, fault: &MakeRunFault) -> Result<String, AllocError> {
    let (number, status) = (fault.number(), make_status_of(&Err(*fault)));
    let report = make_report_of(fault);
    let line = line_of(report.as_bytes());
    match fault.frame() {
        Some(_) => format!(in alloc; "{number}, {status}{line}"),
        None => format!(in alloc; "{number}, {status}, {line}"),
    }
}

#[test]
fn says_how_making_for_frames_ended(rt: HostRuntime) {
    expect_lines(&rt, BLAMED, BLAMED_ENDS, |why: &EntryFault| {
        let fault = MakeRunFault::Call {
            call: CALL,
            why: *why,
        };
        end_of(rt.alloc(), &fault)
    });
    expect_lines(
        &rt,
        FRAMES_FAULTS,
        FRAMES_ENDS,
        |fault: &MakeRunFault| end_of(rt.alloc(), fault),
    );
}

/// Maps, how many zeros the ROM has, and what is written where there is no root.
const ROOTLESS: &[(&str, usize, Result<(), MakeRunFault>, &[u8])] = &[
    ("800/BFF", 2048, Ok(()), EMPTY),
    ("400/7FF", 2048, Ok(()), b"dvgcert 2\nrom 400 7FF\ndone 0\n"),
    ("BFF/BFF", 2, Ok(()), b"dvgcert 2\nrom BFF BFF\ndone 0\n"),
    ("BFF/BFF", 2048, Err(MakeRunFault::RomLength), b""),
];

#[test]
fn makes_nothing_of_no_roots(rt: HostRuntime) {
    let zeros = [0; 2048];
    for &(map, bytes, want, text) in ROOTLESS {
        let map = map_of(map).expect(&rt, "a map");
        let mut told = Vec::new(rt.alloc());
        let rom = zeros.get(..bytes).unwrap_or(&zeros);
        let mut reader = slow(rt.alloc(), rom, 512);
        let end = run_make(
            rt.alloc(),
            &mut reader,
            map,
            &[],
            &mut Counted::new(&mut told),
        );
        expect_same(&rt, &end, &want, &bytes);
        expect(&rt, told.as_slice() == text, &bytes);
    }
}
