//! Checks of shapes, of bytes, of frames and of files, so many times.

ghost use Rattle.std.specs.Prelude.{◌<◌, ◌≤◌};

use crate::entries::{cert_of, items_of};
use crate::filling::Filling;
use crate::reading::text_of;
use anyhow::{Result, bail};
use dvg_cert::{Cert, HashIndex, MOST_WORDS};
use dvg_check::{JudgedShapes, Mode, check_shapes};
use dvg_verdict::check_on;
use dvg_words::{FrameImage, Machine, ROM_LAST, RomImage, SCREEN};
use std::alloc::{AllocError, Global};
use std::fs;

/// A frame that ends at once.
const HALT: &[u8] = &[0x00, 0xB0];

/// A LABS to 2, 0 at global scale 0.
const START: &[u8] = &[0x00, 0xA0, 0x02, 0x00];

/// How many items a frame has between its LABS and its HALT.
const FRAME_ITEMS: u16 = 1020;

/// What a frame is full of, over shapes of draws: calls of one shape, of all shapes by turns, or lit strokes to and fro.
#[derive(Clone, Copy, Debug, PartialEq, Eq)]
pub enum Frame {
    OneShape,
    AllShapes,
    Strokes,
}

impl Frame {
    /// The frame of this name.
    pub fn of_name(name: &str) -> Result<Frame> {
        Ok(match name {
            "one-shape" => Frame::OneShape,
            "all-shapes" => Frame::AllShapes,
            "strokes" => Frame::Strokes,
            _ => bail!("no frame is full of this"),
        })
    }

    /// A word of the frame, where so many words of the ROM have entries.
    fn word_at(self, index: u16, shapes: u16) -> u16
        requires some { 1 ≤ shapes }
        requires few { shapes ≤ 1024 }
    {
        match self {
            // A stroke to the left and one back.
            Frame::OneShape => 0xC000 + ROM_LAST - 2,
            Frame::AllShapes => 0xC000 + ROM_LAST + 1 - shapes + index % shapes,
            Frame::Strokes => if index % 2 == 0 { 0xF071 } else { 0xF075 },
        }
    }

    fn bytes(self, alloc: Global, shapes: u16) -> Result<Vec<u8>, AllocError>
        requires some { 1 ≤ shapes }
        requires few { shapes ≤ 1024 }
    {
        let mut bytes = Vec::new(alloc);
        bytes.extend_from_slice(START)?;
        for index in 0..FRAME_ITEMS {
            bytes.extend_from_slice(&self.word_at(index, shapes).to_le_bytes())?;
        }
        bytes.extend_from_slice(HALT)?;
        Ok(bytes)
    }
}

/// A ROM that is full of one thing, and so many entries of it, on a machine.
#[derive(Clone, Copy)]
pub struct Filled {
    pub machine: Machine,
    pub filling: Filling,
    pub count: u16,
}

impl Filled {
    /// The bytes of the ROM, and the certificate of the entries.
    fn made(self, alloc: Global) -> Result<(Vec<u8>, Cert)> {
        let bytes = self.filling.rom_bytes(alloc)?;
        let cert = cert_of(self.machine, alloc, self.filling, self.count)?;
        Ok((bytes, cert))
    }
}

/// Checks the shapes of such entries so many times, and gives how many items they have together.
pub fn check_entries(alloc: Global, filled: Filled, times: u32) -> Result<u64> {
    let (bytes, cert) = filled.made(alloc)?;
    let Ok(rom) = RomImage::from_bytes_on(filled.machine, &bytes, cert.map()) else {
        bail!("these are not the bytes of a ROM");
    };
    let index = HashIndex::new(alloc, &cert)?;
    for _ in 0..times {
        if check_shapes(&rom, &cert, &index, &SCREEN).is_err() {
            bail!("a shape was refused");
        }
    }
    Ok(items_of(filled.filling, &cert))
}

/// Checks a filled ROM, its certificate's text and a frame that is HALT alone, `times` times. Gives how many items all shapes of the ROM
/// have.
pub fn check_bytes(alloc: Global, filled: Filled, times: u32) -> Result<u64> {
    let (rom, cert) = filled.made(alloc)?;
    let text = text_of(alloc, &cert)?;
    for _ in 0..times {
        check_on(
            filled.machine,
            alloc,
            &rom,
            &text,
            HALT,
            1,
            SCREEN,
            Mode::Bound,
        )?;
    }
    Ok(items_of(filled.filling, &cert))
}

/// Checks a frame over so many entries of draws so many times, and gives how many items it has between its LABS and its HALT.
pub fn check_frames(
    machine: Machine,
    alloc: Global,
    frame: Frame,
    count: u16,
    times: u32,
) -> Result<u64> {
    if !(16..=4096).contains(&count) {
        bail!("a frame is checked over 16 to 4096 entries");
    }
    let rom = Filling::Draws.rom_bytes(alloc)?;
    let frame = frame.bytes(alloc, count / 4)?;
    let cert = cert_of(machine, alloc, Filling::Draws, count)?;
    let (Ok(rom), Ok(frame)) = (
        RomImage::from_bytes_on(machine, &rom, cert.map()),
        FrameImage::from_bytes(&frame),
    ) else {
        bail!("these are not the bytes of a ROM and of a frame");
    };
    let index = HashIndex::new(alloc, &cert)?;
    let Ok(shapes) = JudgedShapes::judge(&rom, &cert, &index, SCREEN, Mode::Bound) else {
        bail!("a shape was refused");
    };
    for _ in 0..times {
        if shapes.check_frame(&frame, MOST_WORDS).is_err() {
            bail!("the frame was refused");
        }
    }
    Ok(u64::from(FRAME_ITEMS))
}

/// Checks what the files `bench.rom`, `bench.cert` and `bench.frame` hold so many times, and gives how many bytes the
/// certificate has, which has so many entries.
pub fn check_files(machine: Machine, rt: &HostRuntime, count: u16, times: u32) -> Result<u64> {
    let rom = fs::read(rt, "bench.rom")?;
    let text = fs::read(rt, "bench.cert")?;
    let frame = fs::read(rt, "bench.frame")?;
    for _ in 0..times {
        let yes = check_on(
            machine,
            rt.alloc(),
            &rom,
            &text,
            &frame,
            MOST_WORDS,
            SCREEN,
            Mode::Bound,
        )?;
        if yes.shapes != u32::from(count) {
            bail!("the certificate has another number of entries");
        }
    }
    Ok(text.len() as u64)
}
