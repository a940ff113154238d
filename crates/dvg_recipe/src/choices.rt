//! Items that a piece allows, as words: those at the ends of its ranges.

use crate::piece::{DrawRange, PieceKind, PlaceRange, Span};
use dvg_words::Format;
use std::alloc::{AllocError, Global};

/// The words of an item. A short instruction's second word is 0.
#[derive(Clone, Copy)]
pub struct Words {
    pub first: u16,
    pub second: u16,
}

/// The twelve bits of a coordinate of a LABS, in two's complement.
fn coordinate(place: i16) -> u16 {
    let size = place.unsigned_abs() % 4096;
    if place < 0 {
        (4096 - size) % 4096
    } else {
        size
    }
}

/// The ten bits of a VCTR's size, and its sign.
fn vctr_size(size: i16) -> u16 {
    let sign = if size < 0 { 0x0400 } else { 0 };
    sign | (size.unsigned_abs() & 0x03FF)
}

/// The two bits of an SVEC's size, which says 256ths, and its sign.
fn svec_size(size: i16) -> u16 {
    let sign = if size < 0 { 0x0004 } else { 0 };
    sign | ((size.unsigned_abs() >> 8) & 0x0003)
}

/// A LABS to a place at a scale.
fn labs(x: i16, y: i16, scale: u8) -> Words {
    Words {
        first: 0xA000 | coordinate(y),
        second: (u16::from(scale) & 0x000F) << 12 | coordinate(x),
    }
}

/// A VCTR.
fn vctr(lscale: u8, dx: i16, dy: i16, bright: i16) -> Words {
    Words {
        first: (u16::from(lscale) & 0x000F) << 12 | vctr_size(dy),
        second: (bright.unsigned_abs() & 0x000F) << 12 | vctr_size(dx),
    }
}

/// An SVEC. Its scale code is the local scale less 2: its low bit is bit 11, and its high bit is bit 3.
fn svec(lscale: u8, dx: i16, dy: i16, bright: i16) -> Words {
    let code = u16::from(lscale.saturating_sub(2));
    let scale = (code & 0x0001) << 11 | (code & 0x0002) << 2;
    Words {
        first: 0xF000
            | scale
            | svec_size(dy) << 8
            | (bright.unsigned_abs() & 0x000F) << 4
            | svec_size(dx),
        second: 0,
    }
}

/// A JSRL to a word address.
pub fn jsrl(to: u16) -> Words {
    Words {
        first: 0xC000 | (to & 0x0FFF),
        second: 0,
    }
}

/// A JMPL to a word address.
pub fn jmpl(to: u16) -> Words {
    Words {
        first: 0xE000 | (to & 0x0FFF),
        second: 0,
    }
}

/// The brightest draw of a range of these sizes.
pub fn draw(range: &DrawRange, dx: i16, dy: i16) -> Words {
    match range.format {
        Format::Short => svec(range.lscale, dx, dy, range.bright.high),
        Format::Long => vctr(range.lscale, dx, dy, range.bright.high),
    }
}

/// The ends of a range.
fn ends(range: Span) -> [i16; 2] {
    [range.low, range.high]
}

/// LABS to the corners of a range, at each of its scales.
fn of_place(alloc: Global, range: &PlaceRange) -> Result<Vec<Words>, AllocError> {
    let mut all = Vec::new(alloc);
    for scale in 0..16u8 {
        if range.scales[usize::from(scale)] {
            for x in ends(range.x) {
                for y in ends(range.y) {
                    all.push(labs(x, y, scale))?;
                }
            }
        }
    }
    Ok(all)
}

/// JSRLs to each of some word addresses.
fn of_calls(alloc: Global, targets: &[u16]) -> Result<Vec<Words>, AllocError> {
    let mut all = Vec::new(alloc);
    for &to in targets {
        all.push(jsrl(to))?;
    }
    Ok(all)
}

/// Items that a piece allows, among them one for each end of what its items do; none of draws, whose sizes are chosen when they are
/// written.
pub fn choices(alloc: Global, kind: &PieceKind) -> Result<Vec<Words>, AllocError> {
    match kind {
        PieceKind::Place(range) => of_place(alloc, range),
        PieceKind::Call(targets) => of_calls(alloc, targets),
        PieceKind::Draw(_) => Ok(Vec::new(alloc)),
        PieceKind::Fixed { first, second } => {
            let mut all = Vec::new(alloc);
            all.push(Words {
                first: *first,
                second: *second,
            })?;
            Ok(all)
        }
    }
}
