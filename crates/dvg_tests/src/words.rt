//! The decode vectors of the instruction table, and what faults of images show. How far draws move the beam is in `board`, for both machines.

ghost use Rattle.dvg_words.specs.Values.{DrawFits};

use crate::expecting::{FaultRow, expect_faults, expect_same};
use dvg_words::{Draw, ImageFault, Instr, decode};

fn draw(dx: i16, dy: i16, lscale: u8, bright: u8) -> Option<Instr>
    requires { DrawFits (record { dx = dx; dy = dy; lscale = lscale; bright = bright }) }
{
    Some(Instr::Draw(Draw {
        dx,
        dy,
        lscale,
        bright,
    }))
}

#[test]
fn decodes(rt: HostRuntime) {
    for (first, second, instr) in [
        (0x92FF, 0x73FF, draw(1023, 767, 9, 7)),
        (0x9401, 0x7401, draw(-1, -1, 9, 7)),
        (0x0C01, 0xF800, draw(0, -1, 0, 15)),
        (0x8400, 0x0000, draw(0, 0, 8, 0)),
        (0xFA70, 0x0000, draw(0, 512, 3, 7)),
        (0xF672, 0x0000, draw(512, -512, 2, 7)),
        (0xFF8F, 0x0000, draw(-768, -768, 5, 8)),
        (
            0xA064,
            0x0190,
            Some(Instr::Labs {
                x: 400,
                y: 100,
                gscale: 0,
            }),
        ),
        (
            0xA3FF,
            0xF3FF,
            Some(Instr::Labs {
                x: 1023,
                y: 1023,
                gscale: 15,
            }),
        ),
        (0xA400, 0x0000, None),
        (0xA800, 0x0000, None),
        (0xA000, 0x0400, None),
        (0xA000, 0x0800, None),
        (0xB0B0, 0xFFFF, Some(Instr::Halt)),
        (0xCABC, 0xFFFF, Some(Instr::Jsrl { to: 0xABC })),
        (0xDFFF, 0xFFFF, Some(Instr::Rtsl)),
        (0xE201, 0xFFFF, Some(Instr::Jmpl { to: 0x201 })),
    ] {
        expect_same(&rt, &decode(first, second), &instr, &(first, second));
    }
}

/// The faults of images, their numbers and their texts.
const FAULTS: &[FaultRow<ImageFault>] = &[
    (ImageFault::RomLength, 1, "the ROM has a wrong length"),
    (ImageFault::FrameLength, 2, "the frame has a wrong length"),
];

#[test]
fn shows_faults(rt: HostRuntime) {
    expect_faults(&rt, rt.alloc(), FAULTS, |fault: &ImageFault| fault.number());
}
