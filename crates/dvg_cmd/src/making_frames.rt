//! Running the maker for roots and frames over readers and a writer.

ghost use Rattle.std.specs.Prelude.{◌≡◌, ◌≢◌, [], Err, IfErr, OnOk};
ghost use Rattle.std.specs.Io.KnownBytes.{Appends};
ghost use Rattle.dvg_text.specs.Devices.{count_after};
ghost use Rattle.dvg_cmd.specs.Making.{WritesMade, WritesMadePrefix};
ghost use Rattle.dvg_cmd.specs.MakingFrames.{blames_frames_writer, of_each, MakesForFrames, FramesFaultMeans, ReadsInputs};

use crate::inputs::InputBytes;
use dvg_cert::Key;
use dvg_make::{FramesFault, make_for_frames};
use dvg_spelling::MakeRunFault;
use dvg_text::{CountedRead, CountedWrite, WriteFault, write_cert};
use dvg_words::{Machine, RomMap};
use std::alloc::Global;

/// Reads a ROM and frames, and writes the certificate of the shapes at these roots, of those that the frames call, and of all
/// that these call or tail jump to, on a machine.
///
/// The ROM lies where the map says. It is read to its end, or to one byte past 4096, the length of the longest one, and then
/// each frame in order, to its end or to one byte past 2048. The first failed read or write ends the run, and nothing is tried
/// again; once all is read, the first that applies of 1, 2 and what the maker refuses. On all but 73 nothing was written, on 73 a
/// prefix of the certificate. Takes memory for the frames, too.
pub fn run_make_frames<R1: CountedRead, R2: CountedRead, W: CountedWrite>(
    machine: Machine,
    alloc: Global,
    rom: &mut R1,
    map: RomMap,
    roots: &[(u16, Key)],
    frames: &mut [R2],
    out: &mut W,
) -> Result<(), MakeRunFault>
    // 70, 71 and 73 come exactly where their device failed in this call, and the device's count then rises by one. Unless a reader failed
    // or memory was out, all was read to its end or to one byte past its limit, and no further.
    ensures read { ReadsInputs R1.remaining R1.failures R2.remaining R2.failures rom.old rom.new frames.old frames.new result }
    ensures out_count { W.failures out.new ≡ count_after (blames_frames_writer result) (W.failures out.old) }

    // What is written is the text of the list that is made for all bytes that the readers held, or a prefix of it, or nothing.
    ensures text { OnOk result (WritesMade (MakesForFrames machine (R1.remaining rom.old) map roots.now
        (of_each (λ frame. R2.remaining frame) frames.old)) map (W.contents out.old) (W.contents out.new)) }
    ensures prefix { result ≡ Err MakeRunFault.Write → WritesMadePrefix
        (MakesForFrames machine (R1.remaining rom.old) map roots.now
        (of_each (λ frame. R2.remaining frame) frames.old)) map (W.contents out.old) (W.contents out.new) }
    ensures nothing { IfErr result (λ fault. fault ≢ MakeRunFault.Write
        → Appends (W.contents out.old) (W.contents out.new) []) }

    // 1 and 2 come for a wrong length alone, and 60 to 62 as the maker refuses.
    ensures refused { IfErr result (FramesFaultMeans machine (R1.remaining rom.old) map roots.now
        (of_each (λ frame. R2.remaining frame) frames.old)) }
{
    let bytes = InputBytes::read(alloc, rom, frames)?;
    let images = bytes.images(machine, alloc, map)?;
    let cert = make_for_frames(alloc, &images.rom, roots, &images.frames)?;
    Ok(write_cert(&cert, out)?)
}
