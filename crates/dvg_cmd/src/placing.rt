//! Running over readers and a writer, to tell where calls may stand.

ghost use Rattle.std.specs.Prelude.{◌≡◌, ◌≢◌, [], Err, IfErr, OnOk};
ghost use Rattle.std.specs.Io.KnownBytes.{Appends};
ghost use Rattle.dvg_text.specs.Devices.{count_after};
ghost use Rattle.dvg_spelling.specs.Faults.{make_run_number};
ghost use Rattle.dvg_cmd.specs.MakingFrames.{blames_frames_writer, of_each, FramesFaultMeans, ReadsInputs};
ghost use Rattle.dvg_cmd.specs.Placing.{PlacesFor, WritesPlaces, WritesPlacesPrefix};

use crate::entry_lines::write_each;
use crate::inputs::InputBytes;
use dvg_cert::Key;
use dvg_make::{FramesFault, make_with_index};
use dvg_spelling::MakeRunFault;
use dvg_survey::entry_places;
use dvg_text::{CountedRead, CountedWrite, WriteFault};
use dvg_words::{Machine, RomMap, Window};
use std::alloc::{AllocError, Global};

/// Reads a ROM and frames as [`run_make_frames`](crate::run_make_frames) does, and writes a line for each entry of the certificate
/// that it would write: at which absolute whole places a call of the entry breaks no rule on this window. It says nothing of what
/// follows the call, and on the profile the places for `CLIPPED` say nothing of the screen.
///
/// The faults are those of `run_make_frames`, and 63 too where there is no memory for the places. On all but 73 nothing was written, on
/// 73 a prefix of the lines. Takes memory for the frames, the certificate and the places.
pub fn run_places<R1: CountedRead, R2: CountedRead, W: CountedWrite>(
    machine: Machine,
    alloc: Global,
    rom: &mut R1,
    map: RomMap,
    roots: &[(u16, Key)],
    frames: &mut [R2],
    window: Window,
    out: &mut W,
) -> Result<(), MakeRunFault>
    // 70, 71 and 73 come exactly where their device failed in this call, and the device's count then rises by one. Unless a reader failed
    // or memory was out, all was read to its end or to one byte past its limit, and no further.
    ensures read { ReadsInputs R1.remaining R1.failures R2.remaining R2.failures rom.old rom.new frames.old frames.new result }
    ensures out_count { W.failures out.new ≡ count_after (blames_frames_writer result) (W.failures out.old) }

    // What is written are the lines of the entries that are made for all bytes that the readers held, or a prefix of them, or nothing.
    ensures text { OnOk result (WritesPlaces (PlacesFor machine window (R1.remaining rom.old) map roots.now
        (of_each (λ frame. R2.remaining frame) frames.old)) (W.contents out.old) (W.contents out.new) (W.whole_writes out.old)
        (W.whole_writes out.new)) }
    ensures prefix { result ≡ Err MakeRunFault.Write → WritesPlacesPrefix
        (PlacesFor machine window (R1.remaining rom.old) map roots.now
        (of_each (λ frame. R2.remaining frame) frames.old)) (W.contents out.old) (W.contents out.new) }
    ensures nothing { IfErr result (λ fault. fault ≢ MakeRunFault.Write
        → Appends (W.contents out.old) (W.contents out.new) []) }

    // 1 and 2 come for a wrong length alone, and 60 to 62 as the maker refuses.
    ensures refused { IfErr result (λ fault. make_run_number fault ≢ 63
        → FramesFaultMeans machine (R1.remaining rom.old) map roots.now (of_each (λ frame. R2.remaining frame) frames.old) fault) }
{
    let bytes = InputBytes::read(alloc, rom, frames)?;
    let images = bytes.images(machine, alloc, map)?;
    let made = make_with_index(alloc, &images.rom, roots, &images.frames)?;
    let places = entry_places(alloc, &images.rom, &made.cert, &made.entries, &window)?;
    Ok(write_each(&places, out)?)
}
