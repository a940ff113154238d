//! Running the maker over a reader and a writer.

ghost use Rattle.std.specs.Prelude.{◌≡◌, ◌≢◌, [], Err, IfErr, OnOk};
ghost use Rattle.std.specs.Io.KnownBytes.{Appends};
ghost use Rattle.dvg_words.specs.declared.machine.Machine.TheVariants.{Profile};
ghost use Rattle.dvg_text.specs.Devices.{count_after};
ghost use Rattle.dvg_cmd.specs.Making.{blames_frames_rom, blames_frames_writer, Makes, WritesMade, WritesMadePrefix, MakeFaultMeans};
ghost use Rattle.dvg_cmd.specs.Runs.{MOST_ROM_READ, IsReadTo};

use crate::making_frames::run_make_frames;
use dvg_cert::Key;
use dvg_spelling::MakeRunFault;
use dvg_text::{CountedRead, CountedWrite};
use dvg_words::{Machine, RomMap};
use std::alloc::Global;

/// Reads a ROM and writes the certificate of the shapes at these roots, and of all that they call or tail jump to, on the
/// profile's machine.
///
/// The ROM lies where the map says. It is read to its end, or to one byte past 4096, the length of the longest one. The first
/// failed read or write ends the run, and nothing is tried again. On 1, 60 to 63 and 70 nothing was written, on 73 a prefix of
/// the certificate.
#[tactic(auto, using(crate::proofs::FramesRuns::roots_written, crate::proofs::FramesRuns::roots_cut))]
pub fn run_make<R: CountedRead, W: CountedWrite>(
    alloc: Global,
    rom: &mut R,
    map: RomMap,
    roots: &[(u16, Key)],
    out: &mut W,
) -> Result<(), MakeRunFault>
    // 70 and 73 come exactly where their device failed in this call, and the device's count then rises by one.
    ensures rom_count { R.failures rom.new ≡ count_after (blames_frames_rom result) (R.failures rom.old) }
    ensures out_count { W.failures out.new ≡ count_after (blames_frames_writer result) (W.failures out.old) }

    // Unless its reader failed, the ROM was read to its end or to one byte past its limit, and no further.
    ensures rom_read { result ≢ Err MakeRunFault.ReadRom → IsReadTo MOST_ROM_READ (R.remaining rom.old) (R.remaining rom.new) }

    // What is written is the text of the list that is made for all bytes that the reader held, or a prefix of it, or nothing.
    ensures text { OnOk result (WritesMade (Makes Profile (R.remaining rom.old) map roots.now) map (W.contents out.old)
        (W.contents out.new)) }
    ensures prefix { result ≡ Err MakeRunFault.Write → WritesMadePrefix (Makes Profile (R.remaining rom.old) map roots.now) map
        (W.contents out.old) (W.contents out.new) }
    ensures nothing { IfErr result (λ fault. fault ≢ MakeRunFault.Write → Appends (W.contents out.old) (W.contents out.new) []) }

    // 1 comes for a wrong length alone, and 60 to 62 only where no made list exists, as the maker tells them.
    ensures refused { IfErr result (MakeFaultMeans Profile (R.remaining rom.old) map roots.now) }
{
    // No frame is read.
    let frames: &mut [R] = &mut [];
    run_make_frames(Machine::Profile, alloc, rom, map, roots, frames, out)
}
