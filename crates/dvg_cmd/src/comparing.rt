//! Running over readers and a writer, to tell what a change of a ROM touches.

ghost use Rattle.std.specs.Prelude.{◌≡◌, ◌≢◌, ◌↔◌, ◌<◌, [], ◌∷◌, Err, IfOk, IfErr, IsTrue, OnOk, length, string_bytes};
ghost use Rattle.std.specs.Io.KnownBytes.{Appends};
ghost use Rattle.dvg_text.specs.Devices.{count_after};
ghost use Rattle.dvg_spelling.specs.Faults.{make_run_number};
ghost use Rattle.dvg_spelling.specs.Touched.{frame_touched_line};
ghost use Rattle.dvg_cmd.specs.Comparing.{ComparesFor, ComparisonFaultMeans, comparison_lines, WritesComparison, WritesComparisonPrefix};
ghost use Rattle.dvg_cmd.specs.MakingFrames.{blames_frames_rom, blames_a_frame, blames_frames_writer, of_each, FailedAfter, EachRead};
ghost use Rattle.dvg_cmd.specs.Sent.{Writes};
ghost use Rattle.dvg_cmd.specs.Runs.{MOST_ROM_READ, IsReadTo};

use crate::entry_lines::write_each;
use crate::inputs::{InputBytes, read_frames, read_maker_rom, rom_image};
use dvg_cert::Key;
use dvg_make::FramesFault;
use dvg_spelling::MakeRunFault;
use dvg_survey::{Comparison, TouchedEntry, compare};
use dvg_text::{CountedRead, CountedWrite, WriteFault, write_lines};
use dvg_words::{Machine, RomMap};
use std::alloc::Global;

/// Writes that the frame of this name reaches a touched entry.
fn write_touched<W: CountedWrite>(name: &str, out: &mut W) -> Result<(), WriteFault>
    ensures { Writes W.contents W.whole_writes W.failures out.old out.new result (frame_touched_line name.now ∷ []) }
{
    write_lines(name.as_bytes(), b": touched\n", &[], out)
}

/// Writes the lines of what a change touches: of the entries, and of the frames that reach one, by their names.
fn write_comparison<W: CountedWrite>(
    names: &[String],
    comparison: &Comparison,
    out: &mut W,
) -> Result<(), WriteFault>
    ensures { Writes W.contents W.whole_writes W.failures out.old out.new result
        (comparison_lines (of_each (λ name. string_bytes name) names.now) comparison.now) }
{
    write_each(&comparison.entries, out)?;
    let reaching = comparison.reaching.as_slice();
    for i in 0..names.len().min(reaching.len()) {
        if reaching[i] {
            write_touched(names[i].as_str(), out)?;
        }
    }
    Ok(())
}

/// Whether there is a touched entry.
fn any_touched(entries: &[TouchedEntry]) -> bool
    ensures { IsTrue result ↔ (0 < length entries.now) }
{
    !entries.is_empty()
}

/// Reads two ROMs at this map, and frames as [`run_make_frames`](crate::run_make_frames) does, and writes what the change from the first ROM
/// to the other touches: a line for each touched entry of the certificate that `run_make_frames` would write over the first ROM, and one
/// for each frame, by its name, whose own certificate has a touched entry. Answers whether an entry is touched.
///
/// A shape is touched if it reads a word in which the ROMs differ. What is not touched is the same over both ROMs: the laws of
/// `dvg_survey` say so. The ROMs are read first. The faults are those of `run_make_frames` over the first ROM, 1 and 70 also for the other
/// one, and 63 too where there is no memory for the answer. On all but 73 nothing was written, on 73 a prefix of the lines. Takes memory
/// for the frames, a certificate at a time and the answer.
pub fn run_comparison<R1: CountedRead, R2: CountedRead, W: CountedWrite>(
    machine: Machine,
    alloc: Global,
    rom: &mut R1,
    other: &mut R1,
    map: RomMap,
    roots: &[(u16, Key)],
    frames: &mut [R2],
    names: &[String],
    out: &mut W,
) -> Result<bool, MakeRunFault>
    // 70, 71 and 73 come exactly where a device of theirs failed in this call, and the device's count then rises by one.
    ensures rom_counts { FailedAfter (blames_frames_rom result) (R1.failures rom.old ∷ R1.failures other.old ∷ [])
        (R1.failures rom.new ∷ R1.failures other.new ∷ []) }
    ensures frame_counts { FailedAfter (blames_a_frame result) (of_each (λ frame. R2.failures frame) frames.old)
        (of_each (λ frame. R2.failures frame) frames.new) }
    ensures out_count { W.failures out.new ≡ count_after (blames_frames_writer result) (W.failures out.old) }

    // On an answer, ROMs and frames were read to their end or to one byte past their limit, and no further. Where a ROM's reader
    // failed, no frame was read.
    ensures rom_read { result ≢ Err MakeRunFault.ReadRom
        → IsReadTo MOST_ROM_READ (R1.remaining rom.old) (R1.remaining rom.new) }
    ensures other_read { result ≢ Err MakeRunFault.ReadRom
        → IsReadTo MOST_ROM_READ (R1.remaining other.old) (R1.remaining other.new) }
    ensures frames_read { OnOk result (EachRead (of_each (λ frame. R2.remaining frame) frames.old)
        (of_each (λ frame. R2.remaining frame) frames.new)) }
    ensures frames_unread { result ≡ Err MakeRunFault.ReadRom → frames.new ≡ frames.old }

    // What is written are the lines of what the change touches, by all bytes that the readers held, or a prefix of them, or nothing.
    ensures text { IfOk result (λ touched. WritesComparison (ComparesFor machine (R1.remaining rom.old)
        (R1.remaining other.old) map roots.now
        (of_each (λ frame. R2.remaining frame) frames.old)) (of_each (λ name. string_bytes name) names.now) touched
        (W.contents out.old) (W.contents out.new) (W.whole_writes out.old) (W.whole_writes out.new)) }
    ensures prefix { result ≡ Err MakeRunFault.Write → WritesComparisonPrefix (ComparesFor machine (R1.remaining rom.old)
        (R1.remaining other.old) map roots.now (of_each (λ frame. R2.remaining frame) frames.old))
        (of_each (λ name. string_bytes name) names.now)
        (W.contents out.old) (W.contents out.new) }
    ensures nothing { IfErr result (λ fault. fault ≢ MakeRunFault.Write
        → Appends (W.contents out.old) (W.contents out.new) []) }

    // 1 and 2 come for a wrong length alone, and 60 to 62 as the maker refuses over the first ROM.
    ensures refused { IfErr result (λ fault. make_run_number fault ≢ 63 → ComparisonFaultMeans machine (R1.remaining rom.old)
        (R1.remaining other.old) map roots.now (of_each (λ frame. R2.remaining frame) frames.old) fault) }
{
    let rom = read_maker_rom(rom)?;
    let other_bytes = read_maker_rom(other)?;
    let frames = read_frames(alloc, frames)?;
    let bytes = InputBytes { rom, frames };
    let other_image = rom_image(machine, &other_bytes, map)?;
    let images = bytes.images(machine, alloc, map)?;
    let comparison = compare(alloc, &images.rom, &other_image, roots, &images.frames)?;
    write_comparison(names, &comparison, out)?;
    Ok(any_touched(&comparison.entries))
}
