//! Running over two dumps of a ROM, to tell how they differ and by which faults.

ghost use Rattle.std.specs.Prelude.{◌≡◌, ◌≢◌, ◌≤◌, ◌⊎◌, [], ◌∷◌, Err, None, IfOk, IfErr, MatchResult, length, string_bytes};
ghost use Rattle.std.specs.Io.KnownBytes.{Appends};
ghost use Rattle.dvg_text.specs.Devices.{count_after};
ghost use Rattle.dvg_cmd.specs.ExplainingDiff.{IsDumpLength, IsNoDump, TellsDifferences, TellsDifferencesPrefix};
ghost use Rattle.dvg_cmd.specs.MakingFrames.{blames_frames_rom, blames_frames_writer, FailedAfter};
ghost use Rattle.dvg_dumps.specs.declared.measuring.TheConstants.{MOST_BYTES};
ghost use Rattle.dvg_cmd.specs.Runs.{MOST_ROM_READ, IsReadTo};
ghost use Rattle.dvg_make.specs.declared.fault.MakeFault.TheVariants as making;

use crate::inputs::{RomBytes, read_maker_rom};
use dvg_account::dump_text;
use dvg_dumps::{Differences, MOST_BYTES, differences_of};
use dvg_labels::Labels;
use dvg_spelling::{MakeRunFault, dump_line_of};
use dvg_text::{CountedRead, CountedWrite, write_lines};
use dvg_words::RomMap;
use std::alloc::Global;

/// What was read of a dump, if its length is from 1 byte to the longest ROM's.
fn dump_of(bytes: &RomBytes) -> Result<&[u8], MakeRunFault>
    ensures { MatchResult result
        (λ dump. IsDumpLength (length bytes.now.items) × (dump.now ≡ bytes.now.items))
        (λ fault. (IsDumpLength (length bytes.now.items) → ⊥) × (fault ≡ MakeRunFault.RomLength)) }
{
    if bytes.is_empty() || bytes.len() > usize::from(MOST_BYTES) {
        return Err(MakeRunFault::RomLength);
    }
    Ok(bytes.as_slice())
}

/// The account of how another dump differs from the good one; nothing of equal ones.
fn account_of(
    alloc: Global,
    good: &[u8],
    other: &[u8],
    map: RomMap,
    differences: Option<Differences>,
    labels: Option<&Labels>,
) -> Result<String, MakeRunFault>
    requires { length good.now ≤ MOST_BYTES }
    ensures nothing { IfOk result (λ account. differences ≡ None → string_bytes account ≡ []) }
    ensures fault { IfErr result (λ fault. fault ≡ MakeRunFault.Make making.Memory) }
{
    match differences {
        Some(_) => Ok(dump_text(alloc, good, other, map.first(), labels)?),
        None => Ok(String::new(alloc)),
    }
}

/// Reads two dumps of a ROM at this map, the good one first, and writes in how much they differ, or that they are equal, and behind that
/// line the account of [`dump_text`]. Answers whether they differ.
///
/// The dumps may be shorter or longer than the map says. The faults are 1 for an empty dump or one that is longer than the longest ROM, 70
/// for a failed read, 63 where there is no memory for the account, and 73. On all but 73 nothing was written, on 73 a prefix of the text.
pub fn run_explain_diff<R: CountedRead, W: CountedWrite>(
    alloc: Global,
    rom: &mut R,
    other: &mut R,
    map: RomMap,
    labels: Option<&Labels>,
    out: &mut W,
) -> Result<bool, MakeRunFault>
    // 70 and 73 come exactly where a device of theirs failed in this call, and the device's count then rises by one; else it is 1 or 63.
    ensures rom_counts { FailedAfter (blames_frames_rom result) (R.failures rom.old ∷ R.failures other.old ∷ [])
        (R.failures rom.new ∷ R.failures other.new ∷ []) }
    ensures out_count { W.failures out.new ≡ count_after (blames_frames_writer result) (W.failures out.old) }
    ensures fault { IfErr result (λ fault. (fault ≡ MakeRunFault.ReadRom) ⊎ (fault ≡ MakeRunFault.Write)
        ⊎ (fault ≡ MakeRunFault.RomLength) ⊎ (fault ≡ MakeRunFault.Make making.Memory)) }

    // Where no read failed, both dumps were read to their end or to one byte past their limit, and no further.
    ensures rom_read { result ≢ Err MakeRunFault.ReadRom
        → IsReadTo MOST_ROM_READ (R.remaining rom.old) (R.remaining rom.new) }
    ensures other_read { result ≢ Err MakeRunFault.ReadRom
        → IsReadTo MOST_ROM_READ (R.remaining other.old) (R.remaining other.new) }

    // What is written is the line that tells in how much all bytes differ that the readers held, and then an account, or a prefix of
    // them, or nothing.
    ensures text { IfOk result (λ differ. TellsDifferences (R.remaining rom.old) (R.remaining other.old) differ
        (W.contents out.old) (W.contents out.new) (W.whole_writes out.old) (W.whole_writes out.new)) }
    ensures prefix { result ≡ Err MakeRunFault.Write → TellsDifferencesPrefix (R.remaining rom.old)
        (R.remaining other.old) (W.contents out.old) (W.contents out.new) }
    ensures nothing { IfErr result (λ fault. fault ≢ MakeRunFault.Write
        → Appends (W.contents out.old) (W.contents out.new) []) }

    // 1 comes for a wrong length alone.
    ensures refused { result ≡ Err MakeRunFault.RomLength
        → IsNoDump (R.remaining rom.old) ⊎ IsNoDump (R.remaining other.old) }
{
    let rom = read_maker_rom(rom)?;
    let other = read_maker_rom(other)?;
    let good = dump_of(&rom)?;
    let dump = dump_of(&other)?;
    let differences = differences_of(good, dump);
    let account = account_of(alloc, good, dump, map, differences, labels)?;
    let line = dump_line_of(differences);
    write_lines(&[], line.as_slice(), account.as_bytes(), out)?;
    Ok(differences.is_some())
}
