//! The bytes of a ROM and of frames that runs of the maker read, and their images.

ghost use Rattle.std.specs.Prelude.{◌≡◌, ◌≢◌, ◌⊎◌, ◌<◌, length, List, ℕ, Option, Err, IfOk, IfErr, OnOk, OnErr, MatchResult, is_err};
ghost use Rattle.dvg_words.specs.Values.{IsMap, MemoryMap};
ghost use Rattle.dvg_words.specs.Memory.{IsRomLength, rom_on, words_of};
ghost use Rattle.dvg_text.specs.Devices.{count_after};
ghost use Rattle.dvg_cert.specs.declared.entry.Key.{Key};
ghost use Rattle.dvg_cmd.specs.MakingFrames.{blames_a_frame, of_each, FailedAfter, EachRead, AreFrames, FramesFaultMeans, ReadsInputs};
ghost use Rattle.dvg_cmd.specs.Private.Inputs.{AreRead, AreInputImages};
ghost use Rattle.dvg_cmd.specs.Private.Reading.{IsPrefix, ArePrefixes, RefusesLengths};
ghost use Rattle.dvg_cmd.specs.Runs.{MOST_ROM_READ, IsReadTo};
ghost use Rattle.dvg_make.specs.declared.fault.MakeFault.TheVariants as making;

use crate::reading::{read_frame, read_rom};
use arrayvec::ArrayVec;
use dvg_spelling::MakeRunFault;
use dvg_text::CountedRead;
use dvg_words::{FrameImage, Machine, RomImage, RomMap};
use std::alloc::Global;

/// What was read of a ROM.
pub type RomBytes = ArrayVec<u8, 4097>;

/// What was read of a frame.
pub type FrameBytes = ArrayVec<u8, 2049>;

/// What was read of a ROM and of frames.
#[derive(Drop)]
pub struct InputBytes {
    pub rom: RomBytes,
    pub frames: Vec<FrameBytes>,
}

/// The images of a ROM and of frames.
#[derive(Drop)]
pub struct InputImages<'a> {
    pub rom: RomImage<'a>,
    pub frames: Vec<FrameImage<'a>>,
}

/// What is read of a ROM that the maker takes.
pub fn read_maker_rom<R: CountedRead>(rom: &mut R) -> Result<RomBytes, MakeRunFault>
    ensures bytes { IfOk result (λ bytes. IsPrefix MOST_ROM_READ (R.remaining rom.old) bytes.items) }
    ensures read { OnOk result (IsReadTo MOST_ROM_READ (R.remaining rom.old) (R.remaining rom.new)) }
    ensures count { R.failures rom.new ≡ count_after (is_err result) (R.failures rom.old) }
    ensures fault { IfErr result (λ fault. fault ≡ MakeRunFault.ReadRom) }
{
    match read_rom(rom) {
        Ok(bytes) => Ok(bytes),
        Err(_) => Err(MakeRunFault::ReadRom),
    }
}

/// What is read of each frame.
#[tactic(auto, using(crate::proofs::SeveralFrames::all_read, crate::proofs::SeveralFrames::none_failed))]
pub fn read_frames<R: CountedRead>(
    alloc: Global,
    frames: &mut [R],
) -> Result<Vec<FrameBytes>, MakeRunFault>
    ensures bytes { IfOk result (λ read. ArePrefixes (of_each (λ frame. R.remaining frame) frames.old)
        (of_each (λ bytes. bytes.items) read.items)) }
    ensures read { OnOk result (EachRead (of_each (λ frame. R.remaining frame) frames.old)
        (of_each (λ frame. R.remaining frame) frames.new)) }
    ensures counts { FailedAfter (blames_a_frame result) (of_each (λ frame. R.failures frame) frames.old)
        (of_each (λ frame. R.failures frame) frames.new) }
    ensures fault { IfErr result (λ fault. (fault ≡ MakeRunFault.ReadFrame) ⊎ (fault ≡ MakeRunFault.Make making.Memory)) }
    ensures some { OnErr result (0 < length frames.old) }
{
    let mut read = Vec::new(alloc);
    for frame in frames {
        let Ok(bytes) = read_frame(frame) else {
            return Err(MakeRunFault::ReadFrame);
        };
        read.push(bytes)?;
    }
    Ok(read)
}

/// The image of what was read of a ROM at this map, on a machine.
pub fn rom_image(
    machine: Machine,
    bytes: &RomBytes,
    map: RomMap,
) -> Result<RomImage<'_>, MakeRunFault>
    ensures image { MatchResult result
        (λ rom. IsRomLength map (length bytes.now.items) × (rom ≡ rom_on machine map bytes.now.items))
        (λ fault. (IsRomLength map (length bytes.now.items) → ⊥) × (fault ≡ MakeRunFault.RomLength)) }
    ensures map { IsMap map }
{
    match RomImage::from_bytes_on(machine, bytes.as_slice(), map) {
        Ok(image) => Ok(image),
        Err(_) => Err(MakeRunFault::RomLength),
    }
}

/// The images of what was read of frames.
#[tactic(auto, using(crate::proofs::SeveralFrames::wrong_here, crate::proofs::SeveralFrames::frames_next, crate::proofs::SeveralFrames::words_next, std::proofs::lemmas::Grind::common_steps))]
fn frame_images(alloc: Global, read: &[FrameBytes]) -> Result<Vec<FrameImage<'_>>, MakeRunFault>
    ensures frames { OnOk result (AreFrames (of_each (λ bytes. bytes.items) read.now)) }
    ensures images { IfOk result (λ images. images.items ≡ of_each words_of (of_each (λ bytes. bytes.items) read.now)) }
    ensures refused { IfErr result (RefusesLengths (of_each (λ bytes. bytes.items) read.now)) }
{
    let mut images = Vec::new(alloc);
    for (frame, bytes) in read.iter().enumerate() {
        let Ok(image) = FrameImage::from_bytes(bytes.as_slice()) else {
            return Err(MakeRunFault::FrameLength { frame });
        };
        images.push(image)?;
    }
    Ok(images)
}

impl InputBytes {
    /// What is read of a ROM, and then of each frame.
    pub fn read<R1: CountedRead, R2: CountedRead>(
        alloc: Global,
        rom: &mut R1,
        frames: &mut [R2],
    ) -> Result<InputBytes, MakeRunFault>
        ensures bytes { IfOk result (λ read. AreRead (R1.remaining rom.old) (of_each (λ frame. R2.remaining frame) frames.old)
            read.rom.items (of_each (λ bytes. bytes.items) read.frames.items)) }
        ensures read { ReadsInputs R1.remaining R1.failures R2.remaining R2.failures rom.old rom.new frames.old frames.new result }
        ensures fault { IfErr result (λ fault. (fault ≡ MakeRunFault.ReadRom) ⊎ (fault ≡ MakeRunFault.ReadFrame)
            ⊎ (fault ≡ MakeRunFault.Make making.Memory)) }
        ensures refused { (machine : Machine) (map : MemoryMap) (roots : List (ℕ × Key))
            → IfErr result (FramesFaultMeans machine (R1.remaining rom.old) map roots
            (of_each (λ frame. R2.remaining frame) frames.old)) }
    {
        let rom = read_maker_rom(rom)?;
        let frames = read_frames(alloc, frames)?;
        Ok(InputBytes { rom, frames })
    }

    /// The images of these bytes, the ROM's at this map, on a machine.
    pub fn images(
        &self,
        machine: Machine,
        alloc: Global,
        map: RomMap,
    ) -> Result<InputImages<'_>, MakeRunFault>
        ensures images { (held : Option (List ℕ)) (readers : List (Option (List ℕ)))
            → AreRead held readers self.now.rom.items (of_each (λ bytes. bytes.items) self.now.frames.items)
            → IfOk result (λ images. AreInputImages machine held map readers images.rom images.frames.items) }
        ensures refused { (held : Option (List ℕ)) (readers : List (Option (List ℕ)))
            → AreRead held readers self.now.rom.items (of_each (λ bytes. bytes.items) self.now.frames.items)
            → (roots : List (ℕ × Key)) → IfErr result (FramesFaultMeans machine held map roots readers) }
        ensures fault { IfErr result (λ fault. (fault ≢ MakeRunFault.ReadRom) × (fault ≢ MakeRunFault.ReadFrame)
            × (fault ≢ MakeRunFault.Write)) }
    {
        let rom = rom_image(machine, &self.rom, map)?;
        let frames = frame_images(alloc, &self.frames)?;
        Ok(InputImages { rom, frames })
    }
}
