//! The bytes of a vector ROM and of a frame, read as words.

ghost use Rattle.std.specs.Prelude.{◌≡◌, ◌≢◌, ◌+◌, ◌*◌, ◌<◌, ◌≤◌, Some, IfSome, IfOk, MatchResult, length, slice_get};
ghost use Rattle.dvg_words.specs.Values.{IsMap};
ghost use Rattle.dvg_words.specs.Memory.{words_of, rom_of, rom_on, word_of_rom, rom_word, frame_word, IsRom, IsRomLength, IsFrame, IsFrameLength};
ghost use Rattle.dvg_words.specs.Numbers.{image_number};

use crate::decoding::Fetch;
use crate::machine::Machine;
use crate::map::{ADDRESS_END, RAM_WORDS, RomMap};
use byteorder::{ByteOrder, LittleEndian};
use std::marker::Model;
use thiserror::Error;

/// Why bytes are no ROM, or no frame.
#[derive(Clone, Copy, Debug, PartialEq, Eq, Error)]
pub enum ImageFault {
    /// 1: a ROM has exactly two bytes for each of its addresses.
    #[error("the ROM has a wrong length")]
    RomLength,
    /// 2: a frame has 2 to 2048 bytes, an even number.
    #[error("the frame has a wrong length")]
    FrameLength,
}

impl ImageFault {
    /// The number of the refusal in a report, 1 or 2.
    pub fn number(self) -> u8
        ensures { result ≡ image_number self }
    {
        match self {
            ImageFault::RomLength => 1,
            ImageFault::FrameLength => 2,
        }
    }
}

/// The most bytes of a frame.
const MOST_FRAME_BYTES: usize = 2 * RAM_WORDS as usize;

/// The word at this index among the bytes, the low byte first (Asteroids schematics).
#[tactic(auto, using(crate::proofs::WordLists::word_at_place, std::proofs::lemmas::Grind::common_steps))]
fn word_at(bytes: &[u8], index: u16) -> u16
    requires { 2 * index + 2 ≤ length bytes.now }
    ensures { slice_get (words_of bytes.now) index ≡ Some result }
{
    LittleEndian::read_u16(&bytes[2 * index as usize..])
}

/// A vector ROM, at the word addresses of its map.
#[derive(Drop)]
pub struct RomImage<'a> {
    bytes: &'a [u8],
    map: RomMap,
    machine: Machine,
}

impl<'a> Model for RomImage<'a> {
    ghost use Rattle.std.specs.Prelude.{length};
    ghost use Rattle.dvg_words.specs.Values.{IsMap};
    ghost use Rattle.dvg_words.specs.Memory.{Rom, rom_on, IsRomLength};

    ghost Value = { Rom };

    ghost view = { λ r. rom_on r.machine r.map r.bytes.now };

    ghost invariant = { λ r. IsMap r.map × IsRomLength r.map (length r.bytes.now) };
}

impl<'a> RomImage<'a> {
    /// The image of these bytes, which it borrows, for a ROM at this map on the profile's machine. Refuses 1 unless there are
    /// exactly two bytes for each of its addresses.
    pub fn from_bytes(bytes: &'a [u8], map: RomMap) -> Result<RomImage<'a>, ImageFault>
        ensures image { MatchResult result
            (λ rom. IsRomLength map (length bytes.now) × (rom ≡ rom_of map bytes.now))
            (λ fault. (IsRomLength map (length bytes.now) → ⊥) × (fault ≡ ImageFault.RomLength)) }
        ensures whole { IfOk result IsRom }
        ensures map { IsMap map }
    {
        RomImage::from_bytes_on(Machine::Profile, bytes, map)
    }

    /// The image of these bytes, which it borrows, for a ROM at this map on a machine. Refuses 1 unless there are exactly two bytes
    /// for each of its addresses.
    #[inline(never)]
    #[tactic(auto, using(crate::proofs::WordLists::words_of_len))]
    pub fn from_bytes_on(
        machine: Machine,
        bytes: &'a [u8],
        map: RomMap,
    ) -> Result<RomImage<'a>, ImageFault>
        ensures image { MatchResult result
            (λ rom. IsRomLength map (length bytes.now) × (rom ≡ rom_on machine map bytes.now))
            (λ fault. (IsRomLength map (length bytes.now) → ⊥) × (fault ≡ ImageFault.RomLength)) }
        ensures whole { IfOk result IsRom }
        ensures map { IsMap map }
    {
        if bytes.len() != 2 * (map.last() - map.first() + 1) as usize {
            return Err(ImageFault::RomLength);
        }
        Ok(RomImage {
            bytes,
            map,
            machine,
        })
    }

    /// Where the ROM lies.
    #[tactic(auto, using(crate::proofs::WordLists::words_of_len))]
    pub fn map(&self) -> RomMap
        ensures value { result ≡ self.now.map }
        ensures rom { IsRom self.now }
    {
        self.map
    }

    /// A law, called for its clause: the ROM lies at its map, and has a word at each of the map's addresses. Does nothing.
    #[tactic(auto, using(crate::proofs::WordLists::words_of_len))]
    pub fn prove_whole(&self)
        ensures { IsRom self.now }
    {
        let _ = &self.bytes;
    }

    /// The machine that runs the ROM.
    pub fn machine(&self) -> Machine
        ensures { result ≡ self.now.machine }
    {
        self.machine
    }

    /// The word at a word address, `None` outside the ROM.
    #[tactic(auto, using(crate::proofs::WordLists::words_of_len))]
    pub fn word(&self, addr: u16) -> Option<u16>
        ensures word { result ≡ word_of_rom self.now addr }
        ensures near { IfSome result (λ _. addr < ADDRESS_END) }
        ensures rom { IsRom self.now }
    {
        let Self { bytes, map, .. } = self;
        if addr < map.first() || addr > map.last() {
            return None;
        }
        Some(word_at(bytes, addr - map.first()))
    }
}

impl<'a> Fetch for RomImage<'a> {
    ghost words = { λ s. rom_word s };

    fn machine(&self) -> Machine {
        self.machine
    }

    fn fetch(&self, addr: u16) -> Option<u16> {
        self.word(addr)
    }
}

/// A frame in vector RAM, from word address 000 on.
#[derive(Drop)]
pub struct FrameImage<'a> {
    bytes: &'a [u8],
}

impl<'a> Model for FrameImage<'a> {
    ghost use Rattle.std.specs.Prelude.{ℕ, List, length};
    ghost use Rattle.dvg_words.specs.Memory.{words_of, IsFrameLength};

    ghost Value = { List ℕ };

    ghost view = { λ f. words_of f.bytes.now };

    ghost invariant = { λ f. IsFrameLength (length f.bytes.now) };
}

impl<'a> FrameImage<'a> {
    /// The image of these bytes, which it borrows. Refuses 2 if they are fewer than 2, more than 2048, or an odd number.
    #[inline(never)]
    #[tactic(auto, using(crate::proofs::WordLists::words_of_is_frame))]
    pub fn from_bytes(bytes: &'a [u8]) -> Result<FrameImage<'a>, ImageFault>
        ensures image { MatchResult result
            (λ frame. IsFrameLength (length bytes.now) × (frame ≡ words_of bytes.now))
            (λ fault. (IsFrameLength (length bytes.now) → ⊥) × (fault ≡ ImageFault.FrameLength)) }
        ensures whole { IfOk result IsFrame }
    {
        if bytes.len() < 2 || bytes.len() > MOST_FRAME_BYTES || bytes.len() % 2 != 0 {
            return Err(ImageFault::FrameLength);
        }
        Ok(FrameImage { bytes })
    }

    /// The number of words, 1 to 1024.
    #[tactic(auto, using(crate::proofs::WordLists::words_of_is_frame, crate::proofs::WordLists::words_of_len))]
    pub fn words(&self) -> u16
        ensures count { result ≡ length self.now }
        ensures frame { IsFrame self.now }
    {
        (self.bytes.len() / 2) as u16
    }

    /// A law, called for its clause: the frame has 1 to 1024 words. Does nothing.
    #[tactic(auto, using(crate::proofs::WordLists::words_of_is_frame))]
    pub fn prove_whole(&self)
        ensures { IsFrame self.now }
    {
        let _ = &self.bytes;
    }

    /// The word at a word address, `None` past the last word.
    #[tactic(auto, using(crate::proofs::WordLists::words_of_len))]
    pub fn word(&self, addr: u16) -> Option<u16>
        ensures word { result ≡ slice_get self.now addr }
        ensures near { IfSome result (λ _. addr < ADDRESS_END) }
    {
        if addr >= self.words() {
            return None;
        }
        Some(word_at(self.bytes, addr))
    }
}

/// A frame as a machine reads it.
#[derive(Drop)]
pub struct FrameOn<'a> {
    frame: &'a FrameImage<'a>,
    machine: Machine,
}

impl<'a> Model for FrameOn<'a> {
    ghost use Rattle.dvg_words.specs.Memory.{FrameOn as Framed};

    ghost Value = { Framed };

    ghost view = { λ f. record { machine = f.machine; frame = f.frame.now } };
}

impl<'a> FrameOn<'a> {
    /// This frame, as this machine reads it.
    pub fn new(machine: Machine, frame: &'a FrameImage<'a>) -> FrameOn<'a>
        ensures { result ≡ record { machine = machine; frame = frame.now } }
    {
        FrameOn { frame, machine }
    }
}

impl<'a> Fetch for FrameOn<'a> {
    ghost words = { λ s. frame_word s.machine s.frame };

    fn machine(&self) -> Machine {
        self.machine
    }

    fn fetch(&self, addr: u16) -> Option<u16> {
        self.frame.word(addr)
    }
}
