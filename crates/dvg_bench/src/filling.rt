//! What a ROM is full of.

ghost use Rattle.std.specs.Prelude.{◌<◌, ◌≤◌};

use anyhow::{Result, bail};
use dvg_words::{ROM_FIRST, ROM_LAST};
use std::alloc::{AllocError, Global};

/// What a ROM is full of, from its first word to its last, and which keys have entries at each place.
#[derive(Clone, Copy, Debug, PartialEq, Eq)]
pub enum Filling {
    /// Lit strokes to and fro by SVEC, at four global scales.
    Draws,
    /// Dark SVECs, for `any`.
    Unscaled,
    /// Lit strokes to and fro by VCTR, at local scales 0 to 9 by turns, at all sixteen global scales.
    Scales,
    /// The same in the dark, for `any` too.
    DarkScales,
    /// Blocks of a dark VCTR, a LABS and four lit SVECs, each LABS at another global scale: at all sixteen, and for `any`.
    Places,
    /// Calls of the last word, fifteen before each RTSL, at four global scales.
    Calls,
    /// The same at all sixteen.
    Keys,
    /// Calls of a LABS before the last word, at all sixteen global scales; what is called has an entry for `any` alone, the last.
    Named,
    /// Calls of the last word alone, at all sixteen global scales and for `any`, in long lines: each tail that a ROM can have is
    /// made, and each calls.
    Everywhere,
    /// Shapes of one lit stroke, each of which jumps to the next, at four global scales.
    Jumps,
}

const RTSL: u16 = 0xD000;

const CALL_LAST: u16 = 0xC000 + ROM_LAST;

/// SVEC by 1, 0 at scale code 0, intensity 7.
const FORTH: u16 = 0xF071;

/// SVEC by -1, 0 at scale code 0, intensity 7.
const BACK: u16 = 0xF075;

/// SVEC by 1, 0 at scale code 0, intensity 0.
const DARK: u16 = 0xF001;

/// The word past the last VCTR.
pub const SCALES_END: u16 = 0xBFC;

/// The LABS that is called, before the last word.
pub const NAMED: u16 = 0xBFD;

fn stroke(forth: bool) -> u16 {
    if forth { FORTH } else { BACK }
}

/// The local scale of the VCTR at an address: each serves a stroke forth and one back.
pub fn local_scale(addr: u16) -> u16
    ensures { result < 10 }
{
    addr / 4 % 10
}

/// A word of a VCTR: by 1, 0 at addresses that 4 divides, else by -1, 0.
fn vctr_word(addr: u16, bright: u16) -> u16
    requires { bright < 16 }
{
    match addr % 4 {
        1 => bright << 12 | 0x001,
        3 => bright << 12 | 0x401,
        _ => local_scale(addr) << 12,
    }
}

/// A word of a block of eight: a dark VCTR, a LABS to 512, 512, and four strokes to and fro.
fn block_word(addr: u16) -> u16 {
    match addr % 8 {
        0 => 0x3000,
        1 => 0x0001,
        2 => 0xA200,
        3 => (addr / 8 % 16) << 12 | 0x200,
        _ => stroke(addr % 2 == 0),
    }
}

fn calls_word(addr: u16) -> u16 {
    if addr % 16 == 15 { RTSL } else { CALL_LAST }
}

/// A word of calls of the LABS to 0, 0 at scale 0, which stands before the last word.
fn named_word(addr: u16) -> u16 {
    match addr {
        NAMED => 0xA000,
        0xBFE => 0,
        _ => 0xC000 + NAMED,
    }
}

/// A stroke at even addresses, and a jump to the next one at odd ones.
fn jumps_word(addr: u16) -> u16
    requires { addr ≤ ROM_LAST }
{
    if addr % 2 == 0 {
        stroke(addr / 2 % 2 == 0)
    } else {
        0xE000 + addr + 1
    }
}

impl Filling {
    /// The filling of this name.
    pub fn of_name(name: &str) -> Result<Filling> {
        Ok(match name {
            "draws" => Filling::Draws,
            "unscaled" => Filling::Unscaled,
            "scales" => Filling::Scales,
            "dark-scales" => Filling::DarkScales,
            "places" => Filling::Places,
            "calls" => Filling::Calls,
            "keys" => Filling::Keys,
            "named" => Filling::Named,
            "everywhere" => Filling::Everywhere,
            "jumps" => Filling::Jumps,
            _ => bail!("no ROM is full of this"),
        })
    }

    fn word_at(self, addr: u16) -> u16
        requires { addr ≤ ROM_LAST }
    {
        match self {
            _ if addr == ROM_LAST => RTSL,
            Filling::Scales | Filling::DarkScales if SCALES_END <= addr => RTSL,
            Filling::Draws => stroke(addr % 2 == 0),
            Filling::Unscaled => DARK,
            Filling::Scales => vctr_word(addr, 7),
            Filling::DarkScales => vctr_word(addr, 0),
            Filling::Places => block_word(addr),
            Filling::Calls | Filling::Keys => calls_word(addr),
            Filling::Named => named_word(addr),
            Filling::Everywhere => CALL_LAST,
            Filling::Jumps => jumps_word(addr),
        }
    }

    /// The bytes of the ROM.
    pub fn rom_bytes(self, alloc: Global) -> Result<Vec<u8>, AllocError> {
        let mut bytes = Vec::new(alloc);
        for addr in ROM_FIRST..=ROM_LAST {
            bytes.extend_from_slice(&self.word_at(addr).to_le_bytes())?;
        }
        Ok(bytes)
    }

    /// How many items the shape at an address has before its last one.
    pub fn items_before_end(self, addr: u16) -> u16
        requires { addr ≤ ROM_LAST }
        ensures { result ≤ ROM_LAST }
    {
        match self {
            Filling::Draws | Filling::Unscaled | Filling::Everywhere => ROM_LAST - addr,
            Filling::Scales | Filling::DarkScales => SCALES_END.saturating_sub(addr) / 2,
            Filling::Places => (3 * (ROM_LAST - addr) + 1) / 4,
            Filling::Calls | Filling::Keys => 15 - addr % 16,
            Filling::Named => NAMED.saturating_sub(addr) + 1,
            Filling::Jumps => if addr == ROM_LAST { 0 } else { 1 - addr % 2 },
        }
    }
}
