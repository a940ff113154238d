//! A fault of a chip, of its socket or of a reader, by which one dump is made of another.
//!
//! Lines are given by their weights: 1 for A0 or D0, 2 for A1 or D1, and so on.

ghost use Rattle.std.specs.Prelude.{◌≡◌, ◌≤◌, length, slice_get};
ghost use Rattle.dvg_dumps.specs.Faults.{changed, explains, fits_at, is_known_difference, read_as, read_by, source_of};
ghost use Rattle.dvg_dumps.specs.Front.{all_below, any_below, front};
ghost use Rattle.dvg_dumps.specs.declared.measuring.TheConstants.{MOST_BYTES};

use crate::lines::{Level, blank, crossed, has_level, inverted, stuck};
use crate::measuring::{byte_at, differs_at, front};

/// What is wrong with one line, or with two.
#[derive(Clone, Copy, Debug, PartialEq, Eq)]
pub enum LineFault {
    /// A line always has this level.
    Stuck(u16, Level),
    /// Two lines are exchanged.
    Crossed(u16, u16),
}

/// What is wrong with the bytes that are read.
#[derive(Clone, Copy, Debug, PartialEq, Eq)]
pub enum DataFault {
    /// One data line or two have a fault.
    Lines(LineFault),
    /// All lines are inverted.
    Inverted,
    /// All lines always have this level.
    Blank(Level),
}

/// What is wrong with the addresses from which bytes are read.
#[derive(Clone, Copy, Debug, PartialEq, Eq)]
pub enum AddressFault {
    /// One address line or two have a fault.
    Lines(LineFault),
    /// A line is inverted: with A0 the bytes of each word are exchanged, with the last line the halves of the dump.
    Inverted(u16),
    /// They are so many bytes further on.
    Later(u8),
    /// They are so many bytes before.
    Earlier(u8),
}

/// A fault of a chip, of its socket or of a reader.
#[derive(Clone, Copy, Debug, PartialEq, Eq)]
pub enum DumpFault {
    Data(DataFault),
    Address(AddressFault),
    /// Where an address line has this level, all data lines have that one.
    Dead { line: u16, level: Level, all: Level },
}

impl LineFault {
    /// The byte or the address that comes of one, if its lines have this fault.
    fn changed(self, n: u16) -> u16
        ensures { result ≡ changed self n }
    {
        match self {
            LineFault::Stuck(line, level) => stuck(n, line, level),
            LineFault::Crossed(one, other) => crossed(n, one, other),
        }
    }
}

impl DataFault {
    /// What is read of a byte.
    fn read(self, byte: u8) -> u16
        ensures { result ≡ read_as self byte }
    {
        let byte = u16::from(byte);
        match self {
            DataFault::Lines(fault) => fault.changed(byte),
            DataFault::Inverted => inverted(byte, 255),
            DataFault::Blank(level) => blank(level),
        }
    }
}

impl AddressFault {
    /// The address from which is read, in place of this one; `None` before the first.
    fn source(self, at: u16) -> Option<u16>
        requires { at ≤ MOST_BYTES }
        ensures { result ≡ source_of self at }
    {
        match self {
            AddressFault::Lines(fault) => Some(fault.changed(at)),
            AddressFault::Inverted(line) => Some(inverted(at, line)),
            AddressFault::Later(bytes) => Some(at + u16::from(bytes)),
            AddressFault::Earlier(bytes) => at.checked_sub(u16::from(bytes)),
        }
    }
}

/// The byte at an address of a dump, if there is one, as what is read.
fn read_at(good: &[u8], at: u16) -> Option<u16>
    ensures { result ≡ slice_get good.now at }
{
    Some(u16::from(byte_at(good, usize::from(at))?))
}

impl DumpFault {
    /// What is read at an address of the good dump; `None` where it would be a byte outside it.
    fn read(self, good: &[u8], at: u16) -> Option<u16>
        requires { at ≤ MOST_BYTES }
        ensures { result ≡ read_by self good.now at }
    {
        match self {
            DumpFault::Data(fault) => Some(fault.read(byte_at(good, usize::from(at))?)),
            DumpFault::Address(fault) => read_at(good, fault.source(at)?),
            DumpFault::Dead { line, level, all } => {
                if has_level(at, line, level) {
                    Some(blank(all))
                } else {
                    read_at(good, at)
                }
            }
        }
    }
}

/// Whether the other dump's byte at an address is what the fault reads there, as far as that is known.
fn fits_at(fault: DumpFault, good: &[u8], other: &[u8], at: u16) -> bool
    requires { at ≤ MOST_BYTES }
    ensures { result ≡ fits_at fault good.now other.now at }
{
    let (Some(read), Some(byte)) = (fault.read(good, at), byte_at(other, usize::from(at))) else {
        return true;
    };
    read == u16::from(byte)
}

/// Whether it is so everywhere in the front.
fn fits(fault: DumpFault, good: &[u8], other: &[u8]) -> bool
    requires { length good.now ≤ MOST_BYTES }
    ensures { result ≡ all_below (fits_at fault good.now other.now) (front good.now other.now) }
{
    for at in 0..front(good, other) {
        if !fits_at(fault, good, other, at as u16) {
            return false;
        }
    }
    true
}

/// Whether the dumps differ at an address, and it is known what the fault reads there.
fn is_known_difference(fault: DumpFault, good: &[u8], other: &[u8], at: u16) -> bool
    requires { at ≤ MOST_BYTES }
    ensures { result ≡ is_known_difference fault good.now other.now at }
{
    differs_at(good, other, usize::from(at)) && fault.read(good, at).is_some()
}

/// Whether they differ anywhere in the front where that is known.
fn knows_a_difference(fault: DumpFault, good: &[u8], other: &[u8]) -> bool
    requires { length good.now ≤ MOST_BYTES }
    ensures { result ≡ any_below (is_known_difference fault good.now other.now) (front good.now other.now) }
{
    for at in 0..front(good, other) {
        if is_known_difference(fault, good, other, at as u16) {
            return true;
        }
    }
    false
}

/// Whether the fault makes all bytes of the front, as far as it reads bytes of the good dump, and one at least of those that differ.
pub fn explains(fault: DumpFault, good: &[u8], other: &[u8]) -> bool
    requires { length good.now ≤ MOST_BYTES }
    ensures { result ≡ explains fault good.now other.now }
{
    fits(fault, good, other) && knows_a_difference(fault, good, other)
}
