//! What is counted of two dumps as far as both go, and which words differ there.

ghost use Rattle.std.specs.Prelude.{◌≡◌, ◌≤◌, count_ones, length, slice_get};
ghost use Rattle.dvg_dumps.specs.Front.{bits, count, differ, differs_at, falls, front, is_level_where_different, level_if_different, measured, once, word_at, word_differs};
ghost use Rattle.dvg_dumps.specs.declared.measuring.TheConstants.{MOST_BYTES};

use crate::lines::{Level, has_level, is_high};

/// The most bytes of a dump: those of the longest vector ROM.
pub const MOST_BYTES: u16 = 4096;

/// What is counted.
#[derive(Clone, Copy, Debug, PartialEq, Eq)]
pub enum Measure {
    /// The bytes that differ.
    Bytes,
    /// The words that do, of which the last may be a byte alone.
    Words,
    /// The bits that do.
    Bits,
    /// The bytes in which a data line, given by its weight, is low and should be high.
    Lost(u16),
    /// Those in which it is high and should be low.
    Gained(u16),
}

/// How many bytes both dumps have.
pub fn front(good: &[u8], other: &[u8]) -> usize
    ensures { result ≡ front good.now other.now }
{
    good.len().min(other.len())
}

/// Whether these two bytes differ, if there are both.
fn differ(one: Option<u8>, other: Option<u8>) -> bool
    ensures { result ≡ differ one other }
{
    let (Some(one), Some(other)) = (one, other) else {
        return false;
    };
    one != other
}

/// How many lines of a byte are high.
fn ones(byte: u8) -> u32
    ensures value { result ≡ count_ones byte }
    ensures few { result ≤ 8 }
{
    byte.count_ones()
}

/// In how many bits these two differ, if there are both.
fn bits(one: Option<u8>, other: Option<u8>) -> u32
    ensures value { result ≡ bits one other }
    ensures few { result ≤ 8 }
{
    let (Some(one), Some(other)) = (one, other) else {
        return 0;
    };
    ones(one ^ other)
}

/// Whether a line is high in the first and low in the second.
fn falls(line: u16, one: Option<u8>, other: Option<u8>) -> bool
    ensures { result ≡ falls line one other }
{
    let (Some(one), Some(other)) = (one, other) else {
        return false;
    };
    is_high(u16::from(one), line) && !is_high(u16::from(other), line)
}

/// The byte at an address of a dump, if there is one.
pub fn byte_at(dump: &[u8], at: usize) -> Option<u8>
    ensures { result ≡ slice_get dump.now at }
{
    Some(*dump.get(at)?)
}

/// Whether the dumps differ at an address.
pub fn differs_at(good: &[u8], other: &[u8], at: usize) -> bool
    ensures { result ≡ differs_at good.now other.now at }
{
    differ(byte_at(good, at), byte_at(other, at))
}

/// Whether they differ in the word whose low byte has this address.
fn word_differs(good: &[u8], other: &[u8], at: usize) -> bool
    requires { at ≤ MOST_BYTES }
    ensures { result ≡ word_differs good.now other.now at }
{
    differs_at(good, other, at) || differs_at(good, other, at + 1)
}

/// What counts once.
fn once(counts: bool) -> u32
    ensures value { result ≡ once counts }
    ensures few { result ≤ 1 }
{
    u32::from(counts)
}

/// What is counted at an address.
fn measured(measure: Measure, good: &[u8], other: &[u8], at: usize) -> u32
    requires { at ≤ MOST_BYTES }
    ensures value { result ≡ measured measure good.now other.now at }
    ensures few { result ≤ 8 }
{
    match measure {
        Measure::Bytes => once(differs_at(good, other, at)),
        Measure::Words => once(at % 2 == 0 && word_differs(good, other, at)),
        Measure::Bits => bits(byte_at(good, at), byte_at(other, at)),
        Measure::Lost(line) => once(falls(line, byte_at(good, at), byte_at(other, at))),
        Measure::Gained(line) => once(falls(line, byte_at(other, at), byte_at(good, at))),
    }
}

/// How much there is of this in the front.
pub fn count(measure: Measure, good: &[u8], other: &[u8]) -> u32
    requires { length good.now ≤ MOST_BYTES }
    ensures { result ≡ count measure good.now other.now }
{
    let mut counted = 0;
    for at in 0..front(good, other) {
        counted += measured(measure, good, other, at);
    }
    counted
}

/// Whether an address line has this level at an address, if the dumps differ there.
fn level_if_different(good: &[u8], other: &[u8], line: u16, level: Level, at: u16) -> bool
    ensures { result ≡ level_if_different good.now other.now line level at }
{
    !differs_at(good, other, usize::from(at)) || has_level(at, line, level)
}

/// Whether an address line, given by its weight, has this level wherever the dumps differ.
pub fn is_level_where_different(good: &[u8], other: &[u8], line: u16, level: Level) -> bool
    requires { length good.now ≤ MOST_BYTES }
    ensures { result ≡ is_level_where_different good.now other.now line level }
{
    for at in 0..front(good, other) {
        if !level_if_different(good, other, line, level, at as u16) {
            return false;
        }
    }
    true
}

/// The word at an index of a dump, the low byte first, if both of its bytes are there.
pub fn word_at(dump: &[u8], index: u16) -> Option<u16>
    ensures { result ≡ word_at dump.now index }
{
    let at = 2 * usize::from(index);
    let low = u16::from(byte_at(dump, at)?);
    let high = u16::from(byte_at(dump, at + 1)?);
    Some(low + 256 * high)
}
