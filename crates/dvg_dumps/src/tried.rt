//! The single faults that are tried.

ghost use Rattle.std.specs.Prelude.{◌≡◌, ◌++◌, map, IfOk, OnOk};
ghost use Rattle.std.specs.List.{flat_map};
ghost use Rattle.dvg_dumps.specs.Candidates.{address_fault, address_faults, candidates, crossed_fault, data_faults, dead_parts, inverted_fault, line_faults, lines_below, pair_of, pairs, shifts, stuck_faults};

use crate::fault::{AddressFault, DataFault, DumpFault, LineFault};
use crate::lines::Level;
use std::alloc::{AllocError, Global};

/// The address lines of the longest dump, by their weights.
const ADDRESS_LINES: [u16; 12] = [1, 2, 4, 8, 16, 32, 64, 128, 256, 512, 1024, 2048];

/// The data lines, by theirs.
pub const DATA_LINES: [u16; 8] = [1, 2, 4, 8, 16, 32, 64, 128];

/// The address lines that differ among so many bytes.
pub fn lines_below(alloc: Global, bytes: usize) -> Result<Vec<u16>, AllocError>
    ensures { IfOk result (λ lines. lines.items ≡ lines_below bytes) }
{
    let mut below = Vec::new(alloc);
    for line in ADDRESS_LINES {
        if usize::from(line) < bytes {
            below.push(line)?;
        }
    }
    Ok(below)
}

/// Adds the pairs of a line and a higher one.
fn add_pairs(pairs: &mut Vec<(u16, u16)>, one: u16, lines: &[u16]) -> Result<(), AllocError>
    ensures { OnOk result (pairs.new.items ≡ pairs.old.items ++ flat_map (pair_of one) lines.now) }
{
    for other in lines {
        if one < *other {
            pairs.push((one, *other))?;
        }
    }
    Ok(())
}

/// The pairs of these lines, the lower one first.
fn pairs(alloc: Global, lines: &[u16]) -> Result<Vec<(u16, u16)>, AllocError>
    ensures { IfOk result (λ found. found.items ≡ pairs lines.now) }
{
    let mut found = Vec::new(alloc);
    for one in lines {
        add_pairs(&mut found, *one, lines)?;
    }
    Ok(found)
}

/// Adds that one of these lines is low or high.
fn add_stuck(faults: &mut Vec<LineFault>, lines: &[u16]) -> Result<(), AllocError>
    ensures { OnOk result (faults.new.items ≡ faults.old.items ++ flat_map stuck_faults lines.now) }
{
    for line in lines {
        faults.push(LineFault::Stuck(*line, Level::Low))?;
        faults.push(LineFault::Stuck(*line, Level::High))?;
    }
    Ok(())
}

/// Adds that the lines of a pair are exchanged.
fn add_crossed(faults: &mut Vec<LineFault>, pairs: &[(u16, u16)]) -> Result<(), AllocError>
    ensures { OnOk result (faults.new.items ≡ faults.old.items ++ map crossed_fault pairs.now) }
{
    for pair in pairs {
        faults.push(LineFault::Crossed(pair.0, pair.1))?;
    }
    Ok(())
}

/// What may be wrong with one of these lines, or with two.
fn line_faults(alloc: Global, lines: &[u16]) -> Result<Vec<LineFault>, AllocError>
    ensures { IfOk result (λ faults. faults.items ≡ line_faults lines.now) }
{
    let mut faults = Vec::new(alloc);
    add_stuck(&mut faults, lines)?;
    add_crossed(&mut faults, &pairs(alloc, lines)?)?;
    Ok(faults)
}

/// The faults of data lines.
fn data_faults(alloc: Global) -> Result<Vec<DumpFault>, AllocError>
    ensures { IfOk result (λ all. all.items ≡ data_faults) }
{
    let mut all = Vec::new(alloc);
    for fault in &line_faults(alloc, &DATA_LINES)? {
        all.push(DumpFault::Data(DataFault::Lines(*fault)))?;
    }
    all.push(DumpFault::Data(DataFault::Inverted))?;
    all.push(DumpFault::Data(DataFault::Blank(Level::Low)))?;
    all.push(DumpFault::Data(DataFault::Blank(Level::High)))?;
    Ok(all)
}

/// Adds what may be wrong with one of these address lines, or with two.
fn add_line_faults(alloc: Global, all: &mut Vec<DumpFault>, lines: &[u16]) -> Result<(), AllocError>
    ensures { OnOk result (all.new.items ≡ all.old.items ++ map address_fault (line_faults lines.now)) }
{
    for fault in &line_faults(alloc, lines)? {
        all.push(DumpFault::Address(AddressFault::Lines(*fault)))?;
    }
    Ok(())
}

/// Adds that one of the address lines is inverted.
fn add_inverted(all: &mut Vec<DumpFault>, lines: &[u16]) -> Result<(), AllocError>
    ensures { OnOk result (all.new.items ≡ all.old.items ++ map inverted_fault lines.now) }
{
    for line in lines {
        all.push(DumpFault::Address(AddressFault::Inverted(*line)))?;
    }
    Ok(())
}

/// That bytes come from one byte or one word away.
fn shifts() -> [DumpFault; 4]
    ensures { result ≡ shifts }
{
    [
        AddressFault::Later(1),
        AddressFault::Earlier(1),
        AddressFault::Later(2),
        AddressFault::Earlier(2),
    ]
    .map(DumpFault::Address)
}

/// That all data lines are high or low where an address line is.
fn dead_parts(line: u16) -> [DumpFault; 4]
    ensures { result ≡ dead_parts line }
{
    [
        (Level::High, Level::High),
        (Level::High, Level::Low),
        (Level::Low, Level::High),
        (Level::Low, Level::Low),
    ]
    .map(|(level, all)| DumpFault::Dead { line, level, all })
}

/// Adds that all data lines are high or low where one of the address lines is.
fn add_dead_parts(all: &mut Vec<DumpFault>, lines: &[u16]) -> Result<(), AllocError>
    ensures { OnOk result (all.new.items ≡ all.old.items ++ flat_map dead_parts lines.now) }
{
    for line in lines {
        all.extend_from_slice(&dead_parts(*line))?;
    }
    Ok(())
}

/// Adds the faults of these address lines, and the shifts.
fn add_address_faults(
    alloc: Global,
    all: &mut Vec<DumpFault>,
    lines: &[u16],
) -> Result<(), AllocError>
    ensures { OnOk result (all.new.items ≡ all.old.items ++ address_faults lines.now) }
{
    add_line_faults(alloc, all, lines)?;
    add_inverted(all, lines)?;
    all.extend_from_slice(&shifts())?;
    add_dead_parts(all, lines)
}

/// All faults that are tried on a good dump of so many bytes.
pub fn candidates(alloc: Global, bytes: usize) -> Result<Vec<DumpFault>, AllocError>
    ensures { IfOk result (λ all. all.items ≡ candidates bytes) }
{
    let mut all = data_faults(alloc)?;
    add_address_faults(alloc, &mut all, &lines_below(alloc, bytes)?)?;
    Ok(all)
}
