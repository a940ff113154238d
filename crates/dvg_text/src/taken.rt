//! The lines of a certificate that the reader has taken. Their order, their count and the limits are checked here.

ghost use Rattle.std.specs.Prelude.{◌≡◌, ◌↔◌, length, IsTrue, IfOk, IfErr, Ok, Err};
ghost use Rattle.dvg_cert.specs.declared.fault.CertWhy.TheVariants.{Unended};
ghost use Rattle.dvg_cert.specs.Entry.{IsEntry};
ghost use Rattle.dvg_cert.specs.Order.{IsCertificate};
ghost use Rattle.dvg_text.specs.Grammar.{heading};
ghost use Rattle.dvg_text.specs.Reading.{Taken, Nothing, Begun, Whole, IsUnended, IsTaken, line_number};
ghost use Rattle.dvg_text.specs.Private.Progress.{taken_of, IsStaged, StartsWith, TakesEntry, TakesFirst, TakesLine, TakesLater};

use crate::line::{count_of, elsewhere_of, ended_entry, entry_of};
use dvg_cert::{
    Cert, CertFault, CertWhy, Entry, MOST_ENTRIES, certificate_unchecked, stands_after,
};
use dvg_words::{ASTEROIDS, RomMap};
use std::alloc::Global;
use std::marker::Model;

/// Which line comes next.
#[derive(Clone, Copy)]
pub enum Stage {
    /// The first line, which has the version.
    First,
    /// The line that says where the ROM lies.
    Rom,
    /// The line of an entry, or the last line.
    Later,
    /// None: the last line was taken.
    Ended,
}

/// What the lines taken so far say.
#[derive(Drop)]
pub struct TakenLines {
    stage: Stage,
    /// Where the ROM lies: as in Asteroids, unless a line says otherwise.
    map: RomMap,
    entries: Vec<Entry>,
}

impl Model for TakenLines {
    ghost Value = { Taken };

    ghost view = { λ s. taken_of s.map s.entries.items s.stage };

    ghost invariant = { λ s. IsStaged s.map s.entries.items s.stage };
}

impl TakenLines {
    /// No line so far.
    pub fn new(alloc: Global) -> TakenLines
        ensures { result ≡ Nothing }
    {
        TakenLines {
            stage: Stage::First,
            map: ASTEROIDS,
            entries: Vec::new(alloc),
        }
    }

    /// Whether the last line was taken.
    pub fn is_whole(&self) -> bool
        ensures { IsTrue result ↔ (IsUnended self.now → ⊥) }
    {
        match self.stage {
            Stage::First | Stage::Rom | Stage::Later => false,
            Stage::Ended => true,
        }
    }

    /// Which line comes next.
    pub fn stage(&self) -> Stage {
        self.stage
    }

    /// Where the ROM lies.
    pub fn map(&self) -> RomMap {
        self.map
    }

    /// The number of the next line.
    pub fn line_number(&self) -> u32
        ensures { result ≡ line_number self.now }
    {
        match self.stage {
            Stage::First => 1,
            Stage::Rom => 2,
            Stage::Later => heading(self.map) + self.entries.len() as u32 + 1,
            Stage::Ended => heading(self.map) + self.entries.len() as u32 + 2,
        }
    }

    /// Takes a line, which comes without its end.
    #[tactic(auto, using(crate::proofs::Refusals::first_at))]
    #[inline(always)]
    pub fn take_line(&mut self, line: &[u8]) -> Result<(), CertWhy>
        requires { IsUnended self.old }
        ensures { TakesLine self.old line.now self.new result }
    {
        match self.stage {
            Stage::First => self.stage = after_first(line)?,
            Stage::Rom => match elsewhere_of(line) {
                Some(map) => {
                    self.map = map;
                    self.stage = Stage::Later;
                }
                None => return Err(CertWhy::Form),
            },
            Stage::Later => self.stage = take_later(self.map, &mut self.entries, line)?,
            Stage::Ended => return Err(CertWhy::After),
        }
        Ok(())
    }

    /// Takes the whole lines of entries with which these bytes begin, and gives the bytes after them. It stops before the first
    /// line that is no entry's or may not come next. `Err` only for want of memory.
    #[inline(always)]
    pub fn take_first<'a>(&mut self, bytes: &'a [u8]) -> Result<&'a [u8], CertWhy>
        ensures { TakesFirst (λ x. x.now) self.old bytes.now self.new result }
    {
        match self.stage {
            Stage::Later => take_first_entries(self.map, &mut self.entries, bytes),
            Stage::First | Stage::Rom | Stage::Ended => Ok(bytes),
        }
    }

    /// The certificate. Refuses a text that ended before its last line.
    pub fn finish(self) -> Result<Cert, CertFault>
        ensures whole { IfOk result (λ cert. (self ≡ Whole cert.map cert.entries) × IsCertificate cert.map cert.entries) }
        ensures unended { IfErr result (λ f. IsUnended self × (f.line ≡ line_number self) × (f.why ≡ Unended)) }
    {
        let line = self.line_number();
        match self.stage {
            Stage::Ended => Ok(certificate_unchecked(self.map, self.entries)),
            _ => Err(CertFault {
                line,
                why: CertWhy::Unended,
            }),
        }
    }
}

/// Adds the entries of the whole lines with which these bytes begin, and gives the bytes after them.
fn take_first_entries<'a>(
    map: RomMap,
    entries: &mut Vec<Entry>,
    bytes: &'a [u8],
) -> Result<&'a [u8], CertWhy>
    requires { IsCertificate map entries.old.items }
    ensures certificate { IsCertificate map entries.new.items }
    ensures takes { TakesFirst (λ x. x.now) (Begun map entries.old.items) bytes.now (Begun map entries.new.items) result }
{
    let (first, last) = (map.first(), map.last());
    let mut rest = bytes;
    while let Some((entry, after)) = ended_entry(rest, first, last) {
        match take_entry(map, entries, entry) {
            Ok(()) => rest = after,
            Err(CertWhy::Memory) => return Err(CertWhy::Memory),
            Err(_) => return Ok(rest),
        }
    }
    Ok(rest)
}

/// The stage after the first line.
fn after_first(line: &[u8]) -> Result<Stage, CertWhy>
    ensures { StartsWith line.now result }
{
    if line == b"dvgcert 1".as_slice() {
        return Ok(Stage::Later);
    }
    if line == b"dvgcert 2".as_slice() {
        return Ok(Stage::Rom);
    }
    Err(CertWhy::Form)
}

/// The number of lines before the entries.
pub fn heading(map: RomMap) -> u32
    ensures { result ≡ length (heading map) }
{
    if map.is_asteroids() { 1 } else { 2 }
}

/// Takes the line of an entry or the last line, and gives the stage after it.
#[tactic(auto, using(crate::proofs::Refusals::entry_taken))]
#[inline(always)]
fn take_later(map: RomMap, entries: &mut Vec<Entry>, line: &[u8]) -> Result<Stage, CertWhy>
    requires { IsCertificate map entries.old.items }
    ensures { TakesLater map entries.old.items line.now entries.new.items result }
{
    if let Some(entry) = entry_of(line, map.first(), map.last()) {
        take_entry(map, entries, entry)?;
        return Ok(Stage::Later);
    }
    let Some(count) = count_of(line) else {
        return Err(CertWhy::Form);
    };
    if count as usize != entries.len() {
        return Err(CertWhy::Count);
    }
    Ok(Stage::Ended)
}

/// Adds an entry, which has to stand after the last one. An `Err` changes nothing.
#[tactic(auto, using(dvg_cert::proofs::Rising::certificate_push))]
#[inline(always)]
fn take_entry(map: RomMap, entries: &mut Vec<Entry>, entry: Entry) -> Result<(), CertWhy>
    requires taken { IsCertificate map entries.old.items }
    requires entry { IsEntry map.rom_first map.rom_last entry }
    ensures { TakesEntry map entries.old.items entry entries.new.items result }
{
    if !stands_after(entries, &entry) {
        return Err(CertWhy::Order);
    }
    if entries.len() >= MOST_ENTRIES {
        return Err(CertWhy::TooLong);
    }
    match entries.push(entry) {
        Ok(()) => Ok(()),
        Err(_) => Err(CertWhy::Memory),
    }
}
