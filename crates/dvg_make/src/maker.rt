//! The maker: a certificate of the entries for roots, and for what frames call.

ghost use Rattle.std.specs.Prelude.{◌≡◌, ◌↔◌, ◌≤◌, ℕ, List, [], None, OnOk, IfOk, IfErr, IsTrue};
ghost use Rattle.dvg_words.specs.Values.{IsMap};
ghost use Rattle.dvg_words.specs.Memory.{InRom};
ghost use Rattle.dvg_cert.specs.Entry.{IsKey};
ghost use Rattle.dvg_make.specs.Made.{Made};
ghost use Rattle.dvg_make.specs.Frames.{FramesMade, IsMadeFor};
ghost use Rattle.dvg_make.specs.Refusals.{Refuses, FramesRefuse};
ghost use Rattle.dvg_make.specs.Accounts.{HasCause, HasRootCause};
ghost use Rattle.dvg_make.specs.Private.Making.{IsRightFor, Collected, IsRefused};
ghost use Rattle.dvg_make.specs.Private.Framing.{AllFramed, IsForSome, MakesFor};

use crate::account::EntryCause;
use crate::fault::{FramesFault, MakeFault};
use crate::made_entries::MadeEntries;
use crate::making::Making;
use crate::obstacle::Blocked;
use crate::partial::PartialEntry;
use crate::stack::Stack;
use dvg_cert::{Cert, Key, certificate_unchecked, is_key};
use dvg_words::{FrameImage, RomImage, RomMap};
use std::alloc::{AllocError, Global};

/// Whether a certificate may have an entry at this address and key.
fn can_be_root(rom: &RomImage, addr: u16, key: Key) -> bool
    ensures { IsTrue result ↔ (InRom rom.now.map addr × IsKey key) }
{
    let map = rom.map();
    map.first() <= addr && addr <= map.last() && is_key(key)
}

impl Making {
    /// Makes the entries of all roots, and all that these need.
    fn make_roots(&mut self, rom: &RomImage, roots: &[(u16, Key)]) -> Result<(), Blocked>
        requires right { IsRightFor rom.now self.old }
        requires none { self.old.done ≡ [] }
        ensures right { OnOk result (IsRightFor rom.now self.new) }
        ensures ok { OnOk result (Collected rom.now roots.now self.new.done) }
        ensures err { IfErr result (λ blocked. (frames : List (List ℕ)) → IsRefused rom.now roots.now frames blocked) }
    {
        for &(addr, key) in roots {
            if !can_be_root(rom, addr, key) {
                let obstacle = PartialEntry::start(addr, key).obstacle(EntryCause::RootOutside);
                let chain = Stack::new(self.alloc);
                return Err(Blocked {
                    call: None,
                    chain,
                    obstacle,
                });
            }
            self.need(rom, addr, key)?;
        }
        Ok(())
    }
}

/// Makes the entries of all roots, of all that frames call, and of all that these need.
#[tactic(auto, using(crate::proofs::Turns::if_err_same))]
fn make_all(
    alloc: Global,
    rom: &RomImage,
    roots: &[(u16, Key)],
    frames: &[FrameImage],
) -> Result<MadeEntries, Blocked>
    requires map { IsMap rom.now.map }
    ensures ok { IfOk result (AllFramed rom.now roots.now frames.now) }
    ensures err { IfErr result (IsRefused rom.now roots.now frames.now) }
{
    let mut making = Making::new(alloc);
    making.make_roots(rom, roots)?;
    for (index, frame) in frames.iter().enumerate() {
        making.make_frame(rom, index, frame)?;
    }
    Ok(making.done)
}

/// What is made: a certificate, and its entries, found by address and key.
#[derive(Drop)]
pub struct MadeCert {
    pub cert: Cert,
    pub entries: MadeEntries,
}

/// The certificate of the made entries, for a ROM at this map.
fn certificate_of(alloc: Global, map: RomMap, mut done: MadeEntries) -> Result<MadeCert, AllocError>
    requires map { IsMap map }
    requires done { IsForSome map done }
    ensures made { IfOk result (λ made. MakesFor map done made.cert.entries) }
    ensures map { IfOk result (λ made. made.cert.map ≡ map) }
    ensures entries { IfOk result (λ made. made.entries ≡ made.cert.entries) }
{
    done.sort()?;
    let entries = done.entries(alloc)?;
    Ok(MadeCert {
        cert: certificate_unchecked(map, entries),
        entries: done,
    })
}

/// Makes what [`make_for_frames`] makes. The refusal comes with the shapes in the making.
#[inline(never)]
#[tactic(auto, using(crate::proofs::Causes::stuck_cause))]
pub fn make_indexed(
    alloc: Global,
    rom: &RomImage,
    roots: &[(u16, Key)],
    frames: &[FrameImage],
) -> Result<MadeCert, Blocked>
    ensures ok { IfOk result (IsMadeFor rom.now roots.now frames.now) }
    ensures err { IfErr result (IsRefused rom.now roots.now frames.now) }
{
    let map = rom.map();
    let done = make_all(alloc, rom, roots, frames)?;
    match certificate_of(alloc, map, done) {
        Ok(made) => Ok(made),
        Err(_) => Err(Blocked::by_memory(alloc)),
    }
}

/// Makes what [`make_for_frames`] makes, with its entries by address and key. The refusals are the same.
#[tactic(auto, using(crate::proofs::Causes::stuck_cause))]
pub fn make_with_index(
    alloc: Global,
    rom: &RomImage,
    roots: &[(u16, Key)],
    frames: &[FrameImage],
) -> Result<MadeCert, FramesFault>
    ensures ok { IfOk result (IsMadeFor rom.now roots.now frames.now) }
    ensures err { IfErr result (FramesRefuse rom.now roots.now frames.now) }
    ensures told { IfErr result (HasCause rom.now roots.now frames.now) }
{
    match make_indexed(alloc, rom, roots, frames) {
        Ok(made) => Ok(made),
        Err(blocked) => Err(blocked.fault()),
    }
}

/// Makes the certificate of the shapes at these addresses and keys, of those that the frames call, each at the scale that is
/// known before the call by this very certificate, and of all that these call or tail jump to: exact words and depths, the
/// least boxes, and for each call an entry at the very scale that is known there (profile). Its map is the ROM's.
///
/// The calls of a frame are those among its items, up to and with its last, whatever rule an item breaks. The first fault that the
/// making comes to is answered: roots come first, then the frames in their order. A refusal names the frame's call whose entry is
/// not made, and 60 the word of the faulty item. By then all that is asked for before it has its entry, and so has all that the
/// items before the faulty one call. 62 by the number of entries comes where the entries made by then and the shapes in the making
/// are 4,096, and one more is called. For a frame's call, 60, 61 and 62 by a count come only where no certificate at all gets this
/// frame accepted; 62 by the number of entries only where the certificate would be too long, and then another one may be accepted.
/// A root outside the ROM or with a scale over 15 is 60. 63 comes where there was no memory. What is lit at an absolute place may
/// lie anywhere: no window is asked. Takes memory for the entries, for the shapes in the making, and for what is kept of long shapes
/// that others share.
pub fn make_for_frames(
    alloc: Global,
    rom: &RomImage,
    roots: &[(u16, Key)],
    frames: &[FrameImage],
) -> Result<Cert, FramesFault>
    ensures ok { IfOk result (λ cert. FramesMade rom.now roots.now frames.now cert.entries) }
    ensures map { IfOk result (λ cert. cert.map ≡ rom.now.map) }
    ensures err { IfErr result (FramesRefuse rom.now roots.now frames.now) }
    ensures told { IfErr result (HasCause rom.now roots.now frames.now) }
{
    match make_with_index(alloc, rom, roots, frames) {
        Ok(made) => Ok(made.cert),
        Err(fault) => Err(fault),
    }
}

/// Makes the certificate of the shapes at these addresses and keys, and of all that they call or tail jump to: what
/// [`make_for_frames`] makes where there is no frame.
///
/// A root is a word address and the global scale at the call, `Any` where it is not known. A root that is given twice has
/// one entry, no roots give the empty certificate, and a root outside the ROM or with a scale over 15 is 60.
///
/// Refuses 60 to 62 only where there is no such certificate, and 63 where there was no memory. The first fault met is answered,
/// as [`make_for_frames`] does: roots and items in order, an entry that an item needs before the item. The items of a shape are
/// passed once for each scale at which it is needed, those of a long one up to three times, but no further than to where it is known
/// what comes.
#[tactic(auto, using(crate::proofs::Collecting::as_make_fault, crate::proofs::Causes::root_cause))]
pub fn make(alloc: Global, rom: &RomImage, roots: &[(u16, Key)]) -> Result<Cert, MakeFault>
    ensures ok { IfOk result (λ cert. Made rom.now roots.now cert.entries) }
    ensures map { IfOk result (λ cert. cert.map ≡ rom.now.map) }
    ensures err { IfErr result (Refuses rom.now roots.now) }
    ensures told { IfErr result (HasRootCause rom.now roots.now) }
{
    match make_for_frames(alloc, rom, roots, &[]) {
        Ok(cert) => Ok(cert),
        Err(fault) => Err(fault.why.into()),
    }
}
