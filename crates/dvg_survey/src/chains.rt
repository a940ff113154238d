//! The calls by which a frame comes to an entry.

ghost use Rattle.std.specs.Prelude.{◌≡◌, List, OnOk, IfOk, IfSome, IfNone};
ghost use Rattle.dvg_cert.specs.Entry.{IsClaim};
ghost use Rattle.dvg_items.specs.Bounds.{IsSomeCertificate};
ghost use Rattle.dvg_survey.specs.Calls.{Call};
ghost use Rattle.dvg_survey.specs.Chains.{IsChain};
ghost use Rattle.dvg_survey.specs.Private.Reaching.{IsReachedByFrame, IsReachedByShape};

use crate::calls::Call;
use crate::frame_survey::survey_items;
use crate::items::new_calls;
use crate::keyed_words::KeyedWords;
use crate::reached::Reached;
use dvg_cert::{Cert, Entries, Entry};
use dvg_words::{FrameImage, FrameOn, Machine, RomImage};
use std::alloc::{AllocError, Global};

/// The entries that a frame's own items call.
fn reached_by_frame<E: Entries>(
    alloc: Global,
    machine: Machine,
    entries: &E,
    frame: &FrameImage,
) -> Result<Reached, AllocError>
    requires { IsSomeCertificate (E.list entries.now) }
    ensures { IfOk result (λ reached. IsReachedByFrame machine frame.now (E.list entries.now) reached) }
{
    let mut reached = Reached::new(alloc)?;
    let framed = FrameOn::new(machine, frame);
    let survey = survey_items(alloc, &framed, entries)?;
    reached.add_all(&survey.calls, None)?;
    Ok(reached)
}

/// Adds the entries that the shape of an entry calls at words where no search came by before. `from` is the index of the entry's
/// link.
fn reach_from<E: Entries>(
    alloc: Global,
    rom: &RomImage,
    entries: &E,
    entry: &Entry,
    from: usize,
    reached: &mut Reached,
    visited: &mut KeyedWords,
) -> Result<(), AllocError>
    requires entries { IsSomeCertificate (E.list entries.now) }
    requires entry { IsClaim entry.now }
    ensures { OnOk result (IsReachedByShape rom.now (E.list entries.now) entry.now from visited.old visited.new reached.old reached.new) }
{
    let calls = new_calls(alloc, rom, entries, entry, visited)?;
    reached.add_all(&calls, Some(from))
}

/// The calls by which a frame comes to an entry, by the claims of a certificate: the first is the frame's own, each later one
/// stands in the shape of the entry that the one before it names, and the last names the goal (profile). `None` exactly where the
/// frame does not come to it. `entries` are those of the certificate. Goes breadth first over the shapes that the frame comes to,
/// and over each word of the ROM once at most for each known scale there, however many shapes come by. Takes memory for what the
/// frame comes to; an `Err` says that there was none.
#[tactic(auto, using(crate::proofs::SameEntry::entry_decides, std::proofs::lemmas::Option::slice_get_within))]
pub fn find_chain<E: Entries>(
    alloc: Global,
    rom: &RomImage,
    cert: &Cert,
    entries: &E,
    frame: &FrameImage,
    goal: &Entry,
) -> Result<Option<Vec<Call>>, AllocError>
    requires { E.list entries.now ≡ cert.now.entries }
    ensures some { IfOk result (λ found. IfSome found (λ calls. IsChain rom.now frame.now cert.now.entries calls.items goal.now)) }
    ensures none { IfOk result (λ found. IfNone found ((calls : List Call) → IsChain rom.now frame.now cert.now.entries calls goal.now → ⊥)) }
{
    let listed = cert.entries().len();
    let mut reached = reached_by_frame(alloc, rom.machine(), entries, frame)?;
    let mut visited = KeyedWords::new(alloc)?;
    for next in 0..listed {
        let Some(link) = reached.get(next) else {
            return Ok(None);
        };
        if link.call.entry == *goal {
            return Ok(Some(reached.chain(alloc, next)?));
        }
        reach_from(
            alloc,
            rom,
            entries,
            &link.call.entry,
            next,
            &mut reached,
            &mut visited,
        )?;
    }
    Ok(None)
}
