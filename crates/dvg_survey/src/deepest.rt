//! The calls below an entry that go deepest.

ghost use Rattle.std.specs.Prelude.{◌≡◌, Contains, length, Some, IfOk, IfSome, IfNone};
ghost use Rattle.dvg_cert.specs.declared.entry.Entry.{Entry};
ghost use Rattle.dvg_cert.specs.Entry.{IsClaim};
ghost use Rattle.dvg_items.specs.Bounds.{IsSoundSeen};
ghost use Rattle.dvg_items.specs.Known.{depth_under};
ghost use Rattle.dvg_survey.specs.Calls.{Call};
ghost use Rattle.dvg_survey.specs.Deepest.{BearsNot, FirstBears, GoDeepest};

use crate::calls::Call;
use dvg_cert::{Cert, Entries, Entry};
use dvg_items::{Seen, SeenItems, WalkContext, depth_under};
use dvg_words::RomImage;
use std::alloc::{AllocError, Global};

/// The calls below an entry that go deepest, by the claims of a certificate. Each stands in the shape of the entry before it, and
/// is the first one there that bears out this entry's depth: a call whose entry claims one less, or a tail jump whose entry claims
/// the same (profile). They end at an entry of depth 0, or where no call bears out the depth, or when they are as many as the
/// entries; in a made certificate they end at depth 0. `entries` are those of the certificate. Goes over the items of each of these
/// shapes once, and takes memory for the calls alone.
#[tactic(auto, using(crate::proofs::Bearing::starts_down))]
pub fn deepest_calls<E: Entries>(
    alloc: Global,
    rom: &RomImage,
    cert: &Cert,
    entries: &E,
    entry: &Entry,
) -> Result<Vec<Call>, AllocError>
    requires entries { E.list entries.now ≡ cert.now.entries }
    requires entry { Contains cert.now.entries entry.now }
    ensures { IfOk result (λ calls. GoDeepest (length cert.now.entries) rom.now cert.now.entries entry.now calls.items) }
{
    let most = cert.entries().len();
    let mut deepest = Vec::new(alloc);
    let mut last = *entry;
    for _ in 0..most {
        let Some(call) = first_bearing(rom, entries, &last) else {
            return Ok(deepest);
        };
        deepest.push(call)?;
        last = call.entry;
    }
    Ok(deepest)
}

/// The first call of an entry's shape that bears out the depth that the entry claims.
fn first_bearing<E: Entries>(rom: &RomImage, entries: &E, entry: &Entry) -> Option<Call>
    requires entry { IsClaim entry.now }
    ensures some { IfSome result (FirstBears rom.now (E.list entries.now) entry.now) }
    ensures none { IfNone result ((call : Call) → BearsNot rom.now (E.list entries.now) entry.now call) }
{
    if entry.depth == 0 {
        return None;
    }
    for seen in SeenItems::new(rom, entries, &WalkContext::shape(entry)) {
        if let Some(call) = call_under(&seen, entry.depth) {
            return Some(call);
        }
    }
    None
}

/// The call of an item, if exactly `depth` return places are stored at once under it.
fn call_under(seen: &Seen, depth: u8) -> Option<Call>
    requires { IsSoundSeen seen.now }
    ensures some { IfSome result (λ call. (call.at ≡ seen.now.item.at) × (seen.now.callee ≡ Some call.entry)
        × (depth_under seen.now.item.instr (Some call.entry) ≡ depth)) }
    ensures none { IfNone result ((e : Entry) → seen.now.callee ≡ Some e → depth_under seen.now.item.instr (Some e) ≡ depth → ⊥) }
{
    let entry = seen.callee?;
    if depth_under(&seen.item.instr, &seen.callee) != depth {
        return None;
    }
    Some(Call {
        at: seen.item.at,
        entry,
    })
}
