//! What one item of a frame or of a shape adds, and the calls of a shape that were not visited before.

ghost use Rattle.std.specs.Prelude.{◌≡◌, ◌++◌, List, OnOk, IfOk};
ghost use Rattle.dvg_words.specs.declared.beam.Point.{Point};
ghost use Rattle.dvg_cert.specs.Entry.{IsKey};
ghost use Rattle.dvg_items.specs.Bounds.{IsSoundSeen};
ghost use Rattle.dvg_items.specs.Least.{IsLeast};
ghost use Rattle.dvg_items.specs.Lit.{absolute_corners};
ghost use Rattle.dvg_survey.specs.Calls.{call_of};
ghost use Rattle.dvg_survey.specs.Private.Visiting.{AreNewCalls};

use crate::calls::Call;
use crate::keyed_words::KeyedWords;
use dvg_cert::{Entries, Entry, LitBox};
use dvg_items::{Item, Kind, Seen, absolute_corners, callee, scale_past, target, widened};
use dvg_words::{Cell, RomImage, read_cell};
use std::alloc::{AllocError, Global};

/// Adds the call of an item, if it names an entry.
pub fn push_call(
    calls: &mut Vec<Call>,
    item: &Item,
    named: &Option<Entry>,
) -> Result<(), AllocError>
    ensures { OnOk result (calls.new.items ≡ calls.old.items ++ call_of item.now named.now) }
{
    if let Some(entry) = *named {
        calls.push(Call { at: item.at, entry })?;
    }
    Ok(())
}

/// The calls of an entry's shape, in their order, up to the first word that was visited before at the same known scale: from there
/// on, the shape that visited it makes the same calls. Marks each word that it goes over as visited. What an item calls depends on
/// its word address and on the known scale there alone, so nothing else of what is known is kept.
#[tactic(auto, using(crate::proofs::Visiting::starts, crate::proofs::Visiting::walks_on))]
pub fn new_calls<E: Entries>(
    alloc: Global,
    rom: &RomImage,
    entries: &E,
    entry: &Entry,
    visited: &mut KeyedWords,
) -> Result<Vec<Call>, AllocError>
    requires key { IsKey entry.now.key }
    ensures { IfOk result (λ calls. AreNewCalls rom.now (E.list entries.now) entry.now visited.old visited.new calls.items) }
{
    let mut calls = Vec::new(alloc);
    let mut at = entry.addr;
    let mut scale = entry.key;
    while let Cell::Holds { format, instr } = read_cell(rom, at) {
        if visited.has(at, scale) {
            return Ok(calls);
        }
        visited.add(at, scale);
        let item = Item { at, format, instr };
        let named = callee(entries, target(Kind::Shape, &instr), scale);
        push_call(&mut calls, &item, &named)?;
        scale = scale_past(&instr, scale, &named);
        match item.next_address(Kind::Shape) {
            Some(next) => at = next,
            None => return Ok(calls),
        }
    }
    Ok(calls)
}

/// The least box of a box and of what an item lights at an absolute place.
pub fn lit_with(lit: &LitBox, seen: &Seen) -> LitBox
    requires { IsSoundSeen seen.now }
    ensures { (ps : List Point) → IsLeast ps lit.now → IsLeast (absolute_corners seen.now.extent seen.now.place ++ ps) result }
{
    match absolute_corners(&seen.extent, &seen.place) {
        Some((from, to)) => widened(lit, &from, &to),
        None => *lit,
    }
}
