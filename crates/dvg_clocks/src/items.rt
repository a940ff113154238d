//! What items take, one after another.

ghost use Rattle.std.specs.Prelude.{◌≡◌, ◌≤◌, ◌<◌, ◌+◌, ◌*◌, IfSome, IfOk, IfErr};
ghost use Rattle.dvg_words.specs.Decoding.{InstrFits};
ghost use Rattle.dvg_words.specs.declared.map.TheConstants.{ADDRESS_END};
ghost use Rattle.dvg_cert.specs.Entry.{IsKey, IsClaim};
ghost use Rattle.dvg_items.specs.Known.{callee_words};
ghost use Rattle.dvg_clocks.specs.Forecasts.{plus, callee_taken, clocks_known};
ghost use Rattle.dvg_clocks.specs.Kept.{WORD_CLOCKS};
ghost use Rattle.dvg_clocks.specs.Kept.{AreAllFew, IsFewFor, clocks_in};
ghost use Rattle.dvg_clocks.specs.Private.Walking.{IsOver, IsTaken, IsWalkable, cursor_past};

use crate::clocks::{ClockRange, States, instr_clocks};
use crate::shapes::ShapeClocks;
use dvg_cert::{Entries, Entry, Key};
use dvg_items::{Item, Kind, callee, scale_past, target};
use dvg_words::{Cell, Fetch, read_cell};

/// What sees the items that are gone over, and what each of them takes.
pub trait SeesItems {
    /// Sees an item, and what it takes, with all that it calls.
    fn see(&mut self, item: &Item, clocks: ClockRange);
}

/// Nothing sees them.
#[derive(Clone, Copy)]
pub struct Unseen;

impl SeesItems for Unseen {
    #[inline(always)]
    fn see(&mut self, _item: &Item, _clocks: ClockRange) {}
}

/// At an item of a shape or of a frame, with the known scale there.
#[derive(Clone, Copy)]
pub struct ScaleCursor {
    pub kind: Kind,
    pub at: u16,
    pub scale: Key,
}

impl ScaleCursor {
    /// At the next item, past one that is here and calls this entry; `None` past the last one.
    #[inline(always)]
    fn past(&self, item: &Item, called: &Option<Entry>) -> Option<ScaleCursor>
        requires near { item.now.at < ADDRESS_END }
        requires key { IsKey self.now.scale }
        requires fields { InstrFits item.now.instr }
        requires claim { IfSome called.now IsClaim }
        ensures value { result ≡ cursor_past self.now item.now called.now }
        ensures key { IfSome result (λ next. IsKey next.scale) }
    {
        let at = item.next_address(self.kind)?;
        Some(ScaleCursor {
            kind: self.kind,
            at,
            scale: scale_past(&item.instr, self.scale, called),
        })
    }
}

/// What an instruction takes at a known scale, with the shape of the entry that it calls.
fn item_clocks(
    states: &States,
    shapes: &ShapeClocks,
    item: &Item,
    scale: Key,
    called: &Option<Entry>,
) -> ClockRange
    requires key { IsKey scale }
    requires fields { InstrFits item.now.instr }
    requires claim { IfSome called.now IsClaim }
    requires few { IfSome called.now (IsFewFor shapes.now) }
    ensures value { result ≡ plus (clocks_known states.now item.now.format item.now.instr scale)
        (callee_taken (clocks_in shapes.now) called.now) }
    ensures ordered { result.least ≤ result.most }
    ensures few { result.most ≤ WORD_CLOCKS * (1 + callee_words called.now) }
{
    let own = instr_clocks(states, item.format, &item.instr, scale);
    match called {
        None => own,
        Some(entry) => own.plus(shapes.of(entry)),
    }
}

/// What the items take, from the first one through the last. `Err` has the word address of the first item with which they may take more
/// than `limit` clocks. Each item that is gone over is seen once. Takes no memory.
pub fn items_clocks<F: Fetch, E: Entries, S: SeesItems>(
    states: &States,
    words: &F,
    entries: &E,
    shapes: &ShapeClocks,
    first: &ScaleCursor,
    limit: u64,
    seen: &mut S,
) -> Result<ClockRange, u16>
    requires key { IsKey first.now.scale }
    requires few { AreAllFew shapes.now (E.list entries.now) }
    requires walkable { IsWalkable (F.words words.now) (E.list entries.now) first.now }
    ensures ok { IfOk result (IsTaken states.now (F.words words.now) (E.list entries.now) shapes.now first.now limit) }
    ensures err { IfErr result (IsOver states.now (F.words words.now) (E.list entries.now) shapes.now first.now limit) }
{
    let mut here = *first;
    let mut sum = ClockRange::ZERO;
    while let Cell::Holds { format, instr } = read_cell(words, here.at) {
        let item = Item {
            at: here.at,
            format,
            instr,
        };
        let called = callee(entries, target(here.kind, &instr), here.scale);
        let clocks = item_clocks(states, shapes, &item, here.scale, &called);
        seen.see(&item, clocks);
        sum = clocks.plus(sum);
        if sum.most > limit {
            return Err(here.at);
        }
        match here.past(&item, &called) {
            Some(next) => here = next,
            None => return Ok(sum),
        }
    }
    Ok(sum)
}
