//! The pass over a ROM that makes tails, from its last word back to the first entry, and compares the entries with them.

ghost use Rattle.std.specs.Prelude.{◌≡◌, ◌<◌, ◌≤◌, IfSome, IsTrue, List, length, take};
ghost use Rattle.std.specs.List.{AllByRecursion};
ghost use Rattle.dvg_words.specs.Decoding.{InstrFits, cell_at};
ghost use Rattle.dvg_words.specs.Memory.{Rom, rom_word};
ghost use Rattle.dvg_words.specs.declared.instruction.Cell.TheVariants.{Holds};
ghost use Rattle.dvg_words.specs.declared.map.TheConstants.{ADDRESS_END};
ghost use Rattle.dvg_words.specs.Values.{Window};
ghost use Rattle.dvg_cert.specs.Entry.{IsKey};
ghost use Rattle.dvg_items.specs.Bounds.{IsSomeCertificate};
ghost use Rattle.dvg_cert.specs.declared.entry.Entry.{Entry};
ghost use Rattle.dvg_check.specs.Rules.{GoodShape};
ghost use Rattle.dvg_check.specs.Private.Tails.{IsTail, AreTails};

use crate::fault::Mode;
use crate::needed::Needed;
use crate::slots::{Kept, SLOTS, keep, kept_at};
use crate::tail::{Tail, after_item, claims_less, last_item};
use dvg_cert::{Entries, Entry, Key};
use dvg_items::{Item, Kind};
use dvg_words::{RomImage, Window};

/// The tails that were made last.
type Tails = [Option<Kept<Tail>>; SLOTS];

/// The tail from an item on, at a key. `None` where the tail behind it was not made, or the item may not stand there. Only the
/// contract speaks of the ROM: the item stands in it.
fn tail_at<E: Entries>(
    window: &Window,
    rom: &RomImage,
    entries: &E,
    item: &Item,
    key: Key,
    tails: &Tails,
) -> Option<Tail>
    requires key { IsKey key }
    requires there { cell_at (rom_word rom.now) item.now.at ≡ Holds item.now.format item.now.instr }
    requires near { item.now.at < ADDRESS_END }
    requires fields { InstrFits item.now.instr }
    requires tails { AreTails window.now rom.now (E.list entries.now) tails.now }
    ensures { IfSome result (IsTail window.now rom.now (E.list entries.now) item.now.at key) }
{
    let first = last_item(rom.machine(), entries, item, key)?;
    match item.next_address(Kind::Shape) {
        Some(next) => after_item(window, &first, kept_at(tails, next, first.scale)?),
        None => Some(first),
    }
}

/// Whether the tail at an entry's address and key was made, and shows that the entry is good.
#[inline(never)]
fn shows(mode: Mode, tails: &Tails, entry: &Entry) -> bool
    requires { IsKey entry.now.key }
    ensures { (w : Window) (rom : Rom) (list : List Entry) → AreTails w rom list tails.now → IsTrue result →
        GoodShape mode w rom list entry.now }
{
    match kept_at(tails, entry.addr, entry.key) {
        Some(tail) => claims_less(mode, entry, tail),
        None => false,
    }
}

/// Makes the tails that are needed at the word addresses from `from` on and below `to`, the last word first.
fn make_all<E: Entries>(
    window: &Window,
    rom: &RomImage,
    entries: &E,
    needed: &Needed,
    from: u16,
    to: u16,
    tails: &mut Tails,
)
    requires to { to ≤ ADDRESS_END }
    requires tails { AreTails window.now rom.now (E.list entries.now) tails.old }
    ensures { AreTails window.now rom.now (E.list entries.now) tails.new }
{
    let mut at = to;
    'places: while let Some((item, keys)) = needed.last_between(rom, from, at) {
        at = item.at;
        let mut left = keys;
        'keys: while let Some(key) = left.take_first() {
            if let Some(tail) = tail_at(window, rom, entries, &item, key, tails) {
                keep(tails, at, key, tail);
            }
        }
    }
}

/// The index of the first entry whose shape the tails don't show to be good, or how many entries there are.
pub fn first_doubtful<E: Entries>(
    mode: Mode,
    window: &Window,
    rom: &RomImage,
    entries: &E,
    list: &[Entry],
) -> usize
    requires list { E.list entries.now ≡ list.now }
    requires certificate { IsSomeCertificate list.now }
    ensures few { result ≤ length list.now }
    ensures good { AllByRecursion (GoodShape mode window.now rom.now list.now) (take result list.now) }
{
    let needed = Needed::for_entries(rom, entries, list);
    let mut tails = [None; SLOTS];
    let mut at = needed.end;
    let mut doubtful = list.len();
    let mut left = list.len();
    'entries: while left > 0 {
        left -= 1;
        let entry = &list[left];
        make_all(window, rom, entries, &needed, entry.addr, at, &mut tails);
        at = entry.addr;
        if !shows(mode, &tails, entry) {
            doubtful = left;
        }
    }
    doubtful
}
