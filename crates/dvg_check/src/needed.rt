//! Which tails a pass over a ROM has to make.

ghost use Rattle.std.specs.Prelude.{◌≡◌, ◌<◌, ◌≤◌, IfSome};
ghost use Rattle.dvg_words.specs.Decoding.{InstrFits, cell_at};
ghost use Rattle.dvg_words.specs.Memory.{rom_word};
ghost use Rattle.dvg_words.specs.declared.instruction.Cell.TheVariants.{Holds};
ghost use Rattle.dvg_words.specs.declared.map.TheConstants.{ADDRESS_END};
ghost use Rattle.dvg_items.specs.Bounds.{IsSomeCertificate};

use crate::keys::Keys;
use dvg_cert::{Entries, Entry, Key};
use dvg_items::{Item, Kind, callee};
use dvg_words::{Cell, Instr, MOST_ROM_WORDS, RomImage, read_cell};

/// The known scales past a call of a word address, where the known scales before it are these.
fn keys_left<E: Entries>(entries: &E, to: u16, keys: Keys) -> Keys {
    let mut left = Keys::NONE;
    let mut before = keys;
    'keys: while let Some(key) = before.take_first() {
        if let Some(entry) = callee(entries, Some(to), key) {
            left = left.with(Keys::one(entry.scale));
        }
    }
    left
}

/// The keys at which the tail behind an instruction is needed, where the tail from the instruction on is needed at these.
fn keys_behind<E: Entries>(entries: &E, instr: &Instr, keys: Keys) -> Keys
    requires fields { InstrFits instr.now }
{
    match instr {
        Instr::Labs { gscale, .. } => Keys::one(Key::At(*gscale)),
        Instr::Jsrl { to } => keys_left(entries, *to, keys),
        _ => keys,
    }
}

/// The item at a word address of a ROM, if one stands there.
#[inline(always)]
fn item_at(rom: &RomImage, at: u16) -> Option<Item>
    ensures at { IfSome result (λ item. item.at ≡ at) }
    ensures there { IfSome result (λ item. cell_at (rom_word rom.now) item.at ≡ Holds item.format item.instr) }
    ensures fields { IfSome result (λ item. InstrFits item.instr) }
{
    match read_cell(rom, at) {
        Cell::Holds { format, instr } => Some(Item { at, format, instr }),
        Cell::Missing | Cell::Odd => None,
    }
}

/// The keys at which tails are needed, at each word of a ROM. A pass from the ROM's last word to its first makes these tails alone.
/// No verdict depends on it: a shape whose tail was not made is judged item by item.
#[derive(Drop)]
pub struct Needed {
    /// The word address of the ROM's first word.
    first: u16,
    /// The keys at the ROM's words, from its first one on.
    keys: [Keys; MOST_ROM_WORDS],
    /// One past the last word address at which some key is needed.
    pub end: u16,
}

impl Needed {
    /// The tails that the entries of a list need: those at the entries' own addresses and keys, and the tails behind these.
    pub fn for_entries<E: Entries>(rom: &RomImage, entries: &E, list: &[Entry]) -> Needed
        requires list { IsSomeCertificate list.now }
        ensures { result.end ≤ ADDRESS_END }
    {
        let (first, last) = (rom.map().first(), rom.map().last());
        let mut needed = Needed {
            first,
            keys: [Keys::NONE; MOST_ROM_WORDS],
            end: first,
        };
        for entry in list {
            needed.add(entry.addr, Keys::one(entry.key));
        }
        for at in first..last + 1 {
            if needed.end <= at {
                break;
            }
            needed.add_behind(rom, entries, at);
        }
        needed.end = needed.end.min(last + 1);
        needed
    }

    /// The last item at which tails are needed, of those at the word addresses from `from` on and below `to`, and at which keys they
    /// are.
    #[inline(always)]
    pub fn last_between(&self, rom: &RomImage, from: u16, to: u16) -> Option<(Item, Keys)>
        requires { to ≤ ADDRESS_END }
        ensures before { IfSome result (λ found. found.0.at < to) }
        ensures there { IfSome result (λ found. cell_at (rom_word rom.now) found.0.at ≡ Holds found.0.format found.0.instr) }
        ensures fields { IfSome result (λ found. InstrFits found.0.instr) }
    {
        let mut at = to;
        'places: while from < at {
            at -= 1;
            let keys = self.keys_at(at);
            if !keys.is_empty() {
                if let Some(item) = item_at(rom, at) {
                    return Some((item, keys));
                }
            }
        }
        None
    }

    /// The keys that are needed at a word address.
    fn keys_at(&self, at: u16) -> Keys {
        // Before the first word the difference wraps, to past the last.
        let index = at.wrapping_sub(self.first);
        match self.keys.get(usize::from(index)) {
            Some(keys) => *keys,
            None => Keys::NONE,
        }
    }

    /// Adds keys at a word address; before the ROM's first word, or 2,048 words or more past it, it adds none.
    fn add(&mut self, at: u16, more: Keys) {
        let index = at.wrapping_sub(self.first);
        if let Some(keys) = self.keys.get_mut(usize::from(index)) {
            *keys = keys.with(more);
            self.end = self.end.max(at.saturating_add(1));
        }
    }

    /// The tails that are needed at a word address need the tail behind their first item. Adds the keys at which they need it.
    fn add_behind<E: Entries>(&mut self, rom: &RomImage, entries: &E, at: u16)
        requires near { at < ADDRESS_END }
    {
        let keys = self.keys_at(at);
        if keys.is_empty() {
            return;
        }
        let Some(item) = item_at(rom, at) else {
            return;
        };
        if let Some(next) = item.next_address(Kind::Shape) {
            self.add(next, keys_behind(entries, &item.instr, keys));
        }
    }
}
