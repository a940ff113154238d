//! The entry of one shape, made item by item.

ghost use Rattle.std.specs.Prelude.{◌≡◌, ◌<◌, ◌≤◌, Contains, Some, IfOk, IfErr, IfSome, IfNone};
ghost use Rattle.dvg_words.specs.Memory.{rom_word};
ghost use Rattle.dvg_words.specs.Decoding.{InstrFits, cell_at};
ghost use Rattle.dvg_words.specs.declared.instruction.Cell.TheVariants.{Holds};
ghost use Rattle.dvg_words.specs.declared.instruction.Format.{Format as FormatValue};
ghost use Rattle.dvg_words.specs.declared.instruction.Instr.{Instr as InstrValue};
ghost use Rattle.dvg_words.specs.declared.map.TheConstants.{ADDRESS_END};
ghost use Rattle.dvg_cert.specs.declared.entry.Entry.{Entry as EntryValue};
ghost use Rattle.dvg_cert.specs.declared.entry.Key.{Key as KeyValue};
ghost use Rattle.dvg_cert.specs.declared.limits.TheConstants.{MOST_DEPTH};
ghost use Rattle.dvg_items.specs.declared.item.Kind.TheVariants.{Shape};
ghost use Rattle.dvg_items.specs.Known.{target, depth_under};
ghost use Rattle.dvg_items.specs.Seen.{seen_with};
ghost use Rattle.dvg_items.specs.Cursor.{step_past};
ghost use Rattle.dvg_cert.specs.Entry.{IsClaim};
ghost use Rattle.dvg_items.specs.Bounds.{IsSoundCursor, IsSoundStep};
ghost use Rattle.dvg_make.specs.Accounts.{IsStraight, SaysOf};
ghost use Rattle.dvg_make.specs.Private.Partial.{start, entry_of, Passes, IsPartial, IsStopped, IsAbsent, IsCallee, LacksCallee, EndsBy, EndsByOne, Advances};
ghost use Rattle.dvg_make.specs.Private.Making.{IsRightFor};

use crate::account::EntryCause;
use crate::least::boxed;
use crate::made_entries::MadeEntries;
use crate::making::Making;
use crate::obstacle::Obstacle;
use crate::tails::is_mark;
use dvg_cert::{Entry, Key, LitBox, MOST_DEPTH, MOST_WORDS};
use dvg_items::{Cursor, Kind, Known, Seen, Step, depth_under, place_known, scale_known, target};
use dvg_words::{Cell, Format, Instr, Machine, RomImage, read_cell};

/// The entry of a shape, as far as the shape's items were passed.
#[derive(Clone, Copy)]
pub struct PartialEntry {
    pub addr: u16,
    pub key: Key,
    /// The place of the next item, and what is known there.
    pub cursor: Cursor,
    /// The least box of what the passed items light.
    pub lit: LitBox,
}

impl PartialEntry {
    /// The entry before the first item of its shape.
    pub fn start(addr: u16, key: Key) -> PartialEntry
        ensures { result ≡ start addr key }
    {
        PartialEntry {
            addr,
            key,
            cursor: Cursor::start(Kind::Shape, addr, key),
            lit: LitBox::Empty,
        }
    }

    /// The whole entry, if this is known after the shape's last item and this is the least box of all items.
    fn entry(&self, known: &Known, lit: LitBox) -> Entry
        ensures { result ≡ entry_of self.now.addr self.now.key known.now lit }
    {
        Entry {
            addr: self.addr,
            key: self.key,
            stop: known.place,
            lit,
            depth: known.depth,
            words: known.words,
            scale: known.scale,
        }
    }

    /// The obstacle at the next item, by this cause.
    pub fn obstacle(&self, cause: EntryCause) -> Obstacle
        ensures { result ≡ record { cursor = self.now.cursor; cause = cause } }
    {
        Obstacle {
            cursor: self.cursor,
            cause,
        }
    }

    /// Passes the next item: where that leads, and the least box with what the item lights. `callee` is the entry that the item
    /// calls.
    #[inline(always)]
    fn pass(
        &self,
        machine: Machine,
        format: Format,
        instr: &Instr,
        callee: Option<Entry>,
    ) -> Result<(Step, LitBox), Obstacle>
        requires here { IsSoundCursor self.now.cursor }
        requires near { self.now.cursor.at < ADDRESS_END }
        requires fields { InstrFits instr.now }
        requires callee { IfSome callee IsClaim }
        ensures ok { IfOk result (λ past. Passes (seen_with machine callee self.now.cursor.known
            (record { at = self.now.cursor.at; format = format; instr = instr.now })) self.now.lit past.1) }
        ensures step { IfOk result (λ past. past.0 ≡ step_past Shape (seen_with machine callee self.now.cursor.known
            (record { at = self.now.cursor.at; format = format; instr = instr.now }))) }
        ensures sound { IfOk result (λ past. IsSoundStep past.0) }
        ensures err { IfErr result (λ obstacle. (obstacle.cursor ≡ self.now.cursor)
            × SaysOf self.now.cursor.known.scale (seen_with machine callee self.now.cursor.known
            (record { at = self.now.cursor.at; format = format; instr = instr.now })) obstacle.cause) }
    {
        let seen = self.cursor.see(machine, format, instr, callee);
        if let Some(cause) = unstraight(&seen) {
            return Err(self.obstacle(cause));
        }
        if let Some(to) = too_deep(instr, &callee) {
            let scale = self.cursor.known.scale;
            return Err(self.obstacle(EntryCause::Deep { to, scale }));
        }
        if seen.after.words > MOST_WORDS {
            let words = seen.after.words;
            return Err(self.obstacle(EntryCause::TooManyWords { words }));
        }
        let lit = boxed(&self.lit, &seen.extent, &seen.place);
        Ok((seen.step(Kind::Shape), lit))
    }

    /// Joins the tail that starts at the next item, and gives the whole entry. `None` if the tail would light something at an unknown
    /// place, or if the entry's depth or its words, with one word more, would pass their limit.
    #[inline(never)]
    #[tactic(auto, using(crate::proofs::Joining::ends_by))]
    fn end_by(&self, machine: Machine, tail: &Entry) -> Option<Entry>
        requires here { IsSoundCursor self.now.cursor }
        requires near { self.now.cursor.at < ADDRESS_END }
        requires tail { IsClaim tail.now }
        ensures { IfSome result (EndsBy self.now tail.now) }
    {
        // A tail jump to the tail's shape has the same effect, and fetches one word more: its own.
        let jump = Instr::Jmpl { to: tail.addr };
        match self.pass(machine, Format::Short, &jump, Some(*tail)) {
            Ok((Step::Last(known), lit)) => {
                let words = known.words - 1;
                Some(self.entry(&Known { words, ..known }, lit))
            }
            _ => None,
        }
    }

    /// The whole entry, if a tail from the next item on was kept and can be used.
    #[tactic(auto, using(crate::proofs::Joining::ends_by_one))]
    fn known_end(&self, machine: Machine, tails: &MadeEntries) -> Option<Entry>
        requires here { IsSoundCursor self.now.cursor }
        requires near { self.now.cursor.at < ADDRESS_END }
        ensures { IfSome result (EndsByOne self.now tails.now) }
    {
        if !is_mark(self.cursor.at) {
            return None;
        }
        let tail = tails.find(self.cursor.at, self.cursor.known.scale)?;
        self.end_by(machine, &tail)
    }
}

/// How far the items of a shape were passed.
#[derive(Clone, Copy)]
pub enum Progress {
    /// The entry is whole. The last item that was passed stands at `at`, or the tail that was used begins there.
    Finished { entry: Entry, at: u16 },
    /// The next item calls the shape at `addr`, which has no entry yet at the scale that is known there.
    Waiting { partial: PartialEntry, addr: u16 },
}

/// The cause by which an item can stand in no made shape: it is HALT, or it lights at an unknown place or scale. `None` if it is
/// none of these.
fn unstraight(seen: &Seen) -> Option<EntryCause>
    ensures some { IfSome result (λ cause. (scale : KeyValue) → SaysOf scale seen.now cause) }
    ensures none { IfNone result (IsStraight seen.now) }
{
    let (extent, place) = (&seen.extent, &seen.place);
    match seen.item.instr {
        Instr::Halt => Some(EntryCause::Halt),
        _ if !place_known(extent, place) => Some(EntryCause::BeamUnknown),
        _ if !scale_known(extent) => Some(EntryCause::ScaleUnknown),
        _ => None,
    }
}

/// The word address that an instruction calls, if calls nest too deep under it.
fn too_deep(instr: &Instr, callee: &Option<Entry>) -> Option<u16>
    requires { IfSome callee.now IsClaim }
    ensures some { IfSome result (λ to. (target Shape instr.now ≡ Some to) × (MOST_DEPTH < depth_under instr.now callee.now)) }
    ensures none { IfNone result (depth_under instr.now callee.now ≤ MOST_DEPTH) }
{
    if depth_under(instr, callee) > MOST_DEPTH {
        return target(Kind::Shape, instr);
    }
    None
}

/// The cause by which no item stands at a word address: a word is outside the ROM, or the item is an odd LABS.
fn absence(rom: &RomImage, at: u16) -> EntryCause
    requires { (format : FormatValue) (instr : InstrValue) → cell_at (rom_word rom.now) at ≡ Holds format instr → ⊥ }
    ensures { IsAbsent rom.now at result }
{
    match read_cell(rom, at) {
        Cell::Odd => EntryCause::Odd,
        _ => EntryCause::Missing,
    }
}

/// The entry for exactly this scale that an instruction calls, `None` if it calls nothing. An `Err` is the address that has no
/// such entry.
fn look_up(done: &MadeEntries, instr: &Instr, scale: Key) -> Result<Option<Entry>, u16>
    ensures ok { IfOk result (IsCallee done.now instr.now scale) }
    ensures claim { IfOk result (λ callee. IfSome callee IsClaim) }
    ensures err { IfErr result (LacksCallee done.now instr.now scale) }
{
    let Some(to) = target(Kind::Shape, instr) else {
        return Ok(None);
    };
    match done.find(to, scale) {
        Some(entry) => Ok(Some(entry)),
        None => Err(to),
    }
}

impl Making {
    /// Passes items up to the end of the shape, or to a tail that was kept, or to an item whose callee has no entry yet.
    pub fn advance(&self, rom: &RomImage, from: PartialEntry) -> Result<Progress, Obstacle>
        requires right { IsRightFor rom.now self.now }
        requires partial { IsPartial rom.now self.now.done from }
        ensures ok { IfOk result (Advances rom.now self.now.done from) }
        ensures err { IfErr result (IsStopped rom.now self.now.done from) }
    {
        let machine = rom.machine();
        let mut partial = from;
        while let Cell::Holds { format, instr } = read_cell(rom, partial.cursor.at) {
            let at = partial.cursor.at;
            if let Some(entry) = partial.known_end(machine, &self.tails) {
                return Ok(Progress::Finished { entry, at });
            }
            let callee = match look_up(&self.done, &instr, partial.cursor.known.scale) {
                Ok(callee) => callee,
                Err(addr) => return Ok(Progress::Waiting { partial, addr }),
            };
            let (step, lit) = partial.pass(machine, format, &instr, callee)?;
            match step {
                Step::Onward(cursor) => partial = PartialEntry {
                    cursor,
                    lit,
                    ..partial
                },
                Step::Last(known) => {
                    let entry = partial.entry(&known, lit);
                    return Ok(Progress::Finished { entry, at });
                }
            }
        }
        Err(partial.obstacle(absence(rom, partial.cursor.at)))
    }
}
