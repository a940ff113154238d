//! The loops over the items of a shape or of a frame: one that keeps nothing for what breaks a rule, and one that tells the first
//! fault.

ghost use Rattle.std.specs.Prelude.{◌≡◌, ◌<◌, IfSome, IfOk, IfErr};
ghost use Rattle.dvg_words.specs.Decoding.{InstrFits};
ghost use Rattle.dvg_words.specs.declared.map.TheConstants.{ADDRESS_END};
ghost use Rattle.dvg_cert.specs.Entry.{IsClaim};
ghost use Rattle.dvg_items.specs.Bounds.{IsSoundCursor};
ghost use Rattle.dvg_items.specs.Seen.{seen_with};
ghost use Rattle.dvg_check.specs.Rules.{PlaceKeeps};
ghost use Rattle.dvg_check.specs.Finding.{FaultFound, IsSoundFound};
ghost use Rattle.dvg_check.specs.Private.Judging.{WalksTo, seen_by, KeepsAll, BreaksFirst};

use crate::callees::Callees;
use crate::cells::Cells;
use crate::fault::{Fault, Found};
use crate::rules::Rules;
use dvg_cert::{Entries, Entry};
use dvg_items::{Cursor, Known, Step, target};
use dvg_words::{Cell, Format, Instr, Machine};

/// Judges an instruction that calls this entry: the first rule that it breaks, or where it leads.
#[inline(always)]
fn judge_calling<R: Rules>(
    rules: &R,
    machine: Machine,
    cursor: &Cursor,
    format: Format,
    instr: &Instr,
    callee: Option<Entry>,
) -> Result<Step, R::Why>
    requires rules { R.valid rules.now }
    requires here { IsSoundCursor cursor.now }
    requires near { cursor.now.at < ADDRESS_END }
    requires fields { InstrFits instr.now }
    requires callee { IfSome callee IsClaim }
    ensures kept { IfOk result (KeepsAll (R.keeps rules.now) R.KIND (seen_with machine callee cursor.now.known
        (record { at = cursor.now.at; format = format; instr = instr.now }))) }
    ensures broken { IfErr result (BreaksFirst R.order (R.keeps rules.now) (seen_with machine callee cursor.now.known
        (record { at = cursor.now.at; format = format; instr = instr.now }))) }
{
    let seen = cursor.see(machine, format, instr, callee);
    match rules.first_broken(&seen) {
        Some(why) => Err(why),
        None => Ok(seen.step(R::KIND)),
    }
}

/// Judges the instruction at a cursor: the first rule that it breaks, or where it leads.
#[inline(always)]
fn judge<E: Entries, R: Rules>(
    rules: &R,
    machine: Machine,
    callees: &mut Callees<E>,
    cursor: &Cursor,
    format: Format,
    instr: &Instr,
) -> Result<Step, R::Why>
    requires rules { R.valid rules.now }
    requires here { IsSoundCursor cursor.now }
    requires near { cursor.now.at < ADDRESS_END }
    requires fields { InstrFits instr.now }
    ensures kept { IfOk result (KeepsAll (R.keeps rules.now) R.KIND (seen_by machine callees.old R.KIND cursor.now.known
        (record { at = cursor.now.at; format = format; instr = instr.now }))) }
    ensures broken { IfErr result (BreaksFirst R.order (R.keeps rules.now) (seen_by machine callees.old R.KIND cursor.now.known
        (record { at = cursor.now.at; format = format; instr = instr.now }))) }
    ensures same { callees.new ≡ callees.old }
{
    match target(R::KIND, instr) {
        Some(to) => {
            let callee = callees.named(to, cursor.known.scale);
            judge_calling(rules, machine, cursor, format, instr, callee)
        }
        None => judge_calling(rules, machine, cursor, format, instr, None),
    }
}

/// Goes over the items from a word address on: what is known after the last one, if each keeps all rules.
///
/// Nothing is kept for what breaks a rule, so that an item costs less than in [`walk`].
#[inline(always)]
fn end_if_kept<C: Cells, E: Entries, R: Rules>(
    cells: &C,
    entries: &E,
    rules: &R,
    first: u16,
) -> Option<Known>
    requires rules { R.valid rules.now }
    requires first { first < ADDRESS_END }
    ensures { IfSome result (λ known. WalksTo (record { kind = R.KIND; machine = (C.words cells.now).machine; list = E.list entries.now; scale = R.scale rules.now })
        (C.words cells.now) first (PlaceKeeps R.UNMAPPED R.ODD (R.keeps rules.now)
        (record { kind = R.KIND; machine = (C.words cells.now).machine; list = E.list entries.now; scale = R.scale rules.now }) (C.words cells.now)) known) }
{
    let machine = cells.machine();
    let mut callees = Callees::new(entries);
    let mut cursor = Cursor::start(R::KIND, first, rules.scale());
    'items: loop {
        let Cell::Holds { format, instr } = cells.cell(cursor.at) else {
            return None;
        };
        match judge(rules, machine, &mut callees, &cursor, format, &instr) {
            Err(_) => return None,
            Ok(Step::Last(known)) => return Some(known),
            Ok(Step::Onward(next)) => cursor = next,
        }
    }
}

/// Goes over the items from a word address on, to the last one or to the first that breaks a rule, with what is known there. They
/// are gone over once more only if one does.
pub fn walk<C: Cells, E: Entries, R: Rules>(
    cells: &C,
    entries: &E,
    rules: &R,
    first: u16,
) -> Result<Known, Fault<R::Why>>
    requires rules { R.valid rules.now }
    requires first { first < ADDRESS_END }
    ensures ok { IfOk result (λ known. WalksTo (record { kind = R.KIND; machine = (C.words cells.now).machine; list = E.list entries.now; scale = R.scale rules.now })
        (C.words cells.now) first (PlaceKeeps R.UNMAPPED R.ODD (R.keeps rules.now)
        (record { kind = R.KIND; machine = (C.words cells.now).machine; list = E.list entries.now; scale = R.scale rules.now }) (C.words cells.now)) known) }
    ensures err { IfErr result (λ fault. FaultFound R.order (record { kind = R.KIND; machine = (C.words cells.now).machine; list = E.list entries.now; scale = R.scale rules.now })
        (C.words cells.now) first (PlaceKeeps R.UNMAPPED R.ODD (R.keeps rules.now)
        (record { kind = R.KIND; machine = (C.words cells.now).machine; list = E.list entries.now; scale = R.scale rules.now }) (C.words cells.now))
        fault.at fault.why fault.before fault.found) }
    ensures sound { IfErr result (λ fault. IsSoundFound fault.found) }
{
    if let Some(known) = end_if_kept(cells, entries, rules, first) {
        return Ok(known);
    }
    let machine = cells.machine();
    let mut callees = Callees::new(entries);
    let mut cursor = Cursor::start(R::KIND, first, rules.scale());
    'items: loop {
        let (format, instr) = match cells.cell(cursor.at) {
            Cell::Missing => return Err(Fault::at(&cursor, R::UNMAPPED, Found::Missing)),
            Cell::Odd => return Err(Fault::at(&cursor, R::ODD, Found::Odd)),
            Cell::Holds { format, instr } => (format, instr),
        };
        match judge(rules, machine, &mut callees, &cursor, format, &instr) {
            Err(why) => {
                let seen = cursor.see_by(machine, entries, R::KIND, format, instr);
                return Err(Fault::at(&cursor, why, Found::Seen(seen)));
            }
            Ok(Step::Last(known)) => return Ok(known),
            Ok(Step::Onward(next)) => cursor = next,
        }
    }
}
