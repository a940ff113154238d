//! Why an item breaks a rule, in numbers.

ghost use Rattle.std.specs.Prelude.{◌≡◌, Some, None};
ghost use Rattle.dvg_words.specs.declared.instruction.Instr.TheVariants.{Jmpl};
ghost use Rattle.dvg_check.specs.Causes.{FrameCauseOf, ClaimCauseOf};
ghost use Rattle.dvg_check.specs.Finding.{IsSoundFound};
ghost use Rattle.dvg_check.specs.Leaving.{LeavesFrom, LeavesBox};
ghost use Rattle.dvg_check.specs.Rules.{IsForward, FrameKeeps, ShapeKeeps};
ghost use Rattle.dvg_check.specs.Private.Breaking.{Breaks};
ghost use Rattle.dvg_check.specs.declared.fault.FrameWhy.TheVariants as frame;
ghost use Rattle.dvg_check.specs.declared.fault.ShapeWhy.TheVariants as shape;
ghost use Rattle.dvg_items.specs.Bounds.{IsSoundSeen};
ghost use Rattle.dvg_items.specs.Known.{target};
ghost use Rattle.dvg_items.specs.Lit.{LitInWindow, LitInBox, relative_corners};
ghost use Rattle.dvg_items.specs.Seen.{HasCallee};

use crate::fault::{Fault, Found, FrameWhy, ShapeWhy};
use crate::frames::FrameRules;
use crate::leaving::{BoxLeaving, Leaving, leaves_box, leaves_window};
use crate::shapes::ShapeRules;
use dvg_cert::{End, Key, LitBox};
use dvg_items::{Kind, Seen, depth_under, target};
use dvg_words::{Instr, Window};

/// Why an item of a frame breaks a rule, in numbers.
#[derive(Clone, Copy, Debug, PartialEq, Eq)]
pub enum FrameCause {
    /// 40: a word of the item is outside the frame.
    Unmapped,
    /// 41: the item is an odd LABS.
    Odd,
    /// 42: the item is RTSL.
    ReturnInFrame,
    /// 43: the item is a jump to this word address, its own or a lower one.
    BackJump(u16),
    /// 44: the item lights at a lost place.
    BeamUnknown,
    /// 45: the item lights at unknown scale.
    ScaleUnknown,
    /// 46: a corner of what the item lights leaves the window.
    OffScreen(Leaving),
    /// 47: the item calls this word address at this scale (`Any` where it is unknown), and no entry is named by them.
    NoEntry { to: u16, scale: Key },
    /// 48: the words, with those of the item, are this many more than the budget.
    Budget(u32),
}

/// Why an item of a shape breaks a rule, in numbers. The finding beside it has the entry, with what it claims.
#[derive(Clone, Copy, Debug, PartialEq, Eq)]
pub enum ShapeCause {
    /// 20: a word of the item is outside the ROM.
    Unmapped,
    /// 21: the item is an odd LABS.
    Odd,
    /// 22: the item is HALT.
    HaltInShape,
    /// 23: the item lights at a lost place.
    BeamUnknown,
    /// 24: the item lights at unknown scale.
    ScaleUnknown,
    /// 25: a corner of what the item lights leaves the window.
    OffScreen(Leaving),
    /// 26: the item calls or tail jumps to this word address at this scale (`Any` where it is unknown), and no entry is named by
    /// them.
    NoEntry { to: u16, scale: Key },
    /// 27: this many return places are stored at once under the item, more than claimed.
    TooDeep(u8),
    /// 28: the words, with those of the item, are this many more than claimed.
    TooManyWords(u32),
    /// 29: the place at the end is this one, and another is claimed.
    EndDiffers(End),
    /// 30: the scale at the end is this one, and another is claimed.
    ScaleDiffers(Key),
    /// 31: a corner of what the item lights leaves the claimed box.
    BoxTooSmall(BoxLeaving),
    /// 32: the shape needs this many words, and another number is claimed.
    WordsDiffer(u32),
    /// 33: the shape needs this many return places, and another number is claimed.
    DepthDiffers(u8),
}

/// The first lit corner of an item that leaves the window.
fn window_left(seen: &Seen, window: &Window) -> Leaving
    requires sound { IsSoundSeen seen.now }
    requires broken { LitInWindow window.now seen.now.extent seen.now.place → ⊥ }
    ensures { LeavesFrom window.now seen.now.extent seen.now.place result }
{
    match leaves_window(window, &seen.extent, &seen.place) {
        Some(leaving) => leaving,
        None => unreachable!(),
    }
}

/// The first lit corner of an item that leaves a box.
fn box_left(seen: &Seen, lit: &LitBox) -> BoxLeaving
    requires sound { IsSoundSeen seen.now }
    requires broken { LitInBox lit.now seen.now.extent seen.now.place → ⊥ }
    ensures { LeavesBox lit.now (relative_corners seen.now.extent seen.now.place) result }
{
    match leaves_box(lit, &seen.extent, &seen.place) {
        Some(leaving) => leaving,
        None => unreachable!(),
    }
}

/// The word address that an item calls or tail jumps to, if it names no entry.
fn unnamed_target(kind: Kind, seen: &Seen) -> u16
    requires broken { HasCallee (target kind seen.now.item.instr) seen.now.callee → ⊥ }
    ensures target { target kind seen.now.item.instr ≡ Some result }
    ensures unnamed { seen.now.callee ≡ None }
{
    match target(kind, &seen.item.instr) {
        Some(to) => to,
        None => unreachable!(),
    }
}

/// The word address that an item jumps to, its own or a lower one.
fn jump_target(seen: &Seen) -> u16
    requires { IsForward seen.now.item.at seen.now.item.instr → ⊥ }
    ensures { seen.now.item.instr ≡ Jmpl result }
{
    match seen.item.instr {
        Instr::Jmpl { to } => to,
        _ => unreachable!(),
    }
}

/// Why an item that is there breaks this rule, at this known scale.
fn frame_cause_of_item(why: FrameWhy, scale: Key, seen: &Seen, rules: &FrameRules) -> FrameCause
    requires sound { IsSoundSeen seen.now }
    requires broken { FrameKeeps rules.now.window rules.now.budget seen.now why → ⊥ }
    ensures { FrameCauseOf rules.now.window rules.now.budget why scale (Found.Seen seen.now) result }
{
    match why {
        FrameWhy::Unmapped => FrameCause::Unmapped,
        FrameWhy::Odd => FrameCause::Odd,
        FrameWhy::ReturnInFrame => FrameCause::ReturnInFrame,
        FrameWhy::BackJump => FrameCause::BackJump(jump_target(seen)),
        FrameWhy::BeamUnknown => FrameCause::BeamUnknown,
        FrameWhy::ScaleUnknown => FrameCause::ScaleUnknown,
        FrameWhy::OffScreen => FrameCause::OffScreen(window_left(seen, &rules.window)),
        FrameWhy::NoEntry => FrameCause::NoEntry {
            to: unnamed_target(Kind::Frame, seen),
            scale,
        },
        FrameWhy::Budget => FrameCause::Budget(seen.after.words - rules.budget),
    }
}

/// Why the first fault of a frame breaks its rule.
#[inline(never)]
pub fn frame_cause(fault: &Fault<FrameWhy>, rules: &FrameRules) -> FrameCause
    requires sound { IsSoundFound fault.now.found }
    requires broken { Breaks frame.Unmapped frame.Odd (FrameKeeps rules.now.window rules.now.budget) fault.now.why fault.now.found }
    ensures { FrameCauseOf rules.now.window rules.now.budget fault.now.why fault.now.before.scale fault.now.found result }
{
    match &fault.found {
        Found::Missing => FrameCause::Unmapped,
        Found::Odd => FrameCause::Odd,
        Found::Seen(seen) => frame_cause_of_item(fault.why, fault.before.scale, seen, rules),
    }
}

/// Why an item that is there breaks this rule, at this known scale.
#[tactic(auto, using(crate::proofs::Common::next_address))]
fn shape_cause_of_item(why: ShapeWhy, scale: Key, seen: &Seen, rules: &ShapeRules) -> ShapeCause
    requires sound { IsSoundSeen seen.now }
    requires broken { ShapeKeeps rules.now.mode rules.now.window rules.now.entry seen.now why → ⊥ }
    ensures { ClaimCauseOf rules.now.window rules.now.entry why scale (Found.Seen seen.now) result }
{
    let entry = &rules.entry;
    match why {
        ShapeWhy::Unmapped => ShapeCause::Unmapped,
        ShapeWhy::Odd => ShapeCause::Odd,
        ShapeWhy::HaltInShape => ShapeCause::HaltInShape,
        ShapeWhy::BeamUnknown => ShapeCause::BeamUnknown,
        ShapeWhy::ScaleUnknown => ShapeCause::ScaleUnknown,
        ShapeWhy::OffScreen => ShapeCause::OffScreen(window_left(seen, &rules.window)),
        ShapeWhy::NoEntry => ShapeCause::NoEntry {
            to: unnamed_target(Kind::Shape, seen),
            scale,
        },
        ShapeWhy::TooDeep => ShapeCause::TooDeep(depth_under(&seen.item.instr, &seen.callee)),
        ShapeWhy::TooManyWords => ShapeCause::TooManyWords(seen.after.words - entry.words),
        ShapeWhy::EndDiffers => ShapeCause::EndDiffers(seen.after.place),
        ShapeWhy::ScaleDiffers => ShapeCause::ScaleDiffers(seen.after.scale),
        ShapeWhy::BoxTooSmall => ShapeCause::BoxTooSmall(box_left(seen, &entry.lit)),
        ShapeWhy::WordsDiffer => ShapeCause::WordsDiffer(seen.after.words),
        ShapeWhy::DepthDiffers => ShapeCause::DepthDiffers(seen.after.depth),
    }
}

/// Why the first fault of a shape breaks its rule.
#[inline(never)]
pub fn shape_cause(fault: &Fault<ShapeWhy>, rules: &ShapeRules) -> ShapeCause
    requires sound { IsSoundFound fault.now.found }
    requires broken { Breaks shape.Unmapped shape.Odd (ShapeKeeps rules.now.mode rules.now.window rules.now.entry) fault.now.why fault.now.found }
    ensures { ClaimCauseOf rules.now.window rules.now.entry fault.now.why fault.now.before.scale fault.now.found result }
{
    match &fault.found {
        Found::Missing => ShapeCause::Unmapped,
        Found::Odd => ShapeCause::Odd,
        Found::Seen(seen) => shape_cause_of_item(fault.why, fault.before.scale, seen, rules),
    }
}
