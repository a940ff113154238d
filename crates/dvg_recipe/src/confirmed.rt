//! Frames of a recipe that are told: one that is refused, and those of the greatest counts. `belongs` and the judge of frames confirm each
//! of them.

ghost use Rattle.std.specs.Prelude.{◌≡◌, ◌≤◌, Err, Ok, Some, IfSome, IfOk};
ghost use Rattle.dvg_words.specs.declared.machine.Machine.TheVariants.{Board};
ghost use Rattle.dvg_cert.specs.declared.limits.TheConstants.{MOST_WORDS};
ghost use Rattle.dvg_check.specs.declared.verdict.Yes.{Yes as YesValue};
ghost use Rattle.dvg_recipe.specs.Members.{IsMemberVerdict, judged_number, recipe_number};

use crate::belonging::belongs;
use crate::judge::Asked;
use crate::recipe::Recipe;
use crate::roots::roots_of;
use crate::verdict::RecipeRefusal;
use crate::witness::{LeadingFrame, Stop, find};
use dvg_cert::{Cert, HashIndex, Key};
use dvg_check::{ShapeFault, Yes};
use dvg_make::{FrameRefusal, MakeFault, judge, make};
use dvg_words::{FrameImage, RomImage, Window};
use std::alloc::{AllocError, Global};

/// A frame of a recipe that is refused.
#[derive(Drop)]
pub struct RefusedFrame {
    /// Its bytes, as a file has them.
    pub frame: Vec<u8>,
    /// How [`judge`] refuses it.
    pub refusal: FrameRefusal,
    /// In which turns, counted from 1, the repeats around the piece are by which the recipe is refused, the outermost first (only tested).
    pub turns: Vec<u16>,
}

/// A frame that is not confirmed yet.
#[derive(Drop)]
struct FoundFrame {
    frame: Vec<u8>,
    turns: Vec<u16>,
}

/// The bytes of words, the low byte of each word first.
fn bytes_of(alloc: Global, words: &[u16]) -> Result<Vec<u8>, AllocError> {
    let mut bytes = Vec::new(alloc);
    for word in words {
        for byte in word.to_le_bytes() {
            bytes.push(byte)?;
        }
    }
    Ok(bytes)
}

/// How [`judge`] answers for the frame of these bytes. `None` if it is not one of the recipe's. An `Err` says that there was no memory to find
/// out.
fn member_verdict(
    alloc: Global,
    rom: &RomImage,
    recipe: &Recipe,
    asked: &Asked,
    bytes: &[u8],
) -> Result<Option<Result<Yes, FrameRefusal>>, AllocError>
    ensures { IfOk result (λ found. IfSome found (IsMemberVerdict rom.now recipe.now asked.now.window asked.now.budget bytes.now)) }
{
    let Ok(frame) = FrameImage::from_bytes(bytes) else {
        return Ok(None);
    };
    if belongs(alloc, rom, recipe, &frame)?.is_some() {
        return Ok(None);
    }
    match judge(alloc, rom, &frame, asked.budget, asked.window) {
        Err(FrameRefusal::NoMemory) => Err(AllocError),
        verdict => Ok(Some(verdict)),
    }
}

/// The number of a refusal by the judge of frames.
fn refusal_number(refusal: &FrameRefusal) -> u8
    ensures { result ≡ judged_number refusal.now }
{
    match *refusal {
        FrameRefusal::Make { why, .. } => MakeFault::from(why).number(),
        FrameRefusal::NoMemory => 63,
        FrameRefusal::Check(refusal) => refusal.number(),
    }
}

/// A frame, if it is one of the recipe's and refused with this number. An `Err` says that there was no memory to find out.
fn refused_with(
    alloc: Global,
    rom: &RomImage,
    recipe: &Recipe,
    asked: &Asked,
    found: FoundFrame,
    number: u8,
) -> Result<Option<RefusedFrame>, AllocError>
    ensures { IfOk result (λ found. IfSome found (λ r. IsMemberVerdict rom.now recipe.now asked.now.window asked.now.budget r.frame.items (Err r.refusal) × (judged_number r.refusal ≡ number))) }
{
    let FoundFrame { frame, turns } = found;
    match member_verdict(alloc, rom, recipe, asked, &frame)? {
        Some(Err(refusal)) if refusal_number(&refusal) == number => Ok(Some(RefusedFrame {
            frame,
            refusal,
            turns,
        })),
        _ => Ok(None),
    }
}

/// A frame over a ROM that leads to where it has to stop.
fn find_bytes(
    alloc: Global,
    rom: &RomImage,
    cert: &Cert,
    asked: &Asked,
    stop: &Stop,
    recipe: &Recipe,
) -> Result<Option<FoundFrame>, AllocError> {
    cert.prove_certificate();
    let entries = HashIndex::new(alloc, cert)?;
    match find(alloc, rom, &entries, asked, stop, recipe)? {
        Some(LeadingFrame { words, turns }) => {
            let frame = bytes_of(alloc, &words)?;
            Ok(Some(FoundFrame { frame, turns }))
        }
        None => Ok(None),
    }
}

/// Whether the certificate of a root has the entry of a faulty shape.
fn needs(alloc: Global, rom: &RomImage, root: (u16, Key), fault: &ShapeFault) -> bool {
    match make(alloc, rom, &[root]) {
        Ok(cert) => {
            for entry in cert.entries() {
                if entry.addr == fault.addr && entry.key == fault.key {
                    return true;
                }
            }
            false
        }
        Err(_) => false,
    }
}

/// The first of some roots that calls a faulty shape, or a shape that does.
fn root_of(
    alloc: Global,
    rom: &RomImage,
    roots: &[(u16, Key)],
    fault: &ShapeFault,
) -> Option<(u16, Key)> {
    for root in roots {
        if needs(alloc, rom, *root, fault) {
            return Some(*root);
        }
    }
    None
}

/// The bytes of a frame of the recipe that leads to where it has to stop, by the certificate of the recipe's calls.
fn find_end(
    alloc: Global,
    rom: &RomImage,
    recipe: &Recipe,
    asked: &Asked,
    stop: &Stop,
) -> Result<Option<Vec<u8>>, AllocError> {
    let roots = roots_of(alloc, rom, recipe)?;
    let Ok(cert) = make(alloc, rom, &roots.asked) else {
        return Err(AllocError);
    };
    let found = find_bytes(alloc, rom, &cert, asked, stop, recipe)?;
    Ok(found.map(|found| found.frame))
}

/// Where a frame has to stop to be refused so.
fn stop_of(
    alloc: Global,
    rom: &RomImage,
    roots: &[(u16, Key)],
    refusal: &RecipeRefusal,
) -> Option<Stop> {
    match refusal {
        RecipeRefusal::Frame(_) => Some(Stop::Fault),
        RecipeRefusal::Make(unmade) => Some(Stop::Call {
            to: unmade.to,
            scale: unmade.scale,
        }),
        RecipeRefusal::Shape(fault) => {
            let (to, scale) = root_of(alloc, rom, roots, fault)?;
            Some(Stop::Call { to, scale })
        }
        RecipeRefusal::TooLong { .. } | RecipeRefusal::Stuck { .. } | RecipeRefusal::Memory => None,
    }
}

/// A frame of the recipe that is refused with the number with which [`judge_recipe`](crate::judge_recipe) refuses the recipe, over this ROM,
/// with this budget and this window.
///
/// `None` if none is found: 57 and 59 have none, and 60 to 62 may have none where a draw can't lead from some place to where it has to;
/// each other refusal has one (only tested). An `Err` says that there was no memory to look for it. Takes memory as `judge_recipe` does.
pub fn find_refused(
    alloc: Global,
    rom: &RomImage,
    recipe: &Recipe,
    budget: u32,
    window: Window,
    refusal: &RecipeRefusal,
) -> Result<Option<RefusedFrame>, AllocError>
    requires budget { budget ≤ MOST_WORDS }
    requires board { rom.now.machine ≡ Board }
    ensures { IfOk result (λ found. IfSome found (λ r. IsMemberVerdict rom.now recipe.now window budget r.frame.items (Err r.refusal) × (Some (judged_number r.refusal) ≡ recipe_number refusal.now))) }
{
    let asked = Asked { budget, window };
    let Some(number) = refusal.number() else {
        return Ok(None);
    };
    let roots = roots_of(alloc, rom, recipe)?;
    let Some(stop) = stop_of(alloc, rom, &roots.asked, refusal) else {
        return Ok(None);
    };
    let Ok(cert) = make(alloc, rom, &roots.asked) else {
        return Err(AllocError);
    };
    match find_bytes(alloc, rom, &cert, &asked, &stop, recipe)? {
        Some(found) => refused_with(alloc, rom, recipe, &asked, found, number),
        None => Ok(None),
    }
}

/// A frame of the recipe with the words that its yes has, over this ROM, with this budget and this window; the most words of all frames, where
/// `words` are those of [`judge_recipe`](crate::judge_recipe).
///
/// `None` if none is found; an accepted recipe has one (only tested). An `Err` says that there was no memory to look for it. Takes memory as
/// `judge_recipe` does.
pub fn find_longest(
    alloc: Global,
    rom: &RomImage,
    recipe: &Recipe,
    budget: u32,
    window: Window,
    words: u32,
) -> Result<Option<Vec<u8>>, AllocError>
    requires budget { budget ≤ MOST_WORDS }
    requires board { rom.now.machine ≡ Board }
    ensures { IfOk result (λ found. IfSome found (λ frame. (yes : YesValue) × IsMemberVerdict rom.now recipe.now window budget frame.items (Ok yes) × (yes.words ≡ words))) }
{
    let asked = Asked { budget, window };
    let Some(frame) = find_end(alloc, rom, recipe, &asked, &Stop::MostWords)? else {
        return Ok(None);
    };
    match member_verdict(alloc, rom, recipe, &asked, &frame)? {
        Some(Ok(yes)) if yes.words == words => Ok(Some(frame)),
        _ => Ok(None),
    }
}

/// A frame of the recipe with the depth that its yes has, as [`find_longest`] finds one with its words.
pub fn find_deepest(
    alloc: Global,
    rom: &RomImage,
    recipe: &Recipe,
    budget: u32,
    window: Window,
    depth: u8,
) -> Result<Option<Vec<u8>>, AllocError>
    requires budget { budget ≤ MOST_WORDS }
    requires board { rom.now.machine ≡ Board }
    ensures { IfOk result (λ found. IfSome found (λ frame. (yes : YesValue) × IsMemberVerdict rom.now recipe.now window budget frame.items (Ok yes) × (yes.depth ≡ depth))) }
{
    let asked = Asked { budget, window };
    let Some(frame) = find_end(alloc, rom, recipe, &asked, &Stop::MostDepth)? else {
        return Ok(None);
    };
    match member_verdict(alloc, rom, recipe, &asked, &frame)? {
        Some(Ok(yes)) if yes.depth == depth => Ok(Some(frame)),
        _ => Ok(None),
    }
}
