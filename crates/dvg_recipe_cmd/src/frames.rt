//! Telling of frames, one after another, whether they are a recipe's.

ghost use Rattle.std.specs.Prelude.{◌≡◌, ◌⊎◌, false, IfOk, IfErr, OnErr, is_err};
ghost use Rattle.std.specs.Iterator.{IsFinite};
ghost use Rattle.dvg_words.specs.declared.machine.Machine.TheVariants.{Board};
ghost use Rattle.dvg_words.specs.Memory.{rom_on};
ghost use Rattle.dvg_text.specs.Devices.{count_after};
ghost use Rattle.dvg_cmd.specs.Telling.{HoldsOfAll, HoldsOfTaken, Reports, ReportsPrefix, no_line};
ghost use Rattle.dvg_cmd.specs.Detail.{IsBehind};
ghost use Rattle.dvg_recipe_text.specs.declared.reader.ReadRecipe.{ReadRecipe};
ghost use Rattle.dvg_recipe_cmd.specs.Frames.{AnswersFrame, IsLineOfFrame, IsMembership, RefusesRecipe, TakesRecipe, ReportsRefusal, ReportsRefusalPrefix, is_unread, of_frames};

use crate::answer::{RecipeNo, refusal_line_of};
use crate::judging::{board_image, line_of_piece};
use crate::membership::{Membership, membership_line_of, membership_outcome_of};
use crate::tally::BelongsTally;
use dvg_account::leaving_text;
use dvg_cmd::{
    Behind, Detail, FRAME_READ, Listing, NamedReader, PlainWhy, Progress, Tell, behind_text,
    outcome_behind, plain_account, read_started, run_each, unread_account,
};
use dvg_labels::Labels;
use dvg_recipe::{Leaving, belongs, too_long};
use dvg_recipe_text::{ReadRecipe, RecipeTextFault};
use dvg_spelling::{Outcome, RunFault, Why};
use dvg_text::{CountedRead, CountedWrite, WriteFault, write_lines};
use dvg_words::{FrameImage, Machine, RomImage, RomMap};
use std::alloc::{AllocError, Global};

/// The bytes of a ROM, where they lie, and a recipe whose frames are over it, if its text is one's.
#[derive(Clone, Copy)]
pub struct Recorded<'a> {
    pub rom: &'a [u8],
    pub map: RomMap,
    pub recipe: &'a Result<ReadRecipe, RecipeTextFault>,
}

/// The recipe and the image of the ROM, or the first that applies of 51 to 56, 1 and 57.
pub fn ready<'a>(given: &Recorded<'a>) -> Result<(&'a ReadRecipe, RomImage<'a>), RecipeNo>
    ensures ok { IfOk result (λ ready. TakesRecipe given.now.rom.now given.now.map given.now.recipe.now ready.0.now
        × (ready.1 ≡ rom_on Board given.now.map given.now.rom.now)) }
    ensures err { IfErr result (λ no. RefusesRecipe given.now.rom.now given.now.map given.now.recipe.now no) }
{
    let read = match given.recipe {
        Ok(read) => read,
        Err(fault) => return Err(RecipeNo::Text(*fault)),
    };
    let image = board_image(given.rom, given.map)?;
    match too_long(&read.recipe) {
        Some(piece) => Err(RecipeNo::TooLong {
            line: line_of_piece(read, piece),
        }),
        None => Ok((read, image)),
    }
}

/// The account of a frame: if it leaves the recipe, the item there, and the lines of the recipe that allow an item there.
fn account_text(
    alloc: Global,
    read: &ReadRecipe,
    frame: &FrameImage,
    found: &Result<Option<Leaving>, AllocError>,
    labels: Option<&Labels>,
) -> Result<String, AllocError> {
    let leaving = match found {
        Ok(Some(leaving)) => leaving,
        Ok(None) => return Ok(String::new(alloc)),
        Err(_) => return Err(AllocError),
    };
    let mut lines = Vec::new(alloc);
    for piece in &leaving.pieces {
        lines.push(line_of_piece(read, *piece))?;
    }
    leaving_text(alloc, frame, leaving.at, lines, labels)
}

/// What is said of the bytes of a frame, and what the detail asks for behind its line.
pub fn membership_of(
    alloc: Global,
    image: &RomImage,
    read: &ReadRecipe,
    bytes: &[u8],
    detail: Detail,
) -> (Membership, Behind)
    ensures membership { IsMembership image.now read.now.recipe bytes.now result.0 }
    ensures read { is_unread result.0 ≡ false }
    ensures behind { IsBehind detail.entry result.1 }
{
    let Ok(frame) = FrameImage::from_bytes(bytes) else {
        let why = PlainWhy::FrameLength { bytes: bytes.len() };
        let behind = plain_account(Machine::Board, alloc, 2, why, detail);
        return (Membership::WrongLength, behind);
    };
    let found = belongs(alloc, image, &read.recipe, &frame);
    let behind = match detail {
        Detail::Line => Ok(None),
        Detail::Account(labels) => account_text(alloc, read, &frame, &found, labels).map(Some),
    };
    let membership = match found {
        Ok(None) => Membership::Belongs,
        Ok(Some(leaving)) => Membership::Outside { at: leaving.at },
        Err(_) => Membership::NoMemory,
    };
    (membership, behind)
}

/// That a frame can't be opened or read, and what the detail asks for behind its line.
fn unread(alloc: Global, detail: Detail) -> (Membership, Behind)
    ensures membership { result.0 ≡ Membership.Unread }
    ensures behind { IsBehind detail.entry result.1 }
{
    let behind = unread_account(Machine::Board, alloc, detail);
    (Membership::Unread, behind)
}

/// A recipe over a ROM, and what tells of frames whether they are the recipe's.
#[derive(Drop)]
struct MemberTeller<'a> {
    image: RomImage<'a>,
    read: &'a ReadRecipe,
    listing: Listing<Detail<'a>>,
}

impl<'a> MemberTeller<'a> {
    /// What is said of a frame whose turn it is, and what the detail asks for behind its line.
    fn membership_read<R: CountedRead + Drop>(
        &self,
        alloc: Global,
        reader: Option<R>,
    ) -> (Membership, Behind)
        ensures answers { AnswersFrame R.remaining R.failures self.now.image self.now.read.now.recipe reader result.0 }
        ensures behind { IsBehind self.now.listing.detail result.1 }
    {
        let detail = self.listing.detail;
        let Some(mut reader) = reader else {
            return unread(alloc, detail);
        };
        let mut buffer = [0; FRAME_READ];
        match read_started(&mut reader, None, &mut buffer) {
            Ok(len) => membership_of(alloc, &self.image, self.read, &buffer[..len], detail),
            Err(_) => unread(alloc, detail),
        }
    }
}

impl<'a, R: CountedRead + Drop> Tell<NamedReader<R>> for MemberTeller<'a> {
    type Answer = (Membership, Behind);

    type Tally = BelongsTally;

    ghost valid = { λ _. Unit {0} };

    ghost is_line_of = { λ teller. IsLineOfFrame R.remaining R.failures teller.image teller.read.now.recipe teller.listing };

    ghost telling = { λ teller. of_frames teller.listing };

    fn tell<W: CountedWrite>(
        &mut self,
        alloc: Global,
        thing: NamedReader<R>,
        progress: &mut Progress<BelongsTally>,
        out: &mut W,
    ) -> Result<(), WriteFault> {
        let NamedReader { name, reader } = thing;
        let (membership, behind) = self.membership_read(alloc, reader);
        let outcome = outcome_behind(&behind, membership_outcome_of(membership));
        let line = membership_line_of(membership);
        progress.write_line(
            outcome,
            name.as_str(),
            line.as_bytes(),
            behind_text(&behind),
            out,
        )?;
        progress.tally.add(membership);
        progress.add(outcome);
        Ok(())
    }
}

/// Before the first frame.
fn no_frame(listing: Listing<Detail>) -> Progress<BelongsTally>
    ensures { result ≡ no_line (of_frames listing.entry) }
{
    let layout = listing.layout(listing.detail.has_account());
    Progress::new(layout, BelongsTally::new())
}

/// Writes the line of a refusal for which no frame is taken, and what the detail asks for behind it.
fn write_refusal<W: CountedWrite>(
    alloc: Global,
    given: &Recorded,
    no: &RecipeNo,
    detail: Detail,
    out: &mut W,
) -> Result<Outcome, RunFault>
    requires { RefusesRecipe given.now.rom.now given.now.map given.now.recipe.now no.now }
    ensures report { IfOk result (ReportsRefusal given.now.rom.now given.now.map given.now.recipe.now detail.entry
        (W.contents out.old) (W.contents out.new) (W.whole_writes out.old) (W.whole_writes out.new)) }
    ensures prefix { OnErr result (ReportsRefusalPrefix given.now.rom.now given.now.map given.now.recipe.now detail.entry
        (W.contents out.old) (W.contents out.new)) }
    ensures fault { IfErr result (λ fault. fault ≡ RunFault.Write) }
    ensures count { W.failures out.new ≡ count_after (is_err result) (W.failures out.old) }
{
    let why = PlainWhy::Nothing;
    let behind = plain_account(Machine::Board, alloc, no.number(), why, detail);
    let line = refusal_line_of(no);
    write_lines(line.as_bytes(), behind_text(&behind).as_bytes(), &[], out)?;
    Ok(outcome_behind(&behind, no.outcome()))
}

/// Tells of frames, one after another, whether they are one of a recipe's, and writes a line for each that the listing has: the name, which
/// has no control characters, a colon, a space, and what is said of it; and an account of the answer behind it if the detail asks for one. At
/// the end it writes the summary if it is asked for, and answers the worst outcome of all.
///
/// Where the recipe's text or the ROM's length is refused, or the longest list doesn't fit, it writes the line of that, and no frame is
/// taken. A frame that can't be opened or read has a line, too. The next frame is taken once the line of the one before it is written.
/// The only fault is 73, if the writer failed, and then a prefix of these lines was written.
pub fn run_belongs<
    R: CountedRead + Drop,
    I: Iterator<Item = NamedReader<R>> + Drop,
    W: CountedWrite,
>(
    alloc: Global,
    given: &Recorded,
    frames: I,
    listing: Listing<Detail>,
    out: &mut W,
) -> Result<Outcome, RunFault>
    requires can { I.can_next frames }
    requires ends { IsFinite (I.remaining frames) }

    // The line of a refusal is written, or that of each frame that the listing has, in their order, and then the summary, each by one
    // write if it fits one. Of each frame that is told to belong, or to be outside, that is so over the ROM (`IsMembership`).
    ensures report { IfOk result (λ end. ReportsRefusal given.now.rom.now given.now.map given.now.recipe.now listing.entry.detail
        (W.contents out.old) (W.contents out.new) (W.whole_writes out.old) (W.whole_writes out.new) end
        ⊎ ((read : ReadRecipe) × TakesRecipe given.now.rom.now given.now.map given.now.recipe.now read
        × HoldsOfAll I.next_gives frames (λ taken.
        Reports (IsLineOfFrame R.remaining R.failures (rom_on Board given.now.map given.now.rom.now) read.recipe listing.entry) (of_frames listing.entry)
        taken (W.contents out.old) (W.contents out.new) (W.whole_writes out.old) (W.whole_writes out.new) end))) }

    // Where the writer failed, a prefix of them.
    ensures prefix { OnErr result (ReportsRefusalPrefix given.now.rom.now given.now.map given.now.recipe.now listing.entry.detail
        (W.contents out.old) (W.contents out.new)
        ⊎ ((read : ReadRecipe) × TakesRecipe given.now.rom.now given.now.map given.now.recipe.now read
        × HoldsOfTaken I.next_gives frames (λ taken.
        ReportsPrefix (IsLineOfFrame R.remaining R.failures (rom_on Board given.now.map given.now.rom.now) read.recipe listing.entry)
        (of_frames listing.entry) taken (W.contents out.old) (W.contents out.new)))) }
    ensures fault { IfErr result (λ fault. fault ≡ RunFault.Write) }
    ensures count { W.failures out.new ≡ count_after (is_err result) (W.failures out.old) }
{
    match ready(given) {
        Ok((read, image)) => {
            let mut teller = MemberTeller {
                image,
                read,
                listing,
            };
            Ok(run_each(alloc, &mut teller, no_frame(listing), frames, out)?)
        }
        Err(no) => write_refusal(alloc, given, &no, listing.detail, out),
    }
}
