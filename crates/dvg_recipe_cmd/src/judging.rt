//! The answer to the text of a recipe, and a frame that shows why it is refused.

ghost use Rattle.std.specs.Prelude.{◌≡◌, ◌≤◌, ◌<◌, length, None, Some, IfOk, IfErr, Err, Ok};
ghost use Rattle.dvg_words.specs.declared.machine.Machine.TheVariants.{Board};
ghost use Rattle.dvg_words.specs.Memory.{IsRomLength, rom_on};
ghost use Rattle.dvg_cert.specs.declared.limits.TheConstants.{MOST_WORDS};
ghost use Rattle.dvg_recipe_cmd.specs.Recipes.{IsAnswer, IsTimedAnswer, IsVerdict};
ghost use Rattle.dvg_cmd.specs.Detail.{IsBehind};
ghost use Rattle.dvg_cmd.specs.declared.detail.Detail.TheVariants as details;
ghost use Rattle.dvg_recipe_cmd.specs.Private.Judging.{IsReady, wanted_detail};
ghost use Rattle.dvg_recipe_cmd.specs.declared.answer.RecipeNo.TheVariants.{Text};

use crate::account::account_text;
use crate::answer::{RecipeAnswer, RecipeNo};
use crate::text_lines::line_of_list;
use dvg_cert::MOST_WORDS;
use dvg_check::Yes;
use dvg_cmd::{Behind, ClockOptions, Detail, PlainWhy, plain_account};
use dvg_labels::Labels;
use dvg_recipe::{RecipeRefusal, find_refused, judge_recipe, judge_recipe_timed, survey_recipe};
use dvg_recipe_text::{ReadRecipe, RecipeTextFault, read_recipe};
use dvg_spelling::Answer;
use dvg_spelling::ItemPlace::RecipeLine;
use dvg_words::{Machine, RomImage, RomMap, Window};
use std::alloc::{AllocError, Global};

/// What is asked of the frames of recipes.
#[derive(Clone, Copy)]
pub struct RecipeOptions {
    /// Where the ROM lies.
    pub map: RomMap,
    /// How many words a frame may take at most, up to 1,000,000.
    pub budget: u32,
    /// Where strokes may be lit.
    pub window: Window,
}

/// The bytes of a ROM and of a recipe's text, and what is asked of its frames.
#[derive(Clone, Copy)]
pub struct Explained<'a> {
    pub rom: &'a [u8],
    pub text: &'a [u8],
    /// What names of the recipe may stand for, besides those that it defines.
    pub labels: Option<&'a Labels>,
    pub options: RecipeOptions,
}

/// What is wanted of a recipe beside its verdict.
#[derive(Clone, Copy)]
pub enum Wanted<'a> {
    /// Nothing.
    Verdict,
    /// A frame that shows why it is refused.
    Witness,
    /// An account of the verdict, in which these labels name the addresses, if there are any.
    Account(Option<&'a Labels>),
}

impl<'a> Wanted<'a> {
    /// What a detail asks for.
    pub fn of(detail: Detail<'a>) -> Wanted<'a>
        ensures { wanted_detail result ≡ detail.entry }
    {
        match detail {
            Detail::Line => Wanted::Verdict,
            Detail::Account(labels) => Wanted::Account(labels),
        }
    }

    /// What is written behind the recipe's line.
    pub fn detail(self) -> Detail<'a>
        ensures { result ≡ wanted_detail self.entry }
    {
        match self {
            Wanted::Verdict | Wanted::Witness => Detail::Line,
            Wanted::Account(labels) => Detail::Account(labels),
        }
    }
}

/// The bytes of a frame that shows why a recipe is refused. `None` where none is wanted, or there is none; an `Err` says that there was no
/// memory to look for it.
pub type Witness = Result<Option<Vec<u8>>, AllocError>;

/// The verdict on a recipe, and what is wanted beside it.
#[derive(Drop)]
pub struct JudgedRecipe {
    pub verdict: Result<Yes, RecipeNo>,
    pub witness: Witness,
    /// What is written behind the line.
    pub behind: Behind,
}

impl From<RecipeTextFault> for RecipeNo {
    ghost from_gives = { λ fault no. no ≡ Text fault };

    fn from(fault: RecipeTextFault) -> RecipeNo {
        RecipeNo::Text(fault)
    }
}

/// The line, counted from 1, of a piece of a recipe that was read.
pub fn line_of_piece(read: &ReadRecipe, piece: u16) -> u32 {
    match read.lines.get(usize::from(piece)) {
        Some(line) => u32::from(*line),
        None => 1,
    }
}

/// The piece by which a recipe is refused, if there is one.
pub fn piece_of(refusal: &RecipeRefusal) -> Option<u16> {
    match *refusal {
        RecipeRefusal::TooLong { piece } | RecipeRefusal::Stuck { piece } => Some(piece),
        RecipeRefusal::Make(unmade) => Some(unmade.piece),
        RecipeRefusal::Frame(fault) => fault.piece,
        RecipeRefusal::Shape(_) | RecipeRefusal::Memory => None,
    }
}

/// The image of a ROM on the board.
pub fn board_image(rom: &[u8], map: RomMap) -> Result<RomImage<'_>, RecipeNo>
    ensures ok { IfOk result (λ image. (image ≡ rom_on Board map rom.now) × IsRomLength map (length rom.now)) }
    ensures err { IfErr result (λ no. (no ≡ RecipeNo.RomLength) × (IsRomLength map (length rom.now) → ⊥)) }
{
    match RomImage::from_bytes_on(Machine::Board, rom, map) {
        Ok(image) => Ok(image),
        Err(_) => Err(RecipeNo::RomLength),
    }
}

/// Refuses 49 unless a budget is one to 1,000,000 words.
fn check_budget(budget: u32) -> Result<(), RecipeNo>
    ensures ok { IfOk result (λ _. budget ≤ MOST_WORDS) }
    ensures err { IfErr result (λ no. (no ≡ RecipeNo.BudgetRange) × ((0 < budget) × (budget ≤ MOST_WORDS) → ⊥)) }
{
    if budget == 0 || budget > MOST_WORDS {
        return Err(RecipeNo::BudgetRange);
    }
    Ok(())
}

/// A recipe that was read, and the image of the ROM over which it is judged.
#[derive(Drop)]
pub struct Ready<'a> {
    pub alloc: Global,
    pub explained: Explained<'a>,
    pub read: ReadRecipe,
    pub image: RomImage<'a>,
}

impl<'a> Ready<'a> {
    /// The recipe of a text and the image of the ROM, or the first that applies of 51 to 56, 49 and 1.
    fn new(alloc: Global, explained: &Explained<'a>) -> Result<Ready<'a>, RecipeNo>
        ensures ok { IfOk result (λ ready. IsReady ready × (ready.explained ≡ explained.now)) }
        ensures err { IfErr result (λ no. IsVerdict explained.now.rom.now explained.now.options (Err no)) }
    {
        let read = read_recipe(alloc, explained.text, explained.labels)?;
        check_budget(explained.options.budget)?;
        let image = board_image(explained.rom, explained.options.map)?;
        Ok(Ready {
            alloc,
            explained: Explained {
                rom: explained.rom,
                text: explained.text,
                labels: explained.labels,
                options: explained.options,
            },
            read,
            image,
        })
    }

    /// The line of a piece, or, without one, of the jump to a list.
    fn line_at(&self, piece: Option<u16>) -> u32 {
        match piece {
            Some(piece) => line_of_piece(&self.read, piece),
            None => line_of_list(self.explained.text),
        }
    }

    /// Why the recipe is not accepted, by the lines of its text.
    fn told(&self, refusal: &RecipeRefusal) -> RecipeNo
        ensures { IsVerdict self.now.explained.rom.now self.now.explained.options (Err result) }
    {
        let line = self.line_at(piece_of(refusal));
        match *refusal {
            RecipeRefusal::TooLong { .. } => RecipeNo::TooLong { line },
            RecipeRefusal::Make(unmade) => RecipeNo::Make {
                why: unmade.why,
                line,
            },
            RecipeRefusal::Stuck { .. } => RecipeNo::Stuck { line },
            RecipeRefusal::Shape(fault) => RecipeNo::Shape(fault),
            RecipeRefusal::Frame(fault) => RecipeNo::Frame {
                why: fault.why,
                line,
            },
            RecipeRefusal::Memory => RecipeNo::NoMemory,
        }
    }

    /// A frame that shows why the recipe is refused, if that is wanted.
    fn witness(&self, refusal: &RecipeRefusal, wanted: Wanted) -> Witness
        requires { IsReady self.now }
    {
        let Wanted::Witness = wanted else {
            return Ok(None);
        };
        let RecipeOptions { budget, window, .. } = self.explained.options;
        let recipe = &self.read.recipe;
        let found = find_refused(self.alloc, &self.image, recipe, budget, window, refusal)?;
        Ok(found.map(|refused| refused.frame))
    }

    /// The verdict, and what shows why the recipe is refused, if that is wanted.
    #[tactic(auto, using(crate::proofs::Verdicts::accepted))]
    fn judge(&self, wanted: Wanted) -> JudgedRecipe
        requires { IsReady self.now }
        ensures verdict { IsVerdict self.now.explained.rom.now self.now.explained.options result.verdict }
        ensures behind { result.behind ≡ Ok None }
    {
        let RecipeOptions { budget, window, .. } = self.explained.options;
        let (verdict, witness) = match judge_recipe(
            self.alloc,
            &self.image,
            &self.read.recipe,
            budget,
            window,
        ) {
            Ok(yes) => (Ok(yes), Ok(None)),
            Err(refusal) => (Err(self.told(&refusal)), self.witness(&refusal, wanted)),
        };
        JudgedRecipe {
            verdict,
            witness,
            behind: Ok(None),
        }
    }

    /// The verdict, and an account of it.
    #[tactic(auto, using(crate::proofs::Verdicts::accepted))]
    fn explain(&self, labels: Option<&Labels>) -> JudgedRecipe
        requires { IsReady self.now }
        ensures verdict { IsVerdict self.now.explained.rom.now self.now.explained.options result.verdict }
        ensures behind { IsBehind (details.Account None) result.behind }
    {
        let RecipeOptions { budget, window, .. } = self.explained.options;
        let (verdict, behind) = match survey_recipe(
            self.alloc,
            &self.image,
            &self.read.recipe,
            budget,
            window,
        ) {
            Ok(surveyed) => (
                match &surveyed.verdict {
                    Ok(yes) => Ok(*yes),
                    Err(refusal) => Err(self.told(refusal)),
                },
                account_text(self, &surveyed, labels).map(Some),
            ),
            Err(error) => (Err(RecipeNo::NoMemory), Err(error)),
        };
        JudgedRecipe {
            verdict,
            witness: Ok(None),
            behind,
        }
    }

    /// The answer with clocks, and what shows why the recipe is refused, if that is wanted. No frame is looked for that takes too long.
    fn time(&self, clocks: &ClockOptions, wanted: Wanted) -> (RecipeAnswer, Witness)
        requires { IsReady self.now }
        ensures { IsTimedAnswer self.now.explained.rom.now self.now.explained.options clocks.now result.0 }
    {
        let RecipeOptions { budget, window, .. } = self.explained.options;
        let recipe = &self.read.recipe;
        match judge_recipe_timed(
            self.alloc,
            &self.image,
            recipe,
            budget,
            window,
            &clocks.timing,
        ) {
            Ok(Ok(timed)) => (clocks.line.answer(timed), Ok(None)),
            Ok(Err(slow)) => (Answer::Slow(RecipeLine(self.line_at(slow.piece))), Ok(None)),
            Err(refusal) => (
                Answer::Judged(Err(self.told(&refusal))),
                self.witness(&refusal, wanted),
            ),
        }
    }
}

/// A refusal before the frames of a recipe were judged, and what is wanted beside it.
fn refused(alloc: Global, explained: &Explained, no: RecipeNo, wanted: Wanted) -> JudgedRecipe
    ensures verdict { result.verdict ≡ Err no }
    ensures behind { IsBehind (wanted_detail wanted.entry) result.behind }
{
    let why = match no {
        RecipeNo::BudgetRange => PlainWhy::Budget(explained.options.budget),
        RecipeNo::RomLength => PlainWhy::RomLength {
            bytes: explained.rom.len(),
            map: explained.options.map,
        },
        _ => PlainWhy::Nothing,
    };
    JudgedRecipe {
        verdict: Err(no),
        witness: Ok(None),
        behind: plain_account(Machine::Board, alloc, no.number(), why, wanted.detail()),
    }
}

/// The verdict on the recipe of this text over the bytes of a ROM on the board: the first that applies of 51 to 56, 49 and 1, else that
/// of `judge_recipe`; and what is wanted beside it.
pub fn judge_text(alloc: Global, explained: &Explained, wanted: Wanted) -> JudgedRecipe
    ensures verdict { IsVerdict explained.now.rom.now explained.now.options result.verdict }
    ensures behind { IsBehind (wanted_detail wanted.entry) result.behind }
{
    match Ready::new(alloc, explained) {
        Ok(ready) => match wanted {
            Wanted::Verdict | Wanted::Witness => ready.judge(wanted),
            Wanted::Account(labels) => ready.explain(labels),
        },
        Err(no) => refused(alloc, explained, no, wanted),
    }
}

/// The answer to the recipe of this text over the bytes of a ROM on the board, with its clocks: the first that applies of 51 to 56, 49 and
/// 1, else that of `judge_recipe_timed`; and a frame that shows why it is refused, if that is wanted. It tells no accounts.
pub fn time_text(
    alloc: Global,
    explained: &Explained,
    clocks: &ClockOptions,
    wanted: Wanted,
) -> (RecipeAnswer, Witness)
    ensures { IsAnswer explained.now.rom.now explained.now.options (Some clocks.now) result.0 }
{
    match Ready::new(alloc, explained) {
        Ok(ready) => ready.time(clocks, wanted),
        Err(no) => (Answer::Judged(Err(no)), Ok(None)),
    }
}
