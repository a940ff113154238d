//! Judging recipes, one after another.

ghost use Rattle.std.specs.Prelude.{None, ◌≡◌, ◌∷◌, [], false, IfOk, IfErr, OnErr, is_err};
ghost use Rattle.std.specs.Iterator.{IsFinite};
ghost use Rattle.dvg_text.specs.Devices.{count_after};
ghost use Rattle.dvg_cmd.specs.Telling.{HoldsOfAll, HoldsOfTaken, Reports, ReportsPrefix, no_line};
ghost use Rattle.dvg_recipe_cmd.specs.Recipes.{SaysOf, IsAnswer, AnswersRecipe, IsLineOfRecipe, clocks_with, of_recipes};
ghost use Rattle.dvg_spelling.specs.Outcomes.{is_unread};
ghost use Rattle.dvg_spelling.specs.declared.answer.Answer.TheVariants as answers;
ghost use Rattle.dvg_recipe_cmd.specs.Private.Judging.{wanted_detail};
ghost use Rattle.dvg_cmd.specs.Detail.{IsBehind};
ghost use Rattle.dvg_cmd.specs.declared.detail.Detail.TheVariants as details;

use crate::answer::RecipeAnswer;
use crate::judging::{Explained, RecipeOptions, Wanted, Witness, judge_text, time_text};
use crate::reading::read_text;
use dvg_cmd::{
    Behind, ClockOptions, Detail, Layout, Lines, NamedReader, Progress, Tell, behind_text,
    outcome_behind, run_each, unread_account,
};
use dvg_labels::Labels;
use dvg_spelling::{Answer, Outcome, RunFault};
use dvg_text::{CountedRead, CountedWrite, WriteFault, write_bytes};
use dvg_words::Machine;
use std::alloc::{AllocError, Global};

/// What is asked of recipes.
#[derive(Clone, Copy)]
pub struct RecipeAsked {
    pub options: RecipeOptions,
    /// What is asked of their frames' clocks, if anything is: not of recipes that are explained.
    pub clocks: Option<ClockOptions>,
}

/// What a run reported that looks for a witness, and whether it wrote one.
#[derive(Clone, Copy, Debug, PartialEq, Eq)]
pub struct WitnessEnd {
    pub outcome: Outcome,
    pub is_written: bool,
}

/// The answer to a recipe, and what is wanted beside it.
#[derive(Drop)]
struct Answered {
    answer: RecipeAnswer,
    witness: Witness,
    behind: Behind,
}

/// What judges recipes over a ROM, and tells of them.
#[derive(Drop)]
struct RecipeTeller<'a> {
    rom: &'a [u8],
    asked: &'a RecipeAsked,
    labels: Option<&'a Labels>,
    wanted: Wanted<'a>,
    /// What came with the last answer.
    witness: Witness,
}

impl<'a> RecipeTeller<'a> {
    /// That a recipe can't be opened or read.
    fn unread(&self, alloc: Global) -> Answered
        ensures answer { result.answer ≡ answers.Unread }
        ensures behind { IsBehind (wanted_detail self.now.wanted) result.behind }
    {
        Answered {
            answer: Answer::Unread,
            witness: Ok(None),
            behind: unread_account(Machine::Board, alloc, self.wanted.detail()),
        }
    }

    /// That there is no memory for the text of a recipe.
    fn no_memory(&self) -> Answered
        ensures answer { result.answer ≡ answers.NoMemory }
        ensures behind { IsBehind (wanted_detail self.now.wanted) result.behind }
    {
        Answered {
            answer: Answer::NoMemory,
            witness: Ok(None),
            behind: match self.wanted {
                Wanted::Verdict | Wanted::Witness => Ok(None),
                Wanted::Account(_) => Err(AllocError),
            },
        }
    }

    /// The verdict on the text of a recipe.
    fn judge(&self, alloc: Global, explained: &Explained) -> Answered
        ensures answer { IsAnswer explained.now.rom.now explained.now.options None result.answer }
        ensures behind { IsBehind (wanted_detail self.now.wanted) result.behind }
    {
        let judged = judge_text(alloc, explained, self.wanted);
        Answered {
            answer: Answer::Judged(judged.verdict),
            witness: judged.witness,
            behind: judged.behind,
        }
    }

    /// The answer to the text of a recipe, with its clocks if these are asked for and no account is wanted.
    fn answer_text(&self, alloc: Global, text: &[u8]) -> Answered
        ensures answer { IsAnswer self.now.rom.now self.now.asked.now.options (clocks_with (wanted_detail self.now.wanted) self.now.asked.now.clocks)
            result.answer }
        ensures behind { IsBehind (wanted_detail self.now.wanted) result.behind }
    {
        let explained = Explained {
            rom: self.rom,
            text,
            labels: self.labels,
            options: self.asked.options,
        };
        match self.wanted {
            Wanted::Account(_) => self.judge(alloc, &explained),
            Wanted::Verdict | Wanted::Witness => match &self.asked.clocks {
                Some(clocks) => {
                    let (answer, witness) = time_text(alloc, &explained, clocks, self.wanted);
                    Answered {
                        answer,
                        witness,
                        behind: Ok(None),
                    }
                }
                None => self.judge(alloc, &explained),
            },
        }
    }

    /// The answer to the recipe whose text a reader holds.
    fn answer_read<R: CountedRead>(&self, alloc: Global, reader: &mut R) -> Answered
        ensures says { SaysOf self.now.rom.now self.now.asked.now.options (clocks_with (wanted_detail self.now.wanted) self.now.asked.now.clocks)
            (R.remaining reader.old) (R.remaining reader.new) result.answer }
        ensures count { R.failures reader.new ≡ count_after (is_unread result.answer) (R.failures reader.old) }
        ensures behind { IsBehind (wanted_detail self.now.wanted) result.behind }
    {
        match read_text(alloc, reader) {
            Ok(text) => self.answer_text(alloc, &text),
            Err(RunFault::Memory) => self.no_memory(),
            Err(_) => self.unread(alloc),
        }
    }

    /// The answer to a recipe whose turn it is.
    fn answer_opened<R: CountedRead + Drop>(&self, alloc: Global, reader: Option<R>) -> Answered
        ensures answers { AnswersRecipe R.remaining R.failures self.now.rom.now self.now.asked.now (wanted_detail self.now.wanted) reader result.answer }
        ensures behind { IsBehind (wanted_detail self.now.wanted) result.behind }
    {
        match reader {
            Some(mut reader) => self.answer_read(alloc, &mut reader),
            None => self.unread(alloc),
        }
    }
}

impl<'a, R: CountedRead + Drop> Tell<NamedReader<R>> for RecipeTeller<'a> {
    type Answer = (RecipeAnswer, Behind);

    type Tally = ();

    ghost valid = { λ _. Unit {0} };

    ghost is_line_of = { λ teller. IsLineOfRecipe R.remaining R.failures teller.rom.now teller.asked.now (wanted_detail teller.wanted) };

    ghost telling = { λ teller. of_recipes (wanted_detail teller.wanted) };

    fn tell<W: CountedWrite>(
        &mut self,
        alloc: Global,
        thing: NamedReader<R>,
        progress: &mut Progress<()>,
        out: &mut W,
    ) -> Result<(), WriteFault> {
        let NamedReader { name, reader } = thing;
        let Answered {
            answer,
            witness,
            behind,
        } = self.answer_opened(alloc, reader);
        self.witness = witness;
        let outcome = outcome_behind(&behind, answer.outcome());
        let line = answer.line();
        progress.write_line(
            outcome,
            name.as_str(),
            line.as_bytes(),
            behind_text(&behind),
            out,
        )?;
        progress.add(outcome);
        Ok(())
    }
}

/// Before the first recipe.
fn no_recipe(detail: Detail) -> Progress<()>
    ensures { result ≡ no_line (of_recipes detail.entry) }
{
    let layout = Layout {
        lines: Lines::All,
        apart: detail.has_account(),
        summary: false,
    };
    Progress::new(layout, ())
}

/// Judges recipes over the bytes of a ROM on the board, one after another, and writes a line for each: the name, which has no control
/// characters, a colon, a space, and what is said of it; and an account of the answer behind it if the detail asks for one. Answers the
/// worst outcome of all. Names that a recipe does not define are those of labels.
///
/// A recipe that can't be opened or read has a line, too. The next one is taken once the line of the one before it is written. The only
/// fault is 73, if the writer failed, and then a prefix of these lines was written.
pub fn run_recipes<
    'a,
    R: CountedRead + Drop,
    I: Iterator<Item = NamedReader<R>> + Drop,
    W: CountedWrite,
>(
    alloc: Global,
    rom: &'a [u8],
    asked: &'a RecipeAsked,
    labels: Option<&'a Labels>,
    detail: Detail<'a>,
    recipes: I,
    out: &mut W,
) -> Result<Outcome, RunFault>
    requires can { I.can_next recipes }
    requires ends { IsFinite (I.remaining recipes) }

    // A line is written for each recipe, in their order, each by one write if it fits one. What a yes means is said of some recipe
    // (`IsAcceptedRecipe`).
    ensures report { IfOk result (λ end. HoldsOfAll I.next_gives recipes (λ taken.
        Reports (IsLineOfRecipe R.remaining R.failures rom.now asked.now detail.entry) (of_recipes detail.entry) taken
        (W.contents out.old) (W.contents out.new) (W.whole_writes out.old) (W.whole_writes out.new) end)) }

    // Where the writer failed, a prefix of them.
    ensures prefix { OnErr result (HoldsOfTaken I.next_gives recipes (λ taken.
        ReportsPrefix (IsLineOfRecipe R.remaining R.failures rom.now asked.now detail.entry) (of_recipes detail.entry) taken
        (W.contents out.old) (W.contents out.new))) }
    ensures fault { IfErr result (λ fault. fault ≡ RunFault.Write) }
    ensures count { W.failures out.new ≡ count_after (is_err result) (W.failures out.old) }
{
    let mut teller = RecipeTeller {
        rom,
        asked,
        labels,
        wanted: Wanted::of(detail),
        witness: Ok(None),
    };
    Ok(run_each(alloc, &mut teller, no_recipe(detail), recipes, out)?)
}

/// Judges one recipe as [`run_recipes`] does. If it is refused, and a frame shows why, the frame's bytes are written, too, behind the line.
///
/// The fault is 73, if a writer failed, or 74, if there was no memory to look for a frame; in both the line may have been written.
pub fn run_recipe_for_witness<'a, R: CountedRead + Drop, W: CountedWrite, F: CountedWrite>(
    alloc: Global,
    rom: &'a [u8],
    asked: &'a RecipeAsked,
    labels: Option<&'a Labels>,
    recipe: NamedReader<R>,
    out: &mut W,
    file: &mut F,
) -> Result<WitnessEnd, RunFault>
    // The recipe's line is written, by one write if it fits one.
    ensures report { IfOk result (λ end. Reports (IsLineOfRecipe R.remaining R.failures rom.now asked.now details.Line) (of_recipes details.Line) (recipe ∷ [])
        (W.contents out.old) (W.contents out.new) (W.whole_writes out.old) (W.whole_writes out.new) end.outcome) }
    // Nothing is written to the file where it is not said that a frame is.
    ensures kept { IfOk result (λ end. end.is_written ≡ false → file.new ≡ file.old) }
{
    let mut teller = RecipeTeller {
        rom,
        asked,
        labels,
        wanted: Wanted::Witness,
        witness: Ok(None),
    };
    let mut progress = no_recipe(Detail::Line);
    teller.tell(alloc, recipe, &mut progress, out)?;
    let is_written = match teller.witness? {
        Some(frame) => {
            write_bytes(&frame, file)?;
            true
        }
        None => false,
    };
    Ok(WitnessEnd {
        outcome: progress.worst,
        is_written,
    })
}
