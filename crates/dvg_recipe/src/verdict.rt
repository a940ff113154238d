//! The verdict on all frames of a recipe, by the certificate that is made for their calls.

ghost use Rattle.std.specs.Prelude.{◌≡◌, ◌≤◌, IfOk};
ghost use Rattle.dvg_words.specs.declared.machine.Machine.TheVariants.{Board};
ghost use Rattle.dvg_cert.specs.declared.limits.TheConstants.{MOST_WORDS};
ghost use Rattle.dvg_make.specs.Made.{AllMade};
ghost use Rattle.dvg_recipe.specs.Means.{AllMean};
ghost use Rattle.dvg_recipe.specs.Members.{recipe_number};
ghost use Rattle.dvg_recipe.specs.Lengths.{FitsAreas};
ghost use Rattle.dvg_recipe.specs.Private.Judging.{AreGoodFrames};

use crate::judge::{Asked, judge_over, past_recipe};
use crate::lengths::too_long;
use crate::notes::{Notes, RecipeFault, SeenPiece};
use crate::recipe::Recipe;
use crate::roots::{Unmade, roots_of};
use dvg_cert::{Cert, Entries, HashIndex};
use dvg_check::{Accepted, ShapeFault, Yes, check_shapes_exact};
use dvg_make::{MakeFault, make};
use dvg_words::{RomImage, Window};
use std::alloc::{AllocError, Global};

/// Why a recipe is not accepted.
#[derive(Clone, Copy, Debug)]
pub enum RecipeRefusal {
    /// 57: the longest list passes the end of its area at this piece.
    TooLong { piece: u16 },
    /// 60 to 62: the entry of a call can't be made.
    Make(Unmade),
    /// 59: from some place that may be known before this piece, no size of its draw leads into the rectangle to which it has to lead; or
    /// the place is lost there, or the scale unknown. It is not about a frame.
    Stuck { piece: u16 },
    /// 25: a shape that the recipe calls lights outside the window.
    Shape(ShapeFault),
    /// 44 to 48: some frame breaks a rule.
    Frame(RecipeFault),
    /// There was no memory.
    Memory,
}

impl RecipeRefusal {
    /// 25, 44, 46, 48, 57 or 59 to 62. `None` where there was no memory.
    pub fn number(&self) -> Option<u8>
        ensures { result ≡ recipe_number self.now }
    {
        match *self {
            RecipeRefusal::TooLong { .. } => Some(57),
            RecipeRefusal::Stuck { .. } => Some(59),
            RecipeRefusal::Make(unmade) => Some(MakeFault::from(unmade.why).number()),
            RecipeRefusal::Shape(fault) => Some(fault.number()),
            RecipeRefusal::Frame(fault) => Some(fault.why.number()),
            RecipeRefusal::Memory => None,
        }
    }
}

impl From<AllocError> for RecipeRefusal {
    fn from(_error: AllocError) -> RecipeRefusal {
        RecipeRefusal::Memory
    }
}

impl From<ShapeFault> for RecipeRefusal {
    fn from(fault: ShapeFault) -> RecipeRefusal {
        RecipeRefusal::Shape(fault)
    }
}

/// What is answered where a shape breaks a rule: first a piece that is stuck, if there is one.
fn stuck_or<E: Entries>(
    alloc: Global,
    entries: &E,
    asked: &Asked,
    recipe: &Recipe,
    fault: ShapeFault,
    notes: &mut Notes,
) -> RecipeRefusal {
    if past_recipe(alloc, entries, asked, recipe, notes).is_err() {
        return RecipeRefusal::Memory;
    }
    match notes.stuck() {
        Some(piece) => RecipeRefusal::Stuck { piece },
        None => RecipeRefusal::Shape(fault),
    }
}

/// Judges the shapes of a certificate, and by it all frames of a recipe.
fn judge_by(
    alloc: Global,
    rom: &RomImage,
    cert: &Cert,
    asked: &Asked,
    recipe: &Recipe,
    notes: &mut Notes,
) -> Result<Accepted, RecipeRefusal>
    requires map { rom.now.map ≡ cert.now.map }
    requires made { AllMade rom.now cert.now.entries }
    requires board { rom.now.machine ≡ Board }
    ensures means { IfOk result (λ yes. AllMean rom.now recipe.now asked.now.window yes.words yes.depth) }
    ensures good { IfOk result (λ yes. AreGoodFrames rom.now recipe.now asked.now.window cert.now.entries asked.now.budget) }
{
    cert.prove_certificate();
    let entries = HashIndex::new(alloc, cert)?;
    if let Err(fault) = check_shapes_exact(rom, cert, &entries, &asked.window) {
        return Err(stuck_or(alloc, &entries, asked, recipe, fault, notes));
    }
    judge_over(alloc, rom, &entries, asked, recipe, notes)
}

/// The verdict on a recipe that is accepted, and the certificate that is made for all that it calls.
#[derive(Drop)]
pub struct AcceptedRecipe {
    pub yes: Yes,
    pub cert: Cert,
}

/// The verdict on all frames of a recipe, by which certificate it is accepted, and what is noted.
pub fn judge_noting(
    alloc: Global,
    rom: &RomImage,
    recipe: &Recipe,
    asked: &Asked,
    notes: &mut Notes,
) -> Result<AcceptedRecipe, RecipeRefusal>
    requires board { rom.now.machine ≡ Board }
    ensures means { IfOk result (λ accepted. AllMean rom.now recipe.now asked.now.window accepted.yes.words accepted.yes.depth) }
    ensures fits { IfOk result (λ accepted. FitsAreas recipe.now) }
    ensures good { IfOk result (λ accepted. AreGoodFrames rom.now recipe.now asked.now.window accepted.cert.entries asked.now.budget) }
{
    if let Some(piece) = too_long(recipe) {
        return Err(RecipeRefusal::TooLong { piece });
    }
    let roots = roots_of(alloc, rom, recipe)?;
    if let Some(unmade) = roots.unmade {
        return Err(RecipeRefusal::Make(unmade));
    }
    let Ok(cert) = make(alloc, rom, &roots.asked) else {
        // Each of these entries was made before.
        return Err(RecipeRefusal::Memory);
    };
    let counts = judge_by(alloc, rom, &cert, asked, recipe, notes)?;
    let yes = Yes {
        shapes: cert.entries().len() as u32,
        words: counts.words,
        depth: counts.depth,
    };
    Ok(AcceptedRecipe { yes, cert })
}

/// The verdict on all frames of a recipe, as [`judge_recipe`] answers it, and what is noted.
fn verdict_noting(
    alloc: Global,
    rom: &RomImage,
    recipe: &Recipe,
    asked: &Asked,
    notes: &mut Notes,
) -> Result<Yes, RecipeRefusal>
    requires board { rom.now.machine ≡ Board }
    ensures means { IfOk result (λ yes. AllMean rom.now recipe.now asked.now.window yes.words yes.depth) }
    ensures fits { IfOk result (λ yes. FitsAreas recipe.now) }
{
    let accepted = judge_noting(alloc, rom, recipe, asked, notes)?;
    Ok(accepted.yes)
}

/// Judges all frames of a recipe over a vector ROM on the board, by the certificate that is made for all that they call.
///
/// `budget` is how many words a frame may take at most, up to 1,000,000, `window` where strokes may be lit. Where it answers words and
/// depth, each frame that belongs to the recipe by its runs is safe, as [`check_parts_exact`](dvg_check::check_parts_exact) says, with
/// counts of its own that are no greater; and each that [`belongs`](crate::belongs) finds to belong does so by its runs. Else it answers
/// the first of these: 57 if the longest list doesn't fit, 60 to 62 for the first call whose entry can't be made, 25 for the first made
/// shape that lights outside the window, and 44 to 48 for the first piece at which some frame breaks a rule, the pieces in the order of
/// reading with repeats written out, and of the rules there the one of the lowest number. That a recipe is refused only where one of its
/// frames is, and that the words and the depth are those of one of its frames, is only tested. Takes memory for the certificate and its
/// making.
pub fn judge_recipe(
    alloc: Global,
    rom: &RomImage,
    recipe: &Recipe,
    budget: u32,
    window: Window,
) -> Result<Yes, RecipeRefusal>
    requires budget { budget ≤ MOST_WORDS }
    requires board { rom.now.machine ≡ Board }
    ensures means { IfOk result (λ yes. AllMean rom.now recipe.now window yes.words yes.depth) }
    ensures fits { IfOk result (λ yes. FitsAreas recipe.now) }
{
    let asked = Asked { budget, window };
    verdict_noting(alloc, rom, recipe, &asked, &mut Notes::new(alloc))
}

/// The verdict on a recipe, and what is seen of each of its pieces, by their numbers, the HALT the last; of none where a piece can't be
/// come to, since 57 or 60 to 62 is answered. Where 59 is answered, what is seen up to the turn in which a piece is stuck.
#[derive(Drop)]
pub struct SurveyedRecipe {
    pub verdict: Result<Yes, RecipeRefusal>,
    pub seen: Vec<SeenPiece>,
}

/// Judges a recipe as [`judge_recipe`] does, and tells what is seen of each piece (only tested). An `Err` says that there was no memory to
/// note it.
pub fn survey_recipe(
    alloc: Global,
    rom: &RomImage,
    recipe: &Recipe,
    budget: u32,
    window: Window,
) -> Result<SurveyedRecipe, AllocError>
    requires budget { budget ≤ MOST_WORDS }
    requires board { rom.now.machine ≡ Board }
    ensures means { IfOk result (λ told. IfOk told.verdict (λ yes. AllMean rom.now recipe.now window yes.words yes.depth)) }
    ensures fits { IfOk result (λ told. IfOk told.verdict (λ yes. FitsAreas recipe.now)) }
{
    let mut notes = Notes::seeing(alloc, usize::from(recipe.halt()) + 1)?;
    let asked = Asked { budget, window };
    let verdict = verdict_noting(alloc, rom, recipe, &asked, &mut notes);
    Ok(SurveyedRecipe {
        verdict,
        seen: notes.into_seen(),
    })
}
