//! The verdict on all frames of a recipe, with the clocks that they take.

ghost use Rattle.std.specs.Prelude.{◌≡◌, ◌≤◌, ℕ, IfOk};
ghost use Rattle.dvg_words.specs.declared.machine.Machine.TheVariants.{Board};
ghost use Rattle.dvg_words.specs.Values.{Window as Places};
ghost use Rattle.dvg_cert.specs.declared.limits.TheConstants.{MOST_WORDS};
ghost use Rattle.dvg_recipe.specs.Means.{AllMean, AllTake};
ghost use Rattle.dvg_recipe.specs.Lengths.{FitsAreas};
ghost use Rattle.dvg_recipe.specs.Private.Judging.{AreGoodFrames};

use crate::clocks::{Counting, SlowPiece, most_of_lists};
use crate::judge::Asked;
use crate::notes::Notes;
use crate::recipe::Recipe;
use crate::verdict::{RecipeRefusal, judge_noting};
use dvg_cert::{Cert, HashIndex};
use dvg_clocks::{ClockRange, ShapeClocks, TimedYes, Timing};
use dvg_words::{RomImage, Window};
use std::alloc::{AllocError, Global};

/// What the frames of a recipe take at most, that are good over the shapes of this certificate.
fn clocks_by(
    alloc: Global,
    timing: &Timing,
    rom: &RomImage,
    cert: &Cert,
    recipe: &Recipe,
) -> Result<Result<ClockRange, SlowPiece>, AllocError>
    requires good { (w : Places) × (budget : ℕ) × AreGoodFrames rom.now recipe.now w cert.now.entries budget }
    requires board { rom.now.machine ≡ Board }
    ensures take { IfOk result (λ counted. IfOk counted (AllTake timing.now.states rom.now recipe.now)) }
    ensures within { IfOk result (λ counted. IfOk counted (λ clocks. clocks.most ≤ timing.now.limit)) }
{
    rom.prove_whole();
    let list = cert.entries();
    let entries = HashIndex::new(alloc, cert)?;
    let shapes = ShapeClocks::of_all(alloc, &timing.states, rom, &entries, list)?;
    let counting = Counting {
        timing,
        entries: &entries,
        shapes: &shapes,
    };
    Ok(most_of_lists(&counting, recipe))
}

/// Judges a recipe as [`judge_recipe`](crate::judge_recipe) does, and if it is accepted, answers how many clocks its frames take at most,
/// too: 58 if that may be more than the limit, at the first piece with which it may be, the pieces in the order of reading with repeats
/// written out.
///
/// No frame takes more than the most, in any run. Where the least and the most are equal, some frame takes just so much; they differ only
/// by dark draws before the first LABS. That some frame takes as much, and more than the limit where 58 is answered, is only tested. Takes
/// memory as `judge_recipe` does, and for the clocks of the shapes that are called.
pub fn judge_recipe_timed(
    alloc: Global,
    rom: &RomImage,
    recipe: &Recipe,
    budget: u32,
    window: Window,
    timing: &Timing,
) -> Result<Result<TimedYes, SlowPiece>, RecipeRefusal>
    requires budget { budget ≤ MOST_WORDS }
    requires board { rom.now.machine ≡ Board }
    ensures means { IfOk result (λ told. IfOk told (λ timed. AllMean rom.now recipe.now window timed.yes.words timed.yes.depth)) }
    ensures fits { IfOk result (λ _. FitsAreas recipe.now) }
    ensures take { IfOk result (λ told. IfOk told (λ timed. AllTake timing.now.states rom.now recipe.now timed.clocks)) }
    ensures within { IfOk result (λ told. IfOk told (λ timed. timed.clocks.most ≤ timing.now.limit)) }
{
    let asked = Asked { budget, window };
    let accepted = judge_noting(alloc, rom, recipe, &asked, &mut Notes::new(alloc))?;
    let counted = clocks_by(alloc, timing, rom, &accepted.cert, recipe)?;
    match counted {
        Ok(clocks) => Ok(Ok(TimedYes {
            yes: accepted.yes,
            clocks,
        })),
        Err(slow) => Ok(Err(slow)),
    }
}
