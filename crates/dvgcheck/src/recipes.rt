//! The runs of `recipe` and of `belongs`.

use crate::command::{Arguments, BelongsAsked, Named};
use crate::output::{Output, unwritten};
use crate::over::{AskedOfFrames, opened};
use crate::stop::Stop;
use crate::{open, standard_output};
use dvg_cmd::{Counted, CountedRead, NamedReader, Outcome, RunFault, load_rom};
use dvg_recipe_cmd::{
    RecipeAsked, Recorded, load_recipe, run_belongs, run_print, run_recipe_for_witness, run_recipes,
};

/// Reads the ROM, and then judges recipe after recipe: each file is opened when the one before it is closed.
#[inline(never)]
pub fn judge_recipes(rt: &HostRuntime, arguments: &Arguments) -> Result<Outcome, Stop> {
    let asked = arguments.recipe_asked()?;
    let recipes = arguments.files("RECIPE")?;
    let witness = arguments.witness(recipes.len())?;
    let rom = load_rom(&mut open(rt, arguments.file("ROM"), RunFault::ReadRom)?)?;
    Ok(match witness {
        Some(path) => judge_for_witness(rt, rom.as_slice(), arguments, &asked, recipes, path)?,
        None => run_recipes(
            rt.alloc(),
            rom.as_slice(),
            &asked,
            arguments.labels,
            arguments.detail,
            recipes.into_iter().map(|recipe| opened(rt, recipe)),
            &mut standard_output(rt),
        )?,
    })
}

/// Judges the one recipe, and has the frame that shows why it is refused at this path in the end, or, if there is none, what was there.
#[inline(never)]
fn judge_for_witness(
    rt: &HostRuntime,
    rom: &[u8],
    arguments: &Arguments,
    asked: &RecipeAsked,
    mut recipes: Vec<Named>,
    path: &str,
) -> Result<Outcome, RunFault> {
    let Some(recipe) = recipes.pop() else {
        return Ok(Outcome::Accepted);
    };
    let file = Output::open(rt, path).map_err(|error| unwritten::<RunFault>(&error))?;
    let judged = run_recipe_for_witness(
        rt.alloc(),
        rom,
        asked,
        arguments.labels,
        opened(rt, recipe),
        &mut standard_output(rt),
        &mut file.counted(),
    );
    let is_written = matches!(&judged, Ok(end) if end.is_written);
    file.end(rt, is_written)
        .map_err(|error| unwritten::<RunFault>(&error))?;
    Ok(judged?.outcome)
}

/// Prints a recipe.
#[inline(never)]
pub fn print(rt: &HostRuntime, arguments: &Arguments, recipe: &Named) -> Result<Outcome, RunFault> {
    run_print(
        rt.alloc(),
        recipe.name.as_str(),
        &mut open(rt, recipe.input, RunFault::ReadRecipe)?,
        arguments.labels,
        &mut standard_output(rt),
        &mut Counted::new(rt.stderr()),
    )
}

impl<'a> AskedOfFrames for BelongsAsked<'a> {
    /// Reads the ROM and the recipe, and then tells of frame after frame whether it is the recipe's.
    #[inline(never)]
    fn run<R: CountedRead + Drop, I: Iterator<Item = NamedReader<R>> + Drop>(
        &self,
        rt: &HostRuntime,
        frames: I,
    ) -> Result<Outcome, RunFault> {
        let rom = load_rom(&mut open(rt, self.rom, RunFault::ReadRom)?)?;
        let mut file = open(rt, self.recipe, RunFault::ReadRecipe)?;
        let recipe = load_recipe(rt.alloc(), &mut file, self.labels)?;
        let given = Recorded {
            rom: rom.as_slice(),
            map: self.map,
            recipe: &recipe,
        };
        run_belongs(
            rt.alloc(),
            &given,
            frames,
            self.listing,
            &mut standard_output(rt),
        )
    }
}
