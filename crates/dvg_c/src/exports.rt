//! The functions that C calls, which the header declares. Their contracts say what they answer, and what they write into buffers of
//! C's.

ghost use Rattle.std.specs.Prelude.{◌≡◌};
ghost use Rattle.dvg_spelling.specs.Each.{of_each};
ghost use Rattle.dvg_words.specs.Memory.{words_of};
ghost use Rattle.dvg_check.specs.declared.fault.Mode.TheVariants.{Exact};
ghost use Rattle.dvg_check.specs.Means.{Means};
ghost use Rattle.dvg_check.specs.Verdict.{memory_on};
ghost use Rattle.dvg_recipe_cmd.specs.Recipes.{IsAcceptedRecipe};
ghost use Rattle.dvg_verdict.specs.Verdict.{MeansOn};
ghost use Rattle.dvg_c.specs.Told.{machine_of, map_of, mode_of, window_of};
ghost use Rattle.dvg_c.specs.Alone.{ClocksHold, TellsAlone};
ghost use Rattle.dvg_c.specs.ByCertificate.{TellsCheck};
ghost use Rattle.dvg_c.specs.Texts.{IsExplained};
ghost use Rattle.dvg_c.specs.Making.{IsMade, root_of};
ghost use Rattle.dvg_c.specs.Recipes.{IsJudged, TellsMember, options_of, recipe_yes_of};

use crate::alone::own_certificates;
use crate::answer::{
    Answer, BAD_MACHINE, BAD_MAP, BAD_MODE, BAD_WINDOW, NO_TEXT_MEMORY, answer_of, numbered,
    own_answer, timed_answer,
};
use crate::explain::account_of;
use crate::make::{Root, made_text};
use crate::passed::{
    MapEnds, WindowEnds, machine_numbered, map_between, mode_numbered, window_for,
};
use crate::recipe::{
    RecipeAnswer, member_answer_of, membership_in, put_witness, recipe_answer_of, recipe_numbered,
    recipe_options,
};
use crate::text::{TextAnswer, no_text, put_text, text_numbered};
use dvg_cmd::Detail;
use dvg_recipe_cmd::{Explained, Wanted, judge_text};
use dvg_verdict::check_on;
use std::alloc::Global;

/// The version of the program and of this library, 2.0.3: its first number times 10,000, its second times 100, and its third.
pub const VERSION: u32 = 20_003;

/// The version with which the library was built. The header's `DVGCHECK_VERSION` is the version of the header.
#[unsafe(no_mangle)]
pub extern "C" fn dvgcheck_version() -> u32
    ensures { result ≡ VERSION }
{
    VERSION
}

/// Judges a frame from the ROM alone, by the certificate that is made for it: `judge` of `dvg_make`, for C. No certificate does
/// better.
///
/// `machine` is 0 for the profile's and 1 for the board's, `map` where the ROM lies, `budget` how many words the frame may take at
/// most, 1 to 1,000,000, and `window` where strokes may be lit. The answer is 82 for another number of a machine, 83 for another
/// map, 80 for another window, else the first that applies of 2, 49, 1, 60 to 63, 25 and 40 to 48, or 0; 45 and 47 never come. With
/// 0 every run is safe, and has just the answered counts; on the board so is every run of its circuit; and no certificate gets the
/// frame accepted with fewer words or less depth. On the board each run takes at most the answered clocks, unless these are 0. Takes memory
/// for the certificate, its index, and the clocks of its entries' shapes, and gives it back.
#[unsafe(no_mangle)]
pub extern "C" fn dvgcheck_frame_alone(
    alloc: Global,
    machine: u32,
    rom: &[u8],
    map: MapEnds,
    frame: &[u8],
    budget: u32,
    window: WindowEnds,
) -> Answer
    ensures verdict { TellsAlone machine rom.now (map_of map) frame.now budget (window_of window) result }
    ensures clocks { ClocksHold machine rom.now (map_of map) frame.now result }
    ensures means { result.number ≡ 0
        → Means Exact (memory_on (machine_of machine) (map_of map) (words_of frame.now) rom.now) (window_of window) result.words result.depth }
{
    match own_certificates(machine, rom, map, budget, window) {
        Ok(own) => {
            let (verdict, clocks) = own.timed_verdict(alloc, frame);
            timed_answer(&verdict, &clocks)
        }
        Err(answer) => answer,
    }
}

/// Judges a frame as [`dvgcheck_frame_alone`] does, and writes the account of its answer into a buffer: what
/// `dvgcheck explain frames` prints for it behind its name, a colon and a space.
///
/// The answer is that of `dvgcheck_frame_alone`, but without clocks. The number is 0 where the whole text stands at the buffer's start, and then its
/// length is that of the text. It is 84 where the buffer is too short: then the length is what is needed, and nothing is written.
/// It is 85 where there was no memory for the account, and 80, 82 or 83 as the answer's; then nothing is written, and the length is
/// 0. Takes memory for the certificate, its index and the account, and gives it back.
#[unsafe(no_mangle)]
pub extern "C" fn dvgcheck_explain(
    alloc: Global,
    machine: u32,
    rom: &[u8],
    map: MapEnds,
    frame: &[u8],
    budget: u32,
    window: WindowEnds,
    text: &mut [u8],
) -> TextAnswer
    ensures { IsExplained machine rom.now (map_of map) frame.now budget (window_of window) text.old text.new result }
{
    match own_certificates(machine, rom, map, budget, window) {
        Ok(own) => {
            let (verdict, behind) = own.verdict(alloc, frame, Detail::Account(None));
            let answer = own_answer(&verdict);
            match account_of(alloc, &verdict, &behind) {
                Some(account) => put_text(&account, answer, text),
                None => no_text(NO_TEXT_MEMORY, answer),
            }
        }
        Err(answer) => no_text(answer.number, answer),
    }
}

/// Judges a frame over a vector ROM by a certificate of its shapes, all three as bytes: `check_on` of `dvg_verdict`, for C.
///
/// `machine` is 0 for the profile's and 1 for the board's, `mode` 0 for the certificate's counts as bounds and 1 for exact ones,
/// `budget` how many words the frame may take at most, 1 to 1,000,000, and `window` where strokes may be lit. The answer is 82 for
/// another number of a machine, 87 for another mode, 80 for another window, else the first that applies of 2, 49, 10 to 16, 1, 50,
/// 20 to 31 and 40 to 48, or 0; with exact counts 32 and 33, too, follow 31. With 0 every run from the frame's first word, at any
/// beam place and any global scale, reaches HALT within the answered count of words, stores at most the answered count of return
/// places at once, fetches only words of the ROM and the frame, and draws no lit stroke that leaves the window on either axis; with
/// exact counts it fetches and stores just so many. On the board 0 is about every run of its circuit, too, whatever its registers
/// hold at the start. Takes memory for the certificate's entries and their index, and gives it back.
#[tactic(auto, using(std::proofs::lemmas::Bool::Decides::nat_tests))]
#[unsafe(no_mangle)]
pub extern "C" fn dvgcheck_frame_by_certificate(
    alloc: Global,
    machine: u32,
    mode: u32,
    rom: &[u8],
    cert: &[u8],
    frame: &[u8],
    budget: u32,
    window: WindowEnds,
) -> Answer
    ensures verdict { TellsCheck machine mode (window_of window) rom.now cert.now frame.now budget result }
    ensures means { result.number ≡ 0
        → MeansOn (machine_of machine) (mode_of mode) (window_of window) rom.now cert.now frame.now result.words result.depth }
{
    let Some(machine) = machine_numbered(machine) else {
        return numbered(BAD_MACHINE);
    };
    let Some(mode) = mode_numbered(mode) else {
        return numbered(BAD_MODE);
    };
    let Some(window) = window_for(machine, window) else {
        return numbered(BAD_WINDOW);
    };
    answer_of(&check_on(machine, alloc, rom, cert, frame, budget, window, mode))
}

/// Makes a certificate for roots and frames, and writes its text into a buffer: what `dvgcheck make` writes, for C.
///
/// `machine` is 0 for the profile's and 1 for the board's, and `map` where the ROM lies. The frames lie one behind the other in
/// `frames`, and `lengths` says how many bytes each of them has. The answer's number is 82 for another machine, 83 for another map,
/// 86 where the lengths don't add up to that of the bytes, else the first that applies of 1, 2 and 60 to 63, or 0; and `frame` is
/// with 2 the frame, and with 60 to 63 that of the answer's call. The number is 0 where the whole text stands at the buffer's
/// start, 84 where the buffer is too short, and then the length is what is needed, and nothing is written; else it is the answer's,
/// and nothing is written. Takes memory for the entries, for the text and for what was read of the frames, and gives it back.
#[unsafe(no_mangle)]
pub extern "C" fn dvgcheck_make(
    alloc: Global,
    machine: u32,
    rom: &[u8],
    map: MapEnds,
    roots: &[Root],
    frames: &[u8],
    lengths: &[u32],
    text: &mut [u8],
) -> TextAnswer
    ensures { IsMade machine rom.now (map_of map) (of_each root_of roots.now) frames.now lengths.now text.old text.new result }
{
    let Some(machine) = machine_numbered(machine) else {
        return text_numbered(BAD_MACHINE);
    };
    let Some(map) = map_between(map) else {
        return text_numbered(BAD_MAP);
    };
    match made_text(alloc, machine, map, rom, roots, frames, lengths) {
        Ok(made) => put_text(&made, numbered(0), text),
        Err(told) => told,
    }
}

/// Judges all frames of a recipe on the board: `judge_text` of `dvg_recipe_cmd`, for C. Where it is refused, a frame of it that shows why
/// goes into a buffer.
///
/// `map` says where the ROM lies, `recipe` is the recipe's text, without labels, `budget` how many words a frame may take at most, 1 to
/// 1,000,000, and `window` where strokes may be lit. The answer is 83 for another map, 80 for another window, else the first that applies
/// of 51 to 56, 49, 1, 57, 60 to 63, 59, 25 and 44 to 48, or 0. With 0 each frame of some recipe, which is that of the text (only tested), is
/// safe, as [`dvgcheck_frame_alone`] says, with counts of its own that are no greater than the answered ones.
///
/// The answer's `length` is that of a frame of the recipe that is refused with the same number (only tested), or 0 where there is none, as
/// with 0, 51 to 57 and 59. Its `witness` is 0 where that frame stands whole at the buffer's start, or there is none, 84 where the buffer is
/// too short for it, and 85 where there was no memory to look for it; with 84 and 85, and where there is none, nothing is written. Takes
/// memory for the recipe, and for the certificate of its calls and its making, and gives it back.
#[unsafe(no_mangle)]
pub extern "C" fn dvgcheck_recipe<'a>(
    alloc: Global,
    rom: &'a [u8],
    map: MapEnds,
    recipe: &'a [u8],
    budget: u32,
    window: WindowEnds,
    frame: &mut [u8],
) -> RecipeAnswer
    ensures verdict { IsJudged rom.now (map_of map) budget (window_of window) frame.old frame.new result }
    ensures means { result.number ≡ 0
        → IsAcceptedRecipe rom.now (options_of (map_of map) budget (window_of window)) (recipe_yes_of result) }
{
    match recipe_options(map, budget, window) {
        Ok(options) => {
            let explained = Explained {
                rom,
                text: recipe,
                labels: None,
                options,
            };
            let judged = judge_text(alloc, &explained, Wanted::Witness);
            put_witness(&judged.witness, recipe_answer_of(&judged.verdict), frame)
        }
        Err(answer) => answer,
    }
}

/// Tells whether a frame is one of a recipe's: `membership_of` of `dvg_recipe_cmd`, for C.
///
/// `map` says where the ROM lies, and `recipe` is the recipe's text, without labels. The answer is 83 for another map, else the first that
/// applies of 51 to 56, 1, 57 and 2; else 0 where the frame is one of the frames of some recipe, which is that of the text (only tested),
/// 88 where it is none, with the word at which it leaves the recipe (only tested), or 63 where there was no memory to find out. Takes
/// memory for the recipe and for the frame's items, and gives it back.
#[unsafe(no_mangle)]
pub extern "C" fn dvgcheck_belongs(
    alloc: Global,
    rom: &[u8],
    map: MapEnds,
    recipe: &[u8],
    frame: &[u8],
) -> RecipeAnswer
    ensures verdict { TellsMember rom.now (map_of map) frame.now result }
{
    match map_between(map) {
        Some(map) => member_answer_of(&membership_in(alloc, rom, map, recipe, frame)),
        None => recipe_numbered(BAD_MAP),
    }
}
