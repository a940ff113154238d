//! What [`judge_recipe`] answers on recipes, with the answers that a program in Python, written apart from this one, gave.
//!
//! A table's lines are those of its rows, one behind the other. A recipe stands on one line or more, a comma and a space between the lines of
//! its text, of which the first and the last go without saying, and so does a list at 000 to 0FF where its lines name none. Before it stand
//! `budget` and how many words its frames may take, if not 20,000, and `window` and where they may light, if not on the whole screen. The
//! last line of a row is what is told of its recipe. Lines that begin with `;` say what rows show.

ghost use Rattle.std.specs.Prelude.{◌≡◌, ◌≤◌};
ghost use Rattle.dvg_words.specs.declared.machine.Machine.TheVariants.{Board};
ghost use Rattle.dvg_cert.specs.declared.limits.TheConstants.{MOST_WORDS};

use crate::expecting::{expect, expect_same};
use crate::inputs::rom_of;
use dvg_cert::MOST_WORDS;
use dvg_check::Yes;
use dvg_cmd::window_of;
use dvg_recipe::{Recipe, RecipeRefusal, find_deepest, find_longest, find_refused, judge_recipe};
use dvg_recipe_text::{ReadRecipe, read_recipe};
use dvg_words::{ASTEROIDS, Machine, RomImage, SCREEN, Window};
use std::alloc::{AllocError, Global};
use std::process::Abort;

/// What a row asks: the lines of its recipe, each with a comma behind it, how many words its frames may take, and where they may light.
#[derive(Drop)]
pub struct Asked {
    lines: String,
    budget: u32,
    window: Window,
}

impl Asked {
    /// What a row asks before its first line.
    pub fn new(alloc: Global) -> Asked {
        Asked {
            lines: String::new(alloc),
            budget: 20_000,
            window: SCREEN,
        }
    }

    /// Takes a line of the row, other than its last.
    pub fn take(&mut self, rt: &impl Abort, line: &str) {
        let (word, words) = line.split_once(' ').unwrap_or((line, ""));
        match word {
            ";" => {}
            "budget" => self.budget = words.parse::<u32>().expect(rt, "a budget"),
            "window" => self.window = window_of(words).expect(rt, "a window"),
            _ => {
                self.lines.push_str(line).expect(rt, "memory");
                self.lines.push_str(", ").expect(rt, "memory");
            }
        }
    }

    /// The recipe of the row.
    pub fn read(&self, rt: &impl Abort, alloc: Global) -> ReadRecipe {
        let lines = self.lines.as_str();
        read_lines(rt, alloc, lines.strip_suffix(", ").unwrap_or(lines))
    }
}

/// The text of a recipe of these lines, between which commas stand.
fn text_of(alloc: Global, lines: &str) -> Result<String, AllocError> {
    let mut text = String::new(alloc);
    text.push_str("dvgrecipe 1\n")?;
    if !lines.starts_with("list ") {
        text.push_str("list 000 0FF\n")?;
    }
    for line in lines.split(", ") {
        text.push_str(line)?;
        text.push_str("\n")?;
    }
    text.push_str("halt\n")?;
    Ok(text)
}

/// The recipe of these lines, between which commas stand.
pub fn read_lines(rt: &impl Abort, alloc: Global, lines: &str) -> ReadRecipe {
    let text = text_of(alloc, lines).expect(rt, "memory for a text");
    read_recipe(alloc, text.as_bytes(), None).expect(rt, "a recipe")
}

/// What an answer tells, in words.
fn told(alloc: Global, answer: &Result<Yes, RecipeRefusal>) -> Result<String, AllocError> {
    match answer {
        Ok(
            Yes {
                shapes,
                words,
                depth,
            },
        ) => format!(in alloc; "accepted shapes={shapes} words={words} depth={depth}"),
        Err(RecipeRefusal::TooLong { piece }) => format!(in alloc; "refused 57 at {piece}"),
        Err(RecipeRefusal::Make(unmade)) => {
            let (at, to, scale, why) = (unmade.piece, unmade.to, unmade.scale, unmade.why);
            format!(in alloc; "unmade at {at}: {to:03X}/{scale}, {why}")
        }
        Err(RecipeRefusal::Stuck { piece }) => format!(in alloc; "refused 59 at {piece}"),
        Err(RecipeRefusal::Shape(fault)) => {
            let (addr, key, word) = (fault.addr, fault.key, fault.word);
            format!(in alloc;
                "refused {} shape {addr:03X}/{key} at {word:03X}",
                fault.number()
            )
        }
        Err(RecipeRefusal::Frame(fault)) => match fault.piece {
            Some(piece) => format!(in alloc; "refused {} at {piece}", fault.why.number()),
            None => format!(in alloc; "refused {} at a list", fault.why.number()),
        },
        Err(RecipeRefusal::Memory) => format!(in alloc; "out of memory"),
    }
}

/// Whether frames of a recipe show what is answered of it: one that is refused with this number, or two that have these counts. 57 and 59
/// have none to show.
fn shows(
    alloc: Global,
    rom: &RomImage,
    recipe: &Recipe,
    budget: u32,
    window: Window,
    answer: &Result<Yes, RecipeRefusal>,
) -> Result<bool, AllocError>
    requires budget { budget ≤ MOST_WORDS }
    requires board { rom.now.machine ≡ Board }
{
    match answer {
        Ok(yes) => {
            let longest = find_longest(alloc, rom, recipe, budget, window, yes.words)?;
            let deepest = find_deepest(alloc, rom, recipe, budget, window, yes.depth)?;
            Ok(longest.is_some() && deepest.is_some())
        }
        Err(RecipeRefusal::TooLong { .. } | RecipeRefusal::Stuck { .. }) => Ok(true),
        Err(refusal) => { Ok(find_refused(alloc, rom, recipe, budget, window, refusal)?.is_some()) }
    }
}

/// Whether a line is the last of its row.
fn is_told(line: &str) -> bool {
    line.starts_with("accepted ") || line.starts_with("refused ") || line.starts_with("unmade ")
}

/// Stops the test unless this is told of what a row asks, and frames show it.
fn expect_answer(rt: &impl Abort, alloc: Global, rom: &RomImage, asked: &Asked, line: &str)
    requires board { rom.now.machine ≡ Board }
{
    let lines = asked.lines.as_str();
    let read = asked.read(rt, alloc);
    let budget = asked.budget.min(MOST_WORDS);
    let answer = judge_recipe(alloc, rom, &read.recipe, budget, asked.window);
    let told = told(alloc, &answer).expect(rt, "memory for a line");
    expect_same(rt, &told.as_str(), &line, &lines);
    let shown = shows(alloc, rom, &read.recipe, budget, asked.window, &answer);
    expect(rt, shown.expect(rt, "memory for a frame"), &lines);
}

/// Stops the test unless each recipe of a table, over the ROM of these words at 800 to BFF, is told of as its row says.
pub fn expect_told(rt: &impl Abort, alloc: Global, words: &str, table: &str) {
    let bytes = rom_of(rt, alloc, words);
    let rom = RomImage::from_bytes_on(Machine::Board, &bytes, ASTEROIDS).expect(rt, "a ROM");
    let mut asked = Asked::new(alloc);
    for line in table.lines() {
        if is_told(line) {
            expect_answer(rt, alloc, &rom, &asked, line);
            asked = Asked::new(alloc);
        } else {
            asked.take(rt, line);
        }
    }
}

/// Shapes of a vector ROM.
pub const ROM: &str = "\
800 F070 D000 ; a dot
810 9000 7010 9010 7000 9000 7410 9410 7000 D000 ; a box, 16 places to the right and up
820 9000 000A E810 ; a dark move, and a tail jump to the box
830 C800 C820 C810 D000 ; these, one behind the other
840 A200 2200 D000 ; a place at scale 2
850 A014 13E8 8000 7018 D000 ; a stroke at scale 1, past the right edge of the screen
860 A1F4 01F4 9008 7008 D000 ; a stroke in the middle
870 B000 ; a HALT
878 9000 0000 B000 ; a dark move, and a HALT
880 C880 D000 ; a call of itself
890 C898 D000, 898 C8A0 D000, 8A0 C8A8 D000, 8A8 C800 D000 ; calls, four deep
8B0 9000 041E D000 ; a dark move to the left
8B8 A000 0000 C800 E840 ; a dot in the corner, and a tail jump to the place at scale 2
8C0 AC00 FC00 F97A D000 ; a stroke at scale 15, at the corner of the zone
8D0 A384 5064 D000 ; a place at scale 5
900 C970*100 D000 ; 1,020,201 words
970 C9E0*100 D000 ; 10,201 words
9E0 F000*100 D000 ; 101 words";

/// Places and sizes at edges, intensities and scales.
const JUDGES_PLACES: &str = "\
; the right edge, which the greatest X alone passes
place 0 1007 0 1007 scale 0, call 810
accepted shapes=1 words=13 depth=1
place 0 1008 0 1007 scale 0, call 810
refused 46 at 1
place 0 1007 0 1008 scale 0, call 800 810
refused 46 at 1
; the left and the lower edge, which the least size alone passes
place 8 8 9 9 scale 0, vctr 9 x -8 8 y -9 0 bright 7 7, words F070
accepted shapes=0 words=6 depth=0
place 8 8 9 9 scale 0, vctr 9 x -9 8 y -9 0 bright 0 0, words F070
refused 46 at 2
place 8 8 9 9 scale 0, vctr 9 x -8 8 y -10 -10 bright 0 7
refused 46 at 1
; intensities: lit, if one of them is not 0
place 1020 1023 0 0 scale 0, vctr 9 x 0 1 y 0 0 bright 0 0
accepted shapes=0 words=5 depth=0
place 1020 1023 0 0 scale 0, vctr 9 x 0 1 y 0 0 bright 0 7
refused 46 at 1
vctr 9 x -5 5 y 0 0 bright 0 0, svec 0 x -3 3 y 0 0 bright 0 0
accepted shapes=0 words=4 depth=0
vctr 9 x -5 5 y 0 0 bright 0 0, svec 0 x 0 0 y 0 0 bright 0 1
refused 44 at 1
; sizes that the scale makes larger, smaller, or nothing
place 1000 1000 0 0 scale 0 15, svec 3 x 0 1 y 0 0 bright 7 7
accepted shapes=0 words=4 depth=0
place 1000 1000 0 0 scale 0 1, svec 3 x 0 1 y 0 0 bright 7 7
refused 46 at 1
place 0 0 1023 1023 scale 7, vctr 9 x -1023 1023 y -5 5 bright 15 15, vctr 3 x -1 1 y 0 0 bright 0 0
refused 46 at 1
place 0 0 1023 1023 scale 7, vctr 3 x -1 1 y 0 0 bright 0 0, vctr 2 x 0 0 y 0 0 bright 1 1
accepted shapes=0 words=7 depth=0";

/// What one branch alone does.
const JUDGES_BRANCHES: &str = "\
; the most words, by the second branch and by the first
place 512 512 512 512 scale 0, either, words F000 F000 F000, or, call 830, end
accepted shapes=4 words=31 depth=2
place 512 512 512 512 scale 0, either, either, call 830, or, words F000 F000 F000, end, or, call 800, end
accepted shapes=4 words=31 depth=2
; the depth, by one branch
budget 11000
place 512 512 512 512 scale 0, either, call 898, or, call 970, end
accepted shapes=6 words=10205 depth=4
; the place that one branch alone reaches
either, place 0 0 0 0 scale 0, or, place 1010 1010 0 0 scale 0, end, call 810
refused 46 at 2
either, place 0 0 0 0 scale 0, or, place 1010 1010 0 0 scale 15, end, call 810
accepted shapes=2 words=13 depth=1
; the scale, or the place, that one branch alone sets
either, place 100 100 100 100 scale 2, or, words F000, end, words F000
accepted shapes=0 words=4 depth=0
either, place 100 100 100 100 scale 2, or, words F000, end, words F000 F070
refused 44 at 3
either, place 100 100 100 100 scale 2, or, words F000, end, call 800
unmade at 2: 800/any, no shape can have the item at 800
either, place 100 100 100 100 scale 2, or, words F000, end, call 8B0 8D0
accepted shapes=4 words=7 depth=1
; 44 where the scale is unknown, before 46 where it is known
either, place 2000 2000 0 0 scale 0, or, words F000, end, vctr 9 x 0 0 y 0 0 bright 7 7
refused 44 at 2
; 46 before 48 at one piece
budget 5
place 1023 1023 0 0 scale 0, either, words F000 F000 F000, or, words F000, end, vctr 9 x 1 1 y 0 0 bright 7 7
refused 46 at 5";

/// What one turn alone does, or none.
const JUDGES_TURNS: &str = "\
; the last turn alone breaks a rule
place 999 999 0 0 scale 0, repeat 0 3, vctr 9 x 8 8 y 0 0 bright 7 7, end
accepted shapes=0 words=9 depth=0
place 1000 1000 0 0 scale 0, repeat 0 3, vctr 9 x 8 8 y 0 0 bright 7 7, end
refused 46 at 1
place 1000 1000 0 0 scale 0, repeat 0 3, vctr 9 x 8 8 y 0 0 bright 0 0, end, words F070
refused 46 at 2
place 900 900 0 0 scale 0, repeat 2 3, words F070, repeat 1 2, vctr 9 x 20 21 y 0 0 bright 0 0, end, end, words F070
refused 46 at 3
; no turn
repeat 0 1, place 100 100 100 100 scale 0, end, words F070
refused 44 at 1
repeat 1 1, place 100 100 100 100 scale 0, end, words F070
accepted shapes=0 words=4 depth=0
place 2000 2000 0 0 scale 0, repeat 0 2, place 100 100 100 100 scale 0, end, words F070
refused 46 at 2
place 2000 2000 0 0 scale 0, repeat 1 2, place 100 100 100 100 scale 0, end, words F070
accepted shapes=0 words=8 depth=0
; the scale of each turn
place 100 100 100 100 scale 0, repeat 1 2, call 810 840, end
accepted shapes=4 words=23 depth=1
place 100 100 100 100 scale 0, repeat 0 3, either, call 810, or, place 990 990 100 100 scale 1, end, end
accepted shapes=2 words=33 depth=1";

/// Lists that pass their areas.
const ASKS_FOR_ROOM: &str = "\
; 57, before all else
list 000 003, call 870, place 0 0 0 0 scale 0, words F070
refused 57 at 3
list 000 0FF, list 201 206, repeat 0 3, either, words F000, or, place 0 0 0 0 scale 0, end, end
refused 57 at 2
place 0 0 0 0 scale 0, jump 100 101, words F070 F070
refused 57 at 4";

/// Calls whose entries can't be made.
const MAKES_ENTRIES: &str = "\
; a HALT, a word outside the ROM, and a stroke at unknown scale
place 512 512 512 512 scale 0, call 870
unmade at 1: 870/0, no shape can have the item at 870
budget 100
place 512 512 512 512 scale 0, call 800 878
unmade at 1: 878/0, no shape can have the item at 87A
place 512 512 512 512 scale 0, call 7FF
unmade at 1: 7FF/0, no shape can have the item at 7FF
budget 100
place 512 512 512 512 scale 0, words F000 CC00
unmade at 2: C00/0, no shape can have the item at C00
call 810
unmade at 0: 810/any, no shape can have the item at 810
budget 100
call 8B8 810, place 512 512 512 512 scale 0
unmade at 0: 810/any, no shape can have the item at 810
place 512 512 512 512 scale 0, call A60
unmade at 1: A60/0, no shape can have the item at C00
; calls that go too deep, and the deepest that do not
place 512 512 512 512 scale 0, call 898
accepted shapes=4 words=12 depth=4
budget 100
place 512 512 512 512 scale 0, call 890
unmade at 1: 890/0, the shapes call too deep
budget 100
place 512 512 512 512 scale 0, call 880
unmade at 1: 880/0, the shapes call too deep
; too many words
budget 1000000
place 512 512 512 512 scale 0, call 9E0, repeat 0 1, call 900, end
unmade at 2: 900/0, a shape has too many words
; the first piece, then the least scale, then the first of its addresses
place 512 512 512 512 scale 0, repeat 0 2, call 800, end, either, call 898, or, call 880 870, end, call 870
unmade at 3: 880/0, the shapes call too deep
repeat 0 1, place 9 9 9 9 scale 3 5, end, call 8D0 810 880
unmade at 1: 880/3, the shapes call too deep
repeat 0 1, place 9 9 9 9 scale 3 5, end, call 8D0 810
unmade at 1: 810/any, no shape can have the item at 810
; a call that turn 2 alone makes at unknown scale, and one behind a jump
repeat 1 2, call 840 8B0, end, call 810
unmade at 1: 810/any, no shape can have the item at 810
jump 200 2FF, call 810
unmade at 1: 810/any, no shape can have the item at 810
; 60 before 25 and 46
place 1020 1020 0 0 scale 0, call 810 850, call 870
unmade at 2: 870/0, no shape can have the item at 870";

#[test]
fn judges_places(rt: HostRuntime) {
    expect_told(&rt, rt.alloc(), ROM, JUDGES_PLACES);
}

#[test]
fn judges_branches(rt: HostRuntime) {
    expect_told(&rt, rt.alloc(), ROM, JUDGES_BRANCHES);
}

#[test]
fn judges_turns(rt: HostRuntime) {
    expect_told(&rt, rt.alloc(), ROM, JUDGES_TURNS);
}

#[test]
fn asks_for_room(rt: HostRuntime) {
    expect_told(&rt, rt.alloc(), ROM, ASKS_FOR_ROOM);
}

#[test]
fn makes_entries(rt: HostRuntime) {
    expect_told(&rt, rt.alloc(), ROM, MAKES_ENTRIES);
}
