//! A recipe that is read line by line.

ghost use Rattle.std.specs.Prelude.{◌≡◌, ◌⊎◌, ◌<◌, ◌≤◌, ◌+◌, IfOk, IfErr, IfSome, OnOk, length};
ghost use Rattle.dvg_words.specs.declared.map.TheConstants.{ADDRESS_END};
ghost use Rattle.dvg_recipe_text.specs.declared.limits.TheConstants.{MOST_LINES};

use crate::blocks::{BlockKind, Blocks};
use crate::fault::{RecipeTextFault, RecipeTextWhy};
use crate::instructions::read_instructions;
use crate::limits::{FIRST_LINE, LONGEST_LINE, MOST_LINES};
use crate::line::{Line, read_line};
use crate::lines::{are_printable, meaning};
use crate::names::Names;
use crate::sequence::{Balanced, Joint};
use crate::words::Words;
use dvg_labels::Labels;
use dvg_recipe::{
    Area, Jump, MOST_LISTS, MOST_OPTIONS, MOST_PIECES, Part, Piece, PieceKind, Recipe,
    piece_options,
};
use dvg_words::RAM_WORDS;
use std::alloc::Global;

/// Which lines may stand next.
#[derive(Clone, Copy)]
enum Stage {
    /// The first line.
    First,
    /// Lists, and, where there is one, shapes and items.
    Lists,
    /// Shapes and items.
    Shapes,
    /// Items, blocks, jumps and the HALT.
    Items,
    /// Only what means nothing.
    Halted,
}

/// A JMPL whose area is read.
#[derive(Clone, Copy)]
struct Ahead {
    number: u16,
    area: Area,
}

/// A recipe, and where its pieces stand in its text.
#[derive(Drop)]
pub struct ReadRecipe {
    pub recipe: Recipe,
    /// The line, counted from 1, of each piece, in the order of the pieces' numbers, which count from 0. The HALT's is the last.
    pub lines: Vec<u16>,
}

/// The number of the last piece, by the lines of all.
fn last_of(lines: &[u16]) -> Option<u16>
    ensures { IfSome result (λ number. length lines.now ≡ number + 1) }
{
    u16::try_from(lines.len().checked_sub(1)?).ok()
}

/// What the lines so far say.
#[derive(Drop)]
pub struct Reader<'a> {
    alloc: Global,
    stage: Stage,
    names: Names<'a>,
    lists: Vec<Area>,
    /// The word address behind all areas so far.
    behind: u16,
    /// What stands in the lists, once it is whole.
    body: Option<Part>,
    /// The jumps whose areas are whole.
    jumps: Vec<Jump>,
    /// The jump in whose area the next line stands.
    ahead: Option<Ahead>,
    blocks: Blocks,
    /// The line of each piece so far, in the order of their numbers.
    lines: Vec<u16>,
    /// How many instructions there are to choose from so far, the repeats written out.
    options: u64,
}

impl<'a> Reader<'a> {
    /// No line so far. Takes no memory.
    pub fn new(alloc: Global, labels: Option<&'a Labels>) -> Reader<'a> {
        Reader {
            alloc,
            stage: Stage::First,
            names: Names::new(alloc, labels),
            lists: Vec::new(alloc),
            behind: 0,
            body: None,
            jumps: Vec::new(alloc),
            ahead: None,
            blocks: Blocks::new(alloc),
            lines: Vec::new(alloc),
            options: 0,
        }
    }

    /// How many blocks are open.
    pub fn depth(&self) -> usize {
        self.blocks.depth()
    }

    /// The address that a word stands for as the name of a label, behind the lines so far.
    pub fn label_of(&self, word: &[u8]) -> Option<u16>
        ensures { IfSome result (λ addr. addr < ADDRESS_END) }
    {
        self.names.label_of(word)
    }

    /// Takes a line of this number, which comes without its LF.
    pub fn take_line(&mut self, number: u32, bytes: &[u8]) -> Result<(), RecipeTextWhy>
        ensures { OnOk result (number ≤ MOST_LINES) }
    {
        if bytes.len() >= LONGEST_LINE {
            return Err(RecipeTextWhy::LineTooLong);
        }
        if number > MOST_LINES {
            return Err(RecipeTextWhy::TooManyLines);
        }
        if !are_printable(bytes) {
            return Err(RecipeTextWhy::Form);
        }
        if let Stage::First = self.stage {
            return self.take_first(bytes);
        }
        match meaning(bytes) {
            Some(text) => self.take_text(number as u16, text),
            None => Ok(()),
        }
    }

    fn take_first(&mut self, bytes: &[u8]) -> Result<(), RecipeTextWhy> {
        if bytes != FIRST_LINE.as_slice() {
            return Err(RecipeTextWhy::Form);
        }
        self.stage = Stage::Lists;
        Ok(())
    }

    /// Takes a line that means something.
    fn take_text(&mut self, number: u16, text: &[u8]) -> Result<(), RecipeTextWhy> {
        if let Stage::Halted = self.stage {
            return Err(RecipeTextWhy::After);
        }
        let Some(line) = read_line(text) else {
            return Err(RecipeTextWhy::Form);
        };
        match (self.stage, line) {
            (Stage::Lists, Line::List(area)) => self.take_list(area),
            _ if self.lists.is_empty() => Err(RecipeTextWhy::Form),
            (Stage::Lists | Stage::Shapes, Line::Shapes(name, words)) => {
                self.stage = Stage::Shapes;
                self.names.define(self.alloc, name, words)
            }
            _ => {
                self.stage = Stage::Items;
                self.take_item(number, line)
            }
        }
    }

    /// Takes an area, which has to stand behind all areas above.
    fn take_area(&mut self, area: Area) -> Result<(), RecipeTextWhy> {
        if area.first < self.behind || area.last < area.first || area.last >= RAM_WORDS {
            return Err(RecipeTextWhy::Form);
        }
        self.behind = area.last + 1;
        Ok(())
    }

    fn take_list(&mut self, area: Area) -> Result<(), RecipeTextWhy> {
        if self.lists.len() >= MOST_LISTS {
            return Err(RecipeTextWhy::Form);
        }
        self.take_area(area)?;
        self.lists.push(area)?;
        Ok(())
    }

    /// Takes an item, a line of a block, a jump or the HALT.
    fn take_item(&mut self, number: u16, line: Line<'_>) -> Result<(), RecipeTextWhy> {
        match line {
            Line::List(_) | Line::Shapes(_, _) => Err(RecipeTextWhy::Form),
            Line::Place(range) => self.take_piece(number, PieceKind::Place(range)),
            Line::Call(words) => {
                let targets = self.names.targets(self.alloc, words)?;
                self.take_piece(number, PieceKind::Call(targets))
            }
            Line::Words(words) => self.take_instructions(number, words),
            Line::Draw(range) => self.take_piece(number, PieceKind::Draw(range)),
            Line::Either => {
                let kind = BlockKind::Either(Balanced::new(self.alloc, Joint::Either));
                self.blocks.open(self.alloc, kind)
            }
            Line::Or => self.blocks.next_branch(self.alloc),
            Line::End => self.blocks.close(self.alloc),
            Line::Repeat { least, most } => {
                self.blocks
                    .open(self.alloc, BlockKind::Repeat { least, most })
            }
            Line::Jump(area) => self.take_jump(number, area),
            Line::Halt => self.take_halt(number),
        }
    }

    /// Gives a piece at a line the next number.
    fn take_number(&mut self, line: u16) -> Result<u16, RecipeTextWhy> {
        if self.lines.len() >= usize::from(MOST_PIECES) {
            return Err(RecipeTextWhy::TooManyPieces);
        }
        let number = self.lines.len() as u16;
        self.lines.push(line)?;
        Ok(number)
    }

    fn take_piece(&mut self, line: u16, kind: PieceKind) -> Result<(), RecipeTextWhy> {
        let number = self.take_number(line)?;
        self.count_options(&kind)?;
        self.blocks.push_piece(Piece { number, kind })?;
        Ok(())
    }

    /// Counts the options of a piece.
    fn count_options(&mut self, kind: &PieceKind) -> Result<(), RecipeTextWhy> {
        let more = u64::from(self.blocks.turns()).saturating_mul(piece_options(kind));
        self.options = self.options.saturating_add(more);
        if self.options > MOST_OPTIONS {
            return Err(RecipeTextWhy::TooManyOptions);
        }
        Ok(())
    }

    fn take_instructions(&mut self, line: u16, words: Words<'_>) -> Result<(), RecipeTextWhy> {
        for kind in read_instructions(self.alloc, words)? {
            self.take_piece(line, kind)?;
        }
        Ok(())
    }

    /// Ends what stands in the lists, or in the area of a jump.
    fn end_area(&mut self) -> Result<(), RecipeTextWhy> {
        let body = self.blocks.take(self.alloc)?;
        match self.ahead {
            None => self.body = Some(body),
            Some(Ahead { number, area }) => self.jumps.push(Jump { number, area, body })?,
        }
        Ok(())
    }

    fn take_jump(&mut self, line: u16, area: Area) -> Result<(), RecipeTextWhy> {
        self.end_area()?;
        self.take_area(area)?;
        let number = self.take_number(line)?;
        self.ahead = Some(Ahead { number, area });
        Ok(())
    }

    fn take_halt(&mut self, line: u16) -> Result<(), RecipeTextWhy> {
        self.end_area()?;
        self.take_number(line)?;
        self.stage = Stage::Halted;
        Ok(())
    }

    /// The recipe of a text whose last line with an LF was taken. `line` is that behind it, which is to have no byte.
    pub fn finish(self, line: u32, rest: &[u8]) -> Result<ReadRecipe, RecipeTextFault>
        ensures lines { IfOk result (λ read. length read.lines.items ≡ read.recipe.halt + 1) }
        ensures line { IfErr result (λ fault. (fault.line ≡ 1) ⊎ (fault.line ≡ line)) }
    {
        let Reader {
            stage,
            lists,
            body,
            jumps,
            lines,
            ..
        } = self;
        let why = if rest.len() >= LONGEST_LINE {
            RecipeTextWhy::LineTooLong
        } else {
            RecipeTextWhy::Unended
        };
        let (Stage::Halted, [], Some(body), Some(halt)) = (stage, rest, body, last_of(&lines))
        else {
            return Err(RecipeTextFault { line, why });
        };
        match Recipe::new(lists, body, jumps, halt) {
            Some(recipe) => Ok(ReadRecipe { recipe, lines }),
            // no text comes here, by tests: each limit of a recipe was asked for at its line
            None => Err(RecipeTextFault {
                line: 1,
                why: RecipeTextWhy::Form,
            }),
        }
    }
}
