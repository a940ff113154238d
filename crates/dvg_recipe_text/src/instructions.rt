//! Instructions that a recipe gives word by word.

ghost use Rattle.std.specs.Prelude.{◌<◌, IfSome};

use crate::fault::RecipeTextWhy;
use crate::words::Words;
use dvg_recipe::PieceKind;
use dvg_text::read_address;
use dvg_words::{ADDRESS_END, Instr, Machine, decode_on, is_long};
use std::alloc::Global;

/// The value of a capital hexadecimal digit.
fn value_of(digit: u8) -> Option<u16>
    ensures { IfSome result (λ value. value < 16) }
{
    match digit {
        b'0'..=b'9' => Some(u16::from(digit - b'0')),
        b'A'..=b'F' => Some(u16::from(digit - b'A' + 10)),
        _ => None,
    }
}

/// The word that four hexadecimal digits in capitals spell.
fn word_of(digits: &[u8]) -> Option<u16> {
    let (first, rest) = digits.split_first()?;
    Some(ADDRESS_END * value_of(*first)? + read_address(rest)?)
}

/// The piece of a draw, a LABS or a JSRL, behind which the next one stands; `None` for what else two words may be.
fn piece_of(first: u16, second: u16) -> Option<PieceKind> {
    match decode_on(Machine::Board, first, second)? {
        Instr::Draw(_) | Instr::Labs { .. } | Instr::Jsrl { .. } => {
            Some(PieceKind::Fixed { first, second })
        }
        _ => None,
    }
}

/// The instructions that words spell, at least one.
pub fn read_instructions(alloc: Global, words: Words<'_>) -> Result<Vec<PieceKind>, RecipeTextWhy> {
    let mut kinds = Vec::new(alloc);
    let mut begun = None;
    for digits in words {
        let word = word_of(digits).ok_or(RecipeTextWhy::Form)?;
        let kind = match begun {
            Some(first) => piece_of(first, word),
            None if is_long(word) => {
                begun = Some(word);
                continue;
            }
            None => piece_of(word, 0),
        };
        kinds.push(kind.ok_or(RecipeTextWhy::Form)?)?;
        begun = None;
    }
    if kinds.is_empty() || begun.is_some() {
        return Err(RecipeTextWhy::Form);
    }
    Ok(kinds)
}
