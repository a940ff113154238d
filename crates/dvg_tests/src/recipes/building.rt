//! Recipes as values, put together from their parts: those that no text spells.

use dvg_recipe::{Area, Part, Piece, PieceKind, Recipe, Span};
use std::alloc::{AllocError, Global};

/// The numbers from one to another.
pub fn span(low: i16, high: i16) -> Span {
    Span { low, high }
}

/// A row of one piece of this number.
pub fn row(alloc: Global, number: u16, kind: PieceKind) -> Result<Part, AllocError> {
    let mut row = Vec::new(alloc);
    row.push(Piece { number, kind })?;
    Ok(Part::Row(row))
}

/// A part, at least and at most so many times.
pub fn repeat(alloc: Global, least: u16, most: u16, body: Part) -> Result<Part, AllocError> {
    let body = Box::new(alloc, body)?;
    Ok(Part::Repeat { least, most, body })
}

/// A row of a call of a shape, of this number.
pub fn shape(alloc: Global, number: u16) -> Result<Part, AllocError> {
    let targets = Vec::from_slice(alloc, &[0x820])?;
    row(alloc, number, PieceKind::Call(targets))
}

/// A call in repeats, one in another.
pub fn nested(alloc: Global, levels: u16, least: u16, most: u16) -> Result<Part, AllocError> {
    let mut part = shape(alloc, 0)?;
    for _ in 0..levels {
        part = repeat(alloc, least, most, part)?;
    }
    Ok(part)
}

/// The recipe of lists in these areas, with no jump.
pub fn straight(
    alloc: Global,
    areas: &[(u16, u16)],
    body: Part,
    halt: u16,
) -> Result<Option<Recipe>, AllocError> {
    let mut lists = Vec::new(alloc);
    for &(first, last) in areas {
        lists.push(Area { first, last })?;
    }
    Ok(Recipe::new(lists, body, Vec::new(alloc), halt))
}
