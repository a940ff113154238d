//! What a line says.

use crate::names::is_name;
use crate::words::Words;
use dvg_recipe::{Area, DrawRange, MOST_TURNS, PlaceRange, PlaceSpan, Span};
use dvg_words::Format;

/// What a line says, by itself.
#[derive(Clone, Copy)]
pub enum Line<'a> {
    List(Area),
    /// A name, and the words of what it stands for.
    Shapes(&'a [u8], Words<'a>),
    Place(PlaceRange),
    /// The words of what is called.
    Call(Words<'a>),
    /// The words of the instructions.
    Words(Words<'a>),
    Draw(DrawRange),
    Either,
    Or,
    End,
    Repeat { least: u16, most: u16 },
    Jump(Area),
    Halt,
}

fn area(words: &mut Words<'_>) -> Option<Area> {
    let area = words.area()?;
    words.ended(area)
}

fn shapes<'a>(words: &mut Words<'a>) -> Option<Line<'a>> {
    let name = words.next()?;
    is_name(name).then_some(Line::Shapes(name, *words))
}

fn take_places(words: &mut Words<'_>) -> Option<PlaceSpan> {
    let x = words.span(-2048, 2047)?;
    let y = words.span(-2048, 2047)?;
    Some(PlaceSpan { x, y })
}

/// Global scales in ascending order, at least one.
fn scales(words: &mut Words<'_>) -> Option<[bool; 16]> {
    let mut scales = [false; 16];
    let mut least = 0;
    'taking: for _ in 0..16 {
        let scale = words.natural(15)?;
        if scale < least {
            return None;
        }
        scales[usize::from(scale)] = true;
        least = scale + 1;
        if words.is_done() {
            return Some(scales);
        }
    }
    None
}

fn place<'a>(words: &mut Words<'a>) -> Option<Line<'a>> {
    let PlaceSpan { x, y } = take_places(words)?;
    words.literal(b"scale")?;
    let scales = scales(words)?;
    Some(Line::Place(PlaceRange { x, y, scales }))
}

/// The sizes of a draw behind a word: of a VCTR as they are, of an SVEC in its steps of 256.
fn sizes(words: &mut Words<'_>, axis: &[u8], format: Format) -> Option<Span> {
    words.literal(axis)?;
    match format {
        Format::Long => words.span(-1023, 1023),
        Format::Short => {
            let Span { low, high } = words.span(-3, 3)?;
            Some(Span {
                low: 256 * low,
                high: 256 * high,
            })
        }
    }
}

fn lscale(words: &mut Words<'_>, format: Format) -> Option<u8> {
    match format {
        Format::Long => Some(words.natural(9)? as u8),
        Format::Short => Some(words.natural(3)? as u8 + 2),
    }
}

/// A draw of a format, without the rectangle to which it has to lead.
fn draw_range(words: &mut Words<'_>, format: Format) -> Option<DrawRange> {
    let lscale = lscale(words, format)?;
    let dx = sizes(words, b"x", format)?;
    let dy = sizes(words, b"y", format)?;
    words.literal(b"bright")?;
    let bright = words.span(0, 15)?;
    Some(DrawRange {
        format,
        lscale,
        dx,
        dy,
        bright,
        to: None,
    })
}

fn svec<'a>(words: &mut Words<'a>) -> Option<Line<'a>> {
    let range = draw_range(words, Format::Short)?;
    words.ended(Line::Draw(range))
}

fn vctr<'a>(words: &mut Words<'a>) -> Option<Line<'a>> {
    let range = draw_range(words, Format::Long)?;
    if words.is_done() {
        return Some(Line::Draw(range));
    }
    words.literal(b"to")?;
    let to = Some(take_places(words)?);
    words.ended(Line::Draw(DrawRange { to, ..range }))
}

fn repeat<'a>(words: &mut Words<'a>) -> Option<Line<'a>> {
    let least = words.natural(MOST_TURNS)?;
    let most = words.natural(MOST_TURNS)?;
    let line = words.ended(Line::Repeat { least, most })?;
    (least <= most && 0 < most).then_some(line)
}

/// What a line says, without the spaces before it. `None` if it is of none of the forms.
pub fn read_line(line: &[u8]) -> Option<Line<'_>> {
    let mut words = Words::of(line);
    match words.next()? {
        b"list" => Some(Line::List(area(&mut words)?)),
        b"shapes" => shapes(&mut words),
        b"place" => place(&mut words),
        b"call" => Some(Line::Call(words)),
        b"words" => Some(Line::Words(words)),
        b"vctr" => vctr(&mut words),
        b"svec" => svec(&mut words),
        b"either" => words.ended(Line::Either),
        b"or" => words.ended(Line::Or),
        b"end" => words.ended(Line::End),
        b"repeat" => repeat(&mut words),
        b"jump" => Some(Line::Jump(area(&mut words)?)),
        b"halt" => words.ended(Line::Halt),
        _ => None,
    }
}
