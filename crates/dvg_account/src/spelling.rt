//! How the pieces of an account are spelled.

use crate::piece::Piece;
use crate::swapped::Swapped;
use crate::text::Text;
use dvg_check::{Edge, Leaving, Yes};
use dvg_items::Item;
use dvg_make::FrameRefusal;
use dvg_spelling::{Answer, Report, Rule, own_rule_of, rule_of};
use dvg_words::{Draw, Format, Instr, RomMap};

/// Whose the certificate is that an account speaks of.
#[derive(Clone, Copy)]
pub enum CertificateOf {
    /// The one that was given.
    User,
    /// The frame's own, which nobody has to change.
    Frame,
}

/// What the words of an account depend on: who made the certificate, and which input has its bytes swapped, if one has.
#[derive(Clone, Copy)]
pub struct Telling {
    pub cert: CertificateOf,
    pub swapped: Option<Swapped>,
    /// What stands before each key.
    pub before_keys: &'static str,
}

impl Telling {
    /// An account that speaks of this certificate, and of these bytes that are to be swapped.
    pub fn new(cert: CertificateOf, swapped: Option<Swapped>) -> Telling {
        Telling {
            cert,
            swapped,
            before_keys: "",
        }
    }

    /// The text of a number's rule.
    fn rule(self, number: u8) -> Option<Rule> {
        match self.cert {
            CertificateOf::User => rule_of(number),
            CertificateOf::Frame => own_rule_of(number),
        }
    }
}

/// How many labels were passed over, if any were.
pub fn push_passed(text: &mut Text, passed: usize) {
    if passed > 0 {
        text.begin_line("", "labels passed over");
        text.push_decimal(passed);
        text.push(", not the address of a word in 4000 to 57FF");
    }
}

/// The line of what is accepted with the bytes of its words swapped.
pub fn push_swapped(text: &mut Text, swapped: Swapped) {
    text.begin_line("", "swapped bytes");
    text.push("with the two bytes of each word of ");
    text.push(whose_bytes(swapped));
    text.push(" swapped it is accepted: the low byte comes first");
}

/// The input whose bytes are to be swapped.
fn whose_bytes(swapped: Swapped) -> &'static str {
    match swapped {
        Swapped::Frame => "the frame",
        Swapped::Rom => "the ROM",
        Swapped::Both => "the ROM and of the frame",
    }
}

/// Adds a piece: behind a key what tells, and between the words as they are.
pub fn push_piece(text: &mut Text, telling: Telling, piece: &Piece) {
    match piece {
        Piece::Line(key) => text.begin_line(telling.before_keys, key),
        Piece::ToDo => push_to_do(text, telling.swapped),
        Piece::Text(words) => text.push(words),
        Piece::Number(number) => text.push_decimal(*number),
        Piece::Bytes(bytes, most) => push_bytes(text, *bytes, *most),
        Piece::Address(addr) => text.push_address(*addr),
        Piece::BareAddress(addr) => text.push_hex_address(*addr),
        Piece::At(addr) => push_at(text, *addr),
        Piece::Word(word) => text.push_word(*word),
        Piece::Instruction(item) => push_instruction(text, item),
        Piece::Item(item) => push_item(text, item),
        Piece::Name(addr, key) => text.push_entry_name(*addr, *key),
        Piece::Entry(entry) => text.push_entry(entry),
        Piece::End(end) => text.push_end(*end),
        Piece::Key(key) => text.push_key(*key),
        Piece::Place(place) => text.push_place(*place),
        Piece::Scale(scale) => text.push_scale(*scale),
        Piece::Point(point) => text.push_point(point.x, point.y),
        Piece::PastWindow(leaving) => push_past(text, leaving, " edge of the window, "),
        Piece::PastBox(leaving) => push_past(text, leaving, " edge of the claimed box, "),
        Piece::Within(lit) => text.push_extent(lit),
        Piece::Distance(distance) => text.push_distance(*distance),
        Piece::Rule(number) => push_rule(text, telling, *number),
        Piece::Cure(number) => push_cure(text, telling, *number),
        Piece::OrHalt => text.push(", or, where the list is to end here, end it with HALT"),
        Piece::Fitting(map, bytes) => push_fitting(text, telling.cert, *map, *bytes),
        Piece::Answer(answer) => push_answer(text, answer),
        Piece::Expected(expected) => text.push(expected),
    }
}

/// Begins the line of what to do. Bytes that are accepted if swapped are to be swapped first.
fn push_to_do(text: &mut Text, swapped: Option<Swapped>) {
    text.begin_line("", "what to do");
    if let Some(swapped) = swapped {
        text.push("swap the two bytes of each word of ");
        text.push(whose_bytes(swapped));
        text.push("; or, if they are right as they are, ");
    }
}

/// How many bytes an input has, or that they are more than the most: of those behind them one was read.
fn push_bytes(text: &mut Text, bytes: usize, most: usize) {
    if bytes > most {
        text.push("more than ");
    }
    text.push_decimal(bytes.min(most));
    text.push(" bytes");
}

/// A number and its meaning, if it has one.
fn push_rule(text: &mut Text, telling: Telling, number: u8) {
    text.push_decimal(number);
    if let Some(rule) = telling.rule(number) {
        text.push(" ");
        text.push(rule.meaning);
    }
}

/// What to do about a number, if it has a meaning; and what else may be done where a claim of the certificate doesn't hold.
fn push_cure(text: &mut Text, telling: Telling, number: u8) {
    if let Some(rule) = telling.rule(number) {
        text.push(rule.cure);
    }
    if matches!(number, 26..=33) {
        text.push(
            "; this ROM may not be the one for which the certificate was made: compare both ROMs by `dvgcheck explain diff`",
        );
    }
}

/// The words of a ROM that lies here; and of so many bytes in their place where a shorter ROM may lie, if no certificate says where, or
/// what may stand in front of a longer one.
fn push_fitting(text: &mut Text, cert: CertificateOf, map: RomMap, bytes: usize) {
    let (first, last) = (map.first(), map.last());
    let whole = 2 * (u32::from(last).saturating_sub(u32::from(first)) + 1);
    text.push_address(first);
    text.push_addressed(" to ", last);
    text.push_number(" are ", whole);
    text.push(" bytes");
    match (cert, last_of(map, bytes)) {
        (CertificateOf::Frame, Some(last)) => {
            text.push_addressed("; if it begins at ", first);
            text.push(", say `--rom ");
            text.push_hex_address(first);
            text.push("/");
            text.push_hex_address(last);
            text.push("`");
        }
        _ if bytes == whole as usize + 2 => {
            text.push("; a load address of two bytes may stand in front of it")
        }
        _ => {}
    }
}

/// The address of the last word of so many bytes, if they are whole words, and fewer than those of a ROM that lies here.
fn last_of(map: RomMap, bytes: usize) -> Option<u16> {
    let words = u16::try_from(bytes / 2).ok()?;
    let last = map.first().checked_add(words)?.checked_sub(1)?;
    if bytes % 2 == 1 || words == 0 || map.last() <= last {
        return None;
    }
    Some(last)
}

/// The answer to a frame, as its line has it.
fn push_answer(text: &mut Text, answer: &Result<Yes, FrameRefusal>) {
    let answer = Answer::Judged(*answer);
    let mut line = Report::new();
    answer.push_to(&mut line);
    text.push_ascii(line.as_bytes());
}

/// Where an item stands: its word address, and the processor's address of its first byte.
fn push_at(text: &mut Text, at: u16) {
    text.push_address(at);
    text.push(", processor address ");
    text.push_word(at.wrapping_mul(2).wrapping_add(0x4000));
}

/// An item: its word address and its instruction.
fn push_item(text: &mut Text, item: &Item) {
    text.push_address(item.at);
    text.push(" ");
    push_instruction(text, item);
}

/// The instruction of an item by its fields.
fn push_instruction(text: &mut Text, item: &Item) {
    match item.instr {
        Instr::Draw(draw) => push_draw(text, item.format, &draw),
        Instr::Labs { x, y, gscale } => {
            text.push_number("LABS Y ", signed_field(y));
            text.push_number(", global scale ", gscale);
            text.push_number(", X ", signed_field(x));
        }
        Instr::Halt => text.push("HALT"),
        Instr::Jsrl { to } => text.push_addressed("JSRL address ", to),
        Instr::Rtsl => text.push("RTSL"),
        Instr::Jmpl { to } => text.push_addressed("JMPL address ", to),
    }
}

/// A field of a LABS as a number of screen places. One over 2047, which the board alone loads, is below 0.
fn signed_field(field: u16) -> i32 {
    if field > 2047 {
        i32::from(field) - 4096
    } else {
        i32::from(field)
    }
}

/// A draw by its fields. The scale code of an SVEC is its local scale less 2, and its sizes are 256 times its two-bit numbers.
fn push_draw(text: &mut Text, format: Format, draw: &Draw) {
    match format {
        Format::Long => {
            text.push("VCTR local scale ");
            push_fields(text, draw.lscale, draw.dy, draw.bright, draw.dx);
        }
        Format::Short => {
            text.push("SVEC scale code ");
            let code = draw.lscale.saturating_sub(2);
            push_fields(text, code, draw.dy / 256, draw.bright, draw.dx / 256);
        }
    }
}

fn push_fields(text: &mut Text, scale: u8, y: i16, intensity: u8, x: i16) {
    text.push_decimal(scale);
    text.push_number(", Y ", y);
    text.push_number(", intensity ", intensity);
    text.push_number(", X ", x);
}

/// A corner, which edge it is past, of what, where the edge is, and by how much.
fn push_past(text: &mut Text, leaving: &Leaving, edge_of: &str) {
    let Leaving { corner, edge, by } = *leaving;
    let size = i64::try_from(by).unwrap_or(i64::MAX);
    let (past, at) = match edge {
        Edge::Left => (" is past the left", corner.x.wrapping_add(size)),
        Edge::Right => (" is past the right", corner.x.wrapping_sub(size)),
        Edge::Bottom => (" is past the bottom", corner.y.wrapping_add(size)),
        Edge::Top => (" is past the top", corner.y.wrapping_sub(size)),
    };
    text.push_point(corner.x, corner.y);
    text.push(past);
    text.push(edge_of);
    text.push(match edge {
        Edge::Left | Edge::Right => "X ",
        Edge::Bottom | Edge::Top => "Y ",
    });
    text.push_coordinate(at);
    text.push(", by ");
    text.push_distance(by);
}
