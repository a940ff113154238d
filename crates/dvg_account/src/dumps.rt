//! How a dump of a ROM differs from the good one, and which single faults make it of that one.

ghost use Rattle.std.specs.Prelude.{◌≤◌, length};
ghost use Rattle.dvg_dumps.specs.declared.measuring.TheConstants.{MOST_BYTES};

use crate::text::Text;
use dvg_dumps::{
    AddressFault, DATA_LINES, DataFault, DumpFault, Level, LineFault, Measure, count, faults_of,
    front, is_level_where_different, lines_below, word_at,
};
use dvg_labels::Labels;
use dvg_words::MEMORY_LAST;
use std::alloc::{AllocError, Global};

/// The account of how another dump differs from the good one, as a text: in its length; in which data lines, at which levels of address
/// lines, by which single faults, and each word that differs, at its address, where the word at `first` is the dumps' first; or that they
/// are equal as far as both go. Labels name the addresses, if there are any.
pub fn dump_text(
    alloc: Global,
    good: &[u8],
    other: &[u8],
    first: u16,
    labels: Option<&Labels>,
) -> Result<String, AllocError>
    requires { length good.now ≤ MOST_BYTES }
{
    let mut text = Text::new(alloc, labels);
    push_lengths(&mut text, good, other);
    let bytes = count(Measure::Bytes, good, other);
    if bytes > 0 {
        push_data_lines(&mut text, good, other);
        push_address_lines(alloc, &mut text, good, other)?;
        push_faults(alloc, &mut text, good, other, bytes)?;
        push_words(&mut text, good, other, first);
    } else {
        text.push("equal as far as both go\n");
    }
    text.finish()
}

/// So many bytes.
fn push_bytes(text: &mut Text, bytes: u32) {
    text.push_decimal(bytes);
    text.push(if bytes == 1 { " byte" } else { " bytes" });
}

/// How long the dumps are, where they differ in that.
fn push_lengths(text: &mut Text, good: &[u8], other: &[u8])
    requires { length good.now ≤ MOST_BYTES }
{
    if good.len() == other.len() {
        return;
    }
    text.push("lengths: the ROM has ");
    push_bytes(text, good.len() as u32);
    text.push_number(", the other ", other.len());
    text.push_number(": the first ", front(good, other));
    text.push(" are compared\n");
}

/// In how many bytes each data line is low and should be high, and then the other way round.
fn push_data_lines(text: &mut Text, good: &[u8], other: &[u8])
    requires { length good.now ≤ MOST_BYTES }
{
    for line in DATA_LINES {
        let bytes = count(Measure::Lost(line), good, other);
        push_data_line(text, "lost: D", line, bytes);
    }
    for line in DATA_LINES {
        let bytes = count(Measure::Gained(line), good, other);
        push_data_line(text, "gained: D", line, bytes);
    }
}

fn push_data_line(text: &mut Text, label: &str, line: u16, bytes: u32) {
    if bytes > 0 {
        push_line(text, label, line);
        text.push(" in ");
        push_bytes(text, bytes);
        text.push("\n");
    }
}

/// A line by its number, behind a label.
fn push_line(text: &mut Text, label: &str, line: u16) {
    text.push_number(label, line.trailing_zeros());
}

/// The level that an address line has wherever the dumps differ, if it is one.
fn level_of(good: &[u8], other: &[u8], line: u16) -> Option<Level>
    requires { length good.now ≤ MOST_BYTES }
{
    if is_level_where_different(good, other, line, Level::High) {
        Some(Level::High)
    } else if is_level_where_different(good, other, line, Level::Low) {
        Some(Level::Low)
    } else {
        None
    }
}

/// Which address lines have one level wherever the dumps differ, the highest first.
fn push_address_lines(
    alloc: Global,
    text: &mut Text,
    good: &[u8],
    other: &[u8],
) -> Result<(), AllocError>
    requires { length good.now ≤ MOST_BYTES }
{
    let lines = lines_below(alloc, front(good, other))?;
    let mut any = false;
    for line in lines.iter().rev() {
        if let Some(level) = level_of(good, other, *line) {
            push_line(text, if any { ", A" } else { "addresses: A" }, *line);
            text.push(spelled(level, " low", " high"));
            any = true;
        }
    }
    if any {
        text.push("\n");
    }
    Ok(())
}

/// The one text for a low line, the other for a high one.
fn spelled<'a>(level: Level, low: &'a str, high: &'a str) -> &'a str {
    match level {
        Level::Low => low,
        Level::High => high,
    }
}

/// The single faults that make the other dump of the good one, or that none does.
fn push_faults(
    alloc: Global,
    text: &mut Text,
    good: &[u8],
    other: &[u8],
    bytes: u32,
) -> Result<(), AllocError>
    requires { length good.now ≤ MOST_BYTES }
{
    let faults = faults_of(alloc, good, other)?;
    for fault in &faults {
        text.push("fault: ");
        push_fault(text, *fault, good.len());
        text.push("\n");
    }
    if faults.is_empty() {
        text.push("not explained: ");
        push_bytes(text, bytes);
        text.push("\n");
    }
    Ok(())
}

/// A fault of a ROM of so many bytes.
fn push_fault(text: &mut Text, fault: DumpFault, bytes: usize) {
    match fault {
        DumpFault::Data(fault) => push_data_fault(text, fault),
        DumpFault::Address(fault) => push_address_fault(text, fault, bytes),
        DumpFault::Dead { line, level, all } => {
            push_line(text, "where A", line);
            text.push(spelled(level, " is low", " is high"));
            text.push(spelled(all, " all bytes are 00", " all bytes are FF"));
        }
    }
}

/// What is wrong with one or two lines of this kind, whose numbers stand behind this letter.
fn push_line_fault(text: &mut Text, kind: &str, letter: &str, fault: LineFault) {
    text.push(kind);
    match fault {
        LineFault::Stuck(line, level) => {
            text.push(" line ");
            push_line(text, letter, line);
            text.push(spelled(level, " is low", " is high"));
        }
        LineFault::Crossed(one, other) => {
            text.push(" lines ");
            push_line(text, letter, one);
            text.push(" and ");
            push_line(text, letter, other);
            text.push(" are crossed");
        }
    }
}

fn push_data_fault(text: &mut Text, fault: DataFault) {
    match fault {
        DataFault::Lines(fault) => push_line_fault(text, "data", "D", fault),
        DataFault::Inverted => text.push("all data lines are inverted"),
        DataFault::Blank(level) => {
            text.push(spelled(level, "all bytes are 00", "all bytes are FF"));
        }
    }
}

fn push_address_fault(text: &mut Text, fault: AddressFault, bytes: usize) {
    match fault {
        AddressFault::Lines(fault) => push_line_fault(text, "address", "A", fault),
        AddressFault::Inverted(line) => push_inverted(text, line, bytes),
        AddressFault::Later(distance) => push_shifted(text, distance, "further on"),
        AddressFault::Earlier(distance) => push_shifted(text, distance, "before"),
    }
}

/// That an address line is inverted, which may be the last one of a ROM of so many bytes.
fn push_inverted(text: &mut Text, line: u16, bytes: usize) {
    if line == 1 {
        text.push("the bytes of each word are exchanged");
    } else if 2 * usize::from(line) == bytes {
        text.push("the halves are exchanged");
    } else {
        push_line(text, "address line A", line);
        text.push(" is inverted");
    }
}

/// That each byte comes from so many bytes away.
fn push_shifted(text: &mut Text, distance: u8, direction: &str) {
    text.push("each byte is that of one ");
    text.push(if distance == 1 { "byte " } else { "word " });
    text.push(direction);
}

/// Where the word at an index lies, and that it holds what follows: its address, if a ROM may have it, or else the places of its bytes.
fn push_place(text: &mut Text, first: u16, index: u16) {
    let addr = first.saturating_add(index);
    if addr <= MEMORY_LAST {
        text.push_addressed("word: ", addr);
        text.push(" holds ");
    } else {
        let place = 2 * usize::from(index);
        text.push_number("word: bytes ", place);
        text.push_number(" and ", place + 1);
        text.push(" hold ");
    }
}

/// Each word that differs.
fn push_words(text: &mut Text, good: &[u8], other: &[u8], first: u16)
    requires { length good.now ≤ MOST_BYTES }
{
    for index in 0..(front(good, other) / 2) as u16 {
        if let (Some(word), Some(changed)) = (word_at(good, index), word_at(other, index)) {
            if word != changed {
                push_place(text, first, index);
                text.push_word(word);
                text.push(", in the other ");
                text.push_word(changed);
                text.push("\n");
            }
        }
    }
}
