//! Lines of a recipe's text that was read.

use std::alloc::{AllocError, Global};

/// Whether a line tells of a list that does not begin at word 000.
fn is_list_elsewhere(line: &[u8]) -> bool {
    let words = line.trim_ascii_start();
    words.starts_with(b"list ") && !words.starts_with(b"list 000 ")
}

/// The line, counted from 1, of the first list in a text that does not begin at word 000; 1 if there is none.
pub fn line_of_list(text: &[u8]) -> u32 {
    let mut number = 0u32;
    for line in text.split(|byte| *byte == b'\n') {
        number = number.saturating_add(1);
        if is_list_elsewhere(line) {
            return number;
        }
    }
    1
}

/// The blocks around a line, the outermost first: of a repeat its line, counted from 1.
pub fn blocks_around(
    alloc: Global,
    text: &[u8],
    line: u32,
) -> Result<Vec<Option<u32>>, AllocError> {
    let mut open = Vec::new(alloc);
    let mut number = 0u32;
    for bytes in text.split(|byte| *byte == b'\n') {
        number = number.saturating_add(1);
        if number == line {
            break;
        }
        let words = bytes.trim_ascii_start();
        if words == b"either".as_slice() {
            open.push(None)?;
        } else if words.starts_with(b"repeat ") {
            open.push(Some(number))?;
        } else if words == b"end".as_slice() {
            open.pop();
        }
    }
    Ok(open)
}
