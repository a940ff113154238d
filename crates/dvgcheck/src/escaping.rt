//! Control characters of the command line, escaped in what `clap` says and in names of files.

use std::alloc::{AllocError, Global};

/// The arguments with NUL, which no argument can hold, for each of their LFs: so no LF in a text about them is one of theirs.
pub fn marked(alloc: Global, arguments: &[String]) -> Result<Vec<String>, AllocError> {
    let mut marked = Vec::new(alloc);
    for argument in arguments {
        let mut copy = String::new(alloc);
        for c in argument.as_str().chars() {
            copy.push(if c == '\n' { '\0' } else { c })?;
        }
        marked.push(copy)?;
    }
    Ok(marked)
}

/// A text about marked arguments, for the user. Each control character is as Rust escapes it, `\n`, `\t`, `\r` or `\u{1b}`; NUL is
/// escaped as LF, and the text's own LFs stay.
pub fn escaped(alloc: Global, text: &str) -> Result<String, AllocError> {
    let mut escaped = String::new(alloc);
    for c in text.chars() {
        push_escaped(&mut escaped, c)?;
    }
    Ok(escaped)
}

/// A name that the command line gave, for the lines about its file: each control character is as Rust escapes it, LF too.
pub fn shown(alloc: Global, name: &str) -> Result<String, AllocError> {
    let mut shown = String::new(alloc);
    for c in name.chars() {
        push_shown(&mut shown, c)?;
    }
    Ok(shown)
}

fn push_escaped(text: &mut String, c: char) -> Result<(), AllocError> {
    match c {
        '\n' => text.push(c),
        '\0' => text.push_str("\\n"),
        _ => push_shown(text, c),
    }
}

fn push_shown(text: &mut String, c: char) -> Result<(), AllocError> {
    if c.is_control() {
        write!(text, "{}", c.escape_default())
    } else {
        text.push(c)
    }
}
