//! Why a label file is refused, and why a name names no word.

use thiserror::Error;

/// Why a label file is refused. Lines are counted from 1.
#[derive(Clone, Copy, Debug, PartialEq, Eq, Error)]
pub enum LabelFault {
    /// It has more than 1,048,576 bytes.
    #[error("the file is too long")]
    TooLong,
    /// A line is of none of the forms (docs/LABELS.md).
    #[error("line {line}: the line is of none of the forms of label files")]
    Form { line: u32 },
    /// The label of a line is the 65,537th.
    #[error("line {line}: there are too many labels")]
    TooMany { line: u32 },
    /// There was no memory for the label of a line.
    #[error("line {line}: there is no memory for the label")]
    Memory { line: u32 },
}

/// Why a name names no word address.
#[derive(Clone, Copy, Debug, PartialEq, Eq, Error)]
pub enum Unnamed {
    /// No label of a word has the name.
    #[error("no such label")]
    Unknown,
    /// Labels with this name stand at several word addresses.
    #[error("the label stands at several addresses")]
    Several,
}
