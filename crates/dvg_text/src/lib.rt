//! The text of certificates: its grammar, its reader and writer; where a refused line leaves the form; devices that count their failures; and writers of lines.
#![tactic(auto)]

mod counted;
mod eight_digits;
mod fault;
mod fields;
pub mod laws;
mod leaving;
mod limits;
mod line;
mod line_buffer;
mod lines;
mod nearest;
mod numerals;
mod reader;
mod refused;
mod taken;
mod tokens;
mod writer;

pub use counted::{Counted, CountedRead, CountedWrite};
pub use fault::WriteFault;
pub use leaving::{FormLeaving, first_leaving, later_leaving, rom_leaving};
pub use limits::MOST_AT_ONCE;
pub use line_buffer::push_bytes;
pub use lines::write_lines;
pub use numerals::{address_digits, read_address, read_decimal, read_key};
pub use reader::{CertReader, read_cert};
pub use refused::{EntryCounts, LineWhy, RefusedText, counts_of};
pub use writer::{write_bytes, write_cert};
