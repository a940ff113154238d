//! Certificates of vector ROM shapes: their entries, with limits and order, and how the entry that a call names is found. Their text
//! is in `dvg_text`.
#![tactic(auto)]

mod certificate;
mod entry;
mod fault;
mod hash_index;
pub mod laws;
mod limits;
mod lookup;

pub use certificate::{Cert, certificate_unchecked, is_entry, is_key, is_key_before, stands_after};
pub use entry::{End, Entry, Key, LitBox};
pub use fault::{CertFault, CertWhy};
pub use hash_index::HashIndex;
pub use limits::{MOST_DEPTH, MOST_ENTRIES, MOST_NUMBER, MOST_WORDS};
pub use lookup::{Entries, ListIndex};
