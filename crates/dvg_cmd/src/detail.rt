//! What a run writes of an answer: its line, or its line and an account of it.

ghost use Rattle.std.specs.Prelude.{◌≡◌};
ghost use Rattle.dvg_cmd.specs.Detail.{behind_text, has_account, outcome_behind};

use dvg_labels::Labels;
use dvg_spelling::Outcome;
use std::alloc::AllocError;

/// What a run writes of an answer.
#[derive(Clone, Copy)]
pub enum Detail<'a> {
    /// Its line.
    Line,
    /// Its line, and an account of the answer behind it (docs/RULES.md). If there is no memory for the account, the run writes
    /// `account: out of memory` in its place, and its outcome says so. Labels name the addresses of the account, if there are any.
    Account(Option<&'a Labels>),
}

impl<'a> Detail<'a> {
    /// Whether an account is written.
    pub fn has_account(self) -> bool
        ensures { result ≡ has_account self.entry }
    {
        match self {
            Detail::Line => false,
            Detail::Account(_) => true,
        }
    }
}

/// What is written in the place of an account for which there was no memory.
pub const NO_ACCOUNT: &str = "account: out of memory\n";

/// What is written behind the line of an answer: an account, if one is asked for, or that there was no memory for it.
pub type Behind = Result<Option<String>, AllocError>;

/// The text behind a line.
pub fn behind_text(behind: &Behind) -> &str
    ensures { result.now ≡ behind_text behind.now }
{
    match behind {
        Ok(Some(account)) => account.as_str(),
        Ok(None) => "",
        Err(_) => NO_ACCOUNT,
    }
}

/// The outcome of a line and of the text behind it.
pub fn outcome_behind(behind: &Behind, line: Outcome) -> Outcome
    ensures { result ≡ outcome_behind behind.now line }
{
    match behind {
        Ok(_) => line,
        Err(_) => line.or_worse(Outcome::NoMemory),
    }
}
