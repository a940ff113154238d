//! What is said of a frame and a recipe, and its line.

ghost use Rattle.std.specs.Prelude.{◌≡◌, ◌++◌, codes};
ghost use Rattle.dvg_recipe_cmd.specs.Answers.{membership_outcome, membership_text};

use dvg_spelling::{Outcome, Report};

/// What a line says of a frame.
#[derive(Clone, Copy, Debug, PartialEq, Eq)]
pub enum Membership {
    /// It is one of the recipe's.
    Belongs,
    /// It is none. It leaves the recipe at this word address.
    Outside { at: u16 },
    /// 2: it has a wrong length.
    WrongLength,
    /// There was no memory to find out.
    NoMemory,
    /// It could not be opened or read.
    Unread,
}

/// What was reported by the line of an answer.
pub fn membership_outcome_of(membership: Membership) -> Outcome
    ensures { result ≡ membership_outcome membership }
{
    match membership {
        Membership::Belongs => Outcome::Accepted,
        Membership::Outside { .. } | Membership::WrongLength => Outcome::Refused,
        Membership::NoMemory => Outcome::NoMemory,
        Membership::Unread => Outcome::Unread,
    }
}

/// The line of an answer, from behind the frame's name on, with its LF: 96 bytes at most. Takes no memory.
pub fn membership_line_of(membership: Membership) -> Report
    ensures { result ≡ membership_text membership ++ codes "\n" }
{
    let mut line = Report::new();
    match membership {
        Membership::Belongs => line.push(b": belongs"),
        Membership::Outside { at } => line.push_address(b": outside at ", at),
        Membership::WrongLength => line.push(b": refused 2"),
        Membership::NoMemory => line.push(b": out of memory"),
        Membership::Unread => line.push(b": cannot read"),
    }
    line.ended()
}
