//! Why a certificate was refused.

ghost use Rattle.std.specs.Prelude.{◌≡◌};
ghost use Rattle.dvg_cert.specs.Numbers.{cert_number};

use thiserror::Error;

/// Why a certificate is refused. The numbers are 10 to 16, in this order.
#[derive(Clone, Copy, Debug, PartialEq, Eq, Error)]
pub enum CertWhy {
    /// 10: the line is not one of the format.
    #[error("the line is not one of the format")]
    Form,
    /// 11: an entry is out of order, or repeated.
    #[error("entries are out of order, or one is repeated")]
    Order,
    /// 12: the last line's number is not the number of entries.
    #[error("the number of entries is not that of the last line")]
    Count,
    /// 13: the text ends and no `done` line was taken.
    #[error("the text ends before a whole `done` line")]
    Unended,
    /// 14: something comes after the last line.
    #[error("something comes after the last line")]
    After,
    /// 15: the 200th byte of the line is not LF, or the line is the 4,097th entry's.
    #[error("the line or the list is too long")]
    TooLong,
    /// 16: there was no memory for an entry that could be taken.
    #[error("there is no memory for the entry")]
    Memory,
}

impl CertWhy {
    /// The number of the refusal, 10 to 16.
    pub fn number(self) -> u8
        ensures { result ≡ cert_number self }
    {
        match self {
            CertWhy::Form => 10,
            CertWhy::Order => 11,
            CertWhy::Count => 12,
            CertWhy::Unended => 13,
            CertWhy::After => 14,
            CertWhy::TooLong => 15,
            CertWhy::Memory => 16,
        }
    }
}

/// A refused certificate: the line, counted from 1, and why.
#[derive(Clone, Copy, Debug, PartialEq, Eq, Error)]
#[error("line {line}: {why}")]
pub struct CertFault {
    pub line: u32,
    pub why: CertWhy,
}

impl CertFault {
    /// The number of the refusal, 10 to 16.
    pub fn number(self) -> u8
        ensures { result ≡ cert_number self.why }
    {
        self.why.number()
    }
}
