//! The laws of texts, proved over the definitions alone.

ghost use Rattle.dvg_text.specs.Laws.{OneText, OneCertificate, OneAnswer, ReadBack, OpenAnswer, OpenPrefix, LineNumber, ShortText, PrefixRefusal, CutRefusal};

/// Each certificate has exactly one text.
#[tactic(auto, using(crate::proofs::TextLaws::one_text))]
pub fn one_text()
    ensures { OneText }
{}

/// Each text spells at most one certificate.
#[tactic(auto, using(crate::proofs::TextLaws::one_certificate))]
pub fn one_certificate()
    ensures { OneCertificate }
{}

/// Each text has exactly one answer of the reader, running out of memory aside.
#[tactic(auto, using(crate::proofs::TextLaws::each_answer))]
pub fn one_answer()
    ensures { OneAnswer }
{}

/// The text of a certificate, as `write_cert` writes it, is read back as that certificate, running out of memory aside.
#[tactic(auto, using(crate::proofs::TextLaws::read_back))]
pub fn read_back()
    ensures { ReadBack }
{}

/// A text whose whole lines were all taken is refused for its end alone, running out of memory aside.
#[tactic(auto, using(crate::proofs::TextLaws::open_answer))]
pub fn open_answer()
    ensures { OpenAnswer }
{}

/// A prefix of a text whose whole lines were all taken is such a text.
pub fn open_prefix()
    ensures { OpenPrefix }
{}

/// The line that a text has come to is one plus the number of its line ends.
pub fn line_number()
    ensures { LineNumber }
{}

/// A text whose whole lines were all taken has at most 819,800 bytes: 4099 lines of 200, one for each entry and three.
#[tactic(auto, using(crate::proofs::TextLaws::short_text))]
pub fn short_text()
    ensures { ShortText }
{}

/// A refusal of a prefix of a text, its end aside, is a refusal of the text.
#[tactic(auto, using(crate::proofs::TextLaws::refusal_stays))]
pub fn prefix_refusal()
    ensures { PrefixRefusal }
{}

/// The refusal of a piece is the answer to every text that goes on from it, running out of memory aside, however it was cut.
pub fn cut_refusal()
    ensures { CutRefusal }
{}
