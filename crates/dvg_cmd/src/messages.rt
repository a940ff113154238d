//! Writing messages and texts, each by one write if it fits one.

ghost use Rattle.std.specs.Prelude.{◌≡◌, ◌<◌, ◌++◌, ◌∷◌, [], codes, length, IfErr, OnOk, OnErr, is_err};
ghost use Rattle.std.specs.Io.KnownBytes.{Appends};
ghost use Rattle.dvg_text.specs.Devices.{AppendsPrefix, TakesOneWrite, count_after};
ghost use Rattle.dvg_spelling.specs.Messages.{make_message};
ghost use Rattle.dvg_cmd.specs.Sent.{Writes};

use dvg_spelling::{MakeRunFault, RunFault, make_report_of};
use dvg_text::{CountedWrite, WriteFault, write_lines};

/// Writes a text of lines, or a prefix of it if the writer fails, which is 73.
pub fn write_text<W: CountedWrite>(text: &str, out: &mut W) -> Result<(), RunFault>
    ensures written { OnOk result (Appends (W.contents out.old) (W.contents out.new) text.now) }
    ensures prefix { OnErr result (AppendsPrefix (W.contents out.old) (W.contents out.new) text.now) }
    ensures one_write { 0 < length text.now → OnOk result (TakesOneWrite text.now (W.whole_writes out.old) (W.whole_writes out.new)) }
    ensures fault { IfErr result (λ fault. fault ≡ RunFault.Write) }
    ensures count { W.failures out.new ≡ count_after (is_err result) (W.failures out.old) }
{
    Ok(write_lines(text.as_bytes(), &[], &[], out)?)
}

/// Writes a message and an LF.
pub fn write_message<W: CountedWrite>(message: &str, out: &mut W) -> Result<(), WriteFault>
    ensures { Writes W.contents W.whole_writes W.failures out.old out.new result ((message.now ++ codes "\n") ∷ []) }
{
    write_lines(message.as_bytes(), b"\n", &[], out)
}

/// Writes the line of a maker's run that made no certificate. The name before it names the frame to blame, and has no control
/// characters; it is empty if no frame is to blame.
pub fn write_make_fault<W: CountedWrite>(
    name: &str,
    fault: &MakeRunFault,
    out: &mut W,
) -> Result<(), WriteFault>
    ensures { Writes W.contents W.whole_writes W.failures out.old out.new result
        ((name.now ++ (make_message fault.now ++ codes "\n")) ∷ []) }
{
    let report = make_report_of(fault);
    write_lines(name.as_bytes(), report.as_bytes(), &[], out)
}
