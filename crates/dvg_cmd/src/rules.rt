//! Runs that write what the numbers in lines mean.

ghost use Rattle.std.specs.Prelude.{◌≡◌, ◌⊎◌, ◌<◌, length, Err, IfErr, OnOk, OnErr};
ghost use Rattle.std.specs.Io.KnownBytes.{Appends};
ghost use Rattle.dvg_text.specs.Devices.{AppendsPrefix, TakesOneWrite, count_after};
ghost use Rattle.dvg_spelling.specs.Rules.{rows_text, rule_text};
ghost use Rattle.dvg_cmd.specs.Runs.{blames_writer};

use crate::messages::write_text;
use dvg_spelling::{Rule, RunFault, text_of_rule, text_of_rules};
use dvg_text::CountedWrite;
use std::alloc::Global;

/// Writes a table: a line for each of these, its number and what it means.
///
/// On 73 a prefix of it was written, and on 74, out of memory, nothing; there is no other fault.
pub fn run_rules<W: CountedWrite>(
    alloc: Global,
    rules: &[Rule],
    out: &mut W,
) -> Result<(), RunFault>
    ensures written { OnOk result (Appends (W.contents out.old) (W.contents out.new) (rows_text rules.now)) }
    ensures prefix { OnErr result (AppendsPrefix (W.contents out.old) (W.contents out.new) (rows_text rules.now)) }
    ensures one_write { 0 < length (rows_text rules.now) → OnOk result
        (TakesOneWrite (rows_text rules.now) (W.whole_writes out.old) (W.whole_writes out.new)) }
    ensures memory { result ≡ Err RunFault.Memory → out.new ≡ out.old }
    ensures fault { IfErr result (λ fault. (fault ≡ RunFault.Write) ⊎ (fault ≡ RunFault.Memory)) }
    ensures count { W.failures out.new ≡ count_after (blames_writer result) (W.failures out.old) }
{
    let table = text_of_rules(alloc, rules)?;
    write_text(table.as_str(), out)
}

/// Writes a rule: its number and what it means, its line, the shortest input that gets it, and what to do, a line for each.
///
/// The faults are those of [`run_rules`].
pub fn run_rule<W: CountedWrite>(alloc: Global, rule: &Rule, out: &mut W) -> Result<(), RunFault>
    ensures written { OnOk result (Appends (W.contents out.old) (W.contents out.new) (rule_text rule.now)) }
    ensures prefix { OnErr result (AppendsPrefix (W.contents out.old) (W.contents out.new) (rule_text rule.now)) }
    ensures one_write { 0 < length (rule_text rule.now) → OnOk result (TakesOneWrite (rule_text rule.now) (W.whole_writes out.old)
        (W.whole_writes out.new)) }
    ensures memory { result ≡ Err RunFault.Memory → out.new ≡ out.old }
    ensures fault { IfErr result (λ fault. (fault ≡ RunFault.Write) ⊎ (fault ≡ RunFault.Memory)) }
    ensures count { W.failures out.new ≡ count_after (blames_writer result) (W.failures out.old) }
{
    let text = text_of_rule(alloc, rule)?;
    write_text(text.as_str(), out)
}
