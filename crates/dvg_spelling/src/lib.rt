//! How answers are spelled, and the values that the command line spells.
//!
//! [`Answer::line`] spells the line of a frame or of a recipe, [`report_of`] and its kin that of `check` and of `make`, [`status_of`] and
//! its kin the exit status, and [`message_of`] what is said on standard error. [`rule_of`] answers what a number means and what to do
//! about it. [`root_of`], [`map_of`], [`start_of`] and [`window_of`] read words of the command line.
#![tactic(auto)]

mod answer;
mod arguments;
mod dumps;
mod fault;
mod outcome;
mod places;
mod remark;
mod report;
mod rule_table;
mod rules;
mod status;
mod tally;
mod touched;
mod window;
mod within;

pub use answer::{Answer, FrameAnswer, ItemPlace, Why};
pub use arguments::{map_of, root_of, start_of};
pub use dumps::{DumpLine, dump_line_of};
pub use fault::{MakeRunFault, RunFault};
pub use outcome::{Outcome, outcome_of};
pub use places::{PlaceLine, place_line_of};
pub use remark::{RemarkKind, RemarkTally, remarks_line_of};
pub use report::{
    Report, entry_name, hex_address, hex_word, make_line_of, make_report_of, report_of,
};
pub use rules::{Rule, all_rules, own_rule_of, rule_of, text_of_rule, text_of_rules};
pub use status::{make_status_of, message_of, status_of};
pub use tally::{Summary, Tally, answer_number, count, push_count, summary_of};
pub use touched::touched_line_of;
pub use window::window_of;
pub use within::limit_of;
