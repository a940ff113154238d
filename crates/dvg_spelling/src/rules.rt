//! The numbers that lines name: what each means, what gets it, and what to do about it.

ghost use Rattle.std.specs.Prelude.{◌≡◌, ◌++◌, is_some, IfSome, IfOk, OnOk, string_bytes};
ghost use Rattle.dvg_spelling.specs.Each.{of_each};
ghost use Rattle.dvg_spelling.specs.Rules.{row_text, rows_text, labelled_text, rule_text, is_within, is_rule_number, numbers_below};

use crate::rule_table as table;
use itoa::Buffer;
use std::alloc::{AllocError, Global};

/// A number and its text.
#[derive(Clone, Copy, Debug)]
pub struct Rule {
    pub number: u8,
    /// What it means.
    pub meaning: &'static str,
    /// The line that the shortest input gets, without its LF.
    pub line: &'static str,
    /// What the input is made of, as the head of its column says.
    pub heading: &'static str,
    /// The shortest input that gets the number, or what else does.
    pub input: &'static str,
    /// What to do about it.
    pub cure: &'static str,
}

/// What comes after the greatest of the numbers.
const NUMBERS_END: u8 = 75;

/// The text of this number.
pub fn rule_of(number: u8) -> Option<Rule>
    ensures some { IfSome result (λ rule. rule.number ≡ number) }
    ensures known { is_some result ≡ is_rule_number number }
{
    image_rule(number)
        .or(certificate_rule(number))
        .or(shape_rule(number))
        .or(frame_rule(number))
        .or(maker_rule(number))
        .or(device_rule(number))
}

/// The text of this number where no certificate was given: its cure changes none.
pub fn own_rule_of(number: u8) -> Option<Rule>
    ensures some { IfSome result (λ rule. rule.number ≡ number) }
    ensures known { is_some result ≡ is_rule_number number }
{
    match number {
        1 => Some(table::OWN_ROM_LENGTH),
        25 => Some(table::OWN_SHAPE_OUTSIDE_WINDOW),
        46 => Some(table::OWN_FRAME_OUTSIDE_WINDOW),
        48 => Some(table::OWN_FRAME_OVER_BUDGET),
        _ => rule_of(number),
    }
}

/// Of the images: 1 and 2.
fn image_rule(number: u8) -> Option<Rule>
    ensures some { IfSome result (λ rule. rule.number ≡ number) }
    ensures known { is_some result ≡ is_within 1 2 number }
{
    match number {
        1 => Some(table::ROM_LENGTH),
        2 => Some(table::FRAME_LENGTH),
        _ => None,
    }
}

/// Of a certificate's text: 10 to 17.
fn certificate_rule(number: u8) -> Option<Rule>
    ensures some { IfSome result (λ rule. rule.number ≡ number) }
    ensures known { is_some result ≡ is_within 10 17 number }
{
    match number {
        10 => Some(table::CERT_FORM),
        11 => Some(table::CERT_ORDER),
        12 => Some(table::CERT_COUNT),
        13 => Some(table::CERT_UNENDED),
        14 => Some(table::CERT_TRAILING),
        15 => Some(table::CERT_TOO_LONG),
        16 => Some(table::CERT_MEMORY),
        17 => Some(table::CERT_WRITER),
        _ => None,
    }
}

/// Of shapes: 20 to 33.
fn shape_rule(number: u8) -> Option<Rule>
    ensures some { IfSome result (λ rule. rule.number ≡ number) }
    ensures known { is_some result ≡ is_within 20 33 number }
{
    match number {
        20 => Some(table::SHAPE_MISSING),
        21 => Some(table::SHAPE_ODD_LABS),
        22 => Some(table::SHAPE_HALT),
        23 => Some(table::SHAPE_LOST_PLACE),
        24 => Some(table::SHAPE_UNKNOWN_SCALE),
        25 => Some(table::SHAPE_OUTSIDE_WINDOW),
        26 => Some(table::SHAPE_NO_ENTRY),
        27 => Some(table::SHAPE_DEPTH),
        28 => Some(table::SHAPE_WORDS),
        29 => Some(table::SHAPE_END),
        30 => Some(table::SHAPE_SCALE),
        31 => Some(table::SHAPE_OUTSIDE_BOX),
        32 => Some(table::SHAPE_FEWER_WORDS),
        33 => Some(table::SHAPE_LESS_DEPTH),
        _ => None,
    }
}

/// Of frames: 40 to 48, and 49 and 50; of recipes: 51 to 57; of frames again: 58.
fn frame_rule(number: u8) -> Option<Rule>
    ensures some { IfSome result (λ rule. rule.number ≡ number) }
    ensures known { is_some result ≡ is_within 40 58 number }
{
    match number {
        40 => Some(table::FRAME_MISSING),
        41 => Some(table::FRAME_ODD_LABS),
        42 => Some(table::FRAME_RETURN),
        43 => Some(table::FRAME_BACKWARD_JUMP),
        44 => Some(table::FRAME_LOST_PLACE),
        45 => Some(table::FRAME_UNKNOWN_SCALE),
        46 => Some(table::FRAME_OUTSIDE_WINDOW),
        47 => Some(table::FRAME_NO_ENTRY),
        48 => Some(table::FRAME_OVER_BUDGET),
        49 => Some(table::BUDGET_RANGE),
        50 => Some(table::INDEX_MEMORY),
        51 => Some(table::RECIPE_FORM),
        52 => Some(table::RECIPE_NAME),
        53 => Some(table::RECIPE_UNENDED),
        54 => Some(table::RECIPE_TRAILING),
        55 => Some(table::RECIPE_TOO_LONG),
        56 => Some(table::RECIPE_MEMORY),
        57 => Some(table::RECIPE_AREA),
        58 => Some(table::FRAME_SLOW),
        _ => None,
    }
}

/// Of recipes: 59; of the maker: 60 to 63.
fn maker_rule(number: u8) -> Option<Rule>
    ensures some { IfSome result (λ rule. rule.number ≡ number) }
    ensures known { is_some result ≡ is_within 59 63 number }
{
    match number {
        59 => Some(table::RECIPE_STUCK),
        60 => Some(table::MAKER_NO_SHAPE),
        61 => Some(table::MAKER_DEPTH),
        62 => Some(table::MAKER_TOO_LARGE),
        63 => Some(table::MAKER_MEMORY),
        _ => None,
    }
}

/// Of devices and memory: 70 to 74.
fn device_rule(number: u8) -> Option<Rule>
    ensures some { IfSome result (λ rule. rule.number ≡ number) }
    ensures known { is_some result ≡ is_within 70 74 number }
{
    match number {
        70 => Some(table::READ_ROM),
        71 => Some(table::READ_FRAME),
        72 => Some(table::READ_CERT),
        73 => Some(table::WRITE),
        74 => Some(table::MEMORY),
        _ => None,
    }
}

/// Adds a line, the number and what it means.
fn push_row(text: &mut String, rule: &Rule) -> Result<(), AllocError>
    ensures { OnOk result (string_bytes text.new ≡ string_bytes text.old ++ row_text rule.now) }
{
    text.push_str(Buffer::new().format(rule.number))?;
    text.push_str(" ")?;
    text.push_str(rule.meaning)?;
    text.push_str("\n")
}

/// Adds a line for each of these rules.
#[tactic(auto, using(std::proofs::lemmas::Grind::common_steps, crate::proofs::Tables::rows_next))]
fn push_rows(text: &mut String, rules: &[Rule]) -> Result<(), AllocError>
    ensures { OnOk result (string_bytes text.new ≡ string_bytes text.old ++ rows_text rules.now) }
{
    for rule in rules {
        push_row(text, rule)?;
    }
    Ok(())
}

/// Adds a label and what it labels, as a line.
fn push_labelled(text: &mut String, label: &str, told: &str) -> Result<(), AllocError>
    ensures { OnOk result (string_bytes text.new ≡ string_bytes text.old ++ labelled_text label.now told.now) }
{
    text.push_str(label)?;
    text.push_str(": ")?;
    text.push_str(told)?;
    text.push_str("\n")
}

/// Adds the whole text of a rule.
fn push_rule(text: &mut String, rule: &Rule) -> Result<(), AllocError>
    ensures { OnOk result (string_bytes text.new ≡ string_bytes text.old ++ rule_text rule.now) }
{
    push_row(text, rule)?;
    push_labelled(text, "Its line", rule.line)?;
    push_labelled(text, rule.heading, rule.input)?;
    push_labelled(text, "What to do", rule.cure)
}

/// The texts of all numbers, in their order.
pub fn all_rules(alloc: Global) -> Result<Vec<Rule>, AllocError>
    ensures { IfOk result (λ rules. of_each (λ rule. rule.number) rules.items ≡ numbers_below NUMBERS_END) }
{
    let mut rules = Vec::new(alloc);
    for number in 0..NUMBERS_END {
        if let Some(rule) = rule_of(number) {
            rules.push(rule)?;
        }
    }
    Ok(rules)
}

/// The text of a table: a line for each of these, its number and what it means.
pub fn text_of_rules(alloc: Global, rules: &[Rule]) -> Result<String, AllocError>
    ensures { IfOk result (λ text. string_bytes text ≡ rows_text rules.now) }
{
    let mut text = String::new(alloc);
    push_rows(&mut text, rules)?;
    Ok(text)
}

/// The whole text of a rule, a line for each part: its number and meaning, the line with it, what gets it, and what to do.
pub fn text_of_rule(alloc: Global, rule: &Rule) -> Result<String, AllocError>
    ensures { IfOk result (λ text. string_bytes text ≡ rule_text rule.now) }
{
    let mut text = String::new(alloc);
    push_rule(&mut text, rule)?;
    Ok(text)
}
