//! Recipes: which frames belong to one, how long its lists are, and what is answered of it; its text, read and printed.

mod building;
mod leading;
mod lengths;
mod members;
mod sayings;
mod spellings;
mod texts;
mod verdicts;
mod worked;
