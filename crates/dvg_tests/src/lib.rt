//! Tests of the libraries, through what they give out. They stand in one crate, since a crate that has tests is proved twice.
//!
//! What the scripts of tests/ show over the built program is not shown here again: the runs with failing devices or refused memory,
//! accounts, frames by their own certificates, and most refusals of the maker.
#![tactic(auto)]

#[cfg(test)]
mod board;
#[cfg(test)]
mod certificates;
#[cfg(test)]
mod changed;
#[cfg(test)]
mod checking;
#[cfg(test)]
mod clocks;
#[cfg(test)]
mod columns;
#[cfg(test)]
mod devices;
#[cfg(test)]
mod expecting;
#[cfg(test)]
mod explaining;
#[cfg(test)]
mod inputs;
#[cfg(test)]
mod items;
#[cfg(test)]
mod labels;
#[cfg(test)]
mod making;
#[cfg(test)]
mod recipes;
#[cfg(test)]
mod rows;
#[cfg(test)]
mod running;
#[cfg(test)]
mod table;
#[cfg(test)]
mod touching;
#[cfg(test)]
mod words;
