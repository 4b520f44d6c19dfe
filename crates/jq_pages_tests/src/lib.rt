//! Tests of `Pages` over three sample folds, one plain and two not.
//!
//! The contracts are proved. These tests show that each call returns its answer if there is enough memory, and that an edit which
//! finds none leaves the pages as they were. A client that applies the splices of many edits has the output and the errors.
#![tactic(auto)]

#[cfg(test)]
mod bounds;
#[cfg(test)]
mod clients;
#[cfg(test)]
mod edits;
#[cfg(test)]
mod groups;
#[cfg(test)]
mod limits;
#[cfg(test)]
mod memory;
#[cfg(test)]
mod moves;
mod samples;
#[cfg(test)]
mod shown;
