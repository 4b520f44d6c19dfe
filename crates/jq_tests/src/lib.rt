//! Tests of the calls of the language and of the program, of what no command of `tests/` shows: plans, the fields of a refusal,
//! the parts of a program, and tokens that no filter has; how often a session starts the filter, and the splices of its edits;
//! natives and files; the first answers of an engine; runs and scripts whose devices fail, damaged texts in pieces, and calls that
//! are refused memory.
//!
//! The contracts are proved. These tests show that the calls return their answers if there is enough memory.
#![tactic(auto)]

#[cfg(test)]
mod calls;
#[cfg(test)]
mod clients;
#[cfg(test)]
mod edits;
#[cfg(test)]
mod failing;
#[cfg(test)]
mod fakes;
#[cfg(test)]
mod files;
#[cfg(test)]
mod fold_memory;
#[cfg(test)]
mod folds;
#[cfg(test)]
mod halts;
#[cfg(test)]
mod memory;
#[cfg(test)]
mod moves;
#[cfg(test)]
mod native_memory;
#[cfg(test)]
mod pieces;
#[cfg(test)]
mod programs;
#[cfg(test)]
mod refilters;
#[cfg(test)]
mod script_memory;
#[cfg(test)]
mod scripts;
#[cfg(test)]
mod session_memory;
#[cfg(test)]
mod starting;
#[cfg(test)]
mod tokens;
#[cfg(test)]
mod turns;
