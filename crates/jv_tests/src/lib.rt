//! Tests of what no command of `tests/` shows: values that share their contents, the places of faults in JSON texts, and
//! calls that the program itself does not make; and calls that are refused memory.
//!
//! The contracts are proved. These tests show that each call returns its answer if there is enough memory.
#![tactic(auto)]

#[cfg(test)]
mod calls;
#[cfg(test)]
mod containers;
#[cfg(test)]
mod deep;
#[cfg(test)]
mod deep_memory;
#[cfg(test)]
mod memory;
#[cfg(test)]
mod objects;
#[cfg(test)]
mod reading;
