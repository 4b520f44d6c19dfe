//! A script over a session: lines are read, and each is answered.
//!
//! The input is read in pieces (`serving`). A line of it (`lines`) gives an instruction (`requests`), which is carried out on the
//! session (`instructions`, `replies`, `host`); the reply is written as an answer (`writing`). The definitions that their contracts
//! name are in `specs/`.
//!
//! Entry: `serve`. Tests: `tests/session.toml`, `tests/live.py`.
#![tactic(auto)]

mod host;
mod instructions;
pub mod laws;
mod lines;
mod options;
mod parts;
mod replies;
mod requests;
mod serving;
mod writing;

pub use host::Host;
pub use options::copy_options;
pub use serving::serve;
