//! Readers and writers: what they tell, the count of their failures, reads in pieces, writes of all bytes, the faults that end a
//! run, and the files of a command line as one stream.
//!
//! A reader or writer tells its bytes and whether it has failed (`traits`). Its calls that failed are counted (`watched`). Bytes
//! are read through a buffer and written as a whole (`devices`). What stops a run early is a fault with a line for standard error
//! (`faults`). Files are opened (`opener`) and read one after the other (`reader`). The definitions that their contracts name are
//! in `specs/`.
//!
//! Entry: `Read`, `Write`, `Watched`, `read_buffer`, `write`, `FileReader`. Tests: `tests/devices.toml`, `jq_tests`.
#![tactic(auto)]

mod devices;
mod faults;
mod notes;
mod opener;
mod reader;
mod traits;
mod watched;

pub use devices::{read_buffer, read_fault, write};
pub use faults::StreamFault;
pub use notes::Noted;
pub use opener::{FileSystem, Opener};
pub use reader::{FileReader, UnnamedFiles};
pub use traits::{FromStd, Read, Write};
pub use watched::Watched;
