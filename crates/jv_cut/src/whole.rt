// Cutting bytes after which no more follow.
ghost use Rattle.std.specs.Prelude.{true};
ghost use Rattle.jv_cut.specs.Whole.{FindsAll};

use crate::scanning::{Found, Scan, find};
use crate::splitting::{CutFault, count_spaces};

/// The first text of bytes after which no more follow: the length of the white space before it, and the length of both.
/// None if there is only white space. A fault comes with the length of the white space before it.
pub fn first_text(bytes: &[u8]) -> Result<Option<(usize, usize)>, (CutFault, usize)>
    ensures { FindsAll result bytes.now }
{
    let start = count_spaces(bytes);
    if start >= bytes.len() {
        return Ok(None);
    }
    match find(&bytes[start..], Scan::Fresh, true) {
        Found::Text(len) => Ok(Some((start, start + len))),
        Found::Fault(fault) => Err((fault, start)),
        Found::More(_) => Err((CutFault::Unfinished, start)),
    }
}
