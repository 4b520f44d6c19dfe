// Strings, arrays and objects that several values share. A change of a shared one copies one level first.
mod arrays;
mod characters;
mod drafts;
mod iterating;
mod members;
mod names;
mod objects;
mod sharing;
mod short;
mod slots;
mod texts;

pub use arrays::Array;
pub use drafts::{Draft, Place};
pub use iterating::Iter;
pub(crate) use members::Members;
pub use objects::Object;
pub use sharing::KnownNames;
pub use texts::SharedText;
