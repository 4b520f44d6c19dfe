// The locations in a value, each as the selectors that lead to it.
ghost use Rattle.std.specs.Prelude.{◌≡◌};
ghost use Rattle.jv_value.specs.private.Locations.{selector_of};

use jv_data::SharedText;
use std::alloc::AllocError;

// A selector from an array to one of its items, or from an object to one of its members.
#[derive(Drop)]
pub enum Child {
    Item(usize),
    Member(SharedText),
}

// A location: the selectors that lead to it, the last one first.
pub type Location = Vec<Child>;

impl Clone for Child {
    ghost is_clone = { λ c d. selector_of d ≡ selector_of c };

    fn clone(&self) -> Result<Child, AllocError> {
        match self {
            Child::Item(index) => Ok(Child::Item(*index)),
            Child::Member(name) => Ok(Child::Member(name.share()?)),
        }
    }
}
