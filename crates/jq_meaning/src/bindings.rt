// Where a name's binding is in an environment: the binding at a name's place is the one that the meaning finds by name.

pub mod lookups;
pub mod places;
pub mod programs;
pub mod scopes;
